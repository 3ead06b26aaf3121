//! Conversions of a list into a vector, a boxed slice or an array.
ghost use Rattle.std.specs.Prelude.{◌≡◌, ◌↔◌, IfErr, IfOk, IsOk, length, vec_capacity, vec_len};
ghost use Rattle.std.specs.Box.{boxed_slice_items, boxed_slice_len};
ghost use Rattle.thin_vec.specs.ThinVec.{IsBounded};

use crate::errors::Rejected;
use crate::list::ThinVec;
use std::alloc::Allocator;
use std::boxed::BoxedSlice;
use thin_block::{Growth, ThinVecError};

impl<T, A: Allocator, G: Growth> ThinVec<T, A, G> {
    /// Moves the items of the list into a new `Vec` with the allocator `alloc` and frees the
    /// allocation of the list, or fails and returns the list in the error if `alloc` fails.
    ///
    /// # Errors
    ///
    /// The cause is `OutOfMemory`. The list is unchanged, and `alloc` is dropped.
    pub fn into_vec(self, alloc: A) -> Result<Vec<T, A>, Rejected<ThinVec<T, A, G>>>
        // On success.
        ensures items { IfOk result (λ vec. vec.items ≡ self.items) }
        ensures len { IfOk result (λ vec. vec_len vec ≡ length self.items) }
        ensures capacity { IfOk result (λ vec. vec_capacity vec ≡ length self.items) }

        // When it must succeed. In every other case it may fail.
        ensures succeeds_empty { length self.items ≡ 0 → IsOk result }

        // On failure.
        ensures cause { IfErr result (λ refused. refused.cause ≡ ThinVecError.OutOfMemory) }
        ensures value_returned { IfErr result (λ refused. refused.value ≡ self) }
        ensures bounds { IfErr result (λ refused. IsBounded T.row refused.value) }
    {
        let mut vec = match Vec::with_capacity(alloc, self.len()) {
            Ok(vec) => vec,
            Err(_refused) => {
                return Err(Rejected {
                    value: self,
                    cause: ThinVecError::OutOfMemory,
                });
            }
        };
        let mut rest = self.into_iter();
        while let Some(item) = rest.next() {
            vec.push_reserved(item);
        }
        rest.release();
        Ok(vec)
    }

    /// Moves the items of the list into a new boxed slice, like `into_vec`, or fails and returns
    /// the list in the error if `alloc` fails.
    ///
    /// # Errors
    ///
    /// Fails as `into_vec` does.
    pub fn into_boxed_slice(self, alloc: A) -> Result<BoxedSlice<T, A>, Rejected<ThinVec<T, A, G>>>
        // On success.
        ensures items { IfOk result (λ boxed. boxed_slice_items boxed ≡ self.items) }
        ensures len { IfOk result (λ boxed. boxed_slice_len boxed ≡ length self.items) }

        // When it must succeed. In every other case it may fail.
        ensures succeeds_empty { length self.items ≡ 0 → IsOk result }

        // On failure.
        ensures cause { IfErr result (λ refused. refused.cause ≡ ThinVecError.OutOfMemory) }
        ensures value_returned { IfErr result (λ refused. refused.value ≡ self) }
        ensures bounds { IfErr result (λ refused. IsBounded T.row refused.value) }
    {
        Ok(self.into_vec(alloc)?.into_boxed_slice())
    }

    /// Moves the items into an array and frees the allocation of the list, or fails and returns the
    /// list as the error if it does not have exactly `N` items.
    ///
    /// If `T` is a type parameter of the caller, the caller needs the precondition of `from_array`.
    /// The methods `into_vec` and `into_iter` do not need it.
    ///
    /// # Errors
    ///
    /// Fails if and only if the number of items is not `N`.
    pub fn into_array<const N: usize>(self) -> Result<[T; N], ThinVec<T, A, G>>
        // On success.
        ensures items { IfOk result (λ items. items ≡ self.items) }

        // When it succeeds.
        ensures variant { IsOk result ↔ (length self.items ≡ N) }

        // On failure.
        ensures value_returned { IfErr result (λ list. list ≡ self) }
        ensures bounds { IfErr result (λ list. IsBounded T.row list) }
    {
        if self.len() != N {
            return Err(self);
        }
        let (mut block, alloc) = self.into_parts();
        let items = block.take_array(0);
        block.release(&alloc);
        Ok(items)
    }
}
