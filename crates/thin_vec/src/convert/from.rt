//! Methods that make a list from an array, a vector, a boxed slice, a slice or a text.
ghost use Rattle.std.specs.Prelude.{◌≡◌, ◌≤◌, [], IfErr, IfOk, IsOk, length};
ghost use Rattle.std.specs.Box.{boxed_slice_items};
ghost use Rattle.std.specs.List.{AllZip};
ghost use Rattle.thin_block.specs.Cost.{add_moves};
ghost use Rattle.thin_vec.specs.List.Clones.{ClonesEqual};
ghost use Rattle.thin_vec.specs.ThinVec.{IsBounded, cost_of_new};
ghost use Rattle.thin_vec.specs.List.Capacity.{OverflowsIffTooLarge, IsFreshList, map_cause};

use crate::errors::Rejected;
use crate::list::ThinVec;
use crate::put::put_vec;
use std::alloc::Allocator;
use std::boxed::BoxedSlice;
use thin_block::{ThinVecError, fits};

impl<T, A: Allocator> ThinVec<T, A> {
    /// Moves the items of an array into a new list, or fails and returns the array in the error if
    /// there is no memory for the list.
    ///
    /// If `T` is a type parameter of the caller, the caller needs the precondition
    /// `N * type_size T.row < 2 ^ 63`. The macro `thin_vec!` does not need it.
    ///
    /// # Errors
    ///
    /// Fails as `with_capacity` does.
    pub fn from_array<const N: usize>(
        alloc: A,
        items: [T; N],
    ) -> Result<ThinVec<T, A>, Rejected<[T; N]>>
        // On success.
        ensures items { IfOk result (λ list. list.items ≡ items) }
        ensures capacity { IfOk result (λ list. list.capacity ≡ N) }
        ensures cost { IfOk result (λ list. list.cost ≡ add_moves N (cost_of_new N)) }
        ensures fresh { IfOk result (IsFreshList T.row alloc) }

        // When it must succeed. In every other case it may fail.
        ensures succeeds { N ≡ 0 → IsOk result }

        // On failure.
        ensures value_returned { IfErr result (λ error. error.value ≡ items) }
        ensures overflow { OverflowsIffTooLarge T.row N (map_cause result) }
    {
        match ThinVec::with_capacity(alloc, N) {
            Ok(mut list) => {
                let len = count(&items);
                list.block.put_array(0, items);
                list.block.set_len(len);
                Ok(list)
            }
            Err(cause) => Err(Rejected {
                value: items,
                cause,
            }),
        }
    }

    /// Moves the items of a vector into a new list and frees the allocation of the vector, or fails
    /// and returns the vector in the error if there is no memory for the list.
    ///
    /// # Errors
    ///
    /// Fails as `with_capacity` does.
    pub fn from_vec<B: Allocator>(
        alloc: A,
        items: Vec<T, B>,
    ) -> Result<ThinVec<T, A>, Rejected<Vec<T, B>>>
        // On success.
        ensures items { IfOk result (λ list. list.items ≡ items.items) }
        ensures capacity { IfOk result (λ list. list.capacity ≡ length items.items) }
        ensures cost { IfOk result
            (λ list. list.cost ≡ add_moves (length items.items)
            (cost_of_new (length items.items))) }
        ensures fresh { IfOk result (IsFreshList T.row alloc) }

        // When it must succeed. In every other case it may fail.
        ensures succeeds_empty { length items.items ≡ 0 → IsOk result }

        // On failure.
        ensures value_returned { IfErr result (λ error. error.value ≡ items) }
        ensures overflow { OverflowsIffTooLarge T.row (length items.items) (map_cause result) }
    {
        match ThinVec::with_capacity(alloc, items.len()) {
            Ok(mut list) => {
                list.extend_from_vec_reserved(items);
                Ok(list)
            }
            Err(cause) => Err(Rejected {
                value: items,
                cause,
            }),
        }
    }

    /// Moves the items of a boxed slice into a new list and frees the allocation of the boxed
    /// slice, or fails and returns the boxed slice in the error if there is no memory for the list.
    ///
    /// # Errors
    ///
    /// Fails as `with_capacity` does.
    pub fn from_boxed_slice<B: Allocator>(
        alloc: A,
        items: BoxedSlice<T, B>,
    ) -> Result<ThinVec<T, A>, Rejected<BoxedSlice<T, B>>>
        // On success.
        ensures items { IfOk result (λ list. list.items ≡ boxed_slice_items items) }
        ensures capacity { IfOk result (λ list. list.capacity ≡ length (boxed_slice_items items)) }
        ensures cost { IfOk result
            (λ list. list.cost ≡ add_moves (length (boxed_slice_items items))
            (cost_of_new (length (boxed_slice_items items)))) }
        ensures fresh { IfOk result (IsFreshList T.row alloc) }

        // When it must succeed. In every other case it may fail.
        ensures succeeds_empty { length (boxed_slice_items items) ≡ 0 → IsOk result }

        // On failure.
        ensures value_returned { IfErr result (λ error. error.value ≡ items) }
        ensures overflow { OverflowsIffTooLarge T.row (length (boxed_slice_items items))
            (map_cause result) }
    {
        match ThinVec::with_capacity(alloc, items.len()) {
            Ok(mut list) => {
                list.extend_from_vec_reserved(items.into_vec());
                Ok(list)
            }
            Err(cause) => Err(Rejected {
                value: items,
                cause,
            }),
        }
    }

    // Moves the items of `items` into this empty list, and frees the vector.
    fn extend_from_vec_reserved<B: Allocator>(&mut self, items: Vec<T, B>)
        requires is_empty { self.old.items ≡ [] }
        requires room { length items.items ≤ self.old.capacity }
        requires bounds { IsBounded T.row self.old }
        ensures changes { self.new ≡ record self.old {
          items = items.items;
          cost = add_moves (length items.items) self.old.cost;
        } }
        ensures bounds { IsBounded T.row self.new }
    {
        let len = items.len();
        put_vec(&mut self.block, 0, items);
        self.block.set_len(len);
    }
}

impl<T: Copy, A: Allocator> ThinVec<T, A> {
    /// Makes a list of copies of the items of a slice, or fails if there is no memory for it. This
    /// is faster than `from_slice`.
    ///
    /// # Errors
    ///
    /// Fails as `with_capacity` does.
    pub fn from_copies(alloc: A, items: &[T]) -> Result<ThinVec<T, A>, ThinVecError>
        // On success.
        ensures items { IfOk result (λ list. list.items ≡ items.now) }
        ensures len { IfOk result (λ list. length list.items ≡ length items.now) }
        ensures capacity { IfOk result (λ list. list.capacity ≡ length items.now) }
        ensures cost { IfOk result
            (λ list. list.cost ≡ add_moves (length items.now) (cost_of_new (length items.now))) }
        ensures fresh { IfOk result (IsFreshList T.row alloc) }

        // When it must succeed. In every other case it may fail.
        ensures succeeds_empty { length items.now ≡ 0 → IsOk result }

        // On failure.
        ensures overflow { OverflowsIffTooLarge T.row (length items.now) result }
    {
        match ThinVec::with_capacity(alloc, items.len()) {
            Ok(mut list) => {
                list.extend_from_copies_reserved(items);
                Ok(list)
            }
            Err(cause) => Err(cause),
        }
    }
}

impl<A: Allocator> ThinVec<u8, A> {
    ghost use Rattle.std.specs.Borrow.{u8};

    /// Makes a list of the bytes of `text`, or fails if there is no memory for it.
    ///
    /// # Errors
    ///
    /// Fails as `with_capacity` does.
    pub fn from_str(alloc: A, text: &str) -> Result<ThinVec<u8, A>, ThinVecError>
        // On success.
        ensures items { IfOk result (λ list. list.items ≡ text.now) }
        ensures capacity { IfOk result (λ list. list.capacity ≡ length text.now) }
        ensures cost { IfOk result
            (λ list. list.cost ≡ add_moves (length text.now) (cost_of_new (length text.now))) }
        ensures fresh { IfOk result (IsFreshList u8 alloc) }

        // When it must succeed. In every other case it may fail.
        ensures succeeds_empty { length text.now ≡ 0 → IsOk result }

        // On failure.
        ensures overflow { OverflowsIffTooLarge u8 (length text.now) result }
    {
        ThinVec::from_copies(alloc, text.as_bytes())
    }
}

impl<T: Clone, A: Allocator> ThinVec<T, A> {
    /// Makes a list of clones of the items of a slice, or fails if there is no memory for it or an
    /// item cannot be cloned. For `Copy` items, `from_copies` is faster.
    ///
    /// # Errors
    ///
    /// Fails as `with_capacity` does, and with `OutOfMemory` if an item cannot be cloned. On
    /// failure, `alloc` and all clones are dropped.
    #[tactic(auto, using(thin_block::proofs::CapacityLemmas::exact))]
    pub fn from_slice(alloc: A, items: &[T]) -> Result<ThinVec<T, A>, ThinVecError>
        // On success.
        ensures items { IfOk result (λ list. AllZip T.is_clone items.now list.items) }
        ensures items_if_clones_equal { IfOk result (λ list. ClonesEqual T.is_clone
            → list.items ≡ items.now) }
        ensures capacity { IfOk result (λ list. list.capacity ≡ length items.now) }
        ensures cost { IfOk result
            (λ list. list.cost ≡ add_moves (length items.now) (cost_of_new (length items.now))) }
        ensures fresh { IfOk result (IsFreshList T.row alloc) }

        // When it must succeed. In every other case it may fail.
        ensures succeeds_empty { length items.now ≡ 0 → IsOk result }

        // On failure.
        ensures overflow { OverflowsIffTooLarge T.row (length items.now) result }
    {
        if !fits::<T>(items.len()) {
            return Err(ThinVecError::CapacityOverflow);
        }
        ThinVec::from_fitting_slice(alloc, items)
    }
}

// Returns the length of `items`. `from_array` needs the contract once the array was moved.
fn count<T, const N: usize>(items: &[T; N]) -> usize
    ensures value { result ≡ N }
    ensures len { result ≡ length items.now }
{
    items.len()
}
