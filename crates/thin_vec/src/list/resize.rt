//! The methods `resize`, `resize_with` and `try_resize_with`, which change the length of a list.
ghost use Rattle.std.specs.Prelude.{◌≡◌, ◌⊎◌, ◌+◌, ◌-◌, ◌<◌, ◌≤◌, ◌++◌, IfErr, IsErrOf, IsOk, Ok, OnErr, OnOk, Some, length, replicate, take};
ghost use Rattle.std.specs.List.{AppendsResults};
ghost use Rattle.thin_block.specs.Cost.{add_moves};
ghost use Rattle.thin_vec.specs.List.Clones.{AppendsRepeats, LeftByFailedClone, IsResized};
ghost use Rattle.thin_vec.specs.List.Capacity.{CostsMoves, FailsForRoom, OverflowsIff, PreservesList};
ghost use Rattle.thin_vec.specs.List.Resize.{LeftByFailedMake};

use crate::list::ThinVec;
use crate::put::{put_repeated, put_results};
use std::alloc::Allocator;
use thin_block::{Growth, ThinVecError};

impl<T: Clone, A: Allocator, G: Growth> ThinVec<T, A, G> {
    ghost use Rattle.thin_vec.specs.ThinVec.{HasRoomFor, IsBounded, capacity_after_reserve};

    /// Changes the length to `len`, or fails if there is no room for the new items or `value`
    /// cannot be cloned. If the list is longer, the items from index `len` onward are dropped. If
    /// it is shorter, clones of `value` are appended, and then `value` itself. If no item is
    /// appended, `value` is dropped.
    ///
    /// # Errors
    ///
    /// Fails as `extend_from_slice` does, but only if the list has to become longer. On failure,
    /// `value` is dropped.
    pub fn resize(&mut self, len: usize, value: T) -> Result<(), ThinVecError>
        // On success.
        ensures items { OnOk result (IsResized T.is_clone self.old.items len value self.new.items) }
        ensures capacity { OnOk result (capacity_after_reserve G.rule T.row self.old
            (len - length self.old.items) ≡ Some self.new.capacity) }
        ensures cost { OnOk result (CostsMoves (len - length self.old.items) self.old self.new) }

        // When it must succeed. In every other case it may fail.
        ensures succeeds { len ≤ self.old.capacity → T.is_infallible value → IsOk result }
        ensures succeeds_shorter { len ≤ length self.old.items → IsOk result }
        ensures succeeds_by_one { len ≡ length self.old.items + 1 → HasRoomFor self.old 1
            → IsOk result }

        // On failure. The first three clauses follow from `err` and `overflow`, and are what most
        // callers need. Either the list had no room, or a clone of `value` failed (`err`).
        ensures err_items { OnErr result (self.new.items ≡ self.old.items) }
        ensures err_overflow { IsErrOf result ThinVecError.CapacityOverflow
            → self.new ≡ self.old }
        ensures err_if_infallible { T.is_infallible value → OnErr result (self.new ≡ self.old) }
        ensures err { OnErr result ((¬ (HasRoomFor self.old (len - length self.old.items))
            × (self.new ≡ self.old)) ⊎ LeftByFailedClone
            (capacity_after_reserve G.rule T.row self.old (len - length self.old.items))
            T.is_infallible (replicate (len - length self.old.items - 1) value)
            self.old self.new) }
        ensures overflow { OverflowsIff
            (capacity_after_reserve G.rule T.row self.old (len - length self.old.items)) result }

        // In every case.
        ensures preserved { PreservesList T.row self.old self.new }

        // These follow from `items`, `capacity` and `err`.
        ensures len { OnOk result (length self.new.items ≡ len) }
        ensures items_if_clones_equal { OnOk result
            (((clone : T) → T.is_clone value clone → clone ≡ value)
            → self.new.items ≡ take len self.old.items ++ replicate
            (len - length self.old.items) value) }
        ensures had_room { HasRoomFor self.old (len - length self.old.items)
            → self.new.capacity ≡ self.old.capacity }
    {
        let old = self.len();
        if len <= old {
            self.truncate(len);
            return Ok(());
        }
        self.reserve(len - old)?;
        let count = len - old - 1;
        if self.push_repeated_reserved(&value, count) < count {
            self.truncate(old);
            return Err(ThinVecError::OutOfMemory);
        }
        self.push_reserved(value);
        Ok(())
    }

    // Appends `count` clones of `value`, or fewer if `value` cannot be cloned, and returns their
    // number.
    fn push_repeated_reserved(&mut self, value: &T, count: usize) -> usize
        requires room { HasRoomFor self.old count }
        ensures in_bounds { result ≤ count }
        ensures items { AppendsRepeats T.is_clone value.now result self.old.items self.new.items }
        ensures changes { self.new ≡ record self.old {
          items = self.new.items;
          cost = add_moves result self.old.cost;
        } }
        ensures stopped_at { result < count → ¬ (T.is_infallible value.now) }
        ensures bounds { IsBounded T.row self.old × IsBounded T.row self.new }
    {
        let len = self.block.len();
        let placed = put_repeated(&mut self.block, len, value, count);
        self.block.set_len(len + placed);
        placed
    }
}

impl<T: Drop, A: Allocator, G: Growth> ThinVec<T, A, G> {
    ghost use Rattle.thin_vec.specs.ThinVec.{HasRoomFor, capacity_after_reserve};

    /// Changes the length to `len`, like `resize`, but appends results of `make`, which is called
    /// once for each new item, in order.
    ///
    /// # Errors
    ///
    /// Fails only if the list has to grow, with the causes of `reserve`. On failure, `make` is
    /// dropped without being called.
    pub fn resize_with<F: FnMut() -> T>(&mut self, len: usize, make: F) -> Result<(), ThinVecError>
        requires callable { F.IsAlwaysCallable make }

        // On success.
        ensures items { OnOk result
            (AppendsResults F.step (take len self.old.items) self.new.items make) }
        ensures capacity { OnOk result (capacity_after_reserve G.rule T.row self.old
            (len - length self.old.items) ≡ Some self.new.capacity) }
        ensures cost { OnOk result (CostsMoves (len - length self.old.items) self.old self.new) }

        // When it must succeed. In every other case it may fail.
        ensures succeeds { len ≤ self.old.capacity → IsOk result }

        // On failure, which happens only without room: nothing changes.
        ensures err { OnErr result (self.new ≡ self.old) }
        ensures overflow { OverflowsIff
            (capacity_after_reserve G.rule T.row self.old (len - length self.old.items)) result }

        // In every case.
        ensures preserved { PreservesList T.row self.old self.new }

        // These follow from `items`, `capacity` and `err`.
        ensures len { OnOk result (length self.new.items ≡ len) }
        ensures had_room { HasRoomFor self.old (len - length self.old.items)
            → self.new.capacity ≡ self.old.capacity }
    {
        let old = self.len();
        if len <= old {
            self.truncate(len);
            return Ok(());
        }
        self.reserve(len - old)?;
        put_results(&mut self.block, old, len - old, make);
        self.block.set_len(len);
        Ok(())
    }

    /// Does the same as `resize_with`, but `make` may fail, as each function that allocates may.
    ///
    /// # Errors
    ///
    /// Fails if there is no room for the new items, with the cause of `reserve`. The list is then
    /// unchanged, and `make` is dropped without being called. Also fails with the first error that
    /// `make` returns. The list then keeps the items that were appended before, and the capacity
    /// for the others.
    pub fn try_resize_with<E: From<ThinVecError>, F: FnMut() -> Result<T, E>>(
        &mut self,
        len: usize,
        mut make: F,
    ) -> Result<(), E>
        requires callable { F.IsAlwaysCallable make }

        // The items, whether the call succeeds or fails.
        ensures items { AppendsResults (λ f item g. F.step f (Ok item) g)
            (take len self.old.items) self.new.items make }

        // On success.
        ensures len { OnOk result (length self.new.items ≡ len) }
        ensures capacity { OnOk result (capacity_after_reserve G.rule T.row self.old
            (len - length self.old.items) ≡ Some self.new.capacity) }
        ensures cost { OnOk result (CostsMoves (len - length self.old.items) self.old self.new) }

        // When it must succeed. In every other case it may fail.
        ensures succeeds_shorter { len ≤ length self.old.items → IsOk result }

        // On failure. Either there was no room, and nothing changes, or `make` returned the error.
        ensures err { IfErr result (λ error. ((cause : ThinVecError)
            × FailsForRoom G.rule T.row self.old (len - length self.old.items) cause
            × E.from_gives cause error × (self.new ≡ self.old))
            ⊎ LeftByFailedMake (capacity_after_reserve G.rule T.row self.old
            (len - length self.old.items)) F.step make error self.old self.new) }
        ensures err_len { OnErr result (length self.new.items < len) }

        // In every case.
        ensures preserved { PreservesList T.row self.old self.new }

        // This follows from `capacity` and `err`.
        ensures had_room { HasRoomFor self.old (len - length self.old.items)
            → self.new.capacity ≡ self.old.capacity }
    {
        let old = self.len();
        if len <= old {
            self.truncate(len);
            return Ok(());
        }
        self.reserve(len - old)?;
        while self.len() < len {
            let item = make()?;
            self.push_reserved(item);
        }
        Ok(())
    }
}
