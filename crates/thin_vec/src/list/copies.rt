//! The methods that copy items of a `Copy` type. They copy the items byte for byte, without calling
//! `clone`.
ghost use Rattle.std.specs.Prelude.{◌≡◌, ◌+◌, ◌++◌, IfErr, IfOk, IsOk, OnErr, OnOk, Some, length};
ghost use Rattle.thin_block.specs.Cost.{add_moves};
ghost use Rattle.thin_vec.specs.List.Capacity.{CostsMoves, IsFreshList, OverflowsIff, PreservesList};

use crate::list::ThinVec;
use std::alloc::Allocator;
use thin_block::{Growth, ThinVecError};

impl<T: Copy, A: Allocator, G: Growth> ThinVec<T, A, G> {
    ghost use Rattle.thin_vec.specs.ThinVec.{HasRoomFor, capacity_after_reserve, cost_of_new};

    /// Appends a copy of each item of `items`, in order, or fails and changes nothing if the list
    /// has to grow and cannot. This is faster than `extend_from_slice`.
    ///
    /// # Errors
    ///
    /// Fails only if the list has to grow, with the causes of `reserve`.
    pub fn extend_from_copies(&mut self, items: &[T]) -> Result<(), ThinVecError>
        // On success.
        ensures items { OnOk result (self.new.items ≡ self.old.items ++ items.now) }
        ensures capacity { OnOk result (capacity_after_reserve G.rule T.row self.old
            (length items.now) ≡ Some self.new.capacity) }
        ensures cost { OnOk result (CostsMoves (length items.now) self.old self.new) }

        // When it must succeed. In every other case it may fail.
        ensures succeeds { HasRoomFor self.old (length items.now) → IsOk result }

        // On failure, which happens only without room: nothing changes.
        ensures err { OnErr result (self.new ≡ self.old) }
        ensures overflow { OverflowsIff
            (capacity_after_reserve G.rule T.row self.old (length items.now)) result }

        // In every case.
        ensures preserved { PreservesList T.row self.old self.new }

        // These follow from `items`, `capacity` and `err`.
        ensures len { OnOk result
            (length self.new.items ≡ length self.old.items + length items.now) }
        ensures had_room { HasRoomFor self.old (length items.now)
            → self.new.capacity ≡ self.old.capacity }
    {
        // The proof of `overflow` names the cause, which `?` would hide behind `From`.
        match self.reserve(items.len()) {
            Ok(()) => (),
            Err(cause) => return Err(cause),
        }
        self.extend_from_copies_reserved(items);
        Ok(())
    }

    /// Makes a list of copies of all items, in order, or fails if there is no memory for it. The
    /// new list owns `alloc`. This is faster than `clone`.
    ///
    /// # Errors
    ///
    /// Fails with `OutOfMemory` if `alloc` fails, and then drops `alloc`.
    pub fn clone_copies(&self, alloc: A) -> Result<ThinVec<T, A, G>, ThinVecError>
        // On success.
        ensures items { IfOk result (λ list. list.items ≡ self.now.items) }
        ensures capacity { IfOk result (λ list. list.capacity ≡ length self.now.items) }
        ensures cost { IfOk result (λ list. list.cost ≡ add_moves (length self.now.items)
            (cost_of_new (length self.now.items))) }
        ensures fresh { IfOk result (IsFreshList T.row alloc) }

        // When it must succeed. In every other case it may fail.
        ensures succeeds_empty { length self.now.items ≡ 0 → IsOk result }

        // On failure.
        ensures cause { IfErr result (λ cause. cause ≡ ThinVecError.OutOfMemory) }
    {
        let mut list = ThinVec::with_fitting_capacity(alloc, self.len())?;
        list.extend_from_copies_reserved(self.as_slice());
        Ok(list)
    }

    /// Appends a copy of each item of `items` to a list that has room for them, for example after
    /// `reserve`.
    pub fn extend_from_copies_reserved(&mut self, items: &[T])
        requires room { HasRoomFor self.old (length items.now) }
        ensures items { self.new.items ≡ self.old.items ++ items.now }
        ensures cost { self.new.cost ≡ add_moves (length items.now) self.old.cost }
        ensures capacity { self.new.capacity ≡ self.old.capacity }
        ensures preserved { PreservesList T.row self.old self.new }
    {
        prove!(items.len() <= self.capacity() - self.len());
        let len = self.block.len();
        if items.is_empty() {
            return;
        }
        self.block.copy_in(len, items);
        self.block.store_len(len + items.len());
    }
}
