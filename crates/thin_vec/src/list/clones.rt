//! The methods that clone items.
ghost use Rattle.std.specs.Prelude.{◌≡◌, ◌⊎◌, ◌+◌, ◌<◌, ◌≤◌, [], ◌++◌, ◌-◌, All, HoldsAt, IfErr, IfOk, IsErrOf, IsOk, OnErr, OnOk, Some, length, slice_range, take};
ghost use Rattle.std.specs.List.{AllZip, AppendsClones};
ghost use Rattle.thin_block.specs.Capacity.{Fits};
ghost use Rattle.thin_block.specs.Cost.{add_moves};
ghost use Rattle.thin_vec.specs.List.Clones.{ClonesEqual, FailsAtClone, LeftByFailedClone, IsClonedList};
ghost use Rattle.thin_vec.specs.List.Capacity.{CostsMoves, IsFreshList, OverflowsIff, PreservesList};

use crate::list::ThinVec;
use crate::put::put_clones;
use std::alloc::{AllocError, Allocator};
use thin_block::{Growth, ThinVecError};

impl<T: Clone, A: Allocator, G: Growth> ThinVec<T, A, G> {
    ghost use Rattle.thin_vec.specs.ThinVec.{HasRoomFor, IsBounded, capacity_after_reserve, cost_of_new};

    /// Appends a clone of each item of `items`, in order, or fails if there is no room for them or
    /// an item cannot be cloned. For `Copy` items, `extend_from_copies` is faster.
    ///
    /// # Errors
    ///
    /// Fails if the list has to grow and cannot, with the causes of `reserve`. Also fails with
    /// `OutOfMemory` if an item cannot be cloned. In this case, all clones are dropped, and the
    /// list keeps its old items and its new capacity. (Tests show that it keeps the new capacity.)
    pub fn extend_from_slice(&mut self, items: &[T]) -> Result<(), ThinVecError>
        // On success: the old items, followed by a clone of each item of `items`.
        ensures items { OnOk result
            (AppendsClones T.is_clone self.old.items self.new.items items.now) }
        ensures capacity { OnOk result (capacity_after_reserve G.rule T.row self.old
            (length items.now) ≡ Some self.new.capacity) }
        ensures cost { OnOk result (CostsMoves (length items.now) self.old self.new) }

        // When it must succeed. In every other case it may fail.
        ensures succeeds { HasRoomFor self.old (length items.now) → All T.is_infallible items.now
            → IsOk result }

        // On failure. The first three clauses follow from `err` and `overflow`, and are what most
        // callers need. `err` distinguishes two cases. In the first, the list had no room, and
        // nothing changed. In the second, a clone failed: the field `at` is the index of its item.
        // Then the capacity is that of a success, and the cost includes one move for each of the
        // `at` clones that were made before. (If the list had no room and a clone fails, both cases
        // are possible. Tests show that it is the second.)
        ensures err_items { OnErr result (self.new.items ≡ self.old.items) }
        ensures err_overflow { IsErrOf result ThinVecError.CapacityOverflow
            → self.new ≡ self.old }
        ensures err_if_infallible { All T.is_infallible items.now
            → OnErr result (self.new ≡ self.old) }
        ensures err { OnErr result ((¬ (HasRoomFor self.old (length items.now))
            × (self.new ≡ self.old))
            ⊎ LeftByFailedClone (capacity_after_reserve G.rule T.row self.old (length items.now))
            T.is_infallible items.now self.old self.new) }
        ensures overflow { OverflowsIff
            (capacity_after_reserve G.rule T.row self.old (length items.now)) result }

        // In every case.
        ensures preserved { PreservesList T.row self.old self.new }

        // These follow from `items`, `capacity` and `err`.
        ensures items_if_clones_equal { OnOk result (ClonesEqual T.is_clone
            → self.new.items ≡ self.old.items ++ items.now) }
        ensures had_room { HasRoomFor self.old (length items.now)
            → self.new.capacity ≡ self.old.capacity }
    {
        self.reserve(items.len())?;
        self.extend_from_slice_reserved(items)
    }

    /// Makes a list of clones of all items, in order, or fails if there is no memory for it or an
    /// item cannot be cloned. Requests the block, and then clones each item once, from the first to
    /// the last. (The contract does not say how often or in which order `T::clone` is called.) The
    /// new list owns `alloc`. For `Copy` items, `clone_copies` is faster.
    ///
    /// # Errors
    ///
    /// Fails with `OutOfMemory` if `alloc` refuses the memory, or if an item cannot be cloned. On
    /// failure, `alloc` and all clones are dropped.
    pub fn clone(&self, alloc: A) -> Result<ThinVec<T, A, G>, ThinVecError>
        // On success: a clone of each item, in order (`items`), in a list that has the allocator
        // `alloc` and no spare capacity. This costs one move for each item, and one block, unless
        // the list has no items.
        ensures items { IfOk result (λ list. AllZip T.is_clone self.now.items list.items) }
        ensures capacity { IfOk result (λ list. list.capacity ≡ length self.now.items) }
        ensures cost { IfOk result (λ list. list.cost ≡ add_moves (length self.now.items)
            (cost_of_new (length self.now.items))) }
        ensures fresh { IfOk result (IsFreshList T.row alloc) }

        // When it must succeed. In every other case it may fail.
        ensures succeeds_empty { length self.now.items ≡ 0 → IsOk result }

        // On failure.
        ensures cause { IfErr result (λ cause. cause ≡ ThinVecError.OutOfMemory) }

        // This follows from `items`.
        ensures items_if_clones_equal { IfOk result (λ list. ClonesEqual T.is_clone
            → list.items ≡ self.now.items) }
    {
        ThinVec::from_fitting_slice(alloc, self.as_slice())
    }

    // Does the same as `from_slice`, for any growth rule, and a number of items that is not too
    // large.
    pub(crate) fn from_fitting_slice(
        alloc: A,
        items: &[T],
    ) -> Result<ThinVec<T, A, G>, ThinVecError>
        requires fits { Fits T.row (length items.now) }

        // On success.
        ensures items { IfOk result (λ list. AllZip T.is_clone items.now list.items) }
        ensures items_if_clones_equal { IfOk result (λ list. ClonesEqual T.is_clone
            → list.items ≡ items.now) }
        ensures capacity { IfOk result (λ list. list.capacity ≡ length items.now) }
        ensures cost { IfOk result (λ list. list.cost ≡ add_moves (length items.now)
            (cost_of_new (length items.now))) }
        ensures fresh { IfOk result (IsFreshList T.row alloc) }

        // When it must succeed. In every other case it may fail.
        ensures succeeds_empty { length items.now ≡ 0 → IsOk result }

        // On failure.
        ensures cause { IfErr result (λ cause. cause ≡ ThinVecError.OutOfMemory) }
    {
        let mut list = ThinVec::with_fitting_capacity(alloc, items.len())?;
        list.extend_from_slice_reserved(items)?;
        Ok(list)
    }

    /// Appends a clone of each item of `items` to a list that has room for them, for example after
    /// `reserve`, or fails if an item cannot be cloned.
    ///
    /// # Errors
    ///
    /// The cause is `OutOfMemory`, and all clones are dropped.
    pub fn extend_from_slice_reserved(&mut self, items: &[T]) -> Result<(), ThinVecError>
        requires room { HasRoomFor self.old (length items.now) }

        // On success: the old items, followed by a clone of each item of `items`.
        ensures items { OnOk result
            (AppendsClones T.is_clone self.old.items self.new.items items.now) }
        ensures cost { OnOk result (self.new.cost ≡ add_moves (length items.now) self.old.cost) }

        // When it must succeed. In every other case it may fail.
        ensures succeeds { All T.is_infallible items.now → IsOk result }

        // On failure. The old items stay, and the clones that were made count as moves.
        ensures err_items { OnErr result (self.new.items ≡ self.old.items) }
        ensures err { OnErr result (FailsAtClone T.is_infallible items.now self.old.cost
            self.new.cost) }
        ensures cause { IfErr result (λ cause. cause ≡ ThinVecError.OutOfMemory) }

        // In every case.
        ensures capacity { self.new.capacity ≡ self.old.capacity }
        ensures preserved { PreservesList T.row self.old self.new }

        // This follows from `items`.
        ensures items_if_clones_equal { OnOk result (ClonesEqual T.is_clone
            → self.new.items ≡ self.old.items ++ items.now) }
    {
        let len = self.len();
        prove!(items.len() <= self.capacity() - len);
        if self.push_clones_reserved(items) < items.len() {
            self.truncate(len);
            return Err(ThinVecError::OutOfMemory);
        }
        Ok(())
    }

    // Appends clones of `items` until an item cannot be cloned, and returns their number.
    fn push_clones_reserved(&mut self, items: &[T]) -> usize
        requires room { HasRoomFor self.old (length items.now) }
        ensures in_bounds { result ≤ length items.now }
        ensures items { AppendsClones T.is_clone self.old.items self.new.items
            (take result items.now) }
        ensures changes { self.new ≡ record self.old {
          items = self.new.items;
          cost = add_moves result self.old.cost;
        } }
        ensures stopped_at { result < length items.now
            → HoldsAt (λ x. ¬ (T.is_infallible x)) items.now result }
        ensures bounds { IsBounded T.row self.old × IsBounded T.row self.new }
    {
        let len = self.block.len();
        let placed = put_clones(&mut self.block, len, items);
        self.block.set_len(len + placed);
        placed
    }

    /// Appends clones of the items `start..end` of the list, in order, or fails if there is no room
    /// for them or an item cannot be cloned.
    ///
    /// # Errors
    ///
    /// Fails as `extend_from_slice` does.
    pub fn extend_from_within(&mut self, start: usize, end: usize) -> Result<(), ThinVecError>
        requires start_le_end { start ≤ end }
        requires in_bounds { end ≤ length self.old.items }

        // On success.
        ensures items { OnOk result
            (AppendsClones T.is_clone self.old.items self.new.items
            (slice_range self.old.items start end)) }
        ensures capacity { OnOk result (capacity_after_reserve G.rule T.row self.old
            (end - start) ≡ Some self.new.capacity) }
        ensures cost { OnOk result (CostsMoves (end - start) self.old self.new) }

        // When it must succeed. In every other case it may fail.
        ensures succeeds { HasRoomFor self.old (end - start)
            → All T.is_infallible (slice_range self.old.items start end) → IsOk result }

        // On failure. The first three clauses follow from `err` and `overflow`, and are what most
        // callers need. `err` distinguishes two cases. In the first, the list had no room, and
        // nothing changed. In the second, a clone failed: the field `at` is the index of its item.
        // Then the capacity is that of a success, and the cost includes one move for each of the
        // `at` clones that were made before. (If the list had no room and a clone fails, both cases
        // are possible.)
        ensures err_items { OnErr result (self.new.items ≡ self.old.items) }
        ensures err_overflow { IsErrOf result ThinVecError.CapacityOverflow
            → self.new ≡ self.old }
        ensures err_if_infallible { All T.is_infallible (slice_range self.old.items start end)
            → OnErr result (self.new ≡ self.old) }
        ensures err { OnErr result ((¬ (HasRoomFor self.old (end - start)) × (self.new ≡ self.old))
            ⊎ LeftByFailedClone (capacity_after_reserve G.rule T.row self.old (end - start))
            T.is_infallible (slice_range self.old.items start end) self.old self.new) }
        ensures overflow { OverflowsIff
            (capacity_after_reserve G.rule T.row self.old (end - start)) result }

        // In every case.
        ensures preserved { PreservesList T.row self.old self.new }

        // These follow from `items`, `capacity` and `err`.
        ensures items_if_clones_equal { OnOk result (ClonesEqual T.is_clone
            → self.new.items ≡ self.old.items ++ slice_range self.old.items start end) }
        ensures had_room { HasRoomFor self.old (end - start)
            → self.new.capacity ≡ self.old.capacity }
    {
        prove!(start <= end);
        prove!(end <= self.len());
        self.reserve(end - start)?;
        let len = self.len();
        if self.push_clones_within(start, end) < end - start {
            self.truncate(len);
            return Err(ThinVecError::OutOfMemory);
        }
        Ok(())
    }

    // Appends clones of the items `start..end` until an item cannot be cloned, and returns their
    // number. It does not call `put_clones`, because a slice of the list cannot be borrowed while
    // its block changes.
    fn push_clones_within(&mut self, start: usize, end: usize) -> usize
        requires start_le_end { start ≤ end }
        requires in_bounds { end ≤ length self.old.items }
        requires room { HasRoomFor self.old (end - start) }
        requires bounds { IsBounded T.row self.old }

        ensures in_bounds { result ≤ end - start }
        ensures items { AppendsClones T.is_clone self.old.items self.new.items
            (take result (slice_range self.old.items start end)) }
        ensures len { length self.new.items ≡ length self.old.items + result }
        ensures changes { self.new ≡ record self.old {
          items = self.new.items;
          cost = add_moves result self.old.cost;
        } }

        ensures stopped_at { result < end - start → HoldsAt (λ x. ¬ (T.is_infallible x))
            (slice_range self.old.items start end) result }

        // In every case.
        ensures bounds { IsBounded T.row self.new }
    {
        let count = end - start;
        for i in 0..count {
            match self[start + i].clone() {
                Ok(item) => self.push_reserved(item),
                Err(_) => return i,
            }
        }
        count
    }
}

impl<T: Clone, A: Allocator + Copy, G: Growth> Clone for ThinVec<T, A, G> {
    ghost is_clone = { IsClonedList T.is_clone };

    // The clone of an empty list requests no memory; that of any other list may be refused.
    ghost is_infallible = { λ list. list.items ≡ [] };

    fn clone(&self) -> Result<Self, AllocError> {
        match ThinVec::clone(self, *self.allocator()) {
            Ok(other) => Ok(other),
            Err(_refused) => Err(AllocError),
        }
    }
}
