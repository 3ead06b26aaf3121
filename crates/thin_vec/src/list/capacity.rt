//! The methods that reserve room in a list. Only the function `grow_to` grows a list, and only the
//! function `grow_for` calls the growth rule.
ghost use Rattle.std.specs.Prelude.{◌≡◌, ◌⊎◌, ◌+◌, ◌*◌, ◌<◌, ◌≤◌, [], IfErr, IfOk, IsOk, OnErr, OnOk, Some, length, max};
ghost use Rattle.thin_block.specs.Capacity.{Fits};
ghost use Rattle.thin_block.specs.Cost.{add_realloc};
ghost use Rattle.thin_block.specs.Growth.{GrowsValidly};
ghost use Rattle.thin_vec.specs.List.Capacity.{IsFreshList, OverflowsIff, OverflowsIffTooLarge, PreservesList};

use crate::list::ThinVec;
use std::alloc::Allocator;
use std::marker::PhantomData;
use thin_block::{Block, Growth, ThinVecError, fits};

impl<T, A: Allocator, G: Growth> ThinVec<T, A, G> {
    ghost use Rattle.thin_vec.specs.ThinVec.{HasRoomFor, IsBounded, capacity_after_reserve, cost_after_resize, cost_of_new, capacity_after_reserve_exact};

    /// Reserves room for at least `additional` more items, or fails and changes nothing. If there
    /// is not enough room, the list grows to the capacity that the growth rule chooses, which is at
    /// least twice the old capacity.
    ///
    /// # Errors
    ///
    /// Fails only if there is not enough room.
    ///
    /// - `CapacityOverflow`: the growth rule chooses no capacity. `Doubling` and `PowerBytes`
    ///   choose none if the new capacity would exceed `isize::MAX`, or its block would take more
    ///   than `isize::MAX` bytes.
    /// - `OutOfMemory`: the allocator failed.
    pub fn reserve(&mut self, additional: usize) -> Result<(), ThinVecError>
        // On success. The capacity stays if there was room. Otherwise, the growth rule chooses it,
        // and this costs one request and a copy of each item.
        ensures room { OnOk result (HasRoomFor self.new additional) }
        ensures capacity { OnOk result
            (capacity_after_reserve G.rule T.row self.old additional ≡ Some self.new.capacity) }
        ensures doubles { OnOk result (HasRoomFor self.old additional
            ⊎ (2 * self.old.capacity ≤ self.new.capacity)) }
        ensures cost { OnOk result (self.new.cost ≡ cost_after_resize self.old self.new.capacity) }

        // When it must succeed. In every other case it may fail.
        ensures succeeds { HasRoomFor self.old additional → IsOk result }

        // On failure, which happens only without room: nothing changes.
        ensures err { OnErr result (self.new ≡ self.old) }
        ensures overflow { OverflowsIff
            (capacity_after_reserve G.rule T.row self.old additional) result }

        // In every case. If there was room, nothing changes.
        ensures items { self.new.items ≡ self.old.items }
        ensures had_room { HasRoomFor self.old additional → self.new ≡ self.old }
        ensures preserved { PreservesList T.row self.old self.new }

        // These follow from `items` and `room`. `ok` is `room` under the label that `Vec` has.
        ensures len { length self.new.items ≡ length self.old.items }
        ensures ok { OnOk result (HasRoomFor self.new additional) }
    {
        if additional <= self.capacity() - self.len() {
            return Ok(());
        }
        self.grow_for(additional)
    }

    /// Reserves room for `additional` more items, or fails and changes nothing. If there is not
    /// enough room, the new capacity is exactly the length plus `additional`. Prefer `reserve` if
    /// the list will grow again, because each growth may copy all items.
    ///
    /// # Errors
    ///
    /// Fails only if there is not enough room.
    ///
    /// - `CapacityOverflow`: the new capacity would exceed `isize::MAX`, or its block would take
    ///   more than `isize::MAX` bytes.
    /// - `OutOfMemory`: the allocator failed.
    #[tactic(auto, using(thin_block::proofs::CapacityLemmas::exact))]
    pub fn reserve_exact(&mut self, additional: usize) -> Result<(), ThinVecError>
        // On success. The capacity stays if there was room.
        ensures room { OnOk result (HasRoomFor self.new additional) }
        ensures capacity { OnOk result
            (capacity_after_reserve_exact T.row self.old additional ≡ Some self.new.capacity) }
        ensures cost { OnOk result (self.new.cost ≡ cost_after_resize self.old self.new.capacity) }

        // When it must succeed. In every other case it may fail.
        ensures succeeds { HasRoomFor self.old additional → IsOk result }

        // On failure, which happens only without room: nothing changes.
        ensures err { OnErr result (self.new ≡ self.old) }
        ensures overflow { OverflowsIff
            (capacity_after_reserve_exact T.row self.old additional) result }

        // In every case. If there was room, nothing changes.
        ensures items { self.new.items ≡ self.old.items }
        ensures had_room { HasRoomFor self.old additional → self.new ≡ self.old }
        ensures alloc { self.new.alloc ≡ self.old.alloc }
        ensures never_less { self.old.capacity ≤ self.new.capacity }
        ensures bounds { IsBounded T.row self.old × IsBounded T.row self.new }

        // These follow from `items`, `room` and `capacity`.
        ensures len { length self.new.items ≡ length self.old.items }
        ensures ok { OnOk result (HasRoomFor self.new additional) }
        ensures capacity_exact { OnOk result (self.new.capacity
            ≡ max self.old.capacity (length self.old.items + additional)) }
    {
        if additional <= self.capacity() - self.len() {
            return Ok(());
        }
        match self.len().checked_add(additional) {
            Some(want) if fits::<T>(want) => self.grow_to(want),
            _ => Err(ThinVecError::CapacityOverflow),
        }
    }

    // Grows the list to make room for `additional` more items.
    #[cold]
    #[tactic(auto, using(thin_block::proofs::CapacityLemmas::ruled))]
    fn grow_for(&mut self, additional: usize) -> Result<(), ThinVecError>
        requires no_room { self.old.capacity < length self.old.items + additional }

        // On success.
        ensures capacity { OnOk result
            (capacity_after_reserve G.rule T.row self.old additional ≡ Some self.new.capacity) }
        ensures valid { OnOk result
            (GrowsValidly T.row self.old.capacity
            (length self.old.items + additional) self.new.capacity) }
        ensures cost { OnOk result
            (self.new.cost ≡ add_realloc (length self.old.items) self.old.cost) }

        // On failure.
        ensures err { OnErr result (self.new ≡ self.old) }
        ensures overflow { OverflowsIff
            (capacity_after_reserve G.rule T.row self.old additional) result }

        // In every case.
        ensures changes { self.new ≡ record self.old {
          capacity = self.new.capacity;
          cost = self.new.cost;
        } }
        ensures bounds { IsBounded T.row self.old × IsBounded T.row self.new }
    {
        let Some(want) = self.len().checked_add(additional) else {
            return Err(ThinVecError::CapacityOverflow);
        };
        match G::next_capacity::<T>(self.capacity(), want) {
            Some(next) => self.grow_to(next),
            None => Err(ThinVecError::CapacityOverflow),
        }
    }

    // Grows the list to the capacity `cap`. It is inlined, so that a caller with a new list need
    // not test whether the list has a block.
    #[inline(always)]
    pub(crate) fn grow_to(&mut self, cap: usize) -> Result<(), ThinVecError>
        requires cap_grows { self.old.capacity < cap }
        requires fits { Fits T.row cap }
        requires bounds { IsBounded T.row self.old }

        // On success.
        ensures capacity { OnOk result (self.new.capacity ≡ cap) }
        ensures cost { OnOk result
            (self.new.cost ≡ add_realloc (length self.old.items) self.old.cost) }

        // On failure.
        ensures err { OnErr result (self.new ≡ self.old) }
        ensures cause { IfErr result (λ cause. cause ≡ ThinVecError.OutOfMemory) }

        // In every case.
        ensures changes { self.new ≡ record self.old {
          capacity = self.new.capacity;
          cost = self.new.cost;
        } }
        ensures bounds { IsBounded T.row self.new }
    {
        self.block.grow(&self.alloc, cap)
    }

    // Does the same as `with_capacity`, for any growth rule, and a capacity that is not too large.
    pub(crate) fn with_fitting_capacity(
        alloc: A,
        capacity: usize,
    ) -> Result<ThinVec<T, A, G>, ThinVecError>
        requires fits { Fits T.row capacity }

        // On success.
        ensures items { IfOk result (λ list. list.items ≡ []) }
        ensures len { IfOk result (λ list. length list.items ≡ 0) }
        ensures capacity { IfOk result (λ list. list.capacity ≡ capacity) }
        ensures cost { IfOk result (λ list. list.cost ≡ cost_of_new capacity) }
        ensures fresh { IfOk result (IsFreshList T.row alloc) }

        // When it must succeed. In every other case it may fail.
        ensures succeeds { capacity ≡ 0 → IsOk result }

        // On failure.
        ensures cause { IfErr result (λ cause. cause ≡ ThinVecError.OutOfMemory) }
    {
        if capacity == 0 {
            return Ok(ThinVec::ruled(alloc));
        }
        let block = Block::allocate(&alloc, capacity)?;
        Ok(ThinVec {
            block,
            alloc,
            growth: PhantomData,
        })
    }
}

impl<T, A: Allocator> ThinVec<T, A> {
    ghost use Rattle.thin_vec.specs.ThinVec.{cost_of_new};

    /// Makes an empty list that owns `alloc`, with room for exactly `capacity` items, or fails if
    /// they are too many or there is no memory for them. If `capacity` is 0, the call allocates
    /// nothing.
    ///
    /// # Errors
    ///
    /// Fails with `CapacityOverflow` if `capacity` is too large, as for `reserve`, and with
    /// `OutOfMemory` if the allocator failed. On failure, `alloc` is dropped.
    #[tactic(auto, using(thin_block::proofs::CapacityLemmas::exact))]
    pub fn with_capacity(alloc: A, capacity: usize) -> Result<ThinVec<T, A>, ThinVecError>
        // On success.
        ensures items { IfOk result (λ list. list.items ≡ []) }
        ensures exact { IfOk result (λ list. list.capacity ≡ capacity) }
        ensures cost { IfOk result (λ list. list.cost ≡ cost_of_new capacity) }
        ensures fresh { IfOk result (IsFreshList T.row alloc) }

        // When it must succeed. In every other case it may fail.
        ensures succeeds { capacity ≡ 0 → IsOk result }

        // On failure.
        ensures overflow { OverflowsIffTooLarge T.row capacity result }

        // These follow from `items` and `exact`.
        ensures len { IfOk result (λ list. length list.items ≡ 0) }
        ensures capacity { IfOk result (λ list. capacity ≤ list.capacity) }
    {
        if !fits::<T>(capacity) {
            return Err(ThinVecError::CapacityOverflow);
        }
        ThinVec::with_fitting_capacity(alloc, capacity)
    }
}
