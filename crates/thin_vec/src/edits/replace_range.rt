//! The method `replace_range`, which replaces the items of a range with clones.
ghost use Rattle.std.specs.Prelude.{◌≡◌, ◌-◌, ◌≤◌, ◌++◌, IfErr, IsErr, IsOk, None, OnErr, OnOk, Some, drop, length, take};
ghost use Rattle.thin_vec.specs.List.Clones.{ClonesEqual};
ghost use Rattle.thin_vec.specs.Edits.ReplaceRange.{ReplacesByClones, moves_replacing};
ghost use Rattle.thin_vec.specs.ThinVec.{HasRoomFor, capacity_after_reserve};
ghost use Rattle.thin_vec.specs.List.Capacity.{CostsMoves, PreservesList};

use crate::list::ThinVec;
use std::alloc::Allocator;
use thin_block::{Growth, ThinVecError, fits};

impl<T: Clone, A: Allocator, G: Growth> ThinVec<T, A, G> {
    /// Replaces the items `start..end` with clones of `items`, in order, or fails and changes
    /// nothing if there is no memory for them or an item cannot be cloned. First makes the clones,
    /// in a block of their own, which `alloc` allocates. For items that are `Copy`,
    /// `replace_range_from_copies` is faster. The replaced items are dropped; `swap_range` moves
    /// them to another list.
    ///
    /// # Errors
    ///
    /// - `CapacityOverflow`: the growth rule chooses no capacity. (If the clones cannot be made,
    ///   the cause is `OutOfMemory` even then.)
    /// - `OutOfMemory`: an allocator failed, or an item could not be cloned.
    pub fn replace_range(
        &mut self,
        alloc: A,
        start: usize,
        end: usize,
        items: &[T],
    ) -> Result<(), ThinVecError>
        requires start_le_end { start ≤ end }
        requires in_bounds { end ≤ length self.old.items }

        // On success.
        ensures items { OnOk result (ReplacesByClones T.is_clone self.old.items start end items.now
            self.new.items) }
        ensures capacity { OnOk result (capacity_after_reserve G.rule T.row self.old
            (length items.now - (end - start)) ≡ Some self.new.capacity) }
        // Each new item is moved once, and so is each item after the range, unless as many items
        // come as go. The list in which the clones are made is in no counter. (Tests show that it
        // makes one request.)
        ensures cost { OnOk result (CostsMoves
            (moves_replacing self.old start end (length items.now)) self.old self.new) }

        // When it must succeed. In every other case it may fail.
        ensures succeeds_empty { length items.now ≡ 0 → IsOk result }

        // On failure: nothing changes. The call fails with `CapacityOverflow` only if the growth
        // rule chooses no capacity. If it chooses none, the call fails, perhaps with `OutOfMemory`.
        ensures err { OnErr result (self.new ≡ self.old) }
        ensures cause { IfErr result (λ cause. cause ≡ ThinVecError.CapacityOverflow
            → capacity_after_reserve G.rule T.row self.old
            (length items.now - (end - start)) ≡ None) }
        ensures fails_if_too_large { capacity_after_reserve G.rule T.row self.old
            (length items.now - (end - start)) ≡ None → IsErr result }

        // In every case.
        ensures preserved { PreservesList T.row self.old self.new }

        // These follow from `items`, `capacity` and `err`.
        ensures items_if_clones_equal { OnOk result (ClonesEqual T.is_clone
            → self.new.items ≡ (take start self.old.items ++ items.now)
            ++ drop end self.old.items) }
        ensures had_room { HasRoomFor self.old (length items.now - (end - start))
            → self.new.capacity ≡ self.old.capacity }
    {
        let len = self.len();
        prove!(start <= end);
        prove!(end <= len);
        if !fits::<T>(items.len()) {
            return Err(ThinVecError::CapacityOverflow);
        }
        let mut clones = ThinVec::from_fitting_slice(alloc, items)?;
        self.replace_range_from_list(start, end, &mut clones)
    }
}
