//! The methods `replace_range_from_copies` and `replace_range_from_list`.
ghost use Rattle.std.specs.Prelude.{◌≡◌, ◌-◌, ◌≤◌, ◌++◌, [], IsOk, OnErr, OnOk, Some, drop, length, take};
ghost use Rattle.thin_vec.specs.Edits.ReplaceRange.{moves_replacing};
ghost use Rattle.thin_vec.specs.ThinVec.{HasRoomFor, IsBounded, capacity_after_reserve};
ghost use Rattle.thin_vec.specs.List.Capacity.{CostsMoves, OverflowsIff, PreservesList};

use crate::list::ThinVec;
use std::alloc::Allocator;
use thin_block::{Growth, ThinVecError};

impl<T: Copy, A: Allocator, G: Growth> ThinVec<T, A, G> {
    /// Replaces the items `start..end` with copies of `items`, in order, or fails and changes
    /// nothing if the list has to grow and cannot.
    ///
    /// # Errors
    ///
    /// Fails only if `items` is longer than the range, and the list has no room for the surplus.
    /// The possible causes are those of `reserve`.
    pub fn replace_range_from_copies(
        &mut self,
        start: usize,
        end: usize,
        items: &[T],
    ) -> Result<(), ThinVecError>
        requires start_le_end { start ≤ end }
        requires in_bounds { end ≤ length self.old.items }

        // On success.
        ensures items { OnOk result (self.new.items
            ≡ (take start self.old.items ++ items.now) ++ drop end self.old.items) }
        ensures capacity { OnOk result (capacity_after_reserve G.rule T.row self.old
            (length items.now - (end - start)) ≡ Some self.new.capacity) }
        ensures cost { OnOk result (CostsMoves
            (moves_replacing self.old start end (length items.now)) self.old self.new) }

        // When it must succeed. In every other case it may fail.
        ensures succeeds { HasRoomFor self.old (length items.now - (end - start)) → IsOk result }

        // On failure, which happens only without room: nothing changes.
        ensures err { OnErr result (self.new ≡ self.old) }
        ensures overflow { OverflowsIff (capacity_after_reserve G.rule T.row self.old
            (length items.now - (end - start))) result }

        // In every case.
        ensures preserved { PreservesList T.row self.old self.new }

        // These follow from `succeeds`, `capacity` and `err`.
        ensures succeeds_shorter { length items.now ≤ end - start → IsOk result }
        ensures had_room { HasRoomFor self.old (length items.now - (end - start))
            → self.new.capacity ≡ self.old.capacity }
    {
        prove!(start <= end);
        prove!(end <= self.len());
        let more = items.len().saturating_sub(end - start);
        // With `?`, the proof of `overflow` would not see the cause behind `From`.
        match self.reserve(more) {
            Ok(()) => (),
            Err(cause) => return Err(cause),
        }
        let mut block = self.open_with_gap(start, end, more);
        block.fill_from_copies(items);
        self.close(block);
        Ok(())
    }
}

impl<T: Drop, A: Allocator, G: Growth> ThinVec<T, A, G> {
    /// Replaces the items `start..end` with the items of `other`, in order, and drops the old items
    /// of the range, or fails and changes neither list if this one has to grow and cannot. After a
    /// successful call, `other` is empty, and keeps its capacity.
    ///
    /// # Errors
    ///
    /// Fails in the same cases as `replace_range_from_copies`.
    pub fn replace_range_from_list(
        &mut self,
        start: usize,
        end: usize,
        other: &mut ThinVec<T, A, G>,
    ) -> Result<(), ThinVecError>
        requires start_le_end { start ≤ end }
        requires in_bounds { end ≤ length self.old.items }

        // On success.
        ensures items { OnOk result (self.new.items
            ≡ (take start self.old.items ++ other.old.items) ++ drop end self.old.items) }
        ensures capacity { OnOk result (capacity_after_reserve G.rule T.row self.old
            (length other.old.items - (end - start)) ≡ Some self.new.capacity) }
        ensures cost { OnOk result (CostsMoves
            (moves_replacing self.old start end (length other.old.items)) self.old self.new) }
        ensures other_changes { OnOk result (other.new ≡ record other.old { items = [] }) }

        // When it must succeed. In every other case it may fail.
        ensures succeeds { HasRoomFor self.old (length other.old.items - (end - start))
            → IsOk result }

        // On failure, which happens only without room: neither list changes.
        ensures err { OnErr result (self.new ≡ self.old) }
        ensures other_err { OnErr result (other.new ≡ other.old) }
        ensures overflow { OverflowsIff (capacity_after_reserve G.rule T.row self.old
            (length other.old.items - (end - start))) result }

        // In every case.
        ensures preserved { PreservesList T.row self.old self.new }
        ensures other_bounds { IsBounded T.row other.old × IsBounded T.row other.new }

        // These follow from `succeeds`, `capacity` and `err`.
        ensures succeeds_shorter { length other.old.items ≤ end - start → IsOk result }
        ensures had_room { HasRoomFor self.old (length other.old.items - (end - start))
            → self.new.capacity ≡ self.old.capacity }
    {
        prove!(start <= end);
        prove!(end <= self.len());
        // `reserve` is called without `?`, for the same reason as in `replace_range_from_copies`.
        let more = other.len().saturating_sub(end - start);
        match self.reserve(more) {
            Ok(()) => (),
            Err(cause) => return Err(cause),
        }
        let mut block = self.open_with_gap(start, end, more);
        block.fill_from_list(other);
        self.close(block);
        Ok(())
    }
}
