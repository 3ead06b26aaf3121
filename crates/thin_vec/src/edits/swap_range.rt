//! The method `swap_range`, which exchanges the items of a range with the items of another list.
ghost use Rattle.std.specs.Prelude.{◌≡◌, ◌+◌, ◌-◌, ◌≤◌, ◌==◌, ◌++◌, IsOk, OnErr, OnOk, Some, drop, if◌then◌else◌, length, slice_range, take};
ghost use Rattle.std.specs.List.{remove_range, replace_range};
ghost use Rattle.thin_block.specs.Cost.{add_moves};
ghost use Rattle.thin_vec.specs.Edits.SwapRange.{OverflowsIffEither, moves_swapping};
ghost use Rattle.thin_vec.specs.ThinVec.{HasRoomFor, IsBounded, capacity_after_reserve};
ghost use Rattle.thin_vec.specs.List.Capacity.{CostsMoves, PreservesList};

use crate::list::ThinVec;
use std::alloc::Allocator;
use thin_block::{Growth, ThinVecError};

impl<T, A: Allocator, G: Growth> ThinVec<T, A, G> {
    /// Exchanges the items `start..end` with the items of `other`, or fails and changes neither
    /// list if one of them has to grow and cannot. No item is dropped. The same call for the range
    /// `start..start + n`, where `n` is the number of items that `other` had, undoes the exchange.
    ///
    /// Only the list that becomes longer may have to grow. No other memory is requested.
    ///
    /// # Errors
    ///
    /// Fails only if the list that becomes longer has no room for the surplus. The possible causes
    /// are those of its `reserve`.
    pub fn swap_range<B: Allocator>(
        &mut self,
        start: usize,
        end: usize,
        other: &mut ThinVec<T, B, G>,
    ) -> Result<(), ThinVecError>
        requires start_le_end { start ≤ end }
        requires in_bounds { end ≤ length self.old.items }

        // On success.
        ensures items { OnOk result (self.new.items
            ≡ replace_range self.old.items start end other.old.items) }
        ensures other_items { OnOk result (other.new.items
            ≡ slice_range self.old.items start end) }
        ensures capacity { OnOk result (capacity_after_reserve G.rule T.row self.old
            (length other.old.items - (end - start)) ≡ Some self.new.capacity) }
        ensures other_capacity { OnOk result (capacity_after_reserve G.rule T.row other.old
            (end - start - length other.old.items) ≡ Some other.new.capacity) }
        ensures cost { OnOk result (CostsMoves
            (moves_swapping self.old start end (length other.old.items)) self.old self.new) }
        ensures other_cost { OnOk result (CostsMoves
            (end - start - length other.old.items) other.old other.new) }

        // When it must succeed. In every other case it may fail.
        ensures succeeds { HasRoomFor self.old (length other.old.items - (end - start))
            → HasRoomFor other.old (end - start - length other.old.items) → IsOk result }

        // On failure, which happens only without room: neither list changes.
        ensures err { OnErr result (self.new ≡ self.old) }
        ensures other_err { OnErr result (other.new ≡ other.old) }
        ensures overflow { OverflowsIffEither
            (capacity_after_reserve G.rule T.row self.old
            (length other.old.items - (end - start)))
            (capacity_after_reserve G.rule T.row other.old
            (end - start - length other.old.items)) result }

        // In every case.
        ensures preserved { PreservesList T.row self.old self.new }
        ensures other_preserved { PreservesList T.row other.old other.new }
    {
        prove!(start <= end);
        prove!(end <= self.len());
        let range = end - start;
        let count = other.len();
        let more = count.saturating_sub(range);
        // `reserve` is called without `?`, for the same reason as in `replace_range_from_copies`.
        match self.reserve(more) {
            Ok(()) => (),
            Err(cause) => return Err(cause),
        }
        match other.reserve(range.saturating_sub(count)) {
            Ok(()) => (),
            Err(cause) => return Err(cause),
        }
        let pairs = count - more;
        self.swap_run(start, pairs, other);
        // What is left of the longer run moves. In the shorter one, no item is left.
        other.move_range_to(pairs, count, self, start + pairs);
        self.move_range_to(start + count, end + more, other, pairs);
        Ok(())
    }

    // Exchanges the `count` items from index `start` onward with the first `count` items of
    // `other`, pair by pair.
    fn swap_run<B: Allocator>(&mut self, start: usize, count: usize, other: &mut ThinVec<T, B, G>)
        requires in_bounds { start + count ≤ length self.old.items }
        requires other_in_bounds { count ≤ length other.old.items }
        ensures changes { self.new ≡ record self.old {
          items = replace_range self.old.items start (start + count) (take count other.old.items);
        } }
        ensures other_changes { other.new ≡ record other.old {
          items = slice_range self.old.items start (start + count) ++ drop count other.old.items;
        } }
        ensures bounds { IsBounded T.row self.old × IsBounded T.row self.new }
        ensures other_bounds { IsBounded T.row other.old × IsBounded T.row other.new }
    {
        let (front, _) = other.as_mut_slice().split_at_mut(count);
        self.as_mut_slice()[start..start + count].swap_with_slice(front);
    }

    // Moves the items `start..end` to `other`, before its item at index `at`.
    fn move_range_to<B: Allocator>(
        &mut self,
        start: usize,
        end: usize,
        other: &mut ThinVec<T, B, G>,
        at: usize,
    )
        requires start_le_end { start ≤ end }
        requires in_bounds { end ≤ length self.old.items }
        requires at_in_bounds { at ≤ length other.old.items }
        requires room { HasRoomFor other.old (end - start) }
        ensures changes { self.new ≡ record self.old {
          items = remove_range self.old.items start end;
          cost = if start == end then self.old.cost else add_moves
              (length self.old.items - end) self.old.cost;
        } }
        ensures other_changes { other.new ≡ record other.old {
          items = replace_range other.old.items at at (slice_range self.old.items start end);
          cost = add_moves (end - start + (if start == end then 0 else length other.old.items - at))
              other.old.cost;
        } }
        ensures bounds { IsBounded T.row self.old × IsBounded T.row self.new }
        ensures other_bounds { IsBounded T.row other.old × IsBounded T.row other.new }
    {
        let mut from = self.open(start, end);
        let mut to = other.open(at, at);
        to.widen_gap(end - start);
        from.move_middle_to(&mut to);
        other.close(to);
        self.close(from);
    }
}
