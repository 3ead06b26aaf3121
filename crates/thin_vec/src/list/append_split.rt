//! The methods `append`, which moves the items of one list to the end of another, and `split_off`,
//! which splits a list in two.
ghost use Rattle.std.specs.Prelude.{◌≡◌, ◌+◌, ◌-◌, ◌≤◌, ◌++◌, [], IfErr, IfOk, IsOk, OnErr, OnOk, Some, drop, length, take};
ghost use Rattle.thin_block.specs.Cost.{add_moves};
ghost use Rattle.thin_vec.specs.List.Capacity.{CostsMoves, IsFreshList, OverflowsIff, PreservesList};

use crate::list::ThinVec;
use std::alloc::Allocator;
use thin_block::{Growth, ThinVecError};

impl<T, A: Allocator, G: Growth> ThinVec<T, A, G> {
    ghost use Rattle.thin_vec.specs.ThinVec.{HasRoomFor, IsBounded, capacity_after_reserve, cost_of_new};

    /// Moves all items of `other` to the end of this list, in order, or fails and changes neither
    /// list if this one has to grow and cannot. On success, `other` is empty, and keeps its
    /// capacity.
    ///
    /// # Errors
    ///
    /// Fails only if the list has to grow, with the causes of `reserve`.
    pub fn append(&mut self, other: &mut ThinVec<T, A, G>) -> Result<(), ThinVecError>
        // On success.
        ensures items { OnOk result (self.new.items ≡ self.old.items ++ other.old.items) }
        ensures capacity { OnOk result (capacity_after_reserve G.rule T.row self.old
            (length other.old.items) ≡ Some self.new.capacity) }
        ensures cost { OnOk result (CostsMoves (length other.old.items) self.old self.new) }
        ensures other_changes { OnOk result (other.new ≡ record other.old { items = [] }) }

        // When it must succeed. In every other case it may fail.
        ensures succeeds { HasRoomFor self.old (length other.old.items) → IsOk result }

        // On failure, which happens only without room: neither list changes.
        ensures err { OnErr result (self.new ≡ self.old) }
        ensures other_err { OnErr result (other.new ≡ other.old) }
        ensures overflow { OverflowsIff
            (capacity_after_reserve G.rule T.row self.old (length other.old.items)) result }

        // In every case.
        ensures preserved { PreservesList T.row self.old self.new }
        ensures other_bounds { IsBounded T.row other.old × IsBounded T.row other.new }

        // This follows from `capacity` and `err`.
        ensures had_room { HasRoomFor self.old (length other.old.items)
            → self.new.capacity ≡ self.old.capacity }
    {
        match self.reserve(other.len()) {
            Ok(()) => (),
            Err(cause) => return Err(cause),
        }
        self.append_reserved(other);
        Ok(())
    }

    /// Moves the items from index `at` onward to a new list, which owns `alloc` and has no spare
    /// capacity, or fails and changes nothing if there is no memory for the new list. The old list
    /// keeps its capacity.
    ///
    /// # Errors
    ///
    /// Fails with `OutOfMemory` if `alloc` fails, and then drops `alloc`.
    pub fn split_off(&mut self, alloc: A, at: usize) -> Result<ThinVec<T, A, G>, ThinVecError>
        requires in_bounds { at ≤ length self.old.items }

        // On success. The tail has the allocator `alloc` and no spare capacity. It cost one
        // request, unless it is empty, and one move for each item.
        ensures items { OnOk result (self.new.items ≡ take at self.old.items) }
        ensures tail_items { IfOk result (λ tail. tail.items ≡ drop at self.old.items) }
        ensures tail_capacity { IfOk result (λ tail. tail.capacity ≡ length self.old.items - at) }
        ensures tail_cost { IfOk result (λ tail. tail.cost ≡ add_moves (length self.old.items - at)
            (cost_of_new (length self.old.items - at))) }
        ensures tail_fresh { IfOk result (IsFreshList T.row alloc) }

        // When it must succeed. In every other case it may fail.
        ensures succeeds_empty { at ≡ length self.old.items → IsOk result }

        // On failure: nothing changes.
        ensures err { OnErr result (self.new ≡ self.old) }
        ensures cause { IfErr result (λ cause. cause ≡ ThinVecError.OutOfMemory) }

        // In every case.
        ensures changes { self.new ≡ record self.old { items = self.new.items } }
        ensures bounds { IsBounded T.row self.old × IsBounded T.row self.new }

        // This follows from `changes`.
        ensures capacity { self.new.capacity ≡ self.old.capacity }
    {
        let len = self.len();
        prove!(at <= len);
        let mut tail = ThinVec::with_fitting_capacity(alloc, len - at)?;
        tail.append_from(self, at);
        Ok(tail)
    }

    /// Moves all items of `other` to the end of this list, like `append`. This list must have room
    /// for them, for example after `reserve`.
    pub fn append_reserved(&mut self, other: &mut ThinVec<T, A, G>)
        requires room { HasRoomFor self.old (length other.old.items) }
        ensures items { self.new.items ≡ self.old.items ++ other.old.items }
        ensures capacity { self.new.capacity ≡ self.old.capacity }
        ensures cost { self.new.cost ≡ add_moves (length other.old.items) self.old.cost }
        ensures other_changes { other.new ≡ record other.old { items = [] } }
        ensures preserved { PreservesList T.row self.old self.new }
        ensures other_bounds { IsBounded T.row other.old × IsBounded T.row other.new }
    {
        prove!(other.len() <= self.capacity() - self.len());
        self.append_from(other, 0);
    }

    // Moves the items of `other` from index `start` onward to the end of this list.
    fn append_from(&mut self, other: &mut ThinVec<T, A, G>, start: usize)
        requires in_bounds { start ≤ length other.old.items }
        requires room { HasRoomFor self.old (length other.old.items - start) }
        ensures changes { self.new ≡ record self.old {
          items = self.old.items ++ drop start other.old.items;
          cost = add_moves (length other.old.items - start) self.old.cost;
        } }
        ensures other_changes { other.new ≡ record other.old {
          items = take start other.old.items;
        } }
        ensures bounds { IsBounded T.row self.old × IsBounded T.row self.new }
        ensures other_bounds { IsBounded T.row other.old × IsBounded T.row other.new }
    {
        let len = self.block.len();
        let count = other.block.len() - start;
        other.block.move_run_to(start, &mut self.block, len, count);
        other.block.set_len(start);
        self.block.set_len(len + count);
    }
}
