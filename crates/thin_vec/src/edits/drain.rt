//! The method `drain`, which removes the items of a range, and yields them from either end.
ghost use Rattle.std.specs.Prelude.{◌≡◌, ◌-◌, ◌≤◌, ◌==◌, [], IfSome, Some, if◌then◌else◌, length, slice_range};
ghost use Rattle.std.specs.List.{remove_range};
ghost use Rattle.std.specs.Iterator.{UpTo, item_count};
ghost use Rattle.std.specs.Iterator.SizeHint.{IsWithinCount};
ghost use Rattle.thin_block.specs.Cost.{add_moves, no_cost};
ghost use Rattle.thin_block.specs.Block.{IsAllocatedBy};
ghost use Rattle.thin_vec.specs.ThinVec.{IsBounded};

use crate::edits::holder::{Holder, IntoInner};
use crate::list::ThinVec;
use crate::open_block::OpenBlock;
use std::alloc::{Allocator, Global};
use std::fmt;
use std::iter::FusedIterator;
use thin_block::{Doubling, Growth};

/// An iterator that removes the items of a range from a list. It is made by `ThinVec::drain`, and
/// owns the allocation of the list until it is dropped. The reference has the contracts of `next`,
/// `next_back` and `drop` under "Traits of `Drain`".
pub struct Drain<
    'a,
    T,
    A: Allocator = Global,
    G: Growth = Doubling,
    H: IntoInner<Inner = OpenBlock<T, A>> = Holder<OpenBlock<T, A>>,
> {
    list: &'a mut ThinVec<T, A, G>,
    holder: H,
    ghost from: { IsAllocatedBy (H.inner holder).alloc list.now.alloc },
}

impl<'a, T: Drop, A: Allocator, G: Growth, H: IntoInner<Inner = OpenBlock<T, A>>> Drop
    for Drain<'a, T, A, G, H> {
    ghost use Rattle.thin_vec.specs.Edits.Drain.{list_after_drain};

    #[inline(always)]
    #[tactic(auto, unfolding(crate::specs::Edits::Drain::list_after_drain))]
    fn drop(self)
        ensures after_drop { self.exit.0.now ≡ list_after_drain self.entry }
    {
        let Drain { list, holder } = self;
        let mut block = holder.into_inner();
        block.drop_middle();
        // Only the proof needs this call: `close` requires an empty list.
        list.clear();
        list.close(block);
    }
}

impl<T: Drop, A: Allocator, G: Growth> ThinVec<T, A, G> {
    ghost use Rattle.thin_vec.specs.Edits.Drain.{DrainKeepsAlong, DrainYieldsInOrder, DrainYieldsInReverse, drain_lender, drain_list, drain_rest, list_after_drain};

    /// Removes the items `start..end` from the list, and returns an iterator that yields them from
    /// either end.
    ///
    /// Until the iterator is dropped, the list is empty and has capacity 0. Dropping the iterator
    /// drops the items that were not yielded, and returns the items outside the range to the list,
    /// in the same allocation. If the iterator is leaked, the list stays empty, and the allocation
    /// is leaked with all items in it, also those outside the range.
    #[tactic(auto, unfolding(crate::specs::Edits::Drain::list_after_drain))]
    pub fn drain(&mut self, start: usize, end: usize) -> Drain<'_, T, A, G>
        requires start_le_end { start ≤ end }
        requires in_bounds { end ≤ length self.old.items }

        // What the `Drain` yields.
        ensures rest { drain_rest result ≡ slice_range self.old.items start end }

        // The list until the `Drain` is dropped.
        ensures meanwhile { drain_list result
            ≡ record self.old { items = []; capacity = 0; cost = no_cost } }

        // `Drain::drop` leaves exactly this list, whatever was yielded. Unless the range is empty,
        // each item after it is moved once.
        ensures after_drop { list_after_drain result ≡ record self.old {
          items = remove_range self.old.items start end;
          cost = if start == end then self.old.cost else add_moves
              (length self.old.items - end) self.old.cost;
        } }
        ensures bounds_before { IsBounded T.row self.old }

        // Which list is borrowed.
        ensures same_reference { drain_lender result ≡ self.entry.ghost_name }

        // A call of `next` (`DrainSteps`) yields the first of the remaining items, and a call of
        // `next_back` (`DrainStepsBack`) the last. Neither changes the list, nor what the drop
        // leaves. From this follows which items any number of calls yield, and what calls of `next`
        // leave unchanged.
        ensures runs { DrainYieldsInOrder result }
        ensures runs_back { DrainYieldsInReverse result }
        ensures next_keeps { DrainKeepsAlong result }
    {
        prove!(start <= end);
        prove!(end <= self.len());
        let block = self.open(start, end);
        Drain {
            list: self,
            holder: Holder { value: block },
        }
    }
}

impl<'a, T, A: Allocator, G: Growth> Drain<'a, T, A, G> {
    ghost use Rattle.thin_vec.specs.Edits.Drain.{drain_rest};

    /// Returns the remaining items, in order, as a slice.
    pub fn as_slice(&self) -> &[T]
        ensures value { result.now ≡ drain_rest self.now }
    {
        self.holder.value.middle_slice()
    }
}

impl<'a, T: Drop, A: Allocator, G: Growth> Iterator for Drain<'a, T, A, G> {
    ghost use Rattle.thin_vec.specs.Edits.Drain.{DrainSteps, drain_rest};

    type Item = T;

    // What one call to `next` does, its contract: it takes the first of the remaining items and
    // returns it, or returns `None` if there is none (`gave`). It changes neither the list that is
    // borrowed nor the one that the drop will leave, nor its cost (`keeps`).
    ghost next_gives = { DrainSteps };

    ghost remaining = { item_count drain_rest };

    #[tactic(auto, unfolding(crate::specs::Edits::Drain::list_after_drain))]
    fn next(&mut self) -> Option<T> {
        self.holder.value.next()
    }

    fn size_hint(&self) -> (usize, Option<usize>)
        ensures lower { IsWithinCount result.0 (item_count drain_rest self.now) }
        ensures upper { IfSome result.1 (UpTo (item_count drain_rest self.now)) }
        ensures value { result
            ≡ (length (drain_rest self.now), Some (length (drain_rest self.now))) }
    {
        let len = self.holder.value.middle_len();
        (len, Some(len))
    }
}

impl<'a, T: Drop, A: Allocator, G: Growth> DoubleEndedIterator for Drain<'a, T, A, G> {
    ghost use Rattle.thin_vec.specs.Edits.Drain.{DrainStepsBack};

    // What one call to `next_back` does, its contract: the same with the last of them.
    ghost next_back_gives = { DrainStepsBack };

    #[tactic(auto, unfolding(crate::specs::Edits::Drain::list_after_drain))]
    fn next_back(&mut self) -> Option<T> {
        self.holder.value.next_back()
    }
}

impl<'a, T: Drop, A: Allocator, G: Growth> ExactSizeIterator for Drain<'a, T, A, G> {
    fn len(&self) -> usize {
        self.holder.value.middle_len()
    }
}

impl<'a, T: Drop, A: Allocator, G: Growth> FusedIterator for Drain<'a, T, A, G> {}

impl<T: fmt::Debug, A: Allocator, G: Growth> fmt::Debug for Drain<'_, T, A, G> {
    fn fmt<W: fmt::Write>(&self, f: &mut fmt::Formatter<W>) -> fmt::Result {
        f.debug_tuple("Drain").field(&self.as_slice()).finish()
    }
}
