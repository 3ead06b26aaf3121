//! The method `extract_if`, and the iterator `ExtractIf` that it returns.
ghost use Rattle.std.specs.Prelude.{◌≡◌, ◌≤◌, [], IfSome, Some, drop, length, not, slice_range, take};
ghost use Rattle.std.specs.Fn.{CalledAtMut};
ghost use Rattle.std.specs.Iterator.{UpTo, at_most};
ghost use Rattle.std.specs.Iterator.SizeHint.{IsWithinCount};
ghost use Rattle.thin_block.specs.Block.{IsAllocatedBy};
ghost use Rattle.thin_block.specs.Cost.{no_cost};
ghost use Rattle.thin_vec.specs.ThinVec.{IsBounded};

use crate::edits::holder::{Holder, IntoInner};
use crate::list::ThinVec;
use crate::open_block::OpenBlock;
use crate::open_block::retain::Test;
use std::alloc::{Allocator, Global};
use thin_block::{Doubling, Growth};

/// An iterator that tests the items of a range of a list with a closure, and removes and yields
/// each item for which the closure returns true. It is made by `ThinVec::extract_if`, and owns the
/// allocation of the list until it is dropped. The reference has the contract of `drop` under
/// "Traits of `ExtractIf`".
pub struct ExtractIf<
    'a,
    T,
    F,
    A: Allocator = Global,
    G: Growth = Doubling,
    H: IntoInner<Inner = ExtractState<T, F, A>> = Holder<ExtractState<T, F, A>>,
> {
    list: &'a mut ThinVec<T, A, G>,
    holder: H,
    ghost from: { IsAllocatedBy (H.inner holder).block.alloc list.now.alloc },
}

/// What an `ExtractIf` owns.
pub struct ExtractState<T, F, A: Allocator> {
    block: OpenBlock<T, A>,
    picks: ExtractBy<F>,
    ghost adjacent: { block.gap_after ≡ 0 },
}

/// The test of an `ExtractIf`: an item is removed if the closure `pick` returns true.
pub struct ExtractBy<F> {
    pick: F,
}

impl<T, F: FnMut(&mut T) -> bool> Test<T> for ExtractBy<F> {
    ghost use Rattle.std.specs.Fn.{CalledAtMut};

    ghost tests = { λ s x stays t y. CalledAtMut F.FnMut s.pick x (not stays) t.pick y };

    ghost ready = { λ s. F.IsAlwaysCallable s.pick };

    fn test(&mut self, item: &mut T) -> bool {
        !(self.pick)(item)
    }
}

impl<
    'a,
    T: Drop,
    F: Drop,
    A: Allocator,
    G: Growth,
    H: IntoInner<Inner = ExtractState<T, F, A>>,
> Drop for ExtractIf<'a, T, F, A, G, H> {
    ghost use Rattle.thin_vec.specs.Edits.ExtractIf.{list_after_extract_if};

    fn drop(self)
        ensures after_drop { self.exit.0.now ≡ list_after_extract_if self.entry }
    {
        let ExtractIf { list, holder } = self;
        let ExtractState { block, picks } = holder.into_inner();
        let ExtractBy { pick } = picks;
        // Only the proof needs this call: `close` requires an empty list.
        list.clear();
        list.close(block);
        drop(pick);
    }
}

impl<T, F: FnMut(&mut T) -> bool, A: Allocator> ExtractState<T, F, A> {
    ghost use Rattle.thin_vec.specs.Edits.ExtractIf.{ExtractsOne};

    // Removes and returns the next item for which `pick` returns true, if there is one.
    //
    // This is a function of its own because no proof is generated for a body that borrows two
    // fields of a struct that holds a reference, such as an `ExtractIf`.
    fn next_picked(&mut self) -> Option<T>
        requires callable { F.IsAlwaysCallable self.old.picks.pick }
        ensures steps { ExtractsOne (CalledAtMut F.FnMut) self.old result self.new }
        ensures callable { F.IsAlwaysCallable self.new.picks.pick }
    {
        if self.block.seek_removed(&mut self.picks) {
            Some(self.block.take_first())
        } else {
            None
        }
    }
}

impl<T: Drop, A: Allocator, G: Growth> ThinVec<T, A, G> {
    ghost use Rattle.thin_vec.specs.Edits.ExtractIf.{ExtractKeepsAlong, ExtractsRange, ExtractsToEnd, extract_block, extract_closure, extract_lender, extract_list, extract_rest, list_after_extract_if};

    /// Returns an iterator that removes the items in the range `start..end` for which `pick`
    /// returns true, and yields them in order.
    ///
    /// Until the `ExtractIf` is dropped, the list is empty and has capacity 0. Afterwards, it
    /// contains every item that was not yielded, also those that were not tested. If the
    /// `ExtractIf` is leaked, the list stays empty, and these items are leaked. `next` requires
    /// that `pick` can be called with every value of the item type.
    ///
    /// No memory is requested. Each item that stays in the list and follows the first removed item
    /// is moved once, even if it is not in the range: by the call of `next` that tests it, or else
    /// by the drop. (The fields `cost` of `ExtractsOne` and of `list_after_extract_if` say so.
    /// `walked` and `next_keeps` have the bound alone.)
    pub fn extract_if<F: FnMut(&mut T) -> bool>(
        &mut self,
        start: usize,
        end: usize,
        pick: F,
    ) -> ExtractIf<'_, T, F, A, G>
        requires start_le_end { start ≤ end }
        requires in_bounds { end ≤ length self.old.items }

        // What the `ExtractIf` owns. Most callers need only `walked`, which follows from this and
        // the contract of `next`, and stands at the end.
        ensures front { (extract_block result).front ≡ take start self.old.items }
        ensures rest { extract_rest result ≡ slice_range self.old.items start end }
        ensures tail { (extract_block result).tail ≡ drop end self.old.items }
        ensures gap { (extract_block result).gap_before ≡ 0 }
        ensures value { extract_closure result ≡ pick }

        // The list until the `ExtractIf` is dropped.
        ensures meanwhile { extract_list result
            ≡ record self.old { items = []; capacity = 0; cost = no_cost } }

        // What `ExtractIf::drop` leaves. If it is dropped now, the list is unchanged.
        ensures after_drop { list_after_extract_if result ≡ self.old }
        ensures bounds_before { IsBounded T.row self.old }

        // Which list is borrowed.
        ensures same_reference { extract_lender result ≡ self.entry.ghost_name }

        // These follow from the contract of `next`: what calls to it leave as long as they yield
        // items (`next_keeps`), and once one returns `None` (`walk`). `walked` says the latter of
        // the list: each item of the range was tested once, in order. The closure returned true for
        // the items that were yielded. Those for which it returned false are in the place of the
        // range.
        ensures next_keeps { ExtractKeepsAlong (CalledAtMut F.FnMut) result }
        ensures walk { ExtractsToEnd (CalledAtMut F.FnMut) result }
        ensures walked { ExtractsRange (CalledAtMut F.FnMut) pick self.old start end result }
    {
        prove!(start <= end);
        prove!(end <= self.len());
        let block = self.open(start, end);
        let picks = ExtractBy { pick };
        ExtractIf {
            list: self,
            holder: Holder {
                value: ExtractState { block, picks },
            },
        }
    }
}

impl<'a, T, F: FnMut(&mut T) -> bool, A: Allocator, G: Growth> ExtractIf<'a, T, F, A, G> {
    ghost use Rattle.thin_vec.specs.Edits.ExtractIf.{ExtractSteps, extract_closure};

    /// Tests the remaining items, in order, until the closure returns true for one of them. Then
    /// removes that item and returns it. If the closure returns true for none of them, this call
    /// and all later calls to `next` return `None`.
    pub fn next(&mut self) -> Option<T>
        requires callable { F.IsAlwaysCallable (extract_closure self.old) }
        ensures steps { ExtractSteps (CalledAtMut F.FnMut) self.old result self.new }
        ensures callable { F.IsAlwaysCallable (extract_closure self.new) }
    {
        self.holder.value.next_picked()
    }
}

impl<'a, T: Drop, F: FnMut(&mut T) -> bool, A: Allocator, G: Growth> Iterator
    for ExtractIf<'a, T, F, A, G> {
    ghost use Rattle.thin_vec.specs.Edits.ExtractIf.{ExtractSteps, extract_closure, extract_rest};
    ghost use denote.Param.Always.{always_mut};

    type Item = T;

    // This is the precondition `callable` of the inherent `next`.
    ghost can_next = { λ extract. always_mut F.FnMut (extract_closure extract) };

    // What one call to `next` does: its contract.
    ghost next_gives = { ExtractSteps (CalledAtMut F.FnMut) };

    ghost remaining = { λ extract. at_most (length (extract_rest extract)) };

    fn next(&mut self) -> Option<T> {
        ExtractIf::next(self)
    }

    fn size_hint(&self) -> (usize, Option<usize>)
        ensures lower { IsWithinCount result.0 (at_most (length (extract_rest self.now))) }
        ensures upper { IfSome result.1 (UpTo (at_most (length (extract_rest self.now)))) }
        ensures value { result ≡ (0, Some (length (extract_rest self.now))) }
    {
        (0, Some(self.holder.value.block.middle_len()))
    }
}
