//! The method `splice`, which replaces the items of a range with the items of an iterator.
ghost use Rattle.std.specs.Prelude.{◌≡◌, ◌+◌, ◌-◌, ◌*◌, ◌<◌, ◌≤◌, ◌==◌, ◌++◌, List, [], IfErr, IsOk, MatchOption, None, OnErr, OnOk, Some, drop, if◌then◌else◌, length, slice_range, take, ℕ};
ghost use Rattle.std.specs.Iterator.{Drains, IsFinite, size};
ghost use Rattle.std.specs.Iterator.SizeHint.{IsWithinCount};
ghost use Rattle.std.specs.Iterator.Runs.{WholeRun};
ghost use Rattle.std.specs.List.{remove_range};
ghost use Rattle.thin_vec.specs.List.Capacity.{PreservesList};
ghost use Rattle.thin_vec.specs.List.Extend.{IsAfterExtend};
ghost use Rattle.thin_vec.specs.ThinVec.{HasRoomFor, IsBounded};
ghost use Rattle.thin_block.specs.Block.{IsAllocatedBy};
ghost use Rattle.thin_block.specs.Cost.{add_moves, no_cost};

use crate::edits::holder::{Holder, IntoInner};
use crate::errors::SpliceRefused;
use crate::list::ThinVec;
use crate::open_block::OpenBlock;
use std::alloc::{Allocator, Global};
use std::iter::Iterator;
use thin_block::{Doubling, Growth};

/// An edit that replaces the items of a range, made by `ThinVec::splice`. It yields the old items
/// from either end. Its method `finish` puts the items of an iterator in their place.
///
/// A program that drops a `Splice` does not compile. Until `finish` is called, the `Splice` owns
/// the allocation of the list, and the list is empty and has capacity 0.
pub struct Splice<
    'a,
    I,
    T,
    A: Allocator = Global,
    G: Growth = Doubling,
    H: IntoInner<Inner = OpenBlock<T, A>> = Holder<OpenBlock<T, A>>,
> {
    list: &'a mut ThinVec<T, A, G>,
    holder: H,
    iter: I,
    ghost from: { IsAllocatedBy (H.inner holder).alloc list.now.alloc },
}

impl<T, A: Allocator, G: Growth> ThinVec<T, A, G> {
    ghost use Rattle.thin_vec.specs.Edits.Splice.{list_without_range, splice_front, splice_iter, splice_lender, splice_list, splice_range_len, splice_rest, splice_tail};

    /// Begins to replace the items `start..end` with the items of `iter`. The caller has to call
    /// `finish` on the returned `Splice`, which requires that `next` of `iter` may be called, and
    /// that `iter` has a limit. `finish` drops the items of the range that the `Splice` has not
    /// yielded; `swap_range` moves them to another list.
    #[tactic(auto, unfolding(crate::specs::Edits::Splice::list_without_range))]
    pub fn splice<I: Iterator<Item = T>>(
        &mut self,
        start: usize,
        end: usize,
        iter: I,
    ) -> Splice<'_, I, T, A, G>
        requires start_le_end { start ≤ end }
        requires in_bounds { end ≤ length self.old.items }

        // What the `Splice` owns. The range has `end - start` slots, also those whose items `next`
        // has yielded. The iterator is `iter`, from which no item was taken. (Tests show that it
        // was not asked for its size hint.)
        ensures rest { splice_rest result ≡ slice_range self.old.items start end }
        ensures range { splice_range_len result ≡ end - start }
        ensures value { splice_iter result ≡ iter }

        // `finish` inserts the new items into the list `without_range`, between its parts `front`
        // and `tail`.
        ensures without_range { list_without_range result
            ≡ record self.old { items = remove_range self.old.items start end } }
        ensures front { splice_front result ≡ take start self.old.items }
        ensures tail { splice_tail result ≡ drop end self.old.items }
        ensures bounds_before { IsBounded T.row self.old }

        // The list until `finish` is called.
        ensures meanwhile { splice_list result
            ≡ record self.old { items = []; capacity = 0; cost = no_cost } }

        // Which list is borrowed.
        ensures same_reference { splice_lender result ≡ self.entry.ghost_name }
    {
        prove!(start <= end);
        prove!(end <= self.len());
        let block = self.open(start, end);
        Splice {
            list: self,
            holder: Holder { value: block },
            iter,
        }
    }
}

impl<'a, T, I, A: Allocator, G: Growth> Splice<'a, I, T, A, G> {
    ghost use Rattle.thin_vec.specs.Edits.Splice.{SpliceSteps, SpliceStepsBack, splice_rest};

    /// Returns the number of remaining items of the range.
    pub fn len(&self) -> usize
        ensures value { result ≡ length (splice_rest self.now) }
    {
        self.holder.value.middle_len()
    }

    /// Returns the number of remaining items of the range, as lower and as upper bound.
    pub fn size_hint(&self) -> (usize, Option<usize>)
        ensures value { result
            ≡ (length (splice_rest self.now), Some (length (splice_rest self.now))) }
    {
        let len = self.len();
        (len, Some(len))
    }

    /// Yields the first of the remaining items of the range, or returns `None` if there is none.
    #[tactic(auto, unfolding(crate::specs::Edits::Splice::list_without_range))]
    pub fn next(&mut self) -> Option<T>
        ensures steps { SpliceSteps self.old result self.new }
    {
        self.holder.value.next()
    }

    /// Yields the last of the remaining items of the range, or returns `None` if there is none.
    #[tactic(auto, unfolding(crate::specs::Edits::Splice::list_without_range))]
    pub fn next_back(&mut self) -> Option<T>
        ensures steps { SpliceStepsBack self.old result self.new }
    {
        self.holder.value.next_back()
    }
}

impl<
    'a,
    T: Drop,
    I: Iterator<Item = T>,
    A: Allocator,
    G: Growth,
    H: IntoInner<Inner = OpenBlock<T, A>>,
> Splice<'a, I, T, A, G, H> {
    ghost use Rattle.thin_vec.specs.Edits.Splice.{IsAfterSplice, IsSpliceCause, SpliceErrorAccountsFor, list_without_range, splice_front, splice_iter, splice_range_len, splice_tail};

    /// Drops the items of the range that were not yielded, and puts the items of the iterator in
    /// their place, up to its first `None`.
    ///
    /// If no item follows the range, `finish` appends the items of the iterator as `extend` does.
    /// Otherwise, it first fills the slots of the range. Only if these are full, it asks the
    /// iterator for its size hint, and fills as many new slots as the lower bound. It collects any
    /// further items in a vector that uses `alloc`, and then moves them into the list. (Tests show
    /// how many slots are new, and which allocator the vector uses. The contract says that the
    /// range and the new slots, if there are any, are no more than the limit of the iterator.) On
    /// success, `alloc` is dropped. On failure, `held` owns it.
    ///
    /// # Errors
    ///
    /// Fails if the list or the vector cannot grow. The possible causes are those of `reserve`.
    /// `finish` cannot fail if the range has a slot for each item that the iterator may yield, or
    /// if no item follows the range and the list has room for all of them. If items follow the
    /// range, spare capacity is not enough: the vector needs memory for the items beyond the hint.
    ///
    /// On failure, the items of the range are dropped all the same. No item of the iterator is
    /// lost: those that are not in the list are in the error.
    // Always inlined for the reason that `finish_before_tail` gives.
    #[inline(always)]
    pub fn finish(self, alloc: A) -> Result<(), SpliceRefused<T, I, A>>
        requires can_next { I.can_next (splice_iter self) }
        requires finite { IsFinite (I.remaining (splice_iter self)) }

        // `self.entry` is the `Splice`, and `self.exit.0.now` is the list after the call, which
        // most clauses call `new`. They call the list without the range `old`. By the contract of
        // `splice`, and whatever was yielded, `splice_front` has the items before the range, and
        // `splice_tail` those after it.

        // On success, the list has all items of the iterator in the place of the range.
        // (`runs` says the same of the run of the iterator.)
        ensures items { let new = self.exit.0.now in
            OnOk result ((xs : List T) × Drains I.next_gives (splice_iter self.entry) xs
            × (new.items ≡ (splice_front self.entry ++ xs) ++ splice_tail self.entry)) }
        ensures runs { let new = self.exit.0.now in
            OnOk result (WholeRun I.next_gives (splice_iter self.entry)
            (λ p. new.items ≡ (splice_front self.entry ++ p.items) ++ splice_tail self.entry)) }

        // It must succeed if the range has a slot for each item that the iterator could yield, or
        // if no item follows the range and the list has room. In every other case it may fail.
        ensures succeeds { size (I.remaining (splice_iter self.entry))
            ≤ splice_range_len self.entry → IsOk result }
        ensures succeeds_at_end { splice_tail self.entry ≡ []
            → HasRoomFor (list_without_range self.entry)
            (size (I.remaining (splice_iter self.entry))) → IsOk result }

        // On failure, the list may have some of the new items. The error has all others, in the
        // order `held`, `in_hand`, `rest`. There are three cases, in which `k` is the number of
        // slots of the range, and `h` that of `before_tail`:
        // - No item follows the range, and none is in hand: the list is `old`, and no item was
        //   taken from the iterator.
        // - No item follows the range, and one is in hand: the list is full, and `held` is empty.
        // - Items follow the range: the list has `k + h` new items, and the capacity after `h` was
        //   reserved. If the error has no item, `h` is 0, and the capacity is that of `old`.
        ensures placed { let new = self.exit.0.now in IfErr result (λ error. (xs : List T)
            × (new.items ≡ (splice_front self.entry ++ xs) ++ splice_tail self.entry)
            × SpliceErrorAccountsFor I.next_gives I.can_next I.remaining
            (splice_iter self.entry) xs error) }
        // What failed, in each of the four cases:
        // - Neither `held` nor `in_hand` has an item: the list had no room for the number of items
        //   that was to be reserved (`by_hint`).
        // - Only `held` has items: the list had no room for them (`by_held`).
        // - `in_hand` has an item, and items follow the range: the vector got no memory for the
        //   item in hand (`by_in_hand`).
        // - `in_hand` has an item, and none follows the range: the list had no room for the item in
        //   hand (`by_push`).
        ensures cause { IfErr result (λ error. IsSpliceCause G.rule T.row self.exit.0.now
            (splice_tail self.entry) (I.remaining error.rest) error) }
        // If no item follows the range, no item is in `held`. With none in hand, the call took none
        // from the iterator. Otherwise, the list is full.
        ensures held_at_end { splice_tail self.entry ≡ []
            → IfErr result (λ error. error.held.items ≡ []) }
        ensures in_hand_at_end { let old = list_without_range self.entry in
            let new = self.exit.0.now in
            splice_tail self.entry ≡ [] → IfErr result (λ error. MatchOption error.in_hand
            ((new ≡ old) × (error.rest ≡ splice_iter self.entry))
            (λ _. length new.items ≡ new.capacity)) }
        // If items follow the range and the error has no item, the new items just fill the range,
        // and the capacity is the old one.
        ensures capacity_before_tail { let old = list_without_range self.entry in
            let new = self.exit.0.now in
            0 < length (splice_tail self.entry) → IfErr result (λ error. error.held.items ≡ []
            → error.in_hand ≡ None → new.capacity ≡ old.capacity) }
        ensures in_hand_before_tail { let old = list_without_range self.entry in
            let new = self.exit.0.now in
            0 < length (splice_tail self.entry) → IfErr result (λ error. error.held.items ≡ []
            → error.in_hand ≡ None
            → length new.items ≡ length old.items + splice_range_len self.entry) }

        // Capacity and cost, in every case. If the list had room, nothing is requested for it. What
        // the vector takes, and the moves into it, are in no counter.
        ensures had_room { let old = list_without_range self.entry in let new = self.exit.0.now in
            HasRoomFor old (size (I.remaining (splice_iter self.entry)))
            → (new.capacity ≡ old.capacity) × (new.cost.blocks ≡ old.cost.blocks) }
        // The slots of the range are a part of this room.
        ensures range_room { HasRoomFor (list_without_range self.entry)
            (splice_range_len self.entry) }
        // If no item follows the range, both are as after `extend`, which reserves `h` slots.
        ensures at_end { let old = list_without_range self.entry in let new = self.exit.0.now in
            splice_tail self.entry ≡ []
            → (h : ℕ) × IsWithinCount h (I.remaining (splice_iter self.entry))
            × IsAfterExtend G.rule T.row old h new }
        // If items follow the range, the list grows at most twice: the call reserves `h` slots more
        // than the range has, and once all of these are full, room for all items that are left. It
        // fails only once they are full.
        ensures before_tail { let old = list_without_range self.entry in
            let new = self.exit.0.now in
            0 < length (splice_tail self.entry) → (h : ℕ)
            × IsAfterSplice G.rule T.row (splice_range_len self.entry)
            (length (splice_tail self.entry)) old h new (I.remaining (splice_iter self.entry))
            × OnErr result (length new.items
            ≡ length old.items + splice_range_len self.entry + h) }
        ensures preserved { PreservesList T.row (list_without_range self.entry) self.exit.0.now }

        // These follow from the clauses above. Growth copies at most as many items as the capacity
        // increases. If items follow the range, it makes at most two requests.
        ensures copied_at_most { let old = list_without_range self.entry in
            let new = self.exit.0.now in
            new.cost.grown + old.capacity ≤ old.cost.grown + new.capacity }
        ensures blocks_at_most { let old = list_without_range self.entry in
            let new = self.exit.0.now in
            0 < length (splice_tail self.entry) → new.cost.blocks ≤ old.cost.blocks + 2 }
        // Each new item is moved once. Each item after the range is moved at most twice. If the
        // range has a slot for each item that the iterator could yield, it is moved once or, if the
        // new items fill the range exactly, not at all.
        ensures moves_within_range { let old = list_without_range self.entry in
            let new = self.exit.0.now in let inserted = length new.items - length old.items in
            size (I.remaining (splice_iter self.entry)) ≤ splice_range_len self.entry
            → new.cost ≡ add_moves (inserted + (if inserted == splice_range_len self.entry then 0
            else length (splice_tail self.entry))) old.cost }
        ensures moves_at_end { let old = list_without_range self.entry in
            let new = self.exit.0.now in
            splice_tail self.entry ≡ []
            → new.cost.moves + length old.items ≡ old.cost.moves + length new.items }
        ensures moves_at_most { let old = list_without_range self.entry in
            let new = self.exit.0.now in
            new.cost.moves + length old.items
            ≤ old.cost.moves + 2 * length (splice_tail self.entry) + length new.items }
    {
        let Splice { list, holder, iter } = self;
        let mut block = holder.into_inner();
        block.drop_middle();
        // Only the proof needs this call: `close` requires an empty list.
        list.clear();
        let answer = if block.has_tail() {
            list.finish_before_tail(block, iter, alloc)
        } else {
            list.finish_at_end(block, iter, alloc)
        };
        // Only the proof needs this call: its contract says that the list `IsBounded`.
        let _len = list.len();
        answer
    }
}
