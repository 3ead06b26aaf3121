//! The functions that `Splice::finish` calls to put the items of an iterator in place of a removed
//! range. If items follow the range, the steps are `fill`, `insert_hinted` and `insert_held`.
ghost use Rattle.std.specs.Prelude.{◌≡◌, ◌+◌, ◌-◌, ◌==◌, ◌<◌, ◌≤◌, [], ◌++◌, ◌∷◌, IfErr, IfOk, IsOk, IsSome, List, MatchOption, None, OnErr, OnOk, Some, drop, if◌then◌else◌, length, take, vec_capacity, ℕ};
ghost use Rattle.std.specs.Iterator.{Drains, IsFinite, Yields, YieldsThen, size};
ghost use Rattle.std.specs.Iterator.SizeHint.{IsWithinCount};
ghost use Rattle.std.specs.Option.{option_len, option_to_list};
ghost use Rattle.thin_vec.specs.List.Capacity.{FailsForRoom};
ghost use Rattle.std.specs.Align.{type_align};
ghost use Rattle.std.specs.Mem.{type_size};
ghost use Rattle.thin_block.specs.Cost.{add_moves};
ghost use Rattle.thin_block.specs.Growth.{grown_capacity};
ghost use Rattle.thin_block.specs.Block.{IsAllocatedBy};
ghost use Rattle.thin_vec.specs.OpenView.{tail_end};
ghost use Rattle.thin_vec.specs.Edits.Splice.{IsSpliceCause, SpliceErrorAccountsFor};
ghost use Rattle.thin_vec.specs.Edits.Finish.{AddsFromIter, FinishesSplice};
ghost use Rattle.thin_vec.specs.Put.{IsFilledBy};
ghost use Rattle.thin_vec.specs.ThinVec.{capacity_after_reserve, cost_after_resize};

use crate::errors::{ExtendRefused, Rejected, SpliceRefused};
use crate::list::ThinVec;
use crate::open_block::OpenBlock;
use crate::put::Filled;
use std::alloc::Allocator;
use std::iter::Iterator;
use thin_block::{Growth, ThinVecError};

impl<T: Drop, A: Allocator, G: Growth> ThinVec<T, A, G> {
    // Makes a gap before the item at index `at`, with as many slots as the lower bound of the size
    // hint of `iter`, and moves items of `iter` into the gap.
    #[inline(always)]
    fn insert_hinted<I: Iterator<Item = T>>(
        &mut self,
        at: usize,
        iter: I,
    ) -> Result<Filled<I>, Rejected<I>>
        requires in_bounds { at ≤ length self.old.items }
        requires can_next { I.can_next iter }
        requires finite { IsFinite (I.remaining iter) }

        // On success.
        ensures filled_by { IfOk result (λ filled. (hint : ℕ)
            × IsWithinCount hint (I.remaining iter)
            × (capacity_after_reserve G.rule T.row self.old hint ≡ Some self.new.capacity)
            × (by : IsFilledBy I.next_gives I.can_next I.remaining hint iter filled)
            × (self.new.items ≡ (take at self.old.items ++ by.items) ++ drop at self.old.items)
            × (filled.end ≡ at + length by.items)
            × (self.new.cost ≡ add_moves (length by.items
            + (if hint == 0 then 0 else length self.old.items - at)
            + (if length by.items == hint then 0 else length self.old.items - at))
            (cost_after_resize self.old self.new.capacity))) }

        // When it must succeed.
        ensures succeeds { size (I.remaining iter) ≡ 0 → IsOk result }

        // On failure.
        ensures err { IfErr result (λ rejected. (self.new ≡ self.old)
            × (rejected.value ≡ iter)) }
        ensures cause { IfErr result
            (λ rejected. (h : ℕ) × IsWithinCount h (I.remaining iter)
            × FailsForRoom G.rule T.row self.new h rejected.cause) }

        // In every case.
        ensures added { AddsFromIter self.old self.new (I.remaining iter) }
        ensures room { OnOk result (length self.new.items ≤ self.new.capacity) }
    {
        let hint = iter.size_hint().0;
        if let Err(cause) = self.reserve(hint) {
            return Err(Rejected { value: iter, cause });
        }
        let mut block = self.open_with_gap(at, at, hint);
        let filled = block.fill(iter);
        self.close(block);
        Ok(filled)
    }

    // Collects the items of `iter` in a vector, and then inserts them before the item at index
    // `at`.
    #[inline(always)]
    fn insert_held<I: Iterator<Item = T>>(
        &mut self,
        at: usize,
        iter: I,
        alloc: A,
    ) -> Result<(), SpliceRefused<T, I, A>>
        requires in_bounds { at ≤ length self.old.items }
        requires room { length self.old.items ≤ self.old.capacity }
        requires can_next { I.can_next iter }
        requires finite { IsFinite (I.remaining iter) }

        // On success.
        ensures items { OnOk result ((xs : List T) × Drains I.next_gives iter xs
            × (self.new.items ≡ (take at self.old.items ++ xs) ++ drop at self.old.items)) }

        // When it must succeed.
        ensures succeeds { size (I.remaining iter) ≡ 0 → IsOk result }

        // On failure.
        ensures err { OnErr result (self.new ≡ self.old) }
        ensures err_some { IfErr result
            (λ error. error.in_hand ≡ None → 0 < length error.held.items) }
        ensures placed { IfErr result
            (λ error. SpliceErrorAccountsFor I.next_gives I.can_next I.remaining iter [] error) }
        ensures cause { IfErr result (λ error. (tail : List T) → 0 < length tail
            → IsSpliceCause G.rule T.row self.new tail (I.remaining error.rest) error) }

        // In every case.
        ensures capacity { grown_capacity G.rule (type_size T.row) (type_align T.row)
            self.old.capacity (length self.new.items) ≡ Some self.new.capacity }
        ensures longer { length self.old.items ≤ length self.new.items }
        ensures paid { self.new.cost ≡ add_moves (length self.new.items - length self.old.items
            + (if length self.new.items == length self.old.items then 0
            else length self.old.items - at))
            (cost_after_resize self.old self.new.capacity) }
        ensures added { AddsFromIter self.old self.new (I.remaining iter) }
    {
        let mut rest = iter;
        let Some(first) = rest.next() else {
            return Ok(());
        };
        let Collected {
            held,
            in_hand,
            rest,
        } = collect_rest(first, rest, alloc);
        if let Some(item) = in_hand {
            return Err(SpliceRefused {
                cause: ThinVecError::OutOfMemory,
                held,
                in_hand: Some(item),
                rest,
            });
        }
        let count = held.len();
        if let Err(cause) = self.reserve(count) {
            return Err(SpliceRefused {
                cause,
                held,
                in_hand: None,
                rest,
            });
        }
        let mut block = self.open_with_gap(at, at, count);
        block.fill_from_vec(held);
        self.close(block);
        Ok(())
    }

    // Puts the items of `iter` in place of the removed range. `Splice::finish`, this function and
    // its steps are always inlined: otherwise, a short splice would pass the open block and the
    // iterator through memory.
    #[inline(always)]
    pub(crate) fn finish_before_tail<I: Iterator<Item = T>>(
        &mut self,
        mut block: OpenBlock<T, A>,
        iter: I,
        alloc: A,
    ) -> Result<(), SpliceRefused<T, I, A>>
        requires nonempty { 0 < length block.tail }
        requires bounds { tail_end block ≤ block.capacity }
        requires is_empty { self.old.items ≡ [] }
        requires no_middle { block.middle ≡ [] }
        requires gap_after { block.gap_after ≡ 0 }
        requires same_allocator { IsAllocatedBy block.alloc self.old.alloc }
        requires can_next { I.can_next iter }
        requires finite { IsFinite (I.remaining iter) }

        ensures { FinishesSplice I.next_gives I.can_next I.remaining G.rule T.row block
            self.old.alloc
            iter self.new result }
    {
        let Filled { rest, end, ended } = block.fill(iter);
        self.close(block);
        if ended {
            return Ok(());
        }
        match self.insert_hinted(end, rest) {
            Ok(filled) => {
                let Filled { rest, end, ended } = filled;
                if ended {
                    return Ok(());
                }
                self.insert_held(end, rest, alloc)
            }
            Err(rejected) => {
                let Rejected { value, cause } = rejected;
                Err(SpliceRefused {
                    cause,
                    held: Vec::new(alloc),
                    in_hand: None,
                    rest: value,
                })
            }
        }
    }

    // Puts `block` back into the list, and then appends the items of `iter`, as `extend` does.
    pub(crate) fn finish_at_end<I: Iterator<Item = T>>(
        &mut self,
        block: OpenBlock<T, A>,
        iter: I,
        alloc: A,
    ) -> Result<(), SpliceRefused<T, I, A>>
        requires no_tail { block.tail ≡ [] }
        requires bounds { tail_end block ≤ block.capacity }
        requires is_empty { self.old.items ≡ [] }
        requires no_middle { block.middle ≡ [] }
        requires gap_after { block.gap_after ≡ 0 }
        requires same_allocator { IsAllocatedBy block.alloc self.old.alloc }
        requires can_next { I.can_next iter }
        requires finite { IsFinite (I.remaining iter) }
        ensures { FinishesSplice I.next_gives I.can_next I.remaining G.rule T.row block
            self.old.alloc
            iter self.new result }
    {
        self.close(block);
        match self.extend(iter) {
            Ok(()) => Ok(()),
            Err(refused) => {
                let ExtendRefused {
                    cause,
                    in_hand,
                    rest,
                } = refused;
                let held = Vec::new(alloc);
                Err(SpliceRefused {
                    cause,
                    held,
                    in_hand,
                    rest,
                })
            }
        }
    }
}

/// What was taken from an iterator, and the iterator itself.
struct Collected<T, I, A: Allocator> {
    /// The items, in order.
    held: Vec<T, A>,
    /// The item after those in `held`, for which the vector has no room. `None` if the iterator has
    /// ended.
    in_hand: Option<T>,
    rest: I,
}

// Collects `first`, and then the items of `iter`, in a vector. Stops when `iter` returns `None`, or
// when the vector cannot grow.
fn collect_rest<T, A: Allocator, I: Iterator<Item = T>>(
    first: T,
    iter: I,
    alloc: A,
) -> Collected<T, I, A>
    requires can_next { I.can_next iter }
    requires finite { IsFinite (I.remaining iter) }
    ensures runs { (xs : List T)
        × (result.held.items ++ option_to_list result.in_hand ≡ first ∷ xs)
        × MatchOption result.in_hand (YieldsThen I.next_gives iter xs None result.rest)
        (λ _. Yields I.next_gives iter xs result.rest) }
    ensures bound { length result.held.items + option_len result.in_hand ≤ 1 + size
        (I.remaining iter) }
    ensures can_next { IsSome result.in_hand → I.can_next result.rest
        × IsFinite (I.remaining result.rest) }
    ensures full { IsSome result.in_hand
        → length result.held.items ≡ vec_capacity result.held }
{
    let mut held = Vec::new(alloc);
    let mut rest = iter;
    let mut next = first;
    loop {
        match held.reserve(1) {
            Ok(()) => (),
            Err(_refused) => {
                return Collected {
                    held,
                    in_hand: Some(next),
                    rest,
                };
            }
        }
        held.push_reserved(next);
        // Without this loop, `reserve` would be called for each item.
        while held.len() < held.capacity() {
            let Some(item) = rest.next() else {
                return Collected {
                    held,
                    in_hand: None,
                    rest,
                };
            };
            held.push_reserved(item);
        }
        let Some(item) = rest.next() else {
            return Collected {
                held,
                in_hand: None,
                rest,
            };
        };
        next = item;
    }
}
