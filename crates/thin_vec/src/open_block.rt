//! Defines the type `OpenBlock`, which owns the block of a list while a range of it is edited.
ghost use Rattle.std.specs.Prelude.{◌≡◌, ◌↔◌, ◌+◌, ◌-◌, ◌==◌, ◌<◌, ◌≤◌, ◌∷◌, ◌++◌, [], IsTrue, drop, if◌then◌else◌, length, slice_range, take};
ghost use Rattle.std.specs.Iterator.{YieldsFirst, YieldsLast};
ghost use Rattle.thin_block.specs.Cost.{add_moves, no_cost};
ghost use Rattle.thin_block.specs.Slots.{packed_slots};
ghost use Rattle.thin_block.specs.Block.{IsAllocatedBy};
ghost use Rattle.thin_vec.specs.OpenView.{OpenView, cost_closed, items_of, range_len, tail_end};
ghost use Rattle.thin_vec.specs.ThinVec.{HasRoomFor, IsBounded};

pub(crate) mod dedup;
mod fill;
pub(crate) mod retain;

use crate::list::ThinVec;
use std::alloc::Allocator;
use std::marker::Model;
use std::mem;
use thin_block::{Block, Growth};

/// The block of a list while a method such as `retain` removes, replaces or tests the items of a
/// range. During this time, there may be empty slots between the items.
///
/// The slots are divided into six parts, each of which may consist of no slots. Each field but
/// `block` is the index of the slot in which a part begins; the front begins at 0.
///
/// ```text
///   0       front_end    middle_start     middle_end    tail_start    tail_end     capacity
///   |           |            |            |            |            |             |
///   +-----------+------------+------------+------------+------------+-------------+
///   |   items   |   empty    |   items    |   empty    |   items    |    empty    |
///   +-----------+------------+------------+------------+------------+-------------+
///       front     gap_before     middle     gap_after       tail      spare slots
/// ```
///
/// - The *front* contains the items before the range, and those kept or inserted so far. They do
///   not move again while the block is open.
/// - The *middle run* contains the items of the range that have not been yielded, kept or removed
///   so far.
/// - `gap_after` has slots only after items were removed from the end of the middle run, or after
///   the tail was moved up.
/// - The *tail* contains the items after the range.
///
/// An `OpenBlock` owns the block and all items in it. It does not implement `Drop`: `close` puts
/// the block back into the list. The proofs of edits deal with these parts, and not with slots. So
/// each step of an edit is a method, even if only one function takes it.
pub struct OpenBlock<T, A: Allocator> {
    // While the block is open, the length that it stores is not used.
    pub(crate) block: Block<T, A>,
    pub(crate) front_end: usize,
    pub(crate) middle_start: usize,
    pub(crate) middle_end: usize,
    pub(crate) tail_start: usize,
    pub(crate) tail_end: usize,
}

impl<T, A: Allocator> Model for OpenBlock<T, A> {
    ghost use Rattle.thin_vec.specs.OpenView.{OpenView, open_view_code};

    ghost Value = { OpenView T A };

    ghost coded = { open_view_code T.code A.code };

    ghost use Rattle.thin_vec.specs.OpenBlock.{IsOpen, open_view};

    ghost view = { open_view };

    ghost invariant = { IsOpen };
}

impl<T, A: Allocator, G: Growth> ThinVec<T, A, G> {
    // Takes the block out of the list, which is then empty, with the items `start..end` as the
    // middle run.
    pub(crate) fn open(&mut self, start: usize, end: usize) -> OpenBlock<T, A>
        requires start_le_end { start ≤ end }
        requires in_bounds { end ≤ length self.old.items }

        // The open block.
        ensures front { result.front ≡ take start self.old.items }
        ensures middle { result.middle ≡ slice_range self.old.items start end }
        ensures tail { result.tail ≡ drop end self.old.items }
        ensures gap_before { result.gap_before ≡ 0 }
        ensures gap_after { result.gap_after ≡ 0 }
        ensures capacity { result.capacity ≡ self.old.capacity }
        ensures same_allocator { IsAllocatedBy result.alloc self.old.alloc }
        ensures cost { result.cost ≡ self.old.cost }

        // The list.
        ensures changes { self.new ≡ record self.old { items = []; capacity = 0; cost = no_cost } }
        ensures bounds_before { IsBounded T.row self.old }
    {
        let len = self.block.len();
        let block = mem::replace(&mut self.block, Block::none());
        OpenBlock {
            block,
            front_end: start,
            middle_start: start,
            middle_end: end,
            tail_start: end,
            tail_end: len,
        }
    }

    // Closes the gap of `block`, and puts the block back into the list. `release` frees nothing:
    // `open` left no block, but no contract of a `drop` can say so.
    #[inline(always)]
    pub(crate) fn close(&mut self, block: OpenBlock<T, A>)
        requires is_empty { self.old.items ≡ [] }
        requires gap_after { block.gap_after ≡ 0 }
        requires same_allocator { IsAllocatedBy block.alloc self.old.alloc }
        ensures changes { self.new ≡ record self.old {
          items = items_of block;
          capacity = block.capacity;
          cost = cost_closed block;
        } }
        ensures room { length self.new.items ≤ self.new.capacity }
    {
        let none = mem::replace(&mut self.block, block.into_packed());
        none.release(&self.alloc);
    }
}

impl<T: Drop, A: Allocator, G: Growth> ThinVec<T, A, G> {
    // Takes the block out of the list as `open` does, drops the items `start..end`, and makes a gap
    // in their place that has `count` more slots than they took.
    pub(crate) fn open_with_gap(
        &mut self,
        start: usize,
        end: usize,
        count: usize,
    ) -> OpenBlock<T, A>
        requires start_le_end { start ≤ end }
        requires in_bounds { end ≤ length self.old.items }
        requires room { HasRoomFor self.old count }

        // The open block.
        ensures front { result.front ≡ take start self.old.items }
        ensures gap_before { result.gap_before ≡ end - start + count }
        ensures middle { result.middle ≡ [] }
        ensures gap_after { result.gap_after ≡ 0 }
        ensures tail { result.tail ≡ drop end self.old.items }
        ensures capacity { result.capacity ≡ self.old.capacity }
        ensures same_allocator { IsAllocatedBy result.alloc self.old.alloc }
        ensures cost { result.cost ≡ (if count == 0 then self.old.cost else add_moves
            (length self.old.items - end) self.old.cost) }

        // The list.
        ensures changes { self.new ≡ record self.old { items = []; capacity = 0; cost = no_cost } }
    {
        let mut block = self.open(start, end);
        block.drop_middle();
        block.widen_gap(count);
        block
    }
}

impl<T, A: Allocator> OpenBlock<T, A> {
    pub(crate) fn middle_len(&self) -> usize
        ensures value { result ≡ length self.now.middle }
    {
        self.middle_end - self.middle_start
    }

    pub(crate) fn take_first(&mut self) -> T
        requires nonempty { 0 < length self.old.middle }
        ensures middle { self.old.middle ≡ result ∷ self.new.middle }
        ensures changes { self.new ≡ record self.old {
          middle = self.new.middle;
          gap_before = self.old.gap_before + 1;
        } }
    {
        let first = self.middle_start;
        self.middle_start += 1;
        self.block.take(first)
    }

    pub(crate) fn take_last(&mut self) -> T
        requires nonempty { 0 < length self.old.middle }
        ensures middle { self.old.middle ≡ self.new.middle ++ result ∷ [] }
        ensures changes { self.new ≡ record self.old {
          middle = self.new.middle;
          gap_after = self.old.gap_after + 1;
        } }
    {
        self.middle_end -= 1;
        self.block.take(self.middle_end)
    }

    // Moves `value` into the first slot of the gap.
    pub(crate) fn append_to_front(&mut self, value: T)
        requires gap_before { 0 < self.old.gap_before }
        ensures { self.new ≡ record self.old {
          front = self.old.front ++ value ∷ [];
          gap_before = self.old.gap_before - 1;
          cost = add_moves 1 self.old.cost;
        } }
    {
        self.block.put(self.front_end, value);
        self.front_end += 1;
    }

    // Adds the first `k` middle items to the front without moving them.
    pub(crate) fn keep_in_place(&mut self, k: usize)
        requires gap_before { self.old.gap_before ≡ 0 }
        requires in_bounds { k ≤ length self.old.middle }
        ensures { self.new
            ≡ record self.old {
              front = self.old.front ++ take k self.old.middle;
              middle = drop k self.old.middle;
            } }
    {
        self.front_end += k;
        self.middle_start += k;
    }

    // Moves the first `k` middle items to the end of the front.
    #[inline(always)]
    pub(crate) fn move_down(&mut self, k: usize)
        requires in_bounds { k ≤ length self.old.middle }
        requires gap_before { 0 < self.old.gap_before }
        ensures { self.new ≡ record self.old {
          front = self.old.front ++ take k self.old.middle;
          middle = drop k self.old.middle;
          cost = add_moves k self.old.cost;
        } }
    {
        let block = mem::replace(&mut self.block, Block::none());
        let block = block.move_run_down(self.middle_start, self.front_end, k);
        self.block.replace_unallocated(block);
        self.front_end += k;
        self.middle_start += k;
    }

    pub(crate) fn middle_slice(&self) -> &[T]
        ensures value { result.now ≡ self.now.middle }
    {
        self.block.slice(self.middle_start, self.middle_end)
    }

    pub(crate) fn has_tail(&self) -> bool
        ensures value { IsTrue result ↔ (0 < length self.now.tail) }

        // This holds for each open block, and the proof of `Splice::finish` needs it.
        ensures in_bounds { tail_end self.now ≤ self.now.capacity }
    {
        self.tail_start < self.tail_end
    }

    // Joins `gap_before` and `gap_after`, which have no middle items between them.
    pub(crate) fn merge_gaps(&mut self)
        requires no_middle { self.old.middle ≡ [] }
        ensures { self.new
            ≡ record self.old {
              gap_before = self.old.gap_before + self.old.gap_after;
              gap_after = 0;
            } }
    {
        self.middle_start = self.tail_start;
        self.middle_end = self.tail_start;
    }

    // Moves the items after `gap_before` down to the end of the front, and stores the length.
    #[inline(always)]
    fn into_packed(self) -> Block<T, A>
        requires gap_after { self.gap_after ≡ 0 }
        ensures slots { result.slots ≡ packed_slots (items_of self) self.capacity }
        ensures len { result.len ≡ length (items_of self) }
        ensures in_bounds { length (items_of self) ≤ self.capacity }
        ensures alloc { result.alloc ≡ self.alloc }
        ensures cost { result.cost ≡ cost_closed self }
    {
        let OpenBlock {
            block: mut opened,
            front_end,
            middle_start,
            middle_end: _,
            tail_start: _,
            tail_end,
        } = self;
        if front_end == middle_start {
            opened.set_len(tail_end);
            return opened;
        }
        let gap_before = middle_start - front_end;
        let mut closed = opened.close_small_gap(front_end, gap_before, tail_end - middle_start);
        closed.store_len(tail_end - gap_before);
        closed
    }

    pub(crate) fn shift_tail_up(&mut self, count: usize)
        requires nonzero { 0 < count }
        requires room { tail_end self.old + count ≤ self.old.capacity }
        ensures { self.new ≡ record self.old {
          gap_after = self.old.gap_after + count;
          cost = add_moves (length self.old.tail) self.old.cost;
        } }
    {
        let from = self.tail_start;
        let block = mem::replace(&mut self.block, Block::none());
        let block = block.open_gap(from, count, self.tail_end - from);
        self.block.replace_unallocated(block);
        self.tail_start += count;
        self.tail_end += count;
    }

    // Adds `count` slots to the gap before the tail.
    pub(crate) fn widen_gap(&mut self, count: usize)
        requires no_middle { self.old.middle ≡ [] }
        requires gap_after { self.old.gap_after ≡ 0 }
        requires room { tail_end self.old + count ≤ self.old.capacity }
        ensures { self.new ≡ record self.old {
          gap_before = self.old.gap_before + count;
          cost = if count == 0 then self.old.cost else add_moves (length self.old.tail)
              self.old.cost;
        } }
    {
        if count > 0 {
            self.shift_tail_up(count);
            self.merge_gaps();
        }
    }

    // Moves the middle items into the gap of `other`, and joins the gaps around them.
    pub(crate) fn move_middle_to<B: Allocator>(&mut self, other: &mut OpenBlock<T, B>)
        requires room { length self.old.middle ≤ other.old.gap_before }
        ensures changes { self.new ≡ record self.old {
          gap_before = self.old.gap_before + length self.old.middle + self.old.gap_after;
          middle = [];
          gap_after = 0;
        } }
        ensures other_changes { other.new ≡ record other.old {
          front = other.old.front ++ self.old.middle;
          gap_before = other.old.gap_before - length self.old.middle;
          cost = add_moves (length self.old.middle) other.old.cost;
        } }
    {
        let count = self.middle_len();
        self.block.move_run_to(self.middle_start, &mut other.block, other.front_end, count);
        other.front_end += count;
        self.middle_start = self.middle_end;
        self.merge_gaps();
    }

    pub(crate) fn next(&mut self) -> Option<T>
        ensures steps { YieldsFirst (λ (v : OpenView T A). v.middle) self.old result self.new }
        ensures range { range_len self.new ≡ range_len self.old }
        ensures changes { self.new ≡ record self.old {
          gap_before = self.new.gap_before;
          middle = self.new.middle;
        } }
    {
        if self.middle_len() == 0 {
            return None;
        }
        Some(self.take_first())
    }

    pub(crate) fn next_back(&mut self) -> Option<T>
        ensures steps { YieldsLast (λ (v : OpenView T A). v.middle) self.old result self.new }
        ensures range { range_len self.new ≡ range_len self.old }
        ensures changes { self.new ≡ record self.old {
          middle = self.new.middle;
          gap_after = self.new.gap_after;
        } }
    {
        if self.middle_len() == 0 {
            return None;
        }
        Some(self.take_last())
    }
}

impl<T: Drop, A: Allocator> OpenBlock<T, A> {
    // Drops the middle items, and joins the gaps around them.
    pub(crate) fn drop_middle(&mut self)
        ensures { self.new ≡ record self.old {
          gap_before = self.old.gap_before + length self.old.middle + self.old.gap_after;
          middle = [];
          gap_after = 0;
        } }
    {
        while self.middle_len() > 0 {
            drop(self.take_first());
        }
        self.merge_gaps();
    }

    // Drops the first middle item, if there is one.
    #[inline(always)]
    pub(crate) fn drop_first(&mut self)
        ensures { self.new ≡ record self.old {
          gap_before = self.old.gap_before + length (take 1 self.old.middle);
          middle = drop 1 self.old.middle;
        } }
    {
        if self.middle_len() > 0 {
            drop(self.take_first());
        }
    }

    // Drops the first middle item if another one follows it. Returns whether one does. With
    // `middle_len() < 2`, LLVM would compute a difference that it needs for nothing else.
    #[inline(always)]
    pub(crate) fn drop_before_next(&mut self) -> bool
        ensures value { IsTrue result ↔ (1 < length self.old.middle) }
        ensures changes { self.new ≡ (if result then record self.old {
          gap_before = self.old.gap_before + 1;
          middle = drop 1 self.old.middle;
        } else self.old) }
    {
        if self.middle_start + 1 >= self.middle_end {
            return false;
        }
        drop(self.take_first());
        true
    }
}
