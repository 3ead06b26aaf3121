//! Methods that put items into the gap of an open block.
ghost use Rattle.std.specs.Prelude.{◌≡◌, ◌-◌, ◌≤◌, [], ◌++◌, length};
ghost use Rattle.std.specs.Iterator.{IsFinite};
ghost use Rattle.thin_block.specs.Cost.{add_moves};
ghost use Rattle.thin_vec.specs.Put.{IsFilledBy};

use crate::list::ThinVec;
use crate::open_block::OpenBlock;
use crate::put::{Filled, put_iter, put_vec};
use std::alloc::Allocator;
use std::iter::Iterator;
use std::mem;
use thin_block::{Block, Growth};

impl<T, A: Allocator> OpenBlock<T, A> {
    // Moves items of `iter` into the gap until it is full or `iter` returns `None`. Always inlined
    // for the reason that `finish_before_tail` gives.
    #[inline(always)]
    pub(crate) fn fill<I: Iterator<Item = T>>(&mut self, iter: I) -> Filled<I>
        requires can_next { I.can_next iter }
        requires finite { IsFinite (I.remaining iter) }
        ensures filled_by { (by : IsFilledBy I.next_gives I.can_next I.remaining self.old.gap_before iter result)
            × (self.new ≡ record self.old {
              front = self.old.front ++ by.items;
              gap_before = self.old.gap_before - length by.items;
              cost = add_moves (length by.items) self.old.cost;
            }) × (result.end ≡ length self.new.front) }
    {
        let block = mem::replace(&mut self.block, Block::none());
        let (block, filled) = put_iter(block, self.front_end, self.middle_start, iter);
        self.block.replace_unallocated(block);
        self.front_end = filled.end;
        filled
    }

    // Moves the items of `items` into the gap, and frees the vector.
    pub(crate) fn fill_from_vec<B: Allocator>(&mut self, items: Vec<T, B>)
        requires room { length items.items ≤ self.old.gap_before }
        ensures { self.new ≡ record self.old {
          front = self.old.front ++ items.items;
          gap_before = self.old.gap_before - length items.items;
          cost = add_moves (length items.items) self.old.cost;
        } }
    {
        let count = items.len();
        put_vec(&mut self.block, self.front_end, items);
        self.front_end += count;
    }

    // Moves the items of `other` into the gap.
    pub(crate) fn fill_from_list<G: Growth>(&mut self, other: &mut ThinVec<T, A, G>)
        requires room { length other.old.items ≤ self.old.gap_before }
        ensures changes { self.new ≡ record self.old {
          front = self.old.front ++ other.old.items;
          gap_before = self.old.gap_before - length other.old.items;
          cost = add_moves (length other.old.items) self.old.cost;
        } }
        ensures other_changes { other.new ≡ record other.old { items = [] } }
    {
        let count = other.block.len();
        other
            .block
            .move_run_to(0, &mut self.block, self.front_end, count);
        other.block.set_len(0);
        self.front_end += count;
    }
}

impl<T: Copy, A: Allocator> OpenBlock<T, A> {
    // Copies `items` into the gap.
    pub(crate) fn fill_from_copies(&mut self, items: &[T])
        requires room { length items.now ≤ self.old.gap_before }
        ensures { self.new ≡ record self.old {
          front = self.old.front ++ items.now;
          gap_before = self.old.gap_before - length items.now;
          cost = add_moves (length items.now) self.old.cost;
        } }
    {
        self.block.copy_in(self.front_end, items);
        self.front_end += items.len();
    }
}
