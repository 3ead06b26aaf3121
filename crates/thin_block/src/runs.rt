//! Methods that move runs of items within a block or to another block. A run consists of the items
//! in adjacent slots. A clause `capacity` follows from the clause `changes` before it.
ghost use Rattle.std.specs.Prelude.{◌≡◌, ◌⊎◌, ℕ, ◌+◌, ◌-◌, ◌<◌, ◌≤◌, Bool, false, if◌then◌else◌, length, true};
ghost use Rattle.std.specs.declared.option.Option.TheVariants.{None};
ghost use Rattle.thin_block.specs.Cost.{add_moves, add_realloc, no_cost};
ghost use Rattle.thin_block.specs.Slots.{AreEmpty, AreFilled, slot, slot_range, write_slots, clear_slots, move_slots};

use crate::block::Block;
use crate::shifts::copy_overlapping;
use crate::sizes::HEADER_WORDS;
use std::alloc::Allocator;

// Evaluates `$constant` if `$number` is one of the literals, and `$other` otherwise. Each literal
// has an arm of its own, in which LLVM knows the number, and so turns a move by so many slots, or
// of so many items, into a `memmove` or a few copies.
macro_rules! match_number {
    ($number:ident, $constant:expr, $other:expr) => {
        match_number!(1 2 3 4 5 6 7 8 9 10 11 12 13 14 15; $number, $constant, $other)
    };
    ($($literal:literal)*; $number:ident, $constant:expr, $other:expr) => {
        match $number {
            $($literal => $constant,)*
            _ => $other,
        }
    };
}

impl<T, A: Allocator> Block<T, A> {
    ghost use Rattle.thin_block.specs.Block.{block_view};

    /// Moves the `k` items in the slots `from..from + k` to the slots `to..to + k`. These two
    /// ranges may overlap.
    pub fn move_run(&mut self, from: usize, to: usize, k: usize)
        requires in_bounds { from + k ≤ length self.old.slots }
        requires target { to + k ≤ length self.old.slots }
        requires filled { AreFilled self.old.slots from k }
        requires empty { (i : ℕ) → to ≤ i → i < to + k → (i < from) ⊎ (from + k ≤ i)
            → slot self.old.slots i ≡ None }
        ensures changes { block_view self.new ≡ record (block_view self.old) {
          slots = move_slots from to k self.old.slots;
          cost = add_moves k self.old.cost;
        } }
        ensures capacity { length self.new.slots ≡ length self.old.slots }
    {
        if from.abs_diff(to) < k {
            self.move_within(0, from, to, k, from < to);
        } else {
            self.move_disjoint(from, to, k);
        }
    }

    /// Moves the `k` items that start at slot `to + gap` down by `gap` slots. If `gap` is a
    /// constant, LLVM turns this call into a `memmove`.
    #[inline(always)]
    pub fn move_down(&mut self, to: usize, gap: usize, k: usize)
        requires in_bounds { to + gap + k ≤ length self.old.slots }
        requires empty { AreEmpty self.old.slots to gap }
        requires filled { AreFilled self.old.slots (to + gap) k }
        ensures changes { block_view self.new ≡ record (block_view self.old) {
          slots = move_slots (to + gap) to k self.old.slots;
          cost = add_moves k self.old.cost;
        } }
        ensures capacity { length self.new.slots ≡ length self.old.slots }
    {
        self.move_within(to, gap, 0, k, false);
    }

    /// Moves the items in the slots `from..from + k` up by `gap` slots.
    #[inline(always)]
    pub fn move_up(&mut self, from: usize, gap: usize, k: usize)
        requires in_bounds { from + gap + k ≤ length self.old.slots }
        requires empty { AreEmpty self.old.slots (from + k) gap }
        requires filled { AreFilled self.old.slots from k }
        ensures changes { block_view self.new ≡ record (block_view self.old) {
          slots = move_slots from (from + gap) k self.old.slots;
          cost = add_moves k self.old.cost;
        } }
        ensures capacity { length self.new.slots ≡ length self.old.slots }
    {
        self.move_within(from, 0, gap, k, true);
    }

    /// Moves items down as `move_down` does. The block is passed by value to keep its pointer in a
    /// register.
    #[inline(never)]
    pub fn close_gap(self, to: usize, gap: usize, k: usize) -> Block<T, A>
        requires in_bounds { to + gap + k ≤ length self.slots }
        requires empty { AreEmpty self.slots to gap }
        requires filled { AreFilled self.slots (to + gap) k }
        ensures changes { block_view result ≡ record (block_view self) {
          slots = move_slots (to + gap) to k self.slots;
          cost = add_moves k self.cost;
        } }
        ensures capacity { length result.slots ≡ length self.slots }
    {
        let mut block = self;
        match_number!(
            gap,
            block.move_down(to, gap, k),
            block.move_run(to + gap, to, k)
        );
        block
    }

    /// Moves the `k` items from slot `from` onward down to the slots from `to` onward. Up to three
    /// items are moved without a call.
    #[inline(always)]
    pub fn move_run_down(self, from: usize, to: usize, k: usize) -> Block<T, A>
        requires below { to < from }
        requires in_bounds { from + k ≤ length self.slots }
        requires empty { AreEmpty self.slots to (from - to) }
        requires filled { AreFilled self.slots from k }
        ensures changes { block_view result ≡ record (block_view self) {
          slots = move_slots from to k self.slots;
          cost = add_moves k self.cost;
        } }
        ensures capacity { length result.slots ≡ length self.slots }
    {
        let mut block = self;
        match_number!(
            1 2 3;
            k,
            block.move_within(0, from, to, k, false),
            block = block.close_gap(to, from - to, k)
        );
        block
    }

    /// Moves items down as `close_gap` does, without a call to it if `gap` is 1 or 2.
    #[inline(always)]
    pub fn close_small_gap(self, to: usize, gap: usize, k: usize) -> Block<T, A>
        requires in_bounds { to + gap + k ≤ length self.slots }
        requires empty { AreEmpty self.slots to gap }
        requires filled { AreFilled self.slots (to + gap) k }
        ensures changes { block_view result ≡ record (block_view self) {
          slots = move_slots (to + gap) to k self.slots;
          cost = add_moves k self.cost;
        } }
        ensures capacity { length result.slots ≡ length self.slots }
    {
        let mut block = self;
        match_number!(1 2; gap, block.move_down(to, gap, k), block = block.close_gap(to, gap, k));
        block
    }

    /// Moves items up as `move_up` does, in the form of `close_gap`.
    #[inline(never)]
    pub fn open_gap(self, from: usize, gap: usize, k: usize) -> Block<T, A>
        requires in_bounds { from + gap + k ≤ length self.slots }
        requires empty { AreEmpty self.slots (from + k) gap }
        requires filled { AreFilled self.slots from k }
        ensures changes { block_view result ≡ record (block_view self) {
          slots = move_slots from (from + gap) k self.slots;
          cost = add_moves k self.cost;
        } }
        ensures capacity { length result.slots ≡ length self.slots }
    {
        let mut block = self;
        match_number!(
            gap,
            block.move_up(from, gap, k),
            block.move_run(from, from + gap, k)
        );
        block
    }

    // Moves the `k` items from slot `low + from` onward to the slots from `low + to` onward. `up`
    // says whether the items move up. If `from` and `to` are constants, LLVM sees that the distance
    // of the move is constant.
    #[inline(always)]
    fn move_within(&mut self, low: usize, from: usize, to: usize, k: usize, up: bool)
        requires in_bounds { low + from + k ≤ length self.old.slots }
        requires target { low + to + k ≤ length self.old.slots }
        requires filled { AreFilled self.old.slots (low + from) k }
        requires above { up ≡ true → (low + from ≤ low + to)
            × AreEmpty self.old.slots (low + from + k) (low + to - (low + from)) }
        requires below { up ≡ false → (low + to ≤ low + from)
            × AreEmpty self.old.slots (low + to) (low + from - (low + to)) }
        ensures changes { block_view self.new ≡ record (block_view self.old) {
          slots = move_slots (low + from) (low + to) k self.old.slots;
          cost = add_moves k self.old.cost;
        } }
        ensures capacity { length self.new.slots ≡ length self.old.slots }
    {
        let at = self.at;
        unsafe {
            let base = (at.add(HEADER_WORDS) as *mut T).add(low);
            copy_overlapping(base.add(from) as *const T, base.add(to), k, up)
        }
    }

    // Moves items as `move_run` does, to slots that do not overlap the old ones.
    fn move_disjoint(&mut self, from: usize, to: usize, k: usize)
        requires in_bounds { from + k ≤ length self.old.slots }
        requires target { to + k ≤ length self.old.slots }
        requires filled { AreFilled self.old.slots from k }
        requires empty { (i : ℕ) → to ≤ i → i < to + k → (i < from) ⊎ (from + k ≤ i)
            → slot self.old.slots i ≡ None }
        requires disjoint { (from + k ≤ to) ⊎ (to + k ≤ from) }
        ensures changes { block_view self.new ≡ record (block_view self.old) {
          slots = move_slots from to k self.old.slots;
          cost = add_moves k self.old.cost;
        } }
    {
        let at = self.at;
        unsafe {
            let items = at.add(HEADER_WORDS) as *mut T;
            std::ptr::copy_nonoverlapping(items.add(from) as *const T, items.add(to), k)
        }
    }

    /// Moves the `k` items that start at slot `from` of this block to the slots `to..to + k` of the
    /// block `other`.
    pub fn move_run_to<B: Allocator>(
        &mut self,
        from: usize,
        other: &mut Block<T, B>,
        to: usize,
        k: usize,
    )
        requires in_bounds { from + k ≤ length self.old.slots }
        requires target { to + k ≤ length other.old.slots }
        requires filled { AreFilled self.old.slots from k }
        requires empty { AreEmpty other.old.slots to k }
        ensures changes { block_view self.new ≡ record (block_view self.old) {
          slots = clear_slots from k self.old.slots;
        } }
        ensures other_changes { block_view other.new ≡ record (block_view other.old) {
          slots = write_slots to (slot_range from k self.old.slots) other.old.slots;
          cost = add_moves k other.old.cost;
        } }
    {
        self.move_items_to(from, other, to, k);
    }

    // Moves items as `move_run_to` does, or relocates all items of this block to the new block
    // `other`: then `other` continues the counters of this block, and the items count as copies.
    // The ghost parameter `relocates` says which of both.
    pub(crate) fn move_items_to<B: Allocator>(
        &mut self,
        from: usize,
        other: &mut Block<T, B>,
        to: usize,
        k: usize,
    )
        ghost relocates: { Bool }
        requires in_bounds { from + k ≤ length self.old.slots }
        requires target { to + k ≤ length other.old.slots }
        requires filled { AreFilled self.old.slots from k }
        requires empty { AreEmpty other.old.slots to k }
        requires all { relocates ≡ true → k ≡ self.old.len }
        requires new { relocates ≡ true → other.old.cost ≡ add_realloc 0 no_cost }
        ensures changes { block_view self.new ≡ record (block_view self.old) {
          slots = clear_slots from k self.old.slots;
        } }
        ensures other_changes { block_view other.new ≡ record (block_view other.old) {
          slots = write_slots to (slot_range from k self.old.slots) other.old.slots;
          cost = if relocates then add_realloc k self.old.cost else add_moves k other.old.cost;
        } }
    {
        let from_at = self.at;
        let to_at = other.at;
        unsafe {
            let source = (from_at.add(HEADER_WORDS) as *const T).add(from);
            let target = (to_at.add(HEADER_WORDS) as *mut T).add(to);
            std::ptr::copy_nonoverlapping(source, target, k)
        }
    }
}
