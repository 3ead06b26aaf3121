//! Methods that move items into slots and out of slots.
ghost use Rattle.std.specs.Prelude.{◌≡◌, ◌+◌, ◌<◌, ◌≤◌, ◌==◌, if◌then◌else◌, IsSome, length, slice_set};
ghost use Rattle.core.specs.Mem.Slots.{IsFull, SamePlaces, slots_items, slots_len};
ghost use Rattle.std.specs.declared.option.Option.TheVariants.{None, Some};
ghost use Rattle.thin_block.specs.Cost.{add_moves};
ghost use Rattle.thin_block.specs.Slots.{AreEmpty, AreFilled, filled_slots, slot, slot_range, write_slots, clear_slots};

use crate::block::Block;
use crate::sizes::HEADER_WORDS;
use core::slots::Slots;
use std::alloc::Allocator;

// The greatest number of items that the function `fill_from` copies one by one. For five bytes,
// this was measured to take two thirds of the instructions of a call to `Slots::copy_in`. For 16
// `u64`, both took about the same, and for more, the call took fewer.
const MAX_COPIED_ONE_BY_ONE: usize = 16;

impl<T, A: Allocator> Block<T, A> {
    ghost use Rattle.thin_block.specs.Block.{block_view};

    /// Moves `value` into slot `i`.
    pub fn put(&mut self, i: usize, value: T)
        requires in_bounds { i < length self.old.slots }
        requires empty { slot self.old.slots i ≡ None }
        ensures changes { block_view self.new ≡ record (block_view self.old) {
          slots = slice_set self.old.slots i (Some value);
          cost = add_moves 1 self.old.cost;
        } }
    {
        // The clause `fits` of `cap` shows that `[value]` takes fewer than `2 ^ 63` bytes, as the
        // type `[T; N]` requires.
        let _cap = self.cap();
        self.put_array(i, [value]);
    }

    /// Moves `value` into slot `i`, and sets the stored length to `len`.
    pub fn put_and_set_len(&mut self, i: usize, value: T, len: usize)
        requires in_bounds { i < length self.old.slots }
        requires empty { slot self.old.slots i ≡ None }
        requires room { len ≤ length self.old.slots }
        ensures changes { block_view self.new ≡ record (block_view self.old) {
          slots = slice_set self.old.slots i (Some value);
          len = len;
          cost = add_moves 1 self.old.cost;
        } }
    {
        let at = self.at;
        unsafe {
            (at.add(HEADER_WORDS) as *mut T).add(i).write(value);
            *at.add(1) = len
        }
    }

    /// Moves the item out of slot `i`, and returns it.
    pub fn take(&mut self, i: usize) -> T
        requires filled { IsSome (slot self.old.slots i) }
        ensures value { slot self.old.slots i ≡ Some result }
        ensures changes { block_view self.new ≡ record (block_view self.old) {
          slots = slice_set self.old.slots i None;
        } }
    {
        let at = self.at;
        unsafe { (at.add(HEADER_WORDS) as *mut T).add(i).read() }
    }

    /// Exchanges the items in the slots `i` and `j`, which may be equal. A caller that only needs
    /// the item of slot `j` in slot `i` calls `swap_take`, which moves one item and not two.
    pub fn swap(&mut self, i: usize, j: usize)
        requires filled { IsSome (slot self.old.slots i) }
        requires other_filled { IsSome (slot self.old.slots j) }
        ensures changes { block_view self.new ≡ record (block_view self.old) {
          slots = slice_set
              (slice_set self.old.slots i (slot self.old.slots j)) j (slot self.old.slots i);
          cost = add_moves (if i == j then 1 else 2) self.old.cost;
        } }
    {
        let value = self.swap_take(i, j);
        self.put(j, value);
    }

    /// Removes the item from slot `i` and returns it. If `j != i`, then moves the item of slot `j`
    /// into slot `i`. If `j` equals `i`, the slot is empty afterwards, though its bytes are written
    /// back, and no move is counted.
    pub fn swap_take(&mut self, i: usize, j: usize) -> T
        requires filled { IsSome (slot self.old.slots i) }
        requires other_filled { IsSome (slot self.old.slots j) }
        ensures value { slot self.old.slots i ≡ Some result }
        ensures changes { block_view self.new ≡ record (block_view self.old) {
          slots = slice_set (slice_set self.old.slots i (slot self.old.slots j)) j None;
          cost = add_moves (if i == j then 0 else 1) self.old.cost;
        } }
    {
        let at = self.at;
        unsafe {
            let out = (at.add(HEADER_WORDS) as *mut T).add(i);
            let filler = (at.add(HEADER_WORDS) as *mut T).add(j);
            let value = out.read();
            out.write(filler.read());
            value
        }
    }

    /// Moves the items of `values` into the slots `i..i + N`.
    pub fn put_array<const N: usize>(&mut self, i: usize, values: [T; N])
        requires in_bounds { i + N ≤ length self.old.slots }
        requires empty { AreEmpty self.old.slots i N }
        ensures changes { block_view self.new ≡ record (block_view self.old) {
          slots = write_slots i (filled_slots values) self.old.slots;
          cost = add_moves N self.old.cost;
        } }
    {
        let at = self.at;
        unsafe { ((at.add(HEADER_WORDS) as *mut T).add(i) as *mut [T; N]).write(values) }
    }

    /// Moves the `N` items in the slots `i..i + N` to the caller.
    pub fn take_array<const N: usize>(&mut self, i: usize) -> [T; N]
        requires in_bounds { i + N ≤ length self.old.slots }
        requires filled { AreFilled self.old.slots i N }
        ensures value { filled_slots result ≡ slot_range i N self.old.slots }
        ensures changes { block_view self.new ≡ record (block_view self.old) {
          slots = clear_slots i N self.old.slots;
        } }
    {
        let at = self.at;
        unsafe { ((at.add(HEADER_WORDS) as *mut T).add(i) as *mut [T; N]).read() }
    }
}

impl<T: Copy, A: Allocator> Block<T, A> {
    ghost use Rattle.thin_block.specs.Block.{block_view};

    /// Copies `items` into adjacent slots, starting at slot `i`.
    pub fn copy_in(&mut self, i: usize, items: &[T])
        requires in_bounds { i + length items.now ≤ length self.old.slots }
        requires empty { AreEmpty self.old.slots i (length items.now) }
        ensures changes { block_view self.new ≡ record (block_view self.old) {
          slots = write_slots i (filled_slots items.now) self.old.slots;
          cost = add_moves (length items.now) self.old.cost;
        } }
    {
        let at = self.at;
        // `copy_nonoverlapping` would move the items out of the borrowed slice; `Slots` copies
        // them.
        unsafe {
            let room = Slots::from_raw_parts((at.add(HEADER_WORDS) as *mut T).add(i), items.len());
            let _copied = fill_from(room, items).into_raw_parts();
        }
    }
}

// Fills `row` with copies of `items`.
fn fill_from<T: Copy>(mut row: Slots<T>, items: &[T]) -> Slots<T>
    requires room { slots_len row ≡ length items.now }
    ensures capacity { SamePlaces row result }
    ensures items { slots_items result ≡ items.now }
    ensures filled { IsFull result }
{
    if items.len() > MAX_COPIED_ONE_BY_ONE {
        row.copy_in(0, items);
        return row;
    }
    for i in 0..items.len() {
        row.put(i, items[i]);
    }
    row
}
