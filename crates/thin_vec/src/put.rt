//! Loops that put items into the empty slots of a block.
ghost use Rattle.std.specs.Iterator.{IsFinite};
ghost use Rattle.std.specs.List.{FoldsTo};
ghost use Rattle.std.specs.Prelude.{◌≡◌, ℕ, ◌+◌, ◌-◌, ◌<◌, ◌≤◌, List, HoldsAt, length, replicate};
ghost use Rattle.thin_block.specs.Block.{block_view};
ghost use Rattle.thin_block.specs.Cost.{add_moves};
ghost use Rattle.thin_block.specs.Slots.{AreEmpty, filled_slots, write_slots, slot};
ghost use Rattle.thin_vec.specs.List.Clones.{WritesClones};
ghost use Rattle.thin_vec.specs.Put.{IsFilledBy};

use std::alloc::Allocator;
use std::iter::Iterator;
use thin_block::Block;

/// The result of a function that moves items of an iterator into empty slots, in order.
pub(crate) struct Filled<I> {
    /// The iterator, which yields the items that were not taken.
    pub(crate) rest: I,
    /// The index of the slot after the last item that was placed.
    pub(crate) end: usize,
    /// Whether the iterator returned `None` before the slots were full.
    pub(crate) ended: bool,
}

// Moves the items of `items` into the empty slots from index `start` onward, in the same order, and
// frees the vector. The last item is moved first, because `pop` moves no other item of the vector.
pub(crate) fn put_vec<T, A: Allocator, B: Allocator>(
    block: &mut Block<T, A>,
    start: usize,
    mut items: Vec<T, B>,
)
    requires in_bounds { start + length items.items ≤ length block.old.slots }
    requires empty { AreEmpty block.old.slots start (length items.items) }
    ensures changes { block_view block.new ≡ record (block_view block.old) {
      slots = write_slots start (filled_slots items.items) block.old.slots;
      cost = add_moves (length items.items) block.old.cost;
    } }
{
    while let Some(item) = items.pop() {
        block.put(start + items.len(), item);
    }
    items.destroy_empty();
}

// Puts clones of `items` into the empty slots from index `start` onward, until an item cannot be
// cloned. Returns the number of clones.
pub(crate) fn put_clones<T: Clone, A: Allocator>(
    block: &mut Block<T, A>,
    start: usize,
    items: &[T],
) -> usize
    requires in_bounds { start + length items.now ≤ length block.old.slots }
    requires empty { AreEmpty block.old.slots start (length items.now) }
    ensures in_bounds { result ≤ length items.now }
    ensures slots { WritesClones T.is_clone items.now result start block.old.slots block.new.slots }
    ensures changes { block_view block.new ≡ record (block_view block.old) {
      slots = block.new.slots;
      cost = add_moves result block.old.cost;
    } }
    ensures stopped_at { result < length items.now
        → HoldsAt (λ x. ¬ (T.is_infallible x)) items.now result }
{
    for i in 0..items.len() {
        match items[i].clone() {
            Ok(item) => block.put(start + i, item),
            Err(_) => return i,
        }
    }
    items.len()
}

// Puts clones of `value` into the `count` empty slots from index `start` onward, until `value`
// cannot be cloned. Returns the number of clones.
pub(crate) fn put_repeated<T: Clone, A: Allocator>(
    block: &mut Block<T, A>,
    start: usize,
    value: &T,
    count: usize,
) -> usize
    requires in_bounds { start + count ≤ length block.old.slots }
    requires empty { AreEmpty block.old.slots start count }
    ensures in_bounds { result ≤ count }
    ensures slots { WritesClones T.is_clone (replicate count value.now) result start block.old.slots
        block.new.slots }
    ensures changes { block_view block.new ≡ record (block_view block.old) {
      slots = block.new.slots;
      cost = add_moves result block.old.cost;
    } }
    ensures stopped_at { result < count → ¬ (T.is_infallible value.now) }
{
    for i in 0..count {
        match value.clone() {
            Ok(item) => block.put(start + i, item),
            Err(_) => return i,
        }
    }
    count
}

// Fills the `count` empty slots from index `start` onward with the results of `make`.
pub(crate) fn put_results<T, A: Allocator, F: FnMut() -> T>(
    block: &mut Block<T, A>,
    start: usize,
    count: usize,
    mut make: F,
)
    requires in_bounds { start + count ≤ length block.old.slots }
    requires empty { AreEmpty block.old.slots start count }
    requires callable { F.IsAlwaysCallable make }
    ensures slots { (xs : List T) × (last : F) × (length xs ≡ count) × FoldsTo F.step make xs last
        × (block.new.slots ≡ write_slots start (filled_slots xs) block.old.slots) }
    ensures changes { block_view block.new ≡ record (block_view block.old) {
      slots = block.new.slots;
      cost = add_moves count block.old.cost;
    } }
{
    for i in 0..count {
        block.put(start + i, make());
    }
}

// Moves items of `iter` into the empty slots `start..end`, until they are full or `iter` ends.
pub(crate) fn put_iter<T, A: Allocator, I: Iterator<Item = T>>(
    block: Block<T, A>,
    start: usize,
    end: usize,
    iter: I,
) -> (Block<T, A>, Filled<I>)
    requires start_le_end { start ≤ end }
    requires in_bounds { end ≤ length block.slots }
    requires empty { (k : ℕ) → start ≤ k → k < end → slot block.slots k ≡ None }
    requires can_next { I.can_next iter }
    requires finite { IsFinite (I.remaining iter) }
    ensures filled_by { (by : IsFilledBy I.next_gives I.can_next I.remaining (end - start) iter
        result.1)
        × (result.0.slots ≡ write_slots start (filled_slots by.items) block.slots)
        × (result.1.end ≡ start + length by.items) }
    ensures changes { block_view result.0 ≡ record (block_view block) {
      slots = result.0.slots;
      cost = add_moves (result.1.end - start) block.cost;
    } }
{
    let mut block = block;
    let mut rest = iter;
    let mut i = start;
    while i < end {
        let Some(item) = rest.next() else {
            return (
                block,
                Filled {
                    rest,
                    end: i,
                    ended: true,
                },
            );
        };
        block.put(i, item);
        i += 1;
    }
    (
        block,
        Filled {
            rest,
            end: i,
            ended: false,
        },
    )
}
