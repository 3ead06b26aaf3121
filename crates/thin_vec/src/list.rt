//! The type `ThinVec` and its most common methods. The folders `list`, `convert` and `edits` have
//! the others. `docs/CONTRACTS.md` explains the notation.
ghost use Rattle.std.specs.Prelude.{◌≡◌, ◌↔◌, ◌+◌, ◌-◌, ◌<◌, ◌==◌, [], ◌∷◌, ◌++◌, IsSome, IsTrue, MatchOption, None, Some, length, slice_index_or};
ghost use Rattle.std.specs.Option.{option_to_list};
ghost use Rattle.thin_block.specs.Block.{IsAllocatedBy};
ghost use Rattle.thin_block.specs.Capacity.{Fits};
ghost use Rattle.thin_block.specs.Slots.{IsPacked};

mod append_split;
mod capacity;
mod clones;
mod compare;
mod copies;
mod extend;
mod index;
mod insert_remove;
mod push;
mod resize;
mod shrink;
mod slices;

use std::alloc::{Allocator, Global};
use std::marker::{Model, PhantomData};
use thin_block::{Block, Doubling, Growth};

/// A growable list like Rust's `Vec`, but only one pointer wide if its allocator is zero-sized, as
/// `Global` is. The length and the capacity are stored in the allocation, before the items. This
/// allocation is called the *block* of the list. A list of capacity 0 has no block.
///
/// The list owns its items, its block and its allocator. Dropping the list drops its items and
/// frees its block.
///
/// The growth rule `G` chooses the new capacity when the list has to grow. The default, `Doubling`,
/// is the rule of the Rust crate thin-vec.
pub struct ThinVec<T, A: Allocator = Global, G: Growth = Doubling> {
    pub(crate) block: Block<T, A>,
    pub(crate) alloc: A,
    pub(crate) growth: PhantomData<G>,
}

impl<T, A: Allocator, G: Growth> Model for ThinVec<T, A, G> {
    ghost use Rattle.thin_vec.specs.ThinVec.{IsListBlock, ListView, list_view_code, list_view};

    ghost Value = { ListView T A };

    ghost coded = { list_view_code T.code A.code };

    ghost view = { λ v. list_view v.block v.alloc };

    ghost invariant = { λ v. IsListBlock v.block v.alloc };
}

impl<T, A: Allocator> ThinVec<T, A> {
    ghost use Rattle.thin_vec.specs.ThinVec.{IsNew, IsBounded};

    /// Returns an empty list that owns the allocator `alloc`. The call allocates nothing.
    pub fn new(alloc: A) -> ThinVec<T, A>
        ensures new { IsNew result alloc }

        // These follow from `new`.
        ensures items { result.items ≡ [] }
        ensures len { length result.items ≡ 0 }
        ensures capacity { result.capacity ≡ 0 }
        ensures bounds { IsBounded T.row result }
    {
        ThinVec::ruled(alloc)
    }

    /// Does the same as `new`. Use it in place of the trait `Default`, whose method takes no
    /// allocator.
    pub fn default_in(alloc: A) -> ThinVec<T, A>
        ensures new { IsNew result alloc }

        // These follow from `new`.
        ensures items { result.items ≡ [] }
        ensures len { length result.items ≡ 0 }
        ensures capacity { result.capacity ≡ 0 }
        ensures bounds { IsBounded T.row result }
    {
        ThinVec::new(alloc)
    }
}

impl<T, A: Allocator, G: Growth> ThinVec<T, A, G> {
    ghost use types.Logic.{sem};
    ghost use Rattle.thin_block.specs.Slots.{packed_slots};
    ghost use Rattle.thin_vec.specs.Lends.{LendsItems};
    ghost use Rattle.thin_vec.specs.ThinVec.{IsNew, IsBounded};

    /// Does the same as `new`, for a list with the growth rule `G`.
    pub fn ruled(alloc: A) -> ThinVec<T, A, G>
        ensures new { IsNew result alloc }

        // These follow from `new`.
        ensures items { result.items ≡ [] }
        ensures len { length result.items ≡ 0 }
        ensures capacity { result.capacity ≡ 0 }
        ensures bounds { IsBounded T.row result }
    {
        ThinVec {
            block: Block::none(),
            alloc,
            growth: PhantomData,
        }
    }

    /// Returns the number of items.
    pub fn len(&self) -> usize
        ensures value { result ≡ length self.now.items }
        ensures fits { Fits T.row result }
        ensures bounds { IsBounded T.row self.now }
    {
        self.block.len()
    }

    /// Returns a reference to the allocator of the list.
    pub fn allocator(&self) -> &A
        ensures value { result.now ≡ self.now.alloc }
    {
        &self.alloc
    }

    /// Returns whether the list has no items.
    pub fn is_empty(&self) -> bool
        ensures { result ≡ (length self.now.items == 0) }
    {
        self.len() == 0
    }

    /// Returns the number of items that the list can hold without growing.
    pub fn capacity(&self) -> usize
        ensures value { result ≡ self.now.capacity }
        ensures bounds { IsBounded T.row self.now }
    {
        self.block.cap()
    }

    /// Returns whether the list has a block, that is, whether its capacity is not 0.
    pub fn has_capacity(&self) -> bool
        ensures value { IsTrue result ↔ (0 < self.now.capacity) }
        ensures bounds { IsBounded T.row self.now }
    {
        self.capacity() != 0
    }

    /// Returns the items, in order, as a slice.
    pub fn as_slice(&self) -> &[T]
        ensures value { result.now ≡ self.now.items }
        ensures len { length result.now ≡ length self.now.items }
        ensures bounds { IsBounded T.row self.now }
    {
        self.block.slice(0, self.block.len())
    }

    /// Returns the items, in order, as a mutable slice.
    pub fn as_mut_slice(&mut self) -> &mut [T]
        ensures* writes_back { sem 𝓛
            (LendsItems T.row A.row G.row A.Allocator G.Growth self.entry result) }
        ensures value { result.now ≡ self.old.items }
        ensures len { length result.now ≡ length self.old.items }
        ensures bounds_before { IsBounded T.row self.old }
    {
        let len = self.block.len();
        self.block.slice_mut(0, len)
    }

    /// Removes the last item and returns it, or returns `None` if the list is empty.
    pub fn pop(&mut self) -> Option<T>
        ensures variant { IsSome result ↔ (0 < length self.old.items) }
        ensures items { self.old.items ≡ self.new.items ++ option_to_list result }
        ensures changes { self.new ≡ record self.old { items = self.new.items } }
        ensures bounds_before { IsBounded T.row self.old }

        // These follow from `variant`, `items` and `changes`.
        ensures value { (d : T) → 0 < length self.old.items
            → result ≡ Some (slice_index_or self.old.items (length self.old.items - 1) d) }
        ensures cases { MatchOption result
            ((length self.old.items ≡ 0) × (length self.new.items ≡ 0))
            (λ _. length self.new.items + 1 ≡ length self.old.items) }
        ensures capacity { self.new.capacity ≡ self.old.capacity }
    {
        if self.len() == 0 {
            return None;
        }
        Some(self.pop_last())
    }

    // Removes the last item and returns it.
    pub(crate) fn pop_last(&mut self) -> T
        requires nonempty { 0 < length self.old.items }
        ensures items { self.old.items ≡ self.new.items ++ result ∷ [] }
        ensures changes { self.new ≡ record self.old { items = self.new.items } }
    {
        let last = self.block.len() - 1;
        let value = self.block.take(last);
        self.block.store_len(last);
        value
    }

    // Splits the list into its block, which owns the items, and its allocator.
    pub(crate) fn into_parts(self) -> (Block<T, A>, A)
        ensures slots { result.0.slots ≡ packed_slots self.items self.capacity }
        ensures len { result.0.len ≡ length self.items }
        ensures same_allocator { IsAllocatedBy result.0.alloc result.1 }
        ensures cost { result.0.cost ≡ self.cost }
        ensures alloc { result.1 ≡ self.alloc }
    {
        let ThinVec {
            block,
            alloc,
            growth: _,
        } = self;
        (block, alloc)
    }
}

impl<T: Drop, A: Allocator, G: Growth> Drop for ThinVec<T, A, G> {
    #[inline(always)]
    fn drop(self) {
        let (block, alloc) = self.into_parts();
        if block.cap() == 0 {
            block.forget_unallocated();
        } else {
            drop_block(block, alloc);
        }
    }
}

// Drops the items, and then frees the block. `drop` is inlined, so this loop is a function of its
// own, compiled once for each type of list.
#[inline(never)]
fn drop_block<T: Drop, A: Allocator>(mut block: Block<T, A>, alloc: A)
    requires packed { IsPacked block.slots block.len }
    requires same_allocator { IsAllocatedBy block.alloc alloc }
{
    let len = block.len();
    for i in 0..len {
        drop(block.take(i));
    }
    block.release(&alloc);
}
