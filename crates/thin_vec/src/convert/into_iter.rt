//! The iterator `IntoIter`, which owns the items of a list and yields them from either end.
ghost use Rattle.std.specs.Prelude.{◌≡◌, ◌↔◌, ◌^◌, ◌<◌, [], ◌∷◌, ◌++◌, IfErr, IfOk, IsOk, IsSome, Some, length};
ghost use Rattle.std.specs.Iterator.{YieldsFirst, YieldsLast, item_count};
ghost use Rattle.std.specs.List.{AllZip};
ghost use Rattle.std.specs.Option.{option_to_list};
ghost use Rattle.thin_block.specs.Cost.{add_moves};
ghost use Rattle.thin_vec.specs.List.Clones.{ClonesEqual};
ghost use Rattle.thin_vec.specs.Convert.IntoIter.{IntoIterYieldsInOrder, IntoIterYieldsInReverse};
ghost use Rattle.thin_vec.specs.VecWords.{into_iter_items};

use crate::list::ThinVec;
use std::alloc::{Allocator, Global};
use std::fmt;
use std::iter::FusedIterator;
use std::marker::{Model, PhantomData};
use thin_block::{Block, Doubling, Growth, ThinVecError};

/// An iterator that yields the items of a list from either end. It owns the remaining items, the
/// allocation and the allocator of the list. Dropping the iterator drops the remaining items, and
/// frees the allocation.
///
/// Contracts describe an `IntoIter` by the same fields as a list. The field `items` contains the
/// remaining items.
pub struct IntoIter<T, A: Allocator = Global, G: Growth = Doubling> {
    // The items are in the slots `start..end`. The length that the block stores is not used.
    block: Block<T, A>,
    alloc: A,
    start: usize,
    end: usize,
    growth: PhantomData<G>,
}

impl<T, A: Allocator, G: Growth> Model for IntoIter<T, A, G> {
    ghost use Rattle.thin_vec.specs.Convert.IntoIter.{IsIntoIterBlock};
    ghost use Rattle.thin_vec.specs.ThinVec.{ListView, list_view_code, list_view};

    ghost Value = { ListView T A };

    ghost coded = { list_view_code T.code A.code };

    ghost view = { λ it. list_view it.block it.alloc };

    ghost invariant = { λ it. IsIntoIterBlock it.block it.alloc it.start it.end };
}

impl<T, A: Allocator, G: Growth> ThinVec<T, A, G> {
    /// Converts the list into an iterator that yields its items from either end.
    pub fn into_iter(self) -> IntoIter<T, A, G>
        ensures value { result ≡ self }
        ensures bounds { length self.items < 2 ^ 64 }
        ensures runs { IntoIterYieldsInOrder T A }
        ensures runs_back { IntoIterYieldsInReverse T A }

        // These follow from `value`.
        ensures rest { result.items ≡ self.items }
        ensures len { length result.items ≡ length self.items }
    {
        let end = self.len();
        let (block, alloc) = self.into_parts();
        IntoIter {
            block,
            alloc,
            start: 0,
            end,
            growth: PhantomData,
        }
    }
}

impl<T: Drop, A: Allocator, G: Growth> IntoIterator for ThinVec<T, A, G> {
    type Item = T;

    type IntoIter = IntoIter<T, A, G>;

    ghost into_iter_gives = { λ list it. (it.items ≡ list.items) × (it ≡ list)
        × (length it.items < 2 ^ 64) × IntoIterYieldsInOrder T A × IntoIterYieldsInReverse T A };

    fn into_iter(self) -> IntoIter<T, A, G> {
        ThinVec::into_iter(self)
    }
}

impl<T, A: Allocator, G: Growth> IntoIter<T, A, G> {
    ghost use types.Logic.{sem};
    ghost use Rattle.thin_vec.specs.Lends.{LendsRest};

    /// Returns the number of remaining items.
    pub fn len(&self) -> usize
        ensures value { result ≡ length self.now.items }
    {
        self.end - self.start
    }

    /// Returns the number of remaining items, as both bounds.
    pub fn size_hint(&self) -> (usize, Option<usize>)
        ensures value { result ≡ (length self.now.items, Some (length self.now.items)) }
    {
        let len = self.len();
        (len, Some(len))
    }

    /// Yields the first remaining item, or returns `None` if there is none.
    pub fn next(&mut self) -> Option<T>
        ensures variant { IsSome result ↔ (0 < length self.old.items) }
        ensures items { self.old.items ≡ option_to_list result ++ self.new.items }
        ensures changes { self.new ≡ record self.old { items = self.new.items } }
    {
        if self.start == self.end {
            return None;
        }
        Some(self.take_first())
    }

    /// Yields the last remaining item, or returns `None` if there is none.
    pub fn next_back(&mut self) -> Option<T>
        ensures steps { YieldsLast into_iter_items self.old result self.new }
        ensures changes { self.new ≡ record self.old { items = self.new.items } }
    {
        if self.start == self.end {
            return None;
        }
        Some(self.take_last())
    }

    // Yields the first item.
    fn take_first(&mut self) -> T
        requires nonempty { 0 < length self.old.items }
        ensures items { self.old.items ≡ result ∷ self.new.items }
        ensures changes { self.new ≡ record self.old { items = self.new.items } }
    {
        let first = self.start;
        self.start += 1;
        self.block.take(first)
    }

    // Yields the last item.
    fn take_last(&mut self) -> T
        requires nonempty { 0 < length self.old.items }
        ensures items { self.old.items ≡ self.new.items ++ result ∷ [] }
        ensures changes { self.new ≡ record self.old { items = self.new.items } }
    {
        self.end -= 1;
        self.block.take(self.end)
    }

    /// Returns the remaining items, in order, as a slice.
    pub fn as_slice(&self) -> &[T]
        ensures value { result.now ≡ self.now.items }
    {
        self.block.slice(self.start, self.end)
    }

    /// Returns the remaining items, in order, as a mutable slice.
    pub fn as_mut_slice(&mut self) -> &mut [T]
        ensures* writes_back { sem 𝓛
            (LendsRest T.row A.row G.row A.Allocator G.Growth self.entry result) }
        ensures value { result.now ≡ self.old.items }
    {
        self.block.slice_mut(self.start, self.end)
    }

    // Frees the allocation.
    pub(crate) fn release(self)
        requires is_empty { self.items ≡ [] }
    {
        let IntoIter {
            block,
            alloc,
            start: _,
            end: _,
            growth: _,
        } = self;
        block.release(&alloc);
    }
}

impl<T: Clone, A: Allocator, G: Growth> IntoIter<T, A, G> {
    ghost use Rattle.thin_vec.specs.Cheap.{IsCheap};
    ghost use Rattle.thin_vec.specs.ThinVec.{cost_of_new};

    /// Makes an iterator that yields clones of the remaining items, or fails if there is no memory
    /// for them or an item cannot be cloned.
    ///
    /// # Errors
    ///
    /// Fails as `ThinVec::clone` does.
    pub fn clone(&self, alloc: A) -> Result<IntoIter<T, A, G>, ThinVecError>
        // On success.
        ensures items { IfOk result (λ it. AllZip T.is_clone self.now.items it.items) }
        ensures items_if_clones_equal { IfOk result (λ it. ClonesEqual T.is_clone
            → it.items ≡ self.now.items) }
        ensures capacity { IfOk result (λ it. it.capacity ≡ length self.now.items) }
        ensures alloc { IfOk result (λ it. it.alloc ≡ alloc) }
        ensures cost { IfOk result (λ it. it.cost ≡ add_moves (length self.now.items)
            (cost_of_new (length self.now.items))) }
        ensures cheap { IfOk result (λ it. IsCheap it) }

        // When it must succeed. In every other case it may fail.
        ensures succeeds_empty { length self.now.items ≡ 0 → IsOk result }

        // On failure.
        ensures cause { IfErr result (λ cause. cause ≡ ThinVecError.OutOfMemory) }
    {
        // Only the proof needs this call: its contract says that the capacity `Fits`.
        let _cap = self.block.cap();
        let list = ThinVec::from_fitting_slice(alloc, self.as_slice())?;
        Ok(list.into_iter())
    }
}

impl<T: Drop, A: Allocator, G: Growth> Iterator for IntoIter<T, A, G> {
    type Item = T;

    // What one call to `next` does: its contract.
    ghost next_gives = { YieldsFirst into_iter_items };

    ghost remaining = { item_count into_iter_items };

    fn next(&mut self) -> Option<T> {
        IntoIter::next(self)
    }

    fn size_hint(&self) -> (usize, Option<usize>)
        ensures value { result ≡ (length self.now.items, Some (length self.now.items)) }
    {
        IntoIter::size_hint(self)
    }
}

impl<T: Drop, A: Allocator, G: Growth> DoubleEndedIterator for IntoIter<T, A, G> {
    // What one call to `next_back` does: its contract.
    ghost next_back_gives = { YieldsLast into_iter_items };

    fn next_back(&mut self) -> Option<T> {
        IntoIter::next_back(self)
    }
}

impl<T: Drop, A: Allocator, G: Growth> ExactSizeIterator for IntoIter<T, A, G> {
    fn len(&self) -> usize {
        IntoIter::len(self)
    }
}

impl<T: Drop, A: Allocator, G: Growth> FusedIterator for IntoIter<T, A, G> {}

impl<T: fmt::Debug, A: Allocator, G: Growth> fmt::Debug for IntoIter<T, A, G> {
    fn fmt<W: fmt::Write>(&self, f: &mut fmt::Formatter<W>) -> fmt::Result {
        f.debug_tuple("IntoIter").field(&self.as_slice()).finish()
    }
}

impl<T: Drop, A: Allocator, G: Growth> Drop for IntoIter<T, A, G> {
    fn drop(mut self) {
        while let Some(_item) = self.next() {}
        self.release();
    }
}
