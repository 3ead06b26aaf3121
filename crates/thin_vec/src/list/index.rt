//! Implementations of std's traits for using a list as a slice, by index, or in a loop that borrows
//! it.
ghost use Rattle.std.specs.Prelude.{◌≡◌, ◌^◌, ◌<◌, ◌↔◌, IfSome, IsSome, Some, length, slice_get, slice_index_or};
ghost use Rattle.std.specs.Iterator.Runs.{EveryRun, ItemsMapTo};
ghost use Rattle.std.specs.Slice.Iter.{iter_mut_rest, iter_mut_steps, iter_rest, iter_steps};
ghost use types.Logic.{sem};
ghost use Rattle.thin_vec.specs.Lends.{LendsGet, LendsItem, LendsItems, LendsIter};
ghost use Rattle.thin_vec.specs.ThinVec.{IsBounded};

use crate::list::ThinVec;
use std::alloc::Allocator;
use std::convert::AsSlice;
use std::ops::{DerefSlice, DerefSliceMut, Index, IndexMut};
use std::slice::{Iter, IterMut};
use thin_block::Growth;

impl<T, A: Allocator, G: Growth> DerefSlice for ThinVec<T, A, G> {
    type Elem = T;

    ghost deref_gives = { λ list items. items ≡ list.items };

    // The clauses are those of `as_slice`.
    fn deref(&self) -> &[T]
        ensures value { result.now ≡ self.now.items }
        ensures len { length result.now ≡ length self.now.items }
        ensures bounds { IsBounded T.row self.now }
    {
        self.as_slice()
    }
}

impl<T, A: Allocator, G: Growth> DerefSliceMut for ThinVec<T, A, G> {
    fn deref_mut(&mut self) -> &mut [T]
        ensures* writes_back { sem 𝓛
            (LendsItems T.row A.row G.row A.Allocator G.Growth self.entry result) }
        ensures value { result.now ≡ self.old.items }
        ensures len { length result.now ≡ length self.old.items }
        ensures bounds_before { IsBounded T.row self.old }
    {
        self.as_mut_slice()
    }
}

impl<T, A: Allocator, G: Growth> AsSlice<T> for ThinVec<T, A, G> {
    ghost items = { λ list. list.items };

    fn as_slice(&self) -> &[T] {
        self.as_slice()
    }
}

impl<T, A: Allocator, G: Growth> Index<usize> for ThinVec<T, A, G> {
    type Output = T;

    ghost can_index = { λ list index. index < length list.items };

    ghost index_gives = { λ list index item. item ≡ slice_index_or list.items index item };

    fn index(&self, index: usize) -> &T
        requires { index < length self.now.items }
        ensures { result.now ≡ slice_index_or self.now.items index result.now }
    {
        &self.as_slice()[index]
    }
}

impl<T, A: Allocator, G: Growth> IndexMut<usize> for ThinVec<T, A, G> {
    fn index_mut(&mut self, index: usize) -> &mut T
        requires { index < length self.old.items }
        ensures* writes_back { sem 𝓛
            (LendsItem T.row A.row G.row A.Allocator G.Growth self.entry index result) }
        ensures found { slice_get self.old.items index ≡ Some result.now }
        ensures bounds_before { IsBounded T.row self.old }

        // This follows from `found`.
        ensures value { result.now ≡ slice_index_or self.old.items index result.now }
    {
        let len = self.len();
        prove!(index < len);
        self.block.slot_mut(index)
    }
}

impl<T, A: Allocator, G: Growth> ThinVec<T, A, G> {
    /// Returns a mutable reference to the item at `index`, or `None` if there is no such item.
    pub fn get_mut(&mut self, index: usize) -> Option<&mut T>
        ensures* writes_back { sem 𝓛
            (LendsGet T.row A.row G.row A.Allocator G.Growth self.entry index result) }
        ensures variant { IsSome result ↔ (index < length self.old.items) }
        ensures value { IfSome result (λ x. x.now ≡ slice_index_or self.old.items index x.now) }
    {
        if index < self.len() {
            Some(&mut self[index])
        } else {
            None
        }
    }
}

impl<'a, T, A: Allocator, G: Growth> IntoIterator for &'a ThinVec<T, A, G> {
    type Item = &'a T;

    type IntoIter = Iter<'a, T>;

    ghost into_iter_gives = { λ list it. (iter_rest it ≡ list.now.items)
        × (length (iter_rest it) < 2 ^ 64)
        × EveryRun (iter_steps {A = T}) (λ p. ItemsMapTo p (λ x. x.now) (iter_rest p.from)) };

    fn into_iter(self) -> Iter<'a, T> {
        self.as_slice().iter()
    }
}

impl<'a, T, A: Allocator, G: Growth> IntoIterator for &'a mut ThinVec<T, A, G> {
    type Item = &'a mut T;

    type IntoIter = IterMut<'a, T>;

    ghost into_iter_gives = { λ list it. (iter_mut_rest it ≡ list.now.items)
        × (length (iter_mut_rest it) < 2 ^ 64)
        × EveryRun (iter_mut_steps {A = T})
        (λ p. ItemsMapTo p (λ x. x.now) (iter_mut_rest p.from)) };

    fn into_iter(self) -> IterMut<'a, T>
        ensures* writes_back { sem 𝓛
            (LendsIter T.row A.row G.row A.Allocator G.Growth self.entry result) }
        ensures into_iter_gives { (iter_mut_rest result ≡ self.old.items)
            × (length (iter_mut_rest result) < 2 ^ 64)
            × EveryRun (iter_mut_steps {A = T})
            (λ p. ItemsMapTo p (λ x. x.now) (iter_mut_rest p.from)) }
    {
        self.as_mut_slice().iter_mut()
    }
}
