//! Methods of slices that write to the items, with contracts that speak of the list. The stable
//! sorts take the memory that they need from the allocator of the list.
ghost use Rattle.std.specs.Prelude.{◌≡◌, ◌-◌, ◌<◌, ◌≤◌, ◌↔◌, ◌++◌, ◌+◌, reverse as reversed, IfSome, IsOk, IsPermutation, IsSome, IsSorted, OnErr, OnOk, drop, length, replicate, slice_index_or, slice_range, take};
ghost use Rattle.std.specs.List.{AllWithin, FoldsTo, HoldsAt, ReversedBelow, RotatedLeft, RotatedRight, SwappedAt, copy_within, swap};
ghost use Rattle.std.specs.List.Sorted.{IsSortedByClosure, IsSortedByKeyClosure, IsStable, IsStableByClosure, IsStableByKeyClosure};
ghost use Rattle.std.specs.Range.Bound.{end_index, start_index};
ghost use Rattle.thin_vec.specs.Lends.{LendsGet, LendsItems, LendsItemsFrom};
ghost use Rattle.thin_vec.specs.ThinVec.{IsBounded};
ghost use types.Logic.{sem};

use crate::list::ThinVec;
use std::alloc::{AllocError, Allocator};
use std::cmp::Ordering;
use std::ops::RangeBounds;
use std::slice;
use thin_block::Growth;

impl<T, A: Allocator, G: Growth> ThinVec<T, A, G> {
    /// Sorts the items, or fails if the memory for it is refused. Equal items keep their order.
    /// More than 20 items may need memory for the time of the call, which the allocator of the list
    /// gives. (No contract of a sort says how often items are compared, how often a closure is
    /// called, or how much memory is taken.)
    ///
    /// # Errors
    ///
    /// Fails if the allocator of the list refuses the memory. The list is then unchanged.
    pub fn sort(&mut self) -> Result<(), AllocError>
    where
        T: Ord,
        // On success.
        ensures sorted { OnOk result (IsSorted T.cmp self.new.items) }

        // When it must succeed. In every other case it may fail.
        ensures succeeds { length self.old.items ≤ 20 → IsOk result }

        // On failure: nothing changes.
        ensures err { OnErr result (self.new ≡ self.old) }

        // In every case. Equal items keep their order (`stable`). Sorting writes through
        // references, which no counter counts, so the counters stay as they are (`changes`).
        ensures permutation { IsPermutation self.old.items self.new.items }
        ensures stable { IsStable T.cmp self.old.items self.new.items }
        ensures changes { self.new ≡ record self.old { items = self.new.items } }
        ensures bounds_before { IsBounded T.row self.old }

        // These follow from `permutation` and `changes`.
        ensures len { length self.new.items ≡ length self.old.items }
        ensures capacity { self.new.capacity ≡ self.old.capacity }
    {
        let (items, alloc) = self.parts_mut();
        items.sort(alloc)
    }

    /// Does the same as `sort`, in the order of `compare`. If the answers of `compare` do not form
    /// a strict weak order on all values of the type, the items end up in some order.
    ///
    /// # Errors
    ///
    /// Fails if the allocator of the list refuses the memory. The list is then unchanged.
    pub fn sort_by<F: FnMut(&T, &T) -> Ordering>(&mut self, compare: F) -> Result<(), AllocError>
        requires callable { F.IsAlwaysCallable compare }

        // On success. If `compare` answers by a strict weak order, the items are sorted by it.
        ensures sorted { OnOk result (IsSortedByClosure F.FnMut compare self.new.items) }

        // When it must succeed. In every other case it may fail.
        ensures succeeds { length self.old.items ≤ 20 → IsOk result }

        // On failure: nothing changes.
        ensures err { OnErr result (self.new ≡ self.old) }

        // In every case. Under the same condition, ties keep their order (`stable`).
        ensures permutation { IsPermutation self.old.items self.new.items }
        ensures stable { IsStableByClosure F.FnMut compare self.old.items self.new.items }
        ensures changes { self.new ≡ record self.old { items = self.new.items } }
        ensures bounds_before { IsBounded T.row self.old }

        // These follow from `permutation` and `changes`.
        ensures len { length self.new.items ≡ length self.old.items }
        ensures capacity { self.new.capacity ≡ self.old.capacity }
    {
        let (items, alloc) = self.parts_mut();
        items.sort_by(alloc, compare)
    }

    /// Does the same as `sort`, in the order of the keys that `f` returns. If the keys depend on
    /// more than the item, the items end up in some order.
    ///
    /// # Errors
    ///
    /// Fails if the allocator of the list refuses the memory. The list is then unchanged.
    pub fn sort_by_key<K: Ord, F: FnMut(&T) -> K>(&mut self, f: F) -> Result<(), AllocError>
    where
        K: Drop,
        requires callable { F.IsAlwaysCallable f }

        // On success. If the keys that `f` returns depend on the item alone, the items are sorted
        // by them.
        ensures sorted { OnOk result (IsSortedByKeyClosure F.FnMut K.cmp f self.new.items) }

        // When it must succeed. In every other case it may fail.
        ensures succeeds { length self.old.items ≤ 20 → IsOk result }

        // On failure: nothing changes.
        ensures err { OnErr result (self.new ≡ self.old) }

        // In every case. Under the same condition, ties keep their order (`stable`).
        ensures permutation { IsPermutation self.old.items self.new.items }
        ensures stable { IsStableByKeyClosure F.FnMut K.cmp f self.old.items self.new.items }
        ensures changes { self.new ≡ record self.old { items = self.new.items } }
        ensures bounds_before { IsBounded T.row self.old }

        // These follow from `permutation` and `changes`.
        ensures len { length self.new.items ≡ length self.old.items }
        ensures capacity { self.new.capacity ≡ self.old.capacity }
    {
        let (items, alloc) = self.parts_mut();
        items.sort_by_key(alloc, f)
    }

    /// Does the same as `sort_by_key`, but stores the keys, in place of calling `f` for each
    /// comparison. This takes memory for two items or more.
    ///
    /// # Errors
    ///
    /// Fails if the allocator of the list refuses the memory. The list is then unchanged.
    pub fn sort_by_cached_key<K: Ord, F: FnMut(&T) -> K>(&mut self, f: F) -> Result<(), AllocError>
    where
        K: Drop,
        requires callable { F.IsAlwaysCallable f }

        // On success. If the keys that `f` returns depend on the item alone, the items are sorted
        // by them.
        ensures sorted { OnOk result (IsSortedByKeyClosure F.FnMut K.cmp f self.new.items) }

        // When it must succeed. In every other case it may fail.
        ensures succeeds { length self.old.items ≤ 1 → IsOk result }

        // On failure: nothing changes.
        ensures err { OnErr result (self.new ≡ self.old) }

        // In every case. Under the same condition, ties keep their order (`stable`).
        ensures permutation { IsPermutation self.old.items self.new.items }
        ensures stable { IsStableByKeyClosure F.FnMut K.cmp f self.old.items self.new.items }
        ensures changes { self.new ≡ record self.old { items = self.new.items } }
        ensures bounds_before { IsBounded T.row self.old }

        // These follow from `permutation` and `changes`.
        ensures len { length self.new.items ≡ length self.old.items }
        ensures capacity { self.new.capacity ≡ self.old.capacity }
    {
        let (items, alloc) = self.parts_mut();
        items.sort_by_cached_key(alloc, f)
    }

    /// Sorts the items without requesting memory. Equal items may change places.
    pub fn sort_unstable(&mut self)
    where
        T: Ord,
        ensures sorted { IsSorted T.cmp self.new.items }
        ensures permutation { IsPermutation self.old.items self.new.items }
        ensures changes { self.new ≡ record self.old { items = self.new.items } }
        ensures bounds_before { IsBounded T.row self.old }

        // These follow from `permutation` and `changes`.
        ensures len { length self.new.items ≡ length self.old.items }
        ensures capacity { self.new.capacity ≡ self.old.capacity }
    {
        self.as_mut_slice().sort_unstable();
    }

    /// Sorts the items in the order of `compare` without requesting memory, which tests show. Ties
    /// may change places. If the answers of `compare` do not form a strict weak order on all values
    /// of the type, the items end up in some order. It has to be possible to call `compare` with
    /// any two values of the type.
    pub fn sort_unstable_by<F: FnMut(&T, &T) -> Ordering>(&mut self, compare: F)
        requires callable { F.IsAlwaysCallable compare }
        // If `compare` answers by a strict weak order, the items are sorted by it.
        ensures sorted { IsSortedByClosure F.FnMut compare self.new.items }
        ensures permutation { IsPermutation self.old.items self.new.items }
        // Sorting writes through references, which no counter counts, so the counters stay.
        ensures changes { self.new ≡ record self.old { items = self.new.items } }
        ensures bounds_before { IsBounded T.row self.old }

        // These follow from `permutation` and `changes`.
        ensures len { length self.new.items ≡ length self.old.items }
        ensures capacity { self.new.capacity ≡ self.old.capacity }
    {
        self.as_mut_slice().sort_unstable_by(compare);
    }

    /// Does the same as `sort_unstable`, in the order of the keys that `f` returns, as
    /// `sort_by_key` does.
    pub fn sort_unstable_by_key<K: Ord, F: FnMut(&T) -> K>(&mut self, f: F)
    where
        K: Drop,
        requires callable { F.IsAlwaysCallable f }
        // If the keys that `f` returns depend on the item alone, the items are sorted by them.
        ensures sorted { IsSortedByKeyClosure F.FnMut K.cmp f self.new.items }
        ensures permutation { IsPermutation self.old.items self.new.items }
        ensures changes { self.new ≡ record self.old { items = self.new.items } }
        ensures bounds_before { IsBounded T.row self.old }

        // These follow from `permutation` and `changes`.
        ensures len { length self.new.items ≡ length self.old.items }
        ensures capacity { self.new.capacity ≡ self.old.capacity }
    {
        self.as_mut_slice().sort_unstable_by_key(f);
    }

    /// Exchanges the items at the indices `i` and `j`.
    pub fn swap(&mut self, i: usize, j: usize)
        requires i_in_bounds { i < length self.old.items }
        requires j_in_bounds { j < length self.old.items }
        ensures items { self.new.items ≡ swap self.old.items i j }
        ensures len { length self.new.items ≡ length self.old.items }
        ensures capacity { self.new.capacity ≡ self.old.capacity }
        ensures changes { self.new ≡ record self.old { items = self.new.items } }
        ensures bounds_before { IsBounded T.row self.old }
        ensures by_index { SwappedAt self.old.items self.new.items i j }
    {
        prove!(i < self.len());
        prove!(j < self.len());
        self.as_mut_slice().swap(i, j);
    }

    /// Reverses the order of the items.
    pub fn reverse(&mut self)
        ensures items { self.new.items ≡ reversed self.old.items }
        ensures permutation { IsPermutation self.old.items self.new.items }
        ensures len { length self.new.items ≡ length self.old.items }
        ensures capacity { self.new.capacity ≡ self.old.capacity }
        ensures changes { self.new ≡ record self.old { items = self.new.items } }
        ensures bounds_before { IsBounded T.row self.old }
        ensures by_index { ReversedBelow self.old.items self.new.items (length self.old.items) }
    {
        self.as_mut_slice().reverse();
    }

    /// Moves the first `mid` items behind the others.
    pub fn rotate_left(&mut self, mid: usize)
        requires in_bounds { mid ≤ length self.old.items }
        ensures items { self.new.items ≡ drop mid self.old.items ++ take mid self.old.items }
        ensures len { length self.new.items ≡ length self.old.items }
        ensures capacity { self.new.capacity ≡ self.old.capacity }
        ensures changes { self.new ≡ record self.old { items = self.new.items } }
        ensures bounds_before { IsBounded T.row self.old }
        ensures by_index { RotatedLeft self.old.items self.new.items (length self.old.items) mid }
    {
        prove!(mid <= self.len());
        self.as_mut_slice().rotate_left(mid);
    }

    /// Moves the last `k` items before the others.
    pub fn rotate_right(&mut self, k: usize)
        requires in_bounds { k ≤ length self.old.items }
        ensures items { self.new.items ≡ drop (length self.old.items - k) self.old.items
            ++ take (length self.old.items - k) self.old.items }
        ensures len { length self.new.items ≡ length self.old.items }
        ensures capacity { self.new.capacity ≡ self.old.capacity }
        ensures changes { self.new ≡ record self.old { items = self.new.items } }
        ensures bounds_before { IsBounded T.row self.old }
        ensures by_index { RotatedRight self.old.items self.new.items (length self.old.items) k }
    {
        prove!(k <= self.len());
        self.as_mut_slice().rotate_right(k);
    }

    /// Replaces each item by a clone of `value`, and the last one by `value` itself.
    pub fn fill(&mut self, value: T)
    where
        T: Clone,
        requires infallible { T.is_infallible value }
        ensures clones_before_last { AllWithin (T.is_clone value) self.new.items 0
            (length self.old.items - 1) }
        ensures last { 0 < length self.old.items
            → HoldsAt (λ y. y ≡ value) self.new.items (length self.old.items - 1) }
        ensures items_if_clones_equal { ((clone : T) → T.is_clone value clone → clone ≡ value)
            → self.new.items ≡ replicate (length self.old.items) value }
        ensures len { length self.new.items ≡ length self.old.items }
        ensures capacity { self.new.capacity ≡ self.old.capacity }
        ensures changes { self.new ≡ record self.old { items = self.new.items } }
        ensures bounds_before { IsBounded T.row self.old }
    {
        self.as_mut_slice().fill(value);
    }

    /// Replaces each item by a result of `make`, which is called once for each, in order.
    pub fn fill_with<F: FnMut() -> T>(&mut self, make: F)
    where
        T: Drop,
        requires callable { F.IsAlwaysCallable make }
        ensures ran { (last : F) × FoldsTo F.step make self.new.items last }
        ensures len { length self.new.items ≡ length self.old.items }
        ensures capacity { self.new.capacity ≡ self.old.capacity }
        ensures changes { self.new ≡ record self.old { items = self.new.items } }
        ensures bounds_before { IsBounded T.row self.old }
    {
        self.as_mut_slice().fill_with(make);
    }

    /// Replaces the items by those of `src`, which are as many.
    pub fn copy_from_slice(&mut self, src: &[T])
    where
        T: Copy,
        requires same_len { length self.old.items ≡ length src.now }
        ensures items { self.new.items ≡ src.now }
        ensures len { length self.new.items ≡ length self.old.items }
        ensures capacity { self.new.capacity ≡ self.old.capacity }
        ensures changes { self.new ≡ record self.old { items = self.new.items } }
        ensures bounds_before { IsBounded T.row self.old }
    {
        prove!(self.len() == src.len());
        self.as_mut_slice().copy_from_slice(src);
    }

    /// Copies the items in the range `src` to the places from index `dest` onward. The two ranges
    /// may overlap. A range is any of std's, as for the method of slices.
    pub fn copy_within<R: RangeBounds<usize>>(&mut self, src: R, dest: usize)
    where
        T: Copy,
        requires start_le_end { start_index (R.start_bound src)
            ≤ end_index (R.end_bound src) (length self.old.items) }
        requires in_bounds { end_index (R.end_bound src) (length self.old.items)
            ≤ length self.old.items }
        requires dest_in_bounds { dest + (end_index (R.end_bound src) (length self.old.items)
            - start_index (R.start_bound src)) ≤ length self.old.items }
        requires has_bounds { R.has_bounds src }
        ensures items { self.new.items ≡ copy_within self.old.items
            (start_index (R.start_bound src))
            (end_index (R.end_bound src) (length self.old.items)) dest }
        ensures len { length self.new.items ≡ length self.old.items }
        ensures capacity { self.new.capacity ≡ self.old.capacity }
        ensures changes { self.new ≡ record self.old { items = self.new.items } }
        ensures bounds_before { IsBounded T.row self.old }
    {
        let len = self.len();
        let range = slice::range(src, ..len);
        prove!(range.start <= range.end);
        prove!(range.end <= len);
        prove!(dest <= len - (range.end - range.start));
        self.as_mut_slice().copy_within(range, dest);
    }

    /// Returns the items in the range `start..end` as a mutable slice.
    pub fn slice_mut(&mut self, start: usize, end: usize) -> &mut [T]
        requires start_le_end { start ≤ end }
        requires in_bounds { end ≤ length self.old.items }
        ensures* writes_back { sem 𝓛
            (LendsItemsFrom T.row A.row G.row A.Allocator G.Growth self.entry start result) }
        ensures value { result.now ≡ slice_range self.old.items start end }
        ensures len { length result.now ≡ end - start }
        ensures bounds_before { IsBounded T.row self.old }
    {
        let len = self.len();
        prove!(start <= end);
        prove!(end <= len);
        self.block.slice_mut(start, end)
    }

    /// Returns a mutable reference to the first item, or `None` if the list is empty.
    pub fn first_mut(&mut self) -> Option<&mut T>
        ensures* writes_back { sem 𝓛
            (LendsGet T.row A.row G.row A.Allocator G.Growth self.entry 0 result) }
        ensures variant { IsSome result ↔ (0 < length self.old.items) }
        ensures value { IfSome result (λ x. x.now ≡ slice_index_or self.old.items 0 x.now) }
    {
        self.get_mut(0)
    }

    /// Returns a mutable reference to the last item, or `None` if the list is empty.
    pub fn last_mut(&mut self) -> Option<&mut T>
        ensures* writes_back { sem 𝓛
            (LendsGet T.row A.row G.row A.Allocator G.Growth self.entry
            (length self.old.items - 1) result) }
        ensures variant { IsSome result ↔ (0 < length self.old.items) }
        ensures value { IfSome result
            (λ x. x.now ≡ slice_index_or self.old.items (length self.old.items - 1) x.now) }
    {
        let len = self.len();
        if len == 0 {
            return None;
        }
        Some(&mut self[len - 1])
    }

    // Lends the items, and the allocator beside them.
    fn parts_mut(&mut self) -> (&mut [T], &A)
        ensures* writes_back { sem 𝓛
            (LendsItems T.row A.row G.row A.Allocator G.Growth self.entry result.0) }
        ensures value { result.0.now ≡ self.old.items }
        ensures len { length result.0.now ≡ length self.old.items }
        ensures alloc { result.1.now ≡ self.old.alloc }
        ensures bounds_before { IsBounded T.row self.old }
    {
        let len = self.block.len();
        (self.block.slice_mut(0, len), &self.alloc)
    }
}
