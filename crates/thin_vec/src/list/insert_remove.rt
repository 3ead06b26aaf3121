//! The methods that insert or remove single items, and `truncate` and `clear`.
ghost use Rattle.std.specs.Prelude.{◌≡◌, ◌⊎◌, ◌+◌, ◌-◌, ◌*◌, ◌<◌, ◌≤◌, ◌==◌, ◌↔◌, [], IfErr, IfNone, IfOk, IfSome, IsErr, IsOk, IsSome, None, is_ok, OnErr, OnOk, OnSome, Some, if◌then◌else◌, insert, length, remove, slice_get, slice_index_or, take};
ghost use Rattle.std.specs.List.{swap_remove};
ghost use Rattle.std.specs.List.Retain.{PopsIf};
ghost use types.Logic.{sem};
ghost use Rattle.thin_block.specs.Cost.{add_moves};
ghost use Rattle.thin_vec.specs.List.InsertRemove.{LendsAdded};
ghost use Rattle.thin_vec.specs.List.Capacity.{CostsMoves, FailsForRoom, PreservesList};

use crate::errors::Rejected;
use crate::list::ThinVec;
use std::alloc::Allocator;
use thin_block::Growth;

impl<T, A: Allocator, G: Growth> ThinVec<T, A, G> {
    ghost use Rattle.thin_vec.specs.ThinVec.{HasRoomFor, IsBounded, capacity_after_reserve};

    /// Inserts `value` at `index`, or fails and returns it in the error if the list is full and
    /// cannot grow. Each item from `index` onward is moved to the next higher index.
    ///
    /// # Errors
    ///
    /// Fails as `push` does.
    pub fn insert(&mut self, index: usize, value: T) -> Result<(), Rejected<T>>
        requires in_bounds { index ≤ length self.old.items }

        // The items, whether the call succeeds or fails.
        ensures items { self.new.items
            ≡ (if is_ok result then insert self.old.items index value else self.old.items) }

        // On success. The capacity stays if there was room. Otherwise, the growth rule chooses it.
        ensures capacity { OnOk result
            (capacity_after_reserve G.rule T.row self.old 1 ≡ Some self.new.capacity) }
        ensures doubles { OnOk result
            (HasRoomFor self.old 1 ⊎ (2 * self.old.capacity ≤ self.new.capacity)) }
        ensures cost { OnOk result
            (CostsMoves (length self.old.items - index + 1) self.old self.new) }

        // When it must succeed. In every other case it may fail.
        ensures succeeds { HasRoomFor self.old 1 → IsOk result }

        // On failure, which happens only without room: nothing changes, and `value` comes back.
        ensures err { OnErr result (self.new ≡ self.old) }
        ensures value_returned { IfErr result (λ error. error.value ≡ value) }
        ensures cause { IfErr result (λ error. FailsForRoom G.rule T.row self.old 1 error.cause) }

        // In every case.
        ensures preserved { PreservesList T.row self.old self.new }

        // These follow from `items`, `capacity` and `err`.
        ensures len { length self.new.items
            ≡ (if is_ok result then length self.old.items + 1 else length self.old.items) }
        ensures had_room { HasRoomFor self.old 1 → self.new.capacity ≡ self.old.capacity }
    {
        prove!(index <= self.len());
        if let Err(cause) = self.reserve(1) {
            return Err(Rejected { value, cause });
        }
        self.insert_reserved(index, value);
        Ok(())
    }

    /// Inserts `value` at `index`, like `insert`, into a list that has room for it, for example
    /// after `reserve(1)`.
    pub fn insert_reserved(&mut self, index: usize, value: T)
        requires in_bounds { index ≤ length self.old.items }
        requires room { HasRoomFor self.old 1 }
        ensures items { self.new.items ≡ insert self.old.items index value }
        ensures capacity { self.new.capacity ≡ self.old.capacity }
        ensures cost { self.new.cost ≡ add_moves (length self.old.items - index + 1) self.old.cost }
        ensures preserved { PreservesList T.row self.old self.new }
    {
        prove!(index <= self.len());
        prove!(self.len() < self.capacity());
        let len = self.block.len();
        self.block.move_run(index, index + 1, len - index);
        self.block.put_and_set_len(index, value, len + 1);
    }

    /// Inserts `value` at `index`, like `insert`, and returns a mutable reference to the new item,
    /// or fails if the list is full and cannot grow.
    ///
    /// # Errors
    ///
    /// Fails as `insert` does.
    pub fn insert_mut(&mut self, index: usize, value: T) -> Result<&mut T, Rejected<T>>
        requires in_bounds { index ≤ length self.old.items }

        // On success, the list when the borrow ends. On failure, the list is unchanged.
        ensures* writes_back { sem 𝓛
            (LendsAdded T.row A.row G.row A.Allocator G.Growth self.entry
            (insert self.old.items index) (length self.old.items - index + 1) result) }
        ensures value { IfOk result (λ item. item.now ≡ value) }

        // When it must succeed, and when it must fail. In every other case it may fail.
        ensures succeeds { HasRoomFor self.old 1 → IsOk result }
        ensures overflow { capacity_after_reserve G.rule T.row self.old 1 ≡ None → IsErr result }

        // On failure.
        ensures value_returned { IfErr result (λ error. error.value ≡ value) }
        ensures cause { IfErr result (λ error. FailsForRoom G.rule T.row self.old 1 error.cause) }

        // In every case.
        ensures bounds_before { IsBounded T.row self.old }
    {
        self.insert(index, value)?;
        Ok(&mut self[index])
    }

    /// Removes the item at `index` and returns it. Each item at a higher index is moved to the next
    /// lower index.
    pub fn remove(&mut self, index: usize) -> T
        requires in_bounds { index < length self.old.items }
        ensures found { slice_get self.old.items index ≡ Some result }
        ensures items { self.new.items ≡ remove self.old.items index }
        ensures capacity { self.new.capacity ≡ self.old.capacity }
        ensures cost { self.new.cost ≡ add_moves
            (length self.old.items - (index + 1)) self.old.cost }
        ensures preserved { PreservesList T.row self.old self.new }

        // This follows from `found`.
        ensures value { result ≡ slice_index_or self.old.items index result }
    {
        prove!(index < self.len());
        let len = self.block.len();
        let value = self.block.take(index);
        self.block.move_down(index, 1, len - (index + 1));
        self.block.store_len(len - 1);
        value
    }

    /// Removes the item at `index` and returns it. The last item takes its place. So the call takes
    /// constant time, but changes the order of the items.
    pub fn swap_remove(&mut self, index: usize) -> T
        requires in_bounds { index < length self.old.items }
        ensures found { slice_get self.old.items index ≡ Some result }
        ensures items { self.new.items ≡ swap_remove self.old.items index result }
        ensures capacity { self.new.capacity ≡ self.old.capacity }
        ensures cost { self.new.cost ≡ add_moves
            (if index + 1 == length self.old.items then 0 else 1)
            self.old.cost }
        ensures preserved { PreservesList T.row self.old self.new }

        // This follows from `found`.
        ensures value { result ≡ slice_index_or self.old.items index result }
    {
        prove!(index < self.len());
        let last = self.block.len() - 1;
        let value = self.block.swap_take(index, last);
        self.block.store_len(last);
        value
    }

    /// Removes the item at `index` and returns it, like `remove`, or returns `None` if there is no
    /// such item.
    pub fn try_remove(&mut self, index: usize) -> Option<T>
        // The item at `index`, if there is one.
        ensures found { slice_get self.old.items index ≡ result }

        // If an item is removed.
        ensures items { OnSome result (self.new.items ≡ remove self.old.items index) }
        ensures cost { OnSome result (self.new.cost ≡ add_moves
            (length self.old.items - (index + 1)) self.old.cost) }

        // If there is none: nothing changes.
        ensures unchanged { IfNone result (self.new ≡ self.old) }

        // In every case.
        ensures capacity { self.new.capacity ≡ self.old.capacity }
        ensures preserved { PreservesList T.row self.old self.new }

        // This follows from `found`.
        ensures variant { IsSome result ↔ (index < length self.old.items) }
    {
        if index < self.len() {
            Some(self.remove(index))
        } else {
            None
        }
    }

    /// Removes the item at `index` and returns it, like `swap_remove`, or returns `None` if there
    /// is no such item.
    pub fn try_swap_remove(&mut self, index: usize) -> Option<T>
        // The item at `index`, if there is one.
        ensures found { slice_get self.old.items index ≡ result }

        // If an item is removed.
        ensures items { IfSome result
            (λ item. self.new.items ≡ swap_remove self.old.items index item) }
        ensures cost { OnSome result (self.new.cost ≡ add_moves
            (if index + 1 == length self.old.items then 0 else 1) self.old.cost) }

        // If there is none: nothing changes.
        ensures unchanged { IfNone result (self.new ≡ self.old) }

        // In every case.
        ensures capacity { self.new.capacity ≡ self.old.capacity }
        ensures preserved { PreservesList T.row self.old self.new }

        // This follows from `found`.
        ensures variant { IsSome result ↔ (index < length self.old.items) }
    {
        if index < self.len() {
            Some(self.swap_remove(index))
        } else {
            None
        }
    }

    /// Removes the last item and returns it if `predicate` returns true for it. Otherwise, the item
    /// stays in the list, with any change that `predicate` made to it. If the list is empty,
    /// `predicate` is not called.
    pub fn pop_if<P: FnOnce(&mut T) -> bool>(&mut self, predicate: P) -> Option<T>
        requires callable { P.IsAlwaysCallable predicate }
        ensures value { PopsIf P.FnOnce self.old.items self.new.items predicate result }
        ensures changes { self.new ≡ record self.old { items = self.new.items } }
        ensures bounds { IsBounded T.row self.old × IsBounded T.row self.new }
    {
        let len = self.len();
        if len == 0 {
            return None;
        }
        if predicate(&mut self[len - 1]) {
            return Some(self.pop_last());
        }
        None
    }
}

impl<T: Drop, A: Allocator, G: Growth> ThinVec<T, A, G> {
    ghost use Rattle.thin_vec.specs.ThinVec.{IsBounded};

    /// Drops the items from index `len` onward, if there are any.
    pub fn truncate(&mut self, len: usize)
        ensures items { self.new.items ≡ take len self.old.items }
        ensures changes { self.new ≡ record self.old { items = self.new.items } }
        ensures bounds { IsBounded T.row self.old × IsBounded T.row self.new }
    {
        let old = self.block.len();
        if len >= old {
            return;
        }
        self.block.store_len(len);
        for i in len..old {
            drop(self.block.take(i));
        }
    }

    /// Drops all items.
    pub fn clear(&mut self)
        ensures items { self.new.items ≡ [] }
        ensures changes { self.new ≡ record self.old { items = self.new.items } }
        ensures bounds { IsBounded T.row self.old × IsBounded T.row self.new }

        // This follows from `items`.
        ensures len { length self.new.items ≡ 0 }
    {
        self.truncate(0);
    }
}
