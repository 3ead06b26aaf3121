//! The methods that append one item.
ghost use Rattle.std.specs.Prelude.{◌≡◌, ◌⊎◌, ◌+◌, ◌*◌, ◌≤◌, [], ◌∷◌, ◌++◌, IfErr, IfOk, IsErr, IsOk, None, Some, if◌then◌else◌, is_ok, OnErr, OnOk, length};
ghost use Rattle.thin_block.specs.Cost.{add_moves};
ghost use Rattle.thin_vec.specs.List.Capacity.{CostsMoves, FailsForRoom, PreservesList};
ghost use Rattle.thin_vec.specs.List.InsertRemove.{LendsAdded};
ghost use types.Logic.{sem};

use crate::errors::Rejected;
use crate::list::ThinVec;
use std::alloc::Allocator;
use thin_block::Growth;

impl<T, A: Allocator, G: Growth> ThinVec<T, A, G> {
    ghost use Rattle.thin_vec.specs.ThinVec.{HasRoomFor, IsBounded, capacity_after_reserve};

    /// Appends `value`. If the list is full and cannot grow, the call fails, changes nothing, and
    /// returns `value` in the error.
    ///
    /// A full list at least doubles its capacity, so on average, a push copies a constant number of
    /// old items. The clause `preserved` says so: a list stays cheap (`IsCheap`), which bounds the
    /// items that its growths have copied, and the requests that they have made, by its capacity.
    ///
    /// # Errors
    ///
    /// Fails only if the list is full: with `CapacityOverflow` if the growth rule chooses no
    /// capacity, and otherwise with `OutOfMemory`. The error returns `value` to the caller.
    // With `always`, LLVM inlines this function before it simplifies the caller, and makes shorter
    // loops.
    #[inline(always)]
    pub fn push(&mut self, value: T) -> Result<(), Rejected<T>>
        // The items, whether the call succeeds or fails.
        ensures items { self.new.items
            ≡ (if is_ok result then self.old.items ++ value ∷ [] else self.old.items) }

        // On success. The capacity stays if there was room. Otherwise, the growth rule chooses it.
        ensures capacity { OnOk result
            (capacity_after_reserve G.rule T.row self.old 1 ≡ Some self.new.capacity) }
        ensures doubles { OnOk result
            (HasRoomFor self.old 1 ⊎ (2 * self.old.capacity ≤ self.new.capacity)) }
        ensures cost { OnOk result (CostsMoves 1 self.old self.new) }

        // When it must succeed. In every other case it may fail.
        ensures succeeds { HasRoomFor self.old 1 → IsOk result }

        // On failure, which happens only without room: nothing changes, and `value` comes back.
        ensures err { OnErr result (self.new ≡ self.old) }
        ensures value_returned { IfErr result (λ error. error.value ≡ value) }
        ensures cause { IfErr result (λ error. FailsForRoom G.rule T.row self.old 1 error.cause) }

        // In every case.
        ensures preserved { PreservesList T.row self.old self.new }

        // These follow from `items`, `capacity` and `err`.
        ensures len { length self.new.items
            ≡ (if is_ok result then length self.old.items + 1 else length self.old.items) }
        ensures lower_bound { length self.old.items ≤ length self.new.items }
        ensures upper_bound { length self.new.items ≤ length self.old.items + 1 }
        ensures had_room { HasRoomFor self.old 1 → self.new.capacity ≡ self.old.capacity }
    {
        let len = self.len();
        if let Err(cause) = self.reserve(1) {
            return Err(Rejected { value, cause });
        }
        self.push_at(len, value);
        Ok(())
    }

    /// Appends `value` to a list that has room for it, for example after `reserve(1)`.
    pub fn push_reserved(&mut self, value: T)
        requires room { HasRoomFor self.old 1 }
        ensures items { self.new.items ≡ self.old.items ++ value ∷ [] }
        ensures capacity { self.new.capacity ≡ self.old.capacity }
        ensures cost { self.new.cost ≡ add_moves 1 self.old.cost }
        ensures preserved { PreservesList T.row self.old self.new }

        // This follows from `items`.
        ensures len { length self.new.items ≡ length self.old.items + 1 }
    {
        let len = self.len();
        prove!(len < self.capacity());
        self.push_at(len, value);
    }

    // Appends `value` to a list of `len` items that has room for it. The argument `len` spares
    // `push` a second load of the length.
    fn push_at(&mut self, len: usize, value: T)
        requires len { len ≡ length self.old.items }
        requires room { HasRoomFor self.old 1 }
        requires bounds { IsBounded T.row self.old }
        ensures items { self.new.items ≡ self.old.items ++ value ∷ [] }
        ensures len { length self.new.items ≡ length self.old.items + 1 }
        ensures cost { self.new.cost ≡ add_moves 1 self.old.cost }
        ensures capacity { self.new.capacity ≡ self.old.capacity }
        ensures preserved { PreservesList T.row self.old self.new }
    {
        self.block.put_and_set_len(len, value, len + 1);
    }

    /// Appends `value`, and returns a mutable reference to the new item, or fails if the list is
    /// full and cannot grow.
    ///
    /// # Errors
    ///
    /// Fails as `push` does.
    pub fn push_mut(&mut self, value: T) -> Result<&mut T, Rejected<T>>
        // On success, the list when the borrow ends. On failure, the list is unchanged.
        ensures* writes_back { sem 𝓛
            (LendsAdded T.row A.row G.row A.Allocator G.Growth self.entry
            (λ x. self.old.items ++ x ∷ []) 1 result) }
        ensures value { IfOk result (λ item. item.now ≡ value) }

        // When it must succeed, and when it must fail. In every other case it may fail.
        ensures succeeds { HasRoomFor self.old 1 → IsOk result }
        ensures overflow { capacity_after_reserve G.rule T.row self.old 1 ≡ None → IsErr result }

        // On failure.
        ensures value_returned { IfErr result (λ error. error.value ≡ value) }
        ensures cause { IfErr result (λ error. FailsForRoom G.rule T.row self.old 1 error.cause) }

        // In every case.
        ensures bounds_before { IsBounded T.row self.old }
    {
        let len = self.len();
        self.push(value)?;
        Ok(&mut self[len])
    }
}
