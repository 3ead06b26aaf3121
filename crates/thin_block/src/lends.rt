//! Methods that return a reference to one item of a block, or to adjacent items.
ghost use Rattle.std.specs.Prelude.{◌≡◌, ℕ, ◌<◌, ◌≤◌, IsSome, length, slice_range};
ghost use Rattle.std.specs.declared.option.Option.TheVariants.{Some};
ghost use types.Logic.{sem};
ghost use Rattle.thin_block.specs.Slots.{filled_slots, slot};

use crate::block::Block;
use crate::sizes::HEADER_WORDS;
use std::alloc::Allocator;

impl<T, A: Allocator> Block<T, A> {
    ghost use Rattle.thin_block.specs.Lends.{LendsSlot, LendsSlots};

    /// Returns the items in the slots `start..end` as a slice. The range may be empty, even if the
    /// block has no allocation.
    pub fn slice(&self, start: usize, end: usize) -> &[T]
        requires start_le_end { start ≤ end }
        requires in_bounds { end ≤ length self.now.slots }
        requires filled { (i : ℕ) → start ≤ i → i < end → IsSome (slot self.now.slots i) }
        ensures value { filled_slots result.now ≡ slice_range self.now.slots start end }
    {
        let at = self.at;
        unsafe {
            let items = at.add(HEADER_WORDS) as *const T;
            std::slice::from_raw_parts(items.add(start), end - start)
        }
    }

    /// Returns a mutable reference to the item in slot `i`.
    pub fn slot_mut(&mut self, i: usize) -> &mut T
        requires filled { IsSome (slot self.old.slots i) }
        ensures* writes_back { sem 𝓛 (LendsSlot T.row A.row A.Allocator self.entry i result) }
        ensures value { slot self.old.slots i ≡ Some result.now }
    {
        let at = self.at;
        unsafe { &mut *(at.add(HEADER_WORDS) as *mut T).add(i) }
    }

    /// Returns the items in the slots `start..end` as a mutable slice.
    pub fn slice_mut(&mut self, start: usize, end: usize) -> &mut [T]
        requires start_le_end { start ≤ end }
        requires in_bounds { end ≤ length self.old.slots }
        requires filled { (i : ℕ) → start ≤ i → i < end → IsSome (slot self.old.slots i) }
        ensures* writes_back { sem 𝓛 (LendsSlots T.row A.row A.Allocator self.entry start result) }
        ensures value { filled_slots result.now ≡ slice_range self.old.slots start end }
    {
        let at = self.at;
        unsafe {
            let items = at.add(HEADER_WORDS) as *mut T;
            std::slice::from_raw_parts_mut(items.add(start), end - start)
        }
    }
}
