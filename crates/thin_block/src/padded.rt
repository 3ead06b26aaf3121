//! Functions that resize padded blocks. In a padded block, the header and the unused memory before
//! it take as many bytes as an item. So the allocator's methods `grow` and `shrink`, which resize
//! only arrays, can resize the block as an array of items. The address of the allocation is stored
//! directly after the slots, since a pointer can be moved up but not down. A block that just fits
//! into a power of two of bytes is never padded.
ghost use Rattle.std.specs.Prelude.{◌≡◌, ◌+◌, ◌<◌, ◌≤◌, OnErr, OnOk, length, true};
ghost use Rattle.std.specs.declared.option.Option.TheVariants.{Some};
ghost use Rattle.std.specs.Mem.{type_size};
ghost use Rattle.std.specs.Align.{type_align};
ghost use Rattle.thin_block.specs.Capacity.{Fits, has_padding};
ghost use Rattle.thin_block.specs.Cost.{add_realloc};
ghost use Rattle.thin_block.specs.Slots.{IsPacked, empty_slots, write_slots, slot_range};

use crate::block::Block;
use crate::in_place::resize_array;
use crate::sizes::HEADER_WORDS;
use std::alloc::{AllocError, Allocator};

impl<T, A: Allocator> Block<T, A> {
    ghost use Rattle.thin_block.specs.Block.{block_view};

    // Changes the number of slots of the padded block from `old` to `cap`, and may leave it at its
    // address. The function resizes the memory of the block as an array from `current` to `wanted`
    // items. The padding, which takes `front` bytes, and the header are the gap. If the allocator
    // fails, the block is unchanged.
    //
    // This function is cold for the same reason as `resize_in_place`.
    #[cold]
    pub(crate) fn resize_padded(
        &mut self,
        alloc: &A,
        len: usize,
        old: usize,
        cap: usize,
        current: usize,
        wanted: usize,
        front: usize,
    ) -> Result<(), AllocError>
        requires same_allocator { self.old.alloc ≡ Some alloc.now }
        requires padded { has_padding (type_size T.row) (type_align T.row) old ≡ true }
        requires padded_new { has_padding (type_size T.row) (type_align T.row) cap ≡ true }
        requires packed { IsPacked self.old.slots self.old.len }
        requires len { len ≡ self.old.len }
        requires capacity { old ≡ length self.old.slots }
        requires len_le_cap { len ≤ cap }
        requires fits { Fits T.row cap }
        requires nonempty { 0 < len }
        requires current { current ≡ old + 2 }
        requires wanted { wanted ≡ cap + 2 }
        requires front { front + 16 ≡ type_size T.row }

        // On success.
        ensures ok { OnOk result (block_view self.new ≡ record (block_view self.old) {
          slots = write_slots 0 (slot_range 0 self.old.len self.old.slots) (empty_slots cap);
          alloc = Some alloc.now;
          cost = add_realloc self.old.len self.old.cost;
        }) }

        // On failure.
        ensures err { OnErr result (self.new ≡ self.old) }
    {
        let at = self.at;
        unsafe {
            let end = (at.add(HEADER_WORDS) as *mut T).add(old) as *mut *mut T;
            let start = *end;
            match resize_array::<T, A, 1>(alloc, start, len, current, wanted) {
                Ok(start) => {
                    let at = (start as *mut u8).add(front) as *mut usize;
                    *at = cap;
                    *at.add(1) = len;
                    let end = (at.add(HEADER_WORDS) as *mut T).add(cap) as *mut *mut T;
                    *end = start;
                    self.at = at;
                    Ok(())
                }
                Err(refused) => {
                    *at = old;
                    *at.add(1) = len;
                    *end = start;
                    Err(refused)
                }
            }
        }
    }
}
