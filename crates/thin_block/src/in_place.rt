//! Functions that resize a block with the allocator's methods `grow` and `shrink`, which may leave
//! the block at its address.
ghost use Rattle.std.specs.Prelude.{◌≡◌, ◌+◌, ◌*◌, ◌/◌, ◌<◌, ◌≤◌, OnErr, OnOk, List, length};
ghost use Rattle.std.specs.declared.option.Option.TheVariants.{Some};
ghost use Rattle.std.specs.Int.{div_ceil};
ghost use Rattle.std.specs.Mem.{type_size};
ghost use types.Logic.{sem};
ghost use Rattle.thin_block.specs.Capacity.{Fits, in_words};
ghost use Rattle.thin_block.specs.Cost.{add_realloc};
ghost use Rattle.thin_block.specs.InPlace.{FitsGap, gapped_items, gapped_if_ok};
ghost use Rattle.thin_block.specs.Slots.{IsPacked, empty_slots, write_slots, slot_range};

use crate::block::Block;
use crate::errors::ThinVecError;
use crate::sizes::HEADER_WORDS;
use crate::words::{Word, make_words};
use std::alloc::{AllocError, Allocator};

// The least total size, in units of 8 bytes, of items that are resized as words. For fewer, it is
// cheaper to allocate a new block.
pub(crate) const LONG: usize = 32;

// Resizes an allocation from `current` to `wanted` values of the type `T`. A gap, which is unused
// memory for `K` values, precedes its `len` values. While the allocator runs, the last values are
// stored in the gap, so that the allocation begins with an array. If the allocator fails, only the
// gap has changed.
#[inline(always)]
pub(crate) unsafe fn resize_array<T, A: Allocator, const K: usize>(
    alloc: &A,
    start: *mut T,
    len: usize,
    current: usize,
    wanted: usize,
) -> Result<*mut T, AllocError>
    ghost items: { List T }
    requires fits { FitsGap T.row K len current wanted items }
    requires* memory { sem 𝓛 (gapped_items (A.dealloc_token alloc.now) T.row start K len current
        items) }
    ensures* memory { sem 𝓛 (gapped_if_ok (A.dealloc_token alloc.now) T.row start K len current
        wanted items result) }
{
    unsafe {
        let first = start as *mut [T; K];
        let last = start.add(len) as *mut [T; K];
        first.write(last.read());
        let resized = if current < wanted {
            alloc.grow(start, len, current, wanted)
        } else {
            alloc.shrink(start, len, current, wanted)
        };
        match resized {
            Ok(start) => {
                (start.add(len) as *mut [T; K]).write((start as *mut [T; K]).read());
                Ok(start)
            }
            Err(refused) => {
                last.write(first.read());
                Err(refused)
            }
        }
    }
}

impl<T, A: Allocator> Block<T, A> {
    ghost use Rattle.thin_block.specs.Block.{IsAllocatedBy, Reallocates, block_view};

    // Resizes the block of length `len` to `cap` slots, and may leave it at its address. `M` items
    // form a word, and the header is as large as `K` words.
    //
    // `#[cold]` keeps this function out of the callers of `grow`, into which `resize` is inlined.
    #[cold]
    pub(crate) fn resize_in_place<const M: usize, const K: usize>(
        &mut self,
        alloc: &A,
        len: usize,
        cap: usize,
    ) -> Result<(), ThinVecError>
        requires same_allocator { IsAllocatedBy self.old.alloc alloc.now }
        requires in_words { in_words (type_size T.row) ≡ Some (M, K) }
        requires nonzero { (0 < M) × (K ≤ 2) }
        requires fits { Fits T.row cap }
        requires packed { IsPacked self.old.slots self.old.len }
        requires len_le_cap { self.old.len ≤ cap }
        requires len { len ≡ self.old.len }
        requires count { len / M * M ≡ len }
        requires room { K ≤ len / M }

        // In every case.
        ensures changes { Reallocates self.old self.new alloc.now cap result }
    {
        let old = self.cap();
        let current = K + old.div_ceil(M);
        let wanted = K + cap.div_ceil(M);
        Ok(self.resize_words::<M, K>(alloc, len, old, cap, len / M, current, wanted)?)
    }

    // Changes the number of slots of the block from `old` to `cap`. The function converts the items
    // into `count` words, and resizes the memory of the block from `current` to `wanted` words. The
    // header is the gap. If the allocator fails, the block is unchanged.
    //
    // The caller computes all numbers, so that the proof by hand follows a short body.
    fn resize_words<const M: usize, const K: usize>(
        &mut self,
        alloc: &A,
        len: usize,
        old: usize,
        cap: usize,
        count: usize,
        current: usize,
        wanted: usize,
    ) -> Result<(), AllocError>
        requires same_allocator { self.old.alloc ≡ Some alloc.now }
        requires in_words { in_words (type_size T.row) ≡ Some (M, K) }
        requires packed { IsPacked self.old.slots self.old.len }
        requires len { len ≡ self.old.len }
        requires capacity { old ≡ length self.old.slots }
        requires len_le_cap { len ≤ cap }
        requires fits { Fits T.row cap }
        requires count { count * M ≡ len }
        requires current { current ≡ K + div_ceil old M }
        requires wanted { wanted ≡ K + div_ceil cap M }
        requires room { K ≤ count }

        // On success.
        ensures ok { OnOk result (block_view self.new ≡ record (block_view self.old) {
          slots = write_slots 0 (slot_range 0 self.old.len self.old.slots) (empty_slots cap);
          alloc = Some alloc.now;
          cost = add_realloc self.old.len self.old.cost;
        }) }

        // On failure.
        ensures err { OnErr result (self.new ≡ self.old) }
    {
        let at = self.at;
        unsafe {
            make_words(at.add(HEADER_WORDS) as *mut [T; M], count);
            let words = at as *mut Word<T, M>;
            match resize_array::<Word<T, M>, A, K>(alloc, words, count, current, wanted) {
                Ok(start) => {
                    let at = start as *mut usize;
                    *at = cap;
                    *at.add(1) = len;
                    self.at = at;
                    Ok(())
                }
                Err(refused) => {
                    *at = old;
                    *at.add(1) = len;
                    Err(refused)
                }
            }
        }
    }
}
