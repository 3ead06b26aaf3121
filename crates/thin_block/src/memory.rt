//! Methods that allocate, grow, shrink and free whole blocks.
ghost use Rattle.std.specs.Prelude.{◌≡◌, ◌-◌, ◌++◌, ◌<◌, ◌≤◌, [], take, IfErr, IfOk, OnErr, OnOk, length};
ghost use Rattle.std.specs.declared.option.Option.TheVariants.{Some};
ghost use Rattle.std.specs.Mem.{type_size};
ghost use Rattle.std.specs.Align.{type_align};
ghost use Rattle.thin_block.specs.Capacity.{Fits, block_align, front_bytes, memory_bytes};
ghost use Rattle.thin_block.specs.Cost.{add_realloc, no_cost};
ghost use Rattle.thin_block.specs.Slots.{IsPacked, empty_slots};

use crate::block::Block;
use crate::errors::ThinVecError;
use crate::in_place::LONG;
use crate::sizes::{
    HEADER_WORDS, Layout, block_align, block_bytes, has_padding, item_size, layout_of,
    may_have_padding,
};
use std::alloc::{AllocError, Allocator};
use std::marker::PhantomData;
use std::mem::{ManuallyDrop, replace};

impl<T, A: Allocator> Block<T, A> {
    ghost use Rattle.thin_block.specs.Block.{IsAllocatedBy, Reallocates, block_view};

    /// Allocates a block of `cap` empty slots with one request for memory.
    ///
    /// # Errors
    ///
    /// Fails with `OutOfMemory` if the allocator fails.
    pub fn allocate(alloc: &A, cap: usize) -> Result<Block<T, A>, ThinVecError>
        requires nonzero { 0 < cap }
        requires fits { Fits T.row cap }

        // On success.
        ensures ok { IfOk result (λ block. block_view block ≡ record {
          slots = empty_slots cap;
          len = 0;
          alloc = Some alloc.now;
          cost = add_realloc 0 no_cost;
        }) }

        // On failure.
        ensures cause { IfErr result (λ cause. cause ≡ ThinVecError.OutOfMemory) }
    {
        Block::allocate_as(alloc, cap, layout_of::<T>(cap))
    }

    // Does the same as `allocate`. `layout` is the layout of a block of `cap` slots.
    fn allocate_as(alloc: &A, cap: usize, layout: Layout) -> Result<Block<T, A>, ThinVecError>
        requires nonzero { 0 < cap }
        requires fits { Fits T.row cap }
        requires bytes { layout.bytes ≡ memory_bytes (type_size T.row) (type_align T.row) cap }
        requires front { layout.front ≡ front_bytes (type_size T.row) (type_align T.row) cap }
        ensures ok { IfOk result (λ block. block_view block ≡ record {
          slots = empty_slots cap;
          len = 0;
          alloc = Some alloc.now;
          cost = add_realloc 0 no_cost;
        }) }
        ensures cause { IfErr result (λ cause. cause ≡ ThinVecError.OutOfMemory) }
    {
        let Layout { bytes, front, .. } = layout;
        let align = block_align::<T>();
        Ok(Block::allocate_sized(alloc, cap, bytes, align, front)?)
    }

    /// Grows the block to `cap` slots with one request for memory.
    ///
    /// # Errors
    ///
    /// Fails with `OutOfMemory` if the allocator fails.
    #[inline(always)]
    pub fn grow(&mut self, alloc: &A, cap: usize) -> Result<(), ThinVecError>
        requires same_allocator { IsAllocatedBy self.old.alloc alloc.now }
        requires cap_grows { length self.old.slots < cap }
        requires fits { Fits T.row cap }
        requires packed { IsPacked self.old.slots self.old.len }

        // On success.
        ensures ok { OnOk result (block_view self.new ≡ record (block_view self.old) {
          slots = self.old.slots ++ empty_slots (cap - length self.old.slots);
          alloc = Some alloc.now;
          cost = add_realloc self.old.len self.old.cost;
        }) }

        // On failure.
        ensures err { OnErr result (self.new ≡ self.old) }
        ensures cause { IfErr result (λ cause. cause ≡ ThinVecError.OutOfMemory) }
    {
        if self.cap() == 0 {
            let mut other = Block::allocate(alloc, cap)?;
            self.move_items_to(0, &mut other, 0, 0);
            self.replace_unallocated(other);
            return Ok(());
        }
        self.resize(alloc, self.len(), cap)
    }

    /// Shrinks the block to its first `cap` slots with one request for memory.
    ///
    /// # Errors
    ///
    /// Fails with `OutOfMemory` if the allocator fails.
    pub fn shrink(&mut self, alloc: &A, cap: usize) -> Result<(), ThinVecError>
        requires same_allocator { IsAllocatedBy self.old.alloc alloc.now }
        requires nonzero { 0 < cap }
        requires cap_shrinks { cap < length self.old.slots }
        requires packed { IsPacked self.old.slots self.old.len }
        requires len_le_cap { self.old.len ≤ cap }

        // On success.
        ensures ok { OnOk result (block_view self.new ≡ record (block_view self.old) {
          slots = take cap self.old.slots;
          alloc = Some alloc.now;
          cost = add_realloc self.old.len self.old.cost;
        }) }

        // On failure.
        ensures err { OnErr result (self.new ≡ self.old) }
        ensures cause { IfErr result (λ cause. cause ≡ ThinVecError.OutOfMemory) }
    {
        let len = self.len();
        self.resize(alloc, len, cap)
    }

    // Changes the number of slots of the block of length `len` to `cap`. If the items form whole
    // words and take at least `LONG * 8` bytes, or if the block is padded, remains so and has an
    // item, the allocator resizes the block, possibly in place.
    #[inline(always)]
    #[tactic(auto, unfolding(crate::specs::Capacity::has_padding))]
    fn resize(&mut self, alloc: &A, len: usize, cap: usize) -> Result<(), ThinVecError>
        requires same_allocator { IsAllocatedBy self.old.alloc alloc.now }
        requires nonempty { 0 < length self.old.slots }
        requires nonzero { 0 < cap }
        requires fits { Fits T.row cap }
        requires packed { IsPacked self.old.slots self.old.len }
        requires len_le_cap { self.old.len ≤ cap }
        requires len { len ≡ self.old.len }

        // In every case.
        ensures changes { Reallocates self.old self.new alloc.now cap result }
    {
        match item_size::<T>() {
            1 if len >= LONG * 8 && len % 8 == 0 => self.resize_in_place::<8, 2>(alloc, len, cap),
            2 if len >= LONG * 4 && len % 4 == 0 => self.resize_in_place::<4, 2>(alloc, len, cap),
            4 if len >= LONG * 2 && len % 2 == 0 => self.resize_in_place::<2, 2>(alloc, len, cap),
            8 if len >= LONG => self.resize_in_place::<1, 2>(alloc, len, cap),
            16 if len >= LONG / 2 => self.resize_in_place::<1, 1>(alloc, len, cap),
            _ => {
                let old = self.cap();
                let layout = layout_of::<T>(cap);
                if layout.front > 0 && has_padding::<T>(old) && len > 0 {
                    let Layout { items, front, .. } = layout;
                    self.resize_padded(alloc, len, old, cap, old + 2, items, front)?;
                    return Ok(());
                }
                let mut other = Block::allocate_as(alloc, cap, layout)?;
                self.move_items_to(0, &mut other, 0, len);
                other.store_len(len);
                let emptied = replace(self, other);
                let emptied_cap = emptied.cap();
                emptied.free(alloc, emptied_cap);
                Ok(())
            }
        }
    }

    /// Frees the allocation of the block, if there is one. Every slot must be empty.
    pub fn release(self, alloc: &A)
        requires same_allocator { IsAllocatedBy self.alloc alloc.now }
        requires empty { self.slots ≡ empty_slots (length self.slots) }
    {
        let cap = self.cap();
        if cap == 0 {
            self.forget_unallocated();
        } else {
            self.free(alloc, cap);
        }
    }

    // Frees the allocation of the block.
    #[tactic(auto, unfolding(crate::specs::Capacity::has_padding))]
    fn free(self, alloc: &A, cap: usize)
        requires same_allocator { IsAllocatedBy self.alloc alloc.now }
        requires nonzero { 0 < cap }
        requires capacity { cap ≡ length self.slots }
        requires empty { self.slots ≡ empty_slots (length self.slots) }
        requires fits { Fits T.row cap }
    {
        if may_have_padding::<T>(cap) {
            self.free_large(alloc, cap);
        } else {
            let bytes = block_bytes::<T>(cap);
            self.free_sized(alloc, cap, bytes, block_align::<T>(), 0);
        }
    }

    // Frees the allocation as `free` does. This function is not inlined, so that a caller of `free`
    // has no code for padded blocks.
    #[cold]
    #[inline(never)]
    fn free_large(self, alloc: &A, cap: usize)
        requires same_allocator { IsAllocatedBy self.alloc alloc.now }
        requires nonzero { 0 < cap }
        requires capacity { cap ≡ length self.slots }
        requires empty { self.slots ≡ empty_slots (length self.slots) }
        requires fits { Fits T.row cap }
    {
        let Layout { bytes, front, .. } = layout_of::<T>(cap);
        self.free_sized(alloc, cap, bytes, block_align::<T>(), front);
    }

    /// Consumes a block without slots. Unlike `release`, this function does not test whether the
    /// block has an allocation.
    pub fn forget_unallocated(self)
        requires is_empty { self.slots ≡ [] }
    {
        let _none = unsafe { ManuallyDrop::new_unchecked(self) };
    }

    /// Puts `block` in the place of this block, which has no slots.
    #[inline(always)]
    pub fn replace_unallocated(&mut self, block: Block<T, A>)
        requires is_empty { self.old.slots ≡ [] }
        ensures value { self.new ≡ block }
    {
        replace(self, block).forget_unallocated();
    }

    // Does the same as `allocate`. `front` is the number of bytes before the header: it is 0 unless
    // the block is padded. The caller computes `bytes`, `align` and `front`, so that the proof by
    // hand has no other call to follow than that of the allocator.
    fn allocate_sized(
        alloc: &A,
        cap: usize,
        bytes: usize,
        align: usize,
        front: usize,
    ) -> Result<Block<T, A>, AllocError>
        requires nonzero { 0 < cap }
        requires fits { Fits T.row cap }
        requires bytes { bytes ≡ memory_bytes (type_size T.row) (type_align T.row) cap }
        requires align { align ≡ block_align (type_align T.row) }
        requires front { front ≡ front_bytes (type_size T.row) (type_align T.row) cap }
        ensures ok { IfOk result (λ block. block_view block ≡ record {
          slots = empty_slots cap;
          len = 0;
          alloc = Some alloc.now;
          cost = add_realloc 0 no_cost;
        }) }
    {
        match alloc.allocate(bytes, align) {
            Ok(start) => unsafe {
                let at = start.add(front) as *mut usize;
                if front > 0 {
                    let end = (at.add(HEADER_WORDS) as *mut T).add(cap) as *mut *mut u8;
                    *end = start;
                }
                *at = cap;
                *at.add(1) = 0;
                Ok(Block {
                    at,
                    item: PhantomData,
                    handle: PhantomData,
                })
            },
            Err(refused) => Err(refused),
        }
    }

    // Frees the allocation of the block. `bytes`, `align` and `front` are arguments for the reason
    // that `allocate_sized` gives.
    fn free_sized(self, alloc: &A, cap: usize, bytes: usize, align: usize, front: usize)
        requires same_allocator { self.alloc ≡ Some alloc.now }
        requires capacity { cap ≡ length self.slots }
        requires empty { self.slots ≡ empty_slots (length self.slots) }
        requires bytes { bytes ≡ memory_bytes (type_size T.row) (type_align T.row) cap }
        requires align { align ≡ block_align (type_align T.row) }
        requires front { front ≡ front_bytes (type_size T.row) (type_align T.row) cap }
    {
        let Block {
            at,
            item: _,
            handle: _,
        } = self;
        unsafe {
            let start = if front > 0 {
                *((at.add(HEADER_WORDS) as *mut T).add(cap) as *mut *mut u8)
            } else {
                at as *mut u8
            };
            alloc.deallocate(start, bytes, align)
        }
    }
}
