//! The methods `shrink_to` and `shrink_to_fit`, which reduce the capacity of a list.
ghost use Rattle.std.specs.Prelude.{◌≡◌, ◌≤◌, IfErr, IsOk, OnErr, OnOk, length, max, min};

use crate::list::ThinVec;
use std::alloc::Allocator;
use std::mem;
use thin_block::{Block, Growth, ThinVecError};

impl<T, A: Allocator, G: Growth> ThinVec<T, A, G> {
    ghost use Rattle.thin_vec.specs.ThinVec.{IsBounded, cost_shrunk, cost_after_shrink};

    /// Shrinks the capacity to `min_capacity`, or to the length if the length is greater, or fails
    /// and changes nothing if the allocator refuses the smaller block. If the call would not reduce
    /// the capacity, nothing changes. At capacity 0, the block is freed.
    ///
    /// # Errors
    ///
    /// Fails with `OutOfMemory` if the allocator fails. Freeing the block cannot fail.
    pub fn shrink_to(&mut self, min_capacity: usize) -> Result<(), ThinVecError>
        // On success.
        ensures capacity { OnOk result (self.new.capacity
            ≡ min self.old.capacity (max min_capacity (length self.old.items))) }
        ensures cost { OnOk result (self.new.cost ≡ cost_after_shrink self.old self.new.capacity) }

        // When it must succeed. In every other case it may fail.
        ensures succeeds { self.old.capacity ≤ max min_capacity (length self.old.items)
            → IsOk result }
        ensures succeeds_empty { length self.old.items ≡ 0 → min_capacity ≡ 0 → IsOk result }

        // On failure.
        ensures err { OnErr result (self.new ≡ self.old) }
        ensures cause { IfErr result (λ cause. cause ≡ ThinVecError.OutOfMemory) }

        // In every case.
        ensures items { self.new.items ≡ self.old.items }
        ensures alloc { self.new.alloc ≡ self.old.alloc }
        ensures bounds { IsBounded T.row self.old × IsBounded T.row self.new }
    {
        let wanted = min_capacity.max(self.len());
        if wanted >= self.capacity() {
            return Ok(());
        }
        if wanted == 0 {
            let block = mem::replace(&mut self.block, Block::none());
            block.release(&self.alloc);
            return Ok(());
        }
        self.block.shrink(&self.alloc, wanted)?;
        Ok(())
    }

    /// Shrinks the capacity to the length, or fails and changes nothing if the allocator refuses
    /// the smaller block.
    ///
    /// # Errors
    ///
    /// Fails as `shrink_to` does.
    pub fn shrink_to_fit(&mut self) -> Result<(), ThinVecError>
        // On success.
        ensures capacity { OnOk result (self.new.capacity ≡ length self.old.items) }
        ensures cost { OnOk result (self.new.cost ≡ cost_shrunk self.old) }

        // When it must succeed. In every other case it may fail.
        ensures succeeds_empty { length self.old.items ≡ 0 → IsOk result }
        ensures succeeds { length self.old.items ≡ self.old.capacity → IsOk result }

        // On failure.
        ensures err { OnErr result (self.new ≡ self.old) }
        ensures cause { IfErr result (λ cause. cause ≡ ThinVecError.OutOfMemory) }

        // In every case.
        ensures items { self.new.items ≡ self.old.items }
        ensures alloc { self.new.alloc ≡ self.old.alloc }
        ensures bounds { IsBounded T.row self.old × IsBounded T.row self.new }
    {
        self.shrink_to(0)
    }
}
