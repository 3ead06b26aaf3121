//! Defines the type `Block`, with the methods that read and write its header.
ghost use Rattle.std.specs.Prelude.{◌≡◌, ℕ, ◌^◌, ◌<◌, ◌≤◌, List, [], length, Option};
ghost use Rattle.std.specs.declared.option.Option.TheVariants.{None};
ghost use Rattle.std.specs.Coded.{coded_list, coded_option};
ghost use Rattle.thin_block.specs.Capacity.{Fits};
ghost use Rattle.thin_block.specs.Cost.{Cost, cost_code, no_cost};
ghost use Rattle.std.specs.Option.{is_some};
ghost use Rattle.thin_block.specs.Ownership.{block_owns, block_shares, is_nonempty};

use std::alloc::Allocator;
use std::marker::{Model, PhantomData, Send, Sync};

// All blocks without an allocation point to this header. No code ever writes to it.
static EMPTY_HEADER: Header = Header {
    cap: 0,
    len: 0,
    aligned: [],
};

// The empty array `aligned` takes no memory. It raises the alignment of the header to that of
// `u128`.
struct Header {
    cap: usize,
    len: usize,
    aligned: [u128; 0],
}

/// A pointer to an allocation that contains a capacity, a stored length, and slots. The capacity is
/// the number of slots. A slot is empty or contains an item. A block without an allocation has no
/// slots, and its length is 0.
///
/// A block cannot be dropped: the caller must empty every slot and then call `release`, which frees
/// the memory.
pub struct Block<T, A: Allocator> {
    // A pointer to the capacity. In memory, the capacity is followed by the length, and then by the
    // slots. In a padded block, unused memory precedes the capacity, and the address of all this
    // memory follows the slots. If the block has no allocation, this is a pointer to
    // `EMPTY_HEADER`.
    pub(crate) at: *mut usize,
    pub(crate) item: PhantomData<T>,
    pub(crate) handle: PhantomData<A>,
    pub ghost slots: { List (Option T) } by { coded_list (coded_option T.code) },
    pub ghost len: { ℕ },
    pub ghost alloc: { Option A } by { coded_option A.code },
    pub ghost cost: { Cost } by { cost_code },
    ghost sound: { (len ≤ length slots) × (is_some alloc ≡ is_nonempty slots)
        × (length slots < 2 ^ 63) },
}

impl<T, A: Allocator> Model for Block<T, A> {
    ghost also_owns = { λ b. block_owns A.dealloc_token T.row b.at b.len b.slots b.alloc };

    ghost also_shares = { λ b _ κ. block_shares T.row b.at b.len b.slots b.alloc κ };
}

// A block is `Send` if its items and its allocator are. It is the only owner of its allocation. All
// blocks without an allocation share one static header, to which no code writes.
unsafe impl<T: Send, A: Allocator + Send> Send for Block<T, A> {}

// A shared reference to a block is used only to read the header and the items. So a block is `Sync`
// if its items and its allocator are `Sync`.
unsafe impl<T: Sync, A: Allocator + Sync> Sync for Block<T, A> {}

impl<T, A: Allocator> Block<T, A> {
    ghost use Rattle.thin_block.specs.Block.{block_view};

    /// Returns a block without an allocation.
    pub fn none() -> Block<T, A>
        ensures new { block_view result ≡ record {
          slots = [];
          len = 0;
          alloc = None;
          cost = no_cost;
        } }
    {
        Block {
            at: (&raw const EMPTY_HEADER) as *mut usize,
            item: PhantomData,
            handle: PhantomData,
        }
    }

    /// Returns the stored length, in items.
    pub fn len(&self) -> usize
        ensures value { result ≡ self.now.len }
        ensures in_bounds { result ≤ length self.now.slots }
        // This clause follows from the other clauses.
        ensures fits { Fits T.row result }
        ensures bounds { Fits T.row (length self.now.slots) }
    {
        let at = self.at;
        unsafe { *at.add(1) }
    }

    /// Returns the number of slots. This number is 0 if and only if the block has no allocation.
    pub fn cap(&self) -> usize
        ensures value { result ≡ length self.now.slots }
        ensures in_bounds { self.now.len ≤ result }
        ensures fits { Fits T.row result }
    {
        let at = self.at;
        unsafe { *at }
    }

    /// Sets the stored length.
    pub fn set_len(&mut self, len: usize)
        requires in_bounds { len ≤ length self.old.slots }
        ensures changes { block_view self.new ≡ record (block_view self.old) { len = len } }
    {
        if self.cap() > 0 {
            self.store_len(len);
        }
    }

    /// Sets the stored length of a block that has an allocation. Unlike `set_len`, this function
    /// does not test whether there is one.
    pub fn store_len(&mut self, len: usize)
        requires nonempty { 0 < length self.old.slots }
        requires in_bounds { len ≤ length self.old.slots }
        ensures changes { block_view self.new ≡ record (block_view self.old) { len = len } }
    {
        let at = self.at;
        unsafe { *at.add(1) = len }
    }
}
