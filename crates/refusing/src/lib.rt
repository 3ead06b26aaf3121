//! Defines `Refusing`, an allocator for tests that wraps another allocator, `inner`. It refuses one
//! request, which the test chooses, or all, and passes the other requests on to `inner`. A request
//! is a call to `allocate` or to `request`, or a clone of the allocator. The methods `grow` and
//! `shrink` are those of the trait: each makes one request, for a new block, and then frees the old
//! one. So no block grows in place.
//!
//! Pass the allocator by reference, as `&Refusing<Global>`. Such a reference is itself an
//! allocator, and it is `Copy`.
//!
//! The method `blocks` returns the number of allocated blocks, and `bytes` the sum of their sizes.
//! So a test can detect a leak, and a block that is freed with a wrong size. The method `lent`
//! returns for how many bytes the granted requests were, so that a test can detect one that is too
//! large.
//!
//! It is proved that every block comes from `inner`, and that a freed block is returned to `inner`.
//! The counters are only tested, because contracts cannot mention the contents of a `Cell`.
#![tactic(auto)]

use std::alloc::{AllocError, Allocator, Global};
use std::cell::Cell;
use std::rc::Rc;

// The counters of an allocator `Refusing`, and the number of the request that it refuses.
// `requests` is the number of requests since the allocator was created or since the last call to
// `refuse`. `blocks` is the number of blocks that are allocated and have not been freed yet, and
// `bytes` is the sum of their sizes. `lent` is the sum of the sizes of the granted requests among
// the counted ones. `refused` is the number of the refused request, 0 if no request is refused, or
// `ALL_REQUESTS` if all are. `owned` is what the allocator owns, so that a test can see whether the
// allocator was dropped.
#[derive(Drop)]
struct Counts {
    requests: Cell<u64>,
    refused: Cell<u64>,
    blocks: Cell<u64>,
    bytes: Cell<u64>,
    lent: Cell<u64>,
    owned: Option<Rc<u64>>,
}

/// The number for which `Refusing::refuse` refuses all requests, and not one.
pub const ALL_REQUESTS: u64 = u64::MAX;

// Counts a request, and returns whether this request is refused.
fn refuses(counts: &Counts) -> bool {
    let request = counts.requests.get().saturating_add(1);
    counts.requests.set(request);
    let refused = counts.refused.get();
    request == refused || refused == ALL_REQUESTS
}

// Counts a block of `size` bytes if `answer` is `Ok`.
fn granted(counts: &Counts, size: usize, answer: Result<*mut u8, AllocError>) {
    if answer.is_ok() {
        counts.blocks.set(counts.blocks.get().saturating_add(1));
        let bytes = counts.bytes.get();
        counts.bytes.set(bytes.saturating_add(size as u64));
        let lent = counts.lent.get();
        counts.lent.set(lent.saturating_add(size as u64));
    }
}

// Counts a block of `size` bytes no more. The caller then frees it.
fn returned(counts: &Counts, size: usize) {
    counts.blocks.set(counts.blocks.get().saturating_sub(1));
    let bytes = counts.bytes.get();
    counts.bytes.set(bytes.saturating_sub(size as u64));
}

/// An allocator that refuses one request, or all, and passes the other requests on to `inner`.
pub struct Refusing<B: Allocator> {
    inner: B,
    counts: Counts,
}

impl<B: Allocator> Refusing<B> {
    /// Returns an allocator that owns `inner` and refuses request number `refused`. The first
    /// request has the number 1. If `refused` is 0, no request is refused.
    pub fn new(inner: B, refused: u64) -> Refusing<B> {
        Refusing {
            inner,
            counts: Counts {
                requests: Cell::new(0),
                refused: Cell::new(refused),
                blocks: Cell::new(0),
                bytes: Cell::new(0),
                lent: Cell::new(0),
                owned: None,
            },
        }
    }

    /// Returns an allocator that refuses no request, and owns `owned` until it is dropped.
    pub fn owning(inner: B, owned: Rc<u64>) -> Refusing<B> {
        let mut made = Refusing::new(inner, 0);
        made.counts.owned = Some(owned);
        made
    }

    /// Sets the number of requests to 0, so that the next request has the number 1, and what `lent`
    /// returns to 0. The allocator will refuse request number `refused`. If `refused` is 0, it will
    /// refuse none, and if it is `ALL_REQUESTS`, all.
    pub fn refuse(&self, refused: u64) {
        self.counts.requests.set(0);
        self.counts.lent.set(0);
        self.counts.refused.set(refused);
    }

    /// Sets the number of requests to 0. The allocator will refuse all requests until the next call
    /// to `refuse`.
    pub fn refuse_all(&self) {
        self.refuse(ALL_REQUESTS);
    }

    /// Counts a request that asks for no memory, and returns an error if this request is refused. A
    /// clone that owns no block uses it, so that a test can choose to refuse the clone.
    pub fn request(&self) -> Result<(), AllocError> {
        if refuses(&self.counts) {
            return Err(AllocError);
        }
        Ok(())
    }

    /// Returns the number of requests since the last call to `refuse`, or since the allocator was
    /// created if `refuse` has not been called. Refused requests count, too.
    pub fn requests(&self) -> u64 {
        self.counts.requests.get()
    }

    /// Returns the number of blocks that are allocated and have not been freed yet. A call to
    /// `refuse` does not change this number.
    pub fn blocks(&self) -> u64 {
        self.counts.blocks.get()
    }

    /// Returns the number of bytes of all blocks that are allocated and have not been freed yet. It
    /// is the sum of the sizes of the requests, less those with which blocks were freed.
    pub fn bytes(&self) -> u64 {
        self.counts.bytes.get()
    }

    /// Returns the number of bytes of all requests that were granted since the last call to
    /// `refuse`, whether or not their blocks have been freed.
    pub fn lent(&self) -> u64 {
        self.counts.lent.get()
    }
}

impl Refusing<Global> {
    /// Returns an allocator as `new` does. It is never freed, so that its reference is `'static`.
    pub fn leaked(inner: Global, refused: u64) -> Result<&'static Refusing<Global>, AllocError> {
        Ok(Box::leak(Box::new(inner, Refusing::new(inner, refused))?))
    }
}

impl<B: Allocator + Clone> Clone for Refusing<B> {
    // Makes an allocator that refuses nothing and owns nothing. This counts as a request.
    fn clone(&self) -> Result<Self, AllocError> {
        self.request()?;
        Ok(Refusing::new(self.inner.clone()?, 0))
    }
}

impl<B: Allocator> Drop for Refusing<B> {
    fn drop(self) {
        let Self {
            inner: _,
            counts: _,
        } = self;
    }
}

unsafe impl<B: Allocator> Allocator for Refusing<B> {
    ghost dealloc_token = { λ heap ty ptr. B.dealloc_token heap.inner ty ptr };

    fn allocate(&self, size: usize, align: usize) -> Result<*mut u8, AllocError> {
        if refuses(&self.counts) {
            return Err(AllocError);
        }
        let answer = self.inner.allocate(size, align);
        granted(&self.counts, size, answer);
        answer
    }

    unsafe fn deallocate(&self, ptr: *mut u8, size: usize, align: usize) {
        returned(&self.counts, size);
        self.inner.deallocate(ptr, size, align);
    }
}
