//! Defines the traits through which the workloads access lists. A workload is a task whose running
//! time is measured.
//!
//! Each method calls the list's method of the same name, unless its comment says otherwise. A
//! method that returns a `Result` fails if there is no room for the items.
ghost use Rattle.std.specs.Iterator.{IsFinite};

mod kit;
mod thin;

use crate::numbers::{Item, Outcome, Pick, Wide};
pub use kit::Kit;
use std::alloc::{AllocError, Global};
use std::io::Write;
pub use thin::Thin;

/// A kind of list: either `ThinVec`, or the `Vec` of Rattle's library. Every associated type is a
/// list of this kind. For example, `Numbers` is a list of `u64`.
pub trait Family {
    type Numbers: Numbers;

    type Bytes: List<u8> + Write;

    type Pairs: List<u16>;

    type Style: List<u32>;

    type Sixteens: Filtered<u128>;

    type Threes: List<[u8; 3]>;

    type Fives: List<[u8; 5]>;

    type Twelves: List<[u32; 3]>;

    type Twenties: List<[u32; 5]>;

    type Triples: List<Wide<2>>;

    type Wides: List<Wide<39>>;

    type Strings: List<String>;

    type Lists: List<Self::Numbers>;

    type Styles: List<Self::Style>;

    type Steps: List<Self::Bytes>;

    /// Builds a tree of depth `depth`. Each node that is not a leaf has `width` children. Returns
    /// the sum of the depths of all nodes, where a leaf has depth 0.
    ///
    /// # Errors
    ///
    /// Fails if there is not enough memory.
    fn tree(alloc: Global, depth: usize, width: usize) -> Outcome;
}

/// A list of items of the type `T`.
pub trait List<T: Drop>: Drop {
    fn new(alloc: Global) -> Self;

    fn with_capacity(alloc: Global, capacity: usize) -> Result<Self, AllocError>;

    fn push(&mut self, value: T) -> Result<(), AllocError>;

    fn pop(&mut self) -> Option<T>;

    /// Inserts `value` before the first item.
    fn insert_first(&mut self, value: T) -> Result<(), AllocError>;

    fn clear(&mut self);

    fn as_slice(&self) -> &[T];

    fn retain<F: FnMut(&T) -> bool>(&mut self, keep: F)
        requires callable { F.IsAlwaysCallable keep };
}

/// A list of items that have numbers.
pub trait Filtered<T: Item>: List<T> {
    /// Extracts the items whose numbers `P` picks, using `extract_if`. Mixes the number of each
    /// extracted item into `sum` with the function `mixed`, and returns the new sum.
    fn extract<P: Pick>(&mut self, sum: u64) -> u64;
}

/// A list of numbers.
pub trait Numbers: Filtered<u64> {
    /// Removes the first item and returns it. Returns `None` if the list is empty.
    fn remove_first(&mut self) -> Option<u64>;

    /// Removes the item in the middle, using `swap_remove`, and returns it. Returns `None` if the
    /// list is empty.
    fn remove_middle(&mut self) -> Option<u64>;

    fn from_iter<I: Iterator<Item = u64>>(alloc: Global, items: I) -> Result<Self, AllocError>
        requires can_next { I.can_next items }
        requires finite { IsFinite (I.remaining items) };

    fn extend<I: Iterator<Item = u64>>(&mut self, items: I) -> Result<(), AllocError>
        requires can_next { I.can_next items }
        requires finite { IsFinite (I.remaining items) };

    /// Appends copies of `items`.
    fn extend_from_copies(&mut self, items: &[u64]) -> Result<(), AllocError>;

    fn resize(&mut self, len: usize, value: u64) -> Result<(), AllocError>;

    fn shrink_to_fit(&mut self) -> Result<(), AllocError>;

    /// Makes a new list that contains copies of the items of this list.
    fn copy(&self, alloc: Global) -> Result<Self, AllocError>;

    /// Splits off the second half of the list, using `split_off`, and then appends the second half
    /// to the first half.
    fn split_and_append(&mut self, alloc: Global) -> Result<(), AllocError>;

    /// Drains the items `start..end`. Mixes each drained item into `sum` with the function `mixed`,
    /// and returns the new sum. Drains nothing if the range is out of bounds.
    fn drain_range(&mut self, start: usize, end: usize, sum: u64) -> u64;

    /// Replaces the items `start..end` with `items`, using `splice`. Does nothing if the range is
    /// out of bounds.
    fn splice<I: Iterator<Item = u64>>(
        &mut self,
        alloc: Global,
        start: usize,
        end: usize,
        items: I,
    ) -> Result<(), AllocError>
        requires can_next { I.can_next items }
        requires finite { IsFinite (I.remaining items) };

    /// Replaces the items `start..end` of the list with copies of `items`. Does nothing if the
    /// range `start..end` is out of bounds. This method is not inlined, so that its code cannot be
    /// specialized for certain lengths.
    fn replace(&mut self, start: usize, end: usize, items: &[u64]) -> Result<(), AllocError>;

    fn dedup(&mut self);

    /// Consumes the list from the front, using `into_iter`. Mixes each item into `sum` with the
    /// function `mixed`, and returns the new sum.
    fn walk(self, sum: u64) -> u64;
}
