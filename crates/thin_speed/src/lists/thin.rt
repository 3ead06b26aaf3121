//! Implements the traits of the module `lists` for `ThinVec`. In the input of this program, this
//! kind of list is called `thin`.
use crate::lists::{Family, Filtered, List, Numbers};
use crate::numbers::{Item, Outcome, Pick, Wide, mixed};
use std::alloc::{AllocError, Global};
use thin_vec::ThinVec;

/// A type that selects `ThinVec` as the kind of list on which a workload runs.
pub struct Thin;

impl Family for Thin {
    type Numbers = ThinVec<u64>;

    type Bytes = ThinVec<u8>;

    type Pairs = ThinVec<u16>;

    type Style = ThinVec<u32>;

    type Sixteens = ThinVec<u128>;

    type Threes = ThinVec<[u8; 3]>;

    type Fives = ThinVec<[u8; 5]>;

    type Twelves = ThinVec<[u32; 3]>;

    type Twenties = ThinVec<[u32; 5]>;

    type Triples = ThinVec<Wide<2>>;

    type Wides = ThinVec<Wide<39>>;

    type Strings = ThinVec<String>;

    type Lists = ThinVec<ThinVec<u64>>;

    type Styles = ThinVec<ThinVec<u32>>;

    type Steps = ThinVec<ThinVec<u8>>;

    #[inline(always)]
    fn tree(alloc: Global, depth: usize, width: usize) -> Outcome {
        Ok(depths(&build(alloc, depth, width)?))
    }
}

impl<T: Drop> List<T> for ThinVec<T> {
    #[inline(always)]
    fn new(alloc: Global) -> ThinVec<T> {
        ThinVec::new(alloc)
    }

    #[inline(always)]
    fn with_capacity(alloc: Global, capacity: usize) -> Result<ThinVec<T>, AllocError> {
        Ok(ThinVec::with_capacity(alloc, capacity)?)
    }

    #[inline(always)]
    fn push(&mut self, value: T) -> Result<(), AllocError> {
        Ok(ThinVec::push(self, value)?)
    }

    #[inline(always)]
    fn pop(&mut self) -> Option<T> {
        ThinVec::pop(self)
    }

    #[inline(always)]
    fn insert_first(&mut self, value: T) -> Result<(), AllocError> {
        Ok(self.insert(0, value)?)
    }

    #[inline(always)]
    fn clear(&mut self) {
        ThinVec::clear(self);
    }

    #[inline(always)]
    fn as_slice(&self) -> &[T] {
        ThinVec::as_slice(self)
    }

    #[inline(always)]
    fn retain<F: FnMut(&T) -> bool>(&mut self, keep: F) {
        ThinVec::retain(self, keep);
    }
}

impl<T: Item> Filtered<T> for ThinVec<T> {
    #[inline(always)]
    fn extract<P: Pick>(&mut self, sum: u64) -> u64 {
        let end = self.len();
        let mut sum = sum;
        for item in self.extract_if(0, end, |item| P::picks(item.number())) {
            sum = mixed(sum, item.number());
        }
        sum
    }
}

impl Numbers for ThinVec<u64> {
    #[inline(always)]
    fn remove_first(&mut self) -> Option<u64> {
        if self.len() == 0 {
            return None;
        }
        Some(self.remove(0))
    }

    #[inline(always)]
    fn remove_middle(&mut self) -> Option<u64> {
        let len = self.len();
        if len == 0 {
            return None;
        }
        Some(self.swap_remove(len / 2))
    }

    #[inline(always)]
    fn from_iter<I: Iterator<Item = u64>>(
        alloc: Global,
        items: I,
    ) -> Result<ThinVec<u64>, AllocError> {
        Ok(ThinVec::from_iter(alloc, items)?)
    }

    #[inline(always)]
    fn extend<I: Iterator<Item = u64>>(&mut self, items: I) -> Result<(), AllocError> {
        Ok(ThinVec::extend(self, items)?)
    }

    #[inline(always)]
    fn extend_from_copies(&mut self, items: &[u64]) -> Result<(), AllocError> {
        Ok(ThinVec::extend_from_copies(self, items)?)
    }

    #[inline(always)]
    fn resize(&mut self, len: usize, value: u64) -> Result<(), AllocError> {
        Ok(ThinVec::resize(self, len, value)?)
    }

    #[inline(always)]
    fn shrink_to_fit(&mut self) -> Result<(), AllocError> {
        Ok(ThinVec::shrink_to_fit(self)?)
    }

    #[inline(always)]
    fn copy(&self, alloc: Global) -> Result<ThinVec<u64>, AllocError> {
        Ok(self.clone_copies(alloc)?)
    }

    #[inline(always)]
    fn split_and_append(&mut self, alloc: Global) -> Result<(), AllocError> {
        let mut tail = self.split_off(alloc, self.len() / 2)?;
        Ok(self.append(&mut tail)?)
    }

    #[inline(always)]
    fn drain_range(&mut self, start: usize, end: usize, sum: u64) -> u64 {
        let mut sum = sum;
        if start <= end && end <= self.len() {
            for number in self.drain(start, end) {
                sum = mixed(sum, number);
            }
        }
        sum
    }

    #[inline(always)]
    fn splice<I: Iterator<Item = u64>>(
        &mut self,
        alloc: Global,
        start: usize,
        end: usize,
        items: I,
    ) -> Result<(), AllocError> {
        if start > end || end > self.len() {
            return Ok(());
        }
        Ok(ThinVec::splice(self, start, end, items).finish(alloc)?)
    }

    #[inline(never)]
    fn replace(&mut self, start: usize, end: usize, items: &[u64]) -> Result<(), AllocError> {
        if start > end || end > self.len() {
            return Ok(());
        }
        Ok(self.replace_range_from_copies(start, end, items)?)
    }

    #[inline(always)]
    fn dedup(&mut self) {
        ThinVec::dedup(self);
    }

    #[inline(always)]
    fn walk(self, sum: u64) -> u64 {
        let mut sum = sum;
        for number in self {
            sum = mixed(sum, number);
        }
        sum
    }
}

#[derive(Drop)]
struct Node {
    depth: u64,
    children: ThinVec<Node>,
}

// Builds a tree of depth `depth`, in which each node that is not a leaf has `width` children. The
// children of a node are stored in a `ThinVec`.
fn build(alloc: Global, depth: usize, width: usize) -> Result<Node, AllocError> {
    let mut children = ThinVec::new(alloc);
    if depth > 0 {
        for _ in 0..width {
            children.push(build(alloc, depth - 1, width)?)?;
        }
    }
    Ok(Node {
        depth: depth as u64,
        children,
    })
}

// Returns the sum of the depths of `node` and of all nodes below it.
fn depths(node: &Node) -> u64 {
    let mut sum = node.depth;
    for child in &node.children {
        sum = sum.wrapping_add(depths(child));
    }
    sum
}
