//! Implements the traits of the module `lists` for the `Vec` of Rattle's library. In the input of
//! this program, this kind of list is called `kit`.
use crate::lists::{Family, Filtered, List, Numbers};
use crate::numbers::{Item, Outcome, Pick, Wide, mixed};
use std::alloc::{AllocError, Global};

/// A type that selects the `Vec` of Rattle's library as the kind of list on which a workload runs.
pub struct Kit;

impl Family for Kit {
    type Numbers = Vec<u64>;

    type Bytes = Vec<u8>;

    type Pairs = Vec<u16>;

    type Style = Vec<u32>;

    type Sixteens = Vec<u128>;

    type Threes = Vec<[u8; 3]>;

    type Fives = Vec<[u8; 5]>;

    type Twelves = Vec<[u32; 3]>;

    type Twenties = Vec<[u32; 5]>;

    type Triples = Vec<Wide<2>>;

    type Wides = Vec<Wide<39>>;

    type Strings = Vec<String>;

    type Lists = Vec<Vec<u64>>;

    type Styles = Vec<Vec<u32>>;

    type Steps = Vec<Vec<u8>>;

    #[inline(always)]
    fn tree(alloc: Global, depth: usize, width: usize) -> Outcome {
        Ok(depths(&build(alloc, depth, width)?))
    }
}

impl<T: Drop> List<T> for Vec<T> {
    #[inline(always)]
    fn new(alloc: Global) -> Vec<T> {
        Vec::new(alloc)
    }

    #[inline(always)]
    fn with_capacity(alloc: Global, capacity: usize) -> Result<Vec<T>, AllocError> {
        Vec::with_capacity(alloc, capacity)
    }

    #[inline(always)]
    fn push(&mut self, value: T) -> Result<(), AllocError> {
        Ok(Vec::push(self, value)?)
    }

    #[inline(always)]
    fn pop(&mut self) -> Option<T> {
        Vec::pop(self)
    }

    #[inline(always)]
    fn insert_first(&mut self, value: T) -> Result<(), AllocError> {
        Ok(self.insert(0, value)?)
    }

    #[inline(always)]
    fn clear(&mut self) {
        Vec::clear(self);
    }

    #[inline(always)]
    fn as_slice(&self) -> &[T] {
        Vec::as_slice(self)
    }

    #[inline(always)]
    fn retain<F: FnMut(&T) -> bool>(&mut self, keep: F) {
        Vec::retain(self, keep);
    }
}

impl<T: Item> Filtered<T> for Vec<T> {
    #[inline(always)]
    fn extract<P: Pick>(&mut self, sum: u64) -> u64 {
        let mut sum = sum;
        for item in self.extract_if(.., |item| P::picks(item.number())) {
            sum = mixed(sum, item.number());
        }
        sum
    }
}

impl Numbers for Vec<u64> {
    #[inline(always)]
    fn remove_first(&mut self) -> Option<u64> {
        if self.len() == 0 {
            return None;
        }
        Some(self.remove(0))
    }

    #[inline(always)]
    fn remove_middle(&mut self) -> Option<u64> {
        let len = self.len();
        if len == 0 {
            return None;
        }
        Some(self.swap_remove(len / 2))
    }

    #[inline(always)]
    fn from_iter<I: Iterator<Item = u64>>(alloc: Global, items: I) -> Result<Vec<u64>, AllocError> {
        items.collect::<Vec<u64>>(alloc)
    }

    #[inline(always)]
    fn extend<I: Iterator<Item = u64>>(&mut self, items: I) -> Result<(), AllocError> {
        Extend::extend(self, items)
    }

    #[inline(always)]
    fn extend_from_copies(&mut self, items: &[u64]) -> Result<(), AllocError> {
        self.extend_from_slice(items)
    }

    #[inline(always)]
    fn resize(&mut self, len: usize, value: u64) -> Result<(), AllocError> {
        Vec::resize(self, len, value)
    }

    #[inline(always)]
    fn shrink_to_fit(&mut self) -> Result<(), AllocError> {
        Vec::shrink_to_fit(self);
        Ok(())
    }

    #[inline(always)]
    fn copy(&self, _alloc: Global) -> Result<Vec<u64>, AllocError> {
        self.clone()
    }

    #[inline(always)]
    fn split_and_append(&mut self, _alloc: Global) -> Result<(), AllocError> {
        let mut tail = self.split_off(self.len() / 2)?;
        self.append(&mut tail)
    }

    #[inline(always)]
    fn drain_range(&mut self, start: usize, end: usize, sum: u64) -> u64 {
        let mut sum = sum;
        if start <= end && end <= self.len() {
            for number in self.drain(start..end) {
                sum = mixed(sum, number);
            }
        }
        sum
    }

    #[inline(always)]
    fn splice<I: Iterator<Item = u64>>(
        &mut self,
        _alloc: Global,
        start: usize,
        end: usize,
        items: I,
    ) -> Result<(), AllocError> {
        if start > end || end > self.len() {
            return Ok(());
        }
        drop(Vec::splice(self, start..end, items)?);
        Ok(())
    }

    #[inline(never)]
    fn replace(&mut self, start: usize, end: usize, items: &[u64]) -> Result<(), AllocError> {
        if start > end || end > self.len() {
            return Ok(());
        }
        drop(Vec::splice(self, start..end, items.iter().copied())?);
        Ok(())
    }

    #[inline(always)]
    fn dedup(&mut self) {
        Vec::dedup(self);
    }

    #[inline(always)]
    fn walk(self, sum: u64) -> u64 {
        let mut sum = sum;
        for number in self {
            sum = mixed(sum, number);
        }
        sum
    }
}

#[derive(Drop)]
struct Node {
    depth: u64,
    children: Vec<Node>,
}

// Builds a tree of depth `depth`, in which each node that is not a leaf has `width` children. The
// children of a node are stored in a `Vec`.
fn build(alloc: Global, depth: usize, width: usize) -> Result<Node, AllocError> {
    let mut children = Vec::new(alloc);
    if depth > 0 {
        for _ in 0..width {
            children.push(build(alloc, depth - 1, width)?)?;
        }
    }
    Ok(Node {
        depth: depth as u64,
        children,
    })
}

// Returns the sum of the depths of `node` and of all nodes below it.
fn depths(node: &Node) -> u64 {
    let mut sum = node.depth;
    for child in &node.children {
        sum = sum.wrapping_add(depths(child));
    }
    sum
}
