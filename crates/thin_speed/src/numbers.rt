//! Defines the items that the workloads put into lists, and the sums that the workloads compute
//! from these items.
ghost use Rattle.std.specs.Prelude.{◌-◌};
ghost use Rattle.std.specs.Iterator.{at_most};

use std::alloc::{AllocError, Global};

/// The sum that a workload computes, or the error of the call that failed. If a workload computes
/// equal sums with two kinds of lists, then it most likely did the same work with both kinds.
pub type Outcome = Result<u64, AllocError>;

/// Mixes `number` into `sum`, and returns the new sum. The result depends on the order in which
/// numbers are mixed into a sum.
pub fn mixed(sum: u64, number: u64) -> u64 {
    sum.wrapping_mul(31).wrapping_add(number)
}

/// An item of a list. Workloads mix the result of its method `number` into their sums.
pub trait Item: Drop {
    /// Computes a number from the item. For example, the number of a `u64` is the `u64` itself, and
    /// the number of a string is its length.
    fn number(&self) -> u64;
}

/// Returns the length of `items` plus the result of calling `number` on the middle item. Returns 0
/// if `items` is empty.
pub fn seen<T: Item>(items: &[T]) -> u64 {
    let middle = match items.get(items.len() / 2) {
        Some(item) => item.number(),
        None => 0,
    };
    middle.wrapping_add(items.len() as u64)
}

/// An item of several words of 8 bytes: one word for its number, and `REST` other words.
#[derive(Clone, Copy)]
pub struct Wide<const REST: usize> {
    number: u64,
    rest: [u64; REST],
}

impl Item for u8 {
    #[inline(always)]
    fn number(&self) -> u64 {
        *self as u64
    }
}

impl Item for u16 {
    #[inline(always)]
    fn number(&self) -> u64 {
        *self as u64
    }
}

impl Item for u32 {
    #[inline(always)]
    fn number(&self) -> u64 {
        *self as u64
    }
}

impl Item for u128 {
    // Returns the low 64 bits of the item.
    #[inline(always)]
    fn number(&self) -> u64 {
        (*self & 0xffff_ffff_ffff_ffff) as u64
    }
}

impl Item for u64 {
    #[inline(always)]
    fn number(&self) -> u64 {
        *self
    }
}

impl<const N: usize> Item for [u8; N] {
    // Returns the first byte of the item, or 0.
    #[inline(always)]
    fn number(&self) -> u64 {
        match self.first() {
            Some(byte) => *byte as u64,
            None => 0,
        }
    }
}

impl<const N: usize> Item for [u32; N] {
    // Returns the first word of the item, or 0.
    #[inline(always)]
    fn number(&self) -> u64 {
        match self.first() {
            Some(word) => *word as u64,
            None => 0,
        }
    }
}

impl<const REST: usize> Item for Wide<REST> {
    #[inline(always)]
    fn number(&self) -> u64 {
        self.number
    }
}

impl Item for String {
    #[inline(always)]
    fn number(&self) -> u64 {
        self.len() as u64
    }
}

/// A rule for making the items of a list. Each item is made from its index.
pub trait Source<T: Drop> {
    /// Makes the item at index `number` of a list.
    ///
    /// # Errors
    ///
    /// Fails if there is not enough memory.
    fn item(alloc: Global, number: usize) -> Result<T, AllocError>;
}

/// A `Source` that makes the items 0, 1, 2 and so on. A number is truncated to the width of the
/// item type. Each word of a `Wide` or of an array has the same number. All strings have the same
/// text.
pub struct InTurn;

impl Source<u8> for InTurn {
    #[inline(always)]
    fn item(_alloc: Global, number: usize) -> Result<u8, AllocError> {
        Ok((number & 0xff) as u8)
    }
}

impl Source<u16> for InTurn {
    #[inline(always)]
    fn item(_alloc: Global, number: usize) -> Result<u16, AllocError> {
        Ok((number & 0xffff) as u16)
    }
}

impl Source<u32> for InTurn {
    #[inline(always)]
    fn item(_alloc: Global, number: usize) -> Result<u32, AllocError> {
        Ok((number & 0xffff_ffff) as u32)
    }
}

impl Source<u128> for InTurn {
    #[inline(always)]
    fn item(_alloc: Global, number: usize) -> Result<u128, AllocError> {
        Ok(number as u128)
    }
}

impl Source<u64> for InTurn {
    #[inline(always)]
    fn item(_alloc: Global, number: usize) -> Result<u64, AllocError> {
        Ok(number as u64)
    }
}

impl<const N: usize> Source<[u8; N]> for InTurn {
    #[inline(always)]
    fn item(_alloc: Global, number: usize) -> Result<[u8; N], AllocError> {
        Ok([(number & 0xff) as u8; N])
    }
}

impl<const N: usize> Source<[u32; N]> for InTurn {
    #[inline(always)]
    fn item(_alloc: Global, number: usize) -> Result<[u32; N], AllocError> {
        Ok([(number & 0xffff_ffff) as u32; N])
    }
}

impl<const REST: usize> Source<Wide<REST>> for InTurn {
    #[inline(always)]
    fn item(_alloc: Global, number: usize) -> Result<Wide<REST>, AllocError> {
        let number = number as u64;
        Ok(Wide {
            number,
            rest: [number; REST],
        })
    }
}

impl Source<String> for InTurn {
    #[inline(always)]
    fn item(alloc: Global, _number: usize) -> Result<String, AllocError> {
        String::from_str(alloc, "a word of some length")
    }
}

/// A `Source` that makes each number twice: 0, 0, 1, 1, 2, 2 and so on.
pub struct Pairs;

impl Source<u64> for Pairs {
    #[inline(always)]
    fn item(_alloc: Global, number: usize) -> Result<u64, AllocError> {
        Ok(number as u64 / 2)
    }
}

/// An iterator over the numbers `next..end`. It does not define `size_hint`, so the lower bound of
/// its size hint is 0.
#[derive(Drop)]
pub struct Unhinted {
    next: u64,
    end: u64,
}

impl Unhinted {
    /// Makes an iterator over the numbers below `end`.
    pub fn below(end: usize) -> Unhinted {
        Unhinted {
            next: 0,
            end: end as u64,
        }
    }
}

impl Iterator for Unhinted {
    type Item = u64;

    ghost remaining = { λ numbers. at_most (numbers.end - numbers.next) };

    fn next(&mut self) -> Option<u64> {
        if self.next < self.end {
            let number = self.next;
            self.next = number + 1;
            return Some(number);
        }
        None
    }
}

/// The four items that the workload `replace_more` inserts with each call.
pub const FOUR: [u64; 4] = [7; 4];

/// A predicate that either picks or rejects a number.
pub trait Pick {
    /// Returns whether the predicate picks `number`.
    fn picks(number: u64) -> bool;
}

/// A predicate that picks the even numbers.
pub struct Even;

impl Pick for Even {
    #[inline(always)]
    fn picks(number: u64) -> bool {
        number & 1 == 0
    }
}

/// A predicate that picks a number if the highest bit of the number's hash is 0. Of the numbers 0,
/// 1, 2 and so on, it picks about half, in an irregular pattern.
pub struct Random;

impl Pick for Random {
    #[inline(always)]
    fn picks(number: u64) -> bool {
        number.wrapping_mul(0x9e37_79b9_7f4a_7c15) >> 63 == 0
    }
}

/// A predicate that picks all numbers except 1.
pub struct NotOne;

impl Pick for NotOne {
    #[inline(always)]
    fn picks(number: u64) -> bool {
        number != 1
    }
}

/// A predicate that picks the numbers below a million. All numbers in the lists of the workloads
/// are below a million, so every item is picked.
pub struct All;

impl Pick for All {
    #[inline(always)]
    fn picks(number: u64) -> bool {
        number < 1_000_000
    }
}

/// A predicate that picks the numbers above a million. All numbers in the lists of the workloads
/// are below a million, so no item is picked.
pub struct Nothing;

impl Pick for Nothing {
    #[inline(always)]
    fn picks(number: u64) -> bool {
        number > 1_000_000
    }
}

/// A predicate that picks the numbers whose last four bits are not all 1. Counting from 0, it
/// repeatedly picks fifteen numbers in a row, and then skips one.
pub struct InARun;

impl Pick for InARun {
    #[inline(always)]
    fn picks(number: u64) -> bool {
        number & 15 != 15
    }
}
