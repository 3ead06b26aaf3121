//! Defines the types of items that tests make from numbers.
use crate::ledger::{Counted, CountedWord, Ledger};
use crate::ruled::least_power;
use thin_block::item_size;

/// A type of items that a test makes from numbers. Numbers below 251 make different items, except
/// that all items of 0 bytes are equal, and all of the type `CountedWord`.
pub trait Numbered: Clone + Eq + Drop {
    /// Whether the ledger counts the items and their clones.
    const IS_COUNTED: bool;

    /// Whether items of more than 16 bytes are aligned to 8 or 16.
    const IS_ALIGNED: bool = true;

    /// Returns the size of an item in bytes.
    fn size() -> usize {
        item_size::<Self>()
    }

    /// Makes an item.
    fn numbered(ledger: &'static Ledger, number: u64) -> Self;
}

/// Returns the size in bytes of the block of a list of `capacity` items: a header of 16 bytes and
/// the items, rounded up to a multiple of 8. (Items that are aligned to 16 take a multiple of 16
/// bytes.) From 32 slots on, items of more than 16 bytes that are aligned to 8 or 16 have a padded
/// block, which takes the place of two more items, unless the header and the items just fit into a
/// power of two. A list of capacity 0 has no block.
pub fn block_bytes<T: Numbered>(capacity: usize) -> u64 {
    if capacity == 0 {
        return 0;
    }
    let size = T::size();
    let bytes = capacity.saturating_mul(size).saturating_add(16);
    let is_large = size > 16 && T::IS_ALIGNED && capacity >= 32;
    if is_large && bytes.saturating_add(size) <= least_power(bytes) {
        return capacity.saturating_add(2).saturating_mul(size) as u64;
    }
    bytes.div_ceil(8).saturating_mul(8) as u64
}

/// Returns the greatest capacity that a list of `T` can have. Its block takes at most `isize::MAX`
/// bytes, of which 16 are the header, and 7 may be lost because the size of a block is a multiple
/// of 8. A list of items of 0 bytes can have each capacity up to `isize::MAX`.
pub fn greatest_capacity<T: Numbered>() -> usize {
    let most = isize::MAX as usize;
    most.saturating_sub(23)
        .checked_div(T::size())
        .unwrap_or(most)
}

impl Numbered for () {
    const IS_COUNTED: bool = false;

    fn numbered(_ledger: &'static Ledger, _number: u64) -> () {}
}

impl Numbered for u8 {
    const IS_COUNTED: bool = false;

    fn numbered(_ledger: &'static Ledger, number: u64) -> u8 {
        (number % 251) as u8
    }
}

impl Numbered for u16 {
    const IS_COUNTED: bool = false;

    fn numbered(_ledger: &'static Ledger, number: u64) -> u16 {
        (number % 65521) as u16
    }
}

impl Numbered for i32 {
    const IS_COUNTED: bool = false;

    fn numbered(_ledger: &'static Ledger, number: u64) -> i32 {
        (number % 2_147_483_647) as i32
    }
}

impl Numbered for u64 {
    const IS_COUNTED: bool = false;

    fn numbered(_ledger: &'static Ledger, number: u64) -> u64 {
        number
    }
}

impl Numbered for u128 {
    const IS_COUNTED: bool = false;

    fn numbered(_ledger: &'static Ledger, number: u64) -> u128 {
        u128::from(number) << 64
    }
}

impl<const N: usize> Numbered for [u8; N] {
    const IS_COUNTED: bool = false;

    const IS_ALIGNED: bool = false;

    fn size() -> usize {
        N
    }

    fn numbered(_ledger: &'static Ledger, number: u64) -> [u8; N] {
        [(number % 251) as u8; N]
    }
}

impl<const N: usize> Numbered for [u32; N] {
    const IS_COUNTED: bool = false;

    const IS_ALIGNED: bool = false;

    fn size() -> usize {
        N.saturating_mul(4)
    }

    fn numbered(_ledger: &'static Ledger, number: u64) -> [u32; N] {
        [(number % 65521) as u32; N]
    }
}

impl<const N: usize> Numbered for [u64; N] {
    const IS_COUNTED: bool = false;

    const IS_ALIGNED: bool = true;

    fn size() -> usize {
        N.saturating_mul(8)
    }

    fn numbered(_ledger: &'static Ledger, number: u64) -> [u64; N] {
        [number; N]
    }
}

impl<const N: usize> Numbered for [u128; N] {
    const IS_COUNTED: bool = false;

    const IS_ALIGNED: bool = true;

    fn size() -> usize {
        N.saturating_mul(16)
    }

    fn numbered(_ledger: &'static Ledger, number: u64) -> [u128; N] {
        [u128::from(number) << 64; N]
    }
}

impl Numbered for CountedWord<'static> {
    const IS_COUNTED: bool = true;

    fn numbered(ledger: &'static Ledger, _number: u64) -> Self {
        CountedWord::new(ledger)
    }
}

impl<P: Numbered + Copy> Numbered for Counted<'static, P> {
    const IS_COUNTED: bool = true;

    fn numbered(ledger: &'static Ledger, number: u64) -> Self {
        Counted::new(ledger, number, P::numbered(ledger, number))
    }
}
