//! Defines the default growth rule `Doubling`, which doubles the capacity.
ghost use Rattle.std.specs.Prelude.{◌≡◌};
ghost use Rattle.std.specs.Align.{type_align};
ghost use Rattle.std.specs.Mem.{type_size};
ghost use Rattle.thin_block.specs.Capacity.{min_non_zero_cap};
ghost use Rattle.thin_block.specs.Growth.{doubling, grown_capacity};

use crate::growth::{Growth, checked_capacity};
use crate::sizes::item_size;

/// A growth rule that chooses the required capacity or twice the old capacity, whichever is
/// greater. If the old capacity is 0, it chooses at least 4, or at least 1 if an item takes more
/// than `usize::MAX / 8` bytes.
pub struct Doubling {}

impl Growth for Doubling {
    ghost use Rattle.thin_block.specs.Growth.{doubling};
    ghost use Rattle.thin_block.specs.GrowthLaws.{doubling_law};

    ghost rule = { doubling };

    fn next_capacity<T>(cap: usize, want: usize) -> Option<usize> {
        let doubled = if cap == 0 {
            first_capacity::<T>()
        } else {
            cap.saturating_mul(2)
        };
        checked_capacity::<T>(want.max(doubled))
    }

    ghost law = { doubling_law };
}

/// Returns the least capacity that `Doubling` chooses for the first block of a list.
pub fn first_capacity<T>() -> usize
    ensures value { result ≡ min_non_zero_cap (type_size T.row) }
{
    if item_size::<T>() > usize::MAX / 8 {
        1
    } else {
        4
    }
}

/// Returns the capacity that `Doubling` chooses for a list of capacity `cap` that needs room for
/// `want` items in total. Returns `cap` if `want <= cap`, and `None` if the new capacity would be
/// too large.
pub fn next_capacity<T>(cap: usize, want: usize) -> Option<usize>
    ensures value { result ≡ grown_capacity doubling (type_size T.row) (type_align T.row) cap want }
{
    if want <= cap {
        return Some(cap);
    }
    Doubling::next_capacity::<T>(cap, want)
}
