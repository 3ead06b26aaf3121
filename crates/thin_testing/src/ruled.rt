//! For each growth rule, defines a function that computes the capacities that tests expect. The
//! function differs from the rule in one case. If a capacity is too large to be allocated, the rule
//! returns `None`, but the function still returns this capacity.
use crate::multiples::Threefold;
use thin_vec::{Doubling, Growth, PowerBytes};

/// Returns the smallest power of two that is at least `bytes` and at least 32, or `usize::MAX` if
/// this power exceeds `usize::MAX`.
pub fn least_power(bytes: usize) -> usize {
    let mut power: usize = 32;
    for _ in 5..64 {
        if power < bytes {
            power = power.saturating_mul(2);
        }
    }
    power
}

/// A growth rule, together with a function that computes the expected capacities.
pub trait Ruled: Growth {
    /// Returns the capacity to which a list of capacity `capacity` grows if it needs room for
    /// `want` items of `size` bytes each. `want` must be greater than `capacity`.
    fn expected_capacity(size: usize, capacity: usize, want: usize) -> usize;
}

impl Ruled for Doubling {
    fn expected_capacity(_size: usize, capacity: usize, want: usize) -> usize {
        if capacity == 0 {
            want.max(4)
        } else {
            want.max(capacity.saturating_mul(2))
        }
    }
}

impl Ruled for PowerBytes {
    // Returns how many items fit into an allocation after a header of 16 bytes. The size of this
    // allocation in bytes is the smallest power of two that has room for the header and for
    // `max(want, 2 * capacity)` items. If `size` is 0, the result is the same as for `Doubling`.
    fn expected_capacity(size: usize, capacity: usize, want: usize) -> usize {
        if size == 0 {
            return Doubling::expected_capacity(size, capacity, want);
        }
        let items = want.max(capacity.saturating_mul(2));
        let bytes = items.saturating_mul(size).saturating_add(16);
        least_power(bytes).saturating_sub(16) / size
    }
}

impl Ruled for Threefold {
    fn expected_capacity(_size: usize, capacity: usize, want: usize) -> usize {
        want.max(capacity.saturating_mul(3))
    }
}
