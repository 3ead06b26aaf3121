//! Defines the trait `Growth` of growth rules.
ghost use Rattle.std.specs.Prelude.{◌≡◌, ◌<◌, ℕ, Option};
ghost use Rattle.std.specs.Mem.{type_size};
ghost use Rattle.std.specs.Align.{type_align};
ghost use Rattle.thin_block.specs.Growth.{IsLawful, checked_capacity};

use crate::sizes::fits;

pub mod doubling;
pub mod power_bytes;

/// A growth rule: it chooses the new capacity of a list that needs more room.
pub trait Growth {
    /// The growth rule as a function of the size of an item, its alignment, the old capacity and
    /// the required capacity.
    ghost rule: { ℕ → ℕ → ℕ → ℕ → Option ℕ };

    /// Returns the capacity to which a list of capacity `cap` grows in order to hold `want` items.
    /// Returns `None` if the rule has no such capacity, for example because it would be too large.
    fn next_capacity<T>(cap: usize, want: usize) -> Option<usize>
        requires { cap < want }
        ensures value { result ≡ rule (type_size T.row) (type_align T.row) cap want };

    /// The law of growth rules: each new capacity is at least the required capacity, at least twice
    /// the old capacity, and small enough to be allocated.
    ghost law: { IsLawful rule };
}

#[tactic(auto, unfolding(crate::specs::Growth::checked_capacity))]
fn checked_capacity<T>(next: usize) -> Option<usize>
    ensures value { result ≡ checked_capacity (type_size T.row) (type_align T.row) next }
{
    if fits::<T>(next) { Some(next) } else { None }
}
