//! Defines a growth rule for tests. The tests check that lists satisfy their contracts even if a
//! program defines its own growth rule.
ghost use Rattle.std.specs.Prelude.{◌≡◌};
ghost use Rattle.std.specs.Mem.{type_size};
ghost use Rattle.std.specs.Align.{type_align};
ghost use Rattle.thin_testing.specs.Multiples.{multiple};

use thin_vec::{Growth, fits};

/// A growth rule that chooses three times the old capacity, or the required capacity if that is
/// greater.
pub struct Threefold {}

impl Growth for Threefold {
    ghost use Rattle.thin_testing.specs.Multiples.{threefold, threefold_law};

    ghost rule = { threefold };

    fn next_capacity<T>(cap: usize, want: usize) -> Option<usize> {
        next_multiple::<T>(3, cap, want)
    }

    ghost law = { threefold_law };
}

// Returns the capacity to which a list of capacity `cap` grows if it needs room for `want` items.
// This capacity is `cap * times`, or `want` if `want` is greater. Returns `None` if a block of this
// capacity is too large to be allocated.
fn next_multiple<T>(times: usize, cap: usize, want: usize) -> Option<usize>
    ensures value { result ≡ multiple times (type_size T.row) (type_align T.row) cap want }
{
    let next = want.max(cap.saturating_mul(times));
    if fits::<T>(next) { Some(next) } else { None }
}
