//! The function `bounds`, which converts the bounds of a range into the two indices that `drain`,
//! `extract_if` and `splice` take.
ghost use Rattle.std.specs.Prelude.{◌≡◌, ◌≤◌, IfSome};
ghost use Rattle.thin_vec.specs.Ranges.{range_between};

use std::ops::Bound;

/// Returns the inclusive start and the exclusive end of the range with the bounds `start` and
/// `end`, for a list of length `len`. Returns `None` if the start is greater than the end, or the
/// end greater than `len`.
pub fn bounds(start: Bound<usize>, end: Bound<usize>, len: usize) -> Option<(usize, usize)>
    ensures value { result ≡ range_between start end len }
    ensures start_le_end { IfSome result (λ range. range.0 ≤ range.1) }
    ensures in_bounds { IfSome result (λ range. range.1 ≤ len) }
{
    let first = match start {
        Bound::Included(index) => index,
        Bound::Excluded(index) => index.checked_add(1)?,
        Bound::Unbounded => 0,
    };
    let past = match end {
        Bound::Included(index) => index.checked_add(1)?,
        Bound::Excluded(index) => index,
        Bound::Unbounded => len,
    };
    if first <= past && past <= len {
        Some((first, past))
    } else {
        None
    }
}
