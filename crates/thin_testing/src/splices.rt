//! Splices for tests.
ghost use Rattle.std.specs.Iterator.{IsFinite};
ghost use Rattle.std.specs.Prelude.{◌≤◌, length};

use std::alloc::Allocator;
use thin_vec::{Growth, SpliceRefused, ThinVec};

/// Replaces the items `range.0..range.1` of the list by those of `iter`. The borrow checker accepts
/// a splice over a borrowed value only in a function whose iterator type is generic.
pub fn splice<T: Drop, A: Allocator, G: Growth, I: Iterator<Item = T>>(
    list: &mut ThinVec<T, A, G>,
    range: (usize, usize),
    iter: I,
    alloc: A,
) -> Result<(), SpliceRefused<T, I, A>>
    requires start_le_end { range.0 ≤ range.1 }
    requires in_bounds { range.1 ≤ length list.old.items }
    requires can_next { I.can_next iter }
    requires finite { IsFinite (I.remaining iter) }
{
    list.splice(range.0, range.1, iter).finish(alloc)
}
