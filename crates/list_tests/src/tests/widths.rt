//! A function whose contract states, for every item type and growth rule, that a list takes 8 bytes
//! and a `Vec` takes 24 bytes.
ghost use Rattle.std.specs.Prelude.{◌≡◌};

use std::alloc::Global;
use std::mem::size_of;
use thin_vec::{Growth, ThinVec};

/// Returns the sizes in bytes of a list and of a `Vec`, both of which use the global allocator.
pub fn widths<T, G: Growth>() -> (usize, usize)
    ensures list { result.0 ≡ 8 }
    ensures vec { result.1 ≡ 24 }
{
    (
        size_of::<ThinVec<T, Global, G>>(),
        size_of::<Vec<T, Global>>(),
    )
}
