//! Defines the function `copy_overlapping`, which moves adjacent items within a block. The old
//! slots and the new slots may overlap.
//!
//! Unlike `std::ptr::copy`, `copy_overlapping` does not compare the two pointers, because Rattle
//! allows this comparison only in the first half of the address space.
ghost use Rattle.std.specs.Prelude.{ℕ, ◌^◌, ◌<◌, List};
ghost use Rattle.core.specs.Ptr.{array_size, memory_before_copy, memory_after_copy};
ghost use types.Logic.{sem};
ghost use Rattle.thin_block.specs.Shifts.{IsShifted};

// Moves `count` items from `source` to `target`. `up` says whether `target` is above `source`. The
// ghost parameter `g` contains the distance between the pointers in items, and the list of the
// items.
pub(crate) unsafe fn copy_overlapping<T>(source: *const T, target: *mut T, count: usize, up: bool)
    ghost g: { ℕ × List T }
    requires target { IsShifted T.row up g.0 source target }
    requires fits_usize { array_size T.row count < 2 ^ 64 }
    requires* memory { sem 𝓛 (memory_before_copy T.row up g.0 count source target g.1) }
    ensures* { sem 𝓛 (memory_after_copy T.row up g.0 count source target g.1) }
{
    let mut i = 0;
    while i < count {
        let at = if up { count - 1 - i } else { i };
        unsafe { target.add(at).write(source.add(at).read()) };
        i += 1;
    }
}
