//! Defines the growth rule `PowerBytes`, which fills allocations whose size is a power of two.
ghost use Rattle.std.specs.Prelude.{◌≡◌, ◌<◌, IfSome, false};
ghost use Rattle.std.specs.Mem.{type_size};
ghost use Rattle.std.specs.Align.{type_align};
ghost use Rattle.thin_block.specs.Capacity.{has_padding};
ghost use Rattle.thin_block.specs.Growth.{FillsPowerOfTwo, power_bytes};

use crate::growth::doubling::Doubling;
use crate::growth::{Growth, checked_capacity};
use crate::sizes::{HEADER, item_size};

/// A growth rule that rounds the size of the header and the items up to a power of two. It first
/// computes this size for the required capacity or twice the old capacity, whichever is greater.
/// Then it chooses the greatest capacity for which the header and the items fit into the rounded
/// size.
///
/// An allocator that rounds requests up to powers of two wastes less than the size of one item per
/// block. So that this holds for all items, blocks of these capacities have no padding. Therefore,
/// a list of items of more than 16 bytes moves them to a new allocation if it grows to such a
/// capacity, while it might grow in place under `Doubling`. (From one exact capacity to another, as
/// by `reserve_exact`, it might grow in place under both rules.) For items of size 0, the rule is
/// the same as `Doubling`.
pub struct PowerBytes {}

impl Growth for PowerBytes {
    ghost use Rattle.thin_block.specs.Growth.{power_bytes};
    ghost use Rattle.thin_block.specs.PowerLaws.{power_bytes_law};

    ghost rule = { power_bytes };

    fn next_capacity<T>(cap: usize, want: usize) -> Option<usize>
        requires { cap < want }
        ensures value { result ≡ power_bytes (type_size T.row) (type_align T.row) cap want }
        ensures capacity { 0 < type_size T.row
            → IfSome result (FillsPowerOfTwo (type_size T.row) (type_align T.row)) }
        ensures unpadded { IfSome result
            (λ cap. has_padding (type_size T.row) (type_align T.row) cap ≡ false) }
    {
        let size = item_size::<T>();
        if size == 0 {
            return Doubling::next_capacity::<T>(cap, want);
        }
        let items = want.max(cap.saturating_mul(2));
        let bytes = items.saturating_mul(size).saturating_add(HEADER);
        if bytes > usize::MAX / 2 + 1 {
            return None;
        }
        checked_capacity::<T>((bytes.next_power_of_two() - HEADER) / size)
    }

    ghost law = { power_bytes_law };
}
