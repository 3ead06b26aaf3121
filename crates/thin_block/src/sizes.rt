//! Computes the size of a block in bytes, and tests whether a block of a given capacity is small
//! enough to be allocated.
ghost use Rattle.std.specs.Prelude.{◌≡◌, ◌↔◌, ◌+◌, ◌*◌, ◌<◌, IsTrue, true};
ghost use Rattle.std.specs.Mem.{type_size};
ghost use Rattle.std.specs.Align.{type_align};
ghost use prog.Memory.{capped};
ghost use Rattle.thin_block.specs.Capacity.{block_align, block_bytes, Fits, front_bytes, has_padding, has_room_for_padding, may_have_padding, memory_bytes};

use std::mem::{align_of, size_of};

// The size of the header in bytes. Since no type in Rattle has an alignment above 16, this is also
// the offset of the first item in a block.
pub(crate) const HEADER: usize = 16;

// The size of the header in words of 8 bytes.
pub(crate) const HEADER_WORDS: usize = 2;

/// Returns the size of an item in bytes, or `usize::MAX` if the size exceeds `usize::MAX`.
pub fn item_size<T>() -> usize
    ensures value { result ≡ capped (type_size T.row) }
{
    size_of::<T>()
}

// Returns the alignment of an item in bytes.
pub(crate) fn item_align<T>() -> usize
    ensures value { result ≡ type_align T.row }
{
    align_of::<T>()
}

// Returns the alignment of a block in bytes.
pub(crate) fn block_align<T>() -> usize
    ensures value { result ≡ block_align (type_align T.row) }
{
    let align = item_align::<T>();
    if align > 8 { align } else { 8 }
}

// Returns the size in bytes of a block for `cap` items that is not padded. It is a multiple of the
// alignment, so a block whose items form words is an array of words of just this size.
pub(crate) fn block_bytes<T>(cap: usize) -> usize
    requires { Fits T.row cap }
    ensures value { result ≡ block_bytes (type_size T.row) (type_align T.row) cap }
{
    (HEADER + cap * item_size::<T>()).next_multiple_of(block_align::<T>())
}

// The least capacity of a padded block. So the padding is at most a sixteenth of the items.
const PADDED: usize = 32;

// Returns whether a block for `cap` items is padded unless `has_room_for_padding` returns `false`.
pub(crate) fn may_have_padding<T>(cap: usize) -> bool
    ensures value { result ≡ may_have_padding (type_size T.row) (type_align T.row) cap }
{
    item_size::<T>() > HEADER && item_align::<T>() >= 8 && cap >= PADDED
}

#[tactic(auto, unfolding(crate::specs::Capacity::has_padding))]
pub(crate) fn has_padding<T>(cap: usize) -> bool
    requires { Fits T.row cap }
    ensures value { result ≡ has_padding (type_size T.row) (type_align T.row) cap }
{
    may_have_padding::<T>(cap) && has_room_for_padding::<T>(cap)
}

// Returns whether `cap` items take less than `2^62` bytes, so that a padded block for them takes at
// most `isize::MAX` bytes, and whether the least power of two that holds the header and these items
// also holds one item more. If it does not, the block just fits into this power of two, as under
// the growth rule `PowerBytes`, and padding would make it larger. This function is not inlined, so
// that it adds no code where blocks with fewer slots are allocated and freed.
#[cold]
#[inline(never)]
fn has_room_for_padding<T>(cap: usize) -> bool
    requires { Fits T.row cap }
    ensures value { result ≡ has_room_for_padding (type_size T.row) (type_align T.row) cap }
{
    let size = item_size::<T>();
    let items = cap * size;
    if items >= 1 << 62 {
        return false;
    }
    let bytes = HEADER + items;
    bytes.next_power_of_two() - bytes >= size
}

// The memory that a block requests.
#[derive(Clone, Copy)]
pub(crate) struct Layout {
    // The size in bytes.
    pub(crate) bytes: usize,
    // The number of bytes before the header. It is 0 unless the block is padded.
    pub(crate) front: usize,
    // The number of items that take as many bytes as the block if it is padded. Otherwise, 0.
    pub(crate) items: usize,
}

// Returns the layout of a block for `cap` items.
#[tactic(auto, unfolding(crate::specs::Capacity::has_padding))]
pub(crate) fn layout_of<T>(cap: usize) -> Layout
    requires { Fits T.row cap }
    ensures bytes { result.bytes ≡ memory_bytes (type_size T.row) (type_align T.row) cap }
    ensures front { result.front ≡ front_bytes (type_size T.row) (type_align T.row) cap }
    ensures padded { 0 < result.front
        → has_padding (type_size T.row) (type_align T.row) cap ≡ true }
    ensures item { 0 < result.front → result.front + 16 ≡ type_size T.row }
    ensures items { 0 < result.front → result.items ≡ cap + 2 }
{
    if has_padding::<T>(cap) {
        let size = item_size::<T>();
        let items = cap + 2;
        Layout {
            bytes: items * size,
            front: size - HEADER,
            items,
        }
    } else {
        Layout {
            bytes: block_bytes::<T>(cap),
            front: 0,
            items: 0,
        }
    }
}

/// Returns whether a block for `cap` items is small enough to be allocated. This is the case if
/// neither `cap` nor the size of the block in bytes exceeds `isize::MAX`.
pub fn fits<T>(cap: usize) -> bool
    ensures value { IsTrue result ↔ Fits T.row cap }
{
    if cap > isize::MAX as usize {
        return false;
    }
    let size = item_size::<T>();
    if size == 0 {
        return true;
    }
    cap <= (isize::MAX as usize + 1 - block_align::<T>() - HEADER) / size
}
