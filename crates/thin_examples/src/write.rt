//! Examples that write to the items of a list.
ghost use Rattle.std.specs.List.{swap};
ghost use Rattle.std.specs.Prelude.{◌≡◌, ◌-◌, ◌/◌, ◌<◌, ◌≤◌, ◌++◌, reverse as reversed, IsPermutation, IsSorted, OnErr, drop, length, map, replicate, slice_index, slice_set, take};

use std::alloc::{AllocError, Allocator, Global};
use thin_vec::{Growth, ThinVec};

/// Subtracts `less` from the first number, and returns the old first number.
pub fn lower_first<A: Allocator, G: Growth>(list: &mut ThinVec<u32, A, G>, less: u32) -> u32
    requires some { 0 < length list.old.items }
    requires enough { less ≤ slice_index list.old.items 0 }
    ensures value { result ≡ slice_index list.old.items 0 }
    ensures items { list.new.items ≡ slice_set list.old.items 0
        (slice_index list.old.items 0 - less) }
{
    let first = list[0];
    list[0] = first - less;
    first
}

/// Halves each number, rounding down, in a loop over the items.
///
/// The loop is over the items of the slice: after a loop as in `limit_each`, a contract cannot yet
/// say which items a list has.
pub fn halve_each<A: Allocator, G: Growth>(list: &mut ThinVec<u32, A, G>)
    ensures items { list.new.items ≡ map (λ number. number / 2) list.old.items }
    ensures capacity { list.new.capacity ≡ list.old.capacity }
{
    for number in list.as_mut_slice().iter_mut() {
        *number /= 2;
    }
}

/// Writes `limit` over each number that is greater. All that a contract can say of such a loop is
/// how many items the list has.
pub fn limit_each<A: Allocator, G: Growth>(
    mut list: ThinVec<u32, A, G>,
    limit: u32,
) -> ThinVec<u32, A, G>
    ensures len { length result.items ≡ length list.items }
{
    for number in &mut list {
        *number = limit.min(*number);
    }
    list
}

/// Halves each number, rounding down, in a loop over the indices.
pub fn halve_by_index<A: Allocator, G: Growth>(list: &mut ThinVec<u32, A, G>)
    ensures items { list.new.items ≡ map (λ number. number / 2) list.old.items }
    ensures capacity { list.new.capacity ≡ list.old.capacity }
{
    for i in 0..list.len() {
        list[i] /= 2;
    }
}

/// Sorts the items in place. This requests no memory, and copies no item to another block.
pub fn sort<T: Ord, A: Allocator, G: Growth>(list: &mut ThinVec<T, A, G>)
    ensures sorted { IsSorted T.cmp list.new.items }
    ensures permutation { IsPermutation list.old.items list.new.items }
    ensures capacity { list.new.capacity ≡ list.old.capacity }
    ensures alloc { list.new.alloc ≡ list.old.alloc }
    ensures cost { list.new.cost ≡ list.old.cost }
{
    list.sort_unstable();
}

/// Sorts the pairs by their first number. Pairs with the same first number keep their order. If
/// there is no memory, nothing changes.
pub fn sort_pairs<A: Allocator, G: Growth>(
    list: &mut ThinVec<(u32, u32), A, G>,
) -> Result<(), AllocError>
    ensures permutation { IsPermutation list.old.items list.new.items }
    ensures err { OnErr result (list.new ≡ list.old) }
    ensures capacity { list.new.capacity ≡ list.old.capacity }
{
    list.sort_by_key(|pair| pair.0)
}

/// Sorts the numbers as texts, so that 10 comes before 9. The text of each number is made once. A
/// number for whose text `alloc` refuses the memory comes first.
///
/// # Errors
///
/// Fails if the allocator of the list refuses the memory for the keys. On failure, the list is
/// unchanged.
pub fn sort_as_text<A: Allocator, G: Growth>(
    list: &mut ThinVec<u32, A, G>,
    alloc: Global,
) -> Result<(), AllocError>
    ensures permutation { IsPermutation list.old.items list.new.items }
    ensures err { OnErr result (list.new ≡ list.old) }
{
    list.sort_by_cached_key(|number| format!(in alloc; "{number}").ok())
}

/// Writes `value` over the first number.
pub fn set_first<A: Allocator, G: Growth>(list: &mut ThinVec<u32, A, G>, value: u32)
    requires not_empty { 0 < length list.old.items }
    ensures items { list.new.items ≡ slice_set list.old.items 0 value }
    ensures capacity { list.new.capacity ≡ list.old.capacity }
{
    if let Some(first) = list.get_mut(0) {
        *first = value;
    }
}

/// Exchanges the items at the indices `first` and `second`.
pub fn exchange<T, A: Allocator, G: Growth>(
    list: &mut ThinVec<T, A, G>,
    first: usize,
    second: usize,
)
    requires first { first < length list.old.items }
    requires second { second < length list.old.items }
    ensures items { list.new.items ≡ swap list.old.items first second }
    ensures capacity { list.new.capacity ≡ list.old.capacity }
    ensures alloc { list.new.alloc ≡ list.old.alloc }
{
    list.swap(first, second);
}

/// Writes 0 over the numbers at the indices `start..end`.
pub fn clear_range<A: Allocator, G: Growth>(list: &mut ThinVec<u32, A, G>, start: usize, end: usize)
    requires start_le_end { start ≤ end }
    requires in_bounds { end ≤ length list.old.items }
    ensures items { list.new.items
        ≡ take start list.old.items ++ (replicate (end - start) 0 ++ drop end list.old.items) }
    ensures capacity { list.new.capacity ≡ list.old.capacity }
{
    list.as_mut_slice()[start..end].fill(0);
}

/// Writes 0 over the first `middle` numbers, and 1 over the other numbers.
pub fn mark_halves<A: Allocator, G: Growth>(list: &mut ThinVec<u32, A, G>, middle: usize)
    requires in_bounds { middle ≤ length list.old.items }
    ensures items { list.new.items
        ≡ replicate middle 0 ++ replicate (length list.old.items - middle) 1 }
    ensures capacity { list.new.capacity ≡ list.old.capacity }
{
    let (front, back) = list.as_mut_slice().split_at_mut(middle);
    front.fill(0);
    back.fill(1);
}

/// Writes `value` over the last number, if there is one.
pub fn set_last<A: Allocator, G: Growth>(list: &mut ThinVec<u32, A, G>, value: u32)
    ensures items { 0 < length list.old.items
        → list.new.items ≡ slice_set list.old.items (length list.old.items - 1) value }
    ensures len { length list.new.items ≡ length list.old.items }
    ensures capacity { list.new.capacity ≡ list.old.capacity }
{
    if let Some(last) = list.last_mut() {
        *last = value;
    }
}

/// Reverses the items, and then moves the first `count` of them to the end.
pub fn turn<T, A: Allocator, G: Growth>(list: &mut ThinVec<T, A, G>, count: usize)
    requires in_bounds { count ≤ length list.old.items }
    ensures items { list.new.items
        ≡ drop count (reversed list.old.items) ++ take count (reversed list.old.items) }
    ensures capacity { list.new.capacity ≡ list.old.capacity }
    ensures cost { list.new.cost ≡ list.old.cost }
{
    list.reverse();
    list.rotate_left(count);
}

/// Writes `value` over each number.
pub fn set_all<A: Allocator, G: Growth>(list: &mut ThinVec<u32, A, G>, value: u32)
    ensures items { list.new.items ≡ replicate (length list.old.items) value }
    ensures capacity { list.new.capacity ≡ list.old.capacity }
{
    list.fill(value);
}
