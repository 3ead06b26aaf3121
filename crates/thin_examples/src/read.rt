//! Examples that read, compare and hash lists.
ghost use Rattle.std.specs.Hash as fed;
ghost use Rattle.std.specs.Hash.DefaultHasher as sip;
ghost use Rattle.std.specs.List.{HoldsAt};
ghost use Rattle.std.specs.List.Sorted.{IsPartitionPoint, IsSearchInRange};
ghost use Rattle.std.specs.Ordering.{nat_cmp};
ghost use Rattle.std.specs.Prelude.{◌≡◌, ◌+◌, ◌%◌, ◌<◌, ◌≤◌, ◌==◌, ◌↔◌, IfErr, IfOk, IsSorted, IsTrue, filter, fold, length, slice_get, slice_index, slice_index_or};
ghost use Rattle.thin_vec.specs.ThinVec.{IsBounded};

use std::alloc::Allocator;
use std::hash::{DefaultHasher, Hash, Hasher};
use thin_vec::{Growth, ThinVec};

/// Returns the item at `index` and the item after it. The sum `index + 1` cannot overflow, because
/// it is less than the length of the list. The contract of `as_slice` says that this length is
/// bounded; that of `list[index]` does not.
pub fn neighbors<A: Allocator, G: Growth>(list: &ThinVec<u32, A, G>, index: usize) -> (u32, u32)
    requires in_bounds { index + 1 < length list.now.items }
    ensures first { result.0 ≡ slice_index list.now.items index }
    ensures second { result.1 ≡ slice_index list.now.items (index + 1) }
{
    let items = list.as_slice();
    (items[index], items[index + 1])
}

/// Returns the index directly after the `count` items that begin at the index `start`. No method of
/// the list is called, so the caller has to show by `within` that the sum does not overflow.
pub fn run_end<T, A: Allocator, G: Growth>(
    list: &ThinVec<T, A, G>,
    start: usize,
    count: usize,
) -> usize
    requires in_bounds { start + count ≤ length list.now.items }
    requires within { IsBounded T.row list.now }
    ensures value { result ≡ start + count }
{
    start + count
}

/// Returns the first number, if there is one.
pub fn first_number<A: Allocator, G: Growth>(list: &ThinVec<u32, A, G>) -> Option<u32>
    ensures value { result ≡ slice_get list.now.items 0 }
{
    list.first().copied()
}

/// Returns the number at an index that comes from input, or `otherwise` if it is out of bounds.
pub fn number_at<A: Allocator, G: Growth>(
    list: &ThinVec<u32, A, G>,
    index: usize,
    otherwise: u32,
) -> u32
    ensures value { result ≡ slice_index_or list.now.items index otherwise }
{
    list.get(index).copied().unwrap_or(otherwise)
}

/// Counts the even numbers. The loop is over `list.as_slice()`, so that its invariant can refer to
/// the index of the current number.
pub fn count_even<A: Allocator, G: Growth>(list: &ThinVec<u32, A, G>) -> usize
    ensures value { result ≡ length (filter (λ number. number % 2 == 0) list.now.items) }
{
    let mut count = 0;
    for number in list.as_slice() {
        if *number % 2 == 0 {
            count += 1;
        }
    }
    count
}

/// Returns how many numbers of a sorted list are less than `bound`. They are its first numbers.
pub fn count_below<A: Allocator, G: Growth>(list: &ThinVec<u32, A, G>, bound: u32) -> usize
    requires sorted { IsSorted nat_cmp list.now.items }
    ensures point { IsPartitionPoint
        (λ number. number < bound) (λ number. bound ≤ number) list.now.items result }
    ensures in_bounds { result ≤ length list.now.items }
{
    list.partition_point(|number| *number < bound)
}

/// Returns an index of `number` in a sorted list. If the list does not contain it, returns in `Err`
/// the index at which to insert it.
pub fn find<A: Allocator, G: Growth>(list: &ThinVec<u32, A, G>, number: u32) -> Result<usize, usize>
    requires sorted { IsSorted nat_cmp list.now.items }
    ensures found { IfOk result (HoldsAt (λ item. item ≡ number) list.now.items) }
    ensures absent { IfErr result (IsPartitionPoint
        (λ item. item < number) (λ item. number < item) list.now.items) }
    ensures in_bounds { IsSearchInRange result (length list.now.items) }
{
    list.binary_search(&number)
}

/// Returns whether the lists have the same numbers in the same order. Their capacities do not
/// matter.
pub fn same_numbers<A: Allocator, G: Growth>(
    one: &ThinVec<u32, A, G>,
    other: &ThinVec<u32, A, G>,
) -> bool
    ensures value { IsTrue result ↔ (one.now.items ≡ other.now.items) }
{
    one == other
}

/// Hashes the numbers of the list with std's `DefaultHasher`.
pub fn hash_of<A: Allocator, G: Growth>(list: &ThinVec<u32, A, G>) -> u64
    ensures value { result ≡ sip.finish
        (fold sip.write sip.initial (fed.slice fed.u32 list.now.items)) }
{
    let mut hasher = DefaultHasher::new();
    list.hash(&mut hasher);
    hasher.finish()
}
