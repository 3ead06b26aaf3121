//! Examples that remove items from a list.
ghost use Rattle.std.specs.List.{dedup, fold, remove};
ghost use Rattle.std.specs.List.Sorted.{IsSorted, IsStrictlyIncreasing};
ghost use Rattle.std.specs.Ordering.{nat_cmp};
ghost use Rattle.std.specs.Prelude.{◌≡◌, ◌+◌, ◌%◌, ◌/◌, ◌==◌, ◌++◌, [], ◌∷◌, IfNone, IfSome, OnSome, filter, length, map, min, nat_le, slice_get};
ghost use Rattle.thin_examples.specs.EverySecond.{every_second};

use std::alloc::Allocator;
use thin_vec::{Growth, ThinVec};

/// Keeps the even numbers.
pub fn keep_even<A: Allocator, G: Growth>(list: &mut ThinVec<u32, A, G>)
    ensures items { list.new.items ≡ filter (λ number. number % 2 == 0) list.old.items }
    ensures capacity { list.new.capacity ≡ list.old.capacity }
{
    list.retain(|number| number % 2 == 0);
}

/// Keeps the even numbers, and returns how many numbers were removed. This is the old length less
/// the new length. (A closure could count them in a variable, but no contract would say so.)
pub fn remove_odd<A: Allocator, G: Growth>(list: &mut ThinVec<u32, A, G>) -> usize
    ensures items { list.new.items ≡ filter (λ number. number % 2 == 0) list.old.items }
    ensures removed { result + length list.new.items ≡ length list.old.items }
{
    let before = list.len();
    list.retain(|number| number % 2 == 0);
    before - list.len()
}

/// Keeps the numbers that are at least `limit`, and returns how many the closure has removed. It
/// reads `limit` and changes `removed`. (No contract says what is in `removed`.)
pub fn keep_at_least<A: Allocator, G: Growth>(list: &mut ThinVec<u32, A, G>, limit: u32) -> usize
    ensures items { list.new.items ≡ filter (λ number. nat_le limit number) list.old.items }
{
    let mut removed: usize = 0;
    list.retain(|number| {
        let keep = *number >= limit;
        if !keep {
            removed = removed.saturating_add(1);
        }
        keep
    });
    removed
}

/// Keeps the first item, the third, the fifth, and so on. The closure has a state: it remembers
/// whether it kept the item before.
pub fn keep_every_second<T: Drop, A: Allocator, G: Growth>(list: &mut ThinVec<T, A, G>)
    ensures items { list.new.items ≡ every_second list.old.items }
    ensures capacity { list.new.capacity ≡ list.old.capacity }
{
    let mut keep = false;
    list.retain(move |_item: &T| {
        keep = !keep;
        keep
    });
}

/// Removes the repeated numbers of a sorted list. Afterwards, each number is less than the next.
pub fn keep_distinct<A: Allocator, G: Growth>(list: &mut ThinVec<u32, A, G>)
    requires sorted { IsSorted nat_cmp list.old.items }
    ensures distinct { IsStrictlyIncreasing list.new.items }
    ensures capacity { list.new.capacity ≡ list.old.capacity }
{
    list.dedup();
}

/// Of adjacent numbers with the same value of `number / 10`, keeps only the first. For example,
/// 12, 17, 23 becomes 12, 23.
pub fn keep_tens<A: Allocator, G: Growth>(list: &mut ThinVec<u32, A, G>)
    ensures items { list.new.items ≡ dedup (λ later kept. later / 10 == kept / 10) list.old.items }
    ensures capacity { list.new.capacity ≡ list.old.capacity }
{
    list.dedup_by_key(|number: &mut u32| *number / 10);
}

/// Of adjacent numbers with the same last digit, keeps only the first.
pub fn keep_last_digits<A: Allocator, G: Growth>(list: &mut ThinVec<u32, A, G>)
    ensures items { list.new.items ≡ dedup (λ later kept. later % 10 == kept % 10) list.old.items }
    ensures capacity { list.new.capacity ≡ list.old.capacity }
{
    list.dedup_by(|later: &mut u32, kept: &mut u32| *later % 10 == *kept % 10);
}

/// Halves each number, rounding down, and of adjacent equal results keeps only the first.
///
/// The closure is never called with the first number as `later`, so this number is halved before.
pub fn keep_halves<A: Allocator, G: Growth>(list: &mut ThinVec<u32, A, G>)
    ensures items { list.new.items
        ≡ dedup (λ later kept. later == kept) (map (λ number. number / 2) list.old.items) }
    ensures capacity { list.new.capacity ≡ list.old.capacity }
{
    if list.is_empty() {
        return;
    }
    list[0] /= 2;
    list.dedup_by(|later: &mut u32, kept: &mut u32| {
        *later /= 2;
        *later == *kept
    });
}

/// Removes and returns the last number if it is even. Otherwise, returns `None`.
pub fn pop_even<A: Allocator, G: Growth>(list: &mut ThinVec<u32, A, G>) -> Option<u32>
    ensures popped { IfSome result (λ number. list.old.items ≡ list.new.items ++ number ∷ []) }
    ensures kept { IfNone result (list.new.items ≡ list.old.items) }
    ensures capacity { list.new.capacity ≡ list.old.capacity }
{
    list.pop_if(|number: &mut u32| *number % 2 == 0)
}

/// Removes and returns the item at an index that comes from input, if there is one.
pub fn remove_at<T, A: Allocator, G: Growth>(list: &mut ThinVec<T, A, G>, index: usize) -> Option<T>
    ensures found { result ≡ slice_get list.old.items index }
    ensures items { OnSome result (list.new.items ≡ remove list.old.items index) }
    ensures unchanged { IfNone result (list.new ≡ list.old) }
{
    list.try_remove(index)
}

/// Consumes the list, and returns the minimum of `start` and all its numbers.
pub fn least<A: Allocator, G: Growth>(list: ThinVec<u32, A, G>, start: u32) -> u32
    ensures value { result ≡ fold min start list.items }
{
    let mut least = start;
    for number in list {
        least = least.min(number);
    }
    least
}

/// Consumes an empty list. The item type need not be `Drop`.
pub fn consume_empty<T, A: Allocator, G: Growth>(list: ThinVec<T, A, G>)
    requires empty { list.items ≡ [] }
{
    match list.into_array::<0>() {
        Ok([]) => (),
        Err(_left) => unreachable!(),
    }
}
