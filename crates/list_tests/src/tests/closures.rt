//! Tests of how often and in which order calls ask their closures, and of what a closure leaves in
//! a variable that it borrows.
use crate::check;
use std::alloc::Global;
use std::cell::Cell;
use thin_testing::Refusing;
use thin_vec::ThinVec;

// Appends the two digits of the item to the decimal number in `asked`, and returns the first digit.
fn key(asked: &Cell<u64>, item: i32) -> i32 {
    let digits = u64::try_from(item).unwrap_or(0);
    asked.set(asked.get().wrapping_mul(100).wrapping_add(digits));
    item / 10
}

#[test]
fn dedup_by_key_asks_the_later_item_and_then_the_kept_one(rt: HostRuntime) {
    let (mut list, asked) = (check!(rt; list_of(rt.alloc(), &[10, 11, 20])), Cell::new(0));
    list.dedup_by_key(|item| key(&asked, *item));
    check!(rt; same(asked.get(), 11_10_20_10));
    check!(rt; holds(&list, &[10, 20], 3));
}

// Counts a call, and returns 1.
fn one(calls: &Cell<u32>) -> i32 {
    calls.set(calls.get().wrapping_add(1));
    1
}

#[test]
fn resize_with_calls_no_closure_if_refused(rt: HostRuntime) {
    let (refusing, calls) = (Refusing::new(rt.alloc(), 1), Cell::new(0));
    let mut list: ThinVec<i32, &Refusing<Global>> = ThinVec::new(&refusing);
    let refused = list.resize_with(3, || one(&calls)).is_err();
    check!(rt; same((refused, calls.get()), (true, 0)));
}

#[test]
fn closures_count_their_calls_in_a_variable(rt: HostRuntime) {
    let mut list = check!(rt; list_of(rt.alloc(), &[1, 2, 2, 3]));
    let mut calls: u32 = 0;
    list.retain(|item| {
        calls = calls.wrapping_add(1);
        *item < 9
    });
    check!(rt; same(calls, 4));
    list.dedup_by(|later, kept| {
        calls = calls.wrapping_add(1);
        *later == *kept
    });
    check!(rt; same(calls, 7));
    list.dedup_by_key(|item| {
        calls = calls.wrapping_add(1);
        *item
    });
    check!(rt; same(calls, 11));
    let last = list.pop_if(|item| {
        calls = calls.wrapping_add(1);
        *item == 3
    });
    check!(rt; same((last, calls), (Some(3), 12)));
    let resized = list.resize_with(4, || {
        calls = calls.wrapping_add(1);
        9
    });
    check!(rt; same((resized, calls), (Ok(()), 14)));
    check!(rt; same_items(&list, &[1, 2, 9, 9]));
}

#[test]
fn the_closure_of_a_sort_counts_its_calls_in_a_variable(rt: HostRuntime) {
    let mut list = check!(rt; list_of(rt.alloc(), &[4, 2, 1]));
    let mut calls: u32 = 0;
    check!(rt; list.sort_by_cached_key(|item| {
        calls = calls.wrapping_add(1);
        *item
    }));
    check!(rt; same(calls, 3));
    check!(rt; same_items(&list, &[1, 2, 4]));
}

// Extracts the first item that `pick` chooses.
fn extract_first<F: FnMut(&mut i32) -> bool + Drop>(list: &mut ThinVec<i32>, pick: F) -> Option<i32>
    requires pre { (f : _) (x : _) → F.pre f x }
{
    let mut picked = list.extract_if(0, list.len(), pick);
    picked.next()
}

#[test]
fn the_closure_of_extract_if_counts_its_calls_in_a_variable(rt: HostRuntime) {
    let mut list = check!(rt; list_of(rt.alloc(), &[4, 3, 2, 1]));
    let mut calls: u32 = 0;
    let first = extract_first(&mut list, |item| {
        calls = calls.wrapping_add(1);
        *item % 2 == 1
    });
    check!(rt; same((first, calls), (Some(3), 2)));
    check!(rt; same_items(&list, &[4, 2, 1]));
}
