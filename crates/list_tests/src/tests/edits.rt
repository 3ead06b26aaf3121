//! Tests of what no contract states of a list that another call edits: one whose `Drain` or
//! `ExtractIf` is passed to a call or forgotten, and one over which a loop iterates.
use crate::check;
use crate::checks::leaked_refusing;
use std::alloc::Global;
use std::mem;
use std::process::Abort;
use thin_vec::ThinVec;

fn assert_collect_removes(rt: &impl Abort, alloc: Global, list: &mut ThinVec<i32>) {
    check!(rt; has_len(list, 6));
    let items: Vec<i32> = check!(rt; list.drain(1, 3).collect(alloc));
    check!(rt; same_items(&items, &[2, 3]));
    check!(rt; same_items(list, &[1, 4, 5, 6]));
}

fn assert_collect_of_rev_removes(rt: &impl Abort, alloc: Global, list: &mut ThinVec<i32>) {
    check!(rt; has_len(list, 4));
    let items: Vec<i32> = check!(rt; list.drain(0, 2).rev().collect(alloc));
    check!(rt; same_items(&items, &[4, 1]));
    check!(rt; same_items(list, &[5, 6]));
}

#[test]
fn collect_removes_the_drained_items(rt: HostRuntime) {
    let mut list = check!(rt; list_of(rt.alloc(), &[1, 2, 3, 4, 5, 6]));
    assert_collect_removes(&rt, rt.alloc(), &mut list);
    assert_collect_of_rev_removes(&rt, rt.alloc(), &mut list);
    check!(rt; has_len(&list, 2));
    let last: ThinVec<i32> = check!(rt; list.drain(1, 2).collect(rt.alloc()));
    check!(rt; same_items(&last, &[6]));
    check!(rt; same_items(&list, &[5]));
}

#[test]
fn collect_removes_the_extracted_items(rt: HostRuntime) {
    let mut list = check!(rt; list_of(rt.alloc(), &[1, 2, 3, 4]));
    check!(rt; has_len(&list, 4));
    let extracted = list.extract_if(0, 4, |x: &mut i32| *x % 2 == 0);
    let even: ThinVec<i32> = check!(rt; extracted.collect(rt.alloc()));
    check!(rt; same_items(&even, &[2, 4]));
    check!(rt; same_items(&list, &[1, 3]));
}

#[test]
fn extend_and_from_iter_remove_the_drained_items(rt: HostRuntime) {
    let mut list = check!(rt; list_of(rt.alloc(), &[1, 2, 3, 4]));
    let mut other = check!(rt; list_of(rt.alloc(), &[9]));
    check!(rt; has_len(&list, 4));
    check!(rt; other.extend(list.drain(1, 3)));
    check!(rt; same_items(&list, &[1, 4]));
    check!(rt; same_items(&other, &[9, 2, 3]));
    check!(rt; has_len(&list, 2));
    let made = check!(rt; ThinVec::from_iter(rt.alloc(), list.drain(0, 1)));
    check!(rt; same_items(&list, &[4]));
    check!(rt; same_items(&made, &[1]));
}

fn assert_extend_removes(rt: &impl Abort, alloc: Global, list: &mut ThinVec<i32>) {
    check!(rt; has_len(list, 6));
    let mut other = check!(rt; list_of(alloc, &[9]));
    check!(rt; other.extend(list.extract_if(1, 5, |x: &mut i32| *x % 2 == 0)));
    check!(rt; same_items(list, &[1, 3, 5, 6]));
    check!(rt; same_items(&other, &[9, 2, 4]));
}

#[test]
fn extend_and_from_iter_remove_the_extracted_items(rt: HostRuntime) {
    let mut list = check!(rt; list_of(rt.alloc(), &[1, 2, 3, 4, 5, 6]));
    assert_extend_removes(&rt, rt.alloc(), &mut list);
    check!(rt; has_len(&list, 4));
    let made =
        check!(rt; ThinVec::from_iter(rt.alloc(), list.extract_if(0, 4, |x: &mut i32| *x > 4)));
    check!(rt; same_items(&list, &[1, 3]));
    check!(rt; same_items(&made, &[5, 6]));
}

#[test]
fn a_refused_extend_removes_the_drained_items(rt: HostRuntime) {
    let mut list = check!(rt; list_of(rt.alloc(), &[1, 2, 3, 4]));
    check!(rt; has_len(&list, 4));
    let mut other = ThinVec::new(leaked_refusing(&rt, rt.alloc(), 1));
    let refused = other.extend(list.drain(1, 3)).is_err();
    check!(rt; same((refused, other.len()), (true, 0)));
    check!(rt; same_items(&list, &[1, 4]));
}

#[test]
fn a_refused_extend_leaves_what_was_not_extracted(rt: HostRuntime) {
    let mut list = check!(rt; list_of(rt.alloc(), &[1, 2, 3, 4]));
    check!(rt; has_len(&list, 4));
    let mut other = ThinVec::new(leaked_refusing(&rt, rt.alloc(), 1));
    let in_hand = match other.extend(list.extract_if(0, 4, |x: &mut i32| *x % 2 == 0)) {
        Ok(()) => None,
        Err(refused) => refused.in_hand,
    };
    check!(rt; same(in_hand, Some(2)));
    check!(rt; same_items(&list, &[1, 3, 4]));
}

// Asserts that the list has no items and no block, and that it can be used.
fn assert_usable(rt: &impl Abort, list: &mut ThinVec<i32>) {
    check!(rt; holds(list, &[], 0));
    check!(rt; list.push(9));
    check!(rt; list.insert(0, 8));
    check!(rt; holds(list, &[8, 9], 4));
    check!(rt; same(list.drain(0, 1).next(), Some(8)));
    check!(rt; holds(list, &[9], 4));
}

#[test]
fn list_is_empty_and_usable_if_its_drain_is_forgotten(rt: HostRuntime) {
    for start in 0..=3 {
        for end in start..=3 {
            let mut list = check!(rt; list_of(rt.alloc(), &[1, 2, 3]));
            check!(rt; has_len(&list, 3));
            mem::forget(list.drain(start, end));
            assert_usable(&rt, &mut list);
        }
    }
}

#[test]
fn list_is_empty_and_usable_if_its_extract_if_is_forgotten(rt: HostRuntime) {
    for calls in 0..=3 {
        let mut list = check!(rt; list_of(rt.alloc(), &[1, 2, 3]));
        check!(rt; has_len(&list, 3));
        let mut extracted = list.extract_if(0, 3, |x: &mut i32| *x % 2 == 1);
        for _ in 0..calls {
            let _item = extracted.next();
        }
        mem::forget(extracted);
        assert_usable(&rt, &mut list);
    }
}

fn forget_begun_drain(rt: &impl Abort, list: &mut ThinVec<i32>) {
    check!(rt; has_len(list, 4));
    let mut drain = list.drain(1, 4);
    check!(rt; same((drain.next(), drain.next_back()), (Some(2), Some(4))));
    mem::forget(drain);
}

#[test]
fn list_is_empty_and_usable_if_a_begun_drain_is_forgotten(rt: HostRuntime) {
    let mut list = check!(rt; list_of(rt.alloc(), &[1, 2, 3, 4]));
    forget_begun_drain(&rt, &mut list);
    assert_usable(&rt, &mut list);
}

#[test]
fn a_loop_writes_to_each_item(rt: HostRuntime) {
    let mut list = check!(rt; list_of(rt.alloc(), &[1_i32, 2, 3]));
    for item in &mut list {
        *item = item.saturating_add(1);
    }
    check!(rt; same_items(&list, &[2, 3, 4]));
}

#[test]
fn a_loop_over_extracted_items_removes_them(rt: HostRuntime) {
    let mut list = check!(rt; list_of(rt.alloc(), &[1, 2, 3]));
    check!(rt; has_len(&list, 3));
    let mut removed = 0_usize;
    for item in list.extract_if(0, 3, |x: &mut i32| *x == 2) {
        check!(rt; same(item, 2));
        removed = removed.saturating_add(1);
    }
    check!(rt; same(removed, 1));
    check!(rt; same_items(&list, &[1, 3]));
}
