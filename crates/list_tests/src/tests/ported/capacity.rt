//! The capacity after each call.
use crate::check;
use crate::checks::leaked_refusing;
use std::alloc::Global;
use std::mem::size_of;
use std::process::Abort;
use thin_testing::Lender;
use thin_vec::{ThinVec, ThinVecError};

#[test]
fn a_list_is_one_pointer_wide(rt: HostRuntime) {
    let width = size_of::<ThinVec<u8, Global>>();
    check!(rt; same(width, size_of::<*const u8>()));
    check!(rt; same(width < size_of::<Vec<u8, Global>>(), true));
}

#[test]
fn clear_keeps_the_capacity(rt: HostRuntime) {
    let mut list = ThinVec::new(rt.alloc());
    list.clear();
    check!(rt; holds(&list, &[], 0));
    for items in &[[1, 2], [3, 4]] {
        check!(rt; list.push(items[0]));
        check!(rt; list.push(items[1]));
        check!(rt; holds(&list, items, 4));
        list.clear();
        check!(rt; holds(&list, &[], 4));
    }
    list.clear();
    check!(rt; holds(&list, &[], 4));
}

// Makes a list of 16 and then of 17 items. Returns the capacity after each of the five steps.
fn reserved(alloc: Global, is_exact: bool) -> Result<[usize; 5], ThinVecError> {
    let mut list = ThinVec::new(alloc);
    let first = reserve(&mut list, 2, is_exact)?;
    for item in 0..16 {
        list.push(item)?;
    }
    let second = list.capacity();
    let third = reserve(&mut list, 16, is_exact)?;
    list.push(16)?;
    let fourth = list.capacity();
    let fifth = reserve(&mut list, 16, is_exact)?;
    Ok([first, second, third, fourth, fifth])
}

// Calls `reserve_exact` if `is_exact` is true, and `reserve` otherwise. Returns the new capacity.
fn reserve(
    list: &mut ThinVec<i32>,
    additional: usize,
    is_exact: bool,
) -> Result<usize, ThinVecError> {
    if is_exact {
        list.reserve_exact(additional)?;
    } else {
        list.reserve(additional)?;
    }
    Ok(list.capacity())
}

#[test]
fn reserve_doubles_and_reserve_exact_does_not(rt: HostRuntime) {
    check!(rt; same(reserved(rt.alloc(), false), Ok([4, 16, 32, 32, 64])));
    check!(rt; same(reserved(rt.alloc(), true), Ok([2, 16, 32, 32, 33])));
}

// Asserts that `with_capacity(capacity)` fails because the capacity is too large.
fn assert_overflows<T: Drop>(rt: &impl Abort, alloc: Lender, capacity: usize) {
    let refused = ThinVec::<T, Lender>::with_capacity(alloc, capacity).err();
    let overflow = Some(ThinVecError::CapacityOverflow);
    check!(rt; same((capacity, refused), (capacity, overflow)));
}

#[test]
fn with_capacity_detects_overflow_before_any_request(rt: HostRuntime) {
    let refusing = leaked_refusing(&rt, rt.alloc(), 0);
    let most = isize::MAX as usize;
    for capacity in [most - 16, most - 2, most, most + 1] {
        assert_overflows::<u8>(&rt, refusing, capacity);
    }
    for capacity in [most / 2 + 1, most + 1] {
        assert_overflows::<u16>(&rt, refusing, capacity);
    }
    check!(rt; same(refusing.requests(), 0));
}

#[test]
fn has_capacity_tells_whether_a_list_has_a_block(rt: HostRuntime) {
    let mut list = ThinVec::new(rt.alloc());
    check!(rt; same(list.has_capacity(), false));
    check!(rt; list.push(0));
    check!(rt; same(list.has_capacity(), true));
    check!(rt; same((list.pop(), list.has_capacity()), (Some(0), true)));
    check!(rt; list.shrink_to_fit());
    check!(rt; same(list.has_capacity(), false));
    check!(rt; list.reserve(64));
    check!(rt; same(list.has_capacity(), true));
    for (capacity, has_block) in [(64, true), (0, false)] {
        let list = check!(rt; ThinVec::<u32>::with_capacity(rt.alloc(), capacity));
        check!(rt; same(list.has_capacity(), has_block));
    }
}

#[test]
fn calls_on_a_new_list_make_no_block(rt: HostRuntime) {
    let alloc = rt.alloc();
    let mut list: ThinVec<i32> = ThinVec::new(alloc);
    check!(rt; same(list.pop(), None));
    list.truncate(1);
    list.truncate(0);
    check!(rt; list.append(&mut ThinVec::new(alloc)));
    check!(rt; list.reserve(0));
    check!(rt; list.reserve_exact(0));
    list.retain_mut(|_item| true);
    list.dedup_by_key(|item| *item);
    check!(rt; holds(&list, &[], 0));
    check!(rt; same(list.into_iter().next(), None));
    let list = check!(rt; ThinVec::with_capacity(alloc, 0));
    check!(rt; holds(&list, &[], 0));
    check!(rt; holds(&ThinVec::default_in(alloc), &[], 0));
}

// `u128` has the largest alignment of all types of Rattle.
#[test]
fn reallocation_keeps_an_item_of_the_largest_alignment(rt: HostRuntime) {
    let mut list = ThinVec::new(rt.alloc());
    check!(rt; list.push(273_u128));
    for additional in 0..4096 {
        check!(rt; list.reserve_exact(additional));
        check!(rt; same(list.as_slice(), &[273]));
        check!(rt; list.shrink_to_fit());
        check!(rt; same(list.as_slice(), &[273]));
    }
}
