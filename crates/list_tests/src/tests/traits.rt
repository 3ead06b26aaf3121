//! Tests of a list through the traits of std: `clone_from` and `or_default` with the capacities of
//! their lists, which calls make no request, and the requests and the closures of sorts.
use crate::check;
use crate::checks::{leaked_ledger, leaked_refusing};
use std::alloc::{AllocError, Allocator};
use std::cmp::Ordering;
use std::collections::HashMap;
use std::convert::AsSlice;
use std::hash::{DefaultHasher, Hash};
use std::ops::Bound;
use std::process::Abort;
use thin_testing::{Counted, Ledger, Lender};
use thin_vec::{ThinVec, ThinVecError, bounds};

// Clones `source` into the list at the second try. The request of the first try is refused.
fn clone_at_second_try(
    rt: &impl Abort,
    list: &mut ThinVec<i32, Lender>,
    source: &ThinVec<i32, Lender>,
) {
    check!(rt; same(list.clone_from(source).is_err(), true));
    check!(rt; holds(list, &[7], 9));
    check!(rt; list.clone_from(source));
    check!(rt; holds(list, &[1, 2, 3], 3));
}

// Clones `source`, whose block is of the allocator `other`, and then an empty list into a list
// whose first block is of the allocator `own`.
fn assert_block_replaced(
    rt: &impl Abort,
    own: Lender,
    other: Lender,
    source: &ThinVec<i32, Lender>,
) {
    let mut list = check!(rt; ThinVec::with_capacity(own, 9));
    check!(rt; list.push(7));
    other.refuse(1);
    clone_at_second_try(rt, &mut list, source);
    check!(rt; counts(own, 1, 0));
    check!(rt; counts(other, 2, 2));
    check!(rt; list.clone_from(&ThinVec::new(own)));
    check!(rt; holds(&list, &[], 0));
    check!(rt; counts(other, 2, 1));
}

#[test]
fn clone_from_replaces_the_block(rt: HostRuntime) {
    let own = leaked_refusing(&rt, rt.alloc(), 0);
    let other = leaked_refusing(&rt, rt.alloc(), 0);
    let mut source = check!(rt; list_of(other, &[1, 2, 3]));
    check!(rt; source.reserve(5));
    assert_block_replaced(&rt, own, other, &source);
}

#[test]
fn or_default_makes_a_list_without_a_block(rt: HostRuntime) {
    let lender = leaked_refusing(&rt, rt.alloc(), 0);
    let mut lists = HashMap::new(lender);
    let list: &mut ThinVec<i32, Lender> = check!(rt; lists.entry(1_u32)).or_default();
    check!(rt; same(list.capacity(), 0));
    let requests = lender.requests();
    check!(rt; list.push(10));
    check!(rt; same(lender.requests(), requests.saturating_add(1)));
    let list = check!(rt; lists.entry(1)).or_default();
    check!(rt; holds(list, &[10], 4));
}

fn len_as_slice<S: AsSlice<i32>>(items: &S) -> usize {
    items.as_slice().len()
}

// Writes to the list, which has `len` items, in each way in which a slice is written to.
fn write_as_slice(rt: &impl Abort, list: &mut ThinVec<i32, Lender>, len: usize) {
    check!(rt; has_len(list, len));
    if len > 0 {
        list[len - 1] = list[0];
        list.swap(0, len - 1);
    }
    list.reverse();
    list.rotate_left(len / 2);
    list.rotate_right(len);
    list.sort_unstable();
    let ends = (list.first_mut().is_some(), list.last_mut().is_some());
    let found = (ends, list.get_mut(0).is_some());
    check!(rt; same(found, ((len > 0, len > 0), len > 0)));
    // The calls above are methods of the list. This one is only a method of slices.
    check!(rt; same(list.iter_mut().count(), len));
}

// Counts the items by a loop, or by taking them from the back.
fn count<T: Drop, A: Allocator>(list: ThinVec<T, A>, is_reverse: bool) -> usize {
    if is_reverse {
        return list.into_iter().rev().count();
    }
    let mut count = 0_usize;
    for _item in list {
        count = count.saturating_add(1);
    }
    count
}

#[test]
fn slice_methods_make_no_request(rt: HostRuntime) {
    let refusing = leaked_refusing(&rt, rt.alloc(), 0);
    for len in [0, 1, 9, 300] {
        refusing.refuse(0);
        let mut list = ThinVec::new(refusing);
        check!(rt; list.resize(len, 7));
        let other = check!(rt; list.clone(refusing));
        refusing.refuse_all();
        write_as_slice(&rt, &mut list, len);
        check!(rt; same(bounds(Bound::Included(0), Bound::Unbounded, len), Some((0, len))));
        check!(rt; same((list.iter().count(), len_as_slice(&list)), (len, len)));
        check!(rt; same(list.first(), other.last()));
        list.hash(&mut DefaultHasher::new());
        check!(rt; same((count(list, false), count(other, true)), (len, len)));
        check!(rt; same(refusing.requests(), 0));
    }
}

// Compares two items in a closure that owns a `Counted`.
fn compared(_owned: &Counted<'_>, x: i32, y: i32) -> Ordering {
    x.cmp(&y)
}

// Returns the key of an item in a closure that owns a `Counted`.
fn keyed(_owned: &Counted<'_>, item: i32) -> i32 {
    item
}

// Sorts the list by one of five calls. The number `way`, from 0 to 4, selects the call, whose
// closure owns `owned`. The first three are stable.
fn sort_by_way<A: Allocator>(
    way: u32,
    list: &mut ThinVec<i32, A>,
    owned: Counted<'_>,
) -> Result<(), AllocError> {
    match way {
        0 => return list.sort_by(move |x, y| compared(&owned, *x, *y)),
        1 => return list.sort_by_key(move |x| keyed(&owned, *x)),
        2 => return list.sort_by_cached_key(move |x| keyed(&owned, *x)),
        3 => list.sort_unstable_by(move |x, y| compared(&owned, *x, *y)),
        _ => list.sort_unstable_by_key(move |x| keyed(&owned, *x)),
    }
    Ok(())
}

// Makes a list of two runs, since a list that is one run, rising or falling, is sorted without
// memory.
fn two_runs(lender: Lender, first: i32, second: i32) -> Result<ThinVec<i32, Lender>, ThinVecError> {
    let mut list = ThinVec::new(lender);
    list.extend(0..first)?;
    list.extend(0..second)?;
    Ok(list)
}

// Sorts the list while its allocator refuses request number `refused`, or none if that is 0.
// Asserts that the call makes `requests` requests, that it fails only if one is refused, and that
// the closure is dropped.
fn assert_sort(
    rt: &impl Abort,
    ledger: &'static Ledger,
    list: &mut ThinVec<i32, Lender>,
    way: u32,
    (refused, requests): (u64, u64),
) {
    ledger.begin(refused);
    let owned = Counted::new(ledger, 7, ());
    let is_ok = sort_by_way(way, list, owned).is_ok();
    let found = (is_ok, ledger.alloc.requests(), ledger.live.get());
    let is_due = refused == 0 || requests == 0;
    check!(rt; same((way, found), (way, (is_due, requests, 0))));
    check!(rt; same((ledger.alloc.blocks(), list.is_sorted()), (1, is_due)));
}

#[test]
fn sorts_request_memory_only_if_they_need_it_and_drop_their_closures(rt: HostRuntime) {
    let ledger = leaked_ledger(&rt, rt.alloc());
    for (way, first, second, requests) in [
        (0, 5, 15, 0),
        (0, 20, 10, 1),
        (1, 5, 15, 0),
        (1, 20, 10, 1),
        (2, 2, 1, 2),
        (2, 20, 10, 3),
        (3, 20, 10, 0),
        (4, 20, 10, 0),
        (0, 3000, 1000, 1),
        (1, 3000, 1000, 1),
        (2, 3000, 1000, 3),
        (3, 3000, 1000, 0),
        (4, 3000, 1000, 0),
    ] {
        let mut list = check!(rt; two_runs(&ledger.alloc, first, second));
        assert_sort(&rt, ledger, &mut list, way, (1, requests.min(1)));
        assert_sort(&rt, ledger, &mut list, way, (0, requests));
    }
}

#[test]
fn sort_requests_memory_for_more_than_twenty_items(rt: HostRuntime) {
    let refusing = leaked_refusing(&rt, rt.alloc(), 0);
    for (second, requests) in [(10, 0), (11, 1), (3990, 1)] {
        let mut list = check!(rt; two_runs(refusing, 10, second));
        refusing.refuse(0);
        check!(rt; list.sort());
        check!(rt; same((second, refusing.requests(), list.is_sorted()), (second, requests, true)));
    }
}
