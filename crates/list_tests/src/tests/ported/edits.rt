//! `drain`, `splice`, and the calls that test items.
use crate::check;
use crate::tests::ported::boxes_of;
use std::alloc::{Allocator, Global};
use std::fmt::Debug;
use std::iter::empty;
use std::ops::Bound;
use std::ops::Bound::{Excluded, Included, Unbounded};
use std::process::Abort;
use thin_vec::{Drain, bounds};

type Range = (Bound<usize>, Bound<usize>);

// Drains `range` from a list of `items`, once from the front and once from the back. Asserts which
// items the `Drain` yields, and which items are left.
fn assert_drained<T: Copy + PartialEq + Debug + Drop>(
    rt: &impl Abort,
    alloc: Global,
    items: &[T],
    range: Range,
    drained: &[T],
    left: &[T],
) {
    for is_reverse in [false, true] {
        let mut list = check!(rt; list_of(alloc, items));
        let (start, end) = check!(rt; bounds(range.0, range.1, list.len()));
        assert_yields(rt, &mut list.drain(start, end), is_reverse, drained);
        check!(rt; same_items(&list, left));
        check!(rt; same(list.capacity(), items.len()));
    }
}

// Takes all items from the `Drain`, and asserts that they are those in `wanted`.
fn assert_yields<T: PartialEq + Debug + Drop, A: Allocator>(
    rt: &impl Abort,
    drain: &mut Drain<'_, T, A>,
    is_reverse: bool,
    wanted: &[T],
) {
    check!(rt; same_items(drain.as_slice(), wanted));
    check!(rt; same(drain.size_hint(), (wanted.len(), Some(wanted.len()))));
    let mut items = wanted.iter();
    for _ in 0..wanted.len() {
        if is_reverse {
            check!(rt; same(drain.next_back().as_ref(), items.next_back()));
        } else {
            check!(rt; same(drain.next().as_ref(), items.next()));
        }
    }
    let ended = (drain.len(), drain.next(), drain.next_back());
    check!(rt; same(ended, (0, None, None)));
}

#[test]
fn drain_yields_its_range(rt: HostRuntime) {
    let alloc = rt.alloc();
    let all = (Unbounded, Unbounded);
    assert_drained(&rt, alloc, &[1, 2, 3], all, &[1, 2, 3], &[]);
    let last = (Included(4), Unbounded);
    assert_drained(&rt, alloc, &[1, 2, 3, 4, 5], last, &[5], &[1, 2, 3, 4]);
    let letters = ['a', 'b', 'c', 'd', 'e'];
    let inner = (Included(1), Included(3));
    assert_drained(&rt, alloc, &letters, inner, &['b', 'c', 'd'], &['a', 'e']);
}

#[test]
fn drain_yields_zero_sized_items(rt: HostRuntime) {
    let all = (Unbounded, Unbounded);
    assert_drained(&rt, rt.alloc(), &[(), (), ()], all, &[(), (), ()], &[]);
    let inner = (Included(1), Excluded(4));
    assert_drained(
        &rt,
        rt.alloc(),
        &[(), (), (), (), ()],
        inner,
        &[(), (), ()],
        &[(), ()],
    );
}

// The items of a list, a range, the items in the range, and the others.
type Drained = (
    &'static [&'static str],
    Range,
    &'static [&'static str],
    &'static [&'static str],
);

const DRAINED: [Drained; 5] = [
    (
        &["1", "2", "3", "4", "5"],
        (Included(1), Excluded(4)),
        &["2", "3", "4"],
        &["1", "5"],
    ),
    (
        &["0", "1", "2", "3", "4", "5"],
        (Included(1), Included(5)),
        &["1", "2", "3", "4", "5"],
        &["0"],
    ),
    (
        &["0", "1", "2", "3", "4", "5"],
        (Included(0), Included(5)),
        &["0", "1", "2", "3", "4", "5"],
        &[],
    ),
    (
        &["0", "1", "2", "3", "4", "5"],
        (Included(0), Included(3)),
        &["0", "1", "2", "3"],
        &["4", "5"],
    ),
    (&["0", "1"], (Unbounded, Included(0)), &["0"], &["1"]),
];

#[test]
fn drain_yields_ranges_of_texts(rt: HostRuntime) {
    for (items, range, drained, left) in &DRAINED {
        assert_drained(&rt, rt.alloc(), items, *range, drained, left);
    }
}

#[test]
fn splice_yields_zero_sized_items(rt: HostRuntime) {
    let alloc = rt.alloc();
    let mut list = check!(rt; list_of(alloc, &[(), (), ()]));
    check!(rt; has_len(&list, 3));
    let mut splice = list.splice(1, 2, empty());
    check!(rt; same((splice.next(), splice.next()), (Some(()), None)));
    check!(rt; splice.finish(alloc));
    check!(rt; same(list.len(), 2));
}

#[test]
fn retain_keeps_the_items_tested_true(rt: HostRuntime) {
    let mut list = check!(rt; list_of(rt.alloc(), &[1, 2, 3, 4]));
    list.retain(|item| item % 2 == 0);
    check!(rt; holds(&list, &[2, 4], 4));
}

// A list before and after a call.
type Deduped = (&'static [i32], &'static [i32]);

const SHORT: [Deduped; 3] = [(&[], &[]), (&[1], &[1]), (&[1, 1], &[1])];

// Lists with the numbers 1, 2 and 3 after `dedup`.
const REPEATED: [&'static [i32]; 5] = [
    &[1, 2, 3],
    &[1, 1, 2, 3],
    &[1, 2, 2, 3],
    &[1, 2, 3, 3],
    &[1, 1, 2, 2, 2, 3, 3],
];

#[test]
fn dedup_removes_equal_neighbours(rt: HostRuntime) {
    for (items, wanted) in &SHORT {
        let mut list = check!(rt; list_of(rt.alloc(), items));
        list.dedup();
        check!(rt; holds(&list, wanted, items.len()));
    }
    for items in &REPEATED {
        let mut list = check!(rt; list_of(rt.alloc(), items));
        list.dedup();
        check!(rt; holds(&list, &[1, 2, 3], items.len()));
    }
}

#[test]
fn dedup_compares_boxes_by_their_values(rt: HostRuntime) {
    for (items, wanted) in &SHORT {
        let mut list = check!(rt; boxes_of(rt.alloc(), items));
        list.dedup();
        let wanted = check!(rt; boxes_of(rt.alloc(), wanted));
        check!(rt; same(list.as_slice(), wanted.as_slice()));
    }
    let wanted = check!(rt; boxes_of(rt.alloc(), &[1, 2, 3]));
    for items in &REPEATED {
        let mut list = check!(rt; boxes_of(rt.alloc(), items));
        list.dedup();
        check!(rt; same(list.as_slice(), wanted.as_slice()));
    }
}

const TENS: [Deduped; 8] = [
    (&[], &[]),
    (&[10], &[10]),
    (&[10, 11], &[10]),
    (&[10, 20, 30], &[10, 20, 30]),
    (&[10, 11, 20, 30], &[10, 20, 30]),
    (&[10, 20, 21, 30], &[10, 20, 30]),
    (&[10, 20, 30, 31], &[10, 20, 30]),
    (&[10, 11, 20, 21, 22, 30, 31], &[10, 20, 30]),
];

#[test]
fn dedup_by_key_removes_neighbours_with_equal_keys(rt: HostRuntime) {
    for (items, wanted) in &TENS {
        let mut list = check!(rt; list_of(rt.alloc(), items));
        list.dedup_by_key(|item| *item / 10);
        check!(rt; holds(&list, wanted, items.len()));
    }
}

#[test]
fn dedup_by_removes_neighbours_that_its_closure_equates(rt: HostRuntime) {
    let mut list = check!(rt; list_of(rt.alloc(), &["foo", "bar", "Bar", "baz", "bar"]));
    list.dedup_by(|later, kept| later.eq_ignore_ascii_case(*kept));
    check!(rt; same_items(&list, &["foo", "bar", "baz", "bar"]));
}
