//! Tests of `splice`: what the list has after `finish`, and what a refused `finish` returns.
ghost use Rattle.std.specs.Prelude.{◌≤◌, length};

use crate::check;
use crate::checks::leaked_refusing;
use std::process::Abort;
use thin_runner::hinted::Hinted;
use thin_testing::{Lender, splice};
use thin_vec::{SpliceRefused, ThinVecError};

const NEW: [i32; 5] = [10, 11, 12, 13, 14];

// Some of the items of `NEW`, the lower bound of the size hint, the items and the capacity after
// `finish`, and the number of requests. The first request is for the list itself.
const FINISHED: [(&'static [i32], usize, &'static [i32], usize, u64); 9] = [
    (&[], 0, &[1, 2, 5], 5, 1),
    (&[10], 1, &[1, 2, 10, 5], 5, 1),
    (&[10], usize::MAX, &[1, 2, 10, 5], 5, 1),
    (&[10, 11], 0, &[1, 2, 10, 11, 5], 5, 1),
    (&[10, 11, 12], 0, &[1, 2, 10, 11, 12, 5], 10, 3),
    (&[10, 11, 12], 1, &[1, 2, 10, 11, 12, 5], 10, 2),
    (&[10, 11, 12], 1000, &[1, 2, 10, 11, 12, 5], 1005, 2),
    (&NEW, 1, &[1, 2, 10, 11, 12, 13, 14, 5], 10, 3),
    (&NEW, 3, &[1, 2, 10, 11, 12, 13, 14, 5], 10, 2),
];

#[test]
fn finish_inserts_the_items(rt: HostRuntime) {
    for &(new, lower, items, capacity, requests) in &FINISHED {
        let refusing = leaked_refusing(&rt, rt.alloc(), 0);
        let mut list = check!(rt; list_of(refusing, &[1, 2, 3, 4, 5]));
        check!(rt; has_len(&list, 5));
        let iter = Hinted::new(check!(rt; new.to_vec(rt.alloc())), lower);
        check!(rt; splice(&mut list, (2, 4), iter, refusing));
        check!(rt; holds(&list, items, capacity));
        check!(rt; counts(refusing, requests, 1));
    }
}

// What a refused `finish` leaves and returns.
#[derive(Clone, Copy)]
struct Left {
    cause: ThinVecError,
    items: &'static [i32],
    capacity: usize,
    held: &'static [i32],
    in_hand: Option<i32>,
    rest: &'static [i32],
}

// Replaces the items `range.0..range.1` of a list of `old` by those of `iter`, and asserts what the
// refused `finish` leaves and returns.
fn assert_refused(
    rt: &impl Abort,
    lender: Lender,
    old: &[i32],
    range: (usize, usize),
    iter: Hinted<i32>,
    left: Left,
)
    requires start_le_end { range.0 ≤ range.1 }
    requires in_bounds { range.1 ≤ length old.now }
{
    let mut list = check!(rt; list_of(lender, old));
    let SpliceRefused {
        cause,
        held,
        in_hand,
        mut rest,
    } = check!(rt; splice(&mut list, range, iter, lender).err());
    check!(rt; holds(&list, left.items, left.capacity));
    check!(rt; same((cause, in_hand), (left.cause, left.in_hand)));
    check!(rt; same_items(held.as_slice(), left.held));
    for item in left.rest {
        check!(rt; same(rest.next(), Some(*item)));
    }
    check!(rt; same(rest.next(), None));
}

const OUT_OF_MEMORY: ThinVecError = ThinVecError::OutOfMemory;

// The lower bound of the size hint, the number of the refused request, and what is left. The first
// request is for the list itself.
const REFUSED: [(usize, u64, Left); 4] = [
    // The list grows for the lower bound.
    (
        1,
        2,
        Left {
            cause: OUT_OF_MEMORY,
            items: &[1, 2, 10, 11, 5],
            capacity: 5,
            held: &[],
            in_hand: None,
            rest: &[12, 13, 14],
        },
    ),
    // The list has grown, and 13 is held back.
    (
        1,
        3,
        Left {
            cause: OUT_OF_MEMORY,
            items: &[1, 2, 10, 11, 12, 5],
            capacity: 10,
            held: &[],
            in_hand: Some(13),
            rest: &[14],
        },
    ),
    // 12 is held back.
    (
        0,
        2,
        Left {
            cause: OUT_OF_MEMORY,
            items: &[1, 2, 10, 11, 5],
            capacity: 5,
            held: &[],
            in_hand: Some(12),
            rest: &[13, 14],
        },
    ),
    // The list grows for the items held back.
    (
        0,
        3,
        Left {
            cause: OUT_OF_MEMORY,
            items: &[1, 2, 10, 11, 5],
            capacity: 5,
            held: &[12, 13, 14],
            in_hand: None,
            rest: &[],
        },
    ),
];

#[test]
fn finish_returns_each_item_if_a_growth_is_refused(rt: HostRuntime) {
    for &(lower, request, left) in &REFUSED {
        let lender = leaked_refusing(&rt, rt.alloc(), request);
        let iter = Hinted::new(check!(rt; NEW.to_vec(rt.alloc())), lower);
        assert_refused(&rt, lender, &[1, 2, 3, 4, 5], (2, 4), iter, left);
        check!(rt; counts(lender, request, 0));
    }
}

#[test]
fn finish_does_not_ask_for_the_hint_before_the_range_is_full(rt: HostRuntime) {
    let mut list = check!(rt; list_of(rt.alloc(), &[1, 2, 3]));
    check!(rt; has_len(&list, 3));
    let iter = Hinted::new(check!(rt; [9].to_vec(rt.alloc())), usize::MAX);
    check!(rt; splice(&mut list, (0, 2), iter, rt.alloc()));
    check!(rt; holds(&list, &[9, 3], 3));
}

// Returns what is left if the hint is too great for any capacity.
fn overflow(items: &'static [i32], capacity: usize) -> Left {
    Left {
        cause: ThinVecError::CapacityOverflow,
        items,
        capacity,
        held: &[],
        in_hand: None,
        rest: &[],
    }
}

#[test]
fn finish_overflows_by_the_hint_if_the_range_is_full(rt: HostRuntime) {
    let lender = leaked_refusing(&rt, rt.alloc(), 0);
    let nine = Hinted::new(check!(rt; [9].to_vec(rt.alloc())), usize::MAX);
    assert_refused(
        &rt,
        lender,
        &[1, 2, 3],
        (0, 1),
        nine,
        overflow(&[9, 2, 3], 3),
    );
    let nothing = Hinted::new(Vec::new(rt.alloc()), usize::MAX);
    assert_refused(&rt, lender, &[], (0, 0), nothing, overflow(&[], 0));
}
