//! Tests of `thin_vec!`: in which order it evaluates its arguments, that it evaluates no item if
//! the memory is refused, how many requests it makes, and what it drops.
use crate::check;
use crate::checks::{leaked_ledger, leaked_refusing};
use std::cell::Cell;
use std::process::Abort;
use thin_testing::{Counted, Refusing};
use thin_vec::{ThinVec, ThinVecError, thin_vec};

// Returns `value`, and appends `digit` to the decimal number in `order`.
fn note<V>(order: &Cell<u32>, digit: u32, value: V) -> V {
    order.set(order.get().wrapping_mul(10).wrapping_add(digit));
    value
}

// Asserts which list a call has made, and in which order it has evaluated its arguments.
fn assert_made(
    rt: &impl Abort,
    order: &Cell<u32>,
    list: ThinVec<i32>,
    (items, capacity): (&[i32], usize),
    digits: u32,
) {
    check!(rt; holds(&list, items, capacity));
    check!(rt; same(order.take(), digits));
}

#[test]
fn evaluates_each_argument_once_and_in_order(rt: HostRuntime) {
    let (alloc, order) = (rt.alloc(), Cell::new(0));
    let list =
        check!(rt; thin_vec![note(&order, 1, alloc) => note(&order, 2, 7), note(&order, 3, 8),]);
    assert_made(&rt, &order, list, (&[7, 8], 2), 123);
    let list =
        check!(rt; thin_vec![note(&order, 1, alloc) => note(&order, 2, 7); note(&order, 3, 2)]);
    assert_made(&rt, &order, list, (&[7, 7], 4), 123);
    let list = check!(rt; thin_vec![note(&order, 1, alloc) =>]);
    assert_made(&rt, &order, list, (&[], 0), 1);
    let list = check!(rt; thin_vec![in note(&order, 1, alloc); note(&order, 2, 7),]);
    assert_made(&rt, &order, list, (&[7], 1), 12);
}

#[test]
fn lists_of_1_and_12_items_need_one_request(rt: HostRuntime) {
    let (one, seven) = (1, 7);
    let refusing = leaked_refusing(&rt, rt.alloc(), 2);
    let list = check!(rt; thin_vec![refusing => seven]);
    check!(rt; holds(&list, &[7], 1));
    refusing.refuse(2);
    let list = check!(rt; thin_vec![in refusing; one, 2, 3, 4, 5, 6, 7, 8, 9, 10, 11, 12]);
    check!(rt; holds(&list, &[1, 2, 3, 4, 5, 6, 7, 8, 9, 10, 11, 12], 12));
}

#[test]
fn lists_of_1_and_200_literals_need_one_request(rt: HostRuntime) {
    let refusing = leaked_refusing(&rt, rt.alloc(), 2);
    let list = check!(rt; thin_vec![refusing => -7]);
    check!(rt; holds(&list, &[-7], 1));
    drop(list);
    refusing.refuse(2);
    let list = check!(rt; thin_vec![refusing =>
        0, 1, 2, 3, 4, 5, 6, 7, 8, 9, 10, 11, 12, 13, 14, 15, 16, 17, 18, 19, 20, 21, 22, 23, 24,
        25, 26, 27, 28, 29, 30, 31, 32, 33, 34, 35, 36, 37, 38, 39, 40, 41, 42, 43, 44, 45, 46, 47,
        48, 49, 50, 51, 52, 53, 54, 55, 56, 57, 58, 59, 60, 61, 62, 63, 64, 65, 66, 67, 68, 69, 70,
        71, 72, 73, 74, 75, 76, 77, 78, 79, 80, 81, 82, 83, 84, 85, 86, 87, 88, 89, 90, 91, 92, 93,
        94, 95, 96, 97, 98, 99, 100, 101, 102, 103, 104, 105, 106, 107, 108, 109, 110, 111, 112,
        113, 114, 115, 116, 117, 118, 119, 120, 121, 122, 123, 124, 125, 126, 127, 128, 129, 130,
        131, 132, 133, 134, 135, 136, 137, 138, 139, 140, 141, 142, 143, 144, 145, 146, 147, 148,
        149, 150, 151, 152, 153, 154, 155, 156, 157, 158, 159, 160, 161, 162, 163, 164, 165, 166,
        167, 168, 169, 170, 171, 172, 173, 174, 175, 176, 177, 178, 179, 180, 181, 182, 183, 184,
        185, 186, 187, 188, 189, 190, 191, 192, 193, 194, 195, 196, 197, 198, 199,
    ]);
    let items: Vec<i32> = check!(rt; (0..200).collect(rt.alloc()));
    check!(rt; holds(&list, items.as_slice(), 200));
    refusing.refuse(1);
    let refused = thin_vec![in refusing; 1, 2, 3,].err();
    check!(rt; same(refused, Some(ThinVecError::OutOfMemory)));
    check!(rt; counts(refusing, 1, 1));
}

#[test]
fn evaluates_no_item_if_refused(rt: HostRuntime) {
    let (refusing, order) = (Refusing::new(rt.alloc(), 1), Cell::new(0));
    let refused = thin_vec![&refusing => note(&order, 1, 7), note(&order, 2, 8)].err();
    check!(rt; same((refused, order.get()), (Some(ThinVecError::OutOfMemory), 0)));
    check!(rt; counts(&refusing, 1, 0));
    refusing.refuse(1);
    let refused = thin_vec![in &refusing; note(&order, 1, 7), note(&order, 2, 8)].err();
    check!(rt; same((refused, order.get()), (Some(ThinVecError::OutOfMemory), 0)));
    check!(rt; counts(&refusing, 1, 0));
}

#[test]
fn drops_the_repeated_value_if_the_capacity_overflows(rt: HostRuntime) {
    let ledger = leaked_ledger(&rt, rt.alloc());
    for form in 0..2 {
        let value = Counted::new(ledger, 7, ());
        let refused = if form == 0 {
            thin_vec![rt.alloc() => value; usize::MAX].err()
        } else {
            thin_vec![in rt.alloc(); value; usize::MAX].err()
        };
        let overflow = Some(ThinVecError::CapacityOverflow);
        check!(rt; same((refused, ledger.live.get()), (overflow, 0)));
    }
}
