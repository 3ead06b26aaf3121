//! Rows about `splice`, and about calls on an empty list.
use crate::bench::checks::Checks;
use crate::bench::reporting::Outcome;
use crate::bench::rows::claiming;
use std::alloc::Allocator;
use std::iter::{empty, once};
use thin_runner::hinted::Hinted;
use thin_vec::{SpliceRefused, ThinVec, ThinVecError, thin_vec};

/// Checks a `splice` with an iterator whose size hint is too large, and a `splice` with an iterator
/// whose size hint is exact.
pub fn row_10<A: Allocator + Copy>(alloc: A) -> Outcome {
    let mut checks = Checks::new();
    let mut list = thin_vec![alloc => 1, 2, 3, 4, 5]?;
    list.splice(2, 4, claiming(alloc, [10, 11, 12], 1000)?)
        .finish(alloc)?;
    checks.holds(&list, &[1, 2, 10, 11, 12, 5], 1005);
    let mut anew = thin_vec![alloc => 1, 2, 3, 4, 5]?;
    anew.splice(2, 4, 10..13).finish(alloc)?;
    checks.holds(&anew, &[1, 2, 10, 11, 12, 5], 10);
    Ok(checks)
}

// Checks the error of a failed call to `finish`, the method that completes a splice. The cause must
// be `CapacityOverflow`. Every item that was taken from the iterator must have been inserted, and
// one item must remain in the iterator.
fn check_refused<A: Allocator>(
    checks: &mut Checks,
    refused: SpliceRefused<i32, Hinted<i32, A>, A>,
) {
    let SpliceRefused {
        cause,
        held,
        in_hand,
        mut rest,
    } = refused;
    checks.same(cause, ThinVecError::CapacityOverflow);
    checks.items(held.as_slice(), &[]);
    checks.same(in_hand, None);
    checks.items(&[rest.next(), rest.next()], &[Some(12), None]);
}

/// Checks that a splice fails if the iterator's size hint is too large for any capacity. Before the
/// failure, the first two new items replace the two items of the range.
pub fn row_11<A: Allocator + Copy>(alloc: A) -> Outcome {
    let mut checks = Checks::new();
    let mut list = thin_vec![alloc => 1, 2, 3, 4, 5]?;
    let items = claiming(alloc, [10, 11, 12], usize::MAX)?;
    match list.splice(2, 4, items).finish(alloc) {
        Ok(()) => checks.is(false),
        Err(refused) => check_refused(&mut checks, refused),
    }
    checks.holds(&list, &[1, 2, 10, 11, 5], 5);
    Ok(checks)
}

// Checks that a `drain` of an empty list yields no item, and that a `splice` with an empty iterator
// leaves the list empty.
fn check_edits_of_nothing<A: Allocator + Copy>(
    checks: &mut Checks,
    alloc: A,
    list: &mut ThinVec<i32, A>,
) -> Result<(), ThinVecError> {
    let mut drain = list.drain(0, 0);
    checks.items(&[drain.next(), drain.next_back()], &[None, None]);
    drop(drain);
    list.splice(0, 0, empty()).finish(alloc)?;
    checks.holds(list, &[], 0);
    Ok(())
}

// Calls `retain` and `dedup_by` on the list, and returns how many times the two methods called
// their closures.
fn count_questions<A: Allocator>(list: &mut ThinVec<i32, A>) -> u32 {
    let mut calls = 0u32;
    list.retain(|_item| {
        calls = calls.wrapping_add(1);
        true
    });
    list.dedup_by(|_later, _kept| {
        calls = calls.wrapping_add(1);
        true
    });
    calls
}

/// Checks that calls on an empty list request no memory and call no closure.
pub fn row_22<A: Allocator + Copy>(alloc: A) -> Outcome {
    let mut checks = Checks::new();
    let mut list = ThinVec::new(alloc);
    checks.is(!list.has_capacity());
    list.shrink_to_fit()?;
    check_edits_of_nothing(&mut checks, alloc, &mut list)?;
    checks.holds(&list.split_off(alloc, 0)?, &[], 0);
    checks.holds(&list.clone(alloc)?, &[], 0);
    checks.same(count_questions(&mut list), 0);
    checks.holds(&list, &[], 0);
    Ok(checks)
}

// Checks a `splice` of a whole list with an empty iterator. The splice yields all items, and the
// list is empty afterwards.
fn check_emptied<A: Allocator + Copy>(checks: &mut Checks, alloc: A) -> Result<(), ThinVecError> {
    let mut list = thin_vec![alloc => 1, 2, 3, 4, 5]?;
    let mut splice = list.splice(0, 5, empty());
    for wanted in 1..6 {
        checks.same(splice.next(), Some(wanted));
    }
    splice.finish(alloc)?;
    checks.holds(&list, &[], 5);
    Ok(())
}

// Checks a `splice` that removes and yields two of five items, and inserts three items in their
// place. Returns the list.
fn check_spliced<A: Allocator + Copy>(
    checks: &mut Checks,
    alloc: A,
) -> Result<ThinVec<i32, A>, ThinVecError> {
    let mut list = thin_vec![alloc => 1, 2, 3, 4, 5]?;
    let mut splice = list.splice(2, 4, 10..13);
    checks.items(&[splice.next(), splice.next_back()], &[Some(3), Some(4)]);
    splice.finish(alloc)?;
    checks.holds(&list, &[1, 2, 10, 11, 12, 5], 10);
    Ok(list)
}

// Checks a second `splice` of `list`, the list that `check_spliced` returned. The second `splice`
// yields an item that the first one, in `check_spliced`, inserted.
fn check_spliced_again<A: Allocator + Copy>(
    checks: &mut Checks,
    alloc: A,
    list: &mut ThinVec<i32, A>,
) -> Result<(), ThinVecError> {
    if list.len() >= 3 {
        let mut again = list.splice(1, 3, once(20));
        checks.items(&[again.next(), again.next()], &[Some(2), Some(10)]);
        again.finish(alloc)?;
    }
    checks.holds(list, &[1, 20, 11, 12, 5], 10);
    Ok(())
}

/// Checks a `splice` of an empty list, two splices of the same list, and a `splice` that empties a
/// list.
pub fn row_32<A: Allocator + Copy>(alloc: A) -> Outcome {
    let mut checks = Checks::new();
    let mut list = ThinVec::new(alloc);
    list.splice(0, 0, 10..13).finish(alloc)?;
    checks.holds(&list, &[10, 11, 12], 4);
    let mut list = check_spliced(&mut checks, alloc)?;
    check_spliced_again(&mut checks, alloc, &mut list)?;
    check_emptied(&mut checks, alloc)?;
    Ok(checks)
}
