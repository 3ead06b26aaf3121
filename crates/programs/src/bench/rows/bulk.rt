//! Rows about calls that add, move or remove many items at once.
use crate::bench::checks::Checks;
use crate::bench::reporting::Outcome;
use crate::bench::rows::claiming;
use std::alloc::Allocator;
use thin_runner::hinted::Hinted;
use thin_vec::{ExtendRefused, ThinVec, ThinVecError, thin_vec};

/// Checks that `split_off` splits a list in two, that `append` puts the two parts back together,
/// and that `split_off` at the end of a list returns an empty list.
pub fn row_15<A: Allocator + Copy>(alloc: A) -> Outcome {
    let mut checks = Checks::new();
    let mut list = thin_vec![alloc => 1, 2, 3, 4, 5, 6]?;
    let mut tail = list.split_off(alloc, 4)?;
    checks.holds(&list, &[1, 2, 3, 4], 6);
    checks.holds(&tail, &[5, 6], 2);
    list.append(&mut tail)?;
    checks.holds(&list, &[1, 2, 3, 4, 5, 6], 6);
    checks.holds(&tail, &[], 2);
    checks.holds(&list.split_off(alloc, 6)?, &[], 0);
    Ok(checks)
}

/// Extends new lists with iterators of five items each, whose size hints have the lower bounds 0,
/// 3, 5 and 9. Checks the items and the capacity of each list.
pub fn row_24<A: Allocator + Copy>(alloc: A) -> Outcome {
    let mut checks = Checks::new();
    for (lower, capacity) in [(0, 8), (3, 8), (5, 5), (9, 9)] {
        let mut list = ThinVec::new(alloc);
        list.extend(claiming(alloc, [1, 2, 3, 4, 5], lower)?)?;
        checks.holds(&list, &[1, 2, 3, 4, 5], capacity);
    }
    Ok(checks)
}

// Checks the error `refused` of a failed call to `extend`: the cause is `CapacityOverflow`, and the
// iterator in the error still yields its two items.
fn check_refused<A: Allocator>(checks: &mut Checks, refused: ExtendRefused<i32, Hinted<i32, A>>) {
    let ExtendRefused {
        cause,
        in_hand,
        mut rest,
    } = refused;
    checks.same((cause, in_hand), (ThinVecError::CapacityOverflow, None));
    checks.items(
        &[rest.next(), rest.next(), rest.next()],
        &[Some(2), Some(3), None],
    );
}

/// Checks that `extend` fails and takes no item from the iterator if the size hint of the iterator
/// is too large for any capacity.
pub fn row_25<A: Allocator + Copy>(alloc: A) -> Outcome {
    let mut checks = Checks::new();
    let mut list = thin_vec![alloc => 1]?;
    match list.extend(claiming(alloc, [2, 3], usize::MAX)?) {
        Ok(()) => checks.is(false),
        Err(refused) => check_refused(&mut checks, refused),
    }
    checks.holds(&list, &[1], 1);
    Ok(checks)
}

/// Checks that `from_iter` makes a list without spare capacity.
pub fn row_27<A: Allocator + Copy>(alloc: A) -> Outcome {
    let mut checks = Checks::new();
    for count in 0..20 {
        let list = ThinVec::from_iter(alloc, 0..count)?;
        checks.same((list.len(), list.capacity()), (count, count));
    }
    Ok(checks)
}

/// Checks a call to `resize` with a greater length, and a call to `resize` with a smaller length.
pub fn row_28<A: Allocator + Copy>(alloc: A) -> Outcome {
    let mut checks = Checks::new();
    let mut words = thin_vec![alloc => "hello"]?;
    words.resize(3, "world")?;
    checks.holds(&words, &["hello", "world", "world"], 3);
    let mut numbers = thin_vec![alloc => 1, 2, 3, 4]?;
    for item in [0, 9] {
        numbers.resize(2, item)?;
        checks.holds(&numbers, &[1, 2], 4);
    }
    Ok(checks)
}
