//! Rows about `drain`, `extract_if`, `retain_mut`, `dedup_by`, `dedup_by_key` and `dedup`.
use crate::bench::checks::Checks;
use crate::bench::reporting::Outcome;
use std::alloc::Allocator;
use thin_vec::thin_vec;

/// Checks a `Drain` that yields items from both ends, and is dropped before it has yielded all
/// items.
pub fn row_7<A: Allocator + Copy>(alloc: A) -> Outcome {
    let mut checks = Checks::new();
    let mut list = thin_vec![alloc => 1, 2, 3, 4, 5, 6]?;
    let mut drain = list.drain(1, 5);
    checks.items(&[drain.next(), drain.next_back()], &[Some(2), Some(5)]);
    drop(drain);
    checks.holds(&list, &[1, 6], 6);
    Ok(checks)
}

fn is_even(item: i32) -> bool {
    item.wrapping_rem(2) == 0
}

/// Checks an `ExtractIf` that yields one item of a range and is then dropped. The drop must not
/// remove any other item from the list.
pub fn row_8<A: Allocator + Copy>(alloc: A) -> Outcome {
    let mut checks = Checks::new();
    let mut list = thin_vec![alloc => 1, 2, 3, 4, 5, 6]?;
    let mut extract = list.extract_if(1, 5, |item: &mut i32| is_even(*item));
    checks.same(extract.size_hint(), (0, Some(4)));
    checks.same(extract.next(), Some(2));
    checks.same(extract.size_hint(), (0, Some(3)));
    drop(extract);
    checks.holds(&list, &[1, 3, 4, 5, 6], 6);
    Ok(checks)
}

/// Checks an `ExtractIf` whose closure writes to the items that it tests.
pub fn row_9<A: Allocator + Copy>(alloc: A) -> Outcome {
    let mut checks = Checks::new();
    let mut list = thin_vec![alloc => 1, 2, 3, 4]?;
    let mut extract = list.extract_if(0, 4, |item: &mut i32| {
        *item = item.wrapping_add(1);
        *item == 3
    });
    checks.same(extract.size_hint(), (0, Some(4)));
    checks.same(extract.next(), Some(3));
    checks.same(extract.size_hint(), (0, Some(2)));
    drop(extract);
    checks.holds(&list, &[2, 3, 4], 4);
    Ok(checks)
}

/// Checks that `dedup_by` compares each item with the last kept item, and not with the item
/// directly before it.
pub fn row_13<A: Allocator + Copy>(alloc: A) -> Outcome {
    let mut checks = Checks::new();
    let mut list = thin_vec![alloc => 1i32, 2, 3, 5]?;
    list.dedup_by(|later, kept| later.wrapping_sub(*kept) <= 1);
    checks.holds(&list, &[1, 3, 5], 4);
    Ok(checks)
}

// Returns whether `later` and `kept` contain the same word. If so, adds the count of `later` to the
// count of `kept`.
fn add_count(later: &mut (&'static str, i32), kept: &mut (&'static str, i32)) -> bool {
    let same = later.0 == kept.0;
    if same {
        kept.1 = kept.1.wrapping_add(later.1);
    }
    same
}

/// Checks `dedup_by` and `retain_mut` with closures that write to the items.
pub fn row_14<A: Allocator + Copy>(alloc: A) -> Outcome {
    let mut checks = Checks::new();
    let mut counts = thin_vec![
        alloc => ("foo", 1i32), ("foo", 2), ("bar", 3), ("bar", 4), ("bar", 5)
    ]?;
    counts.dedup_by(|later, kept| add_count(later, kept));
    checks.holds(&counts, &[("foo", 3), ("bar", 12)], 5);
    let mut numbers = thin_vec![alloc => 9, 9, 9, 9]?;
    let mut number = 0i32;
    numbers.retain_mut(|item| {
        number = number.wrapping_add(1);
        *item = number;
        number != 4
    });
    checks.holds(&numbers, &[1, 2, 3], 4);
    Ok(checks)
}

/// Checks an `ExtractIf` on which `next` is called until it returns `None`.
pub fn row_33<A: Allocator + Copy>(alloc: A) -> Outcome {
    let mut checks = Checks::new();
    let mut list = thin_vec![alloc => 1, 2, 3, 4, 5, 6, 8, 9, 11, 13, 14, 15]?;
    let mut extract = list.extract_if(0, 12, |item: &mut i32| is_even(*item));
    for wanted in [Some(2), Some(4), Some(6), Some(8), Some(14), None] {
        checks.same(extract.next(), wanted);
    }
    drop(extract);
    checks.holds(&list, &[1, 3, 5, 9, 11, 13, 15], 12);
    Ok(checks)
}

/// Checks `dedup_by_key` and `dedup`, and a call to `pop` after each of them.
pub fn row_34<A: Allocator + Copy>(alloc: A) -> Outcome {
    let mut checks = Checks::new();
    let mut tens = thin_vec![alloc => 10, 20, 21, 30, 20]?;
    tens.dedup_by_key(|item| *item / 10);
    checks.holds(&tens, &[10, 20, 30, 20], 5);
    let mut digits = thin_vec![alloc => 1, 2, 2, 3, 2]?;
    digits.dedup();
    checks.holds(&digits, &[1, 2, 3, 2], 5);
    checks.same(tens.pop(), Some(20));
    checks.same(digits.pop(), Some(2));
    Ok(checks)
}
