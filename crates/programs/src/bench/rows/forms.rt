//! Rows about `thin_vec!` and `bounds`, and about calls that iterate over lists, compare, hash,
//! format or convert them, or use them as a `Write`.
use crate::bench::checks::Checks;
use crate::bench::reporting::Outcome;
use std::alloc::Allocator;
use std::cmp::Ordering;
use std::fmt::Debug;
use std::hash::{DefaultHasher, Hash, Hasher};
use std::io;
use std::io::Write;
use std::ops::Bound;
use thin_vec::{ThinVec, ThinVecError, bounds, thin_vec};

/// Checks `thin_vec!` with a repeated item, with a list of items, and without items.
pub fn row_3<A: Allocator + Copy>(alloc: A) -> Outcome {
    let mut checks = Checks::new();
    let repeated = thin_vec![alloc => 7; 2]?;
    checks.holds(&repeated, &[7, 7], 4);
    let written_out = thin_vec![alloc => 7, 7]?;
    checks.holds(&written_out, &[7, 7], 2);
    checks.is(repeated == written_out);
    let nothing = thin_vec![alloc =>]?;
    checks.holds::<i32, A, _>(&nothing, &[], 0);
    Ok(checks)
}

/// Checks the function `bounds` on a list of five items. `bounds` must return the start and the end
/// of the range that two `Bound`s describe, or `None` if the list has no such range.
pub fn row_18<A: Allocator + Copy>(_alloc: A) -> Outcome {
    let mut checks = Checks::new();
    for (start, end, wanted) in [
        (Bound::Excluded(usize::MAX), Bound::Unbounded, None),
        (Bound::Unbounded, Bound::Included(usize::MAX), None),
        (Bound::Included(5), Bound::Included(5), None),
        (Bound::Included(3), Bound::Excluded(2), None),
        (Bound::Included(1), Bound::Included(3), Some((1, 4))),
        (Bound::Excluded(1), Bound::Excluded(3), Some((2, 3))),
        (Bound::Included(5), Bound::Unbounded, Some((5, 5))),
    ] {
        checks.same(bounds(start, end, 5), wanted);
    }
    Ok(checks)
}

/// Checks that `into_array` gives the list back if the array type is too short for its items. Also
/// checks that the clone of an empty list has no allocation.
pub fn row_20<A: Allocator + Copy>(alloc: A) -> Outcome {
    let mut checks = Checks::new();
    let digits = thin_vec![alloc => 0, 1, 2, 3, 4, 5, 6, 7, 8, 9]?;
    match digits.into_array::<4>() {
        Ok(_first) => checks.is(false),
        Err(list) => checks.holds(&list, &[0, 1, 2, 3, 4, 5, 6, 7, 8, 9], 10),
    }
    let mut list = ThinVec::new(alloc);
    list.push(0)?;
    checks.same(list.pop(), Some(0));
    checks.holds(&list, &[], 4);
    let clone = list.clone(alloc)?;
    checks.holds(&clone, &[], 0);
    checks.is(!clone.has_capacity());
    Ok(checks)
}

/// Checks that the iterator of `into_iter` yields items from both ends, and that a clone of the
/// iterator contains the remaining items.
pub fn row_29<A: Allocator + Copy>(alloc: A) -> Outcome {
    let mut checks = Checks::new();
    let mut items = thin_vec![alloc => 1, 2, 3]?.into_iter();
    checks.items(&[items.next(), items.next_back()], &[Some(1), Some(3)]);
    checks.same(items.len(), 1);
    checks.items(items.clone(alloc)?.as_slice(), &[2]);
    let rest = [items.next(), items.next(), items.next_back()];
    checks.items(&rest, &[Some(2), None, None]);
    Ok(checks)
}

fn hash_of<A: Allocator>(list: &ThinVec<i32, A>) -> u64 {
    let mut hasher = DefaultHasher::new();
    list.hash(&mut hasher);
    hasher.finish()
}

/// Checks that lists are compared and hashed by their items alone, and not by their capacities.
pub fn row_30<A: Allocator + Copy>(alloc: A) -> Outcome {
    let mut checks = Checks::new();
    let list = thin_vec![alloc => 1, 2]?;
    let mut roomy = ThinVec::with_capacity(alloc, 10)?;
    roomy.extend_from_slice(&[1, 2])?;
    checks.is(list == roomy);
    checks.same(hash_of(&list), hash_of(&roomy));
    checks.same(roomy.capacity(), 10);
    let longer = thin_vec![alloc => 1, 2, 0]?;
    checks.same(list.cmp(&longer), Ordering::Less);
    let greater = thin_vec![alloc => 2]?;
    checks.same(greater.cmp(&thin_vec![alloc => 1, 9]?), Ordering::Greater);
    Ok(checks)
}

// Writes to the list `bytes` with `write_all` and `write`, and checks the items of the list and the
// numbers that `write` returns.
fn check_writes<A: Allocator>(checks: &mut Checks, bytes: &mut ThinVec<u8, A>) -> io::Result<()> {
    bytes.write_all(&[3, 4, 5])?;
    checks.holds(bytes, &[1, 2, 3, 4, 5], 5);
    checks.same(bytes.write(&[])?, 0);
    checks.same(bytes.write(&[6])?, 1);
    checks.holds(bytes, &[1, 2, 3, 4, 5, 6], 10);
    Ok(())
}

/// Checks that `write_all` and `write` append bytes.
pub fn row_31<A: Allocator + Copy>(alloc: A) -> Outcome {
    let mut checks = Checks::new();
    let mut bytes = thin_vec![alloc => 1, 2]?;
    match check_writes(&mut checks, &mut bytes) {
        Ok(()) => Ok(checks),
        Err(_refused) => Err(ThinVecError::OutOfMemory),
    }
}

// Formats `value` with `{:?}`, and checks that the result is `text`.
fn check_text<T: Debug, A: Allocator>(
    checks: &mut Checks,
    alloc: A,
    value: &T,
    text: &str,
) -> Result<(), ThinVecError> {
    checks.is(format!(in alloc; "{value:?}")?.as_str() == text);
    Ok(())
}

/// Checks the text that `{:?}` writes for a list, a `Drain` and an `IntoIter`.
pub fn row_35<A: Allocator + Copy>(alloc: A) -> Outcome {
    let mut checks = Checks::new();
    let list = thin_vec![alloc => 1, 2, 3]?;
    check_text(&mut checks, alloc, &list, "[1, 2, 3]")?;
    let mut items = list.into_iter();
    checks.same(items.next(), Some(1));
    check_text(&mut checks, alloc, &items, "IntoIter([2, 3])")?;
    let mut anew = thin_vec![alloc => 1, 2, 3]?;
    check_text(&mut checks, alloc, &anew.drain(1, 2), "Drain([2])")?;
    Ok(checks)
}

/// Checks that `into_vec` keeps the items, and that `from_str` makes a list of the bytes of a text.
pub fn row_36<A: Allocator + Copy>(alloc: A) -> Outcome {
    let mut checks = Checks::new();
    let list = ThinVec::from_array(alloc, [1, 2, 3])?;
    checks.same(list.capacity(), 3);
    checks.items(list.into_vec(alloc)?.as_slice(), &[1, 2, 3]);
    let bytes = ThinVec::from_str(alloc, "123")?;
    checks.holds(&bytes, &[49, 50, 51], 3);
    Ok(checks)
}
