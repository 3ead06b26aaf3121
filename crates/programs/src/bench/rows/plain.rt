//! Rows about capacities, items of size zero, the growth rule `PowerBytes`, and calls that add or
//! remove a single item.
use crate::bench::checks::Checks;
use crate::bench::reporting::Outcome;
use std::alloc::Allocator;
use thin_vec::{PowerBytes, ThinVec, ThinVecError, thin_vec};

/// Checks that the capacity of a new list is 0, and is still 0 after a call to `pop`.
pub fn row_1<A: Allocator + Copy>(alloc: A) -> Outcome {
    let mut checks = Checks::new();
    let mut list: ThinVec<i32, A> = ThinVec::new(alloc);
    checks.same(list.len(), 0);
    checks.holds(&list, &[], 0);
    checks.same(list.pop(), None);
    checks.same(list.capacity(), 0);
    Ok(checks)
}

/// Calls `reserve(1)`, `reserve(10)` and `reserve_exact(1)`, each on a new list of three items.
/// Checks the capacity of the list after each call.
pub fn row_4<A: Allocator + Copy>(alloc: A) -> Outcome {
    let mut checks = Checks::new();
    for (additional, is_exact, capacity) in [(1, false, 6), (10, false, 13), (1, true, 4)] {
        let mut list = thin_vec![alloc => 1, 2, 3]?;
        if is_exact {
            list.reserve_exact(additional)?;
        } else {
            list.reserve(additional)?;
        }
        checks.same(list.capacity(), capacity);
    }
    Ok(checks)
}

/// Checks an `insert` in the middle of a full list, and then an `insert` at the end.
pub fn row_5<A: Allocator + Copy>(alloc: A) -> Outcome {
    let mut checks = Checks::new();
    let mut list = thin_vec![alloc => 1, 2, 3]?;
    list.insert(1, 4)?;
    list.insert(4, 5)?;
    checks.holds(&list, &[1, 4, 2, 3, 5], 6);
    Ok(checks)
}

/// Checks `swap_remove` in the middle of a list and at the front of a list.
pub fn row_6<A: Allocator + Copy>(alloc: A) -> Outcome {
    let mut checks = Checks::new();
    let mut list = thin_vec![alloc => "foo", "bar", "baz", "qux"]?;
    checks.same(list.swap_remove(1), "bar");
    checks.holds(&list, &["foo", "qux", "baz"], 4);
    checks.same(list.swap_remove(0), "foo");
    checks.holds(&list, &["baz", "qux"], 4);
    Ok(checks)
}

/// Checks that `reserve` and `with_capacity` return `CapacityOverflow` if the list would need a
/// capacity that is too large for any allocation.
pub fn row_17<A: Allocator + Copy>(alloc: A) -> Outcome {
    let mut checks = Checks::new();
    let overflow = Some(ThinVecError::CapacityOverflow);
    let mut list = thin_vec![alloc => 1]?;
    checks.same(list.reserve(usize::MAX).err(), overflow);
    checks.holds(&list, &[1], 1);
    let bytes = ThinVec::<u8, A>::with_capacity(alloc, isize::MAX as usize - 16);
    checks.same(bytes.err(), overflow);
    let words = ThinVec::<u16, A>::with_capacity(alloc, isize::MAX as usize / 2 + 1);
    checks.same(words.err(), overflow);
    Ok(checks)
}

/// Checks a list of items of size zero.
pub fn row_19<A: Allocator + Copy>(alloc: A) -> Outcome {
    let mut checks = Checks::new();
    let mut list = ThinVec::new(alloc);
    for _ in 0..3 {
        list.push(())?;
    }
    checks.holds(&list, &[(), (), ()], 4);
    if !list.is_empty() {
        list.insert(1, ())?;
    }
    checks.holds(&list, &[(), (), (), ()], 4);
    checks.same(list.pop(), Some(()));
    Ok(checks)
}

/// Checks the first three capacities that `PowerBytes` chooses for a list of `u32`.
pub fn row_21<A: Allocator + Copy>(alloc: A) -> Outcome {
    let mut checks = Checks::new();
    let mut list: ThinVec<u32, A, PowerBytes> = ThinVec::ruled(alloc);
    for capacity in [4, 12, 28] {
        for _ in list.len()..capacity {
            list.push(7)?;
            checks.same(list.capacity(), capacity);
        }
    }
    checks.same(list.len(), 28);
    Ok(checks)
}

/// Checks that neither `clear` nor a push into reserved room changes the capacity, and that
/// `shrink_to_fit` reduces the capacity to the length.
pub fn row_23<A: Allocator + Copy>(alloc: A) -> Outcome {
    let mut checks = Checks::new();
    let mut list = ThinVec::with_capacity(alloc, 10)?;
    for item in 1..4 {
        list.push(item)?;
    }
    checks.holds(&list, &[1, 2, 3], 10);
    checks.is(list.has_capacity());
    list.shrink_to_fit()?;
    checks.holds(&list, &[1, 2, 3], 3);
    list.clear();
    checks.holds(&list, &[], 3);
    checks.is(list.has_capacity());
    list.shrink_to_fit()?;
    checks.same(list.capacity(), 0);
    checks.is(!list.has_capacity());
    Ok(checks)
}
