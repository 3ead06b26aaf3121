//! Tests of lists whose blocks grow and shrink. Over the allocator of the program, a block whose
//! items take 256 bytes or more can do so in place if an item takes 1, 2, 4, 8 or 16 bytes, and a
//! block of 32 slots or more, which is padded, if its items are larger and aligned to 8. The tests
//! compare items and capacities, which are the same whether or not a block moves, and the number of
//! allocated bytes, so they see which blocks are padded.
use crate::check;
use crate::checks::leaked_ledger;
use std::alloc::Allocator;
use std::process::Abort;
use thin_testing::{Counted, Ledger, Lender, Numbered, block_bytes, least_power};
use thin_vec::{PowerBytes, ThinVec, ThinVecError};

// Pushes items that are made from their indices until the list has `len` items.
fn fill<T: Numbered, A: Allocator>(
    ledger: &'static Ledger,
    list: &mut ThinVec<T, A>,
    len: usize,
) -> Result<(), ThinVecError> {
    for index in list.len()..len {
        list.push(T::numbered(ledger, index as u64))?;
    }
    Ok(())
}

// Asserts the length and the capacity of the list, and that its items are as `fill` makes them.
fn assert_filled<T: Numbered, A: Allocator>(
    rt: &impl Abort,
    ledger: &'static Ledger,
    list: &ThinVec<T, A>,
    wanted: (usize, usize),
) {
    let mut right = 0_usize;
    for item in list.as_slice() {
        if *item == T::numbered(ledger, right as u64) {
            right = right.saturating_add(1);
        }
    }
    let found = (right, list.len(), list.capacity());
    check!(rt; same(found, (wanted.0, wanted.0, wanted.1)));
}

// Changes the capacity of the list with one request.
fn make_capacity<T: Drop, A: Allocator>(
    list: &mut ThinVec<T, A>,
    capacity: usize,
) -> Result<(), ThinVecError> {
    if capacity > list.capacity() {
        list.reserve_exact(capacity.saturating_sub(list.len()))
    } else {
        list.shrink_to(capacity)
    }
}

// Makes a full list of `len` items over the allocator of the program. Changes its capacity to
// `len + more`, `len + 2 * more`, `len + more` and `len`.
fn assert_resized_in_place<T: Numbered>(
    rt: &impl Abort,
    ledger: &'static Ledger,
    len: usize,
    more: usize,
) {
    let mut list: ThinVec<T> = check!(rt; ThinVec::with_capacity(ledger.global, len));
    check!(rt; fill(ledger, &mut list, len));
    let larger = len.saturating_add(more);
    for capacity in [larger, larger.saturating_add(more), larger, len] {
        check!(rt; make_capacity(&mut list, capacity));
        assert_filled(rt, ledger, &list, (len, capacity));
    }
}

// Does the same over an allocator that refuses each request once before it grants it, and asserts
// how many bytes of memory are allocated.
fn assert_resized<T: Numbered>(rt: &impl Abort, ledger: &'static Ledger, len: usize, more: usize) {
    ledger.begin(0);
    let mut list: ThinVec<T, Lender> = check!(rt; ThinVec::with_capacity(&ledger.alloc, len));
    check!(rt; fill(ledger, &mut list, len));
    let larger = len.saturating_add(more);
    for capacity in [larger, larger.saturating_add(more), larger, len] {
        let before = list.capacity();
        ledger.begin(1);
        let refused = make_capacity(&mut list, capacity);
        check!(rt; same(refused, Err(ThinVecError::OutOfMemory)));
        assert_filled(rt, ledger, &list, (len, before));
        check!(rt; make_capacity(&mut list, capacity));
        assert_filled(rt, ledger, &list, (len, capacity));
        check!(rt; same(ledger.alloc.bytes(), block_bytes::<T>(capacity)));
    }
    drop(list);
    check!(rt; same((ledger.alloc.bytes(), ledger.live.get()), (0, 0)));
}

// Tries lists whose items take about 256 bytes, and lists of about 32 items. A block of 42 items of
// 24 or 48 bytes just fits into a power of two of bytes, and is not padded.
fn assert_type<T: Numbered>(rt: &impl Abort, ledger: &'static Ledger) {
    let long = 256_usize.checked_div(T::size()).unwrap_or(0).max(1);
    for len in [1, 30, 31, 32, 33, long, long.saturating_add(1)] {
        for more in [1, 4, 7, 10, 11, 31, 6000] {
            assert_resized::<T>(rt, ledger, len, more);
            assert_resized_in_place::<T>(rt, ledger, len, more);
        }
    }
}

#[test]
fn a_list_of_each_width_grows_and_shrinks_in_place(rt: HostRuntime) {
    let ledger = leaked_ledger(&rt, rt.alloc());
    assert_type::<u8>(&rt, ledger);
    assert_type::<u16>(&rt, ledger);
    assert_type::<i32>(&rt, ledger);
    assert_type::<u64>(&rt, ledger);
    assert_type::<u128>(&rt, ledger);
    assert_type::<[u8; 8]>(&rt, ledger);
    assert_type::<[u8; 16]>(&rt, ledger);
    assert_type::<[u32; 2]>(&rt, ledger);
}

// Items of 20 bytes are large, too, but aligned to 4, so their blocks are not padded.
#[test]
fn a_block_of_large_items_is_padded_from_32_slots_on(rt: HostRuntime) {
    let ledger = leaked_ledger(&rt, rt.alloc());
    assert_type::<[u32; 5]>(&rt, ledger);
    assert_type::<[u64; 3]>(&rt, ledger);
    assert_type::<[u128; 3]>(&rt, ledger);
    assert_type::<[u64; 40]>(&rt, ledger);
    assert_type::<Counted<'static, u64>>(&rt, ledger);
}

// Pushes items onto a list under the growth rule `PowerBytes`. Asserts that its block, which is a
// header of 16 bytes and the slots, leaves no room for another slot in a power of two of bytes.
fn assert_fits_powers<T: Numbered>(rt: &impl Abort, ledger: &'static Ledger) {
    let mut list = ThinVec::<T, Lender, PowerBytes>::ruled(&ledger.alloc);
    for number in 0..1000 {
        check!(rt; list.push(T::numbered(ledger, number)));
        let slots = list.capacity().saturating_mul(T::size());
        let bytes = slots.saturating_add(16);
        let room = least_power(bytes).saturating_sub(bytes);
        let found = (ledger.alloc.bytes(), room < T::size());
        check!(rt; same(found, (bytes as u64, true)));
    }
}

#[test]
fn blocks_of_power_bytes_just_fit_into_powers_of_two(rt: HostRuntime) {
    let ledger = leaked_ledger(&rt, rt.alloc());
    assert_fits_powers::<[u64; 3]>(&rt, ledger);
    assert_fits_powers::<[u128; 3]>(&rt, ledger);
}
