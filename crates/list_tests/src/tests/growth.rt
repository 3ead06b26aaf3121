//! Tests of the growth rules: the largest capacities, and the capacities that `PowerBytes` chooses.
//! The expected numbers were computed by hand.
ghost use Rattle.std.specs.Prelude.{◌≡◌, IsTrue, IsFalse, ◌^◌, ◌-◌, ◌+◌};
ghost use Rattle.thin_block.specs.Capacity.{items_offset, fits as fits_at};

use crate::check;
use std::alloc::Global;
use std::process::Abort;
use thin_block::{Growth, PowerBytes, first_capacity, fits, next_capacity};
use thin_vec::ThinVec;

#[test]
fn fits_accepts_capacities_up_to_the_greatest(rt: HostRuntime) {
    for &(fitting, past) in &[
        (fits::<u8>((1 << 63) - 24), fits::<u8>((1 << 63) - 23)),
        (fits::<u16>((1 << 62) - 12), fits::<u16>((1 << 62) - 11)),
        (fits::<u32>((1 << 61) - 6), fits::<u32>((1 << 61) - 5)),
        (fits::<u64>((1 << 60) - 3), fits::<u64>((1 << 60) - 2)),
        (fits::<()>((1 << 63) - 1), fits::<()>(1 << 63)),
    ] {
        check!(rt; same((fitting, past), (true, false)));
    }
}

#[test]
fn next_capacity_follows_doubling(rt: HostRuntime) {
    check!(rt; same(first_capacity::<u8>(), 4));
    for &(cap, want, next) in &[(0, 1, 4), (3, 4, 6), (3, 13, 13), (4, 4, 4)] {
        let answer = (cap, want, next_capacity::<i32>(cap, want));
        check!(rt; same(answer, (cap, want, Some(next))));
    }
    let last = [
        next_capacity::<u8>((1 << 62) - 12, (1 << 62) - 11),
        next_capacity::<u8>(1 << 62, (1 << 62) + 1),
        next_capacity::<()>(1 << 62, (1 << 62) + 1),
    ];
    check!(rt; same(last, [Some((1 << 63) - 24), None, None]));
}

// A block of 2^62 bytes has room for 2^62 - 16 items of one byte.
#[test]
fn power_bytes_has_no_capacity_past_2_to_62_bytes(rt: HostRuntime) {
    let last = (1 << 62) - 16;
    for &(want, of_powers, doubled) in &[
        (last, Some(last), Some(last)),
        (last + 1, None, Some(last + 1)),
    ] {
        let next = PowerBytes::next_capacity::<u8>(0, want);
        check!(rt; same((want, next), (want, of_powers)));
        check!(rt; same((want, next_capacity::<u8>(0, want)), (want, doubled)));
    }
}

// Pushes items onto a new list. Asserts that its capacity is always the smallest number in
// `capacities` that is at least its length.
fn assert_grows<T: Copy + Drop>(rt: &impl Abort, alloc: Global, item: T, capacities: &[usize]) {
    let mut list = ThinVec::<T, Global, PowerBytes>::ruled(alloc);
    for &capacity in capacities {
        for _ in list.len()..capacity {
            check!(rt; list.push(item));
            check!(rt; same(list.capacity(), capacity));
        }
    }
}

#[test]
fn power_bytes_fills_blocks_of_power_of_two_sizes(rt: HostRuntime) {
    let alloc = rt.alloc();
    assert_grows(&rt, alloc, 7_u8, &[16, 48, 112]);
    assert_grows(&rt, alloc, 7_u32, &[4, 12, 28, 60]);
    assert_grows(&rt, alloc, 7_u64, &[2, 6, 14]);
    assert_grows(&rt, alloc, [7_u64, 8, 9], &[2, 4, 10]);
    assert_grows(&rt, alloc, [7_u64; 40], &[1, 3, 6, 12]);
    assert_grows(&rt, alloc, (), &[4, 8, 16]);
}

#[test]
fn resize_fills_a_block_of_a_power_of_two(rt: HostRuntime) {
    let mut list = ThinVec::<u32, Global, PowerBytes>::ruled(rt.alloc());
    check!(rt; list.resize(5, 0));
    check!(rt; same_items(&list, &[0; 5]));
    check!(rt; same(list.capacity(), 12));
}

// States numbers that can only be proved, since no type of Rattle has an alignment of 32 or 256.
#[tactic(auto, unfolding(thin_block::specs::Capacity::fits))]
fn states_limits_at_greater_alignments()
    ensures byte_items { items_offset 1 ≡ 16 }
    ensures items_at_32 { items_offset 32 ≡ 32 }
    ensures items_at_256 { items_offset 256 ≡ 256 }
    ensures fits_at_32 { IsTrue (fits_at 1 32 (2 ^ 63 - 64)) }
    ensures past_32 { IsFalse (fits_at 1 32 (2 ^ 63 - 63)) }
    ensures fits_at_256 { IsTrue (fits_at 1 256 (2 ^ 63 - 512)) }
    ensures past_256 { IsFalse (fits_at 1 256 (2 ^ 63 - 511)) }
{}
