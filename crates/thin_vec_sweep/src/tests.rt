//! The sweeps. Some item types have the calls of most groups, and others those of a few groups.
//! Each test finishes within seconds.
ghost use Rattle.std.specs.Mem.{type_size};
ghost use Rattle.std.specs.Prelude.{◌*◌, ◌<◌, ◌^◌};

use crate::arrays::arrays;
use crate::asserts::leaked_ledger;
use crate::calls::adding::Adding;
use crate::calls::bytes::Bytes;
use crate::calls::copying::Copying;
use crate::calls::filtering::Filtering;
use crate::calls::making::Making;
use crate::calls::reading::{Comparing, Reading};
use crate::calls::removing::Removing;
use crate::calls::replacing::Replacing;
use crate::sweep::{Calls, sweep};
use std::alloc::Global;
use std::process::Abort;
use thin_testing::{Counted, CountedWord, Ledger, Numbered, Ruled, Threefold};
use thin_vec::{Doubling, PowerBytes};

/// The lengths of lists on which each call is tried with several spare capacities and arguments.
pub const SHORT: [usize; 7] = [0, 1, 2, 3, 4, 8, 33];

// The lengths of longer lists. Lists of `u8` fill whole words at 256 and 264 items, and not at 257.
const LONG: [usize; 5] = [100, 256, 257, 264, 1000];

const LONGER: [usize; 2] = [50, 300];

// More arguments than any call has.
const ALL: usize = usize::MAX;

/// A counted item of 16 bytes. The next types have 24, 32 and 512 bytes.
pub type Small = Counted<'static>;

pub type ThreeWords = Counted<'static, u64>;

pub type Aligned = Counted<'static, u128>;

pub type Large = Counted<'static, [u64; 62]>;

// Makes the calls that exist for every item type, on lists of the given lengths.
fn sweeps<T: Numbered, R: Abort>(
    rt: &R,
    ledger: &'static Ledger,
    lengths: &[usize],
    spares: &[usize],
    most: usize,
) {
    sweep::<Adding, T, Doubling, R>(rt, ledger, lengths, spares, most);
    sweep::<Removing, T, Doubling, R>(rt, ledger, lengths, spares, most);
    sweep::<Filtering, T, Doubling, R>(rt, ledger, lengths, spares, most);
    sweep::<Reading, T, Doubling, R>(rt, ledger, lengths, spares, most);
    sweep::<Replacing, T, Doubling, R>(rt, ledger, lengths, spares, most);
    sweep::<Making, T, Doubling, R>(rt, ledger, lengths, spares, most);
}

// Sweeps the calls that exist for all item types, of short lists of `T`, of lists of the given
// lengths, and of lists with much spare capacity.
fn sweep_all<T: Numbered, R: Abort>(rt: &R, alloc: Global, long: &[usize]) {
    let ledger = leaked_ledger(rt, alloc);
    sweeps::<T, R>(rt, ledger, &SHORT, &[0, 1, 4], ALL);
    sweeps::<T, R>(rt, ledger, long, &[0, 30], 30);
    sweeps::<T, R>(rt, ledger, &[1, 33, 100], &[300], 30);
}

// Sweeps the calls of the group `Adding`, for items of one more size or alignment. The other calls
// request the blocks of lists by the same functions.
fn sweep_sizes<T: Numbered, R: Abort>(rt: &R, alloc: Global, long: &[usize]) {
    let ledger = leaked_ledger(rt, alloc);
    sweep::<Adding, T, Doubling, R>(rt, ledger, &SHORT, &[0, 1, 4], ALL);
    sweep::<Adding, T, Doubling, R>(rt, ledger, long, &[0, 30], 30);
    sweep::<Adding, T, Doubling, R>(rt, ledger, &[1, 33, 100], &[300], 30);
}

#[test]
fn sweeps_units(rt: HostRuntime) {
    sweep_all::<(), _>(&rt, rt.alloc(), &LONG);
}

#[test]
fn sweeps_u8(rt: HostRuntime) {
    sweep_all::<u8, _>(&rt, rt.alloc(), &LONG);
}

#[test]
fn sweeps_u16(rt: HostRuntime) {
    sweep_sizes::<u16, _>(&rt, rt.alloc(), &LONG);
}

#[test]
fn sweeps_i32(rt: HostRuntime) {
    sweep_sizes::<i32, _>(&rt, rt.alloc(), &LONG);
}

#[test]
fn sweeps_u64(rt: HostRuntime) {
    sweep_all::<u64, _>(&rt, rt.alloc(), &LONG);
}

#[test]
fn sweeps_u128(rt: HostRuntime) {
    sweep_sizes::<u128, _>(&rt, rt.alloc(), &LONG);
}

#[test]
fn sweeps_items_of_320_bytes(rt: HostRuntime) {
    sweep_sizes::<[u64; 40], _>(&rt, rt.alloc(), &[50]);
}

#[test]
fn sweeps_counted_items(rt: HostRuntime) {
    sweep_all::<Small, _>(&rt, rt.alloc(), &LONGER);
}

#[test]
fn sweeps_counted_items_of_8_bytes(rt: HostRuntime) {
    sweep_all::<CountedWord<'static>, _>(&rt, rt.alloc(), &LONGER);
}

#[test]
fn sweeps_counted_items_of_24_bytes(rt: HostRuntime) {
    sweep_sizes::<ThreeWords, _>(&rt, rt.alloc(), &LONGER);
}

#[test]
fn sweeps_items_of_512_bytes(rt: HostRuntime) {
    let ledger = leaked_ledger(&rt, rt.alloc());
    sweeps::<Large, _>(&rt, ledger, &[0, 1, 3, 33], &[0, 4], 40);
}

#[test]
fn sweeps_items_of_odd_sizes(rt: HostRuntime) {
    sweep_sizes::<[u8; 3], _>(&rt, rt.alloc(), &LONGER);
    sweep_sizes::<[u32; 3], _>(&rt, rt.alloc(), &LONGER);
}

#[test]
fn sweeps_items_that_are_aligned_otherwise_than_most(rt: HostRuntime) {
    sweep_sizes::<[u128; 0], _>(&rt, rt.alloc(), &[50]);
    sweep_sizes::<[u32; 4], _>(&rt, rt.alloc(), &[50]);
    sweep_sizes::<[u8; 32], _>(&rt, rt.alloc(), &[50]);
    sweep_sizes::<[u32; 6], _>(&rt, rt.alloc(), &[50]);
    sweep_sizes::<[u64; 5], _>(&rt, rt.alloc(), &[50]);
    sweep_sizes::<Aligned, _>(&rt, rt.alloc(), &[50]);
}

// Sweeps the calls that can make a list grow, under the growth rule `G`.
fn sweep_rule<G: Ruled, R: Abort>(rt: &R, ledger: &'static Ledger) {
    sweep::<Adding, Small, G, R>(rt, ledger, &SHORT, &[0, 1], ALL);
    sweep::<Replacing, Small, G, R>(rt, ledger, &SHORT, &[0, 1], ALL);
}

#[test]
fn sweeps_counted_items_under_other_rules(rt: HostRuntime) {
    let ledger = leaked_ledger(&rt, rt.alloc());
    sweep_rule::<PowerBytes, _>(&rt, ledger);
    sweep_rule::<Threefold, _>(&rt, ledger);
}

#[test]
fn sweeps_counted_items_of_long_lists(rt: HostRuntime) {
    let ledger = leaked_ledger(&rt, rt.alloc());
    sweeps::<Small, _>(&rt, ledger, &[4000], &[0, 1], 2);
    sweeps::<Small, _>(&rt, ledger, &[41_000], &[1], 1);
}

#[test]
fn orders_lists_with_one_comparison_of_each_item(rt: HostRuntime) {
    let ledger = leaked_ledger(&rt, rt.alloc());
    sweep::<Comparing, Small, Doubling, _>(&rt, ledger, &SHORT, &[0, 1, 9], ALL);
    sweep::<Comparing, Small, Doubling, _>(&rt, ledger, &[50, 150, 3000], &[0, 1], ALL);
    sweep::<Comparing, ThreeWords, Doubling, _>(&rt, ledger, &[1, 40], &[0], ALL);
}

// Sweeps the calls that copy items.
fn copies<T: Numbered + Copy, R: Abort>(rt: &R, alloc: Global) {
    let ledger = leaked_ledger(rt, alloc);
    sweep::<Copying, T, Doubling, R>(rt, ledger, &SHORT, &[0, 1, 4], ALL);
    sweep::<Copying, T, Doubling, R>(rt, ledger, &[100, 257, 1000], &[0, 1], 40);
}

#[test]
fn copies_items_of_all_sizes(rt: HostRuntime) {
    copies::<(), _>(&rt, rt.alloc());
    copies::<u8, _>(&rt, rt.alloc());
    copies::<i32, _>(&rt, rt.alloc());
    copies::<[u8; 3], _>(&rt, rt.alloc());
    copies::<[u32; 5], _>(&rt, rt.alloc());
    copies::<[u64; 3], _>(&rt, rt.alloc());
    copies::<[u64; 40], _>(&rt, rt.alloc());
    copies::<u128, _>(&rt, rt.alloc());
}

#[test]
fn writes_and_copies_bytes(rt: HostRuntime) {
    let ledger = leaked_ledger(&rt, rt.alloc());
    sweep::<Bytes, u8, Doubling, _>(&rt, ledger, &SHORT, &[0, 1, 60], ALL);
    sweep::<Bytes, u8, PowerBytes, _>(&rt, ledger, &LONG, &[0, 1, 60], ALL);
    sweep::<Bytes, u8, Doubling, _>(&rt, ledger, &[41_000], &[0], ALL);
    sweep::<Copying, u8, PowerBytes, _>(&rt, ledger, &[100, 257, 1000], &[0, 1], 40);
    sweep::<Copying, u8, Doubling, _>(&rt, ledger, &[41_000], &[0], 2);
}

#[test]
fn converts_arrays(rt: HostRuntime) {
    let ledger = leaked_ledger(&rt, rt.alloc());
    arrays::<(), _>(&rt, ledger);
    arrays::<u8, _>(&rt, ledger);
    arrays::<CountedWord<'static>, _>(&rt, ledger);
    arrays::<Large, _>(&rt, ledger);
}

// Returns in how many cases a group makes a call with ample memory, on lists of one item with room
// for another.
fn cases<C: Calls<T, Doubling>, T: Numbered, R: Abort>(rt: &R, ledger: &'static Ledger) -> u64 {
    let (cases, refusals) = sweep::<C, T, Doubling, R>(rt, ledger, &[1], &[1], ALL);
    cases.saturating_sub(refusals)
}

#[test]
fn each_group_makes_each_of_its_calls_with_each_argument(rt: HostRuntime) {
    let ledger = leaked_ledger(&rt, rt.alloc());
    assert_eq!(rt; cases::<Adding, Small, _>(&rt, ledger), 40 * 9 + 5 * 6);
    assert_eq!(rt; cases::<Bytes, u8, _>(&rt, ledger), 8 * 3);
    assert_eq!(rt; cases::<Comparing, Small, _>(&rt, ledger), 5 * 3);
    assert_eq!(rt; cases::<Copying, u8, _>(&rt, ledger), 200 + 8 * 5);
    assert_eq!(rt; cases::<Filtering, Small, _>(&rt, ledger), 150 + 16 * 6);
    assert_eq!(rt; cases::<Making, Small, _>(&rt, ledger), 16 * 7);
    assert_eq!(rt; cases::<Reading, Small, _>(&rt, ledger), 5 * 5);
    assert_eq!(rt;
        cases::<Removing, Small, _>(&rt, ledger),
        150 * 3 + 25 + 10 * 12
    );
    assert_eq!(rt; cases::<Replacing, Small, _>(&rt, ledger), 200 * 3 + 5 * 2);
}
