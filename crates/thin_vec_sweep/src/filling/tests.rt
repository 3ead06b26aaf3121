//! The sweeps of the calls that take an iterator, for several item types, and of large capacities.
use crate::asserts::leaked_ledger;
use crate::filling::fill::{Collect, Extend, ExtendOfTrait, FromIter, fill_lists};
use crate::filling::limits::limits;
use crate::filling::splices::splices;
use crate::tests::{Large, SHORT, Small, ThreeWords};
use std::alloc::Global;
use std::process::Abort;
use thin_testing::{CountedWord, Numbered, Ruled, Threefold};
use thin_vec::{Doubling, PowerBytes};

// Tries the calls that fill a list of `T` from an iterator.
fn fill_all<T: Numbered, G: Ruled, R: Abort>(rt: &R, alloc: Global) {
    let ledger = leaked_ledger(rt, alloc);
    fill_lists::<Extend, T, G, R>(rt, ledger, &SHORT, &[0, 4]);
    fill_lists::<Extend, T, G, R>(rt, ledger, &[600], &[0]);
    fill_lists::<ExtendOfTrait, T, G, R>(rt, ledger, &[0, 33, 300], &[0, 1]);
    fill_lists::<FromIter, T, Doubling, R>(rt, ledger, &[0], &[0]);
    fill_lists::<Collect, T, Doubling, R>(rt, ledger, &[0], &[0]);
}

#[test]
fn fills_lists_of_units_and_bytes(rt: HostRuntime) {
    fill_all::<(), Doubling, _>(&rt, rt.alloc());
    fill_all::<u8, Doubling, _>(&rt, rt.alloc());
    fill_all::<u8, PowerBytes, _>(&rt, rt.alloc());
}

#[test]
fn fills_lists_of_numbers_and_of_320_bytes(rt: HostRuntime) {
    fill_all::<i32, Doubling, _>(&rt, rt.alloc());
    fill_all::<[u64; 40], Doubling, _>(&rt, rt.alloc());
}

#[test]
fn fills_lists_of_counted_items(rt: HostRuntime) {
    fill_all::<Small, Doubling, _>(&rt, rt.alloc());
    fill_all::<ThreeWords, Threefold, _>(&rt, rt.alloc());
    fill_all::<Large, Doubling, _>(&rt, rt.alloc());
}

#[test]
fn splices_units_and_bytes(rt: HostRuntime) {
    let ledger = leaked_ledger(&rt, rt.alloc());
    splices::<(), Doubling, _>(&rt, ledger, &[0, 1, 2, 3, 4], &[0, 3]);
    splices::<u8, Doubling, _>(&rt, ledger, &[0, 1, 2, 3, 4], &[0, 3]);
    splices::<u8, PowerBytes, _>(&rt, ledger, &[0, 1, 2, 3, 4], &[0, 3]);
}

#[test]
fn splices_numbers(rt: HostRuntime) {
    let ledger = leaked_ledger(&rt, rt.alloc());
    splices::<i32, Doubling, _>(&rt, ledger, &[0, 1, 2, 3, 4], &[0, 3]);
    splices::<u128, Doubling, _>(&rt, ledger, &[0, 1, 2, 3, 4], &[0, 3]);
}

#[test]
fn splices_items_of_320_bytes(rt: HostRuntime) {
    let ledger = leaked_ledger(&rt, rt.alloc());
    splices::<[u64; 40], Doubling, _>(&rt, ledger, &[0, 1, 2, 3, 4], &[0, 3]);
}

#[test]
fn splices_counted_items(rt: HostRuntime) {
    let ledger = leaked_ledger(&rt, rt.alloc());
    splices::<Small, Doubling, _>(&rt, ledger, &SHORT, &[0, 3]);
    splices::<CountedWord<'static>, Threefold, _>(&rt, ledger, &[2, 4], &[0]);
    splices::<Large, Doubling, _>(&rt, ledger, &[3], &[0, 1]);
}

#[test]
fn splices_long_lists(rt: HostRuntime) {
    let ledger = leaked_ledger(&rt, rt.alloc());
    splices::<Small, Doubling, _>(&rt, ledger, &[100, 900], &[0]);
    splices::<ThreeWords, PowerBytes, _>(&rt, ledger, &[100], &[500]);
}

#[test]
fn capacities_overflow_without_a_request(rt: HostRuntime) {
    let ledger = leaked_ledger(&rt, rt.alloc());
    limits::<(), Doubling, _>(&rt, ledger);
    limits::<u8, Doubling, _>(&rt, ledger);
    limits::<[u8; 3], Doubling, _>(&rt, ledger);
    limits::<u16, Doubling, _>(&rt, ledger);
    limits::<u128, Doubling, _>(&rt, ledger);
    limits::<ThreeWords, Doubling, _>(&rt, ledger);
}
