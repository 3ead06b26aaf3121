//! Tests of the modules `checks` and `texts` of this crate: each check finds what is wrong.
use crate::check;
use crate::checks::{counts, has_len, holds, leaked_refusing, same, same_items};
use crate::texts::{Misprinted, prints, prints_as};
use std::fmt::{self, Debug};

#[test]
fn detects_a_wrong_value(rt: HostRuntime) {
    check!(rt; same(1, 1));
    // The other tests rely on `same`, so it is not tested by itself.
    assert!(rt; same(1, 2).is_err());
    for wrong in [&[][..], &[1], &[1, 3], &[1, 2, 2]] {
        check!(rt; same(same_items(&[1, 2], wrong).is_err(), true));
    }
}

#[test]
fn detects_a_wrong_length(rt: HostRuntime) {
    let list = check!(rt; list_of(rt.alloc(), &[1, 2]));
    for len in 0..4 {
        let found = (len, has_len(&list, len).is_ok(), list.len() == len);
        check!(rt; same(found, (len, len == 2, len == 2)));
    }
}

#[test]
fn detects_a_wrong_capacity(rt: HostRuntime) {
    let list = check!(rt; list_of(rt.alloc(), &[1, 2]));
    check!(rt; holds(&list, &[1, 2], 2));
    check!(rt; same(holds(&list, &[1, 2], 3).is_err(), true));
    for wrong in [&[][..], &[1], &[1, 3], &[1, 2, 2]] {
        check!(rt; same(holds(&list, wrong, 2).is_err(), true));
    }
}

#[test]
fn detects_a_wrong_number_of_blocks(rt: HostRuntime) {
    let refusing = leaked_refusing(&rt, rt.alloc(), 0);
    let _list = check!(rt; list_of(refusing, &[1]));
    check!(rt; counts(refusing, 1, 1));
    check!(rt; same(counts(refusing, 1, 0).is_err(), true));
    check!(rt; same(counts(refusing, 0, 1).is_err(), true));
}

#[test]
fn detects_a_wrong_text(rt: HostRuntime) {
    let texts = ["7", "7", "0007"];
    check!(rt; prints(rt.alloc(), &7, texts));
    for wrong in 0..3 {
        let mut texts = texts;
        texts[wrong] = "8";
        check!(rt; same(prints(rt.alloc(), &7, texts).is_err(), true));
    }
    check!(rt; same(prints_as(rt.alloc(), &7, &8).is_err(), true));
}

// A value that is printed without an error even if a write fails.
#[derive(Drop)]
struct Unfailing;

impl Debug for Unfailing {
    fn fmt<W: fmt::Write>(&self, f: &mut fmt::Formatter<W>) -> fmt::Result {
        let _ = f.debug_struct("Unfailing").finish();
        Ok(())
    }
}

#[test]
fn detects_an_ignored_failure_of_a_write(rt: HostRuntime) {
    let printed = prints_as(rt.alloc(), &Unfailing, &Unfailing);
    check!(rt; same(matches!(printed, Err(Misprinted::End(_))), true));
}

#[test]
#[should_panic(expected = "found 1, wanted 2")]
fn a_check_stops_the_test(rt: HostRuntime) {
    check!(rt; same(1, 2));
}

#[test]
#[should_panic(expected = "nothing")]
fn a_check_of_nothing_stops_the_test(rt: HostRuntime) {
    let nothing: Option<i32> = None;
    check!(rt; nothing);
}
