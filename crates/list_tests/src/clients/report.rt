//! Tests of the report about rows: a write fails, memory runs out, or a row fails. Also tests that
//! a comparison of a row finds a wrong value.
use crate::check;
use crate::clients::page::Page;
use programs::bench::{Checks, Outcome, report, report_rows};
use std::alloc::Global;
use std::process::Abort;
use thin_testing::Refusing;
use thin_vec::{ThinVec, ThinVecError};

// Returns what `report` writes if every row is ok. The missing numbers have tests, and no row.
fn usual_text(rt: &impl Abort, alloc: Global) -> String {
    let mut text = String::new(alloc);
    for (first, last) in [(1, 11), (13, 15), (17, 25), (27, 36), (40, 41)] {
        for number in first..=last {
            let line = check!(rt; format!(in alloc; "row {number} ok\n"));
            check!(rt; text.push_str(line.as_str()));
        }
    }
    check!(rt; text.push_str("35 rows ok\n"));
    text
}

// Calls `report`, which writes to `text`. Call number `failing` to `write` fails. Returns the
// status, and the number of calls to `write`.
fn report_into(alloc: &Refusing<Global>, text: &mut String, failing: usize) -> (u8, usize) {
    let mut out = Page {
        text,
        calls: 0,
        failing,
    };
    let status = report(alloc, &mut out);
    (status, out.calls)
}

// Calls `report`, and asserts that it writes `whole` and returns 0. Returns the number of calls to
// `write`.
fn assert_whole(rt: &impl Abort, alloc: &Refusing<Global>, whole: &String) -> usize {
    let mut text = String::new(*whole.allocator());
    let (status, writes) = report_into(alloc, &mut text, 0);
    check!(rt; same(status, 0));
    check!(rt; same(text.as_str(), whole.as_str()));
    writes
}

// Calls `report` with a writer whose call number `failing` fails. Asserts that the status is 3,
// that the text is a beginning of `whole`, that nothing is written after the failed call, and that
// all memory is freed.
fn assert_stops_at(rt: &impl Abort, whole: &String, failing: usize) {
    let alloc = *whole.allocator();
    let counting = Refusing::new(alloc, 0);
    let mut text = String::new(alloc);
    let answer = report_into(&counting, &mut text, failing);
    check!(rt; same(answer, (3, failing)));
    assert!(rt;
        whole.as_str().starts_with(text.as_str()) && counting.blocks() == 0,
        "at write {failing}"
    );
}

#[test]
fn report_stops_at_a_failed_write(rt: HostRuntime) {
    let whole = usual_text(&rt, rt.alloc());
    let granting = Refusing::new(rt.alloc(), 0);
    let writes = assert_whole(&rt, &granting, &whole);
    for failing in 1..=writes {
        assert_stops_at(&rt, &whole, failing);
    }
}

// Calls `report` with an allocator that refuses request number `nth`. Asserts that the status is 2,
// that the text is a beginning of `whole`, in whole lines, and then the line "out of memory", and
// that all memory is freed.
fn assert_ends_without_memory(rt: &impl Abort, whole: &String, nth: u64) {
    let alloc = *whole.allocator();
    let refusing = Refusing::new(alloc, nth);
    let mut text = String::new(alloc);
    let (status, _writes) = report_into(&refusing, &mut text, 0);
    check!(rt; same((status, refusing.blocks()), (2, 0)));
    let lines = text.as_str().strip_suffix("out of memory\n");
    let lines = lines.unwrap_or("another end");
    assert!(rt;
        whole.as_str().starts_with(lines) && (lines.is_empty() || lines.ends_with('\n')),
        "at request {nth}"
    );
}

#[test]
fn report_ends_with_out_of_memory_at_any_refused_request(rt: HostRuntime) {
    let whole = usual_text(&rt, rt.alloc());
    let granting = Refusing::new(rt.alloc(), 0);
    let _writes = assert_whole(&rt, &granting, &whole);
    let requests = granting.requests();
    for nth in 1..=requests {
        assert_ends_without_memory(&rt, &whole, nth);
    }
    let unrefused = Refusing::new(rt.alloc(), requests.saturating_add(1));
    let _writes = assert_whole(&rt, &unrefused, &whole);
    check!(rt; same(unrefused.blocks(), 0));
}

// Row 1 compares right values, and row 2 compares a wrong value. Rows 3 and 4 end with an error,
// each with another one. Any other row compares nothing.
fn made_up_row(number: u32) -> Outcome {
    let mut checks = Checks::new();
    match number {
        1 => checks.same(1, 1),
        2 => checks.same(1, 2),
        3 => return Err(ThinVecError::CapacityOverflow),
        4 => return Err(ThinVecError::OutOfMemory),
        _ => (),
    }
    Ok(checks)
}

// Writes a report of the made-up rows `numbers` to `text`. Call number `failing` to `write` fails.
// Returns the status, and the number of calls to `write`.
fn report_made_up(numbers: &[u32], text: &mut String, failing: usize) -> (u8, usize) {
    let mut out = Page {
        text,
        calls: 0,
        failing,
    };
    let status = report_rows(numbers, |number| made_up_row(number), &mut out);
    (status, out.calls)
}

// Asserts that the report of the made-up rows `numbers` is `whole`, and that its status is
// `status`. Also asserts that the report stops at a failed write, whichever write it is.
fn assert_reported(rt: &impl Abort, alloc: Global, numbers: &[u32], status: u8, whole: &str) {
    let mut text = String::new(alloc);
    let (found, writes) = report_made_up(numbers, &mut text, 0);
    check!(rt; same((found, text.as_str()), (status, whole)));
    for failing in 1..=writes {
        let mut text = String::new(alloc);
        let answer = report_made_up(numbers, &mut text, failing);
        check!(rt; same((answer, whole.starts_with(text.as_str())), ((3, failing), true)));
    }
}

#[test]
fn report_counts_failed_rows(rt: HostRuntime) {
    let alloc = rt.alloc();
    assert_reported(&rt, alloc, &[], 0, "0 rows ok\n");
    for (numbers, status, whole) in [
        (
            [1, 1, 99_999],
            1,
            "row 1 ok\nrow 1 ok\nrow 99999 failed\n1 rows failed\n",
        ),
        (
            [2, 1, 0],
            1,
            "row 2 failed\nrow 1 ok\nrow 0 failed\n2 rows failed\n",
        ),
        ([1, 2, 4], 2, "row 1 ok\nrow 2 failed\nout of memory\n"),
        ([3, 4, 1], 2, "row 3 failed\nout of memory\n"),
        ([4, 4, 1], 2, "out of memory\n"),
    ] {
        assert_reported(&rt, alloc, &numbers, status, whole);
    }
}

// Makes a comparison of the given number. Those below 10 find the expected value, and those from 10
// on find another value.
fn compare(checks: &mut Checks, list: &ThinVec<u8>, number: u32) {
    match number {
        0 | 5..10 => checks.is(true),
        1 => checks.same(1, 1),
        2 => checks.items(&[1, 2], &[1, 2]),
        3 => checks.items::<u8>(&[], &[]),
        4 => checks.holds(list, &[7, 8], 5),
        10 => checks.is(false),
        11 => checks.same(1, 2),
        12 => checks.same("a", "b"),
        13 => checks.items(&[1], &[2]),
        14 => checks.items(&[1, 2], &[1]),
        15 => checks.items(&[1], &[1, 2]),
        16 => checks.items(&[], &[1]),
        17 => checks.items(&[1, 2, 3], &[1, 3, 2]),
        18 => checks.holds(list, &[7, 8], 2),
        19 => checks.holds(list, &[7, 8], 6),
        20 => checks.holds(list, &[7], 5),
        21 => checks.holds(list, &[7, 9], 5),
        _ => checks.holds(list, &[], 5),
    }
}

// A right comparison does not make up for a wrong one before it.
#[test]
fn each_comparison_detects_a_wrong_value(rt: HostRuntime) {
    let mut list = check!(rt; ThinVec::with_capacity(rt.alloc(), 5));
    check!(rt; list.extend_from_copies(&[7, 8]));
    assert!(rt; !Checks::new().is_ok());
    for number in 0..23 {
        let mut checks = Checks::new();
        compare(&mut checks, &list, number);
        let is_ok = checks.is_ok();
        compare(&mut checks, &list, 0);
        assert_eq!(rt;
            (is_ok, checks.is_ok()),
            (number < 10, number < 10),
            "at {number}"
        );
    }
}
