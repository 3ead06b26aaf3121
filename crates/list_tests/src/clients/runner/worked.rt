//! Tests of one run of six commands, and of the commands that ask a judge.
use crate::check;
use crate::checks::leaked_ledger;
use crate::clients::runner::judges::{Digits, Evens, TURNS};
use crate::clients::runner::made::{
    Asked, Item, List, Told, assert_clean, items, list_from, put, room, run_all, run_single, steps,
};
use crate::clients::runner::shown::{list_text, reply_text};
use std::process::Abort;
use thin_runner::command::Command;
use thin_runner::judge::Judge;
use thin_runner::runner::step;
use thin_testing::{Ledger, Lender, Numbered, numbered_items};
use thin_vec::{ThinVec, ThinVecError};

// Returns a command of the run.
fn nth_command<T: Numbered>(rt: &impl Abort, ledger: &'static Ledger, number: usize) -> Asked<T> {
    match number {
        0 => Command::Extend(items(rt, ledger, &[1, 2, 3, 4, 5, 6]), 6),
        1 => Command::Splice(1, 3, steps(rt, ledger, 1, 0), items(rt, ledger, &[9]), 1),
        2 => Command::ExtractIf(0, 5, 2),
        3 => Command::SplitOff(3),
        4 => Command::Splice(2, 1, steps(rt, ledger, 0, 0), items(rt, ledger, &[7]), 1),
        _ => Command::Pop,
    }
}

// The reply to each command, and the list and the capacity afterwards.
static RUN: [(&str, &str); 6] = [
    ("Done", "[1, 2, 3, 4, 5, 6] 6"),
    ("Answers([Some(2)])", "[1, 9, 4, 5, 6] 6"),
    ("Answers([Some(4), Some(6)])", "[1, 9, 5] 6"),
    ("List([], 0)", "[1, 9, 5] 6"),
    ("OutOfRange(Splice(2, 1, [], [7], 1))", "[1, 9, 5] 6"),
    ("Item(Some(5))", "[1, 9] 6"),
];

// What the run of six commands makes if its first request is refused, its second one, and so on:
// the earlier reply, the new ones, and the list and the capacity. In the last case, no request is
// refused.
static REFUSED: [&[&str]; 5] = [
    &["Item(None)", "[] 0"],
    &[
        "Item(None)",
        "Stopped([], OutOfMemory, [], None, [1, 2, 3, 4, 5, 6])",
        "OutOfRange(Splice(1, 3, [Front], [9], 1))",
        "OutOfRange(ExtractIf(0, 5, 2))",
        "OutOfRange(SplitOff(3))",
        "OutOfRange(Splice(2, 1, [], [7], 1))",
        "Item(None)",
        "[] 0",
    ],
    &[
        "Item(None)",
        "Done",
        "Refused(OutOfMemory)",
        "Answers([Some(2), Some(4)])",
        "List([6], 1)",
        "OutOfRange(Splice(2, 1, [], [7], 1))",
        "Item(Some(5))",
        "[1, 3] 6",
    ],
    &[
        "Item(None)",
        "Done",
        "Answers([Some(2)])",
        "Refused(OutOfMemory)",
        "List([5, 6], 2)",
        "OutOfRange(Splice(2, 1, [], [7], 1))",
        "Item(Some(4))",
        "[1, 9] 6",
    ],
    &[
        "Item(None)",
        "Done",
        "Answers([Some(2)])",
        "Answers([Some(4), Some(6)])",
        "List([], 0)",
        "OutOfRange(Splice(2, 1, [], [7], 1))",
        "Item(Some(5))",
        "[1, 9] 6",
    ],
];

// Returns the commands of the run.
fn six_commands<T: Numbered>(rt: &impl Abort, ledger: &'static Ledger) -> Vec<Asked<T>, Lender> {
    let mut commands = room(rt, &ledger.alloc, 6);
    for number in 0..6 {
        put(rt, &mut commands, nth_command(rt, ledger, number));
    }
    commands
}

// Asserts that the text is number `number` of the texts.
fn assert_nth(rt: &impl Abort, texts: &[&str], number: usize, text: &str) {
    check!(rt; same((number, Some(text)), (number, texts.get(number).copied())));
}

// Asserts that the replies have the first of the given texts, and that none of them lacks memory
// unless a request was refused. Returns the number of replies.
fn assert_replies(
    rt: &impl Abort,
    ledger: &'static Ledger,
    replies: Vec<Told<Item>, Lender>,
    texts: &[&str],
    is_refused: bool,
) -> usize {
    let mut number: usize = 0;
    for reply in replies {
        let is_short = reply.refusal() == Some(ThinVecError::OutOfMemory);
        assert!(rt; is_refused || !is_short);
        let text = check!(rt; reply_text(ledger.global, reply));
        assert_nth(rt, texts, number, text.as_str());
        number = number.saturating_add(1);
    }
    number
}

// Executes the six commands by one call to `run`, with request number `refused` refused. Asserts
// that the replies and the list have the given texts. Returns whether a request was refused.
fn assert_run(rt: &impl Abort, ledger: &'static Ledger, refused: u64, texts: &[&str]) -> bool {
    ledger.begin(0);
    let mut list: List<Item> = ThinVec::new(&ledger.alloc);
    let ran = run_all(
        rt,
        ledger,
        &mut list,
        six_commands(rt, ledger),
        &Evens { ledger },
        refused,
    );
    let is_refused = 0 < refused && refused <= ran.requests;
    check!(rt; same(ran.cause.is_some(), refused == 1));
    let replies = assert_replies(rt, ledger, ran.replies, texts, is_refused);
    check!(rt; same(replies.saturating_add(1), texts.len()));
    let left = check!(rt; list_text(ledger.global, &list));
    assert_nth(rt, texts, replies, left.as_str());
    assert_clean(rt, ledger, list);
    is_refused
}

#[test]
fn six_commands_by_one_run(rt: HostRuntime) {
    let ledger = leaked_ledger(&rt, rt.alloc());
    let is_refused = assert_run(&rt, ledger, 0, REFUSED[4]);
    check!(rt; same(is_refused, false));
}

#[test]
fn six_commands_with_each_request_refused(rt: HostRuntime) {
    let ledger = leaked_ledger(&rt, rt.alloc());
    let mut refused: u64 = 0;
    for texts in &REFUSED {
        refused = refused.saturating_add(1);
        let is_refused = assert_run(&rt, ledger, refused, texts);
        check!(rt; same((refused, is_refused), (refused, refused < 5)));
    }
}

// Executes one command by a `run` of its own, and asserts that the reply and the list have the
// given texts.
fn assert_single<J: Judge<Item>>(
    rt: &impl Abort,
    ledger: &'static Ledger,
    list: &mut List<Item>,
    command: Asked<Item>,
    judge: &J,
    texts: (&str, &str),
) {
    let mut ran = run_single(rt, ledger, list, command, judge, 0);
    let reply = check!(rt; reply_text(ledger.global, check!(rt; ran.replies.pop())));
    let left = check!(rt; list_text(ledger.global, list));
    check!(rt; same((reply.as_str(), left.as_str()), texts));
}

#[test]
fn six_commands_one_by_one(rt: HostRuntime) {
    let ledger = leaked_ledger(&rt, rt.alloc());
    let mut list: List<Item> = ThinVec::new(&ledger.alloc);
    let mut number: usize = 0;
    for texts in &RUN {
        let command = nth_command(&rt, ledger, number);
        assert_single(&rt, ledger, &mut list, command, &Evens { ledger }, *texts);
        number = number.saturating_add(1);
    }
    assert_clean(&rt, ledger, list);
}

// Executes the command on the list 1, 2, 3, 4, 5, 6. Asserts that the reply and the list have the
// given texts.
fn assert_judged<J: Judge<Item>>(
    rt: &impl Abort,
    ledger: &'static Ledger,
    command: Asked<Item>,
    judge: &J,
    texts: (&str, &str),
) {
    let mut list = list_from(rt, ledger, items(rt, ledger, &[1, 2, 3, 4, 5, 6]), 0);
    assert_single(rt, ledger, &mut list, command, judge, texts);
    assert_clean(rt, ledger, list);
}

#[test]
fn a_judge_that_counts_its_calls(rt: HostRuntime) {
    let ledger = leaked_ledger(&rt, rt.alloc());
    let judge = Digits { digits: TURNS };
    let done = ("Done", "[1, 3, 5] 6");
    let extracted = ("Answers([Some(1), Some(3)])", "[2, 4, 5, 6] 6");
    assert_judged(&rt, ledger, Command::Retain, &judge, done);
    assert_judged(&rt, ledger, Command::DedupBy, &judge, done);
    assert_judged(&rt, ledger, Command::ExtractIf(0, 6, 2), &judge, extracted);
}

// Executes the command on a list of `len` items, numbered from 1, and asserts how often it asks the
// judge.
fn assert_asked(
    rt: &impl Abort,
    ledger: &'static Ledger,
    len: usize,
    command: Asked<Item>,
    asked: usize,
) {
    let mut list = list_from(
        rt,
        ledger,
        check!(rt; numbered_items(ledger, &ledger.alloc, 1, len)),
        0,
    );
    ledger.begin(0);
    drop(step(&ledger.alloc, &mut list, command, &Evens { ledger }));
    check!(rt; same((len, ledger.calls.get()), (len, asked as u64)));
    assert_clean(rt, ledger, list);
}

#[test]
fn a_judge_is_asked_no_more_than_needed(rt: HostRuntime) {
    let ledger = leaked_ledger(&rt, rt.alloc());
    for len in [0_usize, 1, 2, 6, 100, 300] {
        let (pairs, more) = (len.saturating_sub(1), len.saturating_add(1));
        assert_asked(&rt, ledger, len, Command::Retain, len);
        assert_asked(&rt, ledger, len, Command::RetainMut, len);
        assert_asked(&rt, ledger, len, Command::DedupBy, pairs);
        assert_asked(
            &rt,
            ledger,
            len,
            Command::DedupByKey,
            pairs.saturating_mul(2),
        );
        assert_asked(&rt, ledger, len, Command::ExtractIf(0, len, more), len);
        assert_asked(&rt, ledger, len, Command::ExtractIf(0, len, 1), len.min(2));
        assert_asked(&rt, ledger, len, Command::ExtractIf(0, len, 0), 0);
        let half = len / 2;
        assert_asked(
            &rt,
            ledger,
            len,
            Command::ExtractIf(half, len, more),
            len.saturating_sub(half),
        );
    }
}
