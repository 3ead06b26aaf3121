//! Tests each command with each of its requests refused in turn.
use crate::check;
use crate::checks::leaked_ledger;
use crate::clients::runner::judges::Evens;
use crate::clients::runner::made::{
    Asked, Item, List, Ran, assert_clean, items, list_from, room, run_single, steps,
};
use crate::clients::runner::shown::{list_text, reply_text};
use std::alloc::{AllocError, Global};
use std::process::Abort;
use thin_runner::command::{Command, Reply};
use thin_testing::{Ledger, Numbered};
use thin_vec::Doubling;

// What each command does on a list of the items 1, 2, 2, 3. A line has the capacity before and the
// command, which `nth_command` makes, and then the outcomes: with the first request refused, with
// the second one, and so on, and last with none. An outcome is the reply, the list and the
// capacity, or `=` if these two are as before. It is `same` if it is the one before.
static OUTCOMES: [(&str, &str); 57] = [
    (
        "4, Push(9)",
        "Returned(9, OutOfMemory) = | Done [1, 2, 2, 3, 9] 8",
    ),
    ("6, Push(9)", "Done [1, 2, 2, 3, 9] 6"),
    ("4, Pop", "Item(Some(3)) [1, 2, 2] 4"),
    (
        "4, Insert(1, 9)",
        "Returned(9, OutOfMemory) = | Done [1, 9, 2, 2, 3] 8",
    ),
    ("6, Insert(1, 9)", "Done [1, 9, 2, 2, 3] 6"),
    ("4, Insert(5, 9)", "OutOfRange(Insert(5, 9)) ="),
    ("4, Remove(1)", "Item(Some(2)) [1, 2, 3] 4"),
    ("4, Remove(4)", "OutOfRange(Remove(4)) ="),
    ("4, SwapRemove(0)", "Item(Some(1)) [3, 2, 2] 4"),
    ("4, SwapRemove(4)", "OutOfRange(SwapRemove(4)) ="),
    ("4, Set(3, 9)", "Item(Some(3)) [1, 2, 2, 9] 4"),
    ("4, Set(4, 9)", "OutOfRange(Set(4, 9)) ="),
    ("4, Truncate(1)", "Done [1] 4"),
    ("4, Truncate(5)", "Done ="),
    ("4, Clear", "Done [] 4"),
    (
        "4, Reserve(1)",
        "Refused(OutOfMemory) = | Done [1, 2, 2, 3] 8",
    ),
    (
        "4, Reserve(18446744073709551615)",
        "Refused(CapacityOverflow) =",
    ),
    (
        "4, ReserveExact(1)",
        "Refused(OutOfMemory) = | Done [1, 2, 2, 3] 5",
    ),
    (
        "4, ReserveExact(9223372036854775808)",
        "Refused(CapacityOverflow) =",
    ),
    ("4, ShrinkToFit", "Done ="),
    (
        "6, ShrinkToFit",
        "Refused(OutOfMemory) = | Done [1, 2, 2, 3] 4",
    ),
    (
        "4, Resize(6, 9)",
        "Refused(OutOfMemory) = | Refused(OutOfMemory) [1, 2, 2, 3] 8 \
            | Done [1, 2, 2, 3, 9, 9] 8",
    ),
    ("6, Resize(5, 9)", "Done [1, 2, 2, 3, 9] 6"),
    ("4, Resize(2, 9)", "Done [1, 2] 4"),
    (
        "4, Resize(18446744073709551615, 9)",
        "Refused(CapacityOverflow) =",
    ),
    (
        "4, ExtendFromSlice([7, 8])",
        "Refused(OutOfMemory) = | Refused(OutOfMemory) [1, 2, 2, 3] 8 | same \
            | Done [1, 2, 2, 3, 7, 8] 8",
    ),
    ("4, ExtendFromSlice([])", "Done ="),
    (
        "4, Extend([7, 8], 0)",
        "Stopped([], OutOfMemory, [], Some(7), [8]) = | Done [1, 2, 2, 3, 7, 8] 8",
    ),
    (
        "4, Extend([7, 8], 2)",
        "Stopped([], OutOfMemory, [], None, [7, 8]) = | Done [1, 2, 2, 3, 7, 8] 8",
    ),
    (
        "4, Extend([4, 5, 6, 7, 8], 1)",
        "Stopped([], OutOfMemory, [], None, [4, 5, 6, 7, 8]) = \
            | Stopped([], OutOfMemory, [], Some(8), []) [1, 2, 2, 3, 4, 5, 6, 7] 8 \
            | Done [1, 2, 2, 3, 4, 5, 6, 7, 8] 16",
    ),
    ("6, Extend([7, 8], 2)", "Done [1, 2, 2, 3, 7, 8] 6"),
    (
        "4, Extend([7], 9223372036854775808)",
        "Stopped([], CapacityOverflow, [], None, [7]) =",
    ),
    (
        "4, Append([7, 8], 3)",
        "Other([7, 8], 3, Some(OutOfMemory)) = | Other([], 3, None) [1, 2, 2, 3, 7, 8] 8",
    ),
    (
        "6, Append([7, 8], 3)",
        "Other([], 3, None) [1, 2, 2, 3, 7, 8] 6",
    ),
    (
        "4, SplitOff(1)",
        "Refused(OutOfMemory) = | List([2, 2, 3], 3) [1] 4",
    ),
    ("4, SplitOff(4)", "List([], 0) ="),
    ("4, SplitOff(5)", "OutOfRange(SplitOff(5)) ="),
    (
        "6, Clone",
        "Refused(OutOfMemory) = | same | same | same | same | List([1, 2, 2, 3], 4) =",
    ),
    ("4, Retain", "Done [2, 2] 4"),
    ("4, RetainMut", "Done [2, 2] 4"),
    ("4, Dedup", "Done [1, 2, 3] 4"),
    ("4, DedupBy", "Done [1, 3] 4"),
    ("4, DedupByKey", "Done [1, 2, 3] 4"),
    (
        "4, Drain(1, 4, [Back, Front])",
        "Refused(OutOfMemory) = | Answers([Some(3), Some(2)]) [1] 4",
    ),
    (
        "4, Drain(1, 3, [Back, Front, Back])",
        "Refused(OutOfMemory) = | Answers([Some(2), Some(2), None]) [1, 3] 4",
    ),
    ("4, Drain(1, 3, [])", "Answers([]) [1, 3] 4"),
    (
        "4, Drain(3, 1, [Back, Front])",
        "OutOfRange(Drain(3, 1, [Back, Front])) =",
    ),
    ("4, Drain(3, 5, [])", "OutOfRange(Drain(3, 5, [])) ="),
    (
        "4, ExtractIf(0, 4, 3)",
        "Refused(OutOfMemory) = | Answers([Some(2), Some(2), None]) [1, 3] 4",
    ),
    ("4, ExtractIf(0, 4, 0)", "Answers([]) ="),
    ("4, ExtractIf(0, 5, 1)", "OutOfRange(ExtractIf(0, 5, 1)) ="),
    (
        "4, Splice(1, 3, [Back], [7, 8, 9], 1)",
        "Refused(OutOfMemory) = | Stopped([Some(2)], OutOfMemory, [], None, [9]) [1, 7, 8, 3] 4 \
            | Answers([Some(2)]) [1, 7, 8, 9, 3] 8",
    ),
    (
        "4, Splice(1, 3, [], [7, 8, 9], 0)",
        "Stopped([], OutOfMemory, [], Some(9), []) [1, 7, 8, 3] 4 \
            | Stopped([], OutOfMemory, [9], None, []) [1, 7, 8, 3] 4 \
            | Answers([]) [1, 7, 8, 9, 3] 8",
    ),
    (
        "4, Splice(1, 4, [Back], [4, 5, 6, 7, 8], 0)",
        "Refused(OutOfMemory) = \
            | Stopped([Some(3)], OutOfMemory, [], Some(7), [8]) [1, 4, 5, 6] 4 \
            | Answers([Some(3)]) [1, 4, 5, 6, 7, 8] 8",
    ),
    ("4, Splice(1, 3, [], [7], 5)", "Answers([]) [1, 7, 3] 4"),
    (
        "4, Splice(1, 3, [], [7, 8], 9223372036854775808)",
        "Stopped([], CapacityOverflow, [], None, []) [1, 7, 8, 3] 4",
    ),
    (
        "4, Splice(3, 1, [Back, Front], [7], 1)",
        "OutOfRange(Splice(3, 1, [Back, Front], [7], 1)) =",
    ),
];

// More requests than any command makes.
const MOST: u64 = 20;

// Makes a splice over a range, with `walk.0` steps. Step number `i` is from the back if bit `i` of
// `walk.1` is 1.
fn splice<T: Numbered>(
    rt: &impl Abort,
    ledger: &'static Ledger,
    range: (usize, usize),
    walk: (usize, u64),
    numbers: &[u64],
    lower: usize,
) -> Asked<T> {
    let steps = steps(rt, ledger, walk.0, walk.1);
    let items = items(rt, ledger, numbers);
    Command::Splice(range.0, range.1, steps, items, lower)
}

// Makes the list that `append` empties.
fn other<T: Numbered>(rt: &impl Abort, ledger: &'static Ledger) -> List<T> {
    list_from(rt, ledger, items(rt, ledger, &[7, 8]), 1)
}

// Returns the command of a line of `OUTCOMES`, after the spare capacity of the list. Each call
// makes the command anew, because `run` takes it.
fn nth_command<T: Numbered>(
    rt: &impl Abort,
    ledger: &'static Ledger,
    number: usize,
) -> (usize, Asked<T>) {
    match number {
        0..12 => single_item_command(ledger, number),
        12..25 => size_command(ledger, number),
        25..34 => many_items_command(rt, ledger, number),
        34..43 => whole_list_command(number),
        43..51 => range_command(rt, ledger, number),
        _ => splice_command(rt, ledger, number),
    }
}

// Returns a command of `nth_command` that adds, removes or writes one item.
fn single_item_command<T: Numbered>(ledger: &'static Ledger, number: usize) -> (usize, Asked<T>) {
    match number {
        0 => (0, Command::Push(T::numbered(ledger, 9))),
        1 => (2, Command::Push(T::numbered(ledger, 9))),
        2 => (0, Command::Pop),
        3 => (0, Command::Insert(1, T::numbered(ledger, 9))),
        4 => (2, Command::Insert(1, T::numbered(ledger, 9))),
        5 => (0, Command::Insert(5, T::numbered(ledger, 9))),
        6 => (0, Command::Remove(1)),
        7 => (0, Command::Remove(4)),
        8 => (0, Command::SwapRemove(0)),
        9 => (0, Command::SwapRemove(4)),
        10 => (0, Command::Set(3, T::numbered(ledger, 9))),
        _ => (0, Command::Set(4, T::numbered(ledger, 9))),
    }
}

// Returns a command of `nth_command` that changes the length or the capacity.
fn size_command<T: Numbered>(ledger: &'static Ledger, number: usize) -> (usize, Asked<T>) {
    match number {
        12 => (0, Command::Truncate(1)),
        13 => (0, Command::Truncate(5)),
        14 => (0, Command::Clear),
        15 => (0, Command::Reserve(1)),
        16 => (0, Command::Reserve(usize::MAX)),
        17 => (0, Command::ReserveExact(1)),
        18 => (0, Command::ReserveExact(1 << 63)),
        19 => (0, Command::ShrinkToFit),
        20 => (2, Command::ShrinkToFit),
        21 => (0, Command::Resize(6, T::numbered(ledger, 9))),
        22 => (2, Command::Resize(5, T::numbered(ledger, 9))),
        23 => (0, Command::Resize(2, T::numbered(ledger, 9))),
        _ => (0, Command::Resize(usize::MAX, T::numbered(ledger, 9))),
    }
}

// Returns a command of `nth_command` that appends several items.
fn many_items_command<T: Numbered>(
    rt: &impl Abort,
    ledger: &'static Ledger,
    number: usize,
) -> (usize, Asked<T>) {
    match number {
        25 => (0, Command::ExtendFromSlice(items(rt, ledger, &[7, 8]))),
        26 => (0, Command::ExtendFromSlice(room(rt, &ledger.alloc, 1))),
        27 => (0, Command::Extend(items(rt, ledger, &[7, 8]), 0)),
        28 => (0, Command::Extend(items(rt, ledger, &[7, 8]), 2)),
        29 => (0, Command::Extend(items(rt, ledger, &[4, 5, 6, 7, 8]), 1)),
        30 => (2, Command::Extend(items(rt, ledger, &[7, 8]), 2)),
        31 => (0, Command::Extend(items(rt, ledger, &[7]), 1 << 63)),
        32 => (0, Command::Append(other(rt, ledger))),
        _ => (2, Command::Append(other(rt, ledger))),
    }
}

// Returns a command of `nth_command` that splits or clones the list, or asks the judge about each
// item.
fn whole_list_command<T: Numbered>(number: usize) -> (usize, Asked<T>) {
    match number {
        34 => (0, Command::SplitOff(1)),
        35 => (0, Command::SplitOff(4)),
        36 => (0, Command::SplitOff(5)),
        37 => (2, Command::Clone),
        38 => (0, Command::Retain),
        39 => (0, Command::RetainMut),
        40 => (0, Command::Dedup),
        41 => (0, Command::DedupBy),
        _ => (0, Command::DedupByKey),
    }
}

// Returns a command of `nth_command` that takes items of a range.
fn range_command<T: Numbered>(
    rt: &impl Abort,
    ledger: &'static Ledger,
    number: usize,
) -> (usize, Asked<T>) {
    match number {
        43 => (0, Command::Drain(1, 4, steps(rt, ledger, 2, 1))),
        44 => (0, Command::Drain(1, 3, steps(rt, ledger, 3, 5))),
        45 => (0, Command::Drain(1, 3, steps(rt, ledger, 0, 0))),
        46 => (0, Command::Drain(3, 1, steps(rt, ledger, 2, 1))),
        47 => (0, Command::Drain(3, 5, steps(rt, ledger, 0, 0))),
        48 => (0, Command::ExtractIf(0, 4, 3)),
        49 => (0, Command::ExtractIf(0, 4, 0)),
        _ => (0, Command::ExtractIf(0, 5, 1)),
    }
}

// Returns a command of `nth_command` that replaces a range.
fn splice_command<T: Numbered>(
    rt: &impl Abort,
    ledger: &'static Ledger,
    number: usize,
) -> (usize, Asked<T>) {
    match number {
        51 => (0, splice(rt, ledger, (1, 3), (1, 1), &[7, 8, 9], 1)),
        52 => (0, splice(rt, ledger, (1, 3), (0, 0), &[7, 8, 9], 0)),
        53 => (0, splice(rt, ledger, (1, 4), (1, 1), &[4, 5, 6, 7, 8], 0)),
        54 => (0, splice(rt, ledger, (1, 3), (0, 0), &[7], 5)),
        55 => (0, splice(rt, ledger, (1, 3), (0, 0), &[7, 8], 1 << 63)),
        _ => (0, splice(rt, ledger, (3, 1), (2, 1), &[7], 1)),
    }
}

// Returns how often the command of a line asks the judge, unless a request is refused.
fn asked(number: usize) -> u64 {
    match number {
        38 | 39 | 48 => 4,
        41 => 3,
        42 => 6,
        _ => 0,
    }
}

// Executes the command of a line after an earlier one, with request number `refused` refused. The
// first request is that for the room for the reply. Asserts how often the judge is asked. Returns
// the reply, and the number of requests.
fn reply_to(
    rt: &impl Abort,
    ledger: &'static Ledger,
    list: &mut List<Item>,
    command: Asked<Item>,
    number: usize,
    refused: u64,
) -> (String, u64) {
    let ran = run_single(rt, ledger, list, command, &Evens { ledger }, refused);
    let requests = ran.requests;
    let asked = if requests < refused { asked(number) } else { 0 };
    check!(rt; same((number, ledger.calls.get()), (number, asked)));
    (last_text(rt, ledger.global, ran), requests)
}

// Prints the reply and the list, or `=` if the list is as before.
fn outcome_text(
    alloc: Global,
    reply: &str,
    before: &str,
    after: &str,
) -> Result<String, AllocError> {
    let left = if after == before { "=" } else { after };
    format!(in alloc; "{reply} {left}")
}

// Executes the command of a line, with request number `refused` refused. Returns the outcome, and
// the number of requests.
fn outcome(rt: &impl Abort, ledger: &'static Ledger, number: usize, refused: u64) -> (String, u64) {
    ledger.begin(0);
    let (spare, command) = nth_command(rt, ledger, number);
    let mut list: List<Item> = list_from(rt, ledger, items(rt, ledger, &[1, 2, 2, 3]), spare);
    let before = check!(rt; list_text(ledger.global, &list));
    let (reply, requests) = reply_to(rt, ledger, &mut list, command, number, refused);
    let after = check!(rt; list_text(ledger.global, &list));
    assert_clean(rt, ledger, list);
    let (reply, before) = (reply.as_str(), before.as_str());
    let outcome = check!(rt; outcome_text(ledger.global, reply, before, after.as_str()));
    (outcome, requests)
}

// Prints the last reply, or why there is none. Asserts that the earlier reply is as before.
fn last_text(rt: &impl Abort, alloc: Global, ran: Ran<Item, Doubling>) -> String {
    let Ran {
        cause,
        requests: _,
        mut replies,
    } = ran;
    let last = if cause.is_some() { None } else { replies.pop() };
    assert!(rt; matches!(replies.as_slice(), [Reply::Item(None)]));
    drop(replies);
    if let Some(cause) = cause {
        return check!(rt; format!(in alloc; "no room: {cause:?}"));
    }
    check!(rt; reply_text(alloc, check!(rt; last)))
}

// Executes the command of a line with its first request refused, and asserts the outcome.
fn assert_no_room(rt: &impl Abort, ledger: &'static Ledger, number: usize) {
    let (no_room, _requests) = outcome(rt, ledger, number, 1);
    check!(rt; same(no_room.as_str(), "no room: OutOfMemory ="));
}

// Appends the outcome to the line, or `same` if it is the last one.
fn add_outcome(line: &mut String, mark: &str, outcome: &str, last: &str) -> Result<(), AllocError> {
    line.push_str(mark)?;
    line.push_str(if outcome == last { "same" } else { outcome })
}

// Executes the command of a line with each of its requests refused, and then with none refused.
// Returns the outcomes.
fn outcomes(rt: &impl Abort, ledger: &'static Ledger, number: usize) -> String {
    assert_no_room(rt, ledger, number);
    let mut line = String::new(ledger.global);
    let mut last = String::new(ledger.global);
    for granted in 0..MOST {
        let refused = granted.saturating_add(2);
        let (outcome, requests) = outcome(rt, ledger, number, refused);
        let mark = if granted == 0 { "" } else { " | " };
        check!(rt; add_outcome(&mut line, mark, outcome.as_str(), last.as_str()));
        if requests < refused {
            assert!(rt; !outcome.as_str().contains("OutOfMemory"), "line {number}");
            return line;
        }
        last = outcome;
    }
    line
}

#[test]
fn each_command_with_each_request_refused(rt: HostRuntime) {
    let ledger = leaked_ledger(&rt, rt.alloc());
    let mut number: usize = 0;
    for (command, wanted) in &OUTCOMES {
        let line = outcomes(&rt, ledger, number);
        check!(rt; same((*command, line.as_str()), (*command, *wanted)));
        number = number.saturating_add(1);
    }
}
