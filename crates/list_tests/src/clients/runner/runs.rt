//! Commands on long lists, and under a growth rule of the tests, with requests refused. As in
//! `thin_vec_sweep`, the list itself says what is right. Also runs of thousands of commands.
use crate::check;
use crate::checks::leaked_ledger;
use crate::clients::runner::judges::{Digits, TURNS};
use crate::clients::runner::made::{Ran, assert_clean, room, run_single, steps};
use std::process::Abort;
use thin_runner::command::{Command, Reply};
use thin_runner::runner::run;
use thin_testing::{
    Counted, Ledger, Lender, List, Numbered, Threefold, filled_list, numbered_items,
};
use thin_vec::{Doubling, Growth, ThinVec, ThinVecError};

// The steps of the commands: each fourth step is from the back.
const FOURTHS: u64 = 0x1111_1111_1111_1111;

// The number of commands that `nth_command` makes.
const COMMANDS: usize = 14;

// Returns `len` items.
fn items<T: Numbered>(rt: &impl Abort, ledger: &'static Ledger, len: usize) -> Vec<T, Lender> {
    check!(rt; numbered_items(ledger, &ledger.alloc, 7, len))
}

// Returns a command that needs memory for a list of `len` items without spare capacity.
fn nth_command<T: Numbered, G: Growth>(
    rt: &impl Abort,
    ledger: &'static Ledger,
    len: usize,
    number: usize,
) -> Command<T, Lender, G> {
    let half = len / 2;
    match number {
        0 => Command::Push(T::numbered(ledger, 7)),
        1 => Command::Insert(half, T::numbered(ledger, 7)),
        2 => Command::Reserve(len.saturating_mul(3)),
        3 => Command::ReserveExact(len.saturating_mul(3)),
        4 => Command::Resize(len.saturating_mul(2), T::numbered(ledger, 7)),
        5 => Command::ExtendFromSlice(items(rt, ledger, len)),
        6 => Command::Extend(items(rt, ledger, len), 0),
        7 => Command::Extend(items(rt, ledger, len), len),
        8 => Command::Append(check!(rt; filled_list(ledger, len, 0))),
        9 => Command::SplitOff(half),
        10 => Command::Clone,
        11 => Command::Drain(0, half, steps(rt, ledger, half, FOURTHS)),
        12 => Command::ExtractIf(0, len, half),
        _ => {
            let steps = steps(rt, ledger, half, FOURTHS);
            Command::Splice(1, half, steps, items(rt, ledger, len), 0)
        }
    }
}

// Returns the number of requests that a reply shows: one for each block of a list or a `Vec` in it,
// or 99, which is too many, if a `Vec` has much more room than it needs.
fn blocks_in<T: Drop, G: Growth>(reply: &Reply<T, Lender, G>) -> u64 {
    match reply {
        Reply::List(list) => u64::from(list.has_capacity()),
        Reply::Answers(answers) if answers.capacity() > answers.len().max(8) => 99,
        Reply::Answers(answers) => u64::from(!answers.is_empty()),
        _ => 0,
    }
}

// Returns whether the number of requests fits the outcome of a command: it failed with `cause`, or
// did not fail, and request number `refused` was to be refused. A command that does not fail makes
// `due` requests, if this number is known.
fn is_due(cause: Option<ThinVecError>, requests: u64, refused: u64, due: Option<u64>) -> bool {
    let was_refused = 0 < refused && refused <= requests;
    match cause {
        None => !was_refused && requests == due.unwrap_or(requests),
        Some(ThinVecError::CapacityOverflow) => false,
        Some(ThinVecError::OutOfMemory) => was_refused && requests == refused,
    }
}

// Executes a command on a list of `len` items by a `run` of its own, with request number `refused`
// refused. Asserts that the requests and the cause are right, and that nothing is leaked. How many
// requests an iterator takes is known from contracts and from `thin_vec_sweep`.
fn assert_command<T: Numbered, G: Growth>(
    rt: &impl Abort,
    ledger: &'static Ledger,
    len: usize,
    number: usize,
    refused: u64,
) {
    ledger.begin(0);
    let mut list: List<T, G> = check!(rt; filled_list(ledger, len, 0));
    let command = nth_command(rt, ledger, len, number);
    let is_filling = matches!(command, Command::Extend(..) | Command::Splice(..));
    let judge = Digits { digits: TURNS };
    let ran = run_single(rt, ledger, &mut list, command, &judge, refused);
    let grown = u64::from(list.capacity() != len && list.has_capacity());
    let due = ledger.clones.get().wrapping_add(grown).wrapping_add(1);
    assert_due(rt, ran, refused, if is_filling { None } else { Some(due) });
    assert_clean(rt, ledger, list);
}

// Asserts that a command made `due` requests, if this number is known, and those that its reply
// shows, or failed at the one that was refused. Drops the replies.
fn assert_due<T: Numbered, G: Growth>(
    rt: &impl Abort,
    ran: Ran<T, G>,
    refused: u64,
    due: Option<u64>,
) {
    let Ran {
        cause,
        requests,
        mut replies,
    } = ran;
    let last = if cause.is_some() { None } else { replies.pop() };
    let (cause, shown) = match &last {
        Some(reply) => (reply.refusal(), blocks_in(reply)),
        None => (cause, 0),
    };
    let due = due.map(|due| due.wrapping_add(shown));
    assert!(rt; is_due(cause, requests, refused, due), "{cause:?}");
}

// Executes each command on a list of `len` items, with each of its first requests refused.
fn assert_commands<T: Numbered, G: Growth>(rt: &impl Abort, ledger: &'static Ledger, len: usize) {
    for number in 0..COMMANDS {
        for refused in 0..4 {
            assert_command::<T, G>(rt, ledger, len, number, refused);
        }
    }
}

#[test]
fn commands_under_another_growth_rule_request_what_they_need(rt: HostRuntime) {
    let ledger = leaked_ledger(&rt, rt.alloc());
    assert_commands::<Counted<'static, u64>, Threefold>(&rt, ledger, 40);
}

// Pushes `count` items by one run, with request number `refused` refused. Returns why the run
// failed, and the number of its requests.
fn run_pushes<T: Numbered, G: Growth>(
    rt: &impl Abort,
    ledger: &'static Ledger,
    list: &mut List<T, G>,
    replies: &mut Vec<Reply<T, Lender, G>, Lender>,
    count: usize,
    refused: u64,
) -> (Result<(), ThinVecError>, u64) {
    let mut commands = room(rt, &ledger.alloc, count);
    for _ in 0..count {
        check!(rt; commands.push(Command::Push(T::numbered(ledger, 7))).ok());
    }
    ledger.begin(refused);
    let judge = Digits { digits: 0 };
    let ran = run(&ledger.alloc, list, commands, replies, &judge);
    (ran, ledger.alloc.requests())
}

// Returns how many of the replies are `Done`.
fn count_done<T: Drop, G: Growth>(replies: &[Reply<T, Lender, G>]) -> usize {
    replies
        .iter()
        .filter(|reply| matches!(reply, Reply::Done))
        .count()
}

// Runs thousands of commands at once. Then refuses the room for the replies, and asserts that no
// command is executed, that all are dropped, and that the earlier replies stay.
fn assert_long_run<T: Numbered, G: Growth>(rt: &impl Abort, ledger: &'static Ledger) {
    let mut list: List<T, G> = ThinVec::ruled(&ledger.alloc);
    let mut replies = Vec::new(&ledger.alloc);
    let ran = run_pushes(rt, ledger, &mut list, &mut replies, 5000, 0);
    check!(rt; same((ran, replies.capacity()), ((Ok(()), 13), 5000)));
    check!(rt; same((list.len(), count_done(replies.as_slice())), (5000, 5000)));
    let ran = run_pushes(rt, ledger, &mut list, &mut replies, 9000, 1);
    let found = (ran, list.len(), replies.len());
    check!(rt; same(found, ((Err(ThinVecError::OutOfMemory), 1), 5000, 5000)));
    drop(replies);
    assert_clean(rt, ledger, list);
}

#[test]
fn runs_of_long_lists_are_right(rt: HostRuntime) {
    let ledger = leaked_ledger(&rt, rt.alloc());
    assert_commands::<Counted<'static>, Doubling>(&rt, ledger, 3000);
    assert_long_run::<Counted<'static>, Doubling>(&rt, ledger);
}
