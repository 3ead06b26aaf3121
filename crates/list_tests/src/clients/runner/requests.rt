//! Tests of `run` and `step`: `run` makes no request for replies for which there is room, and a
//! reply uses the allocator that was passed.
use crate::check;
use crate::checks::leaked_refusing;
use crate::clients::runner::judges::Digits;
use std::alloc::Allocator;
use std::process::Abort;
use thin_runner::command::{Command, Reply, Step};
use thin_runner::runner::{run, step};
use thin_testing::Lender;
use thin_vec::ThinVec;

// A judge that answers `false`.
const NEVER: Digits = Digits { digits: 0 };

#[test]
fn run_makes_no_request_without_commands(rt: HostRuntime) {
    let refusing = leaked_refusing(&rt, rt.alloc(), 1);
    let mut list = ThinVec::<i32, Lender>::new(refusing);
    let mut replies = Vec::new(refusing);
    let commands = Vec::new(refusing);
    check!(rt; same(run(refusing, &mut list, commands, &mut replies, &NEVER), Ok(())));
    check!(rt; same(refusing.requests(), 0));
}

// Returns commands that pop an item.
fn pops<A: Allocator>(rt: &impl Abort, alloc: A, count: usize) -> Vec<Command<i32, A>, A> {
    let mut commands = check!(rt; Vec::with_capacity(alloc, count));
    for _ in 0..count {
        check!(rt; commands.push(Command::Pop).ok());
    }
    commands
}

// Pops `count` items by one run, and asserts that it makes no request.
fn assert_pops(rt: &impl Abort, lender: Lender, list: &mut ThinVec<i32, Lender>, count: usize) {
    lender.refuse(0);
    let mut replies = check!(rt; Vec::with_capacity(lender, 9));
    let commands = pops(rt, lender, count);
    lender.refuse(1);
    let ran = run(lender, list, commands, &mut replies, &NEVER);
    check!(rt; same((ran, lender.requests(), replies.len()), (Ok(()), 0, count)));
}

#[test]
fn run_makes_no_request_if_there_is_room_for_its_replies(rt: HostRuntime) {
    let lender = leaked_refusing(&rt, rt.alloc(), 0);
    let mut list = check!(rt; ThinVec::from_copies(lender, &[1, 2]));
    for count in [1, 2, 9] {
        assert_pops(&rt, lender, &mut list, count);
    }
}

// Returns one step.
fn one_step<A: Allocator>(rt: &impl Abort, alloc: A) -> Vec<Step, A> {
    let mut steps = Vec::new(alloc);
    check!(rt; steps.push(Step::Front));
    steps
}

// Returns a command on a list of three items. Its reply owns one block.
fn nth_command<A: Allocator + Copy>(rt: &impl Abort, number: u32, alloc: A) -> Command<i32, A> {
    match number {
        0 => Command::Clone,
        1 => Command::SplitOff(1),
        2 => Command::Drain(0, 2, one_step(rt, alloc)),
        3 => Command::ExtractIf(0, 2, 1),
        _ => Command::Splice(0, 2, one_step(rt, alloc), Vec::new(alloc), 0),
    }
}

// Executes a command on a list over `own` by `step`, to which it passes `other`.
fn reply_on(rt: &impl Abort, own: Lender, other: Lender, number: u32) -> Reply<i32, Lender> {
    let mut list = check!(rt; ThinVec::from_copies(own, &[1, 2, 3]));
    let command = nth_command(rt, number, own);
    own.refuse(0);
    step(other, &mut list, command, &NEVER)
}

#[test]
fn a_reply_uses_the_allocator_passed(rt: HostRuntime) {
    let own = leaked_refusing(&rt, rt.alloc(), 0);
    let other = leaked_refusing(&rt, rt.alloc(), 0);
    for number in 0..5 {
        let reply = reply_on(&rt, own, other, number);
        let found = (number, own.requests(), other.blocks());
        check!(rt; same(found, (number, 0, 1)));
        drop(reply);
    }
}

// Pushes an item to each of the two vectors of the reply, if the command was stopped. They are
// empty, and each gets a block.
fn fill<A: Allocator>(rt: &impl Abort, reply: &mut Reply<i32, A>) {
    if let Reply::Stopped { answers, held, .. } = reply {
        check!(rt; answers.push(None));
        check!(rt; held.push(7));
    }
}

#[test]
fn a_reply_to_a_stopped_extend_uses_the_allocator_passed(rt: HostRuntime) {
    let own = leaked_refusing(&rt, rt.alloc(), 0);
    let other = leaked_refusing(&rt, rt.alloc(), 0);
    let mut list = check!(rt; ThinVec::from_copies(own, &[1, 2, 3]));
    let command = Command::Extend(Vec::new(own), usize::MAX);
    own.refuse(0);
    let mut reply = step(other, &mut list, command, &NEVER);
    fill(&rt, &mut reply);
    check!(rt; same((own.requests(), other.blocks()), (0, 2)));
}
