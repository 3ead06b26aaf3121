//! Defines the functions `step` and `run`, which carry out commands on a list.
ghost use Rattle.std.specs.Prelude.{◌≡◌, ◌<◌, ◌+◌, ◌≤◌, ◌↔◌, IsTrue, IfErr, IsOk, OnErr, OnOk, vec_capacity, vec_len};
ghost use Rattle.thin_runner.specs.Headline.{Headline};
ghost use Rattle.thin_runner.specs.Env.{env};
ghost use Rattle.thin_runner.specs.Steps.{Allows, IsInRange};

use crate::command::{Command, Reply};
use crate::context::Context;
use crate::judge::Judge;
use std::alloc::Allocator;
use std::marker::PhantomData;
use std::mem;
use thin_vec::{Growth, Rejected, ThinVec, ThinVecError};

// Returns whether `command` has neither an index nor a range, or has one that is in bounds.
fn is_in_range<T, A: Allocator, G: Growth>(
    list: &ThinVec<T, A, G>,
    command: &Command<T, A, G>,
) -> bool
    ensures value { IsTrue result ↔ IsInRange list.now.items command.now }
{
    match command {
        Command::Insert(index, _) => *index <= list.len(),
        Command::Remove(index) | Command::SwapRemove(index) | Command::Set(index, _) => {
            *index < list.len()
        }
        Command::SplitOff(at) => *at <= list.len(),
        Command::Drain(start, end, _) => *start <= *end && *end <= list.len(),
        Command::ExtractIf(start, end, _) => *start <= *end && *end <= list.len(),
        Command::Splice(start, end, _, _, _) => *start <= *end && *end <= list.len(),
        _ => true,
    }
}

/// Carries out one command, and returns the reply. The lists and vectors that the command makes use
/// the allocator `alloc`. A command that asks the judge gets its own copy of `judge`.
pub fn step<T: Clone + Eq, A: Allocator + Copy, G: Growth, J: Judge<T>>(
    alloc: A,
    list: &mut ThinVec<T, A, G>,
    command: Command<T, A, G>,
    judge: &J,
) -> Reply<T, A, G>
    ensures allowed { Allows T.is_clone T.is_infallible T.eq J.model G.rule T.row alloc judge.now
        list.old command result list.new }
{
    if !is_in_range(list, &command) {
        return Reply::OutOfRange(command);
    }
    let context = Context {
        alloc,
        judge: *judge,
        of: PhantomData,
    };
    match command {
        Command::Push(value) => match list.push(value) {
            Ok(()) => Reply::Done,
            Err(Rejected { value, cause }) => Reply::Returned(value, cause),
        },
        Command::Pop => Reply::Item(list.pop()),
        Command::Insert(index, value) => match list.insert(index, value) {
            Ok(()) => Reply::Done,
            Err(Rejected { value, cause }) => Reply::Returned(value, cause),
        },
        Command::Remove(index) => Reply::Item(Some(list.remove(index))),
        Command::SwapRemove(index) => Reply::Item(Some(list.swap_remove(index))),
        Command::Set(index, value) => Reply::Item(Some(mem::replace(&mut list[index], value))),
        Command::Truncate(len) => {
            list.truncate(len);
            Reply::Done
        }
        Command::Clear => {
            list.clear();
            Reply::Done
        }
        Command::Reserve(additional) => match list.reserve(additional) {
            Ok(()) => Reply::Done,
            Err(cause) => Reply::Refused(cause),
        },
        Command::ReserveExact(additional) => match list.reserve_exact(additional) {
            Ok(()) => Reply::Done,
            Err(cause) => Reply::Refused(cause),
        },
        Command::ShrinkToFit => match list.shrink_to_fit() {
            Ok(()) => Reply::Done,
            Err(cause) => Reply::Refused(cause),
        },
        Command::Resize(len, value) => context.resize(list, len, value),
        Command::ExtendFromSlice(items) => context.extend_from_slice(list, items),
        Command::Extend(items, lower) => context.extend(list, items, lower),
        Command::Append(mut other) => match list.append(&mut other) {
            Ok(()) => Reply::Other(other, None),
            Err(cause) => Reply::Other(other, Some(cause)),
        },
        Command::SplitOff(at) => context.split_off(list, at),
        Command::Clone => context.clone(list),
        Command::Retain => context.retain(list),
        Command::RetainMut => context.retain_mut(list),
        Command::Dedup => context.dedup(list),
        Command::DedupBy => context.dedup_by(list),
        Command::DedupByKey => context.dedup_by_key(list),
        Command::Drain(start, end, steps) => context.drain(list, start, end, steps),
        Command::ExtractIf(start, end, count) => context.extract_if(list, start, end, count),
        Command::Splice(start, end, steps, items, lower) => {
            context.splice(list, start, end, steps, items, lower)
        }
    }
}

/// Carries out the commands in order, each as `step` does, and appends their replies to `replies`.
///
/// # Errors
///
/// Fails with `OutOfMemory` if there is not enough memory for the replies. In this case, no command
/// is carried out, and all commands are dropped. A command that fails does not make `run` fail: its
/// reply contains the cause.
pub fn run<T: Clone + Eq, A: Allocator + Copy, G: Growth, J: Judge<T>>(
    alloc: A,
    list: &mut ThinVec<T, A, G>,
    commands: Vec<Command<T, A, G>, A>,
    replies: &mut Vec<Reply<T, A, G>, A>,
    judge: &J,
) -> Result<(), ThinVecError>
    // On success.
    ensures ok { OnOk result
        (Headline (env T.is_clone T.is_infallible T.eq J.model G.rule T.row alloc judge.now)
        list.old commands.items replies.old.items replies.new.items list.new) }

    // When it must succeed.
    ensures succeeds { vec_len replies.old + vec_len commands ≤ vec_capacity replies.old
        → IsOk result }

    // On failure, nothing changed.
    ensures err { OnErr result ((list.new ≡ list.old) × (replies.new.items ≡ replies.old.items)
        × (vec_capacity replies.new ≡ vec_capacity replies.old)) }
    ensures cause { IfErr result (λ cause. cause ≡ ThinVecError.OutOfMemory) }
{
    // Only the proof needs this call: its contract says that the list `IsBounded`.
    let _capacity = list.capacity();
    match replies.reserve(commands.len()) {
        Ok(()) => (),
        Err(_refused) => return Err(ThinVecError::OutOfMemory),
    }
    for command in commands {
        let reply = step(alloc, list, command, judge);
        match replies.push(reply) {
            Ok(()) => (),
            Err(_refused) => unreachable!(),
        }
    }
    // Only the proof needs this call: its contract says that the list `IsBounded`.
    let _end = list.capacity();
    Ok(())
}
