//! Rows about sparse tables, and about commands.
ghost use Rattle.std.specs.Ordering.{int_eq};
ghost use Rattle.std.specs.Prelude.{◌<◌, int_rem, length, pos};

use crate::bench::checks::Checks;
use crate::bench::reporting::Outcome;
use std::alloc::Allocator;
use thin_rows::Rows;
use thin_runner::command::{Command, Reply, Step};
use thin_runner::judge::Judge;
use thin_runner::runner::{run, step};
use thin_vec::{ThinVec, ThinVecError};

// Checks that the table has three rows, and that row 1 has the entries `entries` and the other rows
// are empty. `owns_block` says whether row 1 must own an allocation.
fn check_entries<A: Allocator>(
    checks: &mut Checks,
    table: &Rows<char, A>,
    entries: &[(usize, char)],
    owns_block: bool,
)
    requires in_bounds { 1 < length table.now }
{
    checks.same((table.rows(), table.len()), (3, entries.len()));
    checks.items(table.row(1), entries);
    checks.same(table.owns_block(1), owns_block);
}

/// Checks `set` and `remove` of a sparse table with three rows.
pub fn row_40<A: Allocator + Copy>(alloc: A) -> Outcome {
    let mut checks = Checks::new();
    let mut table = Rows::with_rows(alloc, 3)?;
    checks.same(table.set(1, 7, 'a')?, None);
    checks.same(table.set(1, 2, 'b')?, None);
    check_entries(&mut checks, &table, &[(2, 'b'), (7, 'a')], true);
    checks.same(table.set(1, 7, 'c')?, Some('a'));
    checks.same(table.remove(1, 2), Some('b'));
    checks.same(table.remove(1, 7), Some('c'));
    check_entries(&mut checks, &table, &[], false);
    Ok(checks)
}

/// A judge makes decisions in place of a closure. With this judge, `retain` and `retain_mut` keep
/// the even numbers, and `extract_if` removes them. For `dedup_by`, equal numbers are duplicates.
/// For `dedup_by_key`, all numbers are duplicates, because they all have the key 0.
#[derive(Clone, Copy)]
pub struct Evens;

impl Judge<i32> for Evens {
    ghost model = { record {
      look = λ j x. (int_eq (int_rem x (pos 2)) (pos 0), j);
      keep = λ j x. (int_eq (int_rem x (pos 2)) (pos 0), x, j);
      same = λ j x y. (int_eq x y, x, y, j);
      key = λ j x. (0, x, j);
      take = λ j x. (int_eq (int_rem x (pos 2)) (pos 0), x, j);
    } };

    fn look(&mut self, item: &i32) -> bool {
        *item % 2 == 0
    }

    fn keep(&mut self, item: &mut i32) -> bool {
        *item % 2 == 0
    }

    fn same(&mut self, later: &mut i32, kept: &mut i32) -> bool {
        *later == *kept
    }

    fn key(&mut self, _item: &mut i32) -> u64 {
        0
    }

    fn take(&mut self, item: &mut i32) -> bool {
        *item % 2 == 0
    }
}

// Appends `item` to `items`.
fn put<T: Drop, A: Allocator>(items: &mut Vec<T, A>, item: T) -> Result<(), ThinVecError> {
    match items.push(item) {
        Ok(()) => Ok(()),
        Err(_refused) => Err(ThinVecError::OutOfMemory),
    }
}

// Makes three commands for an empty list: an insert at index 9, which is past the end, a push, and
// a drain that yields the pushed item.
fn past_the_end<A: Allocator + Copy>(alloc: A) -> Result<Vec<Command<i32, A>, A>, ThinVecError> {
    let mut steps = Vec::new(alloc);
    put(&mut steps, Step::Back)?;
    put(&mut steps, Step::Front)?;
    let mut commands = Vec::new(alloc);
    put(&mut commands, Command::Insert(9, 1))?;
    put(&mut commands, Command::Push(5))?;
    put(&mut commands, Command::Drain(0, 1, steps))?;
    Ok(commands)
}

// Compares the replies to the commands of `past_the_end` with the expected replies.
fn check_replies<A: Allocator>(checks: &mut Checks, replies: &[Reply<i32, A>]) {
    match replies {
        [
            Reply::OutOfRange(Command::Insert(index, value)),
            Reply::Done,
            Reply::Answers(answers),
        ] => {
            checks.same((*index, *value), (9, 1));
            checks.items(answers.as_slice(), &[Some(5), None]);
        }
        _ => checks.is(false),
    }
}

// Fails if the reply says that the call failed.
fn check_granted<A: Allocator>(reply: &Reply<i32, A>) -> Result<(), ThinVecError> {
    match reply.refusal() {
        Some(cause) => Err(cause),
        None => Ok(()),
    }
}

/// Checks the capacity of a new list after each of five pushes. Each push is a command, which
/// `step` carries out.
pub fn row_2<A: Allocator + Copy>(alloc: A) -> Outcome {
    let mut checks = Checks::new();
    let mut list = ThinVec::new(alloc);
    for (item, capacity) in [(1, 4), (2, 4), (3, 4), (4, 4), (5, 8)] {
        let reply = step(alloc, &mut list, Command::Push(item), &Evens);
        check_granted(&reply)?;
        checks.is(matches!(reply, Reply::Done));
        checks.same(list.capacity(), capacity);
    }
    checks.holds(&list, &[1, 2, 3, 4, 5], 8);
    Ok(checks)
}

/// Checks a call to `run` with three commands: an insert past the end of the list, a push, and a
/// drain of the pushed item.
pub fn row_41<A: Allocator + Copy>(alloc: A) -> Outcome {
    let mut checks = Checks::new();
    let mut list: ThinVec<i32, A> = ThinVec::new(alloc);
    let mut replies = Vec::new(alloc);
    run(alloc, &mut list, past_the_end(alloc)?, &mut replies, &Evens)?;
    for reply in &replies {
        check_granted(reply)?;
    }
    check_replies(&mut checks, replies.as_slice());
    checks.holds(&list, &[], 4);
    Ok(checks)
}
