//! Calls that remove items, and calls that consume a list. Those that consume it make no request,
//! or one for the `Vec` that they return.
ghost use Rattle.std.specs.Prelude.{◌≤◌, length};

use crate::asserts::{assert_at_most, assert_range, assert_same};
use crate::sweep::Calls;
use std::alloc::Allocator;
use std::mem;
use std::process::Abort;
use thin_testing::{Answer, Case, Due, List, Numbered};
use thin_vec::{Growth, IntoIter, ThinVec};

/// Calls that remove items, and calls that consume a list.
pub struct Removing {}

impl<T: Numbered, G: Growth> Calls<T, G> for Removing {
    // 25 ranges, combined with 6 numbers of steps.
    const ARGUMENTS: usize = 150;

    fn call<R: Abort>(rt: &R, case: &mut Case<T, G>, call: usize) -> Option<Answer> {
        Some(match call {
            0 => drain(rt, case),
            1 => into_iter(case),
            2 => into_iter_clone(case),
            _ if case.at.argument >= 25 => return None,
            3 => drain_for(rt, case),
            _ if case.at.argument >= 10 => return None,
            4 => pop(case),
            5 => remove(case),
            6 => swap_remove(case),
            7 => truncate(case),
            8 => clear(case),
            9 => push_reserved(case),
            10 => insert_reserved(rt, case),
            11 => into_vec(case),
            12 => into_boxed_slice(case),
            13 => try_take(rt, case),
            14 => try_remove(case),
            15 => try_swap_remove(case),
            _ => return None,
        })
    }
}

fn pop<T: Numbered, G: Growth>(case: &mut Case<T, G>) -> Answer {
    case.begin("pop");
    drop(case.list.pop());
    Ok(Due::NOTHING)
}

fn remove<T: Numbered, G: Growth>(case: &mut Case<T, G>) -> Answer {
    let index = case.index();
    case.begin("remove");
    if index < case.list.len() {
        drop(case.list.remove(index));
    }
    Ok(Due::NOTHING)
}

fn swap_remove<T: Numbered, G: Growth>(case: &mut Case<T, G>) -> Answer {
    let index = case.index();
    case.begin("swap_remove");
    if index < case.list.len() {
        drop(case.list.swap_remove(index));
    }
    Ok(Due::NOTHING)
}

// The index is sometimes the length, and then no item is removed.
fn try_remove<T: Numbered, G: Growth>(case: &mut Case<T, G>) -> Answer {
    let index = case.index();
    case.begin("try_remove");
    drop(case.list.try_remove(index));
    Ok(Due::NOTHING)
}

fn try_swap_remove<T: Numbered, G: Growth>(case: &mut Case<T, G>) -> Answer {
    let index = case.index();
    case.begin("try_swap_remove");
    drop(case.list.try_swap_remove(index));
    Ok(Due::NOTHING)
}

fn truncate<T: Numbered, G: Growth>(case: &mut Case<T, G>) -> Answer {
    let len = case.new_length(false).0;
    case.begin("truncate");
    case.list.truncate(len);
    Ok(Due::NOTHING)
}

fn clear<T: Numbered, G: Growth>(case: &mut Case<T, G>) -> Answer {
    case.begin("clear");
    case.list.clear();
    Ok(Due::NOTHING)
}

fn push_reserved<T: Numbered, G: Growth>(case: &mut Case<T, G>) -> Answer {
    let item = case.item();
    case.begin("push_reserved");
    if case.list.len() < case.list.capacity() {
        case.list.push_reserved(item);
    }
    Ok(Due::NOTHING)
}

fn insert_reserved<T: Numbered, G: Growth, R: Abort>(rt: &R, case: &mut Case<T, G>) -> Answer {
    let (index, item) = (case.index(), case.item());
    case.begin("insert_reserved");
    assert_at_most(rt, index, case.list.len());
    if case.list.len() < case.list.capacity() {
        case.list.insert_reserved(index, item);
    }
    Ok(Due::NOTHING)
}

// A sequence of calls to `next` and `next_back`. On a range of at most 4 items, the arguments
// choose up to 5 calls, each from the front or from the back.
#[derive(Clone, Copy)]
struct Walk {
    steps: usize,
    // The bit of each step is 1 if the step is a call to `next_back`.
    backs: usize,
}

impl Walk {
    fn new(choice: usize, argument: usize, width: usize) -> Walk {
        let backs = [0, usize::MAX, 0x5555_5555, 0x3333_3333];
        Walk {
            steps: [
                width / 2,
                width.saturating_add(1),
                width.saturating_sub(1),
                width,
                1,
                0,
            ][choice % 6],
            backs: backs[argument % 4],
        }
    }

    fn is_back(self, step: usize) -> bool {
        self.backs >> (step % 32) & 1 == 1
    }
}

fn drain<T: Numbered, G: Growth, R: Abort>(rt: &R, case: &mut Case<T, G>) -> Answer {
    let (start, end) = case.range();
    let walk = Walk::new(case.choice(), case.at.argument, end.saturating_sub(start));
    case.begin("drain");
    assert_range(rt, start, end, case.list.len());
    drain_some(&mut case.list, start, end, walk);
    Ok(Due::NOTHING)
}

// Walks a `Drain`, and drops it.
fn drain_some<T: Numbered, A: Allocator, G: Growth>(
    list: &mut ThinVec<T, A, G>,
    start: usize,
    end: usize,
    walk: Walk,
)
    requires start_le_end { start ≤ end }
    requires in_bounds { end ≤ length list.old.items }
{
    let mut drain = list.drain(start, end);
    let _shown = (drain.as_slice().len(), drain.len(), drain.size_hint());
    for step in 0..walk.steps {
        if walk.is_back(step) {
            drop(drain.next_back());
        } else {
            drop(drain.next());
        }
    }
}

// Takes the items of the range by a `for` loop.
fn drain_for<T: Numbered, G: Growth, R: Abort>(rt: &R, case: &mut Case<T, G>) -> Answer {
    let (start, end) = case.range();
    case.begin("for loop over drain");
    assert_range(rt, start, end, case.list.len());
    drain_all(&mut case.list, start, end);
    Ok(Due::NOTHING)
}

fn drain_all<T: Numbered, A: Allocator, G: Growth>(
    list: &mut ThinVec<T, A, G>,
    start: usize,
    end: usize,
)
    requires start_le_end { start ≤ end }
    requires in_bounds { end ≤ length list.old.items }
{
    for item in list.drain(start, end) {
        drop(item);
    }
}

fn into_iter<T: Numbered, G: Growth>(case: &mut Case<T, G>) -> Answer {
    let walk = Walk::new(case.choice(), case.at.argument, case.at.length);
    let list = case.take();
    case.begin("into_iter");
    drop(stepped(list, walk));
    Ok(Due::NOTHING)
}

// Makes an iterator over the items of the list, and walks it.
fn stepped<T: Numbered, A: Allocator, G: Growth>(
    list: ThinVec<T, A, G>,
    walk: Walk,
) -> IntoIter<T, A, G> {
    let mut rest = list.into_iter();
    let _shown = (rest.as_slice().len(), rest.len(), rest.size_hint());
    let _lent = rest.as_mut_slice();
    for step in 0..walk.steps {
        if walk.is_back(step) {
            drop(rest.next_back());
        } else {
            drop(rest.next());
        }
    }
    rest
}

fn into_iter_clone<T: Numbered, G: Growth>(case: &mut Case<T, G>) -> Answer {
    let walk = Walk::new(case.choice(), case.at.argument, case.at.length);
    let rest = stepped(case.take(), walk);
    case.begin("clone of into_iter");
    let clone = rest.clone(&case.ledger.alloc)?;
    Ok(Due::block_of(clone.len()).clones(clone.len()))
}

fn into_vec<T: Numbered, G: Growth>(case: &mut Case<T, G>) -> Answer {
    let list = case.take();
    case.begin("into_vec");
    let items = list.into_vec(&case.ledger.alloc)?;
    Ok(Due::block_of(items.len()))
}

fn into_boxed_slice<T: Numbered, G: Growth>(case: &mut Case<T, G>) -> Answer {
    let list = case.take();
    case.begin("into_boxed_slice");
    let items = list.into_boxed_slice(&case.ledger.alloc)?;
    Ok(Due::block_of(items.len()))
}

fn try_take<T: Numbered, G: Growth, R: Abort>(rt: &R, case: &mut Case<T, G>) -> Answer {
    let capacity = case.list.capacity();
    case.begin("mem::try_take");
    let taken = mem::try_take(&mut case.list);
    let taken: Option<List<T, G>> = taken.ok();
    let found = taken.map(|list| list.capacity());
    assert_same(
        rt,
        case.at,
        "capacity of the list that was taken",
        found,
        Some(capacity),
    );
    // The list without a block has capacity 0, but this is no request.
    Ok(Due::NOTHING)
}
