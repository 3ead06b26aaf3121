//! Calls of `splice`. They take some items of the range, and call `finish`, which fills the gap.
ghost use Rattle.std.specs.Iterator.{IsFinite};
ghost use Rattle.std.specs.Prelude.{◌≤◌, length};
ghost use Rattle.thin_vec.specs.Edits.Splice.{SpliceKeeps};

use crate::asserts::{assert_range, assert_right};
use crate::filling::fill::{Filling, HINTS, Source, check_filling, check_left, nth_source};
use std::alloc::Allocator;
use std::iter::Iterator;
use std::process::Abort;
use thin_testing::{ALL_REQUESTS, At, Case, Ledger, Numbered, Ruled};
use thin_vec::{Growth, Splice, SpliceRefused, ThinVec, ThinVecError};

// The number of choices for the number of new items.
const NEW: usize = 12;

// The number of sequences of calls to `next` and `next_back` before `finish`.
const WALKS: usize = 8;

// Returns the number of new items for a range of `width` items. On a long list, it is once in the
// thousands.
fn count(number: usize, width: usize, is_long: bool) -> usize {
    match number {
        5 if is_long => width.saturating_add(3000),
        0..=5 => number,
        6 => width,
        7 => width.saturating_add(1),
        8 => width.saturating_add(9),
        9 => width.saturating_add(25),
        10 => width.saturating_add(60),
        _ => width.saturating_sub(1),
    }
}

// Returns what `finish` has to do. `tail` is the number of items after the range.
fn due<T: Numbered, G: Ruled>(case: &Case<T, G>, range: (usize, usize), source: Source) -> Filling {
    let (start, end) = range;
    let mut due = Filling::new(case.list.capacity(), case.at.refused);
    let length = case.list.len();
    if end == length {
        let hinted = due.ruled::<T, G>(start, source.lower);
        due.append::<T, G>(start, hinted, source.count);
        return due;
    }
    let width = end.saturating_sub(start);
    due_before_tail::<T, G>(&mut due, case.ledger, length, width, source);
    due
}

// Computes what `finish` has to do if there are items after the range. `width` items are replaced
// in a list of `length` items.
fn due_before_tail<T: Numbered, G: Ruled>(
    due: &mut Filling,
    ledger: &'static Ledger,
    length: usize,
    width: usize,
    source: Source,
) {
    if source.count < width {
        due.nexts = (source.count as u64).saturating_add(1);
        due.placed = source.count;
        return;
    }
    let source = source.after(width);
    due.nexts = width as u64;
    due.placed = width;
    due.hints = 1;
    let hinted = due.ruled::<T, G>(length, source.lower);
    if !due.grow::<T>(hinted) {
        return;
    }
    let room = width.saturating_add(source.lower);
    due.nexts = (source.count.min(room) as u64).saturating_add(1);
    due.placed = source.count.min(room);
    if source.count <= room {
        return;
    }
    let beyond = source.count.saturating_sub(room);
    if !is_held::<T>(due, ledger, beyond).unwrap_or(false) {
        return;
    }
    due.nexts = (source.count as u64).saturating_add(1);
    let whole = due.ruled::<T, G>(length.saturating_add(source.lower), beyond);
    if due.grow::<T>(whole) {
        due.placed = source.count;
    } else {
        due.held = beyond;
    }
}

// Counts the requests of a `Vec` that takes `count` items one by one. Returns whether it gets the
// memory for all of them. How the vector grows is shown by another one that takes as many.
fn is_held<T: Numbered>(due: &mut Filling, ledger: &'static Ledger, count: usize) -> Option<bool> {
    let mut other: Vec<T> = Vec::new(ledger.global);
    for held in 1..=count {
        let capacity = other.capacity();
        other.push(T::numbered(ledger, 0)).ok()?;
        let bytes = other.capacity().saturating_mul(T::size()) as u64;
        if other.capacity() != capacity && !due.is_granted(bytes) {
            due.held = held;
            return Some(false);
        }
        due.nexts = due.nexts.saturating_add(1);
    }
    Some(true)
}

/// Makes splices on lists of the given lengths, and refuses each of their requests in turn.
pub fn splices<T: Numbered, G: Ruled, R: Abort>(
    rt: &R,
    ledger: &'static Ledger,
    lengths: &[usize],
    spares: &[usize],
) {
    for length in lengths {
        let ranges = if *length <= 4 { 25 } else { 5 };
        for spare in spares {
            for argument in 0..NEW.saturating_mul(HINTS).saturating_mul(ranges) {
                each_refusal::<T, G, R>(rt, ledger, At::new(*length, *spare, argument));
            }
        }
    }
}

// Makes the splice with enough memory, and then with each of its requests refused, or with all if
// it makes none.
fn each_refusal<T: Numbered, G: Ruled, R: Abort>(rt: &R, ledger: &'static Ledger, at: At) {
    let requests = splice_case::<T, G, R>(rt, ledger, at);
    if requests == 0 {
        let refused = ALL_REQUESTS;
        let _requests = splice_case::<T, G, R>(rt, ledger, At { refused, ..at });
    }
    for refused in 0..requests {
        let refused = refused.saturating_add(1);
        let _requests = splice_case::<T, G, R>(rt, ledger, At { refused, ..at });
    }
}

// Makes one splice, and checks what it did. Returns the number of its requests. A splice that needs
// too much memory is not made, and 1 is returned, unless its first request is refused.
#[inline(never)]
fn splice_case<T: Numbered, G: Ruled, R: Abort>(rt: &R, ledger: &'static Ledger, at: At) -> u64 {
    let mut case: Case<T, G> = Case::new(ledger, at).expect(rt, "memory");
    let range = case.range();
    let source = chosen_source(&case, range);
    let due = due(&case, range, source);
    if due.is_too_much::<T>() {
        assert_right(rt, case.end());
        return 1;
    }
    let cause = splice_failure(rt, &mut case, range, source, &due);
    check_filling(rt, &case, range, cause, &due);
    assert_right(rt, case.end());
    due.requests
}

// Returns the iterator over the new items, which the argument of the case chooses.
fn chosen_source<T: Numbered, G: Growth>(case: &Case<T, G>, range: (usize, usize)) -> Source {
    let number = case.choice();
    let width = range.1.saturating_sub(range.0);
    let count = count(number / HINTS % NEW, width, case.at.length > 50);
    nth_source::<T>(case.at, number % HINTS, count)
}

// Makes the splice. If it fails, checks what its error holds, and returns the cause.
fn splice_failure<T: Numbered, G: Growth, R: Abort>(
    rt: &R,
    case: &mut Case<T, G>,
    range: (usize, usize),
    source: Source,
    due: &Filling,
) -> Option<ThinVecError> {
    let claims = source.claims(rt, case.ledger);
    let walk = case.at.argument % WALKS;
    case.begin("splice");
    assert_range(rt, range.0, range.1, case.list.len());
    let answer = splice(&mut case.list, range, walk, claims, &case.ledger.alloc);
    let Err(refused) = answer else {
        return None;
    };
    let SpliceRefused {
        cause,
        held,
        in_hand,
        rest,
    } = refused;
    check_left(rt, case, source, due, held.as_slice(), in_hand, rest);
    Some(cause)
}

// Makes a `Splice`, takes some items of the range, and calls `finish`.
fn splice<T: Numbered, A: Allocator, G: Growth, I: Iterator<Item = T>>(
    list: &mut ThinVec<T, A, G>,
    range: (usize, usize),
    walk: usize,
    iter: I,
    alloc: A,
) -> Result<(), SpliceRefused<T, I, A>>
    requires start_le_end { range.0 ≤ range.1 }
    requires in_bounds { range.1 ≤ length list.old.items }
    requires can_next { I.can_next iter }
    requires finite { IsFinite (I.remaining iter) }
{
    let mut splice = list.splice(range.0, range.1, iter);
    let _shown = (splice.len(), splice.size_hint());
    take_some(&mut splice, walk);
    splice.finish(alloc)
}

// Calls `next` up to twice and `next_back` up to once, as `walk` chooses, and drops the items.
fn take_some<T: Numbered, A: Allocator, G: Growth, I>(
    splice: &mut Splice<'_, I, T, A, G>,
    walk: usize,
)
    ensures keeps { SpliceKeeps splice.old splice.new }
{
    if walk % 2 == 1 {
        drop(splice.next());
    }
    if walk / 2 % 2 == 1 {
        drop(splice.next_back());
    }
    if walk >= 4 {
        drop(splice.next());
    }
}
