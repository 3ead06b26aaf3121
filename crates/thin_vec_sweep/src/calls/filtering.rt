//! Calls that remove the items that a closure, or a comparison, chooses.
ghost use Rattle.std.proofs.Common.{rules};
ghost use Rattle.std.specs.Cmp.Rules.{comparing};
ghost use Rattle.std.specs.Prelude.{◌==◌, ◌≤◌, length};

use crate::asserts::{assert_range, assert_same};
use crate::sweep::Calls;
use std::alloc::{Allocator, Global};
use std::cell::Cell;
use std::mem;
use std::process::Abort;
use std::rc::Rc;
use thin_testing::{Answer, At, Case, Due, Numbered};
use thin_vec::{Growth, ThinVec};

/// Calls that remove the items that a closure, or a comparison, chooses.
pub struct Filtering {}

impl<T: Numbered, G: Growth> Calls<T, G> for Filtering {
    // 25 ranges combined with 6 numbers of calls to `next`, or 16 patterns.
    const ARGUMENTS: usize = 150;

    fn call<R: Abort>(rt: &R, case: &mut Case<T, G>, call: usize) -> Option<Answer> {
        Some(match call {
            0 => extract_if(rt, case),
            _ if case.at.argument >= 16 => return None,
            1 => retain(case),
            2 => retain_mut(case),
            3 => pop_if(case),
            4 => dedup(case),
            5 => dedup_by(case),
            6 => dedup_by_key(rt, case),
            _ => return None,
        })
    }
}

fn retain<T: Numbered, G: Growth>(case: &mut Case<T, G>) -> Answer {
    let (at, ledger, token) = (case.at, case.ledger, case.token());
    case.begin("retain");
    case.list.retain(move |_item| {
        let _token = &token;
        at.keeps(ledger.called())
    });
    Ok(Due::calls(case.at.length))
}

fn retain_mut<T: Numbered, G: Growth>(case: &mut Case<T, G>) -> Answer {
    let (at, ledger, token) = (case.at, case.ledger, case.token());
    case.begin("retain_mut");
    case.list.retain_mut(move |_item| {
        let _token = &token;
        at.keeps(ledger.called())
    });
    Ok(Due::calls(case.at.length))
}

fn pop_if<T: Numbered, G: Growth>(case: &mut Case<T, G>) -> Answer {
    let (at, ledger, token) = (case.at, case.ledger, case.token());
    let mut other = case.item();
    case.begin("pop_if");
    drop(
        case.list.pop_if(move |item| {
            let _token = &token;
            mem::swap(item, &mut other);
            at.keeps(ledger.called())
        }),
    );
    Ok(Due::calls(case.at.length.min(1)))
}

// Before the call, each item that is to be removed is made equal to the item before it.
fn dedup<T: Numbered, G: Growth>(case: &mut Case<T, G>) -> Answer {
    let at = case.at;
    let mut number: u64 = 0;
    let mut index: u64 = 0;
    for place in case.list.as_mut_slice() {
        if at.keeps(index) {
            number = index;
        }
        *place = T::numbered(case.ledger, number);
        index = index.saturating_add(1);
    }
    case.begin("dedup");
    case.list.dedup();
    Ok(Due::comparisons(case.at.length.saturating_sub(1)))
}

// The closure exchanges the two items.
fn dedup_by<T: Numbered, G: Growth>(case: &mut Case<T, G>) -> Answer {
    let (at, ledger, token) = (case.at, case.ledger, case.token());
    case.begin("dedup_by");
    case.list.dedup_by(move |later, kept| {
        let _token = &token;
        mem::swap(later, kept);
        at.keeps(ledger.called())
    });
    Ok(Due::calls(case.at.length.saturating_sub(1)))
}

// The key of an item. Two keys are equal if their numbers are. The key owns the counter of the
// calls of the closure, which counts comparisons, too, and shows whether the key is dropped.
#[derive(Drop)]
struct Key {
    number: u64,
    counter: Option<Rc<Cell<u64>>>,
}

impl PartialEq for Key {
    ghost eq = { λ key other. key.number == other.number };

    ghost laws = { Prim.search (comparing, rules) };

    fn eq(&self, other: &Key) -> bool {
        if let Some(counter) = &self.counter {
            let _earlier = next_call(counter);
        }
        self.number == other.number
    }
}

// Two calls make the keys of two neighbors, first that of the later item, and then the keys are
// compared once. The key of a kept item is 0, and the later item is removed if its key is 0.
fn dedup_by_key<T: Numbered, G: Growth, R: Abort>(rt: &R, case: &mut Case<T, G>) -> Answer {
    let at = case.at;
    let calls = no_calls(rt, case.ledger.global);
    let counter = calls.clone().expect(rt, "memory");
    case.begin("dedup_by_key");
    dedup_counted(&mut case.list, (at.length, at.argument), counter);
    assert_calls(
        rt,
        at,
        &calls,
        (at.length as u64).saturating_sub(1).saturating_mul(3),
    );
    Ok(Due::NOTHING)
}

// Passes to `dedup_by_key` a closure that owns the counter.
fn dedup_counted<T: Numbered, A: Allocator, G: Growth>(
    list: &mut ThinVec<T, A, G>,
    chosen: (usize, usize),
    counter: Rc<Cell<u64>>,
) {
    list.dedup_by_key(move |_item| {
        let call = next_call(&counter);
        let keeps = At::new(chosen.0, 0, chosen.1).keeps(call / 3);
        Key {
            number: u64::from(call % 3 == 0 && keeps),
            counter: counter.clone().ok(),
        }
    });
}

// Makes a counter of calls.
fn no_calls<R: Abort>(rt: &R, alloc: Global) -> Rc<Cell<u64>> {
    Rc::new(alloc, Cell::new(0)).ok().expect(rt, "memory")
}

// Asserts that the counter has no other owner, and that it has counted `due` calls.
fn assert_calls<R: Abort>(rt: &R, at: At, calls: &Rc<Cell<u64>>, due: u64) {
    let found = (Rc::strong_count(calls), calls.as_ref().get());
    assert_same(rt, at, "owners of the counter; calls", found, (1, due));
}

// Counts a call, and returns the number of earlier calls.
fn next_call(counter: &Rc<Cell<u64>>) -> u64 {
    let call = counter.as_ref().get();
    counter.as_ref().set(call.saturating_add(1));
    call
}

// The closure picks the items that the pattern does not keep. Some calls to `next` are made, and
// then the `ExtractIf` is dropped. The closure owns a counter of its calls, which shows whether the
// closure is dropped.
fn extract_if<T: Numbered, G: Growth, R: Abort>(rt: &R, case: &mut Case<T, G>) -> Answer {
    let (start, end) = case.range();
    let width = end.saturating_sub(start);
    let choices = [width / 8, width.saturating_add(1), 2, 1, 0, width];
    let wanted = choices[case.choice() % 6];
    let calls = no_calls(rt, case.ledger.global);
    let counter = calls.clone().expect(rt, "memory");
    case.begin("extract_if");
    assert_range(rt, start, end, case.list.len());
    let at = case.at;
    let chosen = (at.length, at.argument);
    extract(&mut case.list, (start, end, wanted), chosen, counter);
    assert_calls(rt, at, &calls, asked(at, width, wanted));
    Ok(Due::NOTHING)
}

// Makes an `ExtractIf` of a range, which is the first two numbers of `plan`. Calls `next` as often
// as the third number says. `chosen` is the length and the argument of the case: the borrow checker
// accepts no closure that holds an `At`, which has a reference.
fn extract<T: Numbered, A: Allocator, G: Growth>(
    list: &mut ThinVec<T, A, G>,
    plan: (usize, usize, usize),
    chosen: (usize, usize),
    counter: Rc<Cell<u64>>,
)
    requires start_le_end { plan.0 ≤ plan.1 }
    requires in_bounds { plan.1 ≤ length list.old.items }
{
    let mut extract = list.extract_if(plan.0, plan.1, move |_item: &mut T| {
        !At::new(chosen.0, 0, chosen.1).keeps(next_call(&counter))
    });
    let _shown = extract.size_hint();
    for _ in 0..plan.2 {
        drop(extract.next());
    }
}

// Returns how many of `width` items a closure is asked about until it has picked `wanted` of them.
fn asked(at: At, width: usize, wanted: usize) -> u64 {
    let mut picked: usize = 0;
    for index in 0..width as u64 {
        if picked == wanted {
            return index;
        }
        if !at.keeps(index) {
            picked = picked.saturating_add(1);
        }
    }
    width as u64
}
