//! Calls that add items, or that change only the capacity.
use crate::asserts::{assert_at_most, assert_range, assert_same};
use crate::sweep::Calls;
use std::mem;
use std::process::Abort;
use thin_testing::{Answer, Case, Due, Numbered};
use thin_vec::Growth;

/// Calls that add items, or that change only the capacity.
pub struct Adding {}

impl<T: Numbered, G: Growth> Calls<T, G> for Adding {
    // 5 indices, combined with 8 numbers of new items.
    const ARGUMENTS: usize = 40;

    fn call<R: Abort>(rt: &R, case: &mut Case<T, G>, call: usize) -> Option<Answer> {
        Some(match call {
            0 => reserve(case),
            1 => reserve_exact(case),
            2 => resize(case),
            3 => resize_with(rt, case),
            4 => extend_from_slice(case),
            5 => extend_from_within(rt, case),
            6 => append(rt, case),
            7 => shrink_to(case),
            8 => try_resize_with(case),
            _ if case.at.argument >= 5 => return None,
            9 => push(case),
            10 => push_mut(case),
            11 => insert(rt, case),
            12 => insert_mut(rt, case),
            13 => shrink_to_fit(case),
            14 => split_off(rt, case),
            _ => return None,
        })
    }
}

fn push<T: Numbered, G: Growth>(case: &mut Case<T, G>) -> Answer {
    let item = case.item();
    case.begin("push");
    case.list.push(item)?;
    Ok(Due::NOTHING)
}

// Writes to the pushed item, which drops the item that was pushed.
fn push_mut<T: Numbered, G: Growth>(case: &mut Case<T, G>) -> Answer {
    let (item, mut other) = (case.item(), case.item());
    case.begin("push_mut");
    mem::swap(case.list.push_mut(item)?, &mut other);
    Ok(Due::NOTHING)
}

fn insert<T: Numbered, G: Growth, R: Abort>(rt: &R, case: &mut Case<T, G>) -> Answer {
    let (index, item) = (case.index(), case.item());
    case.begin("insert");
    assert_at_most(rt, index, case.list.len());
    case.list.insert(index, item)?;
    Ok(Due::NOTHING)
}

fn insert_mut<T: Numbered, G: Growth, R: Abort>(rt: &R, case: &mut Case<T, G>) -> Answer {
    let (index, item, mut other) = (case.index(), case.item(), case.item());
    case.begin("insert_mut");
    assert_at_most(rt, index, case.list.len());
    mem::swap(case.list.insert_mut(index, item)?, &mut other);
    Ok(Due::NOTHING)
}

fn reserve<T: Numbered, G: Growth>(case: &mut Case<T, G>) -> Answer {
    let additional = case.count();
    case.begin("reserve");
    case.list.reserve(additional)?;
    Ok(Due::NOTHING)
}

fn reserve_exact<T: Numbered, G: Growth>(case: &mut Case<T, G>) -> Answer {
    let additional = case.count();
    case.begin("reserve_exact");
    case.list.reserve_exact(additional)?;
    Ok(Due::NOTHING)
}

// The last new item is the value itself.
fn resize<T: Numbered, G: Growth>(case: &mut Case<T, G>) -> Answer {
    let (len, more) = case.new_length(true);
    let value = case.item();
    case.begin("resize");
    case.list.resize(len, value)?;
    Ok(Due::NOTHING.clones(more.saturating_sub(1)))
}

fn resize_with<T: Numbered, G: Growth, R: Abort>(rt: &R, case: &mut Case<T, G>) -> Answer {
    let (len, more) = case.new_length(true);
    let mut made = case.items(more)?;
    let (ledger, token) = (case.ledger, case.token());
    case.begin("resize_with");
    case.list.resize_with(len, move || {
        let _token = &token;
        let _earlier = ledger.called();
        made.pop().expect(rt, "an item")
    })?;
    Ok(Due::calls(more))
}

// Each call of the closure clones an item, which may fail.
fn try_resize_with<T: Numbered, G: Growth>(case: &mut Case<T, G>) -> Answer {
    let (len, more) = case.new_length(true);
    let (ledger, value) = (case.ledger, case.item());
    case.begin("try_resize_with");
    case.list.try_resize_with(len, move || {
        let _earlier = ledger.called();
        value.clone()
    })?;
    Ok(Due::calls(more).clones(more))
}

fn extend_from_slice<T: Numbered, G: Growth>(case: &mut Case<T, G>) -> Answer {
    let items = case.items(case.count())?;
    case.begin("extend_from_slice");
    let answer = case.list.extend_from_slice(items.as_slice());
    let count = items.len();
    drop(items);
    answer?;
    Ok(Due::NOTHING.clones(count))
}

fn extend_from_within<T: Numbered, G: Growth, R: Abort>(rt: &R, case: &mut Case<T, G>) -> Answer {
    let (start, end) = case.range();
    case.begin("extend_from_within");
    assert_range(rt, start, end, case.list.len());
    case.list.extend_from_within(start, end)?;
    Ok(Due::NOTHING.clones(end - start))
}

// The other list keeps its block.
fn append<T: Numbered, G: Growth, R: Abort>(rt: &R, case: &mut Case<T, G>) -> Answer {
    let mut other = case.other(case.count(), case.other_spare())?;
    case.begin("append");
    case.list.append(&mut other)?;
    assert_same(rt, case.at, "length of the other list", other.len(), 0);
    Ok(Due::NOTHING)
}

fn shrink_to<T: Numbered, G: Growth>(case: &mut Case<T, G>) -> Answer {
    let least = case.new_length(false).0;
    case.begin("shrink_to");
    case.list.shrink_to(least)?;
    Ok(Due::NOTHING)
}

fn shrink_to_fit<T: Numbered, G: Growth>(case: &mut Case<T, G>) -> Answer {
    case.begin("shrink_to_fit");
    case.list.shrink_to_fit()?;
    Ok(Due::NOTHING)
}

fn split_off<T: Numbered, G: Growth, R: Abort>(rt: &R, case: &mut Case<T, G>) -> Answer {
    let at = case.index();
    case.begin("split_off");
    assert_at_most(rt, at, case.list.len());
    let tail = case.list.split_off(&case.ledger.alloc, at)?;
    Ok(Due::block_of(tail.len()))
}
