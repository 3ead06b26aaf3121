//! Calls that replace a range, or that append to the spare capacity.
use crate::asserts::{assert_at_most, assert_range};
use crate::sweep::Calls;
use std::process::Abort;
use thin_testing::{Answer, Case, Due, Numbered};
use thin_vec::Growth;

/// Calls that replace a range, or that append to the spare capacity.
pub struct Replacing {}

impl<T: Numbered, G: Growth> Calls<T, G> for Replacing {
    // 25 ranges, combined with 8 numbers of new items.
    const ARGUMENTS: usize = 200;

    fn call<R: Abort>(rt: &R, case: &mut Case<T, G>, call: usize) -> Option<Answer> {
        Some(match call {
            0 => replace_range(rt, case),
            1 => replace_range_from_list(rt, case),
            2 => swap_range(rt, case),
            _ if case.at.argument >= 5 => return None,
            3 => append_reserved(rt, case),
            4 => extend_from_slice_reserved(rt, case),
            _ => return None,
        })
    }
}

fn replace_range<T: Numbered, G: Growth, R: Abort>(rt: &R, case: &mut Case<T, G>) -> Answer {
    let (start, end) = case.range();
    let items = case.items(case.replacements())?;
    case.begin("replace_range");
    assert_range(rt, start, end, case.list.len());
    let alloc = &case.ledger.alloc;
    let answer = case.list.replace_range(alloc, start, end, items.as_slice());
    let count = items.len();
    drop(items);
    answer?;
    Ok(Due::block_of(count).clones(count))
}

// The other list keeps its block.
fn replace_range_from_list<T: Numbered, G: Growth, R: Abort>(
    rt: &R,
    case: &mut Case<T, G>,
) -> Answer {
    let (start, end) = case.range();
    let mut other = case.other(case.replacements(), case.other_spare())?;
    case.begin("replace_range_from_list");
    assert_range(rt, start, end, case.list.len());
    case.list.replace_range_from_list(start, end, &mut other)?;
    Ok(Due::NOTHING)
}

// At most one of the two lists grows.
fn swap_range<T: Numbered, G: Growth, R: Abort>(rt: &R, case: &mut Case<T, G>) -> Answer {
    let (start, end) = case.range();
    let mut other = case.other(case.replacements(), case.other_spare())?;
    let capacity = other.capacity();
    case.begin("swap_range");
    assert_range(rt, start, end, case.list.len());
    case.list.swap_range(start, end, &mut other)?;
    if other.capacity() == capacity {
        Ok(Due::NOTHING)
    } else {
        Ok(Due::block_of(other.capacity()))
    }
}

fn append_reserved<T: Numbered, G: Growth, R: Abort>(rt: &R, case: &mut Case<T, G>) -> Answer {
    let count = case.spare();
    let mut other = case.other(count, case.other_spare())?;
    case.begin("append_reserved");
    assert_at_most(rt, other.len(), case.list.capacity() - case.list.len());
    case.list.append_reserved(&mut other);
    Ok(Due::NOTHING)
}

fn extend_from_slice_reserved<T: Numbered, G: Growth, R: Abort>(
    rt: &R,
    case: &mut Case<T, G>,
) -> Answer {
    let count = case.spare();
    let items = case.items(count)?;
    case.begin("extend_from_slice_reserved");
    assert_at_most(rt, items.len(), case.list.capacity() - case.list.len());
    let answer = case.list.extend_from_slice_reserved(items.as_slice());
    drop(items);
    answer?;
    Ok(Due::NOTHING.clones(count))
}
