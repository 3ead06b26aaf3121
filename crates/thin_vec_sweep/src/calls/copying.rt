//! Calls that copy items, and do not clone them.
use crate::asserts::{assert_at_most, assert_range};
use crate::sweep::Calls;
use std::process::Abort;
use thin_testing::{Answer, Case, Due, Numbered};
use thin_vec::{Growth, ThinVec};

/// Calls that copy items, and do not clone them.
pub struct Copying {}

impl<T: Numbered + Copy, G: Growth> Calls<T, G> for Copying {
    // 25 ranges, combined with 8 numbers of new items.
    const ARGUMENTS: usize = 200;

    fn call<R: Abort>(rt: &R, case: &mut Case<T, G>, call: usize) -> Option<Answer> {
        Some(match call {
            0 => replace_range_from_copies(rt, case),
            _ if case.at.argument >= 8 => return None,
            1 => extend_from_copies(case),
            2 => extend_from_copies_reserved(rt, case),
            3 => clone_copies(case),
            4 => from_copies(case),
            5 => write_copies(case),
            _ => return None,
        })
    }
}

fn extend_from_copies<T: Numbered + Copy, G: Growth>(case: &mut Case<T, G>) -> Answer {
    let items = case.items(case.count())?;
    case.begin("extend_from_copies");
    case.list.extend_from_copies(items.as_slice())?;
    Ok(Due::NOTHING)
}

fn extend_from_copies_reserved<T: Numbered + Copy, G: Growth, R: Abort>(
    rt: &R,
    case: &mut Case<T, G>,
) -> Answer {
    let items = case.items(case.spare())?;
    case.begin("extend_from_copies_reserved");
    assert_at_most(rt, items.len(), case.list.capacity() - case.list.len());
    case.list.extend_from_copies_reserved(items.as_slice());
    Ok(Due::NOTHING)
}

fn replace_range_from_copies<T: Numbered + Copy, G: Growth, R: Abort>(
    rt: &R,
    case: &mut Case<T, G>,
) -> Answer {
    let (start, end) = case.range();
    let items = case.items(case.replacements())?;
    case.begin("replace_range_from_copies");
    assert_range(rt, start, end, case.list.len());
    case.list
        .replace_range_from_copies(start, end, items.as_slice())?;
    Ok(Due::NOTHING)
}

fn clone_copies<T: Numbered + Copy, G: Growth>(case: &mut Case<T, G>) -> Answer {
    case.begin("clone_copies");
    let clone = case.list.clone_copies(&case.ledger.alloc)?;
    Ok(Due::block_of(clone.len()))
}

fn from_copies<T: Numbered + Copy, G: Growth>(case: &mut Case<T, G>) -> Answer {
    let items = case.items(case.count())?;
    case.begin("from_copies");
    let list = ThinVec::from_copies(&case.ledger.alloc, items.as_slice())?;
    Ok(Due::block_of(list.len()))
}

fn write_copies<T: Numbered + Copy, G: Growth>(case: &mut Case<T, G>) -> Answer {
    let length = case.list.len();
    let items = case.items(length)?;
    case.begin("copy_from_slice, copy_within");
    if items.len() == case.list.len() {
        case.list.copy_from_slice(items.as_slice());
        case.list.copy_within(items.len() / 2.., 0);
    }
    Ok(Due::NOTHING)
}
