//! Calls that make a list. All lists have the growth rule `Doubling`.
use crate::asserts::assert_same;
use crate::sweep::Calls;
use std::default::{Emptied, MadeWith};
use std::process::Abort;
use thin_testing::{Answer, Case, Due, List, Numbered};
use thin_vec::{Doubling, ThinVec, ThinVecError, thin_vec};

/// Calls that make a list.
pub struct Making {}

impl<T: Numbered> Calls<T, Doubling> for Making {
    // 8 numbers of new items, combined with the two forms of the macro.
    const ARGUMENTS: usize = 16;

    fn call<R: Abort>(rt: &R, case: &mut Case<T, Doubling>, call: usize) -> Option<Answer> {
        Some(match call {
            0 => make_empty(rt, case),
            1 => repeat(case),
            2 => list_items(rt, case),
            3 => with_capacity(case),
            4 => from_slice(case),
            5 => from_vec(rt, case),
            6 => from_boxed_slice(case),
            _ => return None,
        })
    }
}

// Returns whether the macro names the allocator by `in`.
fn has_in<T: Numbered>(case: &Case<T, Doubling>) -> bool {
    case.at.argument >= 8
}

fn make_empty<T: Numbered, R: Abort>(rt: &R, case: &mut Case<T, Doubling>) -> Answer {
    case.begin("new, ruled, default_in, made_with, emptied, thin_vec![a =>], thin_vec![in a]");
    let list = empty_list(case)?;
    assert_same(rt, case.at, "capacity of an empty list", list.capacity(), 0);
    Ok(Due::NOTHING)
}

fn empty_list<T: Numbered>(case: &Case<T, Doubling>) -> Result<List<T, Doubling>, ThinVecError> {
    let alloc = &case.ledger.alloc;
    Ok(match case.at.argument % 7 {
        0 => ThinVec::new(alloc),
        1 => ThinVec::default_in(alloc),
        2 => MadeWith::made_with(alloc),
        3 => Emptied::emptied(&case.list)?,
        4 => thin_vec![in alloc]?,
        5 => thin_vec![alloc =>]?,
        _ => ThinVec::ruled(alloc),
    })
}

fn repeat<T: Numbered>(case: &mut Case<T, Doubling>) -> Answer {
    let (item, count) = (case.item(), case.count());
    case.begin("thin_vec![a => x; k], thin_vec![in a; x; k]");
    let alloc = &case.ledger.alloc;
    let list = if has_in(case) {
        thin_vec![in alloc; item; count]?
    } else {
        thin_vec![alloc => item; count]?
    };
    Ok(Due::block_of(list.capacity()).clones(count.saturating_sub(1)))
}

fn list_items<T: Numbered, R: Abort>(rt: &R, case: &mut Case<T, Doubling>) -> Answer {
    let (x, y) = (case.item(), case.item());
    case.begin("thin_vec![a => x, y], thin_vec![in a; x, y]");
    let alloc = &case.ledger.alloc;
    let list = if has_in(case) {
        thin_vec![in alloc; x, y]?
    } else {
        thin_vec![alloc => x, y]?
    };
    assert_same(rt, case.at, "capacity", list.capacity(), 2);
    Ok(Due::block_of(list.len()))
}

fn with_capacity<T: Numbered>(case: &mut Case<T, Doubling>) -> Answer {
    let capacity = case.count();
    case.begin("with_capacity");
    let list: List<T, Doubling> = ThinVec::with_capacity(&case.ledger.alloc, capacity)?;
    Ok(Due::block_of(list.capacity()))
}

fn from_slice<T: Numbered>(case: &mut Case<T, Doubling>) -> Answer {
    let items = case.items(case.count())?;
    case.begin("from_slice");
    let list = ThinVec::from_slice(&case.ledger.alloc, items.as_slice())?;
    Ok(Due::block_of(list.len()).clones(list.len()))
}

fn from_vec<T: Numbered, R: Abort>(rt: &R, case: &mut Case<T, Doubling>) -> Answer {
    let mut items = case.lent_items(case.count())?;
    let spare = [0, 1, 2, 300][case.at.argument % 4];
    items.reserve(spare).ok().expect(rt, "memory");
    case.begin("from_vec");
    let list = ThinVec::from_vec(&case.ledger.alloc, items)?;
    Ok(Due::block_of(list.len()))
}

fn from_boxed_slice<T: Numbered>(case: &mut Case<T, Doubling>) -> Answer {
    let items = case.lent_items(case.count())?.into_boxed_slice();
    case.begin("from_boxed_slice");
    let list = ThinVec::from_boxed_slice(&case.ledger.alloc, items)?;
    Ok(Due::block_of(list.len()))
}
