//! Calls that read or overwrite items, and calls that clone a list.
use crate::asserts::assert_same;
use crate::sweep::Calls;
use std::cmp::Ordering;
use std::process::Abort;
use thin_testing::{Answer, Case, Due, List, Numbered};
use thin_vec::{Growth, ThinVec};

/// Calls that read or overwrite items, and calls that clone a list.
pub struct Reading {}

impl<T: Numbered, G: Growth> Calls<T, G> for Reading {
    const ARGUMENTS: usize = 5;

    fn call<R: Abort>(rt: &R, case: &mut Case<T, G>, call: usize) -> Option<Answer> {
        Some(match call {
            0 => read(case),
            1 => write(case),
            2 => clone(case),
            3 => clone_of_trait(case),
            4 => fill_with(rt, case),
            _ => return None,
        })
    }
}

fn read<T: Numbered, G: Growth>(case: &mut Case<T, G>) -> Answer {
    case.begin("len, is_empty, capacity, has_capacity, allocator, as_slice, [index]");
    let (index, list) = (case.index(), &case.list);
    let _read = (list.is_empty(), list.has_capacity(), list.allocator());
    if index < list.len() && index < list.capacity() {
        let _same = list[index] == list.as_slice()[index];
        return Ok(Due::comparisons(1));
    }
    Ok(Due::NOTHING)
}

fn write<T: Numbered, G: Growth>(case: &mut Case<T, G>) -> Answer {
    let (index, item) = (case.index(), case.item());
    case.begin("list[index] = item, slice_mut");
    if index < case.list.len() {
        case.list[index] = item;
        case.list.slice_mut(0, index).reverse();
    }
    Ok(Due::NOTHING)
}

fn fill_with<T: Numbered, G: Growth, R: Abort>(rt: &R, case: &mut Case<T, G>) -> Answer {
    let len = case.list.len();
    let mut made = case.items(len)?;
    let ledger = case.ledger;
    case.begin("fill_with");
    case.list.fill_with(move || {
        let _earlier = ledger.called();
        made.pop().expect(rt, "an item")
    });
    Ok(Due::calls(len))
}

fn clone<T: Numbered, G: Growth>(case: &mut Case<T, G>) -> Answer {
    case.begin("clone");
    let clone = ThinVec::clone(&case.list, &case.ledger.alloc)?;
    Ok(Due::block_of(clone.len()).clones(clone.len()))
}

fn clone_of_trait<T: Numbered, G: Growth>(case: &mut Case<T, G>) -> Answer {
    case.begin("clone of the trait Clone");
    let clone: List<T, G> = Clone::clone(&case.list)?;
    Ok(Due::block_of(clone.len()).clones(clone.len()))
}

/// Calls that order two lists.
pub struct Comparing {}

impl<T: Numbered + Ord, G: Growth> Calls<T, G> for Comparing {
    const ARGUMENTS: usize = 5;

    fn call<R: Abort>(rt: &R, case: &mut Case<T, G>, call: usize) -> Option<Answer> {
        match call {
            0..3 => Some(compare(rt, case, call)),
            _ => None,
        }
    }
}

// The two lists are equal, or differ in the first or in the last item, or one is much longer. Each
// item up to the one that differs is compared once. For `==`, lists of different lengths differ
// without a comparison.
fn compare<T: Numbered + Ord, G: Growth, R: Abort>(
    rt: &R,
    case: &mut Case<T, G>,
    call: usize,
) -> Answer {
    let (length, argument) = (case.at.length, case.at.argument % 5);
    let other = other_list(rt, case, argument);
    let wanted = wanted_order(length, argument);
    case.begin("cmp, partial_cmp, ==");
    let is_right = match call {
        0 => case.list.cmp(&other) == wanted,
        1 => case.list.partial_cmp(&other) == Some(wanted),
        _ => (case.list == other) == (wanted == Ordering::Equal),
    };
    assert_same(rt, case.at, "order", is_right, true);
    Ok(Due::comparisons(match argument {
        1 => length.min(1),
        3 | 4 if call > 1 && length != other.len() => 0,
        _ => length.min(other.len()),
    }))
}

// Makes the list with which the list of the case is compared.
fn other_list<T: Numbered, G: Growth, R: Abort>(
    rt: &R,
    case: &Case<T, G>,
    argument: usize,
) -> List<T, G> {
    let length = case.at.length;
    let other_length = match argument {
        3 => length / 2,
        4 => length.saturating_mul(2).saturating_add(3),
        _ => length,
    };
    let index = match argument {
        1 => 0,
        2 => length.saturating_sub(1),
        _ => other_length,
    };
    let mut other = case.other(other_length, 0).expect(rt, "memory");
    if let Some(place) = other.get_mut(index) {
        *place = case.item();
    }
    other
}

// Returns the order of a list of `length` items and the other list. The item in which they differ
// has the number 200 in the other list, and the items of the list count from 0.
fn wanted_order(length: usize, argument: usize) -> Ordering {
    match argument {
        2 if length > 201 => Ordering::Greater,
        1 | 2 if length > 0 => Ordering::Less,
        3 if length > 0 => Ordering::Greater,
        4 => Ordering::Less,
        _ => Ordering::Equal,
    }
}
