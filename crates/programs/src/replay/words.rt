//! Parsers for the individual words of a line.

use crate::replay::item::{Item, item_of};
use crate::replay::line_error::LineError;
use std::alloc::{AllocError, Allocator};
use thin_runner::command::Step;
use thin_vec::ThinVec;

/// Parses a word as a number. Fails if the word is not a number. The error refers to the word as
/// `name`, for example `ITEM`.
pub fn number_of(word: &str, name: &'static str) -> Result<u64, LineError> {
    match word.parse::<u64>() {
        Ok(number) => Ok(number),
        Err(_) => Err(LineError::NotANumber(name)),
    }
}

/// Parses a word as an index or a count. Fails if the word is not a number. The error refers to the
/// word as `name`, for example `INDEX`.
pub fn count_of(word: &str, name: &'static str) -> Result<usize, LineError> {
    match word.parse::<usize>() {
        Ok(count) => Ok(count),
        Err(_) => Err(LineError::NotANumber(name)),
    }
}

/// Parses each word as an item, and returns a `Vec` of the items in order.
pub fn items_of<A: Allocator>(alloc: A, words: &[&str]) -> Result<Vec<Item, A>, LineError> {
    let mut items = Vec::new(alloc);
    for word in words {
        items.push(item_of(word)?)?;
    }
    Ok(items)
}

/// Parses each word as an item, and returns a `ThinVec` of the items in order.
pub fn list_of<A: Allocator>(alloc: A, words: &[&str]) -> Result<ThinVec<Item, A>, LineError> {
    let mut list = ThinVec::new(alloc);
    for word in words {
        list.push(item_of(word)?).map_err(AllocError::from)?;
    }
    Ok(list)
}

/// Parses a word as steps, which are calls to `next` or `next_back`. The word `-` stands for no
/// steps. In any other word, each letter stands for one step.
pub fn steps_of<A: Allocator>(alloc: A, word: &str) -> Result<Vec<Step, A>, LineError> {
    let mut steps = Vec::new(alloc);
    if word == "-" {
        return Ok(steps);
    }
    let letters = word.as_bytes();
    for letter in letters {
        steps.push(step_of(*letter)?)?;
    }
    Ok(steps)
}

// Parses a letter as a step, which is a call to `next` or `next_back`.
fn step_of(letter: u8) -> Result<Step, LineError> {
    match letter {
        b'f' => Ok(Step::Front),
        b'b' => Ok(Step::Back),
        _ => Err(LineError::BadSteps),
    }
}
