//! This module contains the parser for input lines that describe a command, such as `push 5`.

mod bulk;
mod filters;
mod ranges;
mod room;
mod single;

use crate::replay::divisor_judge::DivisorJudge;
use crate::replay::item::Item;
use crate::replay::line_error::LineError;
use std::alloc::Allocator;
use thin_runner::command::Command;

/// A command and a judge, which makes decisions for the command in place of a closure. If the
/// command uses no judge, the field `judge` may have any value.
#[derive(Drop)]
pub struct Call<A: Allocator> {
    pub command: Command<Item, A>,
    pub judge: DivisorJudge,
}

impl<A: Allocator + Copy> Call<A> {
    /// Parses the words of a line as a command. If the command uses a judge, the words also specify
    /// the judge, which is a value that makes decisions about items. Returns `None` if the words do
    /// not have the form of a command.
    ///
    /// # Errors
    ///
    /// Fails if one of the words is invalid, or if there is not enough memory.
    pub fn parse(alloc: A, words: &[&str]) -> Result<Option<Call<A>>, LineError> {
        if let Some(call) = filters::parse(words)? {
            return Ok(Some(call));
        }
        let command = parse_command(alloc, words)?;
        Ok(command.map(Call::unjudged))
    }

    // Makes a `Call` from a command that uses no judge. The judge in the `Call` is a placeholder.
    fn unjudged(command: Command<Item, A>) -> Call<A> {
        let judge = DivisorJudge::placeholder();
        Call { command, judge }
    }
}

// Parses the words of a line as a command that uses no judge. Returns `None` if the words do not
// have the form of such a command.
fn parse_command<A: Allocator + Copy>(
    alloc: A,
    words: &[&str],
) -> Result<Option<Command<Item, A>>, LineError> {
    if let Some(command) = single::parse(words)? {
        return Ok(Some(command));
    }
    if let Some(command) = room::parse(words)? {
        return Ok(Some(command));
    }
    if let Some(command) = bulk::parse(alloc, words)? {
        return Ok(Some(command));
    }
    ranges::parse(alloc, words)
}
