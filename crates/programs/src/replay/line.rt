//! The type of an input line, and the parser for input lines.

use crate::replay::call::Call;
use crate::replay::forms::form_of;
use crate::replay::line_error::LineError;
use std::alloc::Allocator;

/// A line of the input.
#[derive(Drop)]
pub enum Line<A: Allocator> {
    /// The line `help`. It makes the program print the forms that a line can have.
    Help,
    /// The line `new`: the program drops the list and starts a new one.
    New,
    /// The line `items`. It makes the program print the items of the list.
    Items,
    /// Any other line. Such a line describes a command.
    Carry(Call<A>),
}

impl<A: Allocator + Copy> Line<A> {
    /// Parses a line. Fails if the line has none of the forms that `help` prints, if a word cannot
    /// be parsed, or if there is not enough memory.
    pub fn parse(alloc: A, text: &str) -> Result<Line<A>, LineError> {
        let words: Vec<&str, A> = text.split_whitespace().collect(alloc)?;
        Line::from_words(alloc, words.as_slice())
    }

    // Parses the words of a line, and fails in the same cases as `Line::parse`.
    fn from_words(alloc: A, words: &[&str]) -> Result<Line<A>, LineError> {
        match words {
            ["help"] => Ok(Line::Help),
            ["new"] => Ok(Line::New),
            ["items"] => Ok(Line::Items),
            _ => match Call::parse(alloc, words)? {
                Some(call) => Ok(Line::Carry(call)),
                None => Err(wrong_form(words)),
            },
        }
    }
}

// Returns the error for a line that has none of the known forms: an unknown command name, or a
// wrong number of words.
fn wrong_form(words: &[&str]) -> LineError {
    let Some(name) = words.first() else {
        return LineError::UnknownCommand;
    };
    match form_of(name) {
        Some(form) => LineError::WrongForm(form),
        None => LineError::UnknownCommand,
    }
}
