//! The errors that are reported for invalid lines of the input.

use std::alloc::AllocError;
use thiserror::Error;

/// The reason why a line of the input is invalid. The error messages contain placeholders, such as
/// `INDEX`. The text that the program prints for the line `help` contains the same placeholders.
#[derive(Debug, Drop, Error)]
pub enum LineError {
    /// The first word is not the name of a command.
    #[error("no command has this name (`help` lists the commands)")]
    UnknownCommand,
    /// The first word is the name of a command, but the line has too few or too many words. The
    /// field contains the form that the line should have.
    #[error("the form is `{0}`")]
    WrongForm(&'static str),
    /// A word is not a number from 0 to 2^64 - 1. The field is the name, such as `INDEX`, that
    /// stands for this word in the text that `help` prints.
    #[error("{0} is not a number from 0 to 18446744073709551615")]
    NotANumber(&'static str),
    /// The divisor of a judge is 0.
    #[error("DIVISOR is 0")]
    ZeroDivisor,
    /// The word that was given for STEPS is invalid: it is not `-`, and it contains a character
    /// other than `f` and `b`.
    #[error("STEPS is neither `-` nor a word of the letters `f` and `b`")]
    BadSteps,
    /// The line contains bytes that are not UTF-8.
    #[error("the line is not UTF-8")]
    NotUtf8,
    /// There is not enough memory for the parsed line.
    #[error("out of memory")]
    Memory(#[from(alloc)] AllocError),
}
