//! The errors that end the program with the exit status 1.

use crate::replay::line_error::LineError;
use std::io;
use thiserror::Error;

/// The reason why the program could not read, carry out or answer all lines of the input.
#[derive(Debug, Drop, Error)]
pub enum ReplayError {
    /// A line of the input is invalid, so no command was carried out.
    #[error("line {number}: {cause}")]
    BadLine {
        /// The number of the invalid line. Line numbers start at 1.
        number: usize,
        /// The reason why the line is invalid.
        cause: LineError,
    },
    /// Reading the input or writing the output failed, or there was not enough memory for the
    /// lines of the input, or for the buffer of the output.
    #[error("{0}")]
    Io(#[from] io::Error),
    /// There was not enough memory to carry out the command, or for its reply. The commands before
    /// this line were carried out and answered.
    #[error("line {number}: out of memory")]
    Memory {
        /// The number of the line.
        number: usize,
    },
}
