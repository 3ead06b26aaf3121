//! Reads commands, one per line, and carries them out on a `ThinVec`. After each command, writes
//! the reply, and the length and the capacity of the list. The program `thin_replay` does this with
//! its standard input and output.
mod answer;
pub mod call;
mod carried_out;
pub mod divisor_judge;
mod forms;
mod item;
pub mod line;
pub mod line_error;
pub mod replay_error;
mod words;

use crate::replay::carried_out::carry_out;
use crate::replay::item::Item;
use crate::replay::line::Line;
use crate::replay::line_error::LineError;
use crate::replay::replay_error::ReplayError;
use std::alloc::Allocator;
use std::io::{self, BufRead, BufWriter, ErrorKind, Write};
use std::process::ExitCode;
use thin_runner::command::Reply;
use thin_vec::{ThinVec, ThinVecError};

/// Writes the error to standard error, if there is one, and returns the exit status.
pub fn exit_code(rt: &impl Eprint, answered: Result<(), ReplayError>) -> ExitCode {
    match answered {
        Ok(()) => ExitCode::SUCCESS,
        Err(error) => {
            let _ = eprintln!(rt; "{error}");
            ExitCode::FAILURE
        }
    }
}

/// Reads all lines of `input`, and then carries out the commands in order, and writes the answers
/// to `out`. All memory that this takes is from `alloc`.
///
/// # Errors
///
/// Fails if a line is invalid, if reading, writing or an allocation fails, or if a reply says that
/// memory was missing. What was answered before an error is written.
pub fn replay<A: Allocator + Copy>(
    alloc: A,
    input: impl BufRead + Drop,
    out: impl Write + Drop,
) -> Result<(), ReplayError> {
    let lines = read_lines(alloc, input)?;
    let mut out = BufWriter::new(alloc, out)?;
    let answered = answer_lines(&mut out, alloc, lines);
    out.flush()?;
    answered
}

// A line of the input, after its number.
type Numbered<A> = (usize, Line<A>);

// Reads and parses all lines, and skips blank lines.
fn read_lines<A: Allocator + Copy>(
    alloc: A,
    input: impl BufRead + Drop,
) -> Result<Vec<Numbered<A>, A>, ReplayError> {
    let mut lines = Vec::new(alloc);
    for (index, text) in input.lines(alloc).enumerate() {
        let number = index.saturating_add(1);
        let text = match text {
            Ok(text) => text,
            Err(error) => return Err(read_error(number, error)),
        };
        if text.trim().is_empty() {
            continue;
        }
        match Line::parse(alloc, text.as_str()) {
            Ok(line) => lines.push((number, line)).map_err(io::Error::from)?,
            Err(cause) => return Err(ReplayError::BadLine { number, cause }),
        }
    }
    Ok(lines)
}

// Returns the error for a line that could not be read.
fn read_error(number: usize, error: io::Error) -> ReplayError {
    if error.kind() == ErrorKind::InvalidData {
        let cause = LineError::NotUtf8;
        return ReplayError::BadLine { number, cause };
    }
    ReplayError::Io(error)
}

// Carries out the lines in order on a new list, and writes the answers.
fn answer_lines<A: Allocator + Copy>(
    out: &mut impl Write,
    alloc: A,
    lines: Vec<Numbered<A>, A>,
) -> Result<(), ReplayError> {
    let mut list = ThinVec::new(alloc);
    for (number, line) in lines {
        answer_line(out, alloc, &mut list, number, line)?;
    }
    Ok(())
}

// Carries out one line of the input, and writes the answer.
fn answer_line<A: Allocator + Copy>(
    out: &mut impl Write,
    alloc: A,
    list: &mut ThinVec<Item, A>,
    number: usize,
    line: Line<A>,
) -> Result<(), ReplayError> {
    match line {
        Line::Help => answer::write_help(out)?,
        Line::Items => answer::write_items(out, list)?,
        Line::New => {
            *list = ThinVec::new(alloc);
            write!(out, "new")?;
            answer::write_state(out, list)?;
        }
        Line::Carry(call) => {
            let Ok(reply) = carry_out(alloc, list, call.command, &call.judge) else {
                return Err(ReplayError::Memory { number });
            };
            if lacks_memory(&reply) {
                return Err(ReplayError::Memory { number });
            }
            answer::write_reply(out, reply)?;
            answer::write_state(out, list)?;
        }
    }
    Ok(())
}

// Returns whether the reply says that there was not enough memory. `replay` ends at such a reply.
fn lacks_memory<A: Allocator>(reply: &Reply<Item, A>) -> bool {
    reply.refusal() == Some(ThinVecError::OutOfMemory)
}
