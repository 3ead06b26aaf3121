//! Runs rows, and writes a report of them.
use crate::bench::checks::Checks;
use crate::bench::rows::{NUMBERS, row};
use std::alloc::Allocator;
use std::io;
use std::io::Write;
use thin_vec::ThinVecError;

/// The result of a row: its comparisons, or the error of a call that failed unexpectedly.
pub type Outcome = Result<Checks, ThinVecError>;

// The exit status of the program.
#[derive(Clone, Copy)]
enum Status {
    EveryRowOk = 0,
    RowFailed = 1,
    OutOfMemory = 2,
    NotWritten = 3,
}

/// Runs all rows of this crate in order, and writes to `out` one line for each row and then a
/// summary. Returns the exit status of the program:
///
/// - 0 if every row is ok
/// - 1 if a row failed
/// - 2 if memory runs out; the last line is then `out of memory`, and the other rows are not run
/// - 3 if writing to `out` fails; nothing more is written
pub fn report<A: Allocator + Copy, W: Write>(alloc: A, out: &mut W) -> u8 {
    report_rows(NUMBERS.as_slice(), |number| row(alloc, number), out)
}

/// Does what `report` does, but with the rows that have the given numbers. The function `row` runs
/// the row that has a given number.
pub fn report_rows<F: Fn(u32) -> Outcome, W: Write>(numbers: &[u32], row: F, out: &mut W) -> u8
    requires callable { F.IsAlwaysCallable row }
{
    write_rows(numbers, row, out).unwrap_or(Status::NotWritten) as u8
}

fn write_rows<F: Fn(u32) -> Outcome, W: Write>(
    numbers: &[u32],
    row: F,
    out: &mut W,
) -> io::Result<Status>
    requires callable { F.IsAlwaysCallable row }
{
    let mut failed: u32 = 0;
    for &number in numbers {
        match write_row(number, row(number), out)? {
            Status::EveryRowOk => (),
            Status::RowFailed => failed = failed.saturating_add(1),
            end => return Ok(end),
        }
    }
    if failed > 0 {
        writeln!(out, "{failed} rows failed")?;
        return Ok(Status::RowFailed);
    }
    let count = numbers.len();
    writeln!(out, "{count} rows ok")?;
    Ok(Status::EveryRowOk)
}

// Writes the line about one row, and returns the exit status for this row alone.
fn write_row<W: Write>(number: u32, outcome: Outcome, out: &mut W) -> io::Result<Status> {
    let (told, status) = match outcome {
        Ok(checks) if checks.is_ok() => ("ok", Status::EveryRowOk),
        Ok(_) | Err(ThinVecError::CapacityOverflow) => ("failed", Status::RowFailed),
        Err(ThinVecError::OutOfMemory) => {
            writeln!(out, "out of memory")?;
            return Ok(Status::OutOfMemory);
        }
    };
    writeln!(out, "row {number} {told}")?;
    Ok(status)
}
