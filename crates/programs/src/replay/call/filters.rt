//! The parser for commands that call methods of a judge. A judge makes decisions in place of a
//! closure: for example, it decides which items `retain` keeps.

use crate::replay::call::Call;
use crate::replay::divisor_judge::DivisorJudge;
use crate::replay::item::Item;
use crate::replay::line_error::LineError;
use crate::replay::words::count_of;
use std::alloc::Allocator;
use thin_runner::command::Command;

/// Parses the words of a line as a command and a judge, which makes the decisions that a closure
/// makes in a method call. Returns `None` if the words do not have the form of a command with a
/// judge.
///
/// # Errors
///
/// Fails if the words have this form, but a word after the name of the command is invalid.
pub fn parse<A: Allocator>(words: &[&str]) -> Result<Option<Call<A>>, LineError> {
    match words {
        [name, divisor, stride, added] => {
            let Some(command) = filter(name) else {
                return Ok(None);
            };
            let judge = DivisorJudge::parse(divisor, stride, added)?;
            Ok(Some(Call { command, judge }))
        }
        ["extract_if", start, end, calls, divisor, stride, added] => {
            let start = count_of(start, "START")?;
            let end = count_of(end, "END")?;
            let command = Command::ExtractIf(start, end, count_of(calls, "CALLS")?);
            let judge = DivisorJudge::parse(divisor, stride, added)?;
            Ok(Some(Call { command, judge }))
        }
        _ => Ok(None),
    }
}

// Returns the command if `name` is that of `Retain`, `RetainMut`, `DedupBy` or `DedupByKey`, and
// otherwise `None`.
fn filter<A: Allocator>(name: &str) -> Option<Command<Item, A>> {
    match name {
        "retain" => Some(Command::Retain),
        "retain_mut" => Some(Command::RetainMut),
        "dedup_by" => Some(Command::DedupBy),
        "dedup_by_key" => Some(Command::DedupByKey),
        _ => None,
    }
}
