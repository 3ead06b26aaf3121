//! The parser for commands that add, remove or replace one item, and for `truncate` and `clear`.

use crate::replay::item::{Item, item_of};
use crate::replay::line_error::LineError;
use crate::replay::words::count_of;
use std::alloc::Allocator;
use thin_runner::command::Command;

/// Parses the words as a command that adds, removes or replaces one item, or as `truncate` or
/// `clear`. Returns `None` if they have another form.
pub fn parse<A: Allocator>(words: &[&str]) -> Result<Option<Command<Item, A>>, LineError> {
    Ok(Some(match words {
        ["push", item] => Command::Push(item_of(item)?),
        ["pop"] => Command::Pop,
        ["insert", index, item] => Command::Insert(count_of(index, "INDEX")?, item_of(item)?),
        ["remove", index] => Command::Remove(count_of(index, "INDEX")?),
        ["swap_remove", index] => Command::SwapRemove(count_of(index, "INDEX")?),
        ["set", index, item] => Command::Set(count_of(index, "INDEX")?, item_of(item)?),
        ["truncate", length] => Command::Truncate(count_of(length, "LENGTH")?),
        ["clear"] => Command::Clear,
        _ => return Ok(None),
    }))
}
