//! Prints replies and lists.
use crate::clients::runner::made::{Asked, Item, List, Told};
use std::alloc::{AllocError, Global};
use std::fmt::Debug;
use thin_runner::command::{Command, Reply};

/// Prints the items of the list and its capacity.
pub fn list_text(alloc: Global, list: &List<Item>) -> Result<String, AllocError> {
    format!(in alloc; "{list:?} {}", list.capacity())
}

/// Prints the reply with all that it owns, and drops it. The rest of an iterator is printed as the
/// items that it yields.
pub fn reply_text(alloc: Global, reply: Told<Item>) -> Result<String, AllocError> {
    match reply {
        Reply::Done => format!(in alloc; "Done"),
        Reply::Item(item) => text_of_one(alloc, "Item", &item),
        Reply::Answers(answers) => text_of_one(alloc, "Answers", &answers),
        Reply::List(list) => text_of(alloc, "List", (&list, list.capacity())),
        Reply::Other(list, cause) => text_of(alloc, "Other", (&list, list.capacity(), cause)),
        Reply::Returned(item, cause) => text_of(alloc, "Returned", (&item, cause)),
        Reply::Refused(cause) => text_of_one(alloc, "Refused", &cause),
        Reply::Stopped {
            answers,
            cause,
            held,
            in_hand,
            rest,
        } => {
            let rest: Vec<Item> = rest.collect(alloc)?;
            text_of(alloc, "Stopped", (&answers, cause, &held, &in_hand, &rest))
        }
        Reply::OutOfRange(command) => {
            let command = command_text(alloc, &command)?;
            format!(in alloc; "OutOfRange({})", command.as_str())
        }
    }
}

// Prints a command whose index or range can be out of bounds, with all that it owns.
fn command_text(alloc: Global, command: &Asked<Item>) -> Result<String, AllocError> {
    match command {
        Command::Insert(index, item) => text_of(alloc, "Insert", (index, item)),
        Command::Remove(index) => text_of_one(alloc, "Remove", index),
        Command::SwapRemove(index) => text_of_one(alloc, "SwapRemove", index),
        Command::Set(index, item) => text_of(alloc, "Set", (index, item)),
        Command::SplitOff(at) => text_of_one(alloc, "SplitOff", at),
        Command::Drain(start, end, steps) => text_of(alloc, "Drain", (start, end, steps)),
        Command::ExtractIf(start, end, count) => text_of(alloc, "ExtractIf", (start, end, count)),
        Command::Splice(start, end, steps, items, lower) => {
            text_of(alloc, "Splice", (start, end, steps, items, lower))
        }
        _ => format!(in alloc; "a command without an index"),
    }
}

// Prints a name and several fields, which are a tuple.
fn text_of<T: Debug + Drop>(alloc: Global, name: &str, fields: T) -> Result<String, AllocError> {
    format!(in alloc; "{name}{fields:?}")
}

// Prints a name and its only field.
fn text_of_one<T: Debug>(alloc: Global, name: &str, field: &T) -> Result<String, AllocError> {
    format!(in alloc; "{name}({field:?})")
}
