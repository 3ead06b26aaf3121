//! Functions that write the output of the program: the replies to commands, the length and the
//! capacity of the list, its items, and the text of `help`.

use crate::replay::forms::{FORMS, NOTES};
use crate::replay::item::Item;
use std::alloc::Allocator;
use std::io::{self, Write};
use thin_runner::command::Reply;
use thin_runner::hinted::Hinted;
use thin_vec::{ThinVec, ThinVecError};

/// Writes the text that the program prints for the line `help`: the forms of a line, and the
/// meaning of the placeholders in these forms.
pub fn write_help(out: &mut impl Write) -> io::Result<()> {
    for form in &FORMS {
        writeln!(out, "{form}")?;
    }
    writeln!(out)?;
    for note in &NOTES {
        writeln!(out, "{note}")?;
    }
    Ok(())
}

/// Writes the items of the list, and ends the line.
pub fn write_items<A: Allocator>(out: &mut impl Write, list: &ThinVec<Item, A>) -> io::Result<()> {
    writeln!(out, "items {list:?}")
}

/// Writes the length and the capacity of the list, and ends the line.
pub fn write_state<A: Allocator>(out: &mut impl Write, list: &ThinVec<Item, A>) -> io::Result<()> {
    let (length, capacity) = (list.len(), list.capacity());
    writeln!(out, "; length {length}; capacity {capacity}")
}

/// Writes the reply.
pub fn write_reply<A: Allocator>(out: &mut impl Write, reply: Reply<Item, A>) -> io::Result<()> {
    match reply {
        Reply::Done => write!(out, "done"),
        Reply::Item(item) => write!(out, "item {item:?}"),
        Reply::Answers(answers) => write!(out, "answers {answers:?}"),
        Reply::List(list) => {
            let capacity = list.capacity();
            write!(out, "list {list:?}; capacity {capacity}")
        }
        Reply::Other(other, refused) => write_other(out, &other, refused),
        Reply::Returned(item, cause) => write!(out, "failed: {cause}; returned {item:?}"),
        Reply::Refused(cause) => write!(out, "failed: {cause}"),
        Reply::Stopped {
            answers,
            cause,
            held,
            in_hand,
            rest,
        } => {
            write!(
                out,
                "failed: {cause}; answers {answers:?}; held {held:?}; in hand {in_hand:?}"
            )?;
            write_rest(out, rest)
        }
        Reply::OutOfRange(_command) => write!(out, "out of range"),
    }
}

// Writes the items and the capacity of `other`, the list that was passed to `append`. If `append`
// failed, first writes the cause `refused`.
fn write_other<A: Allocator>(
    out: &mut impl Write,
    other: &ThinVec<Item, A>,
    refused: Option<ThinVecError>,
) -> io::Result<()> {
    if let Some(cause) = refused {
        write!(out, "failed: {cause}; ")?;
    }
    let capacity = other.capacity();
    write!(out, "other {other:?}; capacity {capacity}")
}

// Writes the items that the iterator `rest` has not yielded yet.
fn write_rest<A: Allocator>(out: &mut impl Write, rest: Hinted<Item, A>) -> io::Result<()> {
    write!(out, "; rest")?;
    for item in rest {
        write!(out, " {item:?}")?;
    }
    Ok(())
}
