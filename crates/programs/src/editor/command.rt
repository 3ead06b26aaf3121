//! The commands by which a user edits a text of lines.
ghost use Rattle.std.specs.Prelude.{◌≡◌, OnErr, OnOk};

use crate::editor::edit_error::EditError;
use crate::editor::editor::Editor;
use std::alloc::{Allocator, Global};
use thin_vec::{ThinVec, ThinVecError};

/// A command of a user, who writes each command on one line.
#[derive(Drop)]
pub enum Command<A: Allocator = Global> {
    /// Replaces a range of lines. The fields are the start of the range, its exclusive end, and the
    /// new lines.
    ///
    /// The user can write this command in three ways:
    ///
    /// - `insert AT TEXT` inserts the lines of `TEXT` before the line `AT`.
    /// - `delete FROM TO` removes the lines `FROM..TO`.
    /// - `replace FROM TO TEXT` replaces the lines `FROM..TO` with the lines of `TEXT`.
    ///
    /// Lines are counted from 0. The lines of `TEXT` are separated by `|`, so an empty `TEXT` is
    /// one empty line.
    Replace(usize, usize, ThinVec<String<A>, A>),
    /// Undoes the last edit that has not been undone. The user writes `undo`.
    Undo,
    /// Redoes the edit that was undone last. The user writes `redo`.
    Redo,
    /// Forgets the oldest edits. The field is the greatest number of edits that can still be undone
    /// after this command. The user writes `forget COUNT`.
    Forget(usize),
    /// Prints the text. The user writes `print`.
    Print,
}

impl<A: Allocator + Copy> Command<A> {
    ghost use Rattle.programs.specs.Commands.{Does};

    /// Parses `written`, a command as the user writes it.
    ///
    /// # Errors
    ///
    /// Returns `NotACommand` if `written` is not a command, and `NoRoom` if there is not enough
    /// memory for the lines in the command.
    pub fn parse(alloc: A, written: &str) -> Result<Command<A>, EditError> {
        let (name, rest) = first_word(written);
        match name {
            "insert" => {
                let (at, rest) = number(rest)?;
                Ok(Command::Replace(at, at, lines_of(alloc, rest)?))
            }
            "delete" => {
                let (start, rest) = number(rest)?;
                let (end, _) = number(rest)?;
                Ok(Command::Replace(start, end, ThinVec::new(alloc)))
            }
            "replace" => {
                let (start, rest) = number(rest)?;
                let (end, rest) = number(rest)?;
                Ok(Command::Replace(start, end, lines_of(alloc, rest)?))
            }
            "undo" => Ok(Command::Undo),
            "redo" => Ok(Command::Redo),
            "forget" => Ok(Command::Forget(number(rest)?.0)),
            "print" => Ok(Command::Print),
            _ => Err(EditError::NotACommand),
        }
    }

    /// Runs the command on `editor`. For `Print`, this function does nothing, because the program
    /// prints the text.
    ///
    /// # Errors
    ///
    /// Fails if the edit, the undo or the redo fails. On failure, the editor is unchanged.
    pub fn run(self, editor: &mut Editor<String<A>, A>) -> Result<(), EditError>
        ensures ok { OnOk result (Does self editor.old editor.new) }
        ensures err { OnErr result (editor.new ≡ editor.old) }
    {
        match self {
            Command::Replace(start, end, lines) => editor.replace(start, end, lines),
            Command::Undo => editor.undo(),
            Command::Redo => editor.redo(),
            Command::Forget(count) => {
                editor.forget(count);
                Ok(())
            }
            Command::Print => Ok(()),
        }
    }
}

// Returns the lines of `text`, which are separated by `|`.
fn lines_of<A: Allocator + Copy>(
    alloc: A,
    text: &str,
) -> Result<ThinVec<String<A>, A>, ThinVecError> {
    let mut lines = ThinVec::new(alloc);
    for line in text.split('|') {
        lines.push(String::from_str(alloc, line)?)?;
    }
    Ok(lines)
}

// Returns the text before the first space of `text` and the text after it. If there is no space,
// returns `text` and an empty string.
fn first_word(text: &str) -> (&str, &str) {
    text.split_once(' ').unwrap_or((text, ""))
}

// Parses the first word of `text` as a number. Returns two values: the number, and the text after
// the space that follows the word. Fails with `NotACommand` if the word is not a number.
fn number(text: &str) -> Result<(usize, &str), EditError> {
    let (word, rest) = first_word(text);
    match word.parse::<usize>() {
        Ok(number) => Ok((number, rest)),
        Err(_) => Err(EditError::NotACommand),
    }
}
