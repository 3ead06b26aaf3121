//! The type `EditError`, which says why a command was not carried out.

use thin_vec::ThinVecError;
use thiserror::Error;

/// The reason why a command was not carried out. Such a command leaves the text and its history
/// unchanged.
#[derive(Debug, Drop, Error)]
pub enum EditError {
    /// What the user wrote is not a command.
    #[error("not a command")]
    NotACommand,
    /// The range of the command is not within the text.
    #[error("not a range of the text")]
    OutOfBounds,
    /// There is no edit to undo: none was made, or every edit has been undone or forgotten.
    #[error("nothing to undo")]
    NothingToUndo,
    /// There is no edit to redo: no edit has been undone since the last new edit, or every undone
    /// edit has been redone.
    #[error("nothing to redo")]
    NothingToRedo,
    /// There is not enough memory for the edit. The field holds the cause of the failure.
    #[error("{0}")]
    NoRoom(ThinVecError),
}

impl From<ThinVecError> for EditError {
    ghost use Rattle.std.specs.Prelude.{◌≡◌};
    ghost use Rattle.programs.specs.declared.editor.edit_error.EditError.{EditError};

    ghost from_gives = { λ cause error. error ≡ EditError.NoRoom cause };

    fn from(cause: ThinVecError) -> EditError {
        EditError::NoRoom(cause)
    }
}
