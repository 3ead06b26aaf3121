//! An editor of lists of items, such as the lines of a text, whose edits can be undone, and the
//! commands by which a user edits a text of lines.
mod change;
mod command;
mod edit_error;
mod editor;

pub use change::Change;
pub use command::Command;
pub use edit_error::EditError;
pub use editor::Editor;
