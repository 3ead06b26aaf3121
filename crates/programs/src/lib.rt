//! What the programs `thin_bench`, `thin_replay` and `text_editor` do, as functions that tests can
//! call, too.
#![tactic(auto)]

pub mod bench;
pub mod editor;
pub mod replay;
