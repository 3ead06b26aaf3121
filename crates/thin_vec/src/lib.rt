//! A growable list that is one pointer wide: its length and its capacity are stored in its
//! allocation, before the items. It is a port of the Rust crate thin-vec. `docs/FROM_RUST.md` lists
//! the differences.
//!
//! Version 7 of 30 November 2026. `CHANGELOG.md` says what a caller has to change.
#![tactic(auto)]

mod convert;
mod edits;
mod errors;
mod list;
mod macros;
mod open_block;
mod put;
mod ranges;
mod write;

pub use convert::IntoIter;
pub use edits::{Drain, ExtractIf, Splice};
#[doc(hidden)]
pub use edits::{ExtractBy, ExtractState, Holder, IntoInner};
pub use errors::{CollectRefused, ExtendRefused, Rejected, SpliceRefused};
pub use list::ThinVec;
pub use macros::repeated;
#[doc(hidden)]
pub use open_block::OpenBlock;
pub use ranges::bounds;
pub use thin_block::{Doubling, Growth, PowerBytes, ThinVecError, fits};
