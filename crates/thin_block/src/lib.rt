//! Defines the type `Block`, a pointer to one allocation that holds a length, a capacity and slots
//! for items. Of the crates that implement `ThinVec`, only this crate uses raw pointers.
#![tactic(auto)]

mod block;
mod errors;
mod growth;
mod in_place;
mod lends;
mod memory;
mod padded;
mod runs;
mod shifts;
mod sizes;
mod slots;
mod words;

pub use block::Block;
pub use errors::ThinVecError;
pub use growth::Growth;
pub use growth::doubling::{Doubling, first_capacity, next_capacity};
pub use growth::power_bytes::PowerBytes;
pub use sizes::{fits, item_size};
