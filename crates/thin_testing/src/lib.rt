//! Provides tools for the tests of several crates, and the allocator of the crate `refusing`. A
//! `Ledger` has such an allocator, and counts items, clones and calls. Items of the types
//! `Numbered` are made from numbers, and those of the type `Counted` are counted. `Claims` is an
//! iterator whose size hint may be wrong. `Threefold` is a growth rule that only tests use. The
//! trait `Ruled` computes the capacities that tests expect. A `Case` is a call of a sweep on a
//! list.
#![tactic(auto)]

mod case;
mod claims;
mod ledger;
mod multiples;
mod numbered;
mod ruled;
mod splices;

pub use case::{Answer, At, Case, Due, Lender, List, Wrong, filled_list, numbered_items};
pub use claims::Claims;
pub use ledger::{Counted, CountedWord, Ledger};
pub use multiples::Threefold;
pub use numbered::{Numbered, block_bytes, greatest_capacity};
pub use refusing::{ALL_REQUESTS, Refusing};
pub use ruled::{Ruled, least_power};
pub use splices::splice;
