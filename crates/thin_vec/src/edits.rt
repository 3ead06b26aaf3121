//! The methods that edit a range of a list.

mod dedup;
mod drain;
mod extract_if;
mod finish;
mod holder;
mod replace_range;
mod replace_range_from;
mod retain;
mod splice;
mod swap_range;

pub use drain::Drain;
pub use extract_if::ExtractIf;
#[doc(hidden)]
pub use extract_if::{ExtractBy, ExtractState};
#[doc(hidden)]
pub use holder::{Holder, IntoInner};
pub use splice::Splice;
