//! Conversions of other types into lists, and of lists into other types.

mod from;
mod into;
mod into_iter;

pub use into_iter::IntoIter;
