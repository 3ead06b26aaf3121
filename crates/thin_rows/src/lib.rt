//! A sparse table whose rows are stored as `ThinVec`s. A row without entries owns no allocation.
#![tactic(auto)]

mod iter;
mod row;
mod table;

pub use iter::Iter;
pub use table::Rows;
pub use thin_vec::{Rejected, ThinVecError};
