//! Represents calls to methods of a `ThinVec` as values, which are called commands. The contract of
//! the function `run`, which carries out commands, is the main theorem about `ThinVec`.
#![tactic(auto)]

pub mod command;
mod context;
pub mod hinted;
pub mod judge;
pub mod runner;
