//! The sweep of the calls that take an iterator: `extend`, `from_iter`, `collect` and `splice`. The
//! capacities after these calls have exact values that no contract states, and so have the numbers
//! of requests and of calls to the iterator. So the tests compute them.
//!
//! `limits.rt` has large blocks, and capacities that overflow.
mod fill;
mod limits;
mod splices;
mod tests;
