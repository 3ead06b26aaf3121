//! Defines the workloads, which are tasks whose running time is measured. Each workload can run on
//! any kind of list.
mod editing;
mod filtering;
mod growing;
mod many;
mod shapes;

use crate::lists::Family;
use crate::numbers::Outcome;
use std::alloc::Global;

/// Runs the workload with the name `workload` on lists of the kind `F`, and returns the sum that it
/// computes. Returns `None` if there is no such workload. The work is repeated `times` times. The
/// meaning of `size` depends on the workload: it may be, for example, the number of items of a list
/// or the depth of a tree.
///
/// # Errors
///
/// Fails if there is not enough memory.
pub fn run<F: Family>(alloc: Global, workload: &str, size: usize, times: usize) -> Option<Outcome> {
    if let Some(outcome) = growing::run::<F>(alloc, workload, size, times) {
        return Some(outcome);
    }
    if let Some(outcome) = editing::run::<F>(alloc, workload, size, times) {
        return Some(outcome);
    }
    if let Some(outcome) = filtering::run::<F>(alloc, workload, size, times) {
        return Some(outcome);
    }
    many::run::<F>(alloc, workload, size, times)
}
