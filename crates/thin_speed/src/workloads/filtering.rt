//! Workloads that remove items, using `retain`, `dedup` or `extract_if`.
use crate::lists::{Family, Filtered, List, Numbers};
use crate::numbers::{
    All, Even, InARun, InTurn, Item, NotOne, Nothing, Outcome, Pairs, Pick, Random,
};
use crate::workloads::shapes::{Work, refilled};
use std::alloc::Global;
use std::marker::PhantomData;

/// Runs the workload with the name `workload`, as `workloads::run` does. Returns `None` if this
/// module has no such workload.
///
/// # Errors
///
/// Fails if there is not enough memory.
pub fn run<F: Family>(alloc: Global, workload: &str, size: usize, times: usize) -> Option<Outcome> {
    Some(match workload {
        "retain_half" => refilled::<F::Numbers, _, InTurn, Retain<Even>>(alloc, size, times),
        "retain_random" => refilled::<F::Numbers, _, InTurn, Retain<Random>>(alloc, size, times),
        "retain_all" => refilled::<F::Numbers, _, InTurn, Retain<All>>(alloc, size, times),
        "retain_none" => refilled::<F::Numbers, _, InTurn, Retain<Nothing>>(alloc, size, times),
        "wide_half" => refilled::<F::Wides, _, InTurn, Retain<Even>>(alloc, size, times),
        "wide_runs" => refilled::<F::Wides, _, InTurn, Retain<InARun>>(alloc, size, times),
        "dedup" => refilled::<F::Numbers, _, Pairs, Dedup>(alloc, size, times),
        "extract_if" => refilled::<F::Numbers, _, InTurn, Extract<Even>>(alloc, size, times),
        "extract_most" => refilled::<F::Numbers, _, InTurn, Extract<NotOne>>(alloc, size, times),
        "extract_u128" => refilled::<F::Sixteens, _, InTurn, Extract<Even>>(alloc, size, times),
        "extract_most_u128" => {
            refilled::<F::Sixteens, _, InTurn, Extract<NotOne>>(alloc, size, times)
        }
        _ => return None,
    })
}

// A workload that keeps only the items that `P` picks, using `retain`.
struct Retain<P> {
    picks: PhantomData<P>,
}

impl<L: List<T>, T: Item, P: Pick> Work<L, T> for Retain<P> {
    #[inline(always)]
    fn work(list: &mut L, _alloc: Global, _number: usize, sum: u64) -> Outcome {
        list.retain(|item| P::picks(item.number()));
        Ok(sum)
    }
}

// A workload that removes the second item of each pair of equal neighbors, using `dedup`.
struct Dedup;

impl<L: Numbers> Work<L, u64> for Dedup {
    #[inline(always)]
    fn work(list: &mut L, _alloc: Global, _number: usize, sum: u64) -> Outcome {
        list.dedup();
        Ok(sum)
    }
}

// A workload that extracts the items that `P` picks, using `extract_if`.
struct Extract<P> {
    picks: PhantomData<P>,
}

impl<L: Filtered<T>, T: Item, P: Pick> Work<L, T> for Extract<P> {
    #[inline(always)]
    fn work(list: &mut L, _alloc: Global, _number: usize, sum: u64) -> Outcome {
        Ok(list.extract::<P>(sum))
    }
}
