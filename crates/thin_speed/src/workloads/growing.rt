//! Workloads in which a list grows, is refilled, or is read to its end.
use crate::lists::{Family, List, Numbers};
use crate::numbers::{InTurn, Item, Outcome, Pairs, Source, Unhinted, mixed, seen};
use crate::workloads::shapes::{Idle, Make, filled, made_anew, refilled};
use std::alloc::{AllocError, Global};
use std::io::Write;

/// Runs the workload with the name `workload`, as `workloads::run` does. Returns `None` if this
/// module has no such workload.
///
/// # Errors
///
/// Fails if there is not enough memory.
pub fn run<F: Family>(alloc: Global, workload: &str, size: usize, times: usize) -> Option<Outcome> {
    if let Some(outcome) = run_push::<F>(alloc, workload, size, times) {
        return Some(outcome);
    }
    Some(match workload {
        "extend_hinted" => made_anew::<F::Numbers, ExtendHinted>(alloc, size, times),
        "extend_unhinted" => made_anew::<F::Numbers, ExtendUnhinted>(alloc, size, times),
        "extend_filter" => made_anew::<F::Numbers, ExtendFilter>(alloc, size, times),
        "collect_few" => made_anew::<F::Numbers, Collect>(alloc, size, times),
        "extend_slice" => made_anew::<F::Numbers, ExtendSlice>(alloc, size, times),
        "resize" => made_anew::<F::Numbers, Resize>(alloc, size, times),
        "clone" => made_anew::<F::Numbers, Copied>(alloc, size, times),
        "write_five" => write_five::<F::Bytes>(alloc, size, times),
        "into_iter" => into_iter::<F::Numbers>(alloc, size, times),
        "refill" => refilled::<F::Numbers, _, InTurn, Idle>(alloc, size, times),
        "refill_u128" => refilled::<F::Sixteens, _, InTurn, Idle>(alloc, size, times),
        "refill_pairs" => refilled::<F::Numbers, _, Pairs, Idle>(alloc, size, times),
        "refill_wide" => refilled::<F::Wides, _, InTurn, Idle>(alloc, size, times),
        _ => return None,
    })
}

// Runs a workload that pushes items.
fn run_push<F: Family>(
    alloc: Global,
    workload: &str,
    size: usize,
    times: usize,
) -> Option<Outcome> {
    Some(match workload {
        "push" => push::<F::Numbers, _, InTurn, false>(alloc, size, times),
        "push_u8" => push::<F::Bytes, _, InTurn, false>(alloc, size, times),
        "push_u16" => push::<F::Pairs, _, InTurn, false>(alloc, size, times),
        "push_u32" => push::<F::Style, _, InTurn, false>(alloc, size, times),
        "push_u128" => push::<F::Sixteens, _, InTurn, false>(alloc, size, times),
        "push_3" => push::<F::Threes, _, InTurn, false>(alloc, size, times),
        "push_5" => push::<F::Fives, _, InTurn, false>(alloc, size, times),
        "push_12" => push::<F::Twelves, _, InTurn, false>(alloc, size, times),
        "push_20" => push::<F::Twenties, _, InTurn, false>(alloc, size, times),
        "push_triples" => push::<F::Triples, _, InTurn, false>(alloc, size, times),
        "push_wide" => push::<F::Wides, _, InTurn, false>(alloc, size, times),
        "push_strings" => push::<F::Strings, _, InTurn, false>(alloc, size, times),
        "push_reserved" => push::<F::Numbers, _, InTurn, true>(alloc, size, times),
        "push_reserved_24" => push::<F::Triples, _, InTurn, true>(alloc, size, times),
        "push_pop" => push_pop::<F::Numbers>(alloc, size, times),
        _ => return None,
    })
}

// In each of `times` rounds, makes a new list, and pushes `size` items onto it. The list has the
// capacity `size` from the start if `RESERVED` is true.
#[inline(never)]
fn push<L: List<T>, T: Item, S: Source<T>, const RESERVED: bool>(
    alloc: Global,
    size: usize,
    times: usize,
) -> Outcome {
    let mut sum = 0;
    for _ in 0..times {
        let mut list = if RESERVED {
            L::with_capacity(alloc, size)?
        } else {
            L::new(alloc)
        };
        for number in 0..size {
            list.push(S::item(alloc, number)?)?;
        }
        sum = mixed(sum, seen(list.as_slice()));
    }
    Ok(sum)
}

// In each of `times` rounds, makes a new list, pushes `size` numbers onto it, and then pops all of
// them.
#[inline(never)]
fn push_pop<L: Numbers>(alloc: Global, size: usize, times: usize) -> Outcome {
    let mut sum = 0;
    for _ in 0..times {
        let mut list = L::new(alloc);
        for number in 0..size {
            list.push(number as u64)?;
        }
        for _ in 0..size {
            if let Some(number) = list.pop() {
                sum = mixed(sum, number);
            }
        }
    }
    Ok(sum)
}

// A workload that extends a new list with numbers from an iterator whose size hint is exact.
struct ExtendHinted;

impl<L: Numbers> Make<L> for ExtendHinted {
    #[inline(always)]
    fn make(alloc: Global, size: usize, _source: &L) -> Result<L, AllocError> {
        let mut list = L::new(alloc);
        list.extend((0..size).map(|number| number as u64))?;
        Ok(list)
    }
}

// A workload that extends a new list with numbers from an iterator whose size hint has a lower
// bound of 0.
struct ExtendUnhinted;

impl<L: Numbers> Make<L> for ExtendUnhinted {
    #[inline(always)]
    fn make(alloc: Global, size: usize, _source: &L) -> Result<L, AllocError> {
        let mut list = L::new(alloc);
        list.extend(Unhinted::below(size))?;
        Ok(list)
    }
}

// A workload that extends a new list with the even numbers of a slice. The iterator skips the odd
// numbers.
struct ExtendFilter;

impl<L: Numbers> Make<L> for ExtendFilter {
    #[inline(always)]
    fn make(alloc: Global, _size: usize, source: &L) -> Result<L, AllocError> {
        let mut list = L::new(alloc);
        let numbers = source.as_slice().iter().copied();
        list.extend(numbers.filter(|number| *number & 1 == 0))?;
        Ok(list)
    }
}

// A workload that collects the items of an iterator into a new list.
struct Collect;

impl<L: Numbers> Make<L> for Collect {
    #[inline(always)]
    fn make(alloc: Global, size: usize, _source: &L) -> Result<L, AllocError> {
        L::from_iter(alloc, (0..size).map(|number| number as u64))
    }
}

// A workload that extends a new list with copies of the items of a slice, in one call.
struct ExtendSlice;

impl<L: Numbers> Make<L> for ExtendSlice {
    #[inline(always)]
    fn make(alloc: Global, _size: usize, source: &L) -> Result<L, AllocError> {
        let mut list = L::new(alloc);
        list.extend_from_copies(source.as_slice())?;
        Ok(list)
    }
}

// A workload that resizes a new list to the length `size`.
struct Resize;

impl<L: Numbers> Make<L> for Resize {
    #[inline(always)]
    fn make(alloc: Global, size: usize, _source: &L) -> Result<L, AllocError> {
        let mut list = L::new(alloc);
        list.resize(size, 7)?;
        Ok(list)
    }
}

// A workload that makes a copy of a list.
struct Copied;

impl<L: Numbers> Make<L> for Copied {
    #[inline(always)]
    fn make(alloc: Global, _size: usize, source: &L) -> Result<L, AllocError> {
        source.copy(alloc)
    }
}

// In each of `times` rounds, makes a new list of bytes and calls `write_all` `size` times. Each of
// these calls appends five bytes to the list.
#[inline(never)]
fn write_five<L: List<u8> + Write>(alloc: Global, size: usize, times: usize) -> Outcome {
    let mut sum = 0;
    for _ in 0..times {
        let mut list = L::new(alloc);
        for _ in 0..size {
            if list.write_all(b"hello").is_err() {
                return Err(AllocError);
            }
        }
        sum = mixed(sum, list.as_slice().len() as u64);
    }
    Ok(sum)
}

// In each of `times` rounds, fills a list with `size` numbers, and then consumes the list from the
// front, using `into_iter`.
#[inline(never)]
fn into_iter<L: Numbers>(alloc: Global, size: usize, times: usize) -> Outcome {
    let mut sum = 0;
    for _ in 0..times {
        let list: L = filled(alloc, size)?;
        sum = list.walk(sum);
    }
    Ok(sum)
}
