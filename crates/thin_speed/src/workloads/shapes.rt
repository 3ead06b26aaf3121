//! Defines the loops that many workloads share, and the traits for the work inside these loops.
use crate::lists::{List, Numbers};
use crate::numbers::{Item, Outcome, Source, mixed, seen};
use std::alloc::{AllocError, Global};

/// A task that a workload repeats on a list.
pub trait Work<L, T> {
    /// Does the work once, and returns the new sum. Some implementations remove items, and mix
    /// these items into `sum`. The other implementations return `sum` unchanged.
    ///
    /// The meaning of `number` depends on the caller. The function `refilled` passes the length of
    /// the list. The function `repeated` passes the number of times that the work has already been
    /// done.
    ///
    /// # Errors
    ///
    /// Fails if there is not enough memory.
    fn work(list: &mut L, alloc: Global, number: usize, sum: u64) -> Outcome;
}

/// Work that does nothing, so that the workload only fills a list.
pub struct Idle;

impl<L, T> Work<L, T> for Idle {
    #[inline(always)]
    fn work(_list: &mut L, _alloc: Global, _number: usize, sum: u64) -> Outcome {
        Ok(sum)
    }
}

/// Clears `list`, and then pushes `size` items onto it. The list keeps its allocation if its
/// capacity is large enough.
///
/// # Errors
///
/// Fails if there is not enough memory.
#[inline(never)]
pub fn refill<L: List<T>, T: Drop, S: Source<T>>(
    alloc: Global,
    list: &mut L,
    size: usize,
) -> Result<(), AllocError> {
    list.clear();
    for number in 0..size {
        list.push(S::item(alloc, number)?)?;
    }
    Ok(())
}

/// Makes a list. In each of `times` rounds, clears the list, pushes `size` items onto it, and does
/// the work `W` on it.
///
/// # Errors
///
/// Fails if there is not enough memory.
#[inline(never)]
pub fn refilled<L: List<T>, T: Item, S: Source<T>, W: Work<L, T>>(
    alloc: Global,
    size: usize,
    times: usize,
) -> Outcome {
    let mut list = L::with_capacity(alloc, size)?;
    let mut sum = 0;
    for _ in 0..times {
        refill::<L, T, S>(alloc, &mut list, size)?;
        sum = W::work(&mut list, alloc, size, sum)?;
        sum = mixed(sum, seen(list.as_slice()));
    }
    Ok(sum)
}

/// Makes a list of the numbers below `size`, with capacity `size`.
///
/// # Errors
///
/// Fails if there is not enough memory.
#[inline(never)]
pub fn filled<L: List<u64>>(alloc: Global, size: usize) -> Result<L, AllocError> {
    let mut list = L::with_capacity(alloc, size)?;
    for number in 0..size {
        list.push(number as u64)?;
    }
    Ok(list)
}

/// Makes a list of `size` numbers, and then does the work `W` on it `times` times.
///
/// # Errors
///
/// Fails if there is not enough memory.
#[inline(never)]
pub fn repeated<L: Numbers, W: Work<L, u64>>(alloc: Global, size: usize, times: usize) -> Outcome {
    let mut list: L = filled(alloc, size)?;
    let mut sum = 0;
    for number in 0..times {
        sum = W::work(&mut list, alloc, number, sum)?;
    }
    Ok(mixed(sum, seen(list.as_slice())))
}

/// The way in which a workload makes a new list.
pub trait Make<L> {
    /// Makes a new list. Some implementations take its items from `source`, whose length is `size`.
    /// The other implementations use only `size`.
    ///
    /// # Errors
    ///
    /// Fails if there is not enough memory.
    fn make(alloc: Global, size: usize, source: &L) -> Result<L, AllocError>;
}

/// Makes `times` new lists with the function `M::make`.
///
/// # Errors
///
/// Fails if there is not enough memory.
#[inline(never)]
pub fn made_anew<L: Numbers, M: Make<L>>(alloc: Global, size: usize, times: usize) -> Outcome {
    let source: L = filled(alloc, size)?;
    let mut sum = 0;
    for _ in 0..times {
        let list = M::make(alloc, size, &source)?;
        sum = mixed(sum, seen(list.as_slice()));
    }
    Ok(sum)
}
