//! Workloads that edit a list at the front or in the middle, and one workload that shrinks a list.
use crate::lists::{Family, Numbers};
use crate::numbers::{FOUR, InTurn, Outcome, Unhinted, mixed, seen};
use crate::workloads::shapes::{Work, filled, refill, refilled, repeated};
use std::alloc::Global;

/// Runs the workload with the name `workload`, as `workloads::run` does. Returns `None` if this
/// module has no such workload.
///
/// # Errors
///
/// Fails if there is not enough memory.
pub fn run<F: Family>(alloc: Global, workload: &str, size: usize, times: usize) -> Option<Outcome> {
    Some(match workload {
        "insert_front" => repeated::<F::Numbers, InsertFirst>(alloc, size, times),
        "remove_front" => repeated::<F::Numbers, RemoveFirst>(alloc, size, times),
        "swap_remove" => swap_remove::<F::Numbers>(alloc, size, times),
        "split_append" => split_append::<F::Numbers>(alloc, size, times),
        "drain" => refilled::<F::Numbers, _, InTurn, Drain>(alloc, size, times),
        "drain_inner" => repeated::<F::Numbers, DrainInner>(alloc, size, times),
        "splice_two" => repeated::<F::Numbers, SpliceTwo>(alloc, size, times),
        "splice_more" => repeated::<F::Numbers, SpliceMore>(alloc, size, times),
        "splice_hinted" => refilled::<F::Numbers, _, InTurn, SpliceHinted>(alloc, size, times),
        "splice_unhinted" => refilled::<F::Numbers, _, InTurn, SpliceUnhinted>(alloc, size, times),
        "replace_more" => repeated::<F::Numbers, ReplaceMore>(alloc, size, times),
        "shrink_push" => repeated::<F::Numbers, ShrinkPush>(alloc, size, times),
        _ => return None,
    })
}

// A workload that inserts a number before the first item, and pops the last item.
struct InsertFirst;

impl<L: Numbers> Work<L, u64> for InsertFirst {
    #[inline(always)]
    fn work(list: &mut L, _alloc: Global, number: usize, sum: u64) -> Outcome {
        list.insert_first(number as u64)?;
        match list.pop() {
            Some(last) => Ok(mixed(sum, last)),
            None => Ok(sum),
        }
    }
}

// A workload that removes the first item, and pushes the removed number plus 1.
struct RemoveFirst;

impl<L: Numbers> Work<L, u64> for RemoveFirst {
    #[inline(always)]
    fn work(list: &mut L, _alloc: Global, _number: usize, sum: u64) -> Outcome {
        match list.remove_first() {
            Some(number) => {
                list.push(number.wrapping_add(1))?;
                Ok(mixed(sum, number))
            }
            None => Ok(sum),
        }
    }
}

// Fills a list, and then calls `swap_remove` until the list is empty. Each call removes the item
// in the middle. Does this `times` times.
#[inline(never)]
fn swap_remove<L: Numbers>(alloc: Global, size: usize, times: usize) -> Outcome {
    let mut list: L = filled(alloc, size)?;
    let mut sum = 0;
    for _ in 0..times {
        refill::<L, _, InTurn>(alloc, &mut list, size)?;
        for _ in 0..size {
            if let Some(number) = list.remove_middle() {
                sum = mixed(sum, number);
            }
        }
    }
    Ok(sum)
}

// Makes a list of `size` items. In each of `times` rounds, splits off the second half of the list,
// and then appends the second half to the first half.
#[inline(never)]
fn split_append<L: Numbers>(alloc: Global, size: usize, times: usize) -> Outcome {
    let mut list: L = filled(alloc, size)?;
    let mut sum = 0;
    for _ in 0..times {
        list.split_and_append(alloc)?;
        sum = mixed(sum, seen(list.as_slice()));
    }
    Ok(sum)
}

// A workload that drains the middle half of a list.
struct Drain;

impl<L: Numbers> Work<L, u64> for Drain {
    #[inline(always)]
    fn work(list: &mut L, _alloc: Global, _number: usize, sum: u64) -> Outcome {
        let len = list.as_slice().len();
        Ok(list.drain_range(len / 4, len - len / 4, sum))
    }
}

// A workload that drains two items in the middle, and then pushes two items.
struct DrainInner;

impl<L: Numbers> Work<L, u64> for DrainInner {
    #[inline(always)]
    fn work(list: &mut L, _alloc: Global, number: usize, sum: u64) -> Outcome {
        let sum = list.drain_range(3, 5, sum);
        for more in 3..5usize {
            list.push(number.wrapping_add(more) as u64)?;
        }
        Ok(sum)
    }
}

// A workload that replaces two items with two numbers.
struct SpliceTwo;

impl<L: Numbers> Work<L, u64> for SpliceTwo {
    #[inline(always)]
    fn work(list: &mut L, alloc: Global, number: usize, sum: u64) -> Outcome {
        let new = (0..2usize).map(move |more| more.wrapping_add(number) as u64);
        list.splice(alloc, 3, 5, new)?;
        Ok(sum)
    }
}

// A workload that replaces the first item with three numbers, and then pops two items.
struct SpliceMore;

impl<L: Numbers> Work<L, u64> for SpliceMore {
    #[inline(always)]
    fn work(list: &mut L, alloc: Global, number: usize, sum: u64) -> Outcome {
        let new = (0..3usize).map(move |more| more.wrapping_add(number) as u64);
        list.splice(alloc, 0, 1, new)?;
        Ok(pop_two(list, sum))
    }
}

// A workload that replaces two items with four items, and then pops two items. The rounds are
// numbered from 0. In rounds with an even number, the replaced items are at the indices 5 and 6.
// In the other rounds, they are at the indices 6 and 7.
struct ReplaceMore;

impl<L: Numbers> Work<L, u64> for ReplaceMore {
    #[inline(always)]
    fn work(list: &mut L, _alloc: Global, number: usize, sum: u64) -> Outcome {
        let start = 5 + (number & 1);
        list.replace(start, start + 2, &FOUR)?;
        Ok(pop_two(list, sum))
    }
}

// A workload that shrinks the capacity of a list to its length, and then pushes a number. For this
// push, the list has to grow. At the end, the workload pops the number again.
struct ShrinkPush;

impl<L: Numbers> Work<L, u64> for ShrinkPush {
    #[inline(always)]
    fn work(list: &mut L, _alloc: Global, number: usize, sum: u64) -> Outcome {
        list.shrink_to_fit()?;
        list.push(number as u64)?;
        match list.pop() {
            Some(last) => Ok(mixed(sum, last)),
            None => Ok(sum),
        }
    }
}

// Pops two items, mixes each of them into `sum`, and returns the new sum.
#[inline(always)]
fn pop_two<L: Numbers>(list: &mut L, sum: u64) -> u64 {
    let mut sum = sum;
    for _ in 0..2 {
        if let Some(last) = list.pop() {
            sum = mixed(sum, last);
        }
    }
    sum
}

// A workload that replaces the middle half of a list of `size` items with `size` numbers. The size
// hint of their iterator is exact.
struct SpliceHinted;

impl<L: Numbers> Work<L, u64> for SpliceHinted {
    #[inline(always)]
    fn work(list: &mut L, alloc: Global, size: usize, sum: u64) -> Outcome {
        let len = list.as_slice().len();
        let numbers = (0..size).map(|number| number as u64);
        list.splice(alloc, len / 4, len - len / 4, numbers)?;
        Ok(sum)
    }
}

// A workload that replaces the middle half of a list of `size` items with `size` numbers. The size
// hint of their iterator has a lower bound of 0.
struct SpliceUnhinted;

impl<L: Numbers> Work<L, u64> for SpliceUnhinted {
    #[inline(always)]
    fn work(list: &mut L, alloc: Global, size: usize, sum: u64) -> Outcome {
        let len = list.as_slice().len();
        list.splice(alloc, len / 4, len - len / 4, Unhinted::below(size))?;
        Ok(sum)
    }
}
