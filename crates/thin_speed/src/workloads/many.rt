//! Workloads that use many lists.
use crate::lists::{Family, List};
use crate::numbers::{Outcome, mixed};
use std::alloc::{AllocError, Global};

/// Runs the workload with the name `workload`, as `workloads::run` does. Returns `None` if this
/// module has no such workload.
///
/// # Errors
///
/// Fails if there is not enough memory.
pub fn run<F: Family>(alloc: Global, workload: &str, size: usize, times: usize) -> Option<Outcome> {
    Some(match workload {
        "empty_lists" => empty_lists::<F::Lists, F::Numbers>(alloc, size, times),
        "sparse_lists" => sparse_lists::<F::Lists, F::Numbers>(alloc, size, times),
        "styles" => styles::<F::Styles, F::Style>(alloc, size, times),
        "undo" => undo::<F::Steps, F::Bytes>(alloc, size, times),
        "tree" => tree::<F>(alloc, size, 10, times),
        "leaves" => tree::<F>(alloc, 1, size, times),
        _ => return None,
    })
}

// In each of `times` rounds, makes a list of `size` empty lists, and reads all of them.
#[inline(never)]
fn empty_lists<L: List<N>, N: List<u64>>(alloc: Global, size: usize, times: usize) -> Outcome {
    let mut sum = 0;
    for _ in 0..times {
        let mut lists = L::new(alloc);
        for _ in 0..size {
            lists.push(N::new(alloc))?;
        }
        sum = mixed(sum, items_of(lists.as_slice()));
    }
    Ok(sum)
}

// In each of `times` rounds, makes a list of `size` lists, and reads all of them. Every sixteenth
// of these lists has three items, and the others are empty.
#[inline(never)]
fn sparse_lists<L: List<N>, N: List<u64>>(alloc: Global, size: usize, times: usize) -> Outcome {
    let mut sum = 0;
    for _ in 0..times {
        let mut lists = L::new(alloc);
        for number in 0..size {
            let mut list = N::new(alloc);
            if number & 15 == 0 {
                list.push(number as u64)?;
                list.push(1)?;
                list.push(2)?;
            }
            lists.push(list)?;
        }
        sum = mixed(sum, items_of(lists.as_slice()));
    }
    Ok(sum)
}

// Returns the length of `lists`, plus the sum of the items of all these lists.
fn items_of<L: List<u64>>(lists: &[L]) -> u64 {
    let mut sum = lists.len() as u64;
    for list in lists {
        for number in list.as_slice() {
            sum = sum.wrapping_add(*number);
        }
    }
    sum
}

// In each of `times` rounds, makes a list of `size` styles, and counts the styles that equal the
// preceding style. A style is a list of at most four rules.
#[inline(never)]
fn styles<L: List<S>, S: List<u32>>(alloc: Global, size: usize, times: usize) -> Outcome {
    let mut sum = 0;
    for _ in 0..times {
        let mut styles = L::new(alloc);
        for number in 0..size {
            styles.push(style::<S>(alloc, number)?)?;
        }
        sum = mixed(sum, repeated(styles.as_slice()));
    }
    Ok(sum)
}

// Makes a style, which is a list of rules. First pushes `number % 4` rules. If `number % 8` is 7,
// then inserts a fourth rule at the front.
fn style<S: List<u32>>(alloc: Global, number: usize) -> Result<S, AllocError> {
    let mut style = S::new(alloc);
    for rule in 0..number & 3 {
        style.push(rule as u32)?;
    }
    if number & 7 == 7 {
        style.insert_first(9)?;
    }
    Ok(style)
}

// Returns the number of styles that equal the preceding style.
fn repeated<S: List<u32>>(styles: &[S]) -> u64 {
    let mut same = 0u64;
    for at in 1..styles.len() {
        if styles[at].as_slice() == styles[at - 1].as_slice() {
            same = same.wrapping_add(1);
        }
    }
    same
}

// In each of `times` rounds, pushes `size` steps onto a list. After every fifth push, pops the
// step that was pushed last. A step is a list of two bytes.
#[inline(never)]
fn undo<L: List<B>, B: List<u8>>(alloc: Global, size: usize, times: usize) -> Outcome {
    let mut steps = L::new(alloc);
    let mut sum = 0;
    for _ in 0..times {
        for number in 0..size {
            let mut step = B::new(alloc);
            step.push((number & 255) as u8)?;
            step.push(1)?;
            steps.push(step)?;
            if number % 5 == 4
                && let Some(undone) = steps.pop()
            {
                sum = mixed(sum, undone.as_slice().len() as u64);
            }
        }
        steps.clear();
    }
    Ok(sum)
}

// In each of `times` rounds, builds a tree of depth `depth`, and visits all its nodes. Each node
// that is not a leaf has `width` children.
#[inline(never)]
fn tree<F: Family>(alloc: Global, depth: usize, width: usize, times: usize) -> Outcome {
    let mut sum = 0;
    for _ in 0..times {
        sum = mixed(sum, F::tree(alloc, depth, width)?);
    }
    Ok(sum)
}
