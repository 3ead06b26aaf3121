//! Runs workloads, which are tasks whose running time is measured. Each line of the input names a
//! workload. For each line, the program runs the workload, and prints the sum that the workload
//! computes. The program prints `refused` if the workload fails, and `no workload` if the line is
//! invalid.
#![tactic(auto)]

mod lists;
mod numbers;
mod workloads;

use crate::lists::{Kit, Thin};
use crate::numbers::Outcome;
use std::alloc::Global;
use std::io;

fn main(rt: HostRuntime) -> io::Result<()> {
    for line in rt.lines(rt.alloc()) {
        match asked(rt.alloc(), line?.as_str()) {
            Some(Ok(sum)) => println!(rt; "{sum}")?,
            Some(Err(_refused)) => println!(rt; "refused")?,
            None => println!(rt; "no workload")?,
        }
    }
    Ok(())
}

// Runs the workload that `line` names, and returns its result. Returns `None` if one of the first
// four words of the line is missing or invalid. These words are:
//
// - the kind of list: `thin` for `ThinVec`, or `kit` for the `Vec` of Rattle's library
// - the name of the workload
// - the size, such as the number of items, or the depth of a tree
// - the number of times that the workload does its work
fn asked(alloc: Global, line: &str) -> Option<Outcome> {
    let mut words = line.split_whitespace();
    let list = words.next()?;
    let workload = words.next()?;
    let size = number(words.next())?;
    let times = number(words.next())?;
    match list {
        "thin" => workloads::run::<Thin>(alloc, workload, size, times),
        "kit" => workloads::run::<Kit>(alloc, workload, size, times),
        _ => None,
    }
}

fn number(word: Option<&str>) -> Option<usize> {
    word?.parse::<usize>().ok()
}
