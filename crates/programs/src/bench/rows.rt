//! The rows. Their names are `row_` followed by a number.
mod bulk;
mod edits;
mod forms;
mod others;
mod plain;
mod splices;

use crate::bench::checks::Checks;
use crate::bench::reporting::Outcome;
use crate::bench::rows::bulk::{row_15, row_24, row_25, row_27, row_28};
use crate::bench::rows::edits::{row_7, row_8, row_9, row_13, row_14, row_33, row_34};
use crate::bench::rows::forms::{row_3, row_18, row_20, row_29, row_30, row_31, row_35, row_36};
use crate::bench::rows::others::{row_2, row_40, row_41};
use crate::bench::rows::plain::{row_1, row_4, row_5, row_6, row_17, row_19, row_21, row_23};
use crate::bench::rows::splices::{row_10, row_11, row_22, row_32};
use std::alloc::Allocator;
use thin_runner::hinted::Hinted;
use thin_vec::ThinVecError;

/// The numbers of the rows that `report` runs, in order.
pub const NUMBERS: [u32; 35] = [
    1, 2, 3, 4, 5, 6, 7, 8, 9, 10, 11, 13, 14, 15, 17, 18, 19, 20, 21, 22, 23, 24, 25, 27, 28, 29,
    30, 31, 32, 33, 34, 35, 36, 40, 41,
];

/// Runs the row `number`. If there is no such row, returns a `Checks` that has compared nothing.
///
/// # Errors
///
/// Fails if a call in the row fails unexpectedly.
pub fn row<A: Allocator + Copy>(alloc: A, number: u32) -> Outcome {
    match number {
        1 => row_1(alloc),
        2 => row_2(alloc),
        3 => row_3(alloc),
        4 => row_4(alloc),
        5 => row_5(alloc),
        6 => row_6(alloc),
        7 => row_7(alloc),
        8 => row_8(alloc),
        9 => row_9(alloc),
        10 => row_10(alloc),
        11 => row_11(alloc),
        13 => row_13(alloc),
        14 => row_14(alloc),
        15 => row_15(alloc),
        17 => row_17(alloc),
        18 => row_18(alloc),
        19 => row_19(alloc),
        20 => row_20(alloc),
        21 => row_21(alloc),
        22 => row_22(alloc),
        23 => row_23(alloc),
        24 => row_24(alloc),
        25 => row_25(alloc),
        27 => row_27(alloc),
        28 => row_28(alloc),
        29 => row_29(alloc),
        30 => row_30(alloc),
        31 => row_31(alloc),
        32 => row_32(alloc),
        33 => row_33(alloc),
        34 => row_34(alloc),
        35 => row_35(alloc),
        36 => row_36(alloc),
        40 => row_40(alloc),
        41 => row_41(alloc),
        _ => Ok(Checks::new()),
    }
}

// Makes an iterator that yields `items`. The lower bound of its size hint is always `lower`, even
// if fewer items remain.
fn claiming<A: Allocator, const N: usize>(
    alloc: A,
    items: [i32; N],
    lower: usize,
) -> Result<Hinted<i32, A>, ThinVecError> {
    match Vec::from_array(alloc, items) {
        Ok(items) => Ok(Hinted::new(items, lower)),
        Err(_refused) => Err(ThinVecError::OutOfMemory),
    }
}
