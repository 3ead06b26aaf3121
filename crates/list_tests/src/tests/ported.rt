//! The tests of the Rust crate thin-vec, with the same lists and the same results. Its tests of
//! what is missing here are left out, and some of the others are rows of `thin_bench`.
mod capacity;
mod drops;
mod edits;
mod into_iter;
mod items;

use std::alloc::{AllocError, Global};
use thin_vec::ThinVec;

// Returns a list of boxes, one for each number.
fn boxes_of(alloc: Global, numbers: &[i32]) -> Result<ThinVec<Box<i32, Global>>, AllocError> {
    let mut list = ThinVec::new(alloc);
    for number in numbers {
        list.push(Box::new(alloc, *number)?)?;
    }
    Ok(list)
}
