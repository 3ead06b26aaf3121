//! Makes the common calls, and prints what each example of them leaves in the list. Then prints a
//! sparse matrix, its transpose, its sum with itself, and its product with a vector. Most of the
//! other examples have contracts, which say what they do.
#![tactic(auto)]

mod add;
mod bytes;
mod collect;
mod commands;
mod common;
mod costs;
mod errors;
mod graph;
mod make;
mod maps;
mod matrix;
mod read;
mod remove;
mod replace;
mod row_product;
mod structs;
mod tables;
mod threads;
mod transfer;
mod tree;
mod write;

use crate::matrix::Matrix;
use std::alloc::Global;
use std::io;
use thin_vec::ThinVec;

fn main(rt: HostRuntime) -> io::Result<()> {
    print_common_calls(&rt, rt.alloc())?;
    print_matrix(&rt, rt.alloc())
}

fn print_common_calls(rt: &impl Print, alloc: Global) -> io::Result<()> {
    let mut list = common::made(alloc)?;
    println!(rt; "made: {list:?}")?;
    let mut other = ThinVec::from_array(alloc, [5, 6])?;
    common::filled(&mut list, &mut other)?;
    println!(rt; "filled: {list:?}")?;
    common::replaced(alloc, &mut list)?;
    println!(rt; "replaced: {list:?}")?;
    let odd = common::sifted(alloc, &mut list)?;
    println!(rt; "sifted: {odd:?}, left {list:?}")?;
    let greatest = common::raised(&mut list);
    println!(rt; "raised: {list:?}, greatest {greatest}")
}

fn print_matrix(rt: &impl Print, alloc: Global) -> io::Result<()> {
    let mut matrix = Matrix::zeros(alloc, 2, 3)?;
    matrix.set(0, 2, 5)?;
    matrix.set(1, 0, 7)?;
    matrix.set(1, 1, 9)?;
    matrix.set(1, 1, 0)?;
    println!(rt; "matrix: {matrix:?}")?;
    let transposed = matrix.transposed(alloc)?;
    println!(rt; "transposed: {transposed:?}")?;
    let sum = Matrix::sum(alloc, &matrix, &matrix)?;
    println!(rt; "sum: {sum:?}")?;
    let product = matrix.product(alloc, &[1, 10, 100])?;
    println!(rt; "product: {product:?}")
}
