//! A matrix whose zeros take no memory.
ghost use Rattle.std.specs.Prelude.{◌≡◌, ◌+◌, ◌-◌, ◌^◌, ◌<◌, ◌≤◌, ◌==◌, ◌&&◌, if◌then◌else◌, ℕ, None, IfOk, OnErr, OnOk, length, min, slice_index};
ghost use Rattle.thin_rows.specs.Table.{value_at};
ghost use Rattle.thin_examples.specs.Numbers.{added, dot, number_at};

use crate::row_product::row_product;
use std::alloc::{Allocator, Global};
use std::fmt;
use thin_rows::{Rows, ThinVecError};
use thin_vec::ThinVec;

/// A matrix of numbers. A number that is 0 takes no memory, but each row does. Sums and products
/// saturate at `u64::MAX`.
#[derive(Drop)]
pub struct Matrix<A: Allocator = Global> {
    numbers: Rows<u64, A>,
    columns: usize,
    pub ghost in_range: { (i j : ℕ) → columns ≤ j → value_at numbers i j ≡ None },
    pub ghost small: { (i j : ℕ) → number_at numbers i j < 2 ^ 64 },
}

impl<A: Allocator + Copy> Matrix<A> {
    /// Makes a matrix with `rows` rows and `columns` columns. All its numbers are 0.
    ///
    /// # Errors
    ///
    /// Fails if there is not enough memory for the rows.
    #[tactic(auto, using(thin_rows::proofs::TableLemmas::values))]
    pub fn zeros(alloc: A, rows: usize, columns: usize) -> Result<Matrix<A>, ThinVecError>
        ensures rows { IfOk result (λ matrix. length matrix.numbers ≡ rows) }
        ensures columns { IfOk result (λ matrix. matrix.columns ≡ columns) }
        ensures numbers { IfOk result (λ matrix. (i j : ℕ) → number_at matrix.numbers i j ≡ 0) }
    {
        let numbers = Rows::with_rows(alloc, rows)?;
        Ok(Matrix { numbers, columns })
    }

    /// Returns the sum of two matrices of the same size.
    ///
    /// # Errors
    ///
    /// Fails if there is not enough memory for the sum.
    pub fn sum(alloc: A, left: &Matrix<A>, right: &Matrix<A>) -> Result<Matrix<A>, ThinVecError>
        requires rows { length left.now.numbers ≡ length right.now.numbers }
        requires columns { left.now.columns ≡ right.now.columns }
        ensures rows { IfOk result (λ matrix. length matrix.numbers ≡ length left.now.numbers) }
        ensures columns { IfOk result (λ matrix. matrix.columns ≡ left.now.columns) }
        ensures numbers { IfOk result (λ matrix. (i j : ℕ) → number_at matrix.numbers i j
            ≡ added (number_at left.now.numbers i j) (number_at right.now.numbers i j)) }
    {
        let mut matrix = Matrix::zeros(alloc, left.numbers.rows(), left.columns)?;
        for row in 0..left.numbers.rows() {
            matrix.add_row(row, left)?;
            matrix.add_row(row, right)?;
        }
        Ok(matrix)
    }

    /// Returns the transposed matrix: its columns are the rows of this matrix.
    ///
    /// # Errors
    ///
    /// Fails if there is not enough memory for the transposed matrix.
    pub fn transposed(&self, alloc: A) -> Result<Matrix<A>, ThinVecError>
        ensures rows { IfOk result (λ matrix. length matrix.numbers ≡ self.now.columns) }
        ensures columns { IfOk result (λ matrix. matrix.columns ≡ length self.now.numbers) }
        ensures numbers { IfOk result (λ matrix. (i j : ℕ) → number_at matrix.numbers i j
            ≡ number_at self.now.numbers j i) }
    {
        let mut matrix = Matrix::zeros(alloc, self.columns, self.numbers.rows())?;
        for row in 0..self.numbers.rows() {
            matrix.set_column(row, self)?;
        }
        Ok(matrix)
    }

    /// Returns the product of this matrix with a vector.
    ///
    /// # Errors
    ///
    /// Fails if there is not enough memory for the product.
    pub fn product(&self, alloc: A, vector: &[u64]) -> Result<ThinVec<u64, A>, ThinVecError>
        requires size { length vector.now ≡ self.now.columns }
        ensures len { IfOk result (λ product. length product.items ≡ length self.now.numbers) }
        ensures numbers { IfOk result (λ product. (i : ℕ) → i < length self.now.numbers
            → slice_index product.items i ≡ min (dot self.now.numbers i vector.now) (2 ^ 64 - 1)) }
    {
        let mut product = ThinVec::with_capacity(alloc, self.numbers.rows())?;
        for row in 0..self.numbers.rows() {
            product.push_reserved(row_product(self.numbers.row(row), vector));
        }
        Ok(product)
    }
}

impl<A: Allocator> Matrix<A> {
    /// Returns the number at row `row` and column `column`, or 0 if no number is stored there.
    pub fn get(&self, row: usize, column: usize) -> u64
        requires row_in_bounds { row < length self.now.numbers }
        ensures value { result ≡ number_at self.now.numbers row column }
    {
        self.numbers.get(row, column).copied().unwrap_or(0)
    }

    /// Writes `number` at row `row` and column `column`.
    ///
    /// # Errors
    ///
    /// Fails if there is not enough memory for the number. In this case, the matrix does not
    /// change.
    #[tactic(auto, using(thin_rows::proofs::TableLemmas::values))]
    pub fn set(&mut self, row: usize, column: usize, number: u64) -> Result<(), ThinVecError>
        requires row_in_bounds { row < length self.old.numbers }
        requires column_in_bounds { column < self.old.columns }
        ensures numbers { OnOk result ((i j : ℕ) → number_at self.new.numbers i j
            ≡ if i == row && j == column then number else number_at self.old.numbers i j) }
        ensures rows { length self.new.numbers ≡ length self.old.numbers }
        ensures columns { self.new.columns ≡ self.old.columns }
        ensures err { OnErr result (self.new.numbers ≡ self.old.numbers) }
    {
        if number == 0 {
            drop(self.numbers.remove(row, column));
        } else {
            self.numbers.set(row, column, number)?;
        }
        Ok(())
    }

    // Adds row `row` of `other` to the same row of this matrix. If the call fails, some numbers may
    // already have been added.
    fn add_row(&mut self, row: usize, other: &Matrix<A>) -> Result<(), ThinVecError>
        requires row_in_bounds { row < length self.old.numbers }
        requires other_row_in_bounds { row < length other.now.numbers }
        requires columns_in_bounds { other.now.columns ≤ self.old.columns }
        ensures numbers { OnOk result ((i j : ℕ) → number_at self.new.numbers i j
            ≡ if i == row
            then added (number_at self.old.numbers i j) (number_at other.now.numbers i j)
            else number_at self.old.numbers i j) }
        ensures rows { length self.new.numbers ≡ length self.old.numbers }
        ensures columns { self.new.columns ≡ self.old.columns }
    {
        for &(column, number) in other.numbers.row(row) {
            self.set(row, column, self.get(row, column).saturating_add(number))?;
        }
        Ok(())
    }

    // Copies a row of `other` into the column of this matrix that has the same index, `column`.
    // Before the call, all numbers in this column must be 0. If the call fails, some of the numbers
    // may already have been written.
    fn set_column(&mut self, column: usize, other: &Matrix<A>) -> Result<(), ThinVecError>
        requires column_in_bounds { column < self.old.columns }
        requires row_in_bounds { column < length other.now.numbers }
        requires rows_in_bounds { other.now.columns ≤ length self.old.numbers }
        requires zeros { (i : ℕ) → number_at self.old.numbers i column ≡ 0 }
        ensures numbers { OnOk result ((i j : ℕ) → number_at self.new.numbers i j
            ≡ if j == column then number_at other.now.numbers column i
            else number_at self.old.numbers i j) }
        ensures rows { length self.new.numbers ≡ length self.old.numbers }
        ensures columns { self.new.columns ≡ self.old.columns }
    {
        for &(row, number) in other.numbers.row(column) {
            self.set(row, column, number)?;
        }
        Ok(())
    }
}

impl<A: Allocator> fmt::Debug for Matrix<A> {
    // Prints the rows in order. Each row is printed as a map from columns to the numbers that are
    // not 0.
    fn fmt<W: fmt::Write>(&self, f: &mut fmt::Formatter<W>) -> fmt::Result {
        self.numbers.fmt(f)
    }
}
