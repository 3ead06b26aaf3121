//! Defines the type `Rows`, which is a sparse table. In contracts, a table is the list of its rows.
ghost use Rattle.std.specs.Prelude.{◌≡◌, ◌↔◌, [], ◌+◌, ◌-◌, ◌^◌, ◌<◌, AllPairs, IfErr, IfOk, IsOk, IsSome, IsTrue, OnErr, OnOk, length, map, min, replicate, slice_set, sum};
ghost use Rattle.std.specs.FinMap as columns;
ghost use Rattle.std.specs.List.Sorted.{IsStrictlyIncreasing};
ghost use Rattle.std.specs.Option.{option_copied};
ghost use Rattle.thin_rows.specs.Table.{IsClonedTable, entries_of, row_at, value_at, with_empty_row, with_value, without_value};
ghost use Rattle.thin_rows.specs.Walk.{IsBefore, YieldsEntriesInOrder};

use crate::iter::Iter;
use crate::row::Row;
use std::alloc::{AllocError, Allocator, Global};
use std::fmt;
use std::marker::Model;
use thin_vec::{Rejected, ThinVec, ThinVecError};

/// A sparse table, which maps a row and a column to a value. The number of rows is fixed. A row
/// keeps its entries in one block, sorted by column. A row without entries owns no block.
#[derive(Drop)]
pub struct Rows<V, A: Allocator = Global> {
    rows: ThinVec<Row<V, A>, A>,
}

impl<V, A: Allocator> Model for Rows<V, A> {
    ghost use Rattle.std.specs.Coded.{coded_list, coded_ℕ};
    ghost use Rattle.std.specs.FinMap as map;
    ghost use Rattle.thin_rows.specs.Table.{Table};

    ghost Value = { Table V };

    ghost coded = { coded_list (map.code coded_ℕ V.code) };

    ghost view = { λ table. table.rows.items };
}

impl<V, A: Allocator + Copy> Rows<V, A> {
    ghost use Rattle.thin_vec.specs.List.Capacity.{OverflowsIffTooLarge};
    ghost use Rattle.thin_rows.specs.RowType.{row_type};

    /// Returns a table with `rows` rows and no entries. The table and each row keep a copy of
    /// `alloc`.
    ///
    /// # Errors
    ///
    /// Fails with `CapacityOverflow` if a block for `rows` rows is too large, and with
    /// `OutOfMemory` if the allocator fails.
    pub fn with_rows(alloc: A, rows: usize) -> Result<Rows<V, A>, ThinVecError>
        // On success.
        ensures table { IfOk result (λ table. table ≡ replicate rows columns.empty) }

        // When it must succeed.
        ensures succeeds { rows ≡ 0 → IsOk result }

        // On failure.
        ensures overflow { OverflowsIffTooLarge (row_type V.row A.row A.Allocator) rows result }
    {
        let mut empty_rows = ThinVec::with_capacity(alloc, rows)?;
        for _ in 0..rows {
            empty_rows.push_reserved(Row::new(alloc));
        }
        Ok(Rows { rows: empty_rows })
    }
}

impl<V, A: Allocator> Rows<V, A> {
    ghost use types.Logic.{sem};
    ghost use Rattle.std.specs.Option.{option_copied_mut};
    ghost use Rattle.thin_vec.specs.List.Capacity.{OverflowsIff, map_cause};
    ghost use Rattle.thin_rows.specs.EntryType.{capacity_after_insert};
    ghost use Rattle.thin_rows.specs.Lends.{LendsValue};

    /// Returns the number of rows.
    pub fn rows(&self) -> usize
        ensures value { result ≡ length self.now }
    {
        self.rows.len()
    }

    /// Visits each row, and returns the number of entries, but at most `usize::MAX`.
    pub fn len(&self) -> usize
        ensures value { result ≡ min (sum (map (λ row. columns.len row) self.now)) (2 ^ 64 - 1) }
    {
        let mut count = 0usize;
        for row in &self.rows {
            count = count.saturating_add(row.len());
        }
        count
    }

    /// Returns whether the table has no entries. Visits the rows up to the first that has one.
    pub fn is_empty(&self) -> bool
        ensures value { IsTrue result ↔ (entries_of self.now ≡ []) }
    {
        self.iter().next().is_none()
    }

    /// Returns an iterator over all entries, sorted by row, and within a row by column. Each item
    /// has the row, the column and a reference to the value. A loop over the iterator takes time
    /// for each row and each entry.
    pub fn iter(&self) -> Iter<'_, V, A>
        ensures value { result ≡ entries_of self.now }
        ensures sorted { AllPairs IsBefore result }
        ensures runs { YieldsEntriesInOrder V }
    {
        Iter::new(self.rows.as_slice())
    }

    /// Returns the value at the given row and column, if there is one.
    pub fn get(&self, row: usize, column: usize) -> Option<&V>
        requires in_bounds { row < length self.now }
        ensures value { option_copied result ≡ value_at self.now row column }
    {
        prove!(row < self.rows());
        self.rows[row].get(column)
    }

    /// Returns a mutable reference to the value at the given row and column, if there is one.
    pub fn get_mut(&mut self, row: usize, column: usize) -> Option<&mut V>
        requires in_bounds { row < length self.old }
        ensures* writes_back { sem 𝓛
            (LendsValue V.row A.row A.Allocator self.entry row column result) }
        ensures value { option_copied_mut result ≡ value_at self.old row column }
    {
        prove!(row < self.rows());
        self.rows[row].get_mut(column)
    }

    /// Writes `value` at the given row and column, and returns the old value, if there was one.
    ///
    /// # Errors
    ///
    /// Fails only if a new entry is needed. The cause is `OutOfMemory` if the allocator fails, and
    /// `CapacityOverflow` if the new capacity of the row would be too large. The error returns
    /// `value` to the caller.
    pub fn set(&mut self, row: usize, column: usize, value: V) -> Result<Option<V>, Rejected<V>>
        requires in_bounds { row < length self.old }

        // On success.
        ensures value { IfOk result (λ old. old ≡ value_at self.old row column) }
        ensures table { OnOk result (self.new ≡ with_value self.old row column value) }

        // When it must succeed.
        ensures succeeds { IsSome (value_at self.old row column) → IsOk result }

        // On failure.
        ensures overflow { OnErr result (OverflowsIff
            (capacity_after_insert V.row (columns.len (row_at self.old row)))
            (map_cause result)) }
        ensures err { OnErr result (self.new ≡ self.old) }
        ensures value_returned { IfErr result (λ refused. refused.value ≡ value) }
    {
        prove!(row < self.rows());
        self.rows[row].set(column, value)
    }

    /// Removes the entry at the given row and column, if there is one, and returns its value. The
    /// call requests no memory; this is tested, not proved.
    pub fn remove(&mut self, row: usize, column: usize) -> Option<V>
        requires in_bounds { row < length self.old }
        ensures value { result ≡ value_at self.old row column }
        ensures table { self.new ≡ without_value self.old row column }
    {
        prove!(row < self.rows());
        self.rows[row].remove(column)
    }

    /// Returns the entries of a row, in increasing order of their columns.
    #[tactic(auto, using(crate::proofs::EntriesLemmas::columns_increase))]
    pub fn row(&self, row: usize) -> &[(usize, V)]
        requires in_bounds { row < length self.now }
        ensures value { result.now ≡ columns.entries (row_at self.now row) }
        ensures sorted { IsStrictlyIncreasing (map (λ entry. entry.0) result.now) }
    {
        prove!(row < self.rows());
        self.rows[row].entries()
    }

    /// Returns whether a row owns a block.
    pub fn owns_block(&self, row: usize) -> bool
        requires in_bounds { row < length self.now }
        ensures value { IsTrue result ↔ (0 < columns.len (row_at self.now row)) }
    {
        prove!(row < self.rows());
        self.rows[row].owns_block()
    }
}

impl<V: Clone, A: Allocator + Copy> Rows<V, A> {
    ghost use Rattle.thin_vec.specs.List.Clones.{ClonesEqual};

    /// Makes a table with clones of all values, at the same rows and columns. The new table and
    /// each of its rows keep a copy of `alloc`.
    ///
    /// # Errors
    ///
    /// Fails with `OutOfMemory` if the allocator fails, or if a value cannot be cloned. In this
    /// case, all clones are dropped.
    pub fn clone(&self, alloc: A) -> Result<Rows<V, A>, ThinVecError>
        // On success.
        ensures table { IfOk result (IsClonedTable V.is_clone self.now) }
        ensures table_if_clones_equal { IfOk result (λ table. ClonesEqual V.is_clone
            → table ≡ self.now) }

        // When it must succeed. In every other case it may fail.
        ensures succeeds_empty { length self.now ≡ 0 → IsOk result }

        // On failure.
        ensures cause { IfErr result (λ cause. cause ≡ ThinVecError.OutOfMemory) }
    {
        let sources = self.rows.as_slice();
        let mut rows = ThinVec::with_capacity(alloc, self.rows.len())?;
        for source in sources {
            rows.push_reserved(source.clone(alloc)?);
        }
        Ok(Rows { rows })
    }
}

impl<V: Clone, A: Allocator + Copy> Clone for Rows<V, A> {
    ghost is_clone = { IsClonedTable V.is_clone };

    // The clone of a table without rows requests no memory; that of any other table may be refused.
    ghost is_infallible = { λ table. table ≡ [] };

    fn clone(&self) -> Result<Self, AllocError> {
        match Rows::clone(self, *self.rows.allocator()) {
            Ok(other) => Ok(other),
            Err(_refused) => Err(AllocError),
        }
    }
}

impl<V: PartialEq, A: Allocator> PartialEq for Rows<V, A> {
    ghost use Rattle.std.specs.Cmp.{and_per, nat_eq_equiv, on_per, partial_equiv_from_equiv};
    ghost use Rattle.std.specs.Cmp.Lexicographic.{lists_per};
    ghost use Rattle.thin_rows.specs.Table.{table_eq};

    ghost eq = { table_eq V.eq };

    ghost laws = { lists_per (on_per columns.entries (lists_per (and_per
        (on_per (λ entry. entry.0) (partial_equiv_from_equiv nat_eq_equiv))
        (on_per (λ entry. entry.1) V.laws)))) };

    fn eq(&self, other: &Self) -> bool {
        self.rows == other.rows
    }
}

impl<V: Eq, A: Allocator> Eq for Rows<V, A> {
    ghost use Rattle.std.specs.Cmp.{and_equiv, nat_eq_equiv, on_equiv};
    ghost use Rattle.std.specs.Cmp.Lexicographic.{lists_equiv};

    ghost laws = { lists_equiv (on_equiv columns.entries (lists_equiv (and_equiv
        (on_equiv (λ entry. entry.0) nat_eq_equiv) (on_equiv (λ entry. entry.1) V.Eq.laws)))) };
}

impl<'a, V, A: Allocator> IntoIterator for &'a Rows<V, A> {
    type Item = (usize, usize, &'a V);

    type IntoIter = Iter<'a, V, A>;

    ghost into_iter_gives = { λ table it. (it ≡ entries_of table.now) × YieldsEntriesInOrder V };

    fn into_iter(self) -> Iter<'a, V, A> {
        self.iter()
    }
}

impl<V: Drop, A: Allocator> Rows<V, A> {
    ghost use Rattle.std.specs.Fn.{CalledAt};
    ghost use Rattle.std.specs.List.Retain.{IsFiltered};

    /// Keeps the entries of a row for which `keep` returns true, and drops the values of the other
    /// entries. An entry is a pair of a column and a value. Calls `keep` once for each entry of the
    /// row, in the order of the columns. It has to be possible to call it with every such pair. The
    /// call requests no memory; this is tested, not proved.
    pub fn retain_row<F: FnMut(&(usize, V)) -> bool>(&mut self, row: usize, keep: F)
        requires in_bounds { row < length self.old }
        requires callable { F.IsAlwaysCallable keep }
        ensures filtered { IsFiltered (CalledAt F.FnMut) keep
            (columns.entries (row_at self.old row)) (columns.entries (row_at self.new row)) }
        ensures changes { self.new ≡ slice_set self.old row (row_at self.new row) }
    {
        prove!(row < self.rows());
        self.rows[row].retain(keep);
    }

    /// Removes all entries of a row, and drops their values. The call requests no memory; this is
    /// tested, not proved.
    pub fn clear_row(&mut self, row: usize)
        requires in_bounds { row < length self.old }
        ensures table { self.new ≡ with_empty_row self.old row }
    {
        prove!(row < self.rows());
        self.rows[row].clear();
    }
}

impl<V: fmt::Debug, A: Allocator> fmt::Debug for Rows<V, A> {
    fn fmt<W: fmt::Write>(&self, f: &mut fmt::Formatter<W>) -> fmt::Result {
        self.rows.fmt(f)
    }
}
