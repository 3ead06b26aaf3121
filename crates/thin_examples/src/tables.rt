//! Examples of a sparse table of counts. A place without an entry has the count 0.
ghost use Rattle.std.specs.FinMap as columns;
ghost use Rattle.std.specs.Option.{unwrap_or};
ghost use Rattle.std.specs.Prelude.{◌≡◌, ◌↔◌, [], ◌+◌, ◌-◌, ◌^◌, ◌<◌, ◌/◌, IfErr, IfOk, IfSome, IsNone, IsOk, IsSome, IsTrue, OnErr, OnOk, Some, filter, length, map, min, nat_le, replicate, slice_set, sum};
ghost use Rattle.thin_rows.specs.EntryType.{capacity_after_insert};
ghost use Rattle.thin_rows.specs.Table.{entries_of, row_at, value_at, with_empty_row, with_value, without_value};
ghost use Rattle.thin_vec.specs.List.Capacity.{OverflowsIff, map_cause};

use std::alloc::{AllocError, Allocator, Global};
use thin_rows::{Rejected, Rows, ThinVecError};

/// Makes a table of seven empty rows, one for each day of the week.
///
/// # Errors
///
/// Fails only if the allocator fails: by the lemma `few_items`, so small a capacity cannot
/// overflow.
pub fn for_a_week(alloc: Global) -> Result<Rows<u32>, ThinVecError>
    ensures table { IfOk result (λ counts. counts ≡ replicate 7 columns.empty) }
    ensures cause { IfErr result (λ cause. cause ≡ ThinVecError.OutOfMemory) }
{
    Rows::with_rows(alloc, 7)
}

/// Adds `more` to the count at `row` and `column`. If the sum exceeds `u32::MAX`, the count becomes
/// `u32::MAX`.
///
/// # Errors
///
/// Fails if there is no room for a new entry. On failure, the table is unchanged.
pub fn add<A: Allocator>(
    counts: &mut Rows<u32, A>,
    row: usize,
    column: usize,
    more: u32,
) -> Result<(), AllocError>
    requires in_bounds { row < length counts.old }
    ensures succeeds { IsSome (value_at counts.old row column) → IsOk result }
    ensures table { OnOk result
        (counts.new ≡ with_value counts.old row column
        (min (unwrap_or (value_at counts.old row column) 0 + more) (2 ^ 32 - 1))) }
    ensures err { OnErr result (counts.new ≡ counts.old) }
{
    let count = counts.get(row, column).copied().unwrap_or(0);
    counts.set(row, column, count.saturating_add(more))?;
    Ok(())
}

/// Sets the count at `row` and `column`, and reads it back. By the lemma `written`, the result is
/// `Some(count)`.
///
/// # Errors
///
/// Fails if there is no room for a new entry. On failure, the table is unchanged.
#[tactic(auto, using(thin_rows::proofs::TableLemmas::written))]
pub fn set_and_read<A: Allocator>(
    counts: &mut Rows<u32, A>,
    row: usize,
    column: usize,
    count: u32,
) -> Result<Option<u32>, AllocError>
    requires in_bounds { row < length counts.old }
    ensures value { IfOk result (λ there. there ≡ Some count) }
    ensures table { OnOk result (counts.new ≡ with_value counts.old row column count) }
    ensures err { OnErr result (counts.new ≡ counts.old) }
{
    counts.set(row, column, count)?;
    Ok(counts.get(row, column).copied())
}

/// Writes `value` at `row` and `column`, and returns the old value.
///
/// # Errors
///
/// Fails if there is no room for a new entry. The error returns `value`, and its cause is
/// `CapacityOverflow` if and only if the new capacity of the row would be too large.
pub fn set_or_return<V: Drop, A: Allocator>(
    table: &mut Rows<V, A>,
    row: usize,
    column: usize,
    value: V,
) -> Result<Option<V>, Rejected<V>>
    requires in_bounds { row < length table.old }
    ensures table { OnOk result (table.new ≡ with_value table.old row column value) }
    ensures err { OnErr result (table.new ≡ table.old) }
    ensures overflow { OnErr result (OverflowsIff
        (capacity_after_insert V.row (columns.len (row_at table.old row)))
        (map_cause result)) }
    ensures value_returned { IfErr result (λ refused. refused.value ≡ value) }
{
    table.set(row, column, value)
}

/// Removes the count at `row` and `column`, and returns it. If there is no such count, returns 0.
pub fn take<A: Allocator>(counts: &mut Rows<u32, A>, row: usize, column: usize) -> u32
    requires in_bounds { row < length counts.old }
    ensures value { result ≡ unwrap_or (value_at counts.old row column) 0 }
    ensures table { counts.new ≡ without_value counts.old row column }
{
    counts.remove(row, column).unwrap_or(0)
}

/// Returns whether `row` has no entries.
pub fn is_row_empty<A: Allocator>(counts: &Rows<u32, A>, row: usize) -> bool
    requires in_bounds { row < length counts.now }
    ensures value { IsTrue result ↔ (columns.len (row_at counts.now row) ≡ 0) }
{
    !counts.owns_block(row)
}

/// Removes all counts of `row`, and frees the memory of the row.
pub fn clear<A: Allocator>(counts: &mut Rows<u32, A>, row: usize)
    requires in_bounds { row < length counts.old }
    ensures table { counts.new ≡ with_empty_row counts.old row }
{
    counts.clear_row(row);
}

/// Removes the counts of `row` that are less than `least`.
pub fn remove_below<A: Allocator>(counts: &mut Rows<u32, A>, row: usize, least: u32)
    requires in_bounds { row < length counts.old }
    ensures entries { columns.entries (row_at counts.new row)
        ≡ filter (λ entry. nat_le least entry.1) (columns.entries (row_at counts.old row)) }
    ensures changes { counts.new ≡ slice_set counts.old row (row_at counts.new row) }
{
    counts.retain_row(row, |entry| entry.1 >= least);
}

/// Halves the count at `row` and `column`, rounding down. If there is no count, nothing changes.
/// Requests no memory.
pub fn halve<A: Allocator>(counts: &mut Rows<u32, A>, row: usize, column: usize)
    requires in_bounds { row < length counts.old }
    ensures none { IsNone (value_at counts.old row column) → counts.new ≡ counts.old }
    ensures some { IfSome (value_at counts.old row column)
        (λ count. counts.new ≡ with_value counts.old row column (count / 2)) }
{
    if let Some(count) = counts.get_mut(row, column) {
        *count /= 2;
    }
}

/// Returns whether the table has no counts.
pub fn is_empty<A: Allocator>(counts: &Rows<u32, A>) -> bool
    ensures value { IsTrue result ↔ (entries_of counts.now ≡ []) }
{
    counts.is_empty()
}

/// Adds up all counts. If the sum exceeds `u64::MAX`, returns `u64::MAX`. An iteration of the loop
/// has the row, the column and the count of an entry.
pub fn total<A: Allocator>(counts: &Rows<u32, A>) -> u64
    ensures value { result
        ≡ min (sum (map (λ entry. entry.2) (entries_of counts.now))) (2 ^ 64 - 1) }
{
    let mut total = 0u64;
    for entry in counts {
        total = total.saturating_add(u64::from(*entry.2));
    }
    total
}

/// Returns a copy of the table. It equals the table, since clones of numbers equal these.
///
/// # Errors
///
/// Fails only if the allocator fails, and not for a table without rows.
pub fn copied(alloc: Global, counts: &Rows<u32>) -> Result<Rows<u32>, ThinVecError>
    ensures table { IfOk result (λ copy. copy ≡ counts.now) }
    ensures succeeds { length counts.now ≡ 0 → IsOk result }
    ensures cause { IfErr result (λ cause. cause ≡ ThinVecError.OutOfMemory) }
{
    counts.clone(alloc)
}

/// Returns whether two tables have the same number of rows, and the same counts at the same places.
pub fn is_same<A: Allocator>(counts: &Rows<u32, A>, others: &Rows<u32, A>) -> bool
    ensures value { IsTrue result ↔ (counts.now ≡ others.now) }
{
    *counts == *others
}
