//! Tests of when a table requests memory, and of what a refused request leaves.
use crate::check;
use crate::checks::leaked_refusing;
use crate::clients::rows::{assert_row, assert_rows, assert_set};
use std::alloc::{Allocator, Global};
use std::fmt::Debug;
use std::process::Abort;
use thin_rows::{Rows, ThinVecError};
use thin_testing::{Lender, Refusing};

// Removes a value, and asserts that it was `old`.
fn assert_removed<V: PartialEq + Debug + Drop, A: Allocator>(
    rt: &impl Abort,
    table: &mut Rows<V, A>,
    (row, column): (usize, usize),
    old: Option<V>,
) {
    assert_row(rt, table, row);
    check!(rt; same(table.remove(row, column), old));
}

#[test]
fn with_rows_returns_the_cause(rt: HostRuntime) {
    let refusing = leaked_refusing(&rt, rt.alloc(), 1);
    let refused = Rows::<u32, &Refusing<Global>>::with_rows(refusing, 3).err();
    check!(rt; same(refused, Some(ThinVecError::OutOfMemory)));
    check!(rt; counts(refusing, 1, 0));
    for rows in [usize::MAX, 1 << 60] {
        let refused = Rows::<u32, &Refusing<Global>>::with_rows(refusing, rows).err();
        check!(rt; same(refused, Some(ThinVecError::CapacityOverflow)));
        check!(rt; counts(refusing, 1, 0));
    }
}

// Asserts that a new table has its rows, and that it makes one request, for the rows and a header
// of 16 bytes. A row takes 16 bytes, whatever the values are. A table without rows makes no
// request.
fn assert_table_requests<V: Drop>(rt: &impl Abort, alloc: Global) {
    for rows in [0, 1, 2, 3, 5, 17, 100, 3000] {
        let refusing = leaked_refusing(rt, alloc, 0);
        let table = check!(rt; Rows::<V, &Refusing<Global>>::with_rows(refusing, rows));
        let blocks = rows.min(1) as u64;
        let bytes = rows.saturating_add(1).saturating_mul(16) as u64;
        check!(rt; same((table.rows(), table.len()), (rows, 0)));
        check!(rt; counts(refusing, blocks, blocks));
        check!(rt; same(refusing.bytes(), bytes.saturating_mul(blocks)));
        drop(table);
        check!(rt; counts(refusing, blocks, 0));
    }
}

#[test]
fn a_new_table_makes_one_request_for_its_rows(rt: HostRuntime) {
    assert_table_requests::<u32>(&rt, rt.alloc());
    assert_table_requests::<[u64; 40]>(&rt, rt.alloc());
}

// Sets each of the `count` entries of row 1 again, in columns that are multiples of `gap`.
fn assert_entries_replaced(
    rt: &impl Abort,
    table: &mut Rows<u32, Lender>,
    count: usize,
    gap: usize,
) {
    for index in 0..count {
        assert_set(rt, table, (1, index.wrapping_mul(gap)), 7, Some(7));
    }
    check!(rt; same(table.len(), count));
}

// Sets a value at a new column of row 1, which has `count` entries. If the row is full, the request
// of the first try is refused, which leaves the table as it was.
fn assert_new_entry(
    rt: &impl Abort,
    table: &mut Rows<u32, Lender>,
    refusing: Lender,
    count: usize,
    column: usize,
) {
    assert_row(rt, table, 1);
    let answer = table
        .set(1, column, 7)
        .map_err(|refused| (refused.value, refused.cause));
    let is_full = [0, 4, 8, 64, 4096].contains(&count);
    if !is_full {
        check!(rt; same(answer, Ok(None)));
        check!(rt; counts(refusing, 0, 2));
        return;
    }
    check!(rt; same(answer, Err((7, ThinVecError::OutOfMemory))));
    check!(rt; counts(refusing, 1, if count == 0 { 1 } else { 2 }));
    check!(rt; same(table.len(), count));
    assert_set(rt, table, (1, column), 7, None);
    check!(rt; counts(refusing, 2, 2));
}

// Fills a row with `count` entries. From then on, only a new entry in a full row makes a request,
// and it makes one. If this request is refused, the table stays as it was.
fn assert_row_requests(rt: &impl Abort, refusing: Lender, count: usize, gap: usize) {
    refusing.refuse(0);
    let mut table = check!(rt; Rows::with_rows(refusing, 300));
    for index in 0..count {
        // The columns are set in descending order if `gap` is odd.
        let last = count.wrapping_sub(index).wrapping_sub(1);
        let next = if gap % 2 == 1 { last } else { index };
        assert_set(rt, &mut table, (1, next.wrapping_mul(gap)), 7, None);
    }
    refusing.refuse(1);
    assert_entries_replaced(rt, &mut table, count, gap);
    let new = count.wrapping_mul(gap);
    assert_new_entry(rt, &mut table, refusing, count, new);
    refusing.refuse(1);
    assert_removed(rt, &mut table, (1, new), Some(7));
    for index in 0..count {
        assert_removed(rt, &mut table, (1, index.wrapping_mul(gap)), Some(7));
        assert_removed(rt, &mut table, (1, index.wrapping_mul(gap)), None);
    }
    check!(rt; counts(refusing, 0, 1));
}

#[test]
fn only_a_new_entry_in_a_full_row_makes_a_request(rt: HostRuntime) {
    let refusing = leaked_refusing(&rt, rt.alloc(), 0);
    for count in [0, 1, 2, 3, 4, 5, 8, 9, 64, 65, 200, 4096] {
        assert_row_requests(&rt, refusing, count, 1);
        assert_row_requests(&rt, refusing, count, 1 << 50);
    }
}

#[test]
fn refused_set_leaves_an_empty_row_without_a_block(rt: HostRuntime) {
    let refusing = leaked_refusing(&rt, rt.alloc(), 2);
    let mut table: Rows<u32, Lender> = check!(rt; Rows::with_rows(refusing, 2));
    assert_rows(&rt, &table, 2);
    let refused = check!(rt; table.set(1, 4, 8).err());
    let memory = ThinVecError::OutOfMemory;
    check!(rt; same((refused.value, refused.cause), (8, memory)));
    check!(rt; same_items(table.row(1), &[]));
    check!(rt; same(table.owns_block(1), false));
    check!(rt; counts(refusing, 2, 1));
}

// Counts the entries by a loop over the table.
fn entries(table: &Rows<u32, Lender>) -> usize {
    let mut visited = 0_usize;
    for (_row, _column, _value) in table {
        visited = visited.saturating_add(1);
    }
    visited
}

// Reads a table of two rows, of which row 0 has three entries, the last one (3, 8).
fn assert_reads(rt: &impl Abort, table: &Rows<u32, Lender>) {
    assert_rows(rt, table, 2);
    check!(rt; same((table.get(0, 3), table.get(1, 3)), (Some(&8), None)));
    check!(rt; same((table.len(), table.row(0).len(), table.is_empty()), (3, 3, false)));
    check!(rt; same((table.owns_block(0), table.owns_block(1)), (true, false)));
    check!(rt; same((entries(table), table == table), (3, true)));
}

// Row 0 is full.
#[test]
fn calls_of_a_table_take_no_memory(rt: HostRuntime) {
    let lender = leaked_refusing(&rt, rt.alloc(), 0);
    let mut table: Rows<u32, Lender> = check!(rt; Rows::with_rows(lender, 2));
    for column in 0..4 {
        assert_set(&rt, &mut table, (0, column), 7, None);
    }
    lender.refuse_all();
    assert_set(&rt, &mut table, (0, 3), 8, Some(7));
    assert_rows(&rt, &table, 2);
    check!(rt; same(table.get_mut(0, 3).is_some(), true));
    check!(rt; same((table.remove(0, 0), table.remove(0, 0)), (Some(7), None)));
    assert_reads(&rt, &table);
    table.retain_row(0, |entry| entry.0 > 1);
    check!(rt; same_items(table.row(0), &[(2, 7), (3, 8)]));
    table.clear_row(0);
    drop(table);
    check!(rt; same((lender.requests(), lender.blocks()), (0, 0)));
}
