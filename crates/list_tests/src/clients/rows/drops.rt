//! Tests of when a table drops its values.
use crate::check;
use crate::checks::leaked_ledger;
use crate::clients::rows::assert_row;
use std::alloc::Global;
use std::process::Abort;
use thin_rows::Rows;
use thin_testing::{Counted, Ledger};

// Asserts that as many values are alive as the table has entries.
fn assert_live<V>(rt: &impl Abort, ledger: &Ledger, table: &Rows<V>) {
    check!(rt; same(ledger.live.get(), table.len() as u64));
}

// Sets `count` counted values in each row.
fn set_counted(
    rt: &impl Abort,
    table: &mut Rows<Counted<'static>>,
    ledger: &'static Ledger,
    count: usize,
) {
    for row in 0..table.rows() {
        for column in 0..count {
            assert_row(rt, table, row);
            check!(rt; table.set(row, column, Counted::new(ledger, 7, ())));
        }
    }
    assert_live(rt, ledger, table);
}

// Removes the values of each row, of which there are `count`.
fn assert_drops_by_remove(
    rt: &impl Abort,
    table: &mut Rows<Counted<'static>>,
    ledger: &'static Ledger,
    (rows, count): (usize, usize),
) {
    for row in 0..rows {
        for column in 0..count {
            assert_row(rt, table, row);
            drop(table.remove(row, column));
            assert_live(rt, ledger, table);
        }
    }
}

// Replaces the first value of each row, and clears the row.
fn assert_drops_by_clear_row(
    rt: &impl Abort,
    table: &mut Rows<Counted<'static>>,
    ledger: &'static Ledger,
    rows: usize,
) {
    for row in 0..rows {
        assert_row(rt, table, row);
        if let Some(value) = table.get_mut(row, 0) {
            *value = Counted::new(ledger, 7, ());
        }
        assert_live(rt, ledger, table);
        assert_row(rt, table, row);
        table.clear_row(row);
        assert_live(rt, ledger, table);
    }
}

// Keeps the entries of the even columns of each row, and then none.
fn assert_drops_by_retain_row(
    rt: &impl Abort,
    table: &mut Rows<Counted<'static>>,
    ledger: &'static Ledger,
    (rows, count): (usize, usize),
) {
    for row in 0..rows {
        assert_row(rt, table, row);
        table.retain_row(row, |entry| entry.0 % 2 == 0);
        check!(rt; same(table.row(row).len(), count.div_ceil(2)));
        assert_live(rt, ledger, table);
        table.retain_row(row, |_entry| false);
        check!(rt; same(table.owns_block(row), false));
        assert_live(rt, ledger, table);
    }
}

// Sets, removes and drops the values of a table whose rows have `count` entries each. Asserts after
// each call how many values are alive.
fn assert_drops(rt: &impl Abort, alloc: Global, rows: usize, count: usize) {
    let ledger = leaked_ledger(rt, alloc);
    let mut table = check!(rt; Rows::with_rows(alloc, rows));
    set_counted(rt, &mut table, ledger, count);
    set_counted(rt, &mut table, ledger, count);
    assert_drops_by_remove(rt, &mut table, ledger, (rows, count));
    set_counted(rt, &mut table, ledger, count);
    assert_drops_by_clear_row(rt, &mut table, ledger, rows);
    set_counted(rt, &mut table, ledger, count);
    assert_drops_by_retain_row(rt, &mut table, ledger, (rows, count));
    set_counted(rt, &mut table, ledger, count);
    drop(table);
    check!(rt; same(ledger.live.get(), 0));
}

#[test]
fn drops_each_value_once(rt: HostRuntime) {
    for (rows, count) in [(0, 0), (1, 0), (1, 1), (3, 2), (2, 50)] {
        assert_drops(&rt, rt.alloc(), rows, count);
    }
}
