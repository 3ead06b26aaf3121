//! Tests of the entries of a row, and that a table is `Send` and `Sync`.
use crate::check;
use crate::checks::leaked_refusing;
use crate::clients::rows::assert_rows;
use std::marker::{Send, Sync};
use thin_rows::Rows;
use thin_testing::Lender;

type Table = Rows<u32, Lender>;

#[test]
fn row_is_in_the_order_of_the_columns(rt: HostRuntime) {
    let refusing = leaked_refusing(&rt, rt.alloc(), 0);
    let mut table = check!(rt; Table::with_rows(refusing, 1));
    assert_rows(&rt, &table, 1);
    let old = check!(rt; table.set(0, usize::MAX, 1));
    check!(rt; same(old, None));
    let old = check!(rt; table.set(0, 0, 2));
    check!(rt; same(old, None));
    check!(rt; same_items(table.row(0), &[(0, 2), (usize::MAX, 1)]));
    check!(rt; same(table.get(0, 5), None));
    check!(rt; same(table.remove(0, 5), None));
    check!(rt; same(table.get(0, 0), Some(&2)));
    refusing.refuse(1);
    let old = check!(rt; table.set(0, 0, 3));
    check!(rt; same(old, Some(2)));
    check!(rt; counts(refusing, 0, 2));
    check!(rt; same_items(table.row(0), &[(0, 3), (usize::MAX, 1)]));
}

fn needs_send_and_sync<X: Send + Sync>(_value: &X) {}

// The compiler checks this, so no thread is started.
#[test]
fn tables_can_be_sent_and_shared(rt: HostRuntime) {
    let table = check!(rt; Rows::<u8>::with_rows(rt.alloc(), 3));
    needs_send_and_sync(&table);
}
