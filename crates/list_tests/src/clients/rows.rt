//! Tests of `Rows`, and functions that they share, which assert which rows and entries a table has.
//! Most methods ask for a row that is there.
ghost use Rattle.std.specs.Prelude.{◌<◌, ◌≡◌, length};

mod drops;
mod entries;
mod requests;
mod texts;
mod walks;

use crate::check;
use std::alloc::Allocator;
use std::fmt::Debug;
use std::process::Abort;
use thin_rows::Rows;

/// Asserts how many rows the table has. The prover knows it afterwards.
pub fn assert_rows<V, A: Allocator>(rt: &impl Abort, table: &Rows<V, A>, rows: usize)
    ensures rows { length table.now ≡ rows }
{
    assert_eq!(rt; table.rows(), rows);
}

/// Asserts that the table has a row with this index, which most methods ask for.
pub fn assert_row<V, A: Allocator>(rt: &impl Abort, table: &Rows<V, A>, row: usize)
    ensures in_bounds { row < length table.now }
{
    assert!(rt; row < table.rows());
}

/// Sets a value, and asserts that the old value was `old`.
pub fn assert_set<V: PartialEq + Debug + Drop, A: Allocator>(
    rt: &impl Abort,
    table: &mut Rows<V, A>,
    (row, column): (usize, usize),
    value: V,
    old: Option<V>,
) {
    assert_row(rt, table, row);
    let found = check!(rt; table.set(row, column, value));
    check!(rt; same(found, old));
}
