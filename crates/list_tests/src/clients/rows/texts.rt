//! Tests of how a table is printed: as a list of maps.
use crate::check;
use crate::checks::leaked_refusing;
use crate::clients::rows::{assert_row, assert_set};
use crate::texts::{prints, prints_as};
use std::alloc::Global;
use std::collections::BTreeMap;
use std::process::Abort;
use thin_rows::Rows;
use thin_testing::Lender;

type Map = BTreeMap<usize, i32>;

#[test]
fn prints_each_row_as_a_map(rt: HostRuntime) {
    let mut table = check!(rt; Rows::with_rows(rt.alloc(), 2));
    assert_set(&rt, &mut table, (1, 7), 10, None);
    assert_set(&rt, &mut table, (1, 2), 20, None);
    assert_set(&rt, &mut table, (1, 9), 30, None);
    let lines = "[\n    {},\n    {\n        2: 20,\n        7: 10,\n        9: 30,\n    },\n]";
    let wide = "[{}, {0002: 0020, 0007: 0010, 0009: 0030}]";
    check!(rt; prints(rt.alloc(), &table, ["[{}, {2: 20, 7: 10, 9: 30}]", lines, wide]));
}

// Sets `count` entries of the row and one at the greatest column. Returns the map of these entries.
fn filled_row(
    rt: &impl Abort,
    alloc: Global,
    table: &mut Rows<i32, Lender>,
    row: usize,
    count: usize,
) -> Map {
    let mut map = BTreeMap::new(alloc);
    for index in 0..=count {
        let column = if index == 0 { usize::MAX } else { index };
        let value = if index % 3 == 0 { -8 } else { 9 };
        assert_row(rt, table, row);
        check!(rt; table.set(row, column, value));
        check!(rt; map.insert(column, value).ok());
    }
    map
}

// Asserts that a table, of which the rows with odd numbers have `count` entries each and one at the
// greatest column, is printed as a list of maps. Also asserts that printing requests no memory from
// the allocator of the table.
fn assert_printed_as_maps(rt: &impl Abort, alloc: Global, rows: usize, count: usize) {
    let refusing = leaked_refusing(rt, alloc, 0);
    let mut table = check!(rt; Rows::with_rows(refusing, rows));
    let mut maps: Vec<Map> = Vec::new(alloc);
    for row in 0..rows {
        let map = if row % 2 == 1 {
            filled_row(rt, alloc, &mut table, row, count)
        } else {
            BTreeMap::new(alloc)
        };
        check!(rt; maps.push(map).ok());
    }
    refusing.refuse(1);
    check!(rt; prints_as(alloc, &table, &maps));
    check!(rt; same(refusing.requests(), 0));
}

#[test]
fn prints_the_rows_as_maps_with_each_option(rt: HostRuntime) {
    for (rows, count) in [(0, 0), (1, 0), (2, 1), (3, 2), (4, 250)] {
        assert_printed_as_maps(&rt, rt.alloc(), rows, count);
    }
}
