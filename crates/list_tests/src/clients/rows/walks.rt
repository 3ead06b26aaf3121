//! Tests of calls that visit all entries of a sparse table `Rows`: what a clone requests, what a
//! refused one leaves, and how often values are compared.
use crate::check;
use crate::checks::{leaked_ledger, leaked_refusing};
use crate::clients::rows::assert_row;
use std::alloc::{AllocError, Allocator};
use std::process::Abort;
use thin_rows::{Rows, ThinVecError};
use thin_testing::{Counted, Ledger, Lender};

// The numbers of rows, and of entries in each row with an odd number.
type Size = (usize, usize);

const SIZES: [Size; 6] = [(0, 0), (1, 3), (2, 1), (5, 4), (9, 60), (3000, 0)];

// Makes a table of numbers. Rows with even numbers have no entries, and all others have as many as
// `size` says.
fn table_of<A: Allocator + Copy>(rt: &impl Abort, alloc: A, (rows, count): Size) -> Rows<u32, A> {
    let mut table = check!(rt; Rows::with_rows(alloc, rows));
    for row in 0..rows {
        if row % 2 == 1 {
            for column in 0..count {
                assert_row(rt, &table, row);
                check!(rt; table.set(row, column.saturating_mul(7), 5));
            }
        }
    }
    table
}

// Returns how many requests a clone of such a table makes.
fn requests_of_clone((rows, count): Size) -> u64 {
    let lists = if count == 0 { 0 } else { rows / 2 };
    rows.min(1).saturating_add(lists) as u64
}

// Returns how many bytes these requests are for. A row, an entry and a header take 16 bytes each.
fn bytes_of_clone((rows, count): Size) -> u64 {
    let entries = (rows / 2).saturating_mul(count);
    let units = (rows as u64).saturating_add(entries as u64);
    units
        .saturating_add(requests_of_clone((rows, count)))
        .saturating_mul(16)
}

// Clones a table by the allocator `other`, and asserts how many requests and bytes this takes, that
// its own allocator gets no request, and that the clone frees its blocks.
fn assert_clone_requests(rt: &impl Abort, own: Lender, other: Lender, size: Size) {
    own.refuse(0);
    other.refuse(0);
    let table = table_of(rt, own, size);
    own.refuse(1);
    let copy = check!(rt; table.clone(other));
    let requests = requests_of_clone(size);
    check!(rt; counts(other, requests, requests));
    check!(rt; same(other.bytes(), bytes_of_clone(size)));
    check!(rt; same((own.requests(), copy.rows()), (0, size.0)));
    drop(copy);
    check!(rt; counts(other, requests, 0));
}

#[test]
fn a_clone_requests_what_its_rows_and_entries_take(rt: HostRuntime) {
    let own = leaked_refusing(&rt, rt.alloc(), 0);
    let other = leaked_refusing(&rt, rt.alloc(), 0);
    for size in SIZES {
        assert_clone_requests(&rt, own, other, size);
    }
}

fn cloned<T: Clone>(value: &T) -> Result<T, AllocError> {
    value.clone()
}

#[test]
fn the_trait_clones_by_the_allocator_of_the_table(rt: HostRuntime) {
    let own = leaked_refusing(&rt, rt.alloc(), 0);
    for size in SIZES {
        own.refuse(0);
        let table = table_of(&rt, own, size);
        own.refuse(0);
        let copy = check!(rt; cloned(&table));
        check!(rt; same((copy == table, own.requests()), (true, requests_of_clone(size))));
    }
}

// A table of counted values.
type Table = Rows<Counted<'static>, Lender>;

// Makes a table with `count` values in each row.
fn counted_table(rt: &impl Abort, ledger: &'static Ledger, (rows, count): Size) -> Table {
    ledger.begin(0);
    let mut table = check!(rt; Rows::with_rows(&ledger.alloc, rows));
    for row in 0..rows {
        for column in 0..count {
            assert_row(rt, &table, row);
            drop(check!(rt; table.set(row, column, Counted::new(ledger, column as u64, ()))));
        }
    }
    table
}

// Refuses each request of a clone of the table in turn, and asserts that neither blocks nor values
// are left of the clone. The clone of a value is a request, too.
fn assert_clones_refused(rt: &impl Abort, ledger: &'static Ledger, table: &Table, requests: u64) {
    let due = (ledger.alloc.blocks(), ledger.live.get());
    for earlier in 0..requests {
        ledger.begin(earlier.saturating_add(1));
        let answer = table.clone(&ledger.alloc).err();
        check!(rt; same(answer, Some(ThinVecError::OutOfMemory)));
        let left = (ledger.alloc.blocks(), ledger.live.get());
        check!(rt; same((earlier, left), (earlier, due)));
    }
}

#[test]
fn a_refused_clone_frees_its_rows(rt: HostRuntime) {
    let ledger = leaked_ledger(&rt, rt.alloc());
    for size in [(1, 1), (1, 5), (2, 1), (3, 4), (2, 50)] {
        let table = counted_table(&rt, ledger, size);
        ledger.begin(0);
        let copy = check!(rt; table.clone(&ledger.alloc));
        let (requests, count) = (ledger.alloc.requests(), table.len() as u64);
        check!(rt; same((ledger.clones.get(), ledger.live.get()), (count, count.wrapping_mul(2))));
        drop(copy);
        assert_clones_refused(&rt, ledger, &table, requests);
    }
    check!(rt; same(ledger.live.get(), 0));
}

#[test]
fn a_comparison_compares_each_value_once(rt: HostRuntime) {
    let ledger = leaked_ledger(&rt, rt.alloc());
    for size in [(0, 0), (1, 1), (3, 4)] {
        let table = counted_table(&rt, ledger, size);
        let other = counted_table(&rt, ledger, size);
        ledger.begin(0);
        check!(rt; same(table == other, true));
        check!(rt; same(ledger.comparisons.get(), table.len() as u64));
    }
}
