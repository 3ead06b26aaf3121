//! Defines the type `Iter`, the iterator over all entries of a table. In contracts, it is the list
//! of the entries that it has left.
ghost use Rattle.std.specs.Prelude.{◌≡◌};
ghost use Rattle.std.specs.Iterator.{item_count};
ghost use Rattle.thin_rows.specs.Table.{entries_from};
ghost use Rattle.thin_rows.specs.Walk.{YieldsFirstEntry};

use crate::row::Row;
use std::alloc::{Allocator, Global};
use std::iter::FusedIterator;
use std::marker::Model;

/// An iterator that yields the row, the column and the value of each entry of a table, sorted by
/// row, and within a row by column. It is made by `Rows::iter`.
#[derive(Drop)]
pub struct Iter<'a, V, A: Allocator = Global> {
    // The entries of row `row` that have not been yielded yet.
    entries: &'a [(usize, V)],
    row: usize,
    // The rows after row `row`.
    rows: &'a [Row<V, A>],
}

impl<'a, V, A: Allocator> Model for Iter<'a, V, A> {
    ghost use Rattle.std.specs.Prelude.{ℕ, ◌+◌, ◌^◌, ◌<◌, List, length};

    ghost Value = { List (ℕ × ℕ × V) };

    ghost use Rattle.thin_rows.specs.Walk.{entries_left};

    ghost view = { λ it. entries_left it.row it.entries.now it.rows.now };

    ghost invariant = { λ it. it.row + length it.rows.now < 2 ^ 64 };
}

impl<'a, V, A: Allocator> Iter<'a, V, A> {
    // Returns an iterator over the entries of a table with the rows `rows`.
    pub(crate) fn new(rows: &'a [Row<V, A>]) -> Iter<'a, V, A>
        ensures value { result ≡ entries_from 0 rows.now }
    {
        match rows.split_first() {
            Some((first, others)) => Iter {
                entries: first.entries(),
                row: 0,
                rows: others,
            },
            None => Iter {
                entries: &[],
                row: 0,
                rows,
            },
        }
    }
}

impl<'a, V, A: Allocator> Iterator for Iter<'a, V, A> {
    type Item = (usize, usize, &'a V);

    ghost next_gives = { YieldsFirstEntry };

    ghost remaining = { item_count (λ rest. rest) };

    fn next(&mut self) -> Option<(usize, usize, &'a V)> {
        while self.entries.is_empty() {
            let Some((first, others)) = self.rows.split_first() else {
                return None;
            };
            self.entries = first.entries();
            self.row += 1;
            self.rows = others;
        }
        let Some(((column, value), rest)) = self.entries.split_first() else {
            return None;
        };
        self.entries = rest;
        Some((self.row, *column, value))
    }
}

impl<'a, V, A: Allocator> FusedIterator for Iter<'a, V, A> {}
