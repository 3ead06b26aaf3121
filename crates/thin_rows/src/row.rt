//! Defines the type `Row`, which stores its entries in a list, in increasing order of their
//! columns.
ghost use Rattle.std.specs.Prelude.{◌≡◌, ◌↔◌, ◌+◌, ◌<◌, IfErr, IfOk, IsOk, IsSome, IsTrue, OnErr, OnOk, Some, length};
ghost use Rattle.std.specs.FinMap as map;
ghost use Rattle.std.specs.Option.{option_copied};
ghost use Rattle.thin_rows.specs.Entries.{IsInsertionPoint, IsFoundAt, IsSortedByColumn};

use std::alloc::Allocator;
use std::marker::Model;
use std::{fmt, mem};
use thin_vec::{Rejected, ThinVec, ThinVecError};

// A finite map from columns to values. A row without entries owns no block.
#[derive(Drop)]
pub(crate) struct Row<V, A: Allocator> {
    entries: ThinVec<(usize, V), A>,
}

impl<V, A: Allocator> Model for Row<V, A> {
    ghost use Rattle.std.specs.Coded.{coded_ℕ};
    ghost use Rattle.std.specs.FinMap as map;
    ghost use Rattle.thin_rows.specs.Table.{Columns};

    ghost Value = { Columns V };

    ghost coded = { map.code coded_ℕ V.code };

    ghost use Rattle.thin_rows.specs.Entries.{IsRow, columns_of};

    ghost view = { λ row. columns_of row.entries };

    ghost invariant = { λ row. IsRow row.entries };
}

impl<V, A: Allocator> Row<V, A> {
    ghost use types.Logic.{sem};
    ghost use Rattle.std.specs.Option.{option_copied_mut};
    ghost use Rattle.thin_vec.specs.List.Capacity.{OverflowsIff, map_cause};
    ghost use Rattle.thin_rows.specs.EntryType.{capacity_after_insert};
    ghost use Rattle.thin_rows.specs.Lends.{LendsColumn, LendsColumnIfSome};

    pub(crate) fn new(alloc: A) -> Row<V, A>
        ensures value { result ≡ map.empty }
    {
        Row {
            entries: ThinVec::new(alloc),
        }
    }

    // Returns the entries in increasing order of their columns.
    pub(crate) fn entries(&self) -> &[(usize, V)]
        ensures value { result.now ≡ map.entries self.now }
        ensures sorted { IsSortedByColumn result.now }
    {
        self.entries.as_slice()
    }

    pub(crate) fn len(&self) -> usize
        ensures value { result ≡ map.len self.now }
    {
        self.entries.len()
    }

    pub(crate) fn owns_block(&self) -> bool
        ensures value { IsTrue result ↔ (0 < map.len self.now) }
    {
        self.entries.has_capacity()
    }

    // Returns the value at `column`, if there is one.
    pub(crate) fn get(&self, column: usize) -> Option<&V>
        ensures value { option_copied result ≡ map.get self.now column }
    {
        let entries = self.entries.as_slice();
        match search(entries, column) {
            Ok(at) => Some(&entries[at].1),
            Err(_gap) => None,
        }
    }

    // Returns a mutable reference to the value at `column`, if there is one.
    pub(crate) fn get_mut(&mut self, column: usize) -> Option<&mut V>
        ensures* writes_back { sem 𝓛
            (LendsColumnIfSome V.row A.row A.Allocator self.entry column result) }
        ensures value { option_copied_mut result ≡ map.get self.old column }
    {
        match search(self.entries.as_slice(), column) {
            Ok(at) => Some(self.value_mut(column, at)),
            Err(_gap) => None,
        }
    }

    // Returns a mutable reference to the value of the entry at the index `at`. It is apart from
    // `get_mut`, so that the loan out of a row is proved without the search.
    fn value_mut(&mut self, column: usize, at: usize) -> &mut V
        requires found { IsFoundAt (map.entries self.old) column at }
        ensures* writes_back { sem 𝓛
            (LendsColumn V.row A.row A.Allocator self.entry column result) }
        ensures value { map.get self.old column ≡ Some result.now }
    {
        &mut self.entries[at].1
    }

    // Writes `value` at `column`, and returns the old value, if there was one.
    pub(crate) fn set(&mut self, column: usize, value: V) -> Result<Option<V>, Rejected<V>>
        ensures succeeds { IsSome (map.get self.old column) → IsOk result }
        ensures value { IfOk result (λ old. old ≡ map.get self.old column) }
        ensures entries { OnOk result (self.new ≡ map.insert self.old column value) }
        ensures overflow { OnErr result (OverflowsIff
            (capacity_after_insert V.row (map.len self.old)) (map_cause result)) }
        ensures err { OnErr result (self.new ≡ self.old) }
        ensures value_returned { IfErr result (λ refused. refused.value ≡ value) }
    {
        match search(self.entries.as_slice(), column) {
            Ok(at) => {
                let (_column, old) = mem::replace(&mut self.entries[at], (column, value));
                Ok(Some(old))
            }
            Err(at) => {
                if let Err(refused) = self.entries.insert(at, (column, value)) {
                    return Err(Rejected {
                        value: refused.value.1,
                        cause: refused.cause,
                    });
                }
                Ok(None)
            }
        }
    }

    // Removes the entry at `column`, if there is one, and returns its value.
    pub(crate) fn remove(&mut self, column: usize) -> Option<V>
        ensures value { result ≡ map.get self.old column }
        ensures entries { self.new ≡ map.remove self.old column }
    {
        let at = match search(self.entries.as_slice(), column) {
            Ok(at) => at,
            Err(_gap) => return None,
        };
        let (_column, value) = self.entries.remove(at);
        free_if_empty(&mut self.entries);
        Some(value)
    }
}

impl<V: Clone, A: Allocator> Row<V, A> {
    ghost use Rattle.thin_rows.specs.Table.{IsClonedRow};

    // Makes a row of clones of all values, at the same columns. Its list owns `alloc`.
    pub(crate) fn clone(&self, alloc: A) -> Result<Row<V, A>, ThinVecError>
        ensures entries { IfOk result (IsClonedRow V.is_clone self.now) }
        ensures cause { IfErr result (λ cause. cause ≡ ThinVecError.OutOfMemory) }
    {
        let entries = self.entries.clone(alloc)?;
        Ok(Row { entries })
    }
}

impl<V: PartialEq, A: Allocator> PartialEq for Row<V, A> {
    ghost use Rattle.std.specs.Cmp.{and_per, nat_eq_equiv, on_per, partial_equiv_from_equiv};
    ghost use Rattle.std.specs.Cmp.Lexicographic.{lists_per};
    ghost use Rattle.thin_rows.specs.Table.{row_eq};

    ghost eq = { row_eq V.eq };

    ghost laws = { on_per map.entries (lists_per (and_per
        (on_per (λ entry. entry.0) (partial_equiv_from_equiv nat_eq_equiv))
        (on_per (λ entry. entry.1) V.laws))) };

    fn eq(&self, other: &Self) -> bool {
        self.entries == other.entries
    }
}

impl<V: Eq, A: Allocator> Eq for Row<V, A> {
    ghost use Rattle.std.specs.Cmp.{and_equiv, nat_eq_equiv, on_equiv};
    ghost use Rattle.std.specs.Cmp.Lexicographic.{lists_equiv};

    ghost laws = { on_equiv map.entries (lists_equiv (and_equiv
        (on_equiv (λ entry. entry.0) nat_eq_equiv) (on_equiv (λ entry. entry.1) V.Eq.laws))) };
}

impl<V: Drop, A: Allocator> Row<V, A> {
    ghost use Rattle.std.specs.Fn.{CalledAt};
    ghost use Rattle.std.specs.List.Retain.{IsFiltered};

    // Keeps the entries for which `keep` returns true, and drops the values of the others.
    pub(crate) fn retain<F: FnMut(&(usize, V)) -> bool>(&mut self, keep: F)
        requires callable { F.IsAlwaysCallable keep }
        ensures filtered { IsFiltered (CalledAt F.FnMut) keep
            (map.entries self.old) (map.entries self.new) }
    {
        self.entries.retain(keep);
        free_if_empty(&mut self.entries);
    }

    // Removes all entries, and drops their values.
    pub(crate) fn clear(&mut self)
        ensures entries { self.new ≡ map.empty }
    {
        self.entries.clear();
        free_if_empty(&mut self.entries);
    }
}

impl<V: fmt::Debug, A: Allocator> fmt::Debug for Row<V, A> {
    // Prints the row as std prints a map.
    fn fmt<W: fmt::Write>(&self, f: &mut fmt::Formatter<W>) -> fmt::Result {
        let mut map = f.debug_map();
        for (column, value) in self.entries.as_slice() {
            map.entry(column, value);
        }
        map.finish()
    }
}

// Frees the block of `list` if `list` is empty. This cannot fail.
fn free_if_empty<T, A: Allocator>(list: &mut ThinVec<T, A>)
    ensures items { list.new.items ≡ list.old.items }
    ensures capacity { (0 < list.new.capacity) ↔ (0 < length list.new.items) }
{
    if list.len() == 0 {
        match list.shrink_to_fit() {
            Ok(()) => (),
            Err(_cause) => unreachable!(),
        }
    }
}

// Returns the index of the entry at `column`, or an `Err` with the index at which it would be
// inserted.
fn search<V>(entries: &[(usize, V)], column: usize) -> Result<usize, usize>
    requires sorted { IsSortedByColumn entries.now }
    ensures ok { IfOk result (IsFoundAt entries.now column) }
    ensures err { IfErr result (IsInsertionPoint entries.now column) }
{
    entries.binary_search_by_key(&column, |entry| entry.0)
}
