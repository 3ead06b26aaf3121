//! Defines an iterator whose size hint may be wrong, and which counts the calls to its methods.
ghost use Rattle.std.specs.Iterator.{at_most};
ghost use Rattle.std.specs.Prelude.{◌+◌, length};
ghost use Rattle.std.specs.Vec.Iter.{into_iter_items};

use crate::ledger::{Counted, Ledger, count};
use std::alloc::Global;
use std::vec::IntoIter;

/// An iterator that yields its items in order. The lower bound of its size hint is always `lower`.
/// The upper bound is `lower` plus the number of the remaining items, or `None`. But if the
/// iterator is made by `exact`, both bounds are the number of the remaining items.
///
/// The ledger counts the iterator until it is dropped, and the calls to `next` and `size_hint`.
#[derive(Drop)]
pub struct Claims<'a, T> {
    items: IntoIter<T, Global>,
    lower: usize,
    is_bounded: bool,
    is_exact: bool,
    ledger: &'a Ledger,
    itself: Counted<'a>,
}

impl<'a, T> Claims<'a, T> {
    /// Returns an iterator over `items`. The upper bound of its size hint is `None` if `is_bounded`
    /// is false, or if the sum is too large.
    pub fn new(ledger: &'a Ledger, items: Vec<T>, lower: usize, is_bounded: bool) -> Claims<'a, T> {
        Claims {
            items: items.into_iter(),
            lower,
            is_bounded,
            is_exact: false,
            ledger,
            itself: Counted::new(ledger, 0, ()),
        }
    }

    /// Returns an iterator over `items` whose size hint is exact.
    pub fn exact(ledger: &'a Ledger, items: Vec<T>) -> Claims<'a, T> {
        Claims {
            is_exact: true,
            ..Claims::new(ledger, items, 0, true)
        }
    }

    /// Returns the items that have not been yielded yet. This counts no call to `next`.
    pub fn into_left(self) -> IntoIter<T, Global> {
        let Claims {
            items,
            lower: _,
            is_bounded: _,
            is_exact: _,
            ledger: _,
            itself: _,
        } = self;
        items
    }
}

impl<T: Drop> Iterator for Claims<'_, T> {
    type Item = T;

    ghost remaining = { λ claims. at_most (claims.lower + length (into_iter_items claims.items)) };

    fn next(&mut self) -> Option<T> {
        count(&self.ledger.nexts);
        self.items.next()
    }

    fn size_hint(&self) -> (usize, Option<usize>) {
        count(&self.ledger.hints);
        let upper = if self.is_bounded {
            self.lower.checked_add(self.items.len())
        } else {
            None
        };
        let lower = if self.is_exact {
            self.items.len()
        } else {
            self.lower
        };
        (lower, upper)
    }
}
