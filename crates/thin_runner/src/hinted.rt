//! Defines the iterator `Hinted`, whose size hint need not be correct.
ghost use Rattle.std.specs.Prelude.{◌≡◌, IfSome, None};
ghost use Rattle.std.specs.Iterator.{UpTo};
ghost use Rattle.std.specs.Iterator.Runs.{YieldsInOrder};
ghost use Rattle.std.specs.Iterator.SizeHint.{IsWithinCount};

use std::alloc::{Allocator, Global};
use std::vec::IntoIter;

/// An iterator that yields its items in order, and then always returns `None`. The lower bound of
/// its size hint never changes, and may exceed the number of remaining items.
#[derive(Drop)]
pub struct Hinted<T, A: Allocator = Global> {
    items: IntoIter<T, A>,
    lower: usize,
}

impl<T, A: Allocator> Hinted<T, A> {
    ghost use Rattle.thin_runner.specs.Hinted.{HintedSteps, hinted_claim, hinted_items};

    /// Makes an iterator that owns `items`. The lower bound of its size hint is always `lower`.
    pub fn new(items: Vec<T, A>, lower: usize) -> Hinted<T, A>
        ensures items { hinted_items result ≡ items.items }
        ensures lower { hinted_claim result ≡ lower }
        ensures runs { YieldsInOrder (HintedSteps {T = T} {A = A}) hinted_items }
    {
        Hinted {
            items: items.into_iter(),
            lower,
        }
    }
}

impl<T: Drop, A: Allocator> Iterator for Hinted<T, A> {
    ghost use Rattle.thin_runner.specs.Hinted.{HintedSteps, hinted_claim, hinted_count};

    type Item = T;

    ghost next_gives = { HintedSteps };

    ghost remaining = { hinted_count };

    fn next(&mut self) -> Option<T> {
        self.items.next()
    }

    fn size_hint(&self) -> (usize, Option<usize>)
        ensures value { result ≡ (hinted_claim self.now, None) }
        ensures lower { IsWithinCount result.0 (hinted_count self.now) }
        ensures upper { IfSome result.1 (UpTo (hinted_count self.now)) }
    {
        (self.lower, None)
    }
}
