//! Defines `Ledger`, the counts of a test, and `Counted`, an item type whose values a ledger
//! counts.
ghost use Rattle.std.proofs.Common.{rules};
ghost use Rattle.std.specs.Cmp.{partial_order_from_own_ties};
ghost use Rattle.std.specs.Cmp.Rules.{comparing};
ghost use Rattle.std.specs.Ordering.{as_partial_cmp, nat_cmp};
ghost use Rattle.std.specs.Prelude.{◌≡◌, ◌==◌, true};

use refusing::Refusing;
use std::alloc::{AllocError, Global};
use std::cell::Cell;
use std::cmp::Ordering;
use std::fmt;

/// The allocator of a test, and what the test counts. `live` counts the items that exist now. The
/// other counts begin again with each call to `begin`.
pub struct Ledger {
    /// Refuses one request, which `begin` chooses, or all.
    pub alloc: Refusing<Global>,
    /// Refuses nothing and counts nothing.
    pub global: Global,
    /// The number of counted values that have been made but not dropped yet.
    pub live: Cell<u64>,
    /// The number of clones of counted items.
    pub clones: Cell<u64>,
    /// The number of comparisons of two counted items.
    pub comparisons: Cell<u64>,
    /// The number of calls to `next` of an iterator `Claims`.
    pub nexts: Cell<u64>,
    /// The number of calls to `size_hint` of an iterator `Claims`.
    pub hints: Cell<u64>,
    /// The number of calls to closures that call `Ledger::called`.
    pub calls: Cell<u64>,
}

impl Ledger {
    /// Returns a ledger in which all counts are 0, and whose allocator refuses no request.
    pub fn new(alloc: Global) -> Ledger {
        Ledger {
            alloc: Refusing::new(alloc, 0),
            global: alloc,
            live: Cell::new(0),
            clones: Cell::new(0),
            comparisons: Cell::new(0),
            nexts: Cell::new(0),
            hints: Cell::new(0),
            calls: Cell::new(0),
        }
    }

    /// Returns a ledger that is never freed, so that its allocator can be used for `'static` lists.
    pub fn leaked(alloc: Global) -> Result<&'static Ledger, AllocError> {
        Ok(Box::leak(Box::new(alloc, Ledger::new(alloc))?))
    }

    /// Sets all counts of the ledger but `live` to 0. From now on, the allocator refuses request
    /// number `refused`, no request if `refused` is 0, and all if it is `ALL_REQUESTS`.
    pub fn begin(&self, refused: u64) {
        self.alloc.refuse(refused);
        for cell in [
            &self.clones,
            &self.comparisons,
            &self.nexts,
            &self.hints,
            &self.calls,
        ] {
            cell.set(0);
        }
    }

    /// Counts a call to a closure, and returns the number of earlier calls.
    pub fn called(&self) -> u64 {
        let earlier = self.calls.get();
        count(&self.calls);
        earlier
    }
}

impl Drop for Ledger {
    fn drop(self) {
        let Self {
            alloc: _,
            global: _,
            live: _,
            clones: _,
            comparisons: _,
            nexts: _,
            hints: _,
            calls: _,
        } = self;
    }
}

// Adds 1 to the cell.
pub(crate) fn count(cell: &Cell<u64>) {
    cell.set(cell.get().saturating_add(1));
}

/// An item that its ledger counts until it is dropped. Two items are equal if their numbers are.
/// The payload is there only for its size: an item takes 16 bytes, and the bytes of the payload.
///
/// A clone of an item is a request of the ledger's allocator, which can refuse it.
pub struct Counted<'a, P = ()> {
    ledger: &'a Ledger,
    number: u64,
    payload: P,
}

impl<'a, P> Counted<'a, P> {
    /// Makes an item. The ledger counts it until it is dropped.
    pub fn new(ledger: &'a Ledger, number: u64, payload: P) -> Counted<'a, P> {
        count(&ledger.live);
        Counted {
            ledger,
            number,
            payload,
        }
    }

    /// Returns the number of the item.
    pub fn number(&self) -> u64
        ensures value { result ≡ self.now.number }
    {
        self.number
    }
}

impl<P> fmt::Debug for Counted<'_, P> {
    // Prints the number of the item.
    fn fmt<W: fmt::Write>(&self, f: &mut fmt::Formatter<W>) -> fmt::Result {
        self.number.fmt(f)
    }
}

impl<P: Drop> Drop for Counted<'_, P> {
    fn drop(self) {
        let Counted {
            ledger,
            number: _,
            payload: _,
        } = self;
        ledger.live.set(ledger.live.get().saturating_sub(1));
    }
}

impl<P: Copy> Clone for Counted<'_, P> {
    fn clone(&self) -> Result<Self, AllocError> {
        self.ledger.alloc.request()?;
        count(&self.ledger.clones);
        Ok(Counted::new(self.ledger, self.number, self.payload))
    }
}

impl<P> PartialEq for Counted<'_, P> {
    ghost eq = { λ item other. item.number == other.number };

    ghost laws = { Prim.search (comparing, rules) };

    fn eq(&self, other: &Self) -> bool {
        count(&self.ledger.comparisons);
        self.number == other.number
    }
}

impl<P> Eq for Counted<'_, P> {
    ghost laws = { Prim.search (comparing, rules) };
}

impl<P> Ord for Counted<'_, P> {
    ghost cmp = { λ item other. nat_cmp item.number other.number };

    ghost total = { Prim.search (comparing, rules) };

    ghost matches_partial_cmp = { Prim.search (comparing, rules) };

    ghost matches_eq = { Prim.search (comparing, rules) };

    fn cmp(&self, other: &Self) -> Ordering {
        count(&self.ledger.comparisons);
        self.number.cmp(&other.number)
    }
}

impl<P> PartialOrd for Counted<'_, P> {
    ghost partial_cmp = { as_partial_cmp (λ item other. nat_cmp item.number other.number) };

    ghost laws = { partial_order_from_own_ties (Prim.search (comparing, rules))
        (Prim.search (comparing, rules)) };

    fn partial_cmp(&self, other: &Self) -> Option<Ordering> {
        Some(self.cmp(other))
    }
}

/// An item of 8 bytes that its ledger counts until it is dropped. All these items are equal. A
/// clone is a request, as that of a `Counted` is.
pub struct CountedWord<'a> {
    ledger: &'a Ledger,
}

impl<'a> CountedWord<'a> {
    /// Makes an item. The ledger counts it until it is dropped.
    pub fn new(ledger: &'a Ledger) -> CountedWord<'a> {
        count(&ledger.live);
        CountedWord { ledger }
    }
}

impl Drop for CountedWord<'_> {
    fn drop(self) {
        let CountedWord { ledger } = self;
        ledger.live.set(ledger.live.get().saturating_sub(1));
    }
}

impl Clone for CountedWord<'_> {
    fn clone(&self) -> Result<Self, AllocError> {
        self.ledger.alloc.request()?;
        count(&self.ledger.clones);
        Ok(CountedWord::new(self.ledger))
    }
}

impl PartialEq for CountedWord<'_> {
    ghost eq = { λ _ _. true };

    ghost laws = { Prim.search (comparing, rules) };

    fn eq(&self, _other: &Self) -> bool {
        count(&self.ledger.comparisons);
        true
    }
}

impl Eq for CountedWord<'_> {
    ghost laws = { Prim.search (comparing, rules) };
}
