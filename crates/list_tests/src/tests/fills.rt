//! A test of how often `fill` clones, and that it drops the old items.
ghost use Rattle.std.specs.Prelude.{⊤};

use crate::check;
use crate::checks::leaked_ledger;
use std::alloc::{AllocError, Global};
use std::process::Abort;
use thin_testing::{Counted, Ledger, Refusing};
use thin_vec::{ThinVec, ThinVecError};

// The number of the value with which a list is filled.
const VALUE: u64 = 5000;

// A counted item, of which each clone succeeds, since a clone is no request.
#[derive(Drop)]
struct Filler<'a> {
    ledger: &'a Ledger,
    counted: Counted<'a>,
}

impl<'a> Filler<'a> {
    fn new(ledger: &'a Ledger, number: u64) -> Filler<'a> {
        Filler {
            ledger,
            counted: Counted::new(ledger, number, ()),
        }
    }
}

impl Clone for Filler<'_> {
    ghost is_infallible = { λ _. ⊤ };

    fn clone(&self) -> Result<Self, AllocError> {
        let clones = &self.ledger.clones;
        clones.set(clones.get().saturating_add(1));
        Ok(Filler::new(self.ledger, self.counted.number()))
    }
}

// Returns a list of `len` items, whose numbers are their indices.
fn fillers<'a>(
    ledger: &'a Ledger,
    len: u64,
) -> Result<ThinVec<Filler<'a>, &'a Refusing<Global>>, ThinVecError> {
    let mut list = ThinVec::new(&ledger.alloc);
    for number in 0..len {
        list.push(Filler::new(ledger, number))?;
    }
    Ok(list)
}

// Fills a list of `len` items while every request is refused.
fn assert_filled(rt: &impl Abort, ledger: &'static Ledger, len: u64) {
    let mut list = check!(rt; fillers(ledger, len));
    ledger.begin(0);
    ledger.alloc.refuse_all();
    list.fill(Filler::new(ledger, VALUE));
    let clones = ledger.clones.get();
    let found = (ledger.alloc.requests(), clones, ledger.live.get());
    check!(rt; same(found, (0, len.saturating_sub(1), len)));
    drop(list);
    check!(rt; same((ledger.live.get(), ledger.alloc.blocks()), (0, 0)));
}

#[test]
fn fill_clones_for_each_item_but_the_last(rt: HostRuntime) {
    let ledger = leaked_ledger(&rt, rt.alloc());
    for len in [0, 1, 2, 40, 3000] {
        ledger.begin(0);
        assert_filled(&rt, ledger, len);
    }
}
