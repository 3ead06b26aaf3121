//! A test of when the filters of a list drop an item that they remove.
use crate::check;
use crate::checks::leaked_ledger;
use std::cell::Cell;
use thin_testing::{Counted, Ledger, List, filled_list};
use thin_vec::Doubling;

// Counts a call to a closure that keeps none of the items that it tests, of a list of `len`, and
// adds 1 to `late` if an item that an earlier call did not keep still exists.
fn reject(ledger: &Ledger, len: u64, late: &Cell<u64>) -> bool {
    let left = len.saturating_sub(ledger.called());
    if ledger.live.get() != left {
        late.set(late.get().saturating_add(1));
    }
    false
}

// Removes all items by `retain`, or all but the first by `dedup_by`. Returns the number of calls
// before which an item that is not kept still exists.
fn late_drops(
    ledger: &'static Ledger,
    list: &mut List<Counted<'static>, Doubling>,
    is_dedup: bool,
) -> u64 {
    let len = list.len() as u64;
    let late = Cell::new(0);
    if is_dedup {
        list.dedup_by(|_later, _kept| !reject(ledger, len, &late));
    } else {
        list.retain(|_item| reject(ledger, len, &late));
    }
    late.get()
}

#[test]
fn filters_drop_an_item_before_they_test_the_next_one(rt: HostRuntime) {
    let ledger = leaked_ledger(&rt, rt.alloc());
    for len in [1, 2, 6, 100] {
        for is_dedup in [false, true] {
            let mut list: List<Counted<'static>, Doubling> =
                check!(rt; filled_list(ledger, len, 0));
            ledger.begin(0);
            let late = late_drops(ledger, &mut list, is_dedup);
            check!(rt; same((len, is_dedup, late), (len, is_dedup, 0)));
        }
    }
}
