//! Tests of what a call returns if a request for memory or a clone is refused, and of the list
//! afterwards.
use crate::check;
use crate::checks::{leaked_ledger, leaked_refusing};
use crate::lists::counted_list;
use std::alloc::Global;
use std::process::Abort;
use thin_runner::hinted::Hinted;
use thin_testing::{Counted, Ledger, splice};
use thin_vec::{ExtendRefused, SpliceRefused, ThinVec, ThinVecError, thin_vec};

const OUT_OF_MEMORY: ThinVecError = ThinVecError::OutOfMemory;

#[test]
fn refused_push_returns_its_value(rt: HostRuntime) {
    let refusing = leaked_refusing(&rt, rt.alloc(), 2);
    let mut list = ThinVec::new(refusing);
    for item in 1..5 {
        check!(rt; list.push(item));
    }
    let refused = check!(rt; list.push(5).err());
    check!(rt; same((refused.value, refused.cause), (5, OUT_OF_MEMORY)));
    check!(rt; holds(&list, &[1, 2, 3, 4], 4));
    check!(rt; counts(refusing, 2, 1));
    check!(rt; list.push(5));
    check!(rt; holds(&list, &[1, 2, 3, 4, 5], 8));
    check!(rt; counts(refusing, 3, 1));
}

#[test]
fn refused_append_changes_neither_list(rt: HostRuntime) {
    let refusing = leaked_refusing(&rt, rt.alloc(), 3);
    let mut list = check!(rt; thin_vec![refusing => 1, 2]);
    let mut other = check!(rt; thin_vec![refusing => 3]);
    check!(rt; same(list.append(&mut other), Err(OUT_OF_MEMORY)));
    check!(rt; holds(&list, &[1, 2], 2));
    check!(rt; holds(&other, &[3], 1));
    check!(rt; counts(refusing, 3, 2));
    check!(rt; list.append(&mut other));
    check!(rt; holds(&list, &[1, 2, 3], 4));
    check!(rt; counts(refusing, 4, 2));
}

#[test]
fn extend_from_slice_drops_its_clones_if_one_is_refused(rt: HostRuntime) {
    let ledger = leaked_ledger(&rt, rt.alloc());
    let three = check!(rt; counted_list(ledger, rt.alloc(), 3));
    let mut list = check!(rt; thin_vec![rt.alloc() => Counted::new(ledger, 7, ())]);
    ledger.begin(2);
    check!(rt; same(list.extend_from_slice(&three), Err(OUT_OF_MEMORY)));
    check!(rt; same((list.len(), list.capacity()), (1, 4)));
    check!(rt; same((ledger.clones.get(), ledger.live.get()), (1, 4)));
    check!(rt; list.extend_from_slice(&three));
    check!(rt; same((list.len(), list.capacity()), (4, 4)));
    check!(rt; same((ledger.clones.get(), ledger.live.get()), (4, 7)));
}

// Asserts the numbers of the items.
fn assert_numbers(rt: &impl Abort, items: &[Counted<'_>], numbers: &[u64]) {
    check!(rt; same(items.len(), numbers.len()));
    let mut index = 0_usize;
    for item in items {
        check!(rt; same(Some(&item.number()), numbers.get(index)));
        index = index.saturating_add(1);
    }
}

#[test]
fn resize_grows_before_its_second_clone_is_refused(rt: HostRuntime) {
    let ledger = leaked_ledger(&rt, rt.alloc());
    let mut list = check!(rt; ThinVec::with_capacity(rt.alloc(), 1));
    check!(rt; list.push(Counted::new(ledger, 7, ())));
    ledger.begin(2);
    let refused = list.resize(5, Counted::new(ledger, 8, ()));
    check!(rt; same(refused, Err(OUT_OF_MEMORY)));
    assert_numbers(&rt, &list, &[7]);
    check!(rt; same(list.capacity(), 5));
    check!(rt; same((ledger.clones.get(), ledger.live.get()), (1, 1)));
}

// Clones a list of three items in three ways, with clone number `refused` refused each time.
// Asserts which items and clones there are.
fn assert_clones_refused(rt: &impl Abort, ledger: &'static Ledger, alloc: Global, refused: u64) {
    let list = check!(rt; counted_list(ledger, alloc, 3));
    let made = refused.saturating_sub(1);
    ledger.begin(refused);
    check!(rt; same(list.clone(alloc).err(), Some(OUT_OF_MEMORY)));
    check!(rt; same((ledger.clones.get(), ledger.live.get()), (made, 3)));
    ledger.begin(refused);
    check!(rt; same(ThinVec::from_slice(alloc, &list).err(), Some(OUT_OF_MEMORY)));
    check!(rt; same((ledger.clones.get(), ledger.live.get()), (made, 3)));
    assert_numbers(rt, &list, &[0, 1, 2]);
    let items = list.into_iter();
    ledger.begin(refused);
    check!(rt; same(items.clone(alloc).err(), Some(OUT_OF_MEMORY)));
    check!(rt; same((ledger.clones.get(), ledger.live.get()), (made, 3)));
    assert_numbers(rt, items.as_slice(), &[0, 1, 2]);
}

#[test]
fn a_refused_clone_makes_no_list(rt: HostRuntime) {
    let ledger = leaked_ledger(&rt, rt.alloc());
    for refused in 1..4 {
        assert_clones_refused(&rt, ledger, rt.alloc(), refused);
        check!(rt; same(ledger.live.get(), 0));
    }
}

#[test]
fn refused_extend_returns_the_item_in_hand(rt: HostRuntime) {
    let refusing = leaked_refusing(&rt, rt.alloc(), 2);
    let mut list = ThinVec::new(refusing);
    let items = Hinted::new(check!(rt; [1, 2, 3, 4, 5].to_vec(rt.alloc())), 0);
    let ExtendRefused {
        cause,
        in_hand,
        mut rest,
    } = check!(rt; list.extend(items).err());
    check!(rt; same((cause, in_hand, rest.next()), (OUT_OF_MEMORY, Some(5), None)));
    check!(rt; holds(&list, &[1, 2, 3, 4], 4));
    check!(rt; counts(refusing, 2, 1));
}

#[test]
fn refused_finish_returns_the_item_in_hand(rt: HostRuntime) {
    let refusing = leaked_refusing(&rt, rt.alloc(), 2);
    let mut list = check!(rt; thin_vec![refusing => 1, 2, 3, 4, 5]);
    let items = Hinted::new(check!(rt; [10, 11, 12].to_vec(rt.alloc())), 0);
    let SpliceRefused {
        cause,
        held,
        in_hand,
        mut rest,
    } = check!(rt; splice(&mut list, (2, 4), items, refusing).err());
    check!(rt; same((cause, in_hand, rest.next()), (OUT_OF_MEMORY, Some(12), None)));
    check!(rt; same(held.len(), 0));
    check!(rt; holds(&list, &[1, 2, 10, 11, 5], 5));
}

// The second request is for a vector of the items that do not fit into the range. The third
// request, which would make the list grow, is refused.
#[test]
fn refused_finish_returns_the_held_items(rt: HostRuntime) {
    let refusing = leaked_refusing(&rt, rt.alloc(), 3);
    let mut list = check!(rt; thin_vec![refusing => 1, 2, 3]);
    let items = Hinted::new(check!(rt; [7, 8, 9].to_vec(rt.alloc())), 0);
    let SpliceRefused {
        cause,
        held,
        in_hand,
        mut rest,
    } = check!(rt; splice(&mut list, (1, 2), items, refusing).err());
    check!(rt; same((cause, in_hand, rest.next()), (OUT_OF_MEMORY, None, None)));
    check!(rt; same(held.as_slice(), &[8, 9][..]));
    check!(rt; holds(&list, &[1, 7, 3], 3));
}
