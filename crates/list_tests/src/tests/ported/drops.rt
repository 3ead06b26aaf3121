//! When items are dropped: each one once. Dropping an empty list makes no request.
use crate::check;
use crate::checks::leaked_ledger;
use crate::lists::counted_list;
use std::iter::once;
use thin_testing::{Counted, Refusing};
use thin_vec::ThinVec;

#[test]
fn truncate_drops_each_removed_item_once(rt: HostRuntime) {
    let ledger = leaked_ledger(&rt, rt.alloc());
    let mut list = check!(rt; counted_list(ledger, rt.alloc(), 5));
    for len in [3, 0] {
        list.truncate(len);
        check!(rt; same(ledger.live.get(), len as u64));
    }
    drop(list);
    check!(rt; same(ledger.live.get(), 0));
}

#[derive(Drop)]
struct TwoLists {
    early: ThinVec<Counted<'static>>,
    late: ThinVec<Counted<'static>>,
}

#[test]
fn dropping_a_moved_list_drops_its_item_once(rt: HostRuntime) {
    let ledger = leaked_ledger(&rt, rt.alloc());
    let lists = TwoLists {
        early: check!(rt; counted_list(ledger, rt.alloc(), 1)),
        late: check!(rt; counted_list(ledger, rt.alloc(), 1)),
    };
    check!(rt; same(ledger.live.get(), 2));
    drop(lists.early);
    check!(rt; same(ledger.live.get(), 1));
    drop(lists.late);
    check!(rt; same(ledger.live.get(), 0));
}

#[test]
fn extend_moves_an_item_without_dropping_it(rt: HostRuntime) {
    let ledger = leaked_ledger(&rt, rt.alloc());
    let mut list: ThinVec<Counted<'static>> = ThinVec::new(rt.alloc());
    check!(rt; list.extend(once(Counted::new(ledger, 1, ()))));
    check!(rt; same(ledger.live.get(), 1));
    drop(list);
    check!(rt; same(ledger.live.get(), 0));
}

#[test]
fn dropping_an_empty_list_makes_no_request(rt: HostRuntime) {
    let refusing = Refusing::new(rt.alloc(), 1);
    drop(ThinVec::<u64, _>::new(&refusing));
    check!(rt; same(refusing.requests(), 0));
}
