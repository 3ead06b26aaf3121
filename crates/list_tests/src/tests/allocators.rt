//! Tests of the calls that take an allocator. What they make uses this allocator, and not that of
//! the list, even if the list is empty. A list drops an allocator that it owns.
ghost use Rattle.std.specs.Mem.{type_size};
ghost use Rattle.std.specs.Prelude.{◌*◌, ◌<◌, ◌^◌};

use crate::check;
use crate::checks::{leaked_ledger, leaked_refusing};
use std::alloc::{Allocator, Global};
use std::default::Emptied;
use std::io;
use std::process::Abort;
use std::rc::Rc;
use thin_runner::hinted::Hinted;
use thin_testing::{Counted, Ledger, Lender, Numbered, Refusing, numbered_items, splice};
use thin_vec::{ThinVec, ThinVecError, thin_vec};

// Makes a `Vec` of the items of the list with the allocator `alloc`, by one of six calls. The
// number `way`, from 0 to 5, selects the call.
fn made_by_way<A: Allocator + Copy>(
    way: u32,
    mut list: ThinVec<i32, A>,
    alloc: A,
) -> Result<Vec<i32, A>, ThinVecError> {
    let made = match way {
        0 => list.split_off(alloc, 0)?,
        1 => list.clone(alloc)?,
        2 => list.clone_copies(alloc)?,
        3 => {
            let mut made = ThinVec::new(alloc);
            made.extend(list.into_iter().clone(alloc)?)?;
            return Ok(made.into_vec(alloc)?);
        }
        4 => return Ok(list.into_boxed_slice(alloc)?.into_vec()),
        _ => return Ok(list.into_vec(alloc)?),
    };
    drop(list);
    Ok(made.into_vec(alloc)?)
}

// Tries each of the six calls on a list of `items`. Pushes one more item to the `Vec` that it
// makes, so that the `Vec` has a block.
fn assert_each_way_uses_the_allocator(rt: &impl Abort, alloc: Global, items: &[i32]) {
    let own = leaked_refusing(rt, alloc, 0);
    let other = leaked_refusing(rt, alloc, 0);
    for way in 0..6 {
        let list = check!(rt; list_of(own, items));
        let mut made = check!(rt; made_by_way(way, list, other));
        check!(rt; made.push(9));
        check!(rt; same(made.len(), items.len().saturating_add(1)));
        check!(rt; same((way, own.blocks(), other.blocks()), (way, 0, 1)));
    }
    check!(rt; counts(own, if items.is_empty() { 0 } else { 6 }, 0));
}

#[test]
fn calls_allocate_results_on_the_allocator_passed(rt: HostRuntime) {
    assert_each_way_uses_the_allocator(&rt, rt.alloc(), &[]);
    assert_each_way_uses_the_allocator(&rt, rt.alloc(), &[1, 2, 3]);
}

#[test]
fn finish_holds_items_back_on_the_allocator_passed(rt: HostRuntime) {
    let own = leaked_refusing(&rt, rt.alloc(), 0);
    let other = leaked_refusing(&rt, rt.alloc(), 0);
    let mut list = check!(rt; list_of(own, &[1, 2, 3]));
    check!(rt; has_len(&list, 3));
    let items = Hinted::new(check!(rt; [7, 8, 9].to_vec(rt.alloc())), 0);
    check!(rt; splice(&mut list, (1, 2), items, other));
    check!(rt; counts(own, 2, 1));
    check!(rt; counts(other, 1, 0));
}

// An allocator that a list owns.
type Owned = Refusing<Lender>;

// Items of 16 bytes, whose blocks can grow in place.
type Item = Counted<'static>;

// The number of calls of each of the two functions `end` and `fill`.
const CALLS: [u32; 2] = [11, 8];

// Ends the list by a call that makes at most something of its items.
fn end<T: Numbered, A: Allocator>(call: u32, mut list: ThinVec<T, A>, alloc: A) -> io::Result<()>
    requires small { 3 * type_size T.row < 2 ^ 63 }
{
    let len = list.len();
    match call {
        0 => drop(list),
        1 => {
            let mut rest = list.into_iter();
            drop(rest.next());
        }
        2 => drop(list.into_array::<3>().is_ok()),
        3 => list.reserve_exact(300)?,
        4 => drop(list.into_vec(alloc)?),
        5 => drop(list.into_boxed_slice(alloc)?),
        6 => drop(list.split_off(alloc, len / 2)?),
        7 => drop(list.clone(alloc)?),
        8 => drop(list.into_iter().clone(alloc)?),
        9 => list.replace_range(alloc, 0, len / 2, &[])?,
        _ => {
            let mut other = ThinVec::new(alloc);
            other.append(&mut list)?;
        }
    }
    Ok(())
}

// Makes another list, or puts the items of an iterator into the list.
fn fill(
    call: u32,
    mut list: ThinVec<Item, Owned>,
    alloc: Owned,
    ledger: &'static Ledger,
) -> io::Result<()> {
    let items = numbered_items::<Item, _>(ledger, ledger.global, 7, 20)?;
    let items = Hinted::new(items, if call == 5 { 20 } else { 1 });
    let len = list.len();
    match call {
        0 => drop(ThinVec::<Item, Owned>::with_capacity(alloc, 20)?),
        1 => drop(ThinVec::<Item, Owned>::with_capacity(alloc, usize::MAX).is_err()),
        2 => drop(thin_vec![alloc => Counted::new(ledger, 7, ()); len]?),
        3 => {
            let own = Refusing::new(&ledger.alloc, 0);
            let items = numbered_items::<Item, _>(ledger, own, 7, len)?;
            drop(ThinVec::from_vec(alloc, items)?);
        }
        4 => drop(ThinVec::from_iter(alloc, items)?),
        5 | 6 => splice(&mut list, (0, len / 2), items, alloc)?,
        _ => splice(&mut list, (len, len), items, alloc)?,
    }
    Ok(())
}

// The requests that are refused: by the allocator of the list, and by the one that is passed. If a
// number is 0, none is.
const REFUSED: [(u64, u64); 6] = [(0, 0), (1, 0), (2, 0), (0, 1), (0, 2), (0, 3)];

// Makes the call of the function, on a list of `count` items, with two allocators of which each
// owns a clone of `owner` and refuses a request. Returns whether the call succeeded.
fn ends(
    ledger: &'static Ledger,
    owner: &Rc<u64>,
    (function, call): (usize, u32),
    count: u64,
    (own, passed): (u64, u64),
) -> Result<bool, ThinVecError> {
    ledger.begin(0);
    let alloc = Refusing::owning(&ledger.alloc, owner.clone()?);
    alloc.refuse(passed);
    let mut list = ThinVec::new(Refusing::owning(&ledger.alloc, owner.clone()?));
    for item in 0..count {
        list.push(Counted::new(ledger, item, ()))?;
    }
    list.allocator().refuse(own);
    Ok(match function {
        0 => end(call, list, alloc).is_ok(),
        _ => fill(call, list, alloc, ledger).is_ok(),
    })
}

// Makes the call with each of the requests refused. Asserts that it succeeds if none is, and that
// all allocators, blocks and items are gone afterwards.
fn assert_all_dropped(
    rt: &impl Abort,
    ledger: &'static Ledger,
    owner: &Rc<u64>,
    call: (usize, u32),
    count: u64,
) {
    for refused in REFUSED {
        let is_ok = check!(rt; ends(ledger, owner, call, count, refused));
        let left = (
            Rc::strong_count(owner),
            ledger.alloc.blocks(),
            ledger.live.get(),
        );
        let is_due = is_ok || refused != (0, 0);
        let made = (call, count, refused);
        check!(rt; same((made, is_due, left), (made, true, (1, 0, 0))));
    }
}

#[test]
fn a_list_drops_the_allocator_that_it_owns(rt: HostRuntime) {
    let ledger = leaked_ledger(&rt, rt.alloc());
    let owner = check!(rt; Rc::new(rt.alloc(), 0));
    for count in [0, 1, 3, 40] {
        let mut function: usize = 0;
        for calls in CALLS {
            for call in 0..calls {
                assert_all_dropped(&rt, ledger, &owner, (function, call), count);
            }
            function = function.saturating_add(1);
        }
    }
}

#[test]
fn copies_drop_the_allocators_that_they_own(rt: HostRuntime) {
    let ledger = leaked_ledger(&rt, rt.alloc());
    let owner = check!(rt; Rc::new(rt.alloc(), 0));
    for refused in 0..3 {
        ledger.begin(refused);
        let one = Refusing::owning(&ledger.alloc, check!(rt; owner.clone()));
        let two = Refusing::owning(&ledger.alloc, check!(rt; owner.clone()));
        match ThinVec::from_copies(one, &[1, 2, 3]) {
            Ok(list) => drop(list.clone_copies(two).is_ok()),
            Err(_cause) => drop(two),
        }
        let left = (Rc::strong_count(&owner), ledger.alloc.blocks());
        check!(rt; same((refused, left), (refused, (1, 0))));
    }
}

#[test]
fn an_emptied_list_clones_the_allocator_once(rt: HostRuntime) {
    let alloc = leaked_refusing(&rt, rt.alloc(), 0);
    for len in [0, 1, 40] {
        let mut list: ThinVec<i32, Owned> = ThinVec::new(Refusing::new(alloc, 0));
        check!(rt; list.resize(len, 7));
        list.allocator().refuse(0);
        let empty: ThinVec<i32, Owned> = check!(rt; Emptied::emptied(&list));
        let requests = list.allocator().requests();
        check!(rt; same((len, requests, empty.has_capacity()), (len, 1, false)));
    }
}
