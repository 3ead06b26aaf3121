//! Items of no size, whose drops no counter can count. The drop of such an item panics, so each of
//! these tests passes only if the call drops an item.
use std::alloc::{AllocError, Global};
use std::iter::empty;
use std::mem;
use std::process::Abort;
use thin_testing::splice;
use thin_vec::ThinVec;

// An item that has no size if `R` has none. Its drop panics.
struct Fuse<R: Abort> {
    rt: R,
}

impl<R: Abort> Drop for Fuse<R> {
    fn drop(self) {
        let Fuse { rt } = self;
        panic!(rt; "the item is dropped");
    }
}

impl<R: Abort + Copy> Clone for Fuse<R> {
    fn clone(&self) -> Result<Self, AllocError> {
        Ok(Fuse { rt: self.rt })
    }
}

// Returns a list of two items.
fn fuses<R: Abort + Copy>(rt: R, alloc: Global) -> ThinVec<Fuse<R>> {
    let mut list = ThinVec::new(alloc);
    for _ in 0..2 {
        if let Err(refused) = list.push(Fuse { rt }) {
            mem::forget(refused);
        }
    }
    list
}

#[test]
#[should_panic(expected = "the item is dropped")]
fn truncate_drops_items_of_no_size(rt: HostRuntime) {
    let mut list = fuses(rt, rt.alloc());
    list.truncate(1);
    mem::forget(list);
}

#[test]
#[should_panic(expected = "the item is dropped")]
fn drop_drops_items_of_no_size(rt: HostRuntime) {
    drop(fuses(rt, rt.alloc()));
}

#[test]
#[should_panic(expected = "the item is dropped")]
fn drain_drops_items_of_no_size(rt: HostRuntime) {
    let mut list = fuses(rt, rt.alloc());
    assert!(rt; list.len() == 2);
    drop(list.drain(0, 1));
    mem::forget(list);
}

#[test]
#[should_panic(expected = "the item is dropped")]
fn into_iter_drops_items_of_no_size(rt: HostRuntime) {
    drop(fuses(rt, rt.alloc()).into_iter());
}

#[test]
#[should_panic(expected = "the item is dropped")]
fn retain_drops_items_of_no_size(rt: HostRuntime) {
    let mut list = fuses(rt, rt.alloc());
    list.retain(|_item| false);
    mem::forget(list);
}

#[test]
#[should_panic(expected = "the item is dropped")]
fn finish_drops_items_of_no_size(rt: HostRuntime) {
    let mut list = fuses(rt, rt.alloc());
    assert!(rt; list.len() == 2);
    mem::forget(splice(&mut list, (0, 1), empty(), rt.alloc()));
    mem::forget(list);
}

#[test]
#[should_panic(expected = "the item is dropped")]
fn resize_drops_a_value_of_no_size(rt: HostRuntime) {
    let mut list = fuses(rt, rt.alloc());
    let is_shorter = list.resize(2, Fuse { rt }).is_ok();
    assert!(rt; !is_shorter);
    mem::forget(list);
}
