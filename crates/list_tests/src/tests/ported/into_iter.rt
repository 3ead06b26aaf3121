//! The iterator `IntoIter`.
use crate::check;
use crate::lists::list_of;
use std::alloc::Global;
use std::process::Abort;
use thin_vec::{IntoIter, ThinVec, ThinVecError};

#[test]
fn into_iter_as_slice_returns_the_remaining_items(rt: HostRuntime) {
    let mut items = check!(rt; list_of(rt.alloc(), &['a', 'b', 'c'])).into_iter();
    check!(rt; same_items(items.as_slice(), &['a', 'b', 'c']));
    check!(rt; same(items.next(), Some('a')));
    check!(rt; same_items(items.as_slice(), &['b', 'c']));
    check!(rt; same([items.next(), items.next()], [Some('b'), Some('c')]));
    check!(rt; same_items(items.as_slice(), &[]));
    check!(rt; same((items.next(), items.next_back()), (None, None)));
}

#[test]
fn into_iter_yields_items_written_through_its_slice(rt: HostRuntime) {
    let mut items = check!(rt; list_of(rt.alloc(), &['a', 'b', 'c'])).into_iter();
    let text = check!(rt; format!(in rt.alloc(); "{items:?}"));
    check!(rt; same(text.as_str(), "IntoIter(['a', 'b', 'c'])"));
    assert_eq!(rt; items.len(), 3);
    items.as_mut_slice()[0] = 'x';
    items.as_mut_slice()[1] = 'y';
    check!(rt; same(items.next(), Some('x')));
    check!(rt; same_items(items.as_slice(), &['y', 'c']));
    let list = check!(rt; list_of(rt.alloc(), &[1, 2, 3]));
    check!(rt; same(list.into_iter().count(), 3));
}

// Asserts which items a clone of the iterator has.
fn assert_cloned(rt: &impl Abort, items: &IntoIter<i32>, alloc: Global, wanted: &[i32]) {
    let clone = check!(rt; items.clone(alloc));
    check!(rt; same_items(clone.as_slice(), wanted));
}

#[test]
fn into_iter_clone_has_the_remaining_items(rt: HostRuntime) {
    let mut items = check!(rt; list_of(rt.alloc(), &[1, 2, 3])).into_iter();
    assert_cloned(&rt, &items, rt.alloc(), &[1, 2, 3]);
    check!(rt; same(items.next(), Some(1)));
    assert_cloned(&rt, &items, rt.alloc(), &[2, 3]);
    check!(rt; same(items.next_back(), Some(3)));
    assert_cloned(&rt, &items, rt.alloc(), &[2]);
    check!(rt; same(items.next(), Some(2)));
    assert_cloned(&rt, &items, rt.alloc(), &[]);
}

// Moves the items into a new list twice: in order, and then from the back.
fn moved_twice<T: Copy + Drop>(alloc: Global, items: &[T]) -> Result<ThinVec<T>, ThinVecError> {
    let mut moved = ThinVec::new(alloc);
    moved.extend(list_of(alloc, items)?.into_iter())?;
    moved.extend(list_of(alloc, items)?.into_iter().rev())?;
    Ok(moved)
}

#[test]
fn extend_moves_the_items_of_an_into_iter(rt: HostRuntime) {
    let moved = check!(rt; moved_twice(rt.alloc(), &[1, 2, 3]));
    check!(rt; holds(&moved, &[1, 2, 3, 3, 2, 1], 8));
    let units = check!(rt; moved_twice(rt.alloc(), &[(), (), ()]));
    check!(rt; same(units.len(), 6));
}
