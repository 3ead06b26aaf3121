//! Tests how lists and iterators are printed: on one line, on several lines, with the other options
//! of `{:?}`, and to a writer that fails.
use crate::check;
use crate::checks::leaked_refusing;
use crate::texts::{prints, prints_as};
use std::alloc::{Allocator, Global};
use std::fmt::{self, Debug};
use std::process::Abort;
use thin_vec::ThinVec;

// An iterator of the given name with the items that it has left, which is printed as one of
// `thin_vec` should be.
#[derive(Drop)]
struct Left<'a, T> {
    name: &'a str,
    items: &'a [T],
}

impl<T: Debug> Debug for Left<'_, T> {
    fn fmt<W: fmt::Write>(&self, f: &mut fmt::Formatter<W>) -> fmt::Result {
        f.debug_tuple(self.name).field(&self.items).finish()
    }
}

// Asserts that the iterator is printed as its name and, in parentheses, its items.
fn assert_prints_items<D: Debug, T: Debug + Drop>(
    rt: &impl Abort,
    alloc: Global,
    iter: &D,
    name: &str,
    items: &[T],
) {
    check!(rt; prints_as(alloc, iter, &Left { name, items }));
}

// Drains the list, and asserts how the `Drain` is printed while items are taken from both ends.
fn assert_drain_prints<T: Copy + Debug + Drop, A: Allocator>(
    rt: &impl Abort,
    alloc: Global,
    list: &mut ThinVec<T, A>,
) {
    let len = list.len();
    let mut drain = list.drain(0, len);
    for _ in 0..2 {
        assert_prints_items(rt, alloc, &drain, "Drain", drain.as_slice());
        drop(drain.next());
        assert_prints_items(rt, alloc, &drain, "Drain", drain.as_slice());
        drop(drain.next_back());
    }
}

// Asserts how the iterator over the list is printed while items are taken from both ends.
fn assert_into_iter_prints<T: Copy + Debug + Drop, A: Allocator>(
    rt: &impl Abort,
    alloc: Global,
    list: ThinVec<T, A>,
) {
    let mut rest = list.into_iter();
    for _ in 0..2 {
        assert_prints_items(rt, alloc, &rest, "IntoIter", rest.as_slice());
        drop(rest.next_back());
        assert_prints_items(rt, alloc, &rest, "IntoIter", rest.as_slice());
        drop(rest.next());
    }
}

// Asserts that a list of `items` with spare capacity is printed as their slice, and its iterators
// as the items that they have left. Also asserts that printing requests no memory from the
// allocator of the list.
fn assert_printed_as_slices<T: Copy + Debug + Drop>(rt: &impl Abort, alloc: Global, items: &[T]) {
    let refusing = leaked_refusing(rt, alloc, 0);
    let mut list = check!(rt; list_of(refusing, items));
    check!(rt; list.reserve(300));
    let other = check!(rt; list_of(refusing, items));
    refusing.refuse(1);
    check!(rt; prints_as(alloc, &list, &items));
    assert_drain_prints(rt, alloc, &mut list);
    assert_into_iter_prints(rt, alloc, other);
    check!(rt; same(refusing.requests(), 0));
}

#[test]
fn prints_the_items_as_a_slice_with_each_option(rt: HostRuntime) {
    let alloc = rt.alloc();
    for end in [-3, -2, 1, 150] {
        let numbers: ThinVec<i32> = check!(rt; (-3..end).collect(alloc));
        assert_printed_as_slices(&rt, alloc, numbers.as_slice());
    }
    assert_printed_as_slices(&rt, alloc, &[Some(1.5), None, Some(-20.75)]);
    assert_printed_as_slices(&rt, alloc, &["", "a\"b", "ß\n"]);
}

#[test]
fn prints_a_list_in_each_form(rt: HostRuntime) {
    let list = check!(rt; list_of(rt.alloc(), &[1, 2]));
    let texts = ["[1, 2]", "[\n    1,\n    2,\n]", "[0001, 0002]"];
    check!(rt; prints(rt.alloc(), &list, texts));
    let empty = ThinVec::<i32>::new(rt.alloc());
    check!(rt; prints(rt.alloc(), &empty, ["[]", "[]", "[]"]));
}

#[test]
fn prints_a_drain_in_each_form(rt: HostRuntime) {
    let mut list = check!(rt; list_of(rt.alloc(), &[1, 2, 3]));
    check!(rt; has_len(&list, 3));
    let mut drain = list.drain(1, 3);
    let lines = "Drain(\n    [\n        2,\n        3,\n    ],\n)";
    let texts = ["Drain([2, 3])", lines, "Drain([0002, 0003])"];
    check!(rt; prints(rt.alloc(), &drain, texts));
    check!(rt; same((drain.next(), drain.next()), (Some(2), Some(3))));
    let texts = ["Drain([])", "Drain(\n    [],\n)", "Drain([])"];
    check!(rt; prints(rt.alloc(), &drain, texts));
}
