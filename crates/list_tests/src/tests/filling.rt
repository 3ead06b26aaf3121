//! Tests of lists that are filled: their capacities, and where an iterator ends.
ghost use Rattle.std.specs.Iterator.{at_most};
ghost use Rattle.std.specs.Prelude.{◌+◌, length};

use crate::check;
use std::cell::Cell;
use thin_vec::ThinVec;

#[test]
fn extend_from_slice_grows_to_the_first_capacity(rt: HostRuntime) {
    let mut list = check!(rt; list_of(rt.alloc(), &[1]));
    check!(rt; list.extend_from_slice(&[2, 3, 4]));
    check!(rt; holds(&list, &[1, 2, 3, 4], 4));
}

#[test]
fn resize_grows_past_twice_the_capacity(rt: HostRuntime) {
    let mut list = check!(rt; list_of(rt.alloc(), &[1, 2]));
    check!(rt; list.resize(5, 0));
    check!(rt; holds(&list, &[1, 2, 0, 0, 0], 5));
}

// An iterator that returns the answers in order, and counts the calls. The lower bound of its size
// hint is always 3.
#[derive(Drop)]
struct Answers<'a> {
    answers: &'a [Option<i32>],
    asked: &'a Cell<u32>,
}

impl Iterator for Answers<'_> {
    type Item = i32;

    ghost remaining = { λ it. at_most (3 + length it.answers.now) };

    fn next(&mut self) -> Option<i32> {
        self.asked.set(self.asked.get().wrapping_add(1));
        let (first, others) = self.answers.split_first()?;
        self.answers = others;
        *first
    }

    fn size_hint(&self) -> (usize, Option<usize>) {
        (3, None)
    }
}

#[test]
fn extend_and_from_iter_end_at_the_first_none(rt: HostRuntime) {
    let (answers, asked) = ([Some(1), None, Some(2)], Cell::new(0));
    let mut list = ThinVec::new(rt.alloc());
    check!(rt; list.extend(Answers {
        answers: &answers,
        asked: &asked,
    }));
    check!(rt; holds(&list, &[1], 4));
    check!(rt; same(asked.take(), 2));
    let items = Answers {
        answers: &answers,
        asked: &asked,
    };
    let list = check!(rt; ThinVec::from_iter(rt.alloc(), items));
    check!(rt; holds(&list, &[1], 3));
    check!(rt; same(asked.take(), 2));
}
