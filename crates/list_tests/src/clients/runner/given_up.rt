//! Tests of `Drain`, `ExtractIf` and `Splice` that are given up or finished after each number of
//! steps, in each order of ends, one step past the range among them.
use crate::check;
use crate::checks::leaked_ledger;
use crate::clients::runner::judges::Digits;
use crate::clients::runner::made::{Asked, Item, List, Told, assert_clean, is_one, room, steps};
use std::process::Abort;
use thin_runner::command::{Command, Reply};
use thin_runner::runner::step;
use thin_testing::{Ledger, Lender, Numbered, filled_list, numbered_items};

// The number of the first new item of a splice.
const NEW: u64 = 200;

#[derive(Clone, Copy, PartialEq, Debug)]
enum Kind {
    Drain,
    ExtractIf,
    Splice,
    Extend,
}

// An edit of a range of a list of at most 128 items, whose numbers are their indices.
#[derive(Clone, Copy, PartialEq, Debug)]
struct Edit {
    kind: Kind,
    len: usize,
    start: usize,
    end: usize,
    steps: usize,
    // For `Drain` and `Splice`, bit `i` is 1 if step number `i` is from the back. For `ExtractIf`,
    // bit `i` is 1 if the judge takes item number `start + i`.
    bits: u64,
    // The number of new items of a splice, and what its iterator claims.
    new: usize,
    lower: usize,
}

impl Edit {
    // Returns an edit that makes no step.
    fn new(kind: Kind, len: usize, start: usize, end: usize) -> Edit {
        Edit {
            kind,
            len,
            start,
            end,
            steps: 0,
            bits: 0,
            new: 0,
            lower: 0,
        }
    }

    // Returns the edit with the given steps.
    fn walked(self, steps: usize, bits: u64) -> Edit {
        Edit {
            steps,
            bits,
            ..self
        }
    }

    // Returns the edit with the given number of new items.
    fn given(self, new: usize, lower: usize) -> Edit {
        Edit { new, lower, ..self }
    }

    fn width(self) -> usize {
        self.end.saturating_sub(self.start)
    }

    // Makes the command that executes the edit.
    fn command<T: Numbered>(self, rt: &impl Abort, ledger: &'static Ledger) -> Asked<T> {
        let steps = steps(rt, ledger, self.steps, self.bits);
        let items = check!(rt; numbered_items(ledger, &ledger.alloc, NEW, self.new));
        match self.kind {
            Kind::Drain => Command::Drain(self.start, self.end, steps),
            Kind::ExtractIf => Command::ExtractIf(self.start, self.end, self.steps),
            Kind::Splice => Command::Splice(self.start, self.end, steps, items, self.lower),
            Kind::Extend => Command::Extend(items, self.lower),
        }
    }
}

// What is left of the range of an edit: the items from `first` up to, but not including, `end`.
#[derive(Clone, Copy)]
struct Rest {
    first: usize,
    end: usize,
}

impl Rest {
    // Takes an item from one of the ends.
    fn take_end(&mut self, is_back: bool) -> Option<usize> {
        if self.first >= self.end {
            return None;
        }
        if is_back {
            self.end = self.end.saturating_sub(1);
            return Some(self.end);
        }
        self.first = self.first.saturating_add(1);
        Some(self.first.saturating_sub(1))
    }

    // Takes the item that step number `step` of the edit takes.
    fn take(&mut self, edit: Edit, step: usize) -> Option<usize> {
        if edit.kind == Kind::ExtractIf {
            self.extract(edit)
        } else {
            self.take_end(is_one(edit.bits, step))
        }
    }

    // Goes on to the next item that the judge takes. It has 64 answers, and then takes none.
    fn extract(&mut self, edit: Edit) -> Option<usize> {
        for _ in 0..edit.len {
            let number = self.take_end(false)?;
            let asked = number.saturating_sub(edit.start);
            if asked < 64 && is_one(edit.bits, asked) {
                return Some(number);
            }
        }
        None
    }
}

// Executes the edit on lists of `T`, and asserts that it answers and leaves what it should.
#[inline(never)]
fn assert_edit<T: Numbered>(rt: &impl Abort, ledger: &'static Ledger, edit: Edit) {
    ledger.begin(0);
    let mut list: List<T> = check!(rt; filled_list(ledger, edit.len, 0));
    let command = edit.command(rt, ledger);
    let judge = Digits { digits: edit.bits };
    let reply = step(&ledger.alloc, &mut list, command, &judge);
    let removed = assert_answers(rt, ledger, edit, reply);
    if edit.new == 0 {
        check!(rt; same((edit, list.capacity()), (edit, edit.len)));
    }
    assert_left(rt, ledger, edit, removed, &list);
    assert_clean(rt, ledger, list);
}

// Returns the answers of the reply to an edit. `Done` has none.
fn answers_in<T: Numbered>(
    rt: &impl Abort,
    ledger: &'static Ledger,
    edit: Edit,
    reply: Told<T>,
) -> Vec<Option<T>, Lender> {
    match reply {
        Reply::Answers(answers) => answers,
        Reply::Done => room(rt, &ledger.alloc, 0),
        _ => panic!(rt; "{edit:?} failed"),
    }
}

// Asserts that the answer to step number `step` is the item of the given number.
fn assert_answer<T: Numbered>(
    rt: &impl Abort,
    ledger: &'static Ledger,
    edit: Edit,
    step: usize,
    answer: Option<T>,
    wanted: Option<usize>,
) {
    let wanted = wanted.map(|number| T::numbered(ledger, number as u64));
    check!(rt; same((edit, step, answer == wanted), (edit, step, true)));
}

// Asserts that the reply has the right items. Returns which items are no longer in the list: bit
// `i` is 1 if item number `i` is not.
fn assert_answers<T: Numbered>(
    rt: &impl Abort,
    ledger: &'static Ledger,
    edit: Edit,
    reply: Told<T>,
) -> u128 {
    let answers = answers_in(rt, ledger, edit, reply);
    // A `Vec` has no room, or room for 8 small items.
    let most = if edit.steps == 0 {
        0
    } else {
        edit.steps.max(8)
    };
    let found = (edit, answers.len(), answers.capacity() <= most);
    check!(rt; same(found, (edit, edit.steps, true)));
    let mut rest = Rest {
        first: edit.start,
        end: edit.end,
    };
    let mut removed: u128 = 0;
    let mut step: usize = 0;
    for answer in answers {
        let wanted = rest.take(edit, step);
        if let Some(number) = wanted {
            removed |= 1 << (number % 128);
        }
        assert_answer(rt, ledger, edit, step, answer, wanted);
        step = step.saturating_add(1);
    }
    if edit.kind != Kind::ExtractIf {
        for number in edit.start..edit.end {
            removed |= 1 << (number % 128);
        }
    }
    removed
}

// Asserts that the list has the items that were not removed, and the new items at the place of the
// range.
fn assert_left<T: Numbered>(
    rt: &impl Abort,
    ledger: &'static Ledger,
    edit: Edit,
    removed: u128,
    list: &List<T>,
) {
    let mut index: usize = 0;
    for number in 0..edit.len.saturating_add(1) {
        if number == edit.start {
            for new in 0..edit.new {
                let number = NEW.saturating_add(new as u64);
                assert_item(rt, ledger, edit, list.as_slice().get(index), number);
                index = index.saturating_add(1);
            }
        }
        if number < edit.len && removed >> (number % 128) & 1 == 0 {
            assert_item(rt, ledger, edit, list.as_slice().get(index), number as u64);
            index = index.saturating_add(1);
        }
    }
    check!(rt; same((edit, list.len()), (edit, index)));
}

// Asserts that the item has the given number.
fn assert_item<T: Numbered>(
    rt: &impl Abort,
    ledger: &'static Ledger,
    edit: Edit,
    item: Option<&T>,
    number: u64,
) {
    let is_right = item == Some(&T::numbered(ledger, number));
    check!(rt; same((edit, number, is_right), (edit, number, true)));
}

// Executes the edit with each number of steps up to `most`, and each order of ends.
fn assert_walks<T: Numbered>(rt: &impl Abort, ledger: &'static Ledger, edit: Edit, most: usize) {
    for steps in 0..most.saturating_add(1) {
        for bits in 0..1_u64 << (steps % 64) {
            assert_edit::<T>(rt, ledger, edit.walked(steps, bits));
        }
    }
}

// Executes each edit of the range with each number of steps, up to one past the range.
fn assert_range<T: Numbered>(
    rt: &impl Abort,
    ledger: &'static Ledger,
    len: usize,
    start: usize,
    end: usize,
) {
    let drain = Edit::new(Kind::Drain, len, start, end);
    let splice = Edit::new(Kind::Splice, len, start, end);
    let extract = Edit::new(Kind::ExtractIf, len, start, end);
    let most = drain.width().saturating_add(1);
    assert_walks::<T>(rt, ledger, drain, most);
    for (new, lower) in [(0, 0), (1, 1), (2, 0), (6, 2)] {
        assert_walks::<T>(rt, ledger, splice.given(new, lower), most);
    }
    for steps in 0..most.saturating_add(1) {
        for bits in 0..1_u64 << (extract.width() % 64) {
            assert_edit::<T>(rt, ledger, extract.walked(steps, bits));
        }
    }
}

// Executes each edit of each range of a list of at most 4 items.
fn assert_ranges<T: Numbered>(rt: &impl Abort, ledger: &'static Ledger) {
    for len in 0_usize..5 {
        for end in 0..len.saturating_add(1) {
            for start in 0..end.saturating_add(1) {
                assert_range::<T>(rt, ledger, len, start, end);
            }
        }
    }
}

// Executes each edit of a range of a list of 70 items, with each number of steps and some orders.
fn assert_long_ranges<T: Numbered>(rt: &impl Abort, ledger: &'static Ledger) {
    for kind in [Kind::Drain, Kind::ExtractIf, Kind::Splice] {
        for bits in [0, u64::MAX, 0x5555_5555_5555_5555, 0x3333_3333_0000_ffff] {
            for steps in 0..70 {
                let edit = Edit::new(kind, 70, 1, 69).walked(steps, bits);
                assert_edit::<T>(rt, ledger, edit);
            }
        }
    }
}

#[test]
fn edits_of_counted_items_after_each_number_of_steps(rt: HostRuntime) {
    let ledger = leaked_ledger(&rt, rt.alloc());
    assert_ranges::<Item>(&rt, ledger);
    assert_long_ranges::<Item>(&rt, ledger);
}

// Drains items 1 to 4 of six, after each sequence of at most five steps. Also drains nothing at the
// end, with one step, and everything, with none.
#[test]
fn drain_of_six_items_after_each_sequence_of_steps(rt: HostRuntime) {
    let ledger = leaked_ledger(&rt, rt.alloc());
    assert_walks::<Item>(&rt, ledger, Edit::new(Kind::Drain, 6, 1, 5), 5);
    assert_walks::<Item>(&rt, ledger, Edit::new(Kind::Drain, 6, 6, 6), 1);
    assert_walks::<Item>(&rt, ledger, Edit::new(Kind::Drain, 6, 0, 6), 0);
}

// Executes the edit with each number of new items up to 300, none of which the iterator claims.
fn assert_unclaimed<T: Numbered>(rt: &impl Abort, ledger: &'static Ledger, edit: Edit) {
    for new in 0..301 {
        assert_edit::<T>(rt, ledger, edit.given(new, 0));
    }
}

#[test]
fn extend_and_splice_of_up_to_300_unclaimed_items(rt: HostRuntime) {
    let ledger = leaked_ledger(&rt, rt.alloc());
    assert_unclaimed::<Item>(&rt, ledger, Edit::new(Kind::Extend, 3, 3, 3));
    assert_unclaimed::<Item>(&rt, ledger, Edit::new(Kind::Splice, 3, 1, 2));
    assert_unclaimed::<i32>(&rt, ledger, Edit::new(Kind::Extend, 3, 3, 3));
    assert_unclaimed::<i32>(&rt, ledger, Edit::new(Kind::Splice, 3, 1, 2));
}
