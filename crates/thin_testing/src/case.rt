//! A case of a sweep: a call on a list, and what it must have requested, called and dropped. Only a
//! test may stop a program, so a check returns what is wrong, and the test asserts that nothing is.
use crate::ledger::{Counted, Ledger};
use crate::numbered::{Numbered, block_bytes};
use refusing::Refusing;
use std::alloc::{AllocError, Allocator, Global};
use std::mem;
use thin_vec::{Growth, ThinVec, ThinVecError};

/// The allocator of the lists under test. It counts the requests, and can refuse one of them, or
/// all.
pub type Lender = &'static Refusing<Global>;

/// A list under test.
pub type List<T, G> = ThinVec<T, Lender, G>;

/// Identifies a case. The message of a failed assertion shows it.
#[derive(Clone, Copy, Debug)]
pub struct At {
    pub call: &'static str,
    /// The number of items before the call.
    pub length: usize,
    /// The spare capacity before the call.
    pub spare: usize,
    pub argument: usize,
    /// The number of the refused request, counting from 1, or 0, or `ALL_REQUESTS`.
    pub refused: u64,
}

impl At {
    /// Returns a case in which no request is refused.
    pub fn new(length: usize, spare: usize, argument: usize) -> At {
        At {
            call: "",
            length,
            spare,
            argument,
            refused: 0,
        }
    }

    /// Returns whether the closure of a call keeps the item at `index`. On a list of at most 4
    /// items, the arguments below 16 choose each pattern of kept items.
    pub fn keeps(self, index: u64) -> bool {
        let number = self.argument as u64;
        if self.length <= SHORT {
            return number >> (index % 4) & 1 == 1;
        }
        match number % 8 {
            0 => index % 50 < 35,
            1 => false,
            2 => index % 2 == 0,
            3 => index % 2 == 1,
            4 => index % 16 / 2 != 3,
            5 => true,
            _ => (index ^ number).wrapping_mul(0x9E37_79B9_7F4A_7C15) >> 40 & 1 == 0,
        }
    }
}

/// What is wrong in a case: `what` was counted `found` times, and not `due` times.
#[derive(Clone, Copy, Debug)]
pub struct Wrong {
    pub at: At,
    pub what: &'static str,
    pub found: u64,
    pub due: u64,
}

/// What a successful call must have done, beyond at most one request for a new capacity.
#[derive(Clone, Copy)]
pub struct Due {
    /// The number of requests for blocks other than that of the list.
    pub requests: usize,
    /// The greatest number of items for which these blocks have room.
    pub room: usize,
    /// The number of clones of items.
    pub clones: usize,
    /// The number of calls to closures.
    pub calls: usize,
    /// The number of comparisons of items with `==`.
    pub comparisons: usize,
}

/// The answer of a call under test.
pub type Answer = Result<Due, ThinVecError>;

impl Due {
    /// The call makes at most one request, for a new capacity, and calls nothing.
    pub const NOTHING: Due = Due {
        requests: 0,
        room: 0,
        clones: 0,
        calls: 0,
        comparisons: 0,
    };

    /// The call makes `requests` requests for blocks other than that of the list.
    pub fn requests(requests: usize) -> Due {
        Due {
            requests,
            ..Due::NOTHING
        }
    }

    /// The call makes one request for a block of `capacity` items, other than that of the list,
    /// unless `capacity` is 0.
    pub fn block_of(capacity: usize) -> Due {
        Due {
            room: capacity,
            ..Due::requests(capacity.min(1))
        }
    }

    /// The call clones `clones` items.
    pub fn clones(self, clones: usize) -> Due {
        Due { clones, ..self }
    }

    /// The call calls its closure `calls` times.
    pub fn calls(calls: usize) -> Due {
        Due {
            calls,
            ..Due::NOTHING
        }
    }

    /// The call compares `comparisons` pairs of items.
    pub fn comparisons(comparisons: usize) -> Due {
        Due {
            comparisons,
            ..Due::NOTHING
        }
    }
}

/// A list, and the case in which a call on it is tested.
#[derive(Drop)]
pub struct Case<T: Drop, G: Growth> {
    pub at: At,
    pub ledger: &'static Ledger,
    pub list: List<T, G>,
    // The capacity when `begin` was called.
    capacity: usize,
}

impl<T: Numbered, G: Growth> Case<T, G> {
    /// Makes a list with the length and the spare capacity that `at` states.
    pub fn new(ledger: &'static Ledger, at: At) -> Result<Case<T, G>, ThinVecError> {
        ledger.begin(0);
        Ok(Case {
            at,
            ledger,
            list: filled_list(ledger, at.length, at.spare)?,
            capacity: 0,
        })
    }

    /// Begins to count. Must be called right before the call under test, whose name is `call`.
    pub fn begin(&mut self, call: &'static str) {
        self.at.call = call;
        self.capacity = self.list.capacity();
        self.ledger.begin(self.at.refused);
    }

    /// Makes an item that is not in the list.
    pub fn item(&self) -> T {
        T::numbered(self.ledger, FRESH)
    }

    /// Makes `count` items that are not in the list, of numbers from `FRESH` on.
    pub fn items(&self, count: usize) -> Result<Vec<T>, AllocError> {
        numbered_items(self.ledger, self.ledger.global, FRESH, count)
    }

    /// Makes items as `items` does. The block of the `Vec` is counted.
    pub fn lent_items(&self, count: usize) -> Result<Vec<T, Lender>, AllocError> {
        numbered_items(self.ledger, &self.ledger.alloc, FRESH, count)
    }

    /// Returns the spare capacity of a second list.
    pub fn other_spare(&self) -> usize {
        [0, 9][self.at.argument / 8 % 2]
    }

    /// Returns a list of `length` items, which are not in the list under test.
    pub fn other(&self, length: usize, spare: usize) -> Result<List<T, G>, ThinVecError> {
        filled_list(self.ledger, length, spare)
    }

    /// Takes the list out of the case, and leaves one without a block.
    pub fn take(&mut self) -> List<T, G> {
        mem::replace(&mut self.list, ThinVec::ruled(&self.ledger.alloc))
    }

    /// Returns the closure token of the case: a value that the ledger counts until it is dropped.
    pub fn token(&self) -> Counted<'static> {
        Counted::new(self.ledger, 0, ())
    }

    /// Returns an index that the argument chooses. On a list of at most 4 items, each index and the
    /// length are chosen by the arguments below 5.
    pub fn index(&self) -> usize {
        let length = self.at.length;
        if length <= SHORT {
            return length.min(self.at.argument % 5);
        }
        match self.at.argument % 5 {
            0 => 0,
            1 => 1,
            2 => length / 2,
            3 => length.saturating_sub(1),
            _ => length,
        }
    }

    /// Returns a range that the argument chooses. On a list of at most 4 items, each range is
    /// chosen by some of the arguments below 25.
    pub fn range(&self) -> (usize, usize) {
        let length = self.at.length;
        let (one, two) = (self.at.argument % 5, self.at.argument / 5 % 5);
        if length <= SHORT {
            let (one, two) = (one.min(length), two.min(length));
            return (one.min(two), one.max(two));
        }
        match one {
            0 => (0, length),
            1 => (1, length.saturating_sub(1)),
            2 => (length / 2, length),
            3 => (length / 3, length / 2),
            _ => (length, length),
        }
    }

    /// Returns a number that the argument chooses besides a range. With 25 times as many arguments,
    /// or 5 times as many on a list of more than 4 items, each number is chosen with each range.
    pub fn choice(&self) -> usize {
        if self.at.length <= SHORT {
            self.at.argument / 25
        } else {
            self.at.argument / 5
        }
    }

    /// Returns a new length that the argument chooses, and how many items it is above the length.
    /// Each fifth argument changes whether it is above the length; `is_above` says it of the first.
    pub fn new_length(&self, is_above: bool) -> (usize, usize) {
        if (self.at.argument / 5 % 2 == 0) != is_above {
            return (self.index(), 0);
        }
        let more = self.count();
        (self.at.length.saturating_add(more), more)
    }

    /// Returns a number of new items that the argument chooses, with few on a long list.
    pub fn count(&self) -> usize {
        let counts: [usize; 8] = if self.at.length <= SHORT {
            [0, 1, 2, 3, 5, 9, 17, 66]
        } else if self.at.length <= 100 {
            [50, 1, 9, 0, 200, 1, 9, 0]
        } else if self.at.length <= 10_000 {
            [300, 1, 300, 1, 300, 1, 300, 1]
        } else {
            [11_000, 1, 5000, 0, 11_000, 1, 5000, 0]
        };
        counts[self.at.argument % 8]
    }

    /// Returns a number of items that replace the range of the case.
    pub fn replacements(&self) -> usize {
        let (start, end) = self.range();
        let width = end.saturating_sub(start);
        match self.at.argument / 5 % 8 {
            0 => width.saturating_add(45),
            1 => width.saturating_add(2),
            2 => width.saturating_add(1),
            3 => width,
            4 => width.saturating_sub(1),
            5 => width.saturating_add(9),
            6 => 1,
            _ => 0,
        }
    }

    /// Returns a number of items that fit into the spare capacity of the list.
    pub fn spare(&self) -> usize {
        let spare = self.list.capacity().saturating_sub(self.list.len());
        spare.saturating_sub(self.at.argument % 5)
    }

    // Returns an error unless each of the counts was found as often as it is due.
    fn same(&self, counts: &[(&'static str, u64, u64)]) -> Result<(), Wrong> {
        for &(what, found, due) in counts {
            if found != due {
                return Err(Wrong {
                    at: self.at,
                    what,
                    found,
                    due,
                });
            }
        }
        Ok(())
    }

    /// Checks that the call did what `answer` announces, and that exactly the items and the block
    /// of the list exist.
    pub fn check(&self, answer: Answer) -> Result<(), Wrong> {
        match answer {
            Ok(due) => self.check_success(due)?,
            Err(cause) => self.check_failure(cause)?,
        }
        self.check_live(self.list.len(), self.list.capacity())
    }

    // Checks that the call failed at the request that was refused, or before any request.
    fn check_failure(&self, cause: ThinVecError) -> Result<(), Wrong> {
        let requests = self.ledger.alloc.requests();
        match cause {
            ThinVecError::CapacityOverflow => {
                self.same(&[("requests before an overflow", requests, 0)])
            }
            ThinVecError::OutOfMemory => self.same(&[
                ("requests", requests, self.at.refused),
                ("failed with no request", u64::from(requests == 0), 0),
            ]),
        }
    }

    // Checks that no request was refused, and that the counts are those that `due` announces.
    fn check_success(&self, due: Due) -> Result<(), Wrong> {
        let is_new = self.has_new_block();
        let counted = usize::from(T::IS_COUNTED);
        let clones = due.clones.saturating_mul(counted);
        let granted = due.requests.saturating_add(usize::from(is_new));
        let comparisons = due.comparisons.saturating_mul(counted);
        let ledger = self.ledger;
        self.same(&[
            ("succeeded", u64::from(self.was_refused()), 0),
            (
                "requests",
                ledger.alloc.requests(),
                granted.saturating_add(clones) as u64,
            ),
            ("clones", ledger.clones.get(), clones as u64),
            ("calls", ledger.calls.get(), due.calls as u64),
            ("comparisons", ledger.comparisons.get(), comparisons as u64),
        ])?;
        self.check_lent(is_new, due.room)
    }

    // Returns whether the request that the case chooses was made, and so refused.
    fn was_refused(&self) -> bool {
        let refused = self.at.refused;
        0 < refused && refused <= self.ledger.alloc.requests()
    }

    // Returns whether the list has a capacity that it did not have when `begin` was called.
    fn has_new_block(&self) -> bool {
        let capacity = self.list.capacity();
        capacity != self.capacity && capacity != 0
    }

    // Checks that the requests were for no more bytes than the block of the list takes, if it is
    // new, and another block for `room` items.
    fn check_lent(&self, is_new: bool, room: usize) -> Result<(), Wrong> {
        let new = if is_new { self.list.capacity() } else { 0 };
        let most = block_bytes::<T>(new).saturating_add(block_bytes::<T>(room));
        let lent = self.ledger.alloc.lent();
        self.same(&[("bytes requested", lent.max(most), most)])
    }

    /// Checks that `items` items exist, and one block of the right size if `capacity` is not 0.
    pub fn check_live(&self, items: usize, capacity: usize) -> Result<(), Wrong> {
        let items = if T::IS_COUNTED { items } else { 0 };
        let ledger = self.ledger;
        self.same(&[
            ("items", ledger.live.get(), items as u64),
            ("blocks", ledger.alloc.blocks(), u64::from(capacity != 0)),
            ("bytes", ledger.alloc.bytes(), block_bytes::<T>(capacity)),
        ])
    }

    /// Drops the list. Checks that nothing is left, and that dropping made no request.
    pub fn end(mut self) -> Result<(), Wrong> {
        self.ledger.begin(0);
        drop(self.take());
        let requests = self.ledger.alloc.requests();
        self.check_live(0, 0)?;
        self.same(&[("requests of the drop", requests, 0)])
    }
}

// The greatest length of a list on which every index, range and pattern is tried.
const SHORT: usize = 4;

// The number of the first new item. It differs from the numbers of the items of all short lists.
const FRESH: u64 = 200;

/// Makes a `Vec` of `count` items of consecutive numbers.
pub fn numbered_items<T: Numbered, A: Allocator>(
    ledger: &'static Ledger,
    alloc: A,
    first: u64,
    count: usize,
) -> Result<Vec<T, A>, AllocError> {
    let mut items = Vec::new(alloc);
    for index in 0..count {
        let item = T::numbered(ledger, first.saturating_add(index as u64));
        if items.push(item).is_err() {
            return Err(AllocError);
        }
    }
    Ok(items)
}

/// Makes a list of `length` items with the given spare capacity.
pub fn filled_list<T: Numbered, G: Growth>(
    ledger: &'static Ledger,
    length: usize,
    spare: usize,
) -> Result<List<T, G>, ThinVecError> {
    let mut list = ThinVec::ruled(&ledger.alloc);
    list.reserve_exact(length.saturating_add(spare))?;
    for index in 0..length {
        list.push(T::numbered(ledger, index as u64))?;
    }
    Ok(list)
}
