//! Calls that fill a list from an iterator: `extend`, `from_iter` and `collect`. The tests compute
//! the capacity afterwards, how often the iterator is asked, and which items are in the list, in
//! the error and in the rest of the iterator.
use crate::asserts::{assert_right, assert_same};
use std::iter;
use std::process::Abort;
use thin_testing::{
    ALL_REQUESTS, At, Case, Claims, Ledger, Numbered, Ruled, block_bytes, greatest_capacity,
    numbered_items,
};
use thin_vec::{CollectRefused, Doubling, ExtendRefused, Growth, ThinVec, ThinVecError};

/// What a call that fills a list has to do: the capacity of the list, the number of requests and of
/// their bytes, and how often the iterator's `next` and `size_hint` are called.
#[derive(Clone, Copy)]
pub struct Filling {
    pub capacity: usize,
    pub requests: u64,
    /// The number of bytes of the granted requests.
    pub bytes: u64,
    pub nexts: u64,
    pub hints: u64,
    /// Why the call failed.
    pub cause: Option<ThinVecError>,
    /// The number of items of the iterator that are in the list afterwards.
    pub placed: usize,
    /// The number of items that the error holds, besides those that are left in the iterator.
    pub held: usize,
    /// The number of the request that is refused, or 0.
    refused: u64,
}

impl Filling {
    /// Returns a filling that has not begun, of a list of the given capacity.
    pub fn new(capacity: usize, refused: u64) -> Filling {
        Filling {
            capacity,
            requests: 0,
            bytes: 0,
            nexts: 0,
            hints: 0,
            cause: None,
            placed: 0,
            held: 0,
            refused,
        }
    }

    /// Counts a request of `bytes` bytes, and returns whether it is granted.
    pub fn is_granted(&mut self, bytes: u64) -> bool {
        self.requests = self.requests.saturating_add(1);
        if self.requests == self.refused {
            self.cause = Some(ThinVecError::OutOfMemory);
            return false;
        }
        self.bytes = self.bytes.saturating_add(bytes);
        true
    }

    /// Grows the list to `capacity`, which is `None` if it overflows. Returns whether this
    /// succeeds.
    pub fn grow<T: Numbered>(&mut self, capacity: Option<usize>) -> bool {
        let Some(capacity) = capacity else {
            self.cause = Some(ThinVecError::CapacityOverflow);
            return false;
        };
        if capacity != self.capacity {
            if !self.is_granted(block_bytes::<T>(capacity)) {
                return false;
            }
            self.capacity = capacity;
        }
        true
    }

    /// Returns the capacity that the growth rule chooses for `length + more` items.
    pub fn ruled<T: Numbered, G: Ruled>(&self, length: usize, more: usize) -> Option<usize> {
        let want = length.checked_add(more)?;
        if want <= self.capacity {
            return Some(self.capacity);
        }
        fitting::<T>(G::expected_capacity(T::size(), self.capacity, want))
    }

    /// Appends `count` items to a list of `length` items. First, the list grows to `hinted`. Then
    /// it grows whenever it is full.
    pub fn append<T: Numbered, G: Ruled>(
        &mut self,
        length: usize,
        hinted: Option<usize>,
        count: usize,
    ) {
        self.hints = 1;
        if !self.grow::<T>(hinted) {
            return;
        }
        for placed in 0..count {
            self.nexts = self.nexts.saturating_add(1);
            let length = length.saturating_add(placed);
            if length == self.capacity {
                let capacity = self.ruled::<T, G>(length, 1);
                if !self.grow::<T>(capacity) {
                    self.held = 1;
                    return;
                }
            }
            self.placed = self.placed.saturating_add(1);
        }
        self.nexts = self.nexts.saturating_add(1);
    }

    /// Returns whether the list has room for more than 1,000,000 items, so that only a test with
    /// the request refused can be made.
    pub fn is_too_much<T: Numbered>(&self) -> bool {
        self.capacity > 1_000_000 && T::size() > 0
    }
}

/// Returns `capacity` if a list of `T` can have this capacity.
pub fn fitting<T: Numbered>(capacity: usize) -> Option<usize> {
    if capacity <= greatest_capacity::<T>() {
        Some(capacity)
    } else {
        None
    }
}

/// An iterator that is passed to the call: the number of its items, and its size hint. If the hint
/// is exact, `lower` is the number of the items.
#[derive(Clone, Copy)]
pub struct Source {
    pub count: usize,
    pub lower: usize,
    pub is_bounded: bool,
    pub is_exact: bool,
}

impl Source {
    /// Returns the source after it has yielded `count` items.
    pub fn after(self, count: usize) -> Source {
        let left = self.count.saturating_sub(count);
        Source {
            lower: if self.is_exact { left } else { self.lower },
            ..self
        }
    }

    /// Makes the iterator.
    pub fn claims<T: Numbered, R: Abort>(
        self,
        rt: &R,
        ledger: &'static Ledger,
    ) -> Claims<'static, T> {
        let items = numbered_items(ledger, ledger.global, NEW, self.count).expect(rt, "memory");
        if self.is_exact {
            return Claims::exact(ledger, items);
        }
        Claims::new(ledger, items, self.lower, self.is_bounded)
    }
}

// The number of the first item of an iterator, which differs from those of short lists.
const NEW: u64 = 100;

/// The numbers of items that are tried. The last one is tried with few hints.
const COUNTS: [usize; 10] = [0, 1, 2, 3, 4, 5, 17, 50, 300, 5000];

// The number of the last one of `COUNTS`.
const MANY: usize = 9;

/// The number of different hints.
pub const HINTS: usize = 22;

/// Returns an iterator over `count` items with one of the hints.
pub fn nth_source<T: Numbered>(at: At, number: usize, count: usize) -> Source {
    let most = greatest_capacity::<T>().saturating_sub(at.length);
    let lower = match number / 2 {
        0 => 0,
        1 => 1,
        2 => count.saturating_sub(1),
        3 => count,
        4 => count.saturating_add(1),
        5 => 1000,
        6 => count,
        7 => most,
        8 => most.saturating_add(1),
        9 => isize::MAX as usize,
        _ => usize::MAX,
    };
    Source {
        count,
        lower,
        is_bounded: number % 2 == 1,
        is_exact: number / 2 == 6,
    }
}

/// A call that fills a list of `T` with the growth rule `G`.
pub trait Fills<T: Numbered, G: Growth> {
    /// Whether the call makes a list, and so leaves out the growth rule for the hint.
    const IS_MAKING: bool = false;

    /// Whether nothing is left if the call fails.
    const IS_ALL_OR_NOTHING: bool = false;

    /// Begins to count, and makes the call, after which the list of the case is the filled list.
    /// Returns the cause of a failure, as far as the call tells it.
    fn fill<R: Abort>(
        rt: &R,
        case: &mut Case<T, G>,
        source: Source,
        due: &Filling,
    ) -> Option<ThinVecError>;
}

/// The method `extend` of the list.
pub struct Extend {}

impl<T: Numbered, G: Growth> Fills<T, G> for Extend {
    fn fill<R: Abort>(
        rt: &R,
        case: &mut Case<T, G>,
        source: Source,
        due: &Filling,
    ) -> Option<ThinVecError> {
        let claims = source.claims(rt, case.ledger);
        case.begin("extend");
        let Err(refused) = case.list.extend(claims) else {
            return None;
        };
        let ExtendRefused {
            cause,
            in_hand,
            rest,
        } = refused;
        check_left(rt, case, source, due, &[], in_hand, rest);
        Some(cause)
    }
}

/// The method `extend` of the trait `Extend`.
pub struct ExtendOfTrait {}

impl<T: Numbered, G: Growth> Fills<T, G> for ExtendOfTrait {
    fn fill<R: Abort>(
        rt: &R,
        case: &mut Case<T, G>,
        source: Source,
        due: &Filling,
    ) -> Option<ThinVecError> {
        let claims = source.claims(rt, case.ledger);
        case.begin("extend of the trait Extend");
        match iter::Extend::extend(&mut case.list, claims) {
            Ok(()) => None,
            Err(_refused) => due.cause.or(Some(ThinVecError::OutOfMemory)),
        }
    }
}

/// The function `ThinVec::from_iter`.
pub struct FromIter {}

impl<T: Numbered> Fills<T, Doubling> for FromIter {
    const IS_MAKING: bool = true;

    fn fill<R: Abort>(
        rt: &R,
        case: &mut Case<T, Doubling>,
        source: Source,
        due: &Filling,
    ) -> Option<ThinVecError> {
        let claims = source.claims(rt, case.ledger);
        case.begin("from_iter");
        match ThinVec::from_iter(&case.ledger.alloc, claims) {
            Ok(list) => {
                case.list = list;
                None
            }
            Err(refused) => {
                let CollectRefused {
                    list,
                    cause,
                    in_hand,
                    rest,
                } = refused;
                check_left(rt, case, source, due, &[], in_hand, rest);
                case.list = list;
                Some(cause)
            }
        }
    }
}

/// The method `collect` of `Iterator`. If it fails, nothing is left.
pub struct Collect {}

impl<T: Numbered> Fills<T, Doubling> for Collect {
    const IS_MAKING: bool = true;

    const IS_ALL_OR_NOTHING: bool = true;

    fn fill<R: Abort>(
        rt: &R,
        case: &mut Case<T, Doubling>,
        source: Source,
        due: &Filling,
    ) -> Option<ThinVecError> {
        let claims = source.claims(rt, case.ledger);
        case.begin("collect");
        match claims.collect(&case.ledger.alloc) {
            Ok(list) => {
                case.list = list;
                None
            }
            Err(_refused) => due.cause.or(Some(ThinVecError::OutOfMemory)),
        }
    }
}

/// Makes the call on lists of the given lengths from several iterators, and on a list without items
/// from iterators over thousands of items whose lower bounds are 0 and the number of items. Refuses
/// each of the requests in turn.
pub fn fill_lists<F: Fills<T, G>, T: Numbered, G: Ruled, R: Abort>(
    rt: &R,
    ledger: &'static Ledger,
    lengths: &[usize],
    spares: &[usize],
) {
    for length in lengths {
        for spare in spares {
            for argument in 0..MANY.saturating_mul(HINTS) {
                each_refusal::<F, T, G, R>(rt, ledger, At::new(*length, *spare, argument));
            }
        }
    }
    for number in [0, 6] {
        let argument = MANY.saturating_mul(HINTS).saturating_add(number);
        each_refusal::<F, T, G, R>(rt, ledger, At::new(0, 0, argument));
    }
}

// Makes the call with enough memory, and then with each of its requests refused, or with all if it
// makes none.
fn each_refusal<F: Fills<T, G>, T: Numbered, G: Ruled, R: Abort>(
    rt: &R,
    ledger: &'static Ledger,
    at: At,
) {
    let requests = fill::<F, T, G, R>(rt, ledger, at);
    if requests == 0 {
        let refused = ALL_REQUESTS;
        let _requests = fill::<F, T, G, R>(rt, ledger, At { refused, ..at });
    }
    for refused in 0..requests {
        let refused = refused.saturating_add(1);
        let _requests = fill::<F, T, G, R>(rt, ledger, At { refused, ..at });
    }
}

// Makes the call once, and checks what it did. Returns the number of its requests. A call that
// needs too much memory is not made, and 1 is returned, unless its first request is refused.
#[inline(never)]
fn fill<F: Fills<T, G>, T: Numbered, G: Ruled, R: Abort>(
    rt: &R,
    ledger: &'static Ledger,
    at: At,
) -> u64 {
    let count = COUNTS[at.argument / HINTS % COUNTS.len()];
    let source = nth_source::<T>(at, at.argument % HINTS, count);
    let due = due::<F, T, G>(at, source);
    if due.is_too_much::<T>() {
        return 1;
    }
    let mut case: Case<T, G> = Case::new(ledger, at).expect(rt, "memory");
    let cause = F::fill(rt, &mut case, source, &due);
    check_filling(rt, &case, (at.length, at.length), cause, &due);
    assert_right(rt, case.end());
    due.requests
}

// Returns what the call has to do.
fn due<F: Fills<T, G>, T: Numbered, G: Ruled>(at: At, source: Source) -> Filling {
    let mut due = Filling::new(at.length.saturating_add(at.spare), at.refused);
    let hinted = if F::IS_MAKING {
        fitting::<T>(source.lower)
    } else {
        due.ruled::<T, G>(at.length, source.lower)
    };
    due.append::<T, G>(at.length, hinted, source.count);
    if F::IS_ALL_OR_NOTHING && due.cause.is_some() {
        due.capacity = 0;
        due.placed = 0;
    }
    due
}

// Counts items with consecutive numbers.
#[derive(Drop)]
struct Run {
    ledger: &'static Ledger,
    next: u64,
    right: usize,
}

impl Run {
    // Counts the item if it has the next number.
    fn count<T: Numbered>(&mut self, item: &T) {
        if *item == T::numbered(self.ledger, self.next) {
            self.right = self.right.saturating_add(1);
        }
        self.next = self.next.wrapping_add(1);
    }
}

/// Asserts that an error holds as many items as `due` says, and that these items, and those that
/// are left in the iterator, are all that the call has not placed, in order.
pub fn check_left<T: Numbered, G: Growth, R: Abort>(
    rt: &R,
    case: &Case<T, G>,
    source: Source,
    due: &Filling,
    held: &[T],
    in_hand: Option<T>,
    rest: Claims<'static, T>,
) {
    let mut run = Run {
        ledger: case.ledger,
        next: NEW.wrapping_add(due.placed as u64),
        right: 0,
    };
    for item in held {
        run.count(item);
    }
    let mut holds = held.len();
    if let Some(item) = in_hand {
        run.count(&item);
        holds = holds.saturating_add(1);
    }
    for item in rest.into_left() {
        run.count(&item);
    }
    let left = source.count.saturating_sub(due.placed);
    assert_same(
        rt,
        case.at,
        "items held and in hand; right ones of them and of the rest",
        (holds, run.right),
        (due.held, left),
    );
}

// Asserts that the list is the old one, with the placed items instead of the range.
fn check_items<T: Numbered, G: Growth, R: Abort>(
    rt: &R,
    case: &Case<T, G>,
    (start, end): (usize, usize),
    placed: usize,
) {
    let mut run = Run {
        ledger: case.ledger,
        next: 0,
        right: 0,
    };
    let mut index: usize = 0;
    let after = start.saturating_add(placed);
    for item in case.list.as_slice() {
        if index == start {
            run.next = NEW;
        }
        if index == after {
            run.next = end as u64;
        }
        run.count(item);
        index = index.saturating_add(1);
    }
    let len = after.saturating_add(case.at.length.saturating_sub(end));
    let found = (case.list.len(), run.right);
    assert_same(rt, case.at, "items; right ones", found, (len, len));
}

/// Asserts that the call did what `due` says, and that nothing exists but the list and its items.
/// `range` is the range that the new items replace.
pub fn check_filling<T: Numbered, G: Ruled, R: Abort>(
    rt: &R,
    case: &Case<T, G>,
    range: (usize, usize),
    cause: Option<ThinVecError>,
    due: &Filling,
) {
    let ledger = case.ledger;
    let done = (
        (cause, case.list.capacity()),
        (
            ledger.alloc.requests(),
            ledger.nexts.get(),
            ledger.hints.get(),
        ),
    );
    let wanted = (
        (due.cause, due.capacity),
        (due.requests, due.nexts, due.hints),
    );
    assert_same(
        rt,
        case.at,
        "cause, capacity; requests, nexts, hints",
        done,
        wanted,
    );
    let counted = (ledger.alloc.lent(), ledger.clones.get());
    assert_same(
        rt,
        case.at,
        "bytes requested, clones",
        counted,
        (due.bytes, 0),
    );
    check_items(rt, case, range, due.placed);
    assert_right(rt, case.check_live(case.list.len(), case.list.capacity()));
}
