//! Makes the lists, vectors and steps of the tests. The test ends if there is no memory for them.
use crate::check;
use std::alloc::Allocator;
use std::process::Abort;
use thin_runner::command::{Command, Reply, Step};
use thin_runner::judge::Judge;
use thin_runner::runner::run;
use thin_testing::{Counted, Ledger, Lender, Numbered};
use thin_vec::{Growth, ThinVec, ThinVecError};

/// An item that the ledger counts. A clone of it is a request.
pub type Item = Counted<'static>;

pub type List<T> = ThinVec<T, Lender>;

pub type Asked<T> = Command<T, Lender>;

pub type Told<T> = Reply<T, Lender>;

/// Makes an empty vector with room for `capacity` values.
pub fn room<V: Drop, A: Allocator>(rt: &impl Abort, alloc: A, capacity: usize) -> Vec<V, A> {
    check!(rt; Vec::with_capacity(alloc, capacity))
}

/// Appends a value.
pub fn put<V: Drop, A: Allocator>(rt: &impl Abort, values: &mut Vec<V, A>, value: V) {
    check!(rt; values.push(value).ok());
}

/// Makes items of the given numbers.
pub fn items<T: Numbered>(
    rt: &impl Abort,
    ledger: &'static Ledger,
    numbers: &[u64],
) -> Vec<T, Lender> {
    let mut items = room(rt, &ledger.alloc, numbers.len());
    for number in numbers {
        put(rt, &mut items, T::numbered(ledger, *number));
    }
    items
}

/// Makes a list that takes over the items of the vector, with the given spare capacity.
pub fn list_from<T: Numbered>(
    rt: &impl Abort,
    ledger: &'static Ledger,
    items: Vec<T, Lender>,
    spare: usize,
) -> List<T> {
    let mut list = ThinVec::new(&ledger.alloc);
    check!(rt; list.reserve_exact(items.len().saturating_add(spare)));
    for item in items {
        check!(rt; list.push(item).ok());
    }
    list
}

/// Makes `count` steps. Step number `i` is `Back` if bit `i` of `backs` is 1. The bits repeat after
/// 64 steps.
pub fn steps(
    rt: &impl Abort,
    ledger: &'static Ledger,
    count: usize,
    backs: u64,
) -> Vec<Step, Lender> {
    let mut steps = room(rt, &ledger.alloc, count);
    for index in 0..count {
        let step = if is_one(backs, index) {
            Step::Back
        } else {
            Step::Front
        };
        put(rt, &mut steps, step);
    }
    steps
}

/// Returns whether bit `index` of `bits` is 1. The bits repeat after 64.
pub fn is_one(bits: u64, index: usize) -> bool {
    bits >> (index % 64) & 1 == 1
}

/// What a call to `run` did.
#[derive(Drop)]
pub struct Ran<T: Drop, G: Growth> {
    /// Why the call failed.
    pub cause: Option<ThinVecError>,
    pub requests: u64,
    pub replies: Vec<Reply<T, Lender, G>, Lender>,
}

/// Executes the commands by one call to `run`, with request number `refused` refused. Before, the
/// replies are one `Item(None)`, and there is no room for another one. Afterwards, there is room
/// for no more replies than needed, or for 4.
pub fn run_all<T: Numbered, G: Growth, J: Judge<T>>(
    rt: &impl Abort,
    ledger: &'static Ledger,
    list: &mut ThinVec<T, Lender, G>,
    commands: Vec<Command<T, Lender, G>, Lender>,
    judge: &J,
    refused: u64,
) -> Ran<T, G> {
    let mut replies = room(rt, &ledger.alloc, 1);
    put(rt, &mut replies, Reply::Item(None));
    ledger.begin(refused);
    let most = commands.len().saturating_add(1).max(4);
    let ran = run(&ledger.alloc, list, commands, &mut replies, judge);
    assert!(rt;
        replies.capacity() <= most,
        "room for {} replies",
        replies.capacity()
    );
    Ran {
        cause: ran.err(),
        requests: ledger.alloc.requests(),
        replies,
    }
}

/// Executes one command as `run_all` does.
pub fn run_single<T: Numbered, G: Growth, J: Judge<T>>(
    rt: &impl Abort,
    ledger: &'static Ledger,
    list: &mut ThinVec<T, Lender, G>,
    command: Command<T, Lender, G>,
    judge: &J,
    refused: u64,
) -> Ran<T, G> {
    let mut commands = room(rt, &ledger.alloc, 1);
    put(rt, &mut commands, command);
    run_all(rt, ledger, list, commands, judge, refused)
}

/// Asserts that exactly the items of the list exist, and one block if it has a capacity. Then drops
/// the list, and asserts that nothing is left.
pub fn assert_clean<T: Numbered, G: Growth>(
    rt: &impl Abort,
    ledger: &'static Ledger,
    list: ThinVec<T, Lender, G>,
) {
    assert_live::<T>(rt, ledger, list.len(), list.has_capacity());
    drop(list);
    assert_live::<T>(rt, ledger, 0, false);
}

// Asserts that `items` items exist, and one block if `has_block` is true.
fn assert_live<T: Numbered>(
    rt: &impl Abort,
    ledger: &'static Ledger,
    items: usize,
    has_block: bool,
) {
    let items = if T::IS_COUNTED { items as u64 } else { 0 };
    let found = (ledger.live.get(), ledger.alloc.blocks());
    check!(rt; same(found, (items, u64::from(has_block))));
}
