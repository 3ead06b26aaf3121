//! Tests of the sweeps themselves: they make the calls that they should make, and see what is
//! wrong.
use crate::asserts::{assert_right, leaked_ledger};
use crate::sweep::{Calls, sweep};
use crate::tests::Small;
use std::process::Abort;
use thin_testing::{Answer, At, Case, Claims, Due, Ledger, Wrong};
use thin_vec::{Doubling, Growth, ThinVecError};

// Three calls, which make as many requests as their numbers say.
struct Requests {}

impl<G: Growth> Calls<Small, G> for Requests {
    const ARGUMENTS: usize = 2;

    fn call<R: Abort>(_rt: &R, case: &mut Case<Small, G>, call: usize) -> Option<Answer> {
        if call > 2 {
            return None;
        }
        case.begin("as many requests as the number of the call");
        for _ in 0..call {
            if case.ledger.alloc.request().is_err() {
                return Some(Err(ThinVecError::OutOfMemory));
            }
        }
        Some(Ok(Due::requests(call)))
    }
}

// Each list has calls of 0, 1 and 2 requests, so there are 3 cases without and 4 with refusals.
// There are two lengths, two spare capacities and two arguments, and then two lengths and one
// argument.
#[test]
fn sweep_makes_each_call_and_refuses_each_request(rt: HostRuntime) {
    let ledger = leaked_ledger(&rt, rt.alloc());
    let swept = sweep::<Requests, Small, Doubling, _>(&rt, ledger, &[3, 8], &[0, 1], 5);
    assert_eq!(rt; swept, (56, 32));
    let swept = sweep::<Requests, Small, Doubling, _>(&rt, ledger, &[3, 8], &[0], 1);
    assert_eq!(rt; swept, (14, 8));
}

// Returns a case of a list of two items and capacity 3.
fn two_items<R: Abort>(rt: &R, ledger: &'static Ledger, refused: u64) -> Case<Small, Doubling> {
    let at = At {
        refused,
        ..At::new(2, 1, 0)
    };
    let mut case = Case::new(ledger, at).expect(rt, "memory");
    case.begin("none");
    case
}

// What a check finds wrong if a call makes each of the mistakes of `mistake`.
static FOUND: [Option<&str>; 13] = [
    None,
    Some("requests"),
    Some("requests"),
    Some("bytes requested"),
    Some("succeeded"),
    Some("failed with no request"),
    Some("requests"),
    Some("requests before an overflow"),
    Some("clones"),
    Some("calls"),
    Some("comparisons"),
    Some("items"),
    Some("blocks"),
];

// Makes a mistake, and returns what a check of the case finds. The first one is no mistake.
fn mistake<R: Abort>(rt: &R, ledger: &'static Ledger, number: usize) -> Result<(), Wrong> {
    let mut case = two_items(rt, ledger, u64::from(number == 4 || number == 6));
    let requests = match number {
        1 | 4 | 7 | 8 => 1,
        6 => 2,
        _ => 0,
    };
    for _ in 0..requests {
        let _request = ledger.alloc.request();
    }
    checked(rt, &mut case, number)
}

// Makes the rest of a mistake, after its requests, and checks the case.
fn checked<R: Abort>(rt: &R, case: &mut Case<Small, Doubling>, number: usize) -> Result<(), Wrong> {
    match number {
        2 | 4 => case.check(Ok(Due::requests(1))),
        3 => {
            drop(case.other(0, 9).expect(rt, "memory"));
            case.check(Ok(Due::block_of(8)))
        }
        5 | 6 => case.check(Err(ThinVecError::OutOfMemory)),
        7 => case.check(Err(ThinVecError::CapacityOverflow)),
        8 => case.check(Ok(Due::NOTHING.clones(1))),
        9 => case.check(Ok(Due::calls(1))),
        10 => case.check(Ok(Due::comparisons(1))),
        11 => {
            let item = case.item();
            let checked = case.check(Ok(Due::NOTHING));
            drop(item);
            checked
        }
        12 => {
            let other = case.other(0, 1).expect(rt, "memory");
            case.begin("none");
            let checked = case.check(Ok(Due::NOTHING));
            drop(other);
            checked
        }
        _ => case.check(Ok(Due::NOTHING)),
    }
}

#[test]
fn detects_each_mistake(rt: HostRuntime) {
    let ledger = leaked_ledger(&rt, rt.alloc());
    let mut number: usize = 0;
    for due in &FOUND {
        let found = mistake(&rt, ledger, number).err().map(|wrong| wrong.what);
        assert_eq!(rt; (number, found), (number, *due));
        number = number.saturating_add(1);
    }
}

#[test]
fn detects_a_block_of_a_wrong_size(rt: HostRuntime) {
    let ledger = leaked_ledger(&rt, rt.alloc());
    let found = two_items(&rt, ledger, 0).check_live(2, 4);
    assert_eq!(rt; found.err().map(|wrong| wrong.what), Some("bytes"));
}

#[test]
#[should_panic(expected = "failed: items, At")]
fn detects_an_item_that_is_left_at_the_end(rt: HostRuntime) {
    let ledger = leaked_ledger(&rt, rt.alloc());
    let case = two_items(&rt, ledger, 0);
    let item = case.item();
    assert_right(&rt, case.end());
    drop(item);
}

// Returns a number with one bit, which stands for a choice.
fn bit(choice: usize) -> u64 {
    1 << (choice % 64)
}

// Returns the bits of the four items that the closure of a case keeps.
fn kept(at: At) -> u64 {
    let mut bits = 0;
    for index in 0..4_usize {
        if at.keeps(index as u64) {
            bits |= bit(index);
        }
    }
    bits
}

// On a list of four items, the arguments below 25 choose each index, each range and each number of
// new items, and those below 16 choose each pattern.
#[test]
fn arguments_choose_each_index_range_number_and_pattern(rt: HostRuntime) {
    let ledger = leaked_ledger(&rt, rt.alloc());
    let (mut indices, mut ranges, mut counts, mut patterns) = (0_u64, 0_u64, 0_u64, 0_u64);
    for argument in 0..25_usize {
        let at = At::new(4, 1, argument);
        let case: Case<Small, Doubling> = Case::new(ledger, at).expect(&rt, "memory");
        let (start, end) = case.range();
        indices |= bit(case.index());
        ranges |= bit(start.saturating_mul(8).saturating_add(end));
        counts |= bit(case.count());
        patterns |= bit(kept(at) as usize);
    }
    assert_eq!(rt; (indices, ranges), (0b1_1111, 0x10_181c_1e1f));
    assert_eq!(rt; (counts, patterns), (0x0002_022f, 0xffff));
}

// Of long lists, the patterns from 0 to 7 keep some items, none, or all.
#[test]
fn patterns_of_long_lists_keep_some_items(rt: HostRuntime) {
    for (argument, least, most) in [
        (0, 70, 70),
        (1, 0, 0),
        (2, 50, 50),
        (3, 50, 50),
        (4, 80, 95),
        (5, 100, 100),
        (6, 30, 70),
        (7, 30, 70),
    ] {
        let mut kept: u64 = 0;
        for index in 0..100 {
            kept = kept.saturating_add(u64::from(At::new(100, 0, argument).keeps(index)));
        }
        assert!(rt;
            least <= kept && kept <= most,
            "pattern {argument} keeps {kept}"
        );
    }
}

// Returns the size hint of an iterator over two items.
fn claimed<R: Abort>(
    rt: &R,
    ledger: &Ledger,
    lower: usize,
    is_bounded: bool,
) -> (usize, Option<usize>) {
    let items = [7, 8].to_vec(ledger.global).expect(rt, "memory");
    Claims::new(ledger, items, lower, is_bounded).size_hint()
}

#[test]
fn claims_tell_the_bounds_that_are_asked_for(rt: HostRuntime) {
    let ledger = leaked_ledger(&rt, rt.alloc());
    assert_eq!(rt; claimed(&rt, ledger, 3, true), (3, Some(5)));
    assert_eq!(rt; claimed(&rt, ledger, 3, false), (3, None));
    assert_eq!(rt; claimed(&rt, ledger, usize::MAX, true), (usize::MAX, None));
    let items = [7, 8].to_vec(rt.alloc()).expect(&rt, "memory");
    let exact = Claims::exact(ledger, items).size_hint();
    assert_eq!(rt; (exact, ledger.hints.get()), ((2, Some(2)), 4));
}
