//! Assertions about a case, whose messages name it, and about numbers, which the prover knows
//! afterwards. The module also has the ledger of a test.
ghost use Rattle.std.specs.Prelude.{◌≤◌};

use std::alloc::Global;
use std::fmt::Debug;
use std::process::Abort;
use thin_testing::{Answer, At, Case, Ledger, Numbered, Wrong};
use thin_vec::Growth;

/// Asserts that a check found nothing wrong.
pub fn assert_right<R: Abort>(rt: &R, checked: Result<(), Wrong>) {
    if let Err(
        Wrong {
            at,
            what,
            found,
            due,
        },
    ) = checked
    {
        assert_same(rt, at, what, found, due);
    }
}

/// Asserts that the call under test did what `answer` announces, and that nothing is left once the
/// list is dropped. Returns the number of requests of the call.
pub fn assert_call<T: Numbered, G: Growth, R: Abort>(
    rt: &R,
    case: Case<T, G>,
    answer: Answer,
) -> u64 {
    let requests = case.ledger.alloc.requests();
    assert_right(rt, case.check(answer));
    assert_right(rt, case.end());
    requests
}

/// Asserts that `found` equals `due`.
pub fn assert_same<D: PartialEq + Debug + Drop, R: Abort>(
    rt: &R,
    at: At,
    what: &'static str,
    found: D,
    due: D,
) {
    assert_eq!(rt; found, due, "{what}, {at:?}");
}

/// Asserts that the range from `start` to `end` is within a list of `len` items.
pub fn assert_range<R: Abort>(rt: &R, start: usize, end: usize, len: usize)
    ensures start_le_end { start ≤ end }
    ensures in_bounds { end ≤ len }
{
    assert!(rt; start <= end && end <= len);
}

/// Asserts that the number is at most `most`.
pub fn assert_at_most<R: Abort>(rt: &R, number: usize, most: usize)
    ensures at_most { number ≤ most }
{
    assert!(rt; number <= most);
}

/// Returns a reference to a ledger that is never freed.
pub fn leaked_ledger<R: Abort>(rt: &R, alloc: Global) -> &'static Ledger {
    Ledger::leaked(alloc).expect(rt, "a ledger for the test")
}
