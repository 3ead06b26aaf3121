//! A sweep makes each call of a group on many lists, with several arguments, and with each of its
//! requests refused in turn.
use crate::asserts::assert_call;
use std::process::Abort;
use thin_testing::{ALL_REQUESTS, Answer, At, Case, Ledger, Numbered};
use thin_vec::Growth;

/// A group of calls on a list of `T` with the growth rule `G`.
pub trait Calls<T: Numbered, G: Growth> {
    /// The number of arguments with which each call is tried.
    const ARGUMENTS: usize;

    /// Makes one of the calls on the list of `case`, with the argument that `case` chooses. Drops
    /// whatever the call returned. Makes no call if it does not suit the case. Returns `None` if no
    /// call has this number, or if this call and those after it take fewer arguments.
    fn call<R: Abort>(rt: &R, case: &mut Case<T, G>, call: usize) -> Option<Answer>;
}

// More calls than any group has.
const MOST: usize = 100;

/// Makes each call of the group on each list of the given lengths, with at most `most` arguments.
/// Returns the number of cases, and the number of those in which requests are refused.
#[inline(never)]
pub fn sweep<C: Calls<T, G>, T: Numbered, G: Growth, R: Abort>(
    rt: &R,
    ledger: &'static Ledger,
    lengths: &[usize],
    spares: &[usize],
    most: usize,
) -> (u64, u64) {
    let (mut cases, mut refusals) = (0_u64, 0_u64);
    for length in lengths {
        for spare in spares {
            for argument in 0..C::ARGUMENTS.min(most) {
                let at = At::new(*length, *spare, argument);
                for call in 0..MOST {
                    let Some(refused) = each_refusal::<C, T, G, R>(rt, ledger, at, call) else {
                        break;
                    };
                    refusals = refusals.saturating_add(refused);
                    cases = cases.saturating_add(refused).saturating_add(1);
                }
            }
        }
    }
    (cases, refusals)
}

// Makes the call with enough memory, and then with each of its requests refused. If it makes many
// requests, some of those in the middle are not refused. If it makes none, makes it again with all
// requests refused. Returns the number of cases with refusals, or `None` if no call has this
// number.
fn each_refusal<C: Calls<T, G>, T: Numbered, G: Growth, R: Abort>(
    rt: &R,
    ledger: &'static Ledger,
    at: At,
    call: usize,
) -> Option<u64> {
    let requests = case::<C, T, G, R>(rt, ledger, at, call)?;
    if requests == 0 {
        let refused = ALL_REQUESTS;
        let _requests = case::<C, T, G, R>(rt, ledger, At { refused, ..at }, call);
        return Some(1);
    }
    let mut refusals: u64 = 0;
    for earlier in 0..requests {
        if is_refused(at.length, earlier, requests.saturating_sub(earlier)) {
            let refused = earlier.saturating_add(1);
            let _requests = case::<C, T, G, R>(rt, ledger, At { refused, ..at }, call);
            refusals = refusals.saturating_add(1);
        }
    }
    Some(refusals)
}

// Returns whether a request is refused. `earlier` is the number of requests before it, and `left`
// the number of requests from it on.
fn is_refused(length: usize, earlier: u64, left: u64) -> bool {
    match length {
        0..=50 => earlier < 12 || left < 3 || 40 <= earlier && earlier < 44,
        51..=9999 => earlier < 3 || left < 2 || earlier == 45,
        _ => earlier == 0 || left < 2,
    }
}

// Makes the call once, checks what it did, and returns the number of its requests.
#[inline(never)]
fn case<C: Calls<T, G>, T: Numbered, G: Growth, R: Abort>(
    rt: &R,
    ledger: &'static Ledger,
    at: At,
    call: usize,
) -> Option<u64> {
    let mut case = Case::new(ledger, at).expect(rt, "memory");
    let answer = C::call(rt, &mut case, call)?;
    Some(assert_call(rt, case, answer))
}
