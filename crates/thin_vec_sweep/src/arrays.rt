//! Conversions between lists and arrays, whose lengths are parts of types.
ghost use Rattle.std.specs.Mem.{type_size};
ghost use Rattle.std.specs.Prelude.{◌*◌, ◌<◌, ◌^◌};

use crate::asserts::assert_call;
use std::alloc::Allocator;
use std::process::Abort;
use thin_testing::{ALL_REQUESTS, Answer, At, Case, Due, Ledger, Numbered};
use thin_vec::{Doubling, ThinVec};

/// Converts lists of several lengths to arrays of up to 300 items, and back.
pub fn arrays<T: Numbered, R: Abort>(rt: &R, ledger: &'static Ledger)
    requires small { 300 * type_size T.row < 2 ^ 63 }
{
    arrays_of::<T, 0, R>(rt, ledger);
    arrays_of::<T, 1, R>(rt, ledger);
    arrays_of::<T, 7, R>(rt, ledger);
    arrays_of::<T, 300, R>(rt, ledger);
}

// Converts lists to arrays of `N` items, and back. Then does the same, and refuses the request of
// the conversion back, or all requests if there is none.
fn arrays_of<T: Numbered, const N: usize, R: Abort>(rt: &R, ledger: &'static Ledger)
    requires small { N * type_size T.row < 2 ^ 63 }
{
    for length in [0, 1, 6, 7, 8, 300] {
        for spare in 0..2 {
            let refused = if length == N && N > 0 {
                1
            } else {
                ALL_REQUESTS
            };
            let at = At::new(length, spare, N);
            array::<T, N, R>(rt, ledger, at);
            array::<T, N, R>(rt, ledger, At { refused, ..at });
        }
    }
}

fn array<T: Numbered, const N: usize, R: Abort>(rt: &R, ledger: &'static Ledger, at: At)
    requires small { N * type_size T.row < 2 ^ 63 }
{
    let mut case: Case<T, Doubling> = Case::new(ledger, at).expect(rt, "memory");
    let list = case.take();
    case.begin("into_array, from_array");
    let answer = there_and_back::<T, _, N>(list, &ledger.alloc);
    assert_call(rt, case, answer);
}

// Converts the list to an array, the array to a list, and drops this list.
fn there_and_back<T: Numbered, A: Allocator, const N: usize>(
    list: ThinVec<T, A>,
    alloc: A,
) -> Answer
    requires small { N * type_size T.row < 2 ^ 63 }
{
    let Ok(items) = list.into_array::<N>() else {
        return Ok(Due::NOTHING);
    };
    ThinVec::from_array(alloc, items)?;
    Ok(Due::block_of(N))
}
