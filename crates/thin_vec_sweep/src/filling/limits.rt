//! Requests for large blocks and for the greatest capacity, and calls whose capacity overflows.
use crate::asserts::assert_right;
use std::process::Abort;
use thin_testing::{At, Case, Ledger, List, Numbered, Ruled, greatest_capacity};
use thin_vec::{Doubling, Growth, ThinVec, ThinVecError};

// The number of the calls that are tried.
const CALLS: usize = 5;

/// Asserts that calls which need a power of two, or the greatest capacity, make one request, and
/// that calls which need a greater capacity fail without a request.
pub fn limits<T: Numbered, G: Ruled, R: Abort>(rt: &R, ledger: &'static Ledger) {
    let greatest = greatest_capacity::<T>();
    for length in 0..3 {
        for call in 0..CALLS {
            let mut capacity: usize = 8;
            for _ in 3..64 {
                let needed = capacity.min(greatest);
                let answer = limit::<T, G, R>(rt, ledger, length, call, needed, 1);
                assert!(rt;
                    answer == (Err(ThinVecError::OutOfMemory), 1),
                    "call {call}, capacity {needed}"
                );
                capacity = capacity.saturating_mul(2);
            }
            for more in [
                greatest.saturating_add(1),
                isize::MAX as usize + 1,
                usize::MAX,
            ] {
                let answer = limit::<T, G, R>(rt, ledger, length, call, more, 0);
                assert!(rt;
                    answer == (Err(ThinVecError::CapacityOverflow), 0),
                    "call {call}"
                );
            }
        }
    }
}

// Makes a call that needs the given capacity. Returns its answer, and the number of its requests.
fn limit<T: Numbered, G: Ruled, R: Abort>(
    rt: &R,
    ledger: &'static Ledger,
    length: usize,
    call: usize,
    capacity: usize,
    refused: u64,
) -> (Result<(), ThinVecError>, u64) {
    let at = At {
        refused,
        ..At::new(length, 1, 0)
    };
    let mut case: Case<T, G> = Case::new(ledger, at).expect(rt, "memory");
    case.begin("with_capacity, reserve, reserve_exact, resize, resize_with");
    let answer = make_call(&mut case, call, capacity);
    let requests = ledger.alloc.requests();
    assert_right(rt, case.end());
    (answer, requests)
}

// Makes a call that needs the given capacity.
fn make_call<T: Numbered, G: Growth>(
    case: &mut Case<T, G>,
    call: usize,
    capacity: usize,
) -> Result<(), ThinVecError> {
    let additional = capacity.saturating_sub(case.at.length);
    match call {
        0 => made::<T>(case.ledger, capacity),
        1 => case.list.reserve(additional),
        2 => case.list.reserve_exact(additional),
        3 => case.list.resize(capacity, T::numbered(case.ledger, 7)),
        _ => resize_with(case, capacity),
    }
}

fn resize_with<T: Numbered, G: Growth>(
    case: &mut Case<T, G>,
    len: usize,
) -> Result<(), ThinVecError> {
    let (ledger, token) = (case.ledger, case.token());
    case.list.resize_with(len, move || {
        let _token = &token;
        T::numbered(ledger, 7)
    })
}

fn made<T: Numbered>(ledger: &'static Ledger, capacity: usize) -> Result<(), ThinVecError> {
    let _list: List<T, Doubling> = ThinVec::with_capacity(&ledger.alloc, capacity)?;
    Ok(())
}
