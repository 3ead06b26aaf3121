//! Makes lists for tests.
ghost use Rattle.std.specs.Prelude.{◌≡◌, IfOk, length};

use std::alloc::{Allocator, Global};
use thin_testing::{Counted, Ledger};
use thin_vec::{ThinVec, ThinVecError};

/// Returns a list of `items` without spare capacity.
pub fn list_of<T: Copy + Drop, A: Allocator>(
    alloc: A,
    items: &[T],
) -> Result<ThinVec<T, A>, ThinVecError>
    ensures len { IfOk result (λ list. length list.items ≡ length items.now) }
{
    ThinVec::from_copies(alloc, items)
}

/// Returns a list of `len` items that the ledger counts. Their numbers count from 0.
pub fn counted_list<'a>(
    ledger: &'a Ledger,
    alloc: Global,
    len: u64,
) -> Result<ThinVec<Counted<'a>>, ThinVecError> {
    let mut list = ThinVec::new(alloc);
    for number in 0..len {
        list.push(Counted::new(ledger, number, ()))?;
    }
    Ok(list)
}
