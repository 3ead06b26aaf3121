//! A test of lists over the allocator of the program, whose blocks no test can count. It frees more
//! memory than a process can have at once, so it sees a call that frees no block.
ghost use Rattle.std.specs.Mem.{type_size};
ghost use Rattle.std.specs.Prelude.{◌*◌, ◌<◌, ◌^◌};

use crate::check;
use crate::checks::leaked_ledger;
use std::alloc::Global;
use std::io;
use std::process::Abort;
use thin_testing::{Ledger, Numbered};
use thin_vec::ThinVec;

// The size of each block in bytes, 8 GiB, of which little is written. A process can have 2^47
// bytes.
const LARGE: usize = 1 << 33;

// How often a block is made and freed.
const ROUNDS: u32 = 17_500;

// Makes a list with a large block and `len` items, and ends it by one of several calls.
fn make_and_end<T: Numbered>(
    ledger: &'static Ledger,
    alloc: Global,
    way: u32,
    len: usize,
) -> io::Result<()>
    requires small { 1 * type_size T.row < 2 ^ 63 }
{
    let capacity = LARGE.checked_div(T::size()).unwrap_or(0);
    let mut list: ThinVec<T> = ThinVec::with_capacity(alloc, capacity)?;
    list.resize(len, T::numbered(ledger, 7))?;
    match way {
        0 => drop(list),
        1 => drop(list.into_iter()),
        2 => {
            let mut rest = list.into_iter();
            drop(rest.next());
            drop(rest.next_back());
        }
        3 => list.shrink_to_fit()?,
        4 => list.reserve_exact(capacity.saturating_add(1))?,
        5 => drop(list.into_array::<1>().is_ok()),
        6 => drop(list.into_vec(alloc)?),
        7 => drop(list.into_boxed_slice(alloc)?),
        _ => drop(ThinVec::from_vec(alloc, Vec::<T>::with_capacity(alloc, capacity)?)?),
    }
    Ok(())
}

// Makes many lists and ends them by each of the calls.
fn assert_freed<T: Numbered>(rt: &impl Abort, ledger: &'static Ledger, alloc: Global, len: usize)
    requires small { 1 * type_size T.row < 2 ^ 63 }
{
    for way in 0..9 {
        let mut made: u32 = 0;
        for _ in 0..ROUNDS {
            if make_and_end::<T>(ledger, alloc, way, len).is_ok() {
                made = made.saturating_add(1);
            }
        }
        check!(rt; same((T::size(), way, len, made), (T::size(), way, len, ROUNDS)));
    }
}

#[test]
fn blocks_of_the_program_are_freed(rt: HostRuntime) {
    let ledger = leaked_ledger(&rt, rt.alloc());
    assert_freed::<u8>(&rt, ledger, rt.alloc(), 1);
    assert_freed::<[u64; 3]>(&rt, ledger, rt.alloc(), 1);
}
