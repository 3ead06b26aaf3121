//! Tests of functions of std that make lists or write to one, with ample memory and with each
//! request refused in turn.
use crate::check;
use crate::checks::{leaked_ledger, leaked_refusing};
use std::alloc::AllocError;
use std::io::{self, ErrorKind, Write};
use std::mem;
use std::process::Abort;
use thin_testing::{Counted, Ledger, Lender};
use thin_vec::ThinVec;

// A list whose items and requests a ledger counts.
type Items = ThinVec<Counted<'static>, Lender>;

// Makes lists of ten items by one of three calls, which the number `way`, from 0 to 2, selects.
// Returns the lengths of the two lists, or the length and the capacity of the one list that
// `try_collect` makes.
fn lengths_by_way(way: u32, ledger: &'static Ledger) -> Result<(usize, usize), AllocError> {
    let items = (0..10).map(|number| Counted::new(ledger, number, ()));
    match way {
        0 => {
            let list: Items = items
                .map(|item| -> Result<_, AllocError> { Ok(item) })
                .try_collect(&ledger.alloc)?;
            Ok((list.len(), list.capacity()))
        }
        1 => {
            let (few, many): (Items, Items) = items.partition(
                &ledger.alloc,
                |item| item.number() < 3,
            )?;
            Ok((few.len(), many.len()))
        }
        _ => {
            let (firsts, seconds): (Items, Items) = items
                .map(|item| (item, Counted::new(ledger, 0, ())))
                .unzip(&ledger.alloc)?;
            Ok((firsts.len(), seconds.len()))
        }
    }
}

// Asserts that the call makes `requests` requests, fails if one of them is refused, and drops what
// it has taken.
fn assert_made(
    rt: &impl Abort,
    ledger: &'static Ledger,
    way: u32,
    lengths: (usize, usize),
    requests: u64,
) {
    for refused in 0..9 {
        ledger.begin(refused);
        let made = lengths_by_way(way, ledger).ok();
        let is_refused = refused > 0 && refused <= requests;
        let due = if is_refused { None } else { Some(lengths) };
        check!(rt; same((way, refused, made), (way, refused, due)));
        let made_requests = if is_refused { refused } else { requests };
        check!(rt; counts(&ledger.alloc, made_requests, 0));
        check!(rt; same(ledger.live.get(), 0));
    }
}

#[test]
fn try_collect_partition_and_unzip_fail_only_if_a_request_is_refused(rt: HostRuntime) {
    let ledger = leaked_ledger(&rt, rt.alloc());
    assert_made(&rt, ledger, 0, (10, 16), 3);
    assert_made(&rt, ledger, 1, (3, 7), 3);
    assert_made(&rt, ledger, 2, (10, 10), 6);
}

// What a list has after `write_by_way`. At first, it has two bytes.
const LINE: &[u8] = b"> one two three four five six\n";

const BYTES: [u8; 20_000] = [7; 20_000];

// Writes the rest of `BYTES` to the list by `copy`, or the rest of `LINE` by `writeln!`.
fn write_by_way(is_copy: bool, list: &mut ThinVec<u8, Lender>) -> io::Result<()> {
    if is_copy {
        io::copy(&mut [7; 19_998].as_slice(), list)?;
        return Ok(());
    }
    writeln!(list, "{} {}", "one two three", "four five six")
}

// Asserts that the call fails only if request number `refused` is made, and that the list then has
// the first bytes of `whole`, beginning with the two that it had.
fn assert_written(rt: &impl Abort, lender: Lender, is_copy: bool, whole: &[u8], refused: u64) {
    lender.refuse(0);
    let old: &[u8] = if is_copy { &[7, 7] } else { b"> " };
    let mut list = check!(rt; ThinVec::from_copies(lender, old));
    lender.refuse(refused);
    let error = write_by_way(is_copy, &mut list).err();
    let is_refused = refused > 0 && lender.requests() >= refused;
    let due = if is_refused {
        Some(ErrorKind::OutOfMemory)
    } else {
        None
    };
    check!(rt; same((refused, error.map(|error| error.kind())), (refused, due)));
    check!(rt; same(whole.starts_with(&list) && list.len() >= 2, true));
    check!(rt; same(list.len() == whole.len(), !is_refused));
}

#[test]
fn writeln_and_copy_append_their_bytes_or_the_first_of_them(rt: HostRuntime) {
    let lender = leaked_refusing(&rt, rt.alloc(), 0);
    for refused in 0..6 {
        assert_written(&rt, lender, false, LINE, refused);
        assert_written(&rt, lender, true, &BYTES, refused);
    }
}

#[test]
fn try_take_leaves_the_allocator(rt: HostRuntime) {
    let lender = leaked_refusing(&rt, rt.alloc(), 0);
    let mut list = check!(rt; list_of(lender, &[1, 2]));
    let taken = check!(rt; mem::try_take(&mut list));
    check!(rt; same_items(&taken, &[1, 2]));
    check!(rt; holds(&list, &[], 0));
    check!(rt; list.push(3));
    check!(rt; counts(lender, 2, 2));
}

#[test]
fn an_option_of_a_list_takes_16_bytes(rt: HostRuntime) {
    check!(rt; same(mem::size_of::<Option<ThinVec<u32>>>(), 16));
}
