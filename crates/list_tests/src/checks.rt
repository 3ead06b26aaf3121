//! Checks of values, of lists and of an allocator. A check returns what is wrong, so that it can be
//! seen failing. The macro `check!` stops the test with it.
ghost use Rattle.std.specs.Prelude.{◌≡◌, IfOk, length};

use crate::lists::list_of;
use std::alloc::{Allocator, Global};
use std::fmt::{self, Debug, Display, Formatter, Write};
use std::process::Abort;
use thin_testing::{Ledger, Refusing};
use thin_vec::{Growth, ThinVec};

/// What a check found, and what it wanted.
#[derive(Debug, Drop)]
pub struct Different<T> {
    pub found: T,
    pub wanted: T,
}

/// Returns an error unless the two values are equal.
pub fn same<T: PartialEq + Drop>(found: T, wanted: T) -> Result<(), Different<T>> {
    if found == wanted {
        return Ok(());
    }
    Err(Different { found, wanted })
}

/// Returns an error unless the two slices have equal items.
pub fn same_items<'a, T: PartialEq>(
    found: &'a [T],
    wanted: &'a [T],
) -> Result<(), Different<&'a [T]>> {
    same(found, wanted)
}

/// Returns an error unless the list has `len` items. The prover knows the length afterwards, and so
/// which ranges are within the list.
pub fn has_len<T, A: Allocator, G: Growth>(
    list: &ThinVec<T, A, G>,
    len: usize,
) -> Result<(), Different<usize>>
    ensures len { IfOk result (λ _. length list.now.items ≡ len) }
{
    let found = list.len();
    if found == len {
        return Ok(());
    }
    Err(Different { found, wanted: len })
}

/// Returns an error unless the list has the given items and the given capacity.
pub fn holds<'a, A: Allocator, G: Growth>(
    list: &'a ThinVec<i32, A, G>,
    items: &'a [i32],
    capacity: usize,
) -> Result<(), Different<(&'a [i32], usize)>>
    ensures len { IfOk result (λ _. length list.now.items ≡ length items.now) }
{
    let found = (list.as_slice(), list.capacity());
    if list.len() == items.len() && found == (items, capacity) {
        return Ok(());
    }
    let wanted = (items, capacity);
    Err(Different { found, wanted })
}

/// Returns an error unless the allocator has counted `requests` requests, and `blocks` blocks are
/// allocated.
pub fn counts(
    refusing: &Refusing<Global>,
    requests: u64,
    blocks: u64,
) -> Result<(), Different<(u64, u64)>> {
    same((refusing.requests(), refusing.blocks()), (requests, blocks))
}

// The number of bytes of a message. What is longer is cut off.
const MESSAGE: usize = 500;

// The message with which a failed check stops the test. It has one type for all values, since LLVM
// compiles the printing of a message anew for each type. Each byte of a text that is not ASCII is
// printed as a character of its own.
#[derive(Drop)]
struct Message {
    bytes: [u8; MESSAGE],
    len: usize,
}

impl Write for Message {
    fn write_str(&mut self, text: &str) -> fmt::Result {
        for byte in text.as_bytes() {
            if self.len < MESSAGE {
                self.bytes[self.len] = *byte;
                self.len = self.len.saturating_add(1);
            }
        }
        Ok(())
    }
}

impl Display for Message {
    fn fmt<W: Write>(&self, f: &mut Formatter<W>) -> fmt::Result {
        for byte in &self.bytes {
            if *byte != 0 {
                f.write_char(char::from(*byte))?;
            }
        }
        Ok(())
    }
}

// Stops the test. The message has what was found, and what was wanted.
#[inline(never)]
fn stop<T: Debug>(rt: &impl Abort, found: &T, wanted: &T) -> ! {
    let mut message = Message {
        bytes: [0; MESSAGE],
        len: 0,
    };
    let _ = write!(message, "found {found:?}, wanted {wanted:?}");
    panic!(rt; "{message}")
}

/// Asserts that the two values are equal.
pub fn assert_same<T: PartialEq + Debug + Drop>(rt: &impl Abort, found: T, wanted: T) {
    if let Err(Different { found, wanted }) = same(found, wanted) {
        stop(rt, &found, &wanted)
    }
}

/// Asserts that the two slices have equal items.
pub fn assert_same_items<T: PartialEq + Debug>(rt: &impl Abort, found: &[T], wanted: &[T]) {
    if let Err(Different { found, wanted }) = same_items(found, wanted) {
        stop(rt, &found, &wanted)
    }
}

/// Asserts that the allocator has counted `requests` requests, and that `blocks` blocks are
/// allocated.
pub fn assert_counts(rt: &impl Abort, refusing: &Refusing<Global>, requests: u64, blocks: u64) {
    if let Err(Different { found, wanted }) = counts(refusing, requests, blocks) {
        stop(rt, &found, &wanted)
    }
}

/// Asserts that the list has the given items and the given capacity. The prover knows the length
/// afterwards.
pub fn assert_holds<A: Allocator, G: Growth>(
    rt: &impl Abort,
    list: &ThinVec<i32, A, G>,
    items: &[i32],
    capacity: usize,
)
    ensures len { length list.now.items ≡ length items.now }
{
    if let Err(Different { found, wanted }) = holds(list, items, capacity) {
        stop(rt, &found, &wanted)
    }
}

/// Asserts that the list has `len` items. The prover knows the length afterwards.
pub fn assert_len<T, A: Allocator, G: Growth>(rt: &impl Abort, list: &ThinVec<T, A, G>, len: usize)
    ensures len { length list.now.items ≡ len }
{
    if let Err(Different { found, wanted }) = has_len(list, len) {
        stop(rt, &found, &wanted)
    }
}

/// Returns a list of `items` without spare capacity.
pub fn made_list<T: Copy + Drop, A: Allocator>(
    rt: &impl Abort,
    alloc: A,
    items: &[T],
) -> ThinVec<T, A>
    ensures len { length result.items ≡ length items.now }
{
    list_of(alloc, items).expect(rt, "a list for the test")
}

/// Returns a reference to an allocator that refuses request number `refused`, and that is never
/// freed.
pub fn leaked_refusing(rt: &impl Abort, inner: Global, refused: u64) -> &'static Refusing<Global> {
    Refusing::leaked(inner, refused).expect(rt, "an allocator for the test")
}

/// Returns a reference to a ledger that is never freed.
pub fn leaked_ledger(rt: &impl Abort, alloc: Global) -> &'static Ledger {
    Ledger::leaked(alloc).expect(rt, "a ledger for the test")
}

/// Gives the value of a `Result` or an `Option`, and stops the test if there is none. The message
/// has the expression and the error. A `?` prints the error alone, and takes longer to prove.
///
/// The most frequent checks are calls of functions, whose messages have what was found and what was
/// wanted. They take less than a third of the time to prove, also because no text is passed.
#[macro_export]
macro_rules! check {
    ($rt:expr; same($found:expr, $wanted:expr)) => {
        crate::checks::assert_same(&$rt, $found, $wanted)
    };
    ($rt:expr; same_items($found:expr, $wanted:expr)) => {
        crate::checks::assert_same_items(&$rt, $found, $wanted)
    };
    ($rt:expr; counts($refusing:expr, $requests:expr, $blocks:expr)) => {
        crate::checks::assert_counts(&$rt, $refusing, $requests, $blocks)
    };
    ($rt:expr; holds($list:expr, $items:expr, $capacity:expr)) => {
        crate::checks::assert_holds(&$rt, $list, $items, $capacity)
    };
    ($rt:expr; has_len($list:expr, $len:expr)) => {
        crate::checks::assert_len(&$rt, $list, $len)
    };
    ($rt:expr; list_of($alloc:expr, $items:expr)) => {
        crate::checks::made_list(&$rt, $alloc, $items)
    };
    ($rt:expr; $checked:expr) => {
        $checked.expect(&$rt, stringify!($checked))
    };
}
