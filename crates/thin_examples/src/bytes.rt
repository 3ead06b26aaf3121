//! Examples of lists of bytes, to which text is written and input is copied.
ghost use Rattle.std.specs.Io.KnownBytes.{IsAtEnd};
ghost use Rattle.std.specs.Prelude.{◌≡◌, ◌++◌, IfSome, OnOk, codes, decimal};

use std::alloc::Allocator;
use std::io::{self, Read, Write};
use thin_vec::{Growth, ThinVec};

/// Appends `count=` and the digits of `count` to `text`.
///
/// # Errors
///
/// Fails if there is no room. A part of the text may have been appended then.
pub fn write_count<A: Allocator, G: Growth>(
    text: &mut ThinVec<u8, A, G>,
    count: u32,
) -> io::Result<()>
    ensures items { OnOk result
        (text.new.items ≡ text.old.items ++ (codes "count=" ++ decimal count)) }
{
    write!(text, "count={count}")
}

/// Appends all bytes that `reader` still has, and returns how many there were. If the reader is of
/// a type whose contract does not say which bytes it has, such as a file, the clauses say nothing.
///
/// # Errors
///
/// Fails if a read fails, or if there is no room. The bytes that were read before the failure may
/// have been appended then.
pub fn read_all<R: Read, A: Allocator, G: Growth>(
    reader: &mut R,
    list: &mut ThinVec<u8, A, G>,
) -> io::Result<u64>
    ensures items { OnOk result (IfSome (R.remaining reader.old)
        (λ bytes. list.new.items ≡ list.old.items ++ bytes)) }
    ensures end { OnOk result (IsAtEnd (R.remaining reader.new)) }
{
    io::copy(reader, list)
}
