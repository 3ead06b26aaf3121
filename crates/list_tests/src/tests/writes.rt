//! Tests of a list of bytes to which `write`, `write_all`, `write_vectored` or `write!` appends.
use crate::check;
use crate::checks::leaked_refusing;
use std::alloc::Global;
use std::io::{ErrorKind, IoSlice, Write};
use std::process::Abort;
use thin_vec::ThinVec;

// Asserts that `write_all` and `write` fail if the memory is refused, and leave the list.
fn assert_write_refused(rt: &impl Abort, alloc: Global, bytes: &[u8]) {
    let refusing = leaked_refusing(rt, alloc, 0);
    let mut list = check!(rt; list_of(refusing, bytes));
    refusing.refuse(1);
    let error = check!(rt; list.write_all(&[7, 8]).err());
    check!(rt; same(error.kind(), ErrorKind::OutOfMemory));
    refusing.refuse(1);
    let error = check!(rt; list.write(&[7, 8]).err());
    check!(rt; same(error.kind(), ErrorKind::OutOfMemory));
    check!(rt; same((list.as_slice(), list.capacity()), (bytes, bytes.len())));
}

// Asserts that `write_vectored` and `write!` fail in the same way.
fn assert_other_writes_refused(rt: &impl Abort, alloc: Global, bytes: &[u8]) {
    let refusing = leaked_refusing(rt, alloc, 0);
    let mut list = check!(rt; list_of(refusing, bytes));
    refusing.refuse(1);
    let slices = [IoSlice::new(&[7]), IoSlice::new(&[8])];
    let error = check!(rt; list.write_vectored(&slices).err());
    check!(rt; same(error.kind(), ErrorKind::OutOfMemory));
    refusing.refuse(1);
    let error = check!(rt; write!(list, "{}", 78).err());
    check!(rt; same(error.kind(), ErrorKind::OutOfMemory));
    check!(rt; same((list.as_slice(), list.capacity()), (bytes, bytes.len())));
}

#[test]
fn write_fails_with_the_kind_out_of_memory(rt: HostRuntime) {
    assert_write_refused(&rt, rt.alloc(), &[]);
    assert_write_refused(&rt, rt.alloc(), &[1, 2]);
    assert_other_writes_refused(&rt, rt.alloc(), &[]);
    assert_other_writes_refused(&rt, rt.alloc(), &[1, 2]);
}

#[test]
fn write_macro_and_write_vectored_append_their_bytes(rt: HostRuntime) {
    let mut list: ThinVec<u8> = ThinVec::new(rt.alloc());
    check!(rt; write!(list, "{}-{:?}", 7, "x"));
    let slices = [IoSlice::new(b"ab"), IoSlice::new(b""), IoSlice::new(b"cd")];
    let written = check!(rt; list.write_vectored(&slices));
    check!(rt; same(written, 4));
    check!(rt; same(list.as_slice() == b"7-\"x\"abcd".as_slice(), true));
    let written = check!(rt; list.write(&[7; 20_000]));
    check!(rt; same((written, list.len()), (20_000, 20_009)));
}
