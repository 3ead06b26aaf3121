//! Calls of lists of bytes.
use crate::asserts::assert_same;
use crate::sweep::Calls;
use std::io::{Error, ErrorKind, Write};
use std::process::Abort;
use thin_testing::{Answer, Case, Due};
use thin_vec::{Doubling, Growth, ThinVec, ThinVecError};

/// Calls of lists of bytes.
pub struct Bytes {}

impl<G: Growth> Calls<u8, G> for Bytes {
    const ARGUMENTS: usize = 8;

    fn call<R: Abort>(rt: &R, case: &mut Case<u8, G>, call: usize) -> Option<Answer> {
        Some(match call {
            0 => write(rt, case),
            1 => write_all(rt, case),
            2 => from_str(rt, case),
            _ => return None,
        })
    }
}

fn write<G: Growth, R: Abort>(rt: &R, case: &mut Case<u8, G>) -> Answer {
    let bytes = case.items(case.count())?;
    case.begin("write");
    match case.list.write(bytes.as_slice()) {
        Ok(written) => {
            assert_same(rt, case.at, "written", written, bytes.len());
            Ok(Due::NOTHING)
        }
        Err(error) => Err(cause(rt, case, &error)),
    }
}

fn write_all<G: Growth, R: Abort>(rt: &R, case: &mut Case<u8, G>) -> Answer {
    let bytes = case.items(case.count())?;
    case.begin("write_all, flush");
    match case.list.write_all(bytes.as_slice()) {
        Ok(()) => {
            let is_flushed = case.list.flush().is_ok();
            assert_same(rt, case.at, "flush", is_flushed, true);
            Ok(Due::NOTHING)
        }
        Err(error) => Err(cause(rt, case, &error)),
    }
}

// Asserts that the error of a failed write has the kind `OutOfMemory`.
fn cause<G: Growth, R: Abort>(rt: &R, case: &Case<u8, G>, error: &Error) -> ThinVecError {
    let is_memory = error.kind() == ErrorKind::OutOfMemory;
    assert_same(
        rt,
        case.at,
        "kind of the error is OutOfMemory",
        is_memory,
        true,
    );
    ThinVecError::OutOfMemory
}

// The text repeats one letter, which takes 1, 2, 3 or 4 bytes.
fn from_str<G: Growth, R: Abort>(rt: &R, case: &mut Case<u8, G>) -> Answer {
    let letter = ["ß", "s", "語", "𝄞"][case.at.argument / 2 % 4];
    let mut text = String::new(case.ledger.global);
    for _ in 0..case.count() {
        text.push_str(letter).expect(rt, "memory");
    }
    case.begin("from_str");
    let list: ThinVec<u8, _, Doubling> = ThinVec::from_str(&case.ledger.alloc, text.as_str())?;
    Ok(Due::block_of(list.len()))
}
