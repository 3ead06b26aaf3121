//! Checks of what values are printed as.
use crate::checks::{Different, same};
use std::alloc::{AllocError, Global};
use std::fmt::{self, Debug, Write};

/// Why a value is not printed as it should be.
#[derive(Debug, Drop)]
pub enum Misprinted {
    /// There is no memory for a text.
    Memory(AllocError),
    /// A text is another one.
    Text(Different<String>),
    /// Of a write that fails: whether printing fails, and after how many writes.
    End(Different<(bool, usize)>),
}

impl From<AllocError> for Misprinted {
    fn from(error: AllocError) -> Misprinted {
        Misprinted::Memory(error)
    }
}

impl From<Different<String>> for Misprinted {
    fn from(texts: Different<String>) -> Misprinted {
        Misprinted::Text(texts)
    }
}

impl From<Different<(bool, usize)>> for Misprinted {
    fn from(ends: Different<(bool, usize)>) -> Misprinted {
        Misprinted::End(ends)
    }
}

/// Returns an error unless `{:?}`, `{:#?}` and `{:04?}` print the value as the three texts.
pub fn prints<D: Debug>(alloc: Global, value: &D, texts: [&str; 3]) -> Result<(), Misprinted> {
    let line = format!(in alloc; "{value:?}")?;
    same(line, format!(in alloc; "{}", texts[0])?)?;
    let lines = format!(in alloc; "{value:#?}")?;
    same(lines, format!(in alloc; "{}", texts[1])?)?;
    let wide = format!(in alloc; "{value:04?}")?;
    same(wide, format!(in alloc; "{}", texts[2])?)?;
    Ok(())
}

// Returns what the value is printed as with each option of `{:?}`.
fn texts_of<D: Debug>(alloc: Global, value: &D) -> Result<String, AllocError> {
    let mut texts = format!(in alloc; "{value:?} {value:#?} {value:+?} {value:04?} {value:.3?}")?;
    let more = format!(in alloc;
        "{value:+8.2?} {value:<5?} {value:*^5?} {value:#06?} {value:#.2?} {value:+#?}"
    )?;
    texts.push_str(more.as_str())?;
    Ok(texts)
}

// A writer whose call number `failing` fails, and no other. The calls are numbered from 1.
#[derive(Drop)]
struct Failing {
    calls: usize,
    failing: usize,
}

impl Write for Failing {
    fn write_str(&mut self, _text: &str) -> fmt::Result {
        self.calls = self.calls.saturating_add(1);
        if self.calls == self.failing {
            return Err(fmt::Error);
        }
        Ok(())
    }
}

// Prints the value, on several lines if `is_long` is true, to a writer whose call number `failing`
// fails. Returns whether printing failed, and the number of calls.
fn print_to_failing<D: Debug>(value: &D, is_long: bool, failing: usize) -> (bool, usize) {
    let mut out = Failing { calls: 0, failing };
    let failed = if is_long {
        write!(out, "{value:#?}").is_err()
    } else {
        write!(out, "{value:?}").is_err()
    };
    (failed, out.calls)
}

/// Returns an error unless the value is printed as `like`, with each option of `{:?}`, and printing
/// ends with an error at a write that fails, whichever write it is. (Of many writes, those in the
/// middle are left out.)
pub fn prints_as<D: Debug, L: Debug>(alloc: Global, value: &D, like: &L) -> Result<(), Misprinted> {
    same(texts_of(alloc, value)?, texts_of(alloc, like)?)?;
    for is_long in [false, true] {
        let (failed, calls) = print_to_failing(value, is_long, 0);
        same((failed, calls), (false, calls))?;
        for failing in 1..=calls {
            if failing < 60 || calls.saturating_sub(failing) < 10 {
                same(print_to_failing(value, is_long, failing), (true, failing))?;
            }
        }
    }
    Ok(())
}
