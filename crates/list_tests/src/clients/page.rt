//! Defines `Page`, where the tests let a program write.
use std::io::{self, ErrorKind, Write};

/// A writer that appends the written bytes to `text`. The calls to `write` are numbered from 1, and
/// call number `failing` fails, with an error of a kind other than `Interrupted`, after which
/// `write_all` would try again. If `failing` is 0, no call fails.
#[derive(Drop)]
pub struct Page<'a> {
    pub text: &'a mut String,
    pub calls: usize,
    pub failing: usize,
}

impl Write for Page<'_> {
    fn write(&mut self, buf: &[u8]) -> io::Result<usize> {
        self.calls = self.calls.saturating_add(1);
        if self.calls == self.failing {
            return Err(io::Error::from(ErrorKind::BrokenPipe));
        }
        let text = std::str::from_utf8(buf).unwrap_or("?");
        match self.text.push_str(text) {
            Ok(()) => Ok(buf.len()),
            Err(_refused) => Err(io::Error::from(ErrorKind::OutOfMemory)),
        }
    }

    fn flush(&mut self) -> io::Result<()> {
        Ok(())
    }
}
