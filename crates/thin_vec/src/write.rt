//! The implementation of std's trait `Write` for lists of bytes.
ghost use Rattle.std.specs.Prelude.{◌≡◌, ◌++◌, IfErr, IfOk, IsErr, IsOk, None, OnErr, OnOk, Some, length};
ghost use Rattle.std.specs.Borrow.{u8};
ghost use Rattle.std.specs.IoError.{error_kind};
ghost use Rattle.thin_vec.specs.List.Capacity.{CostsMoves, PreservesList};

use crate::list::ThinVec;
use std::alloc::Allocator;
use std::io;
use std::io::{ErrorKind, Write};
use thin_block::Growth;

impl<A: Allocator, G: Growth> Write for ThinVec<u8, A, G> {
    ghost use Rattle.thin_vec.specs.ThinVec.{HasRoomFor, capacity_after_reserve};

    ghost contents = { λ list. Some list.items };

    /// Appends all bytes of `buf`, and returns their number.
    ///
    /// # Errors
    ///
    /// Fails as `reserve` does, always with the kind `OutOfMemory`.
    fn write(&mut self, buf: &[u8]) -> io::Result<usize>
        // On success.
        ensures value { IfOk result (λ count. count ≡ length buf.now) }
        ensures items { OnOk result (self.new.items ≡ self.old.items ++ buf.now) }
        ensures capacity { OnOk result
            (capacity_after_reserve G.rule u8 self.old (length buf.now) ≡ Some self.new.capacity) }
        ensures cost { OnOk result (CostsMoves (length buf.now) self.old self.new) }

        // When it must succeed. In every other case it may fail.
        ensures succeeds { HasRoomFor self.old (length buf.now) → IsOk result }

        // On failure.
        ensures overflow { capacity_after_reserve G.rule u8 self.old (length buf.now) ≡ None
            → IsErr result }
        ensures cause { IfErr result (λ error. error_kind error ≡ ErrorKind.OutOfMemory) }
        ensures err { OnErr result (self.new ≡ self.old) }

        // In every case.
        ensures had_room { HasRoomFor self.old (length buf.now)
            → self.new.capacity ≡ self.old.capacity }
        ensures preserved { PreservesList u8 self.old self.new }
    {
        self.write_all(buf)?;
        Ok(buf.len())
    }

    fn write_all(&mut self, buf: &[u8]) -> io::Result<()>
        // On success.
        ensures items { OnOk result (self.new.items ≡ self.old.items ++ buf.now) }
        ensures capacity { OnOk result
            (capacity_after_reserve G.rule u8 self.old (length buf.now) ≡ Some self.new.capacity) }
        ensures cost { OnOk result (CostsMoves (length buf.now) self.old self.new) }

        // When it must succeed. In every other case it may fail.
        ensures succeeds { HasRoomFor self.old (length buf.now) → IsOk result }

        // On failure.
        ensures overflow { capacity_after_reserve G.rule u8 self.old (length buf.now) ≡ None
            → IsErr result }
        ensures cause { IfErr result (λ error. error_kind error ≡ ErrorKind.OutOfMemory) }
        ensures err { OnErr result (self.new ≡ self.old) }

        // In every case.
        ensures had_room { HasRoomFor self.old (length buf.now)
            → self.new.capacity ≡ self.old.capacity }
        ensures preserved { PreservesList u8 self.old self.new }
    {
        match self.reserve(buf.len()) {
            Ok(()) => (),
            Err(_refused) => return Err(io::Error::from(ErrorKind::OutOfMemory)),
        }
        self.extend_from_copies_reserved(buf);
        Ok(())
    }

    fn flush(&mut self) -> io::Result<()>
        ensures succeeds { IsOk result }
        ensures changes { self.new ≡ self.old }
    {
        Ok(())
    }
}
