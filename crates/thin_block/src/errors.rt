//! Defines the error type `ThinVecError`.
ghost use Rattle.std.specs.IoError.{error_kind};
ghost use Rattle.std.specs.Prelude.{◌≡◌};
ghost use Rattle.std.specs.declared.io.ErrorKind.TheVariants as Kind;
ghost use Rattle.thin_block.specs.declared.errors.ThinVecError.TheVariants.{OutOfMemory};

use std::alloc::AllocError;
use std::io;
use std::io::ErrorKind;
use thiserror::Error;

/// The reason why a call to a method of a list failed.
#[derive(Debug, Clone, Copy, PartialEq, Eq, Error)]
pub enum ThinVecError {
    /// The growth rule chooses no capacity, or an exact capacity is too large. No memory was
    /// requested for it.
    #[error("capacity overflow")]
    CapacityOverflow,
    /// The allocator failed, or an item could not be cloned.
    #[error("out of memory")]
    OutOfMemory,
}

impl From<AllocError> for ThinVecError {
    ghost from_gives = { λ _ e. e ≡ OutOfMemory };

    fn from(_refused: AllocError) -> ThinVecError {
        ThinVecError::OutOfMemory
    }
}

impl From<ThinVecError> for AllocError {
    // The cause is lost, because `AllocError` has no field for it.
    fn from(_cause: ThinVecError) -> AllocError {
        AllocError
    }
}

impl From<ThinVecError> for io::Error {
    ghost from_gives = { λ _ error. error_kind error ≡ Kind.OutOfMemory };

    // Both variants become `ErrorKind::OutOfMemory`, because std has no `ErrorKind` for a capacity
    // overflow.
    fn from(_cause: ThinVecError) -> io::Error {
        io::Error::from(ErrorKind::OutOfMemory)
    }
}
