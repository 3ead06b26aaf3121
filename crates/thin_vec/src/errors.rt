//! The errors of calls that take an argument by value. Each error holds what the call did not use,
//! and the caller owns it again.
ghost use Rattle.std.specs.Prelude.{◌≡◌};
ghost use Rattle.std.specs.IoError.{error_kind};
ghost use Rattle.std.specs.declared.io.ErrorKind.TheVariants as Kind;

use crate::list::ThinVec;
use std::alloc::{AllocError, Allocator, Global};
use std::io::ErrorKind;
use std::{fmt, io};
use thin_block::ThinVecError;
use thiserror::Error;

/// The error of a call, such as `push`, that takes one argument by value.
#[derive(Drop, Error)]
#[error("{cause}")]
pub struct Rejected<S> {
    /// The argument of the failed call, unchanged.
    pub value: S,
    /// Why the call failed.
    pub cause: ThinVecError,
}

/// The error of `extend`.
#[derive(Drop, Error)]
#[error("{cause}")]
pub struct ExtendRefused<T, I> {
    /// Why the call failed.
    pub cause: ThinVecError,
    /// The item that the list had no room for. If it is `None`, the call took nothing from the
    /// iterator: it could not reserve room (tests show: for the lower bound of the size hint).
    pub in_hand: Option<T>,
    /// The iterator, which yields the items that were not taken.
    pub rest: I,
}

/// The error of `from_iter`.
#[derive(Drop, Error)]
#[error("{cause}")]
pub struct CollectRefused<T, I, A: Allocator = Global> {
    /// The list of the items that were appended before the failure. It owns the allocator that was
    /// passed to `from_iter`.
    pub list: ThinVec<T, A>,
    /// Why the call failed.
    pub cause: ThinVecError,
    /// As in `ExtendRefused`.
    pub in_hand: Option<T>,
    /// As in `ExtendRefused`.
    pub rest: I,
}

/// The error of `Splice::finish`.
#[derive(Drop, Error)]
#[error("{cause}")]
pub struct SpliceRefused<T, I, A: Allocator = Global> {
    /// Why the call failed.
    pub cause: ThinVecError,
    /// The items that were collected from the iterator, but not moved into the list. The vector
    /// uses the allocator that was passed to `finish`; this is tested, since no contract of `Vec`
    /// names the allocator.
    pub held: Vec<T, A>,
    /// The item that the iterator yielded after the items in `held`, if there was no room for this
    /// item. If it is `None`, the list had no room for the items in `held` or, if there are none,
    /// for some more (tests show: for the lower bound of the size hint).
    pub in_hand: Option<T>,
    /// The iterator, which yields the items that were not taken. If `held` contains items and
    /// `in_hand` is `None`, the iterator has ended, and `next` must not be called on it.
    pub rest: I,
}

// The conversions drop what the error holds.
impl<S: Drop> From<Rejected<S>> for ThinVecError {
    ghost from_gives = { λ refused cause. cause ≡ refused.cause };

    fn from(refused: Rejected<S>) -> ThinVecError {
        refused.cause
    }
}

impl<T: Drop, I: Drop> From<ExtendRefused<T, I>> for ThinVecError {
    ghost from_gives = { λ refused cause. cause ≡ refused.cause };

    fn from(refused: ExtendRefused<T, I>) -> ThinVecError {
        refused.cause
    }
}

impl<T: Drop, I: Drop, A: Allocator> From<CollectRefused<T, I, A>> for ThinVecError {
    ghost from_gives = { λ refused cause. cause ≡ refused.cause };

    fn from(refused: CollectRefused<T, I, A>) -> ThinVecError {
        refused.cause
    }
}

impl<T: Drop, I: Drop, A: Allocator> From<SpliceRefused<T, I, A>> for ThinVecError {
    ghost from_gives = { λ refused cause. cause ≡ refused.cause };

    fn from(refused: SpliceRefused<T, I, A>) -> ThinVecError {
        refused.cause
    }
}

// `AllocError` has no field for the cause.
impl<S: Drop> From<Rejected<S>> for AllocError {
    fn from(_refused: Rejected<S>) -> AllocError {
        AllocError
    }
}

impl<T: Drop, I: Drop> From<ExtendRefused<T, I>> for AllocError {
    fn from(_refused: ExtendRefused<T, I>) -> AllocError {
        AllocError
    }
}

impl<T: Drop, I: Drop, A: Allocator> From<CollectRefused<T, I, A>> for AllocError {
    fn from(_refused: CollectRefused<T, I, A>) -> AllocError {
        AllocError
    }
}

impl<T: Drop, I: Drop, A: Allocator> From<SpliceRefused<T, I, A>> for AllocError {
    fn from(_refused: SpliceRefused<T, I, A>) -> AllocError {
        AllocError
    }
}

// std has no `ErrorKind` for a capacity overflow.
impl<S: Drop> From<Rejected<S>> for io::Error {
    ghost from_gives = { λ _ error. error_kind error ≡ Kind.OutOfMemory };

    fn from(_refused: Rejected<S>) -> io::Error {
        io::Error::from(ErrorKind::OutOfMemory)
    }
}

impl<T: Drop, I: Drop> From<ExtendRefused<T, I>> for io::Error {
    ghost from_gives = { λ _ error. error_kind error ≡ Kind.OutOfMemory };

    fn from(_refused: ExtendRefused<T, I>) -> io::Error {
        io::Error::from(ErrorKind::OutOfMemory)
    }
}

impl<T: Drop, I: Drop, A: Allocator> From<CollectRefused<T, I, A>> for io::Error {
    ghost from_gives = { λ _ error. error_kind error ≡ Kind.OutOfMemory };

    fn from(_refused: CollectRefused<T, I, A>) -> io::Error {
        io::Error::from(ErrorKind::OutOfMemory)
    }
}

impl<T: Drop, I: Drop, A: Allocator> From<SpliceRefused<T, I, A>> for io::Error {
    ghost from_gives = { λ _ error. error_kind error ≡ Kind.OutOfMemory };

    fn from(_refused: SpliceRefused<T, I, A>) -> io::Error {
        io::Error::from(ErrorKind::OutOfMemory)
    }
}

// `Debug` prints only the cause, so that the types of the other fields need not implement it.
impl<S> fmt::Debug for Rejected<S> {
    fn fmt<W: fmt::Write>(&self, f: &mut fmt::Formatter<W>) -> fmt::Result {
        f.debug_struct("Rejected")
            .field("cause", &self.cause)
            .finish_non_exhaustive()
    }
}

impl<T, I> fmt::Debug for ExtendRefused<T, I> {
    fn fmt<W: fmt::Write>(&self, f: &mut fmt::Formatter<W>) -> fmt::Result {
        f.debug_struct("ExtendRefused")
            .field("cause", &self.cause)
            .finish_non_exhaustive()
    }
}

impl<T, I, A: Allocator> fmt::Debug for CollectRefused<T, I, A> {
    fn fmt<W: fmt::Write>(&self, f: &mut fmt::Formatter<W>) -> fmt::Result {
        f.debug_struct("CollectRefused")
            .field("cause", &self.cause)
            .finish_non_exhaustive()
    }
}

impl<T, I, A: Allocator> fmt::Debug for SpliceRefused<T, I, A> {
    fn fmt<W: fmt::Write>(&self, f: &mut fmt::Formatter<W>) -> fmt::Result {
        f.debug_struct("SpliceRefused")
            .field("cause", &self.cause)
            .finish_non_exhaustive()
    }
}
