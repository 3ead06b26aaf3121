//! Defines the types `Command`, for a call to a method of a list, and `Reply`, for its result.
ghost use Rattle.std.specs.Prelude.{◌≡◌};

use crate::hinted::Hinted;
use std::alloc::{Allocator, Global};
use thin_vec::{Doubling, Growth, ThinVec, ThinVecError};

/// A call that takes the next item of the range of a `Drain` or a `Splice`.
#[derive(Debug, Clone, Copy, PartialEq, Eq)]
pub enum Step {
    /// Calls `next`.
    Front,
    /// Calls `next_back`.
    Back,
}

/// A value that describes a call to a method of a list.
///
/// The comment of each variant names the method that is called. The reply is `Done`, or `Refused`
/// on failure, unless the comment names another one. If the index or the range of a command is out
/// of bounds, no method is called, and the reply is `OutOfRange`.
///
/// The first two numbers of `Drain`, `ExtractIf` and `Splice` are the start and the exclusive end
/// of the range. The reply is `Refused` if there is not enough memory for the results of the steps.
#[derive(Drop)]
pub enum Command<T, A: Allocator = Global, G: Growth = Doubling> {
    /// Calls `push`. On failure, the reply is `Returned`.
    Push(T),
    /// Calls `pop`. The reply is `Item`.
    Pop,
    /// Calls `insert`. On failure, the reply is `Returned`.
    Insert(usize, T),
    /// Calls `remove`. The reply is `Item`.
    Remove(usize),
    /// Calls `swap_remove`. The reply is `Item`.
    SwapRemove(usize),
    /// Replaces the item at the index with the value, using `IndexMut`. The reply is `Item`, with
    /// the old item.
    Set(usize, T),
    /// Calls `truncate`.
    Truncate(usize),
    /// Calls `clear`.
    Clear,
    /// Calls `reserve`.
    Reserve(usize),
    /// Calls `reserve_exact`.
    ReserveExact(usize),
    /// Calls `shrink_to_fit`.
    ShrinkToFit,
    /// Calls `resize`.
    Resize(usize, T),
    /// Calls `extend_from_slice`.
    ExtendFromSlice(Vec<T, A>),
    /// Calls `extend` with an iterator over the items of the vector. The number is the lower bound
    /// of the size hint of this iterator. On failure, the reply is `Stopped`.
    Extend(Vec<T, A>, usize),
    /// Calls `append`. The reply is `Other`, also on failure.
    Append(ThinVec<T, A, G>),
    /// Calls `split_off`. On success, the reply is `List`.
    SplitOff(usize),
    /// Calls `clone`. On success, the reply is `List`.
    Clone,
    /// Calls `retain` with a closure that calls the method `look` of the judge.
    Retain,
    /// Calls `retain_mut` with a closure that calls the method `keep` of the judge.
    RetainMut,
    /// Calls `dedup`.
    Dedup,
    /// Calls `dedup_by` with a closure that calls the method `same` of the judge.
    DedupBy,
    /// Calls `dedup_by_key` with a closure that calls the method `key` of the judge.
    DedupByKey,
    /// Calls `drain`, carries out the steps in order, and drops the `Drain`. On success, the reply
    /// is `Answers`.
    Drain(usize, usize, Vec<Step, A>),
    /// Calls `extract_if` with a closure that calls the method `take` of the judge. The third
    /// number says how many times `next` is called before the `ExtractIf` is dropped. On success,
    /// the reply is `Answers`.
    ExtractIf(usize, usize, usize),
    /// Calls `splice` with an iterator over the items of the second vector, carries out the steps
    /// in order, and calls `finish`. The last number is the lower bound of the size hint of this
    /// iterator. On success, the reply is `Answers`, and if `finish` fails, it is `Stopped`.
    Splice(usize, usize, Vec<Step, A>, Vec<T, A>, usize),
}

/// The reply to a command. It owns the values that the call returned.
#[derive(Drop)]
pub enum Reply<T, A: Allocator = Global, G: Growth = Doubling> {
    /// The call succeeded, and it returned no value.
    Done,
    /// The item that the call removed or replaced, or `None` if there was no such item.
    Item(Option<T>),
    /// The results of the calls to `next` and `next_back`, in order.
    Answers(Vec<Option<T>, A>),
    /// The list that the call made.
    List(ThinVec<T, A, G>),
    /// The list that was passed to `append`, and the cause of the failure if `append` failed.
    Other(ThinVec<T, A, G>, Option<ThinVecError>),
    /// The value that was passed to the failed call, and the cause of the failure.
    Returned(T, ThinVecError),
    /// The cause of the failure.
    Refused(ThinVecError),
    /// A call to `extend`, or to `finish` on a `Splice`, failed.
    Stopped {
        /// The results of the steps. An `Extend` has no steps.
        answers: Vec<Option<T>, A>,
        /// The cause of the failure.
        cause: ThinVecError,
        /// The items that were taken from the iterator and not inserted, except the item in
        /// `in_hand`.
        held: Vec<T, A>,
        /// The last item that was taken from the iterator, if there was no room for it.
        in_hand: Option<T>,
        /// The rest of the iterator.
        rest: Hinted<T, A>,
    },
    /// The command itself, if its index or range is out of bounds.
    OutOfRange(Command<T, A, G>),
}

impl<T, A: Allocator, G: Growth> Reply<T, A, G> {
    ghost use Rattle.thin_runner.specs.Replies.{refusal_of};

    /// Returns the cause of the failure, or `None` if no call failed.
    pub fn refusal(&self) -> Option<ThinVecError>
        ensures value { result ≡ refusal_of self.now }
    {
        match self {
            Reply::Returned(_, cause) | Reply::Refused(cause) => Some(*cause),
            Reply::Other(_, refused) => *refused,
            Reply::Stopped { cause, .. } => Some(*cause),
            _ => None,
        }
    }
}
