//! Tests of what the contracts of `thin_vec` do not say: that a call succeeds if it gets the memory
//! that it needs, makes no other request and no other call, and drops and frees everything.
//!
//! A sweep makes each call of a group (`Calls`), for one item type and one growth rule, on lists of
//! many lengths and spare capacities, with several arguments. (`tests.rt` says which groups are
//! swept for which item types and rules.) It makes the call with enough memory, and then again with
//! one of its requests refused, each in turn (of many requests, some of those in the middle are
//! left out). A call that made no request is made again with all requests refused. Clones of
//! counted items are requests, too. After the call:
//!
//! - If no request was refused, the call succeeded, or its capacity overflowed before any request.
//!   If a request was refused, it failed with `OutOfMemory`, and made no further request.
//! - A call that succeeded made one request if the list has a new capacity above 0, those that the
//!   call announces (`Due`), and no other, and for no more bytes than these blocks take. It called
//!   closures, clones and comparisons as often as it announces.
//! - As many items exist as the list has, and one block, of the right size, if it has a capacity.
//! - Nothing is left once the list is dropped, and the drop made no request.
//!
//! A sweep compares few items, capacities and returned values, since most of them are proved. For
//! the calls that take an iterator, contracts leave the capacity open, so `filling` computes it,
//! with the requests, the calls of the iterator, the cause of a failure, and the items in the list,
//! in the error and in the rest of the iterator. Calls that no group has are for `list_tests`.
//!
//! To add a call, add an arm to the `match` of a file in `calls/`, before the calls that take fewer
//! arguments. An arm makes the arguments, calls `begin` with the name of the call, makes the call,
//! and returns a `Due`. To add an item type, implement `Numbered` (`thin_testing`), and add a test
//! to `tests.rt`.
#![tactic(auto)]

#[cfg(test)]
mod arrays;
#[cfg(test)]
mod asserts;
#[cfg(test)]
mod calls;
#[cfg(test)]
mod checks;
#[cfg(test)]
mod filling;
#[cfg(test)]
mod no_size;
#[cfg(test)]
mod sweep;
#[cfg(test)]
mod tests;
