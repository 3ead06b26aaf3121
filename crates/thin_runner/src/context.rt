//! Implements the commands that the function `step` does not carry out itself.
mod filters;
mod many;
mod new_lists;
mod ranges;
mod splices;

use std::marker::PhantomData;

/// What a command may need in addition to its list.
#[derive(Drop)]
pub(crate) struct Context<T, A, G, J> {
    pub(crate) alloc: A,
    pub(crate) judge: J,
    pub(crate) of: PhantomData<(T, G)>,
}
