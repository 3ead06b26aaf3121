//! Implements the commands `SplitOff` and `Clone`, which make a list without spare capacity.
ghost use Rattle.std.specs.Prelude.{◌≤◌, length};
ghost use Rattle.thin_runner.specs.Steps.{Allows};
ghost use Rattle.thin_runner.specs.declared.command.Command.TheVariants.{SplitOff, Clone};

use crate::command::Reply;
use crate::context::Context;
use crate::judge::Judge;
use std::alloc::Allocator;
use thin_vec::{Growth, ThinVec};

impl<T: Clone + Eq, A: Allocator + Copy, G: Growth, J: Judge<T>> Context<T, A, G, J> {
    pub(crate) fn split_off(self, list: &mut ThinVec<T, A, G>, at: usize) -> Reply<T, A, G>
        requires in_bounds { at ≤ length list.old.items }
        ensures allowed { Allows T.is_clone T.is_infallible T.eq J.model G.rule T.row self.alloc
            self.judge list.old (SplitOff at) result list.new }
    {
        match list.split_off(self.alloc, at) {
            Ok(tail) => Reply::List(tail),
            Err(cause) => Reply::Refused(cause),
        }
    }

    pub(crate) fn clone(self, list: &mut ThinVec<T, A, G>) -> Reply<T, A, G>
        ensures allowed { Allows T.is_clone T.is_infallible T.eq J.model G.rule T.row self.alloc
            self.judge list.old Clone result list.new }
    {
        match list.clone(self.alloc) {
            Ok(copy) => Reply::List(copy),
            Err(cause) => Reply::Refused(cause),
        }
    }
}
