//! Implements the commands `Resize`, `ExtendFromSlice` and `Extend`, which may add many items.
ghost use Rattle.thin_runner.specs.Steps.{Allows};
ghost use Rattle.thin_runner.specs.declared.command.Command.TheVariants.{Resize, ExtendFromSlice, Extend};

use crate::command::Reply;
use crate::context::Context;
use crate::hinted::Hinted;
use crate::judge::Judge;
use std::alloc::Allocator;
use thin_vec::{ExtendRefused, Growth, ThinVec};

impl<T: Clone + Eq, A: Allocator + Copy, G: Growth, J: Judge<T>> Context<T, A, G, J> {
    pub(crate) fn resize(self, list: &mut ThinVec<T, A, G>, len: usize, value: T) -> Reply<T, A, G>
        ensures allowed { Allows T.is_clone T.is_infallible T.eq J.model G.rule T.row self.alloc
            self.judge list.old (Resize len value) result list.new }
    {
        match list.resize(len, value) {
            Ok(()) => Reply::Done,
            Err(cause) => Reply::Refused(cause),
        }
    }

    pub(crate) fn extend_from_slice(
        self,
        list: &mut ThinVec<T, A, G>,
        items: Vec<T, A>,
    ) -> Reply<T, A, G>
        ensures allowed { Allows T.is_clone T.is_infallible T.eq J.model G.rule T.row self.alloc
            self.judge list.old (ExtendFromSlice items) result list.new }
    {
        match list.extend_from_slice(items.as_slice()) {
            Ok(()) => Reply::Done,
            Err(cause) => Reply::Refused(cause),
        }
    }

    pub(crate) fn extend(
        self,
        list: &mut ThinVec<T, A, G>,
        items: Vec<T, A>,
        lower: usize,
    ) -> Reply<T, A, G>
        ensures allowed { Allows T.is_clone T.is_infallible T.eq J.model G.rule T.row self.alloc
            self.judge list.old (Extend items lower) result list.new }
    {
        let filled = list.extend(Hinted::new(items, lower));
        match filled {
            Ok(()) => Reply::Done,
            Err(refused) => {
                let ExtendRefused {
                    cause,
                    in_hand,
                    rest,
                } = refused;
                Reply::Stopped {
                    answers: Vec::new(self.alloc),
                    cause,
                    held: Vec::new(self.alloc),
                    in_hand,
                    rest,
                }
            }
        }
    }
}
