//! Implements the command `Splice`.
ghost use Rattle.std.specs.Prelude.{◌≤◌, length};
ghost use Rattle.std.proofs.Common.{rules};
ghost use Rattle.thin_runner.specs.Steps.{Allows};
ghost use Rattle.thin_runner.specs.declared.command.Command.TheVariants.{Splice as Spliced};
ghost use Rattle.thin_vec.specs.Edits.Splice.{SpliceKeeps, splice_rest};

use crate::command::{Reply, Step};
use crate::context::Context;
use crate::context::ranges::{Ends, take_ends};
use crate::hinted::Hinted;
use crate::judge::Judge;
use std::alloc::Allocator;
use thin_vec::{Growth, Splice, SpliceRefused, ThinVec, ThinVecError};

impl<T: Clone + Eq, A: Allocator + Copy, G: Growth, J: Judge<T>> Context<T, A, G, J> {
    // Carries out the command `Splice`. First reserves room for the results of the steps.
    pub(crate) fn splice(
        self,
        list: &mut ThinVec<T, A, G>,
        start: usize,
        end: usize,
        steps: Vec<Step, A>,
        items: Vec<T, A>,
        lower: usize,
    ) -> Reply<T, A, G>
        requires start_le_end { start ≤ end }
        requires in_bounds { end ≤ length list.old.items }
        ensures allowed { Allows T.is_clone T.is_infallible T.eq J.model G.rule T.row self.alloc
            self.judge list.old (Spliced start end steps items lower) result list.new }
    {
        let mut answers = Vec::new(self.alloc);
        match answers.reserve(steps.len()) {
            Ok(()) => (),
            Err(_refused) => return Reply::Refused(ThinVecError::OutOfMemory),
        }
        let mut splice = list.splice(start, end, Hinted::new(items, lower));
        take_ends(&mut splice, steps, &mut answers);
        match splice.finish(self.alloc) {
            Ok(()) => Reply::Answers(answers),
            Err(refused) => {
                let SpliceRefused {
                    cause,
                    held,
                    in_hand,
                    rest,
                } = refused;
                Reply::Stopped {
                    answers,
                    cause,
                    held,
                    in_hand,
                    rest,
                }
            }
        }
    }
}

impl<'a, T, A: Allocator, G: Growth> Ends<T> for Splice<'a, Hinted<T, A>, T, A, G> {
    ghost rest = { splice_rest };

    ghost keeps = { SpliceKeeps };

    ghost keeps_all = { Prim.search rules };

    fn take_end(&mut self, step: Step) -> Option<T> {
        match step {
            Step::Front => self.next(),
            Step::Back => self.next_back(),
        }
    }
}
