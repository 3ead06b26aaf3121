//! Implements the commands `Drain` and `ExtractIf`.
ghost use Rattle.std.specs.Prelude.{◌≡◌, ◌+◌, ◌≤◌, List, ◌∷◌, ◌++◌, length, vec_capacity, vec_len};
ghost use Rattle.std.proofs.Common.{rules};
ghost use Rattle.thin_runner.specs.Steps.{Allows};
ghost use Rattle.thin_runner.specs.commands.Ranges.{ends_taken};
ghost use Rattle.thin_runner.specs.declared.command.Command.TheVariants.{Drain as Drained, ExtractIf as Extracted};
ghost use Rattle.thin_vec.specs.Edits.Drain.{DrainKeeps, drain_rest};

use crate::command::{Reply, Step};
use crate::context::Context;
use crate::judge::Judge;
use std::alloc::Allocator;
use thin_vec::{Drain, Growth, ThinVec, ThinVecError};

impl<T: Clone + Eq, A: Allocator + Copy, G: Growth, J: Judge<T>> Context<T, A, G, J> {
    // Carries out the command `Drain`. First reserves room for the results of the steps, so that
    // the list is unchanged if this fails.
    pub(crate) fn drain(
        self,
        list: &mut ThinVec<T, A, G>,
        start: usize,
        end: usize,
        steps: Vec<Step, A>,
    ) -> Reply<T, A, G>
        requires start_le_end { start ≤ end }
        requires in_bounds { end ≤ length list.old.items }
        ensures allowed { Allows T.is_clone T.is_infallible T.eq J.model G.rule T.row self.alloc
            self.judge list.old (Drained start end steps) result list.new }
    {
        let mut answers = Vec::new(self.alloc);
        match answers.reserve(steps.len()) {
            Ok(()) => (),
            Err(_refused) => return Reply::Refused(ThinVecError::OutOfMemory),
        }
        let mut drain = list.drain(start, end);
        take_ends(&mut drain, steps, &mut answers);
        drop(drain);
        Reply::Answers(answers)
    }

    // Carries out the command `ExtractIf`. First reserves room for `count` results.
    pub(crate) fn extract_if(
        self,
        list: &mut ThinVec<T, A, G>,
        start: usize,
        end: usize,
        count: usize,
    ) -> Reply<T, A, G>
        requires start_le_end { start ≤ end }
        requires in_bounds { end ≤ length list.old.items }
        ensures allowed { Allows T.is_clone T.is_infallible T.eq J.model G.rule T.row self.alloc
            self.judge list.old (Extracted start end count) result list.new }
    {
        let mut answers = Vec::new(self.alloc);
        match answers.reserve(count) {
            Ok(()) => (),
            Err(_refused) => return Reply::Refused(ThinVecError::OutOfMemory),
        }
        let mut judge = self.judge;
        let mut extract = list.extract_if(
            start,
            end,
            move |item: &mut T|
                ensures value { (result, item.new, judge.exit) ≡ J.model.take judge.entry
                    item.old }
            { judge.take(item) },
        );
        for _ in 0..count {
            match answers.push(extract.next()) {
                Ok(()) => (),
                Err(_refused) => unreachable!(),
            }
        }
        drop(extract);
        Reply::Answers(answers)
    }
}

// A range of a list, whose items are taken from either end.
pub(crate) trait Ends<T> {
    // The items that remain.
    ghost rest: { Self → List T };

    // What stays the same while items are taken.
    ghost keeps: { Self → Self → Type 0 };

    // Takes one item from the end that `step` names, and returns it, or returns `None` if no item
    // remains.
    fn take_end(&mut self, step: Step) -> Option<T>
        ensures value { (steps : List Step) → ends_taken (rest self.old) (step ∷ steps)
            ≡ result ∷ ends_taken (rest self.new) steps }
        ensures preserved { (first : Self) → keeps first self.old → keeps first self.new };

    // A range on which no step was taken stays the same.
    ghost keeps_all: { (ends : Self) → keeps ends ends };
}

impl<'a, T: Drop, A: Allocator, G: Growth> Ends<T> for Drain<'a, T, A, G> {
    ghost rest = { drain_rest };

    ghost keeps = { DrainKeeps };

    ghost keeps_all = { Prim.search rules };

    fn take_end(&mut self, step: Step) -> Option<T> {
        match step {
            Step::Front => self.next(),
            Step::Back => self.next_back(),
        }
    }
}

// Carries out the steps on `ends` in order, and appends their results to `answers`.
pub(crate) fn take_ends<T: Drop, A: Allocator, E: Ends<T>>(
    ends: &mut E,
    steps: Vec<Step, A>,
    answers: &mut Vec<Option<T>, A>,
)
    requires room { vec_len answers.old + vec_len steps ≤ vec_capacity answers.old }
    ensures items { answers.new.items ≡ answers.old.items ++ ends_taken
        (E.rest ends.old) steps.items }
    ensures preserved { E.keeps ends.old ends.new }
{
    for step in steps {
        match answers.push(ends.take_end(step)) {
            Ok(()) => (),
            Err(_refused) => unreachable!(),
        }
    }
}
