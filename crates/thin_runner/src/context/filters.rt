//! Implements the commands that test all items and remove some of them.
ghost use Rattle.std.specs.Prelude.{◌≡◌};
ghost use Rattle.thin_runner.specs.Steps.{Allows};
ghost use Rattle.thin_runner.specs.declared.command.Command.TheVariants.{Retain, RetainMut, Dedup, DedupBy, DedupByKey};

use crate::command::Reply;
use crate::context::Context;
use crate::judge::Judge;
use std::alloc::Allocator;
use thin_vec::{Growth, ThinVec};

impl<T: Clone + Eq, A: Allocator + Copy, G: Growth, J: Judge<T>> Context<T, A, G, J> {
    pub(crate) fn retain(self, list: &mut ThinVec<T, A, G>) -> Reply<T, A, G>
        ensures allowed { Allows T.is_clone T.is_infallible T.eq J.model G.rule T.row self.alloc
            self.judge list.old Retain result list.new }
    {
        let mut judge = self.judge;
        list.retain(move |item| judge.look(item));
        Reply::Done
    }

    pub(crate) fn retain_mut(self, list: &mut ThinVec<T, A, G>) -> Reply<T, A, G>
        ensures allowed { Allows T.is_clone T.is_infallible T.eq J.model G.rule T.row self.alloc
            self.judge list.old RetainMut result list.new }
    {
        let mut judge = self.judge;
        list.retain_mut(move |item| judge.keep(item));
        Reply::Done
    }

    pub(crate) fn dedup(self, list: &mut ThinVec<T, A, G>) -> Reply<T, A, G>
        ensures allowed { Allows T.is_clone T.is_infallible T.eq J.model G.rule T.row self.alloc
            self.judge list.old Dedup result list.new }
    {
        list.dedup();
        Reply::Done
    }

    pub(crate) fn dedup_by(self, list: &mut ThinVec<T, A, G>) -> Reply<T, A, G>
        ensures allowed { Allows T.is_clone T.is_infallible T.eq J.model G.rule T.row self.alloc
            self.judge list.old DedupBy result list.new }
    {
        let mut judge = self.judge;
        list.dedup_by(
            move |later: &mut T, kept: &mut T|
                ensures value { (result, later.new, kept.new, judge.exit)
                    ≡ J.model.same judge.entry later.old kept.old }
            { judge.same(later, kept) },
        );
        Reply::Done
    }

    pub(crate) fn dedup_by_key(self, list: &mut ThinVec<T, A, G>) -> Reply<T, A, G>
        ensures allowed { Allows T.is_clone T.is_infallible T.eq J.model G.rule T.row self.alloc
            self.judge list.old DedupByKey result list.new }
    {
        let mut judge = self.judge;
        list.dedup_by_key(move |item| judge.key(item));
        Reply::Done
    }
}
