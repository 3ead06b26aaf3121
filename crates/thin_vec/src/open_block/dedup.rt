//! Functions that test each item of a range against the last item kept before it.
ghost use Rattle.std.specs.Prelude.{◌≡◌, ◌+◌, ◌-◌, ◌<◌, ◌≤◌, [], Bool, length};

use crate::open_block::OpenBlock;
use std::alloc::Allocator;

/// A test of an item against the last kept item before it.
pub(crate) trait PairTest<T> {
    /// `tests s x k b t y l` holds if one test of the item `x` against the kept item `k` may return
    /// `b`, and change the state of the test from `s` to `t`, `x` to `y`, and `k` to `l`.
    ghost tests: { Self → T → T → Bool → Self → T → T → Type 0 };

    /// `ready s` holds if the test can be called in the state `s` with any two items.
    ghost ready: { Self → Type 0 };

    /// Returns whether the item `later` is to be kept. (The closure of `dedup_by` returns the
    /// opposite.)
    fn test(&mut self, later: &mut T, kept: &mut T) -> bool
        requires callable { ready self.old }
        ensures tested { tests self.old later.old kept.old result self.new later.new kept.new }
        ensures callable { ready self.new };
}

impl<T, A: Allocator> OpenBlock<T, A> {
    ghost use Rattle.thin_vec.specs.OpenBlock.Dedup.{TestsPairAt, TestsLast, TestsNext};

    // Tests the middle item at index `k` against the one before it.
    #[inline(always)]
    pub(crate) fn test_pair<J: PairTest<T>>(&mut self, k: usize, test: &mut J) -> bool
        requires nonzero { 0 < k }
        requires in_bounds { k < length self.old.middle }
        requires callable { J.ready test.old }
        ensures tested { TestsPairAt J.tests k test.old self.old.middle result test.new
            self.new.middle }
        ensures count { length self.new.middle ≡ length self.old.middle }
        ensures callable { J.ready test.new }
        ensures changes { self.new ≡ record self.old { middle = self.new.middle } }
    {
        let at = self.middle_start + (k - 1);
        let (kept, later) = self.block.slice_mut(at, at + 2).split_at_mut(1);
        test.test(&mut later[0], &mut kept[0])
    }

    // Tests the item `later` against the last front item.
    #[inline(always)]
    pub(crate) fn test_last<J: PairTest<T>>(&mut self, later: &mut T, test: &mut J) -> bool
        requires nonempty { 0 < length self.old.front }
        requires callable { J.ready test.old }
        ensures tested { TestsLast J.tests test.old later.old self.old.front result test.new
            later.new self.new.front }
        ensures callable { J.ready test.new }
        ensures changes { self.new ≡ record self.old { front = self.new.front } }
    {
        test.test(later, self.block.slot_mut(self.front_end - 1))
    }

    // Tests the first middle item against the item `kept`.
    #[inline(always)]
    pub(crate) fn test_next<J: PairTest<T>>(&mut self, kept: &mut T, test: &mut J) -> bool
        requires nonempty { 0 < length self.old.middle }
        requires callable { J.ready test.old }
        ensures tested { TestsNext J.tests test.old kept.old self.old.middle result test.new
            kept.new self.new.middle }
        ensures count { length self.new.middle ≡ length self.old.middle }
        ensures callable { J.ready test.new }
        ensures changes { self.new ≡ record self.old { middle = self.new.middle } }
    {
        test.test(self.block.slot_mut(self.middle_start), kept)
    }
}

impl<T, A: Allocator> OpenBlock<T, A> {
    ghost use Rattle.thin_vec.specs.OpenBlock.Dedup.{TestsPairsUpTo};

    // Tests neighboring middle items up to the first one that is not to be kept. Returns the number
    // of items before that one.
    #[inline(always)]
    fn test_pairs<J: PairTest<T>>(&mut self, test: &mut J) -> usize
        requires nonempty { 0 < length self.old.middle }
        requires callable { J.ready test.old }
        ensures tested { TestsPairsUpTo J.tests result test.old self.old.middle test.new
            self.new.middle }
        ensures count { length self.new.middle ≡ length self.old.middle }
        ensures in_bounds { result ≤ length self.new.middle }
        ensures callable { J.ready test.new }
        ensures changes { self.new ≡ record self.old { middle = self.new.middle } }
    {
        let start = self.middle_start;
        let mut at = start + 1;
        while at < self.middle_end {
            if !self.test_pair(at - start, test) {
                return at - start;
            }
            at += 1;
        }
        at - start
    }
}

impl<T: Drop, A: Allocator> OpenBlock<T, A> {
    ghost use Rattle.thin_vec.specs.OpenBlock.Dedup.{DedupsMiddle, DedupsSome};

    // Tests each middle item but the first, which is kept, and drops those that are not to be kept.
    #[inline(always)]
    pub(crate) fn dedup_middle<J: PairTest<T>>(&mut self, test: &mut J)
        requires nonempty { 0 < length self.old.middle }
        requires is_empty { self.old.front ≡ [] }
        requires gap_before { self.old.gap_before ≡ 0 }
        requires callable { J.ready test.old }
        ensures deduped { DedupsMiddle J.tests test.old self.old test.new self.new }
    {
        let kept = self.test_pairs(test);
        self.keep_in_place(kept);
        if self.middle_len() > 0 {
            drop(self.take_first());
            while self.middle_len() > 0 {
                self.dedup_next(test);
            }
        }
    }

    // Tests the first middle item. Drops it, or appends it to the front with the items to be kept
    // that follow it, and drops the next one, which is not to be kept.
    //
    // The item is taken out of the block before its test, because the block provides two mutable
    // references only for adjacent items.
    #[inline(always)]
    fn dedup_next<J: PairTest<T>>(&mut self, test: &mut J)
        requires has_front { 0 < length self.old.front }
        requires nonempty { 0 < length self.old.middle }
        requires gap_before { 0 < self.old.gap_before }
        requires callable { J.ready test.old }
        ensures deduped { DedupsSome J.tests test.old self.old test.new self.new }

        // For the proof of the loop in `dedup_middle`.
        ensures has_front { 0 < length self.new.front }
        ensures bound { length self.new.middle < length self.old.middle }
        ensures callable { J.ready test.new }
    {
        let mut later = self.take_first();
        if !self.test_last(&mut later, test) {
            drop(later);
            return;
        }
        if self.middle_len() == 0 {
            self.append_to_front(later);
            return;
        }
        let stays = self.test_next(&mut later, test);
        self.append_to_front(later);
        if !stays {
            drop(self.take_first());
            return;
        }
        let kept = self.test_pairs(test);
        self.move_down(kept);
        self.drop_first();
    }
}
