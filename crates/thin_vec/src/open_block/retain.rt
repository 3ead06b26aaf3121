//! Functions that test the items of a range, and move the kept items to the front.
ghost use Rattle.std.specs.Prelude.{◌≡◌, ◌↔◌, ◌+◌, ◌<◌, ◌≤◌, ◌==◌, [], Bool, IsTrue, List, drop, length, take, true};

use crate::open_block::OpenBlock;
use std::alloc::Allocator;

/// A test of one item.
pub(crate) trait Test<T> {
    /// `tests s x b t y` holds if one call may return `b`, and change the state of the test from
    /// `s` to `t` and the item from `x` to `y`.
    ghost tests: { Self → T → Bool → Self → T → Type 0 };

    /// `ready s` holds if the test can be called in the state `s` with any item.
    ghost ready: { Self → Type 0 };

    /// Returns whether `item` is to be kept.
    fn test(&mut self, item: &mut T) -> bool
        requires callable { ready self.old }
        ensures tested { tests self.old item.old result self.new item.new }
        ensures callable { ready self.new };
}

impl<T, A: Allocator> OpenBlock<T, A> {
    ghost use Rattle.thin_vec.specs.OpenBlock.Retain.{TestsAt, TestsUntil};

    // Tests the middle item at index `k`.
    #[inline(always)]
    pub(crate) fn test<J: Test<T>>(&mut self, k: usize, test: &mut J) -> bool
        requires in_bounds { k < length self.old.middle }
        requires callable { J.ready test.old }
        ensures tested { TestsAt J.tests k test.old self.old.middle result test.new self.new.middle }
        ensures count { length self.new.middle ≡ length self.old.middle }
        ensures callable { J.ready test.new }
        ensures changes { self.new ≡ record self.old { middle = self.new.middle } }
    {
        test.test(self.block.slot_mut(self.middle_start + k))
    }

    // Tests the middle items after the first one, up to one that is not to be kept. Returns the
    // index of that one, or the number of middle items if there is none. The test of the second
    // item stands apart, so that LLVM knows the length of a run of one item.
    #[inline(always)]
    fn test_rest<J: Test<T>>(&mut self, test: &mut J) -> usize
        requires nonempty { 0 < length self.old.middle }
        requires callable { J.ready test.old }

        // If a test kept the first item of `xs` before, then that test and these are a search.
        ensures tested { (s : J) (xs : List T)
            → TestsAt J.tests 0 s xs true test.old self.old.middle
            → TestsUntil J.tests s xs (take result self.new.middle) test.new
            (drop result self.new.middle) }
        ensures count { length self.new.middle ≡ length self.old.middle }
        ensures in_bounds { result ≤ length self.new.middle }
        ensures callable { J.ready test.new }
        ensures changes { self.new ≡ record self.old { middle = self.new.middle } }
    {
        let start = self.middle_start;
        if start + 1 >= self.middle_end {
            return 1;
        }
        if !self.test(1, test) {
            return 1;
        }
        let mut at = start + 2;
        while at < self.middle_end {
            if !self.test(at - start, test) {
                return at - start;
            }
            at += 1;
        }
        at - start
    }

    ghost use Rattle.thin_vec.specs.OpenBlock.Retain.{SeeksRemoved};

    // Tests the middle items up to the first one that is not to be kept, and appends those before
    // it to the front. Returns whether there is one. It is then the first middle item.
    #[inline(always)]
    pub(crate) fn seek_removed<J: Test<T>>(&mut self, test: &mut J) -> bool
        requires callable { J.ready test.old }
        ensures tested { SeeksRemoved J.tests test.old self.old test.new self.new }
        ensures value { IsTrue result ↔ (0 < length self.new.middle) }
        ensures callable { J.ready test.new }
    {
        if self.middle_len() == 0 {
            return false;
        }
        let in_place = self.front_end == self.middle_start;
        self.seek(in_place, test)
    }

    // Does the same as `seek_removed`. The caller says whether kept items stay at their places.
    #[inline(always)]
    fn seek<J: Test<T>>(&mut self, in_place: bool, test: &mut J) -> bool
        requires in_place { in_place ≡ (self.old.gap_before == 0) }
        requires nonempty { 0 < length self.old.middle }
        requires callable { J.ready test.old }
        ensures tested { SeeksRemoved J.tests test.old self.old test.new self.new }
        ensures value { IsTrue result ↔ (0 < length self.new.middle) }
        ensures bound { length self.new.middle ≤ length self.old.middle }
        ensures callable { J.ready test.new }
    {
        if !self.test(0, test) {
            return true;
        }
        // One call of `test_rest` before the branches took a quarter more instructions.
        if in_place {
            let count = self.test_rest(test);
            self.keep_in_place(count);
            return self.middle_len() > 0;
        }
        let count = self.test_rest(test);
        self.move_down(count);
        self.middle_len() > 0
    }
}

impl<T: Drop, A: Allocator> OpenBlock<T, A> {
    ghost use Rattle.thin_vec.specs.OpenBlock.Retain.{Retains};

    // Tests the middle items, and drops those that are not to be kept. Kept items that lie side by
    // side are moved together, once the next item is not to be kept or there is none. Up to the
    // first removal there is no gap, and nothing is moved.
    //
    // At each call of `drop_before_next`, the first middle item, if there is one, has been tested
    // and is not to be kept. It is dropped there if another one follows, and else by `drop_middle`.
    // So a round has one test for the end.
    #[inline(always)]
    pub(crate) fn retain_middle<J: Test<T>>(&mut self, test: &mut J)
        requires gap_before { self.old.gap_before ≡ 0 }
        requires gap_after { self.old.gap_after ≡ 0 }
        requires callable { J.ready test.old }
        ensures retained { Retains J.tests test.old self.old test.new self.new }
        ensures no_middle { self.new.middle ≡ [] }
    {
        self.seek_removed(test);
        let mut more = self.drop_before_next();
        while more {
            self.seek(false, test);
            more = self.drop_before_next();
        }
        self.drop_middle();
    }
}
