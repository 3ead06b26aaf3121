//! The methods `retain` and `retain_mut`, which keep the items for which a closure returns true.
ghost use Rattle.std.specs.Prelude.{◌≡◌, ◌≤◌, length};
ghost use Rattle.std.specs.List.Retain.{IsFiltered, RetainsInTurn};
ghost use Rattle.std.specs.Fn.{CalledAt, CalledAtMut};
ghost use Rattle.thin_vec.specs.List.Capacity.{MovesAtMost, PreservesList};

use crate::list::ThinVec;
use crate::open_block::retain::Test;
use std::alloc::Allocator;
use thin_block::Growth;

impl<T: Drop, A: Allocator, G: Growth> ThinVec<T, A, G> {
    ghost use Rattle.thin_vec.specs.Edits.Retain.{IsRetained, IsRetainedMut};
    ghost use Rattle.thin_vec.specs.ThinVec.{IsBounded};

    /// Keeps the items for which `keep` returns true, and drops the other items. Calls `keep` once
    /// for each item, in order. (The contract says that there is such a series of calls. It does
    /// not say that no call follows them.) It has to be possible to call `keep` with every value of
    /// the item type, and not only with the items of the list.
    pub fn retain<F: FnMut(&T) -> bool>(&mut self, keep: F)
        requires callable { F.IsAlwaysCallable keep }

        // Which items are kept.
        ensures filtered { IsFiltered (CalledAt F.FnMut) keep self.old.items self.new.items }
        ensures bound { length self.new.items ≤ length self.old.items }

        // The same, and how many items are moved: each kept item that follows a removed one, once
        // (`moves_of_retain`). Nothing is requested or copied. The clauses above and
        // `moves_at_most` follow from it.
        ensures retained { IsRetained (CalledAt F.FnMut) keep self.old self.new }
        ensures moves_at_most { MovesAtMost (length self.new.items) self.old.cost
            self.new.cost }

        // What does not change.
        ensures capacity { self.new.capacity ≡ self.old.capacity }
        ensures preserved { PreservesList T.row self.old self.new }
    {
        let mut test = KeepByRef { keep };
        self.retain_with(&mut test);
        let KeepByRef { keep: _ } = test;
    }

    /// Does the same as `retain`, with a closure that may change the items. (The contract does not
    /// exclude a later call with an item that is no longer in the list.)
    pub fn retain_mut<F: FnMut(&mut T) -> bool>(&mut self, keep: F)
        requires callable { F.IsAlwaysCallable keep }

        // Which items are kept, and what the closure wrote to them.
        ensures filtered { RetainsInTurn (CalledAtMut F.FnMut) keep self.old.items self.new.items }
        ensures bound { length self.new.items ≤ length self.old.items }

        // The same, and how many items are moved: each kept item that follows a removed one, once
        // (`moves_of_retain`). Nothing is requested or copied. The clauses above and
        // `moves_at_most` follow from it.
        ensures retained { IsRetainedMut (CalledAtMut F.FnMut) keep self.old self.new }
        ensures moves_at_most { MovesAtMost (length self.new.items) self.old.cost
            self.new.cost }

        // What does not change.
        ensures capacity { self.new.capacity ≡ self.old.capacity }
        ensures preserved { PreservesList T.row self.old self.new }
    {
        let mut test = KeepByMut { keep };
        self.retain_with(&mut test);
        let KeepByMut { keep: _ } = test;
    }

    // Removes and drops the items that fail the test.
    fn retain_with<J: Test<T>>(&mut self, test: &mut J)
        requires callable { J.ready test.old }
        ensures retained { IsRetainedMut J.tests test.old self.old self.new }
        ensures changes { self.new ≡ record self.old {
          items = self.new.items;
          cost = self.new.cost;
        } }
        ensures bounds { IsBounded T.row self.old × IsBounded T.row self.new }
    {
        let len = self.len();
        let mut block = self.open(0, len);
        block.retain_middle(test);
        self.close(block);
    }
}

struct KeepByRef<F> {
    keep: F,
}

struct KeepByMut<F> {
    keep: F,
}

impl<T, F: FnMut(&T) -> bool> Test<T> for KeepByRef<F> {
    ghost use Rattle.std.specs.Fn.{CalledAt};

    ghost tests = { λ s x b t y. CalledAt F.FnMut s.keep x b t.keep × (y ≡ x) };

    ghost ready = { λ s. F.IsAlwaysCallable s.keep };

    fn test(&mut self, item: &mut T) -> bool {
        (self.keep)(&*item)
    }
}

impl<T, F: FnMut(&mut T) -> bool> Test<T> for KeepByMut<F> {
    ghost use Rattle.std.specs.Fn.{CalledAtMut};

    ghost tests = { λ s x b t y. CalledAtMut F.FnMut s.keep x b t.keep y };

    ghost ready = { λ s. F.IsAlwaysCallable s.keep };

    fn test(&mut self, item: &mut T) -> bool {
        (self.keep)(item)
    }
}
