//! The methods `dedup`, `dedup_by` and `dedup_by_key`, which remove duplicates.
ghost use Rattle.std.specs.Prelude.{◌≡◌, ◌+◌, ◌<◌, ◌≤◌, [], length, map, not};
ghost use Rattle.std.specs.Fn.{CalledAtPairMut, ComparesKeys};
ghost use Rattle.std.specs.List.{dedup};
ghost use Rattle.std.specs.List.Retain.{DiffersFromLast, IsDeduped, IsFiltered};
ghost use Rattle.thin_block.specs.Cost.{add_moves};
ghost use Rattle.thin_vec.specs.List.Capacity.{MovesAtMost, PreservesList};

use crate::list::ThinVec;
use crate::open_block::dedup::PairTest;
use std::alloc::Allocator;
use thin_block::Growth;

impl<T: Drop, A: Allocator, G: Growth> ThinVec<T, A, G> {
    ghost use Rattle.thin_vec.specs.Edits.Dedup.{IsDedupedBy};
    ghost use Rattle.thin_vec.specs.OpenBlock.Dedup.{Removes};
    ghost use Rattle.thin_vec.specs.ThinVec.{IsBounded};

    /// Removes and drops each item for which `same` returns true. Calls `same` once for each item
    /// except the first, in order: the first argument is the item, and the second is the last item
    /// kept before it. (The contract does not exclude a later call with an item that is no longer
    /// in the list.)
    pub fn dedup_by<F: FnMut(&mut T, &mut T) -> bool>(&mut self, same: F)
        requires callable { F.IsAlwaysCallable same }

        // Which items are kept, and what the closure wrote to them.
        ensures filtered { IsDeduped (CalledAtPairMut F.FnMut) same self.old.items self.new.items }
        ensures bound { length self.new.items ≤ length self.old.items }

        // The same, and how many items are moved: each kept item that follows a removed one, once
        // (`moves_of_retain`). Nothing is requested or copied. The clauses above and
        // `moves_at_most` follow from it.
        ensures deduped { IsDedupedBy (CalledAtPairMut F.FnMut) same self.old self.new }
        ensures moves_at_most { MovesAtMost (length self.new.items) self.old.cost
            self.new.cost }

        // What does not change.
        ensures capacity { self.new.capacity ≡ self.old.capacity }
        ensures preserved { PreservesList T.row self.old self.new }
    {
        let mut test = SameBy { same };
        self.dedup_with(&mut test);
        let SameBy { same: _ } = test;
    }

    // Removes and drops the items that fail the test.
    fn dedup_with<J: PairTest<T>>(&mut self, test: &mut J)
        requires callable { J.ready test.old }
        ensures deduped { IsDedupedBy (Removes J.tests) test.old self.old self.new }
        ensures changes { self.new ≡ record self.old {
          items = self.new.items;
          cost = self.new.cost;
        } }
        ensures bounds { IsBounded T.row self.old × IsBounded T.row self.new }
    {
        let len = self.len();
        if len < 2 {
            return;
        }
        let mut block = self.open(0, len);
        block.dedup_middle(test);
        self.close(block);
    }

    /// Removes and drops each item whose key is equal to the key of the last item kept before it.
    /// Calls `key` twice for each item except the first: with this item, and then with the last
    /// item kept. (The contract does not exclude a later call with an item that is no longer in the
    /// list.) It has to be possible to call `key` with every value of the item type.
    pub fn dedup_by_key<K: PartialEq + Drop, F: FnMut(&mut T) -> K>(&mut self, key: F)
        requires callable { F.IsAlwaysCallable key }

        // Which items are kept, and what the closure wrote to them.
        ensures filtered { IsDeduped (ComparesKeys F.FnMut K.eq) key self.old.items self.new.items }
        ensures bound { length self.new.items ≤ length self.old.items }

        // The same, and how many items are moved: each kept item that follows a removed one, once
        // (`moves_of_retain`). Nothing is requested or copied. The clauses above and
        // `moves_at_most` follow from it.
        // (In `deduped.removed`, the first flag is that of the second item. A flag is true if the
        // item was removed, because its key equals that of the last kept item.)
        ensures deduped { IsDedupedBy (ComparesKeys F.FnMut K.eq) key self.old self.new }
        ensures moves_at_most { MovesAtMost (length self.new.items) self.old.cost
            self.new.cost }

        // What does not change.
        ensures capacity { self.new.capacity ≡ self.old.capacity }
        ensures preserved { PreservesList T.row self.old self.new }
    {
        let mut test = SameKey { key };
        self.dedup_with(&mut test);
        let SameKey { key: _ } = test;
    }
}

impl<T: PartialEq + Drop, A: Allocator, G: Growth> ThinVec<T, A, G> {
    ghost use Rattle.thin_vec.specs.Edits.Retain.{moves_of_retain};
    ghost use Rattle.thin_vec.specs.Edits.Dedup.{dedup_flags};
    ghost use Rattle.thin_vec.specs.ThinVec.{IsBounded};

    /// Removes and drops each item that is equal to the last item kept before it. If the list is
    /// sorted, one item of each value remains.
    pub fn dedup(&mut self)
        ensures items { self.new.items ≡ dedup T.eq self.old.items }
        ensures cost { self.new.cost
            ≡ add_moves (moves_of_retain (map not (dedup_flags T.eq self.old.items))) self.old.cost }

        // What does not change.
        ensures capacity { self.new.capacity ≡ self.old.capacity }
        ensures preserved { PreservesList T.row self.old self.new }

        // These follow from `items` and `cost`. `filtered` is the clause of the `dedup` of `Vec`.
        ensures filtered { IsFiltered (DiffersFromLast T.eq) [] self.old.items self.new.items }
        ensures bound { length self.new.items ≤ length self.old.items }
        ensures moves_at_most { MovesAtMost (length self.new.items) self.old.cost
            self.new.cost }
    {
        let mut test = SameItem {};
        self.dedup_with(&mut test);
        let SameItem {} = test;
    }
}

struct SameBy<F> {
    same: F,
}

struct SameKey<F> {
    key: F,
}

struct SameItem {}

impl<T, F: FnMut(&mut T, &mut T) -> bool> PairTest<T> for SameBy<F> {
    ghost use Rattle.std.specs.Fn.{CalledAtPairMut};

    ghost tests = { λ s x k b t y l. CalledAtPairMut F.FnMut s.same x k (not b) t.same y l };

    ghost ready = { λ s. F.IsAlwaysCallable s.same };

    fn test(&mut self, later: &mut T, kept: &mut T) -> bool {
        !(self.same)(later, kept)
    }
}

impl<T, K: PartialEq + Drop, F: FnMut(&mut T) -> K> PairTest<T> for SameKey<F> {
    ghost use Rattle.std.specs.Fn.{ComparesKeys};

    ghost tests = { λ s x k b t y l. ComparesKeys F.FnMut K.eq s.key x k (not b) t.key y l };

    ghost ready = { λ s. F.IsAlwaysCallable s.key };

    fn test(&mut self, later: &mut T, kept: &mut T) -> bool {
        let key = (self.key)(later);
        !(key == (self.key)(kept))
    }
}

impl<T: PartialEq> PairTest<T> for SameItem {
    ghost use Rattle.std.specs.Prelude.{⊤};
    ghost use Rattle.thin_vec.specs.OpenBlock.Dedup.{Differs};

    ghost tests = { Differs T.eq };

    ghost ready = { λ s. ⊤ };

    fn test(&mut self, later: &mut T, kept: &mut T) -> bool {
        !(*later == *kept)
    }
}
