//! Implementations of traits that compare, hash and print lists, as the slices of their items, and
//! of `Emptied` and `MadeWith`, which make empty lists.
ghost use Rattle.std.specs.Cmp.{on_equiv, on_per, on_po, on_total};
ghost use Rattle.std.specs.Cmp.Lexicographic.{lists_agrees, lists_equiv, lists_per, lists_po, lists_ties, lists_total, pointwise, slice_cmp, slice_partial_cmp};
ghost use Rattle.std.specs.Hash as fed;
ghost use Rattle.std.specs.Hash.{items_Alike, on_Alike};
ghost use Rattle.std.specs.Prelude.{◌≡◌, []};

use crate::list::ThinVec;
use std::alloc::{AllocError, Allocator};
use std::cmp::Ordering;
use std::default::{Emptied, MadeWith};
use std::fmt;
use std::hash::{Hash, Hasher};
use thin_block::Growth;

impl<T: PartialEq, A: Allocator, G: Growth> PartialEq for ThinVec<T, A, G> {
    ghost eq = { λ list other. pointwise T.eq list.items other.items };

    ghost laws = { on_per (λ list. list.items) (lists_per T.laws) };

    fn eq(&self, other: &Self) -> bool {
        self.as_slice() == other.as_slice()
    }
}

impl<T: Eq, A: Allocator, G: Growth> Eq for ThinVec<T, A, G> {
    ghost laws = { on_equiv (λ list. list.items) (lists_equiv T.Eq.laws) };
}

impl<T: PartialOrd, A: Allocator, G: Growth> PartialOrd for ThinVec<T, A, G> {
    ghost partial_cmp = { λ list other. slice_partial_cmp T.partial_cmp list.items other.items };

    ghost laws = { on_po (λ list. list.items) (lists_po T.PartialOrd.laws) };

    fn partial_cmp(&self, other: &Self) -> Option<Ordering> {
        self.as_slice().partial_cmp(&other.as_slice())
    }
}

impl<T: Ord, A: Allocator, G: Growth> Ord for ThinVec<T, A, G> {
    ghost cmp = { λ list other. slice_cmp T.cmp list.items other.items };

    ghost total = { on_total (λ list. list.items) (lists_total T.total) };

    ghost matches_partial_cmp = { λ list other.
        lists_agrees T.matches_partial_cmp list.items other.items };

    ghost matches_eq = { λ list other. lists_ties T.cmp T.matches_eq list.items other.items };

    fn cmp(&self, other: &Self) -> Ordering {
        self.as_slice().cmp(&other.as_slice())
    }
}

impl<T: Hash, A: Allocator, G: Growth> Hash for ThinVec<T, A, G> {
    ghost hash_input = { λ list. fed.slice T.hash_input list.items };

    ghost respects_eq = { (on_Alike (λ list. list.items)
        (items_Alike (record { fed = T.respects_eq }))).fed };

    fn hash<H: Hasher>(&self, state: &mut H) {
        self.as_slice().hash(state);
    }
}

impl<T: fmt::Debug, A: Allocator, G: Growth> fmt::Debug for ThinVec<T, A, G> {
    fn fmt<W: fmt::Write>(&self, f: &mut fmt::Formatter<W>) -> fmt::Result {
        self.as_slice().fmt(f)
    }
}

impl<T, A: Allocator + Clone, G: Growth> Emptied for ThinVec<T, A, G> {
    ghost is_emptied = { λ list. list.items ≡ [] };

    // Makes an empty list for `mem::try_take`, with a clone of the allocator of `like`.
    fn emptied(like: &ThinVec<T, A, G>) -> Result<ThinVec<T, A, G>, AllocError> {
        Ok(ThinVec::ruled(like.allocator().clone()?))
    }
}

impl<T, A: Allocator, G: Growth> MadeWith<A> for ThinVec<T, A, G> {
    ghost is_made_with = { λ list. list.items ≡ [] };

    // Makes an empty list for `or_default` of the maps in Rattle's std.
    fn made_with(alloc: A) -> ThinVec<T, A, G> {
        ThinVec::ruled(alloc)
    }
}
