//! The methods `extend` and `from_iter`, which move the items of an iterator into a list.
ghost use Rattle.std.specs.Prelude.{◌≡◌, ℕ, ◌+◌, ◌-◌, List, ◌++◌, IfErr, IfOk, IsOk, IsSome, MatchOption, OnErr, OnOk, length};
ghost use Rattle.std.specs.Iterator.Runs.{SomeRun, WholeRun};
ghost use Rattle.std.specs.Iterator.SizeHint.{IsWithinCount};
ghost use Rattle.std.specs.Iterator.{Drains, IsFinite, size};
ghost use Rattle.std.specs.Option.{option_to_list};
ghost use Rattle.thin_block.specs.Cost.{add_moves};
ghost use Rattle.thin_block.specs.Growth.{doubling};
ghost use Rattle.thin_vec.specs.Cheap.{IsCheap};
ghost use Rattle.thin_vec.specs.List.Capacity.{FailsForRoom, FailsToAllocate, PreservesList};
ghost use Rattle.thin_vec.specs.List.Extend.{ExtendsList, IsAfterExtend, IsAfterPushes, IsCollectedFrom, IsCollectedList, YieldsAndCanContinue};
ghost use Rattle.thin_vec.specs.Put.{IsFilledBy};
ghost use Rattle.thin_vec.specs.ThinVec.{HasRoomFor, IsNew, IsBounded};

use crate::errors::{CollectRefused, ExtendRefused, Rejected};
use crate::list::ThinVec;
use crate::put::{Filled, put_iter};
use std::alloc::{AllocError, Allocator};
use std::iter::{Extend, FromIterator, IntoIterator, Iterator};
use std::mem;
use thin_block::{Block, Growth};

impl<T, A: Allocator, G: Growth> ThinVec<T, A, G> {
    /// Appends the items that `iter` yields before its first `None`. The call begins by reserving
    /// room for the lower bound of the size hint. (Tests show which number it reserves for. The
    /// contract says that it is at most the limit of the iterator.)
    ///
    /// # Errors
    ///
    /// Fails if there is no room for the lower bound or for a later item. The possible causes are
    /// those of `reserve`. The list keeps the items that were appended before, and the error
    /// returns the other items to the caller.
    pub fn extend<I: Iterator<Item = T>>(&mut self, iter: I) -> Result<(), ExtendRefused<T, I>>
        requires can_next { I.can_next iter }
        requires finite { IsFinite (I.remaining iter) }

        // On success.
        ensures items { OnOk result ((xs : List T) × Drains I.next_gives iter xs
            × (self.new.items ≡ self.old.items ++ xs)) }
        ensures runs { OnOk result
            (WholeRun I.next_gives iter (λ p. self.new.items ≡ self.old.items ++ p.items)) }

        // When it must succeed. In every other case it may fail.
        ensures succeeds { HasRoomFor self.old (size (I.remaining iter)) → IsOk result }

        // On failure.
        ensures placed { IfErr result (λ error. (xs : List T)
            × (self.new.items ≡ self.old.items ++ xs)
            × YieldsAndCanContinue I.next_gives I.can_next I.remaining iter
            (xs ++ option_to_list error.in_hand) error.rest) }
        ensures err_runs { IfErr result
            (λ error. SomeRun I.next_gives iter
            (λ p. (xs : List T) × (self.new.items ≡ self.old.items ++ xs)
            × (p.items ≡ xs ++ option_to_list error.in_hand))) }
        ensures in_hand { IfErr result (λ error. MatchOption error.in_hand
            ((self.new ≡ self.old) × (error.rest ≡ iter))
            (λ _. length self.new.items ≡ self.new.capacity)) }
        // The list had no room for `k` more items: for the item in hand, or for some number within
        // the limit. Tests show that this number is the lower bound in the size hint, which the
        // contract of `size_hint` does not name.
        ensures cause { IfErr result (λ error. (k : ℕ)
            × MatchOption error.in_hand (IsWithinCount k (I.remaining error.rest)) (λ _. k ≡ 1)
            × FailsForRoom G.rule T.row self.new k error.cause) }

        // In every case. The number `h` is some number within the limit. Tests show that it is the
        // lower bound in the size hint, or 0 if nothing was reserved. `moves` follows from
        // `capacity`.
        ensures had_room { HasRoomFor self.old (size (I.remaining iter))
            → self.new.capacity ≡ self.old.capacity }
        ensures capacity { (h : ℕ) × IsWithinCount h (I.remaining iter)
            × IsAfterExtend G.rule T.row self.old h self.new }
        ensures moves { self.new.cost.moves + length self.old.items
            ≡ self.old.cost.moves + length self.new.items }
        ensures preserved { PreservesList T.row self.old self.new }
    {
        match self.reserve(iter.size_hint().0) {
            Ok(()) => self.extend_unhinted(iter),
            Err(cause) => Err(ExtendRefused {
                cause,
                in_hand: None,
                rest: iter,
            }),
        }
    }

    // Appends the items of `iter`, as `extend` does, but does not ask `iter` for its size hint.
    pub(crate) fn extend_unhinted<I: Iterator<Item = T>>(
        &mut self,
        iter: I,
    ) -> Result<(), ExtendRefused<T, I>>
        requires can_next { I.can_next iter }
        requires finite { IsFinite (I.remaining iter) }
        requires bounds { IsBounded T.row self.old }

        // On success.
        ensures items { OnOk result ((xs : List T) × Drains I.next_gives iter xs
            × (self.new.items ≡ self.old.items ++ xs)) }

        // When it must succeed. In every other case it may fail.
        ensures succeeds { HasRoomFor self.old (size (I.remaining iter)) → IsOk result }

        // On failure.
        ensures placed { IfErr result (λ error. (xs : List T)
            × (self.new.items ≡ self.old.items ++ xs)
            × YieldsAndCanContinue I.next_gives I.can_next I.remaining iter
            (xs ++ option_to_list error.in_hand) error.rest) }
        ensures in_hand { IfErr result (λ error. IsSome error.in_hand) }
        ensures err_full { OnErr result (length self.new.items ≡ self.new.capacity) }
        ensures cause { IfErr result (λ error. FailsForRoom G.rule T.row self.new 1 error.cause) }

        // In every case.
        ensures had_room { HasRoomFor self.old (size (I.remaining iter))
            → self.new.capacity ≡ self.old.capacity }
        ensures after { IsAfterPushes G.rule T.row self.old self.new }
        ensures preserved { PreservesList T.row self.old self.new }
    {
        let mut rest = iter;
        loop {
            let Filled {
                rest: left,
                end: _,
                ended,
            } = self.fill_spare(rest);
            rest = left;
            if ended {
                return Ok(());
            }
            let Some(item) = rest.next() else {
                return Ok(());
            };
            match self.push(item) {
                Ok(()) => (),
                Err(refused) => {
                    let Rejected { value, cause } = refused;
                    return Err(ExtendRefused {
                        cause,
                        in_hand: Some(value),
                        rest,
                    });
                }
            }
        }
    }

    // Moves items of `iter` into the spare capacity until the list is full or `iter` ends.
    fn fill_spare<I: Iterator<Item = T>>(&mut self, iter: I) -> Filled<I>
        requires can_next { I.can_next iter }
        requires finite { IsFinite (I.remaining iter) }
        ensures filled_by { (by : IsFilledBy I.next_gives I.can_next I.remaining
            (self.old.capacity - length self.old.items) iter result)
            × (self.new ≡ record self.old {
              items = self.old.items ++ by.items;
              cost = add_moves (length by.items) self.old.cost;
            }) × (result.end ≡ length self.new.items) }
        ensures cheap { IsCheap self.old → IsCheap self.new }
        ensures bounds { IsBounded T.row self.old × IsBounded T.row self.new }
    {
        let len = self.block.len();
        let cap = self.block.cap();
        let block = mem::replace(&mut self.block, Block::none());
        let (block, filled) = put_iter(block, len, cap, iter);
        self.block.replace_unallocated(block);
        self.block.set_len(filled.end);
        filled
    }
}

impl<T, A: Allocator> ThinVec<T, A> {
    /// Makes a list of the items that `iter` yields before its first `None`, like `extend`. The
    /// list owns `alloc`. The contract of `iter` has to say that `next` may be called, and how many
    /// items come at most: this number is its limit. The call begins with a capacity of exactly the
    /// lower bound of the size hint, which tests show, as for `extend`. `collect` makes a list in
    /// the same way, but its contract, which is that of the trait `FromIterator`, says nothing of a
    /// failure or of the allocator.
    ///
    /// # Errors
    ///
    /// Fails as `extend` does. The error returns all items to the caller. Those that were appended
    /// are in a list, which owns `alloc`.
    pub fn from_iter<I: Iterator<Item = T>>(
        alloc: A,
        iter: I,
    ) -> Result<ThinVec<T, A>, CollectRefused<T, I, A>>
        requires can_next { I.can_next iter }
        requires finite { IsFinite (I.remaining iter) }

        // On success.
        ensures items { IfOk result (λ list. Drains I.next_gives iter list.items) }
        ensures runs { IfOk result
            (λ list. WholeRun I.next_gives iter (λ p. list.items ≡ p.items)) }
        // Capacity and cost are those of a list that was made with the capacity `h`, some number
        // within the limit, and then got each item by `push`. Tests show that `h` is the lower
        // bound in the size hint.
        ensures new { IfOk result
            (λ list. IsCollectedList doubling T.row alloc list (I.remaining iter)) }

        // When it must succeed. In every other case it may fail.
        ensures succeeds { size (I.remaining iter) ≡ 0 → IsOk result }

        // On failure. The iterator yielded the items of the list in the error and the one in hand,
        // and `rest` yields the others. With no item in hand, none was taken: the list is new, and
        // `rest` is `iter`. With one, the list is full. Its capacity and cost are as in `new`.
        ensures placed { IfErr result
            (λ error. YieldsAndCanContinue I.next_gives I.can_next I.remaining iter
            (error.list.items ++ option_to_list error.in_hand) error.rest) }
        ensures err_runs { IfErr result
            (λ error. SomeRun I.next_gives iter
            (λ p. p.items ≡ error.list.items ++ option_to_list error.in_hand)) }
        ensures in_hand { IfErr result (λ error. MatchOption error.in_hand
            (IsNew error.list alloc × (error.rest ≡ iter))
            (λ _. length error.list.items ≡ error.list.capacity)) }
        ensures error_list { IfErr result
            (λ error. IsCollectedList doubling T.row alloc error.list (I.remaining iter)) }
        // The list had no room for the item in hand, or the call could not allocate a block of
        // capacity `h`, some number within the limit.
        ensures cause { IfErr result (λ error. MatchOption error.in_hand
            ((h : ℕ) × IsWithinCount h (I.remaining error.rest)
            × FailsToAllocate T.row h error.cause)
            (λ _. FailsForRoom doubling T.row error.list 1 error.cause)) }

        // This follows from `new`: each item is moved once.
        ensures moves { IfOk result (λ list. list.cost.moves ≡ length list.items) }
    {
        let mut list = ThinVec::new(alloc);
        match list.reserve_exact(iter.size_hint().0) {
            Ok(()) => (),
            Err(cause) => {
                return Err(CollectRefused {
                    list,
                    cause,
                    in_hand: None,
                    rest: iter,
                });
            }
        }
        match list.extend_unhinted(iter) {
            Ok(()) => Ok(list),
            Err(refused) => {
                let ExtendRefused {
                    cause,
                    in_hand,
                    rest,
                } = refused;
                Err(CollectRefused {
                    list,
                    cause,
                    in_hand,
                    rest,
                })
            }
        }
    }
}

impl<T: Drop, A: Allocator, G: Growth> Extend<T> for ThinVec<T, A, G> {
    ghost extend_gives = { ExtendsList G.rule T.row };

    // Does the same as the inherent method, but drops the error.
    fn extend<U: IntoIterator<Item = T>>(&mut self, iter: U) -> Result<(), AllocError> {
        match ThinVec::extend(self, iter.into_iter()) {
            Ok(()) => Ok(()),
            Err(_refused) => Err(AllocError),
        }
    }
}

impl<T: Drop, A: Allocator> FromIterator<T> for ThinVec<T, A> {
    type Alloc = A;

    ghost from_iter_gives = { IsCollectedFrom T.row };

    // Does the same as the inherent method, but drops the error. The contract, which is that of the
    // trait, names neither the allocator nor a failure, and no bound on `h`: call the inherent
    // method if you need them.
    fn from_iter<U: IntoIterator<Item = T>>(
        alloc: A,
        iter: U,
    ) -> Result<ThinVec<T, A>, AllocError> {
        match ThinVec::from_iter(alloc, iter.into_iter()) {
            Ok(list) => Ok(list),
            Err(_refused) => Err(AllocError),
        }
    }
}
