//! Examples that replace a range of a list.
ghost use Rattle.std.specs.Iterator.Runs.{WholeRun};
ghost use Rattle.std.specs.Iterator.{IsFinite};
ghost use Rattle.std.specs.List.{replace_range};
ghost use Rattle.std.specs.Option.{option_to_list};
ghost use Rattle.std.specs.Prelude.{◌≡◌, ◌+◌, ◌-◌, ◌<◌, ◌≤◌, ◌++◌, List, [], ◌∷◌, IfErr, IsOk, OnErr, OnOk, drop, length, take};
ghost use Rattle.thin_vec.specs.Edits.ReplaceRange.{ReplacesByClones};
ghost use Rattle.thin_vec.specs.ThinVec.{HasRoomFor};
ghost use Rattle.thin_vec.specs.VecWords.{into_iter_items};

use std::alloc::{AllocError, Allocator};
use std::iter::once;
use thin_vec::{Growth, IntoIter, SpliceRefused, ThinVec, ThinVecError};

/// Replaces the bytes at the indices `start..end` with `word`.
///
/// # Errors
///
/// Fails if there is no room for `word`. On failure, the list is unchanged.
pub fn replace_word<A: Allocator, G: Growth>(
    text: &mut ThinVec<u8, A, G>,
    start: usize,
    end: usize,
    word: &[u8],
) -> Result<(), ThinVecError>
    requires start_le_end { start ≤ end }
    requires in_bounds { end ≤ length text.old.items }
    ensures succeeds { HasRoomFor text.old (length word.now - (end - start)) → IsOk result }
    ensures items { OnOk result (text.new.items ≡ replace_range text.old.items start end word.now) }
    ensures err { OnErr result (text.new ≡ text.old) }
{
    text.replace_range_from_copies(start, end, word)
}

/// Replaces the lines at the indices `start..end` with the lines of `newer`, and drops the replaced
/// lines. Afterwards, `newer` is empty.
///
/// # Errors
///
/// Fails if there is no room for the lines of `newer`. On failure, both lists are unchanged.
pub fn replace_lines<T: Drop, A: Allocator, G: Growth>(
    lines: &mut ThinVec<T, A, G>,
    start: usize,
    end: usize,
    newer: &mut ThinVec<T, A, G>,
) -> Result<(), ThinVecError>
    requires start_le_end { start ≤ end }
    requires in_bounds { end ≤ length lines.old.items }
    ensures items { OnOk result (lines.new.items
        ≡ replace_range lines.old.items start end newer.old.items) }
    ensures newer_items { OnOk result (newer.new.items ≡ []) }
    ensures err { OnErr result (lines.new ≡ lines.old) }
    ensures newer_err { OnErr result (newer.new ≡ newer.old) }
{
    lines.replace_range_from_list(start, end, newer)
}

/// Exchanges the lines at the indices `start..end` with the lines of `other`, and undoes this by
/// the same call. By the lemmas `replaced-undone` and `replaced-range`, both lists then have their
/// old lines.
///
/// # Errors
///
/// Fails if there is no room for the exchange, before any line changes its place. The second call
/// cannot fail.
pub fn swap_back<T, A: Allocator, G: Growth>(
    lines: &mut ThinVec<T, A, G>,
    start: usize,
    end: usize,
    other: &mut ThinVec<T, A, G>,
) -> Result<(), ThinVecError>
    requires start_le_end { start ≤ end }
    requires in_bounds { end ≤ length lines.old.items }
    ensures items { lines.new.items ≡ lines.old.items }
    ensures other_items { other.new.items ≡ other.old.items }
{
    let count = other.len();
    lines.swap_range(start, end, other)?;
    lines.swap_range(start, start + count, other)
}

/// Inserts clones of `names` at the index `at`.
///
/// # Errors
///
/// Fails if there is no room for the clones, or if a name cannot be cloned. On failure, the list is
/// unchanged.
pub fn insert_names<T: Clone, A: Allocator, G: Growth>(
    alloc: A,
    list: &mut ThinVec<T, A, G>,
    at: usize,
    names: &[T],
) -> Result<(), ThinVecError>
    requires in_bounds { at ≤ length list.old.items }
    ensures items { OnOk result (ReplacesByClones T.is_clone list.old.items at at names.now
        list.new.items) }
    ensures err { OnErr result (list.new ≡ list.old) }
    ensures capacity { HasRoomFor list.old (length names.now)
        → list.new.capacity ≡ list.old.capacity }
{
    list.replace_range(alloc, at, at, names)
}

/// Replaces the numbers at the indices `start..end` with `numbers`.
///
/// # Errors
///
/// Fails if there is no room for the numbers. On failure, the numbers at the indices `start..end`
/// are removed, and the first `k` of the new numbers are in their place, for some `k`.
pub fn splice_numbers<A: Allocator, G: Growth>(
    list: &mut ThinVec<u32, A, G>,
    start: usize,
    end: usize,
    numbers: &[u32],
    alloc: A,
) -> Result<(), AllocError>
    requires start_le_end { start ≤ end }
    requires in_bounds { end ≤ length list.old.items }
    ensures items { OnOk result (list.new.items ≡ (take start list.old.items ++ numbers.now)
        ++ drop end list.old.items) }
{
    splice_by(list, (start, end), numbers.iter().copied(), alloc)?;
    Ok(())
}

/// Replaces the items at the indices `range.0..range.1` with the items that `iter` yields.
///
/// The type of the iterator is generic here, because a splice with an iterator that borrows, such
/// as an iterator over a slice, can only be proved through such a function.
///
/// # Errors
///
/// Fails if there is no room for the items. The error contains the items that were taken from the
/// iterator but not inserted, and the iterator, which yields the remaining items.
pub fn splice_by<T: Drop, A: Allocator, G: Growth, I: Iterator<Item = T>>(
    list: &mut ThinVec<T, A, G>,
    range: (usize, usize),
    iter: I,
    alloc: A,
) -> Result<(), SpliceRefused<T, I, A>>
    requires start_le_end { range.0 ≤ range.1 }
    requires in_bounds { range.1 ≤ length list.old.items }
    requires can_next { I.can_next iter }
    requires finite { IsFinite (I.remaining iter) }
    ensures runs { OnOk result
        (WholeRun I.next_gives iter (λ p. list.new.items ≡ (take range.0 list.old.items ++ p.items)
        ++ drop range.1 list.old.items)) }
{
    list.splice(range.0, range.1, iter).finish(alloc)
}

/// Replaces the numbers at the indices `start..end`, of which there is at least one, with `number`.
/// The range has a slot for it, so the call cannot fail, and the list requests no memory. Each
/// number after the range is moved at most once.
pub fn splice_one<A: Allocator, G: Growth>(
    list: &mut ThinVec<u32, A, G>,
    start: usize,
    end: usize,
    number: u32,
    alloc: A,
)
    requires nonempty { start < end }
    requires in_bounds { end ≤ length list.old.items }
    ensures items { list.new.items
        ≡ (take start list.old.items ++ number ∷ []) ++ drop end list.old.items }
    ensures capacity { list.new.capacity ≡ list.old.capacity }
    ensures no_request { list.new.cost.blocks ≡ list.old.cost.blocks }
    ensures moves { list.new.cost.moves
        ≤ list.old.cost.moves + 1 + (length list.old.items - end) }
{
    match list.splice(start, end, once(number)).finish(alloc) {
        Ok(()) => (),
        Err(_refused) => unreachable!(),
    }
}

/// Replaces the lines at the indices `start..end` with the lines of `pasted`, as the command
/// "paste" of an editor does.
///
/// # Errors
///
/// Fails if there is no room for the lines. On failure, the lines at the indices `start..end` are
/// removed, but no pasted line is lost: the first ones are in their place, and the error contains
/// the others.
pub fn paste<T: Drop, A: Allocator, G: Growth>(
    text: &mut ThinVec<T, A, G>,
    start: usize,
    end: usize,
    pasted: ThinVec<T, A, G>,
    alloc: A,
) -> Result<(), SpliceRefused<T, IntoIter<T, A, G>, A>>
    requires start_le_end { start ≤ end }
    requires in_bounds { end ≤ length text.old.items }
    ensures items { OnOk result (text.new.items
        ≡ (take start text.old.items ++ pasted.items) ++ drop end text.old.items) }
    ensures none_lost { IfErr result (λ error. (placed : List T)
        × (text.new.items ≡ (take start text.old.items ++ placed) ++ drop end text.old.items)
        × (pasted.items ≡ placed ++ (error.held.items
        ++ (option_to_list error.in_hand ++ into_iter_items error.rest)))) }
{
    text.splice(start, end, pasted.into_iter()).finish(alloc)
}
