//! Examples that make a list.
ghost use Rattle.std.specs.Box.{boxed_slice_items};
ghost use Rattle.std.specs.Iterator.{Drains, IsFinite};
ghost use Rattle.std.specs.List.{AllZip, list_all};
ghost use Rattle.std.specs.Option.{option_to_list};
ghost use Rattle.std.specs.Prelude.{◌≡◌, ◌*◌, ◌/◌, ◌++◌, [], IfErr, IfNone, IfOk, IfSome, IsOk, IsSome, IsTrue, OnErr, OnOk, length, map, nat_lt, replicate};
ghost use Rattle.std.specs.Str.{chars};
ghost use Rattle.thin_vec.specs.Growth.{doubling};
ghost use Rattle.thin_vec.specs.List.Capacity.{OverflowsIffTooLarge};
ghost use Rattle.thin_vec.specs.List.Extend.{IsCollectedList, YieldsAndCanContinue};

use std::alloc::{AllocError, Allocator};
use std::boxed::BoxedSlice;
use std::mem;
use thin_vec::{Growth, ThinVec, ThinVecError, thin_vec};

/// Makes a list of the numbers of `first`, followed by the numbers of `second`.
///
/// # Errors
///
/// Fails if there is not enough memory for the numbers.
pub fn joined<A: Allocator>(
    alloc: A,
    first: &[u32],
    second: &[u32],
) -> Result<ThinVec<u32, A>, AllocError>
    ensures items { IfOk result (λ list. list.items ≡ first.now ++ second.now) }
    ensures succeeds_empty { first.now ≡ [] → second.now ≡ [] → IsOk result }
{
    let mut list = ThinVec::from_copies(alloc, first)?;
    list.extend_from_copies(second)?;
    Ok(list)
}

/// Makes a list of `count` zeros.
///
/// # Errors
///
/// Fails if the allocator fails, or if the capacity would be too large.
pub fn zeros<A: Allocator>(alloc: A, count: usize) -> Result<ThinVec<u32, A>, ThinVecError>
    ensures items { IfOk result (λ list. list.items ≡ replicate count 0) }
{
    thin_vec![alloc => 0; count]
}

/// Makes a list of numbers that are written out, each of them below 1000. The clause is a test that
/// the checker computes, however many numbers there are.
///
/// # Errors
///
/// Fails if the allocator fails.
pub fn codes<A: Allocator>(alloc: A) -> Result<ThinVec<u32, A>, ThinVecError>
    ensures below { IfOk result (λ list. IsTrue (list_all (λ code. nat_lt code 1000) list.items)) }
{
    thin_vec![alloc => 200, 301, 404]
}

/// Makes an empty list with room for eight numbers.
///
/// # Errors
///
/// Fails only if the allocator fails: by the lemma `few_items`, so small a capacity cannot
/// overflow.
pub fn room_for_eight<A: Allocator>(alloc: A) -> Result<ThinVec<u64, A>, ThinVecError>
    ensures items { IfOk result (λ list. list.items ≡ []) }
    ensures capacity { IfOk result (λ list. list.capacity ≡ 8) }
    ensures cause { IfErr result (λ cause. cause ≡ ThinVecError.OutOfMemory) }
{
    ThinVec::with_capacity(alloc, 8)
}

/// Doubles each number, and collects the results.
///
/// # Errors
///
/// Fails if there is not enough memory for the results.
pub fn doubled<A: Allocator>(alloc: A, numbers: &[u32]) -> Result<ThinVec<u64, A>, AllocError>
    ensures items { IfOk result (λ list. list.items ≡ map (λ number. 2 * number) numbers.now) }
{
    numbers
        .iter()
        .map(|number| 2 * u64::from(*number))
        .collect(alloc)
}

/// Halves each number, rounding down. Returns `None` if there is not enough memory for the list.
pub fn halves<A: Allocator>(alloc: A, numbers: &[u32]) -> Option<ThinVec<u32, A>>
    ensures items { IfSome result (λ list. list.items ≡ map (λ number. number / 2) numbers.now) }
    ensures succeeds_empty { length numbers.now ≡ 0 → IsSome result }
{
    match ThinVec::from_iter(alloc, numbers.iter().map(|number| number / 2)) {
        Ok(list) => Some(list),
        Err(_refused) => None,
    }
}

/// Collects what `iter` yields. The capacity is a lower bound that its size hint may have, or one
/// that the growth rule chooses. If memory ends, nothing is lost: `result.0` has the items for
/// which there was room, `result.1` is the item that came next, and `result.2` yields all others.
pub fn collect_or_keep<T, A: Allocator, I: Iterator<Item = T>>(
    alloc: A,
    iter: I,
) -> (ThinVec<T, A>, Option<T>, Option<I>)
    requires can_next { I.can_next iter }
    requires finite { IsFinite (I.remaining iter) }
    ensures all { IfNone result.2 (Drains I.next_gives iter result.0.items) }
    ensures capacity { IfNone result.2
        (IsCollectedList doubling T.row alloc result.0 (I.remaining iter)) }
    ensures placed { IfSome result.2 (λ rest. YieldsAndCanContinue I.next_gives I.can_next
        I.remaining iter (result.0.items ++ option_to_list result.1) rest) }
{
    match ThinVec::from_iter(alloc, iter) {
        Ok(list) => (list, None, None),
        Err(refused) => (refused.list, refused.in_hand, Some(refused.rest)),
    }
}

/// Collects the characters of `text`.
///
/// # Errors
///
/// Fails if there is not enough memory for the characters.
pub fn chars_of<A: Allocator>(alloc: A, text: &str) -> Result<ThinVec<char, A>, AllocError>
    ensures items { IfOk result (λ list. list.items ≡ chars text.now) }
{
    text.chars().collect(alloc)
}

/// Clones the items of a slice into a new list.
///
/// # Errors
///
/// Fails with `CapacityOverflow` if the items are too large for one allocation, and with
/// `OutOfMemory` if the allocator or a clone fails.
pub fn cloned<T: Clone, A: Allocator>(alloc: A, items: &[T]) -> Result<ThinVec<T, A>, ThinVecError>
    ensures items { IfOk result (λ list. AllZip T.is_clone items.now list.items) }
    ensures overflow { OverflowsIffTooLarge T.row (length items.now) result }
{
    ThinVec::from_slice(alloc, items)
}

/// Moves the items of a boxed slice into a list without spare capacity.
///
/// # Errors
///
/// Fails if the allocator fails. On failure, the items are dropped.
pub fn unboxed<T: Drop, A: Allocator>(
    alloc: A,
    items: BoxedSlice<T, A>,
) -> Result<ThinVec<T, A>, ThinVecError>
    ensures items { IfOk result (λ list. list.items ≡ boxed_slice_items items) }
    ensures capacity { IfOk result (λ list. list.capacity ≡ length (boxed_slice_items items)) }
{
    Ok(ThinVec::from_boxed_slice(alloc, items)?)
}

/// Copies the numbers of `list` to a new list, and appends `more` to it.
///
/// # Errors
///
/// Fails if there is not enough memory for the new list.
pub fn continued<A: Allocator, G: Growth>(
    alloc: A,
    list: &ThinVec<u32, A, G>,
    more: &[u32],
) -> Result<ThinVec<u32, A, G>, AllocError>
    ensures items { IfOk result (λ copy. copy.items ≡ list.now.items ++ more.now) }
    ensures succeeds_empty { list.now.items ≡ [] → more.now ≡ [] → IsOk result }
{
    let mut copy = list.clone_copies(alloc)?;
    copy.extend_from_copies(more)?;
    Ok(copy)
}

/// Returns the list, and leaves an empty list in its place.
///
/// # Errors
///
/// Fails if the allocator cannot be cloned. On failure, the list is unchanged.
pub fn take_list<T, A: Allocator + Clone, G: Growth>(
    list: &mut ThinVec<T, A, G>,
) -> Result<ThinVec<T, A, G>, AllocError>
    ensures taken { IfOk result (λ taken. taken ≡ list.old) }
    ensures left { OnOk result (list.new.items ≡ []) }
    ensures err { OnErr result (list.new ≡ list.old) }
{
    mem::try_take(list)
}
