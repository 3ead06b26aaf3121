//! Examples that add items to a list.
ghost use Rattle.std.specs.Prelude.{◌≡◌, ◌+◌, ◌*◌, ◌<◌, ◌≤◌, ◌++◌, [], ◌∷◌, IfErr, IfNone, IfOk, IfSome, IsErrOf, IsNone, IsOk, None, OnErr, OnOk, OnSome, length, map, max, min};
ghost use Rattle.thin_vec.specs.ThinVec.{HasRoomFor, IsCauseOf, capacity_after_reserve};

use std::alloc::Allocator;
use thin_vec::{Growth, Rejected, ThinVec, ThinVecError};

/// Appends `value`, or returns it if there is no room for it. So no value is lost.
pub fn push_or_return<T: Drop, A: Allocator, G: Growth>(
    list: &mut ThinVec<T, A, G>,
    value: T,
) -> Option<T>
    ensures succeeds { HasRoomFor list.old 1 → IsNone result }
    ensures items { IfNone result (list.new.items ≡ list.old.items ++ value ∷ []) }
    ensures err { OnSome result (list.new ≡ list.old) }
    ensures value_returned { IfSome result (λ returned. returned ≡ value) }
{
    match list.push(value) {
        Ok(()) => None,
        Err(refused) => Some(refused.value),
    }
}

/// Appends both `first` and `second`, or neither of them. Requests memory at most once.
///
/// # Errors
///
/// Fails with `CapacityOverflow` if the growth rule of the list allows no capacity for two more
/// items, and with `OutOfMemory` if the allocator fails. On failure, the list is unchanged, and
/// both items are dropped.
pub fn push_both<T: Drop, A: Allocator, G: Growth>(
    list: &mut ThinVec<T, A, G>,
    first: T,
    second: T,
) -> Result<(), ThinVecError>
    ensures succeeds { HasRoomFor list.old 2 → IsOk result }
    ensures overflow { capacity_after_reserve G.rule T.row list.old 2 ≡ None
        → IsErrOf result ThinVecError.CapacityOverflow }
    ensures cause { IfErr result (IsCauseOf (capacity_after_reserve G.rule T.row list.old 2)) }
    ensures items { OnOk result (list.new.items ≡ list.old.items ++ first ∷ second ∷ []) }
    ensures err { OnErr result (list.new ≡ list.old) }
{
    list.reserve(2)?;
    list.push_reserved(first);
    list.push_reserved(second);
    Ok(())
}

/// Doubles each number of `numbers`, and appends the results to `list`. Requests memory at most
/// once.
///
/// # Errors
///
/// Fails if there is no room for the results. On failure, the list is unchanged.
pub fn append_doubled<A: Allocator, G: Growth>(
    list: &mut ThinVec<u64, A, G>,
    numbers: &[u32],
) -> Result<(), ThinVecError>
    ensures succeeds { HasRoomFor list.old (length numbers.now) → IsOk result }
    ensures items { OnOk result (list.new.items
        ≡ list.old.items ++ map (λ number. 2 * number) numbers.now) }
    ensures err { OnErr result (list.new ≡ list.old) }
{
    list.reserve(numbers.len())?;
    for number in numbers {
        list.push_reserved(2 * u64::from(*number));
    }
    Ok(())
}

/// Appends 0, and writes `number` over it through the reference that `push_mut` returns. This is
/// useful for large items, which can be filled in their place in the list.
///
/// # Errors
///
/// Fails if there is no room for one more number. On failure, the list is unchanged.
pub fn push_set<A: Allocator, G: Growth>(
    list: &mut ThinVec<u32, A, G>,
    number: u32,
) -> Result<(), ThinVecError>
    ensures succeeds { HasRoomFor list.old 1 → IsOk result }
    ensures items { OnOk result (list.new.items ≡ list.old.items ++ number ∷ []) }
    ensures err { OnErr result (list.new ≡ list.old) }
{
    let place = list.push_mut(0)?;
    *place = number;
    Ok(())
}

/// Reserves room for eight more numbers in a list of fewer than a thousand numbers.
///
/// # Errors
///
/// Fails only if the allocator fails: by the lemma `few_more`, the capacity of so short a list
/// cannot overflow. On failure, the list is unchanged.
pub fn reserve_eight<A: Allocator>(list: &mut ThinVec<u64, A>) -> Result<(), ThinVecError>
    requires few { length list.old.items < 1000 }
    ensures room { OnOk result (HasRoomFor list.new 8) }
    ensures cause { IfErr result (λ cause. cause ≡ ThinVecError.OutOfMemory) }
    ensures err { OnErr result (list.new ≡ list.old) }
{
    list.reserve(8)
}

/// Gives back the spare capacity beyond room for `room` numbers in all.
///
/// # Errors
///
/// Fails only if there is such spare capacity and the allocator fails. On failure, the capacity is
/// unchanged.
pub fn keep_room<A: Allocator, G: Growth>(
    list: &mut ThinVec<u64, A, G>,
    room: usize,
) -> Result<(), ThinVecError>
    ensures succeeds { list.old.capacity ≤ max room (length list.old.items) → IsOk result }
    ensures capacity { OnOk result (list.new.capacity
        ≡ min list.old.capacity (max room (length list.old.items))) }
    ensures items { list.new.items ≡ list.old.items }
{
    list.shrink_to(room)
}

/// Inserts `value` at `index`, removes it again, and returns it. By the lemma `undone`, the list
/// then has its old items.
///
/// # Errors
///
/// Fails if there is no room for `value`. On failure, the items of the list are unchanged, and the
/// error contains `value`.
#[tactic(auto, using(thin_vec::proofs::CallerLemmas::undone))]
pub fn insert_and_remove<T: Drop, A: Allocator, G: Growth>(
    list: &mut ThinVec<T, A, G>,
    index: usize,
    value: T,
) -> Result<T, Rejected<T>>
    requires in_bounds { index ≤ length list.old.items }
    ensures items { list.new.items ≡ list.old.items }
    ensures value { IfOk result (λ back. back ≡ value) }
{
    list.insert(index, value)?;
    Ok(list.remove(index))
}
