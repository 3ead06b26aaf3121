//! Examples that move items from one list to another, or to a `Vec`.
ghost use Rattle.std.specs.Fn.{CalledAtMut};
ghost use Rattle.std.specs.Prelude.{◌≡◌, ◌-◌, ◌/◌, ◌%◌, ◌==◌, ◌≤◌, ◌++◌, IfOk, IsOk, List, OnErr, OnOk, drop, filter, length, not, slice_range, take, vec_capacity};
ghost use Rattle.thin_vec.specs.Edits.ExtractIf.{ExtractsInTurn};
ghost use Rattle.thin_vec.specs.ThinVec.{HasRoomFor};

use std::alloc::{AllocError, Allocator, Global};
use thin_vec::{Growth, ThinVec, ThinVecError};

/// Moves the items of `list` at the indices `start..end` to the end of `other`.
///
/// # Errors
///
/// Fails if there is no room for the items in `other`. On failure, both lists are unchanged.
pub fn hand_over<T: Drop, A: Allocator, G: Growth>(
    list: &mut ThinVec<T, A, G>,
    start: usize,
    end: usize,
    other: &mut ThinVec<T, A, G>,
) -> Result<(), ThinVecError>
    requires start_le_end { start ≤ end }
    requires in_bounds { end ≤ length list.old.items }
    ensures succeeds { HasRoomFor other.old (end - start) → IsOk result }
    ensures items { OnOk result
        (list.new.items ≡ take start list.old.items ++ drop end list.old.items) }
    ensures other_items { OnOk result
        (other.new.items ≡ other.old.items ++ slice_range list.old.items start end) }
    ensures err { OnErr result (list.new ≡ list.old) }
    ensures other_err { OnErr result (other.new ≡ other.old) }
{
    other.reserve(end - start)?;
    for item in list.drain(start, end) {
        other.push_reserved(item);
    }
    Ok(())
}

/// Moves the second half of the items of `list` to a new list.
///
/// # Errors
///
/// Fails if `alloc` refuses the memory for the new list. On failure, `list` is unchanged.
pub fn second_half<A: Allocator, G: Growth>(
    alloc: A,
    list: &mut ThinVec<u32, A, G>,
) -> Result<ThinVec<u32, A, G>, ThinVecError>
    ensures items { OnOk result (list.new.items
        ≡ take (length list.old.items / 2) list.old.items) }
    ensures half { IfOk result (λ half. half.items
        ≡ drop (length list.old.items / 2) list.old.items) }
    ensures err { OnErr result (list.new ≡ list.old) }
{
    let middle = list.len() / 2;
    list.split_off(alloc, middle)
}

/// Moves the items of `list` at the indices `start..end` for which `pick` returns true to the end
/// of `other`. The contract says which calls of `pick` were made, and what they returned.
///
/// # Errors
///
/// Fails if there is no room for the whole range in `other`. On failure, both lists are unchanged.
pub fn hand_over_where<T: Drop, A: Allocator, G: Growth, F: FnMut(&mut T) -> bool + Drop>(
    list: &mut ThinVec<T, A, G>,
    start: usize,
    end: usize,
    other: &mut ThinVec<T, A, G>,
    pick: F,
) -> Result<(), ThinVecError>
    requires start_le_end { start ≤ end }
    requires in_bounds { end ≤ length list.old.items }
    requires callable { F.IsAlwaysCallable pick }
    ensures succeeds { HasRoomFor other.old (end - start) → IsOk result }
    ensures moved { OnOk result ((moved kept : List T) × (last : F)
        × ExtractsInTurn (CalledAtMut F.FnMut) pick (slice_range list.old.items start end) moved kept
        last
        × (list.new.items ≡ (take start list.old.items ++ kept) ++ drop end list.old.items)
        × (other.new.items ≡ other.old.items ++ moved)) }
    ensures err { OnErr result (list.new ≡ list.old) }
    ensures other_err { OnErr result (other.new ≡ other.old) }
{
    other.reserve(end - start)?;
    let mut picked = list.extract_if(start, end, pick);
    while let Some(item) = picked.next() {
        other.push_reserved(item);
    }
    Ok(())
}

/// Moves the odd numbers of `list` to the end of `other`, and leaves the even numbers in `list`.
///
/// # Errors
///
/// Fails if there is no room for `list.len()` numbers in `other`. On failure, both lists are
/// unchanged.
pub fn hand_over_odd<A: Allocator, G: Growth>(
    list: &mut ThinVec<u32, A, G>,
    other: &mut ThinVec<u32, A, G>,
) -> Result<(), ThinVecError>
    ensures succeeds { HasRoomFor other.old (length list.old.items) → IsOk result }
    ensures items { OnOk result
        (list.new.items ≡ filter (λ number. not (number % 2 == 1)) list.old.items) }
    ensures other_items { OnOk result (other.new.items
        ≡ other.old.items ++ filter (λ number. number % 2 == 1) list.old.items) }
    ensures err { OnErr result (list.new ≡ list.old) }
    ensures other_err { OnErr result (other.new ≡ other.old) }
{
    let len = list.len();
    hand_over_where(list, 0, len, other, |number: &mut u32| *number % 2 == 1)?;
    Ok(())
}

/// Moves the numbers of `list` into a `Vec` without spare capacity.
///
/// # Errors
///
/// Fails if the allocator fails. On failure, the numbers are dropped.
pub fn moved_to_vec(list: ThinVec<u32>, alloc: Global) -> Result<Vec<u32>, AllocError>
    ensures items { IfOk result (λ vec. vec.items ≡ list.items) }
    ensures capacity { IfOk result (λ vec. vec_capacity vec ≡ length list.items) }
{
    Ok(list.into_vec(alloc)?)
}
