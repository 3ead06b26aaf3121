//! Examples whose contracts say how often a list grows, and how many items are moved.
ghost use Rattle.std.specs.Prelude.{◌≡◌, ◌+◌, ◌*◌, ◌<◌, ◌≤◌, ◌++◌, [], ◌∷◌, IfOk, IsTrue, OnOk, insert, length, remove};
ghost use Rattle.thin_vec.specs.Cheap.{IsCheap};

use crate::commands::{Evens, add, all_granted};
use std::alloc::{AllocError, Allocator};
use std::iter::once;
use thin_runner::command::{Command, Step};
use thin_runner::hinted::Hinted;
use thin_runner::runner::run;
use thin_vec::{Growth, ThinVec, ThinVecError, thin_vec};

/// Makes a list, and pushes 17 numbers onto it. The list requests memory four times. The last three
/// requests copy 4, 8 and 16 items.
///
/// # Errors
///
/// Fails if there is not enough memory.
pub fn pushed_seventeen<A: Allocator>(alloc: A) -> Result<ThinVec<u32, A>, ThinVecError>
    ensures len { IfOk result (λ list. length list.items ≡ 17) }
    ensures capacity { IfOk result (λ list. list.capacity ≡ 32) }
    ensures grown { IfOk result (λ list. list.cost.grown ≡ 28) }
    ensures blocks { IfOk result (λ list. list.cost.blocks ≡ 4) }
{
    let mut list = pushed_five(alloc)?;
    push_into_room(&mut list, 3)?;
    push_when_full(&mut list)?;
    push_into_room(&mut list, 7)?;
    push_when_full(&mut list)?;
    Ok(list)
}

// Makes a list, and pushes five numbers onto it. The list requests memory twice: for the first
// number, and for the fifth. The second request copies four items.
fn pushed_five<A: Allocator>(alloc: A) -> Result<ThinVec<u32, A>, ThinVecError>
    ensures len { IfOk result (λ list. length list.items ≡ 5) }
    ensures capacity { IfOk result (λ list. list.capacity ≡ 8) }
    ensures grown { IfOk result (λ list. list.cost.grown ≡ 4) }
    ensures blocks { IfOk result (λ list. list.cost.blocks ≡ 2) }
{
    let mut list = ThinVec::new(alloc);
    push_first(&mut list)?;
    push_into_room(&mut list, 3)?;
    push_when_full(&mut list)?;
    Ok(list)
}

// Pushes a number onto a list without a block, which then has room for four.
#[tactic(auto, unfolding(thin_block::specs::Growth::doubling, thin_block::specs::Growth::grown_capacity, thin_block::specs::Growth::checked_capacity, thin_block::specs::Capacity::min_non_zero_cap))]
fn push_first<A: Allocator>(list: &mut ThinVec<u32, A>) -> Result<(), ThinVecError>
    requires empty { list.old.items ≡ [] }
    requires no_block { list.old.capacity ≡ 0 }
    ensures items { OnOk result (list.new.items ≡ 7 ∷ []) }
    ensures capacity { OnOk result (list.new.capacity ≡ 4) }
    ensures grown { OnOk result (list.new.cost.grown ≡ list.old.cost.grown) }
    ensures blocks { OnOk result (list.new.cost.blocks ≡ list.old.cost.blocks + 1) }
{
    list.push(7)?;
    Ok(())
}

// Pushes a number onto a full list, which doubles its capacity.
#[tactic(auto, unfolding(thin_block::specs::Growth::doubling, thin_block::specs::Growth::grown_capacity, thin_block::specs::Growth::checked_capacity))]
fn push_when_full<A: Allocator>(list: &mut ThinVec<u32, A>) -> Result<(), ThinVecError>
    requires full { length list.old.items ≡ list.old.capacity }
    requires has_block { 1 ≤ list.old.capacity }
    ensures len { OnOk result (length list.new.items ≡ length list.old.items + 1) }
    ensures capacity { OnOk result (list.new.capacity ≡ 2 * list.old.capacity) }
    ensures grown { OnOk result
        (list.new.cost.grown ≡ list.old.cost.grown + length list.old.items) }
    ensures blocks { OnOk result (list.new.cost.blocks ≡ list.old.cost.blocks + 1) }
{
    list.push(7)?;
    Ok(())
}

// Pushes `count` numbers, for which there is room.
fn push_into_room<A: Allocator>(
    list: &mut ThinVec<u32, A>,
    count: usize,
) -> Result<(), ThinVecError>
    requires room { length list.old.items + count ≤ list.old.capacity }
    ensures len { OnOk result (length list.new.items ≡ length list.old.items + count) }
    ensures capacity { list.new.capacity ≡ list.old.capacity }
    ensures grown { OnOk result (list.new.cost.grown ≡ list.old.cost.grown) }
    ensures blocks { OnOk result (list.new.cost.blocks ≡ list.old.cost.blocks) }
{
    for _ in 0..count {
        list.push(7)?;
    }
    Ok(())
}

/// Inserts a value at the second place of a list of three items with room for it. The value and the
/// two items after it are moved.
///
/// # Errors
///
/// Fails if there is no room for the value.
pub fn inserted_second<T: Drop, A: Allocator, G: Growth>(
    list: &mut ThinVec<T, A, G>,
    value: T,
) -> Result<(), ThinVecError>
    requires three { length list.old.items ≡ 3 }
    ensures items { OnOk result (list.new.items ≡ insert list.old.items 1 value) }
    ensures three_moves { OnOk result (list.new.cost.moves ≡ list.old.cost.moves + 3) }
{
    list.insert(1, value)?;
    Ok(())
}

/// Removes and returns the first of five items. The four items after it are moved.
pub fn removed_first<T, A: Allocator, G: Growth>(list: &mut ThinVec<T, A, G>) -> T
    requires five { length list.old.items ≡ 5 }
    ensures items { list.new.items ≡ remove list.old.items 0 }
    ensures four_moves { list.new.cost.moves ≡ list.old.cost.moves + 4 }
{
    list.remove(0)
}

/// Drains four of six items, of which it takes the first and the last. The item after the range is
/// moved.
pub fn drained_four<T: Drop, A: Allocator, G: Growth>(
    list: &mut ThinVec<T, A, G>,
) -> (Option<T>, Option<T>)
    requires six { length list.old.items ≡ 6 }
    ensures len { length list.new.items ≡ 2 }
    ensures one_move { list.new.cost.moves ≡ list.old.cost.moves + 1 }
{
    let mut drain = list.drain(1, 5);
    let first = drain.next();
    let last = drain.next_back();
    (first, last)
}

/// Extracts the first even number of four in a list of six. The four numbers after it are moved.
pub fn extracted_two<A: Allocator>(list: &mut ThinVec<u32, A>) -> Option<u32>
    requires to_six { list.old.items ≡ 1 ∷ 2 ∷ 3 ∷ 4 ∷ 5 ∷ 6 ∷ [] }
    ensures items { list.new.items ≡ 1 ∷ 3 ∷ 4 ∷ 5 ∷ 6 ∷ [] }
    ensures four_moves { list.new.cost.moves ≡ list.old.cost.moves + 4 }
{
    let mut extract = list.extract_if(1, 5, |number: &mut u32| *number % 2 == 0);
    extract.next()
}

/// Replaces the third and the fourth of five numbers with three new numbers, of which the iterator
/// claims to yield at least `lower`. Whatever the claim is, each new number is moved once, and the
/// fifth number at most twice.
///
/// # Errors
///
/// Fails if there is not enough memory, or if a capacity for `lower` items would be too large.
pub fn spliced_by_claim<A: Allocator + Copy, G: Growth>(
    list: &mut ThinVec<u32, A, G>,
    lower: usize,
    alloc: A,
) -> Result<(), ThinVecError>
    requires five { length list.old.items ≡ 5 }
    ensures five_moves { OnOk result (list.new.cost.moves ≤ list.old.cost.moves + 5) }
{
    let numbers = thin_vec![alloc => 10, 11, 12]?.into_vec(alloc)?;
    list.splice(2, 4, Hinted::new(numbers, lower))
        .finish(alloc)?;
    Ok(())
}

/// Drains no item at the end of a list of six. No item is moved.
pub fn drained_none<T: Drop, A: Allocator, G: Growth>(list: &mut ThinVec<T, A, G>)
    requires six { length list.old.items ≡ 6 }
    ensures items { list.new.items ≡ list.old.items }
    ensures no_move { list.new.cost ≡ list.old.cost }
{
    list.drain(6, 6);
}

/// Retains all items. No item is moved.
pub fn retained_all<T: Drop, A: Allocator, G: Growth>(list: &mut ThinVec<T, A, G>)
    ensures items { list.new.items ≡ list.old.items }
    ensures no_move { list.new.cost ≡ list.old.cost }
{
    list.retain(|_item: &T| true);
}

/// Makes a list, appends six items, replaces two of them with one, extracts two, splits the list,
/// and pops one. The moves of all these calls together are at most 14.
///
/// # Errors
///
/// Fails if there is not enough memory.
pub fn edited<A: Allocator + Copy>(alloc: A) -> Result<ThinVec<u32, A>, AllocError>
    ensures len { IfOk result (λ list. length list.items ≡ 2) }
    ensures moves { IfOk result (λ list. list.cost.moves ≤ 14) }
{
    let mut list = ThinVec::new(alloc);
    list.extend(thin_vec![alloc => 1, 2, 3, 4, 5, 6]?.into_iter())?;
    nine_for_two(&mut list, alloc)?;
    even_out(&mut list);
    let _nothing = list.split_off(alloc, 3)?;
    let _five = list.pop();
    Ok(list)
}

/// Makes the same edits as `edited` by one `run` of six commands, of which one has a range that
/// ends before it begins. The moves of all six together are at most 14.
///
/// # Errors
///
/// Fails if there is not enough memory.
pub fn edited_by_run<A: Allocator + Copy>(
    alloc: A,
    list: &mut ThinVec<u64, A>,
) -> Result<(), AllocError>
    requires empty { list.old.items ≡ [] }
    ensures fourteen_moves { OnOk result (list.new.cost.moves ≤ list.old.cost.moves + 14) }
{
    let mut commands = Vec::new(alloc);
    let six = Vec::from_array(alloc, [1, 2, 3, 4, 5, 6])?;
    add(&mut commands, Command::Extend(six, 6))?;
    let front = Vec::from_array(alloc, [Step::Front])?;
    let nine = Vec::from_array(alloc, [9])?;
    add(&mut commands, Command::Splice(1, 3, front, nine, 1))?;
    add(&mut commands, Command::ExtractIf(0, 5, 2))?;
    add(&mut commands, Command::SplitOff(3))?;
    let no_steps = Vec::new(alloc);
    let seven = Vec::from_array(alloc, [7])?;
    add(&mut commands, Command::Splice(2, 1, no_steps, seven, 1))?;
    add(&mut commands, Command::Pop)?;
    let mut replies = Vec::new(alloc);
    run(alloc, list, commands, &mut replies, &Evens)?;
    all_granted(replies.as_slice())?;
    Ok(())
}

// Replaces 2 and 3 with 9.
fn nine_for_two<A: Allocator>(list: &mut ThinVec<u32, A>, alloc: A) -> Result<(), AllocError>
    requires to_six { list.old.items ≡ 1 ∷ 2 ∷ 3 ∷ 4 ∷ 5 ∷ 6 ∷ [] }
    ensures items { OnOk result (list.new.items ≡ 1 ∷ 9 ∷ 4 ∷ 5 ∷ 6 ∷ []) }
    ensures moves { OnOk result (list.new.cost.moves ≤ list.old.cost.moves + 7) }
{
    list.splice(1, 3, once(9)).finish(alloc)?;
    Ok(())
}

// Extracts 4 and 6. Only 5 is moved.
fn even_out<A: Allocator>(list: &mut ThinVec<u32, A>)
    requires five { list.old.items ≡ 1 ∷ 9 ∷ 4 ∷ 5 ∷ 6 ∷ [] }
    ensures items { list.new.items ≡ 1 ∷ 9 ∷ 5 ∷ [] }
    ensures moves { list.new.cost.moves ≡ list.old.cost.moves + 1 }
{
    let mut extract = list.extract_if(0, 5, |number: &mut u32| *number % 2 == 0);
    let _four = extract.next();
    let _six = extract.next();
}

/// Pushes the numbers of a slice one by one onto any list. Growth copies at most as many items as
/// the capacity increases, and a cheap list stays cheap.
///
/// # Errors
///
/// Fails if there is not enough memory. On failure, the first `k` numbers have been pushed, for
/// some `k`.
pub fn push_each<A: Allocator, G: Growth>(
    list: &mut ThinVec<u32, A, G>,
    numbers: &[u32],
) -> Result<(), ThinVecError>
    ensures items { OnOk result (list.new.items ≡ list.old.items ++ numbers.now) }
    ensures copied { list.new.cost.grown + list.old.capacity
        ≤ list.old.cost.grown + list.new.capacity }
    ensures cheap { IsCheap list.old → IsCheap list.new }
{
    for number in numbers {
        list.push(*number)?;
    }
    Ok(())
}

/// Appends the numbers of a slice to a full list that has at least as many. Whatever the size hint
/// of the iterator, the capacity doubles, by one request, which copies the old numbers.
pub fn fill_twice<A: Allocator>(list: &mut ThinVec<u32, A>, numbers: &[u32]) -> bool
    requires full { length list.old.items ≡ list.old.capacity }
    requires some { 0 < length numbers.now }
    requires few { length numbers.now ≤ list.old.capacity }
    ensures items { IsTrue result → list.new.items ≡ list.old.items ++ numbers.now }
    ensures capacity { IsTrue result → list.new.capacity ≡ 2 * list.old.capacity }
    ensures blocks { IsTrue result → list.new.cost.blocks ≡ list.old.cost.blocks + 1 }
    ensures grown { IsTrue result
        → list.new.cost.grown ≡ list.old.cost.grown + list.old.capacity }
{
    match list.extend(numbers.iter().copied()) {
        Ok(()) => true,
        Err(_refused) => false,
    }
}
