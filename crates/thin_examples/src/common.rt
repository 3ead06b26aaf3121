//! Common calls, one after the other. Each comment names the task of its line.

use std::alloc::Global;
use thin_vec::{ThinVec, ThinVecError, thin_vec};

/// Returns one list with the items of four lists. Fails if there is not enough memory.
pub fn made(alloc: Global) -> Result<ThinVec<u32>, ThinVecError> {
    let mut list = thin_vec![alloc => 1, 2]?; // from given items
    let mut zeros = thin_vec![alloc => 0; 3]?; // three zeros
    let mut pair = ThinVec::from_array(alloc, [3, 4])?; // from an array
    let mut range = (5..8).collect::<ThinVec<_>>(alloc)?; // from an iterator
    let mut numbers = ThinVec::new(alloc); // an empty list
    numbers.append(&mut list)?;
    numbers.append(&mut zeros)?;
    numbers.append(&mut pair)?;
    numbers.append(&mut range)?;
    Ok(numbers)
}

/// Adds items to the list. Fails if there is not enough memory.
pub fn filled(list: &mut ThinVec<u32>, other: &mut ThinVec<u32>) -> Result<(), ThinVecError> {
    list.push(7)?; // append an item
    list.insert(0, 8)?; // insert an item at an index; the index must be at most `list.len()`
    list.append(other)?; // move all items of `other` to the end of `list`
    list.extend(5..9)?; // append the items of an iterator
    list.extend_from_slice(&[1, 2])?; // append the items of a slice
    list.reserve(2)?; // reserve room for two more items
    list.push_reserved(8); // append an item; requires that there is room, and cannot fail
    list.push_reserved(9);
    Ok(())
}

/// Writes, replaces and removes items of the list. Fails if there is not enough memory.
pub fn replaced(alloc: Global, list: &mut ThinVec<u32>) -> Result<(), ThinVecError> {
    if list.len() >= 3 { // `rt check` rejects an index or a range that may be out of bounds
        list[0] = 9; // write an item
        list.splice(1, 3, 20..23).finish(alloc)?; // replace two items by 20, 21, 22
    }
    if list.len() >= 3 {
        list.drain(1, 3); // remove the second and third items
    }
    if list.len() > 0 {
        let _first = list.remove(0); // remove and return the first item
    }
    let _last = list.pop(); // remove and return the last item, if there is one
    Ok(())
}

/// Sorts the list, removes items, and returns the odd ones. Fails if there is no memory for them.
pub fn sifted(alloc: Global, list: &mut ThinVec<u32>) -> Result<ThinVec<u32>, ThinVecError> {
    list.sort_unstable(); // sort; equal items may be reordered
    list.dedup(); // remove each item that equals the one before it
    list.retain(|x| *x < 22); // keep only the items that are less than 22
    let mut odd = ThinVec::new(alloc);
    let len = list.len();
    odd.extend(list.extract_if(0, len, |x: &mut u32| *x % 2 == 1))?; // move the odd items to `odd`
    Ok(odd)
}

/// Adds 1 to each item, and returns the greatest.
pub fn raised(list: &mut ThinVec<u32>) -> u32 {
    for x in list.as_mut_slice().iter_mut() {
        *x = x.saturating_add(1); // write in a loop; `*x + 1` could overflow
    }
    let mut greatest = 0;
    for x in list.as_slice() {
        greatest = greatest.max(*x); // read in a loop
    }
    greatest
}
