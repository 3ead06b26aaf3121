//! Examples of maps whose values or keys are lists.
ghost use Rattle.std.specs.Prelude.{◌≡◌, ◌≢◌, ◌+◌, ◌-◌, ◌^◌, ◌++◌, List, [], ◌∷◌, ℕ, OnErr, OnOk, min};
ghost use Rattle.thin_examples.specs.CountsByList.{count_of};
ghost use Rattle.thin_examples.specs.ListsByKey.{items_at};

use std::alloc::AllocError;
use std::collections::BTreeMap;
use thin_vec::{ThinVec, ThinVecError};

/// Appends `number` to the list at `key`. If the map has no such list, a new one is inserted first.
///
/// # Errors
///
/// Fails if there is no room for a new list in the map, or for `number` in the list. On failure,
/// every list has its old items, but an empty list may have been inserted.
pub fn append_to(
    lists: &mut BTreeMap<u32, ThinVec<u32>>,
    key: u32,
    number: u32,
) -> Result<(), ThinVecError>
    ensures items { OnOk result (items_at lists.new key ≡ items_at lists.old key ++ number ∷ []) }
    ensures others { (other : ℕ) → other ≢ key
        → items_at lists.new other ≡ items_at lists.old other }
    ensures err { OnErr result (items_at lists.new key ≡ items_at lists.old key) }
{
    let Ok(entry) = lists.entry(key) else {
        return Err(ThinVecError::OutOfMemory);
    };
    entry.or_default().push(number)?;
    Ok(())
}

/// Counts `word` once more, up to `u32::MAX` times. Two lists are the same key if they have the
/// same bytes.
///
/// # Errors
///
/// Fails if there is no memory for a new key. On failure, `word` is dropped, and no count changes.
pub fn count_word(
    counts: &mut BTreeMap<ThinVec<u8>, u32>,
    word: ThinVec<u8>,
) -> Result<(), AllocError>
    ensures word { OnOk result (count_of counts.new word.items
        ≡ min (count_of counts.old word.items + 1) (2 ^ 32 - 1)) }
    ensures others { (other : List ℕ) → other ≢ word.items
        → count_of counts.new other ≡ count_of counts.old other }
    ensures err { OnErr result (count_of counts.new word.items ≡ count_of counts.old word.items) }
{
    let count = counts.entry(word)?.or_insert(0);
    *count = count.saturating_add(1);
    Ok(())
}
