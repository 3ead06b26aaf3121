//! Examples that collect items up to the first error, or into two lists.
ghost use Rattle.std.specs.List.{AllZip, filter};
ghost use Rattle.std.specs.Prelude.{◌≡◌, ◌%◌, ◌==◌, IfOk, map, not};
ghost use Rattle.std.specs.Str.Parse.{IsNumeral, digits_value, without_leading_plus};

use std::alloc::{AllocError, Allocator};
use std::num::ParseIntError;
use thin_vec::ThinVec;
use thiserror::Error;

/// The reason why words did not become a list of numbers.
#[derive(Debug, Drop, Error)]
pub enum WordsError {
    #[error("a word is no number: {0}")]
    NoNumber(#[from] ParseIntError),
    #[error("no room for the numbers: {0}")]
    NoRoom(#[from] AllocError),
}

/// Parses each word as a number, and collects the numbers.
///
/// # Errors
///
/// Returns `NoNumber` for the first word that is no `u32`, and `NoRoom` if there is not enough
/// memory for the numbers before it.
pub fn parsed<A: Allocator>(alloc: A, words: &[&str]) -> Result<ThinVec<u32, A>, WordsError>
    ensures items { IfOk result (λ list. AllZip (λ word number.
        IsNumeral 10 (without_leading_plus word.now)
        × (number ≡ digits_value 10 (without_leading_plus word.now))) words.now list.items) }
{
    words
        .iter()
        .map(|word| -> Result<u32, WordsError> { Ok(word.parse()?) })
        .try_collect(alloc)
}

/// Divides the numbers of `list` among two new lists: the odd numbers, and the even ones.
///
/// # Errors
///
/// Fails if the allocator cannot be cloned, or if there is not enough memory for the new lists. On
/// failure, the numbers are dropped.
pub fn parted<A: Allocator + Clone>(
    alloc: A,
    list: ThinVec<u32, A>,
) -> Result<(ThinVec<u32, A>, ThinVec<u32, A>), AllocError>
    ensures items { IfOk result
        (λ lists. (lists.0.items ≡ filter (λ number. number % 2 == 1) list.items)
        × (lists.1.items ≡ filter (λ number. not (number % 2 == 1)) list.items)) }
{
    list.into_iter().partition(alloc, |number| *number % 2 == 1)
}

/// Moves the first fields of the pairs to one new list, and the second fields to another.
///
/// # Errors
///
/// Fails if the allocator cannot be cloned, or if there is not enough memory for the new lists. On
/// failure, the pairs are dropped.
pub fn unzipped<A: Allocator + Clone>(
    alloc: A,
    pairs: ThinVec<(u32, char), A>,
) -> Result<(ThinVec<u32, A>, ThinVec<char, A>), AllocError>
    ensures items { IfOk result
        (λ lists. (lists.0.items ≡ map (λ pair. pair.0) pairs.items)
        × (lists.1.items ≡ map (λ pair. pair.1) pairs.items)) }
{
    pairs.into_iter().unzip(alloc)
}
