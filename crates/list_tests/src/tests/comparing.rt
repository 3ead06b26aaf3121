//! Tests of how lists are compared and hashed: as the slices of their items, also if an item is
//! compared and hashed by its last decimal digit alone.
ghost use Rattle.std.proofs.Common.{rules};
ghost use Rattle.std.specs.Cmp.{partial_order_from_own_ties};
ghost use Rattle.std.specs.Cmp.Rules.{comparing, hashing};
ghost use Rattle.std.specs.Hash as fed;
ghost use Rattle.std.specs.Ordering.{as_partial_cmp, nat_cmp};
ghost use Rattle.std.specs.Prelude.{◌%◌, ◌==◌};

use crate::check;
use std::alloc::Global;
use std::cmp::Ordering;
use std::hash::{DefaultHasher, Hash, Hasher};
use std::process::Abort;
use thin_vec::{ThinVec, ThinVecError};

// A number of which only the last decimal digit is compared and hashed.
#[derive(Clone, Copy, Debug)]
struct LastDigit {
    number: u32,
}

impl PartialEq for LastDigit {
    ghost eq = { λ item other. item.number % 10 == other.number % 10 };

    ghost laws = { Prim.search (comparing, rules) };

    fn eq(&self, other: &LastDigit) -> bool {
        self.number % 10 == other.number % 10
    }
}

impl Eq for LastDigit {
    ghost laws = { Prim.search (comparing, rules) };
}

impl PartialOrd for LastDigit {
    ghost partial_cmp = { as_partial_cmp
        (λ item other. nat_cmp (item.number % 10) (other.number % 10)) };

    ghost laws = { partial_order_from_own_ties (Prim.search (comparing, rules))
        (Prim.search (comparing, rules)) };

    fn partial_cmp(&self, other: &LastDigit) -> Option<Ordering> {
        Some(self.cmp(other))
    }
}

impl Ord for LastDigit {
    ghost cmp = { λ item other. nat_cmp (item.number % 10) (other.number % 10) };

    ghost total = { Prim.search (comparing, rules) };

    ghost matches_partial_cmp = { Prim.search (comparing, rules) };

    ghost matches_eq = { Prim.search (comparing, rules) };

    fn cmp(&self, other: &LastDigit) -> Ordering {
        (self.number % 10).cmp(&(other.number % 10))
    }
}

impl Hash for LastDigit {
    ghost hash_input = { λ item. fed.u32 (item.number % 10) };

    ghost respects_eq = { Prim.search (hashing, rules) };

    fn hash<H: Hasher>(&self, state: &mut H) {
        (self.number % 10).hash(state);
    }
}

fn digits(alloc: Global, numbers: &[u32]) -> Result<ThinVec<LastDigit>, ThinVecError> {
    let mut list = ThinVec::new(alloc);
    for number in numbers {
        list.push(LastDigit { number: *number })?;
    }
    Ok(list)
}

// Returns the hash of the list.
fn hash_of<T: Hash>(list: &ThinVec<T>) -> u64 {
    let mut hasher = DefaultHasher::new();
    list.hash(&mut hasher);
    hasher.finish()
}

// Asserts the numbers of the list. A comparison of the items would not see their first digits.
fn assert_numbers(rt: &impl Abort, list: &ThinVec<LastDigit>, numbers: &[u32]) {
    check!(rt; same(list.len(), numbers.len()));
    for (item, number) in list.iter().zip(numbers) {
        check!(rt; same(item.number, *number));
    }
}

#[test]
fn dedup_keeps_the_first_of_equal_items(rt: HostRuntime) {
    let mut list = check!(rt; digits(rt.alloc(), &[10, 20, 31, 1]));
    list.dedup();
    assert_numbers(&rt, &list, &[10, 31]);
}

#[test]
fn lists_of_equal_items_are_equal_and_hash_alike(rt: HostRuntime) {
    for &(others, order) in &[
        ([0, 1], Ordering::Equal),
        ([0, 2], Ordering::Less),
        ([9, 1], Ordering::Less),
        ([40, 60], Ordering::Greater),
    ] {
        let list = check!(rt; digits(rt.alloc(), &[10, 31]));
        let other = check!(rt; digits(rt.alloc(), &others));
        let is_equal = order == Ordering::Equal;
        check!(rt; same((list == other, list.cmp(&other)), (is_equal, order)));
        check!(rt; same(hash_of(&list) == hash_of(&other), is_equal));
    }
}

fn hash_of_slice(items: &[i32]) -> u64 {
    let mut hasher = DefaultHasher::new();
    items.hash(&mut hasher);
    hasher.finish()
}

#[test]
fn a_list_and_its_slice_hash_alike(rt: HostRuntime) {
    for items in [&[][..], &[7], &[1, 2, 3], &[5; 100]] {
        let mut list = check!(rt; list_of(rt.alloc(), items));
        check!(rt; list.reserve(9));
        check!(rt; same(hash_of(&list), hash_of_slice(items)));
    }
}
