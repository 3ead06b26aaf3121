//! The macro `thin_vec!`, which makes a list of its arguments.
ghost use Rattle.std.specs.Align.{type_align};
ghost use Rattle.std.specs.Mem.{type_size};
ghost use Rattle.std.specs.Prelude.{◌≡◌, [], IfOk, IsOk, Some, replicate};
ghost use Rattle.thin_block.specs.Cost.{add_moves};
ghost use Rattle.thin_block.specs.Growth.{doubling, grown_capacity};
ghost use Rattle.thin_vec.specs.List.Clones.{IsResized};
ghost use Rattle.thin_vec.specs.ThinVec.{cost_of_new};
ghost use Rattle.thin_vec.specs.List.Capacity.{OverflowsIff, IsFreshList};

use crate::list::ThinVec;
use std::alloc::Allocator;
use thin_block::ThinVecError;

/// Makes a list with the growth rule `Doubling`. The macro evaluates to a
/// `Result<ThinVec<T, A>, ThinVecError>`, and has three forms:
///
/// - `thin_vec![alloc =>]` makes an empty list without an allocation.
/// - `thin_vec![alloc => x, y]` makes a list of the given items. The capacity is the number of
///   items.
/// - `thin_vec![alloc => x; k]` makes a list of `k` items: clones of `x`, and then `x` itself.
///   `Doubling` chooses the capacity. If `k` is 0, `x` is dropped.
///
/// Instead of `alloc =>`, you can write `in alloc;`, as in `thin_vec![in alloc; x, y]`. The first
/// form is then `thin_vec![in alloc]`.
///
/// # Errors
///
/// On failure, `x` and its clones are dropped.
///
/// - `CapacityOverflow`: the capacity would be too large.
/// - `OutOfMemory`: the allocator failed or, in the third form, `x` could not be cloned.
#[macro_export]
macro_rules! thin_vec {
    ($alloc:expr =>) => {
        Ok::<_, $crate::ThinVecError>($crate::ThinVec::new($alloc))
    };
    (in $alloc:expr) => {
        $crate::thin_vec![$alloc =>]
    };
    (in $alloc:expr; $($items:tt)+) => {
        $crate::thin_vec![$alloc => $($items)+]
    };
    ($alloc:expr => $item:expr; $count:expr) => {
        $crate::repeated($alloc, $item, $count)
    };
    // The type of a literal is no type parameter, so an array of literals needs no precondition
    // about its size. The proof of a caller takes less time than with a push for each.
    ($alloc:expr => $($item:literal),+ $(,)?) => {
        match $crate::ThinVec::from_array($alloc, [$($item),+]) {
            Ok(list) => Ok::<_, $crate::ThinVecError>(list),
            Err(refused) => Err(refused.cause),
        }
    };
    ($alloc:expr => $($item:expr),+ $(,)?) => {
        match $crate::ThinVec::with_capacity($alloc, 0 $(+ $crate::one_for!($item))+) {
            Ok(mut list) => {
                $($crate::ThinVec::push_reserved(&mut list, $item);)+
                Ok::<_, $crate::ThinVecError>(list)
            }
            Err(cause) => Err(cause),
        }
    };
    ($($other:tt)*) => {
        compile_error!(
            "`thin_vec!` takes an allocator first: write `thin_vec![alloc => 1, 2]?` or \
             `thin_vec![alloc => 0; n]?`"
        )
    };
}

/// Gives 1 without evaluating its argument.
#[doc(hidden)]
#[macro_export]
macro_rules! one_for {
    ($item:expr) => {
        1
    };
}

/// Makes the list for `thin_vec![alloc => value; count]`.
#[doc(hidden)]
pub fn repeated<T: Clone, A: Allocator>(
    alloc: A,
    value: T,
    count: usize,
) -> Result<ThinVec<T, A>, ThinVecError>
    // On success.
    ensures items { IfOk result (λ list. IsResized T.is_clone [] count value list.items) }
    ensures items_if_clones_equal { IfOk result (λ list. ((clone : T) → T.is_clone value clone
        → clone ≡ value) → list.items ≡ replicate count value) }
    ensures capacity { IfOk result
        (λ list. grown_capacity doubling (type_size T.row) (type_align T.row) 0 count
        ≡ Some list.capacity) }
    ensures cost { IfOk result (λ list. list.cost ≡ add_moves count (cost_of_new list.capacity)) }
    ensures fresh { IfOk result (IsFreshList T.row alloc) }

    // When it must succeed. In every other case it may fail.
    ensures succeeds { count ≡ 0 → IsOk result }

    // On failure.
    ensures overflow { OverflowsIff
        (grown_capacity doubling (type_size T.row) (type_align T.row) 0 count) result }
{
    let mut list = ThinVec::new(alloc);
    list.resize(count, value)?;
    Ok(list)
}
