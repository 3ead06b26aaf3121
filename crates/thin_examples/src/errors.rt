//! Examples that pass an error on with `?`.
ghost use Rattle.std.specs.IoError.{error_kind};
ghost use Rattle.std.specs.Prelude.{◌≡◌, ◌+◌, ◌↔◌, [], ◌∷◌, ◌++◌, ◌<◌, IfErr, IfOk, IsErrOf, IsOk, OnErr, OnOk, length, take};
ghost use Rattle.thin_vec.specs.ThinVec.{HasRoomFor};

use std::alloc::Allocator;
use std::io::{self, ErrorKind, Write};
use thin_vec::{Growth, Rejected, ThinVec, ThinVecError};
use thiserror::Error;

/// The reason why an order was not accepted.
#[derive(Debug, Drop, Error)]
pub enum OrderError {
    #[error("an order for no piece")]
    NoPiece,
    #[error("no room for the order: {0}")]
    NoRoom(ThinVecError),
}

impl From<ThinVecError> for OrderError {
    ghost use Rattle.thin_examples.specs.declared.errors.OrderError.{OrderError};

    ghost from_gives = { λ cause error. error ≡ OrderError.NoRoom cause };

    fn from(cause: ThinVecError) -> OrderError {
        OrderError::NoRoom(cause)
    }
}

impl<S: Drop> From<Rejected<S>> for OrderError {
    ghost use Rattle.thin_examples.specs.declared.errors.OrderError.{OrderError};

    ghost from_gives = { λ refused error. error ≡ OrderError.NoRoom refused.cause };

    // The value is dropped.
    fn from(refused: Rejected<S>) -> OrderError {
        OrderError::NoRoom(refused.cause)
    }
}

/// Appends an order for `pieces` pieces to `orders`.
///
/// # Errors
///
/// Returns `NoPiece` if `pieces` is 0, and `NoRoom` if there is no room for the order. In both
/// cases, `orders` is unchanged.
pub fn take_order(orders: &mut ThinVec<u32>, pieces: u32) -> Result<(), OrderError>
    ensures succeeds { HasRoomFor orders.old 1 → 0 < pieces → IsOk result }
    ensures no_piece { IsErrOf result OrderError.NoPiece ↔ (pieces ≡ 0) }
    ensures items { OnOk result (orders.new.items ≡ orders.old.items ++ pieces ∷ []) }
    ensures err { OnErr result (orders.new ≡ orders.old) }
{
    if pieces == 0 {
        return Err(OrderError::NoPiece);
    }
    orders.push(pieces)?;
    Ok(())
}

/// Moves all orders of `other` to the end of `orders`.
///
/// # Errors
///
/// Returns `NoRoom` if there is no room for the orders of `other`. On failure, both lists are
/// unchanged.
pub fn take_orders<A: Allocator, G: Growth>(
    orders: &mut ThinVec<u32, A, G>,
    other: &mut ThinVec<u32, A, G>,
) -> Result<(), OrderError>
    ensures succeeds { HasRoomFor orders.old (length other.old.items) → IsOk result }
    ensures items { OnOk result (orders.new.items ≡ orders.old.items ++ other.old.items) }
    ensures some_piece { ¬ (IsErrOf result OrderError.NoPiece) }
    ensures err { OnErr result (orders.new ≡ orders.old) }
    ensures other_err { OnErr result (other.new ≡ other.old) }
{
    orders.append(other)?;
    Ok(())
}

/// Appends `line` and then a newline to `bytes`. The errors of both calls become an `io::Error`.
///
/// # Errors
///
/// Fails if there is no room for the new bytes. On failure, `bytes` keeps its old bytes, but `line`
/// may have been appended without the newline.
pub fn write_line<A: Allocator, G: Growth>(
    bytes: &mut ThinVec<u8, A, G>,
    line: &[u8],
) -> io::Result<()>
    ensures succeeds { HasRoomFor bytes.old (length line.now + 1) → IsOk result }
    ensures cause { IfErr result (λ error. error_kind error ≡ ErrorKind.OutOfMemory) }
    ensures items { OnOk result (bytes.new.items ≡ bytes.old.items ++ (line.now ++ 10 ∷ [])) }
    ensures kept { take (length bytes.old.items) bytes.new.items ≡ bytes.old.items }
{
    bytes.extend_from_copies(line)?;
    bytes.push(b'\n')?;
    Ok(())
}

/// Appends `part`, and returns how many bytes it has: a list takes all of them, or none.
///
/// # Errors
///
/// Fails if there is no room for `part`. On failure, `bytes` is unchanged.
pub fn write_part<A: Allocator, G: Growth>(
    bytes: &mut ThinVec<u8, A, G>,
    part: &[u8],
) -> io::Result<usize>
    ensures count { IfOk result (λ count. count ≡ length part.now) }
    ensures items { OnOk result (bytes.new.items ≡ bytes.old.items ++ part.now) }
    ensures err { OnErr result (bytes.new ≡ bytes.old) }
{
    bytes.write(part)
}
