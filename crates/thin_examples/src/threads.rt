//! An example of a list that may be sent to another thread.
ghost use Rattle.std.specs.Prelude.{◌≡◌};

use std::alloc::Allocator;
use std::marker::Send;
use thin_vec::{Growth, ThinVec};

/// Passes the list to a function that asks for a `Send` type, as `thread::spawn` does, and returns
/// it. A list is `Send` if its items, its allocator and its growth rule are.
///
/// No thread is started: the programs of this repository may not start one.
pub fn send_list<T: Send, A: Allocator + Send, G: Growth + Send>(
    list: ThinVec<T, A, G>,
) -> ThinVec<T, A, G>
    ensures value { result ≡ list }
{
    send(list)
}

fn send<T: Send>(value: T) -> T
    ensures value { result ≡ value }
{
    value
}
