//! Makes a list, pushes an item, and prints the list.
#![tactic(auto)]

ghost use Rattle.std.specs.Prelude.{◌≡◌, [], ◌∷◌, IfOk};

use std::alloc::Allocator;
use std::io;
use thin_vec::{ThinVec, ThinVecError, thin_vec};

/// Returns the list 3, 4, 5. Fails if the allocator is out of memory.
fn first_list<A: Allocator>(alloc: A) -> Result<ThinVec<u32, A>, ThinVecError>
    ensures three_items { IfOk result (λ list. list.items ≡ 3 ∷ 4 ∷ 5 ∷ []) }
{
    let mut list = thin_vec![alloc => 3, 4]?;
    list.push(5)?;
    Ok(list)
}

fn main(host: HostRuntime) -> io::Result<()> {
    match first_list(host.alloc()) {
        Ok(list) => println!(host; "{list:?}"),
        Err(error) => println!(host; "{error}"),
    }
}
