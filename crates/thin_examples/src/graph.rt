//! An example of a list of lists: the edges of a graph.
ghost use Rattle.std.specs.Prelude.{◌≡◌, ◌≢◌, ◌<◌, ◌++◌, [], ◌∷◌, ℕ, OnErr, OnOk, length, slice_index_or};
ghost use Rattle.std.specs.declared.alloc.Global.{Global};
ghost use Rattle.thin_vec.specs.ThinVec.{ListView};

use thin_vec::{ThinVec, ThinVecError};

/// Adds an edge from the node `from` to the node `to`: appends `to` to the list at `from`. (In the
/// contract, `d` is what `slice_index_or` gives for an index that is out of bounds.)
///
/// # Errors
///
/// Fails if there is no room for the edge. On failure, no list changes.
pub fn add_edge(edges: &mut ThinVec<ThinVec<u32>>, from: usize, to: u32) -> Result<(), ThinVecError>
    requires in_bounds { from < length edges.old.items }
    ensures items { OnOk result ((d : ListView ℕ Global)
        → (slice_index_or edges.new.items from d).items
        ≡ (slice_index_or edges.old.items from d).items ++ to ∷ []) }
    ensures others { (other : ℕ) (d : ListView ℕ Global) → other ≢ from
        → slice_index_or edges.new.items other d ≡ slice_index_or edges.old.items other d }
    ensures len { length edges.new.items ≡ length edges.old.items }
    ensures err { OnErr result (edges.new ≡ edges.old) }
{
    edges[from].push(to)?;
    Ok(())
}
