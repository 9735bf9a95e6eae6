//! The leaves of a tree as places.
ghost use Rattle.std.specs.Prelude.{◌≡◌, ℕ, List, map, IfOk};
ghost use Rattle.graph_core.specs.Common.{Graph};
ghost use Rattle.tree_core.specs.Places.{place_of};
ghost use Rattle.tree_core.specs.Tallies.{AreLeafKinds};

use crate::known_place::KnownPlace;
use crate::tallies::LeafKind;
use std::alloc::{AllocError as Memory, Global};

/// The kinds of the leaves at these places of a graph, in order. Takes O(k) time for k leaves; the
/// only error is `Memory`.
pub fn kinds_at(alloc: Global, leaves: &[KnownPlace]) -> Result<Vec<LeafKind>, Memory>
    ensures { (g : Graph) (ps : List (List (List ℕ))) → leaves.now ≡ map (place_of g) ps →
        IfOk result (λ kinds. AreLeafKinds g ps kinds.items) }
{
    let mut kinds = Vec::new(alloc);
    for place in leaves {
        kinds.push(place.kind())?;
    }
    Ok(kinds)
}
