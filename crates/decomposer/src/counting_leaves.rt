//! The numbers of the leaves of a decomposition.
ghost use Rattle.std.specs.Prelude.{◌≡◌, map, IfOk};
ghost use Rattle.tree_core.specs.Common.{IsDerivation, IsTally, leaves, place_of, shape_of};

use crate::decomposition::Decomposition;
use std::alloc::{AllocError, Global};
use tight_cuts::graph_facts::Covered;
use tree_core::{Tally, kinds_at, tallied};

/// How many leaves a decomposition of a covered graph has, and how many of them are bricks and
/// braces. Takes O(k) time for k leaves; the only error is `Memory`.
pub fn tally(alloc: Global, c: &Covered, found: &Decomposition) -> Result<Tally, AllocError>
    requires derivation { IsDerivation c.now (shape_of found.now.tree) }
    requires leaves { found.now.leaves.items
        ≡ map (place_of c.now) (leaves c.now.order (shape_of found.now.tree)) }
    ensures { IfOk result (IsTally c.now (leaves c.now.order (shape_of found.now.tree))) }
{
    c.keeps_covered();
    let kinds = kinds_at(alloc, &found.leaves)?;
    Ok(tallied(&kinds))
}
