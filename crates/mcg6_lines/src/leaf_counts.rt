//! The numbers of bricks and braces of a covered graph.
ghost use Rattle.std.specs.Prelude.{◌≡◌, map, IfOk, Some};
ghost use Rattle.leaf_kinds.specs.LeafKinds.{IsKind, cut_of};
ghost use Rattle.leaf_kinds.specs.from_tight_cuts.Common.{candidates, first_shore};
ghost use Rattle.tree_core.specs.Common.{IsDerivation, leaves, place_of, shape_of};
ghost use Rattle.mcg6_lines.specs.Standings.{IsCounted};

use decomposer::{Decomposition, NamedOrder, decompose_places, decompose_places_from_first, tally};
use graph_core::Kind;
use graph_core::vset_core::VSet;
use leaf_kinds::graph_facts::Covered;
use std::alloc::{AllocError as Memory, Global};
use tree_core::Tally;

/// The numbers of bricks and braces of a covered graph of this kind: a brick or a brace is its
/// only leaf.
pub fn tally_of_kind(alloc: Global, c: &Covered, kind: &Kind) -> Result<Tally, Memory>
    requires kind { IsKind c.now kind.now }
    requires cut { cut_of kind.now ≡ first_shore (candidates c.now) }
    ensures { IfOk result (IsCounted c.now) }
{
    c.keeps_covered();
    match kind {
        Kind::Brick => Ok(Tally {
            leaves: 1,
            bricks: 1,
            braces: 0,
        }),
        Kind::Brace => Ok(Tally {
            leaves: 1,
            bricks: 0,
            braces: 1,
        }),
        Kind::Composite { cut } => counted_from_cut(alloc, c, *cut),
    }
}

// The numbers of the leaves of a covered graph, from the shore of its first candidate.
fn counted_from_cut(alloc: Global, c: &Covered, cut: VSet) -> Result<Tally, Memory>
    requires { first_shore (candidates c.now) ≡ Some cut }
    ensures { IfOk result (IsCounted c.now) }
{
    let found = decompose_places_from_first(alloc, c, cut)?;
    counted_leaves(alloc, c, &found)
}

/// The numbers of the leaves of a covered graph, of the derivation for which the first candidates
/// are picked.
pub fn counted(alloc: Global, c: &Covered) -> Result<Tally, Memory>
    ensures { IfOk result (IsCounted c.now) }
{
    let found = decompose_places(alloc, c, &NamedOrder::First)?;
    counted_leaves(alloc, c, &found)
}

// The numbers of the leaves of a derivation.
fn counted_leaves(alloc: Global, c: &Covered, found: &Decomposition) -> Result<Tally, Memory>
    requires derivation { IsDerivation c.now (shape_of found.now.tree) }
    requires leaves { found.now.leaves.items
        ≡ map (place_of c.now) (leaves c.now.order (shape_of found.now.tree)) }
    ensures { IfOk result (IsCounted c.now) }
{
    tally(alloc, c, found)
}
