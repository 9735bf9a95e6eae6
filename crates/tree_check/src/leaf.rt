//! The judgement of a leaf. What is known of its place tells both whether there is a candidate,
//! and if there is none, whether the leaf is a brick or a brace.
ghost use Rattle.std.specs.Prelude.{◌≡◌, ℕ, List, None, Some, IfOk};
ghost use Rattle.graph_core.specs.Common.{Graph};
ghost use Rattle.tree_core.specs.Common.{IsLeafAt, leaf};
ghost use Rattle.tree_check.specs.Common.{why_of, BreaksLeaf, IsLeafOfKind, IsScannedAt};

use crate::judgement::{Scanned, Why};
use crate::known_places::KnownPlaces;
use std::alloc::{AllocError as Memory, Global};
use tight_cuts::first_at_place;
use tree_core::{KnownPlace, LeafKind, Place, tallied};

/// What the scan finds at a leaf. It is judged if it is not known, and then known from now on.
pub(crate) fn scan_leaf<'c, 'g>(
    alloc: Global,
    known: &mut KnownPlaces<'c, 'g>,
    p: Place<'c>,
    node: u32,
) -> Result<Scanned, Memory>
    requires { p.graph ≡ known.old }
    ensures scanned { IfOk result (IsScannedAt p.entry.graph p.entry.blocks leaf node) }
    ensures same { known.new ≡ known.old }
{
    if let Some(found) = known.leaf_at(p.partition()) {
        return Ok(passed(found.kind()));
    }
    let place = KnownPlace::of(alloc, p)?;
    let fault = leaf_fault(alloc, &place)?;
    match fault {
        Some(why) => Ok(Scanned::Refused { node, why }),
        None => {
            let kind = place.kind();
            known.add_leaf(place)?;
            Ok(passed(kind))
        }
    }
}

// The rule that a leaf breaks at the place; `None` if and only if no nontrivial shore is tight
// there.
fn leaf_fault(alloc: Global, place: &KnownPlace) -> Result<Option<Why>, Memory>
    ensures some { IfOk result (λ o. (why : _) → o ≡ Some why →
        BreaksLeaf place.now.graph place.now.blocks (why_of why)) }
    ensures none { IfOk result (λ o. o ≡ None → IsLeafAt place.now.graph place.now.blocks) }
{
    let found = first_at_place(alloc, place)?;
    match found {
        Some(candidate) => Ok(Some(Why::NotLeaf {
            cut: candidate.shore,
        })),
        None => Ok(None),
    }
}

// What the scan finds at a leaf of this kind.
fn passed(kind: LeafKind) -> Scanned
    ensures { (g : Graph) (p : List (List ℕ)) (node : ℕ) → IsLeafOfKind g p kind →
        IsScannedAt g p leaf node result }
{
    Scanned::Passed {
        tally: tallied(&[kind]),
    }
}
