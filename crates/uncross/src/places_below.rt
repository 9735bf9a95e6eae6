//! The places at the two trees below the root of a derivation.
ghost use Rattle.std.specs.Prelude.{◌≡◌, IfOk};
ghost use Rattle.tree_core.specs.Common.{IsCutAt, kept_at, merged_at};
ghost use Rattle.uncross.specs.Common.{IsPlaceBelow};

use graph_core::vset_core::VSet;
use std::alloc::{AllocError as Memory, Global};
use tree_core::Place;

/// The places at the two trees below a root.
#[derive(Drop)]
pub struct PlacesBelow<'g> {
    /// The one at `kept`.
    pub kept: Place<'g>,
    /// The one at `merged`.
    pub merged: Place<'g>,
}

/// The places at the two trees below the root x of a derivation at p.
pub fn places_below<'g>(alloc: Global, p: &Place<'g>, x: VSet) -> Result<PlacesBelow<'g>, Memory>
    requires { IsCutAt p.now.graph p.now.blocks x }
    ensures kept { IfOk result (λ at.
        IsPlaceBelow p.now.graph (kept_at p.now.graph.order p.now.blocks x) at.kept) }
    ensures merged { IfOk result (λ at.
        IsPlaceBelow p.now.graph (merged_at p.now.graph.order p.now.blocks x) at.merged) }
{
    let kept = p.kept(alloc, x)?;
    let merged = p.merged(alloc, x)?;
    Ok(PlacesBelow { kept, merged })
}
