//! Whether a stage is matching covered, edge by edge.
ghost use Rattle.std.specs.Prelude.{◌≡◌, ◌<◌, true, false, All, IfOk};
ghost use Rattle.graph_core.specs.from_counting.Common.{Within, Set};
ghost use Rattle.graph_core.specs.Common.{size};
ghost use Rattle.ear_core.specs.Common.{IsAsked, AllowedBy, with_edges, IsBehind, IsUpTo, Settled, asked_too};

use crate::stage::Stage;
use graph_core::MultiGraph;
use std::alloc::{AllocError as Memory, Global};

// Whether an edge of the stage lies in a perfect matching of it: whether its two ends are partners.
fn is_allowed_by(alloc: Global, g: &MultiGraph, stage: &mut Stage, e: u32) -> Result<bool, Memory>
    requires edge { Within (size g.now) e }
    requires order { stage.old.stage.order ≡ g.now.order }
    ensures same { stage.new ≡ stage.old }
    ensures yes { (f : Set) → IsAsked g.now f stage.old → f e ≡ true →
        IfOk result (λ b. b ≡ true → AllowedBy g.now f e) }
    ensures no { (f : Set) → IsAsked g.now f stage.old → f e ≡ true →
        IfOk result (λ b. b ≡ false → AllowedBy g.now f e → ⊥) }
{
    g.keeps_limits();
    let ends = g.ends(e);
    let row = stage.partners(alloc, ends.a)?;
    Ok(row.contains(ends.b))
}

// Whether the known edge is not after `e`.
fn is_up_to(known: Option<u32>, e: u32) -> bool
    ensures yes { result ≡ true → IsUpTo e known }
    ensures no { result ≡ false → IsBehind e known }
{
    match known {
        Some(d) => d <= e,
        None => false,
    }
}

// The least edge in no perfect matching of the stage, of those that were asked and `e`.
fn settle(
    alloc: Global,
    g: &MultiGraph,
    stage: &mut Stage,
    known: Option<u32>,
    e: u32,
) -> Result<Option<u32>, Memory>
    requires edge { Within (size g.now) e }
    requires order { stage.old.stage.order ≡ g.now.order }
    ensures same { stage.new ≡ stage.old }
    ensures settled { (f done : Set) → IsAsked g.now f stage.old → f e ≡ true →
        Settled g.now f done known → IfOk result (Settled g.now f (asked_too done e)) }
{
    if is_up_to(known, e) {
        return Ok(known);
    }
    if is_allowed_by(alloc, g, stage, e)? {
        Ok(known)
    } else {
        Ok(Some(e))
    }
}

/// The least edge in no perfect matching of the stage, of those that were asked and further ones.
pub fn least_refused(
    alloc: Global,
    g: &MultiGraph,
    stage: &mut Stage,
    known: Option<u32>,
    edges: &[u32],
) -> Result<Option<u32>, Memory>
    requires edges { All (Within (size g.now)) edges.now }
    requires order { stage.old.stage.order ≡ g.now.order }
    ensures same { stage.new ≡ stage.old }
    ensures settled { (f done : Set) → IsAsked g.now f stage.old → All (λ e. f e ≡ true) edges.now
        → Settled g.now f done known → IfOk result (Settled g.now f (with_edges done edges.now)) }
{
    let Some((e, others)) = edges.split_first() else {
        return Ok(known);
    };
    let next = settle(alloc, g, stage, known, *e)?;
    least_refused(alloc, g, stage, next, others)
}
