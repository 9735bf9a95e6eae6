//! Whether a graph has a property.
ghost use Rattle.std.specs.Prelude.{◌≡◌, IfOk};
ghost use Rattle.leaf_kinds.specs.LeafKinds.{IsKind};
ghost use Rattle.mcg6_lines.specs.Selecting.{Decides, IsSelected};

use crate::bicritical::is_bicritical;
use crate::leaf_counts::counted;
use crate::query::Property;
use allowed_edges::match_core::perfect_without;
use graph_core::vset_core::VSet;
use graph_core::{Kind, MultiGraph};
use leaf_kinds::graph_facts::Covered;
use leaf_kinds::kind_of;
use leaf_kinds::separation_kit::FirstPairs;
use std::alloc::{AllocError as Memory, Global};

/// The line itself if its graph has the property, and nothing if it has not.
pub fn selected(
    alloc: Global,
    g: &MultiGraph,
    property: Property,
    line: &[u8],
) -> Result<Vec<u8>, Memory>
    ensures { IfOk result (λ bytes. IsSelected property g.now line.now bytes.items) }
{
    if has_property(alloc, g, property)? {
        Vec::from_slice(alloc, line)
    } else {
        Ok(Vec::new(alloc))
    }
}

// Whether the graph has the property. Whether it is covered is asked for all properties but two.
#[tactic(auto, using(crate::proofs::UncoveredGraphs::uncovered_lacks))]
fn has_property(alloc: Global, g: &MultiGraph, property: Property) -> Result<bool, Memory>
    ensures { IfOk result (Decides g.now property) }
{
    if matches!(property, Property::Perfect) {
        return is_perfect(alloc, g);
    }
    if matches!(property, Property::Bicritical) {
        return is_bicritical(alloc, g);
    }
    match Covered::of(alloc, g)? {
        Ok(c) => covered_has_property(alloc, &c, property),
        Err(_) => Ok(matches!(property, Property::Uncovered)),
    }
}

// Whether the graph has a perfect matching.
fn is_perfect(alloc: Global, g: &MultiGraph) -> Result<bool, Memory>
    ensures { IfOk result (Decides g.now Property.Perfect) }
{
    match perfect_without(alloc, g, VSet::empty())? {
        Some(_) => Ok(true),
        None => Ok(false),
    }
}

// Whether a covered graph has the property. Only what the property asks for is computed.
#[tactic(auto, using(graph_core::proofs::Common::covered_perfect))]
fn covered_has_property(alloc: Global, c: &Covered, property: Property) -> Result<bool, Memory>
    ensures { IfOk result (Decides c.now property) }
{
    c.keeps_covered();
    match property {
        Property::Covered => Ok(true),
        Property::Perfect => Ok(true),
        Property::Uncovered => Ok(false),
        Property::Brick => Ok(matches!(kind(alloc, c)?, Kind::Brick)),
        Property::Brace => Ok(matches!(kind(alloc, c)?, Kind::Brace)),
        Property::Composite => Ok(matches!(kind(alloc, c)?, Kind::Composite { .. })),
        Property::Bicritical => is_bicritical(alloc, c.graph()),
        Property::Bricks { count } => Ok(counted(alloc, c)?.bricks == count),
        Property::Braces { count } => Ok(counted(alloc, c)?.braces == count),
    }
}

// The kind of a covered graph.
fn kind(alloc: Global, c: &Covered) -> Result<Kind, Memory>
    ensures { IfOk result (IsKind c.now) }
{
    kind_of(alloc, &FirstPairs::of(c))
}
