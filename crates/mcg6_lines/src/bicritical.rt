//! Whether a graph is bicritical.
ghost use Rattle.std.specs.Prelude.{◌≡◌, ◌≢◌, ◌↔◌, ◌≤◌, ℕ, [], true, IfOk, IsTrue};
ghost use Rattle.allowed_edges.specs.from_counting.Common.{Within, mem};
ghost use Rattle.graph_core.specs.Common.{IsBicritical};
ghost use Rattle.mcg6_lines.specs.Selecting.{Decides, HasAllPartners};

use crate::query::Property;
use allowed_edges::match_core::{LazyPartners, perfect_without};
use graph_core::MultiGraph;
use graph_core::vset_core::{MOST_VERTICES, VSet};
use std::alloc::{AllocError as Memory, Global};

/// Whether the graph is bicritical. Takes one maximum matching, and then a search for each vertex,
/// up to the first that has not all others as its partners.
pub fn is_bicritical(alloc: Global, g: &MultiGraph) -> Result<bool, Memory>
    ensures { IfOk result (Decides g.now Property.Bicritical) }
{
    g.keeps_limits();
    if g.size() == 0 {
        return Ok(false);
    }
    match perfect_without(alloc, g, VSet::empty())? {
        Some(matching) => {
            let mut rows = LazyPartners::new(alloc, g, VSet::empty(), &matching)?;
            is_critical(alloc, g, &mut rows)
        }
        None => Ok(false),
    }
}

// Whether any two vertices are partners.
fn is_critical(alloc: Global, g: &MultiGraph, rows: &mut LazyPartners<'_>) -> Result<bool, Memory>
    requires graph { rows.old.graph ≡ g.now }
    requires whole { rows.old.removed ≡ [] }
    ensures { IfOk result (λ holds. IsTrue holds ↔ IsBicritical g.now) }
{
    for k in 0..g.order() {
        if !has_all_partners(alloc, g, rows, k + 1)? {
            return Ok(false);
        }
    }
    Ok(true)
}

// Whether all other vertices are partners of this one.
fn has_all_partners(
    alloc: Global,
    g: &MultiGraph,
    rows: &mut LazyPartners<'_>,
    u: u32,
) -> Result<bool, Memory>
    requires graph { rows.old.graph ≡ g.now }
    requires whole { rows.old.removed ≡ [] }
    requires vertex { Within g.now.order u }
    ensures all { IfOk result (λ all. IsTrue all ↔ HasAllPartners g.now u) }
    ensures same { rows.new ≡ rows.old }
{
    g.keeps_limits();
    let partners = rows.of(alloc, u)?;
    Ok(has_all_others(g.order(), partners, u))
}

// Whether the set has all numbers from 1 to n but this one.
fn has_all_others(n: u32, set: VSet, u: u32) -> bool
    requires few { n ≤ MOST_VERTICES }
    requires within { Within n u }
    ensures { IsTrue result ↔ ((v : ℕ) → Within n v → u ≢ v → mem set v ≡ true) }
{
    match VSet::full(n).without(u).minus(set).first() {
        Some(_) => false,
        None => true,
    }
}
