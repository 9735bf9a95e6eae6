//! The search of the engine: an alternating forest grows until an edge joins two of its outer
//! vertices, or each edge at an outer vertex leads to an inner one. In the second case the matching
//! is maximum: if the inner vertices are deleted, each outer vertex is a component by itself.
ghost use Rattle.std.specs.Prelude.{◌≡◌, ℕ, IfSome, IfNone, []};
ghost use Rattle.graph_core.specs.from_counting.Common.{Set, Within};
ghost use Rattle.graph_core.specs.Common.{Graph};
ghost use Rattle.match_search.specs.Common.{GrowsForest, IsGrownForest, IsMember};

use crate::alternating::AlternatingForest;
use crate::instance::Instance;
use graph_core::vset_core::{MOST_VERTICES, VSet};

/// Two vertices that an edge joins.
#[derive(Clone, Copy, Debug, PartialEq, Eq, Drop)]
pub struct Adjacent {
    pub v: u32,
    pub w: u32,
}

/// Which active vertex a forest grows from next: the least one, or the one that became outer last.
/// With the latest the search soon comes back to a vertex of the forest, and its blossoms are
/// large.
#[derive(Clone, Copy, Drop)]
pub enum Growth {
    Least,
    Latest,
}

// The next vertex to grow from.
fn next_of(rest: VSet, latest: VSet, growth: Growth) -> Option<u32>
    ensures some { IfSome result (IsMember rest) }
    ensures within { IfSome result (Within MOST_VERTICES) }
    ensures none { IfNone result (rest ≡ []) }
{
    match growth {
        Growth::Least => rest.first(),
        Growth::Latest => match rest.meet(latest).first() {
            Some(x) => Some(x),
            None => rest.first(),
        },
    }
}

/// Grows a forest from its active vertices, and returns two of its outer vertices that are
/// adjacent, if it comes to any.
pub fn grow_forest(
    instance: &Instance,
    forest: &mut AlternatingForest,
    mate: &[u32],
    growth: Growth,
) -> Option<Adjacent>
    requires { (g : Graph) × (r : Set) × (f : Set) ×
        GrowsForest g r f instance.now mate.now forest.old }
    ensures { (g : Graph) (r f : Set) →
        GrowsForest g r f instance.now mate.now forest.old →
        IsGrownForest g r f instance.now mate.now forest.new result }
{
    'growing: while let Some(x) = next_of(forest.active, forest.latest, growth) {
        let near = instance.near(x).without(x);
        let reach = near.minus(forest.inner);
        if let Some(y) = reach.meet(forest.outer).first() {
            return Some(Adjacent { v: x, w: y });
        }
        match reach.first() {
            None => forest.active = forest.active.without(x),
            Some(y) => forest.branch(x, y, mate[y as usize]),
        }
    }
    None
}
