//! Blossoms given by their vertices and their base only, for matchings that miss one vertex; no
//! matching is completed inside them. The paths to two outer vertices begin at the only root. The
//! last vertex they share is the base, and the other vertices of the blossom are those that come
//! after it on the two. Most often the base is one of the two outer vertices, so the path to the
//! other is followed first.
ghost use Rattle.std.specs.Prelude.{◌≡◌, ◌↔◌, ℕ, ◌<◌, true, cond, length, IfSome, ◌∷◌, []};
ghost use Rattle.graph_core.specs.from_counting.Common.{Set, mem};
ghost use Rattle.graph_core.specs.Common.{Graph, missed_count};
ghost use Rattle.match_search.specs.Common.{ClosesForest, HoldsFlower, HoldsForest, IsLastIn, IsOuterOf, MeetsSet, numbers};

use crate::alternating::AlternatingForest;
use crate::growing::Adjacent;
use graph_core::vset_core::VSet;

/// The vertices of a blossom and its base.
#[derive(Clone, Copy, Drop)]
pub struct Flower {
    pub members: VSet,
    pub base: u32,
}

// The outer vertices of the path to an outer vertex.
fn outer_of_path(forest: &AlternatingForest, mate: &[u32], x: u32) -> VSet
    requires forest { HoldsForest mate.now forest.now }
    requires outer { mem forest.now.outer x ≡ true }
    ensures { (h : HoldsForest mate.now forest.now) (v : ℕ) →
        (mem result v ≡ true) ↔ IsOuterOf (h.holds.v x) (h.holds.k x) v }
{
    let mut path = VSet::one(x);
    let mut at = x;
    'climbing: while mate[at as usize] != 0 {
        at = forest.parent[mate[at as usize] as usize];
        path = path.with(at);
    }
    path
}

// The last outer vertex of the path to an outer vertex that is in a set, and the vertices of the
// path after it.
fn last_in(forest: &AlternatingForest, mate: &[u32], y: u32, set: VSet) -> (u32, VSet)
    requires { MeetsSet mate.now forest.now set y }
    ensures outer { mem forest.now.outer result.0 ≡ true }
    ensures member { mem set result.0 ≡ true }
    ensures last { (h : HoldsForest mate.now forest.now) →
        IsLastIn h.holds.k h.holds.v set y result.0 result.1 }
{
    let mut way = VSet::empty();
    let mut at = y;
    'climbing: while !set.contains(at) {
        let inner = mate[at as usize];
        way = way.with(at).with(inner);
        at = forest.parent[inner as usize];
    }
    (at, way)
}

// The vertices after the outer vertex `base` on the path to an outer vertex, if the path has it.
fn way_from(forest: &AlternatingForest, mate: &[u32], y: u32, base: u32) -> Option<VSet>
    requires forest { HoldsForest mate.now forest.now }
    requires outer { mem forest.now.outer y ≡ true }
    ensures { IfSome result (λ way. (h : HoldsForest mate.now forest.now) →
        IsLastIn h.holds.k h.holds.v (base ∷ []) y base way) }
{
    let mut way = VSet::empty();
    let mut at = y;
    'climbing: while at != base {
        let inner = mate[at as usize];
        if inner == 0 {
            return None;
        }
        way = way.with(at).with(inner);
        at = forest.parent[inner as usize];
    }
    Some(way)
}

// The blossom that an edge between two outer vertices closes, from the last vertex that their paths
// share.
fn shared_flower(forest: &AlternatingForest, bridge: Adjacent, mate: &[u32]) -> Flower
    requires { (g : Graph) × (r : Set) × (f : Set) × ClosesForest g r f mate.now forest.now bridge ×
        (missed_count g r f ≡ 1) }
    ensures { (g : Graph) (r f : Set)
        (closes : ClosesForest g r f mate.now forest.now bridge) → missed_count g r f ≡ 1 →
        HoldsFlower g r f mate.now forest.now closes.holds result }
{
    let path = outer_of_path(forest, mate, bridge.v);
    let (base, second) = last_in(forest, mate, bridge.w, path);
    let (_, first) = last_in(forest, mate, bridge.v, VSet::one(base));
    let members = first.union(second).with(base);
    Flower { members, base }
}

/// The blossom that an edge between two outer vertices closes. One vertex is missed, so the paths
/// to the two meet. Takes no memory.
pub fn flower_of(forest: &AlternatingForest, bridge: Adjacent, mate: &[u32]) -> Flower
    requires { (g : Graph) × (r : Set) × (f : Set) × ClosesForest g r f mate.now forest.now bridge ×
        (missed_count g r f ≡ 1) }
    ensures { (g : Graph) (r f : Set)
        (closes : ClosesForest g r f mate.now forest.now bridge) → missed_count g r f ≡ 1 →
        HoldsFlower g r f mate.now forest.now closes.holds result }
{
    match way_from(forest, mate, bridge.v, bridge.w) {
        Some(way) => Flower {
            members: way.with(bridge.w),
            base: bridge.w,
        },
        None => shared_flower(forest, bridge, mate),
    }
}

/// Exposes the vertices of a set.
pub fn expose_all(mate: &mut [u32], set: VSet)
    requires { (v : ℕ) → mem set v ≡ true → v < length mate.old }
    ensures { (u : ℕ) → numbers mate.new u ≡ cond (mem set u) 0 (numbers mate.old u) }
{
    let mut rest = set;
    'exposing: while let Some((v, others)) = rest.split_first() {
        rest = others;
        mate[v as usize] = 0;
    }
}
