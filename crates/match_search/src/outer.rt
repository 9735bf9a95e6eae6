//! Which vertices can a maximum matching miss, if it misses only one?
//!
//! The forest grows from the one exposed vertex, and an edge between two of its outer vertices
//! closes a blossom, which is shrunk to its base. The base is then an outer vertex of the same
//! forest, which grows on. No step makes the matching larger, and only the outer vertices are
//! wanted, so no blossom is expanded again. If a blossom contains all vertices that are left, each
//! of them is outer, and the search ends.
ghost use Rattle.std.specs.Prelude.{◌≡◌, length};
ghost use Rattle.graph_core.specs.from_counting.Common.{Set};
ghost use Rattle.graph_core.specs.Common.{Graph, missed_count};
ghost use Rattle.match_search.specs.Common.{IsSized, GrowsForest, HasOuter, HoldsRooted, AreAlike};

use crate::alternating::AlternatingForest;
use crate::flower::{Flower, expose_all, flower_of};
use crate::growing::{Growth, grow_forest};
use crate::instance::Instance;
use graph_core::vset_core::VSet;

/// The outer vertices of the last forest, if the matching with these mates misses only the root.
/// The mates are meaningless afterwards. All shrinkings are undone at the end. Takes no memory: the
/// forest grows in the given one, whose content is ignored.
pub fn outer_from(
    instance: &mut Instance,
    forest: &mut AlternatingForest,
    root: u32,
    mate: &mut [u32],
) -> VSet
    requires rooted { (g : Graph) × (r : Set) × (f : Set) ×
        HoldsRooted g r f instance.old mate.old root }
    requires sized { IsSized (length instance.old.rows.items) forest.old }
    ensures outer { (g : Graph) (r f : Set) →
        HoldsRooted g r f instance.old mate.old root → HasOuter g r f result }
    ensures sized { IsSized (length instance.old.rows.items) forest.new }
    ensures restored { AreAlike instance.old instance.new }
{
    forest.restart(VSet::one(root));
    outer_on(instance, forest, mate)
}

// The same for a forest that grows on, of a matching that misses one vertex.
fn outer_on(instance: &mut Instance, forest: &mut AlternatingForest, mate: &mut [u32]) -> VSet
    requires { (g : Graph) × (r : Set) × (f : Set) ×
        GrowsForest g r f instance.old mate.old forest.old × (missed_count g r f ≡ 1) }
    ensures outer { (g : Graph) (r f : Set) →
        GrowsForest g r f instance.old mate.old forest.old → missed_count g r f ≡ 1 →
        HasOuter g r f result }
    ensures sized { IsSized (length instance.old.rows.items) forest.new }
    ensures restored { AreAlike instance.old instance.new }
{
    match grow_forest(instance, forest, mate, Growth::Latest) {
        None => forest.outer,
        Some(bridge) => {
            let Flower { members, base } = flower_of(forest, bridge, mate);
            if instance.left.is_subset(members) {
                return members;
            }
            expose_all(mate, members.without(base));
            let before = instance.shrink(members, base);
            forest.contract(members, base);
            let below = outer_on(instance, forest, mate);
            instance.unshrink(base, before);
            below.union(members)
        }
    }
}
