//! One augmentation on rows of neighbours, by mates.
//!
//! A forest of alternating paths grows from the exposed vertices. An edge between two of its outer
//! vertices gives a path that augments the matching, or a blossom. A blossom is shrunk to its base:
//! a matching of the smaller graph can be completed inside it, and a proof that there is no larger
//! one holds for the graph too. If no edge leaves the forest, its inner vertices show that the
//! matching is maximum: if they are deleted, each outer vertex, perhaps a blossom, is an odd
//! component by itself.
//!
//! After a blossom is shrunk, the forest is grown again. That takes few steps: the pairs on the
//! path to the base were exchanged, so the base is exposed and a root, and the rest of the blossom
//! is gone.
ghost use Rattle.std.specs.Prelude.{◌≡◌, ◌<◌, length, IfOk, OnOk, Some};
ghost use Rattle.graph_core.specs.from_counting.Common.{Set};
ghost use Rattle.graph_core.specs.Common.{Graph};
ghost use Rattle.match_search.specs.Common.{HoldsMatching, IsSized, MayBeExposed, ClosesForest, ExposesOnly, IsClosed, IsMateStep, AreAlike};

use crate::alternating::{AlternatingForest, exposed_in};
use crate::answer::{Answer, FinalSets, widen};
use crate::blossom::{Blossom, close, open};
use crate::growing::{Adjacent, Growth, grow_forest};
use crate::instance::Instance;
use crate::paths::paths_to;
use graph_core::vset_core::VSet;
use std::alloc::{AllocError as Memory, Global};

/// Augments the matching with these mates, or returns a frame, which shows that none is larger; the
/// mates may then be those of another matching of the same size. The exposed vertices are searched
/// for among the candidates. All blossoms are expanded again at the end. The forests are
/// grown in the given one, whose content is ignored.
pub fn augment_once(
    alloc: Global,
    instance: &mut Instance,
    forest: &mut AlternatingForest,
    candidates: VSet,
    mate: &mut [u32],
) -> Result<Answer, Memory>
    requires holds { (g : Graph) × (r : Set) × (f : Set) ×
        HoldsMatching g r f instance.old mate.old }
    requires sized { IsSized (length instance.old.rows.items) forest.old }
    requires candidates { MayBeExposed instance.old.left mate.old candidates }
    ensures step { IfOk result (λ s. (g : Graph) (r f : Set) →
        HoldsMatching g r f instance.old mate.old → IsMateStep g r f mate.new s) }
    ensures sized { OnOk result (IsSized (length instance.old.rows.items) forest.new) }
    ensures restored { OnOk result (AreAlike instance.old instance.new) }
{
    let roots = exposed_in(candidates, instance.left, mate);
    forest.restart(roots);
    match grow_forest(instance, forest, mate, Growth::Least) {
        None => Ok(Answer::Final(FinalSets {
            outer: forest.outer,
            inner: forest.inner,
        })),
        Some(bridge) => match close_bridge(alloc, forest, bridge, mate)? {
            None => Ok(Answer::Grown),
            Some(blossom) => {
                let base = blossom.cycle[1];
                let before = instance.shrink(blossom.members, base);
                let below = augment_once(alloc, instance, forest, roots.with(base), mate)?;
                instance.unshrink(base, before);
                open(instance, &blossom, mate);
                Ok(widen(below, blossom.members))
            }
        },
    }
}

// Closes the paths of a forest to two adjacent outer vertices: the matching is augmented along
// them, or a blossom is returned and its vertices are exposed.
fn close_bridge(
    alloc: Global,
    forest: &AlternatingForest,
    bridge: Adjacent,
    mate: &mut [u32],
) -> Result<Option<Blossom>, Memory>
    requires { (g : Graph) × (r : Set) × (f : Set) × ClosesForest g r f mate.old forest.now bridge }
    ensures closed { IfOk result (λ b. (g : Graph) (r f : Set) →
        ClosesForest g r f mate.old forest.now bridge → IsClosed g r f mate.new b) }
    ensures exposed { IfOk result (λ o. (b : _) → o ≡ Some b → ExposesOnly mate.old mate.new b) }
{
    let paths = paths_to(alloc, forest, mate, bridge)?;
    close(alloc, &paths, mate)
}
