//! Maximum matchings with a Berge set, and the frame that gives the Gallai-Edmonds sets.
ghost use Rattle.std.specs.Prelude.{◌≡◌, ℕ, true, false, ◌↔◌, IfOk};
ghost use Rattle.graph_core.specs.from_counting.Common.{Within, count, is_odd, none, mem, IsRisingIn};
ghost use Rattle.graph_core.specs.Common.{IsMaximum, Attains, InD, InA, joined};
ghost use Rattle.match_core.specs.Common.{IsOf, edges_of};

use crate::matching::{Matching, matching_by};
use graph_core::MultiGraph;
use graph_core::vset_core::VSet;
use match_search::{Mated, find_mates};
use std::alloc::{AllocError as Memory, Global};

/// A maximum matching and a Berge set S, which shows it to be maximum: the matching misses exactly
/// o(S) - |S| vertices, where o(S) is the number of odd components of G - S.
#[derive(Drop)]
pub struct Found {
    pub matching: Matching,
    pub berge: VSet,
}

/// A maximum matching with the Gallai-Edmonds sets.
#[derive(Drop)]
pub struct FrameSets {
    /// A maximum matching, with A as its Berge set.
    pub found: Found,
    /// D: the vertices that some maximum matching misses.
    pub outer: VSet,
    /// A: the other vertices adjacent to D.
    pub inner: VSet,
}

/// A maximum matching of `g` and a Berge set S, here `berge`: the matching misses exactly o(S) -
/// |S| vertices (Tutte 1947, Berge 1958; found as by Edmonds 1965). Costs what `frame` costs; the
/// only error is `Memory`.
pub fn maximum(alloc: Global, g: &MultiGraph) -> Result<Found, Memory>
    ensures of { IfOk result (λ f. IsOf g.now f.matching) }
    ensures maximum { IfOk result (λ f. IsMaximum g.now none (mem (edges_of f.matching))) }
    ensures berge { IfOk result (λ f. IsRisingIn g.now.order f.berge) }
    ensures attains { IfOk result
        (λ f. Attains g.now none (mem f.berge) (mem (edges_of f.matching))) }
{
    Ok(frame(alloc, g)?.found)
}

/// A maximum matching of `g` with the Gallai-Edmonds sets, read off the last forest of the search
/// (Lovász and Plummer, "Matching Theory", chapter 3). The outer set is D, the vertices that some
/// maximum matching misses; it is the union of the odd components of G - A. The inner set is A, the
/// other vertices adjacent to D, and is the Berge set. Takes at most n/2 augmentations. Each
/// shrinks at most n/2 blossoms and grows a forest after each shrinking, by O(n^3) steps on words
/// at most; in a bipartite graph it takes O(n). The list of edges is read only at the beginning and
/// at the end, so this is O(n^4 + m) at most, and O(n^2 + m) in a bipartite graph. The only error
/// is `Memory`.
pub fn frame(alloc: Global, g: &MultiGraph) -> Result<FrameSets, Memory>
    ensures of { IfOk result (λ f. IsOf g.now f.found.matching) }
    ensures maximum { IfOk result (λ f. IsMaximum g.now none (mem (edges_of f.found.matching))) }
    ensures berge { IfOk result (λ f. f.found.berge ≡ f.inner) }
    ensures attains { IfOk result
        (λ f. Attains g.now none (mem f.inner) (mem (edges_of f.found.matching))) }
    ensures outer_in { IfOk result (λ f. IsRisingIn g.now.order f.outer) }
    ensures inner_in { IfOk result (λ f. IsRisingIn g.now.order f.inner) }
    ensures odd { IfOk result
        (λ f. (v : ℕ) → Within g.now.order v → (mem f.outer v ≡ true) ↔
        ((mem f.inner v ≡ false) ×
        (is_odd (count g.now.order (joined g.now (mem f.inner) v)) ≡ true))) }
    ensures missed { IfOk result
        (λ f. (v : ℕ) → Within g.now.order v → (mem f.outer v ≡ true) ↔ InD g.now v) }
    ensures next { IfOk result
        (λ f. (v : ℕ) → Within g.now.order v → (mem f.inner v ≡ true) ↔ InA g.now v) }
{
    g.keeps_limits();
    let Mated { mate, sets } = find_mates(alloc, g, VSet::empty())?;
    sets.outer.rises();
    sets.inner.rises();
    let matching = matching_by(alloc, g, &mate)?;
    Ok(FrameSets {
        found: Found {
            matching,
            berge: sets.inner,
        },
        outer: sets.outer,
        inner: sets.inner,
    })
}
