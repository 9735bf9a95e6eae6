//! The laws of separations. Each law is the contract of a function that does nothing.
ghost use Rattle.std.specs.Prelude.{◌≡◌, ◌≢◌, ◌≤◌, ◌↔◌, ℕ, true, false, None, All, []};
ghost use Rattle.graph_core.specs.from_counting.Common.{Within, count, is_odd, mem, pair_set, singleton, union};
ghost use Rattle.graph_core.specs.Common.{IsCovered, Graph, IsBipartite, IsGraph, IsMultigraph, HasPerfect, IsBicritical, IsCutPair, cut_pair, equivalent_pair, HasOnlyTrivialTightCuts, IsNontrivial, IsTight, joined, IsCanonicalCut};
ghost use Rattle.separation_kit.specs.Common.{separation_cuts, separation_shores};

/// `equivalent_pair` is `None` if and only if the graph is bicritical, and `cut_pair` is `None` if
/// and only if the graph has no cut pair.
pub fn missing_pairs_law()
    ensures bicritical { (g : Graph) → (equivalent_pair g ≡ None) ↔ IsBicritical g }
    ensures separated { (g : Graph) → (cut_pair g ≡ None) ↔ ((u v : ℕ) → ¬ (IsCutPair g u v)) }
{}

/// Let G - u - v have a perfect matching. Each component of G - u - v is even, and together with u
/// it is the shore of a tight cut, which is nontrivial if there are at least two components
/// (Edmonds, Lovász and Pulleyblank 1982).
pub fn separation_law()
    ensures even { (g : Graph) (u v a : ℕ) → IsGraph g → Within g.order u → Within g.order v →
        u ≢ v → HasPerfect g (pair_set u v) → Within g.order a → pair_set u v a ≡ false →
        is_odd (count g.order (joined g (pair_set u v) a)) ≡ false }
    ensures tight { (g : Graph) (u v a : ℕ) → IsGraph g → Within g.order u → Within g.order v →
        u ≢ v → HasPerfect g (pair_set u v) → Within g.order a → pair_set u v a ≡ false →
        IsTight g (union (joined g (pair_set u v) a) (singleton u)) }
    ensures nontrivial { (g : Graph) (u v a : ℕ) → IsGraph g → IsCutPair g u v →
        HasPerfect g (pair_set u v) → Within g.order a → pair_set u v a ≡ false →
        IsNontrivial g.order (union (joined g (pair_set u v) a) (singleton u)) }
{}

/// The cuts that `separation_cuts` lists are canonical shores of nontrivial tight cuts. In a
/// bicritical graph with at least four vertices and a cut pair {u, v} the components of G - u - v
/// are even, so there is such a cut; without a cut pair there is none.
pub fn separation_cuts_law()
    ensures tight { (g : Graph) → IsGraph g → All (λ s. IsTight g (mem s)) (separation_shores g) }
    ensures canonical { (g : Graph) → IsGraph g → IsCovered g →
        All (IsCanonicalCut g) (separation_cuts g) }
    ensures even { (g : Graph) (u v a : ℕ) → IsGraph g → IsBicritical g → IsCutPair g u v →
        Within g.order a → pair_set u v a ≡ false →
        is_odd (count g.order (joined g (pair_set u v) a)) ≡ false }
    ensures some { (g : Graph) (u v : ℕ) → IsGraph g → IsBicritical g → 4 ≤ g.order →
        IsCutPair g u v → separation_cuts g ≢ [] }
    ensures none { (g : Graph) → IsGraph g → cut_pair g ≡ None → separation_cuts g ≡ [] }
{}

/// A brick, that is, a nonbipartite covered graph without a nontrivial tight cut, has at least four
/// vertices, is bicritical and has no cut pair (Lovász 1987).
pub fn brick_conditions_law()
    ensures four { (g : Graph) → IsMultigraph g → IsCovered g → ¬ (IsBipartite g) → 4 ≤ g.order }
    ensures bicritical { (g : Graph) → IsMultigraph g → IsCovered g → ¬ (IsBipartite g) →
        HasOnlyTrivialTightCuts g → IsBicritical g }
    ensures connected { (g : Graph) → IsMultigraph g → IsCovered g → ¬ (IsBipartite g) →
        HasOnlyTrivialTightCuts g → (u v : ℕ) → ¬ (IsCutPair g u v) }
{}
