//! Perfect matchings and tight cuts of regular graphs.
//!
//! Sources: Petersen, "Die Theorie der regulären graphs" (1891); König (1916); Schönberger (1934);
//! Edmonds (1965); Plesník, "Connectivity of regular graphs and the existence of 1-factors" (1972);
//! Seymour, "On multi-colourings of cubic graphs, and conjectures of Fulkerson and
//! Tutte" (1979); Lovász and Plummer, "Matching Theory", chapter 7.
ghost use Rattle.std.specs.Prelude.{◌≡◌, ◌≢◌, ℕ, ◌≤◌, ◌↔◌, ◌+◌, ◌⊎◌, true, false};
ghost use Rattle.tree_check.specs.from_counting.Common.{Set, Within, count, is_odd, none};
ghost use Rattle.graph_core.specs.Common.{IsConnected, IsCovered, Graph, IsGraph, IsMultigraph, HasOnlyTrivialTightCuts, IsNontrivial, IsPerfect, IsTight, IsSide, Allowed, size};
ghost use Rattle.bench_tasks.specs.from_grow_gen.Common.{IsCubic};
ghost use Rattle.theorems.specs.RegularGraphs.{HasWideOddCuts, IsRegular, IsTwoEdgeConnected, cut_size};
ghost use Rattle.theorems.specs.Colourings.{FractionalColouring};
ghost use Rattle.theorems.specs.CutWords.{IsBrace, IsBrick};

/// Regular graphs: let G be an r-graph, an r-regular multigraph in which each odd vertex set has at
/// least r edges in its cut. Each edge is in a perfect matching, so G is matching covered if it is
/// connected and has two vertices; and each tight cut has exactly r edges (Edmonds 1965; Seymour
/// 1979). So an r-regular graph has no nontrivial tight cut if each nontrivial odd set has more
/// than r edges in its cut. A bipartite r-regular graph is an r-graph (König 1916); for r ≥ 1 an
/// odd set with r edges in its cut is tight there, so that it has no nontrivial tight cut if and
/// only if no nontrivial odd set has r edges in its cut. A cubic graph is 2-edge-connected if and
/// only if it is connected and a 3-graph. An r-graph has a perfect matching after fewer than r of
/// its edges are deleted; and an (r - 1)-edge-connected r-regular graph with an even number of
/// vertices is an r-graph, so this holds for it (Plesník 1972).
pub fn regular_law()
    ensures allowed { (r : ℕ) (g : Graph) (e : ℕ) → IsMultigraph g → IsRegular r g →
        HasWideOddCuts r g → Within (size g) e → Allowed g e }
    ensures covered { (r : ℕ) (g : Graph) → IsMultigraph g → IsRegular r g → HasWideOddCuts r g →
        2 ≤ g.order → IsConnected g → IsCovered g }
    ensures tight { (r : ℕ) (g : Graph) (x : Set) → IsMultigraph g → IsRegular r g →
        HasWideOddCuts r g → IsTight g x → cut_size g x ≡ r }
    ensures wide { (r : ℕ) (g : Graph) → IsMultigraph g → IsRegular r g →
        ((x : Set) → IsNontrivial g.order x → is_odd (count g.order x) ≡ true →
        r + 1 ≤ cut_size g x) → HasOnlyTrivialTightCuts g }
    ensures bipartite { (r : ℕ) (g : Graph) (a : Set) → IsMultigraph g → IsRegular r g →
        IsSide g a → HasWideOddCuts r g }
    ensures narrow { (r : ℕ) (g : Graph) (a x : Set) → IsMultigraph g → IsRegular r g → 1 ≤ r →
        IsSide g a → is_odd (count g.order x) ≡ true → cut_size g x ≡ r → IsTight g x }
    ensures brace { (r : ℕ) (g : Graph) (a : Set) → IsMultigraph g → IsRegular r g → 1 ≤ r →
        IsSide g a → HasOnlyTrivialTightCuts g ↔ ((x : Set) → IsNontrivial g.order x →
        is_odd (count g.order x) ≡ true → cut_size g x ≢ r) }
    ensures cubic { (g : Graph) → IsMultigraph g → IsCubic g →
        IsTwoEdgeConnected g ↔ (IsConnected g × HasWideOddCuts 3 g) }
    ensures deleted { (r : ℕ) (g : Graph) (f : Set) → IsMultigraph g → IsRegular r g →
        HasWideOddCuts r g → count (size g) f + 1 ≤ r →
        (m : Set) × IsPerfect g none m ×
        ((e : ℕ) → Within (size g) e → m e ≡ true → f e ≡ false) }
    ensures connected { (r : ℕ) (g : Graph) → IsMultigraph g → IsRegular r g →
        is_odd g.order ≡ false →
        ((x : Set) (u v : ℕ) → Within g.order u → Within g.order v → x u ≡ true → x v ≡ false →
        r ≤ cut_size g x + 1) → HasWideOddCuts r g }
{}

/// Seymour's theorem on r-graphs: a graph is an r-graph if and only if, for some k ≥ 1, a list of rk
/// perfect matchings, with repetitions, contains each edge exactly k times; that is, it has a
/// fractional edge colouring with r colours (Edmonds 1965; Seymour 1979).
pub fn fractional_law()
    ensures colouring { (r : ℕ) (g : Graph) → IsGraph g → IsRegular r g → HasWideOddCuts r g →
        FractionalColouring r g }
    ensures converse { (r : ℕ) (g : Graph) → IsGraph g → FractionalColouring r g →
        IsRegular r g × HasWideOddCuts r g }
{}

/// Cubic graphs: a 2-edge-connected cubic graph with at least two vertices is matching covered
/// (Petersen 1891; Schönberger 1934), and each of its tight cuts has three edges (after Edmonds
/// 1965). A cubic graph has no nontrivial tight cut if each nontrivial cut has at least four edges;
/// if it also has at least six vertices, it is a brick or a brace. In a bipartite cubic graph each
/// cut of three edges is tight, so that it has no nontrivial tight cut if and only if no nontrivial
/// cut has three edges; a connected bipartite cubic graph is 2-edge-connected (Lovász and Plummer,
/// "Matching Theory", chapter 7). All this is the case r = 3 of `regular_law`.
pub fn cubic_law()
    ensures covered { (g : Graph) → IsMultigraph g → IsCubic g → 2 ≤ g.order →
        IsTwoEdgeConnected g → IsCovered g }
    ensures tight { (g : Graph) (x : Set) → IsMultigraph g → IsCubic g → IsTwoEdgeConnected g →
        IsTight g x → cut_size g x ≡ 3 }
    ensures narrow { (g : Graph) (a x : Set) → IsMultigraph g → IsCubic g → IsSide g a →
        cut_size g x ≡ 3 → IsTight g x }
    ensures wide { (g : Graph) → IsMultigraph g → IsCubic g →
        ((x : Set) → IsNontrivial g.order x → 4 ≤ cut_size g x) → HasOnlyTrivialTightCuts g }
    ensures sides { (g : Graph) (a : Set) → IsMultigraph g → IsCubic g → IsSide g a →
        IsConnected g → IsTwoEdgeConnected g }
    ensures brace { (g : Graph) (a : Set) → IsMultigraph g → IsCubic g → IsSide g a →
        HasOnlyTrivialTightCuts g ↔ ((x : Set) → IsNontrivial g.order x → cut_size g x ≢ 3) }
    ensures essential { (g : Graph) → IsMultigraph g → IsCubic g → 6 ≤ g.order →
        ((x : Set) → IsNontrivial g.order x → 4 ≤ cut_size g x) → IsBrick g ⊎ IsBrace g }
{}
