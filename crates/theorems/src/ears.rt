//! Ear decompositions of matching covered graphs.
//!
//! Sources: Hetyei (1964); Lovász and Plummer, "Matching Theory" (1986), sections 4.1 and 5.4;
//! Carvalho, Lucchesi and Murty, "Ear decompositions of matching covered graphs" (1999).
ghost use Rattle.std.specs.Prelude.{◌≡◌, ◌+◌, ℕ, true, not, List, ◌≢◌, ◌⊎◌, false, [], ◌∷◌};
ghost use Rattle.std.specs.List.{AllByRecursion};
ghost use Rattle.tree_check.specs.from_counting.Common.{Within, count, Set, everything, IsIn, pair_set, union};
ghost use Rattle.ear_text.specs.from_ear_core.Common.{IsEarList, IsSingle, IsUnrefinable, PlainEars, TakesSingles, IsEar, last_vertex, IsStage, is_met, with_edges, AreForced, AreNeeded, AreSteps, IsNeeded, IsStep, PlainStep, next_stage};
ghost use Rattle.graph_core.specs.Common.{IsCovered, Graph, IsBipartite, IsGraph, IsMultigraph, in_cut, size, HasPerfect, IsSide, with_ends};
ghost use Rattle.theorems.specs.Ears.{ear_count, IsConformal, IsDisjoint};
ghost use Rattle.two_ears.specs.AddedEdges.{with_pairs};
ghost use Rattle.two_ears.specs.VertexPairs.{AreDisjoint, in_pairs, set_of_pair};

/// Each matching covered graph has an edge, and from each edge an ear decomposition with steps of
/// one ear or two, where two ears are added only at a stage from which no ear decomposition goes on
/// by a single ear and neither of the two alone keeps the stage matching covered, and with single
/// ears alone if it is bipartite (Lovász and Plummer, "Matching Theory", sections 4.1 and 5.4).
pub fn ear_list_exists_law()
    ensures edge { (g : Graph) → IsMultigraph g → IsCovered g → Within (size g) 1 }
    ensures list { (g : Graph) (e : ℕ) → IsMultigraph g → IsCovered g → Within (size g) e →
        (list : PlainEars) × IsEarList g list × (list.start ≡ e) × IsUnrefinable g list ×
        (IsBipartite g → AllByRecursion IsSingle list.steps) × TakesSingles g list }
{}

/// Ear decompositions from a subgraph: from a matching covered subgraph of a matching covered graph
/// ears lead on, single and double, to the whole graph if and only if the subgraph is conformal,
/// that is, the graph has a perfect matching without its vertices. The ears can be chosen so that
/// two are added at once only where neither alone keeps the stage matching covered and no ear
/// decomposition goes on by a single ear, and all are single if the graph is bipartite. Two ears
/// that are added at once, of which neither alone keeps the stage matching covered, have no vertex
/// in common (Lovász and Plummer, "Matching Theory", section 5.4).
pub fn ear_decomposition_law()
    ensures goes_on { (g : Graph) (f : Set) → IsMultigraph g → IsCovered g → IsStage g f →
        IsConformal g f → (steps : List PlainStep) × AreSteps g f steps × AreNeeded g f steps ×
        (IsBipartite g → AllByRecursion IsSingle steps) × AreForced g f steps }
    ensures conformal { (g : Graph) (f : Set) (steps : List PlainStep) → IsMultigraph g →
        IsCovered g → AreSteps g f steps → IsConformal g f }
    ensures disjoint { (g : Graph) (f : Set) (s : PlainStep) → IsGraph g → IsStage g f →
        IsStep g f s → IsStage g (next_stage f s) → IsNeeded g f s → IsDisjoint g s }
    ensures lists { (g : Graph) (list : PlainEars) → IsGraph g → IsEarList g list →
        IsUnrefinable g list → AllByRecursion (IsDisjoint g) list.steps }
{}

/// Lemmas of the two-ear theorem, which is `ear_list_exists_law`. If a matching covered graph has a
/// perfect matching without all vertices of some disjoint pairs, it has one without those of two of
/// the pairs, or of one.
/// If it stays matching covered with further edges, it does with one of them, or with two. A
/// bipartite one has a perfect matching without any two vertices on opposite sides (Lovász and
/// Plummer, "Matching Theory", section 5.4).
pub fn two_ear_lemmas_law()
    ensures pairs { (g : Graph) (ps : List (ℕ × ℕ)) → IsGraph g → IsCovered g → ps ≢ [] →
        AreDisjoint g.order ps → HasPerfect g (in_pairs ps) →
        (p : ℕ × ℕ) × (q : ℕ × ℕ) × IsIn p ps × IsIn q ps ×
        HasPerfect g (union (set_of_pair p) (set_of_pair q)) }
    ensures edges { (g : Graph) (ps : List (ℕ × ℕ)) → IsGraph g → IsCovered g → ps ≢ [] →
        ((p : ℕ × ℕ) → IsIn p ps → Within g.order p.0 × Within g.order p.1) →
        ((p : ℕ × ℕ) → IsIn p ps → p.0 ≢ p.1) → IsCovered (with_ends g (with_pairs g.ends ps)) →
        ((p : ℕ × ℕ) × IsIn p ps × IsCovered (with_ends g (with_pairs g.ends (p ∷ [])))) ⊎
        ((p : ℕ × ℕ) × (q : ℕ × ℕ) × IsIn p ps × IsIn q ps ×
        IsCovered (with_ends g (with_pairs g.ends (p ∷ q ∷ [])))) }
    ensures sides { (g : Graph) (a : Set) (x z : ℕ) → IsGraph g → IsCovered g → IsSide g a →
        Within g.order x → Within g.order z → a x ≡ true → a z ≡ false →
        HasPerfect g (pair_set x z) }
{}

/// Each ear decomposition of a matching covered graph with n vertices and m edges has m - n + 1
/// ears, a double ear counted as two and the first edge not counted (Lovász and Plummer, "Matching
/// Theory", section 5.4). The same holds for each graph without loops that has an ear
/// decomposition, if n is the number of its vertices that are not isolated.
pub fn ear_count_law()
    ensures met { (g : Graph) (list : PlainEars) → IsMultigraph g → IsEarList g list →
        ear_count list.steps + count g.order (is_met g everything) ≡ size g + 1 }
    ensures covered { (g : Graph) (list : PlainEars) → IsMultigraph g → IsCovered g →
        IsEarList g list → ear_count list.steps + g.order ≡ size g + 1 }
{}

/// Ears of bipartite graphs: a bipartite matching covered graph with a single ear whose ends are on
/// opposite sides is matching covered and bipartite (Hetyei 1964; Lovász and Plummer, "Matching
/// Theory", section 4.1).
pub fn bipartite_ear_law()
    ensures covered { (g : Graph) (f a : Set) (v : ℕ) (es : List ℕ) → IsGraph g → IsStage g f →
        ((e : ℕ) → Within (size g) e → f e ≡ true → in_cut g a e ≡ true) → IsEar g f v es →
        a (last_vertex g v es) ≡ not (a v) → IsStage g (with_edges f es) }
    ensures bipartite { (g : Graph) (f a : Set) (v : ℕ) (es : List ℕ) →
        ((e : ℕ) → Within (size g) e → f e ≡ true → in_cut g a e ≡ true) → IsEar g f v es →
        a (last_vertex g v es) ≡ not (a v) →
        (b : Set) × ((e : ℕ) → Within (size g) e → with_edges f es e ≡ true →
        in_cut g b e ≡ true) }
{}
