//! Matchings: Tutte's theorem, Berge's formula, Gallai's lemma, and the structure theorem of Gallai
//! and Edmonds.
//!
//! Source: Lovász and Plummer, "Matching Theory" (1986), chapter 3.
ghost use Rattle.std.specs.Prelude.{◌≡◌, ◌≢◌, ℕ, ◌+◌, ◌≤◌, true, ◌↔◌};
ghost use Rattle.tree_check.specs.from_counting.Common.{Within, count, Set, complement, none, everything, Outside, singleton, union};
ghost use Rattle.graph_core.specs.Common.{Attains, component_count, Graph, HasEnds, IsGraph, edges_in_cut, size, IsMaximum, missed_count, HasPerfect, InD, IsConnected, IsMatching, degree, odd_component_count};
ghost use Rattle.theorems.specs.Matchings.{AreThreeSets, HasPerfectWithin, IsFactorCritical, MatchesAllButOne, MatchesWithin, component_in, parts_beside};

/// Tutte's theorem: a graph has a perfect matching if and only if o(S), the number of odd
/// components of G - S, is at most |S| for each vertex set S; and so has G - R, for each R (Tutte
/// 1947; Lovász and Plummer, "Matching Theory", section 3.1).
pub fn tutte_law()
    ensures perfect { (g : Graph) → IsGraph g →
        HasPerfect g none ↔ ((s : Set) → odd_component_count g s ≤ count g.order s) }
    ensures without { (g : Graph) (r : Set) → IsGraph g →
        HasPerfect g r ↔ ((s : Set) → Outside r s →
        odd_component_count g (union r s) ≤ count g.order s) }
{}

/// Berge's formula: a maximum matching misses as many vertices as the largest o(S) - |S|. No
/// matching misses fewer than o(S) - |S|; a maximum one misses so many for some S; and a matching
/// that does is maximum (Berge 1958; Lovász and Plummer, "Matching Theory", section 3.1).
pub fn berge_law()
    ensures bound { (g : Graph) (s m : Set) → IsGraph g → IsMatching g none m →
        odd_component_count g s ≤ missed_count g none m + count g.order s }
    ensures equal { (g : Graph) (m : Set) → IsGraph g → IsMaximum g none m →
        (s : Set) × Attains g none s m }
    ensures maximum { (g : Graph) (s m : Set) → IsGraph g → IsMatching g none m →
        Attains g none s m → IsMaximum g none m }
{}

/// Gallai's lemma: a graph is factor-critical if and only if it is connected and each vertex is
/// missed by some maximum matching (Gallai 1963; Lovász and Plummer, "Matching Theory", section
/// 3.1).
pub fn gallai_lemma_law()
    ensures { (g : Graph) → IsGraph g →
        IsFactorCritical g everything ↔
        (IsConnected g × ((v : ℕ) → Within g.order v → InD g v)) }
{}

/// The Gallai-Edmonds structure theorem: let D be the vertices that some maximum matching misses,
/// A their other neighbours and C the rest; then the components of G[D] are factor-critical, G[C]
/// has a perfect matching, A is a set of Berge with the deficiency c(D) - |A|, c(D) being the
/// number of components of G[D], and each maximum matching matches C in itself, all but one
/// vertex of each component of G[D] in it, and A into different components of G[D]; each nonempty
/// subset S of A has neighbours in at least |S| + 1 components of G[D]. The stability lemma: if v is
/// in A, then D(G - v) = D, and a maximum matching of G - v has one edge less than one of G. Gallai
/// 1964; Edmonds 1965; Lovász and Plummer, "Matching Theory", theorem 3.2.1 and lemma 3.2.2.
pub fn gallai_edmonds_law()
    ensures sets { (g : Graph) → IsGraph g →
        (d : Set) × (a : Set) × (c : Set) × AreThreeSets g d a c }
    ensures critical { (g : Graph) (d a c : Set) (u : ℕ) → IsGraph g → AreThreeSets g d a c →
        Within g.order u → d u ≡ true → IsFactorCritical g (component_in g d u) }
    ensures rest { (g : Graph) (d a c : Set) → IsGraph g → AreThreeSets g d a c →
        HasPerfectWithin g c }
    ensures berge { (g : Graph) (d a c m : Set) → IsGraph g → AreThreeSets g d a c →
        IsMaximum g none m → Attains g none a m }
    ensures deficiency { (g : Graph) (d a c m : Set) → IsGraph g → AreThreeSets g d a c →
        IsMaximum g none m →
        missed_count g none m + count g.order a ≡ component_count g (complement d) }
    ensures in_c { (g : Graph) (d a c m : Set) → IsGraph g → AreThreeSets g d a c →
        IsMaximum g none m → MatchesWithin g m c }
    ensures near { (g : Graph) (d a c m : Set) (u : ℕ) → IsGraph g → AreThreeSets g d a c →
        IsMaximum g none m → Within g.order u → d u ≡ true →
        MatchesAllButOne g m (component_in g d u) }
    ensures from_a { (g : Graph) (d a c m : Set) (v : ℕ) → IsGraph g → AreThreeSets g d a c →
        IsMaximum g none m → Within g.order v → a v ≡ true →
        (e w : ℕ) × Within (size g) e × (m e ≡ true) × HasEnds g e v w × (d w ≡ true) }
    ensures apart { (g : Graph) (d a c m : Set) (u : ℕ) → IsGraph g → AreThreeSets g d a c →
        IsMaximum g none m → Within g.order u → d u ≡ true →
        edges_in_cut g m (component_in g d u) ≤ 1 }
    ensures surplus { (g : Graph) (d a c s : Set) → IsGraph g → AreThreeSets g d a c →
        ((v : ℕ) → Within g.order v → s v ≡ true → a v ≡ true) → 1 ≤ count g.order s →
        count g.order s + 1 ≤ count g.order (parts_beside g d s) }
    ensures stable { (g : Graph) (d a c : Set) (v w : ℕ) → IsGraph g → AreThreeSets g d a c →
        Within g.order v → a v ≡ true → Within g.order w → v ≢ w →
        (d w ≡ true) ↔ ((m : Set) × IsMaximum g (singleton v) m × (degree g m w ≡ 0)) }
    ensures one_less { (g : Graph) (d a c m k : Set) (v : ℕ) → IsGraph g →
        AreThreeSets g d a c → Within g.order v → a v ≡ true → IsMaximum g none m →
        IsMaximum g (singleton v) k → count (size g) k + 1 ≡ count (size g) m }
{}
