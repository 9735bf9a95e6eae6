//! Bipartite graphs: matchings, vertex covers, and when they are matching covered.
//!
//! Sources: König (1916, 1931); Frobenius (1917); Hall, "On representatives of subsets" (1935); Hetyei
//! (1964); Lovász and Plummer, "Matching Theory" (1986), sections 1.1 and 4.1.
ghost use Rattle.std.specs.Prelude.{◌≡◌, ℕ, ◌≤◌, ◌↔◌, true, List};
ghost use Rattle.tree_check.specs.from_counting.Common.{Within, complement, count, everything, none, Set, singleton};
ghost use Rattle.graph_core.specs.Common.{Graph, HasPerfect, IsConnected, IsCovered, IsGraph, IsMatching, IsMultigraph, IsPerfect, IsSide, degree, size};
ghost use Rattle.ear_text.specs.from_ear_core.Common.{is_met, PlainEar};
ghost use Rattle.theorems.specs.Bipartite.{AreEarsInTurn, ArePairsMatched, HasSurplus, IsStrong, IsVertexCover};
ghost use Rattle.theorems.specs.Braces.{neighbourhood};

/// The marriage theorem: a bipartite graph with the sides A and B has a perfect matching if and
/// only if |A| = |B| and |N(S)| ≥ |S| for each subset S of A (Frobenius 1917; Hall 1935; Lovász
/// and Plummer, "Matching Theory", section 1.1).
pub fn marriage_law()
    ensures { (g : Graph) (a : Set) → IsMultigraph g → IsSide g a →
        HasPerfect g none ↔ ((count g.order a ≡ count g.order (complement a)) ×
        ((s : Set) → ((v : ℕ) → Within g.order v → s v ≡ true → a v ≡ true) →
        count g.order s ≤ count g.order (neighbourhood g s))) }
{}

/// Hall's theorem: a bipartite graph with the sides A and B has a matching that meets each vertex
/// of A if and only if |N(S)| ≥ |S| for each subset S of A, whatever the size of B (Hall 1935;
/// Lovász and Plummer, "Matching Theory", section 1.1).
pub fn hall_law()
    ensures { (g : Graph) (a : Set) → IsMultigraph g → IsSide g a →
        ((m : Set) × IsMatching g none m ×
        ((v : ℕ) → Within g.order v → a v ≡ true → degree g m v ≡ 1)) ↔
        ((s : Set) → ((v : ℕ) → Within g.order v → s v ≡ true → a v ≡ true) →
        count g.order s ≤ count g.order (neighbourhood g s)) }
{}

/// König's theorem: no matching of a graph has more edges than a vertex cover has vertices; and a
/// bipartite graph has a matching and a vertex cover of equal size. So there the size of a maximum
/// matching is that of a minimum vertex cover (König 1931; Lovász and Plummer, "Matching Theory",
/// section 1.1).
pub fn koenig_law()
    ensures below { (g : Graph) (m c : Set) → IsGraph g → IsMatching g none m →
        IsVertexCover g c → count (size g) m ≤ count g.order c }
    ensures equal { (g : Graph) (a : Set) → IsMultigraph g → IsSide g a →
        (m c : Set) × IsMatching g none m × IsVertexCover g c ×
        (count (size g) m ≡ count g.order c) }
{}

/// Hetyei's theorem: for a bipartite graph with the sides A and B and four vertices or more these
/// say the same. It is matching covered; |A| = |B| and |N(S)| ≥ |S| + 1 for each nonempty proper
/// subset S of A; A and B are not empty, and G - a - b has a perfect matching for each a in A and
/// b in B. With two vertices or more the second and the third say so together with "connected". A
/// bipartite graph is matching covered if and only if no vertex is isolated and single ears lead
/// from an edge to all edges (Hetyei 1964; Lovász and Plummer, "Matching Theory", section 4.1). One
/// with two vertices or more and a perfect matching M is matching covered if and only if the
/// digraph of M is strongly connected: in it an arc leads from each vertex of A to its mate, and
/// arcs lead from each vertex of B to all its neighbours (Dulmage and Mendelsohn 1958).
pub fn hetyei_law()
    ensures neighbours { (g : Graph) (a : Set) → IsMultigraph g → IsSide g a → 2 ≤ g.order →
        IsCovered g ↔ (IsConnected g × (count g.order a ≡ count g.order (complement a)) ×
        HasSurplus g a) }
    ensures pairs { (g : Graph) (a : Set) → IsMultigraph g → IsSide g a → 2 ≤ g.order →
        IsCovered g ↔ (IsConnected g × ArePairsMatched g a) }
    ensures four_neighbours { (g : Graph) (a : Set) → IsMultigraph g → IsSide g a → 4 ≤ g.order →
        IsCovered g ↔ ((count g.order a ≡ count g.order (complement a)) × HasSurplus g a) }
    ensures four_pairs { (g : Graph) (a : Set) → IsMultigraph g → IsSide g a → 4 ≤ g.order →
        IsCovered g ↔ ((1 ≤ count g.order a) × (1 ≤ count g.order (complement a)) ×
        ArePairsMatched g a) }
    ensures ears { (g : Graph) (a : Set) → IsMultigraph g → IsSide g a →
        IsCovered g ↔ ((e : ℕ) × (ears : List PlainEar) × Within (size g) e ×
        AreEarsInTurn g (singleton e) ears ×
        ((v : ℕ) → Within g.order v → is_met g everything v ≡ true)) }
    ensures digraph { (g : Graph) (a m : Set) → IsMultigraph g → IsSide g a → 2 ≤ g.order →
        IsPerfect g none m → IsCovered g ↔ IsStrong g a m }
{}
