//! Tight cut decompositions: that each matching covered graph has one, that any two have the same
//! bricks and braces, and how many there are.
//!
//! Source: Lovász, "Matching structure and the matching lattice" (1987).
ghost use Rattle.std.specs.Prelude.{◌≡◌, ◌+◌, ◌*◌, ◌≤◌, ◌↔◌, ℕ, List, All, ◌==◌, ◌&&◌, Bool, length, count_by};
ghost use Rattle.bench_tasks.specs.from_decomposer.Common.{NamedPicks, ScriptPicks, IsPicked};
ghost use Rattle.bench_tasks.specs.from_decomposer.declared.orders.NamedOrder.{NamedOrder};
ghost use Rattle.graph_core.specs.Common.{IsCovered, Graph, IsBipartite, IsGraph, IsMultigraph, IsPartition, singles, quotient, AreBlocks, HasOnlyTrivialTightCuts};
ghost use Rattle.bench_top.specs.from_mcg6_lines.Standings.{IsCounted};
ghost use Rattle.tree_core.specs.declared.tallies.Tally.{Tally};
ghost use Rattle.theorems.specs.Derivations.{ChoosesPlaces, IsCountedAt, PicksChosen, both};
ghost use Rattle.tree_check.specs.from_tight_cuts.Common.{Candidate};
ghost use Rattle.tree_core.specs.Common.{IsDerivation, IsTightShore, kept_at, merged_at, Shape, cut, IsLeafAt, leaves, shores, leaf_at, cut_count};
ghost use Rattle.theorems.specs.CutWords.{EndsInBrickOrBrace};
ghost use Rattle.tree_check.specs.from_counting.Common.{Within};
ghost use Rattle.theorems.specs.TightCuts.{IsBijection, IsIsomorphism, PairsLeaves, RespectsIsomorphism, is_two_sided};

/// Lovász's uniqueness theorem: any two tight cut decompositions of a matching covered graph have
/// the same leaves, up to multiplicities of edges. These are paired one to one, with bijections of
/// their blocks that preserve adjacency; so the quotients at two partners are isomorphic as simple
/// graphs. Both decompositions have as many cuts and as many leaves; each test of simple graphs
/// that isomorphism respects holds of as many leaves of the one as of the other. In particular
/// both have as many leaves, and as many bipartite ones, of each order (Lovász 1987). The
/// multiplicities themselves may differ between partners.
pub fn uniqueness_law()
    ensures leaves { (g : Graph) (s t : Shape) → IsGraph g → IsDerivation g s → IsDerivation g t →
        (partner : ℕ → ℕ) × (blocks : ℕ → ℕ → ℕ) ×
        PairsLeaves g (leaves g.order s) (leaves g.order t) partner blocks }
    ensures quotients { (g : Graph) (s t : Shape) → IsGraph g →
        IsDerivation g s → IsDerivation g t →
        (partner : ℕ → ℕ) × (f : ℕ → ℕ → ℕ) ×
        IsBijection (length (leaves g.order s)) (length (leaves g.order t)) partner ×
        ((i : ℕ) → Within (length (leaves g.order s)) i →
        IsIsomorphism (quotient g (leaf_at (leaves g.order s) i))
        (quotient g (leaf_at (leaves g.order t) (partner i))) (f i)) }
    ensures numbers { (g : Graph) (s t : Shape) → IsGraph g → IsDerivation g s → IsDerivation g t →
        (length (leaves g.order s) ≡ length (leaves g.order t)) × (cut_count s ≡ cut_count t) }
    ensures tests { (g : Graph) (s t : Shape) (test : Graph → Bool) → IsGraph g →
        IsDerivation g s → IsDerivation g t → RespectsIsomorphism test →
        count_by (λ p. test (quotient g p)) (leaves g.order s) ≡
        count_by (λ p. test (quotient g p)) (leaves g.order t) }
    ensures orders { (g : Graph) (s t : Shape) (k : ℕ) → IsGraph g →
        IsDerivation g s → IsDerivation g t →
        count_by (λ p. length p == k) (leaves g.order s) ≡
        count_by (λ p. length p == k) (leaves g.order t) }
    ensures braces { (g : Graph) (s t : Shape) (k : ℕ) → IsGraph g →
        IsDerivation g s → IsDerivation g t →
        count_by (λ p. (length p == k) && is_two_sided (quotient g p)) (leaves g.order s) ≡
        count_by (λ p. (length p == k) && is_two_sided (quotient g p)) (leaves g.order t) }
{}

/// A tight cut decomposition ends in bricks and braces (Lovász 1987): each shore of a derivation
/// is a nontrivial tight shore of the graph itself, and the quotient at each leaf is a brace or a
/// brick, that is, a matching covered graph without nontrivial tight cut, bipartite or not.
pub fn bricks_and_braces_law()
    ensures cuts { (g : Graph) (t : Shape) → IsGraph g → IsDerivation g t →
        All (IsTightShore g) (shores t) }
    ensures ends { (g : Graph) (t : Shape) → IsGraph g → IsDerivation g t →
        All (EndsInBrickOrBrace g) (leaves g.order t) }
{}

/// Contract each block of a partition to one vertex. The contraction, which may have loops and
/// parallel edges, has no nontrivial tight cut if and only if the quotient, its underlying simple
/// graph, has none. `IsLeafAt` speaks of the contraction alone, and not of a decomposition that
/// ends at the partition.
pub fn leaf_law()
    ensures { (g : Graph) (p : List (List ℕ)) → IsGraph g → AreBlocks g.order p →
        (IsLeafAt g p ↔ HasOnlyTrivialTightCuts (quotient g p)) }
{}

/// Each matching covered graph has a tight cut decomposition (Lovász, "Matching structure and the
/// matching lattice", 1987). At each node Mcg lists candidates for the next cut, and not always all
/// nontrivial tight cuts; for each rule that picks one of these there is a decomposition that
/// follows it, and so one for each order and each list of picks of the command `decompose`. For
/// each nontrivial tight cut there is a decomposition that begins with it.
pub fn derivation_exists_law()
    ensures some { (g : Graph) → IsGraph g → IsCovered g → (t : Shape) × IsDerivation g t }
    ensures picked { (choose : List Candidate → ℕ → ℕ) (g : Graph) → ChoosesPlaces choose →
        IsGraph g → IsCovered g →
        (t : Shape) × IsDerivation g t × IsPicked (PicksChosen choose) g t }
    ensures first { (g : Graph) (y : List ℕ) → IsGraph g → IsCovered g → IsTightShore g y →
        (a : Shape) × (b : Shape) × IsDerivation g (cut y a b) }
    ensures named { (order : NamedOrder) (g : Graph) → IsGraph g → IsCovered g →
        (t : Shape) × IsDerivation g t × IsPicked (NamedPicks order) g t }
    ensures script { (picks : List ℕ) (g : Graph) → IsGraph g → IsCovered g →
        (t : Shape) × IsDerivation g t × IsPicked (ScriptPicks picks) g t }
{}

/// The numbers of bricks and of braces of a matching covered graph depend on no choice; a graph
/// with n ≥ 4 vertices has at most (n - 2)/2 of both together; it is bipartite if and only if it
/// has no brick; and over a nontrivial tight cut both numbers are the sums of those of the two
/// contractions (Lovász, "Matching structure and the matching lattice", 1987). What a partition
/// counts is what its quotient has.
pub fn brick_number_law()
    ensures one { (g : Graph) → IsGraph g → IsCovered g →
        (tally : Tally) × IsCounted g tally ×
        ((other : Tally) → IsCounted g other → other ≡ tally) }
    ensures sum { (g : Graph) (tally : Tally) → IsCounted g tally →
        tally.bricks + tally.braces ≡ tally.leaves }
    ensures few { (g : Graph) (tally : Tally) → IsGraph g → IsCounted g tally → 4 ≤ g.order →
        2 * tally.leaves + 2 ≤ g.order }
    ensures bipartite { (g : Graph) (tally : Tally) → IsMultigraph g → IsCounted g tally →
        ((tally.bricks ≡ 0) ↔ IsBipartite g) }
    ensures additive { (g : Graph) (x : List ℕ) (s a b : Tally) → IsGraph g → IsTightShore g x →
        IsCounted g s → IsCounted (quotient g (kept_at g.order (singles g.order) x)) a →
        IsCounted (quotient g (merged_at g.order (singles g.order) x)) b → s ≡ both a b }
    ensures partitions { (g : Graph) (p : List (List ℕ)) (tally : Tally) → IsGraph g →
        IsPartition g.order p → IsCovered (quotient g p) →
        (IsCountedAt g p tally ↔ IsCounted (quotient g p) tally) }
{}
