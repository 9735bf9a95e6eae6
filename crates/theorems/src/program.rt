//! Appendix: laws on the definitions of the program. The fast tests and the list of candidates, its
//! third part, the nodes of a tree, and what two derivations count.
ghost use Rattle.std.specs.Prelude.{◌≡◌, ◌≢◌, ℕ, true, Some, None, ◌↔◌, List, [], length};
ghost use Rattle.tree_check.specs.from_counting.Common.{Within, Set, complement, none};
ghost use Rattle.graph_core.specs.Common.{Graph, IsBicritical, IsBipartite, IsCovered, IsCutPair, IsGraph, IsMultigraph, IsPerfect, IsSide, size, singles};
ghost use Rattle.quick_kinds.specs.from_matching_digraph.Digraph.{Spans, arc, are_mates};
ghost use Rattle.tree_check.specs.from_tight_cuts.Common.{candidates, common_shore, first_separated, greater_end, is_separated, lesser_end, separates_tightly, SeparatesTightly};
ghost use Rattle.theorems.specs.CutWords.{IsFirstSeparated, IsSeparated};
ghost use Rattle.std.specs.List.{AllZip};
ghost use Rattle.tree_core.specs.Common.{LeadsTo, leaves, Shape, cut, cut_count, leaf, leaf_count, node_count, shores};
ghost use Rattle.tree_core.specs.declared.path.Side.{Side};
ghost use Rattle.theorems.specs.Preorder.{ListsPaths};
ghost use Rattle.tree_core.specs.declared.tallies.Tally.{Tally};
ghost use Rattle.bench_top.specs.from_mcg6_lines.Standings.{IsCounted};
ghost use Rattle.bench_top.specs.from_mcg6_lines.Selecting.{HasProperty, LacksProperty};
ghost use Rattle.bench_top.specs.from_mcg6_lines.declared.query.Property.{Property};

/// The test for braces by reachability agrees with the complete search: a matching covered graph
/// with the side x has no candidate for a tight cut if and only if, for a perfect matching m, each
/// vertex a of x, its mate b and each further vertex r, walks in the digraph of m that begin no step
/// at a lead from r to all vertices but b, and in that of the other side walks that begin no step at
/// b lead from r to all but a (after Lovász and Plummer, "Matching Theory").
pub fn brace_test_law()
    ensures { (g : Graph) (x m : Set) → IsGraph g → IsCovered g → IsSide g x →
        IsPerfect g none m → (candidates g ≡ []) ↔
        ((a b r : ℕ) → x a ≡ true → are_mates g m a b ≡ true → Within g.order r → r ≢ a → r ≢ b →
        Spans g.order (arc g x m) a r b × Spans g.order (arc g (complement x) m) b r a) }
{}

/// The test for bricks agrees with it too: a matching covered graph that is not bipartite has no
/// candidate if and only if it is bicritical and has no cut pair (Edmonds, Lovász and Pulleyblank
/// 1982).
pub fn brick_test_law()
    ensures { (g : Graph) → IsMultigraph g → IsCovered g → ¬ (IsBipartite g) →
        (candidates g ≡ []) ↔ (IsBicritical g × ((u v : ℕ) → ¬ (IsCutPair g u v))) }
{}

/// The tests of the third part. A set separates two vertices x and y beside an edge from a to b
/// exactly when it is a tight set with a and x and with neither b nor y. The pair is separated
/// exactly when both vertices differ from a and b and some tight set separates it so, and the shore
/// that is listed for it holds a vertex exactly when all these tight sets do.
pub fn third_part_law()
    ensures parts { (g : Graph) (a b : ℕ) (k : ℕ × ℕ) (z : Set) →
        ((separates_tightly g a b k z ≡ true) ↔ SeparatesTightly g a b k z) }
    ensures some { (g : Graph) (a b : ℕ) (k : ℕ × ℕ) → IsGraph g → Within g.order a →
        Within g.order b → Within g.order k.0 → Within g.order k.1 →
        ((is_separated g a b k ≡ true) ↔ IsSeparated g a b k) }
    ensures all { (g : Graph) (a b : ℕ) (k : ℕ × ℕ) (v : ℕ) → IsGraph g → Within g.order a →
        Within g.order b → Within g.order k.0 → Within g.order k.1 → Within g.order v →
        ((common_shore g a b k v ≡ true) ↔ ((z : Set) → SeparatesTightly g a b k z → z v ≡ true)) }
{}

/// The pair that the third part takes at an edge is the first, in lexicographic order, that some
/// tight set with the lesser end of the edge and without the greater one separates; it takes none
/// exactly when no pair is separated.
pub fn first_separated_law()
    ensures first { (g : Graph) (e : ℕ) (k : ℕ × ℕ) → IsGraph g → Within (size g) e →
        ((first_separated g e ≡ Some k) ↔ IsFirstSeparated g (lesser_end g e) (greater_end g e) k) }
    ensures none { (g : Graph) (e : ℕ) → IsGraph g → Within (size g) e →
        ((first_separated g e ≡ None) ↔
        ((k : ℕ × ℕ) → Within g.order k.0 → Within g.order k.1 →
        ¬ (IsSeparated g (lesser_end g e) (greater_end g e) k))) }
{}

/// The numbers and the lists of a tree, by the paths from its root in preorder, `kept` before
/// `merged`: there are as many nodes, leaves and cuts as paths that lead to one, and the list of
/// leaves and that of shores have at each place what the path of that place leads to.
pub fn tree_nodes_law()
    ensures nodes { (n : ℕ) (t : Shape) → (paths : List (List Side)) × (length paths ≡ node_count t)
        × ListsPaths paths (λ path. (q : List (List ℕ)) × (s : Shape) ×
        LeadsTo n path (singles n) t q s) }
    ensures leaves { (n : ℕ) (t : Shape) →
        (paths : List (List Side)) × (length paths ≡ leaf_count t)
        × ListsPaths paths (λ path. (q : List (List ℕ)) × LeadsTo n path (singles n) t q leaf)
        × AllZip (λ path q. LeadsTo n path (singles n) t q leaf) paths (leaves n t) }
    ensures cuts { (n : ℕ) (t : Shape) → (paths : List (List Side)) × (length paths ≡ cut_count t)
        × ListsPaths paths (λ path. (x : List ℕ) × (q : List (List ℕ)) × (k : Shape) × (m : Shape) ×
        LeadsTo n path (singles n) t q (cut x k m))
        × AllZip (λ path x. (q : List (List ℕ)) × (k : Shape) × (m : Shape) ×
        LeadsTo n path (singles n) t q (cut x k m)) paths (shores t) }
{}

/// The leaves of each two derivations of a graph are as many, and as many of them are bricks, and
/// braces (Lovász 1987).
pub fn counts_law()
    ensures { (g : Graph) (s t : Tally) → IsGraph g → IsCounted g s → IsCounted g t → s ≡ t }
{}

/// A graph that lacks a property does not have it, not even a number of bricks or braces, which is
/// that of each derivation.
pub fn selection_law()
    ensures { (g : Graph) (property : Property) → IsGraph g → LacksProperty g property →
        ¬ HasProperty g property }
{}
