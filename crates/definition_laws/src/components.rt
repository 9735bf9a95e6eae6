//! Adjacency and components, as a textbook defines them.
//!
//! A component is named by its least vertex, and the numbers of components count these. Each law
//! here is the contract of a function that does nothing.
ghost use Rattle.std.specs.Prelude.{◌≡◌, ℕ, List, ◌≤◌, ◌&&◌, true, false, length, map, count_by, slice_index, ◌↔◌, All, Any};
ghost use Rattle.std.specs.List.Sorted.{IsStrictlyIncreasing};
ghost use Rattle.counting.specs.Common.{Within, count, is_odd, item, mem, Set};
ghost use Rattle.graph_core.specs.Common.{component_count, components, is_least, odd_component_count, Graph, HasEnds, IsGraph, has_ends, size, Joined, adjacent, joined};
ghost use Rattle.definition_laws.specs.Words.{IsComponent};

/// Two vertices are adjacent in G - S if and only if both are outside S and they are the two ends
/// of some edge.
pub fn adjacency_law()
    ensures ends { (g : Graph) (u v e : ℕ) → ((has_ends g u v e ≡ true) ↔ HasEnds g e u v) }
    ensures edge { (g : Graph) (s : Set) (u v : ℕ) → ((adjacent g s u v ≡ true) ↔
        ((s u ≡ false) × (s v ≡ false) × ((e : ℕ) × Within (size g) e × HasEnds g e u v))) }
{}

/// Components: being joined by a walk is an equivalence, each vertex outside S is joined to exactly
/// one vertex that is the least of its component, and the numbers of components count these. The
/// list of components has that length, each item is a component, each vertex outside S is in
/// exactly one, and they are ordered by their least vertices; o(S) is the number of those of odd
/// size.
pub fn component_law()
    ensures same { (g : Graph) (s : Set) (u v w : ℕ) →
        Joined g s u u × (Joined g s u v → Joined g s v u) ×
        (Joined g s u v → Joined g s v w → Joined g s u w) }
    ensures least { (g : Graph) (s : Set) (u : ℕ) → IsGraph g → Within g.order u →
        ((is_least g s u ≡ true) ↔
        ((s u ≡ false) × ((v : ℕ) → Within g.order v → Joined g s u v → u ≤ v))) }
    ensures one { (g : Graph) (s : Set) (v : ℕ) → IsGraph g → Within g.order v → s v ≡ false →
        (u : ℕ) × Within g.order u × (is_least g s u ≡ true) × Joined g s u v ×
        ((w : ℕ) → Within g.order w → is_least g s w ≡ true → Joined g s w v → w ≡ u) }
    ensures apart { (g : Graph) (s : Set) (u v : ℕ) → IsGraph g → Within g.order u →
        Within g.order v →
        is_least g s u ≡ true → is_least g s v ≡ true → Joined g s u v → u ≡ v }
    ensures count { (g : Graph) (s : Set) → component_count g s ≡ count g.order (is_least g s) }
    ensures odd { (g : Graph) (s : Set) →
        odd_component_count g s ≡
        count g.order (λ u. is_least g s u && is_odd (count g.order (joined g s u))) }
    ensures lists { (g : Graph) (s : Set) → IsGraph g →
        (length (components g s) ≡ component_count g s) × All (IsComponent g s) (components g s) }
    ensures cover { (g : Graph) (s : Set) (v : ℕ) → IsGraph g → Within g.order v → s v ≡ false →
        Any (λ (c : List ℕ). mem c v ≡ true) (components g s) }
    ensures once { (g : Graph) (s : Set) (i j v : ℕ) → IsGraph g →
        Within (length (components g s)) i → Within (length (components g s)) j →
        mem (item (components g s) i) v ≡ true → mem (item (components g s) j) v ≡ true → i ≡ j }
    ensures odd_lists { (g : Graph) (s : Set) →
        odd_component_count g s ≡ count_by (λ (c : List ℕ). is_odd (length c)) (components g s) }
    ensures order { (g : Graph) (s : Set) → IsGraph g →
        IsStrictlyIncreasing (map (λ (c : List ℕ). slice_index c 0) (components g s)) }
{}
