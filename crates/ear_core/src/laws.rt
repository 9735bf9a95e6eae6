//! Laws of ear lists. Each is the contract of a function that does nothing.
ghost use Rattle.std.specs.Prelude.{◌≡◌, ◌≢◌, ◌⊎◌, ◌↔◌, ℕ, false, true, List, [], ◌∷◌, None, Some};
ghost use Rattle.graph_core.specs.from_counting.Common.{Within, Set, everything, mem, pair_set};
ghost use Rattle.graph_core.specs.Common.{IsCovered, Graph, IsGraph, IsMultigraph, first_end, second_end, size, HasPerfect};
ghost use Rattle.ear_core.specs.Common.{ArePartnersOn, LeadsAtTwo, LeadsOff, PairsAll, IsPerfectBy, is_open, Serves, IsStage, AllowedBy, is_met, PlainEar, PlainEars, PlainStep, next_stage, one, IsEarList, IsStep, AreSteps, step_fault, IsFirstRefusal, IsEar, IsEarPair, Passes, PlainWhy, ear_fault, even_length, fault_edge, inner_vertices, with_edges};

/// The five tests of an ear say that it is an ear of the stage; those of the second ear of a
/// step, that the two are ears without a common inner vertex and without a common edge.
pub fn ear_tests_law()
    ensures first { (g : Graph) (f : Set) (v : ℕ) (es : List ℕ) → Passes g f [] [] v es ↔
        IsEar g f v es }
    ensures second { (g : Graph) (f : Set) (v : ℕ) (es : List ℕ) (w : ℕ) (ds : List ℕ) →
        IsEar g f v es → Passes g f (inner_vertices g v es) es w ds ↔ IsEarPair g f v es w ds }
{}

/// The edge at which an ear shows that it fails a test is an edge of the ear. An ear that fails a
/// test shows it at an edge unless it has no edges, or fails only because their number is even.
pub fn fault_edges_law()
    ensures named { (g : Graph) (f : Set) (xs ds : List ℕ) (v : ℕ) (es : List ℕ) (e : ℕ) →
        fault_edge g f xs ds v es ≡ Some e → mem es e ≡ true }
    ensures shown { (g : Graph) (f : Set) (xs ds : List ℕ) (v : ℕ) (es : List ℕ) →
        fault_edge g f xs ds v es ≡ None → (es ≡ []) ⊎ ((ear_fault g f xs ds v es ≡ None) ⊎
        (ear_fault g f xs ds v es ≡ Some even_length)) }
{}

/// No test of a step fails exactly when it is a step of the stage; then the new stage is matching
/// covered if each of its edges lies in a perfect matching of it. So after the five tests a
/// new stage can fail by an edge in no perfect matching alone.
pub fn new_stage_law()
    ensures tests { (g : Graph) (f : Set) (s : PlainStep) → (step_fault g f s ≡ None) ↔
        IsStep g f s }
    ensures stage { (g : Graph) → IsGraph g → (f : Set) (s : PlainStep) → IsStage g f → IsStep g f s
        → ((e : ℕ) → Within (size g) e → next_stage f s e ≡ true → AllowedBy g (next_stage f s) e) →
        IsStage g (next_stage f s) }
{}

/// Steps that lead from a stage to all edges have no refusal, and others have one first refusal
/// at most.
pub fn first_ear_refusal_law()
    ensures none { (g : Graph) (f : Set) (k : ℕ) (steps : List PlainStep) (number : ℕ)
        (why : PlainWhy)
        → IsFirstRefusal g f k steps number why → AreSteps g f steps → ⊥ }
    ensures one { (g : Graph) (f : Set) (k : ℕ) (steps : List PlainStep) (i j : ℕ) (a b : PlainWhy)
        → IsFirstRefusal g f k steps i a → IsFirstRefusal g f k steps j b → (i ≡ j) × (a ≡ b) }
{}

/// A stage that holds every edge and meets every vertex is matching covered exactly when the
/// graph is. So a graph without isolated vertices that has an ear list is matching covered
/// (Lovász and Plummer).
pub fn whole_stage_law()
    ensures stage { (g : Graph) (f : Set) → IsMultigraph g →
        ((e : ℕ) → Within (size g) e → f e ≡ true)
        → ((v : ℕ) → Within g.order v → is_met g f v ≡ true) → (IsStage g f ↔ IsCovered g) }
    ensures list { (g : Graph) (list : PlainEars) → IsMultigraph g → IsEarList g list
        → ((v : ℕ) → Within g.order v → is_met g everything v ≡ true) → IsCovered g }
{}

/// A stage of a covered graph from which an ear list goes on leaves a rest with a perfect matching.
/// If the list goes on by a single ear, then some perfect matching of the graph leads out of the
/// stage at two vertices alone.
pub fn single_ears_law()
    ensures rest { (g : Graph) → IsMultigraph g → IsCovered g → (f : Set) (steps : List PlainStep) →
        AreSteps g f steps → HasPerfect g (is_met g f) }
    ensures leads { (g : Graph) → IsMultigraph g → IsCovered g → (f : Set) → IsStage g f →
        (c : PlainEar) (steps : List PlainStep) → AreSteps g f (one c ∷ steps) →
        (m : Set) × LeadsAtTwo g f m }
{}

/// A perfect matching that leads out of a stage at two of its vertices alone is a perfect matching
/// of the stage without these two, and one of the rest with what leads out at them.
pub fn lone_parts_law()
    ensures parts { (g : Graph) → IsMultigraph g → (f : Set) (u v : ℕ) → u ≢ v →
        is_met g f u ≡ true → is_met g f v ≡ true → (m : Set) → IsPerfectBy g (is_open g f u v) m →
        Serves g f (pair_set u v) × LeadsOff g f u v }
    ensures whole { (g : Graph) → IsMultigraph g → (f : Set) (u v : ℕ) → u ≢ v →
        is_met g f u ≡ true → is_met g f v ≡ true → Serves g f (pair_set u v) × LeadsOff g f u v →
        (m : Set) × IsPerfectBy g (is_open g f u v) m }
{}

/// Partners on a stage are partners on the next. An edge off the stage that joins two partners on
/// it is an ear with which the stage stays matching covered. Where all vertices are on the stage
/// and any two of them are partners, this is so of each edge that is left, and it stays so. Two
/// vertices of a stage that are no partners have the same partners (Kotzig).
pub fn stage_partners_law()
    ensures stay { (g : Graph) (f : Set) (s : PlainStep) → IsStep g f s → (u v : ℕ) →
        ArePartnersOn g f u v → ArePartnersOn g (next_stage f s) u v }
    ensures edge { (g : Graph) → IsGraph g → (f : Set) → IsStage g f → (e : ℕ) → Within (size g) e
        → f e ≡ false → ArePartnersOn g f (first_end g e) (second_end g e) →
        IsEar g f (first_end g e) (e ∷ []) × IsStage g (with_edges f (e ∷ [])) }
    ensures all { (g : Graph) → IsMultigraph g → (f : Set) → IsStage g f → PairsAll g f →
        (e : ℕ) → Within (size g) e → f e ≡ false → IsEar g f (first_end g e) (e ∷ []) ×
        IsStage g (with_edges f (e ∷ [])) × PairsAll g (with_edges f (e ∷ [])) }
    ensures classes { (g : Graph) → IsGraph g → (f : Set) → IsStage g f → (u v w : ℕ) →
        is_met g f u ≡ true → is_met g f v ≡ true → ¬ (ArePartnersOn g f u v) →
        ArePartnersOn g f u w ↔ ArePartnersOn g f v w }
{}
