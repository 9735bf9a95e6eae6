//! Laws of refusals and of replays. Each is the contract of a function that does nothing.
ghost use Rattle.std.specs.Prelude.{◌≡◌, ◌↔◌, ◌⊎◌, ℕ, List};
ghost use Rattle.graph_core.specs.Common.{IsCovered, Graph, IsGraph, IsMultigraph};
ghost use Rattle.graph_core.specs.declared.verdict.Reason.{Reason};
ghost use Rattle.tree_core.specs.Common.{Shape, IsDerivation, PlainMove, TurnsThrough};
ghost use Rattle.tree_core.specs.declared.tree.Tree.{Tree};
ghost use Rattle.tree_check.specs.Common.{IsJudgement, IsReplay, IsStuckAt, IsRefusedMoveAt, Why, HasShores, IsRefused, without_matching};
ghost use Rattle.tree_check.specs.declared.judgement.Judgement.{Judgement};
ghost use Rattle.tree_check.specs.declared.judgement.Judgement.TheVariants.{Accepted, NotCovered};
ghost use Rattle.tree_check.specs.declared.judgement.Why.{Why as StoredWhy};
ghost use Rattle.tree_check.specs.declared.replaying.Replayed.{Replayed};
ghost use Rattle.tree_check.specs.declared.replaying.Replayed.TheVariants.{Done, Stuck, Refused};

/// A derivation of a graph has no refusal, and each other tree of a matching covered graph has
/// exactly one: the node and the reason are determined, and what the reason shows, but for the
/// perfect matching that crosses a cut.
pub fn first_tree_refusal_law()
    ensures none { (g : Graph) (t : Shape) (node : ℕ) (why : Why) → IsGraph g → IsDerivation g t →
        IsRefused g t node why → ⊥ }
    ensures one { (g : Graph) (t : Shape) (i j : ℕ) (a b : Why) → IsGraph g → IsRefused g t i a →
        IsRefused g t j b → (i ≡ j) × (without_matching a ≡ without_matching b) }
    ensures some { (g : Graph) (t : Shape) → IsGraph g → IsCovered g → HasShores g.order t →
        IsDerivation g t ⊎ ((node : ℕ) × (why : Why) × IsRefused g t node why) }
{}

/// A right judgement accepts a tree if and only if it is a derivation of the graph, and says that
/// the graph is not matching covered if and only if it is not; so it refuses exactly the other
/// trees of matching covered graphs.
pub fn judgement_law()
    ensures accepted { (g : Graph) (t : Shape) (answer : Judgement) → IsMultigraph g →
        IsJudgement g t answer → (answer ≡ Accepted) ↔ IsDerivation g t }
    ensures not_covered { (g : Graph) (t : Shape) (answer : Judgement) → IsMultigraph g →
        IsJudgement g t answer → ((reason : Reason) × (answer ≡ NotCovered reason)) ↔
        (IsCovered g → ⊥) }
{}

/// A right answer to a script of moves is `Done` if and only if the script turns the tree through
/// derivations into some tree, `Stuck` or `Refused` at a move if and only if this is the first
/// failing one and has no result, or one that is not a derivation. The last tree is determined,
/// and so are the first failing move and the node and the reason of its result, but for the
/// perfect matching that crosses a cut.
pub fn replay_law()
    ensures done { (g : Graph) (s : Shape) (ms : List PlainMove) (answer : Replayed) → IsGraph g →
        IsReplay g s ms answer → ((tree : Tree) × (answer ≡ Done tree)) ↔
        ((t : Shape) × TurnsThrough g s ms t) }
    ensures stuck { (g : Graph) (s : Shape) (ms : List PlainMove) (answer : Replayed) (at : ℕ) →
        IsGraph g → IsReplay g s ms answer → (answer ≡ Stuck at) ↔ IsStuckAt g s ms at }
    ensures refused { (g : Graph) (s : Shape) (ms : List PlainMove) (answer : Replayed) (at : ℕ) →
        IsGraph g → IsReplay g s ms answer →
        ((node : ℕ) × (why : StoredWhy) × (answer ≡ Refused at node why)) ↔
        ((node : ℕ) × (why : Why) × IsRefusedMoveAt g s ms at node why) }
    ensures last { (g : Graph) (s t u : Shape) (ms : List PlainMove) → TurnsThrough g s ms t →
        TurnsThrough g s ms u → t ≡ u }
    ensures first { (g : Graph) (s : Shape) (ms : List PlainMove) (i j k l : ℕ) (a b : Why) →
        IsGraph g → IsRefusedMoveAt g s ms i k a → IsRefusedMoveAt g s ms j l b →
        (i ≡ j) × (k ≡ l) × (without_matching a ≡ without_matching b) }
{}
