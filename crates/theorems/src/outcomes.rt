//! Outcomes: what the program reports is what a textbook says.
//!
//! Each law here is the contract of a function that does nothing.
ghost use Rattle.std.specs.Prelude.{◌≡◌, ◌⊎◌, ℕ, List, [], ◌∷◌, Some, codes};
ghost use Rattle.tree_check.specs.from_counting.Common.{Within};
ghost use Rattle.bench_top.specs.from_outside.Common.{NamedFile};
ghost use Rattle.graph_core.specs.Common.{IsCovered, Graph, IsMultigraph, size};
ghost use Rattle.graph_text.specs.Common.{NamedGraph};
ghost use Rattle.tree_core.specs.Common.{IsDerivation, PlainMove, Shape};
ghost use Rattle.tree_check.specs.Common.{HasShores};
ghost use Rattle.ear_text.specs.from_ear_core.Common.{PlainEars};
ghost use Rattle.bench_tasks.specs.Common.{Command, command_of, Absent, All, graph_file, loaded, pick_file, trees_given, Task};
ghost use Rattle.bench_tasks.specs.Tasks.{OnEars, OnGraph, OnMoves, OnNumbers, OnPicks, OnSimpleGraph, OnTree, OnTrees};
ghost use Rattle.bench_tasks.specs.declared.verbs.GraphVerb.TheVariants.{Analyse, Convert, Decompose, Ears};
ghost use Rattle.bench_tasks.specs.declared.verbs.SimpleGraphVerb.TheVariants.{Analyse6};
ghost use Rattle.bench_tasks.specs.declared.verbs.TreeVerb.TheVariants.{Check};
ghost use Rattle.bench_tasks.specs.declared.verbs.PicksVerb.TheVariants.{DecomposeBy};
ghost use Rattle.bench_tasks.specs.declared.verbs.EarsVerb.TheVariants.{CheckEars};
ghost use Rattle.bench_tasks.specs.declared.verbs.MovesVerb.TheVariants.{Replay};
ghost use Rattle.bench_tasks.specs.declared.verbs.TreesVerb.TheVariants.{Compare, Script};
ghost use Rattle.bench_tasks.specs.declared.verbs.NumbersVerb.TheVariants.{Grow};
ghost use Rattle.bench_tasks.specs.from_decomposer.declared.orders.NamedOrder.{NamedOrder};
ghost use Rattle.bench_top.specs.from_bench_outcomes.Common.{Outcome, ResultOf};
ghost use Rattle.bench_top.specs.from_bench_outcomes.declared.status.Status.{Status};
ghost use Rattle.bench_top.specs.from_bench_outcomes.declared.status.Status.TheVariants.{Done};
ghost use Rattle.bench_top.specs.Given.{GivenOutcome};
ghost use Rattle.bench_top.specs.from_mcg6_lines.declared.query.Query.{Query};
ghost use Rattle.mcg6_top.specs.Common.{HasAnswer, HasListOutcome};
ghost use Rattle.mcg6_top.specs.declared.command.AtBadLine.{AtBadLine};
ghost use Rattle.theorems.specs.Outcomes.{HoldsPicks, IsDoneRun, IsFileGraph, StandsForGraph, StandsForTree, TellsDecomposition, TellsEars, TellsKind, TellsPairing, TellsScript, TellsSets};

use bench_top::outside::{Shelf, Sink};

/// For every graph file, `analyse` lists the Gallai-Edmonds sets D, A and C. For every matching
/// covered graph and every order of choice, `decompose` gives a tree of nontrivial tight cuts
/// that ends in bricks and braces. For every two such trees of one graph, `compare` gives a
/// one-to-one pairing of their leaves with bijections that preserve adjacency, and moves that
/// turn the one tree into the other, and `script` gives such moves as a file. For every matching
/// covered graph, `analyse` calls it a brick if and only if it is not bipartite, is bicritical
/// and has no cut pair, and `ears` tells an ear decomposition, in which neither ear of a step of
/// two keeps the stage matching covered alone, and of single ears where the graph is bipartite.
/// Gallai 1964; Edmonds 1965; Lovász 1987; Edmonds, Lovász and Pulleyblank 1982; Lovász and
/// Plummer, "Matching Theory".
pub fn headline_law()
    ensures sets { (files : List NamedFile) (graph : List ℕ) (named : NamedGraph)
        (status : Status) (output : List ℕ)
        → graph_file files graph ≡ All named
        → Outcome (codes "analyse" ∷ graph ∷ []) files status output
        → (status ≡ Done) × TellsSets named output }
    ensures decompositions { (files : List NamedFile) (graph order : List ℕ) (named : NamedGraph)
        (status : Status) (output : List ℕ)
        → graph_file files graph ≡ All named → IsCovered named.graph
        → Outcome (codes "decompose" ∷ graph ∷ order ∷ []) files status output
        → (status ≡ Done) × TellsDecomposition named.graph output }
    ensures picks { (files : List NamedFile) (graph picks list : List ℕ) (named : NamedGraph)
        (status : Status) (output : List ℕ)
        → graph_file files graph ≡ All named → pick_file files picks ≡ All list
        → IsCovered named.graph
        → Outcome (codes "decompose" ∷ graph ∷ codes "script" ∷ picks ∷ []) files status output
        → (status ≡ Done) × TellsDecomposition named.graph output }
    ensures comparisons { (files : List NamedFile) (graph first second : List ℕ)
        (named : NamedGraph) (s t : Shape) (status : Status) (output : List ℕ)
        → trees_given files graph first second ≡ All (named, (s, t))
        → IsDerivation named.graph s → IsDerivation named.graph t
        → Outcome (codes "compare" ∷ graph ∷ first ∷ second ∷ []) files status output
        → (status ≡ Done) × TellsPairing named.graph s t output }
    ensures scripts { (files : List NamedFile) (graph first second : List ℕ)
        (named : NamedGraph) (s t : Shape) (status : Status) (output : List ℕ)
        → trees_given files graph first second ≡ All (named, (s, t))
        → IsDerivation named.graph s → IsDerivation named.graph t
        → Outcome (codes "script" ∷ graph ∷ first ∷ second ∷ []) files status output
        → (status ≡ Done) × TellsScript named.graph s t output }
    ensures kinds { (files : List NamedFile) (graph : List ℕ) (named : NamedGraph)
        (status : Status) (output : List ℕ)
        → graph_file files graph ≡ All named → IsCovered named.graph
        → Outcome (codes "analyse" ∷ graph ∷ []) files status output
        → (status ≡ Done) × TellsKind named output }
    ensures ears { (files : List NamedFile) (graph : List ℕ) (named : NamedGraph)
        (status : Status) (output : List ℕ)
        → graph_file files graph ≡ All named → IsCovered named.graph
        → Outcome (codes "ears" ∷ graph ∷ []) files status output
        → (status ≡ Done) × TellsEars named.graph output }
{}

/// The headline over what the reads gave, whatever the file store and the sink are: also over a
/// real file system, which tells no files. A run that ends with the status Done read each file of
/// its words once, in turn; what these reads gave stands for what the command works on, and what
/// the run wrote, whole, says of this what the headline says. So if `decompose` ends so, its read
/// gave bytes that stand for a matching covered graph, and it wrote a text that stands for a tight
/// cut decomposition of this graph. The premise is the clause `answered` of `run`, for the words of
/// the command and for Done, so each call of `run` that ends so has the conclusion.
pub fn done_runs_law<S: Shelf, K: Sink>(shelf: &S, sink: &K)
    ensures sets { (graph : List ℕ) (first last : S) (before now : K)
        → GivenOutcome S.reads K.written K.writes (command_of (codes "analyse" ∷ graph ∷ []))
        Done first last before now
        → (text : List ℕ) × (named : NamedGraph) × (output : List ℕ)
        × StandsForGraph text named
        × IsDoneRun S.reads K.written K.writes (graph ∷ []) (text ∷ []) output
        first last before now
        × TellsSets named output × (IsCovered named.graph → TellsKind named output) }
    ensures decompositions { (graph order : List ℕ) (first last : S) (before now : K)
        → GivenOutcome S.reads K.written K.writes
        (command_of (codes "decompose" ∷ graph ∷ order ∷ [])) Done first last before now
        → (text : List ℕ) × (named : NamedGraph) × (output : List ℕ)
        × StandsForGraph text named
        × IsDoneRun S.reads K.written K.writes (graph ∷ []) (text ∷ []) output
        first last before now
        × IsCovered named.graph × TellsDecomposition named.graph output }
    ensures picks { (graph picks : List ℕ) (first last : S) (before now : K)
        → GivenOutcome S.reads K.written K.writes
        (command_of (codes "decompose" ∷ graph ∷ codes "script" ∷ picks ∷ []))
        Done first last before now
        → (text listed : List ℕ) × (named : NamedGraph) × (list : List ℕ) × (output : List ℕ)
        × StandsForGraph text named × HoldsPicks listed list
        × IsDoneRun S.reads K.written K.writes (graph ∷ picks ∷ []) (text ∷ listed ∷ []) output
        first last before now
        × IsCovered named.graph × TellsDecomposition named.graph output }
    ensures ears { (graph : List ℕ) (first last : S) (before now : K)
        → GivenOutcome S.reads K.written K.writes (command_of (codes "ears" ∷ graph ∷ []))
        Done first last before now
        → (text : List ℕ) × (named : NamedGraph) × (output : List ℕ)
        × StandsForGraph text named
        × IsDoneRun S.reads K.written K.writes (graph ∷ []) (text ∷ []) output
        first last before now
        × IsCovered named.graph × TellsEars named.graph output }
    ensures comparisons { (graph one two : List ℕ) (first last : S) (before now : K)
        → GivenOutcome S.reads K.written K.writes
        (command_of (codes "compare" ∷ graph ∷ one ∷ two ∷ [])) Done first last before now
        → (text a b : List ℕ) × (named : NamedGraph) × (s t : Shape) × (output : List ℕ)
        × StandsForGraph text named
        × StandsForTree named.graph.order a s
        × StandsForTree named.graph.order b t
        × IsDoneRun S.reads K.written K.writes (graph ∷ one ∷ two ∷ []) (text ∷ a ∷ b ∷ []) output
        first last before now
        × IsDerivation named.graph s × IsDerivation named.graph t
        × TellsPairing named.graph s t output }
    ensures scripts { (graph one two : List ℕ) (first last : S) (before now : K)
        → GivenOutcome S.reads K.written K.writes
        (command_of (codes "script" ∷ graph ∷ one ∷ two ∷ [])) Done first last before now
        → (text a b : List ℕ) × (named : NamedGraph) × (s t : Shape) × (output : List ℕ)
        × StandsForGraph text named
        × StandsForTree named.graph.order a s
        × StandsForTree named.graph.order b t
        × IsDoneRun S.reads K.written K.writes (graph ∷ one ∷ two ∷ []) (text ∷ a ∷ b ∷ []) output
        first last before now
        × IsDerivation named.graph s × IsDerivation named.graph t
        × TellsScript named.graph s t output }
{
    let _ = shelf;
    let _ = sink;
}

/// There is a report: for every graph one of `analyse`, one of `analyse6` and one of `ears`, and
/// one of `decompose` in each order of choice and for each list of picks; for every tree of cuts
/// one of `check`, and one of `replay` for each list of moves; for every list of ears one of
/// `checkears`; for every two trees of cuts one of `compare` and one of `script`; and for every
/// seed and number of pieces one of `grow`. So the clauses on what is reported speak of something,
/// whatever memory does. A tree is one that a file can hold, with shores that are sets without the
/// greatest vertex, and if the text of a report is to be read again, a graph is one that a file
/// can hold. So each command whose files load has a report, and each command has an outcome or
/// names a file that is missing.
pub fn report_exists_law()
    ensures analyse { (named : NamedGraph) → IsMultigraph named.graph →
        (status : Status) × (output : List ℕ) × ResultOf (OnGraph Analyse named) status output }
    ensures analyse6 { (g : Graph) → IsMultigraph g →
        (status : Status) × (output : List ℕ) × ResultOf (OnSimpleGraph Analyse6 g) status output }
    ensures convert { (named : NamedGraph) → IsFileGraph named →
        (status : Status) × (output : List ℕ) × ResultOf (OnGraph Convert named) status output }
    ensures decompose { (named : NamedGraph) (order : NamedOrder) → IsFileGraph named →
        (status : Status) × (output : List ℕ) ×
        ResultOf (OnGraph (Decompose order) named) status output }
    ensures decompose_by { (named : NamedGraph) (picks : List ℕ) → IsFileGraph named →
        (status : Status) × (output : List ℕ) ×
        ResultOf (OnPicks DecomposeBy named picks) status output }
    ensures check { (named : NamedGraph) (t : Shape) → IsMultigraph named.graph →
        HasShores named.graph.order t →
        (status : Status) × (output : List ℕ) × ResultOf (OnTree Check named t) status output }
    ensures check_ears { (named : NamedGraph) (list : PlainEars) → IsMultigraph named.graph →
        Within (size named.graph) list.start →
        (status : Status) × (output : List ℕ) × ResultOf
        (OnEars CheckEars named list) status output }
    ensures ears { (named : NamedGraph) → IsMultigraph named.graph →
        (status : Status) × (output : List ℕ) × ResultOf (OnGraph Ears named) status output }
    ensures replay { (named : NamedGraph) (t : Shape) (moves : List PlainMove) →
        IsMultigraph named.graph → HasShores named.graph.order t →
        (status : Status) × (output : List ℕ) × ResultOf
        (OnMoves Replay named t moves) status output }
    ensures compare { (named : NamedGraph) (s t : Shape) → IsMultigraph named.graph →
        HasShores named.graph.order s → HasShores named.graph.order t →
        (status : Status) × (output : List ℕ) × ResultOf (OnTrees Compare named s t) status output }
    ensures script { (named : NamedGraph) (s t : Shape) → IsFileGraph named →
        HasShores named.graph.order s → HasShores named.graph.order t →
        (status : Status) × (output : List ℕ) × ResultOf (OnTrees Script named s t) status output }
    ensures grow { (seed pieces : ℕ) →
        (status : Status) × (output : List ℕ) × ResultOf
        (OnNumbers Grow seed pieces) status output }
    ensures task { (files : List NamedFile) (command : Command) (task : Task) →
        loaded files command ≡ All task →
        (status : Status) × (output : List ℕ) × ResultOf task status output }
    ensures outcome { (words : List (List ℕ)) (files : List NamedFile) (command : Command) →
        command_of words ≡ Some command →
        ((file : ℕ) × (loaded files command ≡ Absent file)) ⊎
        ((status : Status) × (output : List ℕ) × Outcome words files status output) }
{}

/// There is an outcome of every list: for each query, whatever is done at a bad line, a status and
/// an output for which the query and the bytes of the list stand. The status is Done or BadInput,
/// so the list settles it, and nothing of the outside does. For each line there is what the query
/// asks of its graph, or the kind of its first error. So the clauses on lists speak of something,
/// whatever memory does. A report on a bad line holds its text in memory: the vector shows where
/// one can be, and nothing is said of what it holds.
pub fn list_outcome_exists_law(held: &Vec<u8>)
    ensures line { (query : Query) → HasAnswer query }
    ensures outcome { (query : Query) (at_bad : AtBadLine) (bytes : List ℕ) →
        HasListOutcome query at_bad bytes }
{
    let _ = held;
}
