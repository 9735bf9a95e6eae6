//! The installed program: what it was given and what it printed, as values.
//!
//! Each law here is the contract of a function that does nothing.
ghost use Rattle.std.specs.Prelude.{◌≡◌, ◌++◌, ℕ, List, [], ◌∷◌, Option, codes};
ghost use Rattle.bench_top.specs.from_outside.Common.{NamedFile, OpenState, PrintState};
ghost use Rattle.graph_core.specs.Common.{IsCovered};
ghost use Rattle.graph_text.specs.Common.{NamedGraph};
ghost use Rattle.tree_core.specs.Common.{IsDerivation, Shape};
ghost use Rattle.bench_tasks.specs.Common.{Command, command_of};
ghost use Rattle.bench_top.specs.from_bench_outcomes.Common.{IsSettled};
ghost use Rattle.bench_top.specs.from_bench_outcomes.declared.status.Status.{Status};
ghost use Rattle.bench_top.specs.from_bench_outcomes.declared.status.Status.TheVariants.{Done};
ghost use Rattle.bench_top.specs.Given.{GivenOutcome};
ghost use Rattle.bench_top.specs.Installed.{HasReported, InstalledOutcome, IsReportOn};
ghost use Rattle.theorems.specs.Outcomes.{HoldsPicks, IsInstalledRun, StandsForGraph, StandsForTree, TellsDecomposition, TellsEars, TellsKind, TellsPairing, TellsScript, TellsSets};

use bench_top::outside::{DirShelf, OutSink, Shelf, Sink};
use std::rt::Files;

/// The headline for the shelf and the sink that are installed, which note what they were given and
/// what was taken. A run that ends with status 0 or 1 was given the files that its words name, one
/// after another, and printed a report on the bytes that it was given (`reports`); whatever else it
/// could have printed contradicts this (`other`). If it is done, the report says of these bytes what
/// the headline says: so if `decompose` is done, the bytes of its file stand for a matching covered
/// graph, and what was printed stands for a tight cut decomposition of this graph. The premise is
/// the clause `answered` of `run` at this shelf and this sink (`edge`), for the words of the
/// command, and a clause of `program`, so each call of the program has the conclusion.
pub fn installed_runs_law<R: Files, P: Print>(files: &R, out: &P)
    ensures edge { (row : Option Command) (status : Status) (first last : OpenState)
        (before now : PrintState)
        → GivenOutcome ⟦<DirShelf<'static, R> as Shelf>⟧.reads
        ⟦<OutSink<'static, P> as Sink>⟧.written ⟦<OutSink<'static, P> as Sink>⟧.writes row status
        first last before now
        → InstalledOutcome row status first last before now }
    ensures reports { (row : Option Command) (status : Status) (first last : OpenState)
        (before now : PrintState)
        → IsSettled status → InstalledOutcome row status first last before now
        → HasReported row status first.given last.given before.printed now.printed }
    ensures other { (row : Option Command) (status : Status) (first last : OpenState)
        (before now : PrintState)
        → IsSettled status → InstalledOutcome row status first last before now
        → (files : List NamedFile) (bytes : List ℕ) → last.given ≡ first.given ++ files
        → now.printed ≡ before.printed ++ bytes → IsReportOn row status files bytes }
    ensures sets { (graph : List ℕ) (first last : OpenState) (before now : PrintState)
        → InstalledOutcome (command_of (codes "analyse" ∷ graph ∷ [])) Done first last before now
        → (text : List ℕ) × (named : NamedGraph) × (output : List ℕ)
        × StandsForGraph text named
        × IsInstalledRun (graph ∷ []) (text ∷ []) output first last before now
        × TellsSets named output × (IsCovered named.graph → TellsKind named output) }
    ensures decompositions { (graph order : List ℕ) (first last : OpenState)
        (before now : PrintState)
        → InstalledOutcome (command_of (codes "decompose" ∷ graph ∷ order ∷ [])) Done first last
        before now
        → (text : List ℕ) × (named : NamedGraph) × (output : List ℕ)
        × StandsForGraph text named
        × IsInstalledRun (graph ∷ []) (text ∷ []) output first last before now
        × IsCovered named.graph × TellsDecomposition named.graph output }
    ensures picks { (graph picks : List ℕ) (first last : OpenState) (before now : PrintState)
        → InstalledOutcome
        (command_of (codes "decompose" ∷ graph ∷ codes "script" ∷ picks ∷ [])) Done first last
        before now
        → (text listed : List ℕ) × (named : NamedGraph) × (list : List ℕ) × (output : List ℕ)
        × StandsForGraph text named × HoldsPicks listed list
        × IsInstalledRun (graph ∷ picks ∷ []) (text ∷ listed ∷ []) output first last before now
        × IsCovered named.graph × TellsDecomposition named.graph output }
    ensures ears { (graph : List ℕ) (first last : OpenState) (before now : PrintState)
        → InstalledOutcome (command_of (codes "ears" ∷ graph ∷ [])) Done first last before now
        → (text : List ℕ) × (named : NamedGraph) × (output : List ℕ)
        × StandsForGraph text named
        × IsInstalledRun (graph ∷ []) (text ∷ []) output first last before now
        × IsCovered named.graph × TellsEars named.graph output }
    ensures comparisons { (graph one two : List ℕ) (first last : OpenState)
        (before now : PrintState)
        → InstalledOutcome (command_of (codes "compare" ∷ graph ∷ one ∷ two ∷ [])) Done first last
        before now
        → (text a b : List ℕ) × (named : NamedGraph) × (s t : Shape) × (output : List ℕ)
        × StandsForGraph text named
        × StandsForTree named.graph.order a s
        × StandsForTree named.graph.order b t
        × IsInstalledRun (graph ∷ one ∷ two ∷ []) (text ∷ a ∷ b ∷ []) output first last before now
        × IsDerivation named.graph s × IsDerivation named.graph t
        × TellsPairing named.graph s t output }
    ensures scripts { (graph one two : List ℕ) (first last : OpenState) (before now : PrintState)
        → InstalledOutcome (command_of (codes "script" ∷ graph ∷ one ∷ two ∷ [])) Done first last
        before now
        → (text a b : List ℕ) × (named : NamedGraph) × (s t : Shape) × (output : List ℕ)
        × StandsForGraph text named
        × StandsForTree named.graph.order a s
        × StandsForTree named.graph.order b t
        × IsInstalledRun (graph ∷ one ∷ two ∷ []) (text ∷ a ∷ b ∷ []) output first last before now
        × IsDerivation named.graph s × IsDerivation named.graph t
        × TellsScript named.graph s t output }
{
    let _ = files;
    let _ = out;
}
