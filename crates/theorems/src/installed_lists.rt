//! The installed `mcg6`: what it was given and what it printed, as values; and that the installed
//! shelf, source and sink do tell this.
//!
//! Each law here is the contract of a function that does nothing.
ghost use Rattle.std.specs.Prelude.{◌≡◌, ◌<◌, ◌++◌, ℕ, List, Ok, Some, length};
ghost use Rattle.bench_top.specs.from_outside.Common.{HasPrinted, HasTaken, IsOpened, IsWritten, OpenState, PrintState, ReadState};
ghost use Rattle.mcg6_top.specs.Common.{HasListReport, InstalledRun, ListRuns, RowGives, command_of};
ghost use Rattle.mcg6_top.specs.declared.status.ListStatus.{ListStatus};

use bench_top::outside::{InSource, OutSink, Sink, Source};
use std::rt::Files;

/// What a run of `mcg6` was given and printed, with the source and the sink that are installed,
/// which note it. Whatever its status, the bytes printed are what the words ask of the lines of the
/// list that was read: of all of them, of those before the first bad one, or of some first ones, as
/// the status says; and of a graph file its graph6 text (`reports`). Whatever else could have been
/// read or printed contradicts this (`other`). The premise is the contract of `run` at this source
/// and this sink (`edge`), and a field of the contract of `program`, so each call of the program has
/// the conclusion.
pub fn installed_lists_law<R: Files + Input, P: Print>(reader: &R, out: &P)
    ensures edge { (words : List (List ℕ)) (status : ListStatus) (first last : ReadState)
        (before now : PrintState)
        → ListRuns ⟦<InSource<R> as Source>⟧.left ⟦<InSource<R> as Source>⟧.faults
        ⟦<InSource<R> as Source>⟧.reads ⟦<OutSink<'static, P> as Sink>⟧.written
        ⟦<OutSink<'static, P> as Sink>⟧.writes ⟦<OutSink<'static, P> as Sink>⟧.faults words status
        first last before now
        → InstalledRun words status first last before now }
    ensures reports { (words : List (List ℕ)) (status : ListStatus) (first last : ReadState)
        (before now : PrintState)
        → InstalledRun words status first last before now
        → HasListReport (command_of words) status first last before now }
    ensures other { (words : List (List ℕ)) (status : ListStatus) (first last : ReadState)
        (before now : PrintState)
        → InstalledRun words status first last before now
        → (read printed : List ℕ) → last.read ≡ first.read ++ read
        → now.printed ≡ before.printed ++ printed
        → RowGives (command_of words) status read printed }
{}

/// The installed shelf, source and sink do not stay as they were when a file was read, when bytes
/// were read, and when bytes were written. So what they tell is met by none that did nothing.
pub fn idle_law()
    ensures shelf { (state : OpenState) (name bytes : List ℕ)
        → IsOpened state name (Ok bytes) state → ⊥ }
    ensures source { (state : ReadState) (piece : List ℕ)
        → 0 < length piece → HasTaken state (Some piece) state → ⊥ }
    ensures sink { (state : PrintState) (output : List ℕ)
        → 0 < length output → IsWritten HasPrinted output state state → ⊥ }
{}
