//! The top call, and the same with the file that stopped it and why the input was refused.
ghost use Rattle.std.specs.Prelude.{map, string_bytes};
ghost use Rattle.bench_reports.specs.from_bench_tasks.Common.{command_of};
ghost use Rattle.bench_top.specs.Runs.{Runs, RunsTo};

use crate::ending::RunEnding;
use crate::performing::perform;
use bench_reports::bench_outcomes::Status;
use bench_reports::bench_tasks::command_of;
use outside::{Explain, Explained, Reasons, Shelf, Sink, Unexplained};
use std::alloc::Global;

// Does what the words ask for, with the reasons for failed reads that are known.
fn run_by<'a, R: Reasons<S>, S: Shelf, K: Sink>(
    alloc: Global,
    words: &'a [String],
    reasons: &R,
    shelf: &mut S,
    sink: &mut K,
) -> RunEnding<'a>
    ensures { RunsTo S.files S.steady S.faults S.reads R.reason K.written K.writes K.faults
        (command_of (map string_bytes words.now)) result.status result.stop result.refusal
        shelf.old shelf.new sink.old sink.new }
{
    match command_of(words) {
        Some(command) => perform(alloc, command, reasons, shelf, sink),
        None => RunEnding {
            status: Status::Usage,
            stop: None,
            refusal: None,
        },
    }
}

/// Does what the words ask for, as `run` does, and returns beside the status which file stopped it,
/// with what is known of this file, or why the input was refused.
///
/// What it makes of the shelf and the sink is `RunsTo`: all that `run` makes of them (`Runs`), and
/// ten facts more. The stop is what the files hold (`stops`), and the files up to it are those that
/// were read (`stops_after`). It has the file at its place in the words, with the reason that the
/// shelf gave if it could not be read (`carries`), and otherwise the bytes that its read returned
/// (`carries_bytes`) and the sizes of the graph that it is for (`carries_graph`). A bad file is the
/// one that the written line reports (`reported`), and a failed read has its file (`unread_file`).
/// There is a refusal exactly if the status is Negative (`is_refused`), it is the one that the
/// written line reports (`reported_refusal`), and the place that it names is that of the fault in
/// what the files hold (`placed`).
pub fn run_ending<'a, S: Explain, K: Sink>(
    alloc: Global,
    words: &'a [String],
    shelf: &mut S,
    sink: &mut K,
) -> RunEnding<'a>
    ensures { RunsTo S.files S.steady S.faults S.reads S.reason K.written K.writes K.faults
        (command_of (map string_bytes words.now)) result.status result.stop result.refusal
        shelf.old shelf.new sink.old sink.new }
{
    run_by(alloc, words, &Explained, shelf, sink)
}

/// Does what the words ask for: reads the files that they name from the shelf, and appends the
/// report to the sink.
///
/// What it makes of them is `Runs`, a record with a line on each of its fields. They say, for each
/// status, its cause. `outcome` ties the words, the files, the status and the output together:
/// `CommandGives` has one case for each command and cites the definitions of `graph_core` and of
/// the crates above it.
pub fn run<S: Shelf, K: Sink>(
    alloc: Global,
    words: &[String],
    shelf: &mut S,
    sink: &mut K,
) -> Status
    ensures { Runs S.files S.steady S.faults S.reads K.written K.writes K.faults
        (command_of (map string_bytes words.now)) result shelf.old shelf.new sink.old sink.new }
{
    run_by(alloc, words, &Unexplained, shelf, sink).status
}
