//! The top call.
ghost use Rattle.std.specs.Prelude.{◌≡◌};
ghost use Rattle.mcg6_top.specs.Common.{AnswersFile, AnswersList, ListRuns, ListRunsTo, Performs, asked, command_at};

use crate::command::Mcg6Command;
use crate::line::CommandLine;
use crate::lister::Lister;
use crate::status::{ListEnding, ListRunEnding, ListStatus, status_of};
use mcg6_encoder::encode;
use mcg6_encoder::outside::{Sink, Source};
use mcg6_reader::{InputEnding, tell_all};
use std::alloc::Global;

// Answers the list that is left of the source.
fn answer_list<S: Source, K: Sink>(
    alloc: Global,
    lister: &Lister,
    source: &mut S,
    sink: &mut K,
) -> ListEnding
    ensures { AnswersList lister.now.query lister.now.at_bad S.left S.faults S.reads K.written
        K.writes K.faults result source.old source.new sink.old sink.new }
{
    let mut skipped = Vec::new(alloc);
    let ending = tell_all(alloc, lister, source, sink, &mut skipped);
    ListEnding { ending, skipped }
}

// Encodes the graph file that is left of the source.
fn encode_file<S: Source, K: Sink>(alloc: Global, source: &mut S, sink: &mut K) -> InputEnding
    ensures { AnswersFile S.left S.faults S.reads K.written K.writes K.faults result source.old
        source.new sink.old sink.new }
{
    encode(alloc, source, sink)
}

// Does what is asked for.
fn perform<'a, S: Source, K: Sink>(
    alloc: Global,
    command: Mcg6Command<'a>,
    source: &mut S,
    sink: &mut K,
) -> ListRunEnding<'a>
    ensures command { command_at result ≡ asked command.entry }
    ensures performs { Performs S.left S.faults S.reads K.written K.writes K.faults result source.old
        source.new sink.old sink.new }
{
    match command {
        Mcg6Command::Answer { list } => {
            let query = list.query;
            let at_bad = list.at_bad;
            let end = answer_list(alloc, &Lister { query, at_bad }, source, sink);
            ListRunEnding::Answered { list, end }
        }
        Mcg6Command::Encode { file } => {
            let ending = encode_file(alloc, source, sink);
            ListRunEnding::Encoded { file, ending }
        }
    }
}

/// Does what the command line asks for, as `run` does, and returns how it ended: of a list that
/// ends with a bad line the number of the first one, its text as far as it was kept, and the kind
/// of its first error; of a bad graph file the same, the text without its line feed; and a report
/// on each bad line that was skipped. `None` comes exactly when the words match no row. What it
/// makes of the source and the sink is `ListRunsTo`.
pub fn run_to_ending<'a, S: Source, K: Sink>(
    alloc: Global,
    line: &CommandLine<'a>,
    source: &mut S,
    sink: &mut K,
) -> Option<ListRunEnding<'a>>
    ensures { ListRunsTo S.left S.faults S.reads K.written K.writes K.faults line.now result
        source.old source.new sink.old sink.new }
{
    let command = line.command()?;
    Some(perform(alloc, command, source, sink))
}

/// Does what the command line asks for: reads the list that is left of the source, and writes to
/// the sink what is asked of each of its graphs, in order, as it reads; or reads the graph file
/// that is left of the source, and writes the graph6 text of its graph. Of a bad line or file
/// nothing is written: `run_to_ending` returns what is found of it. The list ends at a bad line,
/// unless the words say that it goes on.
///
/// What it makes of them is `ListRuns`, a record with a line on each of its fields. They say, for
/// each status, its cause. `outcome` ties the words, the bytes of the list, the status and the
/// output together: `ListOutcome` has one case for each status and cites the definitions of
/// `mcg6_lines`. `encodes` does the same for a graph file, by those of `mcg6_encoder`.
pub fn run<S: Source, K: Sink>(
    alloc: Global,
    line: &CommandLine<'_>,
    source: &mut S,
    sink: &mut K,
) -> ListStatus
    ensures { ListRuns S.left S.faults S.reads K.written K.writes K.faults line.now result source.old
        source.new sink.old sink.new }
{
    match run_to_ending(alloc, line, source, sink) {
        Some(end) => status_of(&end),
        None => ListStatus::Usage,
    }
}
