//! The top call.
ghost use Rattle.std.specs.Prelude.{◌≡◌, ◌⊎◌, true, false};
ghost use Rattle.mcg6_front_top.specs.Fronts.{ListFronts};

use crate::clues::Clues;
use crate::ending::{ListFrontEnding, ListMessage};
use crate::speaking::status_in;
use front_words::{Program, answer, answer_of};
use mcg6_encoder::outside::{Inlet, Outlet};
use mcg6_top::{CommandLine, ListRunEnding, ListStatus, run_to_ending};
use std::alloc::Global;

// What is to be said of an answer: that it could not be written whole, unless it is to be quiet or
// nobody reads the answer any more.
fn message_on_answer<'a>(status: ListStatus, is_quiet: bool, is_abandoned: bool) -> ListMessage<'a>
    ensures quiet { is_quiet ≡ true → result ≡ ListMessage.Nothing }
    ensures quietly { (status ≡ ListStatus.Done) ⊎ (is_abandoned ≡ true) →
        result ≡ ListMessage.Nothing }
    ensures lost { status ≡ ListStatus.WriteFault → is_abandoned ≡ false → is_quiet ≡ false →
        result ≡ ListMessage.Lost }
{
    if matches!(status, ListStatus::WriteFault) && !is_quiet && !is_abandoned {
        ListMessage::Lost
    } else {
        ListMessage::Nothing
    }
}

// What is to be said of a run that ended so: what that means, unless it is to be quiet.
fn message_on_run<'a>(end: Option<ListRunEnding<'a>>, is_quiet: bool) -> ListMessage<'a>
    ensures quiet { is_quiet ≡ true → result ≡ ListMessage.Nothing }
    ensures loud { is_quiet ≡ false → result ≡ ListMessage.Ending end.entry }
{
    if is_quiet {
        ListMessage::Nothing
    } else {
        ListMessage::Ending { end }
    }
}

/// Does what the command line asks for, as `run` of `mcg6_top`, and returns how that ended, with
/// what is to be said of it, unless it is to be quiet. Words that ask for the usage or the version
/// are answered on the sink, and nothing is read.
///
/// Nothing is said yet: `ListFrontEnding::say` does that, which takes the sink for it. What the
/// call makes of source and sink is `ListFronts`, a record with a line on each of its fields.
pub fn run_list_front<'a, 'b, S: Inlet, K: Outlet>(
    alloc: Global,
    line: &'b CommandLine<'a>,
    is_quiet: bool,
    source: &mut S,
    sink: &mut K,
) -> ListFrontEnding<'a, 'b>
    ensures fronts { ListFronts S.left S.faults S.reads K.written K.writes K.faults line.now
        is_quiet result.clues.is_abandoned result.status result.message source.old source.new
        sink.old sink.new }
    // What is said is said of these words, of this source and of this sink.
    ensures words { result.line.now ≡ line.now }
    ensures reason { result.clues.reason ≡ S.reason source.new }
    ensures is_abandoned { result.clues.is_abandoned ≡ K.is_abandoned sink.new }
{
    match answer_of(Program::Mcg6, line.words()) {
        Some(text) => {
            let status = answer(text, sink, ListStatus::Done, ListStatus::WriteFault);
            let is_abandoned = sink.is_abandoned();
            ListFrontEnding {
                status,
                message: message_on_answer(status, is_quiet, is_abandoned),
                line,
                clues: Clues {
                    reason: source.reason(),
                    is_abandoned,
                },
            }
        }
        None => {
            let end = run_to_ending(alloc, line, source, sink);
            ListFrontEnding {
                status: status_in(&end),
                message: message_on_run(end, is_quiet),
                line,
                clues: Clues {
                    reason: source.reason(),
                    is_abandoned: sink.is_abandoned(),
                },
            }
        }
    }
}
