//! The top call.
ghost use Rattle.std.specs.Prelude.{◌≡◌, ◌⊎◌, map, string_bytes, true, false};
ghost use Rattle.front_top.specs.Fronts.{Fronts};

use crate::ending::{FrontEnding, Message};
use bench_top::outside::{Explain, Outlet};
use bench_top::{RunEnding, Status, run_ending};
use front_words::{Program, answer, answer_of};
use std::alloc::Global;

// What is to be said of an answer: that it could not be written whole, unless it is to be quiet or
// nobody reads the answer any more.
fn message_on_answer<'a>(status: Status, is_quiet: bool, is_abandoned: bool) -> Message<'a>
    ensures quiet { is_quiet ≡ true → result ≡ Message.Nothing }
    ensures quietly { (status ≡ Status.Done) ⊎ (is_abandoned ≡ true) → result ≡ Message.Nothing }
    ensures lost { status ≡ Status.WriteFault → is_abandoned ≡ false → is_quiet ≡ false →
        result ≡ Message.Lost }
{
    if matches!(status, Status::WriteFault) && !is_quiet && !is_abandoned {
        Message::Lost
    } else {
        Message::Nothing
    }
}

// What is to be said of a run that ended so: what that means, unless it is to be quiet.
fn message_on_run<'a>(ending: RunEnding<'a>, is_quiet: bool) -> Message<'a>
    ensures quiet { is_quiet ≡ true → result ≡ Message.Nothing }
    ensures loud { is_quiet ≡ false → result ≡ Message.Ending ending.entry }
{
    if is_quiet {
        Message::Nothing
    } else {
        Message::Ending { ending }
    }
}

/// Does what the words ask for, as `run` of `bench_top`, and returns how that ended, with what is
/// to be said of it, unless it is to be quiet. Words that ask for the usage or the version are
/// answered on the sink, and nothing is read.
///
/// Nothing is said yet: `FrontEnding::say` does that, which takes the sink for it. What the call
/// makes of shelf and sink is `Fronts`, a record with a line on each of its fields.
pub fn run_front<'a, S: Explain, K: Outlet>(
    alloc: Global,
    words: &'a [String],
    is_quiet: bool,
    shelf: &mut S,
    sink: &mut K,
) -> FrontEnding<'a>
    ensures fronts { Fronts S.files S.steady S.faults S.reads S.reason K.written K.writes K.faults
        (map string_bytes words.now) is_quiet result.is_abandoned result.status result.message
        shelf.old shelf.new sink.old sink.new }
    // What is said is said of these words, and of this sink.
    ensures words { result.words.now ≡ words.now }
    ensures is_abandoned { result.is_abandoned ≡ K.is_abandoned sink.new }
{
    match answer_of(Program::Mcg, words) {
        Some(text) => {
            let status = answer(text, sink, Status::Done, Status::WriteFault);
            let is_abandoned = sink.is_abandoned();
            FrontEnding {
                status,
                message: message_on_answer(status, is_quiet, is_abandoned),
                words,
                is_abandoned,
            }
        }
        None => {
            let ending = run_ending(alloc, words, shelf, sink);
            FrontEnding {
                status: ending.status,
                message: message_on_run(ending, is_quiet),
                words,
                is_abandoned: sink.is_abandoned(),
            }
        }
    }
}
