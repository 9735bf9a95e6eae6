//! The program, at the shelf and the sinks that are installed.
ghost use Rattle.std.specs.Prelude.{◌≡◌, [], IfErr, IfOk, map, string_bytes};
ghost use Rattle.bench_top.specs.from_bench_outcomes.Common.{code_of};
ghost use Rattle.front_words.specs.Saying.{IsSaid};
ghost use Rattle.front_top.specs.Installed.{EndsOn};
ghost use Rattle.front_top.specs.Words.{message_words};

use crate::ending::FrontEnding;
use crate::fronting::run_front;
use bench_top::outside::{DirShelf, LineSink, OutSink, Sink};
use front_words::arguments::{ArgumentFault, Arguments, read_arguments};
use front_words::{is_quiet, say_unread_arguments};
use std::rt::{Env, Files};

/// How the program ended, with what the runtime gave and what it took.
#[derive(Drop)]
pub struct EndedFront<'a, R: Files + Print, E: Print> {
    /// The words of the command line, with what the runtime gave, or why they were not read.
    pub read: Result<Arguments, ArgumentFault>,
    /// The exit status.
    pub code: u8,
    /// The shelf after the run, with the files that were given.
    pub shelf: DirShelf<'a, R>,
    /// The standard output after the run, with the bytes that it took.
    pub sink: OutSink<'a, R>,
    /// The standard error after the run, with the bytes that it took.
    pub errors: LineSink<'a, E>,
}

// Says what is to be said, and returns the exit status.
fn said_code<E: Sink>(ending: FrontEnding<'_>, errors: &mut E) -> u8
    ensures code { result ≡ code_of ending.entry.status }
    ensures says { IsSaid E.written E.writes E.faults
        (message_words (map string_bytes ending.entry.words.now) ending.entry.message
        ending.entry.is_abandoned) errors.old errors.new }
{
    ending.say(errors);
    ending.status.code()
}

/// The program: reads the words of the command line, does what they ask for, as `run_front`, with
/// the files and the standard output of the runtime, and then says on the stream what is to be
/// said.
pub fn program<'a, R: Files + Print + Env + AllocGlobal, E: Print>(
    runtime: &'a R,
    stream: &'a E,
) -> EndedFront<'a, R, E>
    ensures ends { IfOk result.read (λ read.
        EndsOn read.asked.words result.code result.shelf result.sink result.errors) }
    ensures given { IfErr result.read (λ _. result.shelf.given ≡ []) }
    ensures printed { IfErr result.read (λ _. result.sink.printed ≡ []) }
{
    let alloc = runtime.alloc();
    let quiet = is_quiet(runtime);
    let mut errors = LineSink::new(stream);
    let mut sink = OutSink::new(runtime);
    let mut shelf = DirShelf::new(runtime);
    let read = read_arguments(runtime, alloc);
    let code = match &read {
        Ok(read) => {
            let ending = run_front(alloc, &read.words, quiet, &mut shelf, &mut sink);
            said_code(ending, &mut errors)
        }
        Err(refusal) => {
            if !quiet {
                let _ = say_unread_arguments(&mut errors, "mcg", refusal);
            }
            refusal.code()
        }
    };
    EndedFront {
        read,
        code,
        shelf,
        sink,
        errors,
    }
}
