//! The program, at the source and the sinks that are installed.
ghost use Rattle.std.specs.Prelude.{◌≡◌, [], IfErr, IfOk, IsSomeAnd};
ghost use Rattle.std.specs.declared.option.Option.TheVariants.{None};
ghost use Rattle.front_words.specs.Saying.{IsSaid};
ghost use Rattle.mcg6_top.specs.Common.{code_of};
ghost use Rattle.mcg6_front_top.specs.Installed.{EndsOn};
ghost use Rattle.mcg6_front_top.specs.Words.{message_words};

use crate::ending::ListFrontEnding;
use crate::fronting::run_list_front;
use front_words::arguments::{ArgumentFault, Arguments, read_arguments};
use front_words::{is_quiet, say_unread_arguments};
use mcg6_encoder::outside::{InSource, LineSink, OutSink, Sink, TracedReader};
use mcg6_top::CommandLine;
use std::rt::{Env, Files};

/// How the program ended, with what the runtime gave and what it took.
#[derive(Drop)]
pub struct EndedListFront<'a, R: Files + Input + Print, E: Print> {
    /// The words of the command line, with what the runtime gave, or why they were not read.
    pub read: Result<Arguments, ArgumentFault>,
    /// The exit status.
    pub code: u8,
    /// The file that was opened, or the standard input, after the run, with the bytes that it gave.
    /// It is opened only once the words have been read.
    pub source: Option<InSource<R>>,
    /// The standard output after the run, with the bytes that it took.
    pub sink: OutSink<'a, R>,
    /// The standard error after the run, with the bytes that it took.
    pub errors: LineSink<'a, E>,
}

// Says what is to be said, and returns the exit status.
fn said_code<E: Sink>(ending: ListFrontEnding<'_, '_>, errors: &mut E) -> u8
    ensures code { result ≡ code_of ending.entry.status }
    ensures says { IsSaid E.written E.writes E.faults
        (message_words ending.entry.line.now ending.entry.message ending.entry.clues)
        errors.old errors.new }
{
    ending.say(errors);
    ending.status.code()
}

/// The program: reads the words of the command line, does what they ask for, as `run_list_front`,
/// with the file that they name, or the standard input, and the standard output of the runtime, and
/// then says on the stream what is to be said.
pub fn program<'a, R: Files + Input + Print + Env + AllocGlobal, E: Print>(
    runtime: &'a R,
    stream: &'a E,
) -> EndedListFront<'a, R, E>
    ensures ends { IfOk result.read (λ read. IsSomeAnd result.source
        (λ source. EndsOn read.asked.words result.code source result.sink result.errors)) }
    ensures unopened { IfErr result.read (λ _. result.source ≡ None) }
    ensures printed { IfErr result.read (λ _. result.sink.printed ≡ []) }
{
    let alloc = runtime.alloc();
    let quiet = is_quiet(runtime);
    let mut errors = LineSink::new(stream);
    let mut sink = OutSink::new(runtime);
    let read = read_arguments(runtime, alloc);
    let (code, source) = match &read {
        Ok(read) => {
            let line = CommandLine::of(&read.words);
            let mut source = InSource::new(TracedReader::open(runtime, line.file()));
            let ending = run_list_front(alloc, &line, quiet, &mut source, &mut sink);
            (said_code(ending, &mut errors), Some(source))
        }
        Err(refusal) => {
            if !quiet {
                let _ = say_unread_arguments(&mut errors, "mcg6", refusal);
            }
            (refusal.code(), None)
        }
    };
    EndedListFront {
        read,
        code,
        source,
        sink,
        errors,
    }
}
