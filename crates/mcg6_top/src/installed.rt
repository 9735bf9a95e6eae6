//! The program, at the source and the sink that are installed.
ghost use Rattle.std.specs.Prelude.{◌≡◌, [], IfErr, IfOk, IsSomeAnd};
ghost use Rattle.std.specs.declared.option.Option.TheVariants.{None};
ghost use Rattle.mcg6_top.specs.Common.{EndsOn};

use crate::line::CommandLine;
use crate::running::run;
use arguments::{ArgumentFault, Arguments, read_arguments};
use mcg6_encoder::outside::{InSource, OutSink, TracedReader};
use std::alloc::Global;
use std::rt::{Env, Files};

/// How the program ended, with what the runtime gave and what it took.
#[derive(Drop)]
pub struct EndedListRun<'a, R: Files + Input + Print> {
    /// The words of the command line, with what the runtime gave, or why they were not read.
    pub read: Result<Arguments, ArgumentFault>,
    /// The exit status.
    pub code: u8,
    /// The file that was opened, or the standard input, after the run, with the bytes that it gave.
    /// It is opened only once the words have been read.
    pub source: Option<InSource<R>>,
    /// The standard output after the run, with the bytes that it took.
    pub sink: OutSink<'a, R>,
}

/// The program: reads the words of the command line and does what they ask for, as `run`, with the
/// file that they name, or the standard input, and the standard output of the runtime.
///
/// What it was given and what it printed are values of the result, the words that the runtime gave
/// among them.
pub fn program<R: Files + Input + Print + Env>(runtime: &R, alloc: Global) -> EndedListRun<'_, R>
    ensures ends { IfOk result.read (λ read. IsSomeAnd result.source
        (λ source. EndsOn read.asked.words result.code source result.sink)) }
    ensures unopened { IfErr result.read (λ _. result.source ≡ None) }
    ensures printed { IfErr result.read (λ _. result.sink.printed ≡ []) }
{
    let read = read_arguments(runtime, alloc);
    let mut sink = OutSink::new(runtime);
    let (code, source) = match &read {
        Ok(read) => {
            let line = CommandLine::of(&read.words);
            let mut source = InSource::new(TracedReader::open(runtime, line.file()));
            let status = run(alloc, &line, &mut source, &mut sink);
            (status.code(), Some(source))
        }
        Err(refusal) => (refusal.code(), None),
    };
    EndedListRun {
        read,
        code,
        source,
        sink,
    }
}
