//! The program, at the shelf and the sink that are installed.
ghost use Rattle.std.specs.Prelude.{◌≡◌, [], IfErr, IfOk};
ghost use Rattle.bench_top.specs.Installed.{EndsOn};

use crate::running::run;
use arguments::{ArgumentFault, Arguments, read_arguments};
use outside::{DirShelf, OutSink};
use std::alloc::Global;
use std::rt::{Env, Files};

/// How the program ended, with what the runtime gave and what it took.
#[derive(Drop)]
pub struct EndedRun<'a, R: Files + Print> {
    /// The words of the command line, with what the runtime gave, or why they were not read.
    pub read: Result<Arguments, ArgumentFault>,
    /// The exit status.
    pub code: u8,
    /// The shelf after the run, with the files that were given.
    pub shelf: DirShelf<'a, R>,
    /// The standard output after the run, with the bytes that it took.
    pub sink: OutSink<'a, R>,
}

/// The program: reads the words of the command line and does what they ask for, as `run`, with the
/// files and the standard output of the runtime.
///
/// What it was given and what it printed are values of the result, the words that the runtime gave
/// among them.
pub fn program<R: Files + Print + Env>(runtime: &R, alloc: Global) -> EndedRun<'_, R>
    ensures ends { IfOk result.read
        (λ read. EndsOn read.asked.words result.code result.shelf result.sink) }
    ensures given { IfErr result.read (λ _. result.shelf.given ≡ []) }
    ensures printed { IfErr result.read (λ _. result.sink.printed ≡ []) }
{
    let read = read_arguments(runtime, alloc);
    let mut shelf = DirShelf::new(runtime);
    let mut sink = OutSink::new(runtime);
    let code = match &read {
        Ok(read) => run(alloc, &read.words, &mut shelf, &mut sink).code(),
        Err(refusal) => refusal.code(),
    };
    EndedRun {
        read,
        code,
        shelf,
        sink,
    }
}
