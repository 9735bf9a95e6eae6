//! The program `mcg_front`, which users call as `mcg`: the words after its name are a command of
//! `front_top::run_front`, whose report goes to standard output. It returns what is to be said for
//! a person, which then goes to standard error, and the status, which becomes the exit status.
//!
//! Files are read by `DirShelf`, standard output is written by `OutSink` and standard error by
//! `LineSink`. `MCG_QUIET=1` in the environment turns the words off. If the words cannot be read,
//! nothing is written to standard output: the exit status is 6 for lack of memory, and 7, which no
//! status has, for a word that is not UTF-8, which is then shown.
#![tactic(auto)]

use front_top::program;
use std::process::ExitCode;

fn main(rt: HostRuntime) -> ExitCode {
    let stream = rt.stderr();
    ExitCode::from(program(&rt, &stream).code)
}
