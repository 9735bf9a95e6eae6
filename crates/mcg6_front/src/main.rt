//! The program `mcg6_front`, which users call as `mcg6`: the words after its name are a command of
//! `mcg6_front_top::run_list_front`, which answers a list of graphs line by line on standard
//! output. It returns what is to be said for a person, which then goes to standard error, and the
//! status, which becomes the exit status.
//!
//! The list is standard input, or the file that the last word names. It is read by `InSource`,
//! standard output is written by `OutSink` and standard error by `LineSink`. `MCG_QUIET=1` in the
//! environment turns the words off. If the words cannot be read, nothing is read or written to
//! standard output: the exit status is 6 for lack of memory, and 7, which no status has, for a word
//! that is not UTF-8, which is then shown.
#![tactic(auto)]

use mcg6_front_top::program;
use std::process::ExitCode;

fn main(rt: HostRuntime) -> ExitCode {
    let stream = rt.stderr();
    ExitCode::from(program(&rt, &stream).code)
}
