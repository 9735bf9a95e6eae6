//! The program `mcg`: the words after its name are a command of `bench_top::run`, whose report
//! goes to standard output and whose status becomes the exit status.
//!
//! Files are read by `DirShelf` and standard output is written by `OutSink`; the program never
//! writes to standard error. If the words cannot be read, nothing is written: the exit status is 6
//! for lack of memory, and 7, which no status has, for a word that is not UTF-8.
#![tactic(auto)]

use bench_top::program;
use std::process::ExitCode;

fn main(rt: HostRuntime) -> ExitCode {
    ExitCode::from(program(&rt, rt.alloc()).code)
}
