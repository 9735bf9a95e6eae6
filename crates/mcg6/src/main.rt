//! The program `mcg6`: the words after its name are a command of `mcg6_top::run`, which answers a
//! list of graphs line by line to standard output, and whose status becomes the exit status.
//!
//! The list is standard input, or the file that the last word names. It is read by `InSource` and
//! standard output is written by `OutSink`; the program never writes to standard error. If the
//! words cannot be read, nothing is read or written: the exit status is 6 for lack of memory, and
//! 7, which no status has, for a word that is not UTF-8.
#![tactic(auto)]

use mcg6_top::program;
use std::process::ExitCode;

fn main(rt: HostRuntime) -> ExitCode {
    ExitCode::from(program(&rt, rt.alloc()).code)
}
