//! The workbench: `run`, the one call of the program, does what the words of the command line ask
//! for.
//!
//! The words are a `Command`, a row of the table of words; what its files hold makes it a `Task`; a
//! task has a status and a report, which is written. Main definitions, in specs/: `command_of`
//! (what the words ask for), `loaded` (what the files of a command hold, up to the first that is
//! missing or bad), `ResultOf` (what a task gives) and `Outcome`, which puts them together. The
//! clauses of `run` say for each status its cause, which files are read, and tie what was written
//! to `Outcome`; `run_ending` also returns which file stopped the run; `run_in_memory` says the
//! same over files in memory, with completeness. `laws` says when an outcome is done (`Succeeds`),
//! and that words and files decide the status and, if it is not free, the output; `written_back`,
//! that mcg reads what it writes.
//!
//! Depends on `bench_tasks` for the words and the files, on `bench_outcomes` for what they stand
//! for, on `bench_reports` for the reports, and on `outside` for the shelf and the sink.
#![tactic(auto)]

mod ending;
mod in_memory;
mod installed;
pub mod laws;
mod performing;
mod running;
pub mod written_back;

// Passed on to the crates above.
pub use bench_reports::bench_outcomes::Status;
pub use bench_reports::bench_tasks;
pub use ending::RunEnding;
pub use in_memory::run_in_memory;
pub use installed::{EndedRun, program};
pub use outside;
pub use running::{run, run_ending};
