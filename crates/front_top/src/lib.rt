//! The top call of the program `mcg_front`: `run_front` does what the words of the command line ask
//! for, as `run` of `bench_top`, and returns what is to be said of it, for a person: what a status
//! above 1 means in the case at hand. `say` of `FrontEnding` says it afterwards.
//!
//! `--help`, `-h`, `help` and `--version`, alone, and what asks for the page of a command, `--help`
//! after it or one of the first three before it, are answered on standard output, and nothing is
//! read. For all other words standard output and status are those of `run`. Main definitions, in
//! specs/: `answer_of` of `front_words` (what such words are answered) and `run_words` of `Words`,
//! what is said of each ending, a function of the command line, the ending, and whether nobody
//! reads the output any more: the stop in the ending has what is known of the file. Main promises:
//! the clauses of `run_front` and of `say`.
//!
//! Depends on `bench_top` for the run, on `front_words` for the words, and on `outside` for the
//! shelf and the sinks.
#![tactic(auto)]

mod ending;
mod fronting;
mod installed;
mod laws;
mod speaking;

pub use ending::{FrontEnding, Message};
pub use fronting::run_front;
pub use installed::{EndedFront, program};
pub use laws::{said_law, table_law};
