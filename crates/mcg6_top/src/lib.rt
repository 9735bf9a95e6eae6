//! The top call of the program `mcg6`: `run` does what the words ask for, for each graph of a list,
//! or for a graph file.
//!
//! The words are read once, into a `CommandLine`: they ask for something of each graph of a list
//! (`ListCommand`), which `tell_all` of `mcg6_reader` reads line by line, or for the graph6 text of
//! a graph file, which `encode` of `mcg6_encoder` reads. With the word `skip` a bad line has no
//! output and is reported, and the list goes on (`AtBadLine`, `TellsOrSkips`).
//!
//! Main definitions, in specs/: `command_of` (what the words ask for), `TellsLineOf` and
//! `IsBadLine` (what answers one line), `lacks_of` (what a list lacks), and `ListOutcome` and
//! `EncodeOutcome`, which tie the bytes that are read, the status and the output together.
//! `run_to_ending` also returns what is found of the first bad line; one list has one status and
//! one output, unless memory runs out or reading or writing fails (`one_list_output_law`).
//! `program` is the whole program: `EndsOn` says what it was given, what it printed, and its exit
//! status. Depends on `mcg6_lines`, `mcg6_reader`, `mcg6_encoder`, `line_text` for numbers,
//! `arguments`, and `outside` for the source and the sink.
#![tactic(auto)]

mod command;
mod installed;
mod laws;
mod line;
mod lister;
mod plan;
mod running;
mod status;

pub use command::{AtBadLine, ListCommand, Mcg6Command};
pub use installed::{EndedListRun, program};
pub use laws::{one_line_law, one_list_output_law, split_law};
pub use line::CommandLine;
pub use running::{run, run_to_ending};
pub use status::{ListEnding, ListRunEnding, ListStatus, status_of};
