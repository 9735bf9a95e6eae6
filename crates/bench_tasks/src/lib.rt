//! What the words ask for, and what the files that they name hold.
//!
//! The words are a `Command`, a row of the table of words (`command_of`); what its files hold
//! makes it a `Task` (`gather`), or it stops at the first file that cannot be read or is bad
//! (`LoadStop`). Both are told apart by the files that are read, and commands that read the same
//! files by their verbs alone. Each kind of file has a `FileFormat`, and one function loads a
//! file of any. Main definitions, in specs/: `command_of` of `Commands`, `files_of` of `Files`,
//! `Task` of `Tasks`, and `loaded` of `Loading`, what the files of a command hold. Main promises:
//! the clauses of `gather` tie the task or the stop to `loaded`, name the files that were read,
//! in order, and say that the task is one of the command.
//!
//! Stands on the texts, on the values that they are read as, and on `outside` for the shelf.
#![tactic(auto)]

mod command;
mod file_sets;
mod files;
mod formats;
mod gathering;
mod loading;
mod stop;
mod tasks;
mod verbs;
mod words;

// Passed on to the crates above.
pub use command::{Command, GrowNumbers};
pub use decomposer;
pub use files::CommandFile;
pub use gathering::gather;
pub use stop::{FaultyFile, LoadStop, UnreadFile};
pub use tasks::{GivenEars, GivenMoves, GivenPicks, GivenTree, GivenTrees, SimpleGraph, Task};
pub use verbs::{
    EarsVerb, GraphVerb, MovesVerb, NumbersVerb, PicksVerb, SimpleGraphVerb, TreeVerb, TreesVerb,
};
pub use words::command_of;
