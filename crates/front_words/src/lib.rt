//! The words that `mcg` and `mcg6` say to a person on standard error, and what `--help` and
//! `--version` answer.
//!
//! A message is a list of pieces (`MessagePiece`): a text, a number, or bytes of the outside, shown
//! so that they can stand in a line. `say` writes one to a sink: whole, or if the sink fails a
//! beginning of it (`Says`). Each function `say_..` says its text, and takes no memory.
//!
//! In specs/, `Texts` lists all constant texts with their names; the other files put the messages
//! together from them, one file for each ending that needs words.
//!
//! Depends on `line_text` for the lines of a file, on `outside` for the sinks and for the reason of
//! a failed read, on `arguments` for why arguments are not read, and on `refusals` and `vset_core`
//! for what a refusal is.
#![tactic(auto)]

mod answers;
mod asked;
mod empty_lines;
mod endings;
mod faults;
mod laws;
mod lines;
mod list_messages;
mod messages;
mod node_places;
mod not_text;
mod notes;
mod openings;
mod pieces;
mod programs;
mod quiet;
mod reasons;
mod refused;
mod refused_ears;
mod refused_trees;
mod shores;
mod showing;
mod table;
mod texts;
mod uncovered;
mod unmatched;
mod unread;

// Passed on to the crates above.
pub use answers::{answer, answer_of};
pub use arguments;
pub use endings::{say_first_lines, say_lost_output, say_nothing_written};
pub use faults::{fault_words, note_words};
pub use laws::texts_law;
pub use lines::line_at;
pub use list_messages::{say_bad_line, say_unread_list};
pub use messages::{BadFile, say_bad_file};
pub use not_text::say_unread_arguments;
pub use pieces::{MessagePiece, Said, say};
pub use programs::Program;
pub use quiet::is_quiet;
pub use reasons::reason_words;
pub use refusals;
pub use refused::say_refusal;
pub use showing::say_bytes;
pub use unmatched::say_unmatched;
pub use unread::say_unread;
