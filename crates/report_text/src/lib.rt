//! The texts of the reports.
//!
//! Each call writes the lines of one report from plain values and promises that the bytes are a
//! stated function of them, in specs/: `analysis_text` with `structure_text`, `derivation_text`,
//! `judgement_text`, `ear_judgement_text`, `ears_report_text`, `pairing_text`,
//! `script_report_text`, `replayed_text`, `stuck_text`, `refused_move_text`, `grown_text`,
//! `bad_input_text`. `with_names` and `graph6_line` put further lines after a report. The lines
//! after the text of a decomposition, and the names after it, are comments (`IsCommented`). What
//! the values mean is said where they are computed: this crate knows no theory. Words of a line are
//! separated by one space, a list of numbers has one space before each, and each line ends with one
//! line feed.
//!
//! Depends on `graph_core`, on `graph_text` for names, on `contraction` and `tree_core` for leaves
//! and moves, and on `move_text` for the words of a move.
#![tactic(auto)]

mod analyses;
mod commenting;
mod comparisons;
mod derivations;
mod ear_judgements;
mod ear_reports;
mod faults;
mod graph6;
mod growths;
mod judgements;
pub mod laws;
mod names;
mod numbers;
mod scripts;
mod structures;
mod verdicts;
mod words;

pub use analyses::{AnalysisLines, analysis};
pub use comparisons::{MapLine, MapLines, block_names, pairing};
pub use derivations::{derivation, derivation_at};
pub use ear_judgements::{EarLine, ear_judgement};
pub use ear_reports::ears_report;
pub use faults::bad_input;
pub use graph6::graph6_line;
pub use growths::grown;
pub use judgements::{Shown, TreeLine, judgement};
pub use move_text::tree_core::{Tally, count_leaves};
pub use names::with_names;
pub use scripts::{replay_refused, replay_stuck, replayed, script_report};
pub use structures::Structure;
pub use verdicts::verdict_line;
pub use words::{kind_word, leaf_kind_word, reason_word, yes_or_no};
