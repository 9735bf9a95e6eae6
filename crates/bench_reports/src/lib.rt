//! What each task gives: its status and its whole report, made in memory.
//!
//! `judge` has one branch for each task, and a module for each kind: the structure of a graph,
//! decompositions, a tree that is checked, lists of ears, moves that are replayed, two trees that
//! are compared, and a graph that grows. Its promise is `ResultOf` of `bench_outcomes`: the
//! status and the bytes are those that the task stands for. Neither a shelf nor a sink is asked. A
//! refusal names the place of its fault (`IsPlaced`); `node_places` finds a node by its number.
//!
//! Stands on the engine for the answers, on `report_text` and the writers of texts for the bytes,
//! and on `bench_tasks` and `bench_outcomes` for the tasks and what they stand for.
#![tactic(auto)]

mod checking;
mod comparing;
mod decomposing;
mod ear_checking;
mod growing;
mod judging;
mod naming;
mod node_places;
mod replaying;
mod structures;
mod stuck_moves;
mod uncovered;

// Passed on to the crates above.
pub use bench_outcomes;
pub use bench_outcomes::bench_tasks;
pub use judging::judge;
