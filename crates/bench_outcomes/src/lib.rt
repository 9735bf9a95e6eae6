//! What a run means: its statuses, and which report each task gives.
//!
//! Only definitions, which the makers of reports (`bench_reports`), the laws and the top call
//! (`bench_top`) cite. In specs/: `ResultOf` of `Outcome` has one case for each task, whose records
//! say what is claimed and how it is written: `Facts` of a graph, `Checks` of a tree, `EarChecks`
//! of an ear list, `Replays` of moves, `Comparisons` of two trees, `Growths` of a generated graph,
//! `Uncovered` of a graph that is not matching covered. `FaultPlaces` says where the fault of a
//! refused input is (`IsPlaced`). `Outcome` combines the arguments, the files and the result.
//! `Conducts` says once how each task behaves, and `Succeeds` of `Success` when it succeeds.
//!
//! Depends on `bench_tasks` for the arguments and the files, on `report_text` for what is written,
//! and on the engine's crates for what is claimed.
#![tactic(auto)]

mod report;
mod status;

// Passed on to the crates above.
pub use bench_tasks;
pub use bench_tasks::decomposer;
pub use leaf_kinds;
pub use report::Report;
pub use report_text;
pub use status::Status;
pub use tree_check;
pub use tree_check::{barrier_kit, separation_kit};
