//! Ear lists of matching covered graphs.
//!
//! An `EarList` names the edge that is the first stage, and steps of one ear or two. It is an ear
//! list of a graph (`IsEarList` of `specs/EarLists`) if each step adds ears (`IsEar`, `IsEarPair`)
//! to a stage, each stage is matching covered, and the last one holds all edges.
//!
//! `check_ears` accepts exactly the ear lists of a graph, and of another list it names the first
//! refusal (`IsRefused` of `specs/Refusals`); `fault_place` says at which ear and edge a fault
//! shows first. `build_ears` makes an ear list of each matching covered graph, which adds two ears
//! only where no ear list continues with one (`TakesSingles`) and cannot be refined
//! (`IsUnrefinable`). `laws` says what the tests of a step mean, and when a single ear can follow;
//! by its `first_ear_refusal_law` an ear list has no refusal, and any other list at most one. Both
//! calls keep the partners of vertices on a stage (`Stage`), and by the two-ear theorem two ears
//! are enough. Depends on `match_core`, `allowed_edges`, `graph_facts`, `refusals` and `two_ears`.
//! Source: Lovász and Plummer, "Matching Theory", chapter 5.
#![tactic(auto)]

mod asking;
mod building;
mod built;
mod checking;
mod choosing;
mod ears;
mod fault_places;
mod faults;
mod judgement;
pub mod laws;
mod lone_ears;
mod lone_tables;
mod marked;
mod matched;
mod outer_table;
mod paths;
mod stage;
mod stages;
mod steps;
mod tracing;

pub use building::{build_ears, build_ears_of};
pub use checking::{check_ears, check_ears_of};
pub use ears::{Ear, EarList, Step, Steps};
pub use fault_places::fault_place;
pub use judgement::{EarJudgement, EarWhy};
