//! Why an input is refused, as a plain value: what the makers of reports hand up beside a report
//! whose status is 1, and what the words for a person are made of.
//!
//! Only types. `Refusal` has one case for each line that a refusal may have. `CoverFault`,
//! `NodeFault`, `EarFault` and `StuckFault` have one for each reason. `NodePlace` and `EarPlace`
//! say where in the input the fault is, and `FileKind` says what a file is read as.
//! `bench_outcomes` says which line reports a refusal, and `front_words` what it means in words.
//! Depends on `vset_core`.
#![tactic(auto)]

mod faults;
mod file_kind;
mod places;
mod refusal;

pub use faults::{CoverFault, EarFault, NodeFault, StuckFault};
pub use file_kind::FileKind;
pub use places::{EarOfTwo, EarPlace, NodePlace};
pub use refusal::Refusal;
