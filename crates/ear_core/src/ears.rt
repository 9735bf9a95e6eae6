//! Lists of ears.

use graph_core::Numbers;
use graph_core::listed::Listed;

/// An ear: the vertex where it begins, and its edges in order.
#[derive(Drop)]
pub struct Ear {
    /// The vertex where the ear begins.
    pub from: u32,
    /// The numbers of its edges, in order.
    pub edges: Numbers,
}

/// A step of an ear list: one ear, or two ears of the same stage.
#[derive(Drop)]
pub struct Step {
    /// The first ear.
    pub first: Ear,
    /// The second ear, if there are two.
    pub second: Option<Ear>,
}

/// A list of steps.
pub type Steps = Listed<Step>;

/// A list of ears: the edge of the first stage, and the steps. Contracts see it by its plain data
/// (`specs/View`).
#[derive(Drop)]
pub struct EarList {
    /// The edge that is the first stage.
    pub start: u32,
    /// The steps, in order.
    pub steps: Steps,
}
