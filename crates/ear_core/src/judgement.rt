//! What a check of an ear list answers.

/// Why a step is refused: the first of these that applies, the tests of the step's first ear
/// coming before those of its second.
#[derive(Clone, Copy)]
pub enum EarWhy {
    /// An ear has no edges, or its edges do not follow one another from its first vertex, or a
    /// vertex comes twice other than the last equal to the first.
    NotPath,
    /// The number of its edges is even.
    EvenLength,
    /// An end is not on the stage before the step, or the ends are equal.
    BadEnds,
    /// An inner vertex is on that stage, or is an inner vertex of the step's first ear.
    InnerOnStage,
    /// An edge is on that stage, or in the step's first ear.
    EdgeUsed,
    /// The new stage is not matching covered: `edge` is the least of its edges in no perfect
    /// matching of the stage.
    StageNotCovered { edge: u32 },
    /// After the last step an edge is on no stage: `edge` is the least one.
    EndsEarly { edge: u32 },
}

/// The answer to an ear list.
#[derive(Clone, Copy)]
pub enum EarJudgement {
    /// It is an ear list of the graph.
    Accepted,
    /// It is not one: `step` is the first step that is refused, counted from 1, and the number of
    /// steps if all are taken and edges are left.
    Refused { step: u32, why: EarWhy },
}
