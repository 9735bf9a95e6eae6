//! What is known of the faults of a run.

use mcg6_encoder::outside::FailureReason;

/// What is known of the faults of a run.
#[derive(Clone, Copy)]
pub struct Clues {
    /// Why the file, or standard input, cannot be read, where that is known.
    pub reason: Option<FailureReason>,
    /// Nobody reads the output any more.
    pub is_abandoned: bool,
}
