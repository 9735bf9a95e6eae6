//! A report before it is written.
ghost use Rattle.std.specs.Prelude.{◌≡◌, is_some};
ghost use Rattle.bench_outcomes.specs.RefusalLines.{is_negative, told_by};

use crate::status::Status;
use refusals::Refusal;

/// The status of a run, the bytes of its report, and why the input is refused, if it is. A refusal
/// is there exactly if the status is Negative, and the bytes are the line that stands for it.
#[derive(Drop)]
pub struct Report {
    pub status: Status,
    pub bytes: Vec<u8>,
    pub refusal: Option<Refusal>,
    ghost refused: { is_some refusal ≡ is_negative status },
    ghost told: { bytes.items ≡ told_by refusal bytes.items },
}
