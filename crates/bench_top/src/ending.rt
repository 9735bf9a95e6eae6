//! How a run ended.

use bench_reports::bench_outcomes::Status;
use bench_reports::bench_tasks::LoadStop;
use refusals::Refusal;

/// How a run ended, for who has to say it in words.
#[derive(Debug, Drop)]
pub struct RunEnding<'a> {
    /// The status.
    pub status: Status,
    /// Why the files were not loaded, with what is known of the file that stopped the run. `None`
    /// if all were, and if the words match no command.
    pub stop: Option<LoadStop<'a>>,
    /// Why the input is refused. `None` if it is not.
    pub refusal: Option<Refusal>,
}
