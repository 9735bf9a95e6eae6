//! The statuses of a run.
ghost use Rattle.std.specs.Prelude.{◌≡◌, ◌≢◌};
ghost use Rattle.mcg6_top.specs.Common.{code_of, status_after, status_encoded, status_at};

use crate::command::ListCommand;
use mcg6_reader::{BadLine, InputEnding};

/// How a run ended. The codes are those of `mcg`, which has one more, 1.
#[derive(Clone, Copy, Debug, PartialEq, Eq)]
pub enum ListStatus {
    /// Each line was answered, or the graph file encoded.
    Done = 0,
    /// The words match no command; nothing was read or written.
    Usage = 2,
    /// The list could not be read, and the outputs of the whole lines before were written; or the
    /// graph file could not be.
    ReadFault = 3,
    /// A line is bad, or missing; the outputs of the lines before it were written, and nothing of
    /// it; or bad lines were skipped, and the outputs of all others were written. Of a bad graph
    /// file nothing was written.
    BadInput = 4,
    /// The output could not be written whole; a part of it may have been.
    WriteFault = 5,
    /// Memory ran out; the outputs of some first lines were written, and nothing of a graph file.
    Memory = 6,
}

impl ListStatus {
    /// The code with which the program ends. Takes no memory.
    pub fn code(self) -> u8
        ensures { result ≡ code_of self }
    {
        self as u8
    }
}

/// How a list ended.
#[derive(Debug, PartialEq, Eq, Drop)]
pub struct ListEnding {
    pub ending: InputEnding,
    /// A report on each bad line that was skipped, in order.
    pub skipped: Vec<BadLine>,
}

/// How a run ended, and what it was asked for.
#[derive(Drop)]
pub enum ListRunEnding<'a> {
    /// A list was answered.
    Answered {
        list: ListCommand<'a>,
        end: ListEnding,
    },
    /// The graph in the file of that name was encoded.
    Encoded {
        file: &'a str,
        ending: InputEnding,
    },
}

// The status of a list that was processed to its end, with these reports on bad lines.
fn status_of_whole(skipped: &[BadLine]) -> ListStatus
    ensures { result ≡ status_after InputEnding.Done skipped.now }
{
    match skipped.split_first() {
        None => ListStatus::Done,
        Some(_) => ListStatus::BadInput,
    }
}

// The status of a list with that end.
fn status_of_list(end: &ListEnding) -> ListStatus
    ensures { result ≡ status_after end.now.ending end.now.skipped.items }
{
    match &end.ending {
        InputEnding::Done => status_of_whole(&end.skipped),
        InputEnding::Bad { .. } => ListStatus::BadInput,
        InputEnding::ReadFault => ListStatus::ReadFault,
        InputEnding::WriteFault => ListStatus::WriteFault,
        InputEnding::Memory => ListStatus::Memory,
    }
}

// The status of a graph file whose encoding ended so.
fn status_of_file(ending: &InputEnding) -> ListStatus
    ensures { result ≡ status_encoded ending.now }
{
    match ending {
        InputEnding::Done => ListStatus::Done,
        InputEnding::Bad { found: _ } => ListStatus::BadInput,
        InputEnding::ReadFault => ListStatus::ReadFault,
        InputEnding::WriteFault => ListStatus::WriteFault,
        InputEnding::Memory => ListStatus::Memory,
    }
}

/// The status of a run with that end. Takes no memory.
pub fn status_of(end: &ListRunEnding<'_>) -> ListStatus
    ensures { result ≡ status_at end.now }
{
    match end {
        ListRunEnding::Answered { end, .. } => status_of_list(end),
        ListRunEnding::Encoded { ending, .. } => status_of_file(ending),
    }
}
