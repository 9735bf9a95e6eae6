//! How a run of the front ended, and what is to be said of it.
ghost use Rattle.std.specs.Prelude.{◌≡◌};
ghost use Rattle.front_words.specs.Saying.{IsSaid};
ghost use Rattle.mcg6_front_top.specs.Words.{message_words};

use crate::clues::Clues;
use crate::speaking::{say_ending, say_lost};
use mcg6_encoder::outside::Sink;
use mcg6_top::{CommandLine, ListRunEnding, ListStatus};

/// What is to be said of a run, for a person.
#[derive(Drop)]
pub enum ListMessage<'a> {
    /// Nothing.
    Nothing,
    /// The answer to words that are answered at once could not be written whole.
    Lost,
    /// What this end means; with none the words matched no row.
    Ending { end: Option<ListRunEnding<'a>> },
}

/// How a run ended, with what is to be said of it: nothing was said yet, also not of the bad lines
/// that were skipped.
#[derive(Drop)]
pub struct ListFrontEnding<'a, 'b> {
    /// The status.
    pub status: ListStatus,
    /// What is to be said.
    pub message: ListMessage<'a>,
    /// The words of the command.
    pub line: &'b CommandLine<'a>,
    /// What is known of the faults of the run.
    pub clues: Clues,
}

impl<'a, 'b> ListFrontEnding<'a, 'b> {
    /// Says what is to be said, up to the first fault of the sink. Takes no memory.
    pub fn say<E: Sink>(&self, errors: &mut E)
        ensures nothing { self.now.message ≡ ListMessage.Nothing → errors.new ≡ errors.old }
        ensures says { IsSaid E.written E.writes E.faults
            (message_words self.now.line.now self.now.message self.now.clues)
            errors.old errors.new }
    {
        match &self.message {
            ListMessage::Nothing => {}
            ListMessage::Lost => {
                let _ = say_lost(errors);
            }
            ListMessage::Ending { end } => {
                let _ = say_ending(errors, self.line, end, self.clues);
            }
        }
    }
}
