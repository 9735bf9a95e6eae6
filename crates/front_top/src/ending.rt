//! How a run of the front ended, and what is to be said of it.
ghost use Rattle.std.specs.Prelude.{◌≡◌, map, string_bytes};
ghost use Rattle.front_words.specs.Saying.{IsSaid};
ghost use Rattle.front_top.specs.Words.{message_words};

use crate::speaking::{say_ending, say_lost};
use bench_top::outside::Sink;
use bench_top::{RunEnding, Status};

/// What is to be said of a run, for a person.
#[derive(Debug, Drop)]
pub enum Message<'a> {
    /// Nothing.
    Nothing,
    /// The answer to words that are answered at once could not be written whole.
    Lost,
    /// What this ending means.
    Ending { ending: RunEnding<'a> },
}

/// How a run ended, with what is to be said of it: nothing was said yet.
#[derive(Drop)]
pub struct FrontEnding<'a> {
    /// The status.
    pub status: Status,
    /// What is to be said.
    pub message: Message<'a>,
    /// The words of the command.
    pub words: &'a [String],
    /// Nobody reads the output any more.
    pub is_abandoned: bool,
}

impl<'a> FrontEnding<'a> {
    /// Says what is to be said, up to the first fault of the sink. Takes no memory.
    pub fn say<E: Sink>(&self, errors: &mut E)
        ensures nothing { self.now.message ≡ Message.Nothing → errors.new ≡ errors.old }
        ensures says { IsSaid E.written E.writes E.faults
            (message_words (map string_bytes self.now.words.now) self.now.message
            self.now.is_abandoned) errors.old errors.new }
    {
        match &self.message {
            Message::Nothing => {}
            Message::Lost => {
                let _ = say_lost(errors);
            }
            Message::Ending { ending } => {
                let _ = say_ending(errors, self.words, ending, self.is_abandoned);
            }
        }
    }
}
