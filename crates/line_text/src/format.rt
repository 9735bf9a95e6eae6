//! A format as three rules: for the header, for each further line, and for the end.
ghost use Rattle.std.specs.Prelude.{◌≡◌};

use std::alloc::{AllocError, AllocFailed};

/// Why a rule of a format stops: an error of the text, by its kind, or lack of memory. `?` turns an
/// allocator's error into `Memory`.
#[derive(Clone, Copy, Debug, PartialEq, Eq, Drop)]
pub enum RuleFault<K> {
    /// The line, or the end of the text, breaks the format in this way.
    Fault(K),
    /// Memory ran out, whatever the text says.
    Memory,
}

impl<K> From<AllocError> for RuleFault<K> {
    ghost use Rattle.line_text.specs.declared.format.RuleFault.TheVariants.{Memory};

    ghost from_gives = { λ _ refusal. refusal ≡ Memory };

    fn from(_error: AllocError) -> RuleFault<K> {
        RuleFault::Memory
    }
}

impl<K, T: Drop> From<AllocFailed<T>> for RuleFault<K> {
    ghost use Rattle.line_text.specs.declared.format.RuleFault.TheVariants.{Memory};

    ghost from_gives = { λ _ refusal. refusal ≡ Memory };

    fn from(_error: AllocFailed<T>) -> RuleFault<K> {
        RuleFault::Memory
    }
}

/// Why a text is not read.
#[derive(Clone, Copy, Debug, PartialEq, Eq, Drop)]
pub enum LineFault<K> {
    /// The first error of the text and the number of its line, counted from 1. If the text ends too
    /// early, that is one past its last line.
    At { line: u32, kind: K },
    /// Memory ran out, whatever the text says.
    Memory,
}

/// A format of texts, line by line, with its parameters: a value of the type is one format.
///
/// The ghost member `rules` says what the format is, over plain values: a `State` for what has been
/// read so far, seen by `state`, and a `Meaning` for what a text stands for, seen by `meaning`.
/// Each method returns what its rule says, or that memory ran out. The tests within a line are made
/// in the order of the rule's table, each for all words of the line before the next.
pub trait LineFormat {
    ghost use Rattle.line_text.specs.Format.{Rules};
    ghost use Rattle.line_text.specs.Reading.{Gives};
    ghost use Rattle.line_text.specs.Words.{texts_of};

    /// What has been read so far, from the header on.
    type Body: Drop;
    /// What a text stands for.
    type Value;
    /// The kinds of the errors of a text.
    type Kind;

    // What has been read so far, and what a text stands for, as plain values.
    ghost State: { Type 0 };

    ghost Meaning: { Type 0 };

    ghost state: { Self.Body → State };

    ghost meaning: { Self.Value → Meaning };

    // What the format is.
    ghost rules: { Self → Rules State Meaning Self.Kind };

    /// What has been read once the header is: the first line that is not skipped, by its words.
    fn header(&self, words: &[&[u8]]) -> Result<Self::Body, RuleFault<Self::Kind>>
        ensures { Gives state result ((rules self.now).header (texts_of words.now)) };

    /// What has been read after a further line, from the words of the line and what was read before
    /// it.
    fn line(&self, body: Self::Body, words: &[&[u8]]) -> Result<Self::Body, RuleFault<Self::Kind>>
        ensures { Gives state result ((rules self.now).line (state body) (texts_of words.now)) };

    /// What the text stands for if it ends here.
    fn close(&self, body: Self::Body) -> Result<Self::Value, RuleFault<Self::Kind>>
        ensures { Gives meaning result ((rules self.now).close (state body)) };

    /// The kind of the error of a text without a header.
    fn headless(&self) -> Self::Kind
        ensures { result ≡ (rules self.now).headless };
}
