//! A source that is a file of a runtime, or its standard input.
ghost use Rattle.std.specs.Prelude.{◌≡◌, ◌≤◌, ◌++◌, IfOk, OnOk, OnErr, length, take};
ghost use Rattle.std.specs.declared.option.Option.TheVariants.{None};
ghost use Rattle.outside.specs.Faults.{next_fault, MayCount};
ghost use Rattle.outside.specs.InSource.{HasTaken};

use crate::{FailureReason, Inlet, Source, SourceFailed, TracedReader};
use std::marker::Model;
use std::rt::Files;

/// A source over a file of the runtime, or over its standard input. It is the trusted edge: it notes
/// the bytes that the reader gave, beside the call, and makes none known before it is read.
///
/// A contract sees it as a `ReadState`: the name that was opened, these bytes, the count of errors,
/// which saturates at the largest u64, and why the last read that failed did.
#[derive(Drop)]
pub struct InSource<R: Files + Input> {
    reader: TracedReader<R>,
    faults: u64,
    reason: Option<FailureReason>,
}

impl<R: Files + Input> Model for InSource<R> {
    ghost use Rattle.outside.specs.InSource.{ReadState};

    ghost Value = { ReadState };

    ghost view = { λ source. record {
      name = source.reader.name;
      read = source.reader.read;
      faults = source.faults;
      reason = source.reason;
    } };
}

impl<R: Files + Input> InSource<R> {
    /// The source over this reader. Takes no memory.
    pub fn new(reader: TracedReader<R>) -> InSource<R>
        ensures { result ≡ record {
          name = reader.name;
          read = reader.read;
          faults = 0;
          reason = None;
        } }
    {
        InSource {
            reader,
            faults: 0,
            reason: None,
        }
    }
}

impl<R: Files + Input> Source for InSource<R> {
    ghost left = { λ source. None };

    ghost faults = { λ source. source.faults };

    ghost reads = { HasTaken };

    /// An error of the runtime is `SourceFailed`.
    fn read(&mut self, piece: &mut [u8]) -> Result<usize, SourceFailed>
        ensures within { IfOk result (λ count. count ≤ length piece.old) }
        ensures name { self.new.name ≡ self.old.name }
        ensures read { IfOk result
            (λ count. self.new.read ≡ self.old.read ++ take count piece.new) }
        ensures unread { OnErr result (self.new.read ≡ self.old.read) }
        ensures later { self.old.faults ≤ self.new.faults }
        ensures ok { OnOk result (self.new.faults ≡ self.old.faults) }
        ensures err { OnErr result (self.new.faults ≡ next_fault self.old.faults) }
    {
        match self.reader.read(piece) {
            Ok(count) => Ok(count),
            Err(reason) => {
                self.faults = self.faults.saturating_add(1);
                self.reason = Some(reason);
                Err(SourceFailed)
            }
        }
    }
}

impl<R: Files + Input> Inlet for InSource<R> {
    ghost reason = { λ source. source.reason };

    fn reason(&self) -> Option<FailureReason> {
        self.reason
    }
}
