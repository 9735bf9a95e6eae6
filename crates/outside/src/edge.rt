//! The runtime, each time held together with the trace of what it gave or took.
//!
//! No other module of this crate reaches a runtime: it is a private field here, and the functions
//! that take one from outside either are in this file or have no bound that would let them use it.
//! So whatever is printed or read is noted. What a clause cannot say, since the kit's calls say
//! nothing of it, is that `fs::open` opens the file of the name that it is given.
ghost use Rattle.std.specs.Prelude.{◌≡◌, ◌≤◌, ◌<◌, ◌-◌, ◌+◌, ◌^◌, ◌++◌, ◌∷◌, [], ℕ, IfOk, IfSome, IsErrOf, OnErr, OnOk, length, take};
ghost use Rattle.std.specs.Option.{option_map};

use crate::reasons::{reason_of, reason_unopened};
use crate::retries::read_some;
use crate::{FailureReason, Given, Printed, ShelfFault, SinkFailed};
use std::io::Read;
use std::marker::Model;
use std::rt::Files;
use std::{fs, io};

// How many bytes one turn of a read asks for.
const PIECE: usize = 4096;

// A stream of a runtime, and the bytes that it took. A contract sees these bytes.
#[derive(Drop)]
pub(crate) struct TracedStream<'a, P> {
    runtime: &'a P,
    printed: Printed,
}

impl<'a, P> Model for TracedStream<'a, P> {
    ghost use Rattle.std.specs.Prelude.{List, ℕ};

    ghost Value = { List ℕ };

    ghost view = { λ stream. stream.printed.bytes };
}

impl<'a, P> TracedStream<'a, P> {
    // The stream of this runtime, which took nothing yet.
    pub(crate) fn new(runtime: &'a P) -> TracedStream<'a, P>
        ensures { result ≡ [] }
    {
        TracedStream {
            runtime,
            printed: Printed::new(),
        }
    }
}

impl<P: Print> TracedStream<'_, P> {
    // Writes some of the bytes.
    pub(crate) fn write(&mut self, bytes: &[u8]) -> io::Result<usize>
        ensures within { IfOk result (λ count. count ≤ length bytes.now) }
        ensures noted { IfOk result (λ count. self.new ≡ self.old ++ take count bytes.now) }
        ensures lost { OnErr result (self.new ≡ self.old) }
    {
        self.printed.write(&mut io::writer(self.runtime), bytes)
    }

    // Writes all of the bytes, by repeated writes of the rest. A write that fails or takes nothing
    // is the last.
    pub(crate) fn write_whole(&mut self, bytes: &[u8]) -> Result<(), SinkFailed>
        ensures noted { OnOk result (self.new ≡ self.old ++ bytes.now) }
        ensures begun { (count : ℕ) × (self.new ≡ self.old ++ take count bytes.now) }
    {
        self.printed
            .write_whole(&mut io::writer(self.runtime), bytes)
    }
}

// Where the bytes of a reader come from.
#[derive(Drop)]
enum Opened<F: Drop, I: Drop> {
    File(F),
    Input(I),
    Nothing(FailureReason),
}

/// A file that a runtime opened by its name, or its standard input, and the bytes that it gave.
///
/// A contract sees it as a `ReaderState`: the name that was opened, none for standard input, and
/// these bytes. The name is a trace as well: it takes no memory.
#[derive(Drop)]
pub struct TracedReader<R: Files + Input> {
    opened: Opened<R::File, R::Reader>,
    named: Given,
    read: Printed,
}

impl<R: Files + Input> Model for TracedReader<R> {
    ghost use Rattle.outside.specs.InSource.{ReaderState, name_in};

    ghost Value = { ReaderState };

    ghost view = { λ reader. record {
      name = name_in reader.named.files;
      read = reader.read.bytes;
    } };
}

impl<R: Files + Input> TracedReader<R> {
    /// Opens the file of that name, or with none the standard input. If the file is not opened, each
    /// read fails. Takes no memory.
    pub fn open(runtime: &R, name: Option<&str>) -> TracedReader<R>
        ensures { result ≡ record { name = option_map (λ name. name.now) name.entry; read = [] } }
    {
        let mut named = Given::new();
        let opened = match name {
            None => Opened::Input(runtime.reader()),
            Some(name) => {
                named.note(name.as_bytes(), &[]);
                match fs::open(runtime, name) {
                    Ok(file) => Opened::File(file),
                    Err(error) => Opened::Nothing(reason_unopened(runtime, name, &error)),
                }
            }
        };
        TracedReader {
            opened,
            named,
            read: Printed::new(),
        }
    }

    // Reads some bytes into the piece, or says why that failed.
    pub(crate) fn read(&mut self, piece: &mut [u8]) -> Result<usize, FailureReason>
        ensures within { IfOk result (λ count. count ≤ length piece.new) }
        ensures name { self.new.name ≡ self.old.name }
        ensures noted { IfOk result
            (λ count. self.new.read ≡ self.old.read ++ take count piece.new) }
        ensures lost { OnErr result (self.new.read ≡ self.old.read) }
    {
        let read = match &mut self.opened {
            Opened::File(file) => self.read.read(file, piece),
            Opened::Input(input) => self.read.read(input, piece),
            Opened::Nothing(reason) => return Err(*reason),
        };
        read.map_err(|error| reason_of(&error))
    }
}

// The files of a runtime, and those that it gave.
#[derive(Drop)]
pub(crate) struct TracedFiles<'a, R> {
    runtime: &'a R,
    given: Given,
}

impl<'a, R> Model for TracedFiles<'a, R> {
    ghost use Rattle.std.specs.Prelude.{List};
    ghost use Rattle.outside.specs.Shelf.{NamedFile};

    ghost Value = { List NamedFile };

    ghost view = { λ files. files.given.files };
}

impl<'a, R> TracedFiles<'a, R> {
    // The files of this runtime, of which none was given yet.
    pub(crate) fn new(runtime: &'a R) -> TracedFiles<'a, R>
        ensures { result ≡ [] }
    {
        TracedFiles {
            runtime,
            given: Given::new(),
        }
    }
}

impl<R: Files> TracedFiles<'_, R> {
    // Puts the bytes of the file of that name into the list, which is empty: all of them, if they
    // are at most `limit`, otherwise `limit + 1`. A file that was read whole is noted. If a call
    // fails, the reason is kept.
    pub(crate) fn read(
        &mut self,
        name: &str,
        bytes: &mut Vec<u8>,
        limit: usize,
        reason: &mut Option<FailureReason>,
    ) -> Result<(), ShelfFault>
        requires empty { bytes.now.items ≡ [] }
        requires bounded { limit < 2 ^ 64 - 1 }
        ensures within { OnOk result (length bytes.new.items ≤ limit) }
        ensures too_long { IsErrOf result ShelfFault.TooLong → length bytes.new.items ≡ limit + 1 }
        ensures ends { length bytes.new.items ≤ limit + 1 }
        ensures given { OnOk result (self.new ≡ self.old ++ (name.now, bytes.new.items) ∷ []) }
        ensures unread { OnErr result (self.new ≡ self.old) }
    {
        let mut file = match fs::open(self.runtime, name) {
            Ok(file) => file,
            Err(error) => {
                *reason = Some(reason_unopened(self.runtime, name, &error));
                return Err(ShelfFault::Failed);
            }
        };
        fill(&mut file, bytes, limit, reason)?;
        self.given.note(name.as_bytes(), bytes);
        Ok(())
    }
}

// Appends the bytes of the file: all of them, if they are at most `limit`, otherwise `limit + 1`.
// Each turn takes at least one byte or ends the read. If a call fails, the reason is kept.
fn fill<F: Read>(
    file: &mut F,
    bytes: &mut Vec<u8>,
    limit: usize,
    reason: &mut Option<FailureReason>,
) -> Result<(), ShelfFault>
    requires begun { length bytes.now.items ≤ limit }
    requires bounded { limit < 2 ^ 64 - 1 }
    ensures within { OnOk result (length bytes.new.items ≤ limit) }
    ensures too_long { IsErrOf result ShelfFault.TooLong → length bytes.new.items ≡ limit + 1 }
    ensures ends { length bytes.new.items ≤ limit + 1 }
    // Of every reader that makes its bytes known, these are all of them.
    ensures whole { OnOk result
        (IfSome (F.remaining file.old) (λ all. bytes.new.items ≡ bytes.old.items ++ all)) }
{
    let mut piece = [0u8; PIECE];
    'reading: while bytes.len() <= limit {
        let room = PIECE.min(limit + 1 - bytes.len());
        match read_some(file, &mut piece[..room]) {
            Err(error) => {
                *reason = Some(reason_of(&error));
                return Err(ShelfFault::Failed);
            }
            Ok(0) => return Ok(()),
            Ok(count) => bytes
                .extend_from_slice(&piece[..count])
                .map_err(|_| ShelfFault::Memory)?,
        }
    }
    Err(ShelfFault::TooLong)
}
