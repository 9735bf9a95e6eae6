//! The bytes that passed a stream, which only clauses read.
ghost use Rattle.std.specs.Prelude.{◌≡◌, ◌≤◌, ℕ, List, [], ◌++◌, IfOk, OnOk, OnErr, length, take};
ghost use Rattle.std.specs.Borrow.{ftrue};
ghost use Rattle.std.specs.Io.KnownBytes.{Appends, ReadConsumes, WriteAppends};

use crate::SinkFailed;
use crate::retries::{read_some, write_some};
use std::io;
use std::io::{Read, Write};
use std::marker::{Model, PhantomData};

/// The bytes that a stream took, or gave, in order. It takes no memory, and noting them does nothing
/// at run time: a clause reads `bytes`. Bytes are noted in `write` and `read` alone, beside the call
/// that takes or gives them.
#[derive(Drop)]
pub struct Printed {
    marker: PhantomData<u8>,
    pub ghost bytes: { List ℕ },
}

impl Model for Printed {
    ghost also_owns = { λ _. ftrue };
}

impl Printed {
    // Nothing was taken or given yet.
    pub(crate) fn new() -> Printed
        ensures { result.bytes ≡ [] }
    {
        Printed {
            marker: PhantomData,
        }
    }

    // Writes some of the bytes, and notes those that were taken: of every writer that makes its
    // contents known, these grow by what is noted.
    pub(crate) fn write<W: Write>(&mut self, out: &mut W, bytes: &[u8]) -> io::Result<usize>
        ensures within { IfOk result (λ count. count ≤ length bytes.now) }
        ensures noted { IfOk result
            (λ count. self.new.bytes ≡ self.old.bytes ++ take count bytes.now) }
        ensures lost { OnErr result (self.new.bytes ≡ self.old.bytes) }
        ensures tied { WriteAppends (W.contents out.old) (W.contents out.new) result bytes.now }
    {
        let count = write_some(out, bytes)?;
        self.note(&bytes[..count]);
        Ok(count)
    }

    // Writes all of the bytes, by repeated writes of the rest, and notes those that were taken. A
    // write that fails or takes nothing is the last.
    pub(crate) fn write_whole<W: Write>(
        &mut self,
        out: &mut W,
        bytes: &[u8],
    ) -> Result<(), SinkFailed>
        ensures noted { OnOk result (self.new.bytes ≡ self.old.bytes ++ bytes.now) }
        ensures tied { (count : ℕ) × (self.new.bytes ≡ self.old.bytes ++ take count bytes.now)
            × Appends (W.contents out.old) (W.contents out.new) (take count bytes.now) }
    {
        let mut done = 0;
        'writing: while done < bytes.len() {
            match self.write(out, &bytes[done..]) {
                Ok(count) if count > 0 => done += count,
                Ok(_) | Err(_) => return Err(SinkFailed),
            }
        }
        Ok(())
    }

    // Reads some bytes into the piece, and notes them: of every reader that makes its bytes known,
    // they are the next of these.
    pub(crate) fn read<F: Read>(&mut self, file: &mut F, piece: &mut [u8]) -> io::Result<usize>
        ensures within { IfOk result (λ count. count ≤ length piece.new) }
        ensures noted { IfOk result
            (λ count. self.new.bytes ≡ self.old.bytes ++ take count piece.new) }
        ensures lost { OnErr result (self.new.bytes ≡ self.old.bytes) }
        ensures tied { ReadConsumes (F.remaining file.old) (F.remaining file.new) result piece.new }
    {
        let count = read_some(file, piece)?;
        self.note(&piece[..count]);
        Ok(count)
    }

    // These bytes were taken, or given.
    fn note(&mut self, _bytes: &[u8])
        ensures { self.new.bytes ≡ self.old.bytes ++ _bytes.now }
    {}
}
