//! Reads and writes that are retried if a signal interrupts them.
ghost use Rattle.std.specs.Prelude.{◌≤◌, IfOk, length};
ghost use Rattle.std.specs.Io.KnownBytes.{ReadConsumes, WriteAppends};

use std::io;
use std::io::{ErrorKind, Read, Write};

// How often a call is retried.
const RETRIES: u32 = 1024;

/// Reads some bytes into the piece. A read that a signal interrupts has taken none and is retried.
pub(crate) fn read_some<F: Read>(file: &mut F, piece: &mut [u8]) -> io::Result<usize>
    ensures within { IfOk result (λ count. count ≤ length piece.new) }
    // A reader that makes its bytes known gives the next of them, and none only at its end.
    ensures tied { ReadConsumes (F.remaining file.old) (F.remaining file.new) result piece.new }
{
    'trying: for _ in 0..RETRIES {
        match file.read(piece) {
            Err(error) if error.kind() == ErrorKind::Interrupted => {}
            answer => return answer,
        }
    }
    file.read(piece)
}

/// Writes some of the bytes. A write that a signal interrupts has written none and is retried.
pub(crate) fn write_some<W: Write>(out: &mut W, bytes: &[u8]) -> io::Result<usize>
    ensures within { IfOk result (λ count. count ≤ length bytes.now) }
    // Of a writer that makes its contents known, these grow by the bytes that it took.
    ensures tied { WriteAppends (W.contents out.old) (W.contents out.new) result bytes.now }
{
    'trying: for _ in 0..RETRIES {
        match out.write(bytes) {
            Err(error) if error.kind() == ErrorKind::Interrupted => {}
            answer => return answer,
        }
    }
    out.write(bytes)
}
