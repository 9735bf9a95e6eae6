//! Reading a file from a source.
ghost use Rattle.std.specs.Prelude.{◌≡◌, ◌<◌, ◌≤◌, ℕ, IfOk, IfErr, IsErrOf, length};
ghost use Rattle.outside.specs.Common.{Rose};
ghost use Rattle.mcg6_reader.specs.Common.{IsKnownLeft};
ghost use Rattle.mcg6_encoder.specs.Reads.{IsReadPast, IsReadSome, IsReadTorn, IsReadWhole, LeavesMore, most_piece};

use outside::{MOST_BYTES, Source};
use std::alloc::Global;

/// The most bytes of a piece.
const PIECE: usize = 65536;

/// Why a file was not read completely.
#[derive(Clone, Copy)]
pub enum Unread {
    /// It has more than `MOST_BYTES` bytes.
    TooLong,
    /// A read failed.
    Failed,
    /// Memory ran out.
    Memory,
}

// Reads what is left of the source: all of it, unless it has too many bytes; then at most a piece
// more than a file may have.
pub fn read_file<S: Source>(alloc: Global, source: &mut S) -> Result<Vec<u8>, Unread>
    ensures whole { IfOk result
        (λ bytes. IsReadWhole S.reads bytes.items source.old source.new) }
    ensures left { IfOk result (λ bytes. IsKnownLeft (S.left source.old) bytes.items) }
    ensures past { IsErrOf result Unread.TooLong → IsReadPast S.reads source.old source.new }
    ensures more { IsErrOf result Unread.TooLong → LeavesMore (S.left source.old) }
    ensures torn { IsErrOf result Unread.Failed → IsReadTorn S.reads source.old source.new }
    ensures unread { IsErrOf result Unread.Memory → IsReadSome S.reads source.old source.new }
    ensures failed { IsErrOf result Unread.Failed →
        Rose (S.faults source.old) (S.faults source.new) }
{
    let mut room = match vec![in alloc; 0u8; PIECE] {
        Ok(room) => room,
        Err(_) => return Err(Unread::Memory),
    };
    let piece = room.as_mut_slice();
    let mut held = Vec::new(alloc);
    'reading: while held.len() <= MOST_BYTES {
        match source.read(piece) {
            Err(_) => return Err(Unread::Failed),
            Ok(0) => return Ok(held),
            Ok(count) => match held.extend_from_slice(&piece[..count]) {
                Ok(()) => {}
                Err(_) => return Err(Unread::Memory),
            },
        }
    }
    Err(Unread::TooLong)
}
