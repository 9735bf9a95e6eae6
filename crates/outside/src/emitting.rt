//! Writing a whole output.
ghost use Rattle.std.specs.Prelude.{◌≡◌, ◌≤◌, ◌<◌, ℕ, length, take, OnOk, OnErr};
ghost use Rattle.outside.specs.Common.{Rose, appended, IsWritten, IsCutOff};

use crate::{Sink, SinkFailed};

/// Writes all the bytes, by repeated writes of the rest, or a proper prefix of them if a write
/// fails or takes nothing. That write is the last. Takes no memory.
pub fn emit<K: Sink>(sink: &mut K, bytes: &[u8]) -> Result<(), SinkFailed>
    ensures ok { OnOk result (K.written sink.new ≡ appended (K.written sink.old) bytes.now) }
    ensures err { OnErr result ((count : ℕ) × (count < length bytes.now)
        × (K.written sink.new ≡ appended (K.written sink.old) (take count bytes.now))
        × IsCutOff K.writes bytes.now count sink.old sink.new) }
    ensures whole { OnOk result (IsWritten K.writes bytes.now sink.old sink.new) }
    ensures later { K.faults sink.old ≤ K.faults sink.new }
    ensures failed { OnErr result (Rose (K.faults sink.old) (K.faults sink.new)) }
{
    let mut done = 0;
    'writing: while done < bytes.len() {
        match sink.write(&bytes[done..]) {
            Ok(count) if count > 0 => done += count,
            Ok(_) | Err(_) => return Err(SinkFailed),
        }
    }
    Ok(())
}
