//! A sink for messages, which are written line by line.
ghost use Rattle.std.specs.Prelude.{◌≡◌, ◌≤◌, ◌<◌, ◌++◌, [], Contains, IfOk, OnErr, length, take};
ghost use Rattle.std.specs.declared.option.Option.TheVariants.{None};
ghost use Rattle.outside.specs.Faults.{Rose, MayCount};
ghost use Rattle.outside.specs.LineSink.{HasBegun, HasSaid};

use crate::edge::TracedStream;
use crate::{Sink, SinkFailed};
use std::marker::Model;

// How many bytes of a line are held before they are written.
const ROOM: usize = 512;

/// A stream of a runtime, such as its standard error, to which lines are written whole. It is the
/// trusted edge: it notes the bytes that the stream took, beside the call.
///
/// Bytes are held until a line feed comes or 512 bytes are held, and are then written by one call,
/// so that lines of several programs do not mix; more calls follow only if that one took a part.
/// Bytes after the last line feed stay held. A contract sees the sink as a `LineState`: the bytes that
/// the stream took, those that are held, and the count of errors, which saturates at the largest u64.
#[derive(Drop)]
pub struct LineSink<'a, P> {
    stream: TracedStream<'a, P>,
    line: [u8; ROOM],
    held: usize,
    faults: u64,
}

impl<'a, P> Model for LineSink<'a, P> {
    ghost use Rattle.std.specs.Prelude.{◌<◌, take};
    ghost use Rattle.outside.specs.LineSink.{LineState};

    ghost Value = { LineState };

    ghost view = { λ sink. record {
      printed = sink.stream;
      held = take sink.held sink.line;
      faults = sink.faults;
    } };

    ghost invariant = { λ sink. sink.held < 512 };
}

impl<'a, P> LineSink<'a, P> {
    /// The sink over that stream of a runtime, such as `rt.stderr()`. Takes no memory.
    pub fn new(stream: &'a P) -> LineSink<'a, P>
        ensures { result ≡ record { printed = []; held = []; faults = 0 } }
    {
        LineSink {
            stream: TracedStream::new(stream),
            line: [0; ROOM],
            held: 0,
            faults: 0,
        }
    }
}

impl<P: Print> Sink for LineSink<'_, P> {
    ghost written = { λ sink. None };

    ghost faults = { λ sink. sink.faults };

    ghost writes = { HasSaid };

    /// It takes as many bytes as have room. An error of the runtime is `SinkFailed`, and the held
    /// bytes are lost.
    fn write(&mut self, bytes: &[u8]) -> Result<usize, SinkFailed>
        ensures within { IfOk result (λ count. count ≤ length bytes.now) }
        // No byte is left out, and none but of these: what was printed, and what is held.
        ensures passed { IfOk result (λ count. self.new.printed ++ self.new.held
            ≡ (self.old.printed ++ self.old.held) ++ take count bytes.now) }
        ensures begun { HasBegun self.old.printed self.new.printed (self.old.held ++ bytes.now) }
        // A line that ends is not held.
        ensures line { IfOk result
            (λ count. Contains (take count bytes.now) 10 → self.new.held ≡ []) }
        ensures later { self.old.faults ≤ self.new.faults }
        ensures counts { MayCount self.old.faults self.new.faults }
        ensures rose { OnErr result (Rose self.old.faults self.new.faults) }
        ensures stuck { IfOk result
            (λ count. count ≡ 0 → 0 < length bytes.now → Rose self.old.faults self.new.faults) }
    {
        let count = bytes.len().min(ROOM - self.held);
        let end = self.held + count;
        self.line[self.held..end].copy_from_slice(&bytes[..count]);
        self.held = end;
        if end < ROOM && !bytes[..count].contains(&b'\n') {
            return Ok(count);
        }
        self.held = 0;
        match self.stream.write_whole(&self.line[..end]) {
            Ok(()) => Ok(count),
            Err(failed) => {
                self.faults = self.faults.saturating_add(1);
                Err(failed)
            }
        }
    }
}
