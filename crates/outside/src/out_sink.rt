//! A sink that is the standard output of a runtime.
ghost use Rattle.std.specs.Prelude.{◌≡◌, ◌≤◌, ◌++◌, [], IfOk, OnErr, false, length, take};
ghost use Rattle.std.specs.declared.option.Option.TheVariants.{Some};
ghost use Rattle.outside.specs.Faults.{next_fault, faults_after, MayCount};
ghost use Rattle.outside.specs.OutSink.{HasPrinted};

use crate::edge::TracedStream;
use crate::{Outlet, Sink, SinkFailed};
use std::io::ErrorKind;
use std::marker::Model;

/// The standard output of a runtime. It is the trusted edge: it notes the bytes that the runtime
/// took, beside the call, and no clause says that they arrive.
///
/// A contract sees it as a `PrintState`: these bytes, the count of errors, which saturates at the
/// largest u64, and whether the last write failed because nobody reads any more.
#[derive(Drop)]
pub struct OutSink<'a, P> {
    stream: TracedStream<'a, P>,
    faults: u64,
    is_abandoned: bool,
}

impl<'a, P> Model for OutSink<'a, P> {
    ghost use Rattle.outside.specs.OutSink.{PrintState};

    ghost Value = { PrintState };

    ghost view = { λ sink. record {
      printed = sink.stream;
      faults = sink.faults;
      is_abandoned = sink.is_abandoned;
    } };
}

impl<'a, P> OutSink<'a, P> {
    /// The sink that is that runtime's standard output. It takes no memory.
    pub fn new(runtime: &'a P) -> OutSink<'a, P>
        ensures { result ≡ record { printed = []; faults = 0; is_abandoned = false } }
    {
        OutSink {
            stream: TracedStream::new(runtime),
            faults: 0,
            is_abandoned: false,
        }
    }

    // Counts one more error, of that kind.
    fn count_fault(&mut self, kind: ErrorKind)
        ensures later { self.old.faults ≤ self.new.faults }
        ensures faults { self.new.faults ≡ next_fault self.old.faults }
        ensures printed { self.new.printed ≡ self.old.printed }
    {
        self.faults = self.faults.saturating_add(1);
        self.is_abandoned = kind == ErrorKind::BrokenPipe;
    }
}

impl<P: Print> Sink for OutSink<'_, P> {
    ghost written = { λ sink. Some sink.printed };

    ghost faults = { λ sink. sink.faults };

    ghost writes = { HasPrinted };

    /// No byte is held back. An error of the runtime is `SinkFailed`. No clause says what arrives:
    /// `tests/edge` looks at the bytes that do, and at a write to a full device.
    fn write(&mut self, bytes: &[u8]) -> Result<usize, SinkFailed>
        ensures within { IfOk result (λ count. count ≤ length bytes.now) }
        ensures printed { IfOk result
            (λ count. self.new.printed ≡ self.old.printed ++ take count bytes.now) }
        ensures lost { OnErr result (self.new.printed ≡ self.old.printed) }
        ensures later { self.old.faults ≤ self.new.faults }
        ensures counts { MayCount self.old.faults self.new.faults }
        ensures ok { IfOk result
            (λ count. self.new.faults ≡ faults_after self.old.faults count (length bytes.now)) }
        ensures err { OnErr result (self.new.faults ≡ next_fault self.old.faults) }
    {
        let count = match self.stream.write(bytes) {
            Ok(count) => count,
            Err(error) => {
                self.count_fault(error.kind());
                return Err(SinkFailed);
            }
        };
        if count == 0 && !bytes.is_empty() {
            self.count_fault(ErrorKind::WriteZero);
        }
        Ok(count)
    }
}

impl<P: Print> Outlet for OutSink<'_, P> {
    ghost is_abandoned = { λ sink. sink.is_abandoned };

    fn is_abandoned(&self) -> bool {
        self.is_abandoned
    }
}
