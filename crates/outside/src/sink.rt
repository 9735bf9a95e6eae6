//! A sink takes the bytes of an output piece by piece.
ghost use Rattle.std.specs.Prelude.{◌≡◌, ◌≤◌, ◌<◌, ℕ, List, IfOk, OnErr, length, take};
ghost use Rattle.std.specs.declared.option.Option.{Option};
ghost use Rattle.outside.specs.Faults.{Rose};
ghost use Rattle.outside.specs.Sink.{appended, taken_by};

use std::error::Error;
use std::fmt;

/// A write that failed: none of its bytes counts as written.
#[derive(Clone, Copy, Debug, PartialEq, Eq)]
pub struct SinkFailed;

impl fmt::Display for SinkFailed {
    fn fmt<W: fmt::Write>(&self, f: &mut fmt::Formatter<W>) -> fmt::Result {
        write!(f, "the bytes could not be written")
    }
}

impl Error for SinkFailed {}

/// A sink: it takes the bytes of an output piece by piece.
///
/// Like POSIX's `write`, it may take a part of a piece. A caller writes the rest again, until
/// nothing is left, until `SinkFailed`, or until nothing is taken of a nonempty rest: the last two
/// are errors, and are counted.
pub trait Sink {
    /// The bytes written so far, if the sink makes them known.
    ghost written: { Self → Option (List ℕ) };

    /// The count of writes that failed or took nothing of a nonempty piece; it never decreases.
    ghost faults: { Self → ℕ };

    /// A write of that piece that took so many of its bytes (0 if it failed) leads from the first
    /// sink to the second. Code that is generic over its sink has no other way from one sink to the
    /// next, so this says which pieces it wrote, in which order, and that no write follows a failed
    /// one (`IsWritten`, `IsCutOff`).
    ghost writes: { Self → List ℕ → ℕ → Self → Type 0 };

    /// Appends the first bytes of the piece, and returns how many.
    ///
    /// `SinkFailed`, and 0 for a nonempty piece, come only if the count of errors rose in this
    /// call. After `SinkFailed` the bytes written are as before.
    fn write(&mut self, bytes: &[u8]) -> Result<usize, SinkFailed>
        ensures writes { writes self.old bytes.now (taken_by result) self.new }
        ensures within { IfOk result (λ count. count ≤ length bytes.now) }
        ensures written { IfOk result (λ count.
            written self.new ≡ appended (written self.old) (take count bytes.now)) }
        ensures unwritten { OnErr result (written self.new ≡ written self.old) }

        ensures later { faults self.old ≤ faults self.new }
        ensures failed { OnErr result (Rose (faults self.old) (faults self.new)) }
        ensures stuck { IfOk result (λ count. count ≡ 0 → 0 < length bytes.now →
            Rose (faults self.old) (faults self.new)) };
}
