//! A source returns the bytes of an input piece by piece.
ghost use Rattle.std.specs.Prelude.{◌≡◌, ◌≤◌, ◌<◌, ℕ, List, IfOk, OnErr, length, take};
ghost use Rattle.std.specs.declared.option.Option.{Option};
ghost use Rattle.outside.specs.Faults.{Rose};
ghost use Rattle.outside.specs.Source.{prepended, given_by, IsAtEnd};

use std::error::Error;
use std::fmt;

/// A read that failed: none of the bytes that are left was taken.
#[derive(Clone, Copy, Debug, PartialEq, Eq)]
pub struct SourceFailed;

impl fmt::Display for SourceFailed {
    fn fmt<W: fmt::Write>(&self, f: &mut fmt::Formatter<W>) -> fmt::Result {
        write!(f, "the bytes could not be read")
    }
}

impl Error for SourceFailed {}

/// A source: it returns the bytes of an input piece by piece.
///
/// Like POSIX's `read`, it may fill a part of a piece, and fills nothing of a nonempty one only at
/// the end. So the bytes that are left are the same in whatever pieces they come.
pub trait Source {
    /// The bytes that are left to read, if the source makes them known.
    ghost left: { Self → Option (List ℕ) };

    /// The count of reads that failed; it never decreases.
    ghost faults: { Self → ℕ };

    /// A read that returned these bytes, or failed, leads from the first source to the second. Code
    /// that is generic over its source has no other way from one source to the next, so this says
    /// what its reads returned, and in which order.
    ghost reads: { Self → Option (List ℕ) → Self → Type 0 };

    /// Puts the next bytes at the front of the piece, and returns how many.
    ///
    /// 0 for a nonempty piece comes only at the end. `SourceFailed` comes only if the count of
    /// errors rose in this call, and then as many bytes are left as before.
    fn read(&mut self, piece: &mut [u8]) -> Result<usize, SourceFailed>
        ensures reads { reads self.old (given_by result piece.new) self.new }
        ensures within { IfOk result (λ count. count ≤ length piece.old) }
        ensures taken { IfOk result (λ count.
            left self.old ≡ prepended (take count piece.new) (left self.new)) }
        ensures end { IfOk result
            (λ count. count ≡ 0 → 0 < length piece.old → IsAtEnd (left self.new)) }
        ensures untaken { OnErr result (left self.new ≡ left self.old) }

        ensures later { faults self.old ≤ faults self.new }
        ensures failed { OnErr result (Rose (faults self.old) (faults self.new)) };
}
