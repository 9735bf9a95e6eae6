//! Why a source could not be read.
ghost use Rattle.std.specs.Prelude.{◌≡◌};
ghost use Rattle.std.specs.declared.option.Option.{Option};

use crate::{FailureReason, Source};

/// A source that can say why a read of it failed. This is for messages only: nothing is proved
/// about the reason.
pub trait Inlet: Source {
    ghost use Rattle.outside.specs.declared.explain.FailureReason.{FailureReason};

    /// Why the last read that failed did, if one did and the source knows.
    ghost reason: { Self → Option FailureReason };

    /// Why the last read that failed did, if one did and the source knows. Takes no memory.
    fn reason(&self) -> Option<FailureReason>
        ensures { result ≡ reason self.now };
}
