//! Whether anybody reads what is written.
ghost use Rattle.std.specs.Prelude.{◌≡◌, Bool};

use crate::Sink;

/// A sink that can say whether its last write failed because nobody reads it any more, such as a
/// pipe whose reader is gone. Whoever closed it knows, so no message is needed.
pub trait Outlet: Sink {
    /// The last write failed because nobody reads any more.
    ghost is_abandoned: { Self → Bool };

    /// Whether the last write failed because nobody reads any more. Takes no memory.
    fn is_abandoned(&self) -> bool
        ensures { result ≡ is_abandoned self.now };
}
