//! A shelf that notes the files that a runtime gave.
use crate::Shelf;

/// A shelf that notes the files that a runtime gave: a read that returns a file notes it, with the
/// name that was asked for. So of a run whose reads all returned files, it is known which.
pub trait Noting: Shelf {
    ghost use Rattle.std.specs.Prelude.{List};
    ghost use Rattle.outside.specs.Shelf.{NamedFile};
    ghost use Rattle.outside.specs.Noting.{NotesFiles};

    /// The files that were given so far, in order.
    ghost given: { Self → List NamedFile };

    /// A read that returns a file notes it.
    ghost notes: { NotesFiles Self.reads given };
}
