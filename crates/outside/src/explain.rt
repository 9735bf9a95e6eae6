//! Why a read failed.
ghost use Rattle.std.specs.Prelude.{◌≡◌};
ghost use Rattle.std.specs.declared.option.Option.{Option};
ghost use Rattle.std.specs.declared.option.Option.TheVariants.{None};

use crate::Shelf;

/// Why a read of a shelf failed.
#[derive(Clone, Copy, Debug, PartialEq, Eq)]
pub enum FailureReason {
    /// No file has that name.
    Absent,
    /// A link with that name leads nowhere.
    Dangling,
    /// A folder has that name.
    Folder,
    /// A part of the name that should lead to a folder leads to something else.
    NotInFolder,
    /// It may not be read.
    Forbidden,
    /// The name, or a part of it, is too long.
    LongName,
    /// Links form a circle.
    LinkLoop,
    /// The name is that of a socket, or of a device that does not exist.
    Socket,
    /// Too many files are open.
    ManyOpen,
    /// The system has no memory to open or read it.
    NoMemory,
    /// Something else went wrong, such as an error of the device.
    Other,
}

/// A shelf that can say why its last read failed. This is for messages only: nothing is proved
/// about the reason.
pub trait Explain: Shelf {
    ghost use Rattle.outside.specs.declared.explain.FailureReason.{FailureReason};

    /// Why the last read failed, if it did and the shelf knows.
    ghost reason: { Self → Option FailureReason };

    /// Why the last read failed, if it did and the shelf knows. Takes no memory.
    fn reason(&self) -> Option<FailureReason>
        ensures { result ≡ reason self.now };
}

/// How the caller of a shelf learns why its last read failed. A call that takes any shelf takes one
/// of these with it: `Explained` for a shelf that can say it, and `Unexplained` for any other.
pub trait Reasons<S> {
    ghost use Rattle.outside.specs.declared.explain.FailureReason.{FailureReason};

    /// Why the last read failed, if it did and that is known.
    ghost reason: { S → Option FailureReason };

    /// Why the last read of the shelf failed, if it did and that is known. Takes no memory.
    fn reason(&self, shelf: &S) -> Option<FailureReason>
        ensures { result ≡ reason shelf.now };
}

/// The shelf says why its last read failed.
#[derive(Clone, Copy, Debug, Drop)]
pub struct Explained;

impl<S: Explain> Reasons<S> for Explained {
    ghost reason = { S.reason };

    fn reason(&self, shelf: &S) -> Option<FailureReason> {
        shelf.reason()
    }
}

/// It is not known why the last read failed.
#[derive(Clone, Copy, Debug, Drop)]
pub struct Unexplained;

impl<S> Reasons<S> for Unexplained {
    ghost reason = { λ _. None };

    fn reason(&self, _shelf: &S) -> Option<FailureReason> {
        None
    }
}
