//! A shelf returns the bytes of a file by its name.
ghost use Rattle.std.specs.Prelude.{◌≡◌, ◌≤◌, ◌<◌, ◌-◌, ◌^◌, ℕ, List, Bool, IsTrue, IsSome, IfOk, IsErrOf, length};
ghost use Rattle.std.specs.declared.option.Option.{Option};
ghost use Rattle.std.specs.declared.option.Option.TheVariants.{None, Some};
ghost use Rattle.outside.specs.Faults.{Rose};
ghost use Rattle.outside.specs.Shelf.{Answer, NamedFile, TellsFile, IsLonger, answer_seen};

use std::alloc::Global;
use std::error::Error;
use std::fmt;

/// Why a read returned no bytes.
#[derive(Clone, Copy, Debug, PartialEq, Eq)]
pub enum ShelfFault {
    /// The file could not be read. A name that the shelf does not have counts as such an error.
    Failed,
    /// The file has more bytes than the limit.
    TooLong,
    /// Out of memory.
    Memory,
}

impl fmt::Display for ShelfFault {
    fn fmt<W: fmt::Write>(&self, f: &mut fmt::Formatter<W>) -> fmt::Result {
        match self {
            ShelfFault::Failed => write!(f, "the file could not be read"),
            ShelfFault::TooLong => write!(f, "the file is too long"),
            ShelfFault::Memory => write!(f, "out of memory"),
        }
    }
}

impl Error for ShelfFault {}

/// A shelf: it returns the bytes of a file by its name.
///
/// If it makes its files known, a read is known exactly: it returns the first file of that name. If
/// not, as with real files, the count of errors and the number of bytes taken still say why a read
/// returned none.
pub trait Shelf {
    /// The files of the shelf, in order, if it makes them known.
    ghost files: { Self → Option (List NamedFile) };

    /// How many bytes the last read took.
    ghost taken: { Self → ℕ };

    /// The count of reads that failed; it never decreases.
    ghost faults: { Self → ℕ };

    /// A read fails only if no file has the name.
    ghost steady: { Self → Bool };

    /// A read of that name with this result leads from the first shelf to the second. Code that is
    /// generic over its shelf has no other way from one shelf to the next, so this says which names
    /// it asked for, in which order, and what each read returned (`ReadsInTurn`, `AnswersInTurn`),
    /// even if the shelf does not make its files known.
    ghost reads: { Self → List ℕ → Answer → Self → Type 0 };

    /// The bytes of the first file of that name, if they are at most `limit`.
    ///
    /// `Failed` comes only if the count of errors rose in this call, and on a steady shelf only if
    /// no file has the name. `TooLong` comes only if the file has more bytes than `limit`, or, if
    /// the files are not known, if more than `limit` bytes were taken. `Memory` may come at any
    /// time. No read changes the files.
    fn read(&mut self, alloc: Global, name: &str, limit: usize) -> Result<Vec<u8>, ShelfFault>
        requires { limit < 2 ^ 64 - 1 }

        ensures reads { reads self.old name.now (answer_seen result) self.new }
        ensures files { files self.new ≡ files self.old }
        ensures steady { steady self.new ≡ steady self.old }
        ensures later { faults self.old ≤ faults self.new }

        ensures within { IfOk result (λ bytes. length bytes.items ≤ limit) }
        ensures taken { IfOk result (λ bytes. length bytes.items ≡ taken self.new) }
        ensures told { IfOk result
            (λ bytes. TellsFile (files self.old) name.now (Some bytes.items)) }

        ensures failed { IsErrOf result ShelfFault.Failed →
            Rose (faults self.old) (faults self.new) }
        ensures missing { IsErrOf result ShelfFault.Failed → IsTrue (steady self.old) →
            TellsFile (files self.old) name.now None }
        ensures too_long { IsErrOf result ShelfFault.TooLong →
            IsLonger (files self.old) name.now limit (taken self.new) };

    /// A steady shelf makes its files known.
    ghost steady_tells: { (shelf : Self) → IsTrue (steady shelf) → IsSome (files shelf) };
}
