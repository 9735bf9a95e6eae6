//! The files that a runtime gave, which only clauses read.
ghost use Rattle.std.specs.Prelude.{◌≡◌, ℕ, List, [], ◌∷◌, ◌++◌};
ghost use Rattle.std.specs.Borrow.{ftrue};

use std::marker::{Model, PhantomData};

/// The files that a runtime gave, in order: the name that was asked for, and the bytes that came.
/// It takes no memory, and its methods do nothing at run time: a clause reads `files`. Only
/// `DirShelf` notes files, beside the calls that give them.
#[derive(Drop)]
pub struct Given {
    marker: PhantomData<u8>,
    pub ghost files: { List (List ℕ × List ℕ) },
}

impl Model for Given {
    ghost also_owns = { λ _. ftrue };
}

impl Given {
    // Nothing was given yet.
    pub(crate) fn new() -> Given
        ensures { result.files ≡ [] }
    {
        Given {
            marker: PhantomData,
        }
    }

    // The file of that name gave these bytes.
    pub(crate) fn note(&mut self, _name: &[u8], _bytes: &[u8])
        ensures { self.new.files ≡ self.old.files ++ (_name.now, _bytes.now) ∷ [] }
    {}
}
