//! The words that a runtime gave, which only clauses read.
ghost use Rattle.std.specs.Prelude.{◌≡◌, ℕ, List, [], ◌∷◌, ◌++◌, ◌+◌, length};
ghost use Rattle.std.specs.Borrow.{ftrue};

use std::marker::{Model, PhantomData};

/// The words that a runtime gave, in order: the first is the argument at place 1, and so on. It
/// takes no memory, and its methods do nothing at run time: a clause reads `words`.
#[derive(Drop)]
pub struct Asked {
    marker: PhantomData<u8>,
    pub ghost words: { List (List ℕ) },
}

impl Model for Asked {
    ghost also_owns = { λ _. ftrue };
}

impl Asked {
    // Nothing was given yet.
    pub(crate) fn new() -> Asked
        ensures { result.words ≡ [] }
    {
        Asked {
            marker: PhantomData,
        }
    }

    // The argument at this place, which is the next, is these bytes.
    pub(crate) fn note_at(&mut self, place: usize, bytes: &[u8])
        requires { place ≡ length self.old.words + 1 }
        ensures { self.new.words ≡ self.old.words ++ bytes.now ∷ [] }
    {
        let _ = place;
        self.note(bytes);
    }

    // These bytes were given.
    fn note(&mut self, _bytes: &[u8])
        ensures { self.new.words ≡ self.old.words ++ _bytes.now ∷ [] }
    {}
}
