//! Iteration over a set, and how a set is printed.
ghost use Rattle.std.specs.Prelude.{◌≡◌};
ghost use Rattle.std.specs.Iterator.{YieldsFirst, item_count};

use crate::VSet;
use std::fmt;
use std::marker::Model;

/// The members of a set that an iteration has not reached yet, in increasing order. Contracts see
/// them as a list.
#[derive(Drop)]
pub struct Members {
    rest: VSet,
}

impl Model for Members {
    ghost use Rattle.std.specs.Prelude.{List, ℕ};

    ghost Value = { List ℕ };

    ghost view = { λ s. s.rest };
}

impl VSet {
    /// The members in increasing order.
    pub fn iter(self) -> Members
        ensures { result ≡ self }
    {
        Members { rest: self }
    }
}

impl Iterator for Members {
    type Item = u32;

    ghost next_gives = { YieldsFirst (λ s. s) };

    ghost remaining = { item_count (λ s. s) };

    fn next(&mut self) -> Option<u32> {
        let (v, others) = self.rest.split_first()?;
        self.rest = others;
        Some(v)
    }
}

// The members in increasing order, as in `{1, 2, 3}`.
impl fmt::Debug for VSet {
    fn fmt<W: fmt::Write>(&self, f: &mut fmt::Formatter<W>) -> fmt::Result {
        f.debug_set().entries(self.iter()).finish()
    }
}
