//! The type `VSet`.
ghost use Rattle.std.specs.Prelude.{◌≡◌, ◌≤◌, ◌<◌, ◌||◌, ◌&&◌, ◌==◌, ◌↔◌, not, ℕ, length, [], ◌∷◌, IfSome, IfNone, true, false, bytes_eq};
ghost use Rattle.std.specs.Cmp.{partial_equiv_from_equiv};
ghost use Rattle.std.specs.Cmp.Lexicographic.{nat_list_eq_equiv};
ghost use Rattle.counting.specs.Common.{Within, mem, IsRisingIn, IsLeastOf, IsGreatestOf, IsNextAfter, is_subset, rising_list, everything};

use crate::bits::{TWO_TO_64, bit, joined};
use std::marker::Model;

/// The most vertices that a graph may have.
pub const MOST_VERTICES: u32 = 128;

/// A set of numbers from 1 to `MOST_VERTICES`, which contracts see as the list of its members in
/// increasing order.
#[derive(Clone, Copy)]
pub struct VSet {
    word: u128,
}

impl Model for VSet {
    ghost use Rattle.std.specs.Prelude.{List, ℕ, ◌<◌, ◌^◌};
    ghost use Rattle.vset_core.specs.Words.{members, word_of_list};
    ghost use Rattle.vset_core.specs.WordBack.{word-members};

    ghost Value = { List ℕ };

    ghost view = { λ set. members set.word };

    ghost invariant = { λ set. set.word < 2 ^ 128 };

    ghost inverse = { λ elements. record { word = word_of_list elements } };

    ghost inverse_ok = { λ set fits. word-members set fits };
}

impl VSet {
    /// The empty set.
    pub fn empty() -> VSet
        ensures { result ≡ [] }
    {
        VSet { word: 0 }
    }

    /// The set {`v`}.
    pub fn one(v: u32) -> VSet
        requires { Within MOST_VERTICES v }
        ensures { result ≡ v ∷ [] }
    {
        VSet { word: bit(v) }
    }

    /// The set of all numbers from 1 to `n`.
    pub fn full(n: u32) -> VSet
        requires { n ≤ MOST_VERTICES }
        ensures list { result ≡ rising_list n everything }
        ensures members { (v : ℕ) → (mem result v ≡ true) ↔ Within n v }
    {
        if n == 0 {
            return VSet { word: 0 };
        }
        VSet {
            word: u128::MAX >> (MOST_VERTICES - n),
        }
    }

    /// The law that the members are in increasing order and lie from 1 to `MOST_VERTICES`. It does
    /// nothing: a caller states it where it needs it.
    pub fn rises(self)
        ensures { IsRisingIn MOST_VERTICES self }
    {
        let _ = &self.word;
    }

    /// The set with `v` added.
    pub fn with(self, v: u32) -> VSet
        requires { Within MOST_VERTICES v }
        ensures { (w : ℕ) → mem result w ≡ (mem self w || v == w) }
    {
        VSet {
            word: self.word | bit(v),
        }
    }

    /// The set with `v` removed.
    pub fn without(self, v: u32) -> VSet
        requires { Within MOST_VERTICES v }
        ensures { (w : ℕ) → mem result w ≡ (mem self w && not (v == w)) }
    {
        VSet {
            word: self.word & !bit(v),
        }
    }

    /// The numbers in this set or in `o`.
    pub fn union(self, o: VSet) -> VSet
        ensures { (v : ℕ) → mem result v ≡ (mem self v || mem o v) }
    {
        VSet {
            word: self.word | o.word,
        }
    }

    /// The numbers in this set and in `o`.
    pub fn meet(self, o: VSet) -> VSet
        ensures { (v : ℕ) → mem result v ≡ (mem self v && mem o v) }
    {
        VSet {
            word: self.word & o.word,
        }
    }

    /// The numbers in this set and not in `o`.
    pub fn minus(self, o: VSet) -> VSet
        ensures { (v : ℕ) → mem result v ≡ (mem self v && not (mem o v)) }
    {
        VSet {
            word: self.word & !o.word,
        }
    }

    /// Whether `v` is in the set.
    pub fn contains(self, v: u32) -> bool
        requires { Within MOST_VERTICES v }
        ensures { result ≡ mem self v }
    {
        self.word & bit(v) != 0
    }

    /// Whether each number of the set is in `o`.
    pub fn is_subset(self, o: VSet) -> bool
        ensures { result ≡ is_subset self o }
    {
        self.word & !o.word == 0
    }

    /// The number of members.
    pub fn len(self) -> u32
        ensures { result ≡ length self }
    {
        self.word.count_ones()
    }

    /// The least member; `None` if and only if the set is empty.
    pub fn first(self) -> Option<u32>
        ensures some { IfSome result (IsLeastOf self) }
        ensures within { IfSome result (Within MOST_VERTICES) }
        ensures none { IfNone result (self ≡ []) }
    {
        self.rises();
        let (v, _) = self.split_first()?;
        Some(v)
    }

    /// The greatest member; `None` if and only if the set is empty.
    pub fn last(self) -> Option<u32>
        ensures some { IfSome result (IsGreatestOf self) }
        ensures within { IfSome result (Within MOST_VERTICES) }
        ensures none { IfNone result (self ≡ []) }
    {
        let high = (self.word / TWO_TO_64) as u64;
        if high != 0 {
            return Some(u128::BITS - high.leading_zeros());
        }
        let low = (self.word % TWO_TO_64) as u64;
        if low != 0 {
            return Some(u64::BITS - low.leading_zeros());
        }
        None
    }

    /// The least member above `v`; `None` if and only if no member is above `v`.
    pub fn next_after(self, v: u32) -> Option<u32>
        requires { v ≤ MOST_VERTICES }
        ensures some { IfSome result (IsNextAfter self v) }
        ensures within { IfSome result (Within MOST_VERTICES) }
        ensures none { IfNone result ((w : ℕ) → v < w → mem self w ≡ false) }
    {
        let word = self.word;
        if v == MOST_VERTICES {
            return None;
        }
        let above = word >> v;
        if above == 0 {
            return None;
        }
        Some(v + above.trailing_zeros() + 1)
    }

    /// The least member and the set of the others; `None` if and only if the set is empty.
    pub fn split_first(self) -> Option<(u32, VSet)>
        ensures some { IfSome result (λ p. self ≡ p.0 ∷ p.1) }
        ensures within { IfSome result (λ p. Within MOST_VERTICES p.0) }
        ensures none { IfNone result (self ≡ []) }
    {
        let low = (self.word % TWO_TO_64) as u64;
        let high = (self.word / TWO_TO_64) as u64;
        // less 1, a word has a zero at its lowest one, and the same bits above it
        if low != 0 {
            let others = VSet {
                word: joined(high, low & (low - 1)),
            };
            return Some((low.trailing_zeros() + 1, others));
        }
        if high != 0 {
            let others = VSet {
                word: joined(high & (high - 1), 0),
            };
            return Some((high.trailing_zeros() + 65, others));
        }
        None
    }
}

impl PartialEq for VSet {
    ghost eq = { bytes_eq };

    ghost laws = { partial_equiv_from_equiv nat_list_eq_equiv };

    fn eq(&self, o: &VSet) -> bool {
        self.word == o.word
    }
}

impl Eq for VSet {
    ghost laws = { nat_list_eq_equiv };
}
