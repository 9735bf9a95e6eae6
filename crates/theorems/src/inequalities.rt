//! Systems of linear inequalities: Farkas' lemma.
//!
//! Sources: Farkas, "Theorie der einfachen Ungleichungen" (1902); Schrijver, "Theory of Linear and
//! Integer Programming", section 7.3.
ghost use Rattle.std.specs.Prelude.{ℕ, ℤ, ◌⊎◌};
ghost use Rattle.theorems.specs.Inequalities.{Combination, Separator};

/// Farkas' lemma, over the integers: let v(1), .., v(l) and b be vectors of m integers. Either some
/// positive multiple of b is a sum of the vectors v(i), each taken a whole number of times, or some
/// integer vector has a product of at most 0 with each v(i), and a positive one with b; and never
/// both (Farkas 1902).
pub fn farkas_law()
    ensures either { (l m : ℕ) (v : ℕ → ℕ → ℤ) (b : ℕ → ℤ) →
        Combination l m v b ⊎ Separator l m v b }
    ensures not_both { (l m : ℕ) (v : ℕ → ℕ → ℤ) (b : ℕ → ℤ) →
        Combination l m v b → ¬ (Separator l m v b) }
{}
