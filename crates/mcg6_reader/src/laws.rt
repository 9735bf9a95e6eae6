//! The laws on lists. Each law is the contract of a function that does nothing.
ghost use Rattle.std.specs.Prelude.{◌≡◌, ℕ, List};
ghost use Rattle.mcg6_reader.specs.Common.{AllTold, HasOneFault, HasOneOutputPerLine, TellsApart, ToldToBad, WholeTold};
ghost use Rattle.mcg6_reader.specs.declared.ending.BadLine.{BadLine};
ghost use Rattle.mcg6_reader.specs.declared.place.LinePlace.{LinePlace};

use crate::teller::LineTeller;

/// If the teller has at most one output for each line, it has at most one for a list.
#[tactic(auto, using(crate::proofs::OneOutput::one_output))]
pub fn one_telling_law<T: LineTeller>(teller: &T)
    ensures { (place : LinePlace) (lines : List (List ℕ)) (a b : List ℕ)
        → HasOneOutputPerLine (T.tells teller.now)
        → AllTold (T.tells teller.now) place lines a →
        AllTold (T.tells teller.now) place lines b → a ≡ b }
{
    let _ = teller;
}

/// If the teller has no line with both an output and an error, a list that was processed to its end
/// has no bad line and no missing line. If each line also has at most one output and one kind of
/// error, the first bad or missing line is unique, with one kind, and the output before it is
/// unique.
pub fn one_ending_law<T: LineTeller>(teller: &T)
    ensures whole { (place : LinePlace) (lines : List (List ℕ)) (found : BadLine) (a b : List ℕ)
        → TellsApart (T.tells teller.now) (T.bad teller.now)
        → WholeTold (T.tells teller.now) (T.lacks teller.now) place lines a
        → ToldToBad (T.tells teller.now) (T.bad teller.now) (T.lacks teller.now) place lines found b
        → ⊥ }
    ensures bad { (place : LinePlace) (lines : List (List ℕ)) (found other : BadLine) (a b : List ℕ)
        → TellsApart (T.tells teller.now) (T.bad teller.now)
        → HasOneOutputPerLine (T.tells teller.now) → HasOneFault (T.bad teller.now)
        → ToldToBad (T.tells teller.now) (T.bad teller.now) (T.lacks teller.now) place lines found a
        → ToldToBad (T.tells teller.now) (T.bad teller.now) (T.lacks teller.now) place lines other b
        → (a ≡ b) × (found.number ≡ other.number) × (found.kind ≡ other.kind) }
{
    let _ = teller;
}
