//! The laws of counts and of choice. Each law is the contract of a function that does nothing.
ghost use Rattle.std.specs.Prelude.{◌≡◌, ℕ, List, length};
ghost use Rattle.counting.specs.Common.{count, mem, IsRisingIn};

/// An increasing list of numbers from 1 to n has as many items as its test counts on 1 to n.
#[tactic(auto, using(crate::proofs::Lists::count_mem_length))]
pub fn count_of_list_law()
    ensures { (n : ℕ) (xs : List ℕ) → IsRisingIn n xs → count n (mem xs) ≡ length xs }
{}
