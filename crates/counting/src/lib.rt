//! Counting on the numbers 1 to n: the definitions and lemmas on which every other crate rests.
//!
//! Vertices and edges are numbered from 1. A set of them is a test, a function from numbers to
//! truth values, and its size is `count n x`, the number of members in {1, .., n}. Main
//! definitions: sums and sizes (`total`, `count`, `Within`), sets as tests (`union`, `meet`,
//! `complement`), "some" and "each" over numbers and over sets as tests that compute, sets as
//! increasing lists (`mem`, `rising_list`, `IsRisingIn`). The lemmas on them are in proofs/. The
//! crate has no code of its own.
//!
//! Depends on `std` alone. Double counting and parity arguments are those of any textbook on graphs
//! (Lovász and Plummer, "Matching Theory", 1986).
#![tactic(auto)]

mod laws;

pub use laws::count_of_list_law;
