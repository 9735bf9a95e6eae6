//! The arguments of a program, as texts.
//!
//! `read_arguments` reads the words after the name of the program, one by one. The name itself is
//! not read: it may be a path that is not UTF-8. If an argument is not UTF-8, `ArgumentFault` has
//! its place and its bytes. Main promises: an argument is the text with the bytes that the runtime
//! gave, and a refusal has the bytes of the word that it names (`text_of`).
//!
//! Depends on no crate of the repository.
#![tactic(auto)]

mod asked;
mod reading;
mod refusal;

pub use asked::Asked;
pub use reading::{Arguments, read_arguments};
pub use refusal::ArgumentFault;
