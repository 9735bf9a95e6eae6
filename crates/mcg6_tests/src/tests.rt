//! The tests.

mod cubic;
mod encoding;
mod graphs;
mod kinds;
mod selecting;
mod selections;
mod told;
mod witnesses;
