//! The tests.

mod analysing;
mod bad_files;
mod checking;
mod comparing;
mod decomposing;
mod faults;
mod graphs;
mod growing;
mod malformed;
mod named;
mod replaying;
mod trial;
mod words;
