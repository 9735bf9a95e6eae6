//! Tests of the top call `bench_top::run`: what each command answers and writes.
//!
//! A row of a table has the files of a run and the report that is expected, byte by byte; `trial`
//! walks the rows of a command. `analysing`, `decomposing`, `checking`, `comparing`, `replaying`
//! and `growing` have the worked reports of the commands. `named`: graphs in version 2 over the
//! commands whose reports list no names. `words`: words that match no row, over which nothing is
//! read. `malformed`: one table for each text format, with each row of its table of faults.
//! `bad_files`: files beyond the limits of size, and which of several bad files is named.
//! `faults`: over all commands each read and each write fails in turn, each file is missing in
//! turn, and the room of the sink is too small; and over a sink that only counts nothing fails.
//!
//! The values are those of the literature or were worked out by hand. The crate has no items but
//! these tests; it stands beside `mcg` above `bench_top`, so that what `bench_top` proves need
//! not wait for them. Source of the graphs: Lovász and Plummer, "Matching Theory".
#![tactic(auto)]

#[cfg(test)]
mod tests;
