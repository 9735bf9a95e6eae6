//! The tables of all formats, walked by one test.

use super::formats::{Answer, Format, all_are_so, all_begin_so, long_has_answer};
use super::graph6_rows::FULL;
use super::move_rows::LONG_MOVES;
use super::{ear_rows, graph_rows, graph6_rows, move_rows, tree_rows};
use graph_core::line_text::FaultKind;
use std::alloc::Global;
use std::test::Fail;

// The tables of each format are walked by a function of their own: what a proof pays for a table
// grows with the square of its size.
fn graphs(alloc: Global) -> Result<(), Fail> {
    all_are_so(alloc, Format::VersionOne, &graph_rows::VERSION_ONE)?;
    all_begin_so(
        alloc,
        Format::VersionOne,
        &graph_rows::FAULTS_OF_VERSION_ONE,
    )?;
    all_are_so(alloc, Format::EitherVersion, &graph_rows::EITHER_VERSION)?;
    all_begin_so(
        alloc,
        Format::EitherVersion,
        &graph_rows::FAULTS_OF_EITHER_VERSION,
    )
}

fn graph6(alloc: Global) -> Result<(), Fail> {
    all_are_so(alloc, Format::Graph6, &graph6_rows::TEXTS)?;
    all_begin_so(alloc, Format::Graph6, &graph6_rows::FAULTS)
}

fn trees(alloc: Global) -> Result<(), Fail> {
    all_are_so(alloc, Format::Tree { n: 2 }, &tree_rows::TREES_OF_2)?;
    all_are_so(alloc, Format::Tree { n: 6 }, &tree_rows::TREES_OF_6)?;
    all_begin_so(alloc, Format::Tree { n: 6 }, &tree_rows::FAULTS_OF_TREES)?;
    all_are_so(alloc, Format::Tree { n: 8 }, &tree_rows::TREES_OF_8)
}

fn picks(alloc: Global) -> Result<(), Fail> {
    all_are_so(alloc, Format::Picks, &tree_rows::PICKS)?;
    all_begin_so(alloc, Format::Picks, &tree_rows::FAULTS_OF_PICKS)
}

fn moves(alloc: Global) -> Result<(), Fail> {
    for (n, rows) in &move_rows::MOVES {
        all_are_so(alloc, Format::Moves { n: *n }, rows)?;
    }
    all_begin_so(alloc, Format::Moves { n: 6 }, &move_rows::FAULTS_OF_MOVES)
}

fn ears(alloc: Global) -> Result<(), Fail> {
    all_are_so(alloc, Format::Ears { n: 2, m: 1 }, &ear_rows::EARS_OF_2)?;
    all_are_so(alloc, Format::Ears { n: 4, m: 6 }, &ear_rows::EARS_OF_4)?;
    all_begin_so(
        alloc,
        Format::Ears { n: 4, m: 6 },
        &ear_rows::FAULTS_OF_EARS,
    )?;
    all_are_so(alloc, Format::Ears { n: 8, m: 12 }, &ear_rows::EARS_OF_8)
}

#[test]
fn texts_of_each_format(rt: HostRuntime) -> Result<(), Fail> {
    let alloc = rt.alloc();
    graphs(alloc)?;
    graph6(alloc)?;
    trees(alloc)?;
    picks(alloc)?;
    moves(alloc)?;
    ears(alloc)
}

#[test]
fn long_texts_of_moves_and_of_graph6(rt: HostRuntime) -> Result<(), Fail> {
    for (parts, answer) in &LONG_MOVES {
        let format = Format::Moves { n: 6 };
        assert!(rt; long_has_answer(rt.alloc(), format, parts, *answer)?);
    }
    let answer = Answer::Fault(1, FaultKind::Limit);
    assert!(rt; long_has_answer(rt.alloc(), Format::Graph6, &FULL, answer)?);
    Ok(())
}
