//! Graphs that grow from numbers, with their leaves.
use super::trial::{RunRow, all_answer, report};
use bench_top::Status;
use std::test::Fail;

// One piece is the complete bipartite graph of three and three vertices, a brace.
static ONE_PIECE: [RunRow; 1] = [(
    &[],
    "p mcg 6 9\ne 1 4\ne 1 5\ne 1 6\ne 2 4\ne 2 5\ne 2 6\ne 3 4\ne 3 5\ne 3 6\nc first leaves 1 bricks 0 braces 1\nc last leaves 1 bricks 0 braces 1\nc pairs 1\n",
)];

// Five pieces: the complete bipartite graph, the complete graph of four vertices, the complete
// bipartite graph, the prism and the cube. The edges are those that a second program, written
// from the definition of the generator, gives.
static FIVE_PIECES: [RunRow; 1] = [(
    &[],
    "p mcg 22 33\ne 1 11\ne 1 5\ne 1 6\ne 13 18\ne 14 5\ne 2 6\ne 8 10\ne 3 5\ne 7 6\ne 3 7\ne 3 8\ne 7 8\ne 4 10\ne 4 11\ne 4 19\ne 9 10\ne 9 11\ne 9 12\ne 2 13\ne 14 15\ne 14 16\ne 15 16\ne 2 15\ne 13 16\ne 12 17\ne 17 18\ne 19 20\ne 20 21\ne 21 22\ne 19 22\ne 12 20\ne 17 21\ne 18 22\nc first leaves 5 bricks 2 braces 3\nc last leaves 5 bricks 2 braces 3\nc pairs 5\n",
)];

#[test]
fn whole_graphs(rt: HostRuntime) -> Result<(), Fail> {
    let words = ["grow", "5", "1"];
    all_answer(rt.alloc(), &words, Status::Done, &ONE_PIECE)?;
    let words = ["grow", "7", "5"];
    all_answer(rt.alloc(), &words, Status::Done, &FIVE_PIECES)?;
    Ok(())
}

const SIX: &str =
    "c first leaves 6 bricks 3 braces 3\nc last leaves 6 bricks 3 braces 3\nc pairs 6\n";

const TWELVE: &str =
    "c first leaves 12 bricks 6 braces 6\nc last leaves 12 bricks 6 braces 6\nc pairs 12\n";

#[test]
fn twelve_pieces(rt: HostRuntime) -> Result<(), Fail> {
    let grown = report(rt.alloc(), &["grow", "7", "12"], &[])?;
    assert!(rt; grown.starts_with("p mcg 48 72\n") && grown.ends_with(TWELVE));
    Ok(())
}

#[test]
fn six_pieces_of_twenty_numbers(rt: HostRuntime) -> Result<(), Fail> {
    for seed in 1..=20 {
        let seed = format!(in rt.alloc(); "{seed}")?;
        let grown = report(rt.alloc(), &["grow", &seed, "6"], &[])?;
        assert!(rt; grown.ends_with(SIX));
    }
    Ok(())
}
