//! Worked scripts of moves between derivations, made and replayed, and moves that fail.
use super::graphs::{HEXAGON, HEXAGON_TREE, OTHER_HEXAGON_TREE};
use super::trial::{REPLAY, Runs, SCRIPT, all_runs_answer, answers, report};
use bench_top::Status;
use std::test::Fail;

// A tree of the hexagon, and moves on it.
static REPLAYED: [Runs; 3] = [
    // Moves that are made.
    (
        Status::Done,
        &[
            (
                &[HEXAGON, HEXAGON_TREE, "m mcg 6\n"],
                "t mcg 6\ncut 1 2 3\nleaf\nleaf\nc moves 0\n",
            ),
            (
                &[HEXAGON, HEXAGON_TREE, "m mcg 6\nswitch . 1 4\n"],
                "t mcg 6\ncut 2 3 4\nleaf\nleaf\nc moves 1\n",
            ),
        ],
    ),
    // Moves that fail, and a tree that is not a derivation.
    (
        Status::Negative,
        &[
            (
                &[HEXAGON, HEXAGON_TREE, "m mcg 6\nrotate .\n"],
                "move 1 stuck\n",
            ),
            (
                &[HEXAGON, HEXAGON_TREE, "m mcg 6\nswitch . 1 4\nrotate k\n"],
                "move 2 stuck\n",
            ),
            (
                &[HEXAGON, HEXAGON_TREE, "m mcg 6\nswitch . 2 4\n"],
                "move 1 refused node 1 why 4 matching 2 4 6\n",
            ),
            (
                &[HEXAGON, "t mcg 6\nleaf\n", "m mcg 6\n"],
                "tree 1 refused node 1 why 5 cut 2 3 4\n",
            ),
        ],
    ),
    // Moves outside the format.
    (
        Status::BadInput,
        &[(
            &[HEXAGON, HEXAGON_TREE, "m mcg 6\nrotate x\n"],
            "file 3 line 2 kind 2\n",
        )],
    ),
];

#[test]
fn moves_on_a_tree(rt: HostRuntime) -> Result<(), Fail> {
    all_runs_answer(rt.alloc(), REPLAY, &REPLAYED)
}

#[test]
fn a_script_is_replayed(rt: HostRuntime) -> Result<(), Fail> {
    let files = [HEXAGON, HEXAGON_TREE, OTHER_HEXAGON_TREE];
    let script = report(rt.alloc(), SCRIPT, &files)?;
    assert!(rt; script.as_str() == "m mcg 6\nswitch . 1 4\nc leaves 2 moves 1\n");
    let files = [HEXAGON, HEXAGON_TREE, script.as_str()];
    let made = "t mcg 6\ncut 2 3 4\nleaf\nleaf\nc moves 1\n";
    assert!(rt; answers(rt.alloc(), REPLAY, &files, Status::Done, made)?);
    Ok(())
}
