//! The graphs of the tests, as files, and derivations and an ear list of some of them.
use std::alloc::Global;
use std::test::Fail;

pub const K4: &str = "p mcg 4 6\ne 1 2\ne 1 3\ne 1 4\ne 2 3\ne 2 4\ne 3 4\n";

pub const K4_REPORT: &str =
    "graph 4 6\ncomponents 1\nbipartite no\nmatching 2\ndeficiency 0\nD\nA\nC 1 2 3 4\nallowed 1 2 3 4 5 6\ncovered yes\nclasses 4\nclass 1\nclass 2\nclass 3\nclass 4\nbicritical yes\ncutpair none\nkind brick\n";

pub const HEXAGON: &str = "p mcg 6 6\ne 1 2\ne 2 3\ne 3 4\ne 4 5\ne 5 6\ne 6 1\n";

// The cycle of eight vertices.
pub const OCTAGON: &str = "p mcg 8 8\ne 1 2\ne 2 3\ne 3 4\ne 4 5\ne 5 6\ne 6 7\ne 7 8\ne 8 1\n";

// The cycle of four with names.
pub const NAMED_CYCLE: &str = "p mcg2 4 4\nv a\nv b\nv c\nv d\ne a b\ne b c\ne c d\ne d a\n";

pub const PRISM: &str =
    "p mcg 6 9\ne 1 2\ne 1 3\ne 2 3\ne 4 5\ne 4 6\ne 5 6\ne 1 4\ne 2 5\ne 3 6\n";

pub const CUBE: &str =
    "p mcg 8 12\ne 1 2\ne 2 3\ne 3 4\ne 1 4\ne 5 6\ne 6 7\ne 7 8\ne 5 8\ne 1 5\ne 2 6\ne 3 7\ne 4 8\n";

// The complete bipartite graph of three and three vertices with a triangle for one vertex.
pub const TRIANGLE_IN_K33: &str =
    "p mcg 8 12\ne 1 2\ne 1 3\ne 2 3\ne 1 4\ne 2 5\ne 3 6\ne 7 4\ne 7 5\ne 7 6\ne 8 4\ne 8 5\ne 8 6\n";

// Two complete graphs of four vertices that share an edge.
pub const TWO_K4: &str =
    "p mcg 6 11\ne 1 2\ne 1 3\ne 1 4\ne 2 3\ne 2 4\ne 3 4\ne 1 5\ne 1 6\ne 2 5\ne 2 6\ne 5 6\n";

pub const PETERSEN: &str =
    "p mcg 10 15\ne 1 2\ne 2 3\ne 3 4\ne 4 5\ne 1 5\ne 1 6\ne 2 7\ne 3 8\ne 4 9\ne 5 10\ne 6 8\ne 8 10\ne 7 10\ne 7 9\ne 6 9\n";

pub const PATH: &str = "p mcg 4 3\ne 1 2\ne 2 3\ne 3 4\n";

// Two edges without a common vertex.
pub const TWO_EDGES: &str = "p mcg 4 2\ne 1 2\ne 3 4\n";

// Two derivations of the hexagon, whose cuts cross.
pub const HEXAGON_TREE: &str = "t mcg 6\ncut 1 2 3\nleaf\nleaf\n";

pub const OTHER_HEXAGON_TREE: &str = "t mcg 6\ncut 2 3 4\nleaf\nleaf\n";

// An ear list of the cube.
pub const CUBE_EARS: &str =
    "r mcg 8 12\nstart 1\near 2 2 3 4\near 1 9 5 10\near 3 11 7 12\near 6 6\near 5 8\n";

// The cycle of so many vertices.
pub fn cycle(alloc: Global, n: u32) -> Result<String, Fail> {
    let mut text = format!(in alloc; "p mcg {n} {n}\n")?;
    for k in 1..n {
        let next = k + 1;
        write!(text, "e {k} {next}\n")?;
    }
    write!(text, "e {n} 1\n")?;
    Ok(text)
}
