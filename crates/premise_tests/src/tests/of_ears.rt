//! Premises of the theorems on ears, and of that on reports.

use super::claims::Claim::{
    Apart, CutSize, Ear, EarCount, Edges, Is, Lead, Needed, Number, OneOrTwo, Set, TwoEars,
};
use super::claims::OfEdges::{Conformal, Stage};
use super::claims::OfNumber::Size;
use super::claims::OfSet::{Canonical, Nontrivial, Perfect, Side, Tight};
use super::claims::Property::{Bipartite, Covered, Loopless};
use super::ears::Steps;
use super::graphs::{
    CHORDED_CYCLE, CHORDED_HEXAGON, EDGE_AND_VERTEX, HEXAGON, K2, K2_WITH_LOOP, K4, PATH_OF_4,
    THREE_PARALLEL, TRIANGLE_WITH_EAR, UNCONFORMAL,
};
use super::rows::{Row, all_are_so};
use std::test::Fail;

static LISTS: [Row; 3] = [
    Row {
        premises: &[
            "ear_list_exists_law: matching covered",
            "ear_decomposition_law: `goes_on`: matching covered",
        ],
        without: &[
            "ear_list_exists_law.list: IsCovered",
            "ear_decomposition_law.goes_on: IsCovered",
        ],
        graph: "the path with four vertices",
        given: PATH_OF_4,
        holds: &[Is(&[Loopless]), Edges(Stage, &[1]), Edges(Conformal, &[1])],
        fails: &[
            Is(&[Covered]),
            Lead(Steps::Double, &[1]),
            Lead(Steps::Double, &[2]),
            Lead(Steps::Double, &[3]),
        ],
    },
    Row {
        premises: &[
            "ear_list_exists_law: no loop",
            "ear_decomposition_law: `goes_on`: no loop",
        ],
        without: &[
            "ear_list_exists_law.list: IsMultigraph",
            "ear_decomposition_law.goes_on: IsMultigraph",
        ],
        graph: "K2 with a loop",
        given: K2_WITH_LOOP,
        holds: &[Is(&[Covered]), Edges(Stage, &[1]), Edges(Conformal, &[1])],
        fails: &[
            Is(&[Loopless]),
            Lead(Steps::Double, &[1]),
            Lead(Steps::Double, &[2]),
        ],
    },
    Row {
        premises: &["ear_list_exists_law: `list`: bipartite, for single ears only"],
        without: &["ear_list_exists_law.list: IsBipartite"],
        graph: "K4",
        given: K4,
        holds: &[Is(&[Loopless, Covered]), Lead(Steps::Double, &[1])],
        fails: &[Is(&[Bipartite]), Lead(Steps::Single, &[1])],
    },
];

static STAGES: [Row; 3] = [
    // the cycle 3 5 4 6 has the edges 4, 5, 7 and 8
    Row {
        premises: &["ear_decomposition_law: `goes_on`: conformal"],
        without: &["ear_decomposition_law.goes_on: IsConformal"],
        graph: "the graph with the edges 13, 14, 25, 35, 45, 26, 36, 46",
        given: UNCONFORMAL,
        holds: &[
            Is(&[Loopless, Covered]),
            Edges(Stage, &[4, 5, 7, 8]),
            Lead(Steps::Double, &[1]),
        ],
        fails: &[
            Edges(Conformal, &[4, 5, 7, 8]),
            Lead(Steps::Double, &[4, 5, 7, 8]),
        ],
    },
    // the cycle 1 2 4 3 has the edges 1, 2, 5 and 6
    Row {
        premises: &["ear_decomposition_law: `goes_on`: bipartite, for single ears"],
        without: &["ear_decomposition_law.goes_on: IsBipartite"],
        graph: "K4 and a 4-cycle",
        given: K4,
        holds: &[
            Is(&[Loopless, Covered]),
            Edges(Stage, &[1, 2, 5, 6]),
            Edges(Conformal, &[1, 2, 5, 6]),
            Lead(Steps::Double, &[1, 2, 5, 6]),
        ],
        fails: &[Is(&[Bipartite]), Lead(Steps::Single, &[1, 2, 5, 6])],
    },
    // the edge is all edges, so that no step is wanted
    Row {
        premises: &[
            "ear_decomposition_law: `conformal`: matching covered",
            "ear_count_law: `covered`: matching covered",
        ],
        without: &[
            "ear_decomposition_law.conformal: IsCovered",
            "ear_count_law.covered: IsCovered",
        ],
        graph: "an edge and an isolated vertex",
        given: EDGE_AND_VERTEX,
        holds: &[Is(&[Loopless]), Lead(Steps::Double, &[1])],
        fails: &[Is(&[Covered]), Edges(Conformal, &[1]), EarCount(0)],
    },
];

static PAIRS: [Row; 3] = [
    // the two ears lead to all edges, so that the three are an ear decomposition
    Row {
        premises: &[
            "ear_decomposition_law: `disjoint`, `lists`: neither ear alone keeps the stage matching covered",
        ],
        without: &[
            "ear_decomposition_law.disjoint: IsNeeded",
            "ear_decomposition_law.lists: IsUnrefinable",
        ],
        graph: "one edge of three parallel edges, and the two others as ears",
        given: THREE_PARALLEL,
        holds: &[
            Is(&[Loopless]),
            Edges(Stage, &[1]),
            TwoEars(&[1], &[2], &[3]),
            Edges(Stage, &[1, 2, 3]),
        ],
        fails: &[Needed(&[1], &[2], &[3]), Apart(&[2], &[3])],
    },
    Row {
        premises: &["ear_decomposition_law: `disjoint`: the next stage is matching covered"],
        without: &["ear_decomposition_law.disjoint: IsStage g (next_stage f s)"],
        graph: "the hexagon 1 2 3 4 5 6 and the ears 13 and 15",
        given: CHORDED_HEXAGON,
        holds: &[
            Is(&[Loopless]),
            Edges(Stage, &[1, 2, 3, 4, 5, 6]),
            TwoEars(&[1, 2, 3, 4, 5, 6], &[7], &[8]),
            Needed(&[1, 2, 3, 4, 5, 6], &[7], &[8]),
        ],
        fails: &[Edges(Stage, &[1, 2, 3, 4, 5, 6, 7, 8]), Apart(&[7], &[8])],
    },
    // 14 and 24 are the edges 3 and 5
    Row {
        premises: &["ear_decomposition_law: `disjoint`: H is matching covered"],
        without: &["ear_decomposition_law.disjoint: IsStage g f"],
        graph: "in K4, the subgraph with the edges 12, 13, 23, 34 and the ears 14 and 24",
        given: K4,
        holds: &[
            Is(&[Loopless]),
            TwoEars(&[1, 2, 4, 6], &[3], &[5]),
            Needed(&[1, 2, 4, 6], &[3], &[5]),
            Edges(Stage, &[1, 2, 3, 4, 5, 6]),
        ],
        fails: &[Edges(Stage, &[1, 2, 4, 6]), Apart(&[3], &[5])],
    },
];

static EARS: [Row; 4] = [
    Row {
        premises: &["two_ear_lemmas_law: `pairs`, `edges`: at least one pair or edge"],
        without: &[
            "two_ear_lemmas_law.pairs: ps ≢ []",
            "two_ear_lemmas_law.edges: ps ≢ []",
        ],
        graph: "K2 and the empty list",
        given: K2,
        holds: &[Is(&[Covered]), Set(&[Perfect], &[]), OneOrTwo(&[(1, 2)])],
        fails: &[OneOrTwo(&[])],
    },
    Row {
        premises: &["two_ear_lemmas_law: `sides`: A is a side"],
        without: &["two_ear_lemmas_law.sides: IsSide"],
        graph: "the hexagon with A = {1}",
        given: HEXAGON,
        holds: &[Is(&[Covered])],
        fails: &[Set(&[Side], &[1]), Set(&[Perfect], &[1, 3])],
    },
    Row {
        premises: &["bipartite_ear_law: opposite sides"],
        without: &[
            "bipartite_ear_law.covered: a (last_vertex g v es) ≡ not (a v)",
            "bipartite_ear_law.bipartite: a (last_vertex g v es) ≡ not (a v)",
        ],
        graph: "the 4-cycle with the edge 13",
        given: CHORDED_CYCLE,
        holds: &[
            Edges(Stage, &[1, 2, 3, 4]),
            CutSize(&[1, 3], 4),
            Ear(&[1, 2, 3, 4], &[5]),
        ],
        fails: &[
            Set(&[Side], &[1, 3]),
            Is(&[Bipartite]),
            Edges(Stage, &[1, 2, 3, 4, 5]),
        ],
    },
    Row {
        premises: &["bipartite_ear_law: bipartite"],
        without: &[
            "bipartite_ear_law.covered: in_cut g a e ≡ true",
            "bipartite_ear_law.bipartite: in_cut g a e ≡ true",
        ],
        graph: "the graph with the triangle abc and the edges uv, uw, va, wb, wc",
        given: TRIANGLE_WITH_EAR,
        holds: &[
            Edges(Stage, &[1, 2, 3, 4, 5, 6, 7, 8]),
            Ear(&[1, 2, 3, 4, 5, 6, 7, 8], &[9]),
        ],
        fails: &[Is(&[Bipartite]), Edges(Stage, &[1, 2, 3, 4, 5, 6, 7, 8, 9])],
    },
];

static REPORTS: [Row; 2] = [
    // the rules of `check` ask for an odd, nontrivial, tight shore; a derivation for one without 6
    Row {
        premises: &[
            "report_exists_law: `check`, `replay`, `compare`, `script`: shores without the highest-numbered vertex",
        ],
        without: &[
            "report_exists_law.check: HasShores",
            "report_exists_law.replay: HasShores",
            "report_exists_law.compare: HasShores",
            "report_exists_law.script: HasShores",
        ],
        graph: "a tree for the hexagon with the shore {4, 5, 6}",
        given: HEXAGON,
        holds: &[
            Is(&[Loopless, Covered]),
            Set(&[Tight, Nontrivial], &[4, 5, 6]),
            Set(&[Canonical], &[1, 2, 3]),
        ],
        fails: &[Set(&[Canonical], &[4, 5, 6])],
    },
    Row {
        premises: &["report_exists_law: `check_ears`: the first edge is an edge of the graph"],
        without: &["report_exists_law.check_ears: Within (size named.graph) list.start"],
        graph: "K2 with the first edge 2",
        given: K2,
        holds: &[Is(&[Loopless, Covered]), Number(Size, 1)],
        fails: &[Number(Size, 2)],
    },
];

#[test]
fn premises_on_ear_lists(rt: HostRuntime) -> Result<(), Fail> {
    all_are_so(rt.alloc(), &LISTS)
}

#[test]
fn premises_on_ear_decompositions(rt: HostRuntime) -> Result<(), Fail> {
    all_are_so(rt.alloc(), &STAGES)
}

#[test]
fn premises_on_two_ears(rt: HostRuntime) -> Result<(), Fail> {
    all_are_so(rt.alloc(), &PAIRS)
}

#[test]
fn premises_on_ears(rt: HostRuntime) -> Result<(), Fail> {
    all_are_so(rt.alloc(), &EARS)
}

#[test]
fn premises_on_reports(rt: HostRuntime) -> Result<(), Fail> {
    all_are_so(rt.alloc(), &REPORTS)
}
