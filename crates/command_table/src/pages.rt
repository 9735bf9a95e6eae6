//! The page of each command of `mcg`, which `mcg COMMAND --help` writes.
ghost use Rattle.std.specs.Prelude.{◌≡◌};
ghost use Rattle.std.specs.Option.{option_map};
ghost use Rattle.command_table.specs.Pages.{page_of};

/// The page of `analyse`.
pub const ANALYSE: &str = "  analyse FILE                 the structure of the graph in FILE

FILE is a graph file: p mcg N M and M lines e A B, or p mcg2 N M with names.
The report has the numbers of vertices, edges and components, the size of a maximum
matching, the Gallai-Edmonds sets D, A and C, the allowed edges, and whether the graph
is matching covered. If it is, the report also has the canonical partition, whether the
graph is bicritical, its first 2-vertex cut, and its kind: brick, brace or composite.

Example: mcg analyse examples/two_k4.mcg
";

/// The page of `convert`.
pub const CONVERT: &str =
    "  convert FILE                 the graph in canonical form, with names for the vertices

FILE is a graph file: p mcg N M and M lines e A B, or p mcg2 N M with names.
The report is the same graph in the form p mcg2 N M. Vertices without names become v1,
v2 and so on. Vertices and edges keep their order.

Example: mcg convert examples/k4.mcg >k4_named.mcg
";

/// The page of `analyse6`.
pub const ANALYSE6: &str =
    "  analyse6 FILE                what analyse reports, for a graph in graph6

FILE holds one graph in graph6, on one line. For lists of graphs there is mcg6.
The report is that of analyse, and then the graph6 text.

Example: mcg analyse6 examples/petersen.g6
";

/// The page of `decompose`.
pub const DECOMPOSE: &str =
    "  decompose FILE ORDER         a tight cut decomposition into bricks and braces
  decompose FILE script PICKS  the same, with cuts chosen by PICKS

FILE is a graph file. ORDER is first, last or balanced, and says which of the nontrivial
tight cuts that the search finds is taken. PICKS is a file s mcg K with K lines pick P,
where P is the number of the cut to take, counted from 0.
The report is a tree of cuts, t mcg N, which check and compare read. A graph that is not
matching covered has none: the report says why, and the status is 1.

Example: mcg decompose examples/two_k4.mcg first >two_k4.tree
";

/// The page of `check`.
pub const CHECK: &str =
    "  check FILE TREE              whether TREE is a tight cut decomposition of the graph

FILE is a graph file, and TREE a tree of cuts, t mcg N, as decompose writes it.
The report is the line accepted with the numbers of leaves, bricks and braces; or it
names the first node with an error and the reason, and the status is 1.

Example: mcg check examples/two_k4.mcg examples/two_k4_first.tree
";

/// The page of `checkears`.
pub const CHECKEARS: &str =
    "  checkears FILE EARS          whether EARS is an ear decomposition of the graph

FILE is a graph file, and EARS an ear decomposition, r mcg N M, as ears writes it.
The report is the line accepted with the numbers of steps; or it names the first step
with an error and the reason, and the status is 1.

Example: mcg ears examples/k4.mcg | mcg checkears examples/k4.mcg /dev/stdin
";

/// The page of `ears`.
pub const EARS: &str = "  ears FILE                    an ear decomposition of the graph

FILE is a graph file.
The report is an ear decomposition, r mcg N M, which checkears reads. A graph that is
not matching covered has none: the report says why, and the status is 1.

Example: mcg ears examples/k4.mcg
";

/// The page of `compare`.
pub const COMPARE: &str =
    "  compare FILE TREE1 TREE2     a pairing of the leaves of two decompositions, with moves

FILE is a graph file, and TREE1 and TREE2 are trees of cuts, t mcg N, as decompose
writes them.
The report lists moves that turn the first tree into the second, and pairs the leaves of
the two, each pair with an isomorphism. If a tree is not a decomposition, the report
names its first error, and the status is 1.

Example: mcg compare examples/two_k4.mcg examples/two_k4_first.tree examples/two_k4_last.tree
";

/// The page of `script`.
pub const SCRIPT: &str = "  script FILE TREE1 TREE2      the moves that compare lists, as a file

FILE is a graph file, and TREE1 and TREE2 are trees of cuts, t mcg N, as decompose
writes them.
The report is the file of moves, m mcg N, that replay reads. If a tree is not a
decomposition, the report names its first error, and the status is 1.

Example: mcg script examples/two_k4.mcg examples/two_k4_first.tree examples/two_k4_last.tree
";

/// The page of `replay`.
pub const REPLAY: &str =
    "  replay FILE TREE MOVES       the decomposition that the moves turn TREE into

FILE is a graph file, TREE a tree of cuts, t mcg N, as decompose writes it, and MOVES a
file of moves, m mcg N, as script writes it.
The report is the last tree. If a move fails, the report names it, and the status is 1.

Example: mcg replay examples/two_k4.mcg examples/two_k4_first.tree examples/two_k4.moves
";

/// The page of `grow`.
pub const GROW: &str = "  grow SEED PIECES             a pseudo-random matching covered cubic graph

SEED, 0 to 999999999, determines the choices. PIECES, 1 to 16, is the number of small
cubic graphs that are spliced together. No file is read.
The report is a graph file.

Example: mcg grow 7 4 >graph.mcg
";

/// The page of a command of `mcg`: its lines of the usage, its arguments and files, its report,
/// and an example. Nothing if there is no such command. Takes no memory.
pub fn page(command: &str) -> Option<&'static str>
    ensures { option_map (λ text. text.now) result ≡ page_of command.now }
{
    match command {
        "analyse" => Some(ANALYSE),
        "convert" => Some(CONVERT),
        "analyse6" => Some(ANALYSE6),
        "decompose" => Some(DECOMPOSE),
        "check" => Some(CHECK),
        "checkears" => Some(CHECKEARS),
        "ears" => Some(EARS),
        "compare" => Some(COMPARE),
        "script" => Some(SCRIPT),
        "replay" => Some(REPLAY),
        "grow" => Some(GROW),
        _ => None,
    }
}
