//! The page of each command of `mcg6`, which `mcg6 COMMAND --help` writes.
ghost use Rattle.std.specs.Prelude.{◌≡◌};
ghost use Rattle.std.specs.Option.{option_map};
ghost use Rattle.command_table.specs.Pages.{list_page_of};

/// The page of `kinds`.
pub const KINDS: &str =
    "  kinds [skip] [FILE]          a line for each graph: its kind, its bricks and its braces

The list has a graph in graph6 on each line, and is FILE or, without it, standard input.
With skip, bad lines are left out and named at the end; the status is then 4.
A line begins with the graph6 text and the numbers of vertices and edges. For a matching
covered graph it goes on with the kind (brick, brace or composite), the numbers of
bricks and braces, and whether the graph is bicritical; for any other with uncovered,
the reason and the deficiency.

Example: mcg6 kinds examples/small.g6
";

/// The page of `leaves`.
pub const LEAVES: &str =
    "  leaves [ORDER] [skip] [FILE] a line for each leaf of a decomposition, as a graph

The list has a graph in graph6 on each line, and is FILE or, without it, standard input.
With skip, bad lines are left out and named at the end; the status is then 4.
ORDER is first, last or balanced, as for mcg decompose; without it, first.
A line has the number of the graph's line, its graph6 text, the graph6 text of the leaf,
and the kind of the leaf. Graphs that are not matching covered have no lines.

Example: mcg6 leaves last examples/two_k4.g6
";

/// The page of `elementary`.
pub const ELEMENTARY: &str =
    "  elementary [skip] [FILE]     a line for each elementary component, as a graph

The list has a graph in graph6 on each line, and is FILE or, without it, standard input.
With skip, bad lines are left out and named at the end; the status is then 4.
The elementary components are the components of the subgraph of the allowed edges, those
in perfect matchings. A line has the number of the graph's line, the graph6 text of the
component, and its vertices in the graph. Graphs without a perfect matching have no lines.

Example: mcg6 elementary examples/small.g6
";

/// The page of `matching`.
pub const MATCHING: &str =
    "  matching [skip] [FILE]       a line for each graph: a maximum matching, and D, A and C

The list has a graph in graph6 on each line, and is FILE or, without it, standard input.
With skip, bad lines are left out and named at the end; the status is then 4.
A line has the graph6 text, the number of edges of a maximum matching, these edges as
A-B, and the Gallai-Edmonds sets: D and its vertices, A and its vertices, C and its
vertices. G - A has more odd components than A has vertices, by as many as the matching
misses, so no matching is larger. Any maximum matching may be written.

Example: mcg6 matching examples/small.g6
";

/// The page of `cuts`.
pub const CUTS: &str =
    "  cuts [skip] [FILE]           a line for each tight cut that decompose may take first

The list has a graph in graph6 on each line, and is FILE or, without it, standard input.
With skip, bad lines are left out and named at the end; the status is then 4.
A line has the number of the graph's line, its graph6 text, barrier, separation or flow,
and the shore of a nontrivial tight cut. The lines of a graph are in the order in which
a file of picks numbers them, from 0. Each edge of each nontrivial tight cut is in the
cut of some line, so bricks and braces have no line. Graphs that are not matching
covered have no lines.

Example: mcg6 cuts examples/two_k4.g6
";

/// The page of `ears`.
pub const EARS: &str = "  ears [skip] [FILE]           a line for each graph: an ear decomposition

The list has a graph in graph6 on each line, and is FILE or, without it, standard input.
With skip, bad lines are left out and named at the end; the status is then 4.
A line has the number of the graph's line, its graph6 text, the numbers of steps with one
ear and with two, the first edge as A-B, and the steps. An ear is its vertices joined by
hyphens; the two ears of a step are joined by +. A step has two ears only where no ear
decomposition continues with a single ear. Any such ear decomposition may be written.
Graphs that are not matching covered have no lines.

Example: mcg6 ears examples/small.g6
";

/// The page of `graph`.
pub const GRAPH: &str = "  graph [FILE]                 the graph file of one graph, for mcg

The list has one graph in graph6, and is FILE or, without it, standard input.
The output is a graph file: p mcg N M and M lines e A B, or p mcg2 N M with names for a
graph with more than 64 vertices or 512 edges.

Example: mcg6 graph examples/two_k4.g6 >graph.mcg
";

/// The page of `select`.
pub const SELECT: &str = "  select WHAT [skip] [FILE]    the lines whose graph has a property

The list has a graph in graph6 on each line, and is FILE or, without it, standard input.
With skip, bad lines are left out and named at the end; the status is then 4.
WHAT is covered, uncovered, perfect (the graph has a perfect matching), brick, brace,
bicritical, composite, or a number of bricks or braces, as bricks=2 or braces=0.
The output has the lines of these graphs, as they are.

Example: mcg6 select brick examples/small.g6
";

/// The page of `encode`.
pub const ENCODE: &str =
    "  encode FILE                  the graph6 text of a graph file; parallel edges count once

FILE is a graph file: p mcg N M and M lines e A B, or p mcg2 N M with names.
The output is one line: the graph6 text of the underlying simple graph. Names are
dropped, and parallel edges become one.

Example: mcg6 encode examples/petersen.mcg
";

/// The page of a command of `mcg6`: its line of the usage, its arguments and files, its output,
/// and an example. Nothing if there is no such command. Takes no memory.
pub fn list_page(command: &str) -> Option<&'static str>
    ensures { option_map (λ text. text.now) result ≡ list_page_of command.now }
{
    match command {
        "kinds" => Some(KINDS),
        "leaves" => Some(LEAVES),
        "elementary" => Some(ELEMENTARY),
        "matching" => Some(MATCHING),
        "cuts" => Some(CUTS),
        "ears" => Some(EARS),
        "graph" => Some(GRAPH),
        "select" => Some(SELECT),
        "encode" => Some(ENCODE),
        _ => None,
    }
}
