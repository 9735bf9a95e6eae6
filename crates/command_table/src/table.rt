//! The tables of commands, and the usage of each program.
ghost use Rattle.std.specs.Prelude.{◌≡◌, map};
ghost use Rattle.command_table.specs.RowsSeen.{row_seen};
ghost use Rattle.command_table.specs.Table.{list_rows, list_usage_text, rows, usage_text};

use crate::rows::{Row, RowWord};

/// The table of `mcg`.
static ROWS: [Row; 12] = [
    Row {
        command: "analyse",
        words: &[RowWord::File("FILE", "a FILE")],
        optional: &[],
        line: "  analyse FILE                 the structure of the graph in FILE\n",
    },
    Row {
        command: "convert",
        words: &[RowWord::File("FILE", "a FILE")],
        optional: &[],
        line: "  convert FILE                 the graph in canonical form, with names for the vertices\n",
    },
    Row {
        command: "analyse6",
        words: &[RowWord::File("FILE", "a FILE")],
        optional: &[],
        line: "  analyse6 FILE                what analyse reports, for a graph in graph6\n",
    },
    Row {
        command: "decompose",
        words: &[
            RowWord::File("FILE", "a FILE"),
            RowWord::OneOf(
                "ORDER",
                &["first", "last", "balanced"],
                &[],
                "ORDER is first, last or balanced",
                "an ORDER after FILE: first, last, balanced, or script PICKS",
            ),
        ],
        optional: &[],
        line: "  decompose FILE ORDER         a tight cut decomposition into bricks and braces\n",
    },
    Row {
        command: "decompose",
        words: &[
            RowWord::File("FILE", "a FILE"),
            RowWord::Literal("script"),
            RowWord::File("PICKS", "a file PICKS after script"),
        ],
        optional: &[],
        line: "  decompose FILE script PICKS  the same, with cuts chosen by PICKS\n",
    },
    Row {
        command: "check",
        words: &[
            RowWord::File("FILE", "a FILE"),
            RowWord::File("TREE", "a file TREE after FILE"),
        ],
        optional: &[],
        line: "  check FILE TREE              whether TREE is a tight cut decomposition of the graph\n",
    },
    Row {
        command: "checkears",
        words: &[
            RowWord::File("FILE", "a FILE"),
            RowWord::File("EARS", "a file EARS after FILE"),
        ],
        optional: &[],
        line: "  checkears FILE EARS          whether EARS is an ear decomposition of the graph\n",
    },
    Row {
        command: "ears",
        words: &[RowWord::File("FILE", "a FILE")],
        optional: &[],
        line: "  ears FILE                    an ear decomposition of the graph\n",
    },
    Row {
        command: "compare",
        words: &[
            RowWord::File("FILE", "a FILE"),
            RowWord::File("TREE1", "a file TREE1 after FILE"),
            RowWord::File("TREE2", "a file TREE2 after TREE1"),
        ],
        optional: &[],
        line: "  compare FILE TREE1 TREE2     a pairing of the leaves of two decompositions, with moves\n",
    },
    Row {
        command: "script",
        words: &[
            RowWord::File("FILE", "a FILE"),
            RowWord::File("TREE1", "a file TREE1 after FILE"),
            RowWord::File("TREE2", "a file TREE2 after TREE1"),
        ],
        optional: &[],
        line: "  script FILE TREE1 TREE2      the moves that compare lists, as a file\n",
    },
    Row {
        command: "replay",
        words: &[
            RowWord::File("FILE", "a FILE"),
            RowWord::File("TREE", "a file TREE after FILE"),
            RowWord::File("MOVES", "a file MOVES after TREE"),
        ],
        optional: &[],
        line: "  replay FILE TREE MOVES       the decomposition that the moves turn TREE into\n",
    },
    Row {
        command: "grow",
        words: &[
            RowWord::Number(
                "SEED",
                0,
                999_999_999,
                "SEED is 0 to 999999999",
                "a SEED and PIECES",
            ),
            RowWord::Number(
                "PIECES",
                1,
                16,
                "PIECES is 1 to 16",
                "PIECES after SEED, 1 to 16",
            ),
        ],
        optional: &[],
        line: "  grow SEED PIECES             a pseudo-random matching covered cubic graph\n",
    },
];

/// The table of `mcg6`.
static LIST_ROWS: [Row; 9] = [
    Row {
        command: "kinds",
        words: &[],
        optional: &[RowWord::Literal("skip"), RowWord::File("FILE", "a FILE")],
        line: "  kinds [skip] [FILE]          a line for each graph: its kind, its bricks and its braces\n",
    },
    Row {
        command: "leaves",
        words: &[],
        optional: &[
            RowWord::OneOf(
                "ORDER",
                &["first", "last", "balanced"],
                &[],
                "ORDER is first, last or balanced",
                "an ORDER",
            ),
            RowWord::Literal("skip"),
            RowWord::File("FILE", "a FILE"),
        ],
        line: "  leaves [ORDER] [skip] [FILE] a line for each leaf of a decomposition, as a graph\n",
    },
    Row {
        command: "elementary",
        words: &[],
        optional: &[RowWord::Literal("skip"), RowWord::File("FILE", "a FILE")],
        line: "  elementary [skip] [FILE]     a line for each elementary component, as a graph\n",
    },
    Row {
        command: "matching",
        words: &[],
        optional: &[RowWord::Literal("skip"), RowWord::File("FILE", "a FILE")],
        line: "  matching [skip] [FILE]       a line for each graph: a maximum matching, and D, A and C\n",
    },
    Row {
        command: "cuts",
        words: &[],
        optional: &[RowWord::Literal("skip"), RowWord::File("FILE", "a FILE")],
        line: "  cuts [skip] [FILE]           a line for each tight cut that decompose may take first\n",
    },
    Row {
        command: "ears",
        words: &[],
        optional: &[RowWord::Literal("skip"), RowWord::File("FILE", "a FILE")],
        line: "  ears [skip] [FILE]           a line for each graph: an ear decomposition\n",
    },
    Row {
        command: "graph",
        words: &[],
        optional: &[RowWord::File("FILE", "a FILE")],
        line: "  graph [FILE]                 the graph file of one graph, for mcg\n",
    },
    Row {
        command: "select",
        words: &[RowWord::OneOf(
            "WHAT",
            &[
                "covered",
                "uncovered",
                "perfect",
                "brick",
                "brace",
                "bicritical",
                "composite",
            ],
            &["bricks=", "braces="],
            "WHAT is covered, uncovered, perfect, brick, brace, bicritical, composite, bricks=K or braces=K",
            "WHAT: covered, uncovered, perfect, brick, brace, bicritical, composite, bricks=K or braces=K",
        )],
        optional: &[RowWord::Literal("skip"), RowWord::File("FILE", "a FILE")],
        line: "  select WHAT [skip] [FILE]    the lines whose graph has a property\n",
    },
    Row {
        command: "encode",
        words: &[RowWord::File("FILE", "a FILE")],
        optional: &[],
        line: "  encode FILE                  the graph6 text of a graph file; parallel edges count once\n",
    },
];

/// The usage: how the program is called, and the table of commands, each with what it is for. A
/// word in capitals stands for another.
const USAGE: &str = "usage: mcg COMMAND ARGUMENT...
  analyse FILE                 the structure of the graph in FILE
  convert FILE                 the graph in canonical form, with names for the vertices
  analyse6 FILE                what analyse reports, for a graph in graph6
  decompose FILE ORDER         a tight cut decomposition into bricks and braces
  decompose FILE script PICKS  the same, with cuts chosen by PICKS
  check FILE TREE              whether TREE is a tight cut decomposition of the graph
  checkears FILE EARS          whether EARS is an ear decomposition of the graph
  ears FILE                    an ear decomposition of the graph
  compare FILE TREE1 TREE2     a pairing of the leaves of two decompositions, with moves
  script FILE TREE1 TREE2      the moves that compare lists, as a file
  replay FILE TREE MOVES       the decomposition that the moves turn TREE into
  grow SEED PIECES             a pseudo-random matching covered cubic graph
ORDER is first, last or balanced
SEED is 0 to 999999999
PIECES is 1 to 16
A file may be a pipe, such as /dev/stdin. FORMATS.md describes the formats and reports.
";

/// The usage of the program for lists. A word in brackets may be left out.
const LIST_USAGE: &str = "usage: mcg6 COMMAND [ARGUMENT]... <LIST
  kinds [skip] [FILE]          a line for each graph: its kind, its bricks and its braces
  leaves [ORDER] [skip] [FILE] a line for each leaf of a decomposition, as a graph
  elementary [skip] [FILE]     a line for each elementary component, as a graph
  matching [skip] [FILE]       a line for each graph: a maximum matching, and D, A and C
  cuts [skip] [FILE]           a line for each tight cut that decompose may take first
  ears [skip] [FILE]           a line for each graph: an ear decomposition
  graph [FILE]                 the graph file of one graph, for mcg
  select WHAT [skip] [FILE]    the lines whose graph has a property
  encode FILE                  the graph6 text of a graph file; parallel edges count once
ORDER is first, last or balanced
WHAT is covered, uncovered, perfect, brick, brace, bicritical, composite, bricks=K or braces=K
The list is standard input or FILE, with a graph in graph6 on each line.
With skip, bad lines are left out and named on standard error.
FORMATS.md describes the lines that mcg6 writes.
";

/// The rows of the table of `mcg`. Takes no memory.
pub fn all_rows() -> &'static [Row]
    ensures { map row_seen result.now ≡ rows }
{
    &ROWS
}

/// The rows of the table of `mcg6`. Takes no memory.
pub fn all_list_rows() -> &'static [Row]
    ensures { map row_seen result.now ≡ list_rows }
{
    &LIST_ROWS
}

/// The usage. Takes no memory.
pub fn usage() -> &'static str
    ensures { result.now ≡ usage_text }
{
    USAGE
}

/// The usage of the program for lists. Takes no memory.
pub fn list_usage() -> &'static str
    ensures { result.now ≡ list_usage_text }
{
    LIST_USAGE
}
