//! The texts of the messages.
//!
//! Each is one printable line (`texts_law`), and stands here alone: code and definitions cite it by
//! its name. What a message joins to them, as a colon, a number or a line feed, stands with the
//! message.

// Faults in a text of lines, by their kinds.
pub const FAULT_HEADER: &str = "missing or wrong header";

pub const FAULT_WORD: &str = "wrong first word, or wrong number of words";

pub const FAULT_NUMBER: &str = "expected a number";

pub const FAULT_RANGE: &str = "a vertex or edge number is 0 or too large";

pub const FAULT_LOOP: &str = "the two ends of an edge are equal";

pub const FAULT_LIMIT: &str = "a limit is exceeded";

pub const FAULT_MISSING: &str = "unexpected end of file";

pub const FAULT_EXTRA: &str = "unexpected line after the end";

pub const FAULT_NOT_RISING: &str = "numbers not in increasing order";

pub const FAULT_HAS_GREATEST: &str = "a shore contains the highest-numbered vertex";

pub const FAULT_UNNAMED: &str = "expected the name of a vertex";

pub const FAULT_SAME_NAME: &str = "a name is given twice";

pub const FAULT_BAD_NAME: &str = "invalid name: use 1 to 16 letters, digits, _, - or .";

// Faults in a graph6 text, by their kinds.
pub const GRAPH6_RANGE: &str = "not graph6: a byte is outside the range 63-126";

pub const GRAPH6_LIMIT: &str = "more than 128 vertices or 2,048 edges";

pub const GRAPH6_MISSING: &str = "the text ends before the graph does";

pub const GRAPH6_EXTRA: &str = "more than one graph, or bytes after its end";

pub const GRAPH6_PADDING: &str = "a padding bit is set";

pub const GRAPH6_LONG_FORM: &str = "a size up to 62 is written in four bytes";

// A fault of a kind that the format does not have.
pub const FAULT_OTHER: &str = "a fault of another kind";

// The headers of the formats.
pub const HEADER_GRAPH: &str =
    " (expected `p mcg N M` or `p mcg2 N M`; mcg6 graph makes a graph file from graph6)";

pub const HEADER_TREE: &str = " (expected `t mcg N`, with the N of the graph)";

pub const HEADER_PICKS: &str = " (expected `s mcg K`)";

pub const HEADER_EARS: &str = " (expected `r mcg N M`, with the N and M of the graph)";

pub const HEADER_MOVES: &str = " (expected `m mcg N`, with the N of the graph)";

// The headers that are due, before the numbers of the graph.
pub const DUE_TREE: &str = " (expected `t mcg ";

pub const DUE_EARS: &str = " (expected `r mcg ";

pub const DUE_MOVES: &str = " (expected `m mcg ";

// The limits of the formats.
pub const LIMIT_GRAPH: &str = " (p mcg: 64 vertices, 512 edges; p mcg2: 128 and 2,048)";

pub const LIMIT_TREE: &str = " (127 nodes)";

pub const LIMIT_PICKS: &str = " (127 picks)";

pub const LIMIT_MOVES: &str = " (20,000 moves)";

// What reads a file that is not one graph in graph6, and what to write for a shore.
pub const READER_GRAPH6: &str = " (mcg6 reads lists, analyse the format of mcg)";

pub const SHORE_PLAIN: &str = " (write the other shore of this cut)";

pub const SHORE_OTHER: &str = " (write the other shore: cut";

// What a text is that does not begin as it should.
pub const BEGINS_MARKED: &str = " (it begins with a byte order mark; save it without one)";

pub const BEGINS_UTF16: &str = " (it looks like UTF-16; save it as UTF-8)";

pub const BEGINS_GZIP: &str = " (it looks like a gzip file; zcat reads it)";

pub const BEGINS_SPARSE6: &str = " (it looks like sparse6; copyg -g converts it to graph6)";

pub const BEGINS_DIGRAPH6: &str = " (it looks like digraph6; only undirected graphs are read)";

pub const BEGINS_PLANAR: &str = " (it looks like planar_code; plantri -g writes graph6 instead)";

pub const BEGINS_GRAPH: &str = " (it looks like a graph file; mcg6 encode converts it to graph6)";

pub const BEGINS_GRAPH6: &str =
    " (it looks like graph6; mcg6 graph makes a graph file of it, and mcg analyse6 reads it)";

pub const GRAPH_FOR_TREE: &str =
    " (this is a graph file; mcg decompose makes a decomposition of one)";

pub const GRAPH_FOR_EARS: &str =
    " (this is a graph file; mcg ears makes an ear decomposition of one)";

pub const GRAPH_FIRST: &str = " (this is a graph file, which comes first)";

// Why a file could not be read.
pub const READ_ABSENT: &str = "there is no such file";

pub const READ_DANGLING: &str = "it is a link to a file that does not exist";

pub const READ_FOLDER: &str = "it is a folder";

pub const READ_NOT_IN_FOLDER: &str = "part of its path is not a folder";

pub const READ_FORBIDDEN: &str = "no permission to read it";

pub const READ_LONG_NAME: &str = "its name is too long";

pub const READ_LINK_LOOP: &str = "its symbolic links form a loop";

pub const READ_SOCKET: &str = "it is a socket, or a device that does not exist";

pub const READ_MANY_OPEN: &str = "too many files are open";

pub const READ_NO_MEMORY: &str = "the system is out of memory";

pub const READ_OTHER: &str = "a read of it failed";

// Files and their lines.
pub const CANNOT_READ: &str = ": cannot read ";

pub const CANNOT_READ_INPUT: &str = ": cannot read standard input: ";

pub const DASH_FILE: &str = " (for standard input write /dev/stdin)";

pub const DASH_LIST: &str = " (for standard input leave the name out)";

pub const FILE_TOO_LONG: &str = ": it has more than 1,048,576 bytes, the most that a file may have";

pub const IN_LINE: &str = ", line ";

pub const LINE: &str = ": line ";

pub const LINE_IS: &str = " is: ";

pub const LINE_EMPTY: &str =
    "is empty (to_graph6_bytes of NetworkX ends its line already, so print adds an empty one)";

// Lists of graphs.
pub const KIND: &str = " kind ";

pub const THE_LINE: &str = ": the line ";

pub const LIST_ENDS: &str = "the list ends before a graph";

pub const LINE_TOO_LONG: &str =
    "it has more than 65,536 bytes, the most that a line of a list may have";

// Arguments, and wrong command lines.
pub const ARGUMENT: &str = ": argument ";

pub const NOT_UTF8: &str = " is not UTF-8: ";

pub const NO_COMMAND: &str = ": no command ";

pub const HELP_LISTS: &str = " --help lists them";

pub const TOO_MANY: &str = ": too many arguments for ";

pub const NEEDS: &str = " needs ";

pub const EXCHANGED: &str = ": the two arguments seem to be exchanged";

pub const HELP_TAKES: &str = ": help takes the name of a command; ";

pub const ONE_COMMAND: &str = "; it takes at most one command";

// Output that could not be written, and memory that ran out.
pub const LOST: &str = ": the output could not be written whole";

pub const NOTHING_WRITTEN: &str = ": memory ran out; nothing was written";

pub const FIRST_LINES: &str = ": memory ran out; only the results for the first lines were written";

// A graph that is not matching covered, and why.
pub const NOT_COVERED: &str = ": the graph is not matching covered: ";

pub const COVER_SMALL: &str = "it has fewer than two vertices";

pub const COVER_PARTED: &str = "it is disconnected, as no path leads from vertex ";

pub const COVER_PARTED_TO: &str = " to vertex ";

pub const COVER_PARTED_END: &str = " (take one component)";

pub const COVER_UNMATCHED: &str =
    "it has no perfect matching: deleting the vertices shown leaves more odd components than \
    vertices deleted";

pub const COVER_EDGE: &str = "edge ";

pub const COVER_EDGE_END: &str =
    " is in no perfect matching (leave out such edges: analyse lists the others as allowed)";

// A tree that is not a tight cut decomposition: where, why, and what would be right.
pub const TREE: &str = ": tree ";

pub const TREE_AT: &str = " is not a tight cut decomposition; at node ";

pub const MOVE: &str = ": move ";

pub const MOVED_AT: &str = " makes a tree that is not a tight cut decomposition; at its node ";

pub const PREORDER: &str = " (in preorder";

pub const PATH: &str = "; path ";

pub const SHORE: &str = ", shore";

pub const NODE_NOT_BLOCKS: &str =
    "its shore is not a union of blocks, as it splits a set that a cut above it contracted";

pub const NODE_EVEN: &str = "its shore has an even number of blocks, so its cut is not tight";

pub const NODE_TRIVIAL: &str =
    "one of its two shores has fewer than three blocks, so its cut is trivial";

pub const NODE_NOT_TIGHT: &str =
    "its cut is not tight, as it contains at least three edges of the perfect matching shown";

pub const NODE_NOT_LEAF: &str =
    "it is a leaf, but the cut of the shore shown is nontrivial and tight there";

pub const WRITE_BLOCKS: &str = " (write whole blocks)";

pub const OTHER_CUT: &str = " (take another cut)";

pub const MAKE_LEAF: &str = " (make it a leaf, or take another cut)";

pub const CUT_FURTHER: &str = " (cut further, along this cut for instance)";

pub const OTHER_MOVE: &str = " (take another move)";

// A move that has no result, and why.
pub const NO_RESULT: &str = " has no result: ";

pub const STUCK_NO_CUT: &str =
    "its path does not lead to a cut that it can change (rotate needs a cut below the root)";

pub const STUCK_CROSSING: &str =
    "the shore of its cut crosses that of the cut above (rotate another cut)";

pub const STUCK_NOT_PARTS: &str =
    "its sets must be nonempty proper subsets of the shore and of its complement";

// A list that is not an ear decomposition: where, why, and what would be right.
pub const EARS_AT: &str = ": the list is not an ear decomposition; at step ";

pub const EARS_BEFORE: &str = ": the list is not an ear decomposition; before its first step: ";

pub const FIRST_EAR: &str = ", in the first ear";

pub const SECOND_EAR: &str = ", in the second ear";

pub const AT_EDGE: &str = ", at edge ";

pub const EAR_NOT_PATH: &str =
    "the ear is not a path: an edge does not meet the vertex reached, or a vertex is repeated \
    (write the first vertex of the ear, then its edges in order)";

pub const EAR_EVEN: &str = "the ear has an even number of edges (take a path of odd length)";

pub const EAR_BAD_ENDS: &str =
    "the ends of the ear are not two different vertices of the subgraph before the step (begin \
    and end at two such vertices)";

pub const EAR_INNER: &str =
    "an inner vertex of the ear is in the subgraph before the step, or on the first ear of the \
    step (end the ear there if the vertex is in the subgraph; otherwise take another path)";

pub const EAR_USED: &str =
    "an edge of the ear is in the subgraph before the step, or on the first ear of the step \
    (leave it out)";

pub const STAGE_EDGE: &str = "once the step is added, edge ";

pub const STAGE_EDGE_END: &str =
    " is in no perfect matching of the subgraph (take other ears, or add a second ear if the step \
    has only one)";

pub const LEFT_EDGE: &str = "the list ends here, but edge ";

pub const LEFT_EDGE_END: &str = " has not been added (add more ears)";
