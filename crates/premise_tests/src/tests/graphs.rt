//! The graphs of the rows, by the ends of their edges. An edge is a number of two digits, its ends:
//! 14 joins the vertices 1 and 4, and 11 is a loop.

/// A graph: how many vertices it has, and its edges.
pub type Given = (u32, &'static [u32]);

pub const EMPTY: Given = (0, &[]);

pub const ONE_VERTEX: Given = (1, &[]);

pub const TWO_ISOLATED: Given = (2, &[]);

pub const THREE_ISOLATED: Given = (3, &[]);

pub const FOUR_ISOLATED: Given = (4, &[]);

pub const SEVEN_ISOLATED: Given = (7, &[]);

pub const K2: Given = (2, &[12]);

pub const K2_WITH_LOOP: Given = (2, &[12, 11]);

pub const K2_WITH_LOOPS: Given = (2, &[12, 11, 22]);

pub const K2_WITH_TWO_LOOPS: Given = (2, &[12, 11, 11]);

pub const ONE_LOOP: Given = (2, &[11]);

pub const EDGE_AND_VERTEX: Given = (3, &[12]);

pub const PATH_OF_3: Given = (3, &[12, 23]);

pub const PATH_OF_4: Given = (4, &[12, 23, 34]);

pub const PATH_OF_6: Given = (6, &[12, 23, 34, 45, 56]);

pub const LOOPED_PATH: Given = (4, &[12, 23, 34, 11]);

pub const STAR_OF_3: Given = (4, &[12, 13, 14]);

pub const STAR_OF_5: Given = (6, &[12, 13, 14, 15, 16]);

pub const DOUBLED_STAR: Given = (4, &[12, 12, 13, 13, 14, 14]);

pub const TWO_TRIANGLES: Given = (6, &[12, 13, 23, 45, 46, 56]);

/// The star with the centre 1 and the leaves 2, 3 and 4, the edge 56, and the vertices 7 and 8.
pub const STAR_AND_EDGE: Given = (8, &[12, 13, 14, 56]);

pub const DIAMOND: Given = (4, &[12, 13, 23, 24, 34]);

pub const TWO_EDGES: Given = (4, &[12, 34]);

pub const THREE_EDGES: Given = (6, &[12, 34, 56]);

pub const TRIPLE_EDGES: Given = (4, &[12, 12, 12, 34, 34, 34]);

pub const FOUR_CYCLE: Given = (4, &[12, 23, 34, 41]);

/// The cycle of four vertices, and the vertex 5.
pub const CYCLE_AND_VERTEX: Given = (5, &[12, 23, 34, 41]);

pub const CHORDED_CYCLE: Given = (4, &[12, 23, 34, 41, 13]);

pub const HEXAGON: Given = (6, &[12, 23, 34, 45, 56, 61]);

pub const K4: Given = (4, &[12, 13, 14, 23, 24, 34]);

pub const TRIANGLE: Given = (3, &[12, 13, 23]);

pub const TWO_PARALLEL: Given = (2, &[12, 12]);

pub const THREE_PARALLEL: Given = (2, &[12, 12, 12]);

pub const K23: Given = (5, &[13, 14, 15, 23, 24, 25]);

pub const K24: Given = (6, &[13, 14, 15, 16, 23, 24, 25, 26]);

/// The hexagon with loops at 1, 3 and 5.
pub const LOOPED_HEXAGON: Given = (6, &[12, 23, 34, 45, 56, 61, 11, 33, 55]);

/// The hexagon with the edges 13 and 15.
pub const CHORDED_HEXAGON: Given = (6, &[12, 23, 34, 45, 56, 61, 13, 15]);

/// The hexagon with the edges 12, 34 and 56 doubled.
pub const DOUBLED_HEXAGON: Given = (6, &[12, 12, 23, 34, 34, 45, 56, 56, 61]);

pub const K33: Given = (6, &[14, 15, 16, 24, 25, 26, 34, 35, 36]);

pub const K33_WITH_LOOP: Given = (6, &[14, 15, 16, 24, 25, 26, 34, 35, 36, 11]);

/// Two triangles, each vertex of the one joined to one of the other.
pub const PRISM: Given = (6, &[12, 13, 23, 45, 46, 56, 14, 25, 36]);

/// Two paths of three vertices, each vertex of the one joined to one of the other.
pub const LADDER: Given = (6, &[12, 23, 45, 56, 14, 25, 36]);

/// Two copies of K4 sharing the edge 12.
pub const TWO_K4: Given = (6, &[12, 13, 14, 23, 24, 34, 15, 16, 25, 26, 56]);

/// A bicritical graph with the tight shore 1 5 7, whose cut is no 2-separation cut.
pub const SHORE_NO_PART: Given = (8, &[13, 14, 15, 17, 23, 24, 25, 26, 28, 34, 57, 67, 68, 78]);

pub const DISJOINT_K4: Given = (8, &[12, 13, 14, 23, 24, 34, 56, 57, 58, 67, 68, 78]);

/// A cubic graph with the bridge 14, its edge 9.
pub const BRIDGED: Given = (6, &[12, 13, 23, 23, 45, 46, 56, 56, 14]);

/// A matching covered graph of which the cycle 3 5 4 6 is no conformal subgraph.
pub const UNCONFORMAL: Given = (6, &[13, 14, 25, 35, 45, 26, 36, 46]);

/// The triangle abc with the edges uv, uw, va, wb, wc, and vw last: a to c are 1 to 3, and u, v
/// and w are 4, 5 and 6.
pub const TRIANGLE_WITH_EAR: Given = (6, &[12, 13, 23, 45, 46, 51, 62, 63, 56]);
