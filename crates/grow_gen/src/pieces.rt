//! The pieces of which a graph is made.
ghost use Rattle.std.specs.Prelude.{◌≡◌};
ghost use Rattle.graph_core.specs.Common.{Graph};
ghost use Rattle.grow_gen.specs.Common.{piece_order, piece_ends, piece_graph, is_bipartite_piece, side, further_piece, neighbours};

/// A small cubic graph.
#[derive(Clone, Copy)]
pub enum Piece {
    /// The complete bipartite graph on three and three vertices.
    K33,
    /// The complete graph on four vertices.
    K4,
    /// The triangular prism.
    Prism,
    /// The cube.
    Cube,
}

/// The complete bipartite graph on three and three vertices.
pub const K33: [(u32, u32); 9] = [
    (1, 4),
    (1, 5),
    (1, 6),
    (2, 4),
    (2, 5),
    (2, 6),
    (3, 4),
    (3, 5),
    (3, 6),
];

/// The complete graph on four vertices.
pub const K4: [(u32, u32); 6] = [(1, 2), (1, 3), (1, 4), (2, 3), (2, 4), (3, 4)];

/// The triangular prism, on 6 vertices.
pub const PRISM: [(u32, u32); 9] = [
    (1, 2),
    (1, 3),
    (2, 3),
    (4, 5),
    (4, 6),
    (5, 6),
    (1, 4),
    (2, 5),
    (3, 6),
];

/// The cube, on 8 vertices.
pub const CUBE: [(u32, u32); 12] = [
    (1, 2),
    (2, 3),
    (3, 4),
    (1, 4),
    (5, 6),
    (6, 7),
    (7, 8),
    (5, 8),
    (1, 5),
    (2, 6),
    (3, 7),
    (4, 8),
];

impl Piece {
    /// Piece `i` after the first, counted from 0: K4, K3,3, prism, cube, and so on.
    pub fn further(i: u32) -> Piece
        ensures { result ≡ further_piece i }
    {
        match i % 4 {
            0 => Piece::K4,
            1 => Piece::K33,
            2 => Piece::Prism,
            _ => Piece::Cube,
        }
    }

    /// The number of vertices.
    pub fn order(self) -> u32
        ensures { result ≡ piece_order self }
    {
        match self {
            Piece::K33 | Piece::Prism => 6,
            Piece::K4 => 4,
            Piece::Cube => 8,
        }
    }

    /// The ends of the edges.
    pub fn ends(self) -> &'static [(u32, u32)]
        ensures { result.now ≡ piece_ends self }
    {
        match self {
            Piece::K33 => &K33,
            Piece::K4 => &K4,
            Piece::Prism => &PRISM,
            Piece::Cube => &CUBE,
        }
    }

    /// Whether the piece is bipartite.
    pub fn is_bipartite(self) -> bool
        ensures { result ≡ is_bipartite_piece self }
    {
        matches!(self, Piece::K33 | Piece::Cube)
    }

    /// The neighbours of vertex 1, in the order of its edges.
    pub fn neighbours_of_one(self) -> [u32; 3]
        ensures { result ≡ neighbours (piece_graph self) 1 }
    {
        match self {
            Piece::K33 => [4, 5, 6],
            Piece::K4 | Piece::Prism => [2, 3, 4],
            Piece::Cube => [2, 4, 5],
        }
    }

    /// The vertices that take part in the skeleton: of a bipartite piece those opposite to vertex
    /// 1, and of any other piece all but vertex 1.
    pub fn side(self, opposite: bool) -> &'static [u32]
        ensures { result.now ≡ side self opposite }
    {
        match (self, opposite) {
            (Piece::K33, true) => &[4, 5, 6],
            (Piece::K33, false) => &[2, 3],
            (Piece::K4 | Piece::Prism, _) => &[],
            (Piece::Cube, true) => &[2, 4, 5, 7],
            (Piece::Cube, false) => &[3, 6, 8],
        }
    }
}
