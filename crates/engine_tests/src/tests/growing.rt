//! Generated graphs edge by edge, the sizes of larger ones, and the reference words of the random
//! generator.

use super::made::made;
use graph_core::Ends;
use grow_gen::grow;
use plain_graph::K33;
use rand_core::utils::NextWord;
use rand_pcg::Lcg64Xsh32;
use std::alloc::AllocError;
use std::test::Fail;

// The edges of five pieces from the seed 7, which a second program, written from the definition
// of the generator, gives: the complete bipartite graph, the complete graph of four vertices, the
// complete bipartite graph, the prism and the cube.
static FIVE_PIECES: [Ends; 33] = [
    Ends { a: 1, b: 11 },
    Ends { a: 1, b: 5 },
    Ends { a: 1, b: 6 },
    Ends { a: 13, b: 18 },
    Ends { a: 14, b: 5 },
    Ends { a: 2, b: 6 },
    Ends { a: 8, b: 10 },
    Ends { a: 3, b: 5 },
    Ends { a: 7, b: 6 },
    Ends { a: 3, b: 7 },
    Ends { a: 3, b: 8 },
    Ends { a: 7, b: 8 },
    Ends { a: 4, b: 10 },
    Ends { a: 4, b: 11 },
    Ends { a: 4, b: 19 },
    Ends { a: 9, b: 10 },
    Ends { a: 9, b: 11 },
    Ends { a: 9, b: 12 },
    Ends { a: 2, b: 13 },
    Ends { a: 14, b: 15 },
    Ends { a: 14, b: 16 },
    Ends { a: 15, b: 16 },
    Ends { a: 2, b: 15 },
    Ends { a: 13, b: 16 },
    Ends { a: 12, b: 17 },
    Ends { a: 17, b: 18 },
    Ends { a: 19, b: 20 },
    Ends { a: 20, b: 21 },
    Ends { a: 21, b: 22 },
    Ends { a: 19, b: 22 },
    Ends { a: 12, b: 20 },
    Ends { a: 17, b: 21 },
    Ends { a: 18, b: 22 },
];

#[test]
fn graphs_edge_by_edge(rt: HostRuntime) -> Result<(), Fail> {
    let g = grow(rt.alloc(), 5, 1)?;
    assert!(rt; g.order() == 6);
    assert!(rt; g.edges() == made(rt.alloc(), 6, &K33)?.edges());
    let g = grow(rt.alloc(), 7, 5)?;
    assert!(rt; g.order() == 22);
    assert!(rt; g.edges() == FIVE_PIECES.as_slice());
    Ok(())
}

// The number of pieces, of vertices and of edges.
static SIZES: [(u32, u32, u32); 3] = [(2, 8, 12), (12, 48, 72), (16, 64, 96)];

#[test]
fn sizes(rt: HostRuntime) -> Result<(), AllocError> {
    for (pieces, order, size) in &SIZES {
        assert!(rt; 1 <= *pieces && *pieces <= 16);
        let g = grow(rt.alloc(), 7, *pieces)?;
        assert!(rt; g.order() == *order && g.size() == *size);
    }
    Ok(())
}

// The first words of the published example of the generator, from its seed 42 and its stream 54.
static WORDS: [u32; 4] = [0xa15c02b7, 0x7b47f409, 0xba1d3330, 0x83d2f293];

#[test]
fn reference_words(rt: HostRuntime) {
    let mut words = Lcg64Xsh32::new(42, 54);
    for want in &WORDS {
        assert!(rt; words.next_word() == *want);
    }
}
