//! Values from outside: the arithmetic of indices.
use crate::tests::assert_that;
use hibitset_base::laws::virtual_laws;
use hibitset_base::util::{Index, LAYERS, Row, SHIFT0, SHIFT1, SHIFT2, SHIFT3, SHIFT4, offsets};
use hibitset_base::virt::BitSetAll;

// What an index is made of: the index, the positions of its words in layers 0 to 3, and the numbers of its bits in
// layers 0 to 4.
type Vector = (Index, (usize, usize, usize, usize), [usize; LAYERS]);

// Returns whether an index is made of these.
fn is_made_of(index: Index, words: (usize, usize, usize, usize), bits: [usize; LAYERS]) -> bool {
    let [b0, b1, b2, b3, b4] = bits;
    offsets(index) == words
        && index.row(SHIFT0) == b0
        && index.row(SHIFT1) == b1
        && index.row(SHIFT2) == b2
        && index.row(SHIFT3) == b3
        && index.row(SHIFT4) == b4
        && index.mask(SHIFT3) == 1usize << b3
        && index.offset(SHIFT0) == index as usize
}

#[test]
fn index_vectors(rt: HostRuntime) {
    let vectors: [Vector; 7] = [
        (0, (0, 0, 0, 0), [0, 0, 0, 0, 0]),
        (63, (0, 0, 0, 0), [63, 0, 0, 0, 0]),
        (64, (1, 0, 0, 0), [0, 1, 0, 0, 0]),
        (4096, (64, 1, 0, 0), [0, 0, 1, 0, 0]),
        (12345, (192, 3, 0, 0), [57, 0, 3, 0, 0]),
        (262144, (4096, 64, 1, 0), [0, 0, 0, 1, 0]),
        (16777215, (262143, 4095, 63, 0), [63, 63, 63, 63, 0]),
    ];
    for (index, words, bits) in vectors {
        assert_that(&rt, is_made_of(index, words, bits));
    }
    virtual_laws::<BitSetAll, BitSetAll, BitSetAll>();
}
