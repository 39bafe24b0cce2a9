//! The operators of owned sets and of the set of all indices that no other test calls. Those of references and of the
//! other virtual sets are called by `walks.rt` and in `hibitset_word_reads`. A row has the members below 4, as bits.
use crate::tests::assert_that;
use hibitset::{BitSet, BitSetAll, BitSetLike};
use hibitset_testing::sets::set_of;
use std::alloc::AllocError;

fn row<T: BitSetLike>(set: T) -> u8 {
    let mut row = 0u8;
    for index in 0..4u32 {
        if set.contains(index) {
            row |= 1 << index;
        }
    }
    row
}

// The rows of a complement, an intersection, a union and an exclusive or.
fn rows_of_owned(a: BitSet, b: &BitSet) -> Result<[u8; 4], AllocError> {
    Ok([
        row(!a.clone()?),
        row(a.clone()? & b),
        row(a.clone()? | b),
        row(a ^ b),
    ])
}

#[test]
fn operators_of_owned_sets(rt: HostRuntime) -> Result<(), AllocError> {
    let a = set_of(rt.alloc(), &[1, 3])?;
    let b = set_of(rt.alloc(), &[2, 3])?;
    let rows = rows_of_owned(a, &b)?;
    assert_that(&rt, rows == [0b0101, 0b1000, 0b1110, 0b0110]);
    Ok(())
}

#[test]
fn complements_of_all(rt: HostRuntime) {
    let all = BitSetAll;
    assert_that(&rt, row(!&all) == 0 && row(!all) == 0);
}
