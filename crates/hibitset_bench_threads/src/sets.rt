//! The sets that are walked over.
use hibitset::{BitSet, Index};
use std::alloc::{AllocError, Global};

// How a set's members lie.
#[derive(Clone, Copy)]
pub(crate) enum Shape {
    // one in so many, by chance
    OneIn(u32),
    // all from 0 on
    Dense,
    // 1,000 in a row, at equal distances
    Clusters,
}

// Where the indices of the sets end, as in the original.
const END: Index = 1 << 24;

// Where the fixed sequence begins.
pub(crate) const SEED: u64 = 88_172_645_463_325_252;

// The next number of a fixed sequence.
pub(crate) fn next(state: u64) -> u64 {
    let a = state ^ (state << 13);
    let b = a ^ (a >> 7);
    b ^ (b << 17)
}

// A set of about so many members.
pub(crate) fn set_of(alloc: Global, shape: Shape, members: u32) -> Result<BitSet, AllocError> {
    match shape {
        Shape::OneIn(one_in) => by_chance(alloc, one_in, members),
        Shape::Dense => run(BitSet::new(alloc), 0, members),
        Shape::Clusters => clusters(alloc, members),
    }
}

fn by_chance(alloc: Global, one_in: u32, members: u32) -> Result<BitSet, AllocError> {
    let mut set = BitSet::new(alloc);
    let mut state = SEED;
    for id in 0..members.saturating_mul(one_in) {
        state = next(state);
        if one_in != 0 && (state >> 32) % u64::from(one_in) == 0 && id < END {
            set.add(id)?;
        }
    }
    Ok(set)
}

// The set with so many indices in a row.
fn run(mut set: BitSet, first: Index, count: u32) -> Result<BitSet, AllocError> {
    for id in first..first.saturating_add(count) {
        if id < END {
            set.add(id)?;
        }
    }
    Ok(set)
}

fn clusters(alloc: Global, members: u32) -> Result<BitSet, AllocError> {
    let count = members / 1_000;
    let mut set = BitSet::new(alloc);
    if count == 0 {
        return Ok(set);
    }
    let distance = END / count;
    for cluster in 0..count {
        set = run(set, cluster.saturating_mul(distance), 1_000)?;
    }
    Ok(set)
}
