//! Sparse sets beside dense ones with the same members, and beside sorted lists of their members.
mod assignments;
mod borders;
mod building;
mod changes;
mod lists;
mod order;
mod ranges;
mod words;

use hibitset::{BitSet, BitSetLike, Index, MAX_EID};
use hibitset_sparse::SparseBitSet;
use std::alloc::{AllocError, Global};

// The first and the last index of words, groups, chunks, and of the set.
const BORDERS: [Index; 13] = [
    0,
    63,
    64,
    4_095,
    4_096,
    262_143,
    262_144,
    524_287,
    524_288,
    16_777_215,
    16_777_216,
    1_073_479_680,
    1_073_741_823,
];

// The sparse set of these indices, those out of range left out.
fn sparse_of(alloc: Global, ids: &[Index]) -> Result<SparseBitSet, AllocError> {
    let mut set = SparseBitSet::new(alloc);
    for id in ids {
        if (*id as usize) < MAX_EID {
            set.add(*id)?;
        }
    }
    Ok(set)
}

// The dense set of these indices, those out of range left out.
fn dense_of(alloc: Global, ids: &[Index]) -> Result<BitSet, AllocError> {
    let mut set = BitSet::new(alloc);
    for id in ids {
        if (*id as usize) < MAX_EID {
            set.add(*id)?;
        }
    }
    Ok(set)
}

// The sparse set and the dense set of these indices.
fn both_of(alloc: Global, ids: &[Index]) -> Result<(SparseBitSet, BitSet), AllocError> {
    Ok((sparse_of(alloc, ids)?, dense_of(alloc, ids)?))
}

// The words on the way to an index, from the top on.
fn way<T: BitSetLike>(set: &T, id: Index) -> [usize; 5] {
    let id = id as usize;
    [
        set.layer4(),
        set.layer3(id >> 24),
        set.layer2(id >> 18),
        set.layer1(id >> 12),
        set.layer0(id >> 6),
    ]
}

// Returns whether two sets have the same words on the way to each of these indices.
fn agree_at<A: BitSetLike, B: BitSetLike>(a: &A, b: &B, ids: &[Index]) -> bool {
    for id in ids {
        if way(a, *id) != way(b, *id) || a.contains(*id) != b.contains(*id) {
            return false;
        }
    }
    true
}

// Returns whether two sets have the same members.
fn same_members<A: BitSetLike, B: BitSetLike>(
    alloc: Global,
    a: A,
    b: B,
) -> Result<bool, AllocError> {
    Ok(a.to_vec(alloc)? == b.to_vec(alloc)?)
}

// Returns whether two sets have the same members, and the same words on the way to each of these indices.
fn agree<A: BitSetLike, B: BitSetLike>(
    alloc: Global,
    a: &A,
    b: &B,
    ids: &[Index],
) -> Result<bool, AllocError> {
    Ok(agree_at(a, b, ids) && same_members(alloc, a, b)?)
}

// Returns whether a set has exactly these members, in ascending order.
fn has_exactly<T: BitSetLike>(alloc: Global, set: &T, ids: &[Index]) -> Result<bool, AllocError> {
    Ok(set.to_vec(alloc)?.as_slice() == ids)
}

// Returns whether a set is empty, and has no word on the way to any of these indices.
fn is_empty_at<T: BitSetLike>(set: &T, ids: &[Index]) -> bool {
    for id in ids {
        if way(set, *id) != [0; 5] {
            return false;
        }
    }
    set.is_empty()
}
