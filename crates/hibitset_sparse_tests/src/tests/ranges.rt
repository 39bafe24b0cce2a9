//! Ranges added, taken out and flipped, beside a dense set.
use crate::tests::{agree, agree_at, both_of, has_exactly};
use hibitset::{BitSet, Index, MAX_EID};
use hibitset_sparse::SparseBitSet;
use std::alloc::{AllocError, Global};
use std::test::Fail;

// The members before a range is added, taken out or flipped.
const MEMBERS: [Index; 10] = [
    5, 63, 64, 100, 4_500, 262_143, 262_144, 400_000, 786_431, 1_000_000,
];

// Adds a range to both sets, unless it is out of range, and returns whether it is not.
pub(crate) fn add_both(
    sparse: &mut SparseBitSet,
    dense: &mut BitSet,
    start: Index,
    end: Index,
) -> Result<bool, AllocError> {
    if (end as usize) > MAX_EID {
        return Ok(false);
    }
    sparse.add_range(start, end)?;
    dense.add_range(start, end)?;
    Ok(true)
}

// Flips a range of both sets, unless it is out of range, and returns whether it is not.
pub(crate) fn flip_both(
    sparse: &mut SparseBitSet,
    dense: &mut BitSet,
    start: Index,
    end: Index,
) -> Result<bool, AllocError> {
    if (end as usize) > MAX_EID {
        return Ok(false);
    }
    sparse.flip_range(start, end)?;
    dense.flip_range(start, end)?;
    Ok(true)
}

// Takes a range, of any two numbers, out of both sets.
pub(crate) fn remove_both(sparse: &mut SparseBitSet, dense: &mut BitSet, start: Index, end: Index) {
    sparse.remove_range(start, end);
    dense.remove_range(start, end);
}

// Returns whether a range is added alike, and taken out of the set that it was added to.
fn is_added_alike(alloc: Global, start: Index, end: Index) -> Result<bool, AllocError> {
    let (mut sparse, mut dense) = both_of(alloc, &MEMBERS)?;
    let ends = [start, end.wrapping_sub(1)];
    let is_added = add_both(&mut sparse, &mut dense, start, end)?
        && agree_at(&sparse, &dense, &ends)
        && agree(alloc, &sparse, &dense, &MEMBERS)?;
    remove_both(&mut sparse, &mut dense, start, end);
    Ok(is_added && agree(alloc, &sparse, &dense, &MEMBERS)?)
}

// Returns whether a range is flipped alike, and flipped back.
fn is_flipped_alike(alloc: Global, start: Index, end: Index) -> Result<bool, AllocError> {
    let (mut sparse, mut dense) = both_of(alloc, &MEMBERS)?;
    let is_flipped = flip_both(&mut sparse, &mut dense, start, end)?
        && agree(alloc, &sparse, &dense, &MEMBERS)?
        && flip_both(&mut sparse, &mut dense, start, end)?;
    Ok(is_flipped && has_exactly(alloc, &sparse, &MEMBERS)?)
}

// Returns whether a range, of any two numbers, is taken out alike.
fn is_removed_alike(alloc: Global, start: Index, end: Index) -> Result<bool, AllocError> {
    let (mut sparse, mut dense) = both_of(alloc, &MEMBERS)?;
    remove_both(&mut sparse, &mut dense, start, end);
    agree(alloc, &sparse, &dense, &MEMBERS)
}

// Ranges within a word, of words, groups and chunks, those that begin and end within one, one to the last index, and
// those that are empty.
const RANGES: [(Index, Index); 16] = [
    (0, 1),
    (3, 9),
    (63, 65),
    (64, 128),
    (100, 300),
    (4_000, 9_000),
    (4_096, 8_192),
    (262_144, 524_288),
    (262_143, 262_145),
    (200_000, 800_000),
    (786_431, 786_433),
    (1_073_741_700, 1_073_741_824),
    (0, 0),
    (64, 64),
    (65, 5),
    (Index::MAX, 1_073_741_824),
];

#[test]
fn ranges_are_changed_alike(rt: HostRuntime) -> Result<(), Fail> {
    for (start, end) in RANGES {
        assert!(rt; is_added_alike(rt.alloc(), start, end)?);
        assert!(rt; is_flipped_alike(rt.alloc(), start, end)?);
        assert!(rt; is_removed_alike(rt.alloc(), start, end)?);
    }
    for start in [262_144, 0, Index::MAX] {
        assert!(rt; is_removed_alike(rt.alloc(), start, Index::MAX)?);
    }
    Ok(())
}
