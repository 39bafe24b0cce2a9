//! Mixtures of changes from a seed, each made in a sparse set and in a dense one.
use crate::tests::lists::{index_of, next};
use crate::tests::ranges::{add_both, flip_both, remove_both};
use crate::tests::{agree, agree_at, both_of, same_members, way};
use hibitset::{BitSet, BitSetLike, DrainableBitSet, Index, MAX_EID};
use hibitset_sparse::SparseBitSet;
use std::alloc::{AllocError, Global};
use std::test::Fail;

// Adds or takes an index out, as a seed says, and returns whether both sets return the same and have the same words on
// the way to it.
fn change_alike(
    sparse: &mut SparseBitSet,
    dense: &mut BitSet,
    seed: u32,
    id: Index,
) -> Result<bool, AllocError> {
    if (id as usize) >= MAX_EID {
        return Ok(false);
    }
    let alike = if seed >> 31 == 0 {
        sparse.add(id)? == dense.add(id)?
    } else {
        sparse.remove(id) == dense.remove(id)
    };
    Ok(alike && sparse.contains(id) == dense.contains(id) && way(sparse, id) == way(dense, id))
}

// Returns whether two sets agree through 2,000 changes at so many indices that lie `step` apart.
fn single_changes_agree(
    alloc: Global,
    seed: u32,
    count: u32,
    step: Index,
) -> Result<bool, AllocError> {
    let mut sparse = SparseBitSet::new(alloc);
    let mut dense = BitSet::new(alloc);
    let mut seed = seed;
    for _ in 0..2_000u32 {
        let kind = next(seed);
        seed = next(kind);
        let id = index_of(seed, count).wrapping_mul(step);
        if !change_alike(&mut sparse, &mut dense, kind, id)? {
            return Ok(false);
        }
    }
    same_members(alloc, &sparse, &dense)
}

// Near each other, and far apart.
#[test]
fn single_changes(rt: HostRuntime) -> Result<(), Fail> {
    let rows = [
        (1, 70, 1),
        (2, 9_000, 1),
        (3, 700, 749),
        (4, 3, 536_870_911),
        (5, 500, 2_147_483),
        (6, 128, 262_144),
    ];
    for (seed, count, step) in rows {
        assert!(rt; single_changes_agree(rt.alloc(), seed, count, step)?);
    }
    Ok(())
}

// Adds, takes out or flips a range, as a seed says, in both sets, and returns whether they have the same words on the
// way to its ends.
fn change_range_alike(
    sparse: &mut SparseBitSet,
    dense: &mut BitSet,
    seed: u32,
    start: Index,
    end: Index,
) -> Result<bool, AllocError> {
    let is_in_range = match seed >> 30 {
        0 => add_both(sparse, dense, start, end)?,
        1 => flip_both(sparse, dense, start, end)?,
        _ => {
            remove_both(sparse, dense, start, end);
            true
        }
    };
    Ok(is_in_range && agree_at(sparse, dense, &[start, end]))
}

// Returns whether two sets agree through 60 changes of ranges below `bound`.
fn range_changes_agree(
    alloc: Global,
    seed: u32,
    bound: Index,
    longest: u32,
) -> Result<bool, AllocError> {
    let mut sparse = SparseBitSet::new(alloc);
    let mut dense = BitSet::new(alloc);
    let mut seed = seed;
    for _ in 0..60u32 {
        let kind = next(seed);
        let place = next(kind);
        seed = next(place);
        let start = index_of(place, bound);
        let end = start.wrapping_add(index_of(seed, longest));
        if !change_range_alike(&mut sparse, &mut dense, kind, start, end)? {
            return Ok(false);
        }
        if sparse.len() != dense.len() {
            return Ok(false);
        }
    }
    same_members(alloc, &sparse, &dense)
}

#[test]
fn changes_of_ranges(rt: HostRuntime) -> Result<(), Fail> {
    for (seed, bound, longest) in [(7, 1_000, 300), (8, 30_000, 9_000), (9, 900_000, 400_000)] {
        assert!(rt; range_changes_agree(rt.alloc(), seed, bound, longest)?);
    }
    Ok(())
}

// Takes the first and the last member out of both sets, and returns whether they are the same.
fn pop_alike(sparse: &mut SparseBitSet, dense: &mut BitSet) -> bool {
    sparse.pop_first() == dense.pop_first() && sparse.pop_last() == dense.pop_last()
}

// Keeps what 3 does not divide, in both sets.
fn retain_alike(sparse: &mut SparseBitSet, dense: &mut BitSet) {
    sparse.retain(|i| i % 3 != 0);
    dense.retain(|i| i % 3 != 0);
}

// Empties both sets by a drain, and returns whether it gives the same of both.
fn drain_alike(
    alloc: Global,
    sparse: &mut SparseBitSet,
    dense: &mut BitSet,
) -> Result<bool, AllocError> {
    let drained: Vec<Index> = sparse.drain().collect(alloc)?;
    let wanted: Vec<Index> = dense.drain().collect(alloc)?;
    Ok(drained == wanted && sparse.is_empty())
}

// Returns whether two sets agree where members are taken out first, last, by a condition, and by a drain.
fn are_taken_alike(alloc: Global, ids: &[Index]) -> Result<bool, AllocError> {
    let (mut sparse, mut dense) = both_of(alloc, ids)?;
    let popped = pop_alike(&mut sparse, &mut dense) && agree(alloc, &sparse, &dense, ids)?;
    retain_alike(&mut sparse, &mut dense);
    let retained = agree(alloc, &sparse, &dense, ids)?;
    let drained = drain_alike(alloc, &mut sparse, &mut dense)?;
    Ok(popped && retained && drained && agree_at(&sparse, &dense, ids))
}

#[test]
fn members_are_taken_out_alike(rt: HostRuntime) -> Result<(), Fail> {
    let rows: [&[Index]; 4] = [
        &[],
        &[1_048_577],
        &[3, 64, 65, 262_144, 262_145, 524_288],
        &[0, 1, 4_096, 4_097, 8_192, 1_000_000, 1_000_001, 16_777_216],
    ];
    for ids in rows {
        assert!(rt; are_taken_alike(rt.alloc(), ids)?);
    }
    Ok(())
}
