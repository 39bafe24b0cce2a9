//! Sets of many indices from a seed, beside the sorted list of these.
use crate::tests::{has_exactly, sparse_of};
use hibitset::{BitSetAnd, BitSetLike, BitSetNot, BitSetOr, DrainableBitSet, Index, MAX_EID};
use hibitset_sparse::SparseBitSet;
use std::alloc::{AllocError, Global};
use std::test::Fail;

// The number that comes after another.
pub(crate) fn next(seed: u32) -> u32 {
    seed.wrapping_mul(1_664_525).wrapping_add(1_013_904_223)
}

// An index below a bound, or 0 where there is none.
pub(crate) fn index_of(seed: u32, bound: Index) -> Index {
    if bound == 0 {
        return 0;
    }
    seed / 4 % bound
}

// So many indices below a bound, as they come.
fn drawn(alloc: Global, seed: u32, bound: Index, count: usize) -> Result<Vec<Index>, AllocError> {
    let mut list = Vec::new(alloc);
    let mut seed = seed;
    for _ in 0..count {
        seed = next(seed);
        list.push(index_of(seed, bound))?;
    }
    Ok(list)
}

// The sorted list of indices, each once.
fn sorted(alloc: Global, ids: &[Index]) -> Result<Vec<Index>, AllocError> {
    let mut list = Vec::from_slice(alloc, ids)?;
    list.sort_unstable();
    list.dedup();
    Ok(list)
}

// A set of indices from a seed, and the sorted list of these.
fn drawn_set(
    alloc: Global,
    seed: u32,
    bound: Index,
    count: usize,
) -> Result<(SparseBitSet, Vec<Index>), AllocError> {
    let ids = drawn(alloc, seed, bound, count)?;
    Ok((sparse_of(alloc, &ids)?, sorted(alloc, &ids)?))
}

// The members that a walk gives.
fn walked(alloc: Global, set: &SparseBitSet) -> Result<Vec<Index>, AllocError> {
    set.iter().collect(alloc)
}

// Returns whether a set of indices from a seed has those that are drawn.
fn has_the_drawn(alloc: Global, seed: u32, bound: Index, count: usize) -> Result<bool, AllocError> {
    let (set, list) = drawn_set(alloc, seed, bound, count)?;
    let is_counted = set.len() == list.len();
    Ok(is_counted && has_exactly(alloc, &set, &list)? && walked(alloc, &set)? == list)
}

// Takes every second member of a list out, the first one first, and returns those that are to be left, or none where a
// removal returns what it must not.
fn halved(
    alloc: Global,
    set: &mut SparseBitSet,
    list: &[Index],
) -> Result<Option<Vec<Index>>, AllocError> {
    let mut left = Vec::new(alloc);
    let mut keep = false;
    for id in list {
        if keep {
            left.push(*id)?;
        } else if !set.remove(*id) || set.remove(*id) {
            return Ok(None);
        }
        keep = !keep;
    }
    Ok(Some(left))
}

// Returns whether a set has every second member after the others were taken out.
fn has_half(alloc: Global, seed: u32, bound: Index, count: usize) -> Result<bool, AllocError> {
    let (mut set, list) = drawn_set(alloc, seed, bound, count)?;
    match halved(alloc, &mut set, &list)? {
        Some(left) => has_exactly(alloc, &set, &left),
        None => Ok(false),
    }
}

// The members of a list that a set has, and those that it lacks.
fn parted(
    alloc: Global,
    list: &[Index],
    set: &SparseBitSet,
) -> Result<(Vec<Index>, Vec<Index>), AllocError> {
    let mut common = Vec::new(alloc);
    let mut alone = Vec::new(alloc);
    for id in list {
        if set.contains(*id) {
            common.push(*id)?;
        } else {
            alone.push(*id)?;
        }
    }
    Ok((common, alone))
}

// Returns whether the union of two sets has so many members more than the second.
fn adds(a: &SparseBitSet, b: &SparseBitSet, more: usize) -> bool {
    BitSetOr(a, b).len() == b.len().wrapping_add(more)
}

// Returns whether the intersection of two sets, the first without the second, and the union are those of lists.
fn combine_as_lists(alloc: Global, bound: Index, count: usize) -> Result<bool, AllocError> {
    let (a, list) = drawn_set(alloc, 11, bound, count)?;
    let (b, _) = drawn_set(alloc, 12, bound, count)?;
    let (common, alone) = parted(alloc, &list, &b)?;
    Ok(
        has_exactly(alloc, &BitSetAnd(&a, &b), &common)?
            && has_exactly(alloc, &BitSetAnd(&a, BitSetNot(&b)), &alone)?
            && adds(&a, &b, alone.len()),
    )
}

// Returns whether each member's rank and the member of each rank are those of a list.
fn ranks_are_places(set: &SparseBitSet, list: &[Index]) -> bool {
    for (place, id) in list.iter().enumerate() {
        if set.rank(*id) != place || set.select(place) != Some(*id) {
            return false;
        }
    }
    set.select(list.len()).is_none() && set.select(usize::MAX).is_none()
}

// Returns whether a set from a seed has ranks and ends as a list.
fn ranks_as_a_list(alloc: Global, bound: Index, count: usize) -> Result<bool, AllocError> {
    let (set, list) = drawn_set(alloc, 13, bound, count)?;
    let are_ends = set.last() == list.last().copied() && set.first() == list.first().copied();
    Ok(are_ends && ranks_are_places(&set, &list))
}

// The odd ones of a list.
fn odd_of(alloc: Global, list: &[Index]) -> Result<Vec<Index>, AllocError> {
    let mut odd = Vec::new(alloc);
    for id in list {
        if *id % 2 == 1 {
            odd.push(*id)?;
        }
    }
    Ok(odd)
}

// Takes the even members out of a set, and then the others by a drain, which are returned.
fn drained_odd(alloc: Global, set: &mut SparseBitSet) -> Result<Vec<Index>, AllocError> {
    set.retain(|i| i % 2 == 1);
    set.drain().collect(alloc)
}

// Returns whether a set without its even members gives the odd ones, by a drain that empties it.
fn drains_as_a_list(alloc: Global, bound: Index, count: usize) -> Result<bool, AllocError> {
    let (mut set, list) = drawn_set(alloc, 14, bound, count)?;
    let drained = drained_odd(alloc, &mut set)?;
    Ok(drained == odd_of(alloc, &list)? && set.is_empty())
}

#[test]
fn a_set_has_what_is_added_and_not_removed(rt: HostRuntime) -> Result<(), Fail> {
    let rows = [
        (1, MAX_EID as Index, 1_000),
        (2, 300_000, 5_000),
        (3, 5_000, 3_000),
        (4, 70, 100),
    ];
    for (seed, bound, count) in rows {
        assert!(rt; has_the_drawn(rt.alloc(), seed, bound, count)?);
        assert!(rt; has_half(rt.alloc(), seed, bound, count)?);
    }
    Ok(())
}

#[test]
fn sets_answer_as_lists(rt: HostRuntime) -> Result<(), Fail> {
    for (bound, count) in [(MAX_EID as Index, 500), (100_000, 5_000), (20_000, 2_000)] {
        assert!(rt; combine_as_lists(rt.alloc(), bound, count)?);
        assert!(rt; ranks_as_a_list(rt.alloc(), bound, count)?);
        assert!(rt; drains_as_a_list(rt.alloc(), bound, count)?);
    }
    Ok(())
}
