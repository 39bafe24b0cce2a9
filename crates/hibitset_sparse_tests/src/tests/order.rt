//! Sparse sets among dense ones: operators, comparisons, walks and answers by order.
use crate::tests::{BORDERS, both_of, dense_of, has_exactly, same_members, sparse_of};
use hibitset::{BitSet, BitSetLike, Index};
use hibitset_sparse::SparseBitSet;
use std::alloc::{AllocError, Global};
use std::test::Fail;

const OURS: [Index; 8] = [3, 63, 64, 4_096, 262_144, 300_000, 524_288, 16_777_216];

const THEIRS: [Index; 8] = [3, 62, 64, 4_097, 262_144, 400_000, 800_000, 16_777_216];

// Returns whether intersections with another set have the same members.
fn and_alike<T: BitSetLike>(
    alloc: Global,
    sparse: &SparseBitSet,
    dense: &BitSet,
    other: &T,
) -> Result<bool, AllocError> {
    same_members(alloc, sparse & other, dense & other)
}

// Returns whether unions with another set have the same members.
fn or_alike<T: BitSetLike>(
    alloc: Global,
    sparse: &SparseBitSet,
    dense: &BitSet,
    other: &T,
) -> Result<bool, AllocError> {
    same_members(alloc, sparse | other, dense | other)
}

// Returns whether symmetric differences with another set have the same members.
fn xor_alike<T: BitSetLike>(
    alloc: Global,
    sparse: &SparseBitSet,
    dense: &BitSet,
    other: &T,
) -> Result<bool, AllocError> {
    same_members(alloc, sparse ^ other, dense ^ other)
}

// Returns whether differences with another set have the same members.
fn sub_alike<T: BitSetLike>(
    alloc: Global,
    sparse: &SparseBitSet,
    dense: &BitSet,
    other: &T,
) -> Result<bool, AllocError> {
    same_members(alloc, sparse - other, dense - other)
}

// Returns whether what another set has outside of either is the same.
fn not_alike<T: BitSetLike>(
    alloc: Global,
    sparse: &SparseBitSet,
    dense: &BitSet,
    other: &T,
) -> Result<bool, AllocError> {
    same_members(alloc, !sparse & other, !dense & other)
}

// Returns whether a set and a dense set with the same members combine alike with another one.
fn combine_alike<T: BitSetLike>(
    alloc: Global,
    ours: &[Index],
    other: &T,
) -> Result<bool, AllocError> {
    let (sparse, dense) = both_of(alloc, ours)?;
    Ok(
        and_alike(alloc, &sparse, &dense, other)?
            && or_alike(alloc, &sparse, &dense, other)?
            && xor_alike(alloc, &sparse, &dense, other)?
            && sub_alike(alloc, &sparse, &dense, other)?
            && not_alike(alloc, &sparse, &dense, other)?,
    )
}

#[test]
fn operators_with_other_sets(rt: HostRuntime) -> Result<(), Fail> {
    let (sparse, dense) = both_of(rt.alloc(), &THEIRS)?;
    for ours in [OURS.as_slice(), &[]] {
        assert!(rt; combine_alike(rt.alloc(), ours, &dense)?);
        assert!(rt; combine_alike(rt.alloc(), ours, &sparse)?);
        assert!(rt; combine_alike(rt.alloc(), ours, &(&dense & &sparse))?);
    }
    Ok(())
}

// The set of two indices.
fn two(alloc: Global) -> Result<SparseBitSet, AllocError> {
    sparse_of(alloc, &[5, 300_000])
}

fn owned_and(
    alloc: Global,
    set: SparseBitSet,
    other: &BitSet,
    ids: &[Index],
) -> Result<bool, AllocError> {
    has_exactly(alloc, &(set & other), ids)
}

fn owned_or(
    alloc: Global,
    set: SparseBitSet,
    other: &BitSet,
    ids: &[Index],
) -> Result<bool, AllocError> {
    has_exactly(alloc, &(set | other), ids)
}

fn owned_xor(
    alloc: Global,
    set: SparseBitSet,
    other: &BitSet,
    ids: &[Index],
) -> Result<bool, AllocError> {
    has_exactly(alloc, &(set ^ other), ids)
}

fn owned_sub(
    alloc: Global,
    set: SparseBitSet,
    other: &BitSet,
    ids: &[Index],
) -> Result<bool, AllocError> {
    has_exactly(alloc, &(set - other), ids)
}

fn owned_not(
    alloc: Global,
    set: SparseBitSet,
    other: &BitSet,
    ids: &[Index],
) -> Result<bool, AllocError> {
    has_exactly(alloc, &(!set & other), ids)
}

#[test]
fn operators_of_owned_sets(rt: HostRuntime) -> Result<(), Fail> {
    let alloc = rt.alloc();
    let other = dense_of(alloc, &[5, 70])?;
    assert!(rt; owned_and(alloc, two(alloc)?, &other, &[5])?);
    assert!(rt; owned_or(alloc, two(alloc)?, &other, &[5, 70, 300_000])?);
    assert!(rt; owned_xor(alloc, two(alloc)?, &other, &[70, 300_000])?);
    assert!(rt; owned_sub(alloc, two(alloc)?, &other, &[300_000])?);
    assert!(rt; owned_not(alloc, two(alloc)?, &other, &[70])?);
    Ok(())
}

#[test]
fn loops_over_a_set(rt: HostRuntime) -> Result<(), Fail> {
    let set = two(rt.alloc())?;
    let mut found = Vec::new(rt.alloc());
    for id in &set {
        found.push(id)?;
    }
    for id in set {
        found.push(id)?;
    }
    assert!(rt; found.as_slice() == [5, 300_000, 5, 300_000].as_slice());
    Ok(())
}

// Returns whether comparisons of two sets give these answers.
fn compares_as<A: BitSetLike, B: BitSetLike>(a: &A, b: &B, answers: (bool, bool)) -> bool {
    (a.is_subset(b), a.is_disjoint(b)) == answers
}

// Returns whether a set and a dense set with the same members compare alike with those of other indices.
fn compare_alike(alloc: Global, ours: &[Index], theirs: &[Index]) -> Result<bool, AllocError> {
    let (sparse, dense) = both_of(alloc, ours)?;
    let (other, other_dense) = both_of(alloc, theirs)?;
    let answers = (
        dense.is_subset(&other_dense),
        dense.is_disjoint(&other_dense),
    );
    Ok(
        compares_as(&sparse, &other_dense, answers)
            && compares_as(&sparse, &other, answers)
            && compares_as(&dense, &other, answers),
    )
}

#[test]
fn comparisons_with_other_sets(rt: HostRuntime) -> Result<(), Fail> {
    let rows: [&[Index]; 6] = [
        &[],
        &[3],
        &[4, 4_097, 262_145],
        &[3, 262_144],
        &[524_289],
        &OURS,
    ];
    for ours in rows {
        for theirs in rows {
            assert!(rt; compare_alike(rt.alloc(), ours, theirs)?);
        }
    }
    Ok(())
}

// Returns whether two sets give the same answers at an index.
fn answer_alike<A: BitSetLike, B: BitSetLike>(a: &A, b: &B, id: Index) -> bool {
    a.rank(id) == b.rank(id)
        && a.last_before(id) == b.last_before(id)
        && a.first_gap(id) == b.first_gap(id)
        && a.len_range(64, id) == b.len_range(64, id)
        && a.iter_from(id).next() == b.iter_from(id).next()
        && a.iter_rev_before(id).next() == b.iter_rev_before(id).next()
}

// Returns whether two sets give the same answers at some indices, and before and after each.
fn answer_alike_around<A: BitSetLike, B: BitSetLike>(a: &A, b: &B, ids: &[Index]) -> bool {
    for id in ids {
        for near in [id.wrapping_sub(1), *id, id.wrapping_add(1)] {
            if !answer_alike(a, b, near) {
                return false;
            }
        }
    }
    true
}

// Returns whether two sets have the same ends, and the same members at each position up to `len`.
fn select_alike<A: BitSetLike, B: BitSetLike>(a: &A, b: &B, len: usize) -> bool {
    for at in 0..len {
        if a.select(at) != b.select(at) {
            return false;
        }
    }
    a.len() == b.len()
        && a.first() == b.first()
        && a.last() == b.last()
        && a.is_empty() == b.is_empty()
}

// Returns whether a sparse set and a dense one of the same indices give the same answers by order.
fn is_ordered_alike(alloc: Global, ids: &[Index]) -> Result<bool, AllocError> {
    let (sparse, dense) = both_of(alloc, ids)?;
    Ok(
        select_alike(&sparse, &dense, 9)
            && answer_alike_around(&sparse, &dense, &OURS)
            && answer_alike_around(&sparse, &dense, &BORDERS),
    )
}

#[test]
fn answers_by_order(rt: HostRuntime) -> Result<(), Fail> {
    let rows: [&[Index]; 4] = [&OURS, &THEIRS, &[1_073_741_823], &[]];
    for ids in rows {
        assert!(rt; is_ordered_alike(rt.alloc(), ids)?);
    }
    Ok(())
}

// The members from an index on.
fn up_from<T: BitSetLike>(alloc: Global, set: &T, id: Index) -> Result<Vec<Index>, AllocError> {
    set.iter_from(id).collect(alloc)
}

// The members before an index, the last one first.
fn down_from<T: BitSetLike>(alloc: Global, set: &T, id: Index) -> Result<Vec<Index>, AllocError> {
    set.iter_rev_before(id).collect(alloc)
}

// Returns whether walks up from an index, and down from it, give the same of both sets.
fn walk_alike<A: BitSetLike, B: BitSetLike>(
    alloc: Global,
    a: &A,
    b: &B,
    id: Index,
) -> Result<bool, AllocError> {
    Ok(
        up_from(alloc, a, id)? == up_from(alloc, b, id)?
            && down_from(alloc, a, id)? == down_from(alloc, b, id)?,
    )
}

#[test]
fn walks_from_each_border(rt: HostRuntime) -> Result<(), Fail> {
    let (sparse, dense) = both_of(rt.alloc(), &OURS)?;
    for id in BORDERS {
        assert!(rt; walk_alike(rt.alloc(), &sparse, &dense, id)?);
    }
    Ok(())
}

// Returns whether whole walks over the set of the borders give these, up and down.
fn walks_give_the_borders(alloc: Global) -> Result<bool, AllocError> {
    let set = sparse_of(alloc, &BORDERS)?;
    let up: Vec<Index> = (&set).iter().collect(alloc)?;
    let mut down: Vec<Index> = (&set).iter_rev().collect(alloc)?;
    down.reverse();
    Ok(up.as_slice() == BORDERS.as_slice() && up == down)
}

#[test]
fn whole_walks(rt: HostRuntime) -> Result<(), Fail> {
    assert!(rt; walks_give_the_borders(rt.alloc())?);
    Ok(())
}
