//! Sparse sets made of the items of iterators and of slices, and extended by them.
use crate::tests::{agree, dense_of, has_exactly, sparse_of};
use hibitset::{BitSet, BitSetLike, BuildError, Index};
use hibitset_sparse::SparseBitSet;
use std::alloc::{AllocError, Global};
use std::test::Fail;

// Items that go up and down, some of them twice.
const ITEMS: [Index; 9] = [9, 262_144, 3, 9, 16_777_215, 70, 262_144, 3, 1_073_741_823];

// Items of which the third and the last are out of range, and the error that the third makes.
const PAST_THE_RANGE: [Index; 5] = [9, 3, 1_073_741_824, 4, Index::MAX];

const REFUSED: BuildError = BuildError::OutOfRange {
    place: 2,
    index: 1_073_741_824,
};

fn of_slice(alloc: Global, items: &[Index]) -> Result<SparseBitSet, BuildError> {
    SparseBitSet::from_slice(alloc, items)
}

fn of_indices(alloc: Global, items: &[Index]) -> Result<SparseBitSet, BuildError> {
    SparseBitSet::from_indices(alloc, items.iter().copied())
}

fn of_index_refs(alloc: Global, items: &[Index]) -> Result<SparseBitSet, BuildError> {
    SparseBitSet::from_index_refs(alloc, items)
}

// Returns whether what was made has the members of a dense set, or none was made, for the item that is out of range. If
// an allocation failed, so does this.
fn is_made(
    alloc: Global,
    made: Result<SparseBitSet, BuildError>,
    items: &[Index],
    are_in_range: bool,
) -> Result<bool, AllocError> {
    match made {
        Ok(set) => Ok(are_in_range && agree(alloc, &set, &dense_of(alloc, items)?, items)?),
        Err(BuildError::Memory { place: _ }) => Err(AllocError),
        Err(error) => Ok(!are_in_range && error == REFUSED),
    }
}

#[test]
fn made_of_items(rt: HostRuntime) -> Result<(), Fail> {
    let alloc = rt.alloc();
    let rows: [(&[Index], bool); 3] = [(&ITEMS, true), (&[], true), (&PAST_THE_RANGE, false)];
    for (items, are_in_range) in rows {
        assert!(rt; is_made(alloc, of_slice(alloc, items), items, are_in_range)?);
        assert!(rt; is_made(alloc, of_indices(alloc, items), items, are_in_range)?);
        assert!(rt; is_made(alloc, of_index_refs(alloc, items), items, are_in_range)?);
    }
    Ok(())
}

fn of_dense(alloc: Global, set: &BitSet) -> Result<SparseBitSet, BuildError> {
    SparseBitSet::from_indices(alloc, set)
}

fn dense_of_sparse(alloc: Global, set: &SparseBitSet) -> Result<BitSet, BuildError> {
    BitSet::from_indices(alloc, set)
}

#[test]
fn made_of_the_members_of_another(rt: HostRuntime) -> Result<(), Fail> {
    let dense = dense_of(rt.alloc(), &ITEMS)?;
    let sparse = of_dense(rt.alloc(), &dense)?;
    assert!(rt; agree(rt.alloc(), &sparse, &dense, &ITEMS)?);
    assert!(rt; dense_of_sparse(rt.alloc(), &sparse)? == dense);
    Ok(())
}

fn extend_slice(set: &mut SparseBitSet, items: &[Index]) -> Result<(), BuildError> {
    set.extend_from_slice(items)
}

fn extend_range(set: &mut SparseBitSet, start: Index, end: Index) -> Result<(), BuildError> {
    set.extend_indices(start..end)
}

fn extend_refs(set: &mut SparseBitSet, items: &[Index]) -> Result<(), BuildError> {
    set.extend_index_refs(items)
}

#[test]
fn extended_by_items(rt: HostRuntime) -> Result<(), Fail> {
    let mut set = sparse_of(rt.alloc(), &[3, 300_000])?;
    extend_slice(&mut set, &[9, 3, 9])?;
    extend_slice(&mut set, &[])?;
    extend_range(&mut set, 262_143, 262_145)?;
    extend_refs(&mut set, &[3, 1_073_741_823])?;
    let wanted = [3, 9, 262_143, 262_144, 300_000, 1_073_741_823];
    assert!(rt; has_exactly(rt.alloc(), &set, &wanted)?);
    Ok(())
}

// Returns whether extending stopped at the third item, and the set has those before it.
fn has_stopped(
    alloc: Global,
    set: &SparseBitSet,
    stopped: Result<(), BuildError>,
) -> Result<bool, AllocError> {
    match stopped {
        Ok(()) => Ok(false),
        Err(BuildError::Memory { place: _ }) => Err(AllocError),
        Err(error) => Ok(error == REFUSED && has_exactly(alloc, set, &[3, 9, 300_000])?),
    }
}

fn slice_stops(alloc: Global) -> Result<bool, AllocError> {
    let mut set = sparse_of(alloc, &[300_000])?;
    let stopped = set.extend_from_slice(&PAST_THE_RANGE);
    has_stopped(alloc, &set, stopped)
}

fn indices_stop(alloc: Global) -> Result<bool, AllocError> {
    let mut set = sparse_of(alloc, &[300_000])?;
    let mut left = PAST_THE_RANGE.iter().copied();
    let stopped = set.extend_indices(&mut left);
    Ok(has_stopped(alloc, &set, stopped)? && left.next() == Some(4))
}

fn index_refs_stop(alloc: Global) -> Result<bool, AllocError> {
    let mut set = sparse_of(alloc, &[300_000])?;
    let mut left = PAST_THE_RANGE.iter();
    let stopped = set.extend_index_refs(&mut left);
    Ok(has_stopped(alloc, &set, stopped)? && left.next() == Some(&4))
}

// After a refusal, an iterator goes on after the item that was refused.
#[test]
fn no_item_is_drawn_after_one_past_the_range(rt: HostRuntime) -> Result<(), Fail> {
    assert!(rt; slice_stops(rt.alloc())?);
    assert!(rt; indices_stop(rt.alloc())?);
    assert!(rt; index_refs_stop(rt.alloc())?);
    Ok(())
}

#[test]
fn debug_lists_the_members(rt: HostRuntime) -> Result<(), Fail> {
    let rows: [(&[Index], &str); 2] = [(&[70_000, 5], "{5, 70000}"), (&[], "{}")];
    for (ids, text) in rows {
        let set = sparse_of(rt.alloc(), ids)?;
        assert!(rt; format!(in rt.alloc(); "{set:?}")?.as_str() == text);
    }
    Ok(())
}
