//! Assignments to a sparse set, beside the same ones to a dense set.
use crate::tests::{agree, agree_at, both_of, dense_of, sparse_of};
use hibitset::{BitSetLike, BitSetRange, Index};
use hibitset_sparse::SparseBitSet;
use std::alloc::{AllocError, Global};
use std::test::Fail;

// Indices in the first three chunks, and in two far from these.
const OURS: [Index; 10] = [
    3, 64, 70, 4_096, 262_144, 270_000, 524_288, 524_289, 16_777_216, 33_554_432,
];

// Some of them, others beside them, and others in chunks between them and after them.
const THEIRS: [Index; 10] = [
    3, 65, 71, 4_096, 262_144, 270_000, 786_432, 786_500, 16_777_217, 33_554_432,
];

// The words of sets are compared on the way to these indices: one in each group and chunk that a row has.
const PLACES: [Index; 15] = [
    3,
    64,
    4_096,
    262_144,
    270_000,
    524_288,
    600_000,
    786_432,
    800_000,
    16_777_216,
    16_800_000,
    20_000_000,
    33_554_432,
    1_073_479_680,
    1_073_741_823,
];

// Returns whether unions with another set agree.
fn unite_alike<B: BitSetLike>(
    alloc: Global,
    ours: &[Index],
    other: &B,
) -> Result<bool, AllocError> {
    let (mut sparse, mut dense) = both_of(alloc, ours)?;
    sparse.bitor_assign(other)?;
    dense.bitor_assign(other)?;
    agree(alloc, &sparse, &dense, &PLACES)
}

// Returns whether symmetric differences with another set agree.
fn differ_alike<B: BitSetLike>(
    alloc: Global,
    ours: &[Index],
    other: &B,
) -> Result<bool, AllocError> {
    let (mut sparse, mut dense) = both_of(alloc, ours)?;
    sparse.bitxor_assign(other)?;
    dense.bitxor_assign(other)?;
    agree(alloc, &sparse, &dense, &PLACES)
}

// Returns whether intersections with another set agree.
fn intersect_alike<B: BitSetLike>(
    alloc: Global,
    ours: &[Index],
    other: &B,
) -> Result<bool, AllocError> {
    let (mut sparse, mut dense) = both_of(alloc, ours)?;
    sparse &= other;
    dense &= other;
    agree(alloc, &sparse, &dense, &PLACES)
}

// Returns whether differences agree, by `-=` and by `subtract_assign`.
fn subtract_alike<B: BitSetLike>(
    alloc: Global,
    ours: &[Index],
    other: &B,
) -> Result<bool, AllocError> {
    let (mut sparse, mut dense) = both_of(alloc, ours)?;
    let mut again = sparse_of(alloc, ours)?;
    sparse -= other;
    again.subtract_assign(other);
    dense -= other;
    Ok(agree_at(&again, &dense, &PLACES) && agree(alloc, &sparse, &dense, &PLACES)?)
}

// Returns whether all assignments by another set agree.
fn assign_alike<B: BitSetLike>(
    alloc: Global,
    ours: &[Index],
    other: &B,
) -> Result<bool, AllocError> {
    Ok(
        unite_alike(alloc, ours, other)?
            && differ_alike(alloc, ours, other)?
            && intersect_alike(alloc, ours, other)?
            && subtract_alike(alloc, ours, other)?,
    )
}

// Returns whether assignments agree by a dense set, and by a sparse copy of it.
fn assign_stored_alike(
    alloc: Global,
    ours: &[Index],
    theirs: &[Index],
) -> Result<bool, AllocError> {
    let dense = dense_of(alloc, theirs)?;
    let copy = SparseBitSet::from_set(alloc, &dense)?;
    Ok(assign_alike(alloc, ours, &dense)? && assign_alike(alloc, ours, &copy)?)
}

// Chunks of the other set lie before, between and after those of the set. A chunk that becomes empty is gone, and the
// others stay.
#[test]
fn by_stored_sets(rt: HostRuntime) -> Result<(), Fail> {
    let rows: [(&[Index], &[Index]); 7] = [
        (&OURS, &THEIRS),
        (&[], &THEIRS),
        (&OURS, &[]),
        (&OURS, &OURS),
        (
            &[262_144, 262_145, 800_000, 20_000_000],
            &[5, 600_000, 16_800_000, 33_554_432],
        ),
        (&[5, 262_144, 262_145, 16_777_216], &[262_144, 262_145]),
        (&[5, 16_777_216], &[5, 262_144]),
    ];
    for (ours, theirs) in rows {
        assert!(rt; assign_stored_alike(rt.alloc(), ours, theirs)?);
    }
    Ok(())
}

// Returns whether assignments agree by an intersection and by a symmetric difference of two sets.
fn assign_both_alike(
    alloc: Global,
    ours: &[Index],
    a: &[Index],
    b: &[Index],
) -> Result<bool, AllocError> {
    let a = sparse_of(alloc, a)?;
    let b = sparse_of(alloc, b)?;
    Ok(assign_alike(alloc, ours, &(&a & &b))? && assign_alike(alloc, ours, &(&a ^ &b))?)
}

// The intersections have bits over words that are zero, and so over chunks without members; the last is a phantom.
#[test]
fn by_virtual_sets(rt: HostRuntime) -> Result<(), Fail> {
    let a = [5, 4_096, 262_144].as_slice();
    let b = [6, 4_097, 262_145].as_slice();
    let rows: [(&[Index], &[Index], &[Index]); 4] = [
        (&OURS, &OURS, &THEIRS),
        (&[3, 5, 524_288, 16_777_216], &OURS, &THEIRS),
        (&[], a, b),
        (&[5, 262_145], a, b),
    ];
    for (ours, a, b) in rows {
        assert!(rt; assign_both_alike(rt.alloc(), ours, a, b)?);
    }
    Ok(())
}

// Returns whether what leaves full chunks alone, or empties them, agrees.
fn complement_alike(alloc: Global, theirs: &[Index]) -> Result<bool, AllocError> {
    let theirs = sparse_of(alloc, theirs)?;
    let other = !&theirs;
    Ok(intersect_alike(alloc, &OURS, &other)? && subtract_alike(alloc, &OURS, &other)?)
}

#[test]
fn by_complements_and_ranges(rt: HostRuntime) -> Result<(), Fail> {
    for theirs in [THEIRS.as_slice(), &[]] {
        assert!(rt; complement_alike(rt.alloc(), theirs)?);
    }
    for (start, end) in [(60, 66), (65, 300_000), (262_144, 524_288), (9, 9)] {
        assert!(rt; assign_alike(rt.alloc(), &OURS, &BitSetRange { start, end })?);
    }
    Ok(())
}

#[test]
fn by_a_set_in_the_last_chunk(rt: HostRuntime) -> Result<(), Fail> {
    let last = sparse_of(rt.alloc(), &[1_073_479_680, 1_073_741_823])?;
    assert!(rt; assign_alike(rt.alloc(), &[5, 1_073_741_823], &last)?);
    Ok(())
}
