//! Assignments, by sets that keep their words and by virtual ones.
use crate::tests::{assert_count, assert_members, assert_that, gives};
use hibitset::{BitSet, BitSetAnd, BitSetLike, Index, MAX_EID};
use hibitset_testing::sets::set_of;
use std::alloc::{AllocError, Global};

// The indices of two sets, those that an assignment leaves in the first, and the word of layer 3 over these.
type Row<'a> = (&'a [Index], &'a [Index], &'a [Index], usize);

// Returns whether a set has the indices that a row leaves, under its word of layer 3.
fn has_left(set: &BitSet, row: Row<'_>) -> bool {
    let (_, _, left, layer3) = row;
    set.is_empty() == left.is_empty() && set.layer3(0) == layer3 && gives(set, left)
}

// Returns whether a set that keeps what another has too has what the row leaves.
fn leaves_of_both(alloc: Global, row: Row<'_>) -> Result<bool, AllocError> {
    let (ours, theirs, _, layer3) = row;
    let mut set = set_of(alloc, ours)?;
    set &= &set_of(alloc, theirs)?;
    Ok(set.layer4() == layer3.min(1) && has_left(&set, row))
}

#[test]
fn intersections(rt: HostRuntime) -> Result<(), AllocError> {
    let rows: [Row<'_>; 7] = [
        (
            &[1, 3, 5, 15, 200, 50001],
            &[1, 3, 50000, 50001],
            &[1, 3, 50001],
            1,
        ),
        (&[0, 262144], &[0], &[0], 1),
        (&[16515072], &[], &[], 0),
        (&[1056964608], &[], &[], 0),
        (&[0, 262144, 262208], &[262144, 262272], &[262144], 2),
        (&[0, 1], &[2], &[], 0),
        (&[532544], &[532545], &[], 0),
    ];
    for row in rows {
        assert_that(&rt, leaves_of_both(rt.alloc(), row)?);
    }
    Ok(())
}

const LAST_WORD: [Index; 2] = [1_073_741_822, 1_073_741_823];

#[test]
fn a_union_with_the_last_word(rt: HostRuntime) -> Result<(), AllocError> {
    let last = set_of(rt.alloc(), &LAST_WORD)?;
    let mut set = set_of(rt.alloc(), &[5])?;
    set.bitor_assign(&last)?;
    assert_members(&rt, &set, &[5, LAST_WORD[0], LAST_WORD[1]]);
    Ok(())
}

#[test]
fn an_exclusive_or_with_the_last_word(rt: HostRuntime) -> Result<(), AllocError> {
    let last = set_of(rt.alloc(), &LAST_WORD)?;
    let mut set = set_of(rt.alloc(), &[5])?;
    set.bitxor_assign(&last)?;
    assert_members(&rt, &set, &[5, LAST_WORD[0], LAST_WORD[1]]);
    Ok(())
}

#[test]
fn a_union_with_a_phantom(rt: HostRuntime) -> Result<(), AllocError> {
    let a = set_of(rt.alloc(), &[4096])?;
    let b = set_of(rt.alloc(), &[4097])?;
    let mut set = BitSet::new(rt.alloc());
    set.bitor_assign(&BitSetAnd(&a, &b))?;
    assert_members(&rt, &set, &[]);
    assert_count(&rt, set.layer4(), 0);
    Ok(())
}

#[test]
fn exclusive_or_twice(rt: HostRuntime) -> Result<(), AllocError> {
    let mut set = set_of(rt.alloc(), &[0, 262144, 266240])?;
    let other = set_of(rt.alloc(), &[262144, 270336])?;
    set.bitxor_assign(&other)?;
    assert_members(&rt, &set, &[0, 266240, 270336]);
    set.bitxor_assign(&other)?;
    assert_members(&rt, &set, &[0, 262144, 266240]);
    Ok(())
}

// The first 10,000 multiples of a number.
fn comb_of(alloc: Global, step: Index) -> Result<BitSet, AllocError> {
    let mut comb = BitSet::new(alloc);
    for n in 0..10_000u32 {
        let id = step.wrapping_mul(n);
        if (id as usize) < MAX_EID {
            comb.add(id)?;
        }
    }
    Ok(comb)
}

#[test]
fn two_combs(rt: HostRuntime) -> Result<(), AllocError> {
    let mut comb = comb_of(rt.alloc(), 448)?;
    let other = comb_of(rt.alloc(), 832)?;
    let mut or = comb.clone()?;
    or.bitor_assign(&other)?;
    assert_count(&rt, (&or).iter().count(), 19230);
    let mut xor = comb.clone()?;
    xor.bitxor_assign(&other)?;
    assert_count(&rt, (&xor).iter().count(), 18460);
    comb &= &other;
    assert_count(&rt, (&comb).iter().count(), 770);
    Ok(())
}

#[test]
fn adding_after_an_intersection(rt: HostRuntime) -> Result<(), AllocError> {
    let mut set = set_of(rt.alloc(), &[0, 4096])?;
    set &= &set_of(rt.alloc(), &[0])?;
    set.add(4160)?;
    assert_members(&rt, &set, &[0, 4160]);
    Ok(())
}

// Returns whether a set that loses what another has, once and once more, has what the row leaves, over as many words as
// before.
fn leaves_of_first(alloc: Global, row: Row<'_>) -> Result<bool, AllocError> {
    let (ours, theirs, _, _) = row;
    let mut set = set_of(alloc, ours)?;
    let words = set.layer0_as_slice().len();
    let other = set_of(alloc, theirs)?;
    set.subtract_assign(&other);
    let has_words = set.layer0_as_slice().len() == words;
    let is_left = has_left(&set, row);
    let once = set.clone()?;
    set.subtract_assign(&other);
    Ok(has_words && is_left && set == once)
}

#[test]
fn differences(rt: HostRuntime) -> Result<(), AllocError> {
    let rows: [Row<'_>; 8] = [
        (
            &[1, 3, 5, 15, 200, 50001],
            &[1, 3, 50000, 50001],
            &[5, 15, 200],
            1,
        ),
        (&[0, 262144], &[0], &[262144], 2),
        (&[0, 262144], &[262144], &[0], 1),
        (&[63, 64, 4095, 4096], &[64, 4095], &[63, 4096], 1),
        (&[1073741823], &[1073741822], &[1073741823], 0),
        (&[5], &[5, 1073741823], &[], 0),
        (&[], &[5], &[], 0),
        (&[5, 300000], &[], &[5, 300000], 3),
    ];
    for row in rows {
        assert_that(&rt, leaves_of_first(rt.alloc(), row)?);
    }
    Ok(())
}
