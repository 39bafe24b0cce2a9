//! Atomic sets made of the items of an iterator.
use crate::tests::assert_members;
use hibitset_atomic::AtomicBitSet;
use hibitset_base::util::Index;
use hibitset_base::{BitSetLike, BuildError};
use std::alloc::{AllocError, Global};
use std::process::Abort;
use std::test::Fail;

// Items of which one is out of range, and the error that says so.
const ITEMS: [u32; 4] = [3, 9, 16777216, 4];

const REFUSED: BuildError = BuildError::OutOfRange {
    place: 2,
    index: 16777216,
};

// Sees that no set was made, and why.
fn assert_refused(rt: &impl Abort, made: Result<AtomicBitSet, BuildError>, error: BuildError) {
    match made {
        Ok(_) => assert!(rt; false, "an index past the range was taken"),
        Err(refused) => assert_eq!(rt; refused, error),
    }
}

// Sees that a set took the items before one that was refused, and why.
fn assert_stopped(rt: &impl Abort, ended: Result<(), BuildError>, error: BuildError) {
    assert_eq!(rt; ended, Err(error));
}

fn assert_next(rt: &impl Abort, found: Option<Index>, wanted: Index) {
    assert_eq!(rt; found, Some(wanted));
}

#[test]
fn building(rt: HostRuntime) -> Result<(), Fail> {
    let set = AtomicBitSet::from_indices(rt.alloc(), [9u32, 3, 16777215, 3].iter().copied())?;
    assert_members(&rt, &set, &[3, 9, 16777215])?;
    Ok(())
}

#[test]
fn building_by_references(rt: HostRuntime) -> Result<(), Fail> {
    let refs = AtomicBitSet::from_index_refs(rt.alloc(), &[5u32, 5, 3])?;
    assert_members(&rt, &refs, &[3, 5])?;
    let other = AtomicBitSet::from_indices(rt.alloc(), &refs)?;
    assert_members(&rt, &other, &[3, 5])?;
    Ok(())
}

#[test]
fn slices(rt: HostRuntime) -> Result<(), Fail> {
    let mut set = AtomicBitSet::from_slice(rt.alloc(), &[9, 3, 16777215, 3])?;
    assert_members(&rt, &set, &[3, 9, 16777215])?;
    set.extend_from_slice(&[70, 3])?;
    assert_members(&rt, &set, &[3, 9, 70, 16777215])?;
    assert_stopped(&rt, set.extend_from_slice(&ITEMS), REFUSED);
    assert_members(&rt, &set, &[3, 9, 70, 16777215])?;
    assert_refused(&rt, AtomicBitSet::from_slice(rt.alloc(), &ITEMS), REFUSED);
    Ok(())
}

#[test]
fn building_past_the_range(rt: HostRuntime) {
    let made = AtomicBitSet::from_indices(rt.alloc(), [16777216u32].iter().copied());
    let error = BuildError::OutOfRange {
        place: 0,
        index: 16777216,
    };
    assert_refused(&rt, made, error);
    let made = AtomicBitSet::from_index_refs(rt.alloc(), &[7u32, 4294967295]);
    let error = BuildError::OutOfRange {
        place: 1,
        index: 4294967295,
    };
    assert_refused(&rt, made, error);
}

#[test]
fn extending_past_the_range(rt: HostRuntime) -> Result<(), AllocError> {
    let mut set = AtomicBitSet::new(rt.alloc())?;
    let mut iter = ITEMS.iter().copied();
    assert_stopped(&rt, set.extend_indices(&mut iter), REFUSED);
    assert_next(&rt, iter.next(), 4);
    assert_members(&rt, &set, &[3, 9])?;
    assert_stopped(&rt, set.extend_index_refs(&ITEMS), REFUSED);
    assert!(rt; set.extend_indices(10..12) == Ok(()));
    assert_members(&rt, &set, &[3, 9, 10, 11])
}

// After a refusal, the iterator goes on after the item that was refused.
#[test]
fn no_item_is_drawn_after_one_out_of_range(rt: HostRuntime) -> Result<(), AllocError> {
    let mut set = AtomicBitSet::new(rt.alloc())?;
    let mut left = ITEMS.iter().copied();
    assert_stopped(&rt, set.extend_indices(&mut left), REFUSED);
    assert_next(&rt, left.next(), 4);
    let mut left = ITEMS.iter();
    assert_stopped(&rt, set.extend_index_refs(&mut left), REFUSED);
    assert_next(&rt, left.next().copied(), 4);
    Ok(())
}

#[test]
fn no_item_is_drawn_after_one_that_no_set_takes(rt: HostRuntime) {
    let mut left = ITEMS.iter().copied();
    assert_refused(
        &rt,
        AtomicBitSet::from_indices(rt.alloc(), &mut left),
        REFUSED,
    );
    assert_next(&rt, left.next(), 4);
    let mut left = ITEMS.iter();
    assert_refused(
        &rt,
        AtomicBitSet::from_index_refs(rt.alloc(), &mut left),
        REFUSED,
    );
    assert_next(&rt, left.next().copied(), 4);
}

// So many indices of two blocks, one that is out of range, and one more.
fn long_list(alloc: Global, count: u32) -> Result<Vec<Index>, AllocError> {
    let mut items = Vec::new(alloc);
    for index in 0..count {
        items.push(index)?;
    }
    items.push(16_777_217)?;
    items.push(3)?;
    Ok(items)
}

// What is said of the item out of range in a long list.
const FAR: BuildError = BuildError::OutOfRange {
    place: 5_000,
    index: 16_777_217,
};

#[test]
fn far_from_the_first_place(rt: HostRuntime) -> Result<(), AllocError> {
    let items = long_list(rt.alloc(), 5_000)?;
    let mut left = items.iter().copied();
    assert_refused(&rt, AtomicBitSet::from_indices(rt.alloc(), &mut left), FAR);
    assert_next(&rt, left.next(), 3);
    let mut left = items.iter();
    assert_refused(
        &rt,
        AtomicBitSet::from_index_refs(rt.alloc(), &mut left),
        FAR,
    );
    assert_next(&rt, left.next().copied(), 3);
    Ok(())
}

#[test]
fn extending_far_from_the_first_place(rt: HostRuntime) -> Result<(), AllocError> {
    let items = long_list(rt.alloc(), 5_000)?;
    let mut set = AtomicBitSet::new(rt.alloc())?;
    let mut left = items.iter().copied();
    assert_stopped(&rt, set.extend_indices(&mut left), FAR);
    assert_next(&rt, left.next(), 3);
    assert!(rt; set.len() == 5_000);
    set.clear();
    let mut left = items.iter();
    assert_stopped(&rt, set.extend_index_refs(&mut left), FAR);
    assert_next(&rt, left.next().copied(), 3);
    assert!(rt; set.len() == 5_000);
    Ok(())
}

#[test]
fn of_no_items(rt: HostRuntime) -> Result<(), Fail> {
    let set = AtomicBitSet::from_indices(rt.alloc(), 0..0)?;
    let refs = AtomicBitSet::from_index_refs(rt.alloc(), &[0u32; 0])?;
    assert!(rt; set.is_empty() && refs.is_empty());
    Ok(())
}
