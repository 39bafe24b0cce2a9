//! Sets made of the items of an iterator.
use crate::tests::{assert_index, assert_members, assert_that};
use hibitset::{BitSet, BuildError};
use std::alloc::{AllocError, Global};
use std::process::Abort;
use std::test::Fail;

// Items of which one is out of range, and the error that says so.
const ITEMS: [u32; 4] = [3, 9, 1073741824, 4];

const REFUSED: BuildError = BuildError::OutOfRange {
    place: 2,
    index: 1073741824,
};

fn made_of(alloc: Global, items: &[u32]) -> Result<BitSet, BuildError> {
    BitSet::from_indices(alloc, items.iter().copied())
}

#[test]
fn building(rt: HostRuntime) -> Result<(), Fail> {
    let set = made_of(rt.alloc(), &[9, 3, 16777215, 3])?;
    assert_members(&rt, &set, &[3, 9, 16777215]);
    let one = made_of(rt.alloc(), &[16777216])?;
    assert_members(&rt, &one, &[16777216]);
    Ok(())
}

#[test]
fn building_by_references(rt: HostRuntime) -> Result<(), Fail> {
    let refs = BitSet::from_index_refs(rt.alloc(), &[5u32, 5, 3])?;
    assert_members(&rt, &refs, &[3, 5]);
    Ok(())
}

#[test]
fn slices(rt: HostRuntime) -> Result<(), Fail> {
    let mut set = BitSet::from_slice(rt.alloc(), &[9, 3, 16777216, 3])?;
    set.extend_from_slice(&[70, 3])?;
    assert_members(&rt, &set, &[3, 9, 70, 16777216]);
    assert_that(&rt, set.extend_from_slice(&ITEMS) == Err(REFUSED));
    Ok(())
}

// Sees that no set was made, and why.
fn assert_refused(rt: &impl Abort, made: Result<BitSet, BuildError>, error: BuildError) {
    assert!(rt; made.err() == Some(error));
}

#[test]
fn building_past_the_range(rt: HostRuntime) {
    let made = made_of(rt.alloc(), &[1073741824]);
    let error = BuildError::OutOfRange {
        place: 0,
        index: 1073741824,
    };
    assert_refused(&rt, made, error);
}

// After a refusal, the iterator goes on after the item that was refused.
#[test]
fn extending_past_the_range(rt: HostRuntime) {
    let mut set = BitSet::new(rt.alloc());
    let mut left = ITEMS.iter().copied();
    assert_that(&rt, set.extend_indices(&mut left) == Err(REFUSED));
    assert_index(&rt, left.next(), Some(4));
    assert_members(&rt, &set, &[3, 9]);
}

#[test]
fn extending_past_the_range_by_references(rt: HostRuntime) {
    let mut set = BitSet::new(rt.alloc());
    let mut left = ITEMS.iter();
    assert_that(&rt, set.extend_index_refs(&mut left) == Err(REFUSED));
    assert_index(&rt, left.next().copied(), Some(4));
    assert_members(&rt, &set, &[3, 9]);
}

#[test]
fn extending(rt: HostRuntime) {
    let mut set = BitSet::new(rt.alloc());
    assert_that(&rt, set.extend_indices(10..12) == Ok(()));
    assert_that(&rt, set.extend_index_refs(&[3u32, 11]) == Ok(()));
    assert_members(&rt, &set, &[3, 10, 11]);
}

// Returns whether an error is told so.
fn is_told(alloc: Global, error: BuildError, wanted: &str) -> Result<bool, AllocError> {
    let text = format!(in alloc; "{error}")?;
    Ok(text.as_str() == wanted)
}

#[test]
fn errors_are_told(rt: HostRuntime) -> Result<(), AllocError> {
    let text = "index 1073741824 at place 2 is out of range";
    assert_that(&rt, is_told(rt.alloc(), REFUSED, text)?);
    let memory = BuildError::Memory { place: 1 };
    let text = "no memory for the index at place 1";
    assert_that(&rt, is_told(rt.alloc(), memory, text)?);
    Ok(())
}

// The iterator goes on so also where a set is made of the items.
#[test]
fn no_item_is_drawn_for_a_set_that_is_not_made(rt: HostRuntime) {
    let mut left = ITEMS.iter().copied();
    assert_refused(&rt, BitSet::from_indices(rt.alloc(), &mut left), REFUSED);
    assert_index(&rt, left.next(), Some(4));
}

#[test]
fn no_item_is_drawn_for_a_set_that_is_not_made_of_references(rt: HostRuntime) {
    let mut left = ITEMS.iter();
    assert_refused(&rt, BitSet::from_index_refs(rt.alloc(), &mut left), REFUSED);
    assert_index(&rt, left.next().copied(), Some(4));
}
