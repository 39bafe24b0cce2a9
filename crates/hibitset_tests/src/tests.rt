//! Values from outside: worked rows, each public call at least once, and types of the tests' own.
mod assignments;
mod building;
mod callers;
mod comparisons;
mod costs;
mod drains;
mod indices;
mod life;
mod made;
mod once;
mod operators;
mod order;
mod parallel;
mod ranges;
mod splits;
mod walks;

use hibitset::{BitSet, BitSetLike, Index};
use hibitset_base::util::MAX_EID;
use std::alloc::{AllocError, Global};
use std::process::Abort;

// So many of every second index, from the first on.
fn every_second(alloc: Global, first: Index, count: u32) -> Result<BitSet, AllocError> {
    let mut set = BitSet::new(alloc);
    for k in 0..count {
        let id = k.wrapping_mul(2).wrapping_add(first);
        if (id as usize) < MAX_EID {
            set.add(id)?;
        }
    }
    Ok(set)
}

// The functions below compare for many tests: a comparison in a test makes the proof of all that follows there longer,
// and a call of one of these hardly does. None of them allocates, since each `?` makes it longer too.

fn assert_that(rt: &impl Abort, holds: bool) {
    assert!(rt; holds);
}

// Sees that these indices were given.
fn assert_indices(rt: &impl Abort, found: &[Index], ids: &[Index]) {
    assert_eq!(rt; found, ids);
}

// Sees that this index was given, or none.
fn assert_index(rt: &impl Abort, found: Option<Index>, wanted: Option<Index>) {
    assert_eq!(rt; found, wanted);
}

fn assert_words(rt: &impl Abort, found: &[usize], wanted: &[usize]) {
    assert_eq!(rt; found, wanted);
}

fn assert_count(rt: &impl Abort, found: usize, wanted: usize) {
    assert_eq!(rt; found, wanted);
}

// Returns whether a walk over a set gives these indices.
fn gives<T: BitSetLike>(set: T, ids: &[Index]) -> bool {
    let mut walk = set.iter();
    for id in ids {
        if walk.next() != Some(*id) {
            return false;
        }
    }
    walk.next().is_none()
}

// Sees that a walk over a set gives these indices.
fn assert_members<T: BitSetLike>(rt: &impl Abort, set: T, ids: &[Index]) {
    assert!(rt; gives(set, ids));
}
