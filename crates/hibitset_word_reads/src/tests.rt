//! Values from outside:
//! walks and assignments over types of the tests' own, which count or list the words that are read, or have all bits in
//! the layers above the lowest.
mod clones;
mod ends;
mod joins;
mod once;
mod parts;
mod reach;
mod reads;
mod strangers;
mod virtual_sets;
mod watched;
mod words;

use hibitset::{BitSet, Index};
use std::alloc::{AllocError, Global};
use std::process::Abort;

// Every eighth index of the first 65,536 words: so many are collected in threads.
fn every_eighth(alloc: Global) -> Result<BitSet, AllocError> {
    let words = vec![in alloc; 0x0101_0101_0101_0101usize; 65_536]?;
    BitSet::from_words(alloc, words.as_slice())
}

// The functions below compare for many tests: a comparison in a test makes the proof of all that follows there longer,
// and a call of one of these hardly does.

// Sees that these indices were given.
fn assert_indices(rt: &impl Abort, found: &[Index], ids: &[Index]) {
    assert_eq!(rt; found, ids);
}

// Sees that this index was given, or none.
fn assert_index(rt: &impl Abort, found: Option<Index>, wanted: Option<Index>) {
    assert_eq!(rt; found, wanted);
}

fn assert_count(rt: &impl Abort, found: usize, wanted: usize) {
    assert_eq!(rt; found, wanted);
}
