//! A call that goes over a set once, however many windows it is asked for: the test is cut short if each goes over it
//! anew.
use hibitset::{BitSet, Index};
use std::alloc::{AllocError, Global};
use std::test::Fail;
use uses::results::histogram;

// How many words of layer 0 the rows lie in.
const WORDS: usize = 1_048_576;

// How many rows a window has.
const WIDTH: Index = 128;

// The set of every eighth row.
fn every_eighth(alloc: Global) -> Result<BitSet, AllocError> {
    let words = vec![in alloc; 0x0101_0101_0101_0101usize; WORDS]?;
    BitSet::from_words(alloc, words.as_slice())
}

// Half a million windows.
#[test]
fn histogram_of_many_windows(rt: HostRuntime) -> Result<(), Fail> {
    let found = every_eighth(rt.alloc())?;
    let counts = histogram(rt.alloc(), &found, 67_108_864, WIDTH)?;
    assert!(rt; counts.len() == 524_288 && counts.iter().all(|count| *count == 16));
    Ok(())
}
