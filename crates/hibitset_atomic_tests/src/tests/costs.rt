//! Calls whose time does not grow with the set: each is made so often that the test is cut short if it does.
use hibitset_atomic::atomic::AtomicBitSet;
use hibitset_base::{BitSetLike, Index};
use std::alloc::{AllocError, Global};

// How often a call is made.
const STEPS: u32 = 300_000;

// How many words of layer 0 there are.
const WORDS: Index = 262_144;

// The set of the first index of each word.
fn one_a_word(alloc: Global) -> Result<AtomicBitSet, AllocError> {
    let mut set = AtomicBitSet::new(alloc)?;
    for word in 0..WORDS {
        set.add(64 * word)?;
    }
    Ok(set)
}

// Adds a low index and takes it out again, many times, and returns whether the set is never empty.
fn is_never_empty(set: &mut AtomicBitSet) -> bool {
    for _ in 0..STEPS {
        if set.add(5) != Ok(false) || !set.remove(5) || set.is_empty() {
            return false;
        }
    }
    true
}

#[test]
fn is_empty_of_many_members(rt: HostRuntime) -> Result<(), AllocError> {
    let mut set = one_a_word(rt.alloc())?;
    assert!(rt; is_never_empty(&mut set));
    Ok(())
}

// Adds a low index and clears the set, many times, and returns whether it is empty each time.
fn is_cleared(set: &mut AtomicBitSet) -> bool {
    for _ in 0..STEPS {
        if set.add(5) != Ok(false) {
            return false;
        }
        set.clear();
        if !set.is_empty() {
            return false;
        }
    }
    true
}

// All blocks stay, and each time one word is nonzero.
#[test]
fn clear_of_one_member_among_many_blocks(rt: HostRuntime) -> Result<(), AllocError> {
    let mut set = one_a_word(rt.alloc())?;
    set.clear();
    assert!(rt; is_cleared(&mut set));
    Ok(())
}
