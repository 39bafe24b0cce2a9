//! Calls whose time does not grow with the set: each is made so often that the test is cut short if it does.
use hibitset::{BitSet, BitSetLike};
use hibitset_testing::sets::set_of;
use std::alloc::{AllocError, Global};

// How often a call is made.
const STEPS: u32 = 500_000;

// Adds a low index and takes it out again, many times, and returns whether the set is never empty.
fn is_never_empty(set: &mut BitSet) -> bool {
    for _ in 0..STEPS {
        if set.add(5) != Ok(false) || !set.remove(5) || set.is_empty() {
            return false;
        }
    }
    true
}

#[test]
fn is_empty_below_a_far_member(rt: HostRuntime) -> Result<(), AllocError> {
    let mut set = set_of(rt.alloc(), &[67_108_863])?;
    assert!(rt; is_never_empty(&mut set));
    Ok(())
}

// All indices of a million words but one.
#[test]
fn is_empty_of_many_members(rt: HostRuntime) -> Result<(), AllocError> {
    let mut set = million_words(rt.alloc())?;
    assert!(rt; set.remove(5));
    assert!(rt; is_never_empty(&mut set));
    Ok(())
}

// Clears the set and adds a low index, many times, and returns whether that alone is there each time.
fn is_cleared(set: &mut BitSet) -> Result<bool, AllocError> {
    for _ in 0..STEPS {
        set.clear();
        if !set.is_empty() || set.add(5)? || set.layer0_as_slice().len() != 1 {
            return Ok(false);
        }
    }
    Ok(true)
}

// The memory that `clear` keeps has a million words, which are written once they are to be members' again.
#[test]
fn clear_after_a_far_member(rt: HostRuntime) -> Result<(), AllocError> {
    let mut set = set_of(rt.alloc(), &[67_108_863])?;
    assert!(rt; is_cleared(&mut set)?);
    Ok(())
}

// Compares two sets many times, and returns whether they differ each time.
fn always_differ(set: &BitSet, other: &BitSet) -> bool {
    for _ in 0..STEPS {
        if set == other {
            return false;
        }
    }
    true
}

// Returns the set of all indices below 67,108,864, which has a million words.
fn million_words(alloc: Global) -> Result<BitSet, AllocError> {
    let mut set = BitSet::new(alloc);
    set.add_range(0, 67_108_864)?;
    Ok(set)
}

#[test]
fn equality_after_the_first_difference(rt: HostRuntime) -> Result<(), AllocError> {
    let whole = million_words(rt.alloc())?;
    let mut rest = million_words(rt.alloc())?;
    assert!(rt; rest.remove(5));
    assert!(rt; always_differ(&whole, &rest));
    assert!(rt; always_differ(&rest, &whole));
    Ok(())
}
