//! Ranges added and taken out, the ends of a set, and words in and out.
use crate::tests::{assert_count, assert_index, assert_members, assert_that, assert_words};
use hibitset::{BitSet, BitSetAll, BitSetLike, BitSetNot, Index, MAX_EID};
use hibitset_testing::sets::set_of;
use std::alloc::AllocError;

#[test]
fn ranges_added(rt: HostRuntime) -> Result<(), AllocError> {
    let mut set = set_of(rt.alloc(), &[3, 64, 200])?;
    set.add_range(62, 66)?;
    set.add_range(128, 256)?;
    let words = [0xC000_0000_0000_0008, 3, usize::MAX, usize::MAX];
    assert_words(&rt, set.layer0_as_slice(), &words);
    assert_words(&rt, set.layer1_as_slice(), &[15]);
    Ok(())
}

#[test]
fn ranges_removed(rt: HostRuntime) -> Result<(), AllocError> {
    let mut set = BitSet::new(rt.alloc());
    set.add_range(0, 8_193)?;
    set.remove_range(10, 8_190);
    set.remove_range(3, 5);
    set.remove_range(8_192, Index::MAX);
    assert_members(&rt, &set, &[0, 1, 2, 5, 6, 7, 8, 9, 8_190, 8_191]);
    assert_words(&rt, set.layer1_as_slice(), &[1, 1 << 63, 0]);
    Ok(())
}

#[test]
fn last_members(rt: HostRuntime) -> Result<(), AllocError> {
    let set = set_of(rt.alloc(), &[5, 262_144])?;
    assert_index(&rt, set.first(), Some(5));
    assert_index(&rt, set.last(), Some(262_144));
    assert_index(&rt, BitSetNot(&set).last(), Some(MAX_EID as Index - 1));
    Ok(())
}

#[test]
fn gaps(rt: HostRuntime) -> Result<(), AllocError> {
    let set = set_of(rt.alloc(), &[0, 1, 4])?;
    assert_index(&rt, set.first_gap(0), Some(2));
    assert_index(&rt, set.first_gap(4), Some(5));
    assert_index(&rt, BitSetAll.first_gap(MAX_EID as Index - 64), None);
    Ok(())
}

// Returns whether sets are disjoint and subsets as said: `a` and `b` have no member in common, and `c` has one with each.
fn are_related(a: &BitSet, b: &BitSet, c: &BitSet) -> bool {
    a.is_disjoint(b)
        && !a.is_disjoint(c)
        && !c.is_subset(a)
        && c.is_subset(&(a | b))
        && a.is_subset(&BitSetAll)
        && !BitSetAll.is_subset(a)
}

#[test]
fn disjoint_sets_and_subsets(rt: HostRuntime) -> Result<(), AllocError> {
    let a = set_of(rt.alloc(), &[1, 70, 300_000])?;
    let b = set_of(rt.alloc(), &[2, 71, 300_001])?;
    let c = set_of(rt.alloc(), &[2, 300_000])?;
    assert_that(&rt, are_related(&a, &b, &c));
    Ok(())
}

#[test]
fn a_set_of_words(rt: HostRuntime) -> Result<(), AllocError> {
    let set = BitSet::from_words(rt.alloc(), &[8, 0, 0, 3, 0])?;
    assert_members(&rt, &set, &[3, 192, 193]);
    assert_words(&rt, set.layer0_as_slice(), &[8, 0, 0, 3, 0]);
    assert_words(&rt, set.layer1_as_slice(), &[9]);
    Ok(())
}

#[test]
fn a_set_of_a_vector(rt: HostRuntime) -> Result<(), AllocError> {
    let mut words = BitSet::vec_with_room(rt.alloc(), 70)?;
    words.resize(70, 0)?;
    words[3] = 8;
    let set = BitSet::from_vec(words)?;
    assert_members(&rt, &set, &[195]);
    assert_words(&rt, set.layer1_as_slice(), &[8, 0]);
    Ok(())
}

// As many words as layer 0 may have, of which the last alone is nonzero.
#[test]
fn words_of_all_indices(rt: HostRuntime) -> Result<(), AllocError> {
    let last = MAX_EID as Index - 1;
    let far = set_of(rt.alloc(), &[last])?;
    assert_count(&rt, far.layer0_as_slice().len(), 16_777_216);
    let copy = BitSet::from_words(rt.alloc(), far.layer0_as_slice())?;
    assert_members(&rt, &copy, &[last]);
    let mut words = BitSet::vec_with_room(rt.alloc(), 16_777_216)?;
    words.extend_from_slice(copy.layer0_as_slice())?;
    let kept = BitSet::from_vec(words)?;
    assert_members(&rt, &kept, &[last]);
    Ok(())
}
