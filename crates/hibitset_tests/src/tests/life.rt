//! A set from `new` to `clear`.
use crate::tests::{assert_count, assert_members, assert_that, assert_words, gives};
use hibitset::util::{ATOMIC_MAX_EID, Row, average_ones};
use hibitset::{BitSet, BitSetLike, Index};
use hibitset_base::util::{LAYERS, MAX, MAX_EID, SHIFT0, SHIFT1, SHIFT2, SHIFT3, SHIFT4};
use hibitset_testing::sets::set_of;
use std::alloc::{AllocError, Global};

#[test]
fn constants(rt: HostRuntime) {
    assert_words(&rt, &[LAYERS, MAX, MAX_EID], &[5, 30, 1_073_741_824]);
    let shifts = [SHIFT0, SHIFT1, SHIFT2, SHIFT3, SHIFT4];
    assert_words(&rt, &shifts, &[0, 6, 12, 18, 24]);
    let words = [
        BitSet::BITS_PER_USIZE,
        BitSet::LAYER1_GRANULARITY,
        BitSet::LAYER2_GRANULARITY,
        BitSet::LAYER3_GRANULARITY,
    ];
    assert_words(&rt, &words, &[64, 64, 4_096, 262_144]);
}

#[test]
fn what_util_has(rt: HostRuntime) {
    let limits = [ATOMIC_MAX_EID, hibitset::ATOMIC_MAX_EID];
    assert_words(&rt, &limits, &[16_777_216, 16_777_216]);
    assert_that(
        &rt,
        average_ones(0b1011) == Some(3) && 70_000u32.row(6) == 5,
    );
}

// Returns whether no layer has a word.
fn has_no_words(set: &BitSet) -> bool {
    set.layer0_as_slice().is_empty()
        && set.layer1_as_slice().is_empty()
        && set.layer2_as_slice().is_empty()
        && set.layer3_as_slice().is_empty()
}

#[test]
fn an_empty_set(rt: HostRuntime) {
    let set = BitSet::new(rt.alloc());
    assert_that(&rt, set.is_empty() && has_no_words(&set));
    assert_members(&rt, &set, &[]);
}

// Returns whether a set has the words over 12,345, and none else there, by slices and by positions.
fn has_words_of_12345(set: &BitSet) -> bool {
    let slices = [
        set.layer0_as_slice().get(192).copied(),
        set.layer1_as_slice().get(3).copied(),
        set.layer2_as_slice().get(0).copied(),
        set.layer3_as_slice().get(0).copied(),
    ];
    let words = [
        set.layer0(192),
        set.layer1(3),
        set.layer2(0),
        set.layer3(0),
        set.layer4(),
    ];
    slices == [Some(1 << 57), Some(1), Some(8), Some(1)] && words == [1 << 57, 1, 8, 1, 1]
}

#[test]
fn words_of_one_index(rt: HostRuntime) -> Result<(), AllocError> {
    let set = set_of(rt.alloc(), &[12345])?;
    assert_that(&rt, has_words_of_12345(&set));
    let by_layer = [set.get_from_layer(0, 192), set.get_from_layer(4, 7)];
    assert_words(&rt, &by_layer, &[1 << 57, 1]);
    Ok(())
}

// Returns whether the slices are as long as 12,345 needs.
fn has_slices_of_12345(set: &BitSet) -> bool {
    set.layer3_as_slice().len() >= 1
        && set.layer2_as_slice().len() >= 1
        && set.layer1_as_slice().len() >= 4
        && set.layer0_as_slice().len() >= 193
}

#[test]
fn slices_are_as_long_as_one_index_needs(rt: HostRuntime) -> Result<(), AllocError> {
    let mut set = set_of(rt.alloc(), &[12345])?;
    assert_that(&rt, has_slices_of_12345(&set));
    set.clear();
    assert_that(&rt, has_no_words(&set));
    Ok(())
}

// Adds indices, each of which is to be new, and returns whether they were, and are the members then.
fn adds(alloc: Global, ids: &[Index], members: &[Index]) -> bool {
    let mut set = BitSet::new(alloc);
    for id in ids {
        if (*id as usize) >= MAX_EID || set.add(*id) != Ok(false) {
            return false;
        }
    }
    gives(&set, members)
}

#[test]
fn eight_border_indices(rt: HostRuntime) {
    let down = [16777215, 262144, 262143, 4096, 4095, 64, 63, 0];
    let up = [0, 63, 64, 4095, 4096, 262143, 262144, 16777215];
    assert_that(&rt, adds(rt.alloc(), &down, &up));
}

#[test]
fn border_indices_of_the_fifth_layer(rt: HostRuntime) {
    let down = [1073741823, 16777216, 16777215, 0];
    let up = [0, 16777215, 16777216, 1073741823];
    assert_that(&rt, adds(rt.alloc(), &down, &up));
}

// Returns what two calls of `add` and two of `remove` answer.
fn added_and_removed_twice(set: &mut BitSet) -> Result<[bool; 4], AllocError> {
    Ok([set.add(5)?, set.add(5)?, set.remove(5), set.remove(5)])
}

#[test]
fn adding_and_removing_twice(rt: HostRuntime) -> Result<(), AllocError> {
    let mut set = BitSet::new(rt.alloc());
    let answers = added_and_removed_twice(&mut set)?;
    assert_that(&rt, answers == [false, true, true, false]);
    let far = [set.remove(1073741824), set.remove(4294967295)];
    assert_that(&rt, far == [false, false]);
    Ok(())
}

// Returns whether indices that there is room for are added, and one past it only if `add` says so.
fn adds_in_room(set: &mut BitSet) -> bool {
    let first = set.add(999) == Ok(false);
    let is_grown = set.add(5_000_000).is_ok();
    let second = set.add(998) == Ok(false);
    first && second && set.contains(999) && set.contains(5_000_000) == is_grown
}

// The test of this name in `hibitset_refusals` sees what stands if an allocation fails.
#[test]
fn room_made_before(rt: HostRuntime) -> Result<(), AllocError> {
    let mut set = BitSet::with_capacity(rt.alloc(), 1000)?;
    assert_that(&rt, adds_in_room(&mut set));
    let none = BitSet::with_capacity(rt.alloc(), 0)?;
    assert_count(&rt, none.layer0_as_slice().len(), 0);
    Ok(())
}

// Returns whether a set prints so.
fn prints(alloc: Global, set: &BitSet, wanted: &str) -> Result<bool, AllocError> {
    let text = format!(in alloc; "{set:?}")?;
    Ok(text.as_str() == wanted)
}

#[test]
fn a_set_prints_its_members(rt: HostRuntime) -> Result<(), AllocError> {
    let mut set = set_of(rt.alloc(), &[70_000, 5, 300_000])?;
    set.remove(300_000);
    assert_that(&rt, prints(rt.alloc(), &set, "{5, 70000}")?);
    set.clear();
    assert_that(&rt, prints(rt.alloc(), &set, "{}")?);
    Ok(())
}
