//! Sets compared, and copied.
use crate::tests::{assert_members, assert_that};
use hibitset::Index;
use hibitset_testing::sets::set_of;
use std::alloc::{AllocError, Global};

// Returns whether the first set contains the second, as it is said, and whether they contain each other and are equal,
// either way, as it is said.
fn compare_as(
    alloc: Global,
    ours: &[Index],
    theirs: &[Index],
    contains: bool,
    same: bool,
) -> Result<bool, AllocError> {
    let ours = set_of(alloc, ours)?;
    let theirs = set_of(alloc, theirs)?;
    let is_around = ours.contains_set(&theirs);
    let is_within = theirs.contains_set(&ours);
    Ok(
        is_around == contains
            && (is_within && contains) == same
            && (ours == theirs) == same
            && (theirs == ours) == same,
    )
}

#[test]
fn equal_and_contained(rt: HostRuntime) -> Result<(), AllocError> {
    let rows: [(&[Index], &[Index], bool, bool); 6] = [
        (&[], &[], true, true),
        (&[0], &[], true, false),
        (&[5, 262144], &[5, 262144], true, true),
        (&[5, 262144], &[5, 262145], false, false),
        (&[5], &[5, 16777215], false, false),
        (&[5, 64, 16777215], &[64], true, false),
    ];
    for (a, b, contains, same) in rows {
        assert_that(&rt, compare_as(rt.alloc(), a, b, contains, same)?);
    }
    Ok(())
}

#[test]
fn a_copy_stands_alone(rt: HostRuntime) -> Result<(), AllocError> {
    let mut set = set_of(rt.alloc(), &[1, 70, 300000])?;
    let copy = set.clone()?;
    set.remove(70);
    assert_members(&rt, &set, &[1, 300000]);
    assert_members(&rt, &copy, &[1, 70, 300000]);
    Ok(())
}
