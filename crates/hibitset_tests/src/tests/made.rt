//! Walks that begin in a state made by hand.
use crate::tests::{assert_index, assert_indices};
use hibitset::{BitIter, BitSet, DrainBitIter};
use hibitset_testing::sets::set_of;
use std::alloc::AllocError;

#[test]
fn a_state_made_by_hand(rt: HostRuntime) {
    let empty = BitSet::new(rt.alloc());
    let mut walk = BitIter::new(&empty, [0b101, 0, 0, 0, 0], [128, 0, 0, 0]);
    assert_index(&rt, walk.next(), Some(128));
    assert_index(&rt, walk.next(), Some(130));
    assert_index(&rt, walk.next(), None);
}

#[test]
fn a_state_in_all_layers(rt: HostRuntime) -> Result<(), AllocError> {
    let mut set = set_of(rt.alloc(), &[7, 200, 5000, 300000])?;
    let walk: Vec<u32> = BitIter::new(&set, [4, 8, 2, 2, 0], [128, 0, 0, 0]).collect(rt.alloc())?;
    assert_indices(&rt, walk.as_slice(), &[130, 200, 5000, 300000]);
    let mut copy = set.clone()?;
    {
        let mut drain = DrainBitIter::new(&mut copy, [4, 8, 2, 2, 0], [128, 0, 0, 0]);
        assert_index(&rt, drain.next(), Some(130));
        assert_index(&rt, drain.next(), Some(200));
    }
    let kept: Vec<u32> = (&copy).into_iter().collect(rt.alloc())?;
    assert_indices(&rt, kept.as_slice(), &[7, 5000, 300000]);
    let drain: Vec<u32> = DrainBitIter::new(&mut set, [4, 8, 2, 2, 0], [128, 0, 0, 0]).collect(
        rt.alloc(),
    )?;
    assert_indices(&rt, drain.as_slice(), &[130, 200, 5000, 300000]);
    let left: Vec<u32> = (&set).into_iter().collect(rt.alloc())?;
    assert_indices(&rt, left.as_slice(), &[7]);
    Ok(())
}
