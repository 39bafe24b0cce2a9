//! Clones of virtual sets and of walks that own their sets.
use crate::tests::{ask, assert_has, say};
use hibitset::{BitIter, BitSet, BitSetAnd, BitSetLike, BitSetNot, BitSetOr, BitSetXor};
use hibitset_testing::sets::set_of;
use std::alloc::AllocError;

// allocates: 2, 64 bytes: hibitset_base::BitSetAnd::clone
#[test]
fn intersection(rt: HostRuntime) -> Result<(), AllocError> {
    let a = set_of(rt.alloc(), &[1, 2])?;
    let both = BitSetAnd(a, set_of(rt.alloc(), &[2, 3])?);
    let copy: BitSetAnd<BitSet, BitSet> = retried!(&rt, both.clone());
    assert_has(&rt, &both, &[2]);
    assert_has(&rt, &copy, &[2]);
    Ok(())
}

// allocates: 2, 64 bytes: hibitset_base::BitSetOr::clone
#[test]
fn union(rt: HostRuntime) -> Result<(), AllocError> {
    let a = set_of(rt.alloc(), &[1, 2])?;
    let either = BitSetOr(a, set_of(rt.alloc(), &[2, 3])?);
    let copy: BitSetOr<BitSet, BitSet> = retried!(&rt, either.clone());
    assert_has(&rt, &either, &[1, 2, 3]);
    assert_has(&rt, &copy, &[1, 2, 3]);
    Ok(())
}

// allocates: 2, 64 bytes: hibitset_base::BitSetXor::clone
#[test]
fn symmetric_difference(rt: HostRuntime) -> Result<(), AllocError> {
    let a = set_of(rt.alloc(), &[1, 2])?;
    let one = BitSetXor(a, set_of(rt.alloc(), &[2, 3])?);
    let copy: BitSetXor<BitSet, BitSet> = retried!(&rt, one.clone());
    assert_has(&rt, &one, &[1, 3]);
    assert_has(&rt, &copy, &[1, 3]);
    Ok(())
}

// allocates: 1, 634_944 bytes: hibitset_base::BitSetNot::clone
#[test]
fn complement(rt: HostRuntime) -> Result<(), AllocError> {
    let rest = BitSetNot(set_of(rt.alloc(), &[1, 5_000_000])?);
    let copied: Result<BitSetNot<BitSet>, AllocError> = tried!(&rt, rest.clone());
    assert!(rt; rest.contains(0) && !rest.contains(5_000_000));
    let copy = match copied {
        Ok(copy) => copy,
        Err(_) => rest.clone()?,
    };
    assert!(rt; copy.contains(0) && !copy.contains(5_000_000));
    Ok(())
}

// allocates: 1, 40 bytes: hibitset_base::BitIter::clone
#[test]
fn walk(rt: HostRuntime) -> Result<(), AllocError> {
    let mut walk = set_of(rt.alloc(), &[1, 2, 70])?.iter();
    assert!(rt; walk.next() == Some(1));
    let mut copy: BitIter<BitSet> = retried!(&rt, walk.clone());
    for next in [Some(2), Some(70), None] {
        assert!(rt; walk.next() == next && copy.next() == next);
    }
    Ok(())
}
