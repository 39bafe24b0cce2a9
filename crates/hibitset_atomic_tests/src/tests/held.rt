//! A set that can be shared, held alone.
use crate::tests::{
    assert_count, assert_indices, assert_members, assert_sum, assert_words, list, set_of,
};
use hibitset_atomic::AtomicBitSet;
use hibitset_atomic::atomic::ATOMIC_MAX_EID;
use hibitset_base::{BitSetAnd, BitSetLike, DrainableBitSet, Index};
use std::alloc::{AllocError, AllocGlobal, Global};
use std::process::Abort;
use std::test::Fail;

// The set of so many numbers from the first on, one after each step.
fn atomic_of(
    alloc: Global,
    first: Index,
    step: Index,
    count: u32,
) -> Result<AtomicBitSet, AllocError> {
    let mut set = AtomicBitSet::new(alloc)?;
    let mut id = first;
    for _ in 0..count {
        if (id as usize) < ATOMIC_MAX_EID {
            set.add(id)?;
        }
        id = id.wrapping_add(step);
    }
    Ok(set)
}

// Clears a set and fills it again, with a thousand multiples of a number. Each is to be new.
fn assert_fills(
    rt: &(impl Abort + AllocGlobal),
    set: &mut AtomicBitSet,
    step: Index,
) -> Result<(), AllocError> {
    set.clear();
    assert_sum(rt, set, 0, 0)?;
    assert!(rt; set.is_empty());
    for i in 0..1000u32 {
        let id = i.wrapping_mul(step);
        assert!(rt; (id as usize) < ATOMIC_MAX_EID);
        assert!(rt; !set.add(id)?);
    }
    assert_sum(rt, set, 1000, 499500 * u64::from(step))
}

#[test]
fn three_fillings(rt: HostRuntime) -> Result<(), AllocError> {
    let mut set = atomic_of(rt.alloc(), 0, 1, 1000)?;
    assert_sum(&rt, &set, 1000, 499500)?;
    assert_fills(&rt, &mut set, 64)?;
    assert_fills(&rt, &mut set, 1000)?;
    assert!(rt; !set.contains(16777216));
    assert!(rt; !set.remove(4294967295));
    let words = [set.layer2(64), set.layer1(4096), set.layer0(262144)];
    assert_words(&rt, &words, &[0, 0, 0]);
    Ok(())
}

#[test]
fn one_of_two_blocks(rt: HostRuntime) -> Result<(), AllocError> {
    let mut set = atomic_of(rt.alloc(), 0, 4096, 2)?;
    assert!(rt; set.layer2(0) == 3);
    assert!(rt; set.remove(0));
    assert!(rt; !set.remove(0));
    let upper = [set.layer4(), set.layer3(0), set.layer3(1), set.layer2(0)];
    assert_words(&rt, &upper, &[1, 1, 0, 2]);
    let lower = [set.layer1(0), set.layer1(1), set.layer0(64), set.layer0(0)];
    assert_words(&rt, &lower, &[0, 1, 1, 0]);
    assert!(rt; set.contains(4096));
    Ok(())
}

#[test]
fn odd_and_even(rt: HostRuntime) -> Result<(), AllocError> {
    let odd = atomic_of(rt.alloc(), 1, 2, 50000)?;
    let even = atomic_of(rt.alloc(), 0, 2, 50000)?;
    assert_count(&rt, list(rt.alloc(), &odd)?.len(), 50000);
    assert_count(&rt, list(rt.alloc(), &even)?.len(), 50000);
    assert_count(&rt, list(rt.alloc(), BitSetAnd(&odd, &even))?.len(), 0);
    Ok(())
}

#[test]
fn a_drain(rt: HostRuntime) -> Result<(), AllocError> {
    let mut set = atomic_of(rt.alloc(), 5, 4090, 3)?;
    let drained: Vec<Index> = set.drain().collect(rt.alloc())?;
    assert_indices(&rt, drained.as_slice(), &[5, 4095, 8185]);
    assert_members(&rt, &set, &[])?;
    assert_words(&rt, &[set.layer4(), set.layer3(0)], &[0, 0]);
    Ok(())
}

// One block has lost its members, and most were never made.
#[test]
fn a_set_prints_its_members(rt: HostRuntime) -> Result<(), Fail> {
    let mut set = set_of(rt.alloc(), &[70_000, 5, 300_000])?;
    assert!(rt; set.remove(300_000));
    let text = format!(in rt.alloc(); "{set:?}")?;
    assert_eq!(rt; text.as_str(), "{5, 70000}");
    set.clear();
    let text = format!(in rt.alloc(); "{set:?}")?;
    assert_eq!(rt; text.as_str(), "{}");
    Ok(())
}

#[test]
fn operators_of_references(rt: HostRuntime) -> Result<(), AllocError> {
    let a = set_of(rt.alloc(), &[1, 2, 70])?;
    let b = set_of(rt.alloc(), &[2, 70, 5000])?;
    assert_members(&rt, &a & &b, &[2, 70])?;
    assert_members(&rt, &a | &b, &[1, 2, 70, 5000])?;
    assert_members(&rt, &a ^ &b, &[1, 5000])?;
    let others = !&a;
    assert!(rt; !others.contains(70) && others.contains(71));
    Ok(())
}

#[test]
fn operators_of_owned_sets(rt: HostRuntime) -> Result<(), AllocError> {
    let b = set_of(rt.alloc(), &[2, 70, 5000])?;
    assert_members(&rt, set_of(rt.alloc(), &[1, 2, 70])? & &b, &[2, 70])?;
    assert_members(&rt, set_of(rt.alloc(), &[1, 2])? | &b, &[1, 2, 70, 5000])?;
    assert_members(&rt, set_of(rt.alloc(), &[1, 2])? ^ &b, &[1, 70, 5000])?;
    let others = !set_of(rt.alloc(), &[1, 2])?;
    assert!(rt; !others.contains(2) && others.contains(3));
    Ok(())
}

#[test]
fn loops_over_sets(rt: HostRuntime) -> Result<(), AllocError> {
    let set = set_of(rt.alloc(), &[2, 70, 5000])?;
    let mut items = Vec::new(rt.alloc());
    for id in &set {
        items.push(id)?;
    }
    for id in set {
        items.push(id)?;
    }
    assert_indices(&rt, items.as_slice(), &[2, 70, 5000, 2, 70, 5000]);
    Ok(())
}
