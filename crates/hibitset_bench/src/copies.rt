//! Calls that change a whole set, each on a copy of its own, or one set over and over.
use crate::sets::{Sum, first_of, set_of, sum_of};
use hibitset::{BitSet, DrainableBitSet, Index};
use std::alloc::Global;

// What is done to a copy, beside another set and a list of indices.
trait Change {
    fn change(set: &mut BitSet, other: &BitSet, ids: &[Index]) -> Sum;
}

// Nothing: the copy alone.
struct KeepAll;

impl Change for KeepAll {
    #[inline]
    fn change(_set: &mut BitSet, _other: &BitSet, _ids: &[Index]) -> Sum {
        Ok(0)
    }
}

struct TakeInOrder;

impl Change for TakeInOrder {
    #[inline]
    fn change(set: &mut BitSet, _other: &BitSet, _ids: &[Index]) -> Sum {
        let mut sum = 0u64;
        for index in set.drain() {
            sum = sum.wrapping_add(u64::from(index));
        }
        Ok(sum)
    }
}

struct TakeListed;

impl Change for TakeListed {
    #[inline]
    fn change(set: &mut BitSet, _other: &BitSet, ids: &[Index]) -> Sum {
        let mut count = 0u64;
        for id in ids {
            count = count.wrapping_add(u64::from(set.remove(*id)));
        }
        Ok(count)
    }
}

struct AndAssign;

impl Change for AndAssign {
    #[inline]
    fn change(set: &mut BitSet, other: &BitSet, _ids: &[Index]) -> Sum {
        *set &= other;
        Ok(0)
    }
}

struct OrAssign;

impl Change for OrAssign {
    #[inline]
    fn change(set: &mut BitSet, other: &BitSet, _ids: &[Index]) -> Sum {
        set.bitor_assign(other)?;
        Ok(0)
    }
}

struct XorAssign;

impl Change for XorAssign {
    #[inline]
    fn change(set: &mut BitSet, other: &BitSet, _ids: &[Index]) -> Sum {
        set.bitxor_assign(other)?;
        Ok(0)
    }
}

struct SubtractAssign;

impl Change for SubtractAssign {
    #[inline]
    fn change(set: &mut BitSet, other: &BitSet, _ids: &[Index]) -> Sum {
        set.subtract_assign(other);
        Ok(0)
    }
}

// Changes a copy, `times` times over, and one more copy, whose members are summed.
fn changed<C: Change>(
    set: &BitSet,
    other: &BitSet,
    ids: &[Index],
    probe: Index,
    times: usize,
) -> Sum {
    let mut sum = 0u64;
    for _ in 0..times {
        let mut copy = set.clone()?;
        sum = sum.wrapping_add(C::change(&mut copy, other, ids)?);
        sum = sum.wrapping_add(u64::from(copy.contains(probe)));
    }
    let mut copy = set.clone()?;
    C::change(&mut copy, other, ids)?;
    Ok(sum.wrapping_add(sum_of(&copy)))
}

// Changes copies of a set, beside no other.
fn changed_alone<C: Change>(alloc: Global, members: &[Index], ids: &[Index], times: usize) -> Sum {
    let set = set_of(alloc, members)?;
    let other = BitSet::new(alloc);
    changed::<C>(&set, &other, ids, first_of(members), times)
}

// Changes copies of a set, beside another.
fn changed_beside<C: Change>(alloc: Global, a: &[Index], b: &[Index], times: usize) -> Sum {
    let set = set_of(alloc, a)?;
    let other = set_of(alloc, b)?;
    changed::<C>(&set, &other, &[], first_of(a), times)
}

pub(crate) fn clone(alloc: Global, ids: &[Index], times: usize) -> Sum {
    changed_alone::<KeepAll>(alloc, ids, &[], times)
}

pub(crate) fn drain(alloc: Global, ids: &[Index], times: usize) -> Sum {
    changed_alone::<TakeInOrder>(alloc, ids, &[], times)
}

pub(crate) fn remove(alloc: Global, ids: &[Index], removed: &[Index], times: usize) -> Sum {
    changed_alone::<TakeListed>(alloc, ids, removed, times)
}

pub(crate) fn and_assign(alloc: Global, a: &[Index], b: &[Index], times: usize) -> Sum {
    changed_beside::<AndAssign>(alloc, a, b, times)
}

pub(crate) fn or_assign(alloc: Global, a: &[Index], b: &[Index], times: usize) -> Sum {
    changed_beside::<OrAssign>(alloc, a, b, times)
}

pub(crate) fn xor_assign(alloc: Global, a: &[Index], b: &[Index], times: usize) -> Sum {
    changed_beside::<XorAssign>(alloc, a, b, times)
}

// Puts another set exclusively into one set, `times` times over: each second time the set is as it was.
pub(crate) fn xor_in_place(alloc: Global, a: &[Index], b: &[Index], times: usize) -> Sum {
    let mut set: BitSet = set_of(alloc, a)?;
    let other: BitSet = set_of(alloc, b)?;
    for _ in 0..times {
        set.bitxor_assign(&other)?;
    }
    Ok(sum_of(&set))
}

// Puts another set into one set and takes out again what was not there, `times` times over.
pub(crate) fn or_and_in_place(alloc: Global, a: &[Index], b: &[Index], times: usize) -> Sum {
    let before: BitSet = set_of(alloc, a)?;
    let other: BitSet = set_of(alloc, b)?;
    let mut set = before.clone()?;
    for _ in 0..times {
        set.bitor_assign(&other)?;
        set &= &before;
    }
    Ok(sum_of(&set))
}

pub(crate) fn subtract_assign(alloc: Global, a: &[Index], b: &[Index], times: usize) -> Sum {
    changed_beside::<SubtractAssign>(alloc, a, b, times)
}

// How many words a set keeps in all its layers, `times` times over.
pub(crate) fn words(alloc: Global, ids: &[Index], times: usize) -> Sum {
    let set: BitSet = set_of(alloc, ids)?;
    let mut sum = 0u64;
    for _ in 0..times {
        let upper = [
            set.layer1_as_slice().len(),
            set.layer2_as_slice().len(),
            set.layer3_as_slice().len(),
        ];
        sum = sum.wrapping_add(1 + set.layer0_as_slice().len() as u64);
        for words in upper {
            sum = sum.wrapping_add(words as u64);
        }
    }
    Ok(sum)
}
