//! Walks.
use crate::sets::{AnySet, Sum, set_of, sum_below_end, sum_of, sum_of_answers, sum_of_turns};
use hibitset::{BitSet, BitSetLike, Index};
use std::alloc::Global;

pub(crate) fn plain<S: AnySet>(alloc: Global, ids: &[Index], times: usize) -> Sum {
    let set: S = set_of(alloc, ids)?;
    sum_of_turns(times, || Ok(sum_of(&set)))
}

pub(crate) fn count(alloc: Global, ids: &[Index], times: usize) -> Sum {
    let set: BitSet = set_of(alloc, ids)?;
    sum_of_turns(times, || Ok((&set).iter().count() as u64))
}

pub(crate) fn fold(alloc: Global, ids: &[Index], times: usize) -> Sum {
    let set: BitSet = set_of(alloc, ids)?;
    let mut sum = 0u64;
    for _ in 0..times {
        sum = (&set)
            .iter()
            .fold(sum, |sum, index| sum.wrapping_add(u64::from(index)));
    }
    Ok(sum)
}

// How many members a list has, and the last of them.
#[inline]
fn sum_of_list(list: &[Index]) -> u64 {
    (list.len() as u64).wrapping_add(u64::from(list.last().copied().unwrap_or(0)))
}

pub(crate) fn collect(alloc: Global, ids: &[Index], times: usize) -> Sum {
    let set: BitSet = set_of(alloc, ids)?;
    sum_of_turns(times, || {
        let list: Vec<Index> = (&set).iter().collect(alloc)?;
        Ok(sum_of_list(&list))
    })
}

pub(crate) fn len(alloc: Global, ids: &[Index], times: usize) -> Sum {
    let set: BitSet = set_of(alloc, ids)?;
    sum_of_turns(times, || Ok((&set).len() as u64))
}

pub(crate) fn first(alloc: Global, ids: &[Index], times: usize) -> Sum {
    let set: BitSet = set_of(alloc, ids)?;
    sum_of_turns(times, || Ok(u64::from((&set).first().unwrap_or(0))))
}

pub(crate) fn first_of_walk(alloc: Global, ids: &[Index], times: usize) -> Sum {
    let set: BitSet = set_of(alloc, ids)?;
    sum_of_turns(times, || Ok(u64::from((&set).iter().next().unwrap_or(0))))
}

pub(crate) fn from_index(alloc: Global, ids: &[Index], asked: &[Index], times: usize) -> Sum {
    let set: BitSet = set_of(alloc, ids)?;
    Ok(sum_of_answers(
        asked,
        times,
        |start| u64::from((&set).iter_from(start).next().unwrap_or(0)),
    ))
}

pub(crate) fn to_vec(alloc: Global, ids: &[Index], times: usize) -> Sum {
    let set: BitSet = set_of(alloc, ids)?;
    sum_of_turns(times, || Ok(sum_of_list(&(&set).to_vec(alloc)?)))
}

pub(crate) fn not(alloc: Global, ids: &[Index], times: usize) -> Sum {
    let set: BitSet = set_of(alloc, ids)?;
    sum_of_turns(times, || Ok(sum_below_end(!&set)))
}

pub(crate) fn and_len(alloc: Global, a: &[Index], b: &[Index], times: usize) -> Sum {
    let a: BitSet = set_of(alloc, a)?;
    let b: BitSet = set_of(alloc, b)?;
    sum_of_turns(times, || Ok((&a & &b).len() as u64))
}

pub(crate) fn and(alloc: Global, a: &[Index], b: &[Index], times: usize) -> Sum {
    let a: BitSet = set_of(alloc, a)?;
    let b: BitSet = set_of(alloc, b)?;
    sum_of_turns(times, || Ok(sum_of(&a & &b)))
}

pub(crate) fn or(alloc: Global, a: &[Index], b: &[Index], times: usize) -> Sum {
    let a: BitSet = set_of(alloc, a)?;
    let b: BitSet = set_of(alloc, b)?;
    sum_of_turns(times, || Ok(sum_of(&a | &b)))
}

pub(crate) fn xor(alloc: Global, a: &[Index], b: &[Index], times: usize) -> Sum {
    let a: BitSet = set_of(alloc, a)?;
    let b: BitSet = set_of(alloc, b)?;
    sum_of_turns(times, || Ok(sum_of(&a ^ &b)))
}
