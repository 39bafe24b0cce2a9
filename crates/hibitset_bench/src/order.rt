//! Calls that go by the order of the members.
use crate::sets::{Sum, set_of, sum_of_answers};
use hibitset::{BitSet, BitSetLike, Index, MAX_EID, Ranked};
use std::alloc::Global;

pub(crate) fn rank(alloc: Global, ids: &[Index], asked: &[Index], times: usize) -> Sum {
    let set: BitSet = set_of(alloc, ids)?;
    Ok(sum_of_answers(asked, times, |end| set.rank(end) as u64))
}

pub(crate) fn select(alloc: Global, ids: &[Index], asked: &[Index], times: usize) -> Sum {
    let set: BitSet = set_of(alloc, ids)?;
    Ok(sum_of_answers(
        asked,
        times,
        |at| u64::from(set.select(at as usize).unwrap_or(0)),
    ))
}

// How long the ranges are that are counted.
const RANGE: Index = 100_000;

pub(crate) fn len_range(alloc: Global, ids: &[Index], asked: &[Index], times: usize) -> Sum {
    let set: BitSet = set_of(alloc, ids)?;
    Ok(sum_of_answers(
        asked,
        times,
        |start| set.len_range(start, start.saturating_add(RANGE)) as u64,
    ))
}

pub(crate) fn last_before(alloc: Global, ids: &[Index], asked: &[Index], times: usize) -> Sum {
    let set: BitSet = set_of(alloc, ids)?;
    Ok(sum_of_answers(
        asked,
        times,
        |end| u64::from(set.last_before(end).unwrap_or(0)),
    ))
}

pub(crate) fn walk_down(alloc: Global, ids: &[Index], times: usize) -> Sum {
    let set: BitSet = set_of(alloc, ids)?;
    let mut sum = 0u64;
    for _ in 0..times {
        for index in (&set).iter_rev() {
            sum = sum.wrapping_add(u64::from(index));
        }
    }
    Ok(sum)
}

pub(crate) fn ranked_rank(alloc: Global, ids: &[Index], asked: &[Index], times: usize) -> Sum {
    let set: BitSet = set_of(alloc, ids)?;
    let ranked = Ranked::new(alloc, &set)?;
    Ok(sum_of_answers(asked, times, |end| ranked.rank(end) as u64))
}

pub(crate) fn ranked_select(alloc: Global, ids: &[Index], asked: &[Index], times: usize) -> Sum {
    let set: BitSet = set_of(alloc, ids)?;
    let ranked = Ranked::new(alloc, &set)?;
    Ok(sum_of_answers(
        asked,
        times,
        |at| u64::from(ranked.select(at as usize).unwrap_or(0)),
    ))
}

// Flips the range from the first index on before the last.
pub(crate) fn flip(alloc: Global, ends: &[Index], times: usize) -> Sum {
    let mut set: BitSet = set_of(alloc, ends)?;
    let start = ends.first().copied().unwrap_or(0);
    let end = ends.last().copied().unwrap_or(0).min(MAX_EID as Index);
    let mut sum = 0u64;
    for _ in 0..times {
        set.flip_range(start, end)?;
        sum = sum.wrapping_add(u64::from(set.contains(start)));
    }
    Ok(sum)
}
