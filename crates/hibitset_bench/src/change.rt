//! Calls on one index at a time.
use crate::sets::{AnySet, END, Sum, add_all, first_of, set_of, sum_of_answers, sum_of_turns};
use hibitset::{BitSet, BuildError, Index};
use std::alloc::Global;

pub(crate) fn add<S: AnySet>(alloc: Global, ids: &[Index], times: usize) -> Sum {
    sum_of_turns(times, || add_all(&mut S::empty(alloc)?, ids))
}

pub(crate) fn add_with_room(alloc: Global, ids: &[Index], times: usize) -> Sum {
    sum_of_turns(
        times,
        || add_all(&mut BitSet::with_capacity(alloc, END)?, ids),
    )
}

pub(crate) fn add_again<S: AnySet>(alloc: Global, ids: &[Index], times: usize) -> Sum {
    let mut set: S = set_of(alloc, ids)?;
    sum_of_turns(times, || add_all(&mut set, ids))
}

pub(crate) fn contains<S: AnySet>(
    alloc: Global,
    ids: &[Index],
    asked: &[Index],
    times: usize,
) -> Sum {
    let set: S = set_of(alloc, ids)?;
    Ok(sum_of_answers(asked, times, |id| u64::from(set.contains(id))))
}

pub(crate) fn build(alloc: Global, ids: &[Index], times: usize) -> Result<u64, BuildError> {
    let mut sum = 0u64;
    for _ in 0..times {
        let set = BitSet::from_index_refs(alloc, ids)?;
        sum = sum.wrapping_add(u64::from(set.contains(first_of(ids))));
    }
    Ok(sum)
}

// Adds a range, from the first of some indices on before the last of them, and takes it out again. There is room for
// it.
pub(crate) fn ranges(alloc: Global, ends: &[Index], times: usize) -> Sum {
    let mut set = BitSet::with_capacity(alloc, END)?;
    let start = first_of(ends);
    let end = ends.last().copied().unwrap_or(0).min(END);
    let mut sum = 0u64;
    for _ in 0..times {
        set.add_range(start, end)?;
        sum = sum.wrapping_add(u64::from(set.contains(start)));
        set.remove_range(start, end);
        sum = sum.wrapping_add(u64::from(set.contains(start)));
    }
    Ok(sum)
}

pub(crate) fn from_words(alloc: Global, ids: &[Index], times: usize) -> Sum {
    let set: BitSet = set_of(alloc, ids)?;
    sum_of_turns(times, || {
        let again = BitSet::from_words(alloc, set.layer0_as_slice())?;
        Ok(u64::from(again.contains(first_of(ids))))
    })
}

// Each turn adds one index, so that there is something to clear in the next.
pub(crate) fn clear<S: AnySet>(alloc: Global, ids: &[Index], times: usize) -> Sum {
    let mut set: S = set_of(alloc, ids)?;
    let first = first_of(ids);
    sum_of_turns(times, || {
        set.clear();
        set.add_in_range(first)?;
        Ok(u64::from(set.contains(first)))
    })
}
