//! Comparisons of two sets.
use crate::sets::{AnySet, Sum, first_of, set_of};
use hibitset::{BitSet, BitSetLike, Index};
use std::alloc::Global;

// How often the first set compares as asked with the second. Each turn adds an index that is there, so that no turn's
// answer serves for the next.
#[inline]
fn compared<F: Fn(&BitSet, &BitSet) -> bool>(
    alloc: Global,
    a: &[Index],
    b: &[Index],
    times: usize,
    compare: F,
) -> Sum
    requires { F.IsAlwaysCallable compare }
{
    let mut first: BitSet = set_of(alloc, a)?;
    let second: BitSet = set_of(alloc, b)?;
    let there = first_of(a);
    let mut sum = 0u64;
    for _ in 0..times {
        first.add_in_range(there)?;
        sum = sum.wrapping_add(u64::from(compare(&first, &second)));
    }
    Ok(sum)
}

pub(crate) fn equal(alloc: Global, a: &[Index], b: &[Index], times: usize) -> Sum {
    compared(alloc, a, b, times, |first, second| first == second)
}

pub(crate) fn contains_set(alloc: Global, a: &[Index], b: &[Index], times: usize) -> Sum {
    compared(
        alloc,
        a,
        b,
        times,
        |first, second| first.contains_set(second),
    )
}

pub(crate) fn is_disjoint(alloc: Global, a: &[Index], b: &[Index], times: usize) -> Sum {
    compared(
        alloc,
        a,
        b,
        times,
        |first, second| first.is_disjoint(second),
    )
}

pub(crate) fn is_subset(alloc: Global, a: &[Index], b: &[Index], times: usize) -> Sum {
    compared(alloc, a, b, times, |first, second| first.is_subset(second))
}
