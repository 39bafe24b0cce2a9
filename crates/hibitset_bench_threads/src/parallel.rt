//! The walks in parts: what is timed, and over which sets.
use crate::clock::times_of;
use crate::sets::{Shape, set_of};
use hibitset::{BitSet, BitSetLike, Index};
use std::alloc::{AllocError, Global};
use std::rt::Clock;
use std::thread::Threads;

// What is done with a set.
#[derive(Clone, Copy)]
enum Work {
    Count,
    Collect,
    Fold,
}

const WORKS: [(&str, Work); 3] = [
    ("count", Work::Count),
    ("collect", Work::Collect),
    ("fold", Work::Fold),
];

const SHAPES: [(&str, Shape); 5] = [
    ("dense", Shape::Dense),
    ("half", Shape::OneIn(2)),
    ("10 %", Shape::OneIn(10)),
    ("1 %", Shape::OneIn(100)),
    ("clusters", Shape::Clusters),
];

const SIZES: [u32; 4] = [10_000, 100_000, 1_000_000, 4_000_000];

// From how many members on a fold that adds takes threads.
const MIN_LEN: usize = 500_000;

// Each of these is a function of its own, so that its loops have the registers to themselves.
#[inline(never)]
fn count_alone(set: &BitSet) -> u64 {
    set.iter().count() as u64
}

#[inline(never)]
fn collect_alone(alloc: Global, set: &BitSet) -> Result<u64, AllocError> {
    let list: Vec<Index> = set.iter().collect(alloc)?;
    Ok(u64::from(list.last().copied().unwrap_or(0)))
}

#[inline(never)]
fn fold_alone(set: &BitSet) -> u64 {
    set.iter()
        .fold(0u64, |sum, index| sum.wrapping_add(u64::from(index)))
}

#[inline(never)]
fn count_in_parts(
    rt: &(impl Threads + Sync),
    alloc: Global,
    set: &BitSet,
) -> Result<u64, AllocError> {
    Ok(set.par_iter().count(rt, alloc)? as u64)
}

#[inline(never)]
fn collect_in_parts(
    rt: &(impl Threads + Sync),
    alloc: Global,
    set: &BitSet,
) -> Result<u64, AllocError> {
    let list = set.par_iter().collect(rt, alloc)?;
    Ok(u64::from(list.last().copied().unwrap_or(0)))
}

#[inline(never)]
fn fold_in_parts(
    rt: &(impl Threads + Sync),
    alloc: Global,
    set: &BitSet,
) -> Result<u64, AllocError> {
    set.par_iter().with_min_len(MIN_LEN).fold(
        rt,
        alloc,
        || 0u64,
        |sum: u64, index: Index| sum.wrapping_add(u64::from(index)),
        |sum: u64, other: u64| sum.wrapping_add(other),
    )
}

// One walk in the calling thread.
fn alone(alloc: Global, set: &BitSet, work: Work) -> Result<u64, AllocError> {
    match work {
        Work::Count => Ok(count_alone(set)),
        Work::Collect => collect_alone(alloc, set),
        Work::Fold => Ok(fold_alone(set)),
    }
}

// The same in parts.
fn in_parts(
    rt: &(impl Threads + Sync),
    alloc: Global,
    set: &BitSet,
    work: Work,
) -> Result<u64, AllocError> {
    match work {
        Work::Count => count_in_parts(rt, alloc, set),
        Work::Collect => collect_in_parts(rt, alloc, set),
        Work::Fold => fold_in_parts(rt, alloc, set),
    }
}

// Prints all rows, each the median of so many calls.
pub(crate) fn print_all<R: Clock + Print + Threads + Sync>(
    rt: &R,
    alloc: Global,
    repeats: usize,
) -> anyhow::Result<()> {
    for (shape_name, shape) in SHAPES {
        for size in SIZES {
            let set = set_of(alloc, shape, size)?;
            for (work_name, work) in WORKS {
                let times = times_of(
                    rt,
                    alloc,
                    repeats,
                    || alone(alloc, &set, work),
                    || in_parts(rt, alloc, &set, work),
                )?;
                let call = format!(in alloc; "{work_name}\t{shape_name}\t{size}")?;
                times.print(rt, call.as_str())?;
            }
        }
    }
    Ok(())
}
