//! The walks in parts whose step takes time: what is timed, and over which sets.
use crate::clock::times_of;
use crate::sets::{Shape, set_of};
use hibitset::{BitSet, BitSetLike, Index};
use std::alloc::{AllocError, Global};
use std::rt::Clock;
use std::sync::atomic::{AtomicU64, Ordering};
use std::thread::Threads;

// What is done with a set.
#[derive(Clone, Copy)]
enum Work {
    ForEach,
    Fold,
}

const WORKS: [(&str, Work); 2] = [("for_each", Work::ForEach), ("fold", Work::Fold)];

// About how long a step takes, and how many turns it makes.
const STEPS: [(&str, u32); 3] = [("0 ns", 0), ("100 ns", 75), ("1 us", 620)];

const SHAPES: [(&str, Shape); 2] = [("dense", Shape::Dense), ("10 %", Shape::OneIn(10))];

const SIZES: [u32; 4] = [1_000, 10_000, 100_000, 1_000_000];

// A step: so many turns of a hash of the index, each of which needs the one before. No index has the hash 0.
#[inline]
fn hash(index: Index, turns: u32) -> u64 {
    let mut state = u64::from(index) | 1;
    for _ in 0..turns {
        state = (state ^ (state >> 29)).wrapping_mul(0x9E37_79B9_7F4A_7C15);
    }
    state
}

// Each of these is a function of its own, so that its loops have the registers to themselves.
#[inline(never)]
fn for_each_alone(set: &BitSet, turns: u32) -> u64 {
    let mut zeros = 0u64;
    for index in set {
        if hash(index, turns) == 0 {
            zeros = zeros.wrapping_add(1);
        }
    }
    zeros
}

#[inline(never)]
fn fold_alone(set: &BitSet, turns: u32) -> u64 {
    set.iter()
        .fold(0u64, |sum, index| sum.wrapping_add(hash(index, turns)))
}

#[inline(never)]
fn for_each_in_parts(
    rt: &(impl Threads + Sync),
    alloc: Global,
    set: &BitSet,
    turns: u32,
) -> Result<u64, AllocError> {
    let zeros = AtomicU64::new(0);
    set.par_iter().for_each(rt, alloc, |index: Index| {
        if hash(index, turns) == 0 {
            zeros.fetch_add(1, Ordering::SeqCst);
        }
    })?;
    Ok(zeros.load(Ordering::SeqCst))
}

#[inline(never)]
fn fold_in_parts(
    rt: &(impl Threads + Sync),
    alloc: Global,
    set: &BitSet,
    turns: u32,
) -> Result<u64, AllocError> {
    set.par_iter().fold(
        rt,
        alloc,
        || 0u64,
        |sum: u64, index: Index| sum.wrapping_add(hash(index, turns)),
        |sum: u64, other: u64| sum.wrapping_add(other),
    )
}

// One walk in the calling thread.
fn alone(set: &BitSet, work: Work, turns: u32) -> u64 {
    match work {
        Work::ForEach => for_each_alone(set, turns),
        Work::Fold => fold_alone(set, turns),
    }
}

// The same in parts.
fn in_parts(
    rt: &(impl Threads + Sync),
    alloc: Global,
    set: &BitSet,
    work: Work,
    turns: u32,
) -> Result<u64, AllocError> {
    match work {
        Work::ForEach => for_each_in_parts(rt, alloc, set, turns),
        Work::Fold => fold_in_parts(rt, alloc, set, turns),
    }
}

// Prints the rows of one step over one set.
fn print_rows<R: Clock + Print + Threads + Sync>(
    rt: &R,
    alloc: Global,
    shape: (&str, Shape),
    size: u32,
    step: (&str, u32),
    repeats: usize,
) -> anyhow::Result<()> {
    let (shape_name, shape) = shape;
    let (step_name, turns) = step;
    let set = set_of(alloc, shape, size)?;
    for (work_name, work) in WORKS {
        let times = times_of(
            rt,
            alloc,
            repeats,
            || Ok(alone(&set, work, turns)),
            || in_parts(rt, alloc, &set, work, turns),
        )?;
        let call = format!(in alloc; "{work_name} of {step_name}\t{shape_name}\t{size}")?;
        times.print(rt, call.as_str())?;
    }
    Ok(())
}

// Prints all rows, each the median of so many calls.
pub(crate) fn print_all<R: Clock + Print + Threads + Sync>(
    rt: &R,
    alloc: Global,
    repeats: usize,
) -> anyhow::Result<()> {
    for step in STEPS {
        for shape in SHAPES {
            for size in SIZES {
                print_rows(rt, alloc, shape, size, step, repeats)?;
            }
        }
    }
    Ok(())
}
