//! Parts of walks, and walks in parts.
use hibitset::{BitProducer, BitSetLike, Index, LAYERS};
use std::alloc::{AllocError, Global};
use std::thread::Threads;

/// The sum of the members, by a walk in parts.
pub fn sum_of<T: BitSetLike + Send + Sync>(
    rt: &(impl Threads + Sync),
    alloc: Global,
    set: &T,
) -> Result<u64, AllocError> {
    set.par_iter().fold(
        rt,
        alloc,
        || 0u64,
        |sum: u64, index: Index| sum.wrapping_add(u64::from(index)),
        |sum: u64, other: u64| sum.wrapping_add(other),
    )
}

/// How many parts a walk has if each is split to its end, at most 40,000 splits.
pub fn parts_to_the_end<T: BitSetLike + Send + Sync>(
    alloc: Global,
    set: &T,
    layers: u8,
) -> Result<usize, AllocError> {
    let mut open = Vec::new(alloc);
    open.push(BitProducer(set.iter(), layers))?;
    let mut ended = 0usize;
    for _ in 0..40_000u32 {
        let Some(part) = open.pop() else {
            break;
        };
        if part.1 as usize >= LAYERS {
            break;
        }
        let (first, second) = part.split();
        match second {
            None => ended = ended.wrapping_add(1),
            Some(other) => {
                open.push(first)?;
                open.push(other)?;
            }
        }
    }
    Ok(ended)
}
