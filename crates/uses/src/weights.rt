//! The weights of what two sets have in common, added up in several threads.
ghost use Rattle.std.specs.Prelude.{◌≡◌, ◌+◌, ◌%◌, ◌^◌, slice_index, IfOk};
ghost use Rattle.hibitset.specs.Prelude.{has};
ghost use Rattle.uses.specs.Weights.{weight_of_both};

use hibitset::{BitSet, BitSetLike, Index};
use std::alloc::{AllocError, Global};
use std::thread::Threads;

// The weight of an index, 0 past the end.
fn weight(weights: &[u32], index: Index) -> u64
    ensures { result ≡ slice_index weights.now index }
{
    u64::from(weights.get(index as usize).copied().unwrap_or(0))
}

// A weight is added in some nanoseconds, so threads save time from about so many members on.
const MIN_LEN: usize = 500_000;

/// The sum of the weights of the indices that are in both sets, from as many threads as there are.
pub fn weight_of_both<R: Threads + Sync>(
    rt: &R,
    alloc: Global,
    a: &BitSet,
    b: &BitSet,
    weights: &[u32],
) -> Result<u64, AllocError>
    ensures { IfOk result (λ total. total ≡ weight_of_both weights.now (has a.now) (has b.now)) }
{
    (a & b).par_iter().with_min_len(MIN_LEN).fold(
        rt,
        alloc,
        || 0u64,
        |total: u64, index: Index| -> u64
            ensures { result ≡ (total + slice_index weights.entry.now index) % 2 ^ 64 }
        { total.wrapping_add(weight(weights, index)) },
        |one: u64, two: u64| -> u64
            ensures { result ≡ (one + two) % 2 ^ 64 }
        { one.wrapping_add(two) },
    )
}

/// The same in the calling thread.
pub fn weight_here(a: &BitSet, b: &BitSet, weights: &[u32]) -> u64
    ensures { result ≡ weight_of_both weights.now (has a.now) (has b.now) }
{
    let mut total = 0;
    for index in a & b {
        total += weight(weights, index);
    }
    total
}
