//! One list, which several threads fill, each its own piece.
//!
//! The parts of a walk, the numbers of their items and the list are halved side by side.
ghost use Rattle.std.specs.Prelude.{◌≡◌, ◌<◌, length, flat_map};
ghost use Rattle.std.specs.Thread.{IsSync};
ghost use Rattle.hibitset_base.specs.Parts.{AreCounts};
ghost use Rattle.hibitset_base.specs.Walk.{items_left};

use super::run::sum_of_counts;
use crate::bulk::slice::write_walk;
use crate::iter::BitIter;
use crate::like::BitSetLike;
use crate::util::Index;
use rayon::{current_num_threads, join_mut};
use std::thread::Threads;

// No pool keeps threads, so each piece costs a new one, and no more than this are for one list.
const MAX_THREADS: usize = 32;

// How many times the work is halved: two pieces for each processor, since pieces differ in length.
pub(super) fn halvings<R: Threads>(rt: &R) -> usize {
    let threads = current_num_threads(rt).min(MAX_THREADS);
    threads.saturating_mul(2).ilog2() as usize
}

// Writes the items of the parts, in order, into a list of as many.
fn write_parts<T: BitSetLike>(parts: &[BitIter<&'_ T>], list: &mut [Index])
    requires { length list.old ≡ length (flat_map (items_left (λ s. T.holds s.now)) parts.now) }
    ensures { list.new ≡ flat_map (items_left (λ s. T.holds s.now)) parts.now }
{
    let mut end = 0;
    for part in parts {
        end = write_walk(part, list, end);
    }
}

// The same from several threads: while there is depth left, each half has a thread of its own.
#[cycle(halves)]
pub(super) fn fill<R: Threads + Sync, T: BitSetLike + Sync>(
    rt: &R,
    depth: usize,
    parts: &[BitIter<&'_ T>],
    counts: &[usize],
    list: &mut [Index],
)
    requires counts { AreCounts (λ s. T.holds s.now) parts.now counts.now }
    requires exact_length { length list.old ≡ length
        (flat_map (items_left (λ s. T.holds s.now)) parts.now) }
    ensures { list.new ≡ flat_map (items_left (λ s. T.holds s.now)) parts.now }
{
    if depth == 0 || parts.len() < 2 {
        write_parts(parts, list);
        return;
    }
    let middle = parts.len() / 2;
    let (low, high) = parts.split_at(middle);
    let (low_counts, high_counts) = counts.split_at(middle);
    let (front, back) = list.split_at_mut(sum_of_counts(low_counts));
    fill_both(
        rt,
        depth - 1,
        low,
        low_counts,
        front,
        high,
        high_counts,
        back,
    );
}

// Both halves, side by side.
#[cycle(halves)]
fn fill_both<R: Threads + Sync, T: BitSetLike + Sync>(
    rt: &R,
    depth: usize,
    low: &[BitIter<&'_ T>],
    low_counts: &[usize],
    front: &mut [Index],
    high: &[BitIter<&'_ T>],
    high_counts: &[usize],
    back: &mut [Index],
)
    requires low { AreCounts (λ s. T.holds s.now) low.now low_counts.now }
    requires high { AreCounts (λ s. T.holds s.now) high.now high_counts.now }
    requires front { length front.old ≡ length
        (flat_map (items_left (λ s. T.holds s.now)) low.now) }
    requires back { length back.old ≡ length (flat_map (items_left (λ s. T.holds s.now)) high.now) }
    ensures front { front.new ≡ flat_map (items_left (λ s. T.holds s.now)) low.now }
    ensures back { back.new ≡ flat_map (items_left (λ s. T.holds s.now)) high.now }
{
    let mut first = ||
        requires { IsSync R.row × IsSync T.row
            × AreCounts (λ s. T.holds s.now) low.now low_counts.now
            × (length front.now ≡ length (flat_map (items_left (λ s. T.holds s.now)) low.now)) }
        ensures { front.exit.now ≡ flat_map (items_left (λ s. T.holds s.now)) low.entry.now }
    { fill(rt, depth, low, low_counts, front) };
    let mut second = ||
        requires { IsSync R.row × IsSync T.row
            × AreCounts (λ s. T.holds s.now) high.now high_counts.now
            × (length back.now ≡ length (flat_map (items_left (λ s. T.holds s.now)) high.now)) }
        ensures { back.exit.now ≡ flat_map (items_left (λ s. T.holds s.now)) high.entry.now }
    { fill(rt, depth, high, high_counts, back) };
    join_mut(rt, &mut first, &mut second);
}
