//! Walks in parts, by several threads.
ghost use Rattle.std.specs.Prelude.{◌≡◌, ◌-◌, ◌^◌, ◌<◌, ◌≤◌, length, IfOk};
ghost use Rattle.hibitset_base.specs.Members.{members_below};
ghost use Rattle.hibitset_base.specs.declared.util.TheConstants.{LAYERS, MAX_EID};

use crate::tests::{assert_count, assert_that, every_second};
use hibitset::{BitParIter, BitSet, BitSetAnd, BitSetLike, Index};
use hibitset_base::util::MAX_EID;
use hibitset_testing::parts::sum_of;
use hibitset_testing::sets::{BORDERS, list, run_of, set_of};
use std::alloc::{AllocError, Global};
use std::process::Abort;
use std::sync::atomic::{AtomicUsize, Ordering};
use std::test::Fail;
use std::thread::{Threads, available_parallelism};

// How many members there are, counted in parts that are cut in two layers.
fn count_members<T: BitSetLike + Send + Sync>(
    rt: &(impl Threads + Sync),
    alloc: Global,
    set: &T,
) -> Result<usize, AllocError>
    ensures { IfOk result (λ n. n ≡ length (members_below MAX_EID (T.holds set.now))) }
{
    set.par_iter().layers_split(2).count(rt, alloc)
}

// How often `for_each` called its closure, and the sum of what it called it with.
#[derive(Drop)]
struct Visits {
    times: usize,
    sum: usize,
}

fn visits_of<T: BitSetLike + Send + Sync>(
    rt: &(impl Threads + Sync),
    alloc: Global,
    walk: BitParIter<T>,
) -> Result<Visits, AllocError> {
    let times = AtomicUsize::new(0);
    let sum = AtomicUsize::new(0);
    walk.for_each(rt, alloc, |index: Index| {
        times.fetch_add(1, Ordering::SeqCst);
        sum.fetch_add(index as usize, Ordering::SeqCst);
    })?;
    Ok(Visits {
        times: times.load(Ordering::SeqCst),
        sum: sum.load(Ordering::SeqCst),
    })
}

// Sees how often `for_each` calls its closure, and the sum of what it calls it with.
fn assert_visits<T: BitSetLike + Send + Sync>(
    rt: &(impl Abort + Threads + Sync),
    alloc: Global,
    walk: BitParIter<T>,
    times: usize,
    sum: usize,
) -> Result<(), AllocError> {
    let visits = visits_of(rt, alloc, walk)?;
    assert_count(rt, visits.times, times);
    assert_count(rt, visits.sum, sum);
    Ok(())
}

fn made_of_clusters(alloc: Global) -> Result<BitSet, AllocError> {
    let mut set = BitSet::new(alloc);
    for x in 0..8u32 {
        for y in 0..8u32 {
            for z in 0..8u32 {
                set.add(12288 * x + 192 * y + 2 * z)?;
            }
        }
    }
    Ok(set)
}

#[test]
fn clusters(rt: HostRuntime) -> Result<(), AllocError> {
    let set = made_of_clusters(rt.alloc())?;
    assert_count(&rt, (&set).iter().count(), 512);
    assert_count(&rt, (&set).par_iter().count(&rt, rt.alloc())?, 512);
    assert_visits(&rt, rt.alloc(), (&set).par_iter(), 512, 22_367_744)
}

// Returns whether walks in parts over an empty set give nothing.
fn is_empty_in_parts(
    rt: &(impl Threads + Sync),
    alloc: Global,
    none: &BitSet,
) -> Result<bool, AllocError> {
    let counted = none.par_iter().count(rt, alloc)?;
    let visits = visits_of(rt, alloc, none.par_iter())?.times;
    let listed = none.par_iter().collect(rt, alloc)?.len();
    Ok(counted == 0 && visits == 0 && listed == 0)
}

#[test]
fn no_members_in_parts(rt: HostRuntime) -> Result<(), AllocError> {
    let none = BitSet::new(rt.alloc());
    assert_that(&rt, is_empty_in_parts(&rt, rt.alloc(), &none)?);
    Ok(())
}

// Returns whether `collect` lists these indices, cut in so many layers.
fn is_listed_in_parts(
    rt: &(impl Threads + Sync),
    alloc: Global,
    set: &BitSet,
    layers: u8,
    ids: &[Index],
) -> Result<bool, AllocError>
    requires nonzero { 0 < layers }
    requires fits { layers < LAYERS }
{
    let all = set.par_iter().layers_split(layers).collect(rt, alloc)?;
    Ok(all.as_slice() == ids)
}

#[test]
fn border_indices_in_parts(rt: HostRuntime) -> Result<(), AllocError> {
    let eight = [0, 63, 64, 4095, 4096, 262_143, 262_144, 16_777_215];
    let set = set_of(rt.alloc(), &eight)?;
    for layers in 1..5u8 {
        assert_that(
            &rt,
            is_listed_in_parts(&rt, rt.alloc(), &set, layers, &eight)?,
        );
    }
    Ok(())
}

#[test]
fn counts_of_small_sets(rt: HostRuntime) -> Result<(), AllocError> {
    let one = set_of(rt.alloc(), &[1_048_575])?;
    assert_count(&rt, (&one).par_iter().count(&rt, rt.alloc())?, 1);
    let odd = every_second(rt.alloc(), 1, 50_000)?;
    let even = every_second(rt.alloc(), 0, 50_000)?;
    assert_count(&rt, count_members(&rt, rt.alloc(), &odd)?, 50_000);
    assert_count(&rt, count_members(&rt, rt.alloc(), &even)?, 50_000);
    let both = BitSetAnd(&odd, &even);
    assert_count(&rt, count_members(&rt, rt.alloc(), &both)?, 0);
    Ok(())
}

#[test]
fn folds_of_ten_and_of_many(rt: HostRuntime) -> Result<(), AllocError> {
    let ten = run_of(rt.alloc(), 10)?;
    assert_that(&rt, sum_of(&rt, rt.alloc(), &ten)? == 45);
    let many = run_of(rt.alloc(), 2_097_152)?;
    assert_that(&rt, sum_of(&rt, rt.alloc(), &many)? == 2_199_022_206_976);
    Ok(())
}

// How many pieces a fold goes over in so many layers.
fn pieces_of(
    rt: &(impl Threads + Sync),
    alloc: Global,
    set: &BitSet,
    layers: u8,
) -> Result<u64, AllocError>
    requires nonzero { 0 < layers }
    requires fits { layers < LAYERS }
{
    BitParIter::new(set).layers_split(layers).fold(
        rt,
        alloc,
        || 1u64,
        |pieces: u64, _index: Index| pieces,
        |pieces: u64, other: u64| pieces.wrapping_add(other),
    )
}

#[test]
fn folds_count_their_pieces(rt: HostRuntime) -> Result<(), Fail> {
    let many = run_of(rt.alloc(), 524_288)?;
    // One processor alone walks over it whole.
    let is_cut = available_parallelism(&rt)?.get() > 1;
    for (layers, parts) in [(1u8, 1), (2, 2), (3, 128), (4, 512)] {
        let wanted = if is_cut { parts } else { 1 };
        let pieces = pieces_of(&rt, rt.alloc(), &many, layers)?;
        assert_that(&rt, pieces == wanted);
    }
    Ok(())
}

// Sees that a fold over so many members, in a row, goes over so many pieces.
fn assert_pieces(
    rt: &(impl Abort + Threads + Sync),
    alloc: Global,
    members: Index,
    pieces: u64,
) -> Result<(), AllocError>
    requires { members ≤ MAX_EID }
{
    let mut many = BitSet::new(alloc);
    many.add_range(0, members)?;
    assert!(rt; pieces_of(rt, alloc, &many, 4)? == pieces);
    Ok(())
}

// A large set is cut into a piece for each 32,768 members, up to 4,096.
#[test]
fn folds_count_the_pieces_of_large_sets(rt: HostRuntime) -> Result<(), Fail> {
    let is_cut = available_parallelism(&rt)?.get() > 1;
    let (some, most) = if is_cut { (1_024, 4_096) } else { (1, 1) };
    assert_pieces(&rt, rt.alloc(), 33_554_432, some)?;
    assert_pieces(&rt, rt.alloc(), 134_217_728, most)?;
    assert_pieces(&rt, rt.alloc(), 150_994_944, most)?;
    Ok(())
}

#[test]
fn each_of_many(rt: HostRuntime) -> Result<(), AllocError> {
    let many = run_of(rt.alloc(), 524_288)?;
    for layers in 1..5u8 {
        let walk = (&many).par_iter().layers_split(layers);
        assert_count(&rt, walk.count(&rt, rt.alloc())?, 524_288);
    }
    let all = (&many).par_iter().collect(&rt, rt.alloc())?;
    assert!(rt; all == list(rt.alloc(), &many)?);
    let walk = (&many).par_iter();
    assert_visits(&rt, rt.alloc(), walk, 524_288, 137_438_691_328)
}

// What `for_each` visits of a small set, which it walks over in one thread: each index by itself, up to the last.
#[test]
fn visits_of_border_indices(rt: HostRuntime) -> Result<(), AllocError> {
    for index in BORDERS {
        let set = set_of(rt.alloc(), &[index])?;
        for layers in 1..5u8 {
            let walk = (&set).par_iter().layers_split(layers);
            assert_visits(&rt, rt.alloc(), walk, 1, index as usize)?;
        }
    }
    Ok(())
}

// A run of 150,000 members in each of four regions of 2^24 indices, the last one up to the last index: enough for
// threads.
fn four_runs(alloc: Global) -> Result<BitSet, AllocError> {
    let mut set = BitSet::with_capacity(alloc, MAX_EID as Index)?;
    for start in [0u32, 16_777_216, 520_093_696, 1_073_591_824] {
        for place in 0..150_000u32 {
            let id = start.wrapping_add(place);
            if (id as usize) < MAX_EID {
                set.add(id)?;
            }
        }
    }
    Ok(set)
}

#[test]
fn visits_of_four_regions(rt: HostRuntime) -> Result<(), AllocError> {
    let set = four_runs(rt.alloc())?;
    for layers in 1..5u8 {
        let walk = (&set).par_iter().layers_split(layers);
        assert_visits(&rt, rt.alloc(), walk, 600_000, 241_614_410_100_000)?;
        let walk = (&set).par_iter().layers_split(layers);
        assert_count(&rt, walk.count(&rt, rt.alloc())?, 600_000);
    }
    let all = (&set).par_iter().collect(&rt, rt.alloc())?;
    assert!(rt; all == list(rt.alloc(), &set)?);
    assert!(rt; sum_of(&rt, rt.alloc(), &set)? == 241_614_410_100_000);
    Ok(())
}
