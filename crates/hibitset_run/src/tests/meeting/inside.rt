//! How many threads are inside a walk at once: one for each processor, and no more; two for each while `collect` writes.
use super::Meeting;
use hibitset::{BitParIter, BitSet, BitSetLike, Index};
use rayon::prelude::*;
use std::alloc::{AllocError, Global};
use std::process::Abort;
use std::sync::atomic::{AtomicBool, AtomicU32, Ordering};
use std::test::Fail;
use std::thread::{Threads, yield_now};

// How often a thread looks for others, at most, and how often for one too many once all are there.
const TURNS: u32 = 200_000;

const MORE_TURNS: u32 = 20_000;

// No walk starts more threads, whatever the processors.
const MOST_THREADS: u32 = 32;

// A place that threads are to be in at once, so many of them.
#[derive(Drop)]
struct Room {
    wanted: u32,
    inside: AtomicU32,
    most: AtomicU32,
    is_open: AtomicBool,
}

impl Room {
    fn new(wanted: u32) -> Room {
        Room {
            wanted,
            inside: AtomicU32::new(0),
            most: AtomicU32::new(0),
            is_open: AtomicBool::new(false),
        }
    }

    // Returns whether at some time more than so many were inside, after so many looks at most.
    fn has_more_than(&self, count: u32, turns: u32) -> bool {
        for _ in 0..turns {
            if self.most.load(Ordering::SeqCst) > count {
                return true;
            }
            yield_now();
        }
        false
    }

    // Waits inside for as many as are wanted, and then for one more. Once that was done, nobody waits.
    fn pass(&self) {
        let inside = self.inside.fetch_add(1, Ordering::SeqCst).wrapping_add(1);
        self.most.fetch_max(inside, Ordering::SeqCst);
        if !self.is_open.load(Ordering::SeqCst) {
            self.has_more_than(self.wanted.saturating_sub(1), TURNS);
            self.has_more_than(self.wanted, MORE_TURNS);
            self.is_open.store(true, Ordering::SeqCst);
        }
        self.inside.fetch_sub(1, Ordering::SeqCst);
    }

    // As many as are wanted were inside at once, and never more.
    fn was_full(&self) -> bool {
        self.most.load(Ordering::SeqCst) == self.wanted
    }
}

// How many threads a walk takes.
fn threads_wanted(rt: &impl Threads) -> u32 {
    u32::try_from(rayon::current_num_threads(rt)).map_or(
        MOST_THREADS,
        |count| count.min(MOST_THREADS),
    )
}

// In how many pieces a list is written, each in a thread of its own: the last power of two that is no more than two for
// each thread of a walk.
fn pieces_wanted(rt: &impl Threads) -> u32 {
    1u32.wrapping_shl(threads_wanted(rt).saturating_mul(2).max(1).ilog2())
}

// Returns whether so many threads come in at once through `rayon` alone. Where they don't, no walk can show it.
fn threads_fit(rt: &(impl Threads + Sync), wanted: u32) -> bool {
    let room = Room::new(wanted);
    (0..wanted as usize)
        .into_par_iter()
        .with_min_len(1)
        .for_each(rt, |_i: usize| room.pass());
    room.was_full()
}

// A word of each block of layer 0 is a room while it is counted, and another one while it is listed. The choice whether to
// take threads reads words in the middle of a block alone.
const BLOCK: usize = 64;

// So many full words of layer 0, which are cut into parts of 16.
const WORDS: usize = 8_192;

#[derive(Drop)]
struct Crowded {
    set: BitSet,
    read: AtomicU32,
    counted: Room,
    listed: Room,
}

impl Crowded {
    fn new(alloc: Global, threads: u32, pieces: u32) -> Result<Crowded, AllocError> {
        let words = vec![in alloc; usize::MAX; WORDS]?;
        Ok(Crowded {
            set: BitSet::from_words(alloc, words.as_slice())?,
            read: AtomicU32::new(0),
            counted: Room::new(threads),
            listed: Room::new(pieces),
        })
    }

    // Each first word of a block is read once to count, and then once to list.
    fn pass(&self) {
        let read = self.read.fetch_add(1, Ordering::SeqCst) as usize;
        if read < WORDS / BLOCK {
            self.counted.pass();
        } else {
            self.listed.pass();
        }
    }
}

impl BitSetLike for Crowded {
    ghost use Rattle.hibitset.specs.BitSet.{has, has_is_lawful, word_of};

    ghost holds = { λ s. has s.set };

    ghost word = { λ s. word_of s.set };

    ghost lawful = { λ s. has_is_lawful s.set };

    fn layer4(&self) -> usize {
        self.set.layer4()
    }

    fn layer3(&self, i: usize) -> usize {
        self.set.layer3(i)
    }

    fn layer2(&self, i: usize) -> usize {
        self.set.layer2(i)
    }

    fn layer1(&self, i: usize) -> usize {
        self.set.layer1(i)
    }

    fn layer0(&self, i: usize) -> usize {
        if i % BLOCK == 0 {
            self.pass();
        }
        self.set.layer0(i)
    }

    fn contains(&self, i: Index) -> bool {
        self.set.contains(i)
    }
}

#[test]
fn as_many_threads_count_as_there_are_processors(rt: HostRuntime) -> Result<(), Fail> {
    let threads = threads_wanted(&rt);
    if threads == 1 || !threads_fit(&rt, threads) {
        return Ok(());
    }
    let set = Crowded::new(rt.alloc(), threads, 0)?;
    assert!(rt; (&set).par_iter().count(&rt, rt.alloc())? == 64 * WORDS);
    assert!(rt; set.counted.was_full());
    Ok(())
}

#[test]
fn twice_as_many_threads_write_a_list(rt: HostRuntime) -> Result<(), Fail> {
    let (threads, pieces) = (threads_wanted(&rt), pieces_wanted(&rt));
    if threads == 1 || !threads_fit(&rt, pieces) {
        return Ok(());
    }
    let set = Crowded::new(rt.alloc(), threads, pieces)?;
    assert!(rt; (&set).par_iter().collect(&rt, rt.alloc())?.len() == 64 * WORDS);
    assert!(rt; set.counted.was_full() && set.listed.was_full());
    Ok(())
}

// A walk over the first 10,000 indices, in parts of 64.
fn ten_thousand(alloc: Global) -> Result<BitParIter<BitSet>, AllocError> {
    let mut set = BitSet::new(alloc);
    set.add_range(0, 10_000)?;
    Ok(set.par_iter())
}

#[test]
fn as_many_threads_visit_as_there_are_processors(rt: HostRuntime) -> Result<(), Fail> {
    let threads = threads_wanted(&rt);
    if threads == 1 || !threads_fit(&rt, threads) {
        return Ok(());
    }
    let room = Room::new(threads);
    ten_thousand(rt.alloc())?.for_each(&rt, rt.alloc(), |_index: Index| room.pass())?;
    assert!(rt; room.was_full());
    Ok(())
}

#[test]
fn as_many_threads_fold_as_there_are_processors(rt: HostRuntime) -> Result<(), Fail> {
    let threads = threads_wanted(&rt);
    if threads == 1 || !threads_fit(&rt, threads) {
        return Ok(());
    }
    let room = Room::new(threads);
    let count = ten_thousand(rt.alloc())?.fold(
        &rt,
        rt.alloc(),
        || 0u32,
        |count: u32, _index: Index| {
            room.pass();
            count.wrapping_add(1)
        },
        |count: u32, other: u32| count.wrapping_add(other),
    )?;
    assert!(rt; count == 10_000 && room.was_full());
    Ok(())
}
