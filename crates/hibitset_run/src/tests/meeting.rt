//! Parts of a walk that wait for one another, which only threads that run side by side get through.
mod inside;

ghost use Rattle.std.specs.Prelude.{◌-◌, ◌^◌, ◌<◌, ◌≤◌};
ghost use Rattle.hibitset_base.specs.declared.util.TheConstants.{LAYERS};

use hibitset::{BitParIter, BitSet, BitSetLike, Index};
use rayon::prelude::*;
use std::alloc::{AllocError, Global};
use std::process::Abort;
use std::sync::atomic::{AtomicU32, Ordering};
use std::test::Fail;
use std::thread::{Threads, yield_now};

// How often each side looks for the other, at most, and gives its processor up each time.
const TURNS: u32 = 2_000_000;

// So many full words of layer 0 hold the indices below 524,288.
const RUN: usize = 8_192;

// A word with every eighth bit. Cheap words with more bits each are sooner collected in one thread.
const EIGHTHS: usize = 0x0101_0101_0101_0101;

// So many of these are enough to be collected in several threads.
const MANY_EIGHTHS: usize = 65_536;

// So many cheap words are enough to be counted in several threads.
const MANY_WORDS: usize = 2_097_152;

// How many items meet through `rayon` alone.
const ITEMS: usize = 4_096;

// Two places where a thread shows itself and looks for the other: how often one came to each, and how often it found
// the other. The first times that it comes, as many as `alone`, it looks for none.
#[derive(Drop)]
struct Places {
    alone: u32,
    first: AtomicU32,
    last: AtomicU32,
    first_found: AtomicU32,
    last_found: AtomicU32,
}

// Shows itself, and looks for the other, which is to come as often, but not the first times, as many as `alone`.
fn meet(mine: &AtomicU32, other: &AtomicU32, found: &AtomicU32, alone: u32) {
    let times = mine.fetch_add(1, Ordering::SeqCst);
    if times < alone {
        return;
    }
    for _ in 0..TURNS {
        if other.load(Ordering::SeqCst) > times {
            found.fetch_add(1, Ordering::SeqCst);
            return;
        }
        yield_now();
    }
}

impl Places {
    fn new(alone: u32) -> Places {
        Places {
            alone,
            first: AtomicU32::new(0),
            last: AtomicU32::new(0),
            first_found: AtomicU32::new(0),
            last_found: AtomicU32::new(0),
        }
    }

    fn meet_first(&self) {
        meet(&self.first, &self.last, &self.first_found, self.alone);
    }

    fn meet_last(&self) {
        meet(&self.last, &self.first, &self.last_found, self.alone);
    }

    // Both came so often, and found each other each time, but the first times, as many as `alone`.
    fn both_found(&self, times: u32) -> bool {
        let found = times.saturating_sub(self.alone);
        self.first.load(Ordering::SeqCst) == times
            && self.last.load(Ordering::SeqCst) == times
            && self.first_found.load(Ordering::SeqCst) == found
            && self.last_found.load(Ordering::SeqCst) == found
    }
}

// A set whose first and last words of layer 0 can be read together alone.
#[derive(Drop)]
struct Meeting {
    set: BitSet,
    last_word: usize,
    is_cheap: bool,
    places: Places,
}

impl Meeting {
    // Of so many times the same word. The first times, as many as `alone`, its words can be read one after the other.
    fn of_words(alloc: Global, word: usize, count: usize, alone: u32) -> Result<Meeting, AllocError>
        requires { count ≤ 64 ^ (LAYERS - 1) }
    {
        let words = vec![in alloc; word; count]?;
        Ok(Meeting {
            set: BitSet::from_words(alloc, words.as_slice())?,
            last_word: count.wrapping_sub(1),
            is_cheap: false,
            places: Places::new(alone),
        })
    }

    // Of the indices below 524,288.
    fn of_run(alloc: Global) -> Result<Meeting, AllocError> {
        Meeting::of_words(alloc, usize::MAX, RUN, 0)
    }

    // Of cheap words that are counted in one thread, and then listed in several.
    fn of_eighths(alloc: Global) -> Result<Meeting, AllocError> {
        let mut set = Meeting::of_words(alloc, EIGHTHS, MANY_EIGHTHS, 1)?;
        set.is_cheap = true;
        Ok(set)
    }

    // Of the first index of each of the first `MANY_WORDS` words of layer 0, which are cheap.
    fn of_many_words(alloc: Global) -> Result<Meeting, AllocError> {
        let mut set = Meeting::of_words(alloc, 1, MANY_WORDS, 0)?;
        set.is_cheap = true;
        Ok(set)
    }
}

impl BitSetLike for Meeting {
    ghost use Rattle.hibitset.specs.BitSet.{has, has_is_lawful, word_of};

    ghost holds = { λ s. has s.set };

    ghost word = { λ s. word_of s.set };

    ghost lawful = { λ s. has_is_lawful s.set };

    fn has_cheap_words(&self) -> bool {
        self.is_cheap
    }

    fn layer4(&self) -> usize {
        self.set.layer4()
    }

    fn layer3(&self, i: usize) -> usize {
        self.set.layer3(i)
    }

    fn layer2(&self, i: usize) -> usize {
        self.set.layer2(i)
    }

    fn layer1(&self, i: usize) -> usize {
        self.set.layer1(i)
    }

    fn layer0(&self, i: usize) -> usize {
        if i == 0 {
            self.places.meet_first();
        }
        if i == self.last_word {
            self.places.meet_last();
        }
        self.set.layer0(i)
    }

    fn contains(&self, i: Index) -> bool {
        self.set.contains(i)
    }
}

// Returns whether the first and the last of `ITEMS` items meet through `rayon` alone. Where they don't, or there is one
// processor, no walk can show it.
fn threads_meet(rt: &(impl Threads + Sync)) -> bool {
    if rayon::current_num_threads(rt) == 1 {
        return false;
    }
    let control = Places::new(0);
    let places = &control;
    (0..ITEMS)
        .into_par_iter()
        .with_min_len(1)
        .for_each(rt, |i: usize| {
            if i == 0 {
                places.meet_first();
            }
            if i == ITEMS - 1 {
                places.meet_last();
            }
        });
    control.both_found(1)
}

// The sum of the items of a walk in parts.
fn sum_of<T: BitSetLike + Send + Sync>(
    rt: &(impl Threads + Sync),
    alloc: Global,
    walk: BitParIter<T>,
) -> Result<u64, AllocError> {
    walk.fold(
        rt,
        alloc,
        || 0u64,
        |sum: u64, index: Index| sum.wrapping_add(u64::from(index)),
        |sum: u64, other: u64| sum.wrapping_add(other),
    )
}

// Counts a walk over a run, lists it, adds it up and visits it, and checks that its first and last words met each time,
// where it is cut in so many layers. A list is counted first.
fn assert_meets(
    rt: &(impl Abort + Threads + Sync),
    alloc: Global,
    layers: u8,
) -> Result<(), AllocError>
    requires nonzero { 0 < layers }
    requires fits { layers < LAYERS }
{
    let set = Meeting::of_run(alloc)?;
    let walk = (&set).par_iter().layers_split(layers);
    assert_eq!(rt; walk.count(rt, alloc)?, 64 * RUN);
    assert!(rt; set.places.both_found(1), "count");
    let set = Meeting::of_run(alloc)?;
    let walk = (&set).par_iter().layers_split(layers);
    assert_eq!(rt; walk.collect(rt, alloc)?.len(), 64 * RUN);
    assert!(rt; set.places.both_found(2), "collect");
    let set = Meeting::of_run(alloc)?;
    let walk = (&set).par_iter().layers_split(layers);
    assert_eq!(rt; sum_of(rt, alloc, walk)?, 137_438_691_328);
    assert!(rt; set.places.both_found(1), "fold");
    let set = Meeting::of_run(alloc)?;
    let walk = (&set).par_iter().layers_split(layers);
    walk.for_each(rt, alloc, |_index: Index| {})?;
    assert!(rt; set.places.both_found(1), "for_each");
    Ok(())
}

#[test]
fn parts_meet(rt: HostRuntime) -> Result<(), Fail> {
    if !threads_meet(&rt) {
        return Ok(());
    }
    assert_meets(&rt, rt.alloc(), 4)?;
    Ok(())
}

// Two parts, each of them half of the work: a thread has to take each, however few they are.
#[test]
fn few_heavy_parts_meet(rt: HostRuntime) -> Result<(), Fail> {
    if !threads_meet(&rt) {
        return Ok(());
    }
    assert_meets(&rt, rt.alloc(), 2)?;
    Ok(())
}

// Where words are cheap, threads count and list where there are many, and so they do where a list is counted.
#[test]
fn many_cheap_words_meet(rt: HostRuntime) -> Result<(), Fail> {
    if !threads_meet(&rt) {
        return Ok(());
    }
    let set = Meeting::of_many_words(rt.alloc())?;
    let count = (&set).par_iter().count(&rt, rt.alloc())?;
    assert_eq!(rt; count, MANY_WORDS);
    assert!(rt; set.places.both_found(1), "count");
    let set = Meeting::of_eighths(rt.alloc())?;
    let all = (&set).par_iter().collect(&rt, rt.alloc())?;
    assert_eq!(rt; all.len(), 8 * MANY_EIGHTHS);
    assert!(rt; set.places.both_found(2), "collect, counted in one thread");
    let set = Meeting::of_many_words(rt.alloc())?;
    let all = (&set).par_iter().collect(&rt, rt.alloc())?;
    assert_eq!(rt; all.len(), MANY_WORDS);
    assert!(rt; set.places.both_found(2), "collect");
    Ok(())
}

// Meets at the first of so many members, from 0 on, and at the last.
fn meet_at(places: &Places, members: u32, index: Index) {
    if index == 0 {
        places.meet_first();
    }
    if index == members.wrapping_sub(1) {
        places.meet_last();
    }
}

// A walk that takes threads from so many members on, if it is said from how many.
fn walk_over(set: &BitSet, least: Option<usize>) -> BitParIter<&BitSet> {
    match least {
        Some(least) => set.par_iter().with_min_len(least),
        None => set.par_iter(),
    }
}

// Visits and counts so many members, from 0 on, and checks that the closures met at the first and the last.
fn assert_closures_meet(
    rt: &(impl Abort + Threads + Sync),
    alloc: Global,
    members: u32,
    least: Option<usize>,
) -> Result<(), Fail> {
    let mut set = BitSet::new(alloc);
    set.extend_indices(0..members)?;
    let places = Places::new(0);
    let walk = walk_over(&set, least);
    walk.for_each(rt, alloc, |index: Index| meet_at(&places, members, index))?;
    assert!(rt; places.both_found(1), "for_each");
    let places = Places::new(0);
    let walk = walk_over(&set, least);
    let folded = walk.fold(
        rt,
        alloc,
        || 0u32,
        |count: u32, index: Index| {
            meet_at(&places, members, index);
            count.wrapping_add(1)
        },
        |count: u32, other: u32| count.wrapping_add(other),
    )?;
    assert_eq!(rt; folded, members);
    assert!(rt; places.both_found(1), "fold");
    Ok(())
}

// Threads are there for what closures do, also where a set has few members, as its caller says.
#[test]
fn closures_meet(rt: HostRuntime) -> Result<(), Fail> {
    if !threads_meet(&rt) {
        return Ok(());
    }
    assert_closures_meet(&rt, rt.alloc(), 65, Some(1))?;
    assert_closures_meet(&rt, rt.alloc(), 10_000, None)
}
