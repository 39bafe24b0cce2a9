//! The shared set: what is timed of it, on one thread and on all processors.
ghost use Rattle.std.specs.Prelude.{◌<◌, IfOk};
ghost use Rattle.std.specs.Thread.{IsSync};
ghost use Rattle.hibitset_atomic.specs.Seats.{BelongsTo};

use crate::clock::{median, nanoseconds};
use crate::sets::{SEED, next};
use anyhow::bail;
use hibitset::{AtomicBitSet, BitSet, Index, Seat, SharedBitSet};
use std::alloc::{AllocError, Global};
use std::rt::Clock;
use std::thread;
use std::thread::Threads;
use std::time::Instant;

// How many indices a list has: half of them are added, and half are only asked for.
const INDICES: usize = 2_000_000;

// How often each index is asked for, so that what it takes to start threads is a small part.
const TURNS: usize = 16;

// What is done with each index, and how often.
trait Work {
    const TURNS: usize;

    // What the set returns for an index.
    fn answer(set: &SharedBitSet, seat: &mut Seat, id: Index) -> bool
        requires seat { BelongsTo set.now seat.old }
        requires in_range { id < 16777216 }
        ensures { BelongsTo set.now seat.new };
}

struct Add;

impl Work for Add {
    const TURNS: usize = 1;

    #[inline]
    fn answer(set: &SharedBitSet, seat: &mut Seat, id: Index) -> bool {
        set.add_atomic(seat, id)
    }
}

struct Ask;

impl Work for Ask {
    const TURNS: usize = TURNS;

    #[inline]
    fn answer(set: &SharedBitSet, seat: &mut Seat, id: Index) -> bool {
        set.contains(seat, id)
    }
}

// A seat that has added or asked, and how many answers were false.
#[derive(Drop)]
struct Done {
    seat: Seat,
    falses: u64,
}

// What is timed in each round.
const ROWS: [&str; 8] = [
    "add, new",
    "add, there",
    "contains, hit",
    "contains, miss",
    "walk, shared",
    "walk, settled",
    "settle",
    "share",
];

// The times of one round, in nanoseconds.
type Times = [u64; 8];

// The sum of what a walk over the shared set gives.
fn shared_sum(set: &SharedBitSet, seat: &mut Seat) -> u64
    requires { BelongsTo set.now seat.old }
    ensures { BelongsTo set.now seat.new }
{
    let mut sum = 0u64;
    for id in set.walk(seat) {
        sum = sum.wrapping_add(u64::from(id));
    }
    sum
}

// The sum of the members of the settled set.
fn settled_sum(set: &AtomicBitSet) -> u64 {
    let mut sum = 0u64;
    for id in set {
        sum = sum.wrapping_add(u64::from(id));
    }
    sum
}

// The work in the calling thread, one turn over the list after another.
fn alone<W: Work>(set: &SharedBitSet, seat: Seat, list: &[Index]) -> Done
    requires { BelongsTo set.now seat }
    ensures { BelongsTo set.now result.seat }
{
    let mut seat = seat;
    let mut falses = 0u64;
    for _ in 0..W::TURNS {
        for id in list {
            if !W::answer(set, &mut seat, *id % 16_777_216) {
                falses = falses.wrapping_add(1);
            }
        }
    }
    Done { seat, falses }
}

// The work on so many threads, each with a seat and a part of the list of its own.
fn spread<W: Work + Sync, R: Threads + Sync>(
    rt: &R,
    set: &SharedBitSet,
    seat: Seat,
    list: &[Index],
    threads: usize,
) -> Done
    requires { BelongsTo set.now seat }
    ensures { BelongsTo set.now result.seat }
{
    if threads < 2 {
        return alone::<W>(set, seat, list);
    }
    let (mine, theirs) = set.divide(seat);
    let Some(theirs) = theirs else {
        return alone::<W>(set, mine, list);
    };
    let half = threads / 2;
    let rest = threads - half;
    let at = (list.len() / threads).saturating_mul(half).min(list.len());
    let (low, high) = list.split_at(at);
    let front = move || -> Done
        requires { IsSync R.row × BelongsTo set.now theirs }
        ensures { BelongsTo set.entry.now result.seat }
    { spread::<W, R>(rt, set, theirs, low, half) };
    let back = move || -> Done
        requires { IsSync R.row × BelongsTo set.now mine }
        ensures { BelongsTo set.entry.now result.seat }
    { spread::<W, R>(rt, set, mine, high, rest) };
    let (one, two) = thread::join(rt, front, back);
    Done {
        seat: set.join(one.seat, two.seat),
        falses: one.falses.wrapping_add(two.falses),
    }
}

// The work and how long it took. It fails where so many answers were not false.
fn timed<W: Work + Sync, R: Clock + Threads + Sync>(
    rt: &R,
    set: &SharedBitSet,
    seat: Seat,
    list: &[Index],
    threads: usize,
    falses: usize,
) -> anyhow::Result<(Seat, u64)>
    requires { BelongsTo set.now seat }
    ensures { IfOk result (λ r. BelongsTo set.now r.0) }
{
    let start = Instant::now(rt)?;
    let done = spread::<W, R>(rt, set, seat, list, threads);
    let time = nanoseconds(rt, start)?;
    if done.falses != falses as u64 {
        bail!("{} answers false, and not {falses}", done.falses)
    }
    Ok((done.seat, time))
}

// Everything once, over a set of its own.
fn round<R: Clock + Threads + Sync>(
    rt: &R,
    alloc: Global,
    list: &[Index],
    threads: usize,
) -> anyhow::Result<Times> {
    let (new, others) = list.split_at(list.len() / 2);
    let Ok((set, seat)) = AtomicBitSet::new(alloc)?.share() else {
        bail!("no memory to share")
    };
    let (seat, add_new) = timed::<Add, R>(rt, &set, seat, new, threads, new.len())?;
    let (seat, add_there) = timed::<Add, R>(rt, &set, seat, new, threads, 0)?;
    let (seat, hit) = timed::<Ask, R>(rt, &set, seat, new, threads, 0)?;
    let misses = others.len().saturating_mul(TURNS);
    let (mut seat, miss) = timed::<Ask, R>(rt, &set, seat, others, threads, misses)?;
    let start = Instant::now(rt)?;
    let sum = shared_sum(&set, &mut seat);
    let walk = nanoseconds(rt, start)?;
    let start = Instant::now(rt)?;
    let Ok(settled) = set.settle(seat) else {
        bail!("no memory to settle")
    };
    let settle = nanoseconds(rt, start)?;
    let start = Instant::now(rt)?;
    if settled_sum(&settled) != sum {
        bail!("a walk over the shared set gives another sum")
    }
    let settled_walk = nanoseconds(rt, start)?;
    let start = Instant::now(rt)?;
    let again = settled.share();
    let share = nanoseconds(rt, start)?;
    if again.is_err() {
        bail!("no memory to share")
    }
    Ok([
        add_new,
        add_there,
        hit / TURNS as u64,
        miss / TURNS as u64,
        walk,
        settled_walk,
        settle,
        share,
    ])
}

// Indices of the fixed sequence, each once.
fn by_chance(alloc: Global) -> Result<Vec<Index>, AllocError> {
    let mut drawn = BitSet::new(alloc);
    let mut list = Vec::new(alloc);
    let mut state = SEED;
    for _ in 0..4 * INDICES {
        state = next(state);
        let id = ((state >> 32) % 16_777_216) as Index;
        if !drawn.add(id)? {
            list.push(id)?;
        }
        if list.len() == INDICES {
            break;
        }
    }
    Ok(list)
}

// The first indices.
fn ascending(alloc: Global) -> Result<Vec<Index>, AllocError> {
    let mut list = Vec::new(alloc);
    for id in 0..INDICES as Index {
        list.push(id)?;
    }
    Ok(list)
}

// The median of one of the times of all rounds.
fn median_of(alloc: Global, rounds: &[Times], row: usize) -> anyhow::Result<u64> {
    let mut times = Vec::new(alloc);
    for round in rounds {
        times.push(round.get(row).copied().unwrap_or(0))?;
    }
    median(&mut times)
}

// Prints the rows over one list.
fn print_rows<R: Clock + Print + Threads + Sync>(
    rt: &R,
    alloc: Global,
    list: &[Index],
    over: &str,
    threads: usize,
    repeats: usize,
) -> anyhow::Result<()> {
    let mut rounds = Vec::new(alloc);
    for _ in 0..repeats {
        rounds.push(round(rt, alloc, list, threads)?)?;
    }
    for row in 0..ROWS.len() {
        let name = ROWS[row];
        let time = median_of(alloc, rounds.as_slice(), row)?;
        println!(rt; "{name}\t{over}\t{time}")?;
    }
    Ok(())
}

// Prints all rows, each the median of so many rounds.
pub(crate) fn print_all<R: Clock + Print + Threads + Sync>(
    rt: &R,
    alloc: Global,
    repeats: usize,
) -> anyhow::Result<()> {
    let processors = thread::available_parallelism(rt)?.get();
    let chance = by_chance(alloc)?;
    let first = ascending(alloc)?;
    for (ways, threads) in [("one thread", 1), ("all processors", processors)] {
        for (order, list) in [
            ("random", chance.as_slice()),
            ("ascending", first.as_slice()),
        ] {
            let over = format!(in alloc; "{order}\t{ways}")?;
            print_rows(rt, alloc, list, over.as_str(), threads, repeats)?;
        }
    }
    Ok(())
}
