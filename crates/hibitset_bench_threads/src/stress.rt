//! Rounds of additions to shared sets from all processors, each compared with a plain set.
ghost use Rattle.std.specs.Prelude.{◌<◌, IfOk, IfSome};
ghost use Rattle.std.specs.Thread.{IsSync};
ghost use Rattle.hibitset_atomic.specs.Seats.{BelongsTo};

use crate::sets::{SEED, next};
use anyhow::bail;
use hibitset::{AtomicBitSet, BitSet, BitSetLike, Index, Seat, SharedBitSet};
use std::alloc::{AllocError, Global};
use std::rt::Clock;
use std::sync::atomic::{AtomicU64, Ordering};
use std::thread;
use std::thread::Threads;
use std::time::{Duration, Instant};

// How many indices each thread adds in a round.
const DRAWS: u32 = 32_768;

// How often a thread looks whether the others are there, before it begins without them.
const LOOKS: u32 = 1_000_000;

// Where the adds of a round lie: all threads go from range to range, and add in each by chance.
#[derive(Clone, Copy)]
struct Ranges {
    width: u32,
    draws: u32,
}

const RANGES: [Ranges; 3] = [
    // one word
    Ranges {
        width: 64,
        draws: 128,
    },
    // one block
    Ranges {
        width: 4_096,
        draws: 4_096,
    },
    // all
    Ranges {
        width: 16_777_216,
        draws: DRAWS,
    },
];

// The adds of one round: where they lie, and the number that all its sequences come from.
#[derive(Clone, Copy)]
struct Plan {
    ranges: Ranges,
    seed: u64,
}

// What one thread has: its seat, and a second one while it is divided.
#[derive(Drop)]
struct Hand {
    seat: Seat,
    spare: Option<Seat>,
}

// What came of a thread's adds: how many answered false, an index that it knew and did not find, what its walks gave,
// and whether one of them went wrong.
#[derive(Drop)]
struct Done {
    seat: Seat,
    news: u64,
    lost: Option<Index>,
    walks: Walks,
}

// What is wrong with a walk: it did not ascend, or it missed an index that its seat knew.
#[derive(Clone, Copy, Debug)]
enum Fault {
    Order,
    Missed,
}

// What a thread has added, with their number, and what its walks gave.
#[derive(Drop)]
struct Walks {
    added: BitSet,
    count: u64,
    given: BitSet,
    fault: Option<Fault>,
}

impl Plan {
    // Where a thread's sequence begins.
    fn first(self, thread: u32) -> u64 {
        next(next(self.seed ^ (u64::from(thread) << 40) ^ SEED))
    }

    // The index of a draw of any sequence.
    fn index(self, draw: u32, state: u64) -> Index
        ensures { result < 16777216 }
    {
        let width = u64::from(self.ranges.width.max(1));
        let range = u64::from(draw / self.ranges.draws.max(1));
        let base = (self.seed >> 20).wrapping_add(range).wrapping_mul(width);
        (base.wrapping_add((state >> 32) % width) % 16_777_216) as Index
    }
}

// Divides the seat, or joins it where it is divided. The newer of two seats is the one that adds.
fn turn(set: &SharedBitSet, hand: Hand) -> Hand
    requires { BelongsTo set.now hand.seat × IfSome hand.spare (λ s. BelongsTo set.now s) }
    ensures { BelongsTo set.now result.seat × IfSome result.spare (λ s. BelongsTo set.now s) }
{
    let Hand { seat, spare } = hand;
    if let Some(spare) = spare {
        return Hand {
            seat: set.join(spare, seat),
            spare: None,
        };
    }
    match set.divide(seat) {
        (older, Some(newer)) => Hand {
            seat: newer,
            spare: Some(older),
        },
        (only, None) => Hand {
            seat: only,
            spare: None,
        },
    }
}

// One seat again.
fn joined(set: &SharedBitSet, hand: Hand) -> Seat
    requires { BelongsTo set.now hand.seat × IfSome hand.spare (λ s. BelongsTo set.now s) }
    ensures { BelongsTo set.now result }
{
    let Hand { seat, spare } = hand;
    let Some(spare) = spare else {
        return seat;
    };
    set.join(spare, seat)
}

// Waits a while for all threads of a round.
fn meet(gate: &AtomicU64, threads: u32) {
    gate.fetch_add(1, Ordering::SeqCst);
    for _ in 0..LOOKS {
        if gate.load(Ordering::SeqCst) >= u64::from(threads) {
            return;
        }
    }
}

impl Walks {
    fn new(alloc: Global) -> Walks {
        Walks {
            added: BitSet::new(alloc),
            count: 0,
            given: BitSet::new(alloc),
            fault: None,
        }
    }

    // Keeps in mind that the thread has added an index.
    fn add(&mut self, id: Index) -> Result<(), AllocError>
        requires { id < 16777216 }
    {
        if !self.added.add(id)? {
            self.count = self.count.wrapping_add(1);
        }
        Ok(())
    }

    // Walks over the shared set, while others add: the walk has to ascend, and to give all that the thread has added.
    fn walk(&mut self, set: &SharedBitSet, seat: &mut Seat) -> Result<(), AllocError>
        requires { BelongsTo set.now seat.old }
        ensures { BelongsTo set.now seat.new }
    {
        let mut from = 0u32;
        let mut met = 0u64;
        for id in set.walk(seat) {
            if id < from || id >= 16_777_216 {
                self.fault = Some(Fault::Order);
                return Ok(());
            }
            from = id + 1;
            met = met.wrapping_add(u64::from(self.added.contains(id)));
            self.given.add(id)?;
        }
        if met != self.count {
            self.fault = Some(Fault::Missed);
        }
        Ok(())
    }

    // What the walks of two threads gave.
    fn with(self, other: Walks) -> Result<Walks, AllocError> {
        let mut both = self;
        both.given.bitor_assign(&other.given)?;
        both.fault = both.fault.or(other.fault);
        Ok(both)
    }
}

// The adds of one thread. After each it asks for that index and for an earlier one, and one in 64 times it divides its
// seat or joins it again; now and then it walks over the set.
fn add_all(
    set: &SharedBitSet,
    alloc: Global,
    seat: Seat,
    plan: Plan,
    thread: u32,
) -> Result<Done, AllocError>
    requires { BelongsTo set.now seat }
    ensures { IfOk result (λ done. BelongsTo set.now done.seat) }
{
    let mut walks = Walks::new(alloc);
    let mut hand = Hand { seat, spare: None };
    let mut state = plan.first(thread);
    let mut earlier = plan.index(0, next(state));
    let mut news = 0u64;
    let mut lost = None;
    for draw in 0..DRAWS {
        state = next(state);
        let id = plan.index(draw, state);
        if !set.add_atomic(&mut hand.seat, id) {
            news = news.wrapping_add(1);
        }
        walks.add(id)?;
        if !set.contains(&mut hand.seat, id) {
            lost = Some(id);
        }
        if !set.contains(&mut hand.seat, earlier) {
            lost = Some(earlier);
        }
        if state % 8 == 0 {
            earlier = id;
        }
        if state % 64 == 1 {
            hand = turn(set, hand);
        }
        if draw % 8_192 == 5_000 {
            hand = Hand {
                seat: joined(set, hand),
                spare: None,
            };
            walks.walk(set, &mut hand.seat)?;
        }
    }
    Ok(Done {
        seat: joined(set, hand),
        news,
        lost,
        walks,
    })
}

// The adds of so many threads, from the first on, each with a seat of its own. There are at most as many as shares of
// the seat.
fn on_threads<R: Threads + Sync>(
    rt: &R,
    set: &SharedBitSet,
    alloc: Global,
    seat: Seat,
    plan: Plan,
    gate: &AtomicU64,
    all: u32,
    first: u32,
    count: u32,
) -> Result<Done, AllocError>
    requires { BelongsTo set.now seat }
    ensures { IfOk result (λ done. BelongsTo set.now done.seat) }
{
    if count < 2 {
        meet(gate, all);
        return add_all(set, alloc, seat, plan, first);
    }
    let (mine, theirs) = set.divide(seat);
    let Some(theirs) = theirs else {
        return add_all(set, alloc, mine, plan, first);
    };
    let half = count / 2;
    let rest = count - half;
    let middle = first.wrapping_add(half);
    let front = move || -> Result<Done, AllocError>
        requires { IsSync R.row × BelongsTo set.now theirs }
        ensures { IfOk result (λ done. BelongsTo set.entry.now done.seat) }
    { on_threads(rt, set, alloc, theirs, plan, gate, all, first, half) };
    let back = move || -> Result<Done, AllocError>
        requires { IsSync R.row × BelongsTo set.now mine }
        ensures { IfOk result (λ done. BelongsTo set.entry.now done.seat) }
    { on_threads(rt, set, alloc, mine, plan, gate, all, middle, rest) };
    let (one, two) = thread::join(rt, front, back);
    let one = one?;
    let two = two?;
    Ok(Done {
        seat: set.join(one.seat, two.seat),
        news: one.news.wrapping_add(two.news),
        lost: one.lost.or(two.lost),
        walks: one.walks.with(two.walks)?,
    })
}

// Adds the indices of one thread's sequence to a plain set, and counts those that it had not.
fn add_plainly(model: &mut BitSet, plan: Plan, thread: u32) -> Result<u64, AllocError> {
    let mut state = plan.first(thread);
    let mut news = 0u64;
    for draw in 0..DRAWS {
        state = next(state);
        if !model.add(plan.index(draw, state))? {
            news = news.wrapping_add(1);
        }
    }
    Ok(news)
}

// A set with one in eight of the indices of a sequence, or, in half of the rounds, with hardly any, so that the adds
// have to set summaries too.
fn old_set(alloc: Global, plan: Plan, thread: u32) -> Result<AtomicBitSet, AllocError> {
    let mut set = AtomicBitSet::new(alloc)?;
    let mut state = plan.first(thread);
    for draw in 0..DRAWS {
        state = next(state);
        if state % 8 == 3 && (plan.seed % 2 == 0 || draw % 4_096 == 0) {
            set.add(plan.index(draw, state))?;
        }
    }
    Ok(set)
}

// The same indices in a plain set.
fn plain(alloc: Global, set: &AtomicBitSet) -> Result<BitSet, AllocError> {
    let mut model = BitSet::new(alloc);
    for id in set.iter() {
        if id < 16_777_216 {
            model.add(id)?;
        }
    }
    Ok(model)
}

// The first member of the one or the other that is not in both.
fn difference(set: &AtomicBitSet, model: &BitSet) -> Option<Index> {
    for id in set.iter() {
        if !model.contains(id) {
            return Some(id);
        }
    }
    for id in model.iter() {
        if !set.contains(id) {
            return Some(id);
        }
    }
    None
}

// One round: it fails at the first difference.
fn round<R: Threads + Sync>(rt: &R, alloc: Global, plan: Plan, threads: u32) -> anyhow::Result<()> {
    // The old members are of a sequence that no thread has, in the same ranges.
    let old = old_set(alloc, plan, threads)?;
    let mut model = plain(alloc, &old)?;
    let Ok((set, seat)) = old.share() else {
        bail!("no memory to share")
    };
    let gate = AtomicU64::new(0);
    let done = on_threads(rt, &set, alloc, seat, plan, &gate, threads, 0, threads)?;
    if let Some(fault) = done.walks.fault {
        bail!("a walk went wrong: {fault:?}")
    }
    if let Some(lost) = done.lost {
        bail!("{lost} was known and is not there")
    }
    if !done.seat.is_whole() {
        bail!("the seats weigh {} together", done.seat.weight())
    }
    let Ok(settled) = set.settle(done.seat) else {
        bail!("no memory to settle")
    };
    let mut news = 0u64;
    for thread in 0..threads {
        news = news.wrapping_add(add_plainly(&mut model, plan, thread)?);
    }
    if done.news != news {
        bail!("{} answers false, and {news} new members", done.news)
    }
    if !model.contains_set(&done.walks.given) {
        bail!("a walk gave what nobody added")
    }
    if let Some(id) = difference(&settled, &model) {
        bail!("{id} is in one of the two sets alone")
    }
    Ok(())
}

// Makes rounds for so many seconds, and prints how many there were.
pub(crate) fn run<R: Clock + Print + Threads + Sync>(
    rt: &R,
    alloc: Global,
    seconds: u64,
) -> anyhow::Result<()> {
    let threads = thread::available_parallelism(rt)?.get().clamp(2, 256) as u32;
    let start = Instant::now(rt)?;
    let mut seed = SEED;
    let mut rounds = 0u64;
    for number in 0..u64::MAX {
        if start.elapsed(rt)? >= Duration::from_secs(seconds) {
            break;
        }
        seed = next(seed);
        let ranges = RANGES[(number % 3) as usize];
        let plan = Plan { ranges, seed };
        if let Err(error) = round(rt, alloc, plan, threads) {
            bail!("round {number}, in ranges of {}: {error}", ranges.width)
        }
        rounds = number + 1;
    }
    let adds = rounds
        .wrapping_mul(u64::from(threads))
        .wrapping_mul(u64::from(DRAWS));
    println!(rt; "{rounds} rounds on {threads} threads, {adds} adds, no difference")?;
    Ok(())
}
