//! Times and their medians.
use std::alloc::{AllocError, Global};
use std::rt::Clock;
use std::time::Instant;

// The time since a reading of the clock, in nanoseconds.
pub(crate) fn nanoseconds(rt: &impl Clock, start: Instant) -> anyhow::Result<u64> {
    Ok(u64::try_from(start.elapsed(rt)?.as_nanos()).unwrap_or(u64::MAX))
}

// The middle one of some times.
pub(crate) fn median(times: &mut Vec<u64>) -> anyhow::Result<u64> {
    times.sort()?;
    Ok(times.get(times.len() / 2).copied().unwrap_or(0))
}

// What is told of a row: how long a call takes alone and how long in parts, and how many ten-thousandths the one in
// parts takes of the one beside it.
#[derive(Drop)]
pub(crate) struct Times {
    alone: u64,
    in_parts: u64,
    ratio: u64,
}

impl Times {
    // Prints both rows of a call.
    pub(crate) fn print(&self, rt: &impl Print, call: &str) -> anyhow::Result<()> {
        println!(rt; "{call}\talone\t{}", self.alone)?;
        println!(rt; "{call}\tin parts\t{}\t{}", self.in_parts, self.ratio)?;
        Ok(())
    }
}

// The times of a row. Both calls take turns, and the ratio is that of each turn, so that a machine that changes its
// pace changes both.
#[derive(Drop)]
struct Turns {
    alone: Vec<u64>,
    in_parts: Vec<u64>,
    ratios: Vec<u64>,
}

impl Turns {
    fn new(alloc: Global) -> Self {
        Turns {
            alone: Vec::new(alloc),
            in_parts: Vec::new(alloc),
            ratios: Vec::new(alloc),
        }
    }

    // One more turn.
    fn push(&mut self, alone: u64, in_parts: u64) -> Result<(), AllocError> {
        self.alone.push(alone)?;
        self.in_parts.push(in_parts)?;
        self.ratios.push(ratio_of(in_parts, alone))?;
        Ok(())
    }

    // The medians of all turns.
    fn times(&mut self) -> anyhow::Result<Times> {
        Ok(Times {
            alone: median(&mut self.alone)?,
            in_parts: median(&mut self.in_parts)?,
            ratio: median(&mut self.ratios)?,
        })
    }
}

// How many ten-thousandths one time is of another.
fn ratio_of(time: u64, other: u64) -> u64 {
    time.saturating_mul(10_000) / other.max(1)
}

// How long one call takes.
fn time_of<R: Clock, F: Fn() -> Result<u64, AllocError>>(rt: &R, call: &F) -> anyhow::Result<u64>
    requires { F.IsAlwaysCallable call.now }
{
    let start = Instant::now(rt)?;
    let sum = call()?;
    let time = nanoseconds(rt, start)?;
    // The sum is used, so that the work is not left out.
    Ok(if sum == u64::MAX { 0 } else { time })
}

// The medians of `repeats` calls of each.
pub(crate) fn times_of<R, A, P>(
    rt: &R,
    alloc: Global,
    repeats: usize,
    alone: A,
    in_parts: P,
) -> anyhow::Result<Times>
where
    R: Clock,
    A: Fn() -> Result<u64, AllocError>,
    P: Fn() -> Result<u64, AllocError>,
    requires alone { A.IsAlwaysCallable alone }
    requires in_parts { P.IsAlwaysCallable in_parts }
{
    let mut turns = Turns::new(alloc);
    for _ in 0..repeats {
        let time_alone = time_of(rt, &alone)?;
        let time_in_parts = time_of(rt, &in_parts)?;
        turns.push(time_alone, time_in_parts)?;
    }
    turns.times()
}
