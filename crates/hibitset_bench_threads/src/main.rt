//! Times the calls of `hibitset` that start threads, beside the same work in one thread, and those of the shared set;
//! and adds to shared sets from all processors for as long as asked. With no argument it prints nothing.
//!
//! Its first argument says what it does, and its second how much of it: `parallel REPEATS`, `steps REPEATS` and
//! `shared REPEATS` print a line a row, what was done, over what, and how many nanoseconds one call took, the median of
//! so many, and of a walk in parts how many ten-thousandths it took of the one alone beside it; `stress SECONDS` prints
//! how many rounds it made and how many adds, or the first difference.
#![tactic(auto)]

mod clock;
mod parallel;
mod sets;
mod shared;
mod steps;
mod stress;

use anyhow::bail;
use std::alloc::Global;
use std::env;
use std::process::ExitCode;
use std::rt::{Clock, Env};
use std::thread::Threads;

fn run<R: Alloc + Clock + Env + Print + Threads + Sync>(
    rt: &R,
    alloc: Global,
) -> anyhow::Result<()> {
    let mut words = env::args(rt)?;
    let Some(what) = words.nth(1) else {
        return Ok(());
    };
    let Some(much) = words.next() else {
        bail!("{what}: how much of it?")
    };
    match what.as_str() {
        "parallel" => parallel::print_all(rt, alloc, much.parse()?),
        "steps" => steps::print_all(rt, alloc, much.parse()?),
        "shared" => shared::print_all(rt, alloc, much.parse()?),
        "stress" => stress::run(rt, alloc, much.parse()?),
        _ => bail!("{what}: not parallel, steps, shared or stress"),
    }
}

fn main(rt: HostRuntime) -> ExitCode {
    match run(&rt, rt.alloc()) {
        Ok(()) => ExitCode::SUCCESS,
        Err(error) => {
            let _ = eprintln!(rt; "{error}");
            ExitCode::FAILURE
        }
    }
}
