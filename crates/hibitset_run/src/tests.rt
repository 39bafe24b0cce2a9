//! What takes several crates, or two threads.
mod adding;
mod meeting;

ghost use Rattle.std.specs.Prelude.{Some};
ghost use Rattle.hibitset_run.specs.Text.{lines_of};
ghost use Rattle.hibitset_run.specs.Program.{EndsText};

use crate::script::{Ended, run_text};
use std::alloc::{AllocError, Global};
use std::test::Fail;

// Runs a script that lies in memory: how it may end, and what comes behind the output then, is known.
fn run_in_memory(alloc: Global, script: &str, output: &mut Vec<u8>) -> Ended
    ensures { EndsText (lines_of script.now) result (Some output.old.items)
        (Some output.new.items) }
{
    run_text(alloc, &mut script.as_bytes(), output)
}

// What a script prints, and how it ends.
pub(crate) fn printed(alloc: Global, script: &str) -> (Vec<u8>, Ended) {
    let mut output = Vec::new(alloc);
    let ended = run_in_memory(alloc, script, &mut output);
    (output, ended)
}

// Prints whether a run was refused, in whole or in part.
pub(crate) fn say(rt: &HostRuntime, refused: bool) -> Result<(), Fail> {
    println!(rt; "{}", if refused { "refused" } else { "passed" })?;
    Ok(())
}

// Makes one request, and prints whether it was refused.
pub(crate) fn ask(rt: &HostRuntime) -> Result<(), Fail> {
    let made: Result<Vec<u8>, AllocError> = Vec::with_capacity(rt.alloc(), 1);
    say(rt, made.is_err())
}
