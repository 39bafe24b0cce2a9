//! Runs a script of commands on eight sets, or on two columns of values, from standard input to standard output.
#![tactic(auto)]

mod script;
mod store;

use script::Ended;
use std::process::ExitCode;

fn main(rt: HostRuntime) -> ExitCode {
    let ended = script::run_text(rt.alloc(), &mut rt.stdin(), &mut rt.stdout());
    if ended != Ended::Done {
        let _ = eprintln!(rt; "{ended}");
    }
    ExitCode::from(ended.status())
}

#[cfg(test)]
mod tests;
