//! A script as text: read, run and printed.
ghost use Rattle.std.specs.Prelude.{◌≡◌, ◌++◌, ◌∷◌, false, List, ℕ, MatchOption, OnOk, IfOk, IfErr, IfSome, IsTrue, Some, codes};
ghost use Rattle.std.specs.Io.KnownBytes.{Consumes, IsAtEnd};
ghost use Rattle.hibitset_run.specs.Outcome.{status_of, text_of};
ghost use Rattle.hibitset_run.specs.Script.{sets_of};
ghost use Rattle.hibitset_run.specs.Text.{lines_of};
ghost use Rattle.hibitset_run.specs.ScriptParser.{IsReadFault};
ghost use Rattle.hibitset_run.specs.Program.{Ends, EndsScript, EndsText, ReadsAll, is_store};
ghost use Rattle.hibitset_run.specs.declared.script.text.Ended.TheVariants.{Done};
ghost use Rattle.hibitset_run.specs.declared.script.Slot.{Slot};

use super::parse::{commands_of, cut};
use super::print::print;
use super::run;
use crate::store;
use hibitset::BitSet;
use std::alloc::{AllocError, Global};
use std::fmt;
use std::io::{self, Read, Write};

/// How the run of a script ended. Its text is what the program says on standard error, and none for `Done`.
#[derive(Clone, Copy, Debug, PartialEq, Eq)]
pub enum Ended {
    /// Each command was run, and each reply is written.
    Done,
    /// This line, counted from 1, is the first that is no command. Nothing was run.
    BadLine(usize),
    /// An allocation failed, but not to a command, which replies that by itself. Commands may have been run, and a part
    /// of the replies may be written.
    NoMemory,
    /// A read failed. Nothing was run.
    InputFailed,
    /// A write failed. What was written before stays.
    OutputFailed,
}

impl Ended {
    /// The exit status of the program: 0 where all was done, and from 2 to 5 by the fault.
    pub fn status(&self) -> u8
        ensures { result ≡ status_of self.now }
    {
        match self {
            Ended::Done => 0,
            Ended::BadLine(_) => 2,
            Ended::NoMemory => 3,
            Ended::InputFailed => 4,
            Ended::OutputFailed => 5,
        }
    }
}

impl fmt::Display for Ended {
    ghost output = { λ ended. Some (text_of ended) };

    fn fmt<W: fmt::Write>(&self, f: &mut fmt::Formatter<W>) -> fmt::Result {
        match self {
            Ended::Done => Ok(()),
            Ended::BadLine(number) => write!(f, "bad line {number}"),
            Ended::NoMemory => write!(f, "no memory"),
            Ended::InputFailed => write!(f, "input failed"),
            Ended::OutputFailed => write!(f, "output failed"),
        }
    }
}

/// Reads a script to its end, runs its commands on eight empty sets, and writes one line a reply. Where the first line
/// is `store`, the others are commands on two empty columns.
///
/// The first fault met ends it. Where a line is bad, nothing is run or written. The reader is at its end, unless a read
/// or an allocation failed.
pub fn run_text<R: Read, W: Write>(alloc: Global, reader: &mut R, writer: &mut W) -> Ended
    ensures outcome { IfSome (R.remaining reader.old)
        (λ input. EndsText (lines_of input) result (W.contents writer.old)
        (W.contents writer.new)) }
    ensures end { ReadsAll result (R.remaining reader.new) }
{
    match read_all(alloc, reader) {
        Ok(input) => run_input(alloc, &input, writer),
        Err(fault) => fault,
    }
}

// Runs what was read, and no longer ends as `InputFailed`.
fn run_input<W: Write>(alloc: Global, input: &[u8], writer: &mut W) -> Ended
    ensures { EndsScript (lines_of input.now) result (W.contents writer.old)
        (W.contents writer.new) }
{
    match store_lines(input) {
        Some(lines) => store::run_lines(alloc, lines, writer),
        None => run_lines(alloc, input, writer),
    }
}

// What follows the first line, where that is `store`: commands on two columns.
fn store_lines(input: &[u8]) -> Option<&[u8]>
    ensures { MatchOption result (is_store (lines_of input.now) ≡ false)
        (λ lines. lines_of input.now ≡ codes "store" ∷ lines_of lines.now) }
{
    let (first, rest) = cut(input, b'\n');
    if first != b"store".as_slice() {
        return None;
    }
    Some(rest.unwrap_or(&[]))
}

// Runs the lines on eight empty sets, and writes one line a reply.
fn run_lines<W: Write>(alloc: Global, lines: &[u8], writer: &mut W) -> Ended
    ensures { Ends (lines_of lines.now) result (W.contents writer.old) (W.contents writer.new) }
{
    let commands = match commands_of(alloc, lines) {
        Ok(commands) => commands,
        Err(fault) => return fault,
    };
    let mut sets = no_sets(alloc);
    let Ok(replies) = run(alloc, &mut sets, &commands) else {
        return Ended::NoMemory;
    };
    match print(alloc, writer, &replies) {
        Ok(()) => Ended::Done,
        Err(fault) => fault,
    }
}

// Eight empty sets.
fn no_sets(alloc: Global) -> [BitSet; 8]
    ensures { (slot : Slot) (i : ℕ) → sets_of result slot i ≡ false }
{
    [
        BitSet::new(alloc),
        BitSet::new(alloc),
        BitSet::new(alloc),
        BitSet::new(alloc),
        BitSet::new(alloc),
        BitSet::new(alloc),
        BitSet::new(alloc),
        BitSet::new(alloc),
    ]
}

// All bytes of a reader. A read that a signal interrupts is made again.
//
// The error of `read_to_end` would not tell a reader's want of memory, which is a failed read, from the want of room
// for what it gave.
fn read_all<R: Read>(alloc: Global, reader: &mut R) -> Result<Vec<u8>, Ended>
    ensures ok { IfOk result (λ input. IfSome (R.remaining reader.old)
        (λ bytes. input.items ≡ bytes)) }
    ensures end { OnOk result (IsAtEnd (R.remaining reader.new)) }
    ensures err { IfErr result IsReadFault }
{
    let mut input = Vec::new(alloc);
    for _round in 0..u64::MAX {
        if read_some(reader, &mut input)? {
            return Ok(input);
        }
    }
    // It gave up, as std does where a reader never ends.
    Err(Ended::InputFailed)
}

// Reads once, and returns whether the reader has ended.
fn read_some<R: Read>(reader: &mut R, input: &mut Vec<u8>) -> Result<bool, Ended>
    ensures ok { OnOk result ((bytes : List ℕ) × (input.new.items ≡ input.old.items ++ bytes)
        × Consumes (R.remaining reader.old) (R.remaining reader.new) bytes) }
    ensures end { IfOk result (λ ended. IsTrue ended → IsAtEnd (R.remaining reader.new)) }
    ensures err { IfErr result IsReadFault }
{
    let mut chunk = [0; 8192];
    match reader.read(&mut chunk) {
        Ok(0) => Ok(true),
        Ok(count) => match input.extend_from_slice(&chunk[..count]) {
            Ok(()) => Ok(false),
            Err(AllocError) => Err(Ended::NoMemory),
        },
        Err(error) if error.kind() == io::ErrorKind::Interrupted => Ok(false),
        Err(_) => Err(Ended::InputFailed),
    }
}
