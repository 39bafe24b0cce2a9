//! How often a reader and a writer are called that give or take one byte at a time, are interrupted, or fail at one call
//! and would go on after it.
use crate::script::{Ended, run_text};
use std::alloc::{AllocError, Global};
use std::io::{self, ErrorKind, Read, Write};
use std::test::Fail;

// The script of most runs, of 15 bytes, and its replies, of 8.
const SCRIPT: &str = "add a 5\nlist a\n";

const REPLIES: &[u8] = b"false\n5\n";

// No call fails.
const NEVER: u32 = u32::MAX;

// What calls do: each gives or takes so many bytes at most, each other one is interrupted, from the first on, if `halts`
// says so, and the one with the number `fails_at`, from 0 on, fails. Where there is no kind of error, it gives or takes
// nothing. Those after it go on.
#[derive(Clone, Copy)]
struct Habit {
    most: usize,
    halts: bool,
    fails_at: u32,
    kind: Option<ErrorKind>,
}

// Calls that give or take all that they can.
const WHOLE: Habit = Habit {
    most: usize::MAX,
    halts: false,
    fails_at: NEVER,
    kind: None,
};

// One byte at a time.
const BYTES: Habit = Habit { most: 1, ..WHOLE };

// One byte at a time, with an interruption before each.
const HALTED: Habit = Habit {
    halts: true,
    ..BYTES
};

impl Habit {
    // The same, but that one call fails.
    fn failing(self, fails_at: u32, kind: Option<ErrorKind>) -> Habit {
        Habit {
            fails_at,
            kind,
            ..self
        }
    }

    // How many bytes the call with this number may give or take.
    fn at(self, call: u32) -> io::Result<usize> {
        if call == self.fails_at {
            return match self.kind {
                Some(kind) => Err(io::Error::new(kind, "broken")),
                None => Ok(0),
            };
        }
        if self.halts && call % 2 == 0 {
            return Err(io::Error::new(ErrorKind::Interrupted, "halted"));
        }
        Ok(self.most)
    }
}

#[derive(Drop)]
struct Reader<'a> {
    bytes: &'a [u8],
    habit: Habit,
    calls: u32,
}

impl Read for Reader<'_> {
    fn read(&mut self, buf: &mut [u8]) -> io::Result<usize> {
        let call = self.calls;
        self.calls = call.saturating_add(1);
        let count = self.habit.at(call)?.min(buf.len());
        self.bytes.read(&mut buf[..count])
    }
}

#[derive(Drop)]
struct Writer {
    bytes: Vec<u8>,
    habit: Habit,
    calls: u32,
    flushes: u32,
}

impl Write for Writer {
    fn write(&mut self, buf: &[u8]) -> io::Result<usize> {
        let call = self.calls;
        self.calls = call.saturating_add(1);
        let count = self.habit.at(call)?.min(buf.len());
        self.bytes.extend_from_slice(&buf[..count])?;
        Ok(count)
    }

    fn flush(&mut self) -> io::Result<()> {
        self.flushes = self.flushes.saturating_add(1);
        Ok(())
    }
}

// How a run ended, what it wrote, and how often it read, wrote and flushed.
#[derive(Drop)]
struct Run {
    ended: Ended,
    written: Vec<u8>,
    reads: u32,
    writes: u32,
    flushes: u32,
}

fn run_of(alloc: Global, script: &str, reads: Habit, writes: Habit) -> Run {
    let mut reader = Reader {
        bytes: script.as_bytes(),
        habit: reads,
        calls: 0,
    };
    let mut writer = Writer {
        bytes: Vec::new(alloc),
        habit: writes,
        calls: 0,
        flushes: 0,
    };
    let ended = run_text(alloc, &mut reader, &mut writer);
    Run {
        ended,
        written: writer.bytes,
        reads: reader.calls,
        writes: writer.calls,
        flushes: writer.flushes,
    }
}

// Returns whether the script of most runs is run to its end, in so many reads and writes and one flush.
fn is_done_in(alloc: Global, reads: Habit, writes: Habit, calls: (u32, u32)) -> bool {
    let run = run_of(alloc, SCRIPT, reads, writes);
    run.ended == Ended::Done
        && run.written.as_slice() == REPLIES
        && (run.reads, run.writes) == calls
        && run.flushes == 1
}

// The last read tells that there is no more.
#[test]
fn each_byte_is_read_and_written_once(rt: HostRuntime) {
    let alloc = rt.alloc();
    assert!(rt; is_done_in(alloc, WHOLE, WHOLE, (2, 1)));
    assert!(rt; is_done_in(alloc, BYTES, WHOLE, (16, 1)));
    assert!(rt; is_done_in(alloc, WHOLE, BYTES, (2, 8)));
}

#[test]
fn an_interrupted_call_is_made_again(rt: HostRuntime) {
    let alloc = rt.alloc();
    assert!(rt; is_done_in(alloc, HALTED, WHOLE, (32, 1)));
    assert!(rt; is_done_in(alloc, WHOLE, HALTED, (2, 16)));
    assert!(rt; is_done_in(alloc, HALTED, HALTED, (32, 16)));
}

// Returns whether a run of such reads ends at the one that fails, and writes nothing.
fn ends_at_read(alloc: Global, reads: Habit) -> bool {
    let run = run_of(alloc, SCRIPT, reads, WHOLE);
    run.ended == Ended::InputFailed
        && run.written.is_empty()
        && (run.reads, run.writes, run.flushes) == (reads.fails_at.saturating_add(1), 0, 0)
}

#[test]
fn a_failed_read_is_the_last(rt: HostRuntime) {
    for kind in [
        ErrorKind::Other,
        ErrorKind::OutOfMemory,
        ErrorKind::TimedOut,
    ] {
        for call in 0..16u32 {
            assert!(rt;
                ends_at_read(rt.alloc(), BYTES.failing(call, Some(kind))),
                "{call}"
            );
        }
        for call in 0..32u32 {
            assert!(rt;
                ends_at_read(rt.alloc(), HALTED.failing(call, Some(kind))),
                "{call}"
            );
        }
    }
}

// Returns whether a run of such writes ends at the one that fails, has written so many bytes before, and flushes nothing.
fn ends_at_write(alloc: Global, writes: Habit, written: u32) -> bool {
    let run = run_of(alloc, SCRIPT, WHOLE, writes);
    run.ended == Ended::OutputFailed
        && run.written.len() == written as usize
        && REPLIES.starts_with(&run.written)
        && (run.reads, run.writes, run.flushes) == (2, writes.fails_at.saturating_add(1), 0)
}

// A write that takes nothing is one that fails.
#[test]
fn a_failed_write_is_the_last(rt: HostRuntime) {
    for kind in [None, Some(ErrorKind::Other), Some(ErrorKind::BrokenPipe)] {
        for call in 0..8u32 {
            assert!(rt;
                ends_at_write(rt.alloc(), BYTES.failing(call, kind), call),
                "{call}"
            );
        }
        for call in 0..16u32 {
            let written = call / 2;
            assert!(rt;
                ends_at_write(rt.alloc(), HALTED.failing(call, kind), written),
                "{call}"
            );
        }
    }
}

// So many times the same line.
fn lines(alloc: Global, line: &str, count: u32) -> Result<String, AllocError> {
    let mut text = String::new(alloc);
    for _ in 0..count {
        text.push_str(line)?;
    }
    Ok(text)
}

// 160,000 bytes, of which a read takes 8,192, and 120,000 bytes of replies in two pieces, each flushed.
#[test]
fn a_long_script_takes_few_calls(rt: HostRuntime) -> Result<(), Fail> {
    let script = lines(rt.alloc(), "has a 5\n", 20_000)?;
    let run = run_of(rt.alloc(), script.as_str(), WHOLE, WHOLE);
    assert!(rt; run.ended == Ended::Done && run.written.len() == 120_000);
    assert!(rt; (run.reads, run.writes, run.flushes) == (21, 2, 2));
    Ok(())
}
