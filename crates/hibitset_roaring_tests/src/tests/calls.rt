//! How often a reader and a writer are called that give or take one byte at a time, are interrupted, or fail at one call
//! and would go on after it.
use super::*;
use std::io::{self, ErrorKind, Read, Write};

// No call fails.
const NEVER: u32 = u32::MAX;

// What calls do: each gives or takes so many bytes at most, each other one is interrupted, from the first on, if `halts`
// says so, and the one with the number `fails_at`, from 0 on, fails. Where there is no kind of error, it gives or takes
// nothing. Those after it go on.
#[derive(Clone, Copy)]
struct Habit {
    most: usize,
    halts: bool,
    fails_at: u32,
    kind: Option<ErrorKind>,
}

// Calls that give or take all that they can.
const WHOLE: Habit = Habit {
    most: usize::MAX,
    halts: false,
    fails_at: NEVER,
    kind: None,
};

// One byte at a time.
const BYTES: Habit = Habit { most: 1, ..WHOLE };

// One byte at a time, with an interruption before each.
const HALTED: Habit = Habit {
    halts: true,
    ..BYTES
};

impl Habit {
    // The same, but that one call fails.
    fn failing(self, fails_at: u32, kind: Option<ErrorKind>) -> Habit {
        Habit {
            fails_at,
            kind,
            ..self
        }
    }

    // How many bytes the call with this number may give or take.
    fn at(self, call: u32) -> io::Result<usize> {
        if call == self.fails_at {
            return match self.kind {
                Some(kind) => Err(io::Error::new(kind, "broken")),
                None => Ok(0),
            };
        }
        if self.halts && call % 2 == 0 {
            return Err(io::Error::new(ErrorKind::Interrupted, "halted"));
        }
        Ok(self.most)
    }
}

#[derive(Drop)]
struct Reader<'a> {
    bytes: &'a [u8],
    habit: Habit,
    calls: u32,
}

impl Read for Reader<'_> {
    fn read(&mut self, buf: &mut [u8]) -> io::Result<usize> {
        let call = self.calls;
        self.calls = call.saturating_add(1);
        let count = self.habit.at(call)?.min(buf.len());
        self.bytes.read(&mut buf[..count])
    }
}

#[derive(Drop)]
struct Writer {
    bytes: Vec<u8>,
    habit: Habit,
    calls: u32,
    flushes: u32,
}

impl Write for Writer {
    fn write(&mut self, buf: &[u8]) -> io::Result<usize> {
        let call = self.calls;
        self.calls = call.saturating_add(1);
        let count = self.habit.at(call)?.min(buf.len());
        self.bytes.extend_from_slice(&buf[..count])?;
        Ok(count)
    }

    fn flush(&mut self) -> io::Result<()> {
        self.flushes = self.flushes.saturating_add(1);
        Ok(())
    }
}

// A set whose stream has 18 bytes.
fn one_member(alloc: Global) -> Result<BitSet, AllocError> {
    set_of(alloc, &[(5, 5)])
}

// A set is read in so many calls of such a reader, of which the last tells that there is no more.
fn is_read_in(alloc: Global, set: &BitSet, habit: Habit, calls: u32) -> Result<bool, AllocError> {
    let stream = write(alloc, set)?;
    let mut reader = Reader {
        bytes: &stream,
        habit,
        calls: 0,
    };
    match read_from(alloc, &mut reader, KEYS) {
        Ok(found) => Ok(found == *set && reader.calls == calls),
        Err(_) => Ok(false),
    }
}

// The stream of the second set has 8,260 bytes, and a read takes 8,192.
#[test]
fn each_byte_is_read_once(rt: HostRuntime) -> Result<(), Fail> {
    let alloc = rt.alloc();
    let set = one_member(alloc)?;
    assert!(rt; is_read_in(alloc, &set, WHOLE, 2)?);
    assert!(rt; is_read_in(alloc, &set, BYTES, 19)?);
    assert!(rt; is_read_in(alloc, &set, HALTED, 38)?);
    let longer = set_of(alloc, &[(10, 31), (65_536, 80_000)])?;
    assert!(rt; is_read_in(alloc, &longer, WHOLE, 3)?);
    Ok(())
}

// Returns whether reading ends at the call that fails, with its error; or, where it gives nothing, as too short.
fn ends_at_read(alloc: Global, habit: Habit) -> Result<bool, AllocError> {
    let stream = write(alloc, &one_member(alloc)?)?;
    let mut reader = Reader {
        bytes: &stream,
        habit,
        calls: 0,
    };
    let is_told = match read_from(alloc, &mut reader, KEYS) {
        Err(ReadFromError::Io(error)) => Some(error.kind()) == habit.kind,
        Err(ReadFromError::Malformed(why)) => {
            habit.kind.is_none() && why.fault == Fault::TooShort
        }
        _ => false,
    };
    Ok(is_told && reader.calls == habit.fails_at.saturating_add(1))
}

#[test]
fn a_failed_read_is_the_last(rt: HostRuntime) -> Result<(), Fail> {
    for kind in [None, Some(ErrorKind::Other), Some(ErrorKind::TimedOut)] {
        for call in 0..18u32 {
            assert!(rt;
                ends_at_read(rt.alloc(), BYTES.failing(call, kind))?,
                "{call}"
            );
        }
        for call in 0..36u32 {
            assert!(rt;
                ends_at_read(rt.alloc(), HALTED.failing(call, kind))?,
                "{call}"
            );
        }
    }
    Ok(())
}

// No stream of one key has more than 131,091 bytes, so no more is read than 17 times 8,192.
#[test]
fn a_reader_without_an_end_is_left(rt: HostRuntime) -> Result<(), Fail> {
    let bytes = vec![in rt.alloc(); 58u8; 1_000_000]?;
    let mut reader = Reader {
        bytes: &bytes,
        habit: WHOLE,
        calls: 0,
    };
    let found = read_from(rt.alloc(), &mut reader, 1);
    assert!(rt; matches!(found, Err(ReadFromError::TooLong)));
    assert!(rt; reader.calls == 17 && reader.bytes.len() == 1_000_000 - 17 * 8_192);
    Ok(())
}

// What came of writing a set, how many bytes of its stream were written, and in how many calls. It is never flushed.
fn written_by(
    alloc: Global,
    habit: Habit,
) -> Result<(Result<(), ErrorKind>, Option<usize>, u32), AllocError> {
    let set = one_member(alloc)?;
    let mut writer = Writer {
        bytes: Vec::new(alloc),
        habit,
        calls: 0,
        flushes: 0,
    };
    let result = match write_into(alloc, &set, &mut writer) {
        Ok(()) => Ok(()),
        Err(error) => Err(error.kind()),
    };
    let is_front = write(alloc, &set)?.starts_with(&writer.bytes) && writer.flushes == 0;
    let written = if is_front {
        Some(writer.bytes.len())
    } else {
        None
    };
    Ok((result, written, writer.calls))
}

#[test]
fn each_byte_is_written_once(rt: HostRuntime) -> Result<(), Fail> {
    for (habit, calls) in [(WHOLE, 1), (BYTES, 18), (HALTED, 36)] {
        assert!(rt; written_by(rt.alloc(), habit)? == (Ok(()), Some(18), calls));
    }
    Ok(())
}

// A write that takes nothing is one that fails.
#[test]
fn a_failed_write_is_the_last(rt: HostRuntime) -> Result<(), Fail> {
    for kind in [None, Some(ErrorKind::Other), Some(ErrorKind::BrokenPipe)] {
        let error = Err(kind.unwrap_or(ErrorKind::WriteZero));
        for call in 0..18u32 {
            let found = written_by(rt.alloc(), BYTES.failing(call, kind))?;
            assert!(rt; found == (error, Some(call as usize), call + 1), "{call}");
        }
        for call in 0..36u32 {
            let found = written_by(rt.alloc(), HALTED.failing(call, kind))?;
            assert!(rt;
                found == (error, Some(call as usize / 2), call + 1),
                "{call}"
            );
        }
    }
    Ok(())
}
