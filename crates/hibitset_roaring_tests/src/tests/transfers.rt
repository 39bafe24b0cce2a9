//! Streams from readers and to writers that give or take little, or fail.
use super::*;
use std::io::{self, Cursor, ErrorKind, Read, Write};
use std::process::Abort;

// Gives its bytes, at most 3 a read, with an interruption before each, and fails from one read on.
#[derive(Drop)]
struct Breaking<'a> {
    bytes: &'a [u8],
    reads_left: u32,
    halted: bool,
}

impl Read for Breaking<'_> {
    fn read(&mut self, buf: &mut [u8]) -> io::Result<usize> {
        self.halted = !self.halted;
        if self.halted {
            return Err(io::Error::new(ErrorKind::Interrupted, "halted"));
        }
        if self.reads_left == 0 {
            return Err(io::Error::new(ErrorKind::TimedOut, "broken"));
        }
        self.reads_left -= 1;
        let count = buf.len().min(3);
        self.bytes.read(&mut buf[..count])
    }
}

// Takes at most 3 bytes a write, with an interruption before each, and keeps them. From one write on it takes none, or
// times out. It notes whether it was flushed.
#[derive(Drop)]
struct Taking {
    bytes: Vec<u8>,
    writes_left: u32,
    halted: bool,
    times_out: bool,
    flushed: bool,
}

impl Write for Taking {
    fn write(&mut self, buf: &[u8]) -> io::Result<usize> {
        self.halted = !self.halted;
        if self.halted {
            return Err(io::Error::new(ErrorKind::Interrupted, "halted"));
        }
        if self.writes_left == 0 {
            if self.times_out {
                return Err(io::Error::new(ErrorKind::TimedOut, "broken"));
            }
            return Ok(0);
        }
        self.writes_left -= 1;
        let count = buf.len().min(3);
        self.bytes.extend_from_slice(&buf[..count])?;
        Ok(count)
    }

    fn flush(&mut self) -> io::Result<()> {
        self.flushed = true;
        Ok(())
    }
}

// A set of an array and of bits, whose stream has 8,260 bytes.
fn array_and_bits(alloc: Global) -> Result<BitSet, AllocError> {
    set_of(alloc, &[(10, 31), (65_536, 80_000)])
}

#[test]
fn a_set_goes_into_a_writer_and_from_a_reader(rt: HostRuntime) -> Result<(), Fail> {
    let alloc = rt.alloc();
    let set = array_and_bits(alloc)?;
    let mut out = Vec::from_slice(alloc, &[7, 8])?;
    write_into(alloc, &set, &mut out)?;
    assert!(rt; out[..2] == [7, 8] && &out[2..] == write(alloc, &set)?.as_slice());
    let mut slice = &out[2..];
    assert!(rt; read_from(alloc, &mut slice, 2)? == set);
    assert!(rt; slice.is_empty());
    let mut cursor = Cursor::new(&out[2..]);
    assert!(rt; read_from(alloc, &mut cursor, KEYS)? == set);
    assert!(rt; cursor.position() == 8_260);
    Ok(())
}

#[test]
fn a_reader_gives_little_and_breaks(rt: HostRuntime) -> Result<(), Fail> {
    let alloc = rt.alloc();
    let set = array_and_bits(alloc)?;
    let stream = write(alloc, &set)?;
    for (reads, rest) in [(3_000, 0), (2_754, 0), (2_753, 1), (5, 8_245), (0, 8_260)] {
        let mut reader = Breaking {
            bytes: &stream,
            reads_left: reads,
            halted: false,
        };
        match read_from(alloc, &mut reader, KEYS) {
            Ok(found) => assert!(rt; found == set && reads == 3_000),
            Err(ReadFromError::Io(error)) => {
                assert!(rt; error.kind() == ErrorKind::TimedOut && reads < 3_000);
            }
            Err(_) => assert!(rt; false),
        }
        assert!(rt; reader.bytes.len() == rest);
    }
    Ok(())
}

// Gives its bytes, at most `most` a read, and can't fail.
#[derive(Drop)]
struct Giving<'a> {
    bytes: &'a [u8],
    most: usize,
}

impl Read for Giving<'_> {
    fn read(&mut self, buf: &mut [u8]) -> io::Result<usize> {
        let count = buf.len().min(self.most);
        self.bytes.read(&mut buf[..count])
    }
}

// Reads bytes from such a reader, and returns whether the reader is said to have failed.
fn reader_fails(alloc: Global, bytes: &[u8], most: usize, end: usize) -> bool {
    let mut reader = Giving { bytes, most };
    let found = read_from(alloc, &mut reader, end.min(KEYS));
    matches!(found, Err(ReadFromError::Io(_)))
}

// A stream, bytes that are none, and more of them than any stream has.
#[test]
fn a_reader_that_cannot_fail_is_never_said_to(rt: HostRuntime) -> Result<(), Fail> {
    let alloc = rt.alloc();
    let stream = write(alloc, &array_and_bits(alloc)?)?;
    let Some(cut) = stream.as_slice().get(..8_192) else {
        panic!(rt; "a short stream");
    };
    for most in [1, 8_191, 8_192, usize::MAX] {
        assert!(rt; !reader_fails(alloc, &stream, most, KEYS));
        assert!(rt; !reader_fails(alloc, &stream, most, 0));
        assert!(rt; !reader_fails(alloc, cut, most, KEYS));
    }
    Ok(())
}

// Writes a set into a writer that takes bytes in so many writes and then none, or times out. Returns how many it took.
fn taken_in(rt: &impl Abort, alloc: Global, writes: u32, times_out: bool) -> Result<usize, Fail> {
    let set = array_and_bits(alloc)?;
    let mut writer = Taking {
        bytes: Vec::new(alloc),
        writes_left: writes,
        halted: false,
        times_out,
        flushed: false,
    };
    let last = if times_out {
        ErrorKind::TimedOut
    } else {
        ErrorKind::WriteZero
    };
    match write_into(alloc, &set, &mut writer) {
        Ok(()) => assert!(rt; writes >= 2_754),
        Err(error) => assert!(rt; error.kind() == last && writes < 2_754),
    }
    assert!(rt; !writer.flushed && write(alloc, &set)?.starts_with(&writer.bytes));
    Ok(writer.bytes.len())
}

#[test]
fn a_writer_takes_little_and_then_none(rt: HostRuntime) -> Result<(), Fail> {
    for times_out in [false, true] {
        for (writes, written) in [
            (3_000, 8_260),
            (2_754, 8_260),
            (2_753, 8_259),
            (5, 15),
            (0, 0),
        ] {
            assert!(rt; taken_in(&rt, rt.alloc(), writes, times_out)? == written);
        }
    }
    Ok(())
}

// A reader without an end, and bytes that end too soon.
#[test]
fn a_reader_gives_no_stream(rt: HostRuntime) -> Result<(), Fail> {
    let alloc = rt.alloc();
    let endless = read_from(alloc, &mut io::repeat(58), 1);
    assert!(rt; matches!(endless, Err(ReadFromError::TooLong)));
    let mut short = [58, 48, 0, 0, 1].as_slice();
    let Err(error) = read_from(alloc, &mut short, 1) else {
        return Err(AllocError.into());
    };
    let text = format!(in alloc; "{error}; {}", ReadFromError::TooLong)?;
    assert!(rt;
        text.as_str() == "the bytes end too soon at byte 0; the reader gives too many bytes"
    );
    Ok(())
}
