//! Readers and writers that give or take little, or fail.
use crate::script::{Ended, run_text};
use std::alloc::{AllocError, AllocGlobal, Global};
use std::io::{self, ErrorKind, Read, Write};
use std::process::Abort;
use std::test::Fail;

// Gives its bytes, at most so many a read, and fails from one read on.
#[derive(Drop)]
struct Breaking<'a> {
    bytes: &'a [u8],
    most: usize,
    reads_left: u32,
    kind: ErrorKind,
}

impl Read for Breaking<'_> {
    fn read(&mut self, buf: &mut [u8]) -> io::Result<usize> {
        if self.reads_left == 0 {
            return Err(io::Error::new(self.kind, "broken"));
        }
        self.reads_left -= 1;
        let count = buf.len().min(self.most);
        self.bytes.read(&mut buf[..count])
    }
}

// Gives its bytes, with an interruption before each read.
#[derive(Drop)]
struct Halting<'a> {
    bytes: &'a [u8],
    halted: bool,
}

impl Read for Halting<'_> {
    fn read(&mut self, buf: &mut [u8]) -> io::Result<usize> {
        self.halted = !self.halted;
        if self.halted {
            return Err(io::Error::new(ErrorKind::Interrupted, "halted"));
        }
        self.bytes.read(buf)
    }
}

// Fails each write, or each flush.
#[derive(Drop)]
struct Full {
    kind: ErrorKind,
    writes: usize,
    takes_text: bool,
}

impl Write for Full {
    fn write(&mut self, buf: &[u8]) -> io::Result<usize> {
        self.writes = self.writes.saturating_add(1);
        if self.takes_text {
            return Ok(buf.len());
        }
        Err(io::Error::new(self.kind, "full"))
    }

    fn flush(&mut self) -> io::Result<()> {
        Err(io::Error::new(self.kind, "full"))
    }
}

// Gives its bytes one at a time, with one end in the middle, and would go on after it.
#[derive(Drop)]
struct EndingOnce<'a> {
    bytes: &'a [u8],
    rest: &'a [u8],
    ended: bool,
}

impl Read for EndingOnce<'_> {
    fn read(&mut self, buf: &mut [u8]) -> io::Result<usize> {
        if self.bytes.is_empty() && !self.ended {
            self.ended = true;
            return Ok(0);
        }
        let count = buf.len().min(1);
        if self.ended {
            self.rest.read(&mut buf[..count])
        } else {
            self.bytes.read(&mut buf[..count])
        }
    }
}

// Takes at most so many bytes a write, keeps them, and fails from one write on.
#[derive(Drop)]
struct Taking {
    bytes: Vec<u8>,
    most: usize,
    writes_left: u32,
    kind: ErrorKind,
}

impl Taking {
    fn new(alloc: Global, most: usize, writes_left: u32, kind: ErrorKind) -> Taking {
        Taking {
            bytes: Vec::new(alloc),
            most,
            writes_left,
            kind,
        }
    }
}

impl Write for Taking {
    fn write(&mut self, buf: &[u8]) -> io::Result<usize> {
        if self.writes_left == 0 {
            return Err(io::Error::new(self.kind, "no more"));
        }
        self.writes_left -= 1;
        let count = buf.len().min(self.most);
        if self.bytes.extend_from_slice(&buf[..count]).is_err() {
            return Err(io::Error::new(ErrorKind::OutOfMemory, "no room"));
        }
        Ok(count)
    }

    fn flush(&mut self) -> io::Result<()> {
        Ok(())
    }
}

// So many times the same line.
fn lines(alloc: Global, line: &str, count: u32) -> Result<String, AllocError> {
    let mut text = String::new(alloc);
    for _ in 0..count {
        text.push_str(line)?;
    }
    Ok(text)
}

// Sees that a run ends where a read of such a reader fails, and that nothing is written.
fn assert_input_fails(rt: &(impl Abort + AllocGlobal), reader: Breaking<'_>) {
    let mut reader = reader;
    let mut output = Vec::new(rt.alloc());
    let ended = run_text(rt.alloc(), &mut reader, &mut output);
    assert_eq!(rt; ended, Ended::InputFailed);
    assert_eq!(rt; output.len(), 0);
}

#[test]
fn ends_where_a_read_fails(rt: HostRuntime) {
    for kind in [ErrorKind::Other, ErrorKind::OutOfMemory] {
        let reader = Breaking {
            bytes: b"add a 5\n",
            most: 3,
            reads_left: 3,
            kind,
        };
        assert_input_fails(&rt, reader);
    }
}

// The first read gives a part of the line, or all of it.
#[test]
fn ends_where_the_second_read_fails(rt: HostRuntime) {
    for most in [3, 8] {
        let mut reader = Breaking {
            bytes: b"add a 5\n",
            most,
            reads_left: 1,
            kind: ErrorKind::Other,
        };
        let mut output = Vec::new(rt.alloc());
        let ended = run_text(rt.alloc(), &mut reader, &mut output);
        assert!(rt; ended.status() == 4 && output.is_empty());
    }
}

#[test]
fn ends_where_the_first_write_fails(rt: HostRuntime) {
    let mut writer = Taking::new(rt.alloc(), usize::MAX, 0, ErrorKind::Other);
    let ended = run_text(rt.alloc(), &mut b"add a 5\n".as_slice(), &mut writer);
    assert!(rt; ended.status() == 5 && writer.bytes.is_empty());
}

#[test]
fn reads_on_after_an_interruption(rt: HostRuntime) {
    let mut reader = Halting {
        bytes: b"add a 5\n",
        halted: false,
    };
    let mut output = Vec::new(rt.alloc());
    assert_eq!(rt; run_text(rt.alloc(), &mut reader, &mut output), Ended::Done);
    assert_eq!(rt; output.as_slice(), b"false\n".as_slice());
}

#[test]
fn ends_where_a_write_fails(rt: HostRuntime) -> Result<(), Fail> {
    let long = lines(rt.alloc(), "has a 5\n", 20_000)?;
    for (kind, takes_text) in [
        (ErrorKind::Other, false),
        (ErrorKind::OutOfMemory, false),
        (ErrorKind::Other, true),
    ] {
        for script in ["add a 5\n", long.as_str()] {
            let mut writer = Full {
                kind,
                writes: 0,
                takes_text,
            };
            let ended = run_text(rt.alloc(), &mut script.as_bytes(), &mut writer);
            assert_eq!(rt; ended, Ended::OutputFailed);
            assert_eq!(rt; writer.writes, 1);
        }
    }
    Ok(())
}

#[test]
fn writes_nothing_where_nothing_is_asked(rt: HostRuntime) {
    let mut writer = Full {
        kind: ErrorKind::Other,
        writes: 0,
        takes_text: false,
    };
    let ended = run_text(rt.alloc(), &mut b"".as_slice(), &mut writer);
    assert_eq!(rt; ended, Ended::Done);
    assert_eq!(rt; writer.writes, 0);
}

#[test]
fn ends_where_a_read_would_wait_or_ends_early(rt: HostRuntime) {
    for kind in [
        ErrorKind::WouldBlock,
        ErrorKind::UnexpectedEof,
        ErrorKind::TimedOut,
    ] {
        let reader = Breaking {
            bytes: b"add a 5\nlist a\n",
            most: 3,
            reads_left: 5,
            kind,
        };
        assert_input_fails(&rt, reader);
    }
}

#[test]
fn reads_to_the_first_end(rt: HostRuntime) {
    let mut reader = EndingOnce {
        bytes: b"add a 5\nlist a",
        rest: b"\nadd a 6\n",
        ended: false,
    };
    let mut output = Vec::new(rt.alloc());
    assert_eq!(rt; run_text(rt.alloc(), &mut reader, &mut output), Ended::Done);
    assert_eq!(rt; output.as_slice(), b"false\n5\n".as_slice());
}

#[test]
fn reads_byte_by_byte(rt: HostRuntime) -> Result<(), Fail> {
    let script = lines(rt.alloc(), "add h 16777215\n", 7000)?;
    let mut reader = EndingOnce {
        bytes: script.as_bytes(),
        rest: b"",
        ended: false,
    };
    let mut output = Vec::new(rt.alloc());
    assert_eq!(rt; run_text(rt.alloc(), &mut reader, &mut output), Ended::Done);
    let mut wanted = String::new(rt.alloc());
    wanted.push_str("false\n")?;
    wanted.push_str(lines(rt.alloc(), "true\n", 6999)?.as_str())?;
    assert!(rt; output.as_slice() == wanted.as_bytes());
    Ok(())
}

// Runs a script from readers that can't fail, and sees that no read is said to have failed.
fn assert_no_read_fails(rt: &(impl Abort + AllocGlobal), script: &str, writes_left: u32) {
    let mut writer = Taking::new(rt.alloc(), usize::MAX, writes_left, ErrorKind::Other);
    let ended = run_text(rt.alloc(), &mut script.as_bytes(), &mut writer);
    assert!(rt; ended != Ended::InputFailed);
    let mut reader = EndingOnce {
        bytes: script.as_bytes(),
        rest: b"",
        ended: false,
    };
    let ended = run_text(rt.alloc(), &mut reader, &mut writer);
    assert!(rt; ended != Ended::InputFailed);
}

// All is done, a line is bad, or each write fails.
#[test]
fn no_read_fails_where_none_can(rt: HostRuntime) -> Result<(), Fail> {
    let long = lines(rt.alloc(), "add h 16777215\n", 7000)?;
    for script in [
        "",
        "add a 5\nlist a",
        "add a 5\nlist\n",
        "store",
        long.as_str(),
    ] {
        assert_no_read_fails(&rt, script, 1000);
        assert_no_read_fails(&rt, script, 0);
    }
    Ok(())
}

#[test]
fn writes_three_bytes_at_a_time(rt: HostRuntime) {
    let script = b"add a 5\nadd a 16777215\nlist a\nsplit a 3\n";
    let mut writer = Taking::new(rt.alloc(), 3, 1000, ErrorKind::Other);
    let ended = run_text(rt.alloc(), &mut script.as_slice(), &mut writer);
    assert_eq!(rt; ended, Ended::Done);
    assert_eq!(rt;
        writer.bytes.as_slice(),
        b"false\nfalse\n5 16777215\n2\n".as_slice()
    );
}

// What was written before the fault stays, and the other end of a pipe that is shut is such a fault.
#[test]
fn ends_where_the_second_write_fails(rt: HostRuntime) -> Result<(), Fail> {
    let script = lines(rt.alloc(), "has a 5\n", 20_000)?;
    for kind in [ErrorKind::Other, ErrorKind::BrokenPipe] {
        let mut writer = Taking::new(rt.alloc(), usize::MAX, 1, kind);
        let ended = run_text(rt.alloc(), &mut script.as_bytes(), &mut writer);
        assert_eq!(rt; ended, Ended::OutputFailed);
        assert_eq!(rt; writer.writes_left, 0);
        let written = writer.bytes.len();
        assert!(rt; written >= 65_536 && written < 120_000 && written % 6 == 0);
    }
    Ok(())
}

#[test]
fn ends_where_a_write_takes_nothing(rt: HostRuntime) {
    let mut writer = Taking::new(rt.alloc(), 0, 1000, ErrorKind::Other);
    let ended = run_text(rt.alloc(), &mut b"has a 5\n".as_slice(), &mut writer);
    assert_eq!(rt; ended, Ended::OutputFailed);
    assert_eq!(rt; writer.bytes.len(), 0);
}

// A list of 72,000 bytes as the last line.
#[test]
fn writes_a_long_last_list(rt: HostRuntime) -> Result<(), Fail> {
    let mut script = String::new(rt.alloc());
    let mut wanted = lines(rt.alloc(), "false\n", 8000)?;
    let mut space = "";
    for id in 10_000_000..10_008_000u32 {
        writeln!(script, "add a {id}")?;
        write!(wanted, "{space}{id}")?;
        space = " ";
    }
    script.push_str("list a")?;
    wanted.push_str("\n")?;
    let mut output = Vec::new(rt.alloc());
    let ended = run_text(rt.alloc(), &mut script.as_bytes(), &mut output);
    assert_eq!(rt; ended, Ended::Done);
    assert!(rt; output.as_slice() == wanted.as_bytes());
    Ok(())
}
