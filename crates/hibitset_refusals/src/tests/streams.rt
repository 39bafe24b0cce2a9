//! Sets read from streams and written to them. Most tests are one call of a function that several share.
use crate::tests::{ask, assert_has, say};
use hibitset::{BitSet, Index};
use hibitset_roaring::laws::{round_trip, round_trip_optimized, round_trip_sparse};
use hibitset_roaring::{
    ReadFromError, read, read_below, read_from, read_sparse, read_sparse_below, read_sparse_from,
    write, write_into, write_like, write_run_optimized, write_run_optimized_to, write_to,
    write_words,
};
use hibitset_sparse::SparseBitSet;
use hibitset_testing::sets::set_of;
use std::alloc::{AllocError, AllocGlobal, Global};
use std::io::{self, ErrorKind, Print, Read};
use std::process::Abort;

// The stream of {5, 70000}.
const STREAM: [u8; 28] = [
    58, 48, 0, 0, 2, 0, 0, 0, 0, 0, 0, 0, 1, 0, 0, 0, 24, 0, 0, 0, 26, 0, 0, 0, 5, 0, 112, 17,
];

// Returns whether no set was read because an allocation failed.
fn lacks_memory<T>(made: &Result<T, ReadFromError>) -> bool {
    matches!(made, Err(ReadFromError::Memory))
}

// What is read of the stream by a reader; it is read, or an allocation failed.
fn from_reader(rt: &impl Abort, alloc: Global, reader: &mut impl Read) -> Option<BitSet> {
    let made = read_from(alloc, reader, 2);
    assert!(rt; made.is_ok() || lacks_memory(&made));
    made.ok()
}

// How a set is read of the stream, or copied by a stream.
#[derive(Clone, Copy)]
enum Reading {
    Read,
    Below,
    From,
    RoundTrip,
    Optimized,
}

// The set that is read, if no allocation failed.
fn read_by(rt: &impl Abort, alloc: Global, set: &BitSet, reading: Reading) -> Option<BitSet> {
    match reading {
        Reading::Read => read(alloc, &STREAM).ok(),
        Reading::Below => read_below(alloc, &STREAM, 2).ok(),
        Reading::From => from_reader(rt, alloc, &mut STREAM.as_slice()),
        Reading::RoundTrip => round_trip(alloc, set).ok(),
        Reading::Optimized => round_trip_optimized(alloc, set).ok(),
    }
}

// Sees that {5, 70000} is read, or read again: of the stream, or of what is written of a set of these members.
fn assert_reads(
    rt: &(impl Abort + Print + AllocGlobal),
    reading: Reading,
    from: &[Index],
) -> Result<(), AllocError> {
    let set = set_of(rt.alloc(), from)?;
    let first = tried!(
        rt,
        read_by(rt, rt.alloc(), &set, reading),
        |it| it.is_none()
    );
    let copy = match first {
        Some(copy) => copy,
        None => read_by(rt, rt.alloc(), &set, reading).ok_or(AllocError)?,
    };
    assert_has(rt, &copy, &[5, 70_000]);
    Ok(())
}

// The set's words.
// allocates: 1, 16_656 bytes: hibitset_roaring::read
#[test]
fn read_a_stream(rt: HostRuntime) -> Result<(), AllocError> {
    assert_reads(&rt, Reading::Read, &[])
}

// allocates: 1, 16_656 bytes: hibitset_roaring::read_below
#[test]
fn read_with_a_bound(rt: HostRuntime) -> Result<(), AllocError> {
    assert_reads(&rt, Reading::Below, &[])
}

// The bytes, the words, and the set of them.
// allocates: 2, 16_684 bytes: hibitset_roaring::read_from
#[test]
fn read_from_a_reader(rt: HostRuntime) -> Result<(), AllocError> {
    assert_reads(&rt, Reading::From, &[])
}

// allocates: 4, 16_748 bytes: hibitset_roaring::round_trip
#[test]
fn round_trip_of_a_set(rt: HostRuntime) -> Result<(), AllocError> {
    assert_reads(&rt, Reading::RoundTrip, &[5, 70_000])
}

// allocates: 5, 16_780 bytes: hibitset_roaring::round_trip_optimized
#[test]
fn round_trip_with_runs(rt: HostRuntime) -> Result<(), AllocError> {
    assert_reads(&rt, Reading::Optimized, &[5, 70_000])
}

// The stream of {1073741823}, which a `BitSet` takes 136 MB for.
const LAST: [u8; 18] = [
    58, 48, 0, 0, 1, 0, 0, 0, 255, 63, 0, 0, 16, 0, 0, 0, 255, 255,
];

// How a sparse set is read of the stream, or of that of the last index, or copied by a stream.
#[derive(Clone, Copy, PartialEq)]
enum SparseReading {
    Last,
    Below,
    From,
    RoundTrip,
}

fn sparse_from_reader(rt: &impl Abort, alloc: Global) -> Option<SparseBitSet> {
    let made = read_sparse_from(alloc, &mut STREAM.as_slice(), 2);
    assert!(rt; made.is_ok() || lacks_memory(&made));
    made.ok()
}

// The sparse set that is read, if no allocation failed.
fn sparse_by(
    rt: &impl Abort,
    alloc: Global,
    set: &SparseBitSet,
    reading: SparseReading,
) -> Option<SparseBitSet> {
    match reading {
        SparseReading::Last => read_sparse(alloc, &LAST).ok(),
        SparseReading::Below => read_sparse_below(alloc, &STREAM, 2).ok(),
        SparseReading::From => sparse_from_reader(rt, alloc),
        SparseReading::RoundTrip => round_trip_sparse(alloc, set).ok(),
    }
}

// The set of two indices that is written, if it is.
fn sparse_of_two(alloc: Global, reading: SparseReading) -> Result<SparseBitSet, AllocError> {
    let mut set = SparseBitSet::new(alloc);
    if reading == SparseReading::RoundTrip {
        set.add(5)?;
        set.add(70_000)?;
    }
    Ok(set)
}

// Sees that a sparse set of these members is read, or read again.
fn assert_reads_sparse(
    rt: &(impl Abort + Print + AllocGlobal),
    reading: SparseReading,
    members: &[Index],
) -> Result<(), AllocError> {
    let set = sparse_of_two(rt.alloc(), reading)?;
    let first = tried!(
        rt,
        sparse_by(rt, rt.alloc(), &set, reading),
        |it| it.is_none()
    );
    let copy = match first {
        Some(copy) => copy,
        None => sparse_by(rt, rt.alloc(), &set, reading).ok_or(AllocError)?,
    };
    assert_has(rt, &copy, members);
    Ok(())
}

// The words of a container, the groups and the words of a chunk, and those of the table of chunks.
// allocates: 5, 8_576 bytes: hibitset_roaring::read_sparse
#[test]
fn read_the_last_index(rt: HostRuntime) -> Result<(), AllocError> {
    assert_reads_sparse(&rt, SparseReading::Last, &[1_073_741_823])
}

// The same, for two containers of one chunk.
// allocates: 5, 8_576 bytes: hibitset_roaring::read_sparse_below
#[test]
fn read_a_sparse_set_with_a_bound(rt: HostRuntime) -> Result<(), AllocError> {
    assert_reads_sparse(&rt, SparseReading::Below, &[5, 70_000])
}

// The bytes, and the same.
// allocates: 6, 8_604 bytes: hibitset_roaring::read_sparse_from
#[test]
fn read_a_sparse_set_from_a_reader(rt: HostRuntime) -> Result<(), AllocError> {
    assert_reads_sparse(&rt, SparseReading::From, &[5, 70_000])
}

// The stream, as any set is written, and what is read of it.
// allocates: 8, 8_668 bytes: hibitset_roaring::round_trip_sparse
#[test]
fn round_trip_of_a_sparse_set(rt: HostRuntime) -> Result<(), AllocError> {
    assert_reads_sparse(&rt, SparseReading::RoundTrip, &[5, 70_000])
}

// Gives its bytes one at a time.
#[derive(Drop)]
struct ByteByByte<'a> {
    bytes: &'a [u8],
}

impl Read for ByteByByte<'_> {
    fn read(&mut self, buf: &mut [u8]) -> io::Result<usize> {
        let count = buf.len().min(1);
        self.bytes.read(&mut buf[..count])
    }
}

// The bytes, whose capacity of 8 and then 16 is doubled by the ninth and the seventeenth, and the rest as above.
// allocates: 4, 16_712 bytes: hibitset_roaring::read_from
#[test]
fn read_from_a_slow_reader(rt: HostRuntime) {
    let mut reader = ByteByByte { bytes: &STREAM };
    let first = tried!(
        &rt,
        from_reader(&rt, rt.alloc(), &mut reader),
        |it| it.is_none()
    );
    assert!(rt; first.is_some() || [27, 19, 11, 0].contains(&reader.bytes.len()));
    let set = first.or_else(|| from_reader(&rt, rt.alloc(), &mut STREAM.as_slice()));
    assert_read(&rt, set);
}

// Sees that {5, 70000} was read.
fn assert_read(rt: &impl Abort, set: Option<BitSet>) {
    let Some(set) = set else {
        panic!(rt; "refused twice")
    };
    assert_has(rt, &set, &[5, 70_000]);
}

// Returns whether bytes are the stream.
fn is_stream(bytes: &[u8]) -> bool {
    bytes == STREAM.as_slice()
}

// How a set is written, or what it has in common with another one.
#[derive(Clone, Copy)]
enum Writing {
    Write,
    Like,
    Optimized,
}

// The stream that is written, if no allocation failed.
fn written(alloc: Global, set: &BitSet, other: &BitSet, writing: Writing) -> Option<Vec<u8>> {
    match writing {
        Writing::Write => write(alloc, set).ok(),
        Writing::Like => write_like(alloc, &(set & other)).ok(),
        Writing::Optimized => write_run_optimized(alloc, set).ok(),
    }
}

// Sees that the stream is written, or written again.
fn assert_writes(
    rt: &(impl Abort + Print + AllocGlobal),
    ids: &[Index],
    others: &[Index],
    writing: Writing,
) -> Result<(), AllocError> {
    let set = set_of(rt.alloc(), ids)?;
    let other = set_of(rt.alloc(), others)?;
    let first = tried!(
        rt,
        written(rt.alloc(), &set, &other, writing),
        |it| it.is_none()
    );
    let stream = match first {
        Some(stream) => stream,
        None => written(rt.alloc(), &set, &other, writing).ok_or(AllocError)?,
    };
    assert!(rt; is_stream(&stream));
    Ok(())
}

// The keys, the numbers of members, and the stream.
// allocates: 3, 92 bytes: hibitset_roaring::write
#[test]
fn write_a_set(rt: HostRuntime) -> Result<(), AllocError> {
    assert_writes(&rt, &[5, 70_000], &[], Writing::Write)
}

// As a `BitSet` is written: no words are kept.
// allocates: 3, 92 bytes: hibitset_roaring::write_like
#[test]
fn write_a_virtual_set(rt: HostRuntime) -> Result<(), AllocError> {
    assert_writes(&rt, &[5, 6, 70_000], &[5, 70_000, 70_001], Writing::Like)
}

// The keys, the numbers of members, those of runs, and the stream: none of its containers is runs.
// allocates: 4, 124 bytes: hibitset_roaring::write_run_optimized
#[test]
fn write_a_set_without_runs(rt: HostRuntime) -> Result<(), AllocError> {
    assert_writes(&rt, &[5, 70_000], &[], Writing::Optimized)
}

// Writes a set behind bytes, and returns whether an allocation failed.
fn append_is_refused(alloc: Global, set: &BitSet, out: &mut Vec<u8>, optimized: bool) -> bool {
    if optimized {
        write_run_optimized_to(alloc, set, out).is_err()
    } else {
        write_to(alloc, set, out).is_err()
    }
}

// Sees that the stream is written behind a byte, which is all that is there where an allocation failed.
fn assert_appends(
    rt: &(impl Abort + Print + AllocGlobal),
    optimized: bool,
) -> Result<(), AllocError> {
    let set = set_of(rt.alloc(), &[5, 70_000])?;
    let mut out = Vec::from_slice(rt.alloc(), &[7])?;
    let refused = tried!(
        rt,
        append_is_refused(rt.alloc(), &set, &mut out, optimized),
        |it| it
    );
    if refused {
        assert!(rt; out.len() == 1);
        assert!(rt; !append_is_refused(rt.alloc(), &set, &mut out, optimized));
    }
    assert!(rt; out.len() == 29 && out[0] == 7);
    assert!(rt; is_stream(&out[1..]));
    Ok(())
}

// The same as of a set.
// allocates: 3, 93 bytes: hibitset_roaring::write_to
#[test]
fn write_behind_a_byte(rt: HostRuntime) -> Result<(), AllocError> {
    assert_appends(&rt, false)
}

// The same as of a set without runs.
// allocates: 4, 125 bytes: hibitset_roaring::write_run_optimized_to
#[test]
fn write_runs_behind_a_byte(rt: HostRuntime) -> Result<(), AllocError> {
    assert_appends(&rt, true)
}

// Returns whether a buffer of 28 bytes is as it was.
fn is_untouched(out: &[u8]) -> bool {
    out.first() == Some(&7) && out.last() == Some(&7)
}

// Writes a set into a writer, and returns whether an allocation failed, which the error's kind says.
fn write_is_refused(rt: &impl Abort, alloc: Global, set: &BitSet, out: &mut [u8]) -> bool {
    let mut out = out;
    match write_into(alloc, set, &mut out) {
        Ok(_) => false,
        Err(error) => {
            assert!(rt; error.kind() == ErrorKind::OutOfMemory);
            true
        }
    }
}

fn write_words_of(alloc: Global, set: &BitSet, out: &mut [u8]) -> Result<usize, AllocError> {
    write_words(alloc, set.layer0_as_slice(), set.layer1_as_slice(), out)
}

// Writes a set, or its words, into a buffer, and returns whether an allocation failed.
fn fill_is_refused(
    rt: &impl Abort,
    alloc: Global,
    set: &BitSet,
    out: &mut [u8],
    by_words: bool,
) -> bool {
    if by_words {
        write_words_of(alloc, set, out).is_err()
    } else {
        write_is_refused(rt, alloc, set, out)
    }
}

// Sees that the stream is written into a buffer, which is as it was where an allocation failed.
fn assert_fills(rt: &(impl Abort + Print + AllocGlobal), by_words: bool) -> Result<(), AllocError> {
    let set = set_of(rt.alloc(), &[5, 70_000])?;
    let mut out = [7; 28];
    let refused = tried!(
        rt,
        fill_is_refused(rt, rt.alloc(), &set, &mut out, by_words),
        |it| it
    );
    if refused {
        assert!(rt; is_untouched(&out));
        assert!(rt; !fill_is_refused(rt, rt.alloc(), &set, &mut out, by_words));
    }
    assert!(rt; is_stream(&out));
    Ok(())
}

// As a set is written.
// allocates: 3, 92 bytes: hibitset_roaring::write_into
#[test]
fn write_into_a_writer(rt: HostRuntime) -> Result<(), AllocError> {
    assert_fills(&rt, false)
}

// The keys and the numbers of members.
// allocates: 2, 64 bytes: hibitset_roaring::write_words
#[test]
fn write_into_a_buffer(rt: HostRuntime) -> Result<(), AllocError> {
    assert_fills(&rt, true)
}
