//! What is read and written: values from outside, and each public call at least once.
mod callers;
mod calls;
mod costs;
mod optimized;
mod sparse;
mod texts;
mod transfers;
mod vectors;

use hibitset::{BitSet, BitSetLike, Index, MAX_EID};
use hibitset_roaring::{
    Fault, KEYS, Malformed, ReadError, ReadFromError, read, read_below, read_from, read_sparse,
    read_sparse_below, read_sparse_from, run_optimized_len, serialized_len, write, write_into,
    write_like, write_run_optimized, write_run_optimized_to, write_to,
};
use hibitset_sparse::SparseBitSet;
use std::alloc::{AllocError, Global};
use std::test::Fail;

// A set of ranges of indices, each with its first and its last.
fn set_of(alloc: Global, ranges: &[(Index, Index)]) -> Result<BitSet, AllocError> {
    let mut set = BitSet::new(alloc);
    for (first, last) in ranges {
        if (*last as usize) < MAX_EID {
            set.add_range(*first, *last + 1)?;
        }
    }
    Ok(set)
}

// Returns whether a sparse set has the members of a dense one.
fn is_like(sparse: &SparseBitSet, dense: &BitSet) -> bool {
    sparse.contains_set(dense) && sparse.is_subset(dense)
}

// Returns whether bytes are read as a sparse set, which is written as these bytes in turn.
fn is_read_sparse_as(
    alloc: Global,
    bytes: &[u8],
    set: &BitSet,
    plain: &[u8],
) -> Result<bool, ReadError> {
    let found = read_sparse(alloc, bytes)?;
    let written = write_like(alloc, &found)?;
    Ok(is_like(&found, set) && written.as_slice() == plain)
}

// Returns whether bytes are read as a set, which is written as these bytes in turn, and as a sparse one too.
fn is_read_as(alloc: Global, bytes: &[u8], set: &BitSet, plain: &[u8]) -> Result<bool, ReadError> {
    let found = read(alloc, bytes)?;
    let written = write(alloc, &found)?;
    let alike = is_read_sparse_as(alloc, bytes, set, plain)?;
    Ok(alike && found == *set && written.as_slice() == plain && serialized_len(set) == plain.len())
}

// Returns whether no set was read, for this fault at this position.
fn has_fault<T: Drop>(made: Result<T, ReadError>, fault: Fault, at: usize) -> bool {
    match made {
        Ok(_) => false,
        Err(error) => error == ReadError::Malformed(Malformed { fault, at }),
    }
}

// Returns whether bytes are refused for this fault at this position, whichever set is to be read.
fn is_refused(alloc: Global, bytes: &[u8], fault: Fault, at: usize) -> bool {
    has_fault(read(alloc, bytes), fault, at) && has_fault(read_sparse(alloc, bytes), fault, at)
}

// A stream without runs of one container with key 0, and offsets where it begins.
fn one_container(alloc: Global, cardinality: u16) -> Result<Vec<u8>, AllocError> {
    let mut stream = Vec::from_slice(alloc, &[58, 48, 0, 0, 1, 0, 0, 0, 0, 0])?;
    stream.extend_from_slice(&cardinality.wrapping_sub(1).to_le_bytes())?;
    stream.extend_from_slice(&[16, 0, 0, 0])?;
    Ok(stream)
}

// The numbers 0, 3, 6 and so on: 4,096 are an array, and one more makes bits of them.
#[test]
fn an_array_has_4096_members_at_most(rt: HostRuntime) -> Result<(), Fail> {
    let alloc = rt.alloc();
    let mut set = BitSet::new(alloc);
    let mut array = one_container(alloc, 4_096)?;
    for number in 0..4_096u16 {
        set.add(3 * Index::from(number))?;
        array.extend_from_slice(&(3 * number).to_le_bytes())?;
    }
    assert!(rt; is_read_as(alloc, &array, &set, &array)?);
    set.add(12_288)?;
    let mut bits = one_container(alloc, 4_097)?;
    for number in 0..65_536u32 / 8 {
        bits.push(if number < 1_536 {
            [0x49, 0x92, 0x24][number as usize % 3]
        } else {
            u8::from(number == 1_536)
        })?;
    }
    assert!(rt; is_read_as(alloc, &bits, &set, &bits)?);
    if bits.len() > 20 {
        bits[20] = 0;
    }
    assert!(rt; is_refused(alloc, &bits, Fault::WrongCardinality, 16));
    Ok(())
}

// Every other number is in 65,536 bits of which half are set.
#[test]
fn bits_are_words(rt: HostRuntime) -> Result<(), Fail> {
    let alloc = rt.alloc();
    let mut stream = one_container(alloc, 32_768)?;
    stream.resize(16 + 8_192, 0x55)?;
    let set = read(alloc, &stream)?;
    assert!(rt; set.len() == 32_768 && set.contains(0) && !set.contains(1) && set.contains(65_534));
    assert!(rt; !set.contains(65_535) && set.last() == Some(65_534));
    assert!(rt; write(alloc, &set)?.as_slice() == stream.as_slice());
    Ok(())
}

#[test]
fn a_stream_is_put_behind_other_bytes(rt: HostRuntime) -> Result<(), Fail> {
    let alloc = rt.alloc();
    let mut out = Vec::from_slice(alloc, &[7, 8, 9])?;
    write_to(alloc, &set_of(alloc, &[(65_535, 65_536)])?, &mut out)?;
    let two = [
        7, 8, 9, 58, 48, 0, 0, 2, 0, 0, 0, 0, 0, 0, 0, 1, 0, 0, 0, 24, 0, 0, 0, 26, 0, 0, 0, 255,
        255, 0, 0,
    ];
    assert!(rt; out.as_slice() == two.as_slice());
    write_to(alloc, &BitSet::new(alloc), &mut out)?;
    let empty = [58, 48, 0, 0, 0, 0, 0, 0];
    assert!(rt; out.len() == 39 && &out[31..] == empty.as_slice());
    Ok(())
}

// What two sets have in common, and all that one lacks, are no `BitSet`s.
#[test]
fn a_virtual_set_is_written(rt: HostRuntime) -> Result<(), Fail> {
    let alloc = rt.alloc();
    let both = set_of(alloc, &[(65_535, 70_000)])?;
    let first = set_of(alloc, &[(5, 65_536), (80_000, 80_000)])?;
    let stream = write_like(alloc, &(&both & &first))?;
    let two = [
        58, 48, 0, 0, 2, 0, 0, 0, 0, 0, 0, 0, 1, 0, 0, 0, 24, 0, 0, 0, 26, 0, 0, 0, 255, 255, 0, 0,
    ];
    assert!(rt; stream.as_slice() == two.as_slice());
    let outside = set_of(alloc, &[(0, 65_535), (131_072, 1_073_741_823)])?;
    let stream = write_like(alloc, &!&outside)?;
    let header = [58, 48, 0, 0, 1, 0, 0, 0, 1, 0, 255, 255, 16, 0, 0, 0];
    let mut all = Vec::from_slice(alloc, &header)?;
    all.resize(16 + 8_192, 0xff)?;
    assert!(rt; stream.as_slice() == all.as_slice());
    Ok(())
}

// The last key that a set has is the first that a bound leaves out.
#[test]
fn a_bound_refuses_its_own_key(rt: HostRuntime) -> Result<(), Fail> {
    let alloc = rt.alloc();
    let set = set_of(alloc, &[(5, 6), (1_073_741_823, 1_073_741_823)])?;
    let stream = write(alloc, &set)?;
    assert!(rt; stream.len() == serialized_len(&set) && stream.len() == 30);
    assert!(rt; read_below(alloc, &stream, KEYS)? == set);
    let refused = read_below(alloc, &stream, KEYS - 1);
    assert!(rt;
        matches!(
            refused,
            Err(ReadError::Malformed(Malformed {
                fault: Fault::OutOfRange,
                at: 12
            }))
        )
    );
    assert!(rt; read_below(alloc, &[58, 48, 0, 0, 0, 0, 0, 0], 0)?.is_empty());
    Ok(())
}

#[test]
fn errors_say_what_and_where(rt: HostRuntime) -> Result<(), Fail> {
    let error = ReadError::Malformed(Malformed {
        fault: Fault::WrongOffset,
        at: 12,
    });
    let text = format!(in rt.alloc(); "{error}; {}", ReadError::Memory)?;
    assert!(rt;
        text.as_str() == "no container begins at this offset at byte 12; an allocation failed"
    );
    Ok(())
}
