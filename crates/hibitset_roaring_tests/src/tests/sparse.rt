//! Sparse sets read from streams and written to them.
use super::*;
use hibitset_roaring::laws::round_trip_sparse;

// A sparse set of ranges of indices, each with its first and its last.
fn sparse_of(alloc: Global, ranges: &[(Index, Index)]) -> Result<SparseBitSet, AllocError> {
    let mut set = SparseBitSet::new(alloc);
    for (first, last) in ranges {
        if (*last as usize) < MAX_EID {
            set.add_range(*first, *last + 1)?;
        }
    }
    Ok(set)
}

// Returns whether a sparse set of ranges is written as a dense one, and read as it was.
fn is_kept(alloc: Global, ranges: &[(Index, Index)]) -> Result<bool, ReadError> {
    let dense = set_of(alloc, ranges)?;
    let plain = write(alloc, &dense)?;
    let sparse = sparse_of(alloc, ranges)?;
    let copy = round_trip_sparse(alloc, &sparse)?;
    Ok(copy == sparse && is_read_sparse_as(alloc, &plain, &dense, &plain)?)
}

// Returns whether a sparse set of ranges is read of its stream with runs.
fn is_read_of_runs(alloc: Global, ranges: &[(Index, Index)]) -> Result<bool, ReadError> {
    let dense = set_of(alloc, ranges)?;
    let stream = write_run_optimized(alloc, &dense)?;
    Ok(is_like(&read_sparse(alloc, &stream)?, &dense))
}

// The first and the last number of words, of containers and of chunks of a sparse set, alone and as runs.
#[test]
fn borders_are_kept(rt: HostRuntime) -> Result<(), Fail> {
    let rows: [&[(Index, Index)]; 11] = [
        &[],
        &[(0, 0)],
        &[(63, 64)],
        &[(65_535, 65_535)],
        &[(65_535, 65_536)],
        &[(0, 65_535)],
        &[(65_536, 131_071)],
        &[(196_608, 262_143)],
        &[(262_143, 262_144)],
        &[(65_535, 65_535), (196_608, 196_608), (327_680, 393_215)],
        &[(1, 4_096), (70_000, 74_096), (200_000, 280_000)],
    ];
    for ranges in rows {
        assert!(rt; is_kept(rt.alloc(), ranges)?);
        assert!(rt; is_read_of_runs(rt.alloc(), ranges)?);
    }
    Ok(())
}

// An array, bits and runs, one behind the other, and then an array again.
#[test]
fn containers_that_alternate(rt: HostRuntime) -> Result<(), Fail> {
    let alloc = rt.alloc();
    let mut dense = BitSet::new(alloc);
    for number in 0..4_000u32 {
        dense.add(16 * number)?;
        dense.add(65_536 + 8 * number)?;
        dense.add(65_536 + 8 * number + 3)?;
        dense.add(196_608 + 5 * number)?;
    }
    dense.add_range(131_072, 190_000)?;
    let sparse = SparseBitSet::from_set(alloc, &dense)?;
    let stream = write_like(alloc, &sparse)?;
    assert!(rt; stream == write(alloc, &dense)?);
    assert!(rt; read_sparse(alloc, &stream)? == sparse);
    assert!(rt; read_sparse(alloc, &write_run_optimized(alloc, &dense)?)? == sparse);
    Ok(())
}

// The last index: a sparse set takes no memory for those before it.
#[test]
fn the_last_key_is_read(rt: HostRuntime) -> Result<(), Fail> {
    let alloc = rt.alloc();
    let stream = [
        58, 48, 0, 0, 1, 0, 0, 0, 255, 63, 0, 0, 16, 0, 0, 0, 255, 255,
    ];
    let set = read_sparse(alloc, &stream)?;
    assert!(rt; set == sparse_of(alloc, &[(1_073_741_823, 1_073_741_823)])?);
    assert!(rt; read_sparse_below(alloc, &stream, KEYS)? == set);
    let refused = read_sparse_below(alloc, &stream, KEYS - 1);
    assert!(rt; has_fault(refused, Fault::OutOfRange, 8));
    assert!(rt; write_like(alloc, &set)?.as_slice() == stream.as_slice());
    Ok(())
}

// Returns whether a reader was refused for a fault at a position.
fn is_refused_from(made: Result<SparseBitSet, ReadFromError>, fault: Fault, at: usize) -> bool {
    matches!(made, Err(ReadFromError::Malformed(m)) if m == Malformed { fault, at })
}

#[test]
fn a_reader_gives_a_sparse_set(rt: HostRuntime) -> Result<(), Fail> {
    let alloc = rt.alloc();
    let sparse = sparse_of(alloc, &[(5, 5), (70_000, 80_000)])?;
    let stream = write_like(alloc, &sparse)?;
    let mut reader = stream.as_slice();
    assert!(rt; read_sparse_from(alloc, &mut reader, 2)? == sparse);
    assert!(rt; reader.is_empty());
    let mut reader = stream.as_slice();
    assert!(rt;
        is_refused_from(
            read_sparse_from(alloc, &mut reader, 1),
            Fault::OutOfRange,
            12
        )
    );
    Ok(())
}
