//! Streams in which a container is runs where these take fewer bytes.
use super::*;
use hibitset_roaring::laws::round_trip_optimized;

// Returns whether a set is written as these bytes, and they are read as it.
fn is_written_as(alloc: Global, set: &BitSet, stream: &[u8]) -> Result<bool, ReadError> {
    let written = write_run_optimized(alloc, set)?;
    let found = read(alloc, stream)?;
    Ok(written.as_slice() == stream && run_optimized_len(set) == stream.len() && found == *set)
}

// Returns whether a set is written without runs.
fn is_written_plain(alloc: Global, set: &BitSet) -> Result<bool, ReadError> {
    let plain = write(alloc, set)?;
    is_written_as(alloc, set, &plain)
}

#[test]
fn three_numbers_are_a_run_and_two_are_none(rt: HostRuntime) -> Result<(), Fail> {
    let alloc = rt.alloc();
    let three = [59, 48, 0, 0, 1, 0, 0, 2, 0, 1, 0, 1, 0, 2, 0];
    assert!(rt; is_written_as(alloc, &set_of(alloc, &[(1, 3)])?, &three)?);
    assert!(rt; is_written_plain(alloc, &set_of(alloc, &[(1, 2)])?)?);
    let last = [59, 48, 0, 0, 1, 0, 0, 2, 0, 1, 0, 253, 255, 2, 0];
    assert!(rt; is_written_as(alloc, &set_of(alloc, &[(65_533, 65_535)])?, &last)?);
    assert!(rt; is_written_plain(alloc, &BitSet::new(alloc))?);
    assert!(rt; is_written_plain(alloc, &set_of(alloc, &[(65_535, 65_536)])?)?);
    Ok(())
}

// Four members in two runs are as short as an array, and five are longer.
#[test]
fn runs_as_long_as_an_array_are_an_array(rt: HostRuntime) -> Result<(), Fail> {
    let alloc = rt.alloc();
    assert!(rt; is_written_plain(alloc, &set_of(alloc, &[(0, 1), (3, 4)])?)?);
    let five = [59, 48, 0, 0, 1, 0, 0, 4, 0, 2, 0, 0, 0, 1, 0, 3, 0, 2, 0];
    assert!(rt; is_written_as(alloc, &set_of(alloc, &[(0, 1), (3, 5)])?, &five)?);
    Ok(())
}

// A set of the runs of three numbers that begin at 0, 4, 8 and so on.
fn threes(alloc: Global, runs: u16) -> Result<BitSet, AllocError> {
    let mut set = BitSet::new(alloc);
    for run in 0..runs {
        let first = 4 * Index::from(run);
        set.add_range(first, first + 3)?;
    }
    Ok(set)
}

// With one run more, 8,194 bytes of runs would be longer than 8,192 of bits.
#[test]
fn bits_have_2048_runs_at_least(rt: HostRuntime) -> Result<(), Fail> {
    let alloc = rt.alloc();
    let mut runs = Vec::from_slice(alloc, &[59, 48, 0, 0, 1, 0, 0, 252, 23, 255, 7])?;
    for run in 0..2_047u16 {
        runs.extend_from_slice(&(4 * run).to_le_bytes())?;
        runs.extend_from_slice(&[2, 0])?;
    }
    assert!(rt; is_written_as(alloc, &threes(alloc, 2_047)?, &runs)?);
    assert!(rt; is_written_plain(alloc, &threes(alloc, 2_048)?)?);
    Ok(())
}

// Offsets begin with four containers. Here two are runs, one is an array and one is bits.
#[test]
fn containers_are_of_all_kinds(rt: HostRuntime) -> Result<(), Fail> {
    let alloc = rt.alloc();
    let mut set = set_of(alloc, &[(1, 3), (65_541, 65_541), (262_138, 262_143)])?;
    for number in 0..32_768u32 {
        set.add(131_072 + 2 * number)?;
    }
    let mut stream = Vec::from_slice(
        alloc,
        &[
            59, 48, 3, 0, 9, 0, 0, 2, 0, 1, 0, 0, 0, 2, 0, 255, 127, 3, 0, 5, 0, 37, 0, 0, 0, 43,
            0, 0, 0, 45, 0, 0, 0, 45, 32, 0, 0, 1, 0, 1, 0, 2, 0, 5, 0,
        ],
    )?;
    stream.resize(45 + 8_192, 0x55)?;
    stream.extend_from_slice(&[1, 0, 250, 255, 5, 0])?;
    assert!(rt; is_written_as(alloc, &set, &stream)?);
    assert!(rt; round_trip_optimized(alloc, &set)? == set);
    Ok(())
}

#[test]
fn an_optimized_stream_is_put_behind_other_bytes(rt: HostRuntime) -> Result<(), Fail> {
    let alloc = rt.alloc();
    let mut out = Vec::from_slice(alloc, &[7, 8, 9])?;
    write_run_optimized_to(alloc, &set_of(alloc, &[(1, 3)])?, &mut out)?;
    write_run_optimized_to(alloc, &BitSet::new(alloc), &mut out)?;
    let both = [
        7, 8, 9, 59, 48, 0, 0, 1, 0, 0, 2, 0, 1, 0, 1, 0, 2, 0, 58, 48, 0, 0, 0, 0, 0, 0,
    ];
    assert!(rt; out.as_slice() == both.as_slice());
    Ok(())
}
