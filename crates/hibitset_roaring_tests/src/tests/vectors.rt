//! Streams of another library, bytes with one fault, and changed streams, judged by a reader of the format's
//! specification.
use super::*;

// The value of a digit of a text in base 16.
fn digit(byte: u8) -> u8 {
    match byte {
        b'0'..=b'9' => byte - b'0',
        b'a'..=b'f' => byte - b'a' + 10,
        _ => 0,
    }
}

// The bytes of a text in base 16.
fn bytes_of(alloc: Global, text: &str) -> Result<Vec<u8>, AllocError> {
    let mut bytes = Vec::new(alloc);
    for pair in text.as_bytes().chunks_exact(2) {
        bytes.push(16 * (digit(pair[0]) & 15) + (digit(pair[1]) & 15))?;
    }
    Ok(bytes)
}

// Returns whether a stream is read as the set of these ranges, and this is written so with runs where they are shorter.
fn is_accepted(alloc: Global, text: &str, ranges: &[(Index, Index)]) -> Result<bool, ReadError> {
    let stream = bytes_of(alloc, text)?;
    let set = set_of(alloc, ranges)?;
    let plain = write(alloc, &set)?;
    let optimized = write_run_optimized(alloc, &set)?;
    Ok(optimized.as_slice() == stream.as_slice() && is_read_as(alloc, &stream, &set, &plain)?)
}

#[test]
fn streams_of_another_library(rt: HostRuntime) -> Result<(), Fail> {
    let rows: [(&str, &[(Index, Index)]); 21] = [
        ("3a30000000000000", &[]),
        ("3b3000000100000010010000000010", &[(0, 4_096)]),
        ("3b300000010000fd0f01000000fd0f", &[(0, 4_093)]),
        ("3b300000010000ffff01000000ffff", &[(0, 65_535)]),
        ("3a3000000100000000000000100000000000", &[(0, 0)]),
        ("3a3000000100000000000000100000000010", &[(4_096, 4_096)]),
        ("3a3000000100000000000000100000000100", &[(1, 1)]),
        ("3a3000000100000000000000100000003f00", &[(63, 63)]),
        ("3a3000000100000000000000100000004000", &[(64, 64)]),
        ("3a3000000100000000000000100000004100", &[(65, 65)]),
        (
            "3b300100030000871301008713010000008713010064008713",
            &[(0, 4_999), (65_636, 70_635)],
        ),
        (
            "3b300100030000ffff0100ffff01000000ffff01000000ffff",
            &[(0, 131_071)],
        ),
        (
            "3a3000000100000011000600100000009a02e0215224f52a1f96dad7f3f4",
            &[
                (1_114_778, 1_114_778),
                (1_122_784, 1_122_784),
                (1_123_410, 1_123_410),
                (1_125_109, 1_125_109),
                (1_152_543, 1_152_543),
                (1_169_370, 1_169_370),
                (1_176_819, 1_176_819),
            ],
        ),
        (
            "3b300200070000871301008713020087130100000087130100640087130100c8008713",
            &[(0, 4_999), (65_636, 70_635), (131_272, 136_271)],
        ),
        (
            "3b300200070000ffff0100ffff0200ffff01000000ffff01000000ffff01000000ffff",
            &[(0, 196_607)],
        ),
        (
            "3b3003000f00008713010087130200871303008713250000002b00000031000000370000000100000087130100640087130100c800871301002c018713",
            &[
                (0, 4_999),
                (65_636, 70_635),
                (131_272, 136_271),
                (196_908, 201_907),
            ],
        ),
        (
            "3b3003000f0000ffff0100ffff0200ffff0300ffff250000002b000000310000003700000001000000ffff01000000ffff01000000ffff01000000ffff",
            &[(0, 262_143)],
        ),
        (
            "3b3004001f00008713010087130200871303008713040087132d00000033000000390000003f000000450000000100000087130100640087130100c800871301002c018713010090018713",
            &[
                (0, 4_999),
                (65_636, 70_635),
                (131_272, 136_271),
                (196_908, 201_907),
                (262_544, 267_543),
            ],
        ),
        (
            "3b3004001f0000ffff0100ffff0200ffff0300ffff0400ffff2d00000033000000390000003f0000004500000001000000ffff01000000ffff01000000ffff01000000ffff01000000ffff",
            &[(0, 327_679)],
        ),
        (
            "3a300000010000000300000010000000ffff",
            &[(262_143, 262_143)],
        ),
        (
            "3a30000001000000ff3f000010000000ffff",
            &[(1_073_741_823, 1_073_741_823)],
        ),
    ];
    for (text, ranges) in rows {
        assert!(rt; is_accepted(rt.alloc(), text, ranges)?);
    }
    Ok(())
}

#[test]
fn bytes_with_one_fault(rt: HostRuntime) -> Result<(), Fail> {
    let rows = [
        ("3a30", Fault::TooShort, 0),
        ("0030000000000000", Fault::BadCookie, 0),
        ("3a3000000000000000", Fault::TooLong, 8),
        ("3b300000000000ffff", Fault::TooShort, 9),
        ("3b3000000010010000000010", Fault::TooLong, 11),
        ("3b300000010000000f01000000fd0f", Fault::WrongCardinality, 9),
        ("3b3000000100000110010000f00110", Fault::RunPastEnd, 13),
        ("3b3000000100460110010000000110", Fault::OutOfRange, 5),
        (
            "3a300000010000000000000001000000fd0f",
            Fault::WrongOffset,
            12,
        ),
        (
            "3b300000010000030002000000010002000100",
            Fault::RunsNotApart,
            15,
        ),
        (
            "3a30000001000000000001001000000007000700",
            Fault::NotAscending,
            18,
        ),
        (
            "3a300000010000000000020010000000010003000200",
            Fault::NotAscending,
            20,
        ),
        (
            "3a300000020000000100000001000000180000001a00000005000600",
            Fault::KeysNotAscending,
            12,
        ),
        ("3a30000001000100", Fault::TooManyContainers, 4),
    ];
    for (text, fault, at) in rows {
        let bytes = bytes_of(rt.alloc(), text)?;
        assert!(rt; is_refused(rt.alloc(), &bytes, fault, at));
    }
    Ok(())
}

// Returns whether every prefix of a stream but itself is refused, and for its end.
fn prefixes_end_too_soon(alloc: Global, stream: &[u8]) -> bool {
    for len in 0..stream.len() {
        match read(alloc, &stream[..len]) {
            Err(ReadError::Malformed(malformed)) => {
                if malformed.fault != Fault::TooShort || malformed.at > len {
                    return false;
                }
            }
            _ => return false,
        }
    }
    true
}

// How many streams with one byte changed are accepted, with keys below 512, and how many members those have in all.
fn accepted_changes(alloc: Global, stream: &mut Vec<u8>) -> (usize, usize) {
    let mut accepted = 0usize;
    let mut members = 0usize;
    for at in 0..stream.len() {
        for change in [0x01, 0x80, 0xff] {
            let byte = stream[at];
            stream[at] = byte ^ change;
            if let Ok(set) = read_below(alloc, stream, 512) {
                accepted = accepted.wrapping_add(1);
                members = members.wrapping_add(set.len());
            }
            stream[at] = byte;
        }
    }
    (accepted, members)
}

#[test]
fn streams_cut_short_or_changed(rt: HostRuntime) -> Result<(), Fail> {
    let rows = [
        ("3b3000000100000010010000000010", 10, 40_970),
        ("3b300000010000fd0f01000000fd0f", 10, 40_940),
        ("3a3000000100000000000000100000000000", 10, 10),
        (
            "3b300100030000871301008713010000008713010064008713",
            14,
            140_000,
        ),
        (
            "3a3000000100000011000600100000009a02e0215224f52a1f96dad7f3f4",
            33,
            231,
        ),
        (
            "3b300200070000871301008713020087130100000087130100640087130100c8008713",
            20,
            300_000,
        ),
    ];
    for (text, accepted, members) in rows {
        let mut stream = bytes_of(rt.alloc(), text)?;
        assert!(rt; prefixes_end_too_soon(rt.alloc(), &stream));
        assert!(rt; accepted_changes(rt.alloc(), &mut stream) == (accepted, members));
    }
    Ok(())
}
