//! The text of each fault and of each error.
use super::*;
use std::io::{self, ErrorKind};

#[test]
fn each_fault_has_its_text(rt: HostRuntime) -> Result<(), Fail> {
    let rows = [
        (Fault::TooShort, "the bytes end too soon"),
        (Fault::TooLong, "bytes follow the last container"),
        (Fault::BadCookie, "no stream begins so"),
        (Fault::TooManyContainers, "too many containers"),
        (Fault::KeysNotAscending, "the keys do not ascend"),
        (Fault::OutOfRange, "a key is out of range"),
        (Fault::WrongOffset, "no container begins at this offset"),
        (
            Fault::WrongCardinality,
            "a container has another number of members",
        ),
        (Fault::NotAscending, "the numbers of an array do not ascend"),
        (Fault::RunsNotApart, "a run meets the one before it"),
        (Fault::RunPastEnd, "a run ends past its container"),
    ];
    for (fault, text) in rows {
        assert!(rt;
            format!(in rt.alloc(); "{fault}")?.as_str() == text,
            "{text}"
        );
    }
    Ok(())
}

#[test]
fn each_error_has_its_text(rt: HostRuntime) -> Result<(), Fail> {
    let malformed = Malformed {
        fault: Fault::RunPastEnd,
        at: 17,
    };
    let of_bytes = [
        (ReadError::Memory, "an allocation failed"),
        (
            ReadError::Malformed(malformed),
            "a run ends past its container at byte 17",
        ),
    ];
    for (error, text) in of_bytes {
        assert!(rt;
            format!(in rt.alloc(); "{error}")?.as_str() == text,
            "{text}"
        );
    }
    let of_readers = [
        (
            ReadFromError::Io(io::Error::new(ErrorKind::TimedOut, "it took too long")),
            "the reader failed: it took too long",
        ),
        (ReadFromError::Memory, "an allocation failed"),
        (ReadFromError::TooLong, "the reader gives too many bytes"),
        (
            ReadFromError::Malformed(malformed),
            "a run ends past its container at byte 17",
        ),
    ];
    for (error, text) in of_readers {
        assert!(rt;
            format!(in rt.alloc(); "{error}")?.as_str() == text,
            "{text}"
        );
    }
    Ok(())
}
