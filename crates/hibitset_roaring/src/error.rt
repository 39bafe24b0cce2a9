//! Why bytes are no stream, or no set is made of them.

ghost use Rattle.std.specs.Prelude.{◌≡◌};
ghost use Rattle.hibitset_roaring.specs.Transfers.{from_read};
ghost use Rattle.hibitset_roaring.specs.declared.error.ReadError.TheVariants as errors;
ghost use Rattle.hibitset_roaring.specs.declared.error.ReadFromError.TheVariants as from;

use std::alloc::AllocError;
use std::error::Error;
use std::{fmt, io};

/// What is wrong with a stream.
#[derive(Clone, Copy, Debug, PartialEq, Eq)]
pub enum Fault {
    /// The header, or a container, begins here and would end past the bytes.
    TooShort,
    /// The last container ends here, and bytes follow.
    TooLong,
    /// The first number is neither of the two that a stream begins with.
    BadCookie,
    /// The header announces more than 65,536 containers.
    TooManyContainers,
    /// A key is not above the one before it.
    KeysNotAscending,
    /// A key stands for indices from the bound on.
    OutOfRange,
    /// An offset is not the position where its container begins.
    WrongOffset,
    /// A container has not as many members as the header says.
    WrongCardinality,
    /// A number of an array is not above the one before it.
    NotAscending,
    /// A run begins within the run before it, or right behind it.
    RunsNotApart,
    /// A run ends past the 65,536 numbers of its container.
    RunPastEnd,
}

/// What is wrong with a stream, and the position of its first byte.
#[derive(Clone, Copy, Debug, PartialEq, Eq)]
pub struct Malformed {
    pub fault: Fault,
    pub at: usize,
}

/// Why no set is read.
#[derive(Clone, Copy, Debug, PartialEq, Eq)]
pub enum ReadError {
    /// An allocation failed.
    Memory,
    /// The bytes are no stream of members in range.
    Malformed(Malformed),
}

/// Why no set is read from a reader.
#[derive(Clone, Copy, Debug)]
pub enum ReadFromError {
    /// The reader failed, with this error.
    Io(io::Error),
    /// An allocation failed.
    Memory,
    /// The reader gave more bytes than any stream of members in range has.
    TooLong,
    /// The reader's bytes are no stream of members in range.
    Malformed(Malformed),
}

impl From<AllocError> for ReadError {
    ghost from_gives = { λ _ e. e ≡ errors.Memory };

    fn from(_e: AllocError) -> ReadError {
        ReadError::Memory
    }
}

impl From<Malformed> for ReadError {
    ghost from_gives = { λ m e. e ≡ errors.Malformed m };

    fn from(malformed: Malformed) -> ReadError {
        ReadError::Malformed(malformed)
    }
}

impl From<AllocError> for ReadFromError {
    ghost from_gives = { λ _ e. e ≡ from.Memory };

    fn from(_e: AllocError) -> ReadFromError {
        ReadFromError::Memory
    }
}

impl From<io::Error> for ReadFromError {
    ghost from_gives = { λ error e. e ≡ from.Io error };

    fn from(error: io::Error) -> ReadFromError {
        ReadFromError::Io(error)
    }
}

impl From<ReadError> for ReadFromError {
    ghost from_gives = { λ error e. e ≡ from_read error };

    fn from(error: ReadError) -> ReadFromError {
        match error {
            ReadError::Memory => ReadFromError::Memory,
            ReadError::Malformed(malformed) => ReadFromError::Malformed(malformed),
        }
    }
}

impl fmt::Display for Fault {
    fn fmt<W: fmt::Write>(&self, f: &mut fmt::Formatter<W>) -> fmt::Result {
        match self {
            Fault::TooShort => write!(f, "the bytes end too soon"),
            Fault::TooLong => write!(f, "bytes follow the last container"),
            Fault::BadCookie => write!(f, "no stream begins so"),
            Fault::TooManyContainers => write!(f, "too many containers"),
            Fault::KeysNotAscending => write!(f, "the keys do not ascend"),
            Fault::OutOfRange => write!(f, "a key is out of range"),
            Fault::WrongOffset => write!(f, "no container begins at this offset"),
            Fault::WrongCardinality => write!(f, "a container has another number of members"),
            Fault::NotAscending => write!(f, "the numbers of an array do not ascend"),
            Fault::RunsNotApart => write!(f, "a run meets the one before it"),
            Fault::RunPastEnd => write!(f, "a run ends past its container"),
        }
    }
}

impl fmt::Display for ReadError {
    fn fmt<W: fmt::Write>(&self, f: &mut fmt::Formatter<W>) -> fmt::Result {
        match self {
            ReadError::Memory => write!(f, "an allocation failed"),
            ReadError::Malformed(m) => write!(f, "{} at byte {}", m.fault, m.at),
        }
    }
}

impl fmt::Display for ReadFromError {
    fn fmt<W: fmt::Write>(&self, f: &mut fmt::Formatter<W>) -> fmt::Result {
        match self {
            ReadFromError::Io(error) => write!(f, "the reader failed: {error}"),
            ReadFromError::Memory => write!(f, "an allocation failed"),
            ReadFromError::TooLong => write!(f, "the reader gives too many bytes"),
            ReadFromError::Malformed(m) => write!(f, "{} at byte {}", m.fault, m.at),
        }
    }
}

impl Error for ReadError {}

impl Error for ReadFromError {}
