//! A set made of what a reader gives.

ghost use Rattle.std.specs.Prelude.{◌≡◌, ℕ, ◌+◌, ◌*◌, ◌≤◌, ◌++◌, List, IfSome, IfOk, IfErr, IsTrue, OnOk};
ghost use Rattle.std.specs.Io.KnownBytes.{Consumes, IsAtEnd};
ghost use Rattle.hibitset.specs.BitSet.{has, slice_len};
ghost use Rattle.hibitset_roaring.specs.Format.{holds, IsStream, HasKeysBelow};
ghost use Rattle.hibitset_roaring.specs.Transfers.{GivesFront, longest_below, IsOutside, IsFromReason, IsInputReason, IsNoInterruption};
ghost use Rattle.hibitset_roaring.specs.declared.header.TheConstants.{KEYS};
ghost use Rattle.hibitset_roaring.specs.declared.layout.TheConstants.{CONTAINER_WORDS};
ghost use Rattle.hibitset_roaring.specs.declared.from_reader.TheConstants.{CHUNK};

use crate::decode::read_below;
use crate::error::ReadFromError;
use crate::header::KEYS;
use crate::layout::CONTAINER_WORDS;
use hibitset::BitSet;
use std::alloc::{AllocError, Global};
use std::io::{self, Read};

// The most bytes of a container, which is runs then, and its part of the header.
const LONGEST_CONTAINER: usize = 131_074 + 9;

// The header's other bytes.
const LONGEST_START: usize = 8;

// The most bytes of one read.
const CHUNK: usize = 8192;

/// The set whose members a stream has, as `read_below` reads it, with keys below `end`. The stream is all bytes that
/// the reader gives up to its end. An interrupted read is made again.
///
/// # Errors
///
/// The bytes that were read are lost then.
///
/// - `TooLong`: the reader gave more bytes than any stream of keys below `end` has, 131,083 for each key, and 8. It
///   reads no further, so a small `end` bounds what an untrusted reader can make it take, also one that never ends.
/// - `Io`: any other error of the reader.
/// - `Malformed`: a fault of the bytes and its position.
/// - `Memory`: an allocation failed.
///
/// # Cost
///
/// It asks for at most 8,192 bytes at once, and keeps all in a `Vec`.
pub fn read_from<R: Read>(
    alloc: Global,
    reader: &mut R,
    end: usize,
) -> Result<BitSet, ReadFromError>
    requires { end ≤ KEYS }
    ensures stream { OnOk result (IfSome (R.remaining reader.old) IsStream) }
    ensures keys_below { OnOk result (IfSome (R.remaining reader.old)
        (λ bytes. HasKeysBelow bytes end)) }
    ensures members { IfOk result (λ set. IfSome (R.remaining reader.old)
        (λ bytes. (i : ℕ) → has set i ≡ holds bytes i)) }
    ensures length { IfOk result (λ set. slice_len set 0 ≤ CONTAINER_WORDS * end) }
    ensures end { OnOk result (IsAtEnd (R.remaining reader.new)) }
    ensures reason { IfErr result (λ error. IfSome (R.remaining reader.old)
        (λ bytes. IsFromReason bytes end error)) }
    ensures accepts { IfErr result (λ error. IfSome (R.remaining reader.old)
        (λ bytes. IsStream bytes → HasKeysBelow bytes end → IsOutside error)) }
    ensures reads_front { GivesFront (longest_below end + CHUNK) (R.remaining reader.old)
        (R.remaining reader.new) }
    ensures not_interrupted { IfErr result IsNoInterruption }
{
    let bytes = read_within(alloc, reader, end)?;
    Ok(read_below(alloc, &bytes, end)?)
}

// All bytes of a reader, unless they are more than any stream with keys below `end` has.
pub(crate) fn read_within<R: Read>(
    alloc: Global,
    reader: &mut R,
    end: usize,
) -> Result<Vec<u8>, ReadFromError>
    requires { end ≤ KEYS }
    ensures bytes { IfOk result (λ input. IfSome (R.remaining reader.old)
        (λ bytes. input.items ≡ bytes)) }
    ensures end { OnOk result (IsAtEnd (R.remaining reader.new)) }
    ensures reason { IfErr result (IsInputReason (R.remaining reader.old) (longest_below end)) }
    ensures reads_front { GivesFront (longest_below end + CHUNK) (R.remaining reader.old)
        (R.remaining reader.new) }
    ensures not_interrupted { IfErr result IsNoInterruption }
{
    read_all(alloc, reader, LONGEST_START + LONGEST_CONTAINER * end)
}

// All bytes of a reader, unless they are more than `most`.
fn read_all<R: Read>(alloc: Global, reader: &mut R, most: usize) -> Result<Vec<u8>, ReadFromError>
    ensures bytes { IfOk result (λ input. IfSome (R.remaining reader.old)
        (λ bytes. input.items ≡ bytes)) }
    ensures end { OnOk result (IsAtEnd (R.remaining reader.new)) }
    ensures reason { IfErr result (IsInputReason (R.remaining reader.old) most) }
    ensures reads_front { GivesFront (most + CHUNK) (R.remaining reader.old) (R.remaining reader.new) }
    ensures not_interrupted { IfErr result IsNoInterruption }
{
    let mut input = Vec::new(alloc);
    'rounds: for _round in 0..u64::MAX {
        if read_some(reader, &mut input)? {
            return Ok(input);
        }
        if input.len() > most {
            return Err(ReadFromError::TooLong);
        }
    }
    // It gave up, as std does where each read is interrupted.
    Err(ReadFromError::Io(io::Error::other("each read was interrupted")))
}

// Reads once, and returns whether the reader has ended.
fn read_some<R: Read>(reader: &mut R, input: &mut Vec<u8>) -> Result<bool, ReadFromError>
    ensures bytes { OnOk result ((bytes : List ℕ) × (input.new.items ≡ input.old.items ++ bytes)
        × Consumes (R.remaining reader.old) (R.remaining reader.new) bytes) }
    ensures end { IfOk result (λ ended. IsTrue ended → IsAtEnd (R.remaining reader.new)) }
    ensures reason { IfErr result IsOutside }
    ensures reads_front { GivesFront CHUNK (R.remaining reader.old) (R.remaining reader.new) }
    ensures not_interrupted { IfErr result IsNoInterruption }
{
    let mut chunk = [0; CHUNK];
    match reader.read(&mut chunk) {
        Ok(0) => Ok(true),
        Ok(count) => match input.extend_from_slice(&chunk[..count]) {
            Ok(()) => Ok(false),
            Err(AllocError) => Err(ReadFromError::Memory),
        },
        Err(error) if error.kind() == io::ErrorKind::Interrupted => Ok(false),
        Err(error) => Err(ReadFromError::Io(error)),
    }
}
