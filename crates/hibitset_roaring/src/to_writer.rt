//! A set written to a writer.

ghost use Rattle.std.specs.Prelude.{◌≡◌, ◌≢◌, ℕ, ◌≤◌, List, [], length, take, drop, IfOk, IfErr, OnErr, OnOk, MatchResult};
ghost use Rattle.std.specs.Io.KnownBytes.{Appends, Keeps};
ghost use Rattle.std.specs.IoError.{error_kind};
ghost use Rattle.hibitset.specs.BitSet.{has};
ghost use Rattle.hibitset_roaring.specs.Format.{HasKeysBelow, IsPlainStream, IsCanonicalStream};
ghost use Rattle.hibitset_roaring.specs.Transfers.{Writes, WritesFront};
ghost use Rattle.hibitset_roaring.specs.declared.header.TheConstants.{KEYS};

use crate::encode::write;
use hibitset::BitSet;
use std::alloc::Global;
use std::io::{self, ErrorKind, Write};

/// Writes a set in the portable Roaring format behind what the writer holds, as `write` writes it. The writer is not
/// flushed. An interrupted write is made again.
///
/// # Errors
///
/// - `OutOfMemory`: an allocation fails. All bytes are made first, so nothing is written then.
/// - `WriteZero`: the writer takes no more. A prefix of the stream may be written.
/// - Any other error of the writer. A prefix of the stream may be written.
pub fn write_into<W: Write>(alloc: Global, set: &BitSet, writer: &mut W) -> io::Result<()>
    ensures stream { OnOk result
        (Writes (IsCanonicalStream (has set.now)) (W.contents writer.old) (W.contents writer.new)) }
    ensures keys_below { OnOk result
        (Writes (λ bytes. HasKeysBelow bytes KEYS) (W.contents writer.old)
        (W.contents writer.new)) }
    ensures err { OnErr result ((bytes : List ℕ) → IsPlainStream (has set.now) bytes
        → WritesFront (W.contents writer.old) (W.contents writer.new) bytes) }
    ensures not_interrupted { IfErr result (λ e. error_kind e ≢ ErrorKind.Interrupted) }
{
    let bytes = write(alloc, set)?;
    put_bytes(writer, &bytes)
}

// Writes the bytes.
//
// `write_all` does not say what it wrote before it failed.
fn put_bytes<W: Write>(writer: &mut W, bytes: &[u8]) -> io::Result<()>
    ensures ok { OnOk result (Appends (W.contents writer.old) (W.contents writer.new) bytes.now) }
    ensures err { OnErr result (WritesFront (W.contents writer.old) (W.contents writer.new)
        bytes.now) }
    ensures not_interrupted { IfErr result (λ e. error_kind e ≢ ErrorKind.Interrupted) }
{
    let mut rest = bytes;
    'rounds: for _round in 0..u64::MAX {
        if rest.is_empty() {
            return Ok(());
        }
        let count = put_some(writer, rest)?;
        rest = &rest[count..];
    }
    // It gave up, as std does where each write is interrupted.
    Err(io::Error::other("each write was interrupted"))
}

// Writes as many of the bytes as the writer takes at once, and none if it is interrupted.
fn put_some<W: Write>(writer: &mut W, bytes: &[u8]) -> io::Result<usize>
    ensures within { IfOk result (λ count. count ≤ length bytes.now) }
    ensures written { MatchResult result
        (λ count. Appends (W.contents writer.old) (W.contents writer.new) (take count bytes.now))
        (λ _. Keeps (W.contents writer.old) (W.contents writer.new)) }
    ensures not_interrupted { IfErr result (λ e. error_kind e ≢ ErrorKind.Interrupted) }
{
    match writer.write(bytes) {
        Ok(0) => Err(ErrorKind::WriteZero.into()),
        Ok(count) => Ok(count),
        Err(error) if error.kind() == ErrorKind::Interrupted => Ok(0),
        Err(error) => Err(error),
    }
}
