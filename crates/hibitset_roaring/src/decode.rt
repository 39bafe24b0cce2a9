//! A set made of a stream.

ghost use Rattle.std.specs.Prelude.{◌≡◌, ℕ, ◌+◌, ◌*◌, ◌/◌, ◌%◌, ◌^◌, ◌<◌, ◌≤◌, ◌==◌, ◌||◌, ◌&&◌, true, false, [], get_or, length, IfOk, OnOk, IfErr};
ghost use Rattle.hibitset.specs.BitSet.{has, slice_len};
ghost use Rattle.hibitset.specs.WordBits.{stands_in};
ghost use Rattle.hibitset_roaring.specs.Numbers.{u32_at, any_below};
ghost use Rattle.hibitset_roaring.specs.Format.{container_count, key_of, has_offsets, offsets_at, container_at, in_container, holds, IsContainer, IsStream, HasKeysBelow};
ghost use Rattle.hibitset_roaring.specs.Faults.{IsFault, IsReason};
ghost use Rattle.hibitset_roaring.specs.Headers.{IsHeader};
ghost use Rattle.hibitset_roaring.specs.declared.error.ReadError.TheVariants as errors;
ghost use Rattle.hibitset_roaring.specs.declared.header.TheConstants.{KEYS};
ghost use Rattle.hibitset_roaring.specs.declared.layout.TheConstants.{CONTAINER_WORDS};

use crate::error::{Malformed, ReadError};
use crate::header::{Header, KEYS};
use crate::layout::CONTAINER_WORDS;
use crate::sink::ContainerSink;
use hibitset::BitSet;
use std::alloc::Global;

// Takes all containers, where nothing was taken before.
pub(crate) fn read_containers<S: ContainerSink>(
    bytes: &[u8],
    header: &Header,
    sink: &mut S,
) -> Result<(), ReadError>
    requires header { IsHeader bytes.now header.now }
    requires whole { container_at bytes.now (container_count bytes.now) ≡ length bytes.now }
    requires ascending { (k : ℕ) → k + 1 < container_count bytes.now
        → key_of bytes.now k < key_of bytes.now (k + 1) }
    requires keys { (k : ℕ) → k < container_count bytes.now → key_of bytes.now k < KEYS }
    requires empty { (i : ℕ) → S.holds sink.old i ≡ false }
    requires no_words { S.words_len sink.old ≡ 0 }
    ensures containers { OnOk result ((k : ℕ) → k < container_count bytes.now
        → IsContainer bytes.now k) }
    ensures members { OnOk result ((i : ℕ) → S.holds sink.new i ≡ holds bytes.now i) }
    ensures least_bound { OnOk result ((bound : ℕ) → HasKeysBelow bytes.now bound
        → S.words_len sink.new ≤ 1024 * bound) }
    ensures reason { IfErr result (λ error. (end : ℕ) → IsReason bytes.now end error) }
{
    let mut at = header.first;
    'containers: for k in 0..header.count {
        sink.take_container(bytes, header, k, at)?;
        at += header.size(bytes, k, at);
    }
    Ok(())
}

// The header of a stream, whose keys ascend below `end` and whose containers lie where it says, and the number after its
// last key.
pub(crate) fn check_stream(bytes: &[u8], end: usize) -> Result<(Header, usize), Malformed>
    ensures header { IfOk result (λ found. IsHeader bytes.now found.0) }
    ensures ascending { OnOk result ((k : ℕ) → k + 1 < container_count bytes.now
        → key_of bytes.now k < key_of bytes.now (k + 1)) }
    ensures keys_below { IfOk result (λ found. HasKeysBelow bytes.now found.1) }
    ensures in_range { IfOk result (λ found. found.1 ≤ end) }
    ensures least_bound { IfOk result (λ found. (bound : ℕ) → HasKeysBelow bytes.now bound
        → found.1 ≤ bound) }
    ensures offsets { OnOk result (has_offsets bytes.now ≡ true → (k : ℕ)
        → k < container_count bytes.now
        → u32_at bytes.now (offsets_at bytes.now + 4 * k) ≡ container_at bytes.now k) }
    ensures whole { OnOk result (container_at bytes.now (container_count bytes.now)
        ≡ length bytes.now) }
    ensures fault { IfErr result (λ m. IsFault bytes.now end m.fault m.at) }
{
    let header = Header::read(bytes)?;
    let keys = header.check_keys(bytes, end)?;
    header.check_layout(bytes)?;
    Ok((header, keys))
}

/// The set whose members a stream in the portable Roaring format has, if each key is below `end`: a key is the high 16
/// bits of members. The stream is all of the bytes; it may have runs, and leave offsets out where the format does.
///
/// ```text
/// let set = read_below(alloc, bytes, 16)?;
/// // members below 16 * 65,536
/// ```
///
/// # Errors
///
/// - `Malformed`: a fault of the bytes and its position. Trailing bytes are a fault too (`TooLong`).
/// - `Memory`: the allocation failed.
///
/// # Cost
///
/// It allocates once, at most 8,192 bytes for each key below `end`, and a sixty-third more: if `end` is `KEYS`, 18
/// bytes can ask for 136 MB. Untrusted bytes are better read by `read_sparse`.
pub fn read_below(alloc: Global, bytes: &[u8], end: usize) -> Result<BitSet, ReadError>
    requires { end ≤ KEYS }
    ensures stream { OnOk result (IsStream bytes.now) }
    ensures keys_below { OnOk result (HasKeysBelow bytes.now end) }
    ensures members { IfOk result (λ set. (i : ℕ) → has set i ≡ holds bytes.now i) }
    ensures length { IfOk result (λ set. slice_len set 0 ≤ CONTAINER_WORDS * end) }
    ensures least_bound { IfOk result (λ set. (bound : ℕ) → HasKeysBelow bytes.now bound
        → slice_len set 0 ≤ CONTAINER_WORDS * bound) }
    ensures reason { IfErr result (λ error. IsReason bytes.now end error) }
    ensures accepts { IsStream bytes.now → HasKeysBelow bytes.now end
        → IfErr result (λ error. error ≡ errors.Memory) }
{
    let (header, keys) = check_stream(bytes, end)?;
    let mut words = BitSet::vec_with_room(alloc, CONTAINER_WORDS * keys)?;
    read_containers(bytes, &header, &mut words)?;
    Ok(BitSet::from_vec(words)?)
}

/// The set whose members a stream has, as `read_below` reads it, if they are below `MAX_EID`. Untrusted bytes are
/// better read with a bound.
pub fn read(alloc: Global, bytes: &[u8]) -> Result<BitSet, ReadError>
    ensures stream { OnOk result (IsStream bytes.now) }
    ensures keys_below { OnOk result (HasKeysBelow bytes.now KEYS) }
    ensures members { IfOk result (λ set. (i : ℕ) → has set i ≡ holds bytes.now i) }
    ensures least_bound { IfOk result (λ set. (bound : ℕ) → HasKeysBelow bytes.now bound
        → slice_len set 0 ≤ CONTAINER_WORDS * bound) }
    ensures reason { IfErr result (λ error. IsReason bytes.now KEYS error) }
    ensures accepts { IsStream bytes.now → HasKeysBelow bytes.now KEYS
        → IfErr result (λ error. error ≡ errors.Memory) }
{
    read_below(alloc, bytes, KEYS)
}
