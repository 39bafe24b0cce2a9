//! Sparse sets as streams in the portable Roaring format.
#![tactic(auto)]

ghost use Rattle.std.specs.Prelude.{◌≡◌, ◌≢◌, ◌⊎◌, ℕ, ◌<◌, ◌≤◌, List, drop, length, min, take};
ghost use Rattle.hibitset_roaring.specs.Format.{holds, HasKeysBelow, IsCanonicalStream, IsPlainStream, IsStream};
ghost use Rattle.hibitset_roaring.specs.declared.header.TheConstants.{KEYS};
ghost use Rattle.hibitset_sparse.specs.SparseBitSet.{has as sparse_has};
ghost use Rattle.hibitset_c.specs.Roaring.{HasFault};
ghost use Rattle.hibitset_c.specs.Sparse.{has, IsSame};
ghost use Rattle.hibitset_c.specs.declared.status.TheConstants.{OK, NO_MEMORY, SHORT_BUFFER, MALFORMED};

use crate::fault::number;
use crate::set_or_seat::SetOrSeat;
use crate::sparse_set::SparseSet;
use crate::status::{MALFORMED, NO_MEMORY, OK, SHORT_BUFFER};
use hibitset_roaring::{KEYS, ReadError, read_sparse_below, serialized_len_like, write_like};
use hibitset_sparse::SparseBitSet;
use std::alloc::Global;

// How many bytes the stream of a sparse set takes.
fn stream_len(members: &SparseBitSet) -> usize
    ensures { (bytes : List ℕ) → IsPlainStream (sparse_has members.now) bytes
        → length bytes ≡ result }
{
    serialized_len_like(members)
}

/// Returns how many bytes the stream of a set takes that `hibitset_sparse_roaring_write` writes.
#[unsafe(no_mangle)]
pub extern "C" fn hibitset_sparse_roaring_len(alloc: Global, set: &mut SparseSet) -> usize
    ensures answer { (bytes : List ℕ) → IsPlainStream (has set.old) bytes → length bytes ≡ result }
    ensures same { IsSame set.old set.new }
{
    if !set.made {
        let none = SparseBitSet::new(alloc);
        return stream_len(&none);
    }
    let SetOrSeat::Sparse(members) = set.handle.as_mut() else {
        unreachable!()
    };
    stream_len(&*members)
}

// Writes the one stream without runs of a set's members into the first bytes of a buffer, and leaves in `taken` how
// many bytes that are. A buffer with fewer bytes is left as it was.
fn write_stream(alloc: Global, members: &SparseBitSet, buffer: &mut [u8], taken: &mut usize) -> u32
    ensures stream { result ≡ OK → IsCanonicalStream (sparse_has members.now)
        (take taken.new buffer.new) }
    ensures keys_below { result ≡ OK → HasKeysBelow (take taken.new buffer.new) KEYS }
    ensures in_buffer { result ≡ OK → taken.new ≤ length buffer.old }
    ensures rest { result ≡ OK → drop taken.new buffer.new ≡ drop taken.new buffer.old }
    ensures len { result ≢ NO_MEMORY → (bytes : List ℕ)
        → IsPlainStream (sparse_has members.now) bytes → length bytes ≡ taken.new }
    ensures short_buffer { result ≡ SHORT_BUFFER → length buffer.old < taken.new }
    ensures err { result ≢ OK → buffer.new ≡ buffer.old }
    ensures no_memory { result ≡ NO_MEMORY → taken.new ≡ taken.old }
    ensures status { (result ≡ OK) ⊎ (result ≡ NO_MEMORY) ⊎ (result ≡ SHORT_BUFFER) }
{
    let Ok(stream) = write_like(alloc, members) else {
        return NO_MEMORY;
    };
    let len = stream.len();
    *taken = len;
    if len > buffer.len() {
        return SHORT_BUFFER;
    }
    buffer[..len].copy_from_slice(&stream);
    OK
}

/// Writes the one stream without runs of a set's members into the first bytes of a buffer, and leaves in `taken` how
/// many bytes that are. A buffer with fewer bytes is left as it was.
#[unsafe(no_mangle)]
pub extern "C" fn hibitset_sparse_roaring_write(
    alloc: Global,
    set: &mut SparseSet,
    buffer: &mut [u8],
    taken: &mut usize,
) -> u32
    ensures stream { result ≡ OK → IsCanonicalStream (has set.old) (take taken.new buffer.new) }
    ensures keys_below { result ≡ OK → HasKeysBelow (take taken.new buffer.new) KEYS }
    ensures in_buffer { result ≡ OK → taken.new ≤ length buffer.old }
    ensures rest { result ≡ OK → drop taken.new buffer.new ≡ drop taken.new buffer.old }
    ensures len { result ≢ NO_MEMORY → (bytes : List ℕ) → IsPlainStream (has set.old) bytes
        → length bytes ≡ taken.new }
    ensures short_buffer { result ≡ SHORT_BUFFER → length buffer.old < taken.new }
    ensures err { result ≢ OK → buffer.new ≡ buffer.old }
    ensures no_memory { result ≡ NO_MEMORY → taken.new ≡ taken.old }
    ensures same { IsSame set.old set.new }
    ensures status { (result ≡ OK) ⊎ (result ≡ NO_MEMORY) ⊎ (result ≡ SHORT_BUFFER) }
{
    if !set.made {
        let none = SparseBitSet::new(alloc);
        return write_stream(alloc, &none, buffer, taken);
    }
    let SetOrSeat::Sparse(members) = set.handle.as_mut() else {
        unreachable!()
    };
    write_stream(alloc, &*members, buffer, taken)
}

/// Makes it the set whose members a stream has, if each key, the high 16 bits of a member, is below `end` and `KEYS`.
/// The stream is all of the bytes. If these are no such stream, leaves the number of a fault in `fault` and its
/// position in `at`.
#[unsafe(no_mangle)]
pub extern "C" fn hibitset_sparse_roaring_read_below(
    alloc: Global,
    set: &mut SparseSet,
    bytes: &[u8],
    end: u32,
    fault: &mut u32,
    at: &mut usize,
) -> u32
    ensures stream { result ≡ OK → IsStream bytes.now }
    ensures keys_below { result ≡ OK → HasKeysBelow bytes.now (min end KEYS) }
    ensures members { result ≡ OK → (i : ℕ) → has set.new i ≡ holds bytes.now i }
    ensures accepts { IsStream bytes.now → HasKeysBelow bytes.now (min end KEYS)
        → result ≢ MALFORMED }
    ensures fault { result ≡ MALFORMED → HasFault bytes.now (min end KEYS) fault.new at.new }
    ensures out_kept { result ≢ MALFORMED → (fault.new ≡ fault.old) × (at.new ≡ at.old) }
    ensures err { result ≢ OK → (i : ℕ) → has set.new i ≡ has set.old i }
    ensures status { (result ≡ OK) ⊎ (result ≡ NO_MEMORY) ⊎ (result ≡ MALFORMED) }
{
    match read_sparse_below(alloc, bytes, (end as usize).min(KEYS)) {
        Ok(made) => {
            if set.replace(alloc, made) {
                OK
            } else {
                NO_MEMORY
            }
        }
        Err(ReadError::Memory) => NO_MEMORY,
        Err(ReadError::Malformed(malformed)) => {
            *fault = number(malformed.fault);
            *at = malformed.at;
            MALFORMED
        }
    }
}

/// Makes it the set whose members a stream has, as `hibitset_sparse_roaring_read_below` does, if they are in range.
#[unsafe(no_mangle)]
pub extern "C" fn hibitset_sparse_roaring_read(
    alloc: Global,
    set: &mut SparseSet,
    bytes: &[u8],
    fault: &mut u32,
    at: &mut usize,
) -> u32
    ensures stream { result ≡ OK → IsStream bytes.now }
    ensures keys_below { result ≡ OK → HasKeysBelow bytes.now KEYS }
    ensures members { result ≡ OK → (i : ℕ) → has set.new i ≡ holds bytes.now i }
    ensures accepts { IsStream bytes.now → HasKeysBelow bytes.now KEYS → result ≢ MALFORMED }
    ensures fault { result ≡ MALFORMED → HasFault bytes.now KEYS fault.new at.new }
    ensures out_kept { result ≢ MALFORMED → (fault.new ≡ fault.old) × (at.new ≡ at.old) }
    ensures err { result ≢ OK → (i : ℕ) → has set.new i ≡ has set.old i }
    ensures status { (result ≡ OK) ⊎ (result ≡ NO_MEMORY) ⊎ (result ≡ MALFORMED) }
{
    hibitset_sparse_roaring_read_below(alloc, set, bytes, KEYS as u32, fault, at)
}
