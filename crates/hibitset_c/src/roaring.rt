//! Sets as streams in the portable Roaring format.
#![tactic(auto)]

ghost use Rattle.std.specs.Prelude.{◌≡◌, ◌≢◌, ◌⊎◌, ℕ, ◌*◌, ◌<◌, ◌≤◌, List, drop, length, min, take};
ghost use Rattle.hibitset_roaring.specs.Format.{holds, HasKeysBelow, IsCanonicalStream, IsPlainStream, IsStream};
ghost use Rattle.hibitset_roaring.specs.declared.header.TheConstants.{KEYS};
ghost use Rattle.hibitset_roaring.specs.declared.layout.TheConstants.{CONTAINER_WORDS};
ghost use Rattle.hibitset_c.specs.LentSet.{has as other_has};
ghost use Rattle.hibitset_c.specs.Roaring.{HasFault};
ghost use Rattle.hibitset_c.specs.Set.{has, layer0_len};
ghost use Rattle.hibitset_c.specs.declared.status.TheConstants.{OK, NO_MEMORY, SHORT_BUFFER, MALFORMED};

use crate::fault::number;
use crate::lent_set::LentSet;
use crate::set::Set;
use crate::status::{MALFORMED, NO_MEMORY, OK, SHORT_BUFFER};
use hibitset_roaring::{KEYS, ReadError, len_of_words, read_below, write_words};
use std::alloc::Global;

/// Returns how many bytes the stream of a set takes that `hibitset_roaring_write` writes.
#[unsafe(no_mangle)]
pub extern "C" fn hibitset_roaring_len(set: &LentSet<'_>) -> usize
    ensures { (bytes : List ℕ) → IsPlainStream (other_has set.now) bytes → length bytes ≡ result }
{
    len_of_words(set.layer0, set.layer1)
}

/// Writes the one stream without runs of a set's members into the first bytes of a buffer, and leaves in `taken` how
/// many bytes that are. A buffer with fewer bytes is left as it was.
#[unsafe(no_mangle)]
pub extern "C" fn hibitset_roaring_write(
    alloc: Global,
    set: &LentSet<'_>,
    buffer: &mut [u8],
    taken: &mut usize,
) -> u32
    ensures stream { result ≡ OK → IsCanonicalStream (other_has set.now)
        (take taken.new buffer.new) }
    ensures keys_below { result ≡ OK → HasKeysBelow (take taken.new buffer.new) KEYS }
    ensures in_buffer { result ≡ OK → taken.new ≤ length buffer.old }
    ensures rest { result ≡ OK → drop taken.new buffer.new ≡ drop taken.new buffer.old }
    ensures len { result ≢ NO_MEMORY → (bytes : List ℕ) → IsPlainStream (other_has set.now) bytes
        → length bytes ≡ taken.new }
    ensures short_buffer { result ≡ SHORT_BUFFER → length buffer.old < taken.new }
    ensures err { result ≢ OK → buffer.new ≡ buffer.old }
    ensures no_memory { result ≡ NO_MEMORY → taken.new ≡ taken.old }
    ensures status { (result ≡ OK) ⊎ (result ≡ NO_MEMORY) ⊎ (result ≡ SHORT_BUFFER) }
{
    let room = buffer.len();
    let Ok(len) = write_words(alloc, set.layer0, set.layer1, buffer) else {
        return NO_MEMORY;
    };
    *taken = len;
    if len <= room { OK } else { SHORT_BUFFER }
}

/// Makes it the set whose members a stream has, if each key, the high 16 bits of a member, is below `end` and `KEYS`.
/// The stream is all of the bytes. If these are no such stream, leaves the number of a fault in `fault` and its
/// position in `at`.
#[unsafe(no_mangle)]
pub extern "C" fn hibitset_roaring_read_below(
    alloc: Global,
    set: &mut Set,
    bytes: &[u8],
    end: u32,
    fault: &mut u32,
    at: &mut usize,
) -> u32
    ensures stream { result ≡ OK → IsStream bytes.now }
    ensures keys_below { result ≡ OK → HasKeysBelow bytes.now (min end KEYS) }
    ensures members { result ≡ OK → (i : ℕ) → has set.new i ≡ holds bytes.now i }
    ensures length { result ≡ OK → layer0_len set.new ≤ CONTAINER_WORDS * min end KEYS }
    ensures least_bound { result ≡ OK → (bound : ℕ) → HasKeysBelow bytes.now bound
        → layer0_len set.new ≤ CONTAINER_WORDS * bound }
    ensures accepts { IsStream bytes.now → HasKeysBelow bytes.now (min end KEYS)
        → result ≢ MALFORMED }
    ensures fault { result ≡ MALFORMED → HasFault bytes.now (min end KEYS) fault.new at.new }
    ensures out_kept { result ≢ MALFORMED → (fault.new ≡ fault.old) × (at.new ≡ at.old) }
    ensures err { result ≢ OK → (i : ℕ) → has set.new i ≡ has set.old i }
    ensures err_len { result ≢ OK → layer0_len set.new ≡ layer0_len set.old }
    ensures status { (result ≡ OK) ⊎ (result ≡ NO_MEMORY) ⊎ (result ≡ MALFORMED) }
{
    match read_below(alloc, bytes, (end as usize).min(KEYS)) {
        Ok(made) => {
            if set.replace(alloc, made) {
                OK
            } else {
                NO_MEMORY
            }
        }
        Err(ReadError::Memory) => NO_MEMORY,
        Err(ReadError::Malformed(malformed)) => {
            *fault = number(malformed.fault);
            *at = malformed.at;
            MALFORMED
        }
    }
}

/// Makes it the set whose members a stream has, as `hibitset_roaring_read_below` does, if they are in range.
#[unsafe(no_mangle)]
pub extern "C" fn hibitset_roaring_read(
    alloc: Global,
    set: &mut Set,
    bytes: &[u8],
    fault: &mut u32,
    at: &mut usize,
) -> u32
    ensures stream { result ≡ OK → IsStream bytes.now }
    ensures keys_below { result ≡ OK → HasKeysBelow bytes.now KEYS }
    ensures members { result ≡ OK → (i : ℕ) → has set.new i ≡ holds bytes.now i }
    ensures least_bound { result ≡ OK → (bound : ℕ) → HasKeysBelow bytes.now bound
        → layer0_len set.new ≤ CONTAINER_WORDS * bound }
    ensures accepts { IsStream bytes.now → HasKeysBelow bytes.now KEYS → result ≢ MALFORMED }
    ensures fault { result ≡ MALFORMED → HasFault bytes.now KEYS fault.new at.new }
    ensures out_kept { result ≢ MALFORMED → (fault.new ≡ fault.old) × (at.new ≡ at.old) }
    ensures err { result ≢ OK → (i : ℕ) → has set.new i ≡ has set.old i }
    ensures err_len { result ≢ OK → layer0_len set.new ≡ layer0_len set.old }
    ensures status { (result ≡ OK) ⊎ (result ≡ NO_MEMORY) ⊎ (result ≡ MALFORMED) }
{
    hibitset_roaring_read_below(alloc, set, bytes, KEYS as u32, fault, at)
}
