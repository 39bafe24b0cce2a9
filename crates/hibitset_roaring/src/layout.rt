//! Where the containers of a stream lie.

ghost use Rattle.std.specs.Prelude.{◌≡◌, ℕ, ◌+◌, ◌*◌, ◌^◌, ◌<◌, ◌≤◌, true, false, length, IfOk, IfErr, OnOk};
ghost use Rattle.hibitset_roaring.specs.Numbers.{u32_at};
ghost use Rattle.hibitset_roaring.specs.Format.{container_count, has_offsets, offsets_at, is_run, container_at, size};
ghost use Rattle.hibitset_roaring.specs.Faults.{IsFault};
ghost use Rattle.hibitset_roaring.specs.Headers.{IsHeader};

use crate::error::{Fault, Malformed};
use crate::header::Header;
use crate::number::read_u16;

/// How many members an array has at most.
pub(crate) const MAX_ARRAY_LEN: usize = 4096;

/// How many words the bits of a container are.
pub const CONTAINER_WORDS: usize = 1024;

// How many bytes a container takes that is no run.
#[inline]
pub(crate) fn flat_size(cardinality: usize) -> usize
    requires { cardinality ≤ 65536 }
    ensures array_size { cardinality ≤ 4096 → result ≡ 2 * cardinality }
    ensures large { 4096 < cardinality → result ≡ 8192 }
{
    if cardinality <= MAX_ARRAY_LEN {
        2 * cardinality
    } else {
        8 * CONTAINER_WORDS
    }
}

impl Header {
    // How many bytes a container takes. If it is runs, their number lies within the bytes.
    pub(crate) fn size(&self, bytes: &[u8], k: usize, at: usize) -> usize
        requires header { IsHeader bytes.now self.now }
        requires which { k < self.now.count }
        requires within { is_run bytes.now k ≡ true → at + 2 ≤ length bytes.now }
        ensures size { result ≡ size bytes.now k at }
        ensures fits { result < 2 ^ 20 }
    {
        if self.is_run(bytes, k) {
            return 2 + 4 * read_u16(bytes, at);
        }
        flat_size(self.cardinality(bytes, k))
    }

    // Returns whether a container lies within the bytes.
    fn is_within(&self, bytes: &[u8], k: usize, at: usize) -> bool
        requires header { IsHeader bytes.now self.now }
        requires which { k < self.now.count }
        requires within { at ≤ length bytes.now }
        ensures within { result ≡ true → at + size bytes.now k at ≤ length bytes.now }
        ensures cut { result ≡ false → length bytes.now < at + size bytes.now k at }
    {
        let left = bytes.len() - at;
        if left < 2 && self.is_run(bytes, k) {
            return false;
        }
        self.size(bytes, k, at) <= left
    }

    // Checks that a container begins where its offset says and lies within the bytes, and returns where it ends.
    fn check_container(&self, bytes: &[u8], k: usize, at: usize) -> Result<usize, Malformed>
        requires header { IsHeader bytes.now self.now }
        requires which { k < self.now.count }
        requires at { at ≡ container_at bytes.now k }
        requires within { at ≤ length bytes.now }
        ensures offset { OnOk result (has_offsets bytes.now ≡ true
            → u32_at bytes.now (offsets_at bytes.now + 4 * k) ≡ container_at bytes.now k) }
        ensures end { IfOk result (λ end. end ≡ container_at bytes.now (k + 1)) }
        ensures within { IfOk result (λ end. end ≤ length bytes.now) }
        ensures fault { IfErr result (λ m. (end : ℕ) → IsFault bytes.now end m.fault m.at) }
    {
        self.check_offset(bytes, k, at)?;
        if !self.is_within(bytes, k, at) {
            return Err(Malformed {
                fault: Fault::TooShort,
                at,
            });
        }
        Ok(at + self.size(bytes, k, at))
    }

    // Checks that the containers begin where the offsets say, and that the bytes end with the last.
    pub(crate) fn check_layout(&self, bytes: &[u8]) -> Result<(), Malformed>
        requires { IsHeader bytes.now self.now }
        ensures offsets { OnOk result (has_offsets bytes.now ≡ true → (k : ℕ)
            → k < container_count bytes.now
            → u32_at bytes.now (offsets_at bytes.now + 4 * k) ≡ container_at bytes.now k) }
        ensures whole { OnOk result (container_at bytes.now (container_count bytes.now)
            ≡ length bytes.now) }
        ensures fault { IfErr result (λ m. (end : ℕ) → IsFault bytes.now end m.fault m.at) }
    {
        let mut at = self.first;
        'containers: for k in 0..self.count {
            at = self.check_container(bytes, k, at)?;
        }
        if at < bytes.len() {
            return Err(Malformed {
                fault: Fault::TooLong,
                at,
            });
        }
        Ok(())
    }
}
