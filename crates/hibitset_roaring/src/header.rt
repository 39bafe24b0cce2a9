//! The header of a stream.

ghost use Rattle.std.specs.Prelude.{◌≡◌, ℕ, ◌+◌, ◌*◌, ◌/◌, ◌<◌, ◌≤◌, ◌⊎◌, true, false, not, ◌||◌, nat_le, if◌then◌else◌, length, IfOk, IfErr, OnOk};
ghost use Rattle.hibitset_roaring.specs.Numbers.{u16_at, u32_at};
ghost use Rattle.hibitset_roaring.specs.Format.{has_runs, container_count, keys_at, has_offsets, offsets_at, first_at, key_of, cardinality_of, is_run, container_at, HasKeysBelow};
ghost use Rattle.hibitset_roaring.specs.Faults.{IsFault};
ghost use Rattle.hibitset_roaring.specs.Headers.{IsHeader};

use crate::error::{Fault, Malformed};
use crate::number::{read_u16, read_u32};

/// The cookie of a stream without runs.
pub(crate) const NO_RUNS: usize = 12346;

/// The low half of the cookie of a stream with runs.
pub(crate) const RUNS: usize = 12347;

// A stream with runs has offsets if it has at least this many containers.
pub(crate) const LEAST_WITH_OFFSETS: usize = 4;

// How many containers there are at most, and how many numbers each has at most.
pub(crate) const CONTAINER_NUMBERS: usize = 65536;

/// How many keys the indices of a set have: those below `MAX_EID`, divided by 65,536.
pub const KEYS: usize = 16384;

/// What the header says, and where its parts are.
#[derive(Clone, Copy)]
pub(crate) struct Header {
    pub(crate) runs: bool,
    pub(crate) count: usize,
    pub(crate) keys: usize,
    pub(crate) offsets: bool,
    pub(crate) first: usize,
}

// Whether containers may be runs, and how many there are.
fn read_count(bytes: &[u8]) -> Result<(bool, usize), Malformed>
    ensures cookie { OnOk result ((u32_at bytes.now 0 ≡ 12346) ⊎ (u16_at bytes.now 0 ≡ 12347)) }
    ensures runs { IfOk result (λ found. found.0 ≡ has_runs bytes.now) }
    ensures count { IfOk result (λ found. found.1 ≡ container_count bytes.now) }
    ensures max { IfOk result (λ found. found.1 ≤ 65536) }
    ensures fault { IfErr result (λ m. (end : ℕ) → IsFault bytes.now end m.fault m.at) }
{
    if bytes.len() < 8 {
        return Err(Malformed {
            fault: Fault::TooShort,
            at: 0,
        });
    }
    let low = read_u16(bytes, 0);
    let high = read_u16(bytes, 2);
    if low == RUNS {
        return Ok((true, high + 1));
    }
    if low != NO_RUNS || high != 0 {
        return Err(Malformed {
            fault: Fault::BadCookie,
            at: 0,
        });
    }
    let count = read_u32(bytes, 4);
    if count > CONTAINER_NUMBERS {
        return Err(Malformed {
            fault: Fault::TooManyContainers,
            at: 4,
        });
    }
    Ok((false, count))
}

// Where the keys begin.
pub(crate) fn keys_after(runs: bool, count: usize) -> usize
    requires { count ≤ 65536 }
    ensures { result ≡ (if runs then 4 + (count + 7) / 8 else 8) }
{
    if runs { 4 + (count + 7) / 8 } else { 8 }
}

// Whether there are offsets.
pub(crate) fn offsets_are(runs: bool, count: usize) -> bool
    ensures { result ≡ (not runs || nat_le 4 count) }
{
    !runs || count >= LEAST_WITH_OFFSETS
}

// Where the first container begins.
pub(crate) fn first_after(offsets: bool, keys: usize, count: usize) -> usize
    requires count { count ≤ 65536 }
    requires keys { keys ≤ 65536 }
    ensures { result ≡ (if offsets then keys + 4 * count + 4 * count else keys + 4 * count) }
{
    if offsets {
        keys + 8 * count
    } else {
        keys + 4 * count
    }
}

impl Header {
    // The header, which lies within the bytes.
    pub(crate) fn read(bytes: &[u8]) -> Result<Header, Malformed>
        ensures header { IfOk result (λ header. IsHeader bytes.now header) }
        ensures fault { IfErr result (λ m. (end : ℕ) → IsFault bytes.now end m.fault m.at) }
    {
        let (runs, count) = read_count(bytes)?;
        let keys = keys_after(runs, count);
        let offsets = offsets_are(runs, count);
        let first = first_after(offsets, keys, count);
        if bytes.len() < first {
            return Err(Malformed {
                fault: Fault::TooShort,
                at: 0,
            });
        }
        Ok(Header {
            runs,
            count,
            keys,
            offsets,
            first,
        })
    }

    // The key of a container.
    #[inline]
    #[tactic(auto, unfolding(crate::specs::Format::key_of))]
    pub(crate) fn key(&self, bytes: &[u8], k: usize) -> usize
        requires header { IsHeader bytes.now self.now }
        requires within { k < self.now.count }
        ensures key { result ≡ key_of bytes.now k }
        ensures in_range { result < 65536 }
    {
        read_u16(bytes, self.keys + 4 * k)
    }

    // The number of members that the header gives for a container.
    #[inline]
    #[tactic(auto, unfolding(crate::specs::Format::cardinality_of))]
    pub(crate) fn cardinality(&self, bytes: &[u8], k: usize) -> usize
        requires header { IsHeader bytes.now self.now }
        requires within { k < self.now.count }
        ensures cardinality { result ≡ cardinality_of bytes.now k }
        ensures nonzero { 0 < result }
        ensures max { result ≤ 65536 }
    {
        read_u16(bytes, self.keys + 4 * k + 2) + 1
    }

    // Whether a container is made of runs.
    #[inline]
    #[tactic(auto, unfolding(crate::specs::Format::is_run))]
    pub(crate) fn is_run(&self, bytes: &[u8], k: usize) -> bool
        requires header { IsHeader bytes.now self.now }
        requires within { k < self.now.count }
        ensures { result ≡ is_run bytes.now k }
    {
        self.runs && bytes[4 + k / 8] >> (k % 8) & 1 == 1
    }

    // Checks that the offset of a container, if there are offsets, is where it begins.
    #[inline]
    #[tactic(auto, unfolding(crate::specs::Format::offsets_at))]
    pub(crate) fn check_offset(&self, bytes: &[u8], k: usize, at: usize) -> Result<(), Malformed>
        requires header { IsHeader bytes.now self.now }
        requires within { k < self.now.count }
        requires at { at ≡ container_at bytes.now k }
        ensures ok { OnOk result (has_offsets bytes.now ≡ true
            → u32_at bytes.now (offsets_at bytes.now + 4 * k) ≡ at) }
        ensures fault { IfErr result (λ m. (end : ℕ) → IsFault bytes.now end m.fault m.at) }
    {
        if !self.offsets {
            return Ok(());
        }
        let offset = self.keys + 4 * self.count + 4 * k;
        if read_u32(bytes, offset) == at {
            Ok(())
        } else {
            Err(Malformed {
                fault: Fault::WrongOffset,
                at: offset,
            })
        }
    }

    // Checks that the keys ascend and lie below `end`, and returns the number after the last.
    pub(crate) fn check_keys(&self, bytes: &[u8], end: usize) -> Result<usize, Malformed>
        requires header { IsHeader bytes.now self.now }
        ensures ascending { OnOk result ((k : ℕ) → k + 1 < container_count bytes.now
            → key_of bytes.now k < key_of bytes.now (k + 1)) }
        ensures keys_below { IfOk result (λ next. HasKeysBelow bytes.now next) }
        ensures in_range { IfOk result (λ next. next ≤ end) }
        ensures least_bound { IfOk result (λ next. (bound : ℕ) → HasKeysBelow bytes.now bound
            → next ≤ bound) }
        ensures fault { IfErr result (λ m. IsFault bytes.now end m.fault m.at) }
    {
        let mut next = 0;
        'keys: for k in 0..self.count {
            let key = self.key(bytes, k);
            if key < next {
                return Err(Malformed {
                    fault: Fault::KeysNotAscending,
                    at: self.keys + 4 * k,
                });
            }
            if key >= end {
                return Err(Malformed {
                    fault: Fault::OutOfRange,
                    at: self.keys + 4 * k,
                });
            }
            next = key + 1;
        }
        Ok(next)
    }
}
