//! Runs of consecutive members: how many a container has, and how they are written.

ghost use Rattle.std.specs.Prelude.{◌≡◌, ℕ, ◌+◌, ◌*◌, ◌<◌, ◌≤◌, true, false, length};
ghost use Rattle.hibitset.specs.WordBits.{stands_in};
ghost use Rattle.hibitset_roaring.specs.Numbers.{u16_at};
ghost use Rattle.hibitset_roaring.specs.Streams.{SameBefore, IsRunCount, AreRunsOf};
ghost use Rattle.hibitset_roaring.specs.Words.{AreSummaries};
ghost use Rattle.hibitset_roaring.specs.Runs.{members_under, count_of_runs, are_runs_shorter};

use crate::header::CONTAINER_NUMBERS;
use crate::layout::{CONTAINER_WORDS, MAX_ARRAY_LEN};
use crate::nonzero_words::next_slot;
use crate::number::put_u16;
use hibitset_base::bits::{next_bit, word_or_zero};

// From this many runs on, bits take no more bytes.
const RUNS_OF_BITS: usize = 2048;

// Returns whether `runs` runs take fewer bytes than an array or bits of their `count` members.
#[inline]
pub(crate) fn are_shorter(runs: usize, count: usize) -> bool
    ensures shorter { result ≡ are_runs_shorter runs count }
    ensures runs_max { result ≡ true → runs < 2048 }
{
    if count <= MAX_ARRAY_LEN {
        runs < (count + 1) / 2
    } else {
        runs < RUNS_OF_BITS
    }
}

// The next number of a container, from one on, that is a member; or 65,536.
fn next_member(words: &[usize], above: &[usize], key: usize, from: usize) -> usize
    requires key { key < 65536 }
    requires summaries { AreSummaries words.now above.now }
    requires from { from ≤ 65536 }
    ensures order { from ≤ result }
    ensures within { result ≤ 65536 }
    ensures none_before { (v : ℕ) → from ≤ v → v < result
        → stands_in words.now (65536 * key + v) ≡ false }
    ensures found { result < 65536 → stands_in words.now (65536 * key + result) ≡ true }
{
    let mut number = from;
    'numbers: while number < CONTAINER_NUMBERS {
        let slot = number / 64;
        let bit = next_bit(
            word_or_zero(words, CONTAINER_WORDS * key + slot),
            number % 64,
        );
        if bit < 64 {
            return 64 * slot + bit;
        }
        number = 64 * next_slot(above, key, slot + 1);
    }
    number
}

// The next number of a container, from one on, that is no member; or 65,536.
fn next_gap(words: &[usize], key: usize, from: usize) -> usize
    requires key { key < 65536 }
    requires from { from ≤ 65536 }
    ensures order { from ≤ result }
    ensures within { result ≤ 65536 }
    ensures all { (v : ℕ) → from ≤ v → v < result
        → stands_in words.now (65536 * key + v) ≡ true }
    ensures found { result < 65536 → stands_in words.now (65536 * key + result) ≡ false }
{
    let mut number = from;
    'numbers: while number < CONTAINER_NUMBERS {
        let slot = number / 64;
        let bit = next_bit(
            !word_or_zero(words, CONTAINER_WORDS * key + slot),
            number % 64,
        );
        if bit < 64 {
            return 64 * slot + bit;
        }
        number = 64 * (slot + 1);
    }
    number
}

// How many runs the members with these high bits form, `count` of them. The count ends where runs are no shorter.
pub(crate) fn count_runs(words: &[usize], above: &[usize], key: usize, count: usize) -> usize
    requires key { key < 65536 }
    requires summaries { AreSummaries words.now above.now }
    ensures { IsRunCount words.now key count result }
{
    let mut runs = 0;
    let mut start = next_member(words, above, key, 0);
    'starts: while start < CONTAINER_NUMBERS {
        let shorter = are_shorter(runs, count);
        if !shorter {
            return runs;
        }
        let end = next_gap(words, key, start);
        start = next_member(words, above, key, end);
        runs += 1;
    }
    runs
}

// Writes the run of the numbers from one on before another.
fn put_run(out: &mut [u8], at: usize, start: usize, end: usize)
    requires long_enough { at + 4 ≤ length out.old }
    requires order { start < end }
    requires within { end ≤ 65536 }
    ensures before { SameBefore at out.old out.new }
    ensures first { u16_at out.new at ≡ start }
    ensures ends_at { start + u16_at out.new (at + 2) + 1 ≡ end }
{
    put_u16(out, at, start);
    put_u16(out, at + 2, end - start - 1);
}

// Writes the runs of the members with these high bits.
pub(crate) fn write_runs(
    out: &mut [u8],
    at: usize,
    words: &[usize],
    above: &[usize],
    key: usize,
    runs: usize,
)
    requires long_enough { at + (2 + 4 * runs) ≤ length out.old }
    requires key { key < 65536 }
    requires summaries { AreSummaries words.now above.now }
    requires runs { runs ≡ count_of_runs (members_under (stands_in words.now) key) }
    requires in_range { runs < 65536 }
    ensures before { SameBefore at out.old out.new }
    ensures written { AreRunsOf words.now out.new at key runs }
{
    put_u16(out, at, runs);
    let mut done = 0;
    let mut start = next_member(words, above, key, 0);
    'starts: while start < CONTAINER_NUMBERS {
        let end = next_gap(words, key, start);
        put_run(out, at + 2 + 4 * done, start, end);
        start = next_member(words, above, key, end);
        done += 1;
    }
}
