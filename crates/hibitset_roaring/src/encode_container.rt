//! Containers written as arrays, as bits or as runs.

ghost use Rattle.std.specs.Prelude.{◌≡◌, ℕ, ◌+◌, ◌-◌, ◌*◌, ◌/◌, ◌<◌, ◌≤◌, true, get_or, length};
ghost use Rattle.hibitset.specs.WordBits.{stands_in};
ghost use Rattle.hibitset_roaring.specs.Numbers.{u64_at, ones_in};
ghost use Rattle.hibitset_roaring.specs.Format.{in_bits};
ghost use Rattle.hibitset_roaring.specs.Streams.{SameBefore, flat_bytes, container_bytes, IsWritten, IsKindWritten};
ghost use Rattle.hibitset_roaring.specs.Words.{ones_under, AreSummaries};
ghost use Rattle.hibitset_roaring.specs.Runs.{members_under, count_of_runs, are_runs_shorter};

use crate::array::write_array;
use crate::layout::{CONTAINER_WORDS, MAX_ARRAY_LEN, flat_size};
use crate::number::put_u64;
use crate::runs::{are_shorter, write_runs};

// How many bytes a container takes, by its numbers of members and of runs.
#[inline]
pub(crate) fn container_size(count: usize, runs: usize) -> usize
    requires { count ≤ 65536 }
    ensures size { result ≡ container_bytes count runs }
    ensures max { result ≤ 8192 }
{
    if are_shorter(runs, count) {
        2 + 4 * runs
    } else {
        flat_size(count)
    }
}

// Writes words from one on, as many as `count`.
fn write_words_of(out: &mut [u8], at: usize, words: &[usize], base: usize, count: usize)
    requires long_enough { at + 8 * count ≤ length out.old }
    requires within { 0 < count → base + count ≤ length words.now }
    ensures before { SameBefore at out.old out.new }
    ensures here { (q : ℕ) → q < count
        → u64_at out.new (at + 8 * q) ≡ get_or words.now (base + q) 0 }
{
    'words: for j in 0..count {
        put_u64(out, at + 8 * j, words[base + j]);
    }
}

// Writes zero words.
fn write_zeros(out: &mut [u8], at: usize, count: usize)
    requires { at + 8 * count ≤ length out.old }
    ensures before { SameBefore at out.old out.new }
    ensures here { (q : ℕ) → q < count → u64_at out.new (at + 8 * q) ≡ 0 }
{
    'zeros: for j in 0..count {
        put_u64(out, at + 8 * j, 0);
    }
}

// Writes the members with these high bits as bits. Words past the end are 0.
fn write_bits(out: &mut [u8], at: usize, words: &[usize], key: usize)
    requires long_enough { at + 8192 ≤ length out.old }
    requires key { key < 65536 }
    ensures before { SameBefore at out.old out.new }
    ensures ones { ones_in out.new at 1024 ≡ ones_under words.now key }
    ensures members { (v : ℕ) → v < 65536
        → in_bits out.new at v ≡ stands_in words.now (65536 * key + v) }
{
    let base = CONTAINER_WORDS * key;
    let count = words.len().saturating_sub(base).min(CONTAINER_WORDS);
    write_words_of(out, at, words, base, count);
    write_zeros(out, at + 8 * count, CONTAINER_WORDS - count);
}

// Writes a container that is no runs.
fn write_flat(out: &mut [u8], at: usize, words: &[usize], above: &[usize], key: usize, count: usize)
    requires long_enough { at + flat_bytes count ≤ length out.old }
    requires key { key < 65536 }
    requires count { count ≡ ones_under words.now key }
    requires summaries { AreSummaries words.now above.now }
    ensures before { SameBefore at out.old out.new }
    ensures written { IsWritten words.now out.new at key count }
{
    if count <= MAX_ARRAY_LEN {
        write_array(out, at, words, above, key);
    } else {
        write_bits(out, at, words, key);
    }
}

// Writes a container, as runs if these are shorter.
pub(crate) fn write_kind(
    out: &mut [u8],
    at: usize,
    words: &[usize],
    above: &[usize],
    key: usize,
    count: usize,
    runs: usize,
)
    requires long_enough { at + container_bytes count runs ≤ length out.old }
    requires key { key < 65536 }
    requires count { count ≡ ones_under words.now key }
    requires summaries { AreSummaries words.now above.now }
    requires runs { are_runs_shorter runs count ≡ true
        → runs ≡ count_of_runs (members_under (stands_in words.now) key) }
    ensures before { SameBefore at out.old out.new }
    ensures written { IsKindWritten words.now out.new at key count runs }
{
    if are_shorter(runs, count) {
        write_runs(out, at, words, above, key, runs);
    } else {
        write_flat(out, at, words, above, key, count);
    }
}
