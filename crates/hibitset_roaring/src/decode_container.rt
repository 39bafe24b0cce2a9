//! The containers of a stream, read into words.

ghost use Rattle.std.specs.Prelude.{◌≡◌, ◌≢◌, ◌⊎◌, ℕ, ◌+◌, ◌*◌, ◌/◌, ◌%◌, ◌<◌, ◌≤◌, ◌==◌, ◌||◌, ◌&&◌, suc, true, false, get_or, length, IfOk, IfErr, OnOk};
ghost use Rattle.hibitset_roaring.specs.Numbers.{u16_at, u64_at, any_below, ones_in};
ghost use Rattle.hibitset_roaring.specs.Format.{in_array, IsArray, in_bits, run_count, run_first, run_last, run_total, in_runs, AreRuns, cardinality_of, is_run, container_at, in_container, IsContainer};
ghost use Rattle.hibitset_roaring.specs.Words.{Adds};
ghost use Rattle.hibitset_roaring.specs.Faults.{IsLowNumber, IsCloseRun, IsLongRun, IsFault, IsReason};
ghost use Rattle.hibitset_roaring.specs.declared.error.Fault.TheVariants as faults;
ghost use Rattle.hibitset_roaring.specs.Headers.{IsHeader};

use crate::error::{Fault, Malformed, ReadError};
use crate::header::{CONTAINER_NUMBERS, Header};
use crate::layout::{CONTAINER_WORDS, MAX_ARRAY_LEN};
use crate::nonzero_words::CONTAINER_BLOCKS;
use crate::number::{read_u16, read_u64};
use crate::words::{lengthen, set_bit, set_range};
use std::alloc::AllocError;

// How many words lie under a word of layer 1.
const BLOCK_WORDS: usize = 64;

// Adds the members of an array to words.
fn read_array(
    bytes: &[u8],
    at: usize,
    len: usize,
    words: &mut [usize],
    key: usize,
) -> Result<(), Malformed>
    requires within { at + 2 * len ≤ length bytes.now }
    requires key { key < 65536 }
    requires long_enough { 1024 * (key + 1) ≤ length words.old }
    ensures array { OnOk result (IsArray bytes.now at len) }
    ensures members { OnOk result (Adds key (in_array bytes.now at len) words.old words.new) }
    ensures fault { IfErr result (λ m. (m.fault ≡ faults.NotAscending)
        × IsLowNumber bytes.now at len m.at) }
{
    let mut next = 0;
    'numbers: for j in 0..len {
        let low = read_u16(bytes, at + 2 * j);
        if low < next {
            return Err(Malformed {
                fault: Fault::NotAscending,
                at: at + 2 * j,
            });
        }
        set_bit(words, CONTAINER_NUMBERS * key + low);
        next = low + 1;
    }
    Ok(())
}

// Puts words behind others, as many as lie under a word of layer 1, and returns how many bits they have.
fn append_block(bytes: &[u8], at: usize, words: &mut Vec<usize>) -> Result<usize, AllocError>
    requires { at + 512 ≤ length bytes.now }
    ensures length { OnOk result (length words.new.items ≡ length words.old.items + 64) }
    ensures before { OnOk result ((p : ℕ) → p < length words.old.items
        → get_or words.new.items p 0 ≡ get_or words.old.items p 0) }
    ensures here { OnOk result ((q : ℕ) → q < 64
        → get_or words.new.items (length words.old.items + q) 0 ≡ u64_at bytes.now (at + 8 * q)) }
    ensures count { IfOk result (λ ones. (from n : ℕ) → from + 8 * n ≡ at
        → ones_in bytes.now from (n + 64) ≡ ones_in bytes.now from n + ones) }
    ensures max { IfOk result (λ ones. ones ≤ 4096) }
{
    let mut block = [0; BLOCK_WORDS];
    let mut ones = 0;
    'words: for j in 0..BLOCK_WORDS {
        let word = read_u64(bytes, at + 8 * j);
        block[j] = word;
        ones += word.count_ones() as usize;
    }
    words.extend_from_slice(&block)?;
    Ok(ones)
}

// Puts the bits of a container behind words, and returns how many there are.
fn append_bits(bytes: &[u8], at: usize, words: &mut Vec<usize>) -> Result<usize, AllocError>
    requires { at + 8192 ≤ length bytes.now }
    ensures length { OnOk result (length words.new.items ≡ length words.old.items + 1024) }
    ensures members { OnOk result ((key : ℕ) → length words.old.items ≡ 1024 * key
        → Adds key (in_bits bytes.now at) words.old.items words.new.items) }
    ensures count { IfOk result (λ ones. ones ≡ ones_in bytes.now at 1024) }
{
    let mut ones = 0;
    'parts: for block in 0..CONTAINER_BLOCKS {
        ones += append_block(bytes, at + 8 * BLOCK_WORDS * block, words)?;
    }
    Ok(ones)
}

// Adds the members of runs to words, and returns how many there are.
#[tactic(auto, unfolding(crate::specs::Format::run_count, crate::specs::Format::run_first, crate::specs::Format::run_last))]
fn read_runs(bytes: &[u8], at: usize, words: &mut [usize], key: usize) -> Result<usize, Malformed>
    requires within { at + (2 + 4 * run_count bytes.now at) ≤ length bytes.now }
    requires key { key < 65536 }
    requires long_enough { 1024 * (key + 1) ≤ length words.old }
    ensures total { IfOk result (λ total. total ≡ run_total bytes.now at (run_count bytes.now at)) }
    ensures apart { OnOk result ((r : ℕ) → r + 1 < run_count bytes.now at
        → run_last bytes.now at r + 1 < run_first bytes.now at (r + 1)) }
    ensures inside { OnOk result ((r : ℕ) → r < run_count bytes.now at
        → run_last bytes.now at r < 65536) }
    ensures members { OnOk result (Adds key (in_runs bytes.now at) words.old words.new) }
    ensures fault { IfErr result (λ m.
        ((m.fault ≡ faults.RunsNotApart) × IsCloseRun bytes.now at m.at)
        ⊎ ((m.fault ≡ faults.RunPastEnd) × IsLongRun bytes.now at m.at)) }
{
    let count = read_u16(bytes, at);
    let mut next = 0;
    let mut total = 0;
    'runs: for r in 0..count {
        let start = at + 2 + 4 * r;
        let first = read_u16(bytes, start);
        let last = first + read_u16(bytes, start + 2);
        if first < next {
            return Err(Malformed {
                fault: Fault::RunsNotApart,
                at: start,
            });
        }
        if last >= CONTAINER_NUMBERS {
            return Err(Malformed {
                fault: Fault::RunPastEnd,
                at: start + 2,
            });
        }
        set_range(
            words,
            CONTAINER_NUMBERS * key + first,
            CONTAINER_NUMBERS * key + last + 1,
        );
        total += last + 1 - first;
        next = last + 2;
    }
    Ok(total)
}

// Checks that a container has as many members as the header says.
fn check_count(count: usize, cardinality: usize, at: usize) -> Result<(), Malformed>
    ensures same { OnOk result (count ≡ cardinality) }
    ensures fault { IfErr result (λ m. (m.fault ≡ faults.WrongCardinality) × (m.at ≡ at)
        × (count ≢ cardinality)) }
{
    if count == cardinality {
        Ok(())
    } else {
        Err(Malformed {
            fault: Fault::WrongCardinality,
            at,
        })
    }
}

// Adds the members of runs to words, and checks that they are as many as the header says.
fn read_runs_of(
    bytes: &[u8],
    at: usize,
    cardinality: usize,
    words: &mut [usize],
    key: usize,
) -> Result<(), Malformed>
    requires within { at + (2 + 4 * run_count bytes.now at) ≤ length bytes.now }
    requires key { key < 65536 }
    requires long_enough { 1024 * (key + 1) ≤ length words.old }
    ensures runs { OnOk result (AreRuns bytes.now at cardinality) }
    ensures members { OnOk result (Adds key (in_runs bytes.now at) words.old words.new) }
    ensures fault { IfErr result (λ m.
        ((m.fault ≡ faults.RunsNotApart) × IsCloseRun bytes.now at m.at)
        ⊎ ((m.fault ≡ faults.RunPastEnd) × IsLongRun bytes.now at m.at)
        ⊎ ((m.fault ≡ faults.WrongCardinality) × (m.at ≡ at)
        × (run_total bytes.now at (run_count bytes.now at) ≢ cardinality))) }
{
    let total = read_runs(bytes, at, words, key)?;
    check_count(total, cardinality, at)
}

// Adds the members of a container that is no bits to words, with other high bits.
fn read_numbers(
    bytes: &[u8],
    header: &Header,
    k: usize,
    at: usize,
    words: &mut [usize],
    key: usize,
) -> Result<(), Malformed>
    requires header { IsHeader bytes.now header.now }
    requires which { k < header.now.count }
    requires at { at ≡ container_at bytes.now k }
    requires within { container_at bytes.now (k + 1) ≤ length bytes.now }
    requires numbers { is_run bytes.now k ≡ false → cardinality_of bytes.now k ≤ 4096 }
    requires key { key < 65536 }
    requires long_enough { 1024 * (key + 1) ≤ length words.old }
    ensures container { OnOk result (IsContainer bytes.now k) }
    ensures members { OnOk result (Adds key (in_container bytes.now k) words.old words.new) }
    ensures fault { IfErr result (λ m. (end : ℕ) → IsFault bytes.now end m.fault m.at) }
{
    let cardinality = header.cardinality(bytes, k);
    if header.is_run(bytes, k) {
        return read_runs_of(bytes, at, cardinality, words, key);
    }
    read_array(bytes, at, cardinality, words, key)
}

// Adds the members of a container to words, with other high bits. The words end before those of these high bits, and then
// with them.
pub(crate) fn read_container(
    bytes: &[u8],
    header: &Header,
    k: usize,
    at: usize,
    words: &mut Vec<usize>,
    key: usize,
) -> Result<(), ReadError>
    requires header { IsHeader bytes.now header.now }
    requires which { k < header.now.count }
    requires at { at ≡ container_at bytes.now k }
    requires within { container_at bytes.now (k + 1) ≤ length bytes.now }
    requires key { key < 65536 }
    requires order { length words.old.items ≤ 1024 * key }
    ensures container { OnOk result (IsContainer bytes.now k) }
    ensures length { OnOk result (length words.new.items ≡ 1024 * (key + 1)) }
    ensures members { OnOk result (Adds key (in_container bytes.now k) words.old.items
        words.new.items) }
    ensures reason { IfErr result (λ error. (end : ℕ) → IsReason bytes.now end error) }
{
    let cardinality = header.cardinality(bytes, k);
    if header.is_run(bytes, k) || cardinality <= MAX_ARRAY_LEN {
        lengthen(words, CONTAINER_WORDS * (key + 1))?;
        return Ok(read_numbers(bytes, header, k, at, words, key)?);
    }
    lengthen(words, CONTAINER_WORDS * key)?;
    let count = append_bits(bytes, at, words)?;
    Ok(check_count(count, cardinality, at)?)
}
