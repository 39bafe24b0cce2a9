//! Sets written as streams.

ghost use Rattle.std.specs.Prelude.{◌≡◌, ℕ, ◌+◌, ◌*◌, ◌/◌, ◌%◌, ◌^◌, ◌<◌, ◌≤◌, ◌==◌, Bool, true, false, List, drop, get_or, length, take, vec_len, IfOk, OnOk, OnErr};
ghost use Rattle.std.specs.Int.{bit_at};
ghost use Rattle.hibitset.specs.BitSet.{has};
ghost use Rattle.hibitset.specs.WordBits.{stands_in};
ghost use Rattle.hibitset_roaring.specs.Numbers.{u16_at, u32_at};
ghost use Rattle.hibitset_roaring.specs.Format.{HasKeysBelow, IsPlainStream, IsCanonicalStream, Appends};
ghost use Rattle.hibitset_roaring.specs.declared.header.TheConstants.{KEYS};
ghost use Rattle.hibitset_roaring.specs.Streams.{SameBefore, AreHeads, AreRunCounts, AreKinds, HaveKeys, SaysRuns, start_from, fields_after, offsets_after, first_after, IsKindWritten, IsFront, IsHeaded, AreSizes};
ghost use Rattle.hibitset_roaring.specs.Words.{ones_under, AreSummaries};
ghost use Rattle.hibitset_roaring.specs.Runs.{members_under, count_of_runs, are_runs_shorter};
ghost use Rattle.hibitset_roaring.specs.RunStreams.{IsRunOptimizedStream, IsCanonicalRunStream};
ghost use Rattle.hibitset_roaring.specs.Kinds.{chosen_are_runs, IsStreamOf};

use crate::encode_container::container_size;
use crate::header::{KEYS, NO_RUNS, RUNS, first_after, keys_after, offsets_are};
use crate::key_counts::Heads;
use crate::number::{put_u8, put_u16, put_u32};
use crate::runs::are_shorter;
use crate::source::{ContainerSource, WordSource};
use hibitset::BitSet;
use hibitset_base::bits::{with_bit, word_or_zero};
use std::alloc::{AllocError, Global};

// The number of runs that a container is written as; or as many as its members, if it is not to be runs.
fn kind_of<S: ContainerSource>(source: &S, optimized: bool, key: usize, count: usize) -> usize
    requires key { key < KEYS }
    requires count { count ≡ ones_under (S.words source.now) key }
    ensures kind { are_runs_shorter result count
        ≡ chosen_are_runs optimized (stands_in (S.words source.now)) key }
    ensures exact { are_runs_shorter result count ≡ true
        → result ≡ count_of_runs (members_under (stands_in (S.words source.now)) key) }
{
    if optimized {
        source.count_runs(key, count)
    } else {
        count
    }
}

// How many containers there are, whether some is runs, and how many bytes they take.
#[derive(Clone, Copy)]
struct Sizes {
    count: usize,
    some: bool,
    bytes: usize,
}

impl Sizes {
    // The sizes with the container that has a key, if there are members for it.
    fn with_container<S: ContainerSource>(self, source: &S, optimized: bool, key: usize) -> Sizes
        requires key { key < KEYS }
        requires sizes { AreSizes (S.words source.now)
            (chosen_are_runs optimized (stands_in (S.words source.now)))
            key self.count self.some self.bytes }
        ensures { AreSizes (S.words source.now)
            (chosen_are_runs optimized (stands_in (S.words source.now)))
            (key + 1) result.count result.some result.bytes }
    {
        let count = source.count_under(key);
        if count == 0 {
            return self;
        }
        let runs = kind_of(source, optimized, key, count);
        let shorter = are_shorter(runs, count);
        let size = container_size(count, runs);
        Sizes {
            count: self.count + 1,
            some: self.some | shorter,
            bytes: self.bytes + size,
        }
    }
}

// How many runs each container has.
fn runs_of<S: ContainerSource>(
    alloc: Global,
    keys: &[usize],
    counts: &[usize],
    source: &S,
) -> Result<Vec<usize>, AllocError>
    requires same { length counts.now ≡ length keys.now }
    requires keys { (k : ℕ) → k < length keys.now → get_or keys.now k 0 < KEYS }
    ensures { IfOk result (λ runs. AreRunCounts (S.words source.now) keys.now counts.now
        runs.items) }
{
    let mut runs = Vec::new(alloc);
    'containers: for k in 0..keys.len() {
        runs.push(source.count_runs(keys[k], counts[k]))?;
    }
    Ok(runs)
}

// Returns whether some container is runs.
fn some_runs(counts: &[usize], runs: &[usize]) -> bool
    requires { length runs.now ≡ length counts.now }
    ensures { SaysRuns result counts.now runs.now }
{
    'containers: for k in 0..counts.len() {
        if are_shorter(runs[k], counts[k]) {
            return true;
        }
    }
    false
}

// Where the first of `count` containers begins, in a stream with runs or without.
fn first_of(some: bool, count: usize) -> usize
    requires { count ≤ 16384 }
    ensures first { result ≡ first_after some count }
    ensures max { result ≤ 262144 }
{
    first_after(offsets_are(some, count), keys_after(some, count), count)
}

// How many bytes a stream takes whose containers have these counts of members and of runs.
fn len_of(some: bool, counts: &[usize], runs: &[usize]) -> usize
    requires len_max { length counts.now ≤ 16384 }
    requires same { length runs.now ≡ length counts.now }
    requires counts { (k : ℕ) → k < length counts.now → get_or counts.now k 0 ≤ 65536 }
    ensures len { result ≡ start_from (first_after some (length counts.now)) counts.now runs.now
        (length counts.now) }
    ensures max { result ≤ 2 ^ 28 }
{
    let mut at = first_of(some, counts.len());
    'counts: for k in 0..counts.len() {
        at += container_size(counts[k], runs[k]);
    }
    at
}

// The flags of eight containers, from one on, as the bits of a byte.
fn flags_from(counts: &[usize], runs: &[usize], first: usize) -> usize
    requires { first < 2 ^ 32 }
    ensures in_range { result < 256 }
    ensures flags { (b : ℕ) → b < 8 → (bit_at result b == 1)
        ≡ are_runs_shorter (get_or runs.now (first + b) 0) (get_or counts.now (first + b) 0) }
{
    let mut byte = 0;
    'flags: for b in 0..8 {
        let flag = are_shorter(
            word_or_zero(runs, first + b),
            word_or_zero(counts, first + b),
        );
        byte = with_bit(byte, b, flag);
    }
    byte % 256
}

// Writes the flags. Those past the last container's are clear.
fn write_flags(out: &mut [u8], counts: &[usize], runs: &[usize])
    requires long_enough { 4 + (length counts.now + 7) / 8 ≤ length out.old }
    requires len_max { length counts.now ≤ 16384 }
    ensures before { SameBefore 4 out.old out.new }
    ensures flags { (k : ℕ) → k / 8 < (length counts.now + 7) / 8
        → (bit_at (get_or out.new (4 + k / 8) 0) (k % 8) == 1)
        ≡ are_runs_shorter (get_or runs.now k 0) (get_or counts.now k 0) }
{
    'bytes: for j in 0..(counts.len() + 7) / 8 {
        put_u8(out, 4 + j, flags_from(counts, runs, 8 * j));
    }
}

// Writes the cookie and the number of containers, and behind them the flags if some container is runs.
fn write_front(out: &mut [u8], some: bool, counts: &[usize], runs: &[usize])
    requires long_enough { fields_after some (length counts.now) ≤ length out.old }
    requires len_max { length counts.now ≤ 16384 }
    requires any { some ≡ true → 0 < length counts.now }
    ensures { IsFront some out.new counts.now runs.now }
{
    if some {
        put_u16(out, 0, RUNS);
        put_u16(out, 2, counts.len() - 1);
        write_flags(out, counts, runs);
    } else {
        put_u32(out, 0, NO_RUNS);
        put_u32(out, 4, counts.len());
    }
}

// Writes of each container its key and how many members it has.
fn write_fields(out: &mut [u8], at: usize, keys: &[usize], counts: &[usize])
    requires long_enough { at + 4 * length keys.now ≤ length out.old }
    requires same { length counts.now ≡ length keys.now }
    requires keys { (k : ℕ) → k < length keys.now → get_or keys.now k 0 < 16384 }
    requires counts { (k : ℕ) → k < length keys.now → get_or counts.now k 0 ≤ 65536 }
    requires nonempty { (k : ℕ) → k < length keys.now → 0 < get_or counts.now k 0 }
    ensures before { SameBefore at out.old out.new }
    ensures keys { (k : ℕ) → k < length keys.now
        → u16_at out.new (at + 4 * k) ≡ get_or keys.now k 0 }
    ensures counts { (k : ℕ) → k < length keys.now
        → u16_at out.new (at + 4 * k + 2) + 1 ≡ get_or counts.now k 0 }
{
    'keys: for k in 0..keys.len() {
        put_u16(out, at + 4 * k, keys[k]);
        put_u16(out, at + 4 * k + 2, counts[k] - 1);
    }
}

// Writes the header, up to the offsets.
fn write_header(out: &mut [u8], some: bool, keys: &[usize], counts: &[usize], runs: &[usize])
    requires long_enough { fields_after some (length counts.now) + 4 * length keys.now ≤ length out.old }
    requires len_max { length keys.now ≤ 16384 }
    requires any { some ≡ true → 0 < length counts.now }
    requires same { length counts.now ≡ length keys.now }
    requires keys { (k : ℕ) → k < length keys.now → get_or keys.now k 0 < 16384 }
    requires counts { (k : ℕ) → k < length keys.now → get_or counts.now k 0 ≤ 65536 }
    requires nonempty { (k : ℕ) → k < length keys.now → 0 < get_or counts.now k 0 }
    ensures { IsHeaded some out.new keys.now counts.now runs.now }
{
    write_front(out, some, counts, runs);
    write_fields(out, keys_after(some, counts.len()), keys, counts);
}

// Writes where the containers begin, if there are offsets.
fn write_offsets(
    out: &mut [u8],
    some: bool,
    at: usize,
    first: usize,
    counts: &[usize],
    runs: &[usize],
)
    requires long_enough { offsets_after some (length counts.now) ≡ true
        → at + 4 * length counts.now ≤ length out.old }
    requires len_max { length counts.now ≤ 16384 }
    requires same { length runs.now ≡ length counts.now }
    requires counts { (k : ℕ) → k < length counts.now → get_or counts.now k 0 ≤ 65536 }
    requires first { first ≤ 262144 }
    ensures before { SameBefore at out.old out.new }
    ensures offsets { offsets_after some (length counts.now) ≡ true
        → (k : ℕ) → k < length counts.now
        → u32_at out.new (at + 4 * k) ≡ start_from first counts.now runs.now k }
{
    if !offsets_are(some, counts.len()) {
        return;
    }
    let mut start = first;
    'offsets: for k in 0..counts.len() {
        put_u32(out, at + 4 * k, start);
        start += container_size(counts[k], runs[k]);
    }
}

// Writes the containers, from a position on.
fn write_containers<S: ContainerSource>(
    out: &mut [u8],
    first: usize,
    keys: &[usize],
    counts: &[usize],
    runs: &[usize],
    source: &S,
)
    requires same { length counts.now ≡ length keys.now }
    requires len_max { length keys.now ≤ 16384 }
    requires first { first ≤ 262144 }
    requires long_enough { start_from first counts.now runs.now (length keys.now) ≤ length out.old }
    requires keys { (k : ℕ) → k < length keys.now → get_or keys.now k 0 < 16384 }
    requires counts { (k : ℕ) → k < length keys.now
        → get_or counts.now k 0 ≡ ones_under (S.words source.now) (get_or keys.now k 0) }
    requires counts_max { (k : ℕ) → k < length keys.now → get_or counts.now k 0 ≤ 65536 }
    requires runs { AreKinds (S.words source.now) keys.now counts.now runs.now }
    ensures before { SameBefore first out.old out.new }
    ensures written { (k : ℕ) → k < length keys.now → IsKindWritten (S.words source.now)
        out.new (start_from first counts.now runs.now k)
        (get_or keys.now k 0) (get_or counts.now k 0) (get_or runs.now k 0) }
{
    let mut at = first;
    'containers: for k in 0..keys.len() {
        source.write_container(out, at, keys[k], counts[k], runs[k]);
        at += container_size(counts[k], runs[k]);
    }
}

// Writes a stream, with runs if some container is runs.
fn write_stream<S: ContainerSource>(
    out: &mut [u8],
    some: bool,
    keys: &[usize],
    counts: &[usize],
    runs: &[usize],
    source: &S,
)
    requires heads { AreHeads (S.words source.now) keys.now counts.now KEYS }
    requires runs { AreKinds (S.words source.now) keys.now counts.now runs.now }
    requires says { SaysRuns some counts.now runs.now }
    requires exact_length { length out.old ≡ start_from (first_after some (length counts.now))
        counts.now runs.now (length counts.now) }
    ensures stream { (kinds : ℕ → Bool) → HaveKeys kinds keys.now counts.now runs.now
        → IsStreamOf (stands_in (S.words source.now)) kinds out.new }
    ensures keys_below { HasKeysBelow out.new KEYS }
{
    let first = first_of(some, counts.len());
    let offsets = keys_after(some, counts.len()) + 4 * counts.len();
    write_header(out, some, keys, counts, runs);
    write_offsets(out, some, offsets, first, counts, runs);
    write_containers(out, first, keys, counts, runs, source);
}

// Writes a stream behind the first bytes.
fn write_behind<S: ContainerSource>(
    out: &mut [u8],
    from: usize,
    some: bool,
    heads: &Heads,
    runs: &[usize],
    source: &S,
)
    requires heads { AreHeads (S.words source.now) heads.now.keys.items heads.now.counts.items
        KEYS }
    requires runs { AreKinds (S.words source.now) heads.now.keys.items heads.now.counts.items
        runs.now }
    requires says { SaysRuns some heads.now.counts.items runs.now }
    requires exact_length { length out.old ≡ from
        + start_from (first_after some (length heads.now.counts.items))
        heads.now.counts.items runs.now (length heads.now.counts.items) }
    ensures before { SameBefore from out.old out.new }
    ensures stream { (kinds : ℕ → Bool)
        → HaveKeys kinds heads.now.keys.items heads.now.counts.items runs.now
        → IsStreamOf (stands_in (S.words source.now)) kinds (drop from out.new) }
    ensures keys_below { HasKeysBelow (drop from out.new) KEYS }
{
    write_stream(
        &mut out[from..],
        some,
        &heads.keys,
        &heads.counts,
        runs,
        source,
    );
}

// Writes a stream without runs into the first bytes.
fn write_first<S: ContainerSource>(out: &mut [u8], len: usize, heads: &Heads, source: &S)
    requires heads { AreHeads (S.words source.now) heads.now.keys.items heads.now.counts.items
        KEYS }
    requires long_enough { len ≤ length out.old }
    requires len { len ≡ start_from (first_after false (length heads.now.counts.items))
        heads.now.counts.items heads.now.counts.items (length heads.now.counts.items) }
    ensures stream { IsCanonicalStream (stands_in (S.words source.now)) (take len out.new) }
    ensures keys_below { HasKeysBelow (take len out.new) KEYS }
    ensures rest { drop len out.new ≡ drop len out.old }
{
    write_stream(
        &mut out[..len],
        false,
        &heads.keys,
        &heads.counts,
        &heads.counts,
        source,
    );
}

// Writes a stream behind the bytes of `out`, with runs if some container is runs.
fn append_stream<S: ContainerSource>(
    some: bool,
    heads: &Heads,
    runs: &[usize],
    source: &S,
    out: &mut Vec<u8>,
) -> Result<(), AllocError>
    requires heads { AreHeads (S.words source.now) heads.now.keys.items heads.now.counts.items
        KEYS }
    requires runs { AreKinds (S.words source.now) heads.now.keys.items heads.now.counts.items
        runs.now }
    requires says { SaysRuns some heads.now.counts.items runs.now }
    ensures stream { OnOk result ((kinds : ℕ → Bool)
        → HaveKeys kinds heads.now.keys.items heads.now.counts.items runs.now
        → Appends (IsStreamOf (stands_in (S.words source.now)) kinds) out.old.items
        out.new.items) }
    ensures keys_below { OnOk result (HasKeysBelow (drop (vec_len out.old) out.new.items) KEYS) }
    ensures err { OnErr result (out.new.items ≡ out.old.items) }
{
    let from = out.len();
    out.resize(from + len_of(some, &heads.counts, runs), 0)?;
    write_behind(out, from, some, heads, runs, source);
    Ok(())
}

// Writes a stream without runs behind the bytes of `out`.
fn write_source_to<S: ContainerSource>(
    alloc: Global,
    source: &S,
    out: &mut Vec<u8>,
) -> Result<(), AllocError>
    ensures stream { OnOk result (Appends (IsCanonicalStream (stands_in (S.words source.now)))
        out.old.items out.new.items) }
    ensures keys_below { OnOk result (HasKeysBelow (drop (vec_len out.old) out.new.items) KEYS) }
    ensures err { OnErr result (out.new.items ≡ out.old.items) }
{
    let heads = Heads::of(alloc, source)?;
    append_stream(false, &heads, &heads.counts, source, out)
}

// The stream of a set.
pub(crate) fn write_source<S: ContainerSource>(
    alloc: Global,
    source: &S,
) -> Result<Vec<u8>, AllocError>
    ensures stream { IfOk result (λ out. IsCanonicalStream (stands_in (S.words source.now))
        out.items) }
    ensures keys_below { IfOk result (λ out. HasKeysBelow out.items KEYS) }
{
    let mut out = Vec::new(alloc);
    write_source_to(alloc, source, &mut out)?;
    Ok(out)
}

// How many bytes the stream of a set takes, with runs where these are shorter or without.
pub(crate) fn len_of_source<S: ContainerSource>(source: &S, optimized: bool) -> usize
    ensures { (bytes : List ℕ) → IsStreamOf (stands_in (S.words source.now))
        (chosen_are_runs optimized (stands_in (S.words source.now))) bytes
        → length bytes ≡ result }
{
    let mut sizes = Sizes {
        count: 0,
        some: false,
        bytes: 0,
    };
    let mut key = source.next_key(0);
    'keys: while key < KEYS {
        sizes = sizes.with_container(source, optimized, key);
        key = source.next_key(key + 1);
    }
    first_of(sizes.some, sizes.count) + sizes.bytes
}

/// How many bytes `write` makes of a set with these words of layer 0, over which those of layer 1 lie.
pub fn len_of_words(words: &[usize], above: &[usize]) -> usize
    requires len_max { length words.now ≤ 16777216 }
    requires summaries { AreSummaries words.now above.now }
    ensures { (bytes : List ℕ) → IsPlainStream (stands_in words.now) bytes → length bytes ≡ result }
{
    len_of_source(&WordSource::new(words, above), false)
}

/// Writes the set with these words of layer 0, over which those of layer 1 lie, into the first bytes of a buffer, as
/// `write` makes them. Returns how many bytes that takes. A buffer that has fewer is left as it was.
///
/// # Errors
///
/// An allocation fails; the buffer is as it was then.
///
/// # Cost
///
/// It allocates 16 bytes for each 65,536 numbers with members.
pub fn write_words(
    alloc: Global,
    words: &[usize],
    above: &[usize],
    out: &mut [u8],
) -> Result<usize, AllocError>
    requires len_max { length words.now ≤ 16777216 }
    requires summaries { AreSummaries words.now above.now }
    ensures len { IfOk result (λ len. (bytes : List ℕ) → IsPlainStream (stands_in words.now) bytes
        → length bytes ≡ len) }
    ensures stream { IfOk result (λ len. len ≤ length out.old
        → IsCanonicalStream (stands_in words.now) (take len out.new)) }
    ensures keys_below { IfOk result (λ len. len ≤ length out.old
        → HasKeysBelow (take len out.new) KEYS) }
    ensures rest { IfOk result (λ len. drop len out.new ≡ drop len out.old) }
    ensures too_short { IfOk result (λ len. length out.old < len → out.new ≡ out.old) }
    ensures err { OnErr result (out.new ≡ out.old) }
{
    let source = WordSource::new(words, above);
    let heads = Heads::of(alloc, &source)?;
    let len = len_of(false, &heads.counts, &heads.counts);
    if len <= out.len() {
        write_first(out, len, &heads, &source);
    }
    Ok(len)
}

/// How many bytes `write` makes of a set.
pub fn serialized_len(set: &BitSet) -> usize
    ensures { (bytes : List ℕ) → IsPlainStream (has set.now) bytes → length bytes ≡ result }
{
    len_of_source(&WordSource::of(set), false)
}

/// Writes a set in the portable Roaring format behind the bytes of `out`: the one stream without runs of its members.
/// At most 4,096 members with the same high 16 bits are an array, more are bits.
///
/// # Errors
///
/// An allocation fails; `out` is as it was then.
///
/// # Cost
///
/// It allocates 16 bytes for each 65,536 numbers with members, and the stream's bytes.
pub fn write_to(alloc: Global, set: &BitSet, out: &mut Vec<u8>) -> Result<(), AllocError>
    ensures stream { OnOk result (Appends (IsCanonicalStream (has set.now)) out.old.items
        out.new.items) }
    ensures keys_below { OnOk result (HasKeysBelow (drop (vec_len out.old) out.new.items) KEYS) }
    ensures err { OnErr result (out.new.items ≡ out.old.items) }
{
    write_source_to(alloc, &WordSource::of(set), out)
}

/// A set in the portable Roaring format, as `write_to` writes it. It fails only if an allocation fails.
pub fn write(alloc: Global, set: &BitSet) -> Result<Vec<u8>, AllocError>
    ensures stream { IfOk result (λ out. IsCanonicalStream (has set.now) out.items) }
    ensures keys_below { IfOk result (λ out. HasKeysBelow out.items KEYS) }
{
    let mut out = Vec::new(alloc);
    write_to(alloc, set, &mut out)?;
    Ok(out)
}

/// How many bytes `write_run_optimized` makes of a set.
pub fn run_optimized_len(set: &BitSet) -> usize
    ensures { (bytes : List ℕ) → IsRunOptimizedStream (has set.now) bytes
        → length bytes ≡ result }
{
    len_of_source(&WordSource::of(set), true)
}

/// Writes a set in the portable Roaring format behind the bytes of `out`: the one stream of its members in which a
/// container is runs if these take fewer bytes than an array or bits. If none is, it is the stream that `write` makes.
///
/// # Errors
///
/// An allocation fails; `out` is as it was then.
///
/// # Cost
///
/// It allocates 24 bytes for each 65,536 numbers with members, and the stream's bytes.
pub fn write_run_optimized_to(
    alloc: Global,
    set: &BitSet,
    out: &mut Vec<u8>,
) -> Result<(), AllocError>
    ensures stream { OnOk result
        (Appends (IsCanonicalRunStream (has set.now)) out.old.items out.new.items) }
    ensures keys_below { OnOk result (HasKeysBelow (drop (vec_len out.old) out.new.items) KEYS) }
    ensures err { OnErr result (out.new.items ≡ out.old.items) }
{
    let source = WordSource::of(set);
    let heads = Heads::of(alloc, &source)?;
    let runs = runs_of(alloc, &heads.keys, &heads.counts, &source)?;
    let some = some_runs(&heads.counts, &runs);
    append_stream(some, &heads, &runs, &source, out)
}

/// A set in the portable Roaring format with runs where these are shorter, as `write_run_optimized_to` writes it. It
/// fails only if an allocation fails.
pub fn write_run_optimized(alloc: Global, set: &BitSet) -> Result<Vec<u8>, AllocError>
    ensures stream { IfOk result (λ out. IsCanonicalRunStream (has set.now) out.items) }
    ensures keys_below { IfOk result (λ out. HasKeysBelow out.items KEYS) }
{
    let mut out = Vec::new(alloc);
    write_run_optimized_to(alloc, set, &mut out)?;
    Ok(out)
}
