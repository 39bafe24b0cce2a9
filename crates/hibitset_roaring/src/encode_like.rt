//! Any set written as a stream.

ghost use Rattle.std.specs.Prelude.{◌≡◌, ℕ, ◌+◌, ◌*◌, ◌%◌, ◌^◌, ◌<◌, ◌≤◌, Bool, List, get_or, length, IfOk};
ghost use Rattle.hibitset_base.specs.Connectives.{is_member};
ghost use Rattle.hibitset_roaring.specs.Format.{HasKeysBelow, IsPlainStream, IsCanonicalStream};
ghost use Rattle.hibitset_roaring.specs.Sources.{word_at, words_of, words_short, words_fit};
ghost use Rattle.hibitset_roaring.specs.Words.{ones_under};
ghost use Rattle.hibitset_roaring.specs.declared.header.TheConstants.{KEYS};

use crate::encode::{len_of_source, write_source};
use crate::encode_container::write_kind;
use crate::header::KEYS;
use crate::key_counts::count_members;
use crate::layout::CONTAINER_WORDS;
use crate::nonzero_words::CONTAINER_BLOCKS;
use crate::runs::count_runs;
use crate::source::ContainerSource;
use hibitset::BitSetLike;
use hibitset_base::bits::{next_bit, take_bit};
use std::alloc::{AllocError, Global};

// How many words layer 2 has, each over four containers.
const UPPER_WORDS: usize = 4096;

// How many bits of a word of layer 2 lie over a container.
const CONTAINER_BITS: usize = 16;

// The first position of layer 2 from one on whose word may be nonzero; or `UPPER_WORDS`.
fn next_upper<T: BitSetLike>(set: &T, from: usize) -> usize
    requires { from ≤ 4096 }
    ensures order { from ≤ result }
    ensures within { result ≤ 4096 }
    ensures skips { (p : ℕ) → from ≤ p → p < result → T.word set.now 2 p ≡ 0 }
{
    let mut position = from;
    'words: while position < UPPER_WORDS {
        let bit = next_bit(set.layer3(position / 64), position % 64);
        position = 64 * (position / 64) + bit;
        if bit < 64 {
            return position;
        }
    }
    position
}

// The first key from one on under which there may be members; or `KEYS`.
fn next_key_of<T: BitSetLike>(set: &T, from: usize) -> usize
    requires { from ≤ KEYS }
    ensures order { from ≤ result }
    ensures within { result ≤ KEYS }
    ensures skips { (key : ℕ) → from ≤ key → key < result
        → ones_under (words_of (T.word set.now)) key ≡ 0 }
{
    let mut key = from;
    'keys: while key < KEYS {
        let position = key / 4;
        let bit = next_bit(set.layer2(position), CONTAINER_BITS * (key % 4));
        if bit < 64 {
            return 4 * position + bit / CONTAINER_BITS;
        }
        key = 4 * next_upper(set, position + 1);
    }
    key
}

// Puts the words of a set under a word of its layer 1 into 64 zero words, from one on.
fn gather_block<T: BitSetLike>(set: &T, position: usize, words: &mut [usize], base: usize)
    requires position { position < 262144 }
    requires long_enough { base + 64 ≤ length words.old }
    requires zero { (b : ℕ) → b < 64 → get_or words.old (base + b) 0 ≡ 0 }
    ensures here { (b : ℕ) → b < 64
        → get_or words.new (base + b) 0 ≡ word_at (T.word set.now) (64 * position + b) }
    ensures before { (q : ℕ) → q < base → get_or words.new q 0 ≡ get_or words.old q 0 }
    ensures after { (q : ℕ) → base + 64 ≤ q → get_or words.new q 0 ≡ get_or words.old q 0 }
{
    let mut places = set.layer1(position);
    'places: while places != 0 {
        let bit = take_bit(&mut places);
        words[base + bit] = set.layer0(64 * position + bit);
    }
}

// Puts the words of a container, and those of layer 1 over them, into zero words.
fn gather<T: BitSetLike>(set: &T, key: usize, words: &mut [usize], above: &mut [usize])
    requires key { key < KEYS }
    requires words { length words.old ≡ 1024 }
    requires above { length above.old ≡ 16 }
    requires zero { (q : ℕ) → q < 1024 → get_or words.old q 0 ≡ 0 }
    ensures words { (q : ℕ) → q < 1024
        → get_or words.new q 0 ≡ word_at (T.word set.now) (1024 * key + q) }
    ensures above { (b : ℕ) → b < 16 → get_or above.new b 0 ≡ T.word set.now 1 (16 * key + b) }
{
    'parts: for b in 0..CONTAINER_BLOCKS {
        let position = CONTAINER_BLOCKS * key + b;
        above[b] = set.layer1(position);
        gather_block(set, position, words, 64 * b);
    }
}

/// Any set, whose containers are gathered by its words.
#[derive(Drop)]
struct LikeSource<'a, T: BitSetLike>(&'a T);

impl<T: BitSetLike> ContainerSource for LikeSource<'_, T> {
    ghost words = { λ source. words_of (T.word source.0.now) };

    ghost short = { λ source. words_short (T.word source.0.now) };

    ghost fits = { λ source. words_fit (T.word source.0.now) };

    fn next_key(&self, from: usize) -> usize {
        next_key_of(self.0, from)
    }

    fn count_under(&self, key: usize) -> usize {
        let mut words = [0; CONTAINER_WORDS];
        let mut above = [0; CONTAINER_BLOCKS];
        gather(self.0, key, &mut words, &mut above);
        count_members(&words, &above, 0)
    }

    fn count_runs(&self, key: usize, count: usize) -> usize {
        let mut words = [0; CONTAINER_WORDS];
        let mut above = [0; CONTAINER_BLOCKS];
        gather(self.0, key, &mut words, &mut above);
        count_runs(&words, &above, 0, count)
    }

    fn write_container(&self, out: &mut [u8], at: usize, key: usize, count: usize, runs: usize) {
        let mut words = [0; CONTAINER_WORDS];
        let mut above = [0; CONTAINER_BLOCKS];
        gather(self.0, key, &mut words, &mut above);
        write_kind(out, at, &words, &above, 0, count, runs);
    }
}

/// Any set in the portable Roaring format, as `write` writes a `BitSet` of the same members: the one stream without
/// runs of the members below `MAX_EID`.
///
/// # Errors
///
/// An allocation fails.
///
/// # Cost
///
/// - It makes no copy of the set: it gathers the words of one container at a time, twice, once to count its members and
///   once to write them.
/// - It allocates 16 bytes for each 65,536 numbers with members, and the stream's bytes.
pub fn write_like<T: BitSetLike>(alloc: Global, set: &T) -> Result<Vec<u8>, AllocError>
    ensures stream { IfOk result (λ out. IsCanonicalStream (is_member (T.holds set.now))
        out.items) }
    ensures keys_below { IfOk result (λ out. HasKeysBelow out.items KEYS) }
{
    write_source(alloc, &LikeSource(set))
}

/// How many bytes `write_like` makes of a set.
pub fn serialized_len_like<T: BitSetLike>(set: &T) -> usize
    ensures { (bytes : List ℕ) → IsPlainStream (is_member (T.holds set.now)) bytes
        → length bytes ≡ result }
{
    len_of_source(&LikeSource(set), false)
}
