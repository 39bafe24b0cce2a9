//! A hash of a set.
#![tactic(auto)]

ghost use Rattle.std.specs.Prelude.{◌≡◌};
ghost use Rattle.hibitset_c.specs.Hash.{mixed, with_word, hash_of};
ghost use Rattle.hibitset_c.specs.LentSet.{has};

use crate::lent_set::{LentSet, are_words};

const SEED: u64 = 0x243F_6A88_85A3_08D3;

const FACTOR: u64 = 0x9E37_79B9_7F4A_7C15;

// The hash with one more number.
#[tactic(auto, unfolding(crate::specs::Hash::mixed))]
#[inline]
fn mix(hash: u64, number: u64) -> u64
    ensures { result ≡ mixed hash number }
{
    let product = (hash ^ number).wrapping_mul(FACTOR);
    product ^ (product >> 32)
}

// The hash with a word at a position, which takes no part where it is 0.
#[tactic(auto, unfolding(crate::specs::Hash::with_word))]
#[inline]
fn mix_word(hash: u64, position: usize, word: usize) -> u64
    ensures { result ≡ with_word hash position word }
{
    if word == 0 {
        hash
    } else {
        mix(mix(hash, position as u64), word as u64)
    }
}

/// Returns a hash of the members, which sets with the same members share.
#[unsafe(no_mangle)]
pub extern "C" fn hibitset_hash(set: &LentSet<'_>) -> u64
    ensures { result ≡ hash_of (has set.now) }
{
    let words = set.layer0;
    are_words(words);
    let mut hash = SEED;
    let mut position = 0;
    while position < words.len() {
        hash = mix_word(hash, position, words[position]);
        position += 1;
    }
    hash
}
