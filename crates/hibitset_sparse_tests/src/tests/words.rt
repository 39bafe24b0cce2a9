//! Whole words added to sparse sets, beside indices added one by one.
ghost use Rattle.std.specs.Prelude.{◌+◌, ◌*◌, ◌≤◌, length};
ghost use Rattle.hibitset_base.specs.declared.util.TheConstants.{MAX_EID};

use crate::tests::{agree_at, dense_of, has_exactly, sparse_of};
use hibitset::Index;
use hibitset_sparse::SparseBitSet;
use std::alloc::{AllocError, Global};
use std::test::Fail;

fn add_words(set: &mut SparseBitSet, first: usize, words: &[usize]) -> Result<(), AllocError>
    requires { 64 * (first + length words.now) ≤ MAX_EID }
{
    set.add_words(first, words)
}

// How many words of layer 0 there are.
const MAX_WORDS: usize = 16_777_216;

// Returns whether a set has exactly `wanted` after words were added to it, those of a set of these indices.
fn has_after_words(
    alloc: Global,
    before: &[Index],
    first: usize,
    words: &[usize],
    wanted: &[Index],
) -> Result<bool, AllocError> {
    if first > MAX_WORDS || words.len() > MAX_WORDS - first {
        return Ok(false);
    }
    let mut set = sparse_of(alloc, before)?;
    add_words(&mut set, first, words)?;
    let dense = dense_of(alloc, wanted)?;
    Ok(has_exactly(alloc, &set, wanted)? && agree_at(&set, &dense, wanted))
}

// The last words of a chunk and the first of the next one, of which some are 0. Members before words, between them, and
// in the same word. The last word of all, and no words behind it. Words that are 0.
#[test]
fn words_beside_members(rt: HostRuntime) -> Result<(), Fail> {
    let rows: [(&[Index], usize, &[usize], &[Index]); 5] = [
        (
            &[],
            4_094,
            &[1, 1 << 63, 0, 0b101],
            &[262_016, 262_143, 262_208, 262_210],
        ),
        (
            &[5, 4_095, 4_097, 4_300, 1_073_741_823],
            63,
            &[1, 0b111, 0, 0, 1 << 12],
            &[5, 4_032, 4_095, 4_096, 4_097, 4_098, 4_300, 1_073_741_823],
        ),
        (
            &[],
            16_777_215,
            &[1 | 1 << 63],
            &[1_073_741_760, 1_073_741_823],
        ),
        (&[1_073_741_823], 16_777_216, &[], &[1_073_741_823]),
        (&[], 7, &[0; 5_000], &[]),
    ];
    for (before, first, words, wanted) in rows {
        assert!(rt; has_after_words(rt.alloc(), before, first, words, wanted)?);
    }
    Ok(())
}

// The indices of a chunk whose words have the second bit each, and every other word the first bit too.
fn wanted_of_a_chunk(alloc: Global) -> Result<Vec<Index>, AllocError> {
    let mut ids = Vec::new(alloc);
    for word in 0..8_192u32 {
        if word < 4_096 && word % 2 == 0 {
            ids.push(64 * word)?;
        }
        ids.push(64 * word + 1)?;
    }
    Ok(ids)
}

// All words of two chunks, of which the first has every other one.
#[test]
fn every_word_of_a_chunk(rt: HostRuntime) -> Result<(), Fail> {
    let alloc = rt.alloc();
    let mut set = SparseBitSet::new(alloc);
    for word in 0..2_048usize {
        add_words(&mut set, 2 * word, &[1])?;
    }
    add_words(&mut set, 0, &[2; 8_192])?;
    assert!(rt; has_exactly(alloc, &set, &wanted_of_a_chunk(alloc)?)?);
    Ok(())
}
