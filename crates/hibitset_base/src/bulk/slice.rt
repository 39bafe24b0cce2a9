//! Members written into a slice that is as long as they are many, for threads.
#![tactic(auto, unfolding(crate::specs::Walk::items_left, crate::specs::Walk::set_of))]

ghost use Rattle.std.specs.Prelude.{◌≡◌, ◌+◌, ◌-◌, ◌%◌, ◌^◌, ◌<◌, ◌≤◌, ◌++◌, length, take};
ghost use Rattle.std.specs.Int.RustNames.{count_ones};
ghost use Rattle.hibitset_base.specs.Places.{places_in, bits_from, items_of};
ghost use Rattle.hibitset_base.specs.Walk.{items_left};
ghost use Rattle.hibitset_base.specs.declared.util.TheConstants.{LAYERS, MAX_EID};

use crate::bulk::word_indices::{write_bit, write_bits};
use crate::bulk::{take_child, take_lowest_word, take_next_block};
use crate::iter::BitIter;
use crate::like::BitSetLike;
use crate::read_count::Reads;
use crate::util::Index;

// Writes the indices of a word's bits into a list one by one, from a place on, and returns the place after them.
#[inline]
fn write_exactly(list: &mut [Index], at: usize, start: Index, word: usize) -> usize
    requires long_enough { at + count_ones word ≤ length list.old }
    requires aligned { start % 64 ≡ 0 }
    ensures written { take result list.new ≡ take at list.old ++ bits_from start word }
    ensures within { result ≤ length list.new }
{
    let mut rest = word;
    let mut end = at;
    'bits: while rest != 0 {
        rest = write_bit(list, end, start, rest);
        end += 1;
    }
    at + word.count_ones() as usize
}

// As `write_exactly`, but by the faster `write_bits` while 68 entries are free, since that may write past the end.
#[inline]
fn write_word(list: &mut [Index], at: usize, start: Index, word: usize) -> usize
    requires long_enough { at + count_ones word ≤ length list.old }
    requires aligned { start % 64 ≡ 0 }
    requires within { start < MAX_EID }
    ensures written { take result list.new ≡ take at list.old ++ bits_from start word }
    ensures within { result ≤ length list.new }
{
    if list.len() - at < 68 {
        return write_exactly(list, at, start, word);
    }
    write_bits(list, at, start, word)
}

// Writes the members in the words of layer 0 under the bits of a word of layer 1, whose first bit is at `start`, into a
// list, from a place on, and returns the place after them.
#[inline]
fn write_subtree<T: BitSetLike>(
    set: &T,
    start: u32,
    word: usize,
    list: &mut [Index],
    at: usize,
) -> usize
    requires aligned { start % 64 ≡ 0 }
    requires within { start < 64 ^ (LAYERS - 1) }
    requires long_enough { at + length (items_of (T.holds set.now) (places_in 1 (bits_from start word)))
        ≤ length list.old }
    ensures written { take result list.new
        ≡ take at list.old ++ items_of (T.holds set.now) (places_in 1 (bits_from start word)) }
    ensures within { result ≤ length list.new }
{
    let mut end = at;
    let mut rest = word;
    'bits: while rest != 0 {
        let (first, lower) = take_child(set, start, &mut rest);
        end = write_word(list, end, first, lower);
    }
    end
}

// Writes the items that a walk has left into a list, from a place on, and returns the place after them.
pub(crate) fn write_walk<T: BitSetLike>(walk: &BitIter<T>, list: &mut [Index], at: usize) -> usize
    requires { at + length (items_left T.holds walk.now) ≤ length list.old }
    ensures written { take result list.new ≡ take at list.old ++ items_left T.holds walk.now }
    ensures within { result ≤ length list.new }
{
    let mut reads = Reads::none();
    let mut cursor = walk.cursor.copied();
    let (first, word) = take_lowest_word(&mut cursor);
    let mut end = write_word(list, at, first, word);
    'parts: while let Some((start, word)) = take_next_block(&walk.set, &mut cursor, &mut reads) {
        end = write_subtree(&walk.set, start, word, list, end);
    }
    end
}
