//! How many members lie between two indices, and which one is at a position of the list of all.
ghost use Rattle.std.specs.Prelude.{◌≡◌, ℕ, ◌+◌, ◌-◌, ◌*◌, ◌%◌, ◌/◌, ◌^◌, ◌<◌, ◌≤◌, length, slice_get};
ghost use Rattle.hibitset_base.specs.Members.{members, members_below};
ghost use Rattle.hibitset_base.specs.Places.{places_in, bits_from, items_of};
ghost use Rattle.hibitset_base.specs.declared.util.TheConstants.{LAYERS, MAX_EID};

use crate::bits::part;
use crate::bulk::count::{count_left, count_subtree};
use crate::bulk::{take_child, take_index, take_next_block};
use crate::cursor::Cursor;
use crate::iter::{read, root_cursor};
use crate::like::BitSetLike;
use crate::read_count::Reads;
use crate::util::{Index, LAYERS};

// How many members lie under the bits of a word of a layer, where the first bit lies at `start`.
#[inline]
fn count_bits<T: BitSetLike>(set: &T, layer: usize, start: u32, word: usize) -> usize
    requires layer { layer < LAYERS }
    requires aligned { start % 64 ≡ 0 }
    requires within { start < 64 ^ (LAYERS - layer) }
    ensures { result ≡ length (items_of (T.holds set.now)
        (places_in layer (bits_from start word))) }
{
    if layer == 0 {
        return word.count_ones() as usize;
    }
    if layer == 1 {
        return count_subtree(set, start, word);
    }
    let mut cursor = Cursor::of_word(layer, start, word);
    count_left(set, &mut cursor, &mut Reads::none())
}

// How many members lie at the positions of a layer from one on before another, all in one word. It reads no word if
// there is no such position.
#[inline]
pub(crate) fn count_part<T: BitSetLike>(set: &T, layer: usize, from: u32, to: u32) -> usize
    requires layer { layer < LAYERS }
    requires one_word { to ≤ 64 * (from / 64) + 64 }
    requires within { to ≤ 64 ^ (LAYERS - layer) }
    ensures { result ≡ length (members (T.holds set.now) (from * 64 ^ layer)
        ((to - from) * 64 ^ layer)) }
{
    if to <= from {
        return 0;
    }
    let position = from / 64;
    let word = read(set, &mut Reads::none(), layer, position);
    let start = 64 * position;
    count_bits(set, layer, start, part(word, from % 64, to - start))
}

// How many members lie from `start` on before `end`. In each layer it counts what is left of the words at the two ends,
// and leaves the words between them to the layer above.
pub(crate) fn count_range<T: BitSetLike>(set: &T, start: Index, end: Index) -> usize
    requires { end ≤ MAX_EID }
    ensures { result ≡ length (members (T.holds set.now) start (end - start)) }
{
    let mut count = 0;
    let mut from = start;
    let mut to = end;
    'layers: for layer in 0..LAYERS {
        if to <= from {
            return count;
        }
        if from / 64 == (to - 1) / 64 {
            return count + count_part(set, layer, from, to);
        }
        let first = (from + 63) / 64;
        let last = to / 64;
        let lower = count_part(set, layer, from, 64 * first);
        let upper = count_part(set, layer, 64 * last, to);
        count += lower + upper;
        from = first;
        to = last;
    }
    count
}

// The index of the bit at a place of a word, where its bits are counted from the lowest up.
#[inline]
fn nth_bit(start: Index, word: usize, at: usize) -> Option<Index>
    requires { start % 64 ≡ 0 }
    ensures { result ≡ slice_get (bits_from start word) at }
{
    let mut rest = word;
    let mut left = at;
    'bits: while rest != 0 {
        let index = take_index(start, &mut rest);
        if left == 0 {
            return Some(index);
        }
        left -= 1;
    }
    None
}

// The member at a place of those in the words of layer 0 under the bits of a word of layer 1, whose first bit is at
// `start`.
#[inline]
pub(crate) fn nth_under<T: BitSetLike>(set: &T, start: u32, word: usize, at: usize) -> Option<Index>
    requires aligned { start % 64 ≡ 0 }
    requires within { start < 64 ^ (LAYERS - 1) }
    ensures { result ≡ slice_get (items_of (T.holds set.now) (places_in 1 (bits_from start word)))
        at }
{
    let mut rest = word;
    let mut left = at;
    'bits: while rest != 0 {
        let (first, lower) = take_child(set, start, &mut rest);
        let count = lower.count_ones() as usize;
        if left < count {
            return nth_bit(first, lower, left);
        }
        left -= count;
    }
    None
}

// The member at a place of the list of all. It counts by words of layer 1, and looks at single words under the last of
// them alone.
pub(crate) fn find_nth<T: BitSetLike>(set: &T, at: usize) -> Option<Index>
    ensures { result ≡ slice_get (members_below MAX_EID (T.holds set.now)) at }
{
    let mut reads = Reads::none();
    let mut cursor = root_cursor(set, &mut reads);
    let mut left = at;
    'parts: while let Some((start, word)) = take_next_block(set, &mut cursor, &mut reads) {
        let count = count_subtree(set, start, word);
        if left < count {
            return nth_under(set, start, word, left);
        }
        left -= count;
    }
    None
}
