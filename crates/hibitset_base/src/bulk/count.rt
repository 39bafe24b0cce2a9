//! Counts of members, by whole words.
#![tactic(auto, unfolding(crate::specs::Walk::items_left, crate::specs::Walk::set_of))]

ghost use Rattle.std.specs.Prelude.{◌≡◌, ◌+◌, ◌-◌, ◌*◌, ◌%◌, ◌^◌, ◌<◌, ◌≤◌, length};
ghost use Rattle.hibitset_base.specs.Members.{members, members_below};
ghost use Rattle.hibitset_base.specs.Places.{places_in, bits_from, items_of};
ghost use Rattle.hibitset_base.specs.Cursor.{cursor_places, IsEmptyBelow};
ghost use Rattle.hibitset_base.specs.Walk.{items_left};
ghost use Rattle.hibitset_base.specs.declared.util.TheConstants.{LAYERS, MAX_EID};

use crate::bulk::{take_child, take_lowest_word, take_next_block};
use crate::cursor::Cursor;
use crate::iter::{BitIter, root_cursor};
use crate::like::BitSetLike;
use crate::read_count::Reads;
use crate::util::LAYERS;

// How many members lie in the 64 words of layer 0 from a position on.
#[inline]
fn count_block<T: BitSetLike>(set: &T, start: u32) -> usize
    requires { start + 64 ≤ 64 ^ (LAYERS - 1) }
    ensures { result ≡ length (members (T.holds set.now) (start * 64) (64 * 64)) }
{
    let mut count = 0;
    let mut word = 0;
    'words: while word < 64 {
        count += set.layer0(start as usize + word).count_ones() as usize;
        word += 1;
    }
    count
}

// How many members lie in the words of layer 0 under the bits of a word of layer 1, whose first bit is at `start`. If
// all bits are set, the words are gone over one after the other.
#[inline]
pub(crate) fn count_subtree<T: BitSetLike>(set: &T, start: u32, word: usize) -> usize
    requires aligned { start % 64 ≡ 0 }
    requires within { start < 64 ^ (LAYERS - 1) }
    ensures { result ≡ length (items_of (T.holds set.now) (places_in 1 (bits_from start word))) }
{
    if word == usize::MAX {
        return count_block(set, start);
    }
    let mut count = 0;
    let mut rest = word;
    'bits: while rest != 0 {
        let (_, lower) = take_child(set, start, &mut rest);
        count += lower.count_ones() as usize;
    }
    count
}

// How many items are left, where none is left in layer 0.
#[inline]
fn count_blocks<T: BitSetLike>(set: &T, cursor: &mut Cursor<LAYERS>, reads: &mut Reads) -> usize
    requires { IsEmptyBelow cursor.old 1 }
    ensures { result ≡ length (items_of (T.holds set.now) (cursor_places cursor.old)) }
{
    let mut count = 0;
    'parts: while let Some((start, word)) = take_next_block(set, cursor, reads) {
        count += count_subtree(set, start, word);
    }
    count
}

// How many items are left. It goes by words of layer 1, since what lies under one is counted without a look at the
// layers above.
#[inline]
pub(crate) fn count_left<T: BitSetLike>(
    set: &T,
    cursor: &mut Cursor<LAYERS>,
    reads: &mut Reads,
) -> usize
    ensures { result ≡ length (items_of (T.holds set.now) (cursor_places cursor.old)) }
{
    let (_, word) = take_lowest_word(cursor);
    word.count_ones() as usize + count_blocks(set, cursor, reads)
}

// How many members a set has.
#[inline]
pub(crate) fn count_members<T: BitSetLike>(set: &T) -> usize
    ensures { result ≡ length (members_below MAX_EID (T.holds set.now)) }
{
    let mut reads = Reads::none();
    let mut cursor = root_cursor(set, &mut reads);
    count_left(set, &mut cursor, &mut reads)
}

// How many items a walk has left.
pub(crate) fn count_walk<T: BitSetLike>(walk: &BitIter<T>) -> usize
    ensures { result ≡ length (items_left T.holds walk.now) }
{
    let mut reads = Reads::none();
    let mut cursor = walk.cursor.copied();
    count_left(&walk.set, &mut cursor, &mut reads)
}
