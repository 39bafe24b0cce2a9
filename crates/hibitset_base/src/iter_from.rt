//! Walks that begin at an index.
#![tactic(auto)]

ghost use Rattle.std.specs.Prelude.{◌≡◌, ◌+◌, ◌-◌, ◌%◌, ◌<◌, ◌≤◌, true, false};
ghost use Rattle.hibitset_base.specs.Bits.{HasPart};
ghost use Rattle.hibitset_base.specs.Members.{members};
ghost use Rattle.hibitset_base.specs.WalkFrom.{IsTail, IsAheadFrom, AreOver, BeginsAt, StartsAt, bit_over};
ghost use Rattle.hibitset_base.specs.Places.{items_of};
ghost use Rattle.hibitset_base.specs.Cursor.{cursor_places};
ghost use Rattle.hibitset_base.specs.WordsRead.{AllAreSet, words_under, words_of};
ghost use Rattle.hibitset_base.specs.declared.util.TheConstants.{LAYERS, MAX_EID};

use crate::bits::{tail, tail_after};
use crate::cursor::Cursor;
use crate::iter::{BitIter, read};
use crate::like::BitSetLike;
use crate::read_count::Reads;
use crate::util::{BITS, Index, LAYERS, MAX_EID};

// The bits of a word that an iteration from an index still visits: from the index's own bit on in layer 0, strictly
// after it above.
#[inline]
fn left_over(layer: usize, word: usize, place: u32) -> usize
    ensures lowest { layer ≡ 0 → HasPart word (place % 64) 64 result }
    ensures above { 0 < layer → HasPart word (place % 64 + 1) 64 result }
{
    if layer == 0 {
        tail(word, place % 64)
    } else {
        tail_after(word, place % 64)
    }
}

// Reads the word over an index in a layer, and returns what is left of it and whether the bit over the index is set.
#[inline]
fn read_over<T: BitSetLike>(set: &T, reads: &mut Reads, layer: usize, from: Index) -> (usize, bool)
    requires layer { layer < LAYERS }
    requires within { from < MAX_EID }
    ensures tail { IsTail (T.word set.now) from layer result.0 }
    ensures stands { result.1 ≡ true → bit_over (T.word set.now) from layer ≡ 1 }
    ensures clear { result.1 ≡ false → bit_over (T.word set.now) from layer ≡ 0 }
    ensures reads { reads.new.count ≡ reads.old.count + 1 }
{
    let place = from >> (BITS * layer);
    let word = read(set, reads, layer, place >> BITS);
    let stands = word >> (place % 64) & 1 == 1;
    (left_over(layer, word, place), stands)
}

// Where the words over an index begin in their layers.
#[inline]
fn prefixes_over(from: Index) -> [u32; LAYERS]
    ensures { AreOver LAYERS from result }
{
    let mut prefixes = [0; LAYERS];
    'layers: for layer in 0..LAYERS {
        prefixes[layer] = from >> (BITS * (layer + 1)) << BITS;
    }
    prefixes
}

// Reads the words over an index from the top layer down, as long as the bit over the index is set, and returns what is
// left of each.
#[inline]
fn tails_over<T: BitSetLike>(
    set: &T,
    reads: &mut Reads,
    from: Index,
    prefixes: [u32; LAYERS],
) -> [usize; LAYERS]
    requires within { from < MAX_EID }
    requires prefixes { AreOver LAYERS from prefixes }
    requires fresh { reads.old.count ≡ 0 }
    ensures { BeginsAt LAYERS (T.word set.now) from reads.new.count result prefixes }
{
    let mut masks = [0; LAYERS];
    'layers: for depth in 0..LAYERS {
        let layer = LAYERS - 1 - depth;
        let (mask, stands) = read_over(set, reads, layer, from);
        masks[layer] = mask;
        if !stands {
            return masks;
        }
    }
    masks
}

// Reads the words over an index, and returns where a walk begins that goes over the members from it on.
#[inline]
fn begin_at<T: BitSetLike>(set: &T, reads: &mut Reads, from: Index) -> Cursor<LAYERS>
    requires within { from < MAX_EID }
    requires fresh { reads.old.count ≡ 0 }
    ensures read { reads.new.count ≤ LAYERS }
    ensures items { items_of (T.holds set.now) (cursor_places result)
        ≡ members (T.holds set.now) from (MAX_EID - from) }
    ensures from_set { AllAreSet (T.word set.now) (cursor_places result) }
    ensures ahead { IsAheadFrom from reads.new.count (words_under (T.word set.now) LAYERS 0)
        (words_of (T.word set.now) (cursor_places result)) }
{
    let prefixes = prefixes_over(from);
    let masks = tails_over(set, reads, from, prefixes);
    Cursor::new(masks, prefixes)
}

impl<T: BitSetLike> BitIter<T> {
    // Starts at an index.
    #[inline]
    pub(crate) fn from_index(set: T, from: Index) -> Self
        ensures { StartsAt T.holds T.word set from result }
    {
        let mut reads = Reads::none();
        if from as usize >= MAX_EID {
            return BitIter {
                set,
                cursor: Cursor::at_top(0),
                reads,
            };
        }
        let cursor = begin_at(&set, &mut reads, from);
        BitIter { set, cursor, reads }
    }
}
