//! What is left of a walk, taken by whole words and blocks of 64 words.
#![tactic(auto, unfolding(crate::specs::Walk::items_left, crate::specs::Walk::set_of))]

ghost use Rattle.std.specs.Prelude.{◌≡◌, ℕ, Bool, ◌-◌, ◌%◌, ◌^◌, ◌<◌, ◌++◌, ◌∷◌, [], MatchOption, IfSome, None};
ghost use Rattle.hibitset_base.specs.Places.{places_in, bits_from, items_of};
ghost use Rattle.hibitset_base.specs.Cursor.{cursor_places, IsEmptyBelow};
ghost use Rattle.hibitset_base.specs.WordsRead.{ReadsTo};
ghost use Rattle.hibitset_base.specs.declared.util.TheConstants.{LAYERS, MAX_EID};

use crate::cursor::Cursor;
use crate::iter::{load_next_from_layer2, load_next_word};
use crate::like::BitSetLike;
use crate::read_count::Reads;
use crate::util::{BITS, Index, LAYERS};

pub(crate) mod count;
pub(crate) mod fold;
pub(crate) mod list;
pub(crate) mod slice;
pub(crate) mod word_indices;

// Takes the next word of layer 0 out of the cursor, which reads it if it has to: the position of its bit 0, and the
// word. `None` at the end.
#[inline]
pub(crate) fn take_next_word<T: BitSetLike>(
    set: &T,
    cursor: &mut Cursor<LAYERS>,
    reads: &mut Reads,
) -> Option<(Index, usize)>
    ensures end { result ≡ None → (cursor_places cursor.new ≡ []) }
    ensures goes { MatchOption result (ReadsTo LAYERS (T.holds set.now) (T.word set.now)
        reads.old.count (cursor_places cursor.old) reads.new.count (cursor_places cursor.new))
        (λ found. ReadsTo LAYERS (T.holds set.now) (T.word set.now) reads.old.count
        (cursor_places cursor.old) reads.new.count
        (places_in 0 (bits_from found.0 found.1) ++ cursor_places cursor.new)) }
    ensures nonzero { IfSome result (λ found. (0 < found.1) × (found.1 < 2 ^ 64)) }
    ensures within { IfSome result (λ found. (found.0 % 64 ≡ 0) × (found.0 < MAX_EID)) }
{
    'layers: while cursor.is_empty(0) {
        if !load_next_word(set, cursor, reads) {
            return None;
        }
    }
    Some(cursor.take_word(0))
}

// Takes the next word of layer 1 out of the cursor: the position of its bit 0, and the word. `None` at the end. Layer 0
// must be empty.
#[inline]
pub(crate) fn take_next_block<T: BitSetLike>(
    set: &T,
    cursor: &mut Cursor<LAYERS>,
    reads: &mut Reads,
) -> Option<(u32, usize)>
    requires { IsEmptyBelow cursor.old 1 }
    ensures end { result ≡ None → (cursor_places cursor.new ≡ []) }
    ensures goes { MatchOption result (ReadsTo LAYERS (T.holds set.now) (T.word set.now)
        reads.old.count (cursor_places cursor.old) reads.new.count (cursor_places cursor.new))
        (λ found. ReadsTo LAYERS (T.holds set.now) (T.word set.now) reads.old.count
        (cursor_places cursor.old) reads.new.count
        (places_in 1 (bits_from found.0 found.1) ++ cursor_places cursor.new)) }
    ensures nonzero { IfSome result (λ found. (0 < found.1) × (found.1 < 2 ^ 64)) }
    ensures within { IfSome result (λ found. (found.0 % 64 ≡ 0) × (found.0 < 64 ^ (LAYERS - 1))) }
    ensures empty_below { IfSome result (λ _. IsEmptyBelow cursor.new 1) }
{
    'layers: while cursor.is_empty(1) {
        if !load_next_from_layer2(set, cursor, reads) {
            return None;
        }
    }
    Some(cursor.take_word(1))
}

// Takes the first bit of a word of layer 1, whose own first bit is at `start`, and reads the word of layer 0 under it:
// the position of that word's first bit, and the word.
#[inline]
pub(crate) fn take_child<T: BitSetLike>(set: &T, start: u32, rest: &mut usize) -> (Index, usize)
    requires nonzero { 0 < rest.old }
    requires aligned { start % 64 ≡ 0 }
    requires within { start < 64 ^ (LAYERS - 1) }
    ensures items { items_of (T.holds set.now) (places_in 1 (bits_from start rest.old))
        ≡ bits_from result.0 result.1 ++ items_of (T.holds set.now)
        (places_in 1 (bits_from start rest.new)) }
    ensures less { rest.new < rest.old }
    ensures fits { result.1 < 2 ^ 64 }
    ensures within { (result.0 % 64 ≡ 0) × (result.0 < MAX_EID) }
{
    let position = start | rest.trailing_zeros();
    *rest &= *rest - 1;
    (position << BITS, set.layer0(position as usize))
}

// Takes what is left in layer 0: the position of the first bit of its word, and the word, which is 0 where nothing is
// left.
#[inline]
pub(crate) fn take_lowest_word(cursor: &mut Cursor<LAYERS>) -> (Index, usize)
    ensures items { (holds : ℕ → Bool)
        → items_of holds (cursor_places cursor.old)
        ≡ bits_from result.0 result.1 ++ items_of holds (cursor_places cursor.new) }
    ensures empty_below { IsEmptyBelow cursor.new 1 }
    ensures fits { result.1 < 2 ^ 64 }
    ensures within { (result.0 % 64 ≡ 0) × (result.0 < MAX_EID) }
{
    if cursor.is_empty(0) {
        return (0, 0);
    }
    cursor.take_word(0)
}

// Takes the first bit of a word whose own first bit is at `start`, and returns its index.
#[inline]
pub(crate) fn take_index(start: Index, rest: &mut usize) -> Index
    requires nonzero { 0 < rest.old }
    requires aligned { start % 64 ≡ 0 }
    ensures taken { bits_from start rest.old ≡ result ∷ bits_from start rest.new }
    ensures less { rest.new < rest.old }
{
    let index = start | rest.trailing_zeros();
    *rest &= *rest - 1;
    index
}
