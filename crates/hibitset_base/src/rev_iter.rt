//! Walks over a set, in descending order.
#![tactic(auto, unfolding(crate::specs::RevWalk::rev_items_left, crate::specs::RevWalk::rev_set_of))]

ghost use Rattle.std.specs.Prelude.{◌≡◌, ◌+◌, ◌-◌, ◌*◌, ◌^◌, ◌<◌, ◌≤◌, ◌++◌, ◌∷◌, [], true, false, None, MatchOption};
ghost use Rattle.std.specs.Iterator.{item_count};
ghost use Rattle.hibitset_base.specs.Members.{members, members_below};
ghost use Rattle.hibitset_base.specs.Places.{places_in, items_of};
ghost use Rattle.hibitset_base.specs.Ranks.{start_over};
ghost use Rattle.hibitset_base.specs.WordsRead.{AllAreSet};
ghost use Rattle.hibitset_base.specs.Walk.{AreUnderTop};
ghost use Rattle.hibitset_base.specs.RevCursor.{rev_left, rev_mask, IsRevEmptyBelow};
ghost use Rattle.hibitset_base.specs.RevPlaces.{GoesBack};
ghost use Rattle.hibitset_base.specs.RevWalk.{StartsAtEnd, StartsBefore, rev_items_left, RevWalkSteps};
ghost use Rattle.hibitset_base.specs.declared.util.TheConstants.{LAYERS, MAX_EID};

use crate::bits::head;
use crate::iter::read;
use crate::like::BitSetLike;
use crate::read_count::Reads;
use crate::rev_cursor::RevCursor;
use crate::util::{BITS, Index, LAYERS, MAX_EID};

/// A walk over the members of a set, in descending order.
#[derive(Debug, Drop)]
pub struct BitRevIter<T> {
    pub(crate) set: T,
    pub(crate) cursor: RevCursor<LAYERS>,
    pub(crate) reads: Reads,
}

// Reads the top word of a set, and returns where a walk down begins.
#[inline]
pub(crate) fn start_at_end<T: BitSetLike>(set: &T, reads: &mut Reads) -> RevCursor<LAYERS>
    ensures reads { reads.new.count ≡ reads.old.count + 1 }
    ensures start { AreUnderTop (T.holds set.now) (T.word set.now) (rev_left result) }
{
    let word = read(set, reads, LAYERS - 1, 0);
    let mut cursor = RevCursor::<LAYERS>::empty();
    cursor.push_bits(LAYERS - 1, 0, word);
    cursor
}

// Reads the word over an index in a layer, leaves its bits before the index to the walk, and returns whether the bit
// over the index is set.
#[inline]
pub(crate) fn put_head<T: BitSetLike>(
    set: &T,
    cursor: &mut RevCursor<LAYERS>,
    reads: &mut Reads,
    layer: usize,
    end: Index,
) -> bool
    requires layer { layer < LAYERS }
    requires within { end < MAX_EID }
    requires lowest { IsRevEmptyBelow cursor.old (layer + 1) }
    ensures items { items_of (T.holds set.now) (rev_left cursor.new)
        ≡ items_of (T.holds set.now) (rev_left cursor.old)
        ++ members (T.holds set.now) (start_over end (layer + 1))
        (start_over end layer - start_over end (layer + 1)) }
    ensures from_set { AllAreSet (T.word set.now) (rev_left cursor.old)
        → AllAreSet (T.word set.now) (rev_left cursor.new) }
    ensures clear { result ≡ false → members (T.holds set.now) (start_over end layer) (64 ^ layer)
        ≡ [] }
    ensures reads { reads.new.count ≡ reads.old.count + 1 }
    ensures empty_below { IsRevEmptyBelow cursor.new layer }
{
    let place = end >> (BITS * layer);
    let word = read(set, reads, layer, place >> BITS);
    cursor.push_bits(layer, place >> BITS, head(word, place % 64));
    word >> (place % 64) & 1 == 1
}

// Reads the words over an index from the top layer down, as long as the bit over the index is set, and returns where a
// walk down begins that gives the members before it.
#[inline]
fn start_before<T: BitSetLike>(set: &T, reads: &mut Reads, end: Index) -> RevCursor<LAYERS>
    requires { end < MAX_EID }
    ensures read { reads.new.count ≤ reads.old.count + LAYERS }
    ensures items { items_of (T.holds set.now) (rev_left result)
        ≡ members_below end (T.holds set.now) }
    ensures from_set { AllAreSet (T.word set.now) (rev_left result) }
{
    let mut cursor = RevCursor::<LAYERS>::empty();
    'layers: for depth in 0..LAYERS {
        if !put_head(set, &mut cursor, reads, LAYERS - 1 - depth, end) {
            return cursor;
        }
    }
    cursor
}

// Reads the word under the last bit of `layer`, to go on from there. False if no bit is left in `layer`.
#[inline]
fn descend_last<T: BitSetLike>(
    set: &T,
    cursor: &mut RevCursor<LAYERS>,
    reads: &mut Reads,
    layer: usize,
) -> bool
    requires layer { layer < LAYERS }
    requires above { 0 < layer }
    requires lowest { IsRevEmptyBelow cursor.old layer }
    ensures end { result ≡ false → IsRevEmptyBelow cursor.new (layer + 1) }
    ensures goes { GoesBack LAYERS (T.holds set.now) (T.word set.now) reads.old.count
        (rev_left cursor.old) reads.new.count (rev_left cursor.new) }
    ensures same { result ≡ false → reads.new.count ≡ reads.old.count }
    ensures reads_min { result ≡ true → reads.old.count < reads.new.count }
{
    if cursor.is_empty(layer) {
        return false;
    }
    let position = cursor.take_last(layer);
    let word = read(set, reads, layer - 1, position);
    cursor.push_bits(layer - 1, position, word);
    true
}

// Reads the word under the last bit that is left above layer 2. False if none is left.
#[inline]
fn load_last_from_layer3<T: BitSetLike>(
    set: &T,
    cursor: &mut RevCursor<LAYERS>,
    reads: &mut Reads,
) -> bool
    requires { IsRevEmptyBelow cursor.old 3 }
    ensures end { result ≡ false → IsRevEmptyBelow cursor.new LAYERS }
    ensures goes { GoesBack LAYERS (T.holds set.now) (T.word set.now) reads.old.count
        (rev_left cursor.old) reads.new.count (rev_left cursor.new) }
    ensures reads_min { result ≡ true → reads.old.count < reads.new.count }
{
    if descend_last(set, cursor, reads, 3) {
        return true;
    }
    descend_last(set, cursor, reads, 4)
}

// Reads the word under the last bit that is left above layer 1. False if none is left.
#[inline]
fn load_last_from_layer2<T: BitSetLike>(
    set: &T,
    cursor: &mut RevCursor<LAYERS>,
    reads: &mut Reads,
) -> bool
    requires { IsRevEmptyBelow cursor.old 2 }
    ensures end { result ≡ false → IsRevEmptyBelow cursor.new LAYERS }
    ensures goes { GoesBack LAYERS (T.holds set.now) (T.word set.now) reads.old.count
        (rev_left cursor.old) reads.new.count (rev_left cursor.new) }
    ensures reads_min { result ≡ true → reads.old.count < reads.new.count }
{
    if descend_last(set, cursor, reads, 2) {
        return true;
    }
    load_last_from_layer3(set, cursor, reads)
}

// Reads the word under the last bit that is left above layer 0. False if none is left.
#[inline]
fn load_last_word<T: BitSetLike>(set: &T, cursor: &mut RevCursor<LAYERS>, reads: &mut Reads) -> bool
    requires { IsRevEmptyBelow cursor.old 1 }
    ensures end { result ≡ false → IsRevEmptyBelow cursor.new LAYERS }
    ensures goes { GoesBack LAYERS (T.holds set.now) (T.word set.now) reads.old.count
        (rev_left cursor.old) reads.new.count (rev_left cursor.new) }
    ensures reads_min { result ≡ true → reads.old.count < reads.new.count }
{
    if descend_last(set, cursor, reads, 1) {
        return true;
    }
    load_last_from_layer2(set, cursor, reads)
}

// The last index that is left, which is taken.
#[inline(always)]
pub(crate) fn previous_index<T: BitSetLike>(
    set: &T,
    cursor: &mut RevCursor<LAYERS>,
    reads: &mut Reads,
) -> Option<Index>
    ensures end { result ≡ None → (rev_left cursor.new ≡ []) }
    ensures goes { MatchOption result (GoesBack LAYERS (T.holds set.now) (T.word set.now)
        reads.old.count (rev_left cursor.old) reads.new.count (rev_left cursor.new))
        (λ i. GoesBack LAYERS (T.holds set.now) (T.word set.now) reads.old.count
        (rev_left cursor.old) reads.new.count
        (rev_left cursor.new ++ ((record { layer = 0; position = i }) ∷ []))) }
{
    'layers: while cursor.is_empty(0) {
        if !load_last_word(set, cursor, reads) {
            return None;
        }
    }
    Some(cursor.take_last(0))
}

impl<T: BitSetLike> BitRevIter<T> {
    // Starts at the end of the set.
    #[inline]
    pub(crate) fn from_end(set: T) -> Self
        ensures { StartsAtEnd T.holds T.word set result }
    {
        let mut reads = Reads::none();
        let cursor = start_at_end(&set, &mut reads);
        BitRevIter { set, cursor, reads }
    }

    // Starts before an index.
    #[inline]
    pub(crate) fn from_before(set: T, end: Index) -> Self
        ensures { StartsBefore T.holds T.word set end result }
    {
        if end as usize >= MAX_EID {
            return BitRevIter::from_end(set);
        }
        let mut reads = Reads::none();
        let cursor = start_before(&set, &mut reads, end);
        BitRevIter { set, cursor, reads }
    }
}

impl<T: BitSetLike> Iterator for BitRevIter<T> {
    type Item = Index;

    ghost next_gives = { RevWalkSteps T.holds T.word };

    ghost remaining = { item_count (rev_items_left T.holds) };

    #[inline]
    fn next(&mut self) -> Option<Index> {
        previous_index(&self.set, &mut self.cursor, &mut self.reads)
    }
}
