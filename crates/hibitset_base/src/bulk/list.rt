//! Lists of members, by whole words.
#![tactic(auto, unfolding(crate::specs::Walk::items_left, crate::specs::Walk::set_of))]

ghost use Rattle.std.specs.Prelude.{◌≡◌, ◌+◌, ◌-◌, ◌*◌, ◌%◌, ◌^◌, ◌<◌, ◌≤◌, ◌++◌, length, take, IfOk};
ghost use Rattle.std.specs.Vec.{vec_capacity};
ghost use Rattle.hibitset_base.specs.Members.{members, members_below};
ghost use Rattle.hibitset_base.specs.Places.{places_in, bits_from, items_of};
ghost use Rattle.hibitset_base.specs.Cursor.{cursor_places};
ghost use Rattle.hibitset_base.specs.Walk.{items_left};
ghost use Rattle.hibitset_base.specs.declared.util.TheConstants.{LAYERS, MAX_EID};
ghost use Rattle.hibitset_base.specs.declared.bulk.list.TheConstants.{INDICES_PER_BLOCK};

use crate::bulk::count::count_left;
use crate::bulk::word_indices::{push_word, write_bits};
use crate::bulk::{take_child, take_lowest_word, take_next_block, take_next_word};
use crate::cursor::Cursor;
use crate::iter::BitIter;
use crate::like::BitSetLike;
use crate::read_count::Reads;
use crate::util::{BITS, Index, LAYERS};
use std::alloc::{AllocError, Global};
use std::mem;

// How many members the words under a word of layer 1 have at most.
const INDICES_PER_BLOCK: usize = 64 * 64;

// Puts the members in the 64 words of layer 0 from a position on at the end of a list that has room for as many as
// there can be. So they are written where they stay, without a test. It is not inlined, and takes the list out of its
// place meanwhile, so that the loop has the registers to itself.
#[inline(never)]
fn push_block<T: BitSetLike>(set: &T, start: u32, list: &mut Vec<Index>)
    requires within { start + 64 ≤ 64 ^ (LAYERS - 1) }
    requires capacity { length list.old.items + INDICES_PER_BLOCK ≤ vec_capacity list.old }
    ensures { list.new.items ≡ list.old.items
        ++ members (T.holds set.now) (start * 64) INDICES_PER_BLOCK }
{
    let empty = Vec::new(*list.allocator());
    let mut taken = mem::replace(list, empty);
    'words: for word in 0..64u32 {
        let position = start + word;
        taken = push_word(taken, position << BITS, set.layer0(position as usize));
    }
    *list = taken;
}

// Empties a buffer into a list, where a word's bits might not fit behind those it has, and returns how many it has
// then.
#[inline]
fn flush_if_full(buffer: &[Index], end: usize, list: &mut Vec<Index>) -> Result<usize, AllocError>
    requires within { end ≤ length buffer.now }
    requires some_room { 68 ≤ length buffer.now }
    ensures same { IfOk result (λ n. list.new.items ++ take n buffer.now
        ≡ list.old.items ++ take end buffer.now) }
    ensures long_enough { IfOk result (λ n. n + 68 ≤ length buffer.now) }
{
    if buffer.len() - end < 68 {
        list.extend_from_slice(&buffer[..end])?;
        return Ok(0);
    }
    Ok(end)
}

// Puts the members in the words of layer 0 under the bits of a word of layer 1, whose first bit is at `start`, behind
// the first `end` items of a buffer, which is emptied into a list where it is full, and returns how many it has then.
// If all bits of the word are set and the list has room for what is under them, they go by way of no buffer.
#[inline]
fn list_subtree<T: BitSetLike>(
    set: &T,
    start: u32,
    word: usize,
    buffer: &mut [Index],
    end: usize,
    list: &mut Vec<Index>,
) -> Result<usize, AllocError>
    requires aligned { start % 64 ≡ 0 }
    requires within { start < 64 ^ (LAYERS - 1) }
    requires long_enough { 68 ≤ length buffer.old }
    requires end { end ≤ length buffer.old }
    ensures listed { IfOk result (λ n. list.new.items ++ take n buffer.new
        ≡ list.old.items ++ (take end buffer.old
        ++ items_of (T.holds set.now) (places_in 1 (bits_from start word)))) }
    ensures within { IfOk result (λ n. n ≤ length buffer.new) }
{
    if word == usize::MAX && list.capacity() - list.len() >= end + INDICES_PER_BLOCK {
        list.extend_from_slice(&buffer[..end])?;
        push_block(set, start, list);
        return Ok(0);
    }
    let mut end = end;
    let mut rest = word;
    'bits: while rest != 0 {
        let (first, lower) = take_child(set, start, &mut rest);
        end = flush_if_full(buffer, end, list)?;
        end = write_bits(buffer, end, first, lower);
    }
    Ok(end)
}

// Puts the items that are left at the end of a list, by way of a buffer but for whole blocks.
#[inline]
fn list_left<T: BitSetLike>(
    set: &T,
    cursor: &mut Cursor<LAYERS>,
    reads: &mut Reads,
    buffer: &mut [Index],
    list: &mut Vec<Index>,
) -> Result<(), AllocError>
    requires long_enough { 68 ≤ length buffer.old }
    ensures { IfOk result (λ _. list.new.items
        ≡ list.old.items ++ items_of (T.holds set.now) (cursor_places cursor.old)) }
{
    let (first, word) = take_lowest_word(cursor);
    let mut end = write_bits(buffer, 0, first, word);
    'parts: while let Some((start, word)) = take_next_block(set, cursor, reads) {
        end = list_subtree(set, start, word, buffer, end, list)?;
    }
    list.extend_from_slice(&buffer[..end])
}

// How many items the buffer has room for.
const BUFFER_ITEMS: usize = 256;

// After so many words a set counts as sparse if they have fewer than `MIN_BITS_PER_WORD` bits each.
const SAMPLE_WORDS: usize = 32;

// To go over words twice gains nothing where most have fewer bits than this.
const MIN_BITS_PER_WORD: usize = 4;

// To go by whole words gains nothing where so few items are left, or where hardly a word of the sample has more than
// one.
const MIN_SAMPLE_BITS: usize = 36;

// How many bits the first words have that are left, up to `SAMPLE_WORDS` of them. They are taken.
#[inline]
fn sample<T: BitSetLike>(set: &T, cursor: &mut Cursor<LAYERS>, reads: &mut Reads) -> usize {
    let mut room = 0;
    let mut words = 0;
    'words: while words < SAMPLE_WORDS {
        let Some((_, word)) = take_next_word(set, cursor, reads) else {
            return room;
        };
        room += word.count_ones() as usize;
        words += 1;
    }
    room
}

// How much to reserve for `to_vec`: the exact count; for a sparse set only what the sample has, and the list grows.
#[inline]
fn items_to_reserve<T: BitSetLike>(set: &T, cursor: &mut Cursor<LAYERS>) -> usize {
    let mut reads = Reads::none();
    let room = sample(set, cursor, &mut reads);
    if room < SAMPLE_WORDS * MIN_BITS_PER_WORD {
        return room;
    }
    room.saturating_add(count_left(set, cursor, &mut reads))
}

// The items that a walk has left, one after another, with so much room taken for them.
#[inline]
fn list_items<T: BitSetLike>(
    walk: BitIter<T>,
    alloc: Global,
    room: usize,
) -> Result<Vec<Index>, AllocError>
    ensures { IfOk result (λ v. v.items ≡ items_left T.holds walk) }
{
    let mut list = Vec::with_capacity(alloc, room)?;
    'items: for item in walk {
        list.push(item)?;
    }
    Ok(list)
}

// The items that a walk has left, by whole words, with so much room taken for them. It is not inlined: in line, it
// would take registers from the loop over single items.
#[inline(never)]
fn list_words<T: BitSetLike>(
    walk: BitIter<T>,
    alloc: Global,
    room: usize,
) -> Result<Vec<Index>, AllocError>
    ensures { IfOk result (λ v. v.items ≡ items_left T.holds walk) }
{
    let BitIter {
        set,
        mut cursor,
        mut reads,
    } = walk;
    let mut list = Vec::with_capacity(alloc, room)?;
    let mut buffer = [0; BUFFER_ITEMS];
    list_left(&set, &mut cursor, &mut reads, &mut buffer, &mut list)?;
    Ok(list)
}

// The items that a walk has left, with room for all of them taken at once, but for sparse sets.
pub(crate) fn list_walk<T: BitSetLike>(
    walk: BitIter<T>,
    alloc: Global,
) -> Result<Vec<Index>, AllocError>
    ensures { IfOk result (λ v. v.items ≡ items_left T.holds walk) }
{
    let room = items_to_reserve(&walk.set, &mut walk.cursor.copied());
    if room < MIN_SAMPLE_BITS {
        list_items(walk, alloc, room)
    } else {
        list_words(walk, alloc, room)
    }
}

// The members of a set.
#[inline]
pub(crate) fn list_members<T: BitSetLike>(set: &T, alloc: Global) -> Result<Vec<Index>, AllocError>
    ensures { IfOk result (λ v. v.items ≡ members_below MAX_EID (T.holds set.now)) }
{
    list_walk(BitIter::from_top(set), alloc)
}
