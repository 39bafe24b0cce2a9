//! The indices of one word's bits, written into a buffer or pushed onto a list.
#![tactic(auto)]

ghost use Rattle.std.specs.Prelude.{◌≡◌, ℕ, List, ◌+◌, ◌-◌, ◌%◌, ◌^◌, ◌<◌, ◌≤◌, ◌++◌, length, take};
ghost use Rattle.std.specs.Int.RustNames.{count_ones};
ghost use Rattle.std.specs.Vec.{vec_capacity};
ghost use Rattle.hibitset_base.specs.WrittenIndices.{IsWritten};
ghost use Rattle.hibitset_base.specs.Places.{bits_from};
ghost use Rattle.hibitset_base.specs.declared.util.TheConstants.{MAX_EID};

use crate::byte_table::BITS_OF;
use crate::util::Index;

// Writes the index of the lowest set bit of `rest` to `buffer[end]`, and returns `rest` without it. For `rest == 0` it
// writes garbage: no branch.
#[inline]
pub(crate) fn write_bit(buffer: &mut [Index], end: usize, start: Index, rest: usize) -> usize
    requires long_enough { end < length buffer.old }
    requires aligned { start % 64 ≡ 0 }
    ensures { (at total : ℕ) (done : List ℕ) → IsWritten buffer.old at end total start rest done
        → IsWritten buffer.new at (end + 1) total start result done }
{
    buffer[end] = start | rest.trailing_zeros();
    rest & rest.wrapping_sub(1)
}

// Writes the indices of a word's first four bits into a buffer, from a place on, or what does not matter where it has
// fewer, and returns the word without them.
#[inline]
fn write_four(buffer: &mut [Index], at: usize, start: Index, word: usize) -> usize
    requires long_enough { at + 4 ≤ length buffer.old }
    requires aligned { start % 64 ≡ 0 }
    ensures { IsWritten buffer.new at (at + 4) (count_ones word) start result
        (take at buffer.old ++ bits_from start word) }
{
    let mut rest = word;
    'four: for bit in 0..4usize {
        rest = write_bit(buffer, at + bit, start, rest);
    }
    rest
}

// Writes the indices of a word's bits into a buffer, from a place on. It goes by eights, so it may write past them.
#[inline]
fn write_by_eights(buffer: &mut [Index], at: usize, start: Index, word: usize)
    requires long_enough { at + 64 ≤ length buffer.old }
    requires aligned { start % 64 ≡ 0 }
    ensures { take (at + count_ones word) buffer.new ≡ take at buffer.old ++ bits_from start word }
{
    let mut rest = word;
    let mut end = at;
    'eights: while rest != 0 {
        'bits: for bit in 0..8usize {
            rest = write_bit(buffer, end + bit, start, rest);
        }
        end += 8;
    }
}

// Writes the indices of a word with all bits set into a buffer, from a place on. The loop is vectorized.
#[inline]
fn write_all(buffer: &mut [Index], at: usize, start: Index)
    requires long_enough { at + 64 ≤ length buffer.old }
    requires within { start + 64 ≤ 2 ^ 32 }
    ensures { take (at + 64) buffer.new ≡ take at buffer.old ++ bits_from start (2 ^ 64 - 1) }
{
    'bits: for bit in 0..64usize {
        buffer[at + bit] = start + bit as Index;
    }
}

// Writes the indices of a byte's bits into a buffer, from a place on, where the first is at `start`, and returns the
// place after them. It writes eight, so it may write past that place: the loop has no test and is vectorized. Where the
// row begins has as many bits as the byte, and is at hand.
#[inline]
pub(crate) fn write_byte(buffer: &mut [Index], at: usize, start: Index, byte: u8) -> usize
    requires long_enough { at + 8 ≤ length buffer.old }
    requires within { start + 8 ≤ 2 ^ 32 }
    ensures written { take result buffer.new ≡ take at buffer.old ++ bits_from start byte }
    ensures max { result ≤ at + 8 }
{
    let row = 8 * byte as usize;
    'places: for place in 0..8usize {
        buffer[at + place] = start + BITS_OF[row + place];
    }
    at + row.count_ones() as usize
}

// Writes the indices of a word's bits into a buffer, from a place on, byte by byte, and returns the place after them.
// It is called where it pays: in line it would take registers from the loop around it.
#[inline(never)]
fn write_by_bytes(buffer: &mut [Index], at: usize, start: Index, word: usize) -> usize
    requires long_enough { at + 64 ≤ length buffer.old }
    requires within { start + 64 ≤ 2 ^ 32 }
    ensures written { take result buffer.new ≡ take at buffer.old ++ bits_from start word }
    ensures max { result ≤ at + 64 }
{
    let mut end = at;
    'bytes: for place in 0..8u32 {
        end = write_byte(
            buffer,
            end,
            start + 8 * place,
            (word >> (8 * place) & 255) as u8,
        );
    }
    end
}

/// How many bits a word has at most that are written four and then eight at a time. Where there are more, a table of
/// bytes is faster.
pub(crate) const MAX_BITS_BY_EIGHTS: usize = 12;

// Writes the indices of a word's bits into a buffer, from a place on, and returns the place after them. Most words of a
// sparse set have no more than four, and those of a dense one all. It may write past that place.
#[inline]
pub(crate) fn write_bits(buffer: &mut [Index], at: usize, start: Index, word: usize) -> usize
    requires long_enough { at + 68 ≤ length buffer.old }
    requires aligned { start % 64 ≡ 0 }
    requires within { start < MAX_EID }
    ensures written { take result buffer.new ≡ take at buffer.old ++ bits_from start word }
    ensures max { result ≤ at + 64 }
{
    if word == usize::MAX {
        write_all(buffer, at, start);
        return at + 64;
    }
    let count = word.count_ones() as usize;
    if count > MAX_BITS_BY_EIGHTS {
        return write_by_bytes(buffer, at, start, word);
    }
    let rest = write_four(buffer, at, start, word);
    if count <= 4 {
        return at + count;
    }
    write_by_eights(buffer, at + 4, start, rest);
    at + count
}

// Puts the indices of a word's first `count` bits at the end of a list, or what does not matter where it has fewer, and
// returns the list and the word without them. The list is handed over and back, as each function here does that adds to
// one without a test, so that a loop has the place where it ends in a register.
#[inline]
fn push_first(list: Vec<Index>, start: Index, word: usize, count: usize) -> (Vec<Index>, usize)
    requires capacity { length list.items + count ≤ vec_capacity list }
    requires aligned { start % 64 ≡ 0 }
    ensures written { (at total : ℕ) (done : List ℕ)
        → IsWritten list.items at (length list.items) total start word done
        → IsWritten result.0.items at (length result.0.items) total start result.1 done }
    ensures longer { length result.0.items ≡ length list.items + count }
    ensures same_capacity { vec_capacity result.0 ≡ vec_capacity list }
{
    let mut list = list;
    let mut rest = word;
    'bits: for _bit in 0..count {
        list.push_reserved(start | rest.trailing_zeros());
        rest &= rest.wrapping_sub(1);
    }
    (list, rest)
}

// Puts the indices of a word's bits, of which it has `count`, at most twelve, at the end of a list. It goes by four and
// then by eight, and cuts what is too much. Most words of a sparse set have no more than four.
#[inline]
fn push_few(list: Vec<Index>, start: Index, word: usize, count: usize) -> Vec<Index>
    requires capacity { length list.items + 12 ≤ vec_capacity list }
    requires aligned { start % 64 ≡ 0 }
    requires count { count ≡ count_ones word }
    requires max { count ≤ 12 }
    ensures pushed { result.items ≡ list.items ++ bits_from start word }
    ensures same_capacity { vec_capacity result ≡ vec_capacity list }
{
    let end = list.len() + count;
    let (mut list, rest) = push_first(list, start, word, 4);
    if count > 4 {
        (list, _) = push_first(list, start, rest, 8);
    }
    list.truncate(end);
    list
}

// Puts the indices of a word with all bits set at the end of a list. The loop is vectorized.
#[inline]
fn push_all(list: Vec<Index>, start: Index) -> Vec<Index>
    requires capacity { length list.items + 64 ≤ vec_capacity list }
    requires within { start + 64 ≤ 2 ^ 32 }
    ensures pushed { result.items ≡ list.items ++ bits_from start (2 ^ 64 - 1) }
    ensures same_capacity { vec_capacity result ≡ vec_capacity list }
{
    let mut list = list;
    'bits: for bit in 0..64u32 {
        list.push_reserved(start + bit);
    }
    list
}

// Puts the indices of a byte's bits, where the first is at `start`, at the end of a list with room for eight more. It
// writes eight and cuts what is too much, so the loop has no test and is vectorized. The list is handed over and back,
// so that a loop has the place where it ends in a register.
#[inline]
pub(crate) fn push_byte(list: Vec<Index>, start: Index, byte: u8) -> Vec<Index>
    requires capacity { length list.items + 8 ≤ vec_capacity list }
    requires within { start + 8 ≤ 2 ^ 32 }
    ensures pushed { result.items ≡ list.items ++ bits_from start byte }
    ensures len_max { length result.items ≤ length list.items + 8 }
    ensures same_capacity { vec_capacity result ≡ vec_capacity list }
{
    let row = 8 * byte as usize;
    let end = list.len() + row.count_ones() as usize;
    let mut list = list;
    'places: for place in 0..8usize {
        list.push_reserved(start + BITS_OF[row + place]);
    }
    list.truncate(end);
    list
}

// Puts the indices of a word's bits at the end of a list, byte by byte.
#[inline]
fn push_by_bytes(list: Vec<Index>, start: Index, word: usize) -> Vec<Index>
    requires capacity { length list.items + 64 ≤ vec_capacity list }
    requires within { start + 64 ≤ 2 ^ 32 }
    ensures pushed { result.items ≡ list.items ++ bits_from start word }
    ensures same_capacity { vec_capacity result ≡ vec_capacity list }
{
    let mut list = list;
    'bytes: for place in 0..8u32 {
        list = push_byte(list, start + 8 * place, (word >> (8 * place) & 255) as u8);
    }
    list
}

// Puts the indices of a word's bits at the end of a list that has room for a whole word.
#[inline]
pub(crate) fn push_word(list: Vec<Index>, start: Index, word: usize) -> Vec<Index>
    requires capacity { length list.items + 64 ≤ vec_capacity list }
    requires aligned { start % 64 ≡ 0 }
    requires within { start < MAX_EID }
    ensures pushed { result.items ≡ list.items ++ bits_from start word }
    ensures same_capacity { vec_capacity result ≡ vec_capacity list }
{
    if word == usize::MAX {
        return push_all(list, start);
    }
    let count = word.count_ones() as usize;
    if count > MAX_BITS_BY_EIGHTS {
        return push_by_bytes(list, start, word);
    }
    push_few(list, start, word, count)
}
