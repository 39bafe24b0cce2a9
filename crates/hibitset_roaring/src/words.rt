//! The words of layer 0 of a set, into which members are put.

ghost use Rattle.std.specs.Prelude.{◌≡◌, ℕ, ◌+◌, ◌*◌, ◌/◌, ◌^◌, ◌<◌, ◌≤◌, ◌==◌, ◌||◌, length, OnOk};
ghost use Rattle.hibitset.specs.WordBits.{stands_in, in_range};

use hibitset_base::bits::{bits_within, with_bit};
use std::alloc::AllocError;

// Puts zero words behind others, up to a length.
pub(crate) fn lengthen(words: &mut Vec<usize>, len: usize) -> Result<(), AllocError>
    requires { length words.old.items ≤ len }
    ensures same { (i : ℕ) → stands_in words.new.items i ≡ stands_in words.old.items i }
    ensures length { OnOk result (length words.new.items ≡ len) }
{
    words.resize(len, 0)
}

// Sets the bit of a number.
#[inline]
pub(crate) fn set_bit(words: &mut [usize], number: usize)
    requires { number / 64 < length words.old }
    ensures { (i : ℕ) → stands_in words.new i ≡ (stands_in words.old i || i == number) }
{
    let slot = number / 64;
    words[slot] = with_bit(words[slot], number % 64, true);
}

// Sets the bits of the numbers from one on before another, word by word.
fn set_some(words: &mut [usize], start: usize, end: usize)
    requires order { start ≤ end }
    requires long_enough { end ≤ 64 * length words.old }
    requires in_range { end < 2 ^ 62 }
    ensures { (i : ℕ) → stands_in words.new i ≡ (stands_in words.old i || in_range start end i) }
{
    'slots: for slot in start / 64..(end + 63) / 64 {
        words[slot] |= bits_within(64 * slot, start, end);
    }
}

// Sets all bits of the words from one on before another.
fn fill(words: &mut [usize], from: usize, to: usize)
    requires order { from ≤ to }
    requires long_enough { to ≤ length words.old }
    ensures { (i : ℕ) → stands_in words.new i
        ≡ (stands_in words.old i || in_range (64 * from) (64 * to) i) }
{
    'slots: for slot in from..to {
        words[slot] = usize::MAX;
    }
}

// Sets the bits of the numbers from one on before another: those of whole words first, and then those at the ends.
pub(crate) fn set_range(words: &mut [usize], start: usize, end: usize)
    requires order { start ≤ end }
    requires long_enough { end ≤ 64 * length words.old }
    requires in_range { end < 2 ^ 62 }
    ensures { (i : ℕ) → stands_in words.new i ≡ (stands_in words.old i || in_range start end i) }
{
    let from = (start + 63) / 64;
    let to = end / 64;
    if to <= from {
        set_some(words, start, end);
        return;
    }
    fill(words, from, to);
    set_some(words, start, 64 * from);
    set_some(words, 64 * to, end);
}
