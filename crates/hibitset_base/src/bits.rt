//! The bits of one word, and one word replaced by another.
ghost use Rattle.std.specs.Prelude.{◌≡◌, ◌≢◌, ℕ, ◌+◌, ◌-◌, ◌^◌, ◌<◌, ◌≤◌, ◌↔◌, ◌∷◌, false, get_or, length};
ghost use Rattle.std.specs.Int.{bit_at};
ghost use Rattle.std.specs.Int.RustNames.{count_ones};
ghost use Rattle.hibitset_base.specs.Bits.{HasPart};
ghost use Rattle.hibitset_base.specs.Places.{bits_from};
ghost use Rattle.hibitset_base.specs.Ranges.{in_range};
ghost use Rattle.hibitset_base.specs.Sets.{bit_of};

/// A word whose lowest `count` bits are set.
#[inline]
pub fn low_bits(count: usize) -> usize
    requires { count ≤ 64 }
    ensures { result ≡ 2 ^ count - 1 }
{
    if count == 64 {
        usize::MAX
    } else {
        (1 << count) - 1
    }
}

/// The word whose bits stand for the numbers from `first` on, with those of the numbers from `start` on before `end`.
#[inline]
pub fn bits_within(first: usize, start: usize, end: usize) -> usize
    ensures { (b : ℕ) → b < 64 → bit_at result b ≡ bit_of (in_range start end (first + b)) }
{
    let before = low_bits(start.saturating_sub(first).min(64));
    low_bits(end.saturating_sub(first).min(64)) & !before
}

/// The bits of a word before a bit.
#[inline]
pub fn head(word: usize, bit: u32) -> usize
    requires { bit < 64 }
    ensures { HasPart word 0 bit result }
{
    word & ((1usize << bit) - 1)
}

/// The bits of a word from a bit on.
#[inline]
pub fn tail(word: usize, bit: u32) -> usize
    requires { bit < 64 }
    ensures { HasPart word bit 64 result }
{
    word & !((1usize << bit) - 1)
}

/// The bits of a word after a bit.
#[inline]
pub fn tail_after(word: usize, bit: u32) -> usize
    requires { bit < 64 }
    ensures { HasPart word (bit + 1) 64 result }
{
    word & (!1usize << bit)
}

/// The bits of a word from one bit on before another.
#[inline]
pub fn part(word: usize, from: u32, to: u32) -> usize
    requires order { from ≤ to }
    requires in_word { to ≤ 64 }
    ensures { HasPart word from to result }
{
    let upto = low_bits(to as usize);
    let before = low_bits(from as usize);
    let ones = upto - before;
    word & ones
}

/// The lowest bit that is set in a word, from one on; or 64.
#[inline]
pub fn next_bit(word: usize, from: usize) -> usize
    requires { from < 64 }
    ensures order { from ≤ result }
    ensures within { result ≤ 64 }
    ensures skips { (b : ℕ) → from ≤ b → b < result → bit_at word b ≡ 0 }
    ensures found { result < 64 → bit_at word result ≡ 1 }
{
    let rest = word >> from;
    if rest == 0 {
        64
    } else {
        from + rest.trailing_zeros() as usize
    }
}

/// Takes the lowest bit out of a word, and returns its number.
#[inline]
pub fn take_bit(word: &mut usize) -> usize
    requires { 0 < word.old }
    ensures in_word { result < 64 }
    ensures bit_was_set { bit_at word.old result ≡ 1 }
    ensures lowest { (b : ℕ) → b < result → bit_at word.old b ≡ 0 }
    ensures bit_cleared { bit_at word.new result ≡ 0 }
    ensures same { (b : ℕ) → b < 64 → b ≢ result → bit_at word.new b ≡ bit_at word.old b }
    ensures first { (start : ℕ) → bits_from start word.old
        ≡ (start + result) ∷ bits_from start word.new }
    ensures fewer { count_ones word.old ≡ count_ones word.new + 1 }
    ensures less { word.new < word.old }
{
    let bit = word.trailing_zeros();
    *word &= *word - 1;
    bit as usize
}

/// The number of the highest bit.
#[inline]
pub fn last_bit(word: usize) -> usize
    requires { 0 < word }
    ensures in_word { result < 64 }
    ensures bit_was_set { bit_at word result ≡ 1 }
    ensures highest { (b : ℕ) → bit_at word b ≡ 1 → b ≤ result }
{
    63 - word.leading_zeros() as usize
}

/// Takes the highest bit out of a word, and returns its number.
#[inline]
pub fn take_last_bit(word: &mut usize) -> usize
    requires { 0 < word.old }
    ensures in_word { result < 64 }
    ensures bit_was_set { bit_at word.old result ≡ 1 }
    ensures highest { (b : ℕ) → bit_at word.old b ≡ 1 → b ≤ result }
    ensures bit_cleared { bit_at word.new result ≡ 0 }
    ensures same { (b : ℕ) → b < 64 → b ≢ result → bit_at word.new b ≡ bit_at word.old b }
    ensures less { word.new < word.old }
{
    let bit = last_bit(*word);
    // A rotation and not a shift: LLVM makes a shift one by the leading zeros, and counts these again.
    *word &= (!1usize).rotate_left(bit as u32);
    bit
}

/// The word with one bit set or cleared.
#[inline]
pub fn with_bit(word: usize, bit: usize, stands: bool) -> usize
    requires { bit < 64 }
    ensures same { (b : ℕ) → b < 64 → b ≢ bit → bit_at result b ≡ bit_at word b }
    ensures here { bit_at result bit ≡ bit_of stands }
{
    if stands {
        word | (1 << bit)
    } else {
        word & !(1 << bit)
    }
}

/// The word of a slice at a position, or 0 past its end.
#[inline]
pub fn word_or_zero(words: &[usize], position: usize) -> usize
    ensures { result ≡ get_or words.now position 0 }
{
    if position < words.len() {
        words[position]
    } else {
        0
    }
}

/// Stores `word` at `place`, where `before` was, and returns whether exactly one of the two is 0.
#[inline]
pub fn replace(words: &mut Vec<usize>, place: usize, before: usize, word: usize) -> bool
    requires in_range { place < length words.old.items }
    requires before { before ≡ get_or words.old.items place 0 }
    ensures length { length words.new.items ≡ length words.old.items }
    ensures here { get_or words.new.items place 0 ≡ word }
    ensures others { (p : ℕ) → p ≢ place → get_or words.new.items p 0 ≡ get_or words.old.items p 0 }
    ensures same_summary { result ≡ false → (0 < get_or words.old.items place 0) ↔ (0 < word) }
{
    words[place] = word;
    (before == 0) != (word == 0)
}
