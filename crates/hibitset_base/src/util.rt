//! The layers of a set: how many there are, and where in them an index lies.
ghost use Rattle.std.specs.Prelude.{◌≡◌, ℕ, ◌/◌, ◌%◌, ◌^◌, ◌≤◌, ◌<◌, MatchOption};
ghost use Rattle.std.specs.Int.{bit_at};
ghost use Rattle.std.specs.Int.RustNames.{count_ones};
ghost use Rattle.hibitset_base.specs.MiddleBit.{IsHalvingBit};

/// An index. The members of a set are indices below `MAX_EID`.
pub type Index = u32;

/// Base two logarithm of the number of bits in a word.
pub const BITS: usize = 6;

/// Number of layers of a set.
pub const LAYERS: usize = 5;

/// Base two logarithm of `MAX_EID`.
pub const MAX: usize = BITS * LAYERS;

/// Members lie below this bound.
pub const MAX_EID: usize = 2 << (MAX - 1);

/// Base two logarithm of how many indices a bit of layer 0 stands for.
pub const SHIFT0: usize = 0;

/// Base two logarithm of how many indices a bit of layer 1 stands for.
pub const SHIFT1: usize = SHIFT0 + BITS;

/// Base two logarithm of how many indices a bit of layer 2 stands for.
pub const SHIFT2: usize = SHIFT1 + BITS;

/// Base two logarithm of how many indices a bit of layer 3 stands for.
pub const SHIFT3: usize = SHIFT2 + BITS;

/// Base two logarithm of how many indices a bit of layer 4 stands for.
pub const SHIFT4: usize = SHIFT3 + BITS;

/// Where the bit over an index lies in the layer whose bits stand for `2^shift` indices each.
pub trait Row: Sized + Copy {
    // The index as a number.
    ghost number: { Self → ℕ };

    /// The number of the bit in its word, below 64. `shift` is at most `MAX`.
    fn row(self, shift: usize) -> usize
        requires { shift ≤ MAX }
        ensures { result ≡ number self / 2 ^ shift % 64 };

    /// The number of the bit in its layer. `shift` is at most `MAX`.
    fn offset(self, shift: usize) -> usize
        requires { shift ≤ MAX }
        ensures { result ≡ number self / 2 ^ shift };

    /// The word that has the bit alone. `shift` is at most `MAX`.
    #[inline]
    fn mask(self, shift: usize) -> usize
        requires { shift ≤ MAX }
        ensures { result ≡ 2 ^ (number self / 2 ^ shift % 64) }
    {
        1usize << self.row(shift)
    }
}

impl Row for Index {
    ghost number = { λ i. i };

    #[inline]
    fn row(self, shift: usize) -> usize {
        (self >> shift) as usize & ((1 << BITS) - 1)
    }

    #[inline]
    fn offset(self, shift: usize) -> usize {
        (self >> shift) as usize
    }
}

/// The positions of the words that an index lies in, in layers 0, 1, 2 and 3.
#[inline]
pub fn offsets(bit: Index) -> (usize, usize, usize, usize)
    ensures layer0 { result.0 ≡ bit / 64 }
    ensures layer1 { result.1 ≡ bit / 4096 }
    ensures layer2 { result.2 ≡ bit / 262144 }
    ensures layer3 { result.3 ≡ bit / 16777216 }
{
    (
        bit.offset(SHIFT1),
        bit.offset(SHIFT2),
        bit.offset(SHIFT3),
        bit.offset(SHIFT4),
    )
}

/// The halving bit of a word: the set bit with exactly half of the set bits, rounded down, at or above it. `None` if
/// fewer than two bits are set.
#[inline]
pub fn average_ones(n: usize) -> Option<usize>
    ensures { MatchOption result (count_ones n ≤ 1) (λ p. (1 < count_ones n) × IsHalvingBit n p) }
{
    let count = n.count_ones();
    let half = count / 2;
    if half == 0 {
        return None;
    }
    let mut upper = n;
    'lower: for _ in half..count {
        upper &= upper - 1;
    }
    Some(upper.trailing_zeros() as usize)
}
