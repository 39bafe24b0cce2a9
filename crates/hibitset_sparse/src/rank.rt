//! How many bits of a word are set below a bit: where a value lies in a list that has one for each bit that is set.
#![tactic(auto, unfolding(crate::specs::Rank::rank_in))]

ghost use Rattle.std.specs.Prelude.{◌≡◌, ◌≢◌, ℕ, ◌<◌};
ghost use Rattle.hibitset_sparse.specs.Rank.{rank_in, bit_is_set};

/// How many bits are set below a bit.
#[inline]
pub(crate) fn rank(word: usize, bit: usize) -> usize
    requires { bit < 64 }
    ensures { result ≡ rank_in word bit }
{
    let below = (1usize << bit) - 1;
    (word & below).count_ones() as usize
}

/// Returns whether a bit is set.
#[inline]
pub(crate) fn is_set(word: usize, bit: usize) -> bool
    requires { bit < 64 }
    ensures { result ≡ bit_is_set word bit }
{
    word >> bit & 1 == 1
}
