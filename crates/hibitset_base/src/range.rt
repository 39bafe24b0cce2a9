//! A range of indices as a set whose words are computed.
ghost use Rattle.std.specs.Prelude.{◌≡◌, ℕ, ◌+◌, ◌-◌, ◌*◌, ◌/◌, ◌^◌, ◌≤◌, min};
ghost use Rattle.hibitset_base.specs.Ranges.{in_range, run_word, range_word, range_lawful};
ghost use Rattle.hibitset_base.specs.declared.util.TheConstants.{LAYERS};

use crate::bits::bits_within;
use crate::like::BitSetLike;
use crate::util::{Index, LAYERS, SHIFT1, SHIFT2, SHIFT3, SHIFT4};

// The word `place` of a layer, with the bits of the positions from `from` on before `to`. Most words of a long range
// have all bits, so that is asked first.
#[inline]
fn word_of_range(from: usize, to: usize, place: usize) -> usize
    ensures { result ≡ run_word from to place }
{
    let first = place.saturating_mul(64);
    if from <= first && to.saturating_sub(first) >= 64 {
        return usize::MAX;
    }
    bits_within(first, from, to)
}

/// The indices from `start` on before `end`, as a set: `&set & range` has the members of a set within a range.
///
/// It keeps no words. If `end` is not above `start` it is empty. It has numbers from `MAX_EID` on too, if `end` lies
/// above; walks and counts stop below. Above layer 0 it has the bits over its indices, and if it is empty at most one
/// phantom bit in a layer.
#[derive(Debug, Clone, Copy)]
pub struct BitSetRange {
    pub start: Index,
    pub end: Index,
}

impl BitSetLike for BitSetRange {
    ghost holds = { λ s. in_range s.start s.end };

    ghost word = { λ s. range_word s.start s.end };

    ghost lawful = { λ s. range_lawful LAYERS s.start s.end };

    #[inline]
    fn layer4(&self) -> usize {
        word_of_range(
            self.start as usize >> SHIFT4,
            (self.end as usize).div_ceil(1 << SHIFT4),
            0,
        )
    }

    #[inline]
    fn layer3(&self, i: usize) -> usize {
        word_of_range(
            self.start as usize >> SHIFT3,
            (self.end as usize).div_ceil(1 << SHIFT3),
            i,
        )
    }

    #[inline]
    fn layer2(&self, i: usize) -> usize {
        word_of_range(
            self.start as usize >> SHIFT2,
            (self.end as usize).div_ceil(1 << SHIFT2),
            i,
        )
    }

    #[inline]
    fn layer1(&self, i: usize) -> usize {
        word_of_range(
            self.start as usize >> SHIFT1,
            (self.end as usize).div_ceil(1 << SHIFT1),
            i,
        )
    }

    #[inline]
    fn layer0(&self, i: usize) -> usize {
        word_of_range(self.start as usize, self.end as usize, i)
    }

    #[inline]
    fn contains(&self, i: Index) -> bool {
        self.start <= i && i < self.end
    }
}
