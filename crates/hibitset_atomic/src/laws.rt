//! Laws that users rely on.
ghost use Rattle.std.specs.Prelude.{◌≡◌, ℕ, ◌-◌, ◌^◌, ◌<◌, ◌≤◌, true, bit_and};
ghost use Rattle.hibitset_base.specs.declared.util.TheConstants.{LAYERS};
ghost use Rattle.hibitset_base.specs.WordsRead.{CoversWords};
ghost use Rattle.hibitset_base.specs.Sets.{SummariesExact};
ghost use Rattle.hibitset_base.specs.Splits.{AreWords};
ghost use Rattle.hibitset_atomic.specs.AtomicBitSet.{has, word_of, topped_word};
ghost use Rattle.hibitset_atomic.specs.Laws.{intersection_word};
ghost use Rattle.hibitset_atomic.specs.declared.atomic.AtomicBitSet.{AtomicBitSet};
ghost use Rattle.hibitset_atomic.specs.declared.atomic.TheConstants.{ATOMIC_MAX_EID};
ghost use Rattle.hibitset_atomic.specs.declared.layers.TheConstants.{ATOMIC_LAYERS};
ghost use Rattle.hibitset_atomic.specs.WorldLaws.{WalksAreHonest, LowestIsRead, FewAreRead, NoneIsEmpty, NoneIsHollow, NoneIsBeyond, RestIsExact, NewOnce, OldIsTold};
ghost use Rattle.hibitset_atomic.specs.declared.steps.state.World.{World};

use crate::atomic::{ATOMIC_MAX_EID, AtomicBitSet};
use hibitset_base::util::LAYERS;

/// The laws of all atomic sets held alone. The call does nothing, and its contract says them.
///
/// - No number past the range is a member.
/// - Summaries are exact, so no part that a split gives is empty. The words of the four layers that are kept are exact
///   alone.
/// - The words of an intersection lie within those of each operand, beside a set of any other type too. So by the
///   clause `bound` of `iter`, a walk over it reads at most four words of each atomic set for every member of that set,
///   and the top.
/// - Past its positions each layer has zero words: layer 0 has 262,144 positions, and each layer above it a 64th of
///   those below.
pub fn atomic_laws()
    ensures in_range { (set : AtomicBitSet) (i : ℕ) → has set i ≡ true → i < ATOMIC_MAX_EID }
    ensures exact { (set : AtomicBitSet)
        → SummariesExact LAYERS (topped_word set) × AreWords (topped_word set) }
    ensures intersection { (a b : AtomicBitSet)
        → CoversWords LAYERS (has a) (topped_word a) (intersection_word a b)
        × CoversWords LAYERS (has b) (topped_word b) (intersection_word a b) }
    ensures kept { (set : AtomicBitSet)
        → SummariesExact ATOMIC_LAYERS (word_of set) × AreWords (word_of set) }
    ensures zero_past { (set : AtomicBitSet) (l p : ℕ) → 64 ^ (ATOMIC_LAYERS - 1 - l) ≤ p
        → topped_word set l p ≡ 0 }
    ensures intersection_covered { (set : AtomicBitSet) (word : ℕ → ℕ → ℕ)
        → CoversWords LAYERS (has set) (topped_word set)
        (λ l p. bit_and (topped_word set l p) (word l p))
        × CoversWords LAYERS (has set) (topped_word set)
        (λ l p. bit_and (word l p) (topped_word set l p)) }
{}

/// The laws of every world, whatever has happened to it. The call does nothing, and its contract says them.
///
/// - The items of each walk ascend, and each was old or written when it was read. A walk that has ended has every index
///   that was old or whose call had ended before the walk began.
/// - A walk reads next the word under the first bit that it has left, in the lowest layer. Each word after its first is
///   not 0. With k items it has read at most 3k + 1 words once it has ended, and 3k + 3 before.
/// - No number from `ATOMIC_MAX_EID` on is old or written.
/// - A summary bit is never set over a zero word, and in a quiescent world summaries are exact.
/// - Each index that is written and was not old was reported new once, and no other ever: so the old members are those
///   that no call reported new.
pub fn world_laws()
    ensures honest { (world : World) → WalksAreHonest world }
    ensures lowest { (world : World) → LowestIsRead world }
    ensures few_reads { (world : World) → FewAreRead world }
    ensures none_empty { (world : World) → NoneIsEmpty world }
    ensures in_range { (world : World) → NoneIsBeyond world }
    ensures none_hollow { (world : World) → NoneIsHollow world }
    ensures exact_at_rest { (world : World) → RestIsExact world }
    ensures new_once { (world : World) → NewOnce world }
    ensures old_told { (world : World) → OldIsTold world }
{}
