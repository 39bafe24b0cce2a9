//! Walks over what two sets have in common, and how many words they read.
ghost use Rattle.std.specs.Prelude.{◌≡◌, ◌⊎◌, ℕ, ◌+◌, ◌-◌, ◌≤◌, ◌&&◌, ◌++◌, All};
ghost use Rattle.hibitset.specs.Prelude.{members, members_below, part_reads, part_items, items_of_second, words_ahead, items_left, MAX_EID, has};
ghost use Rattle.uses.specs.Budget.{is_in_both, budget, reads_in_all, part_reads_in_all, other_reads_in_all, ahead_after, words_in_both, EndsBy, BeginsBefore};

use hibitset::laws::laws;
use hibitset::{BitIter, BitProducer, BitSet, BitSetAnd, BitSetLike, Index};

/// What two sets have in common.
pub type Both<'a> = BitSetAnd<&'a BitSet, &'a BitSet>;

/// A walk over what both sets have. However far it goes, it reads at most four words of each for each member of the
/// smaller one, and one. Where one of the two has no index from `end` on, no word ahead of the walk begins at `end` or
/// after it.
pub fn in_both<'a>(a: &'a BitSet, b: &'a BitSet) -> BitIter<Both<'a>>
    ensures items { items_left is_in_both result
        ≡ members_below MAX_EID (λ i. has a.now i && has b.now i) }
    ensures reads_max { reads_in_all result ≤ budget a.now b.now }
    ensures begins_before { (end : ℕ) → EndsBy a.now end ⊎ EndsBy b.now end
        → All (BeginsBefore end) (words_ahead words_in_both result) }
{
    laws();
    (a & b).into_iter()
}

/// A walk over what both sets have, and one from an index on. The later one reads no more words in all, and those ahead
/// of it are the ones of the whole walk that have only indices after `start`.
pub fn in_both_from<'a>(
    a: &'a BitSet,
    b: &'a BitSet,
    start: Index,
) -> (BitIter<Both<'a>>, BitIter<Both<'a>>)
    ensures items { items_left is_in_both result.1
        ≡ members (λ i. has a.now i && has b.now i) start (MAX_EID - start) }
    ensures fewer { reads_in_all result.1 ≤ reads_in_all result.0 }
    ensures ahead { words_ahead words_in_both result.1 ≡ ahead_after start result.0 }
    ensures reads_max { reads_in_all result.1 ≤ budget a.now b.now }
{
    laws();
    ((a & b).iter(), (a & b).iter_from(start))
}

/// A walk over what both sets have in two parts, or in one where it can't be split. Together they read no more words
/// than one walk may, and by now four at most were read.
pub fn halves<'a>(
    both: &'a Both<'a>,
) -> (BitProducer<'a, Both<'a>>, Option<BitProducer<'a, Both<'a>>>)
    ensures items { part_items is_in_both result.0 ++ items_of_second is_in_both result.1
        ≡ members_below MAX_EID (is_in_both both.now) }
    ensures reads_max { part_reads_in_all result.0 + other_reads_in_all result.1
        ≤ budget both.now.0.now both.now.1.now }
    ensures read { part_reads result.0 ≤ 4 }
{
    laws();
    BitProducer(both.iter(), 3).split()
}
