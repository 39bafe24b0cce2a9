//! A walk over a set that is nested in others, and how many words it reads.
ghost use Rattle.std.specs.Prelude.{◌≡◌, ◌≤◌, ◌&&◌, not};
ghost use Rattle.hibitset.specs.Prelude.{members_below, items_left, MAX_EID, has};
ghost use Rattle.uses.specs.Nested.{is_chosen, budget_of_three, chosen_reads};

use crate::budget::Both;
use hibitset::laws::{cover_laws, laws};
use hibitset::{BitIter, BitSet, BitSetAnd, BitSetNot};

/// What three sets have in common and a fourth has not.
pub type Chosen<'a> = BitSetAnd<BitSetAnd<Both<'a>, BitSetNot<&'a BitSet>>, &'a BitSet>;

/// A walk over what `a`, `b` and `ready` have and `hidden` has not. However far it goes, it reads at most four words of
/// each of the three for each member of the smallest, and one.
pub fn chosen<'a>(
    a: &'a BitSet,
    b: &'a BitSet,
    hidden: &'a BitSet,
    ready: &'a BitSet,
) -> BitIter<Chosen<'a>>
    ensures items { items_left is_chosen result ≡ members_below MAX_EID
        (λ i. ((has a.now i && has b.now i) && not (has hidden.now i)) && has ready.now i) }
    ensures reads_max { chosen_reads result ≤ budget_of_three a.now b.now ready.now }
{
    laws();
    cover_laws();
    (((a & b) - hidden) & ready).into_iter()
}
