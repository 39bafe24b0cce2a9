//! Walks over what a column has, and over what two columns have in common.
ghost use Rattle.std.specs.Prelude.{◌≡◌, ℕ, ◌+◌, ◌-◌, ◌*◌, ◌≤◌, min, length};
ghost use Rattle.std.specs.Iterator.Runs.{EveryRun, ItemsMapTo};
ghost use Rattle.hibitset_base.specs.declared.util.TheConstants.{LAYERS, MAX_EID};
ghost use Rattle.hibitset_store.specs.Columns.{entries_of, entry_seen, keys_of, value_of};
ghost use Rattle.hibitset_store.specs.Joins.{join_of, joined_within, seen};
ghost use Rattle.hibitset_store.specs.Walks.{IterSteps, JoinSteps, MaskedSteps, entries_left, iter_reads_in_all, iter_reads_of, masked_left, masked_reads_in_all, masked_reads_of, pairs_left, reads_in_all, reads_of};

use crate::columns::Column;
use crate::walks::{Iter, Join, JoinMasked};
use hibitset::BitSetLike;
use hibitset::laws::laws;

/// A walk over the indices that both columns have, ascending, with both values. It does not allocate, and reads at most
/// four words of each mask for every key of the smaller column, and the top.
pub fn join<'a, V: Drop, W: Drop>(a: &'a Column<V>, b: &'a Column<W>) -> Join<'a, V, W>
    ensures pairs { pairs_left result ≡ join_of (value_of a.now) (value_of b.now) }
    ensures read { reads_of result ≡ 1 }
    ensures bound { reads_in_all result
        ≤ (LAYERS - 1) * min (length (keys_of (value_of a.now))) (length (keys_of (value_of b.now)))
        + 1 }
    ensures runs { EveryRun (JoinSteps {V = V} {W = W})
        (λ p. ItemsMapTo p seen (pairs_left p.from)) }
    ensures fits { length (pairs_left result) ≤ MAX_EID }
{
    laws();
    Join {
        walk: (a.mask() & b.mask()).iter(),
        first: a,
        second: b,
    }
}

/// A walk over the indices that both columns have and the set holds too, ascending, with both values. Its bound on the
/// words of each column's mask is that of `join`.
///
/// ```text
/// for (index, position, speed) in positions.join_masked(&speeds, &awake) {
///     // awake indices that have both values
/// }
/// ```
pub fn join_masked<'a, V: Drop, W: Drop, M: BitSetLike>(
    a: &'a Column<V>,
    b: &'a Column<W>,
    m: M,
) -> JoinMasked<'a, V, W, M>
    ensures pairs { masked_left M.holds result
        ≡ joined_within (value_of a.now) (value_of b.now) (M.holds m) }
    ensures read { masked_reads_of result ≡ 1 }
    ensures bound { masked_reads_in_all M.word result
        ≤ (LAYERS - 1) * min (length (keys_of (value_of a.now))) (length (keys_of (value_of b.now)))
        + 1 }
    ensures runs { EveryRun (MaskedSteps {V = V} {W = W} {g = M.BitSetLike} M.holds M.word)
        (λ p. ItemsMapTo p seen (masked_left M.holds p.from)) }
    ensures fits { length (masked_left M.holds result) ≤ MAX_EID }
{
    laws();
    JoinMasked {
        walk: (a.mask() & b.mask() & m).iter(),
        first: a,
        second: b,
    }
}

impl<V: Drop> Column<V> {
    /// A walk over the keys, ascending, each with its value. It does not allocate, and reads at most four words of the
    /// mask for every key, and the top.
    pub fn iter(&self) -> Iter<'_, V>
        ensures entries { entries_left result ≡ entries_of (value_of self.now) }
        ensures read { iter_reads_of result ≡ 1 }
        ensures bound { iter_reads_in_all result
            ≤ (LAYERS - 1) * length (keys_of (value_of self.now)) + 1 }
        ensures runs { EveryRun (IterSteps {V = V})
            (λ p. ItemsMapTo p entry_seen (entries_left p.from)) }
        ensures fits { length (entries_left result) ≤ MAX_EID }
    {
        laws();
        Iter {
            walk: self.mask().iter(),
            column: self,
        }
    }

    /// As the function `join`, of this column and another.
    pub fn join<'a, W: Drop>(&'a self, other: &'a Column<W>) -> Join<'a, V, W>
        ensures pairs { pairs_left result ≡ join_of (value_of self.now) (value_of other.now) }
        ensures read { reads_of result ≡ 1 }
        ensures bound { reads_in_all result
            ≤ (LAYERS - 1) * min (length (keys_of (value_of self.now)))
            (length (keys_of (value_of other.now))) + 1 }
        ensures runs { EveryRun (JoinSteps {V = V} {W = W})
            (λ p. ItemsMapTo p seen (pairs_left p.from)) }
        ensures fits { length (pairs_left result) ≤ MAX_EID }
    {
        join(self, other)
    }

    /// As the function `join_masked`, of this column and another.
    pub fn join_masked<'a, W: Drop, M: BitSetLike>(
        &'a self,
        other: &'a Column<W>,
        m: M,
    ) -> JoinMasked<'a, V, W, M>
        ensures pairs { masked_left M.holds result
            ≡ joined_within (value_of self.now) (value_of other.now) (M.holds m) }
        ensures read { masked_reads_of result ≡ 1 }
        ensures bound { masked_reads_in_all M.word result
            ≤ (LAYERS - 1) * min (length (keys_of (value_of self.now)))
            (length (keys_of (value_of other.now))) + 1 }
        ensures runs { EveryRun (MaskedSteps {V = V} {W = W} {g = M.BitSetLike} M.holds M.word)
            (λ p. ItemsMapTo p seen (masked_left M.holds p.from)) }
        ensures fits { length (masked_left M.holds result) ≤ MAX_EID }
    {
        join_masked(self, other, m)
    }
}
