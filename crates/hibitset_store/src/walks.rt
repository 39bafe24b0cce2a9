//! Iterators over what columns have.
ghost use Rattle.std.specs.Prelude.{◌≡◌, true, [], ◌∷◌};
ghost use Rattle.std.specs.Iterator.{YieldsFirstBy, item_count};
ghost use Rattle.hibitset.specs.BitSet.{has, word_of};
ghost use Rattle.hibitset_base.specs.Walk.{items_left};
ghost use Rattle.hibitset_store.specs.Columns.{AreKeys, entries, entry_seen, value_of};
ghost use Rattle.hibitset_store.specs.Joins.{AreInBoth, in_both, pair, pairs, seen};
ghost use Rattle.hibitset_store.specs.Masks.{in_masks, in_three};
ghost use Rattle.hibitset_store.specs.Reads.{GoesOnReading};

use crate::columns::Column;
use hibitset::{BitIter, BitSet, BitSetAnd, BitSetLike, Index};

// An index that two columns have, with its values in both.
#[inline]
fn pair_at<'a, V: Drop, W: Drop>(
    first: &'a Column<V>,
    second: &'a Column<W>,
    id: Index,
) -> (Index, &'a V, &'a W)
    requires { in_both (value_of first.now) (value_of second.now) id ≡ true }
    ensures { pair id (value_of first.now id) (value_of second.now id) ≡ seen result ∷ [] }
{
    (id, first.value(id), second.value(id))
}

// The next index of a walk that gives no other than both columns have, with its values.
#[inline]
fn next_pair<'a, S: BitSetLike, V: Drop, W: Drop>(
    walk: &mut BitIter<S>,
    first: &'a Column<V>,
    second: &'a Column<W>,
) -> Option<(Index, &'a V, &'a W)>
    requires { AreInBoth (value_of first.now) (value_of second.now) (items_left S.holds walk.old) }
    ensures step { YieldsFirstBy seen (λ walk. pairs (value_of first.now) (value_of second.now)
        (items_left S.holds walk)) walk.old result walk.new }
    ensures reads { GoesOnReading S.word walk.old walk.new }
    ensures keys { AreInBoth (value_of first.now) (value_of second.now)
        (items_left S.holds walk.new) }
{
    let id = walk.next()?;
    Some(pair_at(first, second, id))
}

// The next index of a walk that gives no other than keys of a column, with its value.
#[inline]
fn next_entry<'a, V: Drop>(
    walk: &mut BitIter<&'a BitSet>,
    column: &'a Column<V>,
) -> Option<(Index, &'a V)>
    requires { AreKeys (value_of column.now) (items_left (λ set. has set.now) walk.old) }
    ensures step { YieldsFirstBy entry_seen
        (λ walk. entries (value_of column.now) (items_left (λ set. has set.now) walk)) walk.old
        result walk.new }
    ensures reads { GoesOnReading (λ set. word_of set.now) walk.old walk.new }
    ensures keys { AreKeys (value_of column.now) (items_left (λ set. has set.now) walk.new) }
{
    let id = walk.next()?;
    Some((id, column.value(id)))
}

/// The indices that two columns have in common, ascending, with both values.
#[derive(Drop)]
pub struct Join<'a, V: Drop, W: Drop> {
    pub(crate) walk: BitIter<BitSetAnd<&'a BitSet, &'a BitSet>>,
    pub(crate) first: &'a Column<V>,
    pub(crate) second: &'a Column<W>,
    ghost keyed: { AreInBoth (value_of first.now) (value_of second.now)
        (items_left in_masks walk) },
}

impl<'a, V: Drop, W: Drop> Iterator for Join<'a, V, W> {
    ghost use Rattle.hibitset_store.specs.Walks.{JoinSteps, pairs_left};

    type Item = (Index, &'a V, &'a W);

    ghost next_gives = { JoinSteps };

    ghost remaining = { λ join. item_count pairs_left join };

    #[inline]
    fn next(&mut self) -> Option<(Index, &'a V, &'a W)> {
        next_pair(&mut self.walk, self.first, self.second)
    }
}

/// The indices that two columns have in common and a set holds too, ascending, with both values.
#[derive(Drop)]
pub struct JoinMasked<'a, V: Drop, W: Drop, M: BitSetLike> {
    pub(crate) walk: BitIter<BitSetAnd<BitSetAnd<&'a BitSet, &'a BitSet>, M>>,
    pub(crate) first: &'a Column<V>,
    pub(crate) second: &'a Column<W>,
    ghost keyed: { AreInBoth (value_of first.now) (value_of second.now)
        (items_left (in_three M.holds) walk) },
}

impl<'a, V: Drop, W: Drop, M: BitSetLike> Iterator for JoinMasked<'a, V, W, M> {
    ghost use Rattle.hibitset_store.specs.Walks.{MaskedSteps, masked_left};

    type Item = (Index, &'a V, &'a W);

    ghost next_gives = { MaskedSteps M.holds M.word };

    ghost remaining = { λ join. item_count (masked_left M.holds) join };

    #[inline]
    fn next(&mut self) -> Option<(Index, &'a V, &'a W)> {
        next_pair(&mut self.walk, self.first, self.second)
    }
}

/// The keys of a column, ascending, each with its value.
#[derive(Drop)]
pub struct Iter<'a, V: Drop> {
    pub(crate) walk: BitIter<&'a BitSet>,
    pub(crate) column: &'a Column<V>,
    ghost keyed: { AreKeys (value_of column.now) (items_left (λ set. has set.now) walk) },
}

impl<'a, V: Drop> Iterator for Iter<'a, V> {
    ghost use Rattle.hibitset_store.specs.Walks.{IterSteps, entries_left};

    type Item = (Index, &'a V);

    ghost next_gives = { IterSteps };

    ghost remaining = { λ iter. item_count entries_left iter };

    #[inline]
    fn next(&mut self) -> Option<(Index, &'a V)> {
        next_entry(&mut self.walk, self.column)
    }
}
