//! Walks over the places of a table that have a value, in ascending order.
ghost use Rattle.std.specs.Prelude.{◌≡◌, ℕ, ◌+◌, ◌<◌, ◌≤◌, ◌∷◌, [], IfSome};
ghost use Rattle.hibitset_base.specs.Places.{bits_from};
ghost use Rattle.hibitset_sparse.specs.declared.table.TheConstants.{PLACES_PER_TABLE};

use crate::group::Group;
use crate::table::{PLACES_PER_TABLE, Table};
use hibitset_base::bits::take_bit;

/// A walk over the places of a table that have a value, in ascending order, each with its value.
///
/// Groups and values lie side by side in the table, in the order of their places. So the walk keeps what is left of
/// both, and looks for neither: a step reads the value, and the first one of a group also that group.
#[derive(Drop)]
pub(crate) struct TableIter<'a, T> {
    // The places left of the group at hand, as bits, of which the first stands for the place `first`.
    pub(crate) word: usize,
    pub(crate) first: usize,
    // The groups left, and their numbers, as bits.
    pub(crate) groups: &'a [Group],
    pub(crate) root: usize,
    // The values left.
    pub(crate) items: &'a [T],
    ghost within: { first + 64 ≤ PLACES_PER_TABLE },
}

impl<'a, T> TableIter<'a, T> {
    ghost use Rattle.std.specs.Iterator.{YieldsFirstBy};
    ghost use Rattle.hibitset_sparse.specs.Walk.{entries_left, entries_of};

    /// A walk over nothing.
    #[inline]
    pub(crate) fn empty() -> TableIter<'a, T>
        ensures { entries_left result ≡ [] }
    {
        TableIter {
            word: 0,
            first: 0,
            groups: &[],
            root: 0,
            items: &[],
        }
    }

    /// A walk over a whole table.
    #[inline]
    pub(crate) fn new(table: &'a Table<T>) -> TableIter<'a, T>
    where
        T: Drop,
        ensures { entries_left result ≡ entries_of table.now }
    {
        TableIter {
            word: 0,
            first: 0,
            groups: &table.groups.items,
            root: table.groups.word,
            items: &table.items,
        }
    }

    /// The next place that has a value, and its value.
    #[inline]
    pub(crate) fn next(&mut self) -> Option<(usize, &'a T)>
        ensures steps { YieldsFirstBy (λ entry. (entry.0, entry.1.now)) entries_left
            self.old result self.new }
        ensures in_range { IfSome result (λ entry. entry.0 < PLACES_PER_TABLE) }
    {
        let Some((item, items)) = self.items.split_first() else {
            return None;
        };
        'groups: while self.word == 0 {
            if self.root == 0 {
                return None;
            }
            let Some((group, groups)) = self.groups.split_first() else {
                return None;
            };
            self.first = 64 * take_bit(&mut self.root);
            self.word = group.word;
            self.groups = groups;
        }
        self.items = items;
        let place = self.first + take_bit(&mut self.word);
        Some((place, item))
    }
}
