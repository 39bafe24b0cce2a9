//! Tables whose values are changed in place, of which those that stay close up.
ghost use Rattle.std.specs.Prelude.{◌≡◌, ℕ, ◌+◌, ◌*◌, ◌<◌, ◌≤◌, Option, Some, None, true, false, length};
ghost use Rattle.std.specs.Int.{bit_at};
ghost use Rattle.std.specs.Int.RustNames.{count_ones};
ghost use Rattle.hibitset_sparse.specs.Retain.{IsRetained, LeavesOf};
ghost use Rattle.hibitset_sparse.specs.declared.table.TheConstants.{GROUPS_PER_TABLE, PLACES_PER_TABLE};

use crate::group::Group;
use crate::packed_array::PackedArray;
use crate::rank::rank;
use crate::table::{GROUPS_PER_TABLE, PLACES_PER_TABLE, Table};
use hibitset_base::bits::{take_bit, with_bit};

/// What becomes of the values of a table, one by one.
pub(crate) trait Change<T>: Drop {
    // What may be left of the value of a place.
    ghost leaves: { Self → ℕ → T → Option T → Type 0 };

    /// The places of group q whose values may stay, as bits.
    fn places(&self, q: usize) -> usize
        requires { q < GROUPS_PER_TABLE }
        ensures { (b : ℕ) (value : T) → b < 64 → bit_at result b ≡ 0
            → leaves self.now (64 * q + b) value None };

    /// Changes the value of place i, and returns whether it stays.
    fn change(&self, i: usize, value: &mut T) -> bool
        requires { i < PLACES_PER_TABLE }
        ensures leaves { result ≡ true → leaves self.now i value.old (Some value.new) }
        ensures goes { result ≡ false → leaves self.now i value.old None };
}

/// Changes the values of group q, and moves those that stay to `to` and the places behind it. Returns which stay, as
/// bits.
#[inline]
pub(crate) fn retain_group<T: Drop, C: Change<T>>(
    items: &mut Vec<T>,
    by: &C,
    q: usize,
    group: Group,
    to: usize,
) -> usize
    requires group { q < GROUPS_PER_TABLE }
    requires order { to ≤ group.start }
    requires within { group.start + count_ones group.word ≤ length items.old.items }
    ensures { IsRetained (λ b. C.leaves by.now (64 * q + b)) group.word group.start to result
        items.old.items items.new.items }
{
    let mut left = group.word & by.places(q);
    let mut at = to;
    let mut kept = 0;
    'places: while left != 0 {
        let bit = take_bit(&mut left);
        let here = group.start + rank(group.word, bit);
        if by.change(64 * q + bit, &mut items[here]) {
            items.swap(at, here);
            kept = with_bit(kept, bit, true);
            at += 1;
        }
    }
    kept
}

/// What becomes of the values of a table, group by group.
pub(crate) trait GroupChange<T>: Drop {
    // What may be left of the value of a place.
    ghost leaves: { Self → ℕ → T → Option T → Type 0 };

    /// The groups of which values may stay, as bits.
    fn groups(&self) -> usize
        ensures { (q b : ℕ) (value : T) → q < GROUPS_PER_TABLE → b < 64 → bit_at result q ≡ 0
            → leaves self.now (64 * q + b) value None };

    /// Does what `retain_group` does.
    fn retain_group(&self, items: &mut Vec<T>, q: usize, group: Group, to: usize) -> usize
        requires group { q < GROUPS_PER_TABLE }
        requires order { to ≤ group.start }
        requires within { group.start + count_ones group.word ≤ length items.old.items }
        ensures { IsRetained (λ b. leaves self.now (64 * q + b)) group.word group.start to result
            items.old.items items.new.items };
}

impl<T: Drop> Table<T> {
    ghost use Rattle.hibitset_sparse.specs.Table.{value_at};

    /// Changes each value, and takes those out that do not stay. It does not allocate.
    pub(crate) fn retain<G: GroupChange<T>>(self, by: &G) -> Table<T>
        ensures { (i : ℕ) → i < PLACES_PER_TABLE
            → LeavesOf (G.leaves by.now i) (value_at self i) (value_at result i) }
    {
        let Table { groups, mut items } = self;
        let PackedArray {
            word: before,
            items: mut list,
        } = groups;
        let mut left = before & by.groups();
        let mut root = 0;
        let mut at = 0;
        let mut to = 0;
        'groups: while left != 0 {
            let q = take_bit(&mut left);
            let group = list[rank(before, q)];
            let word = by.retain_group(&mut items, q, group, to);
            if word != 0 {
                list[at] = Group { word, start: to };
                at += 1;
                root = with_bit(root, q, true);
                to += word.count_ones() as usize;
            }
        }
        list.truncate(at);
        items.truncate(to);
        Table {
            groups: PackedArray {
                word: root,
                items: list,
            },
            items,
        }
    }
}
