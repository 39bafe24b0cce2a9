//! Calls that take a list of indices, ends or positions.
#![tactic(auto)]

ghost use Rattle.std.specs.Prelude.{◌≡◌, ℕ, ◌+◌, ◌<◌, ◌≤◌, true, length, map, min, slice_index, take};
ghost use Rattle.std.specs.List.{All};
ghost use Rattle.hibitset_base.specs.Members.{members_below};
ghost use Rattle.hibitset_base.specs.declared.util.TheConstants.{MAX_EID};
ghost use Rattle.hibitset_c.specs.Buffer.{Fills};
ghost use Rattle.hibitset_c.specs.LentSet.{has as other_has};
ghost use Rattle.hibitset_c.specs.List.{RemovesAll};
ghost use Rattle.hibitset_c.specs.Set.{has, layer0_len};

use crate::lent_set::LentSet;
use crate::lookups::{rank_each, select_each};
use crate::set::Set;
use hibitset::{DrainableBitSet, Index, Ranked};
use std::alloc::Global;

/// Writes for each end of a list how many members lie before it, until the buffer is full or there are no more ends.
/// Returns how many were written.
///
/// It counts the members of the set once, and then reads at most 65 words for an end. If the allocation of the counts
/// fails, 4 bytes for each 4,096 indices up to the last member, it counts anew for each end.
#[unsafe(no_mangle)]
pub extern "C" fn hibitset_rank_many(
    alloc: Global,
    set: &LentSet<'_>,
    ends: &[u32],
    ranks: &mut [usize],
) -> usize
    ensures { Fills (map (λ end. length (members_below (min end MAX_EID) (other_has set.now)))
        ends.now) ranks.old result ranks.new }
{
    let counted = Ranked::new(alloc, *set).ok();
    rank_each(&counted, set, ends, ranks)
}

/// Writes the member at each position of a list, until the buffer is full, there are no more positions, or the set has
/// no member at one. Returns how many were written.
///
/// It counts the members of the set once, as `hibitset_rank_many` does, and then reads at most 65 words for a position.
#[unsafe(no_mangle)]
pub extern "C" fn hibitset_select_many(
    alloc: Global,
    set: &LentSet<'_>,
    positions: &[usize],
    indices: &mut [u32],
) -> usize
    ensures count { result ≤ length positions.now }
    ensures found { All (λ at. at < length (members_below MAX_EID (other_has set.now)))
        (take result positions.now) }
    ensures written { Fills (map (λ at. slice_index (members_below MAX_EID (other_has set.now)) at)
        (take result positions.now)) indices.old result indices.new }
    ensures stops { result < min (length positions.now) (length indices.old)
        → length (members_below MAX_EID (other_has set.now)) ≤ slice_index positions.now result }
{
    let counted = Ranked::new(alloc, *set).ok();
    select_each(&counted, set, positions, indices)
}

// Removes the indices of a list. Returns how many of them were members. No member is out of range.
#[inline]
pub(crate) fn remove_list<T: DrainableBitSet>(set: &mut T, list: &[Index]) -> usize
    requires { (i : ℕ) → T.holds set.old i ≡ true → i < MAX_EID }
    ensures removed { RemovesAll list.now (T.holds set.old) (T.holds set.new) }
    ensures count { length (members_below MAX_EID (T.holds set.old))
        ≡ result + length (members_below MAX_EID (T.holds set.new)) }
    ensures keeps_room { T.keeps_room set.old set.new }
{
    let mut count = 0;
    for slot in 0..list.len() {
        if set.remove(list[slot]) {
            count += 1;
        }
    }
    count
}

/// Removes the indices of a list. Returns how many members that takes out of the set.
#[unsafe(no_mangle)]
pub extern "C" fn hibitset_remove_many(set: &mut Set, indices: &[u32]) -> usize
    ensures removed { RemovesAll indices.now (has set.old) (has set.new) }
    ensures count { length (members_below MAX_EID (has set.old))
        ≡ result + length (members_below MAX_EID (has set.new)) }
    ensures length { layer0_len set.new ≡ layer0_len set.old }
{
    if !set.made {
        return 0;
    }
    let bits = set.handle.as_mut();
    let count = remove_list(bits, indices);
    set.words.follow_top(bits);
    count
}
