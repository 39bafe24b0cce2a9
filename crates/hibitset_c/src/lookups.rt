//! Lookups of the items of a list in a set, whose results are written into a buffer.
ghost use Rattle.std.specs.Prelude.{◌≡◌, ◌<◌, ◌≤◌, IfSome, length, map, min, slice_get, slice_index, take};
ghost use Rattle.std.specs.List.{All};
ghost use Rattle.hibitset_base.specs.Members.{members_below};
ghost use Rattle.hibitset_base.specs.Ranked.{counted_set};
ghost use Rattle.hibitset_base.specs.Sets.{bit_of};
ghost use Rattle.hibitset_base.specs.declared.util.TheConstants.{MAX_EID};
ghost use Rattle.hibitset_c.specs.Buffer.{Fills};

use hibitset::{BitSetLike, Index, Ranked};

// Writes for each index of a list whether it is a member, 1 or 0, until the buffer is full or there are no more.
// Returns how many.
#[inline]
pub(crate) fn contains_each<T: BitSetLike>(set: &T, indices: &[Index], found: &mut [u8]) -> usize
    ensures { Fills (map (λ i. bit_of (T.holds set.now i)) indices.now) found.old result found.new }
{
    let count = indices.len().min(found.len());
    for slot in 0..count {
        found[slot] = u8::from(set.contains(indices[slot]));
    }
    count
}

// How many members lie before `end`, by the counts of the set if there are any.
#[inline]
fn rank_by<T: BitSetLike>(counted: &Option<Ranked<T>>, set: &T, end: Index) -> usize
    requires { IfSome counted.now (λ ranked. counted_set ranked ≡ set.now) }
    ensures { result ≡ length (members_below (min end MAX_EID) (T.holds set.now)) }
{
    match counted {
        Some(ranked) => ranked.rank(end),
        None => set.rank(end),
    }
}

// Writes for each end of a list how many members lie before it, by the counts of the set if there are any, until the
// buffer is full or there are no more ends. Returns how many were written.
#[inline]
pub(crate) fn rank_each<T: BitSetLike>(
    counted: &Option<Ranked<T>>,
    set: &T,
    ends: &[Index],
    ranks: &mut [usize],
) -> usize
    requires { IfSome counted.now (λ ranked. counted_set ranked ≡ set.now) }
    ensures { Fills (map (λ end. length (members_below (min end MAX_EID) (T.holds set.now)))
        ends.now) ranks.old result ranks.new }
{
    let count = ends.len().min(ranks.len());
    for slot in 0..count {
        ranks[slot] = rank_by(counted, set, ends[slot]);
    }
    count
}

// Returns the member at a position, by the counts of the set if there are any.
#[inline]
fn select_by<T: BitSetLike>(counted: &Option<Ranked<T>>, set: &T, at: usize) -> Option<Index>
    requires { IfSome counted.now (λ ranked. counted_set ranked ≡ set.now) }
    ensures { result ≡ slice_get (members_below MAX_EID (T.holds set.now)) at }
{
    match counted {
        Some(ranked) => ranked.select(at),
        None => set.select(at),
    }
}

// Writes the member at each position of a list, by the counts of the set if there are any, until the buffer is full,
// there are no more positions, or the set has no member at one. Returns how many were written.
#[inline]
pub(crate) fn select_each<T: BitSetLike>(
    counted: &Option<Ranked<T>>,
    set: &T,
    positions: &[usize],
    indices: &mut [Index],
) -> usize
    requires { IfSome counted.now (λ ranked. counted_set ranked ≡ set.now) }
    ensures count { result ≤ length positions.now }
    ensures found { All (λ at. at < length (members_below MAX_EID (T.holds set.now)))
        (take result positions.now) }
    ensures written { Fills (map (λ at. slice_index (members_below MAX_EID (T.holds set.now)) at)
        (take result positions.now)) indices.old result indices.new }
    ensures stops { result < min (length positions.now) (length indices.old)
        → length (members_below MAX_EID (T.holds set.now)) ≤ slice_index positions.now result }
{
    let most = positions.len().min(indices.len());
    for slot in 0..most {
        let Some(index) = select_by(counted, set, positions[slot]) else {
            return slot;
        };
        indices[slot] = index;
    }
    most
}
