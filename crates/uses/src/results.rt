//! Rows that a search found: the middle one, pages of the list forth and back, and how many lie in each window.
ghost use Rattle.std.specs.Prelude.{◌≡◌, ℕ, ◌-◌, ◌<◌, ◌≤◌, ◌&&◌, [], nat_le, take, drop, length, min, reverse, false, slice_index, IfOk, MatchOption, Some, slice_get};
ghost use Rattle.hibitset.specs.Prelude.{members, members_below, MAX_EID, has, members_of};
ghost use Rattle.uses.specs.Results.{IsMedian, IsHistogram};

use hibitset::laws::{laws, list_laws};
use hibitset::{BitSet, BitSetLike, BitSetRange, DrainableBitSet, Index};
use std::alloc::{AllocError, Global};

/// The row in the middle: half of the found rows come before it, rounded down. `None` if nothing was found.
pub fn median(found: &BitSet) -> Option<Index>
    ensures { MatchOption result (members_of found.now ≡ []) (IsMedian found.now) }
{
    list_laws();
    found.select(found.len() / 2)
}

/// The position of a row in the list, if it was found.
pub fn position_of(found: &BitSet, row: Index) -> Option<usize>
    ensures { MatchOption result (has found.now row ≡ false)
        (λ position. slice_get (members_of found.now) position ≡ Some row) }
{
    if !found.contains(row) {
        return None;
    }
    Some(found.rank(row))
}

/// The page of at most `count` rows that begins with `row`, or with the first one after it.
pub fn page_from(
    alloc: Global,
    found: &BitSet,
    row: Index,
    count: usize,
) -> Result<Vec<Index>, AllocError>
    ensures { IfOk result (λ page. page.items
        ≡ take count (members (has found.now) row (MAX_EID - row))) }
{
    found.iter_from(row).take(count).collect(alloc)
}

/// The page of at most `count` rows that begins at a position of the list. The list is not made.
pub fn page(
    alloc: Global,
    found: &BitSet,
    position: usize,
    count: usize,
) -> Result<Vec<Index>, AllocError>
    ensures { IfOk result (λ page. page.items ≡ take count (drop position (members_of found.now))) }
{
    list_laws();
    match found.select(position) {
        None => Ok(Vec::new(alloc)),
        Some(first) => page_from(alloc, found, first, count),
    }
}

// The last rows before a row, at most `count`, in descending order.
fn last_rows(
    alloc: Global,
    found: &BitSet,
    row: Index,
    count: usize,
) -> Result<Vec<Index>, AllocError>
    ensures { IfOk result (λ rows. rows.items
        ≡ take count (reverse (members_below (min row MAX_EID) (has found.now)))) }
{
    found.iter_rev_before(row).take(count).collect(alloc)
}

/// The page before one that begins with `row`: the last rows before it, at most `count`, in ascending order.
pub fn page_before(
    alloc: Global,
    found: &BitSet,
    row: Index,
    count: usize,
) -> Result<Vec<Index>, AllocError>
    ensures { IfOk result (λ page. page.items
        ≡ drop (length (members_below (min row MAX_EID) (has found.now)) - count)
        (members_below (min row MAX_EID) (has found.now))) }
{
    let mut page = last_rows(alloc, found, row, count)?;
    page.reverse();
    Ok(page)
}

/// How many rows were found in each window of `width` rows, of the rows before `end`. The last window may be narrower.
pub fn histogram(
    alloc: Global,
    found: &BitSet,
    end: Index,
    width: Index,
) -> Result<Vec<usize>, AllocError>
    requires end { end ≤ MAX_EID }
    requires width { 0 < width }
    ensures { IfOk result (λ counts. IsHistogram (has found.now) end width counts.items) }
{
    let mut counts = Vec::new(alloc);
    let mut start = 0;
    'windows: while start < end {
        let next = start.saturating_add(width).min(end);
        counts.push(found.len_range(start, next))?;
        start = next;
    }
    Ok(counts)
}

/// The rows from `start` on before `end` that two searches found, in ascending order. Neither what both found nor the
/// range is made.
pub fn both_within(
    alloc: Global,
    a: &BitSet,
    b: &BitSet,
    start: Index,
    end: Index,
) -> Result<Vec<Index>, AllocError>
    ensures { IfOk result (λ rows. rows.items
        ≡ members (λ i. has a.now i && has b.now i) start (min end MAX_EID - start)) }
{
    let range = BitSetRange { start, end };
    (a & b & range).to_vec(alloc)
}

// The version of a row, 0 past the end.
fn version_of(versions: &[u32], row: Index) -> u32
    ensures { result ≡ slice_index versions.now row }
{
    versions.get(row as usize).copied().unwrap_or(0)
}

/// Leaves out the rows that have not changed since a version.
pub fn keep_changed(found: &mut BitSet, versions: &[u32], since: u32)
    ensures { (i : ℕ) → has found.new i
        ≡ (has found.old i && nat_le since (slice_index versions.now i)) }
{
    laws();
    found.retain(|row| version_of(versions, row) >= since);
}
