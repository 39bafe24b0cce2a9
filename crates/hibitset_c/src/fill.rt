//! Members that are written into a buffer.
ghost use Rattle.std.specs.Prelude.{◌+◌, ◌-◌, ◌%◌, ◌^◌, map, min, reverse};
ghost use Rattle.hibitset_base.specs.Members.{members, members_below};
ghost use Rattle.hibitset_base.specs.declared.util.TheConstants.{MAX_EID};
ghost use Rattle.hibitset_c.specs.Buffer.{Fills};

use hibitset::{BitSetLike, Index};

// Writes the members from `start` on, ascending, until the buffer is full or there are no more. Returns how many.
#[inline]
pub(crate) fn fill<T: BitSetLike>(set: T, start: Index, buffer: &mut [Index]) -> usize
    ensures { Fills (members (T.holds set) start (MAX_EID - start)) buffer.old result buffer.new }
{
    let mut count = 0;
    for index in set.iter_from(start) {
        if count == buffer.len() {
            return count;
        }
        buffer[count] = index;
        count += 1;
    }
    count
}

// Writes the members before `end`, descending, until the buffer is full or there are no more. Returns how many.
#[inline]
pub(crate) fn fill_back<T: BitSetLike>(set: T, end: Index, buffer: &mut [Index]) -> usize
    ensures { Fills (reverse (members_below (min end MAX_EID) (T.holds set))) buffer.old result
        buffer.new }
{
    let mut count = 0;
    for index in set.iter_rev_before(end) {
        if count == buffer.len() {
            return count;
        }
        buffer[count] = index;
        count += 1;
    }
    count
}

// Writes the members from `start` on, ascending and each plus `base` modulo 2^64, until the buffer is full or there are
// no more. Returns how many.
#[inline]
pub(crate) fn fill_above<T: BitSetLike>(
    set: T,
    start: Index,
    base: u64,
    buffer: &mut [u64],
) -> usize
    ensures { Fills (map (λ i. (base + i) % 2 ^ 64) (members (T.holds set) start (MAX_EID - start)))
        buffer.old result buffer.new }
{
    let mut count = 0;
    for index in set.iter_from(start) {
        if count == buffer.len() {
            return count;
        }
        buffer[count] = base.wrapping_add(u64::from(index));
        count += 1;
    }
    count
}
