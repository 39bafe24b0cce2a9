//! Calls that read one set.
#![tactic(auto)]

ghost use Rattle.std.specs.Prelude.{◌≡◌, ◌-◌, ◌↔◌, not, true, false, [], IsTrue, length};
ghost use Rattle.hibitset_base.specs.First.{HasNone, IsFirst, IsLast, is_gap_from};
ghost use Rattle.hibitset_base.specs.Members.{members, members_below};
ghost use Rattle.hibitset_base.specs.declared.util.TheConstants.{MAX_EID};
ghost use Rattle.hibitset_c.specs.Buffer.{Fills};
ghost use Rattle.hibitset_c.specs.LentSet.{has};

use crate::fill::fill;
use crate::lent_set::LentSet;
use hibitset::{BitSetLike, BitSetNot};

/// Returns whether an index is a member.
#[unsafe(no_mangle)]
pub extern "C" fn hibitset_contains(set: &LentSet<'_>, index: u32) -> bool
    ensures { result ≡ has set.now index }
{
    set.contains(index)
}

/// Returns how many members there are.
#[unsafe(no_mangle)]
pub extern "C" fn hibitset_len(set: &LentSet<'_>) -> usize
    ensures { result ≡ length (members_below MAX_EID (has set.now)) }
{
    set.len()
}

/// Returns whether there is no member.
#[unsafe(no_mangle)]
pub extern "C" fn hibitset_is_empty(set: &LentSet<'_>) -> bool
    ensures { IsTrue result ↔ (members_below MAX_EID (has set.now) ≡ []) }
{
    set.is_empty()
}

/// Leaves the least member in `index`, and returns whether there is one.
#[unsafe(no_mangle)]
pub extern "C" fn hibitset_first(set: &LentSet<'_>, index: &mut u32) -> bool
    ensures found { result ≡ true → IsFirst MAX_EID (has set.now) index.new }
    ensures absent { result ≡ false → HasNone MAX_EID (has set.now) }
    ensures out_kept { result ≡ false → index.new ≡ index.old }
{
    match set.first() {
        Some(first) => {
            *index = first;
            true
        }
        None => false,
    }
}

/// Leaves the greatest member in `index`, and returns whether there is one.
#[unsafe(no_mangle)]
pub extern "C" fn hibitset_last(set: &LentSet<'_>, index: &mut u32) -> bool
    ensures found { result ≡ true → IsLast MAX_EID (has set.now) index.new }
    ensures absent { result ≡ false → HasNone MAX_EID (has set.now) }
    ensures out_kept { result ≡ false → index.new ≡ index.old }
{
    match set.last() {
        Some(last) => {
            *index = last;
            true
        }
        None => false,
    }
}

/// Leaves the least index from `start` on that is in range and no member in `index`, and returns whether there is one.
#[unsafe(no_mangle)]
pub extern "C" fn hibitset_first_gap(set: &LentSet<'_>, start: u32, index: &mut u32) -> bool
    ensures found { result ≡ true → IsFirst MAX_EID (is_gap_from start (has set.now)) index.new }
    ensures absent { result ≡ false → HasNone MAX_EID (is_gap_from start (has set.now)) }
    ensures out_kept { result ≡ false → index.new ≡ index.old }
{
    match set.first_gap(start) {
        Some(gap) => {
            *index = gap;
            true
        }
        None => false,
    }
}

/// Writes the members from `start` on into the buffer, ascending, until it is full or there are no more. Returns how
/// many.
#[unsafe(no_mangle)]
pub extern "C" fn hibitset_next_many(set: &LentSet<'_>, start: u32, buffer: &mut [u32]) -> usize
    ensures { Fills (members (has set.now) start (MAX_EID - start)) buffer.old result buffer.new }
{
    fill(*set, start, buffer)
}

/// Writes the indices from `start` on that are in range and no members into the buffer, as `hibitset_next_many` does.
#[unsafe(no_mangle)]
pub extern "C" fn hibitset_not_next_many(set: &LentSet<'_>, start: u32, buffer: &mut [u32]) -> usize
    ensures { Fills (members (λ i. not (has set.now i)) start (MAX_EID - start)) buffer.old result
        buffer.new }
{
    fill(BitSetNot(*set), start, buffer)
}
