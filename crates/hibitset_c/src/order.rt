//! Calls that go by the order of a set's members.
#![tactic(auto)]

ghost use Rattle.std.specs.Prelude.{◌≡◌, ◌≢◌, ◌⊎◌, ◌↔◌, ℕ, ◌+◌, ◌-◌, ◌*◌, ◌/◌, ◌<◌, ◌≤◌, ◌==◌, ◌&&◌, not, true, false, None, Some, length, max, min, reverse, slice_get};
ghost use Rattle.hibitset_base.specs.First.{HasNone, IsFirst, IsLast};
ghost use Rattle.hibitset_base.specs.Members.{members, members_below};
ghost use Rattle.hibitset_base.specs.Ranges.{in_range};
ghost use Rattle.hibitset_base.specs.Virtual.{differ};
ghost use Rattle.hibitset_base.specs.declared.util.TheConstants.{MAX_EID};
ghost use Rattle.hibitset_c.specs.Buffer.{Fills};
ghost use Rattle.hibitset_c.specs.LentSet.{has as other_has};
ghost use Rattle.hibitset_c.specs.Set.{has, layer0_len};
ghost use Rattle.hibitset_c.specs.declared.status.TheConstants.{OK, NO_MEMORY, OUT_OF_RANGE};

use crate::fill::fill_back;
use crate::lent_set::LentSet;
use crate::set::Set;
use crate::status::{NO_MEMORY, OK, OUT_OF_RANGE};
use hibitset::{BitSetLike, DrainableBitSet, MAX_EID};
use std::alloc::Global;

/// Returns how many members lie before `end`.
#[unsafe(no_mangle)]
pub extern "C" fn hibitset_rank(set: &LentSet<'_>, end: u32) -> usize
    ensures { result ≡ length (members_below (min end MAX_EID) (other_has set.now)) }
{
    set.rank(end)
}

/// Leaves the member at a position of the ascending list of all in `index`, and returns whether there is one.
#[unsafe(no_mangle)]
pub extern "C" fn hibitset_select(set: &LentSet<'_>, at: usize, index: &mut u32) -> bool
    ensures found { result ≡ true → slice_get (members_below MAX_EID (other_has set.now)) at
        ≡ Some index.new }
    ensures absent { result ≡ false → slice_get (members_below MAX_EID (other_has set.now)) at
        ≡ None }
    ensures out_kept { result ≡ false → index.new ≡ index.old }
{
    match set.select(at) {
        Some(member) => {
            *index = member;
            true
        }
        None => false,
    }
}

/// Returns how many members lie from `start` on and before `end`.
#[unsafe(no_mangle)]
pub extern "C" fn hibitset_len_range(set: &LentSet<'_>, start: u32, end: u32) -> usize
    ensures { result ≡ length (members (other_has set.now) start (min end MAX_EID - start)) }
{
    set.len_range(start, end)
}

/// Leaves the greatest member before `end` in `index`, and returns whether there is one.
#[unsafe(no_mangle)]
pub extern "C" fn hibitset_last_before(set: &LentSet<'_>, end: u32, index: &mut u32) -> bool
    ensures found { result ≡ true → IsLast (min end MAX_EID) (other_has set.now) index.new }
    ensures absent { result ≡ false → HasNone (min end MAX_EID) (other_has set.now) }
    ensures out_kept { result ≡ false → index.new ≡ index.old }
{
    match set.last_before(end) {
        Some(last) => {
            *index = last;
            true
        }
        None => false,
    }
}

/// Writes the members before `end` into the buffer, descending, until it is full or there are no more. Returns how
/// many.
#[unsafe(no_mangle)]
pub extern "C" fn hibitset_prev_many(set: &LentSet<'_>, end: u32, buffer: &mut [u32]) -> usize
    ensures { Fills (reverse (members_below (min end MAX_EID) (other_has set.now))) buffer.old
        result buffer.new }
{
    fill_back(*set, end, buffer)
}

/// Takes the least member out, leaves it in `index`, and returns whether there was one.
#[unsafe(no_mangle)]
pub extern "C" fn hibitset_pop_first(set: &mut Set, index: &mut u32) -> bool
    ensures found { result ≡ true → IsFirst MAX_EID (has set.old) index.new }
    ensures absent { result ≡ false → HasNone MAX_EID (has set.old) }
    ensures removed { result ≡ true → (i : ℕ)
        → has set.new i ≡ (has set.old i && not (i == index.new)) }
    ensures unchanged { result ≡ false → (index.new ≡ index.old)
        × ((i : ℕ) → has set.new i ≡ has set.old i) }
    ensures length { layer0_len set.new ≡ layer0_len set.old }
{
    if !set.made {
        return false;
    }
    let bits = set.handle.as_mut();
    let popped = bits.pop_first();
    set.words.follow_top(bits);
    match popped {
        Some(first) => {
            *index = first;
            true
        }
        None => false,
    }
}

/// Takes the greatest member out, leaves it in `index`, and returns whether there was one.
#[unsafe(no_mangle)]
pub extern "C" fn hibitset_pop_last(set: &mut Set, index: &mut u32) -> bool
    ensures found { result ≡ true → IsLast MAX_EID (has set.old) index.new }
    ensures absent { result ≡ false → HasNone MAX_EID (has set.old) }
    ensures removed { result ≡ true → (i : ℕ)
        → has set.new i ≡ (has set.old i && not (i == index.new)) }
    ensures unchanged { result ≡ false → (index.new ≡ index.old)
        × ((i : ℕ) → has set.new i ≡ has set.old i) }
    ensures length { layer0_len set.new ≡ layer0_len set.old }
{
    if !set.made {
        return false;
    }
    let bits = set.handle.as_mut();
    let popped = bits.pop_last();
    set.words.follow_top(bits);
    match popped {
        Some(last) => {
            *index = last;
            true
        }
        None => false,
    }
}

/// Flips the indices from `start` on and below `end`: members are removed, the others are added.
#[unsafe(no_mangle)]
pub extern "C" fn hibitset_flip_range(alloc: Global, set: &mut Set, start: u32, end: u32) -> u32
    ensures out_of_range { (result ≡ OUT_OF_RANGE) ↔ (MAX_EID < end) }
    ensures flipped { result ≡ OK → (i : ℕ)
        → has set.new i ≡ differ (has set.old i) (in_range start end i) }
    ensures err { result ≢ OK → (i : ℕ) → has set.new i ≡ has set.old i }
    ensures status { (result ≡ OK) ⊎ (NO_MEMORY ≤ result) × (result ≤ OUT_OF_RANGE) }

    // How many words there are, and when none has to be allocated.
    ensures succeeds { end ≤ 64 * layer0_len set.old → result ≢ NO_MEMORY }
    ensures succeeds_empty { end ≤ start → result ≢ NO_MEMORY }
    ensures len_min { layer0_len set.old ≤ layer0_len set.new }
    ensures len_max { layer0_len set.new ≤ max (layer0_len set.old) ((end - 1) / 64 + 1) }
    ensures err_len { result ≢ OK → layer0_len set.new ≡ layer0_len set.old }
{
    if end as usize > MAX_EID {
        return OUT_OF_RANGE;
    }
    if start >= end {
        return OK;
    }
    if !set.make(alloc) {
        return NO_MEMORY;
    }
    let bits = set.handle.as_mut();
    let done = bits.flip_range(start, end);
    set.words.show(bits);
    match done {
        Ok(()) => OK,
        Err(_) => NO_MEMORY,
    }
}
