//! Calls on an atomic set held alone.
#![tactic(auto)]

ghost use Rattle.std.specs.Prelude.{◌≡◌, ◌≢◌, ◌⊎◌, ◌↔◌, ℕ, ◌+◌, ◌-◌, ◌/◌, ◌<◌, ◌≤◌, ◌==◌, ◌||◌, ◌&&◌, not, true, false, [], IsTrue, length};
ghost use Rattle.hibitset_base.specs.First.{HasNone, IsFirst, IsLast};
ghost use Rattle.hibitset_base.specs.Members.{members, members_below};
ghost use Rattle.hibitset_base.specs.declared.util.TheConstants.{LAYERS, MAX_EID};
ghost use Rattle.hibitset_atomic.specs.declared.atomic.TheConstants.{ATOMIC_MAX_EID};
ghost use Rattle.hibitset_c.specs.Atomic.{has, word_of, SharesBlockWithMember, NeedsAllocation, AllBlocksReserved, OwnsNoMemory, IsSame};
ghost use Rattle.hibitset_c.specs.Buffer.{Fills};
ghost use Rattle.hibitset_c.specs.declared.status.TheConstants.{OK, PRESENT, NO_MEMORY, OUT_OF_RANGE};

use crate::atomic_set::AtomicSet;
use crate::fill::fill;
use crate::set_or_seat::SetOrSeat;
use crate::status::{NO_MEMORY, OK, OUT_OF_RANGE, PRESENT};
use hibitset::{ATOMIC_MAX_EID, BitSetLike, LAYERS};
use std::alloc::Global;

/// Removes all members, and frees the memory.
#[unsafe(no_mangle)]
pub extern "C" fn hibitset_atomic_free(alloc: Global, set: &mut AtomicSet)
    ensures empty { (i : ℕ) → has set.new i ≡ false }
    ensures freed { OwnsNoMemory set.new }
{
    set.release(alloc);
}

/// Adds an index. Returns whether it was a member, or why it is none now.
#[unsafe(no_mangle)]
pub extern "C" fn hibitset_atomic_add(alloc: Global, set: &mut AtomicSet, index: u32) -> u32
    ensures out_of_range { (result ≡ OUT_OF_RANGE) ↔ (ATOMIC_MAX_EID ≤ index) }
    ensures was_member { result ≡ PRESENT → has set.old index ≡ true }
    ensures was_clear { result ≡ OK → has set.old index ≡ false }
    ensures added { result ≤ PRESENT → (i : ℕ) → has set.new i ≡ (has set.old i || i == index) }
    ensures err { PRESENT < result → (i : ℕ) → has set.new i ≡ has set.old i }
    ensures status { result ≤ OUT_OF_RANGE }

    // When a block has to be allocated, and which are made.
    ensures succeeds_near { SharesBlockWithMember set.old index → result ≢ NO_MEMORY }
    ensures err_lacks_room { result ≡ NO_MEMORY → NeedsAllocation set.old index }
    ensures succeeds { AllBlocksReserved set.old → result ≢ NO_MEMORY }
    ensures all_reserved { AllBlocksReserved set.old → AllBlocksReserved set.new }
    ensures frees_none { (i : ℕ) → NeedsAllocation set.new i → NeedsAllocation set.old i }
    ensures makes_no_more { (i : ℕ) → i / 4096 ≢ index / 4096 → NeedsAllocation set.old i
        → NeedsAllocation set.new i }
    ensures err_makes_none { PRESENT < result → (i : ℕ) → NeedsAllocation set.old i
        → NeedsAllocation set.new i }
{
    if index as usize >= ATOMIC_MAX_EID {
        return OUT_OF_RANGE;
    }
    if !set.make(alloc) {
        return NO_MEMORY;
    }
    let SetOrSeat::Alone(members) = set.handle.as_mut() else {
        unreachable!()
    };
    match members.add(index) {
        Ok(was_member) => { if was_member { PRESENT } else { OK } }
        Err(_) => NO_MEMORY,
    }
}

/// Removes an index. Returns whether it was a member.
#[unsafe(no_mangle)]
pub extern "C" fn hibitset_atomic_remove(set: &mut AtomicSet, index: u32) -> bool
    ensures was_member { result ≡ has set.old index }
    ensures removed { (i : ℕ) → has set.new i ≡ (has set.old i && not (i == index)) }
    ensures blocks { (i : ℕ) → NeedsAllocation set.new i ↔ NeedsAllocation set.old i }
    ensures all_reserved { AllBlocksReserved set.old → AllBlocksReserved set.new }
{
    if !set.made {
        return false;
    }
    let SetOrSeat::Alone(members) = set.handle.as_mut() else {
        unreachable!()
    };
    members.remove(index)
}

/// Returns whether an index is a member.
#[unsafe(no_mangle)]
pub extern "C" fn hibitset_atomic_contains(set: &mut AtomicSet, index: u32) -> bool
    ensures answer { result ≡ has set.old index }
    ensures same { IsSame set.old set.new }
{
    if !set.made {
        return false;
    }
    let SetOrSeat::Alone(members) = set.handle.as_mut() else {
        unreachable!()
    };
    members.contains(index)
}

/// Removes all members. The memory is kept for later ones.
#[unsafe(no_mangle)]
pub extern "C" fn hibitset_atomic_clear(set: &mut AtomicSet)
    ensures empty { (i : ℕ) → has set.new i ≡ false }
    ensures blocks { (i : ℕ) → NeedsAllocation set.new i ↔ NeedsAllocation set.old i }
    ensures all_reserved { AllBlocksReserved set.old → AllBlocksReserved set.new }
{
    if set.made {
        let SetOrSeat::Alone(members) = set.handle.as_mut() else {
            unreachable!()
        };
        members.clear();
    }
}

/// Returns how many members there are.
#[tactic(auto, using(crate::proofs::EmptinessLemmas::len_none_at))]
#[unsafe(no_mangle)]
pub extern "C" fn hibitset_atomic_len(set: &mut AtomicSet) -> usize
    ensures answer { result ≡ length (members_below MAX_EID (has set.old)) }
    ensures same { IsSame set.old set.new }
{
    if !set.made {
        return 0;
    }
    let SetOrSeat::Alone(members) = set.handle.as_mut() else {
        unreachable!()
    };
    members.len()
}

/// Returns whether there is no member.
#[tactic(auto, using(crate::proofs::EmptinessLemmas::none_at))]
#[unsafe(no_mangle)]
pub extern "C" fn hibitset_atomic_is_empty(set: &mut AtomicSet) -> bool
    ensures answer { IsTrue result ↔ (members_below MAX_EID (has set.old) ≡ []) }
    ensures same { IsSame set.old set.new }
{
    if !set.made {
        return true;
    }
    let SetOrSeat::Alone(members) = set.handle.as_mut() else {
        unreachable!()
    };
    members.is_empty()
}

/// Leaves the least member in `index`, and returns whether there is one.
#[unsafe(no_mangle)]
pub extern "C" fn hibitset_atomic_first(set: &mut AtomicSet, index: &mut u32) -> bool
    ensures found { result ≡ true → IsFirst MAX_EID (has set.old) index.new }
    ensures absent { result ≡ false → HasNone MAX_EID (has set.old) }
    ensures out_kept { result ≡ false → index.new ≡ index.old }
    ensures same { IsSame set.old set.new }
{
    if !set.made {
        return false;
    }
    let SetOrSeat::Alone(members) = set.handle.as_mut() else {
        unreachable!()
    };
    match members.first() {
        Some(first) => {
            *index = first;
            true
        }
        None => false,
    }
}

/// Leaves the greatest member in `index`, and returns whether there is one.
#[unsafe(no_mangle)]
pub extern "C" fn hibitset_atomic_last(set: &mut AtomicSet, index: &mut u32) -> bool
    ensures found { result ≡ true → IsLast MAX_EID (has set.old) index.new }
    ensures absent { result ≡ false → HasNone MAX_EID (has set.old) }
    ensures out_kept { result ≡ false → index.new ≡ index.old }
    ensures same { IsSame set.old set.new }
{
    if !set.made {
        return false;
    }
    let SetOrSeat::Alone(members) = set.handle.as_mut() else {
        unreachable!()
    };
    match members.last() {
        Some(last) => {
            *index = last;
            true
        }
        None => false,
    }
}

/// Writes the members from `start` on into the buffer, ascending, until it is full or there are no more. Returns how
/// many.
#[tactic(auto, using(crate::proofs::EmptinessLemmas::fills_none_at))]
#[unsafe(no_mangle)]
pub extern "C" fn hibitset_atomic_next_many(
    set: &mut AtomicSet,
    start: u32,
    buffer: &mut [u32],
) -> usize
    ensures answer { Fills (members (has set.old) start (MAX_EID - start)) buffer.old result
        buffer.new }
    ensures same { IsSame set.old set.new }
{
    if !set.made {
        return 0;
    }
    let SetOrSeat::Alone(members) = set.handle.as_mut() else {
        unreachable!()
    };
    fill(&*members, start, buffer)
}

/// Returns the word of a layer at a position, and 0 past the layers. In layer 4 the position is not looked at.
#[unsafe(no_mangle)]
pub extern "C" fn hibitset_atomic_word(set: &mut AtomicSet, layer: usize, position: usize) -> usize
    ensures below_top { layer + 1 < LAYERS → result ≡ word_of set.old layer position }
    ensures top { layer + 1 ≡ LAYERS → result ≡ word_of set.old layer 0 }
    ensures zero_past { LAYERS ≤ layer → result ≡ 0 }
    ensures same { IsSame set.old set.new }
{
    if !set.made || layer >= LAYERS {
        return 0;
    }
    let SetOrSeat::Alone(members) = set.handle.as_mut() else {
        unreachable!()
    };
    members.get_from_layer(layer, position)
}
