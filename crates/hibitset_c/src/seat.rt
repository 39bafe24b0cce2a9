//! Calls on a seat of a shared set.
#![tactic(auto)]

ghost use Rattle.std.specs.Prelude.{◌≡◌, ◌≢◌, ◌⊎◌, ◌↔◌, ℕ, ◌+◌, ◌<◌, ◌≤◌, ◌∷◌, true, false, Contains};
ghost use Rattle.hibitset_atomic.specs.declared.atomic.TheConstants.{ATOMIC_MAX_EID};
ghost use Rattle.hibitset_atomic.specs.declared.shared.layout.TheConstants.{SHARES};
ghost use Rattle.hibitset_c.specs.Atomic.{has, AllBlocksReserved, OwnsNoMemory, IsSame as IsSameSet};
ghost use Rattle.hibitset_c.specs.Seat.{Holds, has_seat, set_of, IsOld, IsKnown, weight_of, reports_of, loads_by, exchanges_by, Keeps, IsSame, AreHalves};
ghost use Rattle.hibitset_c.specs.SeatOfSet.{EndsAs};
ghost use Rattle.hibitset_c.specs.Set.{has as plain_has};
ghost use Rattle.hibitset_c.specs.SetOrSeat.{IsOpening};
ghost use Rattle.hibitset_c.specs.declared.status.TheConstants.{OK, PRESENT, NO_MEMORY, OUT_OF_RANGE, SHARED, ONE_SHARE, NO_SEAT};

use crate::atomic_set::AtomicSet;
use crate::seat_slot::SeatSlot;
use crate::set::Set;
use crate::set_or_seat::SetOrSeat;
use crate::status::{NO_MEMORY, NO_SEAT, OK, OUT_OF_RANGE, PRESENT};
use hibitset::ATOMIC_MAX_EID;
use std::alloc::Global;

/// Makes a shared set of an atomic set, which is empty then, and leaves its first seat in `seat`.
#[unsafe(no_mangle)]
pub extern "C" fn hibitset_atomic_share(
    alloc: Global,
    set: &mut AtomicSet,
    seat: &mut SeatSlot,
) -> u32
    ensures opening { result ≡ OK → Holds seat.new (IsOpening (has set.old)) }
    ensures empty { result ≡ OK → OwnsNoMemory set.new }
    ensures err { result ≢ OK → (i : ℕ) → has set.new i ≡ has set.old i }
    ensures seat_kept { result ≢ OK → IsSame seat.old seat.new }
    ensures status { (result ≡ OK) ⊎ (result ≡ NO_MEMORY) }
{
    if !set.make(alloc) {
        return NO_MEMORY;
    }
    let mut content = set.take(alloc);
    if content.share() {
        seat.replace(alloc, content);
        OK
    } else {
        set.replace(alloc, content);
        NO_MEMORY
    }
}

/// Gives the seat up, and with the last one of a set the set.
#[unsafe(no_mangle)]
pub extern "C" fn hibitset_seat_free(alloc: Global, seat: &mut SeatSlot)
    ensures { has_seat seat.new ≡ false }
{
    seat.release(alloc);
}

/// Adds an index. Returns whether it was there, or why it is not.
#[unsafe(no_mangle)]
pub extern "C" fn hibitset_seat_add(seat: &mut SeatSlot, index: u32) -> u32
    ensures no_seat { (result ≡ NO_SEAT) ↔ (has_seat seat.old ≡ false) }
    ensures out_of_range { (result ≡ OUT_OF_RANGE)
        ↔ (has_seat seat.old ≡ true) × (ATOMIC_MAX_EID ≤ index) }
    ensures keeps_known { Keeps seat.old seat.new }
    ensures known { result ≤ PRESENT → IsKnown seat.new index }
    ensures no_report { result ≢ OK → reports_of seat.new ≡ reports_of seat.old }
    ensures new { result ≡ OK → (reports_of seat.new ≡ index ∷ reports_of seat.old)
        × ¬ IsOld seat.old index × ¬ IsKnown seat.old index }
    ensures not_reported { result ≡ OK → ¬ Contains (reports_of seat.old) index }
    ensures loads { loads_by seat.new ≤ loads_by seat.old + 7 }
    ensures exchanges { exchanges_by seat.new ≤ exchanges_by seat.old + 4 }
    ensures known_cost { IsOld seat.old index ⊎ IsKnown seat.old index
        → (loads_by seat.new ≤ loads_by seat.old + 4)
        × (exchanges_by seat.new ≡ exchanges_by seat.old) }
    ensures status { (result ≤ PRESENT) ⊎ (result ≡ OUT_OF_RANGE) ⊎ (result ≡ NO_SEAT) }
{
    if !seat.made {
        return NO_SEAT;
    }
    if index as usize >= ATOMIC_MAX_EID {
        return OUT_OF_RANGE;
    }
    let SetOrSeat::Seated(seated) = seat.handle.as_mut() else {
        unreachable!()
    };
    if seated.add(index) { PRESENT } else { OK }
}

/// Returns whether an index is there, as far as the seat sees.
#[unsafe(no_mangle)]
pub extern "C" fn hibitset_seat_contains(seat: &mut SeatSlot, index: u32) -> bool
    ensures if_true { result ≡ true → (index < ATOMIC_MAX_EID) × IsKnown seat.new index }
    ensures if_false { result ≡ false → ¬ IsOld seat.old index × ¬ IsKnown seat.new index }
    ensures keeps_known { Keeps seat.old seat.new }
    ensures reports { reports_of seat.new ≡ reports_of seat.old }
    ensures steps { (loads_by seat.new ≤ loads_by seat.old + 4)
        × (exchanges_by seat.new ≡ exchanges_by seat.old) }
{
    if !seat.made {
        return false;
    }
    let SetOrSeat::Seated(seated) = seat.handle.as_mut() else {
        unreachable!()
    };
    seated.contains(index)
}

/// Returns whether the seat has all shares of its set.
#[unsafe(no_mangle)]
pub extern "C" fn hibitset_seat_is_whole(seat: &mut SeatSlot) -> bool
    ensures answer { (result ≡ true) ↔ (weight_of seat.old ≡ SHARES) }
    ensures same { IsSame seat.old seat.new }
{
    if !seat.made {
        return false;
    }
    let SetOrSeat::Seated(seated) = seat.handle.as_mut() else {
        unreachable!()
    };
    seated.is_whole()
}

/// Divides the seat, and leaves the second one in `other`.
#[unsafe(no_mangle)]
pub extern "C" fn hibitset_seat_divide(
    alloc: Global,
    seat: &mut SeatSlot,
    other: &mut SeatSlot,
) -> u32
    ensures no_seat { (result ≡ NO_SEAT) ↔ (has_seat seat.old ≡ false) }
    ensures halves { result ≡ OK → AreHalves seat.old seat.new other.new }
    ensures one_share { result ≡ ONE_SHARE → weight_of seat.old ≡ 1 }
    ensures err { result ≢ OK → Keeps seat.old seat.new
        × (reports_of seat.new ≡ reports_of seat.old) }
    ensures other_kept { result ≢ OK → IsSame other.old other.new }
    ensures status { (result ≡ OK) ⊎ (result ≡ NO_MEMORY) ⊎ (result ≡ ONE_SHARE)
        ⊎ (result ≡ NO_SEAT) }
{
    if !seat.made {
        return NO_SEAT;
    }
    let Ok(mut second) = Box::new(alloc, SetOrSeat::Nothing) else {
        return NO_MEMORY;
    };
    let status = seat.handle.as_mut().divide(alloc, second.as_mut());
    if status == OK {
        other.replace(alloc, second);
    }
    status
}

/// Adds to a set what a walk over the shared set gives.
#[unsafe(no_mangle)]
pub extern "C" fn hibitset_seat_collect(alloc: Global, seat: &mut SeatSlot, set: &mut Set) -> u32
    ensures no_seat { (result ≡ NO_SEAT) ↔ (has_seat seat.old ≡ false) }
    ensures all { result ≡ OK → (i : ℕ) → IsOld seat.old i ⊎ IsKnown seat.old i
        → plain_has set.new i ≡ true }
    ensures found { (i : ℕ) → plain_has set.new i ≡ true
        → (plain_has set.old i ≡ true) ⊎ IsKnown seat.new i }
    ensures members_kept { (i : ℕ) → plain_has set.old i ≡ true → plain_has set.new i ≡ true }
    ensures keeps_known { Keeps seat.old seat.new }
    ensures reports { reports_of seat.new ≡ reports_of seat.old }
    ensures status { (result ≡ OK) ⊎ (result ≡ NO_MEMORY) ⊎ (result ≡ NO_SEAT) }
{
    if !seat.made {
        return NO_SEAT;
    }
    if !set.make(alloc) {
        return NO_MEMORY;
    }
    let SetOrSeat::Seated(seated) = seat.handle.as_mut() else {
        unreachable!()
    };
    let bits = set.handle.as_mut();
    let all = seated.collect(bits);
    set.words.show(bits);
    if all { OK } else { NO_MEMORY }
}

/// Makes of the shared set an atomic set held alone, and leaves it in `set`, if no other seat has it. The seat is given
/// up then.
#[unsafe(no_mangle)]
pub extern "C" fn hibitset_seat_settle(
    alloc: Global,
    seat: &mut SeatSlot,
    set: &mut AtomicSet,
) -> u32
    ensures no_seat { (result ≡ NO_SEAT) ↔ (has_seat seat.old ≡ false) }
    ensures settled { result ≡ OK → Holds seat.old (λ shared s. EndsAs shared s (has set.new)) }
    ensures all_reserved { result ≡ OK → AllBlocksReserved set.new }
    ensures given_up { result ≡ OK → has_seat seat.new ≡ false }
    ensures err { result ≢ OK → IsSameSet set.old set.new }
    ensures seat_kept { result ≢ OK → IsSame seat.old seat.new }
    ensures status { (result ≡ OK) ⊎ (result ≡ NO_MEMORY) ⊎ (result ≡ SHARED) ⊎ (result ≡ NO_SEAT) }
{
    if !seat.made {
        return NO_SEAT;
    }
    let mut content = seat.take(alloc);
    let status = content.settle();
    if status == OK {
        set.replace(alloc, content);
    } else {
        seat.replace(alloc, content);
    }
    status
}
