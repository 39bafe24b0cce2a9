//! Identifiers that many threads take from one set, none of them twice.
ghost use Rattle.std.specs.Prelude.{◌≡◌, ◌⊎◌, ℕ, ◌+◌, ◌-◌, ◌*◌, ◌<◌, ◌≤◌, ◌∷◌, [], true, Contains, IfSome, IfNone, MatchOption, length, min, reverse};
ghost use Rattle.hibitset.specs.Prelude.{ATOMIC_MAX_EID, IsOld, BelongsTo, IsKnown, weight_of, reports_of, loads_by};

use hibitset::{ATOMIC_MAX_EID, Index, Seat, SharedBitSet};
use std::alloc::Global;

/// The identifiers that a thread took, in the order in which it took them, with its seat, and whether it failed to
/// allocate for more.
#[derive(Drop)]
pub struct Taken {
    pub seat: Seat,
    pub ids: Vec<Index>,
    pub refused: bool,
}

/// Takes a fresh identifier: the first from `start` on that the seat's own exchange puts in, of `tries` below
/// `ATOMIC_MAX_EID`, or none if all of these were there.
///
/// It was not there when the set was shared, nor did the seat know it, and it is the newest of the seat's reports from
/// then on. No two seats that are joined have a report in common, as `join` says, so no other of them is given it,
/// whatever the threads do. It makes at most seven loads for each index that it tries.
pub fn take_fresh(set: &SharedBitSet, seat: &mut Seat, start: Index, tries: u32) -> Option<Index>
    requires { BelongsTo set.now seat.old }
    ensures belongs { BelongsTo set.now seat.new }
    ensures weight { weight_of seat.new ≡ weight_of seat.old }
    ensures known { (i : ℕ) → IsKnown seat.old i → IsKnown seat.new i }
    ensures in_range { IfSome result (λ id. (start ≤ id) × (id < start + tries)
        × (id < ATOMIC_MAX_EID)) }
    ensures fresh { IfSome result (λ id. ¬ IsOld set.now id × ¬ IsKnown seat.old id
        × ¬ Contains (reports_of seat.old) id) }
    ensures given { IfSome result (λ id. reports_of seat.new ≡ id ∷ reports_of seat.old) }
    ensures first { IfSome result (λ id. (i : ℕ) → start ≤ i → i ≤ id → IsKnown seat.new i) }
    ensures reports_kept { IfNone result (reports_of seat.new ≡ reports_of seat.old) }
    ensures all { IfNone result ((i : ℕ) → start ≤ i → i < start + tries → i < ATOMIC_MAX_EID
        → IsKnown seat.new i) }
    ensures loads { MatchOption result
        (loads_by seat.new ≤ loads_by seat.old + 7 * (min (start + tries) ATOMIC_MAX_EID - start))
        (λ id. loads_by seat.new ≤ loads_by seat.old + 7 * (id + 1 - start)) }
{
    let end = start.saturating_add(tries).min(ATOMIC_MAX_EID as Index);
    for id in start..end {
        if !set.add_atomic(seat, id) {
            return Some(id);
        }
    }
    None
}

// Takes so many fresh identifiers into a list, or fewer where no more are found, or if an allocation fails, which it
// tells.
fn take_into(set: &SharedBitSet, seat: &mut Seat, ids: &mut Vec<Index>, count: usize) -> bool
    requires belongs { BelongsTo set.now seat.old }
    requires empty { (reports_of seat.old ≡ []) × (ids.old.items ≡ []) }
    ensures belongs { BelongsTo set.now seat.new }
    ensures weight { weight_of seat.new ≡ weight_of seat.old }
    ensures taken { reports_of seat.new ≡ reverse ids.new.items }
    ensures count { length ids.new.items ≤ count }
    ensures complete { (length ids.new.items ≡ count) ⊎ (result ≡ true)
        ⊎ ((i : ℕ) → i < ATOMIC_MAX_EID → IsKnown seat.new i) }
    ensures loads { loads_by seat.new ≤ loads_by seat.old + 7 * ATOMIC_MAX_EID }
{
    let mut start = 0;
    for _ in 0..count {
        if ids.reserve(1).is_err() {
            return true;
        }
        let Some(id) = take_fresh(set, seat, start, u32::MAX) else {
            return false;
        };
        ids.push(id).unwrap();
        start = id + 1;
    }
    false
}

/// Takes `count` fresh identifiers with a new seat. It takes fewer only if the allocation of the list fails, as
/// `refused` says, or if each index below `ATOMIC_MAX_EID` is there, as the seat then knows. It reserves before it
/// takes one, so none is lost.
///
/// Each index is tried at most once: however many are taken, it makes at most seven loads for each index below
/// `ATOMIC_MAX_EID`.
pub fn take_many(alloc: Global, set: &SharedBitSet, seat: Seat, count: usize) -> Taken
    requires { BelongsTo set.now seat × (reports_of seat ≡ []) }
    ensures belongs { BelongsTo set.now result.seat }
    ensures weight { weight_of result.seat ≡ weight_of seat }
    ensures taken { reports_of result.seat ≡ reverse result.ids.items }
    ensures count { length result.ids.items ≤ count }
    ensures complete { (length result.ids.items ≡ count) ⊎ (result.refused ≡ true)
        ⊎ ((i : ℕ) → i < ATOMIC_MAX_EID → IsKnown result.seat i) }
    ensures loads { loads_by result.seat ≤ loads_by seat + 7 * ATOMIC_MAX_EID }
{
    let mut seat = seat;
    let mut ids = Vec::new(alloc);
    let refused = take_into(set, &mut seat, &mut ids, count);
    Taken { seat, ids, refused }
}
