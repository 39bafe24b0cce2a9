//! Members of a shared set that are collected while others add.
ghost use Rattle.std.specs.Prelude.{◌≡◌, ◌⊎◌, ℕ, true};
ghost use Rattle.hibitset.specs.BitSet.{has as bits_have};
ghost use Rattle.hibitset_atomic.specs.Seats.{IsOld, BelongsTo, IsKnown, weight_of, reports_of};

use hibitset::{BitSet, Seat, SharedBitSet};

// Adds to a set what a walk over a shared set gives. Returns false if an allocation failed.
pub(crate) fn collect(set: &SharedBitSet, seat: &mut Seat, bits: &mut BitSet) -> bool
    requires { BelongsTo set.now seat.old }
    ensures belongs { BelongsTo set.now seat.new }
    ensures seat { (weight_of seat.new ≡ weight_of seat.old)
        × (reports_of seat.new ≡ reports_of seat.old) }
    ensures known { (i : ℕ) → IsKnown seat.old i → IsKnown seat.new i }
    ensures members_kept { (i : ℕ) → bits_have bits.old i ≡ true → bits_have bits.new i ≡ true }
    ensures found { (i : ℕ) → bits_have bits.new i ≡ true
        → (bits_have bits.old i ≡ true) ⊎ IsKnown seat.new i }
    ensures all { result ≡ true → (i : ℕ) → IsOld set.now i ⊎ IsKnown seat.old i
        → bits_have bits.new i ≡ true }
{
    for index in set.walk(seat) {
        if bits.add(index).is_err() {
            return false;
        }
    }
    true
}
