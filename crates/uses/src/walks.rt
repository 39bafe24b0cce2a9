//! Walks over a set that others add to at the same time.

ghost use Rattle.std.specs.Prelude.{◌≡◌, ◌⊎◌, ℕ, ◌+◌, ◌*◌, ◌<◌, ◌≤◌, IfOk, IfSome, Option, None, Contains, length};
ghost use Rattle.std.specs.List.Sorted.{IsStrictlyIncreasing};
ghost use Rattle.hibitset.specs.Prelude.{IsOld, BelongsTo, IsKnown, weight_of, reports_of, loads_by, exchanges_by};

use hibitset::{Index, Seat, SharedBitSet};
use std::alloc::{AllocError, Global};

/// The indices that a walk gives while others add, in ascending order: each that was there before `share`, each that
/// the seat knew, and whatever else it met. The seat knows them all afterwards. It loads at most three words for each
/// and four more, and writes none. If an allocation fails, the seat still came from the set, and knows what it knew.
pub fn indices(alloc: Global, set: &SharedBitSet, seat: &mut Seat) -> Result<Vec<Index>, AllocError>
    requires { BelongsTo set.now seat.old }
    ensures belongs { BelongsTo set.now seat.new }
    ensures seat { (weight_of seat.new ≡ weight_of seat.old)
        × (reports_of seat.new ≡ reports_of seat.old) }
    ensures known { (i : ℕ) → IsKnown seat.old i → IsKnown seat.new i }
    ensures all { IfOk result (λ all. (i : ℕ) → IsOld set.now i ⊎ IsKnown seat.old i
        → Contains all.items i) }
    ensures items { IfOk result (λ all. (i : ℕ) → Contains all.items i → IsKnown seat.new i) }
    ensures ascending { IfOk result (λ all. IsStrictlyIncreasing all.items) }
    ensures loads { IfOk result (λ all. loads_by seat.new
        ≤ loads_by seat.old + 3 * (length all.items + 1) + 1) }
    ensures exchanges { exchanges_by seat.new ≡ exchanges_by seat.old }
{
    let mut all = Vec::new(alloc);
    for index in set.walk(seat) {
        all.push(index)?;
    }
    Ok(all)
}

/// The first index that a walk gives, which is dropped after it: no index from before `share`, and none that the seat
/// knew, is less. The seat knows it afterwards, and what it knew. At most four words are loaded, and none is written.
pub fn first(set: &SharedBitSet, seat: &mut Seat) -> Option<Index>
    requires { BelongsTo set.now seat.old }
    ensures belongs { BelongsTo set.now seat.new }
    ensures seat { (weight_of seat.new ≡ weight_of seat.old)
        × (reports_of seat.new ≡ reports_of seat.old) }
    ensures known { (i : ℕ) → IsKnown seat.old i → IsKnown seat.new i }
    ensures item { IfSome result (λ x. IsKnown seat.new x) }
    ensures lowest { IfSome result (λ x. (i : ℕ) → IsOld set.now i ⊎ IsKnown seat.old i → x ≤ i) }
    ensures empty { result ≡ None → (i : ℕ) → ¬ IsOld set.now i × ¬ IsKnown seat.old i }
    ensures steps { (loads_by seat.new ≤ loads_by seat.old + 4)
        × (exchanges_by seat.new ≡ exchanges_by seat.old) }
{
    let mut walk = set.walk(seat);
    walk.next()
}
