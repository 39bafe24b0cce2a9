//! A seat beside the set that it came from.
#![tactic(auto)]

ghost use Rattle.hibitset_atomic.specs.Seats.{BelongsTo};
ghost use Rattle.hibitset_c.specs.Shared.{set_of};

use crate::collect::collect;
use crate::shared::Shared;
use hibitset::{AtomicBitSet, BitSet, Index, Seat, SharedBitSet};
use std::alloc::Global;

/// A seat, and the set that it came from.
#[derive(Drop)]
pub struct SeatOfSet {
    pub(crate) set: Shared,
    pub(crate) seat: Seat,
    ghost came: { ∥ BelongsTo (set_of set) seat ∥₁ },
}

/// What comes of a seat that is divided.
pub(crate) enum Divided {
    Two(SeatOfSet, SeatOfSet),
    /// It has one share.
    Single(SeatOfSet),
    /// An allocation failed.
    NoMemory(SeatOfSet),
}

/// What comes of a set that is to be held alone again.
pub(crate) enum Settled {
    Alone(AtomicBitSet),
    /// It has another seat.
    Shared(SeatOfSet),
    /// An allocation failed.
    NoMemory(SeatOfSet),
}

impl SeatOfSet {
    ghost use Rattle.std.specs.Prelude.{◌≡◌, ◌≢◌, ◌⊎◌, ℕ, ◌+◌, ◌<◌, ◌≤◌, ◌∷◌, true, false, Contains};
    ghost use Rattle.hibitset.specs.BitSet.{has as bits_have};
    ghost use Rattle.hibitset_atomic.specs.Seats.{IsOld, IsKnown, weight_of, reports_of, loads_by, exchanges_by};
    ghost use Rattle.hibitset_atomic.specs.declared.atomic.TheConstants.{ATOMIC_MAX_EID};
    ghost use Rattle.hibitset_atomic.specs.declared.shared.layout.TheConstants.{SHARES};
    ghost use Rattle.hibitset_c.specs.SeatOfSet.{Keeps, DividesTo, SettlesTo};

    // A shared set with its first seat.
    pub(crate) fn new(set: SharedBitSet, seat: Seat) -> SeatOfSet
        requires { BelongsTo set seat }
        ensures { (set_of result.set ≡ set) × (result.seat ≡ seat) }
    {
        SeatOfSet {
            set: Shared::Sole(set),
            seat,
        }
    }

    // Adds an index. Returns whether it was there.
    #[tactic(auto, using(crate::proofs::BelongsToLemmas::came_at))]
    #[inline]
    pub(crate) fn add(&mut self, index: Index) -> bool
        requires { index < ATOMIC_MAX_EID }
        ensures keeps_known { Keeps self.old self.new }
        ensures known { IsKnown self.new.seat index }
        ensures no_report { result ≡ true → reports_of self.new.seat ≡ reports_of self.old.seat }
        ensures new { result ≡ false → (reports_of self.new.seat ≡ index ∷ reports_of self.old.seat)
            × ¬ IsOld (set_of self.old.set) index × ¬ IsKnown self.old.seat index }
        ensures not_reported { result ≡ false → ¬ Contains (reports_of self.old.seat) index }
        ensures loads { loads_by self.new.seat ≤ loads_by self.old.seat + 7 }
        ensures exchanges { exchanges_by self.new.seat ≤ exchanges_by self.old.seat + 4 }
        ensures known_cost { IsOld (set_of self.old.set) index ⊎ IsKnown self.old.seat index
            → (loads_by self.new.seat ≤ loads_by self.old.seat + 4)
            × (exchanges_by self.new.seat ≡ exchanges_by self.old.seat) }
    {
        self.set.as_set().add_atomic(&mut self.seat, index)
    }

    // Returns whether an index is there.
    #[tactic(auto, using(crate::proofs::BelongsToLemmas::came_at))]
    #[inline]
    pub(crate) fn contains(&mut self, index: Index) -> bool
        ensures keeps_known { Keeps self.old self.new }
        ensures reports { reports_of self.new.seat ≡ reports_of self.old.seat }
        ensures if_true { result ≡ true → (index < ATOMIC_MAX_EID) × IsKnown self.new.seat index }
        ensures if_false { result ≡ false → ¬ IsOld (set_of self.old.set) index
            × ¬ IsKnown self.new.seat index }
        ensures steps { (loads_by self.new.seat ≤ loads_by self.old.seat + 4)
            × (exchanges_by self.new.seat ≡ exchanges_by self.old.seat) }
    {
        self.set.as_set().contains(&mut self.seat, index)
    }

    // Makes two seats of one.
    #[tactic(auto, using(crate::proofs::BelongsToLemmas::came_at))]
    pub(crate) fn divide(self, alloc: Global) -> Divided
        ensures { DividesTo self result }
    {
        let SeatOfSet { set, seat } = self;
        let (set, other_set) = match set.two(alloc) {
            Ok(both) => both,
            Err(set) => return Divided::NoMemory(SeatOfSet { set, seat }),
        };
        let (seat, other) = set.as_set().divide(seat);
        let first = SeatOfSet { set, seat };
        match other {
            Some(seat) => Divided::Two(
                first,
                SeatOfSet {
                    set: other_set,
                    seat,
                },
            ),
            None => Divided::Single(first),
        }
    }

    // The set held alone again, if this is the only seat left.
    #[tactic(auto, using(crate::proofs::BelongsToLemmas::came_at))]
    pub(crate) fn settle(self) -> Settled
        ensures { SettlesTo self result }
    {
        let SeatOfSet { set, seat } = self;
        let set = match set.into_set() {
            Ok(set) => set,
            Err(set) => return Settled::Shared(SeatOfSet { set, seat }),
        };
        match set.settle(seat) {
            Ok(set) => Settled::Alone(set),
            Err((set, seat)) => Settled::NoMemory(SeatOfSet::new(set, seat)),
        }
    }

    // Adds to a set what a walk gives. Returns false if an allocation failed.
    #[tactic(auto, using(crate::proofs::BelongsToLemmas::came_at))]
    pub(crate) fn collect(&mut self, bits: &mut BitSet) -> bool
        ensures keeps_known { Keeps self.old self.new }
        ensures reports { reports_of self.new.seat ≡ reports_of self.old.seat }
        ensures members_kept { (i : ℕ) → bits_have bits.old i ≡ true → bits_have bits.new i ≡ true }
        ensures found { (i : ℕ) → bits_have bits.new i ≡ true
            → (bits_have bits.old i ≡ true) ⊎ IsKnown self.new.seat i }
        ensures all { result ≡ true → (i : ℕ)
            → IsOld (set_of self.old.set) i ⊎ IsKnown self.old.seat i
            → bits_have bits.new i ≡ true }
    {
        collect(self.set.as_set(), &mut self.seat, bits)
    }

    // Returns whether the seat has all shares of its set.
    pub(crate) fn is_whole(&self) -> bool
        ensures if_true { result ≡ true → weight_of self.now.seat ≡ SHARES }
        ensures if_false { result ≡ false → weight_of self.now.seat ≢ SHARES }
    {
        self.seat.is_whole()
    }
}
