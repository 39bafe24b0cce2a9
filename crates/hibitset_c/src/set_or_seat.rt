//! What the pointer of an atomic set, of a seat or of a sparse set in C owns.
#![tactic(auto)]

use crate::seat_of_set::{Divided, SeatOfSet, Settled};
use crate::status::{NO_MEMORY, OK, ONE_SHARE, SHARED};
use hibitset::AtomicBitSet;
use hibitset_sparse::SparseBitSet;
use std::alloc::Global;
use std::mem;

/// An atomic set held alone, a seat of a shared one, or a sparse set.
#[derive(Drop)]
pub enum SetOrSeat {
    Alone(AtomicBitSet),
    Seated(SeatOfSet),
    Sparse(SparseBitSet),
    /// Within a call alone, which makes the one of the other.
    Nothing,
}

impl SetOrSeat {
    ghost use Rattle.std.specs.Prelude.{◌≡◌, ◌≢◌, ◌⊎◌, true, false};
    ghost use Rattle.hibitset_c.specs.SetOrSeat.{is_alone, is_seated, Opens, Halves, HasOneShare, KeepsAll, Settles, IsSameSeat};
    ghost use Rattle.hibitset_c.specs.declared.status.TheConstants.{OK, NO_MEMORY, SHARED, ONE_SHARE};

    // Shares the set. Returns false if an allocation failed.
    pub(crate) fn share(&mut self) -> bool
        requires { is_alone self.old ≡ true }
        ensures shared { result ≡ true → Opens self.old self.new }
        ensures err { result ≡ false → self.new ≡ self.old }
    {
        let SetOrSeat::Alone(set) = mem::replace(self, SetOrSeat::Nothing) else {
            unreachable!()
        };
        match set.share() {
            Ok((set, seat)) => {
                *self = SetOrSeat::Seated(SeatOfSet::new(set, seat));
                true
            }
            Err(set) => {
                *self = SetOrSeat::Alone(set);
                false
            }
        }
    }

    // Divides the seat, and puts the second one into `other`. Returns the status.
    pub(crate) fn divide(&mut self, alloc: Global, other: &mut SetOrSeat) -> u32
        requires { is_seated self.old ≡ true }
        ensures halves { result ≡ OK → Halves self.old self.new other.new }
        ensures one { result ≡ ONE_SHARE → HasOneShare self.old }
        ensures seat_kept { result ≢ OK → KeepsAll self.old self.new }
        ensures status { (result ≡ OK) ⊎ (result ≡ NO_MEMORY) ⊎ (result ≡ ONE_SHARE) }
    {
        let SetOrSeat::Seated(seated) = mem::replace(self, SetOrSeat::Nothing) else {
            unreachable!()
        };
        match seated.divide(alloc) {
            Divided::Two(first, second) => {
                *self = SetOrSeat::Seated(first);
                *other = SetOrSeat::Seated(second);
                OK
            }
            Divided::Single(seated) => {
                *self = SetOrSeat::Seated(seated);
                ONE_SHARE
            }
            Divided::NoMemory(seated) => {
                *self = SetOrSeat::Seated(seated);
                NO_MEMORY
            }
        }
    }

    // Makes of the last seat the set held alone. Returns the status.
    pub(crate) fn settle(&mut self) -> u32
        requires { is_seated self.old ≡ true }
        ensures settled { result ≡ OK → Settles self.old self.new }
        ensures seat_kept { result ≢ OK → IsSameSeat self.old self.new }
        ensures status { (result ≡ OK) ⊎ (result ≡ NO_MEMORY) ⊎ (result ≡ SHARED) }
    {
        let SetOrSeat::Seated(seated) = mem::replace(self, SetOrSeat::Nothing) else {
            unreachable!()
        };
        match seated.settle() {
            Settled::Alone(set) => {
                *self = SetOrSeat::Alone(set);
                OK
            }
            Settled::Shared(seated) => {
                *self = SetOrSeat::Seated(seated);
                SHARED
            }
            Settled::NoMemory(seated) => {
                *self = SetOrSeat::Seated(seated);
                NO_MEMORY
            }
        }
    }
}
