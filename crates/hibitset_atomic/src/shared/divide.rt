//! A seat that is divided among so many. Any number of shares is cut off by halves and joins.
#![tactic(auto)]

ghost use Rattle.std.specs.Prelude.{◌≡◌, ℕ, ◌+◌, ◌-◌, ◌*◌, ◌^◌, ◌<◌, ◌≤◌, [], ◌∷◌, length, map, replicate, All, vec_capacity, IfOk, IfErr};
ghost use Rattle.std.specs.List.{sum_by};
ghost use Rattle.hibitset_atomic.specs.Seats.{BelongsTo, IsKnown, weight_of, reports_of, loads_by, exchanges_by};
ghost use Rattle.hibitset_atomic.specs.Division.{IsEvenShare, KnowsAllOf};

use crate::shared::{Seat, SharedBitSet};
use std::alloc::Global;

// The share of one of so many seats: the weight by their number, rounded up.
fn share_of_one(weight: u32, seats: usize) -> u32
    requires nonzero { 0 < seats }
    requires enough_shares { seats ≤ weight }
    ensures up { weight ≤ seats * result }
    ensures share_max { seats * result < weight + seats }
{
    weight.div_ceil(seats as u32)
}

impl SharedBitSet {
    // Two seats of one: the second has so many of its shares, and the first has the others, with the reports.
    //
    // Each is a half, or a part of a half that is joined to the other half. So there are at most 15 joins, with a load
    // each.
    fn cut_off(&self, seat: Seat, shares: u32) -> (Seat, Seat)
        requires belongs { BelongsTo self.now seat }
        requires shares { (0 < shares) × (shares < weight_of seat) }
        ensures belongs { BelongsTo self.now result.0 × BelongsTo self.now result.1 }
        ensures weights { (weight_of result.0 ≡ weight_of seat - shares)
            × (weight_of result.1 ≡ shares) }
        ensures reports { (reports_of result.0 ≡ reports_of seat) × (reports_of result.1 ≡ []) }
        ensures known { (i : ℕ) → IsKnown seat i → IsKnown result.0 i × IsKnown result.1 i }
        ensures loads { (n : ℕ) → weight_of seat ≤ 2 ^ (n + 1)
            → (loads_by result.0 + loads_by result.1 ≤ loads_by seat + n)
            × (loads_by result.1 ≤ n) }
        ensures exchanges { (exchanges_by result.0 ≡ exchanges_by seat)
            × (exchanges_by result.1 ≡ 0) }
    {
        let (first, second) = self.divide(seat);
        let second = second.unwrap();
        let half = second.weight();
        if shares == half {
            (first, second)
        } else if shares < half {
            let (rest, cut) = self.cut_off(second, shares);
            (self.join(first, rest), cut)
        } else {
            let (kept, more) = self.cut_off(first, shares - half);
            (kept, self.join(more, second))
        }
    }

    // Puts the seats of one seat into a vector that has room for them.
    fn give_seats(&self, seat: Seat, n: usize, seats: &mut Vec<Seat>)
        requires belongs { BelongsTo self.now seat }
        requires nonzero { 0 < n }
        requires enough_shares { n ≤ weight_of seat }
        requires empty { seats.old.items ≡ [] }
        requires capacity { n ≤ vec_capacity seats.old }
        ensures number { length seats.new.items ≡ n }
        ensures belongs { All (BelongsTo self.now) seats.new.items }
        ensures even_shares { All (IsEvenShare (weight_of seat) n) seats.new.items }
        ensures shares { sum_by weight_of seats.new.items ≡ weight_of seat }
        ensures reports { map reports_of seats.new.items ≡ reports_of seat ∷ replicate (n - 1) [] }
        ensures known { All (KnowsAllOf seat) seats.new.items }
        ensures loads { All (λ s. loads_by s ≤ loads_by seat + 30) seats.new.items }
        ensures exchanges { map exchanges_by seats.new.items
            ≡ exchanges_by seat ∷ replicate (n - 1) 0 }
    {
        let mut rest = seat;
        'seats: for given in 0..n - 1 {
            let weight = rest.weight();
            let share = share_of_one(weight, n - given);
            let (next, others) = self.cut_off(rest, weight - share);
            seats.push(next).unwrap();
            rest = others;
        }
        seats.push(rest).unwrap();
    }

    /// Makes n seats of one, for as many threads: each has the weight of the one by their number, rounded down or up,
    /// and together they have all of it.
    ///
    /// The first has the reports and the exchanges, and the others have none; all know what the seat knew. Joined again
    /// they are a seat of the same weight, whole if that was.
    ///
    /// ```text
    /// let seats = shared.divide_among(alloc, seat, 4).ok()?;
    /// // four seats, one for each thread
    /// ```
    ///
    /// # Errors
    ///
    /// The allocation of the vector fails: the seat comes back unchanged.
    ///
    /// # Cost
    ///
    /// Each seat has the loads of the one and at most 30 more. It waits for no other thread.
    pub fn divide_among(&self, alloc: Global, seat: Seat, n: usize) -> Result<Vec<Seat>, Seat>
        requires belongs { BelongsTo self.now seat }
        requires nonzero { 0 < n }
        requires enough_shares { n ≤ weight_of seat }
        ensures value_returned { IfErr result (λ s. s ≡ seat) }
        ensures number { IfOk result (λ seats. length seats.items ≡ n) }
        ensures belongs { IfOk result (λ seats. All (BelongsTo self.now) seats.items) }
        ensures even_shares { IfOk result (λ seats. All (IsEvenShare (weight_of seat) n) seats.items) }
        ensures shares { IfOk result (λ seats. sum_by weight_of seats.items ≡ weight_of seat) }
        ensures reports { IfOk result (λ seats. map reports_of seats.items
            ≡ reports_of seat ∷ replicate (n - 1) []) }
        ensures known { IfOk result (λ seats. All (KnowsAllOf seat) seats.items) }
        ensures loads { IfOk result (λ seats. All (λ s. loads_by s ≤ loads_by seat + 30)
            seats.items) }
        ensures exchanges { IfOk result (λ seats. map exchanges_by seats.items
            ≡ exchanges_by seat ∷ replicate (n - 1) 0) }
    {
        let Ok(mut seats) = Vec::with_capacity(alloc, n) else {
            return Err(seat);
        };
        self.give_seats(seat, n, &mut seats);
        Ok(seats)
    }
}
