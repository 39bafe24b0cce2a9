//! Lists of indices that workers put into one set, each list on a thread of its own.
ghost use Rattle.std.specs.Prelude.{◌≡◌, ◌⊎◌, ◌↔◌, ℕ, ◌+◌, ◌<◌, [], true, All, Any, Contains, length, IfOk, IfErr};
ghost use Rattle.std.specs.List.{sum_by, flat_map, AllZip};
ghost use Rattle.hibitset.specs.Prelude.{ATOMIC_MAX_EID, SHARES, IsOld, BelongsTo, IsKnown, weight_of, reports_of};
ghost use Rattle.hibitset_atomic.specs.AtomicBitSet.{has};
ghost use Rattle.uses.specs.Workers.{IsJob, IsWork, IsWorkOf, IsListed, IsNumberOfNew, IsLeft, list_of, seat_weight, new_reports};

use hibitset::{ATOMIC_MAX_EID, AtomicBitSet, Index, Seat, SharedBitSet};
use std::alloc::{AllocError, Global};
use std::thread;
use std::thread::Threads;

/// A set with all that its workers put in, and how many of these indices were new.
#[derive(Drop)]
pub struct Added {
    pub set: AtomicBitSet,
    pub new: usize,
}

/// If an allocation failed, and what is left then.
#[derive(Drop)]
pub enum Refused {
    /// When the set was to be shared: it is as it was.
    Sharing(AtomicBitSet),
    /// While workers were made, or among them: any of the indices may be in the set, which settles with this seat.
    Working(SharedBitSet, Seat),
    /// When the set was to settle: all indices are in it, and it can be tried again, with this seat.
    Settling(SharedBitSet, Seat),
}

// What a worker begins with.
#[derive(Drop)]
struct Job {
    seat: Seat,
    list: Vec<Index>,
}

// What a worker brings back: its seat, and how many indices that seat put in.
#[derive(Drop)]
struct Work {
    seat: Seat,
    new: usize,
}

// Adds the indices of a list that lie in range, and counts those that the seat put in.
fn add_list(set: &SharedBitSet, seat: &mut Seat, list: &[Index]) -> usize
    requires { BelongsTo set.now seat.old × (reports_of seat.old ≡ []) }
    ensures belongs { BelongsTo set.now seat.new }
    ensures weight { weight_of seat.new ≡ weight_of seat.old }
    ensures new { result ≡ length (reports_of seat.new) }
    ensures known { (i : ℕ) → Contains list.now i → i < ATOMIC_MAX_EID → IsKnown seat.new i }
    ensures reported { (i : ℕ) → Contains (reports_of seat.new) i
        → (i < ATOMIC_MAX_EID) × Contains list.now i }
{
    let mut new = 0;
    for id in list {
        if (*id as usize) < ATOMIC_MAX_EID && !set.add_atomic(seat, *id) {
            new += 1;
        }
    }
    new
}

// What a worker does.
fn do_job(set: &SharedBitSet, job: Job) -> Work
    requires { IsJob set.now job }
    ensures { IsWorkOf set.now job result }
{
    let Job { mut seat, list } = job;
    let new = add_list(set, &mut seat, list.as_slice());
    Work { seat, new }
}

// A job for each list, and a seat that stays here.
fn jobs_of(
    set: &SharedBitSet,
    seat: Seat,
    lists: Vec<Vec<Index>>,
    alloc: Global,
) -> Result<(Seat, Vec<Job>), Seat>
    requires seat { BelongsTo set.now seat × (reports_of seat ≡ []) }
    requires enough_shares { length lists.items < weight_of seat }
    ensures value_returned { IfErr result (λ s. s ≡ seat) }
    ensures kept { IfOk result (λ r. BelongsTo set.now r.0 × (reports_of r.0 ≡ [])) }
    ensures jobs { IfOk result (λ r. All (IsJob set.now) r.1.items) }
    ensures lists { IfOk result (λ r. flat_map list_of r.1.items
        ≡ flat_map (λ list. list.items) lists.items) }
    ensures weight { IfOk result (λ r. weight_of r.0 + sum_by (λ job. weight_of job.seat) r.1.items
        ≡ weight_of seat) }
{
    let Ok(mut jobs) = Vec::with_capacity(alloc, lists.len()) else {
        return Err(seat);
    };
    let mut seats = match set.divide_among(alloc, seat, lists.len() + 1) {
        Ok(seats) => seats,
        Err(seat) => return Err(seat),
    };
    'lists: for list in lists {
        let seat = seats.pop().unwrap();
        jobs.push(Job { seat, list }).unwrap();
    }
    Ok((seats.remove(0), jobs))
}

// Each job on a thread of its own.
fn run<R: Threads + Sync>(
    rt: &R,
    set: &SharedBitSet,
    jobs: Vec<Job>,
) -> Result<Vec<Work>, AllocError>
    requires { All (IsJob set.now) jobs.items }
    ensures { IfOk result (λ works. AllZip (IsWorkOf set.now) jobs.items works.items) }
{
    thread::map_vec(
        rt,
        jobs,
        &|job: Job| -> Work
            requires { IsJob set.now job }
            ensures { IsWorkOf set.entry.now job result }
        { do_job(set, job) },
    )
}

// The seat that stayed here and those of all workers, joined, and how many indices they put in.
fn together(set: &SharedBitSet, kept: Seat, works: Vec<Work>) -> Work
    requires kept { BelongsTo set.now kept × (reports_of kept ≡ []) }
    requires works { All (IsWork set.now) works.items }
    ensures belongs { BelongsTo set.now result.seat }
    ensures weight { weight_of result.seat ≡ weight_of kept + sum_by seat_weight works.items }
    ensures known { (i : ℕ) → Any (λ work. IsKnown work.seat i) works.items
        → IsKnown result.seat i }
    ensures reports { reports_of result.seat ≡ flat_map new_reports works.items }
    ensures new { result.new ≡ length (reports_of result.seat) }
{
    let mut seat = kept;
    let mut new = 0;
    'works: for work in works {
        seat = set.join(seat, work.seat);
        new += work.new;
    }
    Work { seat, new }
}

/// Puts all indices of some lists into a set, each list on a thread of its own, and tells how many of them were new.
/// Indices from `ATOMIC_MAX_EID` on are left out.
///
/// The set has exactly its old members and the indices of the lists, whatever the threads do. A seat stays here while
/// they work, so that the set can be settled where some of them failed to allocate.
pub fn add_lists<R: Threads + Sync>(
    rt: &R,
    alloc: Global,
    set: AtomicBitSet,
    lists: Vec<Vec<Index>>,
) -> Result<Added, Refused>
    requires { length lists.items < SHARES }
    ensures members { IfOk result (λ added. (i : ℕ)
        → (has added.set i ≡ true) ↔ ((has set i ≡ true) ⊎ IsListed lists.items i)) }
    ensures new { IfOk result (λ added. IsNumberOfNew (λ i. has set i ≡ true) (has added.set)
        added.new) }
    ensures left { IfErr result (IsLeft (λ i. has set i ≡ true) (λ s. s ≡ set) lists.items) }
{
    match set.share() {
        Ok((shared, seat)) => add_shared(rt, alloc, shared, seat, lists),
        Err(set) => Err(Refused::Sharing(set)),
    }
}

// The same with a set that is shared.
fn add_shared<R: Threads + Sync>(
    rt: &R,
    alloc: Global,
    set: SharedBitSet,
    seat: Seat,
    lists: Vec<Vec<Index>>,
) -> Result<Added, Refused>
    requires seat { BelongsTo set seat × (reports_of seat ≡ []) × (weight_of seat ≡ SHARES) }
    requires enough_shares { length lists.items < SHARES }
    ensures members { IfOk result (λ added. (i : ℕ)
        → (has added.set i ≡ true) ↔ (IsOld set i ⊎ IsListed lists.items i)) }
    ensures new { IfOk result (λ added. IsNumberOfNew (IsOld set) (has added.set) added.new) }
    ensures left { IfErr result (IsLeft (IsOld set) (λ _. ⊥) lists.items) }
{
    let (kept, jobs) = match jobs_of(&set, seat, lists, alloc) {
        Ok(both) => both,
        Err(seat) => return Err(Refused::Working(set, seat)),
    };
    let Ok(works) = run(rt, &set, jobs) else {
        return Err(Refused::Working(set, kept));
    };
    let Work { seat, new } = together(&set, kept, works);
    match set.settle(seat) {
        Ok(set) => Ok(Added { set, new }),
        Err((set, seat)) => Err(Refused::Settling(set, seat)),
    }
}
