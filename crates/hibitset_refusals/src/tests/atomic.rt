//! Sets that threads add to. A test of building or extending is one call of a function that several share.
ghost use Rattle.std.specs.Prelude.{◌≡◌, ◌<◌, IfOk, IfErr};
ghost use Rattle.hibitset_atomic.specs.Seats.{BelongsTo, weight_of};
ghost use Rattle.hibitset_atomic.specs.declared.atomic.TheConstants.{ATOMIC_MAX_EID};
ghost use Rattle.hibitset_atomic.specs.declared.shared.layout.TheConstants.{SHARES};

use crate::tests::{
    Drawn, ask, assert_has, assert_way, atomic_of, has_exactly, is_refused_there, say, shared_of,
};
use hibitset::{AtomicBitSet, BuildError, Index, Seat, SharedBitSet};
use std::alloc::{AllocError, AllocGlobal, Global};
use std::io::Print;
use std::process::Abort;

// allocates: 4, 41_984 bytes: hibitset_atomic::AtomicBitSet::new
#[test]
fn new(rt: HostRuntime) -> Result<(), AllocError> {
    let set = retried!(&rt, AtomicBitSet::new(rt.alloc()));
    assert_has(&rt, &set, &[]);
    Ok(())
}

fn added(set: &mut AtomicBitSet, id: Index) -> Result<bool, AllocError>
    requires { id < ATOMIC_MAX_EID }
{
    set.add(id)
}

// allocates: 1, 2_048 bytes: hibitset_atomic::AtomicBitSet::add
#[test]
fn add(rt: HostRuntime) -> Result<(), AllocError> {
    let mut set = atomic_of(rt.alloc(), &[5])?;
    ask(&rt);
    assert!(rt; added(&mut set, 4095) == Ok(false));
    let first = added(&mut set, 4096);
    say(&rt, first.is_err());
    ask(&rt);
    if first.is_err() {
        assert_way(&rt, &set, &[5, 4095], 4096, [1, 1, 1, 0, 0]);
        assert!(rt; added(&mut set, 4096) == Ok(false));
    }
    assert_has(&rt, &set, &[5, 4095, 4096]);
    Ok(())
}

// Indices of four blocks. The first of each of two blocks may find no memory, and one that is alone in the fourth.
const SPREAD: [Index; 9] = [6, 7, 8, 9, 5_000_000, 10, 9_000_000, 13_000_000, 11];

// Returns whether building failed to allocate: for the empty set, and then all of `SPREAD` is left, or for an item that
// can need some, and then all after it.
fn is_building_refused(error: BuildError, next: Option<Index>) -> bool {
    let for_no_item = error == (BuildError::Memory { place: 0 }) && next == Some(SPREAD[0]);
    for_no_item || is_refused_there(&SPREAD, error, next, &[0, 4, 7])
}

// What is made of these items, or of references to them.
fn of_items(alloc: Global, items: &[Index], by_reference: bool) -> Drawn<AtomicBitSet> {
    drawn!(
        items,
        by_reference,
        |left| AtomicBitSet::from_index_refs(alloc, &mut left),
        AtomicBitSet::from_indices(alloc, &mut left)
    )
}

// How a set is made of `SPREAD`, or extended by it.
#[derive(Clone, Copy, PartialEq)]
enum By {
    Indices,
    References,
    Slice,
}

// What is made of `SPREAD`, and the item that is left then; of a slice it is not known.
fn of_spread(alloc: Global, by: By) -> Drawn<AtomicBitSet> {
    if by == By::Slice {
        return (AtomicBitSet::from_slice(alloc, &SPREAD), None);
    }
    of_items(alloc, &SPREAD, by == By::References)
}

fn assert_has_spread(rt: &impl Abort, set: &AtomicBitSet) {
    let members = [6, 7, 8, 9, 10, 11, 5_000_000, 9_000_000, 13_000_000];
    assert_has(rt, set, &members);
}

// Sees that a set of `SPREAD` is made, or that an allocation failed; then it is made again.
fn assert_spread(rt: &(impl Abort + Print + AllocGlobal), by: By) -> Result<(), BuildError> {
    let (built, next) = tried!(rt, of_spread(rt.alloc(), by), |it| it.0.is_err());
    if let Err(error) = &built {
        assert!(rt; by == By::Slice || is_building_refused(*error, next));
    }
    let set = or_again!(built, of_spread(rt.alloc(), by).0);
    assert_has_spread(rt, &set);
    Ok(())
}

// allocates: 7, 49_152 bytes: hibitset_atomic::AtomicBitSet::from_indices, hibitset_base::from_indices
#[test]
fn from_indices(rt: HostRuntime) -> Result<(), BuildError> {
    assert_spread(&rt, By::Indices)
}

// allocates: 7, 49_152 bytes: hibitset_atomic::AtomicBitSet::from_index_refs, hibitset_base::from_index_refs
#[test]
fn from_index_refs(rt: HostRuntime) -> Result<(), BuildError> {
    assert_spread(&rt, By::References)
}

// allocates: 7, 49_152 bytes: hibitset_atomic::AtomicBitSet::from_slice, hibitset_base::from_slice
#[test]
fn from_slice(rt: HostRuntime) -> Result<(), BuildError> {
    assert_spread(&rt, By::Slice)
}

const ONE_FITS: [Index; 3] = [7, 16_777_216, 8];

// Returns whether the allocation failed for the empty set, or for the first item.
fn fails_at_first(built: &Drawn<AtomicBitSet>) -> bool {
    match &built.0 {
        Ok(_) => false,
        Err(error) => *error == BuildError::Memory { place: 0 },
    }
}

// Sees that no set is made of `ONE_FITS`, and what is left of it: if an allocation failed all, or all after the first
// item, and else all after the one out of range.
fn assert_one_fits(rt: &(impl Abort + Print + AllocGlobal), by_reference: bool) {
    let built = tried!(
        rt,
        of_items(rt.alloc(), &ONE_FITS, by_reference),
        |it| fails_at_first(&it)
    );
    let after_out_of_range = built.1 == Some(8);
    assert!(rt; built.0.is_err() && built.1.is_some());
    assert!(rt; fails_at_first(&built) != after_out_of_range);
}

// allocates: 5, 43_008 bytes: hibitset_atomic::AtomicBitSet::from_indices
#[test]
fn from_indices_of_which_one_fits(rt: HostRuntime) {
    assert_one_fits(&rt, false);
}

// allocates: 5, 43_008 bytes: hibitset_atomic::AtomicBitSet::from_index_refs
#[test]
fn from_index_refs_of_which_one_fits(rt: HostRuntime) {
    assert_one_fits(&rt, true);
}

const NONE_FITS: [Index; 2] = [16_777_216, 8];

// Sees that no item of `NONE_FITS` was drawn if an allocation failed, and else that the first is out of range and no
// other was drawn.
fn assert_none_was_taken(rt: &impl Abort, built: Drawn<AtomicBitSet>) {
    let (built, next) = built;
    let Some(error) = built.err() else {
        panic!(rt; "an index out of range was taken")
    };
    if error == (BuildError::Memory { place: 0 }) {
        assert!(rt; next == Some(16_777_216));
        return;
    }
    let out_of_range = BuildError::OutOfRange {
        place: 0,
        index: 16_777_216,
    };
    assert!(rt; error == out_of_range && next == Some(8));
}

fn assert_none_fits(rt: &(impl Abort + Print + AllocGlobal), by_reference: bool) {
    let built = tried!(
        rt,
        of_items(rt.alloc(), &NONE_FITS, by_reference),
        |it| fails_at_first(&it)
    );
    assert_none_was_taken(rt, built);
}

// allocates: 4, 41_984 bytes: hibitset_atomic::AtomicBitSet::from_indices
#[test]
fn from_indices_of_which_none_fits(rt: HostRuntime) {
    assert_none_fits(&rt, false);
}

// allocates: 4, 41_984 bytes: hibitset_atomic::AtomicBitSet::from_index_refs
#[test]
fn from_index_refs_of_which_none_fits(rt: HostRuntime) {
    assert_none_fits(&rt, true);
}

// Returns whether a set without members was made, or its memory was refused.
fn is_empty_or_refused(built: &Result<AtomicBitSet, BuildError>) -> bool {
    match built {
        Ok(set) => has_exactly(set, &[]),
        Err(error) => *error == BuildError::Memory { place: 0 },
    }
}

// What is made of no items.
fn of_none(alloc: Global, by_reference: bool) -> Result<AtomicBitSet, BuildError> {
    if by_reference {
        AtomicBitSet::from_index_refs(alloc, &[0u32; 0])
    } else {
        AtomicBitSet::from_indices(alloc, 0..0)
    }
}

fn assert_of_none(rt: &(impl Abort + Print + AllocGlobal), by_reference: bool) {
    let built = tried!(rt, of_none(rt.alloc(), by_reference));
    assert!(rt; is_empty_or_refused(&built));
}

// The empty set itself wants memory, also where there is no item.
// allocates: 4, 41_984 bytes: hibitset_atomic::AtomicBitSet::from_indices
#[test]
fn from_no_indices(rt: HostRuntime) {
    assert_of_none(&rt, false);
}

// allocates: 4, 41_984 bytes: hibitset_atomic::AtomicBitSet::from_index_refs
#[test]
fn from_no_index_refs(rt: HostRuntime) {
    assert_of_none(&rt, true);
}

// Sees that a set over 5 failed to allocate for an item of `SPREAD` that can need some, and has the items before it.
fn assert_stopped(rt: &impl Abort, set: &AtomicBitSet, error: BuildError, next: Option<Index>) {
    assert!(rt; is_refused_there(&SPREAD, error, next, &[4, 7]));
    assert!(rt; set.contains(9) && !set.contains(13_000_000) && !set.contains(11));
    if error == (BuildError::Memory { place: 4 }) {
        assert_way(rt, set, &[5, 6, 7, 8, 9], 5_000_000, [1, 1, 0, 0, 0]);
    }
}

// Sees that a set over 5 failed to allocate for an item of `SPREAD`, and has some before it.
fn assert_slice_stopped(rt: &impl Abort, set: &AtomicBitSet, error: BuildError) {
    let is_first = error == (BuildError::Memory { place: 4 });
    assert!(rt; is_first || error == (BuildError::Memory { place: 7 }));
    assert!(rt; set.contains(9) && set.contains(9_000_000) != is_first && !set.contains(11));
}

// How a set took `SPREAD`, and the item that is left then; of a slice it is not known.
fn extended_by(set: &mut AtomicBitSet, by: By) -> Drawn<()> {
    if by == By::Slice {
        return (set.extend_from_slice(&SPREAD), None);
    }
    drawn!(
        SPREAD,
        by == By::References,
        |left| set.extend_index_refs(&mut left),
        set.extend_indices(&mut left)
    )
}

// Sees that a set over 5 takes `SPREAD` too, or that an allocation failed; then it is extended again.
fn assert_extends(rt: &(impl Abort + Print + AllocGlobal), by: By) -> Result<(), AllocError> {
    let mut set = atomic_of(rt.alloc(), &[5])?;
    let (done, next) = tried!(rt, extended_by(&mut set, by), |it| it.0.is_err());
    if let Err(error) = done {
        if by == By::Slice {
            assert_slice_stopped(rt, &set, error);
        } else {
            assert_stopped(rt, &set, error, next);
        }
        assert!(rt; extended_by(&mut set, by).0.is_ok());
    }
    let members = [5, 6, 7, 8, 9, 10, 11, 5_000_000, 9_000_000, 13_000_000];
    assert_has(rt, &set, &members);
    Ok(())
}

// allocates: 2, 6_144 bytes: hibitset_atomic::AtomicBitSet::add_index, hibitset_atomic::AtomicBitSet::extend_indices,
//     hibitset_base::FallibleInsert::add_index, hibitset_base::extend_indices
#[test]
fn extend_indices(rt: HostRuntime) -> Result<(), AllocError> {
    assert_extends(&rt, By::Indices)
}

// allocates: 2, 6_144 bytes: hibitset_atomic::AtomicBitSet::extend_index_refs, hibitset_base::extend_index_refs
#[test]
fn extend_index_refs(rt: HostRuntime) -> Result<(), AllocError> {
    assert_extends(&rt, By::References)
}

// allocates: 2, 6_144 bytes: hibitset_atomic::AtomicBitSet::extend_from_slice, hibitset_base::extend_from_slice
#[test]
fn extend_from_slice(rt: HostRuntime) -> Result<(), AllocError> {
    assert_extends(&rt, By::Slice)
}

// Shares a set again that was refused it, after a look at the set.
fn shared_again(rt: &impl Abort, set: AtomicBitSet) -> (SharedBitSet, Seat)
    ensures { BelongsTo result.0 result.1 }
{
    assert_way(
        rt,
        &set,
        &[5, 70000],
        70000,
        [1, 1, 1 << 17 | 1, 1 << 5, 1 << 48],
    );
    let Ok(shared) = set.share() else {
        panic!(rt; "refused twice")
    };
    shared
}

// allocates: 3, 4_260_881 bytes: hibitset_atomic::AtomicBitSet::share
#[test]
fn share(rt: HostRuntime) -> Result<(), AllocError> {
    let set = atomic_of(rt.alloc(), &[5, 70000])?;
    let shared = tried!(&rt, set.share());
    let (shared, mut seat) = match shared {
        Ok(both) => both,
        Err(set) => shared_again(&rt, set),
    };
    assert!(rt; shared.contains(&mut seat, 70000) && !shared.contains(&mut seat, 6));
    assert!(rt; seat.is_whole());
    Ok(())
}

// A set over 70,000 that many may add to, and a seat that has added an index.
fn shared_with(
    rt: &impl Abort,
    alloc: Global,
    id: Index,
) -> Result<(SharedBitSet, Seat), AllocError>
    requires { id < ATOMIC_MAX_EID }
    ensures { IfOk result (λ r. BelongsTo r.0 r.1 × (weight_of r.1 ≡ SHARES)) }
{
    let (shared, mut seat) = shared_of(alloc, &[70000])?;
    assert!(rt; !shared.add_atomic(&mut seat, id));
    Ok((shared, seat))
}

fn in_three(shared: &SharedBitSet, seat: Seat, alloc: Global) -> Result<Vec<Seat>, Seat>
    requires { BelongsTo shared.now seat × (weight_of seat ≡ SHARES) }
    ensures { IfErr result (λ s. BelongsTo shared.now s × (weight_of s ≡ SHARES)) }
{
    shared.divide_among(alloc, seat, 3)
}

// Divides a seat again that was refused it, after a look at the seat.
fn in_three_again(rt: &impl Abort, shared: &SharedBitSet, seat: Seat, alloc: Global) -> Vec<Seat>
    requires { BelongsTo shared.now seat × (weight_of seat ≡ SHARES) }
{
    let mut seat = seat;
    assert!(rt; seat.is_whole() && shared.contains(&mut seat, 9));
    let Ok(seats) = in_three(shared, seat, alloc) else {
        panic!(rt; "refused twice")
    };
    seats
}

// allocates: 1, 12 bytes: hibitset_atomic::SharedBitSet::divide_among
#[test]
fn divide_among(rt: HostRuntime) -> Result<(), AllocError> {
    let (shared, seat) = shared_with(&rt, rt.alloc(), 9)?;
    let divided = tried!(&rt, in_three(&shared, seat, rt.alloc()));
    let seats = match divided {
        Ok(seats) => seats,
        Err(seat) => in_three_again(&rt, &shared, seat, rt.alloc()),
    };
    assert!(rt; seats.len() == 3);
    Ok(())
}

fn settled(shared: SharedBitSet, seat: Seat) -> Result<AtomicBitSet, (SharedBitSet, Seat)>
    requires { BelongsTo shared seat }
    ensures { IfErr result (λ r. BelongsTo r.0 r.1) }
{
    shared.settle(seat)
}

// Settles a set again that was refused it, after a look at the seat.
fn settled_again(rt: &impl Abort, shared: SharedBitSet, seat: Seat) -> AtomicBitSet
    requires { BelongsTo shared seat }
{
    let mut seat = seat;
    assert!(rt; seat.is_whole() && shared.contains(&mut seat, 16777215));
    let Ok(set) = settled(shared, seat) else {
        panic!(rt; "refused twice")
    };
    set
}

// allocates: 5, 2_139_648 bytes: hibitset_atomic::SharedBitSet::settle
#[test]
fn settle(rt: HostRuntime) -> Result<(), AllocError> {
    let (shared, seat) = shared_with(&rt, rt.alloc(), 16777215)?;
    let settled = tried!(&rt, settled(shared, seat));
    let set = match settled {
        Ok(set) => set,
        Err((shared, seat)) => settled_again(&rt, shared, seat),
    };
    let words = [1, 1 << 63 | 1, 1 << 63, 1 << 63, 1 << 63];
    assert_way(&rt, &set, &[70000, 16777215], 16777215, words);
    Ok(())
}
