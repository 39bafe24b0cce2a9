//! Calls made a second time, with seats of any weight, and over many indices:
//! none of them is refused, and all answer as the first ones do.
ghost use Rattle.std.specs.Prelude.{◌≡◌, ◌<◌, IfSome};
ghost use Rattle.hibitset_atomic.specs.Seats.{BelongsTo};
ghost use Rattle.hibitset_atomic.specs.declared.atomic.TheConstants.{ATOMIC_MAX_EID};

use crate::tests::{assert_members, assert_new, set_of, settled, shared};
use hibitset_atomic::atomic::ATOMIC_MAX_EID;
use hibitset_atomic::{AtomicBitSet, Event, Reply, Seat, SharedBitSet, World};
use hibitset_base::{BitSetLike, Index};
use std::alloc::AllocError;
use std::process::Abort;

// A set that was shared, to which one index was added, and that is held alone again. None if an allocation failed, or
// where the answer was not that the index is new.
fn shared_and_settled(set: AtomicBitSet, id: Index) -> Option<AtomicBitSet>
    requires { id < ATOMIC_MAX_EID }
{
    let (shared, mut seat) = set.share().ok()?;
    if shared.add_atomic(&mut seat, id) {
        return None;
    }
    shared.settle(seat).ok()
}

// Shares a set and settles it, and adds this index on the way and the one below it afterwards. Both are to be new.
fn added_and_settled(
    rt: &impl Abort,
    set: AtomicBitSet,
    id: Index,
) -> Result<AtomicBitSet, AllocError>
    requires { (0 < id) × (id < ATOMIC_MAX_EID) }
{
    let Some(mut set) = shared_and_settled(set, id) else {
        panic!(rt; "refused")
    };
    assert!(rt; set.contains(id) && !set.add(id - 1)?);
    Ok(set)
}

#[test]
fn shared_again(rt: HostRuntime) -> Result<(), AllocError> {
    let set = set_of(rt.alloc(), &[7, 70_000])?;
    let set = added_and_settled(&rt, set, 5)?;
    let set = added_and_settled(&rt, set, 16_777_215)?;
    assert_members(&rt, &set, &[4, 5, 7, 70_000, 16_777_214, 16_777_215])
}

// A seat of all shares but one, and the seat of that one.
fn all_but_one(set: &SharedBitSet, seat: Seat) -> Option<(Seat, Seat)>
    requires { BelongsTo set.now seat }
    ensures { IfSome result (λ seats. BelongsTo set.now seats.0 × BelongsTo set.now seats.1) }
{
    let (mut first, rest) = set.divide(seat);
    let mut rest = rest?;
    'halves: for _ in 0..15u32 {
        let (kept, given) = set.divide(first);
        first = kept;
        rest = set.join(rest, given?);
    }
    Some((rest, first))
}

#[test]
fn settled_with_all_shares_but_one(rt: HostRuntime) -> Result<(), AllocError> {
    let (set, mut seat) = shared(&rt, set_of(rt.alloc(), &[7])?);
    assert_new(&rt, &set, &mut seat, 70_000);
    let Some((mut most, mut one)) = all_but_one(&set, seat) else {
        panic!(rt; "one part")
    };
    assert!(rt; most.weight() == 65_535);
    assert!(rt; one.weight() == 1);
    assert_new(&rt, &set, &mut one, 9);
    assert_new(&rt, &set, &mut most, 16_777_215);
    assert_members(&rt, &settled(&rt, set, most), &[7, 9, 70_000, 16_777_215])
}

// A seat of three shares: one of two, and half of another of two.
fn three_shares(set: &SharedBitSet, seat: Seat) -> Option<Seat>
    requires { BelongsTo set.now seat }
    ensures { IfSome result (λ seat. BelongsTo set.now seat) }
{
    let mut first = seat;
    'halves: for _ in 0..14u32 {
        let (kept, _) = set.divide(first);
        first = kept;
    }
    let (two, other) = set.divide(first);
    let (one, _) = set.divide(other?);
    Some(set.join(two, one))
}

#[test]
fn settled_with_three_shares(rt: HostRuntime) -> Result<(), AllocError> {
    let (set, mut seat) = shared(&rt, set_of(rt.alloc(), &[7])?);
    assert_new(&rt, &set, &mut seat, 70_000);
    let Some(mut three) = three_shares(&set, seat) else {
        panic!(rt; "one part")
    };
    assert!(rt; three.weight() == 3);
    assert!(rt; set.contains(&mut three, 70_000));
    assert_new(&rt, &set, &mut three, 9);
    assert_members(&rt, &settled(&rt, set, three), &[7, 9, 70_000])
}

// How many calls a large world has.
const CALLS: u32 = 1_000;

// The index of a call, which lies in a block of its own: the last call has the last index.
fn index_of(call: u32) -> Index
    requires { call < 1000 }
    ensures { result < ATOMIC_MAX_EID }
{
    ATOMIC_MAX_EID as u32 - 1 - 16_777 * (999 - call)
}

// Returns whether an event is answered so.
fn replies(world: &mut World, event: Event, reply: Reply) -> bool {
    world.apply(event) == Ok(reply)
}

// As many reads as a walk over a large world has, and more.
fn read_to_the_end(world: &mut World, walk: u32) {
    for _ in 0..3 * CALLS + 3 {
        if world.apply(Event::Read { walk }).is_err() {
            break;
        }
    }
}

// A walk that is read to its end. Returns whether it has exactly the indices of the calls.
fn walks_over_all(world: &mut World, walk: u32) -> bool {
    if !replies(world, Event::Open { walk }, Reply::Opened) {
        return false;
    }
    read_to_the_end(world, walk);
    let Some(items) = world.items(walk) else {
        return false;
    };
    let mut call = 0u32;
    for item in items {
        if call >= CALLS || *item != index_of(call) {
            return false;
        }
        call += 1;
    }
    call == CALLS
}

// Begins all calls of a large world.
fn assert_all_begin(rt: &impl Abort, world: &mut World) {
    for call in 0..CALLS {
        let id = index_of(call);
        assert!(rt; replies(world, Event::Begin { call, id }, Reply::Begun));
    }
}

// Each call passes its next layer.
fn assert_all_step(rt: &impl Abort, world: &mut World, reply: Reply) {
    for call in 0..CALLS {
        assert!(rt; replies(world, Event::Step { call }, reply));
    }
}

// All calls pass a layer before one passes the next.
#[test]
fn a_world_of_many_calls(rt: HostRuntime) -> Result<(), AllocError> {
    let mut world = World::new(rt.alloc(), AtomicBitSet::new(rt.alloc())?);
    assert_all_begin(&rt, &mut world);
    assert_all_step(&rt, &mut world, Reply::First { there: false });
    assert_all_step(&rt, &mut world, Reply::Path { left: 2 });
    assert_all_step(&rt, &mut world, Reply::Path { left: 1 });
    assert_all_step(&rt, &mut world, Reply::Path { left: 0 });
    assert!(rt; world.stands(index_of(0)) && world.stands(index_of(999)));
    for walk in 0..3u32 {
        assert!(rt; walks_over_all(&mut world, walk));
    }
    if !world.is_at_rest() {
        panic!(rt; "a call has not ended")
    }
    let set = world.settle();
    assert!(rt; set.len() == 1_000 && set.contains(16_777_215));
    Ok(())
}
