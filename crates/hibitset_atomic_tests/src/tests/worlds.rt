//! Worlds of calls and walks that take turns.
use crate::tests::{assert_indices, assert_members, assert_words};
use hibitset_atomic::laws::world_laws;
use hibitset_atomic::{ATOMIC_MAX_EID, AtomicBitSet, Event, Reply, StepError, World, path};
use hibitset_base::{BitSetLike, Index};
use std::alloc::{AllocError, AllocGlobal};
use std::process::Abort;

fn assert_bit(rt: &impl Abort, found: (usize, usize, usize), wanted: (usize, usize, usize)) {
    assert_eq!(rt; found, wanted);
}

#[test]
fn path_of_12345(rt: HostRuntime) {
    let bits = path(12345);
    assert_bit(&rt, bits[0], (0, 192, 1 << 57));
    assert_bit(&rt, bits[1], (1, 3, 1));
    assert_bit(&rt, bits[2], (2, 0, 8));
    assert_bit(&rt, bits[3], (3, 0, 1));
    world_laws();
}

// An event happens, and is answered so.
fn assert_reply(rt: &impl Abort, world: &mut World, event: Event, reply: Reply) {
    assert_eq!(rt; world.apply(event), Ok(reply));
}

fn assert_begins(rt: &impl Abort, world: &mut World, call: u32, id: Index) {
    assert_reply(rt, world, Event::Begin { call, id }, Reply::Begun);
}

// A call takes its first step, and returns whether the index was there.
fn assert_first(rt: &impl Abort, world: &mut World, call: u32, there: bool) {
    assert_reply(rt, world, Event::Step { call }, Reply::First { there });
}

// A call that has taken its first step takes the other three.
fn assert_path(rt: &impl Abort, world: &mut World, call: u32) {
    for left in [2, 1, 0] {
        assert_reply(rt, world, Event::Step { call }, Reply::Path { left });
    }
}

fn assert_opens(rt: &impl Abort, world: &mut World, walk: u32) {
    assert_reply(rt, world, Event::Open { walk }, Reply::Opened);
}

// A walk reads these words, and tells after each whether it has ended.
fn assert_reads(rt: &impl Abort, world: &mut World, walk: u32, words: &[(usize, bool)]) {
    for read in words {
        let (word, ended) = *read;
        assert_reply(rt, world, Event::Read { walk }, Reply::Word { word, ended });
    }
}

// Sees that a walk has these items so far.
fn assert_items(rt: &impl Abort, world: &World, walk: u32, items: &[Index]) {
    let Some(found) = world.items(walk) else {
        panic!(rt; "no walk")
    };
    assert_indices(rt, found, items);
}

// The set of a world in which each call has passed all layers.
fn settled(rt: &impl Abort, world: World) -> AtomicBitSet {
    if !world.is_at_rest() {
        panic!(rt; "a call has not passed all layers")
    }
    world.settle()
}

#[test]
fn a_small_world(rt: HostRuntime) -> Result<(), AllocError> {
    let mut world = World::new(rt.alloc(), AtomicBitSet::new(rt.alloc())?);
    assert_begins(&rt, &mut world, 1, 5);
    assert_begins(&rt, &mut world, 2, 5);
    assert_first(&rt, &mut world, 1, false);
    assert_first(&rt, &mut world, 2, true);
    assert_opens(&rt, &mut world, 1);
    assert_reads(&rt, &mut world, 1, &[(0, true)]);
    assert_items(&rt, &world, 1, &[]);
    assert_path(&rt, &mut world, 2);
    assert_opens(&rt, &mut world, 2);
    assert_reads(
        &rt,
        &mut world,
        2,
        &[(1, false), (1, false), (1, false), (32, true)],
    );
    assert_items(&rt, &world, 2, &[5]);
    assert!(rt; !world.is_at_rest());
    assert_path(&rt, &mut world, 1);
    let set = settled(&rt, world);
    let words = [set.layer4(), set.layer3(0), set.layer2(0), set.layer1(0)];
    assert_words(&rt, &words, &[1, 1, 1, 1]);
    assert_members(&rt, &set, &[5])
}

// A world of 0 in which walk 1 has read all, while call 1 added 63.
fn world_of_0_and_63(rt: &(impl Abort + AllocGlobal)) -> Result<World, AllocError> {
    let mut old = AtomicBitSet::new(rt.alloc())?;
    old.add(0)?;
    let mut world = World::new(rt.alloc(), old);
    assert_opens(rt, &mut world, 1);
    assert_reads(rt, &mut world, 1, &[(1, false)]);
    assert_begins(rt, &mut world, 1, 63);
    assert_first(rt, &mut world, 1, false);
    let words = [(1, false), (1, false), (9_223_372_036_854_775_809, true)];
    assert_reads(rt, &mut world, 1, &words);
    assert_items(rt, &world, 1, &[0, 63]);
    assert!(rt; !world.is_at_rest());
    assert_path(rt, &mut world, 1);
    assert!(rt; world.is_at_rest());
    Ok(world)
}

// An event does not happen.
fn assert_refused(rt: &impl Abort, world: &mut World, event: Event, error: StepError) {
    assert_eq!(rt; world.apply(event), Err(error));
}

// Sees that no event of such a world happens that names the call and the walk that have ended, an index that is out of
// range, or a number that is not known.
fn assert_refusals(rt: &impl Abort, world: &mut World) {
    let id = ATOMIC_MAX_EID as Index;
    assert_refused(rt, world, Event::Step { call: 1 }, StepError::Ended);
    assert_refused(rt, world, Event::Begin { call: 1, id }, StepError::Used);
    assert_refused(rt, world, Event::Begin { call: 2, id }, StepError::Range);
    assert_refused(rt, world, Event::Step { call: 9 }, StepError::Unknown);
    assert_refused(rt, world, Event::Read { walk: 1 }, StepError::Ended);
    assert_refused(rt, world, Event::Open { walk: 1 }, StepError::Used);
    assert_refused(rt, world, Event::Read { walk: 7 }, StepError::Unknown);
    assert!(rt; world.items(7).is_none());
}

#[test]
fn a_refused_world_goes_on(rt: HostRuntime) -> Result<(), AllocError> {
    let mut world = world_of_0_and_63(&rt)?;
    assert_refusals(&rt, &mut world);
    assert_members(&rt, &settled(&rt, world), &[0, 63])
}

#[test]
fn a_path_that_stands(rt: HostRuntime) -> Result<(), AllocError> {
    let mut world = World::new(rt.alloc(), AtomicBitSet::new(rt.alloc())?);
    assert_begins(&rt, &mut world, 1, 5);
    assert_first(&rt, &mut world, 1, false);
    assert!(rt; !world.stands(5));
    assert_begins(&rt, &mut world, 2, 6);
    assert_first(&rt, &mut world, 2, false);
    assert_path(&rt, &mut world, 2);
    assert!(rt; world.stands(6) && world.stands(5));
    assert_opens(&rt, &mut world, 1);
    assert_reads(
        &rt,
        &mut world,
        1,
        &[(1, false), (1, false), (1, false), (96, true)],
    );
    assert_items(&rt, &world, 1, &[5, 6]);
    Ok(())
}
