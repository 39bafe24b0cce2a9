//! Worlds of calls and walks that take turns.
use crate::tests::{ask, atomic_of, has_exactly, say};
use hibitset::steps::{Event, Reply, StepError, World};
use std::alloc::{AllocError, AllocGlobal, Global};
use std::io::Print;
use std::process::Abort;

// What a world answers to an event. It makes no other request than the event.
fn applied(world: &mut World, event: Event) -> Result<Reply, StepError> {
    world.apply(event)
}

// A world over {7} in which these events have happened.
fn world_after(alloc: Global, events: &[Event]) -> Result<World, AllocError> {
    let mut world = World::new(alloc, atomic_of(alloc, &[7])?);
    for event in events {
        if applied(&mut world, *event).is_err() {
            return Err(AllocError);
        }
    }
    Ok(world)
}

// Returns whether a world has this walk's items and is at rest, or not.
fn is_as(world: &World, items: Option<&[u32]>, rests: bool) -> bool {
    world.items(1) == items && world.is_at_rest() == rests
}

// allocates: 2, 232 bytes: hibitset_atomic::World::apply
#[test]
fn begin(rt: HostRuntime) -> Result<(), AllocError> {
    let mut world = world_after(rt.alloc(), &[])?;
    let event = Event::Begin { call: 1, id: 5000 };
    let begun = tried!(&rt, applied(&mut world, event));
    if let Err(error) = begun {
        assert!(rt; error == StepError::Memory && is_as(&world, None, true));
        assert!(rt; applied(&mut world, Event::Step { call: 1 }) == Err(StepError::Unknown));
        assert!(rt; applied(&mut world, event) == Ok(Reply::Begun));
    }
    assert!(rt; is_as(&world, None, false));
    Ok(())
}

// A world in which these events have happened, and then another one, which it answers so: the second time where it is
// refused at first, and the world is as it was.
fn world_after_event(
    rt: &(impl Abort + Print + AllocGlobal),
    before: &[Event],
    event: Event,
    reply: Reply,
    was: (Option<&[u32]>, bool),
) -> Result<World, AllocError> {
    let mut world = world_after(rt.alloc(), before)?;
    let mut applied_to = tried!(rt, applied(&mut world, event));
    if applied_to.is_err() {
        assert!(rt; applied_to == Err(StepError::Memory) && is_as(&world, was.0, was.1));
        applied_to = applied(&mut world, event);
    }
    assert!(rt; applied_to == Ok(reply));
    Ok(world)
}

// A call over 5000 takes its last three steps.
fn assert_path(rt: &impl Abort, world: &mut World, event: Event) {
    for left in [2, 1, 0] {
        assert!(rt; applied(world, event) == Ok(Reply::Path { left }));
    }
    assert!(rt; is_as(world, None, true) && world.stands(5000));
}

// allocates: 1, 2_048 bytes: hibitset_atomic::World::apply
#[test]
fn step(rt: HostRuntime) -> Result<(), AllocError> {
    let event = Event::Step { call: 1 };
    let begin = [Event::Begin { call: 1, id: 5000 }];
    let first = Reply::First { there: false };
    let mut world = world_after_event(&rt, &begin, event, first, (None, false))?;
    assert_path(&rt, &mut world, event);
    Ok(())
}

// allocates: 2, 1_312 bytes: hibitset_atomic::World::apply
#[test]
fn open(rt: HostRuntime) -> Result<(), AllocError> {
    let event = Event::Open { walk: 1 };
    let world = world_after_event(&rt, &[], event, Reply::Opened, (None, true))?;
    assert!(rt; is_as(&world, Some(&[]), true));
    Ok(())
}

// The fourth read has an item.
// allocates: 1, 96 bytes: hibitset_atomic::World::apply
#[test]
fn read(rt: HostRuntime) -> Result<(), AllocError> {
    let event = Event::Read { walk: 1 };
    let before = [Event::Open { walk: 1 }, event, event, event];
    let word = Reply::Word {
        word: 128,
        ended: true,
    };
    let world = world_after_event(&rt, &before, event, word, (Some(&[]), true))?;
    assert!(rt; is_as(&world, Some(&[7]), true));
    Ok(())
}

// An event happens, and is answered so: the second time where it was refused at first, which is told.
fn happens_again(rt: &impl Abort, world: &mut World, event: Event, reply: Reply) -> bool {
    let rests = world.is_at_rest();
    let first = applied(world, event);
    let refused = first == Err(StepError::Memory);
    if refused {
        assert!(rt; world.is_at_rest() == rests && applied(world, event) == Ok(reply));
    } else {
        assert!(rt; first == Ok(reply));
    }
    refused
}

// A whole run, in which an event that is refused is made again.
// allocates: 6, 3_896 bytes: hibitset_atomic::World::apply
#[test]
fn run(rt: HostRuntime) -> Result<(), AllocError> {
    let mut world = world_after(rt.alloc(), &[])?;
    let word = Reply::Word {
        word: 1,
        ended: false,
    };
    let events = [
        (Event::Begin { call: 1, id: 5000 }, Reply::Begun),
        (Event::Open { walk: 1 }, Reply::Opened),
        (Event::Step { call: 1 }, Reply::First { there: false }),
        (Event::Read { walk: 1 }, word),
        (Event::Step { call: 1 }, Reply::Path { left: 2 }),
        (Event::Step { call: 1 }, Reply::Path { left: 1 }),
        (Event::Step { call: 1 }, Reply::Path { left: 0 }),
    ];
    let mut refused = false;
    ask(&rt);
    for (event, reply) in events {
        refused = happens_again(&rt, &mut world, event, reply) || refused;
    }
    say(&rt, refused);
    ask(&rt);
    assert!(rt; is_as(&world, Some(&[]), true));
    if world.is_at_rest() {
        assert!(rt; has_exactly(&world.settle(), &[7, 5000]));
    }
    Ok(())
}
