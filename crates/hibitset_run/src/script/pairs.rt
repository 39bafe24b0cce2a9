//! The commands on two sets, which may be the same.
ghost use Rattle.std.specs.Prelude.{◌≡◌};
ghost use Rattle.hibitset_run.specs.Script.{IsStep, answer_of, sets_of};

use super::{Command, Reply, Slot};
use hibitset::{BitSet, BitSetLike};
use std::alloc::{AllocError, Global};
use std::mem;

// Takes out of a set what is not in the other.
pub(super) fn and(alloc: Global, sets: &mut [BitSet; 8], slot: Slot, other: Slot) -> Reply
    ensures { IsStep (Command.And slot other) (sets_of sets.old) (answer_of result)
        (sets_of sets.new) }
{
    let place = slot.number();
    let other_place = other.number();
    if place == other_place {
        return Reply::Done;
    }
    let mut set = mem::replace(&mut sets[place], BitSet::new(alloc));
    set &= &sets[other_place];
    sets[place] = set;
    Reply::Done
}

// Puts into a set what is in the other.
pub(super) fn or(alloc: Global, sets: &mut [BitSet; 8], slot: Slot, other: Slot) -> Reply
    ensures { IsStep (Command.Or slot other) (sets_of sets.old) (answer_of result)
        (sets_of sets.new) }
{
    let place = slot.number();
    let other_place = other.number();
    if place == other_place {
        return Reply::Done;
    }
    if sets[other_place].is_empty() {
        return Reply::Done;
    }
    let mut set = mem::replace(&mut sets[place], BitSet::new(alloc));
    let joined = set.bitor_assign(&sets[other_place]);
    sets[place] = set;
    match joined {
        Ok(()) => Reply::Done,
        Err(AllocError) => Reply::NoMemory,
    }
}

// Puts into a set what is in the other alone, and takes out what is in both.
pub(super) fn xor(alloc: Global, sets: &mut [BitSet; 8], slot: Slot, other: Slot) -> Reply
    ensures { IsStep (Command.Xor slot other) (sets_of sets.old) (answer_of result)
        (sets_of sets.new) }
{
    let place = slot.number();
    let other_place = other.number();
    if place == other_place {
        sets[place].clear();
        return Reply::Done;
    }
    if sets[other_place].is_empty() {
        return Reply::Done;
    }
    let mut set = mem::replace(&mut sets[place], BitSet::new(alloc));
    let joined = set.bitxor_assign(&sets[other_place]);
    sets[place] = set;
    match joined {
        Ok(()) => Reply::Done,
        Err(AllocError) => Reply::NoMemory,
    }
}

// Returns whether two sets have the same indices.
pub(super) fn same(sets: &[BitSet; 8], slot: Slot, other: Slot) -> Reply
    ensures { IsStep (Command.Same slot other) (sets_of sets.now) (answer_of result)
        (sets_of sets.now) }
{
    Reply::Bool(sets[slot.number()] == sets[other.number()])
}

// Returns whether each index of a set is in the other.
pub(super) fn within(sets: &[BitSet; 8], slot: Slot, other: Slot) -> Reply
    ensures { IsStep (Command.Within slot other) (sets_of sets.now) (answer_of result)
        (sets_of sets.now) }
{
    Reply::Bool(sets[other.number()].contains_set(&sets[slot.number()]))
}
