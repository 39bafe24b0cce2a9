//! Additions and walks that take turns, one word at a time.
ghost use Rattle.std.specs.Prelude.{◌≡◌, ℕ, ◌+◌, ◌*◌, ◌/◌, ◌%◌, ◌<◌, ◌≤◌, ◌==◌, ◌||◌, ◌↔◌, ◌⊎◌, true, false, length, IfOk, OnOk, IsTrue, Contains};
ghost use Rattle.std.specs.Int.{bit_at};
ghost use Rattle.std.specs.List.Sorted.{IsStrictlyIncreasing};
ghost use Rattle.hibitset_atomic.specs.AtomicBitSet.{has};
ghost use Rattle.hibitset_atomic.specs.Worlds.{old_of, IsResting};
ghost use Rattle.hibitset_atomic.specs.WorldLaws.{reports_in};
ghost use Rattle.uses_tests.specs.Turns.{is_in, is_done, given, reads_of, HasLeafAhead, HasIn};

use hibitset::laws::world_laws;
use hibitset::steps::{Event, Reply, StepError, World};
use hibitset::{ATOMIC_MAX_EID, AtomicBitSet, Index};
use std::alloc::Global;

/// Adds an index by a call of its own, which passes all its layers, and returns whether the index was there. A world at
/// rest is so again.
pub fn add(world: &mut World, call: u32, id: Index) -> Result<bool, StepError>
    ensures there { IfOk result (λ there. there ≡ is_in world.old id) }
    ensures added { OnOk result ((i : ℕ) → is_in world.new i ≡ (is_in world.old i || i == id)) }
    ensures done { OnOk result (is_done world.new id ≡ true) }
    ensures rest { OnOk result (IsResting world.old → IsResting world.new) }
    ensures old { old_of world.new ≡ old_of world.old }
{
    world.apply(Event::Begin { call, id })?;
    let Reply::First { there } = world.apply(Event::Step { call })? else {
        unreachable!();
    };
    let mut left = 3;
    'layers: while left > 0 {
        let Reply::Path { left: now } = world.apply(Event::Step { call })? else {
            unreachable!();
        };
        left = now;
    }
    Ok(there)
}

/// Adds all indices of a list to a set, each by a call of its own, and takes the set out of the world, which is at rest
/// by then.
pub fn add_all(alloc: Global, set: AtomicBitSet, ids: &[Index]) -> Result<AtomicBitSet, StepError>
    ensures { IfOk result (λ all. (i : ℕ)
        → (has all i ≡ true) ↔ ((has set i ≡ true) ⊎ Contains ids.now i)) }
{
    let mut world = World::new(alloc, set);
    let mut call = 0u32;
    for id in ids {
        add(&mut world, call, *id)?;
        call = call.wrapping_add(1);
    }
    Ok(world.settle())
}

/// Opens a walk over a world at rest and reads its first word: its bits tell in which ranges of 262,144 indices the set
/// has one.
pub fn ranges(world: &mut World, walk: u32) -> Result<usize, StepError>
    requires { IsResting world.old }
    ensures { IfOk result (λ word. (range : ℕ) → range < 64
        → (bit_at word range ≡ 1) ↔ HasIn world.old range) }
{
    world_laws();
    world.apply(Event::Open { walk })?;
    let Reply::Word { word, .. } = world.apply(Event::Read { walk })? else {
        unreachable!();
    };
    Ok(word)
}

/// Reads the next word of a walk. After the first none is 0, and the word has the bit of each index that the walk gives
/// by it.
pub fn read_next(world: &mut World, walk: u32) -> Result<usize, StepError>
    ensures nonempty { IfOk result (λ word. 0 < reads_of world.old walk → 0 < word) }
    ensures holds { IfOk result (λ word. (i : ℕ) → Contains (given world.new walk) i
        → Contains (given world.old walk) i ⊎ (bit_at word (i % 64) ≡ 1)) }
{
    world_laws();
    let Reply::Word { word, .. } = world.apply(Event::Read { walk })? else {
        unreachable!();
    };
    Ok(word)
}

/// Reads the next word of a walk that knows of a word of layer 0: that is read next, and gives an index at least.
pub fn read_leaf(world: &mut World, walk: u32) -> Result<(), StepError>
    requires leaf { HasLeafAhead world.old walk }
    requires read { 0 < reads_of world.old walk }
    ensures { OnOk result (length (given world.old walk) < length (given world.new walk)) }
{
    world_laws();
    world.apply(Event::Read { walk })?;
    Ok(())
}

/// Opens a walk and reads it to its end. It gives indices of the set, ascending, among them each that was there at
/// first, and each whose call had ended. It reads at most three words for each, and one.
pub fn read_all(world: &mut World, walk: u32) -> Result<(), StepError>
    ensures ascending { OnOk result (IsStrictlyIncreasing (given world.new walk)) }
    ensures there { OnOk result ((i : ℕ) → Contains (given world.new walk) i
        → is_in world.new i ≡ true) }
    ensures all { OnOk result ((i : ℕ) → is_done world.old i ≡ true
        → Contains (given world.new walk) i) }
    ensures reads_max { OnOk result (reads_of world.new walk ≤ 3 * length (given world.new walk) + 1) }
{
    world_laws();
    world.apply(Event::Open { walk })?;
    let mut done = false;
    'words: while !done {
        let Reply::Word { ended, .. } = world.apply(Event::Read { walk })? else {
            unreachable!();
        };
        done = ended;
    }
    Ok(())
}

/// Returns whether an index is in the set of a world at rest.
pub fn contains(world: &World, id: Index) -> bool
    requires { IsResting world.now }
    ensures { result ≡ is_in world.now id }
{
    world_laws();
    (id as usize) < ATOMIC_MAX_EID && world.stands(id)
}

/// How often an index was reported new by a world at rest, of which the old set was kept.
pub fn times_reported(world: &World, old: &AtomicBitSet, id: Index) -> usize
    requires rest { IsResting world.now }
    requires old { (i : ℕ) → has old.now i ≡ old_of world.now i }
    ensures { result ≡ reports_in world.now id }
{
    world_laws();
    usize::from(contains(world, id) && !old.contains(id))
}

/// Returns whether an index was in the old set, of which it is known how often it was reported new.
pub fn was_old(world: &World, id: Index, reports: usize) -> bool
    requires rest { IsResting world.now }
    requires reports { reports ≡ reports_in world.now id }
    ensures { result ≡ old_of world.now id }
{
    world_laws();
    contains(world, id) && reports == 0
}
