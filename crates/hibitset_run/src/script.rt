//! Scripts: commands on eight sets, and the replies to them.
ghost use Rattle.std.specs.Prelude.{◌≡◌, ◌<◌, [], IfOk, IsOk, OnErr, length, map};
ghost use Rattle.hibitset.specs.BitSet.{has};
ghost use Rattle.hibitset_base.specs.Members.{members_below};
ghost use Rattle.hibitset_run.specs.Script.{IsRun, IsStep, answer_of, layers_number, sets_of, slot_number};

mod pairs;
mod parse;
mod print;
mod splits;
mod text;

use hibitset::util::MAX_EID;
use hibitset::{BitSet, BitSetLike, Index};
pub(crate) use parse::{cut, id_of};
pub(crate) use print::{Printed, print};
use std::alloc::{AllocError, Global};
pub use text::{Ended, run_text};

/// One of the eight sets, written `a` to `h`.
#[derive(Clone, Copy, Debug, PartialEq, Eq)]
pub enum Slot {
    A,
    B,
    C,
    D,
    E,
    F,
    G,
    H,
}

impl Slot {
    // Which of the eight it is, from 0 on.
    fn number(self) -> usize
        ensures { result ≡ slot_number self }
    {
        self as usize
    }
}

/// How many layers, from the top one on, a split looks at, written `1`, `2`, `3` or `4`.
#[derive(Clone, Copy, Debug, PartialEq, Eq)]
pub enum Layers {
    One = 1,
    Two = 2,
    Three = 3,
    Four = 4,
}

impl Layers {
    // The number itself.
    fn number(self) -> u8
        ensures { result ≡ layers_number self }
    {
        self as u8
    }
}

/// What a script asks of the eight sets.
#[derive(Clone, Copy, Debug, PartialEq, Eq)]
pub enum Command {
    /// Puts an index into a set.
    Add { set: Slot, id: Index },
    /// Takes an index out of a set.
    Remove { set: Slot, id: Index },
    /// Asks whether an index is in a set.
    Has { set: Slot, id: Index },
    /// Asks for the indices of a set.
    List { set: Slot },
    /// Asks how many indices a set has.
    Count { set: Slot },
    /// Takes out of a set what is not in the other.
    And { set: Slot, other: Slot },
    /// Puts into a set what is in the other.
    Or { set: Slot, other: Slot },
    /// Puts into a set what is in the other alone, and takes out what is in both.
    Xor { set: Slot, other: Slot },
    /// Takes all indices out of a set.
    Clear { set: Slot },
    /// Asks whether two sets have the same indices.
    Same { set: Slot, other: Slot },
    /// Asks whether each index of a set is in the other.
    Within { set: Slot, other: Slot },
    /// Asks how many parts a set has that split no further.
    Split { set: Slot, layers: Layers },
}

/// What is answered to one command.
#[derive(Debug, PartialEq, Eq, Drop)]
pub enum Reply {
    /// To `Add`: the index was there. To `Remove`: it was removed. To `Has`, `Same` and `Within`: it is so.
    Bool(bool),
    /// The indices of a set, ascending.
    List(Vec<Index>),
    /// To `Count`: how many indices the set has. To `Split`: how many parts.
    Count(usize),
    /// The set has changed as was asked.
    Done,
    /// The index is not below `MAX_EID`, and nothing has changed.
    OutOfRange,
    /// The command failed to allocate, and nothing has changed.
    NoMemory,
}

/// Runs commands on eight sets, one after the other, and gives one reply a command, in order.
///
/// A command that fails to allocate replies `NoMemory` and changes no set, and the run goes on. Four can: `Add` of an
/// index past the words of all members, `List` of a set with members, and `Or` and `Xor` with another set that has
/// members.
///
/// # Errors
///
/// The allocation of the replies fails, which is made first: nothing has changed. A run of no commands makes none.
pub fn run(
    alloc: Global,
    sets: &mut [BitSet; 8],
    commands: &[Command],
) -> Result<Vec<Reply>, AllocError>
    ensures run { IfOk result (λ replies.
        IsRun commands.now (sets_of sets.old) (map answer_of replies.items) (sets_of sets.new)) }
    ensures err { OnErr result (sets.new ≡ sets.old) }
    ensures succeeds_empty { commands.now ≡ [] → IsOk result }
{
    let mut replies = Vec::with_capacity(alloc, commands.len())?;
    for command in commands {
        let reply = step(alloc, sets, *command);
        replies.push(reply).unwrap();
    }
    Ok(replies)
}

// Runs one command.
fn step(alloc: Global, sets: &mut [BitSet; 8], command: Command) -> Reply
    ensures { IsStep command (sets_of sets.old) (answer_of result) (sets_of sets.new) }
{
    match command {
        Command::Add { set, id } => add(sets, set, id),
        Command::Remove { set, id } => remove(sets, set, id),
        Command::Has { set, id } => has(sets, set, id),
        Command::List { set } => list(alloc, sets, set),
        Command::Count { set } => count(sets, set),
        Command::And { set, other } => pairs::and(alloc, sets, set, other),
        Command::Or { set, other } => pairs::or(alloc, sets, set, other),
        Command::Xor { set, other } => pairs::xor(alloc, sets, set, other),
        Command::Clear { set } => clear(sets, set),
        Command::Same { set, other } => pairs::same(sets, set, other),
        Command::Within { set, other } => pairs::within(sets, set, other),
        Command::Split { set, layers } => splits::split(sets, set, layers),
    }
}

// Puts an index into a set.
fn add(sets: &mut [BitSet; 8], slot: Slot, id: Index) -> Reply
    ensures { IsStep (Command.Add slot id) (sets_of sets.old) (answer_of result)
        (sets_of sets.new) }
{
    if id as usize >= MAX_EID {
        return Reply::OutOfRange;
    }
    match sets[slot.number()].add(id) {
        Ok(was) => Reply::Bool(was),
        Err(AllocError) => Reply::NoMemory,
    }
}

// Takes an index out of a set.
fn remove(sets: &mut [BitSet; 8], slot: Slot, id: Index) -> Reply
    ensures { IsStep (Command.Remove slot id) (sets_of sets.old) (answer_of result)
        (sets_of sets.new) }
{
    Reply::Bool(sets[slot.number()].remove(id))
}

// Returns whether an index is in a set.
fn has(sets: &[BitSet; 8], slot: Slot, id: Index) -> Reply
    ensures { IsStep (Command.Has slot id) (sets_of sets.now) (answer_of result)
        (sets_of sets.now) }
{
    Reply::Bool(sets[slot.number()].contains(id))
}

// Lists the indices of a set.
fn list(alloc: Global, sets: &[BitSet; 8], slot: Slot) -> Reply
    ensures { IsStep (Command.List slot) (sets_of sets.now) (answer_of result) (sets_of sets.now) }
{
    match indices_of(alloc, &sets[slot.number()]) {
        Ok(indices) => Reply::List(indices),
        Err(AllocError) => Reply::NoMemory,
    }
}

// The indices of a set, ascending. `collect` would make a request that is refused once more.
fn indices_of(alloc: Global, set: &BitSet) -> Result<Vec<Index>, AllocError>
    ensures indices { IfOk result (λ indices. indices.items ≡ members_below MAX_EID (has set.now)) }
    ensures err { OnErr result (0 < length (members_below MAX_EID (has set.now))) }
{
    let mut indices = Vec::new(alloc);
    for index in set.iter() {
        indices.push(index)?;
    }
    Ok(indices)
}

// Tells how many indices a set has.
fn count(sets: &[BitSet; 8], slot: Slot) -> Reply
    ensures { IsStep (Command.Count slot) (sets_of sets.now) (answer_of result) (sets_of sets.now) }
{
    Reply::Count(count_of(&sets[slot.number()]))
}

// How many indices a set has.
fn count_of(set: &BitSet) -> usize
    ensures { result ≡ length (members_below MAX_EID (has set.now)) }
{
    set.len()
}

// Takes all indices out of a set.
fn clear(sets: &mut [BitSet; 8], slot: Slot) -> Reply
    ensures { IsStep (Command.Clear slot) (sets_of sets.old) (answer_of result) (sets_of sets.new) }
{
    sets[slot.number()].clear();
    Reply::Done
}

#[cfg(test)]
mod tests;
