//! A store: commands on two columns of values by index.
ghost use Rattle.std.specs.Prelude.{◌≡◌, ◌<◌, [], length, map, IfOk, IsOk, OnErr};
ghost use Rattle.hibitset_store.specs.Columns.{value_of};
ghost use Rattle.hibitset_store.specs.Joins.{join_of};
ghost use Rattle.hibitset_run.specs.Store.{IsRun, IsStep, answer_of, columns_of, side_number};

mod text;

use hibitset::Index;
use hibitset::util::MAX_EID;
pub use hibitset_store::{Column, Join, JoinMasked, join, join_masked};
use std::alloc::{AllocError, Global};
pub(crate) use text::run_lines;

/// One of two columns, written `p` and `q`.
#[derive(Clone, Copy, Debug, PartialEq, Eq)]
pub enum Side {
    P,
    Q,
}

impl Side {
    // Which of the two it is, from 0 on.
    fn number(self) -> usize
        ensures { result ≡ side_number self }
    {
        self as usize
    }
}

/// What is asked of two columns.
#[derive(Clone, Copy, Debug, PartialEq, Eq)]
pub enum StoreCommand {
    /// Gives an index a value.
    Put { column: Side, id: Index, value: u32 },
    /// Asks for the value of an index.
    Get { column: Side, id: Index },
    /// Takes the value of an index out.
    Take { column: Side, id: Index },
    /// Asks for the indices that both columns have, with both values.
    Join { column: Side, other: Side },
}

/// What is answered to one command.
#[derive(Debug, PartialEq, Eq, Drop)]
pub enum StoreReply {
    /// The value that the index has, or had before it was put or taken.
    Value(Option<u32>),
    /// The indices that both columns have, ascending, with both values.
    Joined(Vec<(Index, u32, u32)>),
    /// The index is not below `MAX_EID`, and nothing has changed.
    OutOfRange,
    /// The command failed to allocate, and nothing has changed.
    NoMemory,
}

/// Runs commands on two columns, one after the other, and gives one reply a command, in order.
///
/// A command that fails to allocate replies `NoMemory` and changes no column, and the run goes on. Two can: `Put` of an
/// index that has no value, and `Join` of columns that have an index in common.
///
/// # Errors
///
/// The allocation of the replies fails, which is made first: nothing has changed. A run of no commands makes none.
pub fn run(
    alloc: Global,
    columns: &mut [Column<u32>; 2],
    commands: &[StoreCommand],
) -> Result<Vec<StoreReply>, AllocError>
    ensures run { IfOk result (λ replies.
        IsRun commands.now (columns_of columns.old) (map answer_of replies.items)
        (columns_of columns.new)) }
    ensures err { OnErr result (columns.new ≡ columns.old) }
    ensures succeeds_empty { commands.now ≡ [] → IsOk result }
{
    let mut replies = Vec::with_capacity(alloc, commands.len())?;
    for command in commands {
        let reply = step(alloc, columns, *command);
        replies.push(reply).unwrap();
    }
    Ok(replies)
}

// Runs one command.
fn step(alloc: Global, columns: &mut [Column<u32>; 2], command: StoreCommand) -> StoreReply
    ensures { IsStep command (columns_of columns.old) (answer_of result) (columns_of columns.new) }
{
    match command {
        StoreCommand::Put { column, id, value } => put(columns, column, id, value),
        StoreCommand::Get { column, id } => get(columns, column, id),
        StoreCommand::Take { column, id } => take(columns, column, id),
        StoreCommand::Join { column, other } => join_two(alloc, columns, column, other),
    }
}

// Gives an index a value.
fn put(columns: &mut [Column<u32>; 2], side: Side, id: Index, value: u32) -> StoreReply
    ensures { IsStep (StoreCommand.Put side id value) (columns_of columns.old) (answer_of result)
        (columns_of columns.new) }
{
    if id as usize >= MAX_EID {
        return StoreReply::OutOfRange;
    }
    match columns[side.number()].insert(id, value) {
        Ok(was) => StoreReply::Value(was),
        Err(_) => StoreReply::NoMemory,
    }
}

// Returns the value of an index.
fn get(columns: &[Column<u32>; 2], side: Side, id: Index) -> StoreReply
    ensures { IsStep (StoreCommand.Get side id) (columns_of columns.now) (answer_of result)
        (columns_of columns.now) }
{
    StoreReply::Value(columns[side.number()].get(id).copied())
}

// Takes the value of an index out.
fn take(columns: &mut [Column<u32>; 2], side: Side, id: Index) -> StoreReply
    ensures { IsStep (StoreCommand.Take side id) (columns_of columns.old) (answer_of result)
        (columns_of columns.new) }
{
    StoreReply::Value(columns[side.number()].remove(id))
}

// Lists the indices that two columns have, which may be the same one, with both values.
fn join_two(alloc: Global, columns: &[Column<u32>; 2], side: Side, other: Side) -> StoreReply
    ensures { IsStep (StoreCommand.Join side other) (columns_of columns.now) (answer_of result)
        (columns_of columns.now) }
{
    match list_of(alloc, &columns[side.number()], &columns[other.number()]) {
        Ok(list) => StoreReply::Joined(list),
        Err(AllocError) => StoreReply::NoMemory,
    }
}

// The indices that two columns have, ascending, with both values.
fn list_of(
    alloc: Global,
    first: &Column<u32>,
    second: &Column<u32>,
) -> Result<Vec<(Index, u32, u32)>, AllocError>
    ensures pairs { IfOk result (λ list. list.items
        ≡ join_of (value_of first.now) (value_of second.now)) }
    ensures err { OnErr result (0 < length
        (join_of (value_of first.now) (value_of second.now))) }
{
    let mut list = Vec::new(alloc);
    for (id, a, b) in join(first, second) {
        list.push((id, *a, *b))?;
    }
    Ok(list)
}

#[cfg(test)]
mod tests;
