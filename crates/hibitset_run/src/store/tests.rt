//! Lines of the component store: what each is read as, and the answers to a script.
mod program;

use super::*;
use crate::tests::{ask, say};
use std::array;
use std::test::Fail;

#[test]
fn runs_commands_on_the_columns_that_are_there(rt: HostRuntime) -> Result<(), Fail> {
    let alloc = rt.alloc();
    let mut columns = array::from_fn(|_| Column::new(alloc));
    let column = Side::Q;
    let commands = [
        StoreCommand::Put {
            column,
            id: 70,
            value: 7,
        },
        StoreCommand::Put {
            column: Side::P,
            id: 70,
            value: 8,
        },
        StoreCommand::Put {
            column,
            id: 1 << 30,
            value: 9,
        },
    ];
    let replies = run(alloc, &mut columns, &commands)?;
    let wanted = [
        StoreReply::Value(None),
        StoreReply::Value(None),
        StoreReply::OutOfRange,
    ];
    assert_eq!(rt; replies.as_slice(), wanted.as_slice());
    let commands = [
        StoreCommand::Join {
            column,
            other: Side::P,
        },
        StoreCommand::Take { column, id: 70 },
        StoreCommand::Get { column, id: 70 },
        StoreCommand::Get {
            column: Side::P,
            id: 70,
        },
        StoreCommand::Join {
            column,
            other: Side::P,
        },
        StoreCommand::Take {
            column,
            id: 4_294_967_295,
        },
    ];
    let replies = run(alloc, &mut columns, &commands)?;
    let wanted = [
        StoreReply::Joined(vec![in alloc; (70, 7, 8)]?),
        StoreReply::Value(Some(7)),
        StoreReply::Value(None),
        StoreReply::Value(Some(8)),
        StoreReply::Joined(Vec::new(alloc)),
        StoreReply::Value(None),
    ];
    assert_eq!(rt; replies.as_slice(), wanted.as_slice());
    Ok(())
}

// The key of both columns in such a run.
const KEY: Index = 700;

// A run with one command that takes memory of each kind.
fn commands() -> [StoreCommand; 5] {
    let column = Side::P;
    let other = Side::Q;
    let id = KEY;
    [
        StoreCommand::Put {
            column,
            id,
            value: 1,
        },
        StoreCommand::Put {
            column: other,
            id,
            value: 2,
        },
        StoreCommand::Join { column, other },
        StoreCommand::Get { column, id },
        StoreCommand::Take { column: other, id },
    ]
}

// Each of the three commands that take memory may have been refused, and the others answer as those went.
fn is_run(replies: &[StoreReply]) -> bool {
    let [first, second, third, fourth, fifth] = replies else {
        return false;
    };
    let p = *first != StoreReply::NoMemory;
    let q = *second != StoreReply::NoMemory;
    let joined = match third {
        StoreReply::Joined(list) if p && q => list.as_slice() == [(KEY, 1, 2)].as_slice(),
        StoreReply::Joined(list) => list.is_empty(),
        StoreReply::NoMemory => p && q,
        _ => false,
    };
    (!p || *first == StoreReply::Value(None))
        && (!q || *second == StoreReply::Value(None))
        && joined
        && *fourth == StoreReply::Value(if p { Some(1) } else { None })
        && *fifth == StoreReply::Value(if q { Some(2) } else { None })
}

// The run is made between two requests of the test's own; `allocation_failures.py` refuses the requests one after the
// other. Where the room for the replies is refused no column has changed, and where a command is refused the run goes
// on. Then the run is made again.
#[test]
fn refused_and_again(rt: HostRuntime) -> Result<(), Fail> {
    let alloc = rt.alloc();
    let mut columns = array::from_fn(|_| Column::new(alloc));
    ask(&rt)?;
    let replies = run(alloc, &mut columns, &commands());
    let refused = match &replies {
        Ok(replies) => replies.contains(&StoreReply::NoMemory),
        Err(AllocError) => true,
    };
    say(&rt, refused)?;
    ask(&rt)?;
    match &replies {
        Ok(replies) => assert!(rt; is_run(replies.as_slice())),
        Err(AllocError) => assert!(rt; columns.iter().all(|column| column.is_empty())),
    }
    columns[0].remove(KEY);
    let again = run(alloc, &mut columns, &commands())?;
    assert!(rt; is_run(again.as_slice()) && !again.contains(&StoreReply::NoMemory));
    Ok(())
}
