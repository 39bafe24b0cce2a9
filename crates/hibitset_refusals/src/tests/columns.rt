//! Columns of values, and the lists of what walks over them give.
ghost use Rattle.std.specs.Prelude.{◌<◌};
ghost use Rattle.hibitset_base.specs.declared.util.TheConstants.{MAX_EID};

use crate::tests::{ask, has_values, say};
use hibitset::Index;
use hibitset_store::{Column, join};
use hibitset_testing::columns::column_of;
use std::alloc::{AllocError, AllocGlobal, Global};
use std::io::Print;
use std::process::Abort;

// Sees that a column of these rows takes a value for an index, and that it is as it was where an allocation failed, and
// the value came back.
fn assert_inserts(
    rt: &(impl Abort + Print + AllocGlobal),
    start: Result<Column<u32>, AllocError>,
    before: &[(Index, u32)],
    id: Index,
    after: &[(Index, u32)],
) -> Result<(), AllocError>
    requires { id < MAX_EID }
{
    let mut column = start?;
    let put = tried!(rt, column.insert(id, 9));
    if put.is_err() {
        assert!(rt; put == Err(9) && column.get(id).is_none());
        assert!(rt; has_values(&column, before) && column.insert(id, 9) == Ok(None));
    } else {
        assert!(rt; put == Ok(None));
    }
    assert!(rt; has_values(&column, after));
    Ok(())
}

// Each growth of `insert`: of the table of pages, of the places and of the mask.
// allocates: 3, 949_496 bytes: hibitset_store::Column::insert
#[test]
fn insert(rt: HostRuntime) -> Result<(), AllocError> {
    let before = [(5, 77), (70, 7)];
    let after = [(5, 77), (70, 7), (5_000_000, 9)];
    let start = column_of(rt.alloc(), &before);
    assert_inserts(&rt, start, &before, 5_000_000, &after)
}

// The third of eight pages finds the list of places full and enough of the table made, and all are laid out in order,
// for one request.
// allocates: 1, 4_096 bytes: hibitset_store::Column::insert
#[test]
fn insert_in_order(rt: HostRuntime) -> Result<(), AllocError> {
    let after = [(350, 9), (400, 7), (450, 77)];
    let start = column_of(rt.alloc(), &[(450, 77), (400, 7)]);
    assert_inserts(&rt, start, &[(400, 7), (450, 77)], 350, &after)
}

// Gives each index below 4,096 itself as its value, up to the one that is refused.
fn fill_row(column: &mut Column<u32>) -> Result<(), u32> {
    for id in 0..4_096u32 {
        column.insert(id, id)?;
    }
    Ok(())
}

// Returns whether a column has these indices alone, each with itself as its value.
fn is_row(column: &Column<u32>, count: Index) -> bool {
    let mut entries = column.iter();
    for id in 0..count {
        if entries.next() != Some((id, &id)) {
            return false;
        }
    }
    entries.next().is_none() && column.len() == count as usize
}

// 64 pages, one after the other: the capacity of the table, of the slots and of the mask doubles where it is used up.
// allocates: 17, 66_632 bytes: hibitset_store::Column::insert
#[test]
fn insert_a_row(rt: HostRuntime) {
    let mut column = Column::new(rt.alloc());
    let filled = tried!(&rt, fill_row(&mut column));
    if let Err(id) = filled {
        assert!(rt; is_row(&column, id));
        assert!(rt; fill_row(&mut column).is_ok());
    }
    assert!(rt; is_row(&column, 4_096));
}

// The list of a join, which std makes of its items.
fn pairs<'a>(
    alloc: Global,
    a: &'a Column<u32>,
    b: &'a Column<u32>,
) -> Result<Vec<(Index, &'a u32, &'a u32)>, AllocError> {
    join(a, b).collect(alloc)
}

// allocates: 1, 96 bytes, or goes on
#[test]
fn collect(rt: HostRuntime) -> Result<(), AllocError> {
    let a = column_of(rt.alloc(), &[(5, 77), (70, 7), (300_000, 1)])?;
    let b = column_of(rt.alloc(), &[(6, 78), (70, 8), (300_000, 2)])?;
    let _ = tried!(&rt, pairs(rt.alloc(), &a, &b));
    assert!(rt;
        pairs(rt.alloc(), &a, &b)?.as_slice() == [(70, &7, &8), (300_000, &1, &2)].as_slice()
    );
    assert!(rt; has_values(&a, &[(5, 77), (70, 7), (300_000, 1)]));
    Ok(())
}
