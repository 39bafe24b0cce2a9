//! Calls whose time does not grow with the column: each is made so often that the test is cut short if it does.
use hibitset::Index;
use hibitset_store::Column;
use hibitset_testing::columns::column_of;
use std::alloc::{AllocError, Global};
use std::test::Fail;

// How many keys there are.
const KEYS: Index = 40_000;

// How far they lie apart: the words of their mask lie apart too.
const GAP: Index = 4_096;

// How often a key is put in and taken out.
const STEPS: Index = 500_000;

// The column of these keys, each with the same value.
fn many_keys<V: Copy + Drop>(alloc: Global, value: V) -> Result<Column<V>, AllocError> {
    let mut column = Column::new(alloc);
    for key in 0..KEYS {
        if column.insert(GAP * key, value).is_err() {
            return Err(AllocError);
        }
    }
    Ok(column)
}

// Takes keys out and puts them in again, one after the other, and returns whether `len` counts them at each step.
fn is_counted(column: &mut Column<()>) -> bool {
    let keys = KEYS as usize;
    for step in 0..STEPS {
        let key = GAP * (step % KEYS);
        if column.remove(key) != Some(()) || column.len() != keys - 1 {
            return false;
        }
        if column.insert(key, ()) != Ok(None) || column.len() != keys {
            return false;
        }
    }
    true
}

#[test]
fn len_of_many_keys(rt: HostRuntime) -> Result<(), Fail> {
    let mut column = many_keys(rt.alloc(), ())?;
    assert!(rt; is_counted(&mut column));
    Ok(())
}

// Puts a low key in and takes it out again, many times, and returns whether the column is never empty.
fn is_never_empty(column: &mut Column<Index>) -> bool {
    for step in 0..STEPS {
        if column.insert(5, step) != Ok(None) || column.remove(5) != Some(step) {
            return false;
        }
        if column.is_empty() {
            return false;
        }
    }
    true
}

#[test]
fn is_empty_below_a_far_key(rt: HostRuntime) -> Result<(), Fail> {
    let mut column = column_of(rt.alloc(), &[(67_108_863, 7)])?;
    assert!(rt; is_never_empty(&mut column));
    Ok(())
}

#[test]
fn is_empty_of_many_keys(rt: HostRuntime) -> Result<(), Fail> {
    let mut column = many_keys(rt.alloc(), 7)?;
    assert!(rt; is_never_empty(&mut column));
    Ok(())
}
