//! Columns of values by index, and joins of two.
use crate::sets::{Sum, first_of, sum_of_answers, sum_of_turns};
use hibitset::Index;
use hibitset::util::MAX_EID;
use hibitset_store::{Column, join};
use std::alloc::{AllocError, Global};

// Gives each index that is in range its complement as a value, and adds up the values that were there.
#[inline]
fn insert_all(column: &mut Column<u32>, ids: &[Index]) -> Sum {
    let mut sum = 0u64;
    for id in ids {
        if (*id as usize) < MAX_EID {
            let Ok(was) = column.insert(*id, !*id) else {
                return Err(AllocError);
            };
            sum = sum.wrapping_add(u64::from(was.unwrap_or(0)));
        }
    }
    Ok(sum)
}

// The value of an index, or 0.
#[inline]
fn value_in(column: &Column<u32>, id: Index) -> u64 {
    u64::from(column.get(id).copied().unwrap_or(0))
}

// Takes the indices out, and adds up their values.
#[inline]
fn remove_all(column: &mut Column<u32>, ids: &[Index]) -> u64 {
    let mut sum = 0u64;
    for id in ids {
        sum = sum.wrapping_add(u64::from(column.remove(*id).unwrap_or(0)));
    }
    sum
}

// The sum of what two columns have in common: of the indices and of both values.
#[inline]
fn sum_of_join(a: &Column<u32>, b: &Column<u32>) -> u64 {
    let mut sum = 0u64;
    for (index, first, second) in join(a, b) {
        sum = sum.wrapping_add(u64::from(index));
        sum = sum.wrapping_add(u64::from(*first));
        sum = sum.wrapping_add(u64::from(*second));
    }
    sum
}

// The column of the indices that are in range.
fn column_of(alloc: Global, ids: &[Index]) -> Result<Column<u32>, AllocError> {
    let mut column = Column::new(alloc);
    insert_all(&mut column, ids)?;
    Ok(column)
}

pub(crate) fn insert(alloc: Global, ids: &[Index], times: usize) -> Sum {
    sum_of_turns(times, || {
        let mut column = Column::new(alloc);
        let sum = insert_all(&mut column, ids)?;
        Ok(sum.wrapping_add(value_in(&column, first_of(ids))))
    })
}

pub(crate) fn insert_again(alloc: Global, ids: &[Index], times: usize) -> Sum {
    let mut column = column_of(alloc, ids)?;
    sum_of_turns(times, || insert_all(&mut column, ids))
}

pub(crate) fn get(alloc: Global, ids: &[Index], asked: &[Index], times: usize) -> Sum {
    let column = column_of(alloc, ids)?;
    Ok(sum_of_answers(asked, times, |id| value_in(&column, id)))
}

// Takes all out and puts them in again, where their pages are.
pub(crate) fn remove_and_insert(alloc: Global, ids: &[Index], times: usize) -> Sum {
    let mut column = column_of(alloc, ids)?;
    sum_of_turns(times, || {
        let sum = remove_all(&mut column, ids);
        Ok(sum.wrapping_add(insert_all(&mut column, ids)?))
    })
}

pub(crate) fn join_of_two(alloc: Global, a: &[Index], b: &[Index], times: usize) -> Sum {
    let a = column_of(alloc, a)?;
    let b = column_of(alloc, b)?;
    sum_of_turns(times, || Ok(sum_of_join(&a, &b)))
}
