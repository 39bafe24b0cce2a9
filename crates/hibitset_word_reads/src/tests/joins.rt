//! What walks over two columns read of a set beside them, and that those over columns with many words are made, and go a
//! step, at once.
use crate::tests::assert_count;
use crate::tests::words::Logging;
use hibitset::{Index, MAX_EID};
use hibitset_store::{Column, Join, JoinMasked, join, join_masked};
use hibitset_testing::columns::column_of;
use std::alloc::{AllocError, AllocGlobal, Global};
use std::process::Abort;

// Sees that a walk over {3, 70} and a set over {3, 71}, just made, gives 3 alone, and reads these words of the set: the
// top when it is made, and the others as it goes, each once.
fn assert_gives_3<'a>(
    rt: &(impl Abort + AllocGlobal),
    walk: JoinMasked<'a, u32, u32, &'a Logging>,
    set: &Logging,
) -> Result<(), AllocError> {
    let mut walk = walk;
    set.assert_read(rt, &[(4, 0)])?;
    assert!(rt; walk.next() == Some((3, &30, &31)));
    set.assert_read(rt, &[(3, 0), (2, 0), (1, 0), (0, 0)])?;
    assert!(rt; walk.next().is_none());
    set.assert_read(rt, &[(0, 1)])
}

#[test]
fn a_set_beside_two_columns(rt: HostRuntime) -> Result<(), AllocError> {
    let a = column_of(rt.alloc(), &[(3, 30), (70, 700), (4_096, 1)])?;
    let b = column_of(rt.alloc(), &[(3, 31), (70, 701), (300_000, 1)])?;
    let set = Logging::over(rt.alloc(), &[3, 71, 4_096, 300_000])?;
    assert_gives_3(&rt, join_masked(&a, &b, &set), &set)?;
    assert_gives_3(&rt, a.join_masked(&b, &set), &set)
}

// A set without members beside the same columns.
#[test]
fn an_empty_set_beside_two_columns(rt: HostRuntime) -> Result<(), AllocError> {
    let a = column_of(rt.alloc(), &[(3, 30), (70, 700)])?;
    let b = column_of(rt.alloc(), &[(3, 31), (70, 701)])?;
    let none = Logging::over(rt.alloc(), &[])?;
    let mut walk = join_masked(&a, &b, &none);
    none.assert_read(&rt, &[(4, 0)])?;
    assert!(rt; walk.next().is_none());
    none.assert_read(&rt, &[])
}

// How many words of layer 0 the columns below have: to go over them takes a hundred thousand times as long as to make a
// walk.
const WORDS: Index = 262_144;

// How many walks are made over them. If each went over all words, the test would be cut short.
const WALKS: usize = 200_000;

// How many of these are kept at a time.
const KEPT: usize = 1_000;

// The column that has one index in each of the first `WORDS` words of layer 0, the first of all or another.
fn in_many_words(alloc: Global, first: Index) -> Result<Column<u8>, AllocError> {
    let mut column = Column::new(alloc);
    for word in 0..WORDS {
        let id = word.wrapping_mul(64).wrapping_add(first);
        if (id as usize) < MAX_EID && column.insert(id, 7).is_err() {
            return Err(AllocError);
        }
    }
    Ok(column)
}

// The walk over two columns, in turn by the function and by the method.
fn joined<'a>(turn: usize, a: &'a Column<u8>, b: &'a Column<u8>) -> Join<'a, u8, u8> {
    if turn % 2 == 0 { join(a, b) } else { b.join(a) }
}

// The columns share each word and have no index in common, so the walks are made and go no step.
#[test]
fn walks_over_many_words_are_made(rt: HostRuntime) -> Result<(), AllocError> {
    let a = in_many_words(rt.alloc(), 0)?;
    let b = in_many_words(rt.alloc(), 1)?;
    let mut walks = Vec::with_capacity(rt.alloc(), KEPT)?;
    let mut made = 0usize;
    for turn in 0..WALKS {
        if walks.len() == KEPT {
            made = made.wrapping_add(KEPT);
            walks.clear();
        }
        walks.push(joined(turn, &a, &b))?;
    }
    assert_count(&rt, made.wrapping_add(walks.len()), WALKS);
    Ok(())
}

// Goes one step of a walk over two columns and of one over the first of them, and returns whether both gave index 0.
fn gives_0<'a>(turn: usize, a: &'a Column<u8>, b: &'a Column<u8>) -> bool {
    joined(turn, a, b).next() == Some((0, &7, &7)) && a.iter().next() == Some((0, &7))
}

// The columns have index 0 in common, and no other.
#[test]
fn walks_over_many_words_go_one_step(rt: HostRuntime) -> Result<(), AllocError> {
    let a = in_many_words(rt.alloc(), 0)?;
    let mut b = in_many_words(rt.alloc(), 1)?;
    assert!(rt; b.insert(0, 7) == Ok(None));
    for turn in 0..WALKS {
        assert!(rt; gives_0(turn, &a, &b), "{turn}");
    }
    Ok(())
}
