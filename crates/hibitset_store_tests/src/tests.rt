//! Values from outside: worked rows, and each public call at least once.
mod callers;
mod costs;

use hibitset::{BitSetLike, Index};
use hibitset_store::{Column, join, join_masked};
use hibitset_testing::columns::column_of;
use hibitset_testing::sets::set_of;
use std::alloc::{AllocError, Global};
use std::test::Fail;

// Returns whether a column has exactly these indices and values, and its mask these indices.
fn has_exactly(
    alloc: Global,
    column: &Column<u32>,
    rows: &[(Index, u32)],
) -> Result<bool, AllocError> {
    let keys: Vec<Index> = column.mask().iter().collect(alloc)?;
    let entries: Vec<(Index, &u32)> = column.iter().collect(alloc)?;
    if keys.len() != rows.len() || entries.len() != rows.len() || column.len() != rows.len() {
        return Ok(false);
    }
    for ((key, entry), (id, value)) in keys.iter().zip(entries.iter()).zip(rows.iter()) {
        if *key != *id || *entry != (*id, value) || column.get(*id).copied() != Some(*value) {
            return Ok(false);
        }
    }
    Ok(column.is_empty() == rows.is_empty())
}

#[test]
fn a_column_is_a_map(rt: HostRuntime) -> Result<(), Fail> {
    let alloc = rt.alloc();
    let mut column = Column::new(alloc);
    assert!(rt; has_exactly(alloc, &column, &[])?);
    assert!(rt; column.get(0).is_none() && column.remove(0).is_none());
    assert_eq!(rt; column.insert(5, 77), Ok(None));
    assert_eq!(rt; column.insert(16_777_216, 1), Ok(None));
    assert_eq!(rt; column.insert(1_023, 2), Ok(None));
    assert_eq!(rt; column.insert(1_024, 3), Ok(None));
    assert_eq!(rt; column.insert(5, 78), Ok(Some(77)));
    assert!(rt;
        has_exactly(
            alloc,
            &column,
            &[(5, 78), (1_023, 2), (1_024, 3), (16_777_216, 1)]
        )?
    );
    assert!(rt; column.get(4).is_none() && column.get(6).is_none() && column.get(1_025).is_none());
    assert!(rt; column.get(1 << 30).is_none() && column.get(4_294_967_295).is_none());
    assert!(rt; column.remove(1 << 30).is_none() && column.remove(4_294_967_295).is_none());
    assert_eq!(rt; column.remove(1_023), Some(2));
    assert_eq!(rt; column.remove(1_023), None);
    assert!(rt; has_exactly(alloc, &column, &[(5, 78), (1_024, 3), (16_777_216, 1)])?);
    column.clear();
    assert!(rt; has_exactly(alloc, &column, &[])?);
    assert_eq!(rt; column.insert(5, 79), Ok(None));
    assert!(rt; has_exactly(alloc, &column, &[(5, 79)])?);
    Ok(())
}

// One value in each page from the last one down: they lie in order from the third on, and what comes after the last one
// lies behind.
#[test]
fn pages_in_order_keep_their_values(rt: HostRuntime) -> Result<(), Fail> {
    let alloc = rt.alloc();
    let mut column = column_of(alloc, &[(450, 70), (400, 60), (350, 50)])?;
    assert!(rt; has_exactly(alloc, &column, &[(350, 50), (400, 60), (450, 70)])?);
    assert!(rt; column.get(349).is_none() && column.get(75).is_none());
    assert!(rt; column.get(511).is_none() && column.get(512).is_none());
    assert_eq!(rt; column.insert(75, 10), Ok(None));
    assert_eq!(rt; column.insert(75, 11), Ok(Some(10)));
    assert_eq!(rt; column.insert(2_250, 90), Ok(None));
    assert_eq!(rt; column.insert(1_000, 80), Ok(None));
    assert_eq!(rt; column.remove(400), Some(60));
    assert_eq!(rt; column.remove(401), None);
    assert!(rt;
        has_exactly(
            alloc,
            &column,
            &[(75, 11), (350, 50), (450, 70), (1_000, 80), (2_250, 90)]
        )?
    );
    if let Some(value) = column.get_mut(350) {
        *value = 51;
    }
    assert_eq!(rt; column.get(350).copied(), Some(51));
    column.clear();
    assert!(rt; column.get(75).is_none() && has_exactly(alloc, &column, &[])?);
    assert_eq!(rt; column.insert(75, 12), Ok(None));
    assert!(rt; has_exactly(alloc, &column, &[(75, 12)])?);
    Ok(())
}

// Pages that are made one after the other lie in order from the first on.
#[test]
fn ascending_pages_lie_in_order(rt: HostRuntime) -> Result<(), Fail> {
    let alloc = rt.alloc();
    let mut column = column_of(alloc, &[(5, 1), (65, 2), (150, 3), (500, 4)])?;
    assert_eq!(rt; column.insert(175, 5), Ok(None));
    assert_eq!(rt; column.insert(250, 6), Ok(None));
    assert!(rt;
        has_exactly(
            alloc,
            &column,
            &[(5, 1), (65, 2), (150, 3), (175, 5), (250, 6), (500, 4)]
        )?
    );
    Ok(())
}

#[test]
fn joins_go_over_what_both_have(rt: HostRuntime) -> Result<(), Fail> {
    let a = column_of(rt.alloc(), &[(1, 10), (2, 20), (3, 30), (70_000, 40)])?;
    let b = column_of(rt.alloc(), &[(2, 200), (3, 300), (4, 400), (70_000, 500)])?;
    let mut walk = join(&a, &b);
    assert!(rt; walk.next() == Some((2, &20, &200)));
    assert!(rt; walk.next() == Some((3, &30, &300)));
    assert!(rt; walk.next() == Some((70_000, &40, &500)));
    assert!(rt; walk.next().is_none() && walk.next().is_none());
    assert_eq!(rt; a.join(&Column::<u32>::new(rt.alloc())).count(), 0);
    assert_eq!(rt; a.join(&a).count(), 4);
    Ok(())
}

// Indices that are the same below 2^24 are two.
#[test]
fn joins_go_over_five_layers(rt: HostRuntime) -> Result<(), Fail> {
    let p = column_of(rt.alloc(), &[(0, 1), (16_777_216, 1)])?;
    let mut q = column_of(rt.alloc(), &[(1, 1), (16_777_217, 1)])?;
    assert_eq!(rt; join(&p, &q).count(), 0);
    assert_eq!(rt; q.insert(16_777_216, 7), Ok(None));
    let mut walk = join(&p, &q);
    assert!(rt; walk.next() == Some((16_777_216, &1, &7)));
    assert!(rt; walk.next().is_none());
    Ok(())
}

#[test]
fn a_masked_join_leaves_out_what_the_set_lacks(rt: HostRuntime) -> Result<(), Fail> {
    let a = column_of(rt.alloc(), &[(1, 10), (2, 20), (3, 30)])?;
    let b = column_of(rt.alloc(), &[(2, 200), (3, 300), (4, 400)])?;
    let three = set_of(rt.alloc(), &[3])?;
    let mut walk = join_masked(&a, &b, !&three);
    assert!(rt; walk.next() == Some((2, &20, &200)));
    assert!(rt; walk.next().is_none());
    let mut walk = a.join_masked(&b, &three);
    assert!(rt; walk.next() == Some((3, &30, &300)));
    assert!(rt; walk.next().is_none());
    Ok(())
}

// The keys of the first slot and of the last one.
#[test]
fn keys_of_the_last_page(rt: HostRuntime) -> Result<(), Fail> {
    let mut column = column_of(rt.alloc(), &[(1_073_741_823, 2)])?;
    assert!(rt; column.insert(1_073_741_760, 1) == Ok(None));
    assert!(rt;
        has_exactly(
            rt.alloc(),
            &column,
            &[(1_073_741_760, 1), (1_073_741_823, 2)]
        )?
    );
    assert!(rt; column.remove(1_073_741_823) == Some(2) && column.len() == 1);
    Ok(())
}

// Values need be neither copied nor cloned, and each goes where it is asked to.
#[test]
fn values_are_moved(rt: HostRuntime) -> Result<(), Fail> {
    let alloc = rt.alloc();
    let mut names = Column::new(alloc);
    let mut sizes = Column::new(alloc);
    assert!(rt; names.insert(9, String::from_str(alloc, "nine")?).is_ok());
    assert!(rt; sizes.insert(9, 4u8).is_ok());
    for (id, name, size) in join(&names, &sizes) {
        assert!(rt; id == 9 && name.as_str() == "nine" && *size == 4);
    }
    let was = names.insert(9, String::from_str(alloc, "neuf")?);
    assert!(rt; matches!(&was, Ok(Some(name)) if name.as_str() == "nine"));
    let taken = names.remove(9);
    assert!(rt; matches!(&taken, Some(name) if name.as_str() == "neuf"));
    assert!(rt; names.is_empty() && names.mask().is_empty());
    Ok(())
}
