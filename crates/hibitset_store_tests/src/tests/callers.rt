//! What callers know of columns and joins, from the public contracts alone.
//! Callers that promise the same by other bodies repeat its clauses, since each function has its own.
ghost use Rattle.std.specs.Prelude.{◌≡◌, ℕ, ◌+◌, ◌-◌, ◌*◌, ◌<◌, ◌≤◌, ◌==◌, ◌∷◌, if◌then◌else◌, length, map, min, IfOk, IfSome, IsOk, OnOk, OnErr, Some, None, true, false};
ghost use Rattle.std.specs.Option.{is_some, option_map};
ghost use Rattle.hibitset_base.specs.declared.util.TheConstants.{LAYERS};
ghost use Rattle.hibitset_store.specs.Columns.{entries_of, entry_seen, keys_of, value_of};
ghost use Rattle.hibitset_store.specs.Joins.{join_of, joined_within, seen};
ghost use Rattle.hibitset_store.specs.Capacity.{HasRoom, list_len, made_pages};
ghost use Rattle.hibitset_store.specs.Walks.{reads_of};
ghost use Rattle.hibitset_store.specs.declared.pages.TheConstants.{PAGE, MAX_SLOTS_PER_MADE_SLOT};

use crate::tests::has_exactly;
use hibitset::{BitSet, BitSetLike, Index, MAX_EID};
use hibitset_store::{Column, Join, PAGE, join, join_masked};
use hibitset_testing::columns::column_of;
use hibitset_testing::sets::set_of;
use std::alloc::{AllocError, Global};
use std::test::Fail;

// The pairs, by a loop.
fn looped<'a, V: Drop, W: Drop>(
    alloc: Global,
    a: &'a Column<V>,
    b: &'a Column<W>,
) -> Result<Vec<(Index, &'a V, &'a W)>, AllocError>
    ensures { IfOk result (λ list. map seen list.items
        ≡ join_of (value_of a.now) (value_of b.now)) }
{
    let mut list = Vec::new(alloc);
    for item in join(a, b) {
        list.push(item)?;
    }
    Ok(list)
}

// How many there are.
fn counted<V: Drop, W: Drop>(a: &Column<V>, b: &Column<W>) -> usize
    ensures { result ≡ length (join_of (value_of a.now) (value_of b.now)) }
{
    a.join(b).count()
}

// The pairs, by the list of a join.
fn collected<'a, V: Drop, W: Drop>(
    alloc: Global,
    a: &'a Column<V>,
    b: &'a Column<W>,
) -> Result<Vec<(Index, &'a V, &'a W)>, AllocError>
    ensures { IfOk result (λ list. map seen list.items
        ≡ join_of (value_of a.now) (value_of b.now)) }
{
    join(a, b).collect(alloc)
}

// How many there are within a set.
fn counted_within<V: Drop, W: Drop, M: BitSetLike>(a: &Column<V>, b: &Column<W>, m: M) -> usize
    ensures { result ≡ length (joined_within (value_of a.now) (value_of b.now) (M.holds m)) }
{
    join_masked(a, b, m).count()
}

// Those within a set, by the list of a join.
fn collected_within<'a, V: Drop, W: Drop, M: BitSetLike>(
    alloc: Global,
    a: &'a Column<V>,
    b: &'a Column<W>,
    m: M,
) -> Result<Vec<(Index, &'a V, &'a W)>, AllocError>
    ensures { IfOk result (λ list. map seen list.items
        ≡ joined_within (value_of a.now) (value_of b.now) (M.holds m)) }
{
    a.join_masked(b, m).collect(alloc)
}

// The keys with their values, by the list of a walk.
fn listed<'a, V: Drop>(
    alloc: Global,
    column: &'a Column<V>,
) -> Result<Vec<(Index, &'a V)>, AllocError>
    ensures { IfOk result (λ list. map entry_seen list.items ≡ entries_of (value_of column.now)) }
{
    column.iter().collect(alloc)
}

// The pairs of the indices that a third column has too, by its mask.
fn of_three<'a, V: Drop, W: Drop, X: Drop>(
    alloc: Global,
    a: &'a Column<V>,
    b: &'a Column<W>,
    third: &Column<X>,
) -> Result<Vec<(Index, &'a V, &'a W)>, AllocError>
    ensures { IfOk result (λ list. map seen list.items
        ≡ joined_within (value_of a.now) (value_of b.now) (λ i. is_some (value_of third.now i))) }
{
    join_masked(a, b, third.mask()).collect(alloc)
}

// Makes each value 0, by a walk over a copy of the mask.
fn reset(column: &mut Column<u32>) -> Result<(), AllocError>
    ensures reset { OnOk result ((i : ℕ)
        → value_of column.new i ≡ option_map (λ value. 0) (value_of column.old i)) }
    ensures err { OnErr result ((i : ℕ) → value_of column.new i ≡ value_of column.old i) }
{
    let mask: BitSet = column.mask().clone()?;
    for id in &mask {
        if let Some(value) = column.get_mut(id) {
            *value = 0;
        }
    }
    Ok(())
}

// Changes the value of an index that has one.
fn change<V: Drop>(column: &mut Column<V>, id: Index, value: V) -> bool
    ensures old_value { result ≡ is_some (value_of column.old id) }
    ensures changed { result ≡ true → (i : ℕ)
        → value_of column.new i ≡ (if i == id then Some value else value_of column.old i) }
    ensures unchanged { result ≡ false → (i : ℕ) → value_of column.new i ≡ value_of column.old i }
{
    match column.get_mut(id) {
        Some(place) => {
            *place = value;
            true
        }
        None => false,
    }
}

// Two steps of a join: what they give comes first, and by then it has read no more than its bound.
fn two_steps<'a>(a: &'a Column<u32>, b: &'a Column<u32>) -> Join<'a, u32, u32>
    ensures { reads_of result ≤ (LAYERS - 1) * min (length (keys_of (value_of a.now)))
        (length (keys_of (value_of b.now))) + 1 }
{
    let mut walk = join(a, b);
    let _ = walk.next();
    let _ = walk.next();
    walk
}

// Puts a value where there is none yet.
fn put_new<V: Drop>(column: &mut Column<V>, id: Index, value: V) -> Result<bool, V>
    requires { id < MAX_EID }
    ensures put { OnOk result ((i : ℕ)
        → value_of column.new i ≡ (if i == id then Some value else value_of column.old i)) }
    ensures err { OnErr result ((i : ℕ) → value_of column.new i ≡ value_of column.old i) }
{
    Ok(column.insert(id, value)?.is_none())
}

// Puts two values, the first of which is taken out again. The second can't be refused: the first made the room, and
// `remove` keeps it.
fn put_again<V: Drop>(
    column: &mut Column<V>,
    id: Index,
    first: V,
    second: V,
) -> Result<Result<Option<V>, V>, V>
    requires { id < MAX_EID }
    ensures { IfOk result (λ again. IsOk again) }
{
    column.insert(id, first)?;
    column.remove(id);
    Ok(column.insert(id, second))
}

// Takes the value of an index out and puts another one in its place, which can't be refused.
fn exchange<V: Drop>(column: &mut Column<V>, id: Index, value: V) -> Option<Result<Option<V>, V>>
    requires { id < MAX_EID }
    ensures { IfSome result (λ put. IsOk put) }
{
    column.remove(id)?;
    Some(column.insert(id, value))
}

// Makes room for each index of the first page.
fn warm_up(column: &mut Column<u32>) -> Result<(), u32>
    ensures { OnOk result ((i : ℕ) → i < PAGE → HasRoom column.new i) }
{
    let last = PAGE as Index - 1;
    column.insert(last, 0)?;
    column.remove(last);
    Ok(())
}

// Puts a far value, whether there is memory for it or not: the first page keeps its room.
fn put_far(column: &mut Column<u32>) -> bool
    requires { (i : ℕ) → i < PAGE → HasRoom column.old i }
    ensures { (i : ℕ) → i < PAGE → HasRoom column.new i }
{
    column.insert(5_000_000, 9).is_ok()
}

// Gives each index of the first page a value, and then changes one. After `warm_up` none is refused.
fn fill(column: &mut Column<u32>, value: u32) -> bool
    requires { (i : ℕ) → i < PAGE → HasRoom column.old i }
    ensures result { result ≡ true }
    ensures has_room { (i : ℕ) → i < PAGE → HasRoom column.new i }
{
    for id in 0..PAGE as Index {
        if column.insert(id, value).is_err() {
            return false;
        }
    }
    if let Some(place) = column.get_mut(7) {
        *place = 0;
    }
    true
}

// The column of these indices, each with itself as its value, as far as there is memory. However they lie, it has at
// most four times as many places as those of its pages.
fn spread(alloc: Global, ids: &[Index]) -> Column<u32>
    ensures { list_len result ≤ MAX_SLOTS_PER_MADE_SLOT * (PAGE * made_pages result) }
{
    let mut column = Column::new(alloc);
    for id in ids {
        if (*id as usize) < MAX_EID && column.insert(*id, *id).is_err() {
            return column;
        }
    }
    column
}

#[test]
fn joins_of_callers(rt: HostRuntime) -> Result<(), Fail> {
    let alloc = rt.alloc();
    let a = column_of(alloc, &[(3, 1), (70, 2), (700, 3)])?;
    let mut b = column_of(alloc, &[(70, 4), (71, 5), (700, 6)])?;
    let set = set_of(alloc, &[3, 700])?;
    assert_eq!(rt;
        looped(alloc, &a, &b)?.as_slice(),
        [(70, &2, &4), (700, &3, &6)].as_slice()
    );
    assert_eq!(rt;
        collected(alloc, &a, &b)?.as_slice(),
        [(70, &2, &4), (700, &3, &6)].as_slice()
    );
    assert_eq!(rt; counted(&a, &b), 2);
    assert_eq!(rt;
        collected_within(alloc, &a, &b, &set)?.as_slice(),
        [(700, &3, &6)].as_slice()
    );
    assert_eq!(rt; counted_within(&a, &b, !&set), 1);
    assert_eq!(rt;
        listed(alloc, &a)?.as_slice(),
        [(3, &1), (70, &2), (700, &3)].as_slice()
    );
    assert_eq!(rt; of_three(alloc, &a, &b, &b)?.len(), 2);
    assert!(rt; two_steps(&a, &b).next().is_none());
    assert!(rt; change(&mut b, 71, 9) && !change(&mut b, 72, 9));
    reset(&mut b)?;
    assert!(rt; has_exactly(alloc, &b, &[(70, 0), (71, 0), (700, 0)])?);
    assert_eq!(rt; put_new(&mut b, 3, 9), Ok(true));
    assert_eq!(rt; counted(&a, &b), 3);
    Ok(())
}

#[test]
fn room_of_callers(rt: HostRuntime) -> Result<(), Fail> {
    let mut column = Column::new(rt.alloc());
    assert_eq!(rt; put_again(&mut column, 70_000, 1, 2), Ok(Ok(None)));
    assert_eq!(rt; exchange(&mut column, 70_000, 3), Some(Ok(None)));
    assert!(rt; exchange(&mut column, 5, 3).is_none());
    assert_eq!(rt; warm_up(&mut column), Ok(()));
    assert!(rt; put_far(&mut column) && column.remove(5_000_000) == Some(9));
    assert!(rt; fill(&mut column, 4) && column.len() == PAGE + 1);
    assert!(rt; column.get(7) == Some(&0) && column.get(63) == Some(&4));
    let column = spread(rt.alloc(), &[450, 4_294_967_295, 400, 350, 5]);
    assert!(rt;
        has_exactly(
            rt.alloc(),
            &column,
            &[(5, 5), (350, 350), (400, 400), (450, 450)]
        )?
    );
    Ok(())
}
