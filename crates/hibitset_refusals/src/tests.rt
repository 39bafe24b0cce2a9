//! Each call that asks for memory is made between two requests of the test's own. Where a request of the call is
//! refused it is seen what stands, and the call is made again. A test prints whether the first request, the call and
//! the last request were refused; `allocation_failures.py` refuses the requests one after the other. A test whose call
//! does not allocate as things stand, as all of `room`, prints nothing between the two requests.
ghost use Rattle.std.specs.Prelude.{◌≡◌, [], IfOk};
ghost use Rattle.hibitset_atomic.specs.Seats.{BelongsTo, weight_of, reports_of};
ghost use Rattle.hibitset_atomic.specs.declared.shared.layout.TheConstants.{SHARES};
ghost use Rattle.uses.specs.Filter.{tags_of};

// Makes a call between two allocations of the test's own, and prints whether each of the three failed: the call did if
// it returned an error, or if what is said behind it holds. It is what the call returned.
macro_rules! tried {
    ($rt:expr, $call:expr) => {
        tried!($rt, $call, |made| made.is_err())
    };
    ($rt:expr, $call:expr, |$made:ident| $failed:expr) => {{
        ask($rt);
        let $made = $call;
        say($rt, $failed);
        ask($rt);
        $made
    }};
}

// What was made, or what a call makes where it failed.
macro_rules! or_again {
    ($made:expr, $call:expr) => {
        match $made {
            Ok(made) => made,
            Err(_) => $call?,
        }
    };
}

// What a call makes that is tried, and made again where it failed.
macro_rules! retried {
    ($rt:expr, $call:expr) => {
        or_again!(tried!($rt, $call), $call)
    };
}

// What a call makes of items, by references to them or by their values, and the next item that is left.
macro_rules! drawn {
    ($items:expr, $by_reference:expr, |$left:ident| $of_references:expr, $of_values:expr) => {
        if $by_reference {
            let mut $left = $items.iter();
            let made = $of_references;
            (made, $left.next().copied())
        } else {
            let mut $left = $items.iter().copied();
            let made = $of_values;
            (made, $left.next())
        }
    };
}

mod atomic;
mod callers;
mod columns;
mod copies;
mod parts;
mod room;
mod sets;
mod sparse;
mod streams;
mod worlds;

use hibitset::atomic::ATOMIC_MAX_EID;
use hibitset::{AtomicBitSet, BitSetLike, BuildError, Index, Seat, SharedBitSet};
use hibitset_store::Column;
use std::alloc::{AllocError, AllocGlobal, Global};
use std::io::Print;
use std::process::Abort;
use uses::filter::Tagged;

// Prints whether a call was refused.
fn say(rt: &(impl Abort + Print), refused: bool) {
    let said = rt.println(if refused { "refused" } else { "passed" });
    assert!(rt; said.is_ok());
}

// Makes one request, and prints whether it was refused.
fn ask(rt: &(impl Abort + Print + AllocGlobal)) {
    let made: Result<Vec<u8>, AllocError> = Vec::with_capacity(rt.alloc(), 1);
    say(rt, made.is_err());
}

// The atomic set of these indices.
fn atomic_of(alloc: Global, ids: &[Index]) -> Result<AtomicBitSet, AllocError> {
    let mut set = AtomicBitSet::new(alloc)?;
    for id in ids {
        if (*id as usize) < ATOMIC_MAX_EID {
            set.add(*id)?;
        }
    }
    Ok(set)
}

// A set of these old indices that many may add to, and its opening seat.
fn shared_of(alloc: Global, ids: &[Index]) -> Result<(SharedBitSet, Seat), AllocError>
    ensures { IfOk result (λ r. BelongsTo r.0 r.1 × (weight_of r.1 ≡ SHARES)
        × (reports_of r.1 ≡ [])) }
{
    let Ok(shared) = atomic_of(alloc, ids)?.share() else {
        return Err(AllocError);
    };
    Ok(shared)
}

// Three tags that no record has.
fn three_tags(alloc: Global) -> Result<Tagged, AllocError>
    ensures { IfOk result (λ tagged. tags_of tagged ≡ 3) }
{
    let mut tagged = Tagged::new(alloc);
    tagged.new_tag()?;
    tagged.new_tag()?;
    tagged.new_tag()?;
    Ok(tagged)
}

// What came of items, and the next one that is left.
type Drawn<T> = (Result<T, BuildError>, Option<Index>);

// Returns whether an allocation failed for the item at one of these places, and the next item that is left is the one
// after it.
fn is_refused_there(
    items: &[Index],
    error: BuildError,
    next: Option<Index>,
    places: &[usize],
) -> bool {
    match error {
        BuildError::Memory { place } => {
            places.contains(&place) && next == items.iter().copied().nth(place.wrapping_add(1))
        }
        BuildError::OutOfRange { place: _, index: _ } => false,
    }
}

// Returns whether a set has exactly these members.
fn has_exactly<T: BitSetLike>(set: &T, ids: &[Index]) -> bool {
    let mut walk = set.iter();
    for id in ids {
        if walk.next() != Some(*id) {
            return false;
        }
    }
    walk.next().is_none()
}

// Returns whether a column has exactly these indices and values, and its mask these indices.
fn has_values(column: &Column<u32>, rows: &[(Index, u32)]) -> bool {
    let mut keys = column.mask().iter();
    let mut entries = column.iter();
    for (id, value) in rows {
        if keys.next() != Some(*id) || entries.next() != Some((*id, value)) {
            return false;
        }
    }
    keys.next().is_none() && entries.next().is_none() && column.len() == rows.len()
}

// The words on the way to an index, from the top on.
fn way<T: BitSetLike>(set: &T, id: Index) -> [usize; 5] {
    let id = id as usize;
    [
        set.layer4(),
        set.layer3(id >> 24),
        set.layer2(id >> 18),
        set.layer1(id >> 12),
        set.layer0(id >> 6),
    ]
}

// The functions below compare for many tests: a comparison in a test makes the proof of all that follows there longer,
// and a call of one of these hardly does.

// Sees that a set has exactly these members.
fn assert_has<T: BitSetLike>(rt: &impl Abort, set: &T, ids: &[Index]) {
    assert!(rt; has_exactly(set, ids));
}

// Sees that a set has exactly these members, and these words on the way to an index.
fn assert_way<T: BitSetLike>(
    rt: &impl Abort,
    set: &T,
    ids: &[Index],
    id: Index,
    words: [usize; 5],
) {
    assert!(rt; has_exactly(set, ids));
    assert!(rt; way(set, id) == words);
}

fn assert_indices(rt: &impl Abort, found: &[Index], ids: &[Index]) {
    assert!(rt; found == ids);
}
