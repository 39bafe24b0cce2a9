//! What a shared set and a seat are made of, and what each allocates.
ghost use Rattle.std.specs.Prelude.{◌≡◌, ◌<◌, ◌≤◌, length};
ghost use Rattle.hibitset_atomic.specs.declared.shared.layout.TheConstants.{SHARES, ROW_WORDS};

use crate::shared::rule::FourLayers;
use crate::shared::view::View;
use atomic_table::Table;
use std::alloc::Global;
use std::snapshot::Snapshot;

// A seat's permission to act on the table: a fractional token of ghost state, which takes no bytes.
pub type TableSeat = atomic_table::Seat<(), View>;

/// A set that threads add to, each with a seat of its own. `AtomicBitSet::share` makes it, and `settle` ends it; until
/// then no index is taken out.
#[derive(Drop)]
pub struct SharedBitSet {
    pub(crate) table: Table<(), View, Snapshot<Vec<u64>>, FourLayers, Global>,
    pub(crate) alloc: Global,
    ghost counts: { (table.shared.table_id.words ≡ ROW_WORDS) × (table.shared.table_id.slots ≡ 0) },
}

/// What one thread adds and asks with, at the set that it came from. It has
///
/// - a weight: how many of the `SHARES` of its set it has;
/// - reports: the indices that its own adds put in, the newest first;
/// - known indices, of which it has seen all four bits.
///
/// No call takes a report or a known index from it. A seat that is dropped takes its shares with it.
#[derive(Drop)]
pub struct Seat {
    pub(crate) pass: TableSeat,
    pub(crate) weight: u32,
    ghost counted: { weight ≡ length pass.me.0.shares },
    ghost some_share: { (0 < weight) × (weight ≤ SHARES) },
    ghost empty_handed: { length pass.me.1 ≡ 0 },
}
