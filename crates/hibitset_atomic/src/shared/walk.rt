//! Walks over a shared set, while others add to it.
ghost use Rattle.std.specs.Prelude.{◌≡◌, ◌⊎◌, ℕ, ◌+◌, ◌-◌, ◌*◌, ◌/◌, ◌%◌, ◌^◌, ◌<◌, ◌≤◌, ◌∷◌, [], true, false, IfSome, MatchOption, Option, None};
ghost use Rattle.std.specs.Iterator.{at_most};
ghost use Rattle.std.specs.Int.{bit_at};
ghost use Rattle.hibitset_base.specs.Places.{Place};
ghost use Rattle.hibitset_base.specs.Cursor.{cursor_places, CanContinueAt};
ghost use Rattle.hibitset_base.specs.WordsRead.{depth};
ghost use Rattle.hibitset_atomic.specs.Lists.{Has};
ghost use Rattle.hibitset_atomic.specs.Levels.{first_mark};
ghost use Rattle.hibitset_atomic.specs.declared.atomic.TheConstants.{ATOMIC_MAX_EID};
ghost use Rattle.hibitset_atomic.specs.declared.layers.TheConstants.{ATOMIC_LAYERS};
ghost use Rattle.hibitset_atomic.specs.Seats.{IsOld, BelongsTo, IsKnown, weight_of, reports_of, loads_by, exchanges_by};
ghost use Rattle.hibitset_atomic.specs.SharedWalk.{view_of, IsOldOrKnown, Keeps, LoadsTo, WalkInvariant, set_of, seat_of, lender, loads_of, next_from, IsReady, IsDue, SharedSteps};

use crate::layers::ATOMIC_LAYERS;
use crate::shared::types::{Seat, SharedBitSet};
use hibitset_base::cursor::Cursor;
use hibitset_base::read_count::Reads;
use hibitset_base::util::Index;

// The layers, and the root over them: one place, over the word of the highest layer.
pub(crate) const LEVELS: usize = ATOMIC_LAYERS + 1;

/// A walk over a shared set, in ascending order, while others add to it. It has one seat of that set on loan, and what
/// it gives becomes known to that seat.
///
/// - Once it has ended, it has given each index from before `share`, and each that the seat knew when the walk was
///   made. An index that comes in meanwhile may be given or not.
/// - Dropped early, it leaves a seat that knows what was given, and it has given all old and known indices before its
///   last item.
///
/// A step makes at most four loads at the first `next` and at most three at each later one, each a sequentially
/// consistent read of one word. It does not allocate, writes nothing to the set, and waits for no other thread.
pub struct SharedWalk<'a> {
    pub(crate) seat: &'a mut Seat,
    pub(crate) set: &'a SharedBitSet,
    pub(crate) cursor: Cursor<LEVELS>,
    pub(crate) reads: Reads,
}

impl Drop for SharedWalk<'_> {
    #[tactic(auto, unfolding(crate::specs::SharedWalk::seat_of))]
    fn drop(self)
        ensures { self.exit.0.now ≡ seat_of self.entry }
    {
        let SharedWalk {
            seat: _,
            set: _,
            cursor,
            reads,
        } = self;
        drop(cursor);
        drop(reads);
    }
}

// Loads the word of a layer at a position. Each load of a walk is made here.
#[inline]
#[tactic(auto, unfolding(crate::specs::Seats::BelongsTo, crate::specs::Seats::IsKnown, crate::specs::Seats::IsOld, crate::specs::Seats::weight_of, crate::specs::Seats::reports_of, crate::specs::Seats::loads_by, crate::specs::Seats::exchanges_by))]
fn load(
    set: &SharedBitSet,
    seat: &mut Seat,
    reads: &mut Reads,
    layer: usize,
    position: u32,
) -> usize
    requires belongs { BelongsTo set.now seat.old }
    requires layer { layer < ATOMIC_LAYERS }
    requires position { position < 64 ^ (ATOMIC_LAYERS - 1 - layer) }
    ensures keeps_known { Keeps set.now seat.old seat.new }
    ensures nonzero { Has (view_of seat.old).seen (first_mark (layer + 1) + position) → 0 < result }
    ensures seen { (b : ℕ) → b < 64 → bit_at result b ≡ 1
        → Has (view_of seat.new).seen (first_mark layer + (64 * position + b)) }
    ensures due { (i : ℕ) → IsOldOrKnown set.now seat.old i → i / 64 ^ (layer + 1) ≡ position
        → bit_at result (i / 64 ^ layer % 64) ≡ 1 }
    ensures reads { reads.new.count ≡ reads.old.count + 1 }
    ensures counted { loads_by seat.new ≡ loads_by seat.old + 1 }
{
    *reads = Reads::succ(reads);
    set.load_word(&mut seat.pass, layer, position) as usize
}

// Loads the word under a place that was taken, and puts its bits in the place's stead.
#[inline]
fn descend(
    set: &SharedBitSet,
    seat: &mut Seat,
    cursor: &mut Cursor<LEVELS>,
    reads: &mut Reads,
    layer: usize,
    position: u32,
)
    requires belongs { BelongsTo set.now seat.old }
    requires layer { layer ≤ ATOMIC_LAYERS }
    requires above { 0 < layer }
    requires rest { CanContinueAt cursor.old layer position }
    requires stands { WalkInvariant (view_of seat.old) reads.old.count
        ((record { layer = layer; position = position }) ∷ cursor_places cursor.old) }
    ensures goes { LoadsTo set.now seat.old seat.new reads.old.count
        ((record { layer = layer; position = position }) ∷ cursor_places cursor.old) reads.new.count
        (cursor_places cursor.new) }
    ensures fewer { depth (cursor_places cursor.new) < layer }
{
    let word = load(set, seat, reads, layer - 1, position);
    cursor.push_bits(layer - 1, position, word);
}

// The first index that is left, which is taken.
#[inline]
fn next_index(
    set: &SharedBitSet,
    seat: &mut Seat,
    cursor: &mut Cursor<LEVELS>,
    reads: &mut Reads,
) -> Option<Index>
    requires belongs { BelongsTo set.now seat.old }
    requires stands { WalkInvariant (view_of seat.old) reads.old.count (cursor_places cursor.old) }
    ensures end { result ≡ None → (cursor_places cursor.new ≡ []) }
    ensures goes { MatchOption result (LoadsTo set.now seat.old seat.new reads.old.count
        (cursor_places cursor.old) reads.new.count (cursor_places cursor.new))
        (λ i. LoadsTo set.now seat.old seat.new reads.old.count (cursor_places cursor.old)
        reads.new.count ((record { layer = 0; position = i }) ∷ cursor_places cursor.new)) }
    ensures before { IfSome result (λ i. CanContinueAt cursor.new 0 i) }
{
    'places: while let Some((layer, position)) = cursor.take_lowest() {
        if layer == 0 {
            return Some(position);
        }
        descend(set, seat, cursor, reads, layer, position);
    }
    None
}

impl SharedBitSet {
    /// A walk over the set, in ascending order, while others add to it, for one of the set's seats. The seat comes back
    /// when the walk is dropped, with the same weight and reports; it knows what the walk gave.
    ///
    /// Nothing is read here; the first `next` reads the first word.
    #[inline]
    #[tactic(auto, unfolding(crate::specs::SharedWalk::set_of, crate::specs::SharedWalk::seat_of, crate::specs::SharedWalk::loads_of))]
    pub fn walk<'a>(&'a self, seat: &'a mut Seat) -> SharedWalk<'a>
        requires { BelongsTo self.now seat.old }
        ensures same_reference { lender result ≡ seat.entry.ghost_name }
        ensures set_and_seat { (set_of result ≡ self.now) × (seat_of result ≡ seat.old) }
        ensures ready { IsReady result }
        ensures due { (i : ℕ) → IsOld self.now i ⊎ IsKnown seat.old i → IsDue result i }
        ensures loads { loads_of result ≡ 0 }
    {
        SharedWalk {
            seat,
            set: self,
            cursor: Cursor::at_top(1),
            reads: Reads::none(),
        }
    }
}

impl<'a> Iterator for SharedWalk<'a> {
    type Item = Index;

    ghost can_next = { IsReady };

    ghost next_gives = { SharedSteps };

    ghost remaining = { λ walk. at_most (ATOMIC_MAX_EID - next_from walk) };

    #[inline]
    #[tactic(auto, unfolding(crate::specs::SharedWalk::set_of, crate::specs::SharedWalk::seat_of, crate::specs::SharedWalk::loads_of, crate::specs::SharedWalk::IsReady))]
    fn next(&mut self) -> Option<Index> {
        next_index(self.set, self.seat, &mut self.cursor, &mut self.reads)
    }
}
