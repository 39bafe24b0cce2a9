//! Walks that take out of their set what they give.
#![tactic(auto, unfolding(crate::specs::Drain::items_to_drain))]

ghost use Rattle.std.specs.Prelude.{◌≡◌, ◌≢◌, ℕ, ◌<◌, ◌≤◌, length, Bool, true, false};
ghost use Rattle.std.specs.Iterator.{item_count};
ghost use Rattle.std.specs.Iterator.Runs.{YieldsInOrder};
ghost use Rattle.hibitset_base.specs.Connectives.{is_member};
ghost use Rattle.hibitset_base.specs.Members.{members_below};
ghost use Rattle.hibitset_base.specs.Places.{places_left, items_of, IsWellFormed};
ghost use Rattle.hibitset_base.specs.Drain.{items_to_drain, drained_set, lender, DrainSteps};
ghost use Rattle.hibitset_base.specs.declared.util.TheConstants.{LAYERS, MAX_EID};

use crate::cursor::Cursor;
use crate::iter::{cursor_of, next_index, root_cursor};
use crate::like::DrainableBitSet;
use crate::read_count::Reads;
use crate::util::{Index, LAYERS, MAX_EID};

/// A walk over the members of a set, in ascending order, that takes each one out of the set as it gives it:
/// `DrainBitIter` of the original. Dropped early, it leaves all members that were not given.
#[derive(Drop)]
pub struct DrainBitIter<'a, T> {
    pub(crate) set: &'a mut T,
    pub(crate) cursor: Cursor<LAYERS>,
    pub(crate) reads: Reads,
}

impl<'a, T> DrainBitIter<'a, T> {
    /// A drain of `set` that goes on from the given state. `masks` has the bits that are left of each layer, from the
    /// lowest up. `prefix` has the position of each mask's first bit in its layer, for the layers below the top.
    ///
    /// - The prefix of a nonzero mask is a multiple of 64 within the layer.
    /// - What is left in a layer lies in the range of one word of each layer above that has something left: the word
    ///   whose first bit is at that layer's prefix. There it lies before what is left of that word.
    #[inline]
    pub fn new(set: &'a mut T, masks: [usize; LAYERS], prefix: [u32; LAYERS - 1]) -> Self
        requires { IsWellFormed LAYERS masks prefix }
        ensures lender { lender result ≡ set.entry.ghost_name }
        ensures set { drained_set result ≡ set.old }
        ensures items { (holds : T → ℕ → Bool)
            → items_to_drain holds result ≡ items_of (holds set.old) (places_left 0 masks prefix) }
    {
        DrainBitIter {
            set,
            cursor: cursor_of(masks, prefix),
            reads: Reads::none(),
        }
    }
}

impl<'a, T: DrainableBitSet> DrainBitIter<'a, T> {
    // Starts at the top of the set.
    #[inline]
    pub(crate) fn from_top(set: &'a mut T) -> Self
        ensures lender { lender result ≡ set.entry.ghost_name }
        ensures set { drained_set result ≡ set.old }
        ensures items { items_to_drain T.holds result ≡ members_below MAX_EID (T.holds set.old) }
        ensures runs { YieldsInOrder (DrainSteps T.holds T.keeps_room) (items_to_drain T.holds) }
        ensures fits { length (items_to_drain T.holds result) ≤ MAX_EID }
    {
        let mut reads = Reads::none();
        let cursor = root_cursor(&*set, &mut reads);
        DrainBitIter { set, cursor, reads }
    }
}

impl<'a, T: DrainableBitSet> Iterator for DrainBitIter<'a, T> {
    type Item = Index;

    ghost next_gives = { DrainSteps T.holds T.keeps_room };

    ghost remaining = { item_count (items_to_drain T.holds) };

    #[inline]
    fn next(&mut self) -> Option<Index> {
        let index = next_index(&*self.set, &mut self.cursor, &mut self.reads)?;
        self.set.remove(index);
        Some(index)
    }
}

// Takes an index out of a set, unless it is to stay.
#[inline]
fn keep_or_remove<T: DrainableBitSet, F: Fn(Index) -> bool>(set: &mut T, index: Index, keep: &F)
    requires { F.IsAlwaysCallable keep.now }
    ensures answer { T.holds set.old index ≡ true → F.post keep.now index (T.holds set.new index) }
    ensures others { (i : ℕ) → i ≢ index → T.holds set.new i ≡ T.holds set.old i }
    ensures keeps_room { T.keeps_room set.old set.new }
{
    if keep(index) {
        return;
    }
    set.remove(index);
}

// Takes out each member that is not to stay, in ascending order.
#[inline]
pub(crate) fn retain_members<T: DrainableBitSet, F: Fn(Index) -> bool>(set: &mut T, keep: &F)
    requires { F.IsAlwaysCallable keep.now }
    ensures kept { (i : ℕ) → i < MAX_EID → T.holds set.old i ≡ true
        → F.post keep.now i (T.holds set.new i) }
    ensures others { (i : ℕ) → is_member (T.holds set.old) i ≡ false
        → T.holds set.new i ≡ T.holds set.old i }
    ensures keeps_room { T.keeps_room set.old set.new }
{
    let mut reads = Reads::none();
    let mut cursor = root_cursor(&*set, &mut reads);
    'items: while let Some(index) = next_index(&*set, &mut cursor, &mut reads) {
        keep_or_remove(set, index, keep);
    }
}
