//! A walk as parts, which threads can go through side by side.
#![tactic(auto, unfolding(crate::specs::Walk::items_left, crate::specs::Walk::set_of))]

ghost use Rattle.std.specs.Prelude.{◌≡◌, ℕ, ◌+◌, ◌-◌, ◌<◌, ◌≤◌, ◌++◌, max, length, MatchOption, IfSome, Some, None, ⊤};
ghost use Rattle.hibitset_base.specs.Sets.{SummariesExact};
ghost use Rattle.hibitset_base.specs.Cursor.{IsAlone, IsOneBelow};
ghost use Rattle.hibitset_base.specs.PlaceHalves.{HasOneMask};
ghost use Rattle.hibitset_base.specs.Walk.{set_of, items_left, masks_left, words_read, BitsAreFromSet};
ghost use Rattle.hibitset_base.specs.Division.{IsUndivided, IsDivided};
ghost use Rattle.hibitset_base.specs.Splits.{range_size, LieInOneRange, ShareNoRange, AreWords, part_set, part_items, items_of_second, PartBitsAreFromSet, PartHasOneMask, DifferByAtMostOne, SameSetAndLayers, part_reads, SplitReads};
ghost use Rattle.std.specs.List.{FoldsTo};
ghost use Rattle.hibitset_base.specs.declared.util.TheConstants.{LAYERS};

use crate::bulk::fold::fold_walk;
use crate::iter::{BitIter, descend};
use crate::like::BitSetLike;
use crate::read_count::Reads;
use crate::util::{Index, LAYERS};
use std::fmt::Debug;

mod cost;
mod fill;
mod par_iter;
mod run;
mod workers;

pub use self::par_iter::BitParIter;

/// A part of a walk over a set, which can be split: `BitProducer` of the original. Its number is that of the layers,
/// from the top one on, that a split looks at; 0 acts as 1.
#[derive(Debug, Drop)]
pub struct BitProducer<'a, T: 'a + Send + Sync>(pub BitIter<&'a T>, pub u8);

// Looks at one layer of a walk whose bits all lie there or in one layer below: cuts its bits in halves, of which the
// answer has the second, or reads the word under its one bit.
fn look_at<'a, T: BitSetLike>(walk: &mut BitIter<&'a T>, layer: usize) -> Option<BitIter<&'a T>>
    requires layer { layer < LAYERS }
    requires above { 0 < layer }
    requires one { IsOneBelow walk.old.cursor (layer + 1) }
    ensures set { set_of walk.new ≡ set_of walk.old }
    ensures reads_max { words_read walk.new ≤ words_read walk.old + 1 }
    ensures other { IfSome result (λ other. (set_of other ≡ set_of walk.old)
        × (words_read other ≡ 0)) }
    ensures one_mask { IfSome result (λ other. HasOneMask LAYERS (masks_left walk.new)
        × HasOneMask LAYERS (masks_left other)) }
    ensures parts { MatchOption result
        (IsUndivided (λ s. T.holds s.now) (λ s. T.word s.now) layer walk.old walk.new)
        (IsDivided (λ s. T.holds s.now) (λ s. T.word s.now) layer walk.old walk.new) }
{
    if walk.cursor.is_empty(layer) {
        return None;
    }
    let Some(cursor) = walk.cursor.halve(layer) else {
        descend(walk.set, &mut walk.cursor, &mut walk.reads, layer);
        return None;
    };
    Some(BitIter {
        set: walk.set,
        cursor,
        reads: Reads::none(),
    })
}

// Looks at so many layers from the top one on, until one is cut in halves. The answer has the second half.
fn divide<'a, T: BitSetLike>(walk: &mut BitIter<&'a T>, looks: usize) -> Option<BitIter<&'a T>>
    requires looks { looks < LAYERS }
    requires one { IsOneBelow walk.old.cursor LAYERS }
    ensures set { set_of walk.new ≡ set_of walk.old }
    ensures reads_max { words_read walk.new ≤ words_read walk.old + looks }
    ensures other { IfSome result (λ other. (set_of other ≡ set_of walk.old)
        × (words_read other ≡ 0)) }
    ensures one_mask { IfSome result (λ other. HasOneMask LAYERS (masks_left walk.new)
        × HasOneMask LAYERS (masks_left other)) }
    ensures parts { MatchOption result
        (IsUndivided (λ s. T.holds s.now) (λ s. T.word s.now) (LAYERS - looks) walk.old walk.new)
        (IsDivided (λ s. T.holds s.now) (λ s. T.word s.now) (LAYERS - looks) walk.old walk.new) }
    ensures nonempty { SummariesExact LAYERS (T.word (set_of walk.old).now)
        → AreWords (T.word (set_of walk.old).now) → BitsAreFromSet (λ s. T.word s.now) walk.old
        → IfSome result (λ other. (0 < length (items_left (λ s. T.holds s.now) walk.new))
        × (0 < length (items_left (λ s. T.holds s.now) other))) }
{
    'looks: for look in 0..looks {
        if let Some(other) = look_at(walk, LAYERS - 1 - look) {
            return Some(other);
        }
    }
    None
}

impl<'a, T: BitSetLike + Send + Sync> BitProducer<'a, T> {
    /// Splits the work in two, the lower items and the higher ones. The number of layers to look at is at most 4.
    ///
    /// - If more than one mask has bits, it returns the producer unchanged, and `None`.
    /// - Else it goes down from the top layer under single bits, and cuts the first layer with two bits or more at its
    ///   halving bit. Both parts then have as many bits left to visit, or the first one more.
    /// - So it may return `None` and still have gone down. How many items lie under each half is in no clause.
    pub fn split(self) -> (Self, Option<Self>)
        requires { self.1 < LAYERS }
        ensures items { part_items T.holds self.entry
            ≡ part_items T.holds result.0 ++ items_of_second T.holds result.1 }
        ensures more_masks { ¬ PartHasOneMask LAYERS self.entry
            → (result.0 ≡ self.entry) × (result.1 ≡ None) }
        ensures indivisible { PartHasOneMask LAYERS self.entry → result.1 ≡ None
            → LieInOneRange (range_size LAYERS self.entry.1) (part_items T.holds self.entry) }
        ensures apart { IfSome result.1 (λ other. ShareNoRange (range_size LAYERS self.entry.1)
            (part_items T.holds result.0) (part_items T.holds other)) }
        ensures balanced { IfSome result.1 (DifferByAtMostOne result.0) }
        ensures nonempty { SummariesExact LAYERS (T.word (part_set self.entry))
            → AreWords (T.word (part_set self.entry)) → PartBitsAreFromSet T.word self.entry
            → IfSome result.1 (λ other. (0 < length (part_items T.holds result.0))
            × (0 < length (part_items T.holds other))) }
        ensures same { SameSetAndLayers self.entry result.0
            × IfSome result.1 (SameSetAndLayers self.entry) }
        ensures from_set { PartBitsAreFromSet T.word self.entry
            → PartBitsAreFromSet T.word result.0 × IfSome result.1 (PartBitsAreFromSet T.word) }
        ensures one_mask { PartHasOneMask LAYERS self.entry
            → PartHasOneMask LAYERS result.0 × IfSome result.1 (PartHasOneMask LAYERS) }
        ensures read { SplitReads T.word (max self.entry.1 1) self.entry result.0 result.1
            × IfSome result.1 (λ other. part_reads other ≡ 0) }
    {
        let BitProducer(mut walk, layers) = self;
        if !walk.cursor.has_one_mask() {
            return (BitProducer(walk, layers), None);
        }
        match divide(&mut walk, layers.max(1) as usize) {
            None => (BitProducer(walk, layers), None),
            Some(other) => (BitProducer(walk, layers), Some(BitProducer(other, layers))),
        }
    }
}

impl<'a, T: BitSetLike + Send + Sync> BitProducer<'a, T> {
    /// The items folded in order.
    pub fn fold_with<R, F: Fn(R, Index) -> R>(self, init: R, step: F) -> R
        requires { F.IsAlwaysCallable step }
        ensures { FoldsTo (λ a x b. F.post step a x b) init (part_items T.holds self.entry) result }
    {
        fold_walk(self.0, init, &step)
    }
}
