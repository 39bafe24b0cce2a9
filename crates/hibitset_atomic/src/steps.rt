//! The step core: additions and walks over one set that take turns in any order, one word each.
//!
//! A call that adds an index sets a bit in layer 0, then over it in layers 1, 2 and 3, one layer at a step. A walk
//! reads one word at a time. Between two steps or reads any other call or walk may go on, so a list of events is an
//! interleaving, and every interleaving is one.
//!
//! What a world answers is said of its past, the list of events that it accepted. What holds of every past is the
//! contract of [`world_laws`](crate::laws::world_laws).
ghost use Rattle.std.specs.Prelude.{◌≡◌, ℕ, true, false, Option, Some, None, cond, not, ◌==◌, ◌+◌, ◌-◌, ◌*◌, ◌/◌, ◌%◌, ◌^◌, ◌<◌, ◌≤◌, ◌↔◌, ◌||◌, ◌&&◌, IsTrue, [], ◌∷◌, ◌++◌, OnOk, OnErr, IfOk, IfErr, map, option_copied};
ghost use Rattle.hibitset_atomic.specs.declared.atomic.TheConstants.{ATOMIC_MAX_EID};
ghost use Rattle.hibitset_atomic.specs.LayerBits.{path_bit};

use crate::atomic::{ATOMIC_MAX_EID, AtomicBitSet};
use crate::layers::ATOMIC_LAYERS;
use crate::steps::calls::{Call, Calls};
use crate::steps::walks::Walks;
use hibitset_base::util::{Index, Row, SHIFT0, SHIFT1, SHIFT2, SHIFT3};
use std::alloc::Global;
use std::snapshot::Snapshot;

mod calls;
mod event;
mod state;
mod walks;

pub use event::{Event, Reply, StepError};
pub use state::World;

/// The four bits that an addition of an index sets, from the lowest layer up, each as its layer, the position of its
/// word in the layer, and the word that has this bit alone.
///
/// The index is below `ATOMIC_MAX_EID`. It does not allocate.
#[inline]
pub fn path(id: Index) -> [(usize, usize, usize); 4]
    requires { id < ATOMIC_MAX_EID }
    ensures { result ≡ map (path_bit id) (0 ∷ 1 ∷ 2 ∷ 3 ∷ []) }
{
    [
        (0, id.offset(SHIFT1), id.mask(SHIFT0)),
        (1, id.offset(SHIFT2), id.mask(SHIFT1)),
        (2, id.offset(SHIFT3), id.mask(SHIFT2)),
        (3, 0, id.mask(SHIFT3)),
    ]
}

// Where the bit of a layer over an index lies, by `path`: the position of its word, and its number in the word.
#[inline]
pub(crate) fn bit_over(id: Index, layer: usize) -> (usize, u32)
    requires id { id < ATOMIC_MAX_EID }
    requires layer { layer < ATOMIC_LAYERS }
    ensures word_index { result.0 ≡ id / 64 ^ layer / 64 }
    ensures bit { result.1 ≡ id / 64 ^ layer % 64 }
{
    let (_, place, mask) = path(id)[layer];
    (place, mask.trailing_zeros())
}

impl World {
    ghost use Rattle.hibitset_atomic.specs.AtomicBitSet.{has, word_of};
    ghost use Rattle.hibitset_base.specs.Words.{SummariesExactEverywhere};
    ghost use Rattle.hibitset_atomic.specs.Layers.{layer_word};
    ghost use Rattle.hibitset_atomic.specs.LayerBits.{layer_bit};
    ghost use Rattle.hibitset_atomic.specs.Replies.{reason};
    ghost use Rattle.hibitset_atomic.specs.Worlds.{old_of, past_of, items_of, is_written, refusal_of, AnswersTo, Outcome, IsResting, WholePathStands};

    /// A world of this set, in which nothing has happened: the set's members are the old indices, and no call or walk
    /// has begun.
    ///
    /// It does not allocate. `alloc` is for what the world keeps of its history, its calls and its walks.
    pub fn new(alloc: Global, set: AtomicBitSet) -> World
        ensures old { old_of result ≡ has set }
        ensures no_history { past_of result ≡ [] }
    {
        World {
            alloc,
            past: Vec::new(alloc),
            start: Snapshot::of(&set),
            layers: set.into_layers(),
            calls: Calls::new(alloc),
            walks: Walks::new(alloc),
        }
    }

    /// Makes one event happen, and returns its reply. The event is appended to the history, and the old set stays.
    ///
    /// - `Begin` touches no word and returns `Begun`.
    /// - `Step` sets the bit of the call's next layer, from the lowest up. The first returns `First`, with whether the
    ///   index was old or written before, and the next three return `Path` with the number of layers that the call has
    ///   still to pass.
    /// - `Open` reads no word and returns `Opened`.
    /// - `Read` reads one word: first that of layer 3, then always the one under the first bit in the lowest layer,
    ///   among the bits above layer 0 that the walk has read and not gone under. The bits of a word of layer 0 become
    ///   items. It returns `Word` with the word, and whether no bit is left to go under.
    ///
    /// Numbers of calls and of walks are apart.
    ///
    /// # Errors
    ///
    /// In this order; after an error all is as it was.
    ///
    /// - `Used`: the number of a `Begin` or an `Open` is taken.
    /// - `Unknown`: no call or walk has the number of a `Step` or a `Read`.
    /// - `Range`: the index of a `Begin` is not below `ATOMIC_MAX_EID`.
    /// - `Ended`: the call has passed all four layers, or nothing is left to read.
    /// - `Memory`: an allocation failed.
    pub fn apply(&mut self, event: Event) -> Result<Reply, StepError>
        ensures appended { OnOk result (past_of self.new ≡ event ∷ past_of self.old) }
        ensures accepted { OnOk result (refusal_of self.old event ≡ None) }
        ensures answer { IfOk result (λ reply. AnswersTo self.old event reply) }
        ensures unchanged { OnErr result (past_of self.new ≡ past_of self.old) }
        ensures err { IfErr result (λ error. refusal_of self.old event ≡ reason error) }
        ensures old { old_of self.new ≡ old_of self.old }
    {
        match event {
            Event::Begin { call, id } => self.begin(call, id),
            Event::Step { call } => self.apply_step(call),
            Event::Open { walk } => self.open(walk),
            Event::Read { walk } => self.read(walk),
        }
    }

    // A call begins.
    fn begin(&mut self, call: u32, id: Index) -> Result<Reply, StepError>
        ensures outcome { Outcome self.old self.new (Event.Begin call id) result }
        ensures old { old_of self.new ≡ old_of self.old }
    {
        if self.calls.get(call).is_some() {
            return Err(StepError::Used);
        }
        if id as usize >= ATOMIC_MAX_EID {
            return Err(StepError::Range);
        }
        if self.past.reserve(1).is_err() {
            return Err(StepError::Memory);
        }
        let begun = Call {
            index: id,
            passed: 0,
        };
        if self.calls.put(call, begun).is_err() {
            return Err(StepError::Memory);
        }
        self.past.push_reserved(Event::Begin { call, id });
        Ok(Reply::Begun)
    }

    // A call passes its next layer.
    fn apply_step(&mut self, number: u32) -> Result<Reply, StepError>
        ensures outcome { Outcome self.old self.new (Event.Step number) result }
        ensures old { old_of self.new ≡ old_of self.old }
    {
        let Some(call) = self.calls.get(number) else {
            return Err(StepError::Unknown);
        };
        if call.passed == 4 {
            return Err(StepError::Ended);
        }
        if self.past.reserve(1).is_err() {
            return Err(StepError::Memory);
        }
        let (place, bit) = bit_over(call.index, call.passed as usize);
        let Ok(before) = self.layers.fetch_or(call.passed as usize, place, bit) else {
            return Err(StepError::Memory);
        };
        let later = Call {
            index: call.index,
            passed: call.passed + 1,
        };
        self.calls.set(number, later);
        self.past.push_reserved(Event::Step { call: number });
        if call.passed == 0 {
            return Ok(Reply::First {
                there: (before >> bit) & 1 == 1,
            });
        }
        Ok(Reply::Path {
            left: 3 - call.passed as u8,
        })
    }

    // A walk begins.
    fn open(&mut self, walk: u32) -> Result<Reply, StepError>
        ensures outcome { Outcome self.old self.new (Event.Open walk) result }
        ensures old { old_of self.new ≡ old_of self.old }
    {
        if self.walks.is_done(walk).is_some() {
            return Err(StepError::Used);
        }
        if self.past.reserve(1).is_err() {
            return Err(StepError::Memory);
        }
        if self.walks.open(self.alloc, walk).is_err() {
            return Err(StepError::Memory);
        }
        self.past.push_reserved(Event::Open { walk });
        Ok(Reply::Opened)
    }

    // A walk reads its next word.
    fn read(&mut self, walk: u32) -> Result<Reply, StepError>
        ensures outcome { Outcome self.old self.new (Event.Read walk) result }
        ensures old { old_of self.new ≡ old_of self.old }
    {
        let Some(done) = self.walks.is_done(walk) else {
            return Err(StepError::Unknown);
        };
        if done {
            return Err(StepError::Ended);
        }
        if self.past.reserve(1).is_err() {
            return Err(StepError::Memory);
        }
        let Ok((word, ended)) = self.walks.read(walk, &self.layers) else {
            return Err(StepError::Memory);
        };
        self.past.push_reserved(Event::Read { walk });
        Ok(Reply::Word { word, ended })
    }

    /// The items of a walk so far, ascending, or `None` if no walk has the number. It does not allocate.
    pub fn items(&self, walk: u32) -> Option<&[Index]>
        ensures { option_copied result ≡ items_of self.now walk }
    {
        self.walks.items(walk)
    }

    /// Returns whether the world is quiescent: every call that began has ended, by its fourth step. It does not
    /// allocate.
    pub fn is_at_rest(&self) -> bool
        ensures { IsTrue result ↔ IsResting self.now }
    {
        self.calls.all_passed(4)
    }

    /// Takes the set out of a quiescent world (`is_at_rest`): its members are the old indices and those that were
    /// written, and its summaries are exact. It does not allocate.
    pub fn settle(self) -> AtomicBitSet
        requires { IsResting self }
        ensures members { (i : ℕ) → has result i ≡ (old_of self i || is_written self i) }
        ensures exact { SummariesExactEverywhere ATOMIC_LAYERS (word_of result) }
    {
        AtomicBitSet::from_layers(self.layers)
    }

    // Returns whether the bit of a layer over an index is set.
    fn bit(&self, id: Index, layer: usize) -> bool
        requires id { id < ATOMIC_MAX_EID }
        requires layer { layer < ATOMIC_LAYERS }
        ensures { result ≡ layer_bit (layer_word self.now.layers) layer (id / 64 ^ layer) }
    {
        let (place, bit) = bit_over(id, layer);
        (self.layers.word(layer, place) >> bit) & 1 == 1
    }

    /// Returns whether the whole path of an index is set: in each of the four layers the bit that `path` returns. So it
    /// is once an addition of the index has ended, and it may be before that, by other calls.
    ///
    /// The index is below `ATOMIC_MAX_EID`. It is no event, and does not allocate.
    pub fn stands(&self, id: Index) -> bool
        requires { id < ATOMIC_MAX_EID }
        ensures { IsTrue result ↔ WholePathStands self.now id }
    {
        if !self.bit(id, 0) {
            return false;
        }
        if !self.bit(id, 1) {
            return false;
        }
        if !self.bit(id, 2) {
            return false;
        }
        self.bit(id, 3)
    }
}
