//! The walks of a world, by their numbers.
ghost use Rattle.std.specs.Prelude.{◌≡◌, ℕ, true, Option, Some, None, cond, ◌==◌, ◌*◌, ◌+◌, ◌-◌, ◌^◌, ◌≤◌, ◌<◌, ◌++◌, length, IsTrue, ◌↔◌, IsSome, IsOk, OnOk, OnErr, IfOk, [], ◌∷◌, MatchOption};
ghost use Rattle.std.specs.Vec.{vec_capacity};
ghost use Rattle.hibitset_base.specs.Cursor.{cursor_places};
ghost use Rattle.hibitset_base.specs.Places.{bits_from};
ghost use Rattle.hibitset_atomic.specs.Ahead.{AllAbove};

use crate::layers::{ATOMIC_LAYERS, Layers};
use hibitset_base::cursor::Cursor;
use hibitset_base::util::Index;
use std::alloc::{AllocError, Global};
use std::collections::BTreeMap;

/// A walk's items, and the places that it has still to read. A new walk has the top word to read, which no bit stands
/// for.
#[derive(Drop)]
pub(crate) struct Progress {
    pub(crate) items: Vec<Index>,
    pub(crate) is_new: bool,
    pub(crate) cursor: Cursor<ATOMIC_LAYERS>,
    ghost above: { AllAbove (cursor_places cursor) },
}

// Appends the positions of the bits of a word, where bit 0 is at `start`.
fn push_bits(items: &mut Vec<Index>, word: usize, start: Index)
    requires start { start + 64 ≤ 2 ^ 32 }
    requires capacity { length items.old.items + 64 ≤ vec_capacity items.old }
    ensures { items.new.items ≡ items.old.items ++ bits_from start word }
{
    for bit in 0..64 {
        if (word >> bit) & 1 != 0 {
            items.push_reserved(start + bit);
        }
    }
}

impl Progress {
    ghost use Rattle.hibitset_atomic.specs.Layers.{layer_word};
    ghost use Rattle.hibitset_atomic.specs.LayerBits.{layer_bit};
    ghost use Rattle.hibitset_atomic.specs.History.{read_first, top_word};
    ghost use Rattle.hibitset_atomic.specs.CoreState.{left_of, FirstWord};

    /// Nothing is read.
    pub(crate) fn new(alloc: Global) -> Progress
        ensures items { result.items.items ≡ [] }
        ensures left { left_of result ≡ top_word ATOMIC_LAYERS ∷ [] }
    {
        Progress {
            items: Vec::new(alloc),
            is_new: true,
            cursor: Cursor::at_top(0),
        }
    }

    /// Returns whether no word is left.
    pub(crate) fn is_done(&self) -> bool
        ensures { IsTrue result ↔ (left_of self.now ≡ []) }
    {
        !self.is_new && self.cursor.is_done()
    }

    /// Reads the next word, and returns it, and whether none is left.
    pub(crate) fn read(&mut self, layers: &Layers) -> Result<(usize, bool), AllocError>
        ensures items { OnOk result (self.new.items.items
            ≡ (read_first (layer_bit (layer_word layers.now)) self.old.items.items 0
            (left_of self.old)).items) }
        ensures left { OnOk result (left_of self.new
            ≡ (read_first (layer_bit (layer_word layers.now)) self.old.items.items 0
            (left_of self.old)).left) }
        ensures word { IfOk result (λ r. FirstWord (layer_word layers.now) (left_of self.old) r.0) }
        ensures end { IfOk result (λ r. IsTrue r.1 ↔ (left_of self.new ≡ [])) }
        ensures err { OnErr result ((self.new.items.items ≡ self.old.items.items)
            × (left_of self.new ≡ left_of self.old)) }
    {
        self.items.reserve(64)?;
        if self.is_new {
            let word = layers.word(ATOMIC_LAYERS - 1, 0);
            self.cursor = Cursor::at_top(word);
            self.is_new = false;
            return Ok((word, self.cursor.is_done()));
        }
        let Some((layer, position)) = self.cursor.take_lowest() else {
            return Ok((0, true));
        };
        let word = layers.word(layer - 1, position as usize);
        if layer == 1 {
            push_bits(&mut self.items, word, position * 64);
            return Ok((word, self.cursor.is_done()));
        }
        self.cursor.push_bits(layer - 1, position, word);
        Ok((word, self.cursor.is_done()))
    }
}

/// Walks by their numbers.
#[derive(Drop)]
pub(crate) struct Walks {
    map: BTreeMap<u32, Progress>,
}

impl Walks {
    ghost use Rattle.hibitset_atomic.specs.Layers.{layer_word};
    ghost use Rattle.hibitset_atomic.specs.LayerBits.{layer_bit};
    ghost use Rattle.hibitset_atomic.specs.History.{top_word};
    ghost use Rattle.hibitset_atomic.specs.CoreState.{shown_in, read_shown, Told, Shown};

    /// No walk has begun.
    pub(crate) fn new(alloc: Global) -> Walks
        ensures { (w : ℕ) → shown_in result w ≡ None }
    {
        Walks {
            map: BTreeMap::new(alloc),
        }
    }

    /// Returns whether a walk has ended, or `None` if the number is unknown.
    pub(crate) fn is_done(&self, number: u32) -> Option<bool>
        ensures { MatchOption result (shown_in self.now number ≡ None)
            (λ done. (shown : Shown) × (shown_in self.now number ≡ Some shown)
            × (IsTrue done ↔ (shown.left ≡ []))) }
    {
        match self.map.get(&number) {
            None => None,
            Some(walk) => Some(walk.is_done()),
        }
    }

    /// The items of a walk so far.
    pub(crate) fn items(&self, number: u32) -> Option<&[Index]>
        ensures { MatchOption result (shown_in self.now number ≡ None)
            (λ items. (shown : Shown) × (shown_in self.now number ≡ Some shown)
            × (shown.items ≡ items.now)) }
    {
        match self.map.get(&number) {
            None => None,
            Some(walk) => Some(walk.items.as_slice()),
        }
    }

    /// Begins a walk.
    pub(crate) fn open(&mut self, alloc: Global, number: u32) -> Result<(), AllocError>
        requires { shown_in self.old number ≡ None }
        ensures opened { OnOk result ((w : ℕ)
            → shown_in self.new w ≡ cond (number == w)
            (Some (record { items = []; left = top_word ATOMIC_LAYERS ∷ [] }))
            (shown_in self.old w)) }
        ensures err { OnErr result ((w : ℕ) → shown_in self.new w ≡ shown_in self.old w) }
    {
        match self.map.insert(number, Progress::new(alloc)) {
            Ok(_) => Ok(()),
            Err(_) => Err(AllocError),
        }
    }

    /// A walk reads its next word.
    pub(crate) fn read(&mut self, number: u32, layers: &Layers) -> Result<(usize, bool), AllocError>
        ensures read { OnOk result ((w : ℕ)
            → shown_in self.new w ≡ cond (number == w)
            (read_shown (layer_bit (layer_word layers.now)) (shown_in self.old w))
            (shown_in self.old w)) }
        ensures answer { IfOk result (λ r. Told (layer_word layers.now) (shown_in self.old number)
            (shown_in self.new number) r.0 r.1) }
        ensures err { OnErr result ((w : ℕ) → shown_in self.new w ≡ shown_in self.old w) }
    {
        match self.map.get_mut(&number) {
            None => Ok((0, true)),
            Some(walk) => walk.read(layers),
        }
    }
}
