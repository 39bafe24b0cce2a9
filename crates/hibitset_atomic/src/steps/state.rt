//! What a world keeps.
ghost use Rattle.std.specs.Prelude.{reverse};
ghost use Rattle.hibitset_atomic.specs.AtomicBitSet.{has};
ghost use Rattle.hibitset_atomic.specs.Layers.{layer_word};
ghost use Rattle.hibitset_atomic.specs.CoreState.{IsOfPast};
ghost use Rattle.hibitset_atomic.specs.declared.layers.TheConstants.{ATOMIC_LAYERS};

use crate::atomic::AtomicBitSet;
use crate::layers::{ATOMIC_LAYERS, Layers};
use crate::steps::calls::Calls;
use crate::steps::event::Event;
use crate::steps::walks::Walks;
use std::alloc::Global;
use std::snapshot::Snapshot;

/// A set to which calls add and which walks go over, in turns of one word each, with all that happened to it.
#[derive(Drop)]
pub struct World {
    pub(crate) alloc: Global,
    pub(crate) past: Vec<Event>,
    pub(crate) start: Snapshot<AtomicBitSet>,
    pub(crate) layers: Layers,
    pub(crate) calls: Calls,
    pub(crate) walks: Walks,
    ghost of_past: { IsOfPast ATOMIC_LAYERS (has start.value) (reverse past.items)
        (layer_word layers) calls walks },
}
