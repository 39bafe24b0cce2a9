//! What the containers of a stream are read into.

ghost use Rattle.std.specs.Prelude.{◌≡◌, ℕ, ◌+◌, ◌*◌, ◌<◌, ◌≤◌, Bool, false, length, IfOk, IfErr, OnOk};
ghost use Rattle.hibitset.specs.WordBits.{stands_in};
ghost use Rattle.hibitset_sparse.specs.SparseBitSet.{has};
ghost use Rattle.hibitset_roaring.specs.Format.{key_of, container_at, IsContainer};
ghost use Rattle.hibitset_roaring.specs.Faults.{IsReason};
ghost use Rattle.hibitset_roaring.specs.Headers.{IsHeader};
ghost use Rattle.hibitset_roaring.specs.Sinks.{AddsContainer};
ghost use Rattle.hibitset_roaring.specs.declared.header.TheConstants.{KEYS};

use crate::decode_container::read_container;
use crate::error::ReadError;
use crate::header::{Header, KEYS};
use crate::layout::CONTAINER_WORDS;
use hibitset_sparse::SparseBitSet;
use std::alloc::{AllocError, Global};

/// What takes the members of a stream, container by container.
pub(crate) trait ContainerSink: Drop {
    // Holds of the numbers that were taken.
    ghost holds: { Self → ℕ → Bool };

    // How many words of layer 0 it keeps up to the last container, those that are 0 too.
    ghost words_len: { Self → ℕ };

    /// Adds the members of a container, whose key lies above those before it.
    fn take_container(
        &mut self,
        bytes: &[u8],
        header: &Header,
        k: usize,
        at: usize,
    ) -> Result<(), ReadError>
        requires header { IsHeader bytes.now header.now }
        requires which { k < header.now.count }
        requires at { at ≡ container_at bytes.now k }
        requires within { container_at bytes.now (k + 1) ≤ length bytes.now }
        requires key { key_of bytes.now k < KEYS }
        requires order { words_len self.old ≤ 1024 * key_of bytes.now k }
        ensures container { OnOk result (IsContainer bytes.now k) }
        ensures length { OnOk result (words_len self.new ≤ 1024 * (key_of bytes.now k + 1)) }
        ensures members { OnOk result (AddsContainer bytes.now k (holds self.old)
            (holds self.new)) }
        ensures reason { IfErr result (λ error. (end : ℕ) → IsReason bytes.now end error) };
}

/// All words of layer 0, up to those of the last container.
impl ContainerSink for Vec<usize> {
    ghost holds = { λ words. stands_in words.items };

    ghost words_len = { λ words. length words.items };

    #[inline]
    fn take_container(
        &mut self,
        bytes: &[u8],
        header: &Header,
        k: usize,
        at: usize,
    ) -> Result<(), ReadError> {
        let key = header.key(bytes, k);
        read_container(bytes, header, k, at, self, key)
    }
}

/// A sparse set, and a buffer for the words of one container.
#[derive(Drop)]
pub(crate) struct SparseSink {
    pub(crate) set: SparseBitSet,
    words: Vec<usize>,
}

impl SparseSink {
    /// An empty set, with a buffer for the words of a container.
    pub(crate) fn new(alloc: Global) -> Result<SparseSink, AllocError>
        ensures { IfOk result (λ sink. (i : ℕ) → has sink.set i ≡ false) }
    {
        let set = SparseBitSet::new(alloc);
        let words = Vec::with_capacity(alloc, CONTAINER_WORDS)?;
        Ok(SparseSink { set, words })
    }

    /// The set.
    pub(crate) fn into_set(self) -> SparseBitSet
        ensures { result ≡ self.set }
    {
        let SparseSink { set, words: _words } = self;
        set
    }
}

impl ContainerSink for SparseSink {
    ghost holds = { λ sink. has sink.set };

    ghost words_len = { λ sink. 0 };

    fn take_container(
        &mut self,
        bytes: &[u8],
        header: &Header,
        k: usize,
        at: usize,
    ) -> Result<(), ReadError> {
        let key = header.key(bytes, k);
        self.words.clear();
        read_container(bytes, header, k, at, &mut self.words, 0)?;
        self.set.add_words(CONTAINER_WORDS * key, &self.words)?;
        Ok(())
    }
}
