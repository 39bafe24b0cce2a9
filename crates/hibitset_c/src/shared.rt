//! A shared set, as one of its seats keeps it.
#![tactic(auto)]

use hibitset::SharedBitSet;
use std::alloc::Global;
use std::sync::Arc;

/// A shared set. It has a block of its own once a second seat was made.
#[derive(Drop)]
pub enum Shared {
    Sole(SharedBitSet),
    Common(Arc<SharedBitSet, Global>),
}

impl Shared {
    ghost use Rattle.std.specs.Prelude.{◌≡◌, IfOk, IfErr};
    ghost use Rattle.hibitset_c.specs.Shared.{set_of};

    // The set itself.
    #[inline]
    pub(crate) fn as_set(&self) -> &SharedBitSet
        ensures { result.now ≡ set_of self.now }
    {
        match self {
            Shared::Sole(set) => set,
            Shared::Common(set) => set,
        }
    }

    // Makes a second owner of the set. If an allocation fails, there is still one.
    pub(crate) fn two(self, alloc: Global) -> Result<(Shared, Shared), Shared>
        ensures both { IfOk result (λ r. (set_of r.0 ≡ set_of self) × (set_of r.1 ≡ set_of self)) }
        ensures one { IfErr result (λ set. set_of set ≡ set_of self) }
    {
        let set = match self {
            Shared::Sole(set) => match Arc::new(alloc, set) {
                Ok(set) => set,
                Err(failed) => return Err(Shared::Sole(failed.value)),
            },
            Shared::Common(set) => set,
        };
        match Arc::try_clone(&set) {
            Ok(other) => Ok((Shared::Common(set), Shared::Common(other))),
            Err(_) => Err(Shared::Common(set)),
        }
    }

    // The set, if this is its only owner.
    pub(crate) fn into_set(self) -> Result<SharedBitSet, Shared>
        ensures only { IfOk result (λ set. set ≡ set_of self) }
        ensures one_of_several { IfErr result (λ set. set_of set ≡ set_of self) }
    {
        match self {
            Shared::Sole(set) => Ok(set),
            Shared::Common(set) => Arc::try_unwrap(set).map_err(Shared::Common),
        }
    }
}
