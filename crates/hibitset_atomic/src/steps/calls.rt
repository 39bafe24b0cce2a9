//! The calls of a world, by their numbers.
ghost use Rattle.std.specs.Prelude.{◌≡◌, ℕ, true, Option, Some, None, cond, ◌==◌, IsTrue, ◌↔◌, IsSome, IsOk, OnOk, OnErr};
ghost use Rattle.std.specs.List.{All};
ghost use Rattle.std.specs.BTreeMap.{values, IsOrdered};
ghost use Rattle.std.specs.Ordering.{nat_cmp};

use hibitset_base::util::Index;
use std::alloc::{AllocError, Global};
use std::collections::BTreeMap;

/// A call that adds an index, and how many layers it has passed.
#[derive(Clone, Copy)]
pub struct Call {
    pub index: Index,
    pub passed: u32,
}

/// Calls by their numbers.
#[derive(Drop)]
pub struct Calls {
    map: BTreeMap<u32, Call>,
}

impl Calls {
    ghost use Rattle.hibitset_atomic.specs.CoreState.{call_in};
    ghost use Rattle.hibitset_atomic.specs.declared.steps.calls.Call.{Call};

    /// No call has begun.
    pub(crate) fn new(alloc: Global) -> Calls
        ensures { (c : ℕ) → call_in result c ≡ None }
    {
        Calls {
            map: BTreeMap::new(alloc),
        }
    }

    /// The call of a number.
    pub(crate) fn get(&self, number: u32) -> Option<Call>
        ensures { result ≡ call_in self.now number }
    {
        self.map.get(&number).copied()
    }

    /// Puts a call under a number. It can't fail if a call has that number.
    pub(crate) fn put(&mut self, number: u32, call: Call) -> Result<(), AllocError>
        ensures put { OnOk result ((c : ℕ)
            → call_in self.new c ≡ cond (number == c) (Some call) (call_in self.old c)) }
        ensures err { OnErr result ((c : ℕ) → call_in self.new c ≡ call_in self.old c) }
        ensures succeeds_made { IsSome (call_in self.old number) → IsOk result }
    {
        match self.map.insert(number, call) {
            Ok(_) => Ok(()),
            Err(_) => Err(AllocError),
        }
    }

    /// Replaces the call that has this number.
    pub(crate) fn set(&mut self, number: u32, call: Call)
        requires { IsSome (call_in self.old number) }
        ensures { (c : ℕ) → call_in self.new c
            ≡ cond (number == c) (Some call) (call_in self.old c) }
    {
        self.put(number, call).unwrap();
    }

    /// Returns whether every call has passed `layers` layers.
    pub(crate) fn all_passed(&self, layers: u32) -> bool
        ensures all { IsTrue result ↔ All (λ call. call.passed ≡ layers) (values self.now.map) }
        ensures ordered { IsOrdered nat_cmp self.now.map }
    {
        self.map.values().all(|call| call.passed == layers)
    }
}
