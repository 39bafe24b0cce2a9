//! The numbers by which C knows what is wrong with a stream.
#![tactic(auto)]

ghost use Rattle.std.specs.Prelude.{◌≡◌};
ghost use Rattle.hibitset_c.specs.Roaring.{number_of};

use hibitset_roaring::Fault;

/// The header, or a container, begins here and would end past the bytes.
pub const TOO_SHORT: u32 = 1;

/// The last container ends here, and bytes follow.
pub const TOO_LONG: u32 = 2;

/// The first number is neither of the two that a stream begins with.
pub const BAD_COOKIE: u32 = 3;

/// The header announces more than 65,536 containers.
pub const TOO_MANY_CONTAINERS: u32 = 4;

/// A key is not above the one before it.
pub const KEYS_NOT_ASCENDING: u32 = 5;

/// A key is not below the bound.
pub const KEY_OUT_OF_RANGE: u32 = 6;

/// An offset is not the position where its container begins.
pub const WRONG_OFFSET: u32 = 7;

/// A container has not as many members as the header says.
pub const WRONG_CARDINALITY: u32 = 8;

/// A number of an array is not above the one before it.
pub const NOT_ASCENDING: u32 = 9;

/// A run begins within the run before it, or right behind it.
pub const RUNS_NOT_APART: u32 = 10;

/// A run ends past the numbers of its container.
pub const RUN_PAST_END: u32 = 11;

// The number of a fault.
pub(crate) fn number(fault: Fault) -> u32
    ensures { result ≡ number_of fault }
{
    match fault {
        Fault::TooShort => TOO_SHORT,
        Fault::TooLong => TOO_LONG,
        Fault::BadCookie => BAD_COOKIE,
        Fault::TooManyContainers => TOO_MANY_CONTAINERS,
        Fault::KeysNotAscending => KEYS_NOT_ASCENDING,
        Fault::OutOfRange => KEY_OUT_OF_RANGE,
        Fault::WrongOffset => WRONG_OFFSET,
        Fault::WrongCardinality => WRONG_CARDINALITY,
        Fault::NotAscending => NOT_ASCENDING,
        Fault::RunsNotApart => RUNS_NOT_APART,
        Fault::RunPastEnd => RUN_PAST_END,
    }
}
