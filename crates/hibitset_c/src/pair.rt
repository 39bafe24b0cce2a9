//! Calls that read two sets.
#![tactic(auto)]

ghost use Rattle.std.specs.Prelude.{◌≡◌, ◌-◌, ◌↔◌, ◌||◌, ◌&&◌, not, IsTrue, length};
ghost use Rattle.hibitset_base.specs.Connectives.{AreDisjoint, IsSubset};
ghost use Rattle.hibitset_base.specs.Members.{members, members_below};
ghost use Rattle.hibitset_base.specs.Virtual.{differ};
ghost use Rattle.hibitset_base.specs.declared.util.TheConstants.{MAX_EID};
ghost use Rattle.hibitset_c.specs.Buffer.{Fills};
ghost use Rattle.hibitset_c.specs.LentSet.{has};

use crate::fill::fill;
use crate::lent_set::LentSet;
use hibitset::{BitSetAnd, BitSetLike, BitSetNot, BitSetOr, BitSetXor};

/// Returns whether the two have no member in common.
#[unsafe(no_mangle)]
pub extern "C" fn hibitset_is_disjoint(a: &LentSet<'_>, b: &LentSet<'_>) -> bool
    ensures { IsTrue result ↔ AreDisjoint MAX_EID (has a.now) (has b.now) }
{
    a.is_disjoint(b)
}

/// Returns whether each member of `a` is one of `b`.
#[unsafe(no_mangle)]
pub extern "C" fn hibitset_is_subset(a: &LentSet<'_>, b: &LentSet<'_>) -> bool
    ensures { IsTrue result ↔ IsSubset MAX_EID (has a.now) (has b.now) }
{
    a.is_subset(b)
}

/// Returns whether the two have the same members.
#[unsafe(no_mangle)]
pub extern "C" fn hibitset_equals(a: &LentSet<'_>, b: &LentSet<'_>) -> bool
    ensures { IsTrue result ↔ (IsSubset MAX_EID (has a.now) (has b.now)
        × IsSubset MAX_EID (has b.now) (has a.now)) }
{
    a.layer0 == b.layer0 || a.is_subset(b) && b.is_subset(a)
}

/// Returns how many members both have.
#[unsafe(no_mangle)]
pub extern "C" fn hibitset_and_len(a: &LentSet<'_>, b: &LentSet<'_>) -> usize
    ensures { result ≡ length (members_below MAX_EID (λ i. has a.now i && has b.now i)) }
{
    BitSetAnd(*a, *b).len()
}

/// Returns how many members at least one of the two has.
#[unsafe(no_mangle)]
pub extern "C" fn hibitset_or_len(a: &LentSet<'_>, b: &LentSet<'_>) -> usize
    ensures { result ≡ length (members_below MAX_EID (λ i. has a.now i || has b.now i)) }
{
    BitSetOr(*a, *b).len()
}

/// Returns how many members one of the two has alone.
#[unsafe(no_mangle)]
pub extern "C" fn hibitset_xor_len(a: &LentSet<'_>, b: &LentSet<'_>) -> usize
    ensures { result ≡ length (members_below MAX_EID (λ i. differ (has a.now i) (has b.now i))) }
{
    BitSetXor(*a, *b).len()
}

/// Returns how many members `a` has that `b` lacks.
#[unsafe(no_mangle)]
pub extern "C" fn hibitset_andnot_len(a: &LentSet<'_>, b: &LentSet<'_>) -> usize
    ensures { result ≡ length (members_below MAX_EID (λ i. has a.now i && not (has b.now i))) }
{
    BitSetAnd(*a, BitSetNot(*b)).len()
}

/// Writes the members of both sets, from `start` on, into the buffer, as `hibitset_next_many` does.
#[unsafe(no_mangle)]
pub extern "C" fn hibitset_and_next_many(
    a: &LentSet<'_>,
    b: &LentSet<'_>,
    start: u32,
    buffer: &mut [u32],
) -> usize
    ensures { Fills (members (λ i. has a.now i && has b.now i) start (MAX_EID - start)) buffer.old
        result buffer.new }
{
    fill(BitSetAnd(*a, *b), start, buffer)
}

/// Writes the members of at least one of the two sets, from `start` on, into the buffer, as `hibitset_next_many` does.
#[unsafe(no_mangle)]
pub extern "C" fn hibitset_or_next_many(
    a: &LentSet<'_>,
    b: &LentSet<'_>,
    start: u32,
    buffer: &mut [u32],
) -> usize
    ensures { Fills (members (λ i. has a.now i || has b.now i) start (MAX_EID - start)) buffer.old
        result buffer.new }
{
    fill(BitSetOr(*a, *b), start, buffer)
}

/// Writes the members of one of the two sets alone, from `start` on, into the buffer, as `hibitset_next_many` does.
#[unsafe(no_mangle)]
pub extern "C" fn hibitset_xor_next_many(
    a: &LentSet<'_>,
    b: &LentSet<'_>,
    start: u32,
    buffer: &mut [u32],
) -> usize
    ensures { Fills (members (λ i. differ (has a.now i) (has b.now i)) start (MAX_EID - start))
        buffer.old result buffer.new }
{
    fill(BitSetXor(*a, *b), start, buffer)
}

/// Writes the members of `a` that `b` lacks, from `start` on, into the buffer, as `hibitset_next_many` does.
#[unsafe(no_mangle)]
pub extern "C" fn hibitset_andnot_next_many(
    a: &LentSet<'_>,
    b: &LentSet<'_>,
    start: u32,
    buffer: &mut [u32],
) -> usize
    ensures { Fills (members (λ i. has a.now i && not (has b.now i)) start (MAX_EID - start))
        buffer.old result buffer.new }
{
    fill(BitSetAnd(*a, BitSetNot(*b)), start, buffer)
}
