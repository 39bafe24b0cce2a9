//! Calls that make a set of two others.
#![tactic(auto)]

ghost use Rattle.std.specs.Prelude.{◌≡◌, ◌≢◌, ◌⊎◌, ℕ, ◌≤◌};
ghost use Rattle.hibitset_base.specs.Connectives.{is_member, IsDifference, IsSymmetricDifference, IsIntersection, IsUnion};
ghost use Rattle.hibitset.specs.Extension.{MembersEndBy};
ghost use Rattle.hibitset.specs.Merge.{NoWordsFrom};
ghost use Rattle.hibitset_c.specs.LentSet.{has as other_has};
ghost use Rattle.hibitset_c.specs.Set.{has, layer0_len};
ghost use Rattle.hibitset_c.specs.declared.status.TheConstants.{OK, NO_MEMORY};

use crate::lent_set::{LentSet, are_words};
use crate::set::Set;
use crate::status::{NO_MEMORY, OK};
use hibitset::{BitSet, BitSetAnd, BitSetLike, BitSetNot, BitSetOr, BitSetXor};
use std::alloc::Global;

// Makes `out` a set of the members of any other.
#[inline]
pub(crate) fn make_of<B: BitSetLike>(alloc: Global, out: &mut Set, other: B) -> u32
    ensures members { result ≡ OK → (i : ℕ) → has out.new i ≡ is_member (B.holds other) i }
    ensures err { result ≢ OK → (i : ℕ) → has out.new i ≡ has out.old i }
    ensures status { (result ≡ OK) ⊎ (result ≡ NO_MEMORY) }
    ensures len_max { result ≡ OK → (end : ℕ) → NoWordsFrom (B.word other) end
        → layer0_len out.new ≤ end }
    ensures err_len { result ≢ OK → layer0_len out.new ≡ layer0_len out.old }
{
    let mut made = BitSet::new(alloc);
    let Ok(()) = made.bitor_assign(&other) else {
        return NO_MEMORY;
    };
    if out.replace(alloc, made) {
        OK
    } else {
        NO_MEMORY
    }
}

/// Makes `out` the set of the indices that both sets have.
#[unsafe(no_mangle)]
pub extern "C" fn hibitset_and(
    alloc: Global,
    a: &LentSet<'_>,
    b: &LentSet<'_>,
    out: &mut Set,
) -> u32
    ensures members { result ≡ OK → IsIntersection (other_has a.now) (other_has b.now)
        (has out.new) }
    ensures err { result ≢ OK → (i : ℕ) → has out.new i ≡ has out.old i }
    ensures status { (result ≡ OK) ⊎ (result ≡ NO_MEMORY) }
    ensures len_max { result ≡ OK → (end : ℕ) → MembersEndBy (has out.new) end
        → layer0_len out.new ≤ end }
    ensures err_len { result ≢ OK → layer0_len out.new ≡ layer0_len out.old }
{
    are_words(a.layer0);
    are_words(b.layer0);
    make_of(alloc, out, BitSetAnd(*a, *b))
}

/// Makes `out` the set of the indices that at least one of the two sets has.
#[unsafe(no_mangle)]
pub extern "C" fn hibitset_or(alloc: Global, a: &LentSet<'_>, b: &LentSet<'_>, out: &mut Set) -> u32
    ensures members { result ≡ OK → IsUnion (other_has a.now) (other_has b.now) (has out.new) }
    ensures err { result ≢ OK → (i : ℕ) → has out.new i ≡ has out.old i }
    ensures status { (result ≡ OK) ⊎ (result ≡ NO_MEMORY) }
    ensures len_max { result ≡ OK → (end : ℕ) → MembersEndBy (has out.new) end
        → layer0_len out.new ≤ end }
    ensures err_len { result ≢ OK → layer0_len out.new ≡ layer0_len out.old }
{
    are_words(a.layer0);
    are_words(b.layer0);
    make_of(alloc, out, BitSetOr(*a, *b))
}

/// Makes `out` the set of the indices that one of the two sets has alone.
#[unsafe(no_mangle)]
pub extern "C" fn hibitset_xor(
    alloc: Global,
    a: &LentSet<'_>,
    b: &LentSet<'_>,
    out: &mut Set,
) -> u32
    ensures members { result ≡ OK → IsSymmetricDifference (other_has a.now) (other_has b.now)
        (has out.new) }
    ensures err { result ≢ OK → (i : ℕ) → has out.new i ≡ has out.old i }
    ensures status { (result ≡ OK) ⊎ (result ≡ NO_MEMORY) }
    ensures len_max { result ≡ OK → (end : ℕ) → MembersEndBy (has out.new) end
        → layer0_len out.new ≤ end }
    ensures err_len { result ≢ OK → layer0_len out.new ≡ layer0_len out.old }
{
    are_words(a.layer0);
    are_words(b.layer0);
    make_of(alloc, out, BitSetXor(*a, *b))
}

/// Makes `out` the set of the indices that `a` has and `b` lacks.
#[unsafe(no_mangle)]
pub extern "C" fn hibitset_andnot(
    alloc: Global,
    a: &LentSet<'_>,
    b: &LentSet<'_>,
    out: &mut Set,
) -> u32
    ensures members { result ≡ OK → IsDifference (other_has a.now) (other_has b.now)
        (has out.new) }
    ensures err { result ≢ OK → (i : ℕ) → has out.new i ≡ has out.old i }
    ensures status { (result ≡ OK) ⊎ (result ≡ NO_MEMORY) }
    ensures len_max { result ≡ OK → (end : ℕ) → MembersEndBy (has out.new) end
        → layer0_len out.new ≤ end }
    ensures err_len { result ≢ OK → layer0_len out.new ≡ layer0_len out.old }
{
    are_words(a.layer0);
    are_words(b.layer0);
    make_of(alloc, out, BitSetAnd(*a, BitSetNot(*b)))
}
