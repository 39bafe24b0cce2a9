//! How two sets are put together, a word at a time.
ghost use Rattle.std.specs.Prelude.{◌≡◌, ℕ, ◌<◌, ◌==◌, ◌||◌, ◌&&◌, not, Bool, bit_and, bit_or, bit_xor, refl};
ghost use Rattle.std.specs.Int.{bit_at};
ghost use Rattle.hibitset_base.specs.Sets.{bit_of};
ghost use Rattle.hibitset_base.specs.Virtual.{differ};
ghost use Rattle.hibitset.specs.Operators.{and_bits, and_keeps, or_bits, or_keeps, xor_bits, xor_keeps, without, without_bits, without_keeps};

// An operator on two sets, by its words.
pub(crate) trait Operator {
    // Whether an index is in the outcome, by whether it is in each set.
    ghost test: { Bool → Bool → Bool };

    // The word made of a word of each set.
    ghost merged: { ℕ → ℕ → ℕ };

    // The bits of two summary words under which a word may change.
    ghost visited: { ℕ → ℕ → ℕ };

    fn merge(ours: usize, theirs: usize) -> usize
        ensures { result ≡ merged ours theirs };

    fn visit(ours: usize, theirs: usize) -> usize
        ensures { result ≡ visited ours theirs };

    // Each bit of a word is the test of the two bits.
    ghost bits: { (x y i : ℕ) → bit_at (merged x y) i
        ≡ bit_of (test (bit_at x i == 1) (bit_at y i == 1)) };

    // No member is made of none.
    ghost none: { merged 0 0 ≡ 0 };

    // A word stays where it is not visited.
    ghost keeps: { (ours theirs b x y : ℕ) → bit_at (visited ours theirs) b ≡ 0
        → (0 < x → bit_at ours b ≡ 1) → (0 < y → bit_at theirs b ≡ 1) → merged x y ≡ x };
}

// The indices of both sets.
pub(crate) struct And;

impl Operator for And {
    ghost test = { λ a b. a && b };

    ghost merged = { bit_and };

    ghost visited = { λ ours theirs. ours };

    ghost bits = { and_bits };

    ghost none = { refl };

    ghost keeps = { and_keeps };

    #[inline]
    fn merge(ours: usize, theirs: usize) -> usize {
        ours & theirs
    }

    #[inline]
    fn visit(ours: usize, _theirs: usize) -> usize {
        ours
    }
}

// The indices of either set.
pub(crate) struct Or;

impl Operator for Or {
    ghost test = { λ a b. a || b };

    ghost merged = { bit_or };

    ghost visited = { λ ours theirs. theirs };

    ghost bits = { or_bits };

    ghost none = { refl };

    ghost keeps = { or_keeps };

    #[inline]
    fn merge(ours: usize, theirs: usize) -> usize {
        ours | theirs
    }

    #[inline]
    fn visit(_ours: usize, theirs: usize) -> usize {
        theirs
    }
}

// The indices of one set alone.
pub(crate) struct Xor;

impl Operator for Xor {
    ghost test = { differ };

    ghost merged = { bit_xor };

    ghost visited = { λ ours theirs. theirs };

    ghost bits = { xor_bits };

    ghost none = { refl };

    ghost keeps = { xor_keeps };

    #[inline]
    fn merge(ours: usize, theirs: usize) -> usize {
        ours ^ theirs
    }

    #[inline]
    fn visit(_ours: usize, theirs: usize) -> usize {
        theirs
    }
}

// The indices of one set that the other lacks.
pub(crate) struct Difference;

impl Operator for Difference {
    ghost test = { λ a b. a && not b };

    ghost merged = { without };

    ghost visited = { bit_and };

    ghost bits = { without_bits };

    ghost none = { refl };

    ghost keeps = { without_keeps };

    #[inline]
    fn merge(ours: usize, theirs: usize) -> usize {
        ours ^ (ours & theirs)
    }

    #[inline]
    fn visit(ours: usize, theirs: usize) -> usize {
        ours & theirs
    }
}
