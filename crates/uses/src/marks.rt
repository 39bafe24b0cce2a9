//! Marks that few rows of a table have: a sparse set beside a dense one.
ghost use Rattle.std.specs.Prelude.{◌≡◌, ℕ, ◌+◌, ◌*◌, ◌≤◌, ◌&&◌, not, length, IfOk};
ghost use Rattle.hibitset.specs.Prelude.{members_below, items_left, MAX_EID, has};
ghost use Rattle.hibitset_sparse.specs.SparseBitSet.{has as is_marked};
ghost use Rattle.uses.specs.Marks.{is_marked_row, reads_of_both};

use hibitset::{BitIter, BitSet, BitSetAnd, BitSetLike, Index};
use hibitset_sparse::SparseBitSet;
use hibitset_sparse::laws::sparse_laws;
use std::alloc::{AllocError, Global};

/// The rows that are not marked, ascending.
pub fn unmarked(
    alloc: Global,
    rows: &BitSet,
    marks: &SparseBitSet,
) -> Result<Vec<Index>, AllocError>
    ensures { IfOk result (λ list. list.items
        ≡ members_below MAX_EID (λ i. has rows.now i && not (is_marked marks.now i))) }
{
    (rows - marks).to_vec(alloc)
}

/// A walk over the rows that are marked. However far it goes, it reads at most four words of each set for each mark,
/// and one.
pub fn marked<'a>(
    rows: &'a BitSet,
    marks: &'a SparseBitSet,
) -> BitIter<BitSetAnd<&'a SparseBitSet, &'a BitSet>>
    ensures items { items_left is_marked_row result
        ≡ members_below MAX_EID (λ i. is_marked marks.now i && has rows.now i) }
    ensures reads_max { reads_of_both result
        ≤ 4 * length (members_below MAX_EID (is_marked marks.now)) + 1 }
{
    sparse_laws();
    (marks & rows).into_iter()
}
