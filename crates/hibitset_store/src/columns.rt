//! Values by index, beside the set of the indices that have one.
#![tactic(auto, unfolding(crate::specs::Columns::value_of, crate::specs::Pages::IsPageTable, crate::specs::Capacity::slots, crate::specs::Capacity::table_len, crate::specs::Capacity::list_len, crate::specs::Capacity::words_len))]

ghost use Rattle.std.specs.Prelude.{◌≡◌, ℕ, ◌*◌, ◌/◌, ◌<◌, ◌≤◌, true, Some, None, ◌↔◌, IsTrue, length, IfOk, IfErr, IsOk, IsSome, OnOk, OnErr, MatchOption};
ghost use Rattle.std.specs.Borrow.{sem};
ghost use Rattle.std.specs.Option.{is_some, option_copied_mut};
ghost use Rattle.hibitset.specs.BitSet.{has, members_of, slice_len};
ghost use Rattle.hibitset_base.specs.declared.util.TheConstants.{MAX_EID};
ghost use Rattle.hibitset_store.specs.Pages.{Covers, IsPageTable, IsPageTable-prop};

use crate::pages::Pages;
use hibitset::{BitSet, BitSetLike, Index};
use std::alloc::Global;

/// A finite map from indices below `MAX_EID` to values, with the set of its keys.
///
/// Values lie in pages of 64 slots, and a page is made when one of its indices first gets a value. Each call on one
/// index looks at most at one word of the keys, one entry of the table of pages and one slot. Of values of four bytes
///
/// - a page takes 512 bytes, and the table four bytes for each 64 indices up to the highest key, beside the words of
///   the set of keys;
/// - keys that lie near each other cost little: those of the indices 0 to 99,999 take about 1 MB;
/// - keys that lie far apart cost most: 100,000 at random below 2^30 take some 250 MB.
///
/// There are at most four times as many slots as those of the pages made, and capacity for up to twice as many.
#[derive(Drop)]
pub struct Column<V: Drop> {
    mask: BitSet,
    pages: Pages<V>,
    count: usize,
    ghost covers: { Covers mask pages },
    ghost laid_out: { IsPageTable pages } by { IsPageTable-prop pages },
    ghost counts: { count ≡ length (members_of mask) },
}

impl<V: Drop> Column<V> {
    ghost use Rattle.hibitset_store.specs.Columns.{IsWith, keys_of, value_of};
    ghost use Rattle.hibitset_store.specs.ColumnLoan.{LendsValue};
    ghost use Rattle.hibitset_store.specs.Capacity.{HasRoom, KeepsRoom, MakesRoom, list_len, made_pages, slots, table_len, words_len};
    ghost use Rattle.hibitset_store.specs.declared.pages.TheConstants.{PAGE, MAX_SLOTS_PER_MADE_SLOT};

    /// The empty map, which does not allocate until the first `insert`.
    pub fn new(alloc: Global) -> Column<V>
        ensures empty { (i : ℕ) → value_of result i ≡ None }
        ensures pages { (p : ℕ) → slots result p ≡ 0 }
        ensures table { table_len result ≡ 0 }
        ensures list { list_len result ≡ 0 }
        ensures words { words_len result ≡ 0 }
    {
        Column {
            mask: BitSet::new(alloc),
            pages: Pages::new(alloc),
            count: 0,
        }
    }

    /// The set of the keys, all of which lie below `MAX_EID`.
    #[inline]
    pub fn mask(&self) -> &BitSet
        ensures keys { (i : ℕ) → has result.now i ≡ is_some (value_of self.now i) }
        ensures in_range { (i : ℕ) → MAX_EID ≤ i → value_of self.now i ≡ None }
        ensures words { slice_len result.now 0 ≡ words_len self.now }
    {
        &self.mask
    }

    /// How many keys there are.
    #[inline]
    pub fn len(&self) -> usize
        ensures { result ≡ length (keys_of (value_of self.now)) }
    {
        self.count
    }

    /// Returns whether there is no key.
    #[inline]
    pub fn is_empty(&self) -> bool
        ensures { IsTrue result ↔ ((i : ℕ) → value_of self.now i ≡ None) }
    {
        self.mask.is_empty()
    }

    /// The value of an index.
    #[inline]
    pub fn get(&self, id: Index) -> Option<&V>
        ensures { MatchOption result (value_of self.now id ≡ None)
            (λ value. value_of self.now id ≡ Some value.now) }
    {
        self.pages.get(id)
    }

    // The value of a key.
    #[inline]
    pub(crate) fn value(&self, id: Index) -> &V
        requires { is_some (value_of self.now id) ≡ true }
        ensures { value_of self.now id ≡ Some result.now }
    {
        self.pages.value(id)
    }

    /// The value of an index, to be changed. Once the loan ends, the index has the value that was left there, and no
    /// other has changed.
    #[inline]
    pub fn get_mut(&mut self, id: Index) -> Option<&mut V>
        ensures* writes_back { sem 𝓛 (LendsValue V.row self.entry id result) }
        ensures value { option_copied_mut result ≡ value_of self.old id }
    {
        self.pages.get_mut(id)
    }

    /// Gives an index below `MAX_EID` a value, and returns the value that it had.
    ///
    /// # Errors
    ///
    /// An allocation fails: it returns the new value, and no value has changed.
    ///
    /// # Cost
    ///
    /// - It does not allocate if the page of the index is made and the mask has its word, as it is for an index that
    ///   has a value, or had one before `remove`.
    /// - Else it makes that page, and the table of pages and the mask as long as the index needs and no longer.
    #[inline]
    pub fn insert(&mut self, id: Index, value: V) -> Result<Option<V>, V>
        requires { id < MAX_EID }
        ensures old_value { IfOk result (λ was. was ≡ value_of self.old id) }
        ensures inserted { OnOk result (IsWith (value_of self.old) id (Some value)
            (value_of self.new)) }
        ensures value_returned { IfErr result (λ back. back ≡ value) }
        ensures err { OnErr result ((i : ℕ) → value_of self.new i ≡ value_of self.old i) }
        ensures succeeds { IsSome (value_of self.old id) → IsOk result }
        ensures succeeds_with_room { HasRoom self.old id → IsOk result }
        ensures keeps_room { HasRoom self.old id → KeepsRoom self.old self.new }
        ensures keeps_room_at_value { IsSome (value_of self.old id) → KeepsRoom self.old self.new }
        ensures has_room { OnOk result (HasRoom self.new id) }
        ensures makes_room { MakesRoom id self.old self.new }
        ensures list { list_len self.new ≤ MAX_SLOTS_PER_MADE_SLOT * (PAGE * made_pages self.new) }
        ensures err_len { OnErr result (words_len self.new ≡ words_len self.old) }
    {
        if self.mask.contains(id) {
            return Ok(self.write_over(id, value));
        }
        self.insert_new(id, value)?;
        Ok(None)
    }

    // Gives a key another value, and gives back the one that it had. The column keeps its room.
    #[inline]
    fn write_over(&mut self, id: Index, value: V) -> Option<V>
        requires { is_some (value_of self.old id) ≡ true }
        ensures old_value { result ≡ value_of self.old id }
        ensures inserted { IsWith (value_of self.old) id (Some value) (value_of self.new) }
        ensures keeps_room { KeepsRoom self.old self.new }
    {
        let slot = self.pages.slot_of_key(id);
        self.pages.swap_value(slot, Some(value))
    }

    // Gives an index below `MAX_EID` its first value. Refused memory, it hands the value back, and no value has
    // changed.
    #[inline]
    fn insert_new(&mut self, id: Index, value: V) -> Result<(), V>
        requires in_range { id < MAX_EID }
        requires absent { value_of self.old id ≡ None }
        ensures inserted { OnOk result (IsWith (value_of self.old) id (Some value)
            (value_of self.new)) }
        ensures value_returned { IfErr result (λ back. back ≡ value) }
        ensures err { OnErr result ((i : ℕ) → value_of self.new i ≡ value_of self.old i) }
        ensures succeeds_with_room { HasRoom self.old id → IsOk result }
        ensures keeps_room { HasRoom self.old id → KeepsRoom self.old self.new }
        ensures has_room { OnOk result (HasRoom self.new id) }
        ensures makes_room { MakesRoom id self.old self.new }
        ensures err_len { OnErr result (words_len self.new ≡ words_len self.old) }
    {
        let Ok(slot) = self.pages.make_slot(id, &self.mask) else {
            return Err(value);
        };
        let Ok(_) = self.mask.add(id) else {
            return Err(value);
        };
        self.count += 1;
        self.pages.swap_value(slot, Some(value));
        Ok(())
    }

    /// Takes the value of an index out. The column keeps its capacity.
    #[inline]
    pub fn remove(&mut self, id: Index) -> Option<V>
        ensures old_value { result ≡ value_of self.old id }
        ensures removed { IsWith (value_of self.old) id None (value_of self.new) }
        ensures keeps_room { KeepsRoom self.old self.new }
        ensures has_room { IsSome result → HasRoom self.new id }
    {
        let slot = self.pages.slot(id);
        if !self.mask.remove(id) {
            return None;
        }
        self.count -= 1;
        self.pages.swap_value(slot, None)
    }

    /// Takes all values out. It does not allocate. The memory of the pages, the table and the mask is kept, but no
    /// contract says that it is enough for values to come.
    pub fn clear(&mut self)
        ensures empty { (i : ℕ) → value_of self.new i ≡ None }
        ensures pages { (p : ℕ) → slots self.new p ≡ 0 }
        ensures table { table_len self.new ≡ 0 }
        ensures list { list_len self.new ≡ 0 }
        ensures words { words_len self.new ≡ 0 }
    {
        self.mask.clear();
        self.pages.clear();
        self.count = 0;
    }
}
