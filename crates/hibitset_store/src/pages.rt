//! Values in pages, each made whole when one of its indices first gets a value.
//!
//! Pages that are made one after the other from index 0 on lie in the list as a flat one would have them, and a call on
//! an index there looks at its slot at once. Others lie behind, in the order in which they were made. If the list is
//! full, a quarter of the table's pages lie behind, and the table goes over no more than 2^21 indices, the list is laid
//! out anew, with slots for all pages of the table.
ghost use Rattle.std.specs.Prelude.{◌≡◌, ◌≢◌, ◌⊎◌, ℕ, ◌+◌, ◌-◌, ◌*◌, ◌/◌, ◌<◌, ◌≤◌, ◌==◌, max, length, [], Some, None, if◌then◌else◌, true, IsOk, IfOk, OnOk, OnErr, MatchOption, vec_len};
ghost use Rattle.std.specs.Borrow.{sem};
ghost use Rattle.std.specs.Option.{is_some, option_copied_mut};
ghost use Rattle.hibitset_base.specs.declared.util.TheConstants.{MAX_EID};
ghost use Rattle.hibitset_store.specs.PageLoan.{LendsSlot};
ghost use Rattle.hibitset_store.specs.Pages.{AreAsMany, PageTableInvariant, Covers, HasSlot, slot_count, slot_of, slots_in, start_in, value_at, value_in};

use hibitset::{BitSet, Index};
use std::alloc::{AllocError, Global};
use std::marker::PhantomData;
use std::mem;

/// How many indices a page has slots for.
pub const PAGE: usize = 64;

/// Where the slots of a page begin that is not made: past all slots, and such that the place of its last slot is a `u32`
/// too.
pub const NO_PAGE: u32 = u32::MAX - 63;

/// How many pages a table has at most that is laid out in order: those of 2^21 indices. With a table eight times as
/// long, `insert` from empty took twice its time.
const MAX_PAGES_IN_ORDER: usize = 32_768;

/// How many times as many slots there are at most as those of the pages that are made.
pub const MAX_SLOTS_PER_MADE_SLOT: usize = 4;

// The values, in pages, with a slot for each index of a page that is made. Each index below `in_order` has the slot
// of its own number, whether its page is made or not; the other pages lie behind, in the order in which they were made.
#[derive(Drop)]
pub(crate) struct Pages<V: Drop> {
    starts: Vec<u32>,
    slots: Vec<Option<V>>,
    in_order: usize,
}

impl<V: Drop> Pages<V> {
    // No value, and no page.
    pub(crate) fn new(alloc: Global) -> Pages<V>
        ensures starts { result.starts.items ≡ [] }
        ensures slots { result.slots.items ≡ [] }
        ensures order { result.in_order ≡ 0 }
    {
        Pages {
            starts: Vec::new(alloc),
            slots: Vec::new(alloc),
            in_order: 0,
        }
    }

    // Where the slots of a page begin by the table: past all slots, where it is not made.
    #[inline]
    fn page_start(&self, page: usize) -> u32
        ensures { result ≡ start_in self.now.starts.items page }
    {
        self.starts.get(page).copied().unwrap_or(NO_PAGE)
    }

    // The slot of an index: past all slots, where it has none.
    #[inline]
    pub(crate) fn slot(&self, id: Index) -> usize
        ensures { result ≡ slot_of self.now id }
    {
        let id = id as usize;
        if id < self.in_order {
            return id;
        }
        self.page_start(id / PAGE) as usize + id % PAGE
    }

    // The value of an index.
    #[inline]
    pub(crate) fn get(&self, id: Index) -> Option<&V>
        ensures { MatchOption result (value_at self.now id ≡ None)
            (λ value. value_at self.now id ≡ Some value.now) }
    {
        self.slots.get(self.slot(id))?.as_ref()
    }

    // The slot of an index that has a value. It does not ask whether the page stands in the table.
    #[inline]
    pub(crate) fn slot_of_key(&self, id: Index) -> usize
        requires laid_out { PageTableInvariant self.now }
        requires has_value { is_some (value_at self.now id) ≡ true }
        ensures { result ≡ slot_of self.now id }
    {
        let id = id as usize;
        if id < self.in_order {
            return id;
        }
        self.starts[id / PAGE] as usize + id % PAGE
    }

    // The value of an index that has one. It does not ask whether the page is made, nor whether the slot lies in the
    // list and has a value.
    #[inline]
    pub(crate) fn value(&self, id: Index) -> &V
        requires laid_out { PageTableInvariant self.now }
        requires has_value { is_some (value_at self.now id) ≡ true }
        ensures { value_at self.now id ≡ Some result.now }
    {
        unwrap_present(&self.slots[self.slot_of_key(id)])
    }

    // The value of an index, to be changed. A `match`, not `as_mut`: the prover then knows that the borrowed slot has a
    // value.
    #[inline]
    pub(crate) fn get_mut(&mut self, id: Index) -> Option<&mut V>
        requires { PageTableInvariant self.old }
        ensures* writes_back { sem 𝓛 (LendsSlot V.row self.entry id result) }
        ensures value { option_copied_mut result ≡ value_at self.old id }
    {
        let slot = self.slot(id);
        match self.slots.get_mut(slot)? {
            Some(value) => Some(value),
            None => None,
        }
    }

    // Puts a value into a slot, or takes it out, and returns what was there.
    #[inline]
    pub(crate) fn swap_value(&mut self, slot: usize, value: Option<V>) -> Option<V>
        requires laid_out { PageTableInvariant self.old }
        requires in_range { slot < slot_count self.old }
        ensures old_value { result ≡ value_in self.old.slots.items slot }
        ensures put { (id : ℕ) → slot ≡ slot_of self.old id → (i : ℕ)
            → value_at self.new i ≡ (if i == id then value else value_at self.old i) }
        ensures many { AreAsMany self.old self.new }
    {
        mem::replace(&mut self.slots[slot], value)
    }

    // The slot of an index, whose page is made if it has to be. It changes no value. Refused, it leaves each page as
    // it was.
    #[inline]
    pub(crate) fn make_slot(&mut self, id: Index, keys: &BitSet) -> Result<usize, AllocError>
        requires laid_out { PageTableInvariant self.old }
        requires keys { Covers keys.now self.old }
        requires in_range { id < MAX_EID }
        ensures slot { IfOk result (λ slot. slot ≡ slot_of self.new id) }
        ensures has_slot { OnOk result (HasSlot self.new id) }
        ensures made { OnOk result (slots_in self.new (id / PAGE) ≡ PAGE) }
        ensures same { (i : ℕ) → value_at self.new i ≡ value_at self.old i }
        ensures laid_out { PageTableInvariant self.new }
        ensures err { OnErr result ((p : ℕ) → slots_in self.new p ≡ slots_in self.old p) }
        ensures others { (p : ℕ) → p ≢ id / PAGE → slots_in self.new p ≡ slots_in self.old p }
        ensures succeeds { slots_in self.old (id / PAGE) ≡ PAGE → IsOk result }
        ensures keeps_slots { slots_in self.old (id / PAGE) ≡ PAGE → AreAsMany self.old self.new }
        ensures len_min { vec_len self.old.starts ≤ vec_len self.new.starts }
        ensures len_max { vec_len self.new.starts ≤ max (vec_len self.old.starts) (id / PAGE + 1) }
    {
        let page = id as usize / PAGE;
        if self.page_start(page) == NO_PAGE {
            self.make_page(page, keys)?;
        }
        Ok(self.slot(id))
    }

    // Makes a page, and the table as long as it needs. Refused, it leaves each page as it was. It is not inlined, so
    // that its loops take no registers from those that insert.
    #[inline(never)]
    fn make_page(&mut self, page: usize, keys: &BitSet) -> Result<(), AllocError>
        requires laid_out { PageTableInvariant self.old }
        requires keys { Covers keys.now self.old }
        requires in_range { page < MAX_EID / PAGE }
        requires no_page { start_in self.old.starts.items page ≡ NO_PAGE }
        ensures same { (i : ℕ) → value_at self.new i ≡ value_at self.old i }
        ensures laid_out { PageTableInvariant self.new }
        ensures made { OnOk result (slots_in self.new page ≡ PAGE) }
        ensures err { OnErr result ((p : ℕ) → slots_in self.new p ≡ slots_in self.old p) }
        ensures others { (p : ℕ) → p ≢ page → slots_in self.new p ≡ slots_in self.old p }
        ensures len_min { vec_len self.old.starts ≤ vec_len self.new.starts }
        ensures len_max { vec_len self.new.starts ≤ max (vec_len self.old.starts) (page + 1) }
    {
        self.lengthen(page)?;
        self.add_page(page, keys)
    }

    // Makes the table go as far as a page, and makes no page. Refused, it changes nothing.
    fn lengthen(&mut self, page: usize) -> Result<(), AllocError>
        requires laid_out { PageTableInvariant self.old }
        requires in_range { page < MAX_EID / PAGE }
        ensures same { (i : ℕ) → value_at self.new i ≡ value_at self.old i }
        ensures laid_out { PageTableInvariant self.new }
        ensures in_range { OnOk result (page < length self.new.starts.items) }
        ensures starts { (p : ℕ) → start_in self.new.starts.items p
            ≡ start_in self.old.starts.items p }
        ensures len_min { vec_len self.old.starts ≤ vec_len self.new.starts }
        ensures len_max { vec_len self.new.starts ≤ max (vec_len self.old.starts) (page + 1) }
    {
        if self.starts.len() <= page {
            self.starts.resize(page + 1, NO_PAGE)?;
        }
        Ok(())
    }

    // Makes a page. Refused, it leaves each page as it was.
    fn add_page(&mut self, page: usize, keys: &BitSet) -> Result<(), AllocError>
        requires laid_out { PageTableInvariant self.old }
        requires keys { Covers keys.now self.old }
        requires within { page < length self.old.starts.items }
        requires no_page { start_in self.old.starts.items page ≡ NO_PAGE }
        ensures same { (i : ℕ) → value_at self.new i ≡ value_at self.old i }
        ensures laid_out { PageTableInvariant self.new }
        ensures made { OnOk result (slots_in self.new page ≡ PAGE) }
        ensures err { OnErr result ((p : ℕ) → slots_in self.new p ≡ slots_in self.old p) }
        ensures others { (p : ℕ) → p ≢ page → slots_in self.new p ≡ slots_in self.old p }
        ensures table { vec_len self.new.starts ≡ vec_len self.old.starts }
    {
        if self.is_worth_order() {
            self.put_in_order(keys)?;
        }
        if page * PAGE < self.in_order {
            self.starts[page] = (page * PAGE) as u32;
            return Ok(());
        }
        self.append_page(page)
    }

    // Makes a page behind the part that lies in order. Its slots come after all others; where they have the numbers of
    // its indices and all others lie in order, it does too. Refused, it changes nothing.
    fn append_page(&mut self, page: usize) -> Result<(), AllocError>
        requires laid_out { PageTableInvariant self.old }
        requires within { page < length self.old.starts.items }
        requires behind { self.old.in_order ≤ page * PAGE }
        requires no_page { start_in self.old.starts.items page ≡ NO_PAGE }
        ensures same { (i : ℕ) → value_at self.new i ≡ value_at self.old i }
        ensures laid_out { PageTableInvariant self.new }
        ensures made { OnOk result (slots_in self.new page ≡ PAGE) }
        ensures err { OnErr result ((p : ℕ) → slots_in self.new p ≡ slots_in self.old p) }
        ensures others { (p : ℕ) → p ≢ page → slots_in self.new p ≡ slots_in self.old p }
        ensures table { vec_len self.new.starts ≡ vec_len self.old.starts }
    {
        let start = self.slots.len();
        add_slots(&mut self.slots, PAGE)?;
        self.starts[page] = start as u32;
        if start == page * PAGE && start == self.in_order {
            self.in_order += PAGE;
        }
        Ok(())
    }

    // Returns whether the pages are to be laid out in order: when there is no slot for another one, where so much of
    // the table lies behind that there will not be too many slots, and it is not too long.
    fn is_worth_order(&self) -> bool
        requires { PageTableInvariant self.now }
        ensures { result ≡ true → length self.now.starts.items * PAGE
            ≤ MAX_SLOTS_PER_MADE_SLOT * (slot_count self.now - self.now.in_order) }
    {
        let len = self.slots.len();
        let pages = self.starts.len();
        len + PAGE > self.slots.capacity()
            && self.in_order < len
            && pages <= MAX_PAGES_IN_ORDER
            && pages * PAGE <= MAX_SLOTS_PER_MADE_SLOT * (len - self.in_order)
    }

    // Lays the slots of all pages of the table out in order, with as much room as when the list of slots doubles.
    // Refused, it changes nothing.
    fn put_in_order(&mut self, keys: &BitSet) -> Result<(), AllocError>
        requires laid_out { PageTableInvariant self.old }
        requires keys { Covers keys.now self.old }
        requires worth { length self.old.starts.items * PAGE
            ≤ MAX_SLOTS_PER_MADE_SLOT * (slot_count self.old - self.old.in_order) }
        ensures same { (i : ℕ) → value_at self.new i ≡ value_at self.old i }
        ensures laid_out { PageTableInvariant self.new }
        ensures starts { self.new.starts.items ≡ self.old.starts.items }
    {
        let end = self.starts.len() * PAGE;
        let room = end.max(2 * self.slots.len());
        let mut slots = Vec::with_capacity(*self.slots.allocator(), room)?;
        add_slots(&mut slots, end)?;
        self.move_values(keys, &mut slots);
        self.slots = slots;
        self.in_order = end;
        Ok(())
    }

    // Moves the values of all keys to empty slots, where each gets the slot of its index's own number.
    fn move_values(&mut self, keys: &BitSet, slots: &mut Vec<Option<V>>)
        requires laid_out { PageTableInvariant self.old }
        requires keys { Covers keys.now self.old }
        requires long { length slots.old.items ≡ PAGE * length self.old.starts.items }
        requires empty { (j : ℕ) → value_in slots.old.items j ≡ None }
        ensures moved { (i : ℕ) → value_in slots.new.items i ≡ value_at self.old i }
        ensures long { length slots.new.items ≡ length slots.old.items }
        ensures starts { self.new.starts.items ≡ self.old.starts.items }
    {
        'keys: for id in keys {
            let slot = self.slot_of_key(id);
            slots[id as usize] = self.swap_value(slot, None);
        }
    }

    // Takes all values out. It keeps the memory of the pages.
    pub(crate) fn clear(&mut self)
        ensures starts { self.new.starts.items ≡ [] }
        ensures slots { self.new.slots.items ≡ [] }
        ensures order { self.new.in_order ≡ 0 }
    {
        self.starts.clear();
        self.slots.clear();
        self.in_order = 0;
    }
}

// The value of a slot that has one. An empty slot would be answered by an item of an array that has none, which no
// program reads, so the compiler makes no test of the slot. Of `unreachable!` it would make a trap, and a test before
// it.
#[inline]
fn unwrap_present<V>(slot: &Option<V>) -> &V
    requires { is_some slot.now ≡ true }
    ensures { slot.now ≡ Some result.now }
{
    let none: [&V; 0] = [];
    match slot {
        Some(value) => value,
        None => none[0],
    }
}

// So many slots without a value. They are poured into the list of all slots, which is faster than a loop that pushes
// each and asks how many there are.
#[derive(Drop)]
struct EmptySlots<V: Drop> {
    left: usize,
    of: PhantomData<V>,
}

impl<V: Drop> Iterator for EmptySlots<V> {
    ghost use Rattle.std.specs.Iterator.{at_most};
    ghost use Rattle.hibitset_store.specs.EmptySlots.{GivesSlot};

    type Item = Option<V>;

    ghost next_gives = { GivesSlot };

    ghost remaining = { λ slots. at_most slots.left };

    #[inline]
    fn next(&mut self) -> Option<Option<V>> {
        if self.left == 0 {
            return None;
        }
        self.left -= 1;
        Some(None)
    }
}

// Adds so many slots without a value at the end. Refused, it adds none.
fn add_slots<V: Drop>(slots: &mut Vec<Option<V>>, count: usize) -> Result<(), AllocError>
    ensures same { (j : ℕ) → value_in slots.new.items j ≡ value_in slots.old.items j }
    ensures added { OnOk result (length slots.new.items ≡ length slots.old.items + count) }
    ensures err { OnErr result (slots.new.items ≡ slots.old.items) }
{
    let before = slots.len();
    slots.reserve(count)?;
    let poured = slots.extend(EmptySlots {
        left: count,
        of: PhantomData,
    });
    if poured.is_err() {
        slots.truncate(before);
    }
    poured
}
