//! A table of 4,096 places, of which those with a value lie side by side.
ghost use Rattle.std.specs.Prelude.{◌≡◌, ℕ, ◌+◌, ◌*◌, ◌/◌, ◌%◌, ◌^◌, ◌<◌, ◌≤◌, ◌==◌, if◌then◌else◌, true, false, vec_len, vec_capacity, length, Some, None, IfSome, IfNone, IfOk, IsOk, OnOk, OnErr, MatchOption, slice_get};
ghost use Rattle.std.specs.List.{insert};
ghost use Rattle.hibitset_sparse.specs.PackedArray.{HasRoomFor, value_in};
ghost use Rattle.hibitset_sparse.specs.Layout.{AreLaidOut, AreMovedUp, CanMoveDown, CanMoveUp, HaveRoom, IsNarrower, IsPlace, IsPutAt, IsWider, values_before, word_or_none};
ghost use Rattle.hibitset_sparse.specs.declared.group.Group.{Group};
ghost use Rattle.std.specs.Int.{bit_at};

use crate::group::Group;
use crate::packed_array::PackedArray;
use crate::rank::{is_set, rank};
use hibitset_base::bits::{last_bit, take_bit, with_bit};
use std::alloc::{AllocError, Global};

/// How many places a table has.
pub(crate) const PLACES_PER_TABLE: usize = 4_096;

/// How many groups the places of a table lie in.
pub(crate) const GROUPS_PER_TABLE: usize = 64;

/// A table of 4,096 places. Bit q of `groups.word` is set if one of the 64 places of group q has a value, and bit b of
/// the group's word if its place b has: two layers of a set of places. Values lie in `items`, in the order of their
/// places.
#[derive(Drop)]
pub(crate) struct Table<T: Drop> {
    pub(crate) groups: PackedArray<Group>,
    pub(crate) items: Vec<T>,
    ghost laid_out: { AreLaidOut (value_in groups) (length items.items) },
}

// Moves the starts of the groups from one on up by one place.
#[inline]
fn move_up(groups: &mut Vec<Group>, from: usize)
    requires { CanMoveUp groups.old.items }
    ensures moved { AreMovedUp from groups.old.items groups.new.items }
    ensures length { length groups.new.items ≡ length groups.old.items }
    ensures capacity { vec_capacity groups.new ≡ vec_capacity groups.old }
{
    'groups: for k in from..groups.len() {
        groups[k].start += 1;
    }
}

// Gives group q one place more, at `bit`, and moves no other. If it is new, it begins at `start`. If an allocation
// fails, nothing changes.
#[inline]
fn set_place(
    groups: &mut PackedArray<Group>,
    q: usize,
    bit: usize,
    start: usize,
) -> Result<(), AllocError>
    requires group { q < 64 }
    requires bit { bit < 64 }
    requires free { bit_at (word_or_none (value_in groups.old q)) bit ≡ 0 }
    requires starts { (g : Group) → value_in groups.old q ≡ Some g → g.start ≡ start }
    ensures put { OnOk result (IsPutAt q bit start (value_in groups.old) (value_in groups.new)) }
    ensures is_set { OnOk result (bit_at groups.new.word q ≡ 1) }
    ensures err { OnErr result ((groups.new.word ≡ groups.old.word)
        × (groups.new.items.items ≡ groups.old.items.items)) }
    ensures succeeds { (n : ℕ) → HasRoomFor (n + 1) groups.old → IsOk result × HasRoomFor n groups.new }
{
    if !is_set(groups.word, q) {
        let word = with_bit(0, bit, true);
        groups.insert(q, Group { word, start })?;
        return Ok(());
    }
    let k = rank(groups.word, q);
    let word = with_bit(groups.items[k].word, bit, true);
    groups.items[k] = Group { word, start };
    Ok(())
}

// Gives group q one place more, at `bit`, and moves the groups after it up. If it is new, it begins at `start`. If an
// allocation fails, nothing changes.
#[inline]
fn widen(
    groups: &mut PackedArray<Group>,
    q: usize,
    bit: usize,
    start: usize,
) -> Result<(), AllocError>
    requires group { q < 64 }
    requires bit { bit < 64 }
    requires free { bit_at (word_or_none (value_in groups.old q)) bit ≡ 0 }
    requires starts { (g : Group) → value_in groups.old q ≡ Some g → g.start ≡ start }
    requires have_room { HaveRoom (value_in groups.old) }
    requires fits { start + 1 < 2 ^ 64 }
    ensures wider { OnOk result (IsWider q bit start (value_in groups.old) (value_in groups.new)) }
    ensures err { OnErr result ((groups.new.word ≡ groups.old.word)
        × (groups.new.items.items ≡ groups.old.items.items)) }
    ensures succeeds { (n : ℕ) → HasRoomFor (n + 1) groups.old → IsOk result × HasRoomFor n groups.new }
{
    set_place(groups, q, bit, start)?;
    let next = rank(groups.word, q) + 1;
    move_up(&mut groups.items, next);
    Ok(())
}

// Moves the starts of the groups from one on down by one place.
fn move_down(groups: &mut Vec<Group>, from: usize)
    requires { CanMoveDown from groups.old.items }
    ensures moved { AreMovedUp from groups.new.items groups.old.items }
    ensures length { length groups.new.items ≡ length groups.old.items }
    ensures capacity { vec_capacity groups.new ≡ vec_capacity groups.old }
{
    'groups: for k in from..groups.len() {
        groups[k].start -= 1;
    }
}

// Takes the place at `bit` out of group q, and moves the groups after it down. A group without values is taken out.
fn narrow(groups: &mut PackedArray<Group>, q: usize, bit: usize)
    requires group { q < 64 }
    requires bit { bit < 64 }
    requires on { bit_at (word_or_none (value_in groups.old q)) bit ≡ 1 }
    requires can_lower { (p : ℕ) (g : Group) → q < p → p < 64 → value_in groups.old p ≡ Some g → 0 < g.start }
    ensures narrower { IsNarrower q bit (value_in groups.old) (value_in groups.new) }
    ensures capacity { (n : ℕ) → HasRoomFor n groups.old → HasRoomFor n groups.new }
{
    let k = rank(groups.word, q);
    let group = &groups.items[k];
    let start = group.start;
    let word = with_bit(group.word, bit, false);
    move_down(&mut groups.items, k + 1);
    if word == 0 {
        let _group = groups.remove(q);
        return;
    }
    groups.items[k] = Group { word, start };
}

// Puts a value at a place of a list that has room for it.
#[inline]
fn put<T: Drop>(items: &mut Vec<T>, at: usize, value: T)
    requires within { at ≤ length items.old.items }
    requires capacity { vec_len items.old < vec_capacity items.old }
    ensures put { items.new.items ≡ insert items.old.items at value }
    ensures length { length items.new.items ≡ length items.old.items + 1 }
    ensures capacity { vec_capacity items.new ≡ vec_capacity items.old }
{
    let _put = items.insert(at, value);
}

impl<T: Drop> Table<T> {
    ghost use Rattle.hibitset_sparse.specs.Table.{value_at, values_before_place, group_word, HasCapacityFor, HasValue, IsSameTable};

    /// No place has a value. It does not allocate.
    #[inline]
    pub(crate) fn new(alloc: Global) -> Table<T>
        ensures { (i : ℕ) → value_at result i ≡ None }
    {
        Table {
            groups: PackedArray::new(alloc),
            items: Vec::new(alloc),
        }
    }

    /// The word of a group.
    #[inline]
    pub(crate) fn word(&self, q: usize) -> usize
        requires { q < 64 }
        ensures { result ≡ group_word self.now q }
    {
        match self.groups.get(q) {
            Some(group) => group.word,
            None => 0,
        }
    }

    /// Where the value of a place lies.
    #[inline]
    pub(crate) fn position(&self, i: usize) -> Option<usize>
        requires { i < PLACES_PER_TABLE }
        ensures absent { IfNone result (value_at self.now i ≡ None) }
        ensures found { IfSome result (λ at. (at < length self.now.items.items)
            × (value_at self.now i ≡ slice_get self.now.items.items at)) }
        ensures is_place { IfSome result (IsPlace (value_in self.now.groups) i) }
    {
        let group = self.groups.get(i / 64)?;
        if !is_set(group.word, i % 64) {
            return None;
        }
        Some(group.start + rank(group.word, i % 64))
    }

    /// The value of a place.
    #[inline]
    pub(crate) fn get(&self, i: usize) -> Option<&T>
        requires { i < PLACES_PER_TABLE }
        ensures { MatchOption result (value_at self.now i ≡ None)
            (λ value. value_at self.now i ≡ Some value.now) }
    {
        let at = self.position(i)?;
        Some(&self.items[at])
    }

    /// Writes a value over that of a place, which lies at this position.
    #[inline]
    pub(crate) fn write(&mut self, i: usize, at: usize, value: T)
        requires in_range { i < PLACES_PER_TABLE }
        requires in_length { at < length self.old.items.items }
        requires of { IsPlace (value_in self.old.groups) i at }
        ensures put { (j : ℕ) → j < PLACES_PER_TABLE
            → value_at self.new j ≡ (if j == i then Some value else value_at self.old j) }
        ensures root { self.new.groups.word ≡ self.old.groups.word }
        ensures length { length self.new.items.items ≡ length self.old.items.items }
        ensures capacity { (n : ℕ) → HasCapacityFor n self.old → HasCapacityFor n self.new }
    {
        self.items[at] = value;
    }

    // Where the values of a group begin that has none yet.
    #[inline]
    fn start_of_new(&self, q: usize) -> usize
        requires group { q < 64 }
        requires absent { value_in self.now.groups q ≡ None }
        ensures { result ≡ values_before (value_in self.now.groups) q }
    {
        let above = self.groups.word >> q;
        if above == 0 {
            return self.items.len();
        }
        match self.groups.get(q + above.trailing_zeros() as usize) {
            Some(group) => group.start,
            None => self.items.len(),
        }
    }

    // Where the values of a group begin.
    #[inline]
    fn start(&self, q: usize) -> usize
        requires { q < 64 }
        ensures { result ≡ values_before (value_in self.now.groups) q }
    {
        match self.groups.get(q) {
            Some(group) => group.start,
            None => self.start_of_new(q),
        }
    }

    /// How many values lie before a place.
    #[inline]
    pub(crate) fn rank(&self, i: usize) -> usize
        requires { i < PLACES_PER_TABLE }
        ensures rank { result ≡ values_before_place self.now i }
        ensures within { result ≤ length self.now.items.items }
    {
        self.start(i / 64) + rank(self.word(i / 64), i % 64)
    }

    /// Whether each place that has a value in another table has one here too.
    pub(crate) fn covers(&self, other: &Table<T>) -> bool
        ensures { result ≡ true → (i : ℕ) (x : T) → i < PLACES_PER_TABLE
            → value_at other.now i ≡ Some x → HasValue self.now i }
    {
        let mut left = other.groups.word;
        'groups: while left != 0 {
            let q = take_bit(&mut left);
            let word = self.word(q);
            if other.word(q) | word != word {
                return false;
            }
        }
        true
    }

    /// Reserves capacity for `count` more values. Whatever it returns, the table is the same.
    pub(crate) fn reserve(&mut self, count: usize) -> Result<(), AllocError>
        ensures same { IsSameTable self.old self.new }
        ensures reserved { OnOk result (HasCapacityFor count self.new) }
    {
        self.items.reserve(count)?;
        self.groups.items.reserve(count.min(GROUPS_PER_TABLE))
    }

    /// Gives a value to a place that has none. If an allocation fails, nothing changes.
    pub(crate) fn insert(&mut self, i: usize, value: T) -> Result<(), AllocError>
        requires in_range { i < PLACES_PER_TABLE }
        requires free { value_at self.old i ≡ None }
        ensures put { OnOk result ((j : ℕ) → j < PLACES_PER_TABLE
            → value_at self.new j ≡ (if j == i then Some value else value_at self.old j)) }
        ensures err { OnErr result (IsSameTable self.old self.new) }
        ensures succeeds { (n : ℕ) → HasCapacityFor (n + 1) self.old
            → IsOk result × HasCapacityFor n self.new }
    {
        let q = i / 64;
        let bit = i % 64;
        self.items.reserve(1)?;
        let start = self.start(q);
        let at = start + rank(self.word(q), bit);
        widen(&mut self.groups, q, bit, start)?;
        put(&mut self.items, at, value);
        Ok(())
    }

    /// Takes the value of a place out.
    pub(crate) fn remove(&mut self, i: usize) -> Option<T>
        requires in_range { i < PLACES_PER_TABLE }
        ensures old_value { result ≡ value_at self.old i }
        ensures put { (j : ℕ) → j < PLACES_PER_TABLE
            → value_at self.new j ≡ (if j == i then None else value_at self.old j) }
        ensures length { IfSome result (λ _. length self.old.items.items
            ≡ length self.new.items.items + 1) }
        ensures capacity { (n : ℕ) → HasCapacityFor n self.old → HasCapacityFor n self.new }
    {
        let at = self.position(i)?;
        narrow(&mut self.groups, i / 64, i % 64);
        Some(self.items.remove(at))
    }

    /// Takes the value of the last place that has one out, and returns it with its place.
    pub(crate) fn pop(&mut self) -> Option<(usize, T)>
        ensures empty { IfNone result ((i : ℕ) → i < PLACES_PER_TABLE → value_at self.old i ≡ None) }
        ensures in_range { IfSome result (λ last. last.0 < PLACES_PER_TABLE) }
        ensures old_value { IfSome result (λ last. value_at self.old last.0 ≡ Some last.1) }
        ensures put { IfSome result (λ last. (j : ℕ) → j < PLACES_PER_TABLE
            → value_at self.new j ≡ (if j == last.0 then None else value_at self.old j)) }
        ensures length { IfSome result (λ last. length self.old.items.items
            ≡ length self.new.items.items + 1) }
    {
        if self.groups.word == 0 {
            return None;
        }
        let q = last_bit(self.groups.word);
        let place = 64 * q + last_bit(self.word(q));
        let value = self.remove(place)?;
        Some((place, value))
    }
}
