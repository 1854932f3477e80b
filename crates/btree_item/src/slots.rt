//! Lists of at most `N` values, stored inline.
ghost use Rattle.std.specs.Prelude.{◌≡◌, ◌+◌, ◌-◌, ◌<◌, ◌≤◌, [], ◌∷◌, ◌++◌, Some, length, take, drop, slice_get, slice_set};
ghost use Rattle.std.specs.List.{insert, remove};
ghost use Rattle.std.specs.Borrow.{sem};
ghost use Rattle.std.specs.Option.{option_copied, option_copied_mut};

use crate::SlotsIter;
use arrayvec::ArrayVec;
use std::marker::Model;
use std::mem;

/// A list of at most `N` values. They are stored inline, so that it never allocates, and as options, so that a value needs no default.
#[derive(Drop)]
pub struct Slots<T, const N: usize> {
    // The number of values, which lie in the first slots. An `ArrayVec` keeps its length after its last slot, on a line of memory that an
    // edit need not touch otherwise. So the vector is always full, and only `get_mut` reads its length.
    len: usize,
    slots: ArrayVec<Option<T>, N>,
}

impl<T, const N: usize> Model for Slots<T, N> {
    ghost use Rattle.std.specs.Prelude.{◌≡◌, ◌≤◌, List, length, take};
    ghost use Rattle.btree_item.specs.Somes.{somes, AreSome};

    ghost Value = { List T };

    ghost view = { λ s. somes (take s.len s.slots.items) };

    ghost invariant = { λ s. (length s.slots.items ≡ N) × (s.len ≤ N) × AreSome (take s.len s.slots.items) };
}

#[tactic(auto, using(crate::proofs::SomesLemmas::slot_edits))]
impl<T, const N: usize> Slots<T, N> {
    ghost use Rattle.btree_item.specs.Slots.{lends_slot};

    pub fn len(&self) -> usize
        ensures value { result ≡ length self.now }
        ensures fits { result ≤ N }
    {
        self.len
    }

    /// Returns the value at an index, or `None` past the end.
    pub fn get(&self, index: usize) -> Option<&T>
        ensures { option_copied result ≡ slice_get self.now index }
    {
        if index < self.len {
            self.slots.as_slice()[index].as_ref()
        } else {
            None
        }
    }

    /// Returns the value at an index for writing, or `None` past the end.
    pub fn get_mut(&mut self, index: usize) -> Option<&mut T>
        ensures* writes_back { sem 𝓛 (lends_slot T.row N.row self.entry index result) }
        ensures value { option_copied_mut result ≡ slice_get self.old index }
    {
        if index >= self.len {
            return None;
        }
        match self.slots.get_mut(index) {
            Some(slot) => slot.as_mut(),
            None => None,
        }
    }

    /// Returns an iterator over the values, in order and from both ends.
    pub fn iter(&self) -> SlotsIter<'_, T>
        ensures { result ≡ self.now }
    {
        SlotsIter {
            slots: self.slots.as_slice()[..self.len].iter(),
        }
    }
}

#[tactic(auto, using(crate::proofs::SomesLemmas::slot_edits))]
impl<T: Drop, const N: usize> Slots<T, N> {
    pub fn new() -> Self
        ensures { result ≡ [] }
    {
        Slots {
            len: 0,
            slots: ArrayVec::from_array_in((), Default::default()),
        }
    }

    /// Appends a value. There must be room for it.
    pub fn push(&mut self, value: T)
        requires { length self.old < N }
        ensures { self.new ≡ self.old ++ value ∷ [] }
    {
        self.slots.as_mut_slice()[self.len] = Some(value);
        self.len += 1;
    }

    /// Inserts a value at an index, and moves those from there on right by one. There must be room for it.
    pub fn insert(&mut self, index: usize, value: T)
        requires within { index ≤ length self.old }
        requires room { length self.old < N }
        ensures { self.new ≡ insert self.old index value }
    {
        insert_slot(&mut self.slots, self.len, index, Some(value));
        self.len += 1;
    }

    /// Removes and returns the value at an index, and moves those after it left by one.
    pub fn remove(&mut self, index: usize) -> T
        requires { index < length self.old }
        ensures answer { slice_get self.old index ≡ Some result }
        ensures after { self.new ≡ remove self.old index }
    {
        let slot = remove_slot(&mut self.slots, self.len, index);
        self.len -= 1;
        slot.unwrap()
    }

    /// Removes and returns the last value, if there is one.
    pub fn pop(&mut self) -> Option<T>
        ensures answer { result ≡ slice_get self.old (length self.old - 1) }
        ensures after { self.new ≡ take (length self.old - 1) self.old }
    {
        if self.len == 0 {
            return None;
        }
        self.len -= 1;
        self.slots.as_mut_slice()[self.len].take()
    }

    /// Removes the values from an index on, and returns them as a list of their own. Each moves once.
    pub fn split_off(&mut self, at: usize) -> Self
        requires { at ≤ length self.old }
        ensures answer { result ≡ drop at self.old }
        ensures after { self.new ≡ take at self.old }
    {
        // For the prover: there are at most `N`.
        let _fits = self.len();
        let mut tail = Slots::new();
        self.move_tail(at, &mut tail);
        tail
    }

    /// Moves the values from an index on to the end of another list. Each moves once. There must be room for them.
    pub fn move_tail(&mut self, at: usize, to: &mut Self)
        requires within { at ≤ length self.old }
        requires room { length to.old + (length self.old - at) ≤ N }
        ensures moved { to.new ≡ to.old ++ drop at self.old }
        ensures left { self.new ≡ take at self.old }
    {
        move_slots(&mut self.slots, self.len, at, &mut to.slots, to.len);
        to.len += self.len - at;
        self.len = at;
    }
}

// Inserts a slot among the first `len` slots, with an unused one after them. Each of them from the index on moves once.
fn insert_slot<T: Drop, const N: usize>(
    slots: &mut ArrayVec<Option<T>, N>,
    len: usize,
    index: usize,
    slot: Option<T>,
)
    requires within { index ≤ len }
    requires room { len < length slots.old.items }
    ensures after { take (len + 1) slots.new.items ≡ insert (take len slots.old.items) index slot }
    ensures same { length slots.new.items ≡ length slots.old.items }
{
    let mut carried = slot;
    for i in index..len {
        carried = mem::replace(&mut slots.as_mut_slice()[i], carried);
    }
    slots.as_mut_slice()[len] = carried;
}

// Removes one of the first `len` slots. Each of them after it moves once, from the last one on.
fn remove_slot<T: Drop, const N: usize>(
    slots: &mut ArrayVec<Option<T>, N>,
    len: usize,
    index: usize,
) -> Option<T>
    requires within { index < len }
    requires fits { len ≤ length slots.old.items }
    ensures answer { slice_get (take len slots.old.items) index ≡ Some result }
    ensures after { take (len - 1) slots.new.items ≡ remove (take len slots.old.items) index }
    ensures same { length slots.new.items ≡ length slots.old.items }
{
    let mut i = len - 1;
    let mut carried = slots.as_mut_slice()[i].take();
    while i > index {
        i -= 1;
        carried = mem::replace(&mut slots.as_mut_slice()[i], carried);
    }
    carried
}

// Moves the slots from an index on, of the first `len` slots, behind the first `to_len` slots of another list.
fn move_slots<T: Drop, const N: usize>(
    slots: &mut ArrayVec<Option<T>, N>,
    len: usize,
    at: usize,
    to: &mut ArrayVec<Option<T>, N>,
    to_len: usize,
)
    requires within { at ≤ len }
    requires fits { len ≤ length slots.old.items }
    requires room { to_len + (len - at) ≤ length to.old.items }
    ensures moved { take (to_len + (len - at)) to.new.items ≡
        take to_len to.old.items ++ drop at (take len slots.old.items) }
    ensures left { take at slots.new.items ≡ take at slots.old.items }
    ensures same { length slots.new.items ≡ length slots.old.items }
    ensures same_to { length to.new.items ≡ length to.old.items }
{
    let mut place = to_len;
    for i in at..len {
        to.as_mut_slice()[place] = slots.as_mut_slice()[i].take();
        place += 1;
    }
}
