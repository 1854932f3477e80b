//! A store that is filled under chosen numbers, and goes on from there.
#![tactic(auto, using(btree_store::specs::SlotLaws::slots))]

ghost use Rattle.std.specs.Prelude.{◌≡◌, ℕ, ◌+◌, ◌<◌, ◌≤◌, IfOk, IfErr, OnOk, OnErr, IsOk, IsSome, IsTrue, Some, None, option_copied, length, slice_index_or, slice_set, vec_capacity, vec_len};
ghost use Rattle.std.specs.Borrow.{sem};
ghost use Rattle.std.specs.FinMap as map;
ghost use Rattle.btree_store.specs.Content.{Gains, content_from};
ghost use Rattle.btree_more_stores.specs.Filled.{IsFilled, IsFull, KeepsPlaces, lends_filled};

use crate::fill::Fill;
use btree_steps::Steps;
use btree_store::{Clear, Slab, SlabClone, SlabMut};
use std::alloc::{AllocError, Allocator, Global};
use std::marker::Model;
use std::mem;

/// A store in memory from an allocator, which can be filled under chosen numbers. A number that is free again is used before a new one.
///
/// Each call takes constant time, except `clear`, `try_clone`, an `insert` that has to make room, and an `insert_under`, which lists each
/// number that it leaves out. It refuses a value only if it has to make room and cannot. For each number up to the highest that it ever
/// used it has a place for a value and a `usize`.
#[derive(Drop)]
pub struct SlotStore<T, A: Allocator + Copy = Global> {
    slots: Vec<Option<T>, A>,
    // The places without a value, with room for all of them.
    free: Vec<usize, A>,
    held: usize,
    refused: Steps,
}

impl<T, A: Allocator + Copy> Model for SlotStore<T, A> {
    ghost use Rattle.std.specs.Prelude.{vec_capacity};
    ghost use Rattle.btree_more_stores.specs.Table.{Table, table_code};
    ghost use Rattle.btree_more_stores.specs.Filled.{IsFilled};

    ghost Value = { Table T };

    ghost coded = { table_code T.code };

    ghost view = { λ store. record { slots = store.slots.items; refused = store.refused.count } };

    ghost invariant = { λ store. IsFilled store.slots.items store.free.items store.held (vec_capacity store.free) };
}

// Makes room for a place more, of a value or among the free ones.
fn reserve<T, A: Allocator + Copy>(
    slots: &mut Vec<Option<T>, A>,
    free: &mut Vec<usize, A>,
    places: usize,
) -> Result<(), AllocError>
    requires below { vec_len free.old ≤ vec_len slots.old }
    requires more { vec_len slots.old ≤ places }
    ensures slots { slots.new.items ≡ slots.old.items }
    ensures free { free.new.items ≡ free.old.items }
    ensures slots_room { OnOk result (places ≤ vec_capacity slots.new) }
    ensures free_room { OnOk result (places ≤ vec_capacity free.new) }
    ensures kept { vec_capacity free.old ≤ vec_capacity free.new }
{
    slots.reserve(places - slots.len())?;
    free.reserve(places - free.len())
}

// Adds places without a value, up to `id`.
fn add_free<T, A: Allocator + Copy>(
    slots: &mut Vec<Option<T>, A>,
    free: &mut Vec<usize, A>,
    held: usize,
    id: usize,
)
    requires filled { IsFilled slots.old.items free.old.items held (vec_capacity free.old) }
    requires slots_room { id < vec_capacity slots.old }
    requires free_room { id < vec_capacity free.old }
    requires above { vec_len slots.old ≤ id }
    ensures filled { IsFilled slots.new.items free.new.items held (vec_capacity free.new) }
    ensures places { vec_len slots.new ≡ id }
    ensures content { content_from 0 slots.new.items ≡ content_from 0 slots.old.items }
    ensures slots_room { id < vec_capacity slots.new }
    ensures free_room { id < vec_capacity free.new }
{
    for place in slots.len()..id {
        slots.push_reserved(None);
        free.push_reserved(place);
    }
}

// Puts a value into a place without one.
fn fill<T, A: Allocator + Copy>(slots: &mut Vec<Option<T>, A>, id: usize, value: T)
    requires inside { id < vec_len slots.old }
    requires vacant { slice_index_or slots.old.items id None ≡ None }
    ensures { slots.new.items ≡ slice_set slots.old.items id (Some value) }
{
    match mem::replace(&mut slots[id], Some(value)) {
        None => {}
        Some(_) => unreachable!(),
    }
}

// Takes the value out of a place.
fn take_out<T, A: Allocator + Copy>(slots: &mut Vec<Option<T>, A>, id: usize) -> T
    requires inside { id < vec_len slots.old }
    requires used { IsSome (slice_index_or slots.old.items id None) }
    ensures value { slice_index_or slots.old.items id None ≡ Some result }
    ensures emptied { slots.new.items ≡ slice_set slots.old.items id None }
{
    match mem::replace(&mut slots[id], None) {
        None => unreachable!(),
        Some(value) => value,
    }
}

// The value in a slot that has one, for writing.
fn filled_mut<T>(slot: &mut Option<T>) -> &mut T
    requires { IsSome slot.old }
    ensures* writes_back { sem 𝓛 (lends_filled T.row slot.entry result) }
    ensures value { slot.old ≡ Some result.now }
{
    match slot {
        Some(value) => value,
        None => unreachable!(),
    }
}

impl<T, A: Allocator + Copy> Slab<T> for SlotStore<T, A> {
    ghost content = { λ store. content_from 0 store.slots };

    ghost refusals = { λ store. store.refused };

    ghost CanHold = { λ _. Unit {0} };

    fn len(&self) -> usize {
        self.held
    }

    fn get(&self, id: usize) -> Option<&T> {
        self.slots.get(id)?.as_ref()
    }
}

impl<T, A: Allocator + Copy> SlabMut<T> for SlotStore<T, A> {
    ghost use Rattle.std.proofs.Common.{refl};
    ghost use Rattle.std.specs.Mem.{FitsInMemory};
    ghost use Rattle.btree_store.specs.SlotLaws.{content-written};
    ghost use Rattle.btree_more_stores.specs.Table.{with_value};

    type Origin = A;

    ghost MayRefuse = { λ _. Unit {0} };

    ghost Fits = { FitsInMemory T.row };

    ghost written = { with_value };

    ghost content_written = { λ store id value used. content-written store.slots id value used };

    ghost refusals_written = { λ store id value. refl };

    fn note_fits() {}

    fn tell_fits() {}

    fn empty(origin: A) -> Self {
        SlotStore::unused(origin)
    }

    fn get_mut(&mut self, id: usize) -> Option<&mut T> {
        let _value = self.get(id)?;
        Some(filled_mut(&mut self.slots[id]))
    }

    // The clauses are those of the trait, and those on the places: it takes a new one only if each has a value.
    fn insert(&mut self, value: T) -> Result<usize, T>
        ensures number { IfOk result (λ id. id < usize.MAX) }
        ensures unused { IfOk result (λ id. map.get (content_from 0 self.old.slots) id ≡ None) }
        ensures stored { IfOk result (Gains (content_from 0 self.old.slots) (content_from 0 self.new.slots) value) }
        ensures uncounted { OnOk result (self.new.refused ≡ self.old.refused) }
        ensures reuses { OnOk result (KeepsPlaces self.old.slots self.new.slots) }

        ensures returned { IfErr result (λ back. back ≡ value) }
        ensures unchanged { OnErr result (content_from 0 self.new.slots ≡ content_from 0 self.old.slots) }
        ensures counted { OnErr result (self.new.refused ≡ self.old.refused + 1) }
        ensures full { OnErr result (IsFull self.old.slots) }
    {
        let end = self.slots.len();
        let has_free = self.held < end;
        if has_free {
            let id = self.free.pop().unwrap();
            fill(&mut self.slots, id, value);
            self.held += 1;
            return Ok(id);
        }
        if reserve(&mut self.slots, &mut self.free, end + 1).is_err() {
            self.refused.tick();
            return Err(value);
        }
        self.slots.push_reserved(Some(value));
        self.held += 1;
        Ok(end)
    }

    fn remove(&mut self, id: usize) -> T {
        let value = take_out(&mut self.slots, id);
        self.free.push_reserved(id);
        self.held -= 1;
        value
    }
}

impl<T, A: Allocator + Copy> Fill<T> for SlotStore<T, A> {
    ghost MayLack = { λ _. Unit {0} };

    ghost reached = { λ store. length store.slots };

    fn unused(origin: A) -> Self {
        SlotStore {
            slots: Vec::new(origin),
            free: Vec::new(origin),
            held: 0,
            refused: Steps::new(),
        }
    }

    fn insert_under(&mut self, id: usize, value: T) -> Result<(), T> {
        if id < self.slots.len() || id == usize::MAX {
            return Err(value);
        }
        if reserve(&mut self.slots, &mut self.free, id + 1).is_err() {
            return Err(value);
        }
        add_free(&mut self.slots, &mut self.free, self.held, id);
        self.slots.push_reserved(Some(value));
        self.held += 1;
        Ok(())
    }
}

impl<T: Drop, A: Allocator + Copy> Clear<T> for SlotStore<T, A> {
    fn clear(&mut self) {
        self.slots.clear();
        self.free.clear();
        self.held = 0;
    }
}

impl<T: Clone, A: Allocator + Copy> SlabClone<T> for SlotStore<T, A> {
    ghost MayFail = { λ _. Unit {0} };

    fn try_clone(&self) -> Result<Self, AllocError> {
        let mut free = Vec::with_capacity(*self.free.allocator(), self.slots.len())?;
        free.extend_from_slice(self.free.as_slice())?;
        Ok(SlotStore {
            slots: self.slots.clone()?,
            free,
            held: self.held,
            refused: Steps::new(),
        })
    }
}
