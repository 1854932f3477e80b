//! A store over a `Vec`.
#![tactic(auto, using(crate::specs::GrowingSlots::growing_slots))]

ghost use Rattle.std.specs.Prelude.{◌≡◌, ◌+◌, ◌<◌, ◌≤◌, Some, None, IsSome, IfOk, IfErr, OnOk, OnErr, refl, vec_capacity, vec_len};
ghost use Rattle.std.specs.Borrow.{sem};
ghost use Rattle.std.specs.FinMap as map;
ghost use Rattle.btree_store.specs.Content.{Gains};
ghost use Rattle.example_stores.specs.GrowingSlots.{content-with_value, content_of, with_value};
ghost use Rattle.example_stores.specs.Lends.{lends_filled};

use btree_steps::Steps;
use btree_store::{Slab, SlabMut};
use std::alloc::{Allocator, Global};

/// A store over a `Vec`. It uses each number once, counted from 0, and refuses a value only if the vector cannot grow.
///
/// Each call takes constant time, except `len`, which counts the values, and an `insert` that makes room. No removed value's place is reused.
#[derive(Drop)]
pub struct VecStore<T, A: Allocator = Global> {
    slots: Vec<Option<T>, A>,
    refused: Steps,
}

// The value in a slot that has one, for writing.
fn filled_mut<T>(slot: &mut Option<T>) -> &mut T
    requires { IsSome slot.old }
    ensures* writes_back { sem 𝓛 (lends_filled T.row slot.entry result) }
    ensures value { slot.old ≡ Some result.now }
{
    match slot {
        Some(value) => value,
        None => unreachable!(),
    }
}

impl<T, A: Allocator> Slab<T> for VecStore<T, A> {
    ghost content = { λ store. content_of store.slots };

    ghost refusals = { λ store. store.refused.count };

    ghost CanHold = { λ _. Unit {0} };

    fn len(&self) -> usize {
        self.slots.iter().filter(|slot| slot.is_some()).count()
    }

    fn get(&self, id: usize) -> Option<&T> {
        self.slots.get(id)?.as_ref()
    }
}

impl<T, A: Allocator> SlabMut<T> for VecStore<T, A> {
    ghost use Rattle.std.specs.Mem.{FitsInMemory};

    type Origin = A;

    ghost MayRefuse = { λ _. Unit {0} };

    ghost Fits = { FitsInMemory T.row };

    ghost written = { λ store id value. record store { slots = with_value store.slots id value } };

    ghost content_written = { λ store id value used. content-with_value store.slots id value used };

    ghost refusals_written = { λ store id value. refl };

    fn note_fits() {}

    fn tell_fits() {}

    // Here and below, the clauses are those of the trait, and those on the length of the vector.
    fn empty(origin: A) -> Self
        ensures content { content_of result.slots ≡ map.empty }
        ensures refusals { result.refused.count ≡ 0 }
        ensures from_zero { vec_len result.slots ≡ 0 }
    {
        VecStore {
            slots: Vec::new(origin),
            refused: Steps::new(),
        }
    }

    fn get_mut(&mut self, id: usize) -> Option<&mut T> {
        let _value = self.get(id)?;
        Some(filled_mut(&mut self.slots[id]))
    }

    fn insert(&mut self, value: T) -> Result<usize, T>
        ensures number { IfOk result (λ id. id < usize.MAX) }
        ensures unused { IfOk result (λ id. map.get (content_of self.old.slots) id ≡ None) }
        ensures stored { IfOk result (Gains (content_of self.old.slots) (content_of self.new.slots) value) }
        ensures uncounted { OnOk result (self.new.refused.count ≡ self.old.refused.count) }
        ensures next { IfOk result (λ id. id ≡ vec_len self.old.slots) }
        ensures grows { OnOk result (vec_len self.new.slots ≡ vec_len self.old.slots + 1) }
        ensures returned { IfErr result (λ back. back ≡ value) }
        ensures unchanged { OnErr result (content_of self.new.slots ≡ content_of self.old.slots) }
        ensures counted { OnErr result (self.new.refused.count ≡ self.old.refused.count + 1) }
        ensures stays { OnErr result (vec_len self.new.slots ≡ vec_len self.old.slots) }
        ensures full { OnErr result (vec_capacity self.old.slots ≤ vec_len self.old.slots) }
    {
        let id = self.slots.len();
        if self.slots.reserve(1).is_err() {
            self.refused.tick();
            return Err(value);
        }
        self.slots.push_reserved(Some(value));
        Ok(id)
    }

    fn remove(&mut self, id: usize) -> T
        requires { IsSome (map.get (content_of self.old.slots) id) }
        ensures value { map.get (content_of self.old.slots) id ≡ Some result }
        ensures removed { content_of self.new.slots ≡ map.remove (content_of self.old.slots) id }
        ensures uncounted { self.new.refused.count ≡ self.old.refused.count }
        ensures stays { vec_len self.new.slots ≡ vec_len self.old.slots }
    {
        self.slots[id].take().unwrap()
    }
}
