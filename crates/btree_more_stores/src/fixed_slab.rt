//! A store of a fixed number of places.
#![tactic(auto, using(btree_store::specs::SlotLaws::slots))]

ghost use Rattle.std.specs.Prelude.{◌≡◌, ℕ, ◌+◌, ◌<◌, ◌≤◌, IfOk, IfErr, OnOk, OnErr, IsSome, Some, None, option_copied, [], length, slice_index_or, slice_set};
ghost use Rattle.std.specs.Option.{option_copied_mut};
ghost use Rattle.std.specs.Borrow.{sem};
ghost use Rattle.std.specs.FinMap as map;

mod filling;

use crate::fill::Fill;
use arrayvec::ArrayVec;
use btree_steps::Steps;
use btree_store::{Clear, Slab, SlabClone, SlabMut};
use std::alloc::AllocError;
use std::marker::Model;
use std::mem;

/// A store of `N` places, which lie inline with a list of the free ones. It allocates no memory, and refuses a value exactly if it holds
/// `N`.
///
/// Each call takes constant time, except `empty`, `clear` and `try_clone`, which write every place. A move copies the whole table, with
/// its `N` values and `N` numbers, as does whatever moves a map over such a store.
#[derive(Drop)]
pub struct FixedSlab<T, const N: usize> {
    slots: ArrayVec<Option<T>, N>,
    // The places that had a value and are free again.
    free: ArrayVec<usize, N>,
    // The places from this one on never had a value.
    fresh: usize,
    held: usize,
    refused: Steps,
}

impl<T, const N: usize> Model for FixedSlab<T, N> {
    ghost use Rattle.btree_more_stores.specs.Table.{Places, places_code, IsTable};

    ghost Value = { Places T };

    ghost coded = { places_code T.code };

    ghost view = { λ store. record { slots = store.slots.items; fresh = store.fresh; refused = store.refused.count } };

    ghost invariant = { λ store. IsTable N store.slots.items store.free.items store.fresh store.held };
}

// Puts a value into a place without one.
fn fill<T, const N: usize>(slots: &mut ArrayVec<Option<T>, N>, id: usize, value: T)
    requires inside { id < length slots.old.items }
    requires vacant { slice_index_or slots.old.items id None ≡ None }
    ensures { slots.new.items ≡ slice_set slots.old.items id (Some value) }
{
    match mem::replace(&mut slots.as_mut_slice()[id], Some(value)) {
        None => {}
        Some(_) => unreachable!(),
    }
}

// Takes the value out of a place.
fn take_out<T, const N: usize>(slots: &mut ArrayVec<Option<T>, N>, id: usize) -> T
    requires inside { id < length slots.old.items }
    requires used { IsSome (slice_index_or slots.old.items id None) }
    ensures value { slice_index_or slots.old.items id None ≡ Some result }
    ensures emptied { slots.new.items ≡ slice_set slots.old.items id None }
{
    match mem::replace(&mut slots.as_mut_slice()[id], None) {
        None => unreachable!(),
        Some(value) => value,
    }
}

ghost use Rattle.btree_more_stores.specs.Lends.{lends_place};

// The value in a place, for writing.
fn value_mut<T, const N: usize>(slots: &mut ArrayVec<Option<T>, N>, id: usize) -> Option<&mut T>
    ensures* writes_back { sem 𝓛 (lends_place T.row N.row slots.entry id result) }
    ensures value { option_copied_mut result ≡ slice_index_or slots.old.items id None }
{
    match slots.get_mut(id) {
        Some(slot) => slot.as_mut(),
        None => None,
    }
}

impl<T, const N: usize> Slab<T> for FixedSlab<T, N> {
    ghost use Rattle.btree_store.specs.Content.{content_from};

    ghost content = { λ store. content_from 0 store.slots };

    ghost refusals = { λ store. store.refused };

    ghost CanHold = { λ content. map.len content ≤ N };

    fn len(&self) -> usize {
        self.held
    }

    fn get(&self, id: usize) -> Option<&T> {
        match self.slots.as_slice().get(id) {
            Some(slot) => slot.as_ref(),
            None => None,
        }
    }
}

impl<T, const N: usize> SlabMut<T> for FixedSlab<T, N> {
    ghost use Rattle.std.proofs.Common.{refl};
    ghost use Rattle.std.specs.Mem.{FitsInMemory};
    ghost use Rattle.btree_store.specs.SlotLaws.{content-written};
    ghost use Rattle.btree_more_stores.specs.Table.{with_value_at};

    type Origin = ();

    ghost MayRefuse = { λ content. map.len content ≡ N };

    ghost Fits = { FitsInMemory T.row };

    ghost written = { with_value_at };

    ghost content_written = { λ store id value used. content-written store.slots id value used };

    ghost refusals_written = { λ store id value. refl };

    fn note_fits() {}

    fn tell_fits() {}

    fn empty(origin: ()) -> Self {
        FixedSlab::unused(origin)
    }

    fn get_mut(&mut self, id: usize) -> Option<&mut T> {
        match value_mut(&mut self.slots, id) {
            Some(value) => Some(value),
            None => None,
        }
    }

    fn insert(&mut self, value: T) -> Result<usize, T> {
        match self.free.pop() {
            Some(id) => {
                fill(&mut self.slots, id, value);
                self.held += 1;
                Ok(id)
            }
            None => {
                if self.fresh == N {
                    self.refused.tick();
                    return Err(value);
                }
                let id = self.fresh;
                fill(&mut self.slots, id, value);
                self.fresh += 1;
                self.held += 1;
                Ok(id)
            }
        }
    }

    fn remove(&mut self, id: usize) -> T {
        let value = take_out(&mut self.slots, id);
        self.free.push(id);
        self.held -= 1;
        value
    }
}

impl<T: Drop, const N: usize> Clear<T> for FixedSlab<T, N> {
    fn clear(&mut self) {
        self.slots = ArrayVec::from_array_in((), Default::default());
        self.free.clear();
        self.fresh = 0;
        self.held = 0;
    }
}

impl<T: Clone, const N: usize> SlabClone<T> for FixedSlab<T, N> {
    ghost use Rattle.btree_more_stores.specs.Table.{HasFallible};

    ghost MayFail = { HasFallible T.is_infallible };

    fn try_clone(&self) -> Result<Self, AllocError> {
        Ok(FixedSlab {
            slots: self.slots.clone()?,
            free: self.free.clone()?,
            fresh: self.fresh,
            held: self.held,
            refused: Steps::new(),
        })
    }
}
