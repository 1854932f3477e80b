//! A store over the crate `slab`.
#![tactic(auto, using(crate::specs::SlotLaws::slots))]

ghost use Rattle.std.specs.Prelude.{◌≡◌, ℕ, ◌+◌, ◌<◌, Some, None, IsSome, IfOk, IfErr, OnOk, OnErr, OnSome, option_copied};
ghost use Rattle.std.specs.FinMap as map;
ghost use Rattle.slab.specs.Slab.{HasRoomFor};
ghost use Rattle.btree_store.specs.Content.{Gains, content_from};

use crate::{Clear, Slab, SlabMut};
use btree_steps::Steps;
use std::alloc::{Allocator, Global};

/// A store in memory from an allocator. Each call takes constant time, except `clear` and an `insert` that has to make room.
///
/// It refuses a value only if it has to make room and cannot: the allocator has no memory, or no number is left. A value gets the number
/// that the slab tells as its vacant key.
#[derive(Drop)]
pub struct SlabStore<T, A: Allocator = Global> {
    pub(crate) slab: slab::Slab<T, A>,
    pub(crate) refused: Steps,
}

impl<T, A: Allocator> Slab<T> for SlabStore<T, A> {
    ghost content = { λ store. content_from 0 store.slab.slots };

    ghost refusals = { λ store. store.refused.count };

    ghost CanHold = { λ _. Unit {0} };

    fn len(&self) -> usize {
        // For the prover alone: each number is below the capacity, which is a `usize`.
        let _room = self.slab.capacity();
        self.slab.len()
    }

    fn get(&self, id: usize) -> Option<&T> {
        // For the prover alone: each number is below the capacity, which is a `usize`.
        let _room = self.slab.capacity();
        self.slab.get(id)
    }
}

impl<T, A: Allocator> SlabMut<T> for SlabStore<T, A> {
    ghost use Rattle.slab.specs.Slab.{with_value};
    ghost use Rattle.std.proofs.Common.{refl};
    ghost use Rattle.std.specs.Mem.{FitsInMemory};
    ghost use Rattle.btree_store.specs.SlotLaws.{content-written};

    type Origin = A;

    ghost MayRefuse = { λ _. Unit {0} };

    ghost Fits = { FitsInMemory T.row };

    ghost written = { λ store id value. record store { slab = with_value store.slab id value } };

    ghost content_written = { λ store id value used. content-written store.slab.slots id value used };

    ghost refusals_written = { λ store id value. refl };

    fn note_fits() {}

    fn tell_fits() {}

    fn empty(origin: A) -> Self {
        SlabStore {
            slab: slab::Slab::new(origin),
            refused: Steps::new(),
        }
    }

    fn get_mut(&mut self, id: usize) -> Option<&mut T> {
        self.slab.get_mut(id)
    }

    // The clauses are those of the trait, one on the number, and one on when a value is refused.
    #[inline(always)]
    fn insert(&mut self, value: T) -> Result<usize, T>
        ensures number { IfOk result (λ id. id < usize.MAX) }
        ensures unused { IfOk result (λ id. map.get (content_from 0 self.old.slab.slots) id ≡ None) }
        ensures stored { IfOk result (Gains (content_from 0 self.old.slab.slots) (content_from 0 self.new.slab.slots) value) }
        ensures can_hold { OnOk result (Unit {0}) }
        ensures uncounted { OnOk result (self.new.refused.count ≡ self.old.refused.count) }
        ensures vacant { IfOk result (λ id. id ≡ self.old.slab.vacant_key) }

        ensures returned { IfErr result (λ back. back ≡ value) }
        ensures unchanged { OnErr result (content_from 0 self.new.slab.slots ≡ content_from 0 self.old.slab.slots) }
        ensures counted { OnErr result (self.new.refused.count ≡ self.old.refused.count + 1) }
        ensures full { OnErr result (HasRoomFor self.old.slab 1 → ⊥) }
    {
        if self.slab.reserve(1).is_err() {
            self.refused.tick();
            return Err(value);
        }
        let id = self.slab.insert_reserved(value);
        // For the prover: the number is below the capacity.
        let _room = self.slab.capacity();
        Ok(id)
    }

    fn remove(&mut self, id: usize) -> T {
        self.slab.remove(id)
    }
}

impl<T: Drop, A: Allocator> Clear<T> for SlabStore<T, A> {
    fn clear(&mut self) {
        self.slab.clear();
    }
}
