//! A store that refuses one insertion.
#![tactic(auto)]

ghost use Rattle.std.specs.Prelude.{◌≡◌, ◌≢◌, ℕ, ◌+◌, ◌-◌, ◌<◌, ◌≤◌, IfOk, IfErr, OnOk, OnErr, IsErr, IsSome, Some, None};
ghost use Rattle.std.specs.FinMap as map;
ghost use Rattle.btree_store.specs.Content.{Gains};
ghost use Rattle.btree_more_stores.specs.Gated.{CountsInside};

use btree_steps::Steps;
use btree_store::{Clear, Slab, SlabMut};
use std::marker::Model;

/// A store that refuses one insertion, and otherwise does what its inner store does. It counts every refusal, its own and those of the
/// inner store.
#[derive(Drop)]
pub struct Gate<S> {
    inner: S,
    // Which insertion from now on is refused: 1 is the next one, and 0 none.
    refuses_at: usize,
    refused: Steps,
}

impl<S> Model for Gate<S> {
    ghost use Rattle.btree_more_stores.specs.Gated.{Gated, gated_code};

    ghost Value = { Gated S };

    ghost coded = { gated_code S.code };

    ghost view = { λ gate. record { inner = gate.inner; refuses_at = gate.refuses_at; refused = gate.refused.count } };
}

impl<S> Gate<S> {
    /// Returns a gate in front of a store. It refuses the `refuses_at`-th insertion from now on, where 1 is the next one and 0 none.
    pub fn over(inner: S, refuses_at: usize) -> Self
        ensures { result ≡ record { inner = inner; refuses_at = refuses_at; refused = 0 } }
    {
        Gate {
            inner,
            refuses_at,
            refused: Steps::new(),
        }
    }
}

impl<T, S: Slab<T>> Slab<T> for Gate<S> {
    ghost content = { λ gate. S.content gate.inner };

    ghost refusals = { λ gate. gate.refused };

    ghost CanHold = { S.CanHold };

    fn len(&self) -> usize {
        self.inner.len()
    }

    fn get(&self, id: usize) -> Option<&T> {
        self.inner.get(id)
    }
}

impl<T, S: SlabMut<T>> SlabMut<T> for Gate<S> {
    ghost use Rattle.std.proofs.Common.{refl};

    type Origin = S::Origin;

    ghost Fits = { S.Fits };

    ghost MayRefuse = { λ _. Unit {0} };

    ghost written = { λ gate id value. record gate { inner = S.written gate.inner id value } };

    ghost content_written = { λ gate id value used. S.content_written gate.inner id value used };

    ghost refusals_written = { λ gate id value. refl };

    fn note_fits() {
        S::note_fits();
    }

    fn tell_fits() {
        S::tell_fits();
    }

    // Here and below, the clauses are those of the trait, and one on the insertion that is refused.
    fn empty(origin: S::Origin) -> Self
        ensures content { S.content result.inner ≡ map.empty }
        ensures refusals { result.refused ≡ 0 }
        ensures refuses_at { result.refuses_at ≡ 0 }
    {
        Gate::over(S::empty(origin), 0)
    }

    fn get_mut(&mut self, id: usize) -> Option<&mut T> {
        self.inner.get_mut(id)
    }

    fn insert(&mut self, value: T) -> Result<usize, T>
        ensures number { IfOk result (λ id. id < usize.MAX) }
        ensures unused { IfOk result (λ id. map.get (S.content self.old.inner) id ≡ None) }
        ensures stored { IfOk result (Gains (S.content self.old.inner) (S.content self.new.inner) value) }
        ensures can_hold { OnOk result (S.CanHold (S.content self.new.inner)) }
        ensures uncounted { OnOk result (self.new.refused ≡ self.old.refused) }

        ensures returned { IfErr result (λ back. back ≡ value) }
        ensures unchanged { OnErr result (S.content self.new.inner ≡ S.content self.old.inner) }
        ensures counted { OnErr result (self.new.refused ≡ self.old.refused + 1) }

        // One insertion is refused, and does not reach the inner store. Any other is refused only by that store.
        ensures refuses_at { self.new.refuses_at ≡ self.old.refuses_at - 1 }
        ensures refuses { self.old.refuses_at ≡ 1 → IsErr result × (self.new.inner ≡ self.old.inner) }
        ensures passes { self.old.refuses_at ≢ 1 → OnErr result (S.MayRefuse (S.content self.old.inner)) }
        ensures counted_inside { self.old.refuses_at ≢ 1 → CountsInside S.refusals self.old self.new }
    {
        if self.refuses_at == 1 {
            self.refuses_at = 0;
            self.refused.tick();
            return Err(value);
        }
        if self.refuses_at > 1 {
            self.refuses_at -= 1;
        }
        match self.inner.insert(value) {
            Ok(id) => Ok(id),
            Err(back) => {
                self.refused.tick();
                Err(back)
            }
        }
    }

    fn remove(&mut self, id: usize) -> T
        requires { IsSome (map.get (S.content self.old.inner) id) }
        ensures value { map.get (S.content self.old.inner) id ≡ Some result }
        ensures removed { S.content self.new.inner ≡ map.remove (S.content self.old.inner) id }
        ensures uncounted { self.new.refused ≡ self.old.refused }
        ensures refuses_at { self.new.refuses_at ≡ self.old.refuses_at }
    {
        self.inner.remove(id)
    }
}

impl<T, S: Clear<T>> Clear<T> for Gate<S> {
    fn clear(&mut self)
        ensures content { S.content self.new.inner ≡ map.empty }
        ensures uncounted { self.new.refused ≡ self.old.refused }
        ensures refuses_at { self.new.refuses_at ≡ self.old.refuses_at }
    {
        self.inner.clear();
    }
}
