//! A store that refuses one chosen insertion.
ghost use Rattle.std.specs.Prelude.{◌+◌};

use crate::Refusing;
use btree_steps::Steps;
use btree_store::{Clear, Slab, SlabClone, SlabMut};
use std::alloc::{AllocError, Global};

/// A store over another one, which counts each insertion as an allocation of the memory beside it, and refuses it if that memory would.
/// So each node can be refused, and not only those for which a slab grows.
#[derive(Drop)]
pub struct RefusingStore<'m, S> {
    store: S,
    memory: &'m Refusing<Global>,
    refused: Steps,
}

impl<T, S: SlabMut<T>> Slab<T> for RefusingStore<'_, S> {
    ghost content = { λ s. S.content s.store };

    ghost refusals = { λ s. S.refusals s.store + s.refused.count };

    ghost CanHold = { S.CanHold };

    fn len(&self) -> usize {
        self.store.len()
    }

    fn get(&self, id: usize) -> Option<&T> {
        self.store.get(id)
    }
}

impl<'m, T, S: SlabMut<T>> SlabMut<T> for RefusingStore<'m, S> {
    ghost use Rattle.std.proofs.Common.{ap};
    ghost use Rattle.std.specs.Mem.{FitsInMemory};

    type Origin = (S::Origin, &'m Refusing<Global>);

    ghost MayRefuse = { λ _. Unit {0} };

    ghost Fits = { S.SlabMut.Fits };

    ghost written = { λ s id value. record s { store = S.SlabMut.written s.store id value } };

    ghost content_written = { λ s id value used. S.SlabMut.content_written s.store id value used };

    ghost refusals_written = { λ s id value. ap (λ n. n + s.refused.count) (S.SlabMut.refusals_written s.store id value) };

    fn note_fits()
        requires { FitsInMemory T.row }
        ensures { S.SlabMut.Fits }
    {
        S::note_fits();
    }

    fn tell_fits()
        requires { S.SlabMut.Fits }
        ensures { FitsInMemory T.row }
    {
        S::tell_fits();
    }

    fn empty(origin: (S::Origin, &'m Refusing<Global>)) -> Self {
        RefusingStore {
            store: S::empty(origin.0),
            memory: origin.1,
            refused: Steps::new(),
        }
    }

    fn get_mut(&mut self, id: usize) -> Option<&mut T> {
        self.store.get_mut(id)
    }

    fn insert(&mut self, value: T) -> Result<usize, T> {
        if self.memory.counts() {
            self.refused.tick();
            return Err(value);
        }
        self.store.insert(value)
    }

    fn remove(&mut self, id: usize) -> T {
        self.store.remove(id)
    }
}

impl<T: Drop, S: Clear<T>> Clear<T> for RefusingStore<'_, S> {
    fn clear(&mut self) {
        self.store.clear();
    }
}

impl<T: Clone, S: SlabClone<T>> SlabClone<T> for RefusingStore<'_, S> {
    ghost MayFail = { λ _. Unit {0} };

    fn try_clone(&self) -> Result<Self, AllocError> {
        Ok(RefusingStore {
            store: self.store.try_clone()?,
            memory: self.memory,
            refused: Steps::new(),
        })
    }
}
