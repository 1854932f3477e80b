//! A store that counts how often it is asked for each value.
ghost use Rattle.std.specs.Prelude.{◌+◌};

use btree_steps::Steps;
use btree_store::{Slab, SlabMut};
use std::cell::Cell;

/// How often each number below 16 was asked for. Above 15 times, a count is not right.
pub struct Asked {
    // The n-th digit to base 16 is for the number n.
    digits: Cell<u64>,
}

impl Asked {
    /// Returns the counts of numbers that were not asked for yet.
    pub fn new() -> Asked {
        Asked {
            digits: Cell::new(0),
        }
    }

    /// Counts that a number was asked for, if it is below 16.
    pub(crate) fn count(&self, id: usize) {
        if id < 16 {
            let weight = 1u64 << (4 * id);
            self.digits.set(self.digits.get().wrapping_add(weight));
        }
    }

    /// Returns how often numbers were asked for in all.
    pub fn all(&self) -> u64 {
        let mut left = self.digits.get();
        let mut all = 0u64;
        for _ in 0..16 {
            all = all.wrapping_add(left % 16);
            left /= 16;
        }
        all
    }

    /// Returns how often the number was asked for that was asked for most often.
    pub fn most(&self) -> u64 {
        let mut left = self.digits.get();
        let mut most = 0u64;
        for _ in 0..16 {
            most = most.max(left % 16);
            left /= 16;
        }
        most
    }

    /// Begins anew, as if no number had been asked for.
    pub fn restart(&self) {
        self.digits.set(0);
    }
}

impl Drop for Asked {
    fn drop(self) {
        let Self { digits: _ } = self;
    }
}

/// A store over another one, which counts how often each number is asked for by `get`.
#[derive(Drop)]
pub struct AskedStore<'m, S> {
    store: S,
    asked: &'m Asked,
    // For the prover: `get_mut` has no proof in a struct of a store and a reference alone.
    refused: Steps,
}

impl<T, S: SlabMut<T>> Slab<T> for AskedStore<'_, S> {
    ghost content = { λ s. S.content s.store };

    ghost refusals = { λ s. S.refusals s.store + s.refused.count };

    ghost CanHold = { S.CanHold };

    fn len(&self) -> usize {
        self.store.len()
    }

    fn get(&self, id: usize) -> Option<&T> {
        self.asked.count(id);
        self.store.get(id)
    }
}

impl<'m, T, S: SlabMut<T>> SlabMut<T> for AskedStore<'m, S> {
    ghost use Rattle.std.proofs.Common.{ap};
    ghost use Rattle.std.specs.Mem.{FitsInMemory};

    type Origin = (S::Origin, &'m Asked);

    ghost MayRefuse = { S.SlabMut.MayRefuse };

    ghost Fits = { S.SlabMut.Fits };

    ghost written = { λ s id value. record s { store = S.SlabMut.written s.store id value } };

    ghost content_written = { λ s id value used. S.SlabMut.content_written s.store id value used };

    ghost refusals_written = { λ s id value. ap (λ n. n + s.refused.count) (S.SlabMut.refusals_written s.store id value) };

    fn note_fits()
        requires { FitsInMemory T.row }
        ensures { S.SlabMut.Fits }
    {
        S::note_fits();
    }

    fn tell_fits()
        requires { S.SlabMut.Fits }
        ensures { FitsInMemory T.row }
    {
        S::tell_fits();
    }

    fn empty(origin: (S::Origin, &'m Asked)) -> Self {
        AskedStore {
            store: S::empty(origin.0),
            asked: origin.1,
            refused: Steps::new(),
        }
    }

    fn get_mut(&mut self, id: usize) -> Option<&mut T> {
        self.store.get_mut(id)
    }

    fn insert(&mut self, value: T) -> Result<usize, T> {
        self.store.insert(value)
    }

    fn remove(&mut self, id: usize) -> T {
        self.store.remove(id)
    }
}
