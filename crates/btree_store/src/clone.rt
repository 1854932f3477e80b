//! Clones of stores.
ghost use Rattle.std.specs.Prelude.{◌≡◌, IfOk, OnErr};
ghost use Rattle.btree_store.specs.Content.{Content};

use crate::{SlabMut, SlabStore};
use btree_steps::Steps;
use std::alloc::{AllocError, Allocator};

/// A store that can be cloned.
pub trait SlabClone<T: Clone>: SlabMut<T> {
    /// The contents that it may fail to clone. It clones every other one.
    ghost MayFail: { Content T → Type 0 };

    /// Returns a store with a clone of each value under the same number, which has refused no value yet. It fails only if the clone of a
    /// value fails, or if there is no memory for the store.
    ///
    /// The contract requires that a clone of a value is equal to it.
    fn try_clone(&self) -> Result<Self, AllocError>
        requires { (x copy : T) → T.is_clone x copy → copy ≡ x }
        ensures content { IfOk result (λ copy. Self.content copy ≡ Self.content self.now) }
        ensures refusals { IfOk result (λ copy. Self.refusals copy ≡ 0) }
        ensures may_fail { OnErr result (MayFail (Self.content self.now)) };
}

impl<T: Clone, A: Allocator + Clone> SlabClone<T> for SlabStore<T, A> {
    ghost MayFail = { λ _. Unit {0} };

    fn try_clone(&self) -> Result<Self, AllocError> {
        Ok(SlabStore {
            slab: self.slab.clone()?,
            refused: Steps::new(),
        })
    }
}
