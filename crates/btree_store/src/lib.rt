//! Stores of values under numbers that the store picks.
//!
//! A store is a finite map from numbers below `usize::MAX` to values, with a count of the values that it refused.
//! [`Slab`] reads one, [`SlabMut`] changes one, [`Clear`] empties one, [`SlabClone`] clones one, and [`SlabStore`] is one in memory from
//! an allocator.
#![tactic(auto)]

mod clone;
mod slab_store;
mod traits;

pub use clone::SlabClone;
pub use slab_store::SlabStore;
pub use traits::{Clear, Slab, SlabMut};
