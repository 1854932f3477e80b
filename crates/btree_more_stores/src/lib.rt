//! More stores with the laws of `btree_store`.
//!
//! [`FixedSlab`] has a fixed number of places and takes no memory from an allocator. [`OddSlab`] uses odd numbers that go down, and
//! [`Gate`] refuses one insertion of another store: with these a caller over any store can be tried. [`SlotStore`] takes nodes under chosen
//! numbers ([`Fill`]) and goes on from there.
#![tactic(auto)]

mod fill;
mod fixed_slab;
mod gate;
mod odd_slab;
mod slot_store;

pub use fill::Fill;
pub use fixed_slab::FixedSlab;
pub use gate::Gate;
pub use odd_slab::OddSlab;
pub use slot_store::SlotStore;
