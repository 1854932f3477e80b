//! Stores of one's own, to copy: docs/STORES.md goes through them.
//!
//! [`OnePlace`] is the smallest store there is, and [`VecStore`] one over a `Vec`.
#![tactic(auto)]

mod one_place;
mod vec_store;

pub use one_place::OnePlace;
pub use vec_store::VecStore;
