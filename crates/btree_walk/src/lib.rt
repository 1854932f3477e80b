//! Walks through a tree in the order of the keys. They allocate no memory.
#![tactic(auto)]

mod ancestors;
mod at_key;
mod backward;
mod bounds;
mod fetched;
mod iter;
mod keys;
mod near;
mod range;
mod walks;

pub use bounds::is_valid_range;
pub use iter::Iter;
pub use keys::{Keys, Values};
pub use range::Range;
