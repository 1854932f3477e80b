//! The leaves of the tree.
#![tactic(auto)]

mod leaf;

pub use leaf::LeafNode;
