//! The nodes of the tree, of either kind, and stores of them.
#![tactic(auto)]

mod node;
mod node_stores;

pub use btree_internal::{Branch, Children, ChildrenWithSeparators, InternalNode};
pub use btree_leaf::LeafNode;
pub use btree_view::{Balance, WouldUnderflow};
pub use node::{Node, PoppedItem};
pub use node_stores::{ClearNodes, CloneNodes, Nodes, NodesMut};

/// Internal nodes, under their path in Rust's crate.
pub mod internal {
    pub use btree_internal::{Branch, InsertionError, Internal, InternalNode};
}
