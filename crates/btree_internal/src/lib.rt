//! The internal nodes of the tree.
#![tactic(auto)]

mod children;
mod internal;

pub use children::{Children, ChildrenWithSeparators};
pub use internal::{Branch, InsertionError, Internal, InternalNode};
