//! The calls of a node in a book, its text, and the names of the nodes of a raw tree.
//!
//! The text of a node is `leaf under 5 0=0 1=10`, or `internal 100 3=30 101 7=70 102` with the number of each child. A node of a raw tree is
//! named by its path from the root, its number, or `M` if it is the marked one.
#![tactic(auto)]

mod asks;
mod calls;
mod edits;
mod ends;
mod names;
mod text;

pub use crate::asks::read_separators;
pub use crate::calls::serve_node;
pub use crate::edits::objection;
pub use crate::names::{Raw, named, named_address, named_or_none, put_name, put_named};
pub use crate::text::{
    PlainNode, empty_leaf, put_item, put_node_of, put_node_text, read_item, read_node,
};
