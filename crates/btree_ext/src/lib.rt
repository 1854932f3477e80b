//! The tree, always well formed, over any lawful store of nodes: look-up, navigation and reads by address, and its changes: insertion at a
//! gap or at an address, removal at an address or by key, the exchange of a value and of a pair, and updates by an action.
//!
//! A search by a key or another query makes at most six comparisons at each level that it visits.
#![tactic(auto)]

mod ext;
mod ext_mut;
mod insertion;
mod insertion_at;
mod removal;
mod replacement;
mod taken;
mod tree;
mod updates;
mod updates_at;
mod values;

pub use ext::BTreeExt;
pub use ext_mut::BTreeExtMut;
pub use tree::Tree;
