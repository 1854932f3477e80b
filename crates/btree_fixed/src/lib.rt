//! Maps and sets over a fixed table of nodes: an insertion is refused exactly if the nodes that it needs do not fit.
//!
//! Each function does what the call does that it names, and its contract says so. What it adds is the clause `exact`: below its limit,
//! a map or a set refuses an absent key exactly if the nodes that it holds and those that the insertion needs are more than `N`. So it
//! takes every one up to the 3N-th (`few`), and it holds at most `N` nodes (`held`).
#![tactic(auto)]

ghost use Rattle.btree_laws.specs.TreeState.{IsBTree};
ghost use Rattle.btree_fixed.specs.Capacity.{HoldsAtMost};

mod entries;
mod keys;
mod places;
mod present;
mod room;
mod sets;

use btree_ext::BTreeExt;
use btree_map::BTreeMap;
use btree_more_stores::FixedSlab;
use btree_node::Node;
use btree_set::BTreeSet;
pub use entries::{insert_vacant, or_insert};
pub use keys::{insert, replace, update, update_in};
pub use places::{insert_at, insert_exactly_at, insert_from};
pub use present::{insert_present, replace_present, update_present};
pub use room::{insert_at_with_room, insert_with_room, update_with_room};
pub use sets::{insert_element, replace_element};

/// A map with its nodes in `N` places inside itself, with no memory from an allocator. A move copies all of them.
pub type FixedMap<K, V, const N: usize> = BTreeMap<K, V, FixedSlab<Node<K, V>, N>>;

/// A set with its nodes in `N` places inside itself, with no memory from an allocator. A move copies all of them.
pub type FixedSet<T, const N: usize> = BTreeSet<T, FixedSlab<Node<T, ()>, N>>;

// Gives the prover the facts that the table holds its nodes and that they are well formed. It reads one number.
fn tell_held<K: Ord, V, const N: usize>(map: &FixedMap<K, V, N>)
    ensures held { HoldsAtMost N map.now.nodes }
    ensures tree { IsBTree K.cmp map.now }
{
    let _count = map.node_count();
    map.tell_well_formed();
}
