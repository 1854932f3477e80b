//! The types of entries.
ghost use Rattle.std.specs.Prelude.{◌≡◌, None, IsSome};
ghost use Rattle.btree_item.specs.Pairs.{found};
ghost use Rattle.btree_laws.specs.TreeState.{item_of, pairs_of};
ghost use Rattle.btree_ext.specs.InsertAbsent.{IsGapOf};

mod calls;
mod fmt;
mod modify;
mod occupied;
mod vacant;

use crate::BTreeMap;
use btree_item::Address;
use btree_node::{Node, NodesMut};
use btree_store::SlabStore;

/// The entry of a key in a map, from one search. Its calls compare no keys. A refused insertion returns key and value.
#[derive(Drop)]
pub enum Entry<'a, K: Ord, V, C: NodesMut<K, V> = SlabStore<Node<K, V>>> {
    /// The key is not there.
    Vacant(VacantEntry<'a, K, V, C>),
    /// The key is there.
    Occupied(OccupiedEntry<'a, K, V, C>),
}

/// The entry of a key that is not there, with the place where it would be.
///
/// An insertion compares no keys. It uses the same nodes as an insertion by key, and returns the same errors, with key and value.
#[derive(Drop)]
pub struct VacantEntry<'a, K: Ord, V, C: NodesMut<K, V> = SlabStore<Node<K, V>>> {
    pub(crate) map: &'a mut BTreeMap<K, V, C>,
    pub(crate) key: K,
    pub(crate) gap: Address,
    ghost absent: { found K.cmp key (pairs_of map.now) ≡ None },
    ghost stands: { IsGapOf K.cmp key map.now gap },
}

/// The entry of a key that is there. Its calls compare no keys, and cannot fail. A removal frees at most as many nodes as the map has levels.
#[derive(Drop)]
pub struct OccupiedEntry<'a, K: Ord, V, C: NodesMut<K, V> = SlabStore<Node<K, V>>> {
    pub(crate) map: &'a mut BTreeMap<K, V, C>,
    pub(crate) at: Address,
    ghost occupied: { IsSome (item_of map.now at) },
}
