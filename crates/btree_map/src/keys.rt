//! Look-up by key, by another query and at both ends.
ghost use Rattle.std.specs.Prelude.{◌≡◌, ◌↔◌, IsSome, IsTrue, Some, option_map, slice_get};
ghost use Rattle.btree_item.specs.Pairs.{found, found_value};
ghost use Rattle.btree_laws.specs.TreeState.{item_of, pairs_of};
ghost use Rattle.btree_map.specs.Lists.{last_of};

use crate::BTreeMap;
use btree_ext::{BTreeExt, Tree};
use btree_item::{Address, Query};
use btree_node::NodesMut;
use std::ops::Index;

/// Returns the pair at an address, or `None` if no item is there.
pub(crate) fn pair_at<K: Ord, V, C: NodesMut<K, V>>(
    tree: &Tree<K, V, C>,
    addr: Address,
) -> Option<(&K, &V)>
    ensures { option_map (λ p. (p.0.now, p.1.now)) result ≡ item_of tree.now addr }
{
    match tree.item(addr) {
        Some(item) => Some((item.key(), item.value())),
        None => None,
    }
}

impl<K: Ord, V, C: NodesMut<K, V>> BTreeMap<K, V, C> {
    /// Returns the stored key that is equal to the given one, and its value, or `None`.
    pub fn get_key_value(&self, key: &K) -> Option<(&K, &V)>
        ensures { option_map (λ p. (p.0.now, p.1.now)) result ≡ found K.cmp key.now (pairs_of self.now) }
    {
        match self.tree.address_of(key) {
            Ok(addr) => pair_at(&self.tree, addr),
            Err(_) => None,
        }
    }

    /// Returns the stored key that a query is equal to, and its value, or `None`, as `get_key_value` does.
    pub fn get_key_value_by<Q: Query<K>>(&self, query: &Q) -> Option<(&K, &V)>
        ensures { option_map (λ p. (p.0.now, p.1.now)) result ≡ found Q.compare query.now (pairs_of self.now) }
    {
        match self.tree.address_by(query) {
            Ok(addr) => pair_at(&self.tree, addr),
            Err(_) => None,
        }
    }

    /// Returns whether a key is equal to the given one.
    pub fn contains_key(&self, key: &K) -> bool
        ensures { IsTrue result ↔ IsSome (found K.cmp key.now (pairs_of self.now)) }
    {
        self.tree.get(key).is_some()
    }

    /// Returns whether a query is equal to a key.
    pub fn contains_key_by<Q: Query<K>>(&self, query: &Q) -> bool
        ensures { IsTrue result ↔ IsSome (found Q.compare query.now (pairs_of self.now)) }
    {
        self.tree.get_by(query).is_some()
    }

    /// Returns the first pair, or `None` if there are no pairs. It reads one node of each level, and compares no keys.
    pub fn first_key_value(&self) -> Option<(&K, &V)>
        ensures { option_map (λ p. (p.0.now, p.1.now)) result ≡ slice_get (pairs_of self.now) 0 }
    {
        match self.tree.first_item_address() {
            Some(addr) => pair_at(&self.tree, addr),
            None => None,
        }
    }

    /// Returns the last pair, or `None` if there are no pairs. It reads one node of each level, and compares no keys.
    pub fn last_key_value(&self) -> Option<(&K, &V)>
        ensures { option_map (λ p. (p.0.now, p.1.now)) result ≡ last_of (pairs_of self.now) }
    {
        match self.tree.last_item_address() {
            Some(addr) => pair_at(&self.tree, addr),
            None => None,
        }
    }
}

impl<'q, K: Ord, V, C: NodesMut<K, V>> Index<&'q K> for BTreeMap<K, V, C> {
    type Output = V;

    ghost can_index = { λ m key. IsSome (found K.cmp key.now (pairs_of m)) };

    ghost index_gives = { λ m key value. found_value K.cmp key.now (pairs_of m) ≡ Some value };

    /// Returns the value at a key equal to the given one. The key must be there: `contains_key` decides that.
    fn index(&self, key: &'q K) -> &V {
        self.get(key).unwrap()
    }
}
