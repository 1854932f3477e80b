//! Removal at both ends.
ghost use Rattle.std.specs.Prelude.{◌≡◌, IfNone, IfSome, slice_get};
ghost use Rattle.std.specs.Iterator.{YieldsFirst, YieldsLast};
ghost use Rattle.btree_laws.specs.TreeState.{pairs_of};
ghost use Rattle.btree_map.specs.Lists.{last_of, last_place};
ghost use Rattle.btree_map.specs.Removal.{RemovesPlace};

use crate::BTreeMap;
use btree_ext::{BTreeExt, BTreeExtMut};
use btree_node::NodesMut;

impl<K: Ord + Drop, V: Drop, C: NodesMut<K, V>> BTreeMap<K, V, C> {
    /// Removes the first pair, and returns it. Returns `None`, and nothing changes, if there are no pairs.
    ///
    /// It compares no keys.
    pub fn pop_first(&mut self) -> Option<(K, V)>
        ensures pair { result ≡ slice_get (pairs_of self.old) 0 }
        ensures rest { YieldsFirst pairs_of self.old result self.new }
        ensures removed { IfSome result (λ x. RemovesPlace self.old self.new K.cmp 0 x) }
        ensures unchanged { IfNone result (self.new ≡ self.old) }
    {
        match self.tree.first_item_address() {
            Some(addr) => match self.tree.remove_at(addr) {
                Some((first, _)) => Some(first.into_pair()),
                None => unreachable!(),
            },
            None => None,
        }
    }

    /// Removes the last pair, and returns it. Returns `None`, and nothing changes, if there are no pairs.
    ///
    /// It compares no keys.
    pub fn pop_last(&mut self) -> Option<(K, V)>
        ensures pair { result ≡ last_of (pairs_of self.old) }
        ensures rest { YieldsLast pairs_of self.old result self.new }
        ensures removed { IfSome result (RemovesPlace self.old self.new K.cmp (last_place self.old)) }
        ensures unchanged { IfNone result (self.new ≡ self.old) }
    {
        match self.tree.last_item_address() {
            Some(addr) => match self.tree.remove_at(addr) {
                Some((last, _)) => Some(last.into_pair()),
                None => unreachable!(),
            },
            None => None,
        }
    }
}
