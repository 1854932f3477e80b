//! The search for an entry: by key, or at an end.
ghost use Rattle.std.specs.Prelude.{◌≡◌, IfSome, slice_get};
ghost use Rattle.std.specs.Borrow.{RestsIfNone, sem};
ghost use Rattle.btree_item.specs.Pairs.{found, inserted};
ghost use Rattle.btree_laws.specs.TreeState.{pairs_of};
ghost use Rattle.btree_find.specs.Answers.{IsAddressOf};
ghost use Rattle.btree_map.specs.Entry.{asked_key, entry_map, entry_pair, entry_search, list_with_value, pair_of_occupied};
ghost use Rattle.btree_map.specs.Lent.{rests_if_none};
ghost use Rattle.btree_map.specs.Lists.{last_of};

use crate::BTreeMap;
use crate::entry::{Entry, OccupiedEntry, VacantEntry};
use btree_ext::BTreeExt;
use btree_node::NodesMut;

impl<K: Ord, V, C: NodesMut<K, V>> BTreeMap<K, V, C> {
    /// Returns the entry of a key, to read, insert, change or remove its value. If an equal key is there, it stays, and the
    /// given one is dropped.
    ///
    /// It searches once, and changes nothing.
    pub fn entry(&mut self, key: K) -> Entry<'_, K, V, C>
    where
        K: Drop,
        ensures same_map { (entry_map result).ghost_name ≡ self.entry.ghost_name }
        ensures unchanged { (entry_map result).now ≡ self.old }
        ensures address { IsAddressOf K.cmp key self.old (entry_search result) }
        ensures pair { entry_pair result ≡ found K.cmp key (pairs_of self.old) }
        ensures asked { IfSome (asked_key result) (λ k. k ≡ key) }
        ensures writes { (w : V) →
            list_with_value result w ≡ inserted K.cmp key w (pairs_of self.old) }
    {
        match self.address_of(&key) {
            Ok(at) => Entry::Occupied(OccupiedEntry { map: self, at }),
            Err(gap) => Entry::Vacant(VacantEntry {
                map: self,
                key,
                gap,
            }),
        }
    }

    /// Returns the entry of the first pair, or `None` if there are no pairs. It reads one node of each level, and compares no keys.
    pub fn first_entry(&mut self) -> Option<OccupiedEntry<'_, K, V, C>>
        ensures* rests { sem 𝓛 (rests_if_none K.row V.row C.row C.Origin.row self.entry result) }
        ensures same_map { IfSome result (λ e. e.map.ghost_name ≡ self.entry.ghost_name) }
        ensures unchanged { IfSome result (λ e. e.map.now ≡ self.old) }
        ensures pair { pair_of_occupied result ≡ slice_get (pairs_of self.old) 0 }
    {
        match self.first_item_address() {
            Some(first) => Some(OccupiedEntry {
                map: self,
                at: first,
            }),
            None => None,
        }
    }

    /// Returns the entry of the last pair, or `None` if there are no pairs. It reads one node of each level, and compares no keys.
    pub fn last_entry(&mut self) -> Option<OccupiedEntry<'_, K, V, C>>
        ensures* rests { sem 𝓛 (rests_if_none K.row V.row C.row C.Origin.row self.entry result) }
        ensures same_map { IfSome result (λ e. e.map.ghost_name ≡ self.entry.ghost_name) }
        ensures unchanged { IfSome result (λ e. e.map.now ≡ self.old) }
        ensures pair { pair_of_occupied result ≡ last_of (pairs_of self.old) }
    {
        match self.last_item_address() {
            Some(last) => Some(OccupiedEntry {
                map: self,
                at: last,
            }),
            None => None,
        }
    }
}
