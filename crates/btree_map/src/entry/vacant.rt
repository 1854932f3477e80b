//! An entry whose key is not there.
ghost use Rattle.std.specs.Prelude.{◌≡◌, IfErr, IfOk};
ghost use Rattle.std.specs.Borrow.{sem};
ghost use Rattle.btree_ext.specs.InsertAbsent.{InsertsAbsent};
ghost use Rattle.btree_map.specs.Lent.{lends_inserted, rests_if_refused};

use super::{OccupiedEntry, VacantEntry};
use btree_ext::BTreeExtMut;
use btree_item::{Address, Refused};
use btree_node::NodesMut;

impl<'a, K: Ord, V, C: NodesMut<K, V>> VacantEntry<'a, K, V, C> {
    /// Returns the back address in a leaf at which the key would be inserted, or nowhere if there are no pairs.
    pub fn address(&self) -> Address
        ensures { result ≡ self.now.gap }
    {
        self.gap
    }

    /// Returns the key that was asked for.
    pub fn key(&self) -> &K
        ensures { result.now ≡ self.now.key }
    {
        &self.key
    }

    /// Gives back the key that was asked for. The map is unchanged.
    pub fn into_key(self) -> K
        ensures key { result ≡ self.entry.key }
        ensures unchanged { self.exit.0.now ≡ self.entry.map.now }
    {
        let VacantEntry {
            map: _,
            key,
            gap: _,
        } = self;
        key
    }
}

impl<'a, K: Ord + Drop, V: Drop, C: NodesMut<K, V>> VacantEntry<'a, K, V, C> {
    /// Inserts the key with a value, and lends the value for writing.
    pub fn insert(self, value: V) -> Result<&'a mut V, Refused<K, V>>
        ensures* writes_back { sem 𝓛 (lends_inserted
            K.row V.row C.row C.Origin.row self.entry value result) }
        ensures value { IfOk result (λ v. v.now ≡ value) }
        ensures returned { IfErr result (λ r. (r.key ≡ self.entry.key) × (r.value ≡ value)) }
    {
        let VacantEntry { map, key, gap } = self;
        match map.insert_absent(gap, key, value) {
            Ok(addr) => {
                let (_key, lent) = map.pair_mut(addr);
                Ok(lent)
            }
            Err(refused) => Err(refused),
        }
    }

    /// Inserts the key with a value, and returns the entry of the pair.
    pub fn insert_entry(self, value: V) -> Result<OccupiedEntry<'a, K, V, C>, Refused<K, V>>
        ensures* rests { sem 𝓛 (rests_if_refused
            K.row V.row C.row C.Origin.row self.entry result) }
        ensures same_map { IfOk result (λ e. e.map.ghost_name ≡ self.entry.map.ghost_name) }
        ensures inserted { IfOk result (λ e.
            InsertsAbsent K.cmp self.entry.key self.entry.map.now e.map.now value e.at) }
        ensures returned { IfErr result (λ r. (r.key ≡ self.entry.key) × (r.value ≡ value)) }
    {
        let VacantEntry { map, key, gap } = self;
        match map.insert_absent(gap, key, value) {
            Ok(at) => Ok(OccupiedEntry { map, at }),
            Err(refused) => Err(refused),
        }
    }
}
