//! An entry whose key is there.
ghost use Rattle.std.specs.Prelude.{◌≡◌, IfOk, IsOk, IsSome, Some, option_map};
ghost use Rattle.std.specs.Borrow.{sem};
ghost use Rattle.btree_laws.specs.TreeState.{item_of};
ghost use Rattle.btree_map.specs.Entry.{with_entry_value};
ghost use Rattle.btree_map.specs.Lent.{lends_in_entry, lends_occupied, rests_if_entered};
ghost use Rattle.btree_map.specs.Written.{RemovesAt, RemovesValueAt, WritesLentAt, WritesValueAt};

use super::OccupiedEntry;
use crate::BTreeMap;
use btree_ext::{BTreeExt, BTreeExtMut};
use btree_item::{Address, Refused};
use btree_node::NodesMut;
use std::mem;

fn take_at<K: Ord + Drop, V: Drop, C: NodesMut<K, V>>(
    map: &mut BTreeMap<K, V, C>,
    addr: Address,
) -> (K, V)
    requires { IsSome (item_of map.old addr) }
    ensures { RemovesAt K.cmp map.old map.new addr result }
{
    match map.remove_at(addr) {
        Some((item, _)) => item.into_pair(),
        None => unreachable!(),
    }
}

impl<'a, K: Ord, V, C: NodesMut<K, V>> OccupiedEntry<'a, K, V, C> {
    /// Returns the address of the pair.
    pub fn address(&self) -> Address
        ensures { result ≡ self.now.at }
    {
        self.at
    }

    /// Returns the stored key.
    pub fn key(&self) -> &K
        ensures { option_map (λ x. x.0) (item_of self.now.map.now self.now.at) ≡ Some result.now }
    {
        match self.map.item(self.at) {
            Some(item) => item.key(),
            None => unreachable!(),
        }
    }

    /// Returns the value.
    pub fn get(&self) -> &V
        ensures { option_map (λ x. x.1) (item_of self.now.map.now self.now.at) ≡ Some result.now }
    {
        match self.map.item(self.at) {
            Some(item) => item.value(),
            None => unreachable!(),
        }
    }
}

impl<'a, K: Ord + Drop, V: Drop, C: NodesMut<K, V>> OccupiedEntry<'a, K, V, C> {
    /// Returns the value for writing. What is written replaces the value, and nothing else changes: the stored key stays, and so does every
    /// address. See `into_mut` for a value that outlives the entry.
    pub fn get_mut(&mut self) -> &mut V
        ensures* writes_back { sem 𝓛 (lends_in_entry
            K.row V.row C.row C.Origin.row self.entry result) }
        ensures value { option_map (λ x. x.1) (item_of self.old.map.now self.old.at) ≡ Some result.now }
        ensures writes { WritesLentAt K.cmp self.old.map.now self.old.at result.now }
    {
        let at = self.at;
        let (_key, value) = self.map.pair_mut(at);
        value
    }

    /// Replaces the value, and returns the old one. The stored key stays, and so does every address.
    pub fn insert(&mut self, value: V) -> V
        ensures written { self.new ≡ with_entry_value self.old value }
        ensures writes { WritesValueAt K.cmp self.old.map.now
            self.new.map.now self.old.at result value }
    {
        mem::replace(self.get_mut(), value)
    }

    /// Replaces the value, which is dropped, and returns the entry. It cannot fail: the result is that of `insert_entry`.
    pub(crate) fn enter(self, value: V) -> Result<OccupiedEntry<'a, K, V, C>, Refused<K, V>>
        ensures* rests { sem 𝓛 (rests_if_entered
            K.row V.row C.row C.Origin.row self.entry result) }
        ensures same_map { IfOk result (λ e. e.map.ghost_name ≡ self.entry.map.ghost_name) }
        ensures at { IfOk result (λ e. e.at ≡ self.entry.at) }
        ensures writes { IfOk result (λ e. (was : V) ×
            WritesValueAt K.cmp self.entry.map.now e.map.now self.entry.at was value) }
        ensures succeeds { IsOk result }
    {
        let OccupiedEntry { map, at } = self;
        map.tell_well_formed();
        drop(map.replace_value_at(at, value));
        Ok(OccupiedEntry { map, at })
    }

    /// Returns the value for writing, for as long as the map is lent. What is written replaces the value, and nothing else changes: the
    /// stored key stays, and so does every address.
    pub fn into_mut(self) -> &'a mut V
        ensures* writes_back { sem 𝓛 (lends_occupied
            K.row V.row C.row C.Origin.row self.entry result) }
        ensures value { option_map (λ x. x.1) (item_of self.entry.map.now self.entry.at) ≡ Some result.now }
        ensures writes { WritesLentAt K.cmp self.entry.map.now self.entry.at result.now }
    {
        let OccupiedEntry { map, at } = self;
        let (_key, value) = map.pair_mut(at);
        value
    }

    /// Removes the pair, and returns its value. The stored key is dropped.
    pub fn remove(self) -> V
        ensures { RemovesValueAt K.cmp self.entry.map.now self.exit.0.now self.entry.at result }
    {
        let (_key, value) = self.remove_entry();
        value
    }

    /// Removes the pair, and returns it with the stored key.
    pub fn remove_entry(self) -> (K, V)
        ensures { RemovesAt K.cmp self.entry.map.now self.exit.0.now self.entry.at result }
    {
        let at = self.at;
        take_at(self.map, at)
    }
}
