//! The value of an entry, inserted if it is not there.
ghost use Rattle.std.specs.Prelude.{◌≡◌, None, Some, IfErr, IfOk};
ghost use Rattle.std.specs.Borrow.{Bor, LendsSoOk, sem};
ghost use Rattle.std.specs.Fn.{FnOnceReturnsAt};
ghost use Rattle.std.specs.Option.{UnwrapsOrElse};
ghost use Rattle.btree_map.specs.Entry.{EntersValue, HoldsOfAsked, IsRefusedEntry, ReturnsAsked, WritesEntry, asked_key, entry_address, entry_key, entry_map, entry_value};
ghost use Rattle.btree_map.specs.Lent.{entry_lends, entry_rests};

use super::{Entry, OccupiedEntry};
use btree_item::{Address, Refused};
use btree_node::NodesMut;
use std::default::Default;

impl<'a, K: Ord, V, C: NodesMut<K, V>> Entry<'a, K, V, C> {
    /// Returns the address of the key if it is there, and otherwise the back address in a leaf at which it would be inserted, or nowhere if
    /// there are no pairs.
    pub fn address(&self) -> Address
        ensures { result ≡ entry_address self.now }
    {
        match self {
            Entry::Vacant(entry) => entry.address(),
            Entry::Occupied(entry) => entry.address(),
        }
    }

    /// Returns the stored key if it is there, and otherwise the key that was asked for.
    pub fn key(&self) -> &K
        ensures { entry_key self.now ≡ Some result.now }
    {
        match self {
            Entry::Vacant(entry) => entry.key(),
            Entry::Occupied(entry) => entry.key(),
        }
    }
}

impl<'a, K: Ord + Drop, V: Drop, C: NodesMut<K, V>> Entry<'a, K, V, C> {
    /// Inserts `default` if the key is not there, and lends the value for writing. If the key is there, `default` is dropped.
    pub fn or_insert(self, default: V) -> Result<&'a mut V, Refused<K, V>>
        ensures* writes_back { sem 𝓛 (entry_lends K.row V.row C.row C.Origin.row self.entry result) }
        ensures value { IfOk result (λ v.
            UnwrapsOrElse (entry_value self.entry) (λ w. w ≡ default) v.now) }
        ensures returned { IfErr result (ReturnsAsked (asked_key self.entry) (λ w. w ≡ default)) }
    {
        match self {
            Entry::Vacant(vacant) => vacant.insert(default),
            Entry::Occupied(occupied) => Ok(occupied.into_mut()),
        }
    }

    /// Inserts what `default` returns if the key is not there, and lends the value for writing. `default` is called only then, and before
    /// the insertion.
    pub fn or_insert_with<F: FnOnce() -> V>(self, default: F) -> Result<&'a mut V, Refused<K, V>>
        requires { entry_value self ≡ None → F.pre default }
        ensures* writes_back { sem 𝓛 (entry_lends K.row V.row C.row C.Origin.row self.entry result) }
        ensures value { IfOk result (λ v.
            UnwrapsOrElse (entry_value self.entry) (F.post default) v.now) }
        ensures returned { IfErr result (ReturnsAsked (asked_key self.entry) (F.post default)) }
    {
        match self {
            Entry::Vacant(entry) => entry.insert(default()),
            Entry::Occupied(entry) => Ok(entry.into_mut()),
        }
    }

    /// Does the same as `or_insert_with`, and shows `default` the key that was asked for.
    pub fn or_insert_with_key<F: FnOnce(&K) -> V>(
        self,
        default: F,
    ) -> Result<&'a mut V, Refused<K, V>>
        requires { (p : Bor K) → asked_key self ≡ Some p.now → F.pre default p }
        ensures* writes_back { sem 𝓛 (entry_lends K.row V.row C.row C.Origin.row self.entry result) }
        ensures value { IfOk result (λ v. UnwrapsOrElse (entry_value self.entry)
            (HoldsOfAsked self.entry (FnOnceReturnsAt F.FnOnce default)) v.now) }
        ensures returned { IfErr result (λ r.
            ReturnsAsked (asked_key self.entry) (FnOnceReturnsAt F.FnOnce default r.key) r) }
    {
        match self {
            Entry::Vacant(entry) => {
                let value = default(entry.key());
                entry.insert(value)
            }
            Entry::Occupied(entry) => Ok(entry.into_mut()),
        }
    }

    /// Inserts the key with a value, or replaces the value that is there, which is dropped, and returns the entry of the pair.
    pub fn insert_entry(self, value: V) -> Result<OccupiedEntry<'a, K, V, C>, Refused<K, V>>
        ensures* rests { sem 𝓛 (entry_rests K.row V.row C.row C.Origin.row self.entry result) }
        ensures same_map { IfOk result (λ e. e.map.ghost_name ≡ (entry_map self.entry).ghost_name) }
        ensures entered { IfOk result (λ e. EntersValue self.entry e.map.now value e.at) }
        ensures returned { IfErr result (ReturnsAsked (asked_key self.entry) (λ w. w ≡ value)) }
    {
        match self {
            Entry::Vacant(vacant) => vacant.insert_entry(value),
            Entry::Occupied(occupied) => occupied.enter(value),
        }
    }

    /// Inserts the default value if the key is not there, and lends the value for writing.
    pub fn or_default(self) -> Result<&'a mut V, Refused<K, V>>
    where
        V: Default,
        ensures* writes_back { sem 𝓛 (entry_lends K.row V.row C.row C.Origin.row self.entry result) }
        ensures value { IfOk result (λ v.
            UnwrapsOrElse (entry_value self.entry) V.is_default v.now) }
        ensures returned { IfErr result (λ r.
            (asked_key self.entry ≡ Some r.key) × V.is_default r.value) }
    {
        match self {
            Entry::Vacant(entry) => entry.insert(V::default()),
            Entry::Occupied(entry) => Ok(entry.into_mut()),
        }
    }
}
