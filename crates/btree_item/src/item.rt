//! Items: keys with their values.
ghost use Rattle.std.specs.Prelude.{◌≡◌, IsTrue};
ghost use Rattle.std.proofs.Common.{rules};
ghost use Rattle.std.specs.Borrow.{sem};
ghost use Rattle.std.specs.Cmp.Rules.{comparing};
ghost use Rattle.std.specs.Ordering.{on};

use std::cmp::Ordering;
use std::marker::Model;
use std::mem;

/// A value with a key, by which lists of such values are searched.
pub trait Keyed {
    type Key;

    ghost key_of: { Self → Self.Key };

    fn key(&self) -> &Self::Key
        ensures { result.now ≡ key_of self.now };
}

/// A key and its value. Items are compared by their keys alone.
#[derive(Clone, Drop)]
pub struct Item<K, V> {
    pair: (K, V),
}

impl<K, V> Model for Item<K, V> {
    ghost Value = { K × V };

    ghost view = { λ item. item.pair };

    ghost inverse = { λ pair. record { pair = pair } };
}

impl<K, V> Item<K, V> {
    ghost use Rattle.btree_item.specs.Item.{lends_key, lends_value, lends_pair};

    pub fn new(key: K, value: V) -> Self
        ensures { result ≡ (key, value) }
    {
        Item { pair: (key, value) }
    }

    pub fn key(&self) -> &K
        ensures { result.now ≡ self.now.0 }
    {
        &self.pair.0
    }

    /// Returns the key for writing. In a node the order of the keys is then up to the caller.
    pub fn key_mut(&mut self) -> &mut K
        ensures* writes_back { sem 𝓛 (lends_key K.row V.row self.entry result) }
        ensures key { result.now ≡ self.old.0 }
    {
        &mut self.pair.0
    }

    pub fn value(&self) -> &V
        ensures { result.now ≡ self.now.1 }
    {
        &self.pair.1
    }

    /// Returns the value for writing.
    pub fn value_mut(&mut self) -> &mut V
        ensures* writes_back { sem 𝓛 (lends_value K.row V.row self.entry result) }
        ensures value { result.now ≡ self.old.1 }
    {
        &mut self.pair.1
    }

    /// Replaces both, and returns the old ones.
    pub fn set(&mut self, key: K, value: V) -> (K, V)
        ensures answer { result ≡ self.old }
        ensures after { self.new ≡ (key, value) }
    {
        mem::replace(&mut self.pair, (key, value))
    }

    /// Replaces the key, and returns the old one.
    pub fn set_key(&mut self, key: K) -> K
        ensures answer { result ≡ self.old.0 }
        ensures after { self.new ≡ (key, self.old.1) }
    {
        mem::replace(&mut self.pair.0, key)
    }

    /// Replaces the value, and returns the old one.
    pub fn set_value(&mut self, value: V) -> V
        ensures answer { result ≡ self.old.1 }
        ensures after { self.new ≡ (self.old.0, value) }
    {
        mem::replace(&mut self.pair.1, value)
    }

    pub fn into_pair(self) -> (K, V)
        ensures { result ≡ self }
    {
        let Item { pair } = self;
        pair
    }

    /// Does the same as `into_pair`.
    pub fn into_inner(self) -> (K, V)
        ensures { result ≡ self }
    {
        self.into_pair()
    }

    pub fn as_pair(&self) -> (&K, &V)
        ensures key { result.0.now ≡ self.now.0 }
        ensures value { result.1.now ≡ self.now.1 }
    {
        (&self.pair.0, &self.pair.1)
    }

    /// Returns both for writing. The item is then what was written, but the contract does not say so: a caller that needs that uses
    /// `pair_mut`.
    pub fn as_pair_mut(&mut self) -> (&mut K, &mut V)
        ensures key { result.0.now ≡ self.old.0 }
        ensures value { result.1.now ≡ self.old.1 }
    {
        let (key, value) = self.pair_mut();
        (key, value)
    }

    /// Returns both as one pair, for writing.
    pub fn pair_mut(&mut self) -> &mut (K, V)
        ensures* writes_back { sem 𝓛 (lends_pair K.row V.row self.entry result) }
        ensures pair { result.now ≡ self.old }
    {
        &mut self.pair
    }

    /// Returns the item itself, like Rust's `as_ref`.
    pub fn as_item(&self) -> &Item<K, V>
        ensures { result.now ≡ self.now }
    {
        self
    }
}

impl<K, V: Drop> Item<K, V> {
    /// Returns the key, and drops the value.
    pub fn into_key(self) -> K
        ensures { result ≡ self.0 }
    {
        self.into_pair().0
    }
}

impl<K: Drop, V> Item<K, V> {
    /// Returns the value, and drops the key.
    pub fn into_value(self) -> V
        ensures { result ≡ self.1 }
    {
        self.into_pair().1
    }
}

impl<K, V> Keyed for Item<K, V> {
    type Key = K;

    ghost key_of = { λ item. item.0 };

    fn key(&self) -> &K {
        Item::key(self)
    }
}

impl<K: PartialEq, V> PartialEq for Item<K, V> {
    ghost eq = { on (λ item. item.0) K.eq };

    ghost laws = { Prim.search (comparing, rules) };

    fn eq(&self, other: &Self) -> bool {
        self.pair.0 == other.pair.0
    }
}

impl<K: Eq, V> Eq for Item<K, V> {
    ghost laws = { Prim.search (comparing, rules) };
}

impl<K: PartialOrd, V> PartialOrd for Item<K, V> {
    ghost partial_cmp = { on (λ item. item.0) K.partial_cmp };

    ghost laws = { Prim.search (comparing, rules) };

    fn partial_cmp(&self, other: &Self) -> Option<Ordering> {
        self.pair.0.partial_cmp(&other.pair.0)
    }
}

impl<K: Ord, V> Ord for Item<K, V> {
    ghost cmp = { on (λ item. item.0) K.cmp };

    ghost total = { Prim.search (comparing, rules) };

    ghost matches_partial_cmp = { Prim.search (comparing, rules) };

    ghost matches_eq = { Prim.search (comparing, rules) };

    fn cmp(&self, other: &Self) -> Ordering {
        self.pair.0.cmp(&other.pair.0)
    }
}
