//! The map.
ghost use Rattle.std.specs.Prelude.{◌≡◌, ◌↔◌, [], length, Err, IsOk, IsTrue, IsSome, IfSome, IfNone, IfOk, IfErr, OnOk, OnErr, None, option_copied};
ghost use Rattle.std.specs.FinMap as map;
ghost use Rattle.btree_valid.specs.Faults.{IsRawVerdict};
ghost use Rattle.btree_raw.specs.Limit.{IsBTreeWithinLimit, IsWithinLimit};

use btree_ext::{BTreeExt, BTreeExtMut, Tree};
use btree_item::{Address, Fault, Item, Query, Refused, UpdateRefused};
use btree_node::{ClearNodes, NodesMut};
use btree_raw::RawBTree;
use std::marker::Model;

/// A map from keys to values in the order of the keys: a B-tree with its nodes in a store.
///
/// A search by a key or another query makes at most six comparisons at each level. The removal of a pair frees at most as many nodes as the
/// tree has levels, and cannot fail. Only a call that may add a pair, and `clone`, allocates memory.
#[derive(Drop)]
pub struct BTreeMap<K: Ord, V, C: NodesMut<K, V>> {
    pub(crate) tree: Tree<K, V, C>,
}

impl<K: Ord, V, C: NodesMut<K, V>> Model for BTreeMap<K, V, C> {
    ghost use Rattle.std.specs.Coded.{codes};
    ghost use Rattle.btree_laws.specs.TreeState.{TreeState, tree_code};

    ghost Value = { TreeState K V };

    ghost coded = { tree_code (Prim.hlevel codes) };

    ghost view = { λ m. m.tree };
}

impl<K: Ord, V, C: NodesMut<K, V>> BTreeMap<K, V, C> {
    ghost use Rattle.std.specs.Borrow.{sem};
    ghost use Rattle.std.specs.Mem.{FitsInMemory};
    ghost use Rattle.std.specs.Option.{option_copied_mut};
    ghost use Rattle.btree_node.specs.contracts.node.Node.{the_row as node_row};
    ghost use Rattle.btree_item.specs.Pairs.{found_value};
    ghost use Rattle.btree_laws.specs.TreeState.{IsBTree, limited_to, pairs_of, rootless, unlimited};
    ghost use Rattle.btree_ext.specs.Outcomes.{ExchangesLent, ExchangesLentBy};
    ghost use Rattle.btree_map.specs.Lent.{lends_at_key, lends_by};

    /// Returns a map without pairs, over an empty store made from `origin`.
    ///
    /// The contract requires that a node fits in memory. The prover finds that by itself if the types of key and value are known.
    pub fn new(origin: C::Origin) -> Self
        requires { FitsInMemory (node_row K.row V.row) }
        ensures empty { pairs_of result ≡ [] }
        ensures state { result ≡ rootless map.empty (unlimited 0) }
    {
        BTreeMap {
            tree: Tree::new(origin),
        }
    }

    /// Returns a map without pairs that has at most `limit`, over an empty store made from `origin`. With the limit 0 every absent key is
    /// refused.
    ///
    /// The contract requires that a node fits in memory, as that of `new`.
    pub fn with_limit(origin: C::Origin, limit: usize) -> Self
        requires { FitsInMemory (node_row K.row V.row) }
        ensures empty { pairs_of result ≡ [] }
        ensures state { result ≡ rootless map.empty (limited_to limit) }
    {
        BTreeMap {
            tree: Tree::with_limit(origin, limit),
        }
    }

    /// Returns a map without pairs, over an empty store; the store's `len` tells whether it is empty. It keeps its count of refusals.
    ///
    /// The contract requires that a node fits in memory, as that of `new`.
    pub fn in_store(nodes: C) -> Self
        requires fits { FitsInMemory (node_row K.row V.row) }
        requires empty { map.len (C.content nodes) ≡ 0 }
        ensures empty { pairs_of result ≡ [] }
        ensures state { result ≡ rootless map.empty (unlimited (C.refusals nodes)) }
    {
        BTreeMap {
            tree: Tree::in_store(nodes),
        }
    }

    /// Returns how many pairs there are.
    pub fn len(&self) -> usize
        ensures { result ≡ length (pairs_of self.now) }
    {
        self.tree.len()
    }

    /// Returns how many pairs there may be: `usize::MAX`, unless the map was made with another limit.
    pub fn limit(&self) -> usize
        ensures { result ≡ self.now.kept.limit }
    {
        self.tree.limit()
    }

    /// Returns whether there are no pairs.
    pub fn is_empty(&self) -> bool
        ensures { IsTrue result ↔ (pairs_of self.now ≡ []) }
    {
        self.len() == 0
    }

    /// Returns the value at a key equal to the given one, or `None`. It copies nothing.
    pub fn get(&self, key: &K) -> Option<&V>
        ensures { option_copied result ≡ found_value K.cmp key.now (pairs_of self.now) }
    {
        self.tree.get(key)
    }

    /// Returns the value at the key that a query is equal to, or `None`, as `get` does: no key has to be made for it. A text is a query for
    /// keys that are a `String`, and a slice for keys that are a `Vec`.
    pub fn get_by<Q: Query<K>>(&self, query: &Q) -> Option<&V>
        ensures { option_copied result ≡ found_value Q.compare query.now (pairs_of self.now) }
    {
        self.tree.get_by(query)
    }

    /// Returns the value at a key equal to the given one for writing, or `None`. What is written replaces the value, and nothing else
    /// changes: the stored key stays, and so does every address.
    pub fn get_mut(&mut self, key: &K) -> Option<&mut V>
        ensures* writes_back { sem 𝓛 (lends_at_key
            K.row V.row C.row C.Origin.row K.Ord C.NodesMut self.entry key.now result) }
        ensures value { option_copied_mut result ≡ found_value K.cmp key.now (pairs_of self.old) }
        ensures exchanged { IfSome result (ExchangesLent K.cmp key.now self.old) }
    {
        self.tree.get_mut(key)
    }

    /// Returns the value at the key that a query is equal to for writing, or `None`, as `get_mut` does.
    pub fn get_mut_by<Q: Query<K>>(&mut self, query: &Q) -> Option<&mut V>
        ensures* writes_back { sem 𝓛 (lends_by
            K.row V.row C.row C.Origin.row K.Ord C.NodesMut self.entry Q.compare query.now result) }
        ensures value { option_copied_mut result ≡ found_value Q.compare query.now (pairs_of self.old) }
        ensures exchanged { IfSome result (ExchangesLentBy K.cmp Q.compare query.now self.old) }
    {
        self.tree.get_mut_by(query)
    }

    /// Returns the nodes in their store, the number of the root and the length, as a tree of any content.
    pub fn into_raw(self) -> RawBTree<K, V, C>
        ensures value { result ≡ self }
        ensures well_formed { IsBTree K.cmp result }
        ensures within { IsWithinLimit result }
    {
        let BTreeMap { tree } = self;
        tree.into_raw()
    }

    /// Returns a raw tree as a map, if it is well formed and within its limit, and else as it was, with the fault that `validate` returns.
    /// It reads each node of a well formed tree once, and copies nothing.
    pub fn from_raw(raw: RawBTree<K, V, C>) -> Result<Self, (RawBTree<K, V, C>, Fault)>
        ensures exact { IsOk result ↔ IsBTreeWithinLimit raw K.cmp }
        ensures kept { IfOk result (λ map. map ≡ raw) }
        ensures returned { IfErr result (λ r. r.0 ≡ raw) }
        ensures verdict { IfErr result (λ r. IsRawVerdict K.cmp raw (Err r.1)) }
    {
        match Tree::from_raw(raw) {
            Ok(tree) => Ok(BTreeMap { tree }),
            Err(refused) => Err(refused),
        }
    }
}

impl<K: Ord + Drop, V: Drop, C: NodesMut<K, V>> BTreeMap<K, V, C> {
    ghost use Rattle.btree_item.specs.Pairs.{found, found_value, inserted};
    ghost use Rattle.btree_laws.specs.TreeState.{pairs_of};
    ghost use Rattle.btree_ext.specs.Insert.{InsertsByKey, IsGrantedIfAbsent, IsRefusedAtGap};
    ghost use Rattle.btree_ext.specs.InsertAbsent.{InsertsAbsent, IsGapOf};
    ghost use Rattle.btree_ext.specs.Remove.{RemovesBy, RemovesByKey, removed};
    ghost use Rattle.btree_ext.specs.Replace.{ReplacesByKey, replaced};
    ghost use Rattle.btree_ext.specs.Update.{RunsByKey};
    ghost use Rattle.btree_map.specs.Removal.{RemovesValueBy, RemovesValueOf};

    /// Inserts a pair, or replaces the value if the key is there: the stored key stays, and the given one is dropped.
    ///
    /// For an absent key it uses one new node for each consecutive full node from the leaf upward, and one more if the last of them is
    /// the root; for the first pair it uses one. It returns an error, with the pair, if the store refuses one of these nodes, or if the
    /// length has reached its limit.
    pub fn insert(&mut self, key: K, value: V) -> Result<Option<V>, Refused<K, V>>
        ensures old { IfOk result (λ old. old ≡ found_value K.cmp key (pairs_of self.old)) }
        ensures inserted { OnOk result (pairs_of self.new ≡ inserted K.cmp key value (pairs_of self.old)) }
        ensures inserted_by_key { OnOk result (InsertsByKey K.cmp key self.old self.new value) }
        ensures uncounted { OnOk result (self.new.kept ≡ self.old.kept) }

        ensures returned { IfErr result (λ r. (r.key ≡ key) × (r.value ≡ value)) }
        ensures absent { OnErr result (found K.cmp key (pairs_of self.old) ≡ None) }
        ensures cause { IfErr result (λ r.
            IsRefusedAtGap K.cmp key self.old self.new C.MayRefuse r.cause) }
    {
        self.tree.insert(key, value)
    }

    /// Inserts a pair whose key is not there at the address of its gap, as `Tree::insert_absent` does.
    pub(crate) fn insert_absent(
        &mut self,
        gap: Address,
        key: K,
        value: V,
    ) -> Result<Address, Refused<K, V>>
        requires absent { found K.cmp key (pairs_of self.old) ≡ None }
        requires gap { IsGapOf K.cmp key self.old gap }
        ensures inserted { IfOk result (λ b. InsertsAbsent K.cmp key self.old self.new value b) }
        ensures returned { IfErr result (λ r. (r.key ≡ key) × (r.value ≡ value)) }
        ensures cause { IfErr result (λ r.
            IsRefusedAtGap K.cmp key self.old self.new C.MayRefuse r.cause) }
    {
        self.tree.insert_absent(gap, key, value)
    }

    /// Inserts a pair, or replaces key and value if an equal key is there. Returns the pair that was replaced.
    ///
    /// It searches once. For an absent key it does the same as `insert`, and returns the same errors; for a key that is there it changes one
    /// node and cannot fail.
    pub fn replace(&mut self, key: K, value: V) -> Result<Option<(K, V)>, Refused<K, V>>
        ensures old { IfOk result (λ old. old ≡ found K.cmp key (pairs_of self.old)) }
        ensures replaced { OnOk result (pairs_of self.new ≡ replaced K.cmp key value (pairs_of self.old)) }
        ensures replaced_by_key { OnOk result (ReplacesByKey K.cmp key self.old self.new value) }
        ensures uncounted { OnOk result (self.new.kept ≡ self.old.kept) }

        ensures returned { IfErr result (λ r. (r.key ≡ key) × (r.value ≡ value)) }
        ensures absent { OnErr result (found K.cmp key (pairs_of self.old) ≡ None) }
        ensures cause { IfErr result (λ r.
            IsRefusedAtGap K.cmp key self.old self.new C.MayRefuse r.cause) }
    {
        self.tree.replace(key, value)
    }

    /// Removes a key equal to the given one, and returns its value. Returns `None`, and nothing changes, if there is none.
    ///
    /// It searches once.
    pub fn remove(&mut self, key: &K) -> Option<V>
        ensures value { result ≡ found_value K.cmp key.now (pairs_of self.old) }
        ensures removed { pairs_of self.new ≡ removed K.cmp key.now (pairs_of self.old) }
        ensures removed_by_key { IfSome result (RemovesValueOf K.cmp key.now self.old self.new) }
        ensures unchanged { IfNone result (self.new ≡ self.old) }
    {
        match self.tree.remove_entry(key) {
            Some((_stored, value)) => Some(value),
            None => None,
        }
    }

    /// Removes a key equal to the given one, and returns the stored key with its value. Otherwise it does the same as `remove`.
    pub fn remove_entry(&mut self, key: &K) -> Option<(K, V)>
        ensures entry { result ≡ found K.cmp key.now (pairs_of self.old) }
        ensures removed { pairs_of self.new ≡ removed K.cmp key.now (pairs_of self.old) }
        ensures removed_by_key { IfSome result (λ x. RemovesByKey self.old self.new K.cmp key.now x) }
        ensures unchanged { IfNone result (self.new ≡ self.old) }
    {
        self.tree.remove_entry(key)
    }

    /// Does the same as `remove_entry`.
    pub fn take(&mut self, key: &K) -> Option<(K, V)>
        ensures entry { result ≡ found K.cmp key.now (pairs_of self.old) }
        ensures removed { pairs_of self.new ≡ removed K.cmp key.now (pairs_of self.old) }
        ensures removed_by_key { IfSome result (λ x. RemovesByKey self.old self.new K.cmp key.now x) }
        ensures unchanged { IfNone result (self.new ≡ self.old) }
    {
        self.tree.remove_entry(key)
    }

    /// Removes the key that a query is equal to, and returns its value. Otherwise it does the same as `remove`.
    pub fn remove_by<Q: Query<K>>(&mut self, query: &Q) -> Option<V>
        ensures value { result ≡ found_value Q.compare query.now (pairs_of self.old) }
        ensures removed { pairs_of self.new ≡ removed Q.compare query.now (pairs_of self.old) }
        ensures removed_by { IfSome result
            (RemovesValueBy K.cmp Q.compare query.now self.old self.new) }
        ensures unchanged { IfNone result (self.new ≡ self.old) }
    {
        match self.tree.remove_entry_by(query) {
            Some((_stored, value)) => Some(value),
            None => None,
        }
    }

    /// Removes the key that a query is equal to, and returns it with its value. Otherwise it does the same as `remove`.
    pub fn remove_entry_by<Q: Query<K>>(&mut self, query: &Q) -> Option<(K, V)>
        ensures entry { result ≡ found Q.compare query.now (pairs_of self.old) }
        ensures removed { pairs_of self.new ≡ removed Q.compare query.now (pairs_of self.old) }
        ensures removed_by { IfSome result (λ x. RemovesBy self.old self.new K.cmp Q.compare query.now x) }
        ensures unchanged { IfNone result (self.new ≡ self.old) }
    {
        self.tree.remove_entry_by(query)
    }

    /// Calls `action` with the value at a key, or with `None` if the key is not there. The value that it gives is stored at the key: an
    /// equal key stays, and the given one is dropped. If it gives none, the pair is removed, or none is added. Returns the action's answer.
    ///
    /// It searches once. For an absent key the nodes that `insert` would use are claimed before the call, and freed again if the action gives
    /// no value. It returns an error, with the key and the action, which was not called, if the store refuses one of these nodes, or if
    /// the length has reached its limit. Then nothing but the count of refusals has changed.
    pub fn update<T, F: FnOnce(Option<V>) -> (Option<V>, T)>(
        &mut self,
        key: K,
        action: F,
    ) -> Result<T, UpdateRefused<K, F>>
        requires callable { F.pre action (found_value K.cmp key (pairs_of self.old)) }
        ensures updated { IfOk result (λ t. RunsByKey K.cmp self.old self.new (F.post action) key t) }
        ensures uncounted { OnOk result (self.new.kept ≡ self.old.kept) }
        ensures granted { OnOk result (IsGrantedIfAbsent K.cmp key self.old C.CanHold) }

        ensures returned { IfErr result (λ r. (r.key ≡ key) × (r.action ≡ action)) }
        ensures absent { OnErr result (found K.cmp key (pairs_of self.old) ≡ None) }
        ensures cause { IfErr result (λ r.
            IsRefusedAtGap K.cmp key self.old self.new C.MayRefuse r.cause) }
    {
        self.tree.update(key, action)
    }
}

impl<K: Ord, V, C: ClearNodes<K, V>> BTreeMap<K, V, C> {
    ghost use Rattle.btree_laws.specs.TreeState.{pairs_of, rootless};

    /// Removes all pairs. The store has no node then, and the count of refusals stays.
    pub fn clear(&mut self)
        ensures empty { pairs_of self.new ≡ [] }
        ensures state { self.new ≡ rootless map.empty self.old.kept }
    {
        self.tree.clear();
    }
}

impl<K: Ord, V, C: NodesMut<K, V>> BTreeExt<K, V> for BTreeMap<K, V, C> {
    type Nodes = C;

    ghost state = { λ m. m };

    fn as_raw(&self) -> &RawBTree<K, V, C> {
        self.tree.as_raw()
    }
}

impl<K: Ord + Drop, V: Drop, C: NodesMut<K, V>> BTreeExtMut<K, V> for BTreeMap<K, V, C> {
    ghost use Rattle.btree_item.specs.Pairs.{found, found_value};
    ghost use Rattle.btree_laws.specs.TreeState.{IsLeafAddressIn, IsUsed, IsValidIn, pairs_of};
    ghost use Rattle.btree_find.specs.Fits.{FitsAt, FitsIn, pairs_below};
    ghost use Rattle.btree_ext.specs.Insert.{IsGrantedIfAbsent, IsRefusedAtGap};
    ghost use Rattle.btree_ext.specs.InsertAt.{InsertsAt, IsRefusedAt};
    ghost use Rattle.btree_ext.specs.Update.{RunsByKey};
    ghost use Rattle.btree_ext.specs.ValueWritten.{value_written};

    ghost with_value = { value_written };

    fn pair_mut(&mut self, addr: Address) -> (&K, &mut V) {
        self.tree.pair_mut(addr)
    }

    fn get_mut_in(&mut self, key: &K, id: usize) -> Option<&mut V> {
        self.tree.get_mut_in(key, id)
    }

    // The clauses are those of the trait, with the store's own name for what it may refuse.
    fn insert_at(&mut self, addr: Address, item: Item<K, V>) -> Result<Address, Refused<K, V>>
        requires valid { IsValidIn self.old addr }
        requires back { IsSome addr.offset }
        requires fits { FitsAt K.cmp item.0 self.old addr }
        ensures inserted { IfOk result (λ b. InsertsAt self.old self.new addr K.cmp b item) }
        ensures returned { IfErr result (λ r. (r.key, r.value) ≡ item) }
        ensures refused { IfErr result (λ r. IsRefusedAt self.old self.new addr C.MayRefuse r.cause) }
    {
        self.tree.insert_at(addr, item)
    }

    fn insert_exactly_at(
        &mut self,
        addr: Address,
        item: Item<K, V>,
    ) -> Result<Address, Refused<K, V>>
        requires valid { IsValidIn self.old addr }
        requires back { IsSome addr.offset }
        requires leaf { IsLeafAddressIn self.old addr }
        requires fits { FitsAt K.cmp item.0 self.old addr }
        ensures inserted { IfOk result (λ b. InsertsAt self.old self.new addr K.cmp b item) }
        ensures returned { IfErr result (λ r. (r.key, r.value) ≡ item) }
        ensures refused { IfErr result (λ r. IsRefusedAt self.old self.new addr C.MayRefuse r.cause) }
    {
        self.tree.insert_exactly_at(addr, item)
    }

    fn replace_at(&mut self, addr: Address, key: K, value: V) -> (K, V) {
        self.tree.replace_at(addr, key, value)
    }

    fn replace_key_at(&mut self, addr: Address, key: K) -> K {
        self.tree.replace_key_at(addr, key)
    }

    fn replace_value_at(&mut self, addr: Address, value: V) -> V {
        self.tree.replace_value_at(addr, value)
    }

    fn remove_at(&mut self, addr: Address) -> Option<(Item<K, V>, Address)> {
        self.tree.remove_at(addr)
    }

    fn update_at<T, F: FnOnce(V) -> (Option<V>, T)>(&mut self, addr: Address, action: F) -> T {
        self.tree.update_at(addr, action)
    }

    // The clauses are those of the trait, with the store's own name for what it may refuse.
    fn update_in<T, F: FnOnce(Option<V>) -> (Option<V>, T)>(
        &mut self,
        id: usize,
        key: K,
        action: F,
    ) -> Result<T, UpdateRefused<K, F>>
        requires used { IsUsed self.old id }
        requires fits { FitsIn K.cmp key self.old id }
        requires callable { F.pre action (found_value K.cmp key (pairs_of self.old)) }
        ensures updated { IfOk result (λ t. RunsByKey K.cmp self.old self.new (F.post action) key t) }
        ensures under { found K.cmp key (pairs_below self.old id) ≡ found K.cmp key (pairs_of self.old) }
        ensures uncounted { OnOk result (self.new.kept ≡ self.old.kept) }
        ensures granted { OnOk result (IsGrantedIfAbsent K.cmp key self.old C.CanHold) }

        ensures returned { IfErr result (λ r. (r.key ≡ key) × (r.action ≡ action)) }
        ensures absent { OnErr result (found K.cmp key (pairs_of self.old) ≡ None) }
        ensures cause { IfErr result (λ r.
            IsRefusedAtGap K.cmp key self.old self.new C.MayRefuse r.cause) }
    {
        self.tree.update_in(id, key, action)
    }
}
