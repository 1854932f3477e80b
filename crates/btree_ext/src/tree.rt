//! The tree, always well formed.
ghost use Rattle.std.specs.Prelude.{◌≡◌, ◌≤◌, ◌↔◌, [], length, None, Err, option_copied, IsOk, IsSome, IfSome, IfNone, IfOk, OnOk, IfErr, OnErr};
ghost use Rattle.std.specs.FinMap as map;
ghost use Rattle.btree_node.specs.contracts.node.Node.{the_row as node_row};
ghost use Rattle.btree_valid.specs.Faults.{IsRawVerdict};
ghost use Rattle.btree_raw.specs.Limit.{IsBTreeWithinLimit, IsWithinLimit};

use crate::ext::BTreeExt;
use crate::ext_mut::BTreeExtMut;
use crate::insertion::{insert, insert_absent};
use crate::insertion_at::{insert_at, insert_exactly_at};
use crate::removal::{remove_at, remove_by, remove_entry};
use crate::replacement::{replace, replace_at, replace_key_at};
use crate::updates::{update, update_in};
use crate::updates_at::update_at;
use crate::values::{exchange, get_mut, get_mut_by, get_mut_in, pair_mut};
use btree_find::get;
use btree_item::{Address, Fault, Item, Query, Refused, UpdateRefused};
use btree_node::{ClearNodes, CloneNodes, NodesMut};
use btree_raw::RawBTree;
use std::alloc::AllocError;
use std::marker::Model;
use std::mem;

/// A well formed tree of nodes in a store. Its pairs are always a list in the order of the keys.
///
/// A search by a key or another query makes at most six comparisons at each level. Only a call that may add a pair, and `clone`, allocates
/// memory.
#[derive(Drop)]
pub struct Tree<K: Ord, V, C: NodesMut<K, V>> {
    raw: RawBTree<K, V, C>,
}

impl<K: Ord, V, C: NodesMut<K, V>> Model for Tree<K, V, C> {
    ghost use Rattle.std.specs.Coded.{codes};
    ghost use Rattle.btree_laws.specs.TreeState.{TreeState, tree_code};
    ghost use Rattle.btree_raw.specs.Limit.{IsBTreeWithinLimit};

    ghost Value = { TreeState K V };

    ghost coded = { tree_code (Prim.hlevel codes) };

    ghost view = { λ t. t.raw };

    ghost invariant = { λ t. IsBTreeWithinLimit t.raw K.cmp };
}

impl<K: Ord, V, C: NodesMut<K, V>> Tree<K, V, C> {
    ghost use Rattle.std.specs.Borrow.{sem};
    ghost use Rattle.std.specs.Mem.{FitsInMemory};
    ghost use Rattle.std.specs.Option.{option_copied_mut};
    ghost use Rattle.btree_item.specs.Pairs.{found_value};
    ghost use Rattle.btree_laws.specs.TreeState.{IsBTree, limited_to, pairs_of, rootless, unlimited, with_limit};
    ghost use Rattle.btree_ext.specs.Outcomes.{ExchangesLent, ExchangesLentBy};
    ghost use Rattle.btree_ext.specs.TreeLent.{lends_at_key, lends_by};

    /// Returns a tree without pairs, over an empty store made from `origin`.
    ///
    /// The contract requires that a node fits in memory. The prover finds that by itself if the types of key and value are known.
    pub fn new(origin: C::Origin) -> Self
        requires { FitsInMemory (node_row K.row V.row) }
        ensures empty { pairs_of result ≡ [] }
        ensures state { result ≡ rootless map.empty (unlimited 0) }
    {
        Tree {
            raw: RawBTree::new(origin),
        }
    }

    /// Returns a tree without pairs that has at most `limit`, over an empty store made from `origin`.
    ///
    /// The contract requires that a node fits in memory, as that of `new`.
    pub fn with_limit(origin: C::Origin, limit: usize) -> Self
        requires { FitsInMemory (node_row K.row V.row) }
        ensures empty { pairs_of result ≡ [] }
        ensures state { result ≡ rootless map.empty (limited_to limit) }
    {
        let mut raw = RawBTree::new(origin);
        raw.set_limit(limit);
        Tree { raw }
    }

    /// Returns a tree without pairs, over an empty store; the store's `len` tells whether it is empty. It keeps its count of refusals.
    ///
    /// The contract requires that a node fits in memory, as that of `new`.
    pub fn in_store(nodes: C) -> Self
        requires fits { FitsInMemory (node_row K.row V.row) }
        requires empty { map.len (C.content nodes) ≡ 0 }
        ensures empty { pairs_of result ≡ [] }
        ensures state { result ≡ rootless map.empty (unlimited (C.refusals nodes)) }
    {
        Tree {
            raw: RawBTree::in_store(nodes),
        }
    }

    /// Gives the prover the fact that a node fits in memory, which it does not find where the types of key and value are parameters. It
    /// does nothing at run time.
    pub fn tell_fits(&self)
        ensures { FitsInMemory (node_row K.row V.row) }
    {
        self.raw.tell_fits();
    }

    /// Returns how many pairs there are.
    pub fn len(&self) -> usize
        ensures { result ≡ length (pairs_of self.now) }
    {
        self.raw.len()
    }

    /// Returns how many pairs there may be.
    pub fn limit(&self) -> usize
        ensures { result ≡ self.now.kept.limit }
    {
        self.raw.limit()
    }

    /// Exchanges the pairs of two trees, with their stores. Each keeps its limit, which must not be below the length of the other.
    pub fn swap(&mut self, other: &mut Self)
        requires fits { length (pairs_of other.old) ≤ self.old.kept.limit }
        requires other_fits { length (pairs_of self.old) ≤ other.old.kept.limit }
        ensures swapped { self.new ≡ with_limit other.old self.old.kept.limit }
        ensures other_swapped { other.new ≡ with_limit self.old other.old.kept.limit }
    {
        let (limit, other_limit) = (self.raw.limit(), other.raw.limit());
        mem::swap(&mut self.raw, &mut other.raw);
        self.raw.set_limit(limit);
        other.raw.set_limit(other_limit);
    }

    /// Returns the value at a key equal to the given one, or `None`. It copies nothing.
    pub fn get(&self, key: &K) -> Option<&V>
        ensures { option_copied result ≡ found_value K.cmp key.now (pairs_of self.now) }
    {
        get(&self.raw, key)
    }

    /// Returns the value at the key that a query is equal to, or `None`, as `get` does.
    pub fn get_by<Q: Query<K>>(&self, query: &Q) -> Option<&V>
        ensures { option_copied result ≡ found_value Q.compare query.now (pairs_of self.now) }
    {
        get(&self.raw, query)
    }

    /// Returns the value at a key equal to the given one for writing, or `None`. What is written replaces the value, and nothing else
    /// changes: the stored key stays, and so does every address.
    pub fn get_mut(&mut self, key: &K) -> Option<&mut V>
        ensures* writes_back { sem 𝓛 (lends_at_key
            K.row V.row C.row C.Origin.row K.Ord C.NodesMut self.entry key.now result) }
        ensures value { option_copied_mut result ≡ found_value K.cmp key.now (pairs_of self.old) }
        ensures exchanged { IfSome result (ExchangesLent K.cmp key.now self.old) }
    {
        get_mut(&mut self.raw, key)
    }

    /// Returns the value at the key that a query is equal to for writing, or `None`, as `get_mut` does.
    pub fn get_mut_by<Q: Query<K>>(&mut self, query: &Q) -> Option<&mut V>
        ensures* writes_back { sem 𝓛 (lends_by
            K.row V.row C.row C.Origin.row K.Ord C.NodesMut self.entry Q.compare query.now result) }
        ensures value { option_copied_mut result ≡ found_value Q.compare query.now (pairs_of self.old) }
        ensures exchanged { IfSome result (ExchangesLentBy K.cmp Q.compare query.now self.old) }
    {
        get_mut_by(&mut self.raw, query)
    }

    /// Returns the nodes in their store, the number of the root and the length, as a tree of any content.
    pub fn into_raw(self) -> RawBTree<K, V, C>
        ensures value { result ≡ self }
        ensures well_formed { IsBTree K.cmp result }
        ensures within { IsWithinLimit result }
    {
        let Tree { raw } = self;
        raw
    }

    /// Returns a raw tree as a tree, if it is well formed and within its limit, and else as it was, with the fault that `validate` returns.
    /// It reads each node of a well formed tree once, and copies nothing.
    pub fn from_raw(raw: RawBTree<K, V, C>) -> Result<Self, (RawBTree<K, V, C>, Fault)>
        ensures exact { IsOk result ↔ IsBTreeWithinLimit raw K.cmp }
        ensures kept { IfOk result (λ tree. tree ≡ raw) }
        ensures returned { IfErr result (λ r. r.0 ≡ raw) }
        ensures verdict { IfErr result (λ r. IsRawVerdict K.cmp raw (Err r.1)) }
    {
        match raw.validate() {
            Ok(()) => Ok(Tree { raw }),
            Err(fault) => Err((raw, fault)),
        }
    }
}

impl<K: Ord + Drop, V: Drop, C: NodesMut<K, V>> Tree<K, V, C> {
    ghost use Rattle.btree_item.specs.Pairs.{found, found_value};
    ghost use Rattle.btree_laws.specs.TreeState.{pairs_of};
    ghost use Rattle.btree_ext.specs.ByKey.{InsertOutcome, ReplaceOutcome, UpdateOutcome};
    ghost use Rattle.btree_ext.specs.Insert.{IsRefusedAtGap};
    ghost use Rattle.btree_ext.specs.InsertAbsent.{InsertsAbsent, IsGapOf};
    ghost use Rattle.btree_ext.specs.Remove.{RemovesBy, RemovesByKey, removed};

    /// Inserts a pair, or replaces the value if the key is there: the stored key stays, and the given one is dropped.
    ///
    /// For an absent key it uses one new node for each consecutive full node from the leaf upward, and one more if the last of them is
    /// the root; for the first pair it uses one. It returns an error, with the pair, if the store refuses one of these nodes, or if the
    /// length has reached its limit.
    pub fn insert(&mut self, key: K, value: V) -> Result<Option<V>, Refused<K, V>>
        ensures { InsertOutcome K.cmp key self.old self.new C.MayRefuse value result }
    {
        insert(&mut self.raw, key, value)
    }

    /// Inserts a pair with an absent key, at the address of its gap, which `address_of` returns. Returns the address of the pair. It
    /// compares no keys.
    ///
    /// It uses the same nodes as `insert`, and returns the same errors.
    pub fn insert_absent(
        &mut self,
        gap: Address,
        key: K,
        value: V,
    ) -> Result<Address, Refused<K, V>>
        requires absent { found K.cmp key (pairs_of self.old) ≡ None }
        requires gap { IsGapOf K.cmp key self.old gap }
        ensures inserted { IfOk result (λ b. InsertsAbsent K.cmp key self.old self.new value b) }
        ensures returned { IfErr result (λ r. (r.key ≡ key) × (r.value ≡ value)) }
        ensures cause { IfErr result (λ r.
            IsRefusedAtGap K.cmp key self.old self.new C.MayRefuse r.cause) }
    {
        insert_absent(&mut self.raw, gap, key, value)
    }

    /// Inserts a pair, or replaces key and value if an equal key is there. Returns the pair that was replaced.
    ///
    /// It searches once. For an absent key it does the same as `insert`, and returns the same errors; for a key that is there it changes one
    /// node and cannot fail.
    pub fn replace(&mut self, key: K, value: V) -> Result<Option<(K, V)>, Refused<K, V>>
        ensures { ReplaceOutcome K.cmp key self.old self.new C.MayRefuse value result }
    {
        replace(&mut self.raw, key, value)
    }

    /// Removes the pair whose key is equal to the given one, and returns it. Returns `None`, and nothing changes, if there is none.
    ///
    /// It searches once. It frees at most as many nodes as the tree has levels and cannot fail.
    pub fn remove_entry(&mut self, key: &K) -> Option<(K, V)>
        ensures entry { result ≡ found K.cmp key.now (pairs_of self.old) }
        ensures removed { pairs_of self.new ≡ removed K.cmp key.now (pairs_of self.old) }
        ensures removed_by_key { IfSome result (λ x. RemovesByKey self.old self.new K.cmp key.now x) }
        ensures unchanged { IfNone result (self.new ≡ self.old) }
    {
        match remove_entry(&mut self.raw, key) {
            Some(item) => Some(item.into_pair()),
            None => None,
        }
    }

    /// Removes the pair whose key a query is equal to, and returns it. Otherwise it does the same as `remove_entry`.
    pub fn remove_entry_by<Q: Query<K>>(&mut self, query: &Q) -> Option<(K, V)>
        ensures entry { result ≡ found Q.compare query.now (pairs_of self.old) }
        ensures removed { pairs_of self.new ≡ removed Q.compare query.now (pairs_of self.old) }
        ensures removed_by { IfSome result (λ x. RemovesBy self.old self.new K.cmp Q.compare query.now x) }
        ensures unchanged { IfNone result (self.new ≡ self.old) }
    {
        match remove_by(&mut self.raw, query) {
            Some(item) => Some(item.into_pair()),
            None => None,
        }
    }

    /// Calls `action` with the value at a key, or with `None` if the key is not there. The value that it gives is stored at the key: an
    /// equal key stays, and the given one is dropped. If it gives none, the pair is removed, or none is added. Returns the action's answer.
    ///
    /// It searches once. For an absent key the nodes that `insert` would use are claimed before the call, and freed again if the action gives
    /// no value. It returns an error, with the key and the action, which was not called, if the store refuses one of these nodes, or if
    /// the length has reached its limit. Then nothing but the count of refusals has changed.
    pub fn update<T, F: FnOnce(Option<V>) -> (Option<V>, T)>(
        &mut self,
        key: K,
        action: F,
    ) -> Result<T, UpdateRefused<K, F>>
        requires callable { F.pre action (found_value K.cmp key (pairs_of self.old)) }
        ensures { UpdateOutcome K.cmp key self.old self.new
            C.MayRefuse C.CanHold (F.post action) action result }
    {
        update(&mut self.raw, key, action)
    }
}

impl<K: Ord, V, C: ClearNodes<K, V>> Tree<K, V, C> {
    ghost use Rattle.btree_laws.specs.TreeState.{pairs_of, rootless};

    /// Removes all pairs. The store has no node then, and the count of refusals stays.
    pub fn clear(&mut self)
        ensures empty { pairs_of self.new ≡ [] }
        ensures state { self.new ≡ rootless map.empty self.old.kept }
    {
        self.raw.clear();
    }
}

impl<K: Ord + Clone, V: Clone, C: CloneNodes<K, V>> Tree<K, V, C> {
    ghost use Rattle.btree_laws.specs.TreeState.{pairs_of, unrefused};

    /// Returns a tree with clones of the keys and values, whose nodes have the same numbers. Its store has refused no node yet. It fails only if
    /// the clone of the store fails.
    ///
    /// The contract requires that a clone of a key or a value is equal to it.
    pub fn clone(&self) -> Result<Self, AllocError>
        requires keys { (x copy : K) → K.is_clone x copy → copy ≡ x }
        requires values { (x copy : V) → V.is_clone x copy → copy ≡ x }
        ensures pairs { IfOk result (λ copy. pairs_of copy ≡ pairs_of self.now) }
        ensures state { IfOk result (λ copy. copy ≡ unrefused self.now) }
        ensures may_fail { OnErr result (C.MayFail self.now.nodes) }
    {
        Ok(Tree {
            raw: self.raw.clone()?,
        })
    }
}

impl<K: Ord, V, C: NodesMut<K, V>> BTreeExt<K, V> for Tree<K, V, C> {
    type Nodes = C;

    ghost state = { λ t. t };

    fn as_raw(&self) -> &RawBTree<K, V, C> {
        &self.raw
    }
}

impl<K: Ord + Drop, V: Drop, C: NodesMut<K, V>> BTreeExtMut<K, V> for Tree<K, V, C> {
    ghost use Rattle.btree_item.specs.Pairs.{found, found_value};
    ghost use Rattle.btree_laws.specs.TreeState.{IsLeafAddressIn, IsUsed, IsValidIn, pairs_of};
    ghost use Rattle.btree_find.specs.Fits.{FitsAt, FitsIn, pairs_below};
    ghost use Rattle.btree_ext.specs.Insert.{IsGrantedIfAbsent, IsRefusedAtGap};
    ghost use Rattle.btree_ext.specs.InsertAt.{InsertsAt, IsRefusedAt};
    ghost use Rattle.btree_ext.specs.Update.{RunsByKey};
    ghost use Rattle.btree_ext.specs.ValueWritten.{value_written};

    ghost with_value = { value_written };

    fn pair_mut(&mut self, addr: Address) -> (&K, &mut V) {
        pair_mut(&mut self.raw, addr)
    }

    fn get_mut_in(&mut self, key: &K, id: usize) -> Option<&mut V> {
        get_mut_in(&mut self.raw, key, id)
    }

    // The clauses are those of the trait, with the store's own name for what it may refuse.
    fn insert_at(&mut self, addr: Address, item: Item<K, V>) -> Result<Address, Refused<K, V>>
        requires valid { IsValidIn self.old addr }
        requires back { IsSome addr.offset }
        requires fits { FitsAt K.cmp item.0 self.old addr }
        ensures inserted { IfOk result (λ b. InsertsAt self.old self.new addr K.cmp b item) }
        ensures returned { IfErr result (λ r. (r.key, r.value) ≡ item) }
        ensures refused { IfErr result (λ r. IsRefusedAt self.old self.new addr C.MayRefuse r.cause) }
    {
        insert_at(&mut self.raw, addr, item)
    }

    fn insert_exactly_at(
        &mut self,
        addr: Address,
        item: Item<K, V>,
    ) -> Result<Address, Refused<K, V>>
        requires valid { IsValidIn self.old addr }
        requires back { IsSome addr.offset }
        requires leaf { IsLeafAddressIn self.old addr }
        requires fits { FitsAt K.cmp item.0 self.old addr }
        ensures inserted { IfOk result (λ b. InsertsAt self.old self.new addr K.cmp b item) }
        ensures returned { IfErr result (λ r. (r.key, r.value) ≡ item) }
        ensures refused { IfErr result (λ r. IsRefusedAt self.old self.new addr C.MayRefuse r.cause) }
    {
        insert_exactly_at(&mut self.raw, addr, item)
    }

    fn replace_at(&mut self, addr: Address, key: K, value: V) -> (K, V) {
        replace_at(&mut self.raw, addr, key, value)
    }

    fn replace_key_at(&mut self, addr: Address, key: K) -> K {
        replace_key_at(&mut self.raw, addr, key)
    }

    fn replace_value_at(&mut self, addr: Address, value: V) -> V {
        exchange(&mut self.raw, addr, value)
    }

    fn remove_at(&mut self, addr: Address) -> Option<(Item<K, V>, Address)> {
        remove_at(&mut self.raw, addr)
    }

    fn update_at<T, F: FnOnce(V) -> (Option<V>, T)>(&mut self, addr: Address, action: F) -> T {
        update_at(&mut self.raw, addr, action)
    }

    // The clauses are those of the trait, with the store's own name for what it may refuse.
    fn update_in<T, F: FnOnce(Option<V>) -> (Option<V>, T)>(
        &mut self,
        id: usize,
        key: K,
        action: F,
    ) -> Result<T, UpdateRefused<K, F>>
        requires used { IsUsed self.old id }
        requires fits { FitsIn K.cmp key self.old id }
        requires callable { F.pre action (found_value K.cmp key (pairs_of self.old)) }
        ensures updated { IfOk result (λ t. RunsByKey K.cmp self.old self.new (F.post action) key t) }
        ensures under { found K.cmp key (pairs_below self.old id) ≡ found K.cmp key (pairs_of self.old) }
        ensures uncounted { OnOk result (self.new.kept ≡ self.old.kept) }
        ensures granted { OnOk result (IsGrantedIfAbsent K.cmp key self.old C.CanHold) }

        ensures returned { IfErr result (λ r. (r.key ≡ key) × (r.action ≡ action)) }
        ensures absent { OnErr result (found K.cmp key (pairs_of self.old) ≡ None) }
        ensures cause { IfErr result (λ r.
            IsRefusedAtGap K.cmp key self.old self.new C.MayRefuse r.cause) }
    {
        update_in(&mut self.raw, id, key, action)
    }
}
