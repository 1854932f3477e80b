//! Changes of a tree by addresses.
ghost use Rattle.std.specs.Prelude.{◌≡◌, Some, None, IsSome, IfSome, IfNone, IfOk, IfErr, OnErr, OnOk};
ghost use Rattle.std.specs.Borrow.{Lends, LendsIf, sem};
ghost use Rattle.std.specs.Option.{option_copied_mut};
ghost use Rattle.btree_item.specs.Pairs.{found, found_value};
ghost use Rattle.btree_item.specs.Address.{Address};
ghost use Rattle.btree_laws.specs.TreeState.{IsBTree, IsLeafAddressIn, IsOccupiedIn, IsUsed, IsValidIn, item_of, pairs_of};
ghost use Rattle.btree_find.specs.Fits.{FitsAt, FitsIn, ReplacesAt};
ghost use Rattle.btree_ext.specs.Outcomes.{FindsSameBelow, value_below};
ghost use Rattle.btree_ext.specs.Changes.{ExchangesAt, ExchangesAtKey, with_value_at_key};
ghost use Rattle.btree_ext.specs.Exchange.{IsExchanged, IsKeyExchanged, IsValueExchanged};
ghost use Rattle.btree_ext.specs.Insert.{IsGrantedIfAbsent, IsRefusedAtGap};
ghost use Rattle.btree_ext.specs.InsertAt.{InsertsAt, IsRefusedAt};
ghost use Rattle.btree_ext.specs.Remove.{IsRemoved};
ghost use Rattle.btree_ext.specs.Update.{RunsAt, RunsByKey};

use crate::ext::BTreeExt;
use btree_item::{Address, Item, Refused, UpdateRefused};

/// A well formed tree, changed by addresses in it. Each change leaves a well formed tree.
///
/// Only an insertion needs new nodes and can fail: `insert_at`, `insert_exactly_at`, and `update_in` with an absent key.
pub trait BTreeExtMut<K: Ord + Drop, V: Drop>: BTreeExt<K, V> {
    /// What the tree is after a value was written at an address, as contracts see it.
    ghost with_value: { Self → Address → V → Self };

    /// Returns the key of the item at an address, and its value for writing, or `None` if there is no item: at -1, past the last item of a
    /// node, or nowhere. It changes no address.
    ///
    /// The address must be valid: `is_valid` decides that. The contract says what is returned, and nothing of the tree afterwards, also where
    /// that is `None`; that of `pair_mut` says both.
    fn item_mut(&mut self, addr: Address) -> Option<(&K, &mut V)>
        requires { IsValidIn (Self.state self.old) addr }
        ensures item { IfSome result (λ p.
            item_of (Self.state self.old) addr ≡ Some (p.0.now, p.1.now)) }
        ensures vacant { IfNone result (item_of (Self.state self.old) addr ≡ None) }
    {
        if self.item(addr).is_none() {
            return None;
        }
        Some(self.pair_mut(addr))
    }

    /// Returns the key of the item at an address, and its value for writing. What is written replaces the value, and nothing else changes:
    /// the key stays, and so does every address.
    ///
    /// An item must be at the address; `item` decides that.
    fn pair_mut(&mut self, addr: Address) -> (&K, &mut V)
        requires { IsOccupiedIn (Self.state self.old) addr }
        ensures* writes_back { sem 𝓛
            (Lends Self.row V.row self.entry result.1 (with_value self.old addr)) }
        ensures pair { item_of (Self.state self.old) addr ≡ Some (result.0.now, result.1.now) }
        ensures exchanged { ExchangesAt K.cmp Self.state with_value addr self.old result.1 }
        ensures well_formed { IsBTree K.cmp (Self.state self.old) };

    /// Returns the value at a key under a node for writing, or `None` if the key is not there. What is written replaces the value, and
    /// nothing else changes: the stored key stays, and so does every address.
    ///
    /// The node must be in use; see `has_node`.
    fn get_mut_in(&mut self, key: &K, id: usize) -> Option<&mut V>
        requires { IsUsed (Self.state self.old) id }
        ensures* writes_back { sem 𝓛 (LendsIf Self.row V.row self.entry result
            (with_value_at_key K.cmp Self.state with_value key.now self.old) self.old) }
        ensures value { option_copied_mut result ≡ value_below K.cmp key.now (Self.state self.old) id }
        ensures exchanged { IfSome result
            (ExchangesAtKey K.cmp Self.state with_value key.now self.old) };

    /// Inserts a pair at the place of an address, before the item there, and returns the address of the pair. An address of an internal
    /// node stands for the one in a leaf at its place.
    ///
    /// The address must be valid and not at -1, and the key must fit at its place: `is_valid` and `fits_at` decide that. It returns an
    /// error, with the pair, if the store refuses a node that is needed, or if the length has reached its limit. Then nothing but the
    /// count of refusals has changed.
    fn insert_at(&mut self, addr: Address, item: Item<K, V>) -> Result<Address, Refused<K, V>>
        requires valid { IsValidIn (Self.state self.old) addr }
        requires back { IsSome addr.offset }
        requires fits { FitsAt K.cmp item.0 (Self.state self.old) addr }
        ensures inserted { IfOk result (λ b.
            InsertsAt (Self.state self.old) (Self.state self.new) addr K.cmp b item) }
        ensures returned { IfErr result (λ r. (r.key, r.value) ≡ item) }
        ensures refused { IfErr result (λ r.
            IsRefusedAt (Self.state self.old) (Self.state self.new) addr Self.Nodes.MayRefuse r.cause) };

    /// Inserts a pair at an address in a leaf, or nowhere in the empty tree, as `insert_at` does, and returns the address of the pair. It
    /// reads no node to get to a leaf.
    ///
    /// The address must be valid and not at -1, and the key must fit at its place. It returns the same errors as `insert_at`.
    fn insert_exactly_at(
        &mut self,
        addr: Address,
        item: Item<K, V>,
    ) -> Result<Address, Refused<K, V>>
        requires valid { IsValidIn (Self.state self.old) addr }
        requires back { IsSome addr.offset }
        requires leaf { IsLeafAddressIn (Self.state self.old) addr }
        requires fits { FitsAt K.cmp item.0 (Self.state self.old) addr }
        ensures inserted { IfOk result (λ b.
            InsertsAt (Self.state self.old) (Self.state self.new) addr K.cmp b item) }
        ensures returned { IfErr result (λ r. (r.key, r.value) ≡ item) }
        ensures refused { IfErr result (λ r.
            IsRefusedAt (Self.state self.old) (Self.state self.new) addr Self.Nodes.MayRefuse r.cause) };

    /// Replaces key and value of the item at an address, and returns the old pair. It changes one node.
    ///
    /// An item must be at the address, and the new key must lie between its neighbours: `replaces_at` decides that.
    fn replace_at(&mut self, addr: Address, key: K, value: V) -> (K, V)
        requires { ReplacesAt K.cmp key (Self.state self.old) addr }
        ensures old { item_of (Self.state self.old) addr ≡ Some result }
        ensures exchanged { IsExchanged (Self.state self.old) (Self.state self.new) addr K.cmp (key, value) };

    /// Replaces the key of the item at an address, and returns the old key. It changes one node.
    ///
    /// An item must be at the address, and the new key must lie between its neighbours: `replaces_at` decides that.
    fn replace_key_at(&mut self, addr: Address, key: K) -> K
        requires { ReplacesAt K.cmp key (Self.state self.old) addr }
        ensures { IsKeyExchanged (Self.state self.old) (Self.state self.new) addr K.cmp result key };

    /// Replaces the value of the item at an address, and returns the old value. It changes one node.
    ///
    /// An item must be at the address; `item` decides that.
    fn replace_value_at(&mut self, addr: Address, value: V) -> V
        requires { IsOccupiedIn (Self.state self.old) addr }
        ensures { IsValueExchanged (Self.state self.old) (Self.state self.new) addr K.cmp result value };

    /// Removes the item at an address. Returns it, with a back address at the place where it was; its key fits there, so `insert_at` can
    /// put it back. Returns `None`, and nothing changes, if there is no item: at -1, past the last item of a node, or nowhere.
    ///
    /// The address must be valid: `is_valid` decides that. It frees at most as many nodes as the tree has levels. An item of an internal
    /// node is replaced with the last one under the child before it.
    fn remove_at(&mut self, addr: Address) -> Option<(Item<K, V>, Address)>
        requires { IsValidIn (Self.state self.old) addr }
        ensures removed { IfSome result (λ r.
            IsRemoved (Self.state self.old) (Self.state self.new) K.cmp addr r.0 r.1) }
        ensures vacant { IfNone result (item_of (Self.state self.old) addr ≡ None) }
        ensures unchanged { IfNone result (Self.state self.new ≡ Self.state self.old) };

    /// Calls `action` with the value at an address. The value that it gives takes the place of the old one, and the key stays; if it gives
    /// none, the pair is removed, as `remove_at` does. Returns the action's answer.
    ///
    /// An item must be at the address; `item` decides that.
    fn update_at<T, F: FnOnce(V) -> (Option<V>, T)>(&mut self, addr: Address, action: F) -> T
        requires occupied { IsOccupiedIn (Self.state self.old) addr }
        requires callable { IfSome (item_of (Self.state self.old) addr) (λ x. F.pre action x.1) }
        ensures { RunsAt K.cmp (Self.state self.old) (Self.state self.new) (F.post action) addr result };

    /// Calls `action` with the value at a key, or with `None` if the key is not there. The value that it gives is stored at the key: an
    /// equal key stays, and the given one is dropped. If it gives none, the pair is removed, or none is added. Returns the action's answer.
    ///
    /// The node must be in use, and the key must lie strictly between its separators: `has_node` and `key_fits_in` decide that. It
    /// searches from that node down. For an absent key the nodes that an insertion needs are claimed before the call, and freed again if
    /// the action gives no value. It returns an error, with the key and the action, which was not called, if the store refuses one of
    /// these nodes, or if the length has reached its limit. Then nothing but the count of refusals has changed.
    fn update_in<T, F: FnOnce(Option<V>) -> (Option<V>, T)>(
        &mut self,
        id: usize,
        key: K,
        action: F,
    ) -> Result<T, UpdateRefused<K, F>>
        requires used { IsUsed (Self.state self.old) id }
        requires fits { FitsIn K.cmp key (Self.state self.old) id }
        requires callable { F.pre action (found_value K.cmp key (pairs_of (Self.state self.old))) }
        ensures updated { IfOk result
            (RunsByKey K.cmp (Self.state self.old) (Self.state self.new) (F.post action) key) }
        ensures under { FindsSameBelow K.cmp key (Self.state self.old) id }
        ensures uncounted { OnOk result
            ((Self.state self.new).kept ≡ (Self.state self.old).kept) }
        ensures granted { OnOk result
            (IsGrantedIfAbsent K.cmp key (Self.state self.old) Self.Nodes.CanHold) }

        ensures returned { IfErr result (λ r. (r.key ≡ key) × (r.action ≡ action)) }
        ensures absent { OnErr result (found K.cmp key (pairs_of (Self.state self.old)) ≡ None) }
        ensures cause { IfErr result (λ r.
            IsRefusedAtGap K.cmp key (Self.state self.old) (Self.state self.new) Self.Nodes.MayRefuse r.cause) };
}
