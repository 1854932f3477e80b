//! A raw tree: a tree of any content.
ghost use Rattle.std.specs.Prelude.{◌≡◌, ◌↔◌, ℕ, ◌+◌, ◌<◌, Err, None, IsTrue, IsSome, Ok, Some, option_copied, IfOk, OnOk, IfErr, OnErr};
ghost use Rattle.btree_item.specs.declared.fault.Fault.TheVariants.{NoNode};
ghost use Rattle.std.specs.FinMap as map;
ghost use Rattle.std.specs.Borrow.{sem};
ghost use Rattle.std.specs.Mem.{FitsInMemory};
ghost use Rattle.btree_node.specs.Node.{view_of};
ghost use Rattle.btree_node.specs.contracts.node.Node.{the_row as node_row};
ghost use Rattle.btree_raw.specs.Raw.{IsWithinNode};

use crate::node_changes::reparent_children;
use btree_item::{Address, Fault, Item};
use btree_node::{ClearNodes, CloneNodes, Node, Nodes, NodesMut};
use btree_valid::{is_off_by_one, validate, validate_node};
use std::alloc::AllocError;
use std::marker::{Model, PhantomData};

/// Nodes in a store, the number of a root, and a length. They need not form a tree: it may be in the middle of a change, or come from
/// elsewhere. Contracts see it as a `TreeState`.
///
/// A call allocates memory only where it inserts a node into the store, or clones the store.
#[derive(Drop)]
pub struct RawBTree<K, V, C: NodesMut<K, V>> {
    store: C,
    root: Option<usize>,
    len: usize,
    limit: usize,
    pairs: PhantomData<(K, V)>,
}

impl<K, V, C: NodesMut<K, V>> Model for RawBTree<K, V, C> {
    ghost use Rattle.std.specs.Coded.{codes};
    ghost use Rattle.btree_laws.specs.TreeState.{TreeState, tree_code};

    ghost Value = { TreeState K V };

    ghost coded = { tree_code (Prim.hlevel codes) };

    ghost view = { λ t. record { nodes = C.content t.store; root = t.root; len = t.len; kept = record { refusals = C.refusals t.store; limit = t.limit } } };

    ghost invariant = { λ _. C.Fits };
}

impl<K, V, C: NodesMut<K, V>> RawBTree<K, V, C> {
    ghost use Rattle.btree_view.specs.View.{children_of};
    ghost use Rattle.btree_laws.specs.TreeState.{IsOccupiedIn, IsUsed, IsValidIn, item_of, rootless, unlimited};
    ghost use Rattle.btree_raw.specs.Raw.{AreUsed, GainsNode, Refuses, with_node};
    ghost use Rattle.btree_raw.specs.Lent.{lends_node};

    /// Returns a tree with no root, the length 0, and an empty store made from `origin`.
    ///
    /// The contract requires that a node fits in memory. The prover finds that by itself if the types of key and value are known.
    pub fn new(origin: C::Origin) -> Self
        requires { FitsInMemory (node_row K.row V.row) }
        ensures { result ≡ rootless map.empty (unlimited 0) }
    {
        C::note_fits();
        RawBTree {
            store: C::empty(origin),
            root: None,
            len: 0,
            limit: usize::MAX,
            pairs: PhantomData,
        }
    }

    /// Returns a tree with no root and the length 0, over a store as it is.
    ///
    /// The contract requires that a node fits in memory, as that of `new`.
    pub fn in_store(nodes: C) -> Self
        requires { FitsInMemory (node_row K.row V.row) }
        ensures { result ≡ rootless (C.content nodes) (unlimited (C.refusals nodes)) }
    {
        C::note_fits();
        RawBTree {
            store: nodes,
            root: None,
            len: 0,
            limit: usize::MAX,
            pairs: PhantomData,
        }
    }

    /// Gives the prover the fact that a node fits in memory, which it does not find where the types of key and value are parameters. It
    /// does nothing at run time.
    pub fn tell_fits(&self)
        ensures { FitsInMemory (node_row K.row V.row) }
    {
        // For the prover: this opens the invariant, which has the fact.
        let _ = &self.store;
        C::tell_fits();
    }

    /// Gives the prover the fact that the numbers in use are below `usize::MAX`. It does nothing at run time.
    pub(crate) fn tell_numbers(&self)
        ensures { (id : ℕ) → IsUsed self.now id → id < usize.MAX }
    {
        let _count = self.store.len();
    }

    /// Returns the length: the one that was last set.
    pub fn len(&self) -> usize
        ensures { result ≡ self.now.len }
    {
        self.len
    }

    /// Returns the greatest length: the one that was last set, and `usize::MAX` at first.
    pub fn limit(&self) -> usize
        ensures { result ≡ self.now.kept.limit }
    {
        self.limit
    }

    /// Returns the number of the root. There may be no node with this number.
    pub fn root_id(&self) -> Option<usize>
        ensures { result ≡ self.now.root }
    {
        self.root
    }

    /// Returns how many nodes the store has. Its content is one that the store can have.
    pub fn node_count(&self) -> usize
        ensures value { result ≡ map.len self.now.nodes }
        ensures can_hold { C.CanHold self.now.nodes }
    {
        self.store.len()
    }

    /// Returns the store of the nodes, for reading.
    pub fn store(&self) -> &C
        ensures content { C.content result.now ≡ self.now.nodes }
        ensures refusals { C.refusals result.now ≡ self.now.kept.refusals }
    {
        &self.store
    }

    /// Returns whether a node has this number.
    pub fn has_node(&self, id: usize) -> bool
        ensures { IsTrue result ↔ IsUsed self.now id }
    {
        self.tell_fits();
        self.store.get(id).is_some()
    }

    /// Returns the node with this number, which must be in use; see `has_node`. The number is below `usize::MAX`.
    pub fn node(&self, id: usize) -> &Node<K, V>
        requires { IsUsed self.now id }
        ensures value { map.get self.now.nodes id ≡ Some result.now }
        ensures number { id < usize.MAX }
    {
        match self.store.get(id) {
            Some(node) => node,
            None => unreachable!(),
        }
    }

    /// Returns the item at an address, or `None` if there is none: at -1, past the last item, nowhere, or at a number without a node.
    pub fn item(&self, addr: Address) -> Option<&Item<K, V>>
        ensures value { option_copied result ≡ item_of self.now addr }
        ensures occupied { IsSome result ↔ IsOccupiedIn self.now addr }
    {
        self.tell_fits();
        match self.store.get(addr.id) {
            Some(node) => node.item(addr.offset),
            None => None,
        }
    }

    /// Returns whether an address is in a node, from -1 to the number of its items, or is nowhere in a tree without a root.
    pub fn is_valid(&self, addr: Address) -> bool
        ensures { IsTrue result ↔ IsValidIn self.now addr }
    {
        if is_within(self, addr) {
            return true;
        }
        self.root.is_none() && addr == Address::nowhere()
    }

    /// Sets the length, which need not be the number of items.
    pub fn set_len(&mut self, len: usize)
        ensures { self.new ≡ record self.old { len = len } }
    {
        self.len = len;
    }

    /// Sets the greatest length. A length that is above it already stays.
    pub fn set_limit(&mut self, limit: usize)
        ensures { self.new ≡ record self.old { kept = record self.old.kept { limit = limit } } }
    {
        self.limit = limit;
    }

    /// Sets the number of the root. There may be no node with this number.
    pub fn set_root_id(&mut self, id: Option<usize>)
        ensures { self.new ≡ record self.old { root = id } }
    {
        self.root = id;
    }

    /// Returns the node with a number that is used, for writing. `has_node` decides whether it is.
    pub fn node_mut(&mut self, id: usize) -> &mut Node<K, V>
        requires { IsUsed self.old id }
        ensures* writes_back { sem 𝓛 (lends_node
            K.row V.row C.row C.Origin.row C.NodesMut self.entry id result) }
        ensures value { Some result.now ≡ map.get self.old.nodes id }
    {
        match self.store.get_mut(id) {
            Some(node) => node,
            None => unreachable!(),
        }
    }

    /// Removes and returns the node with this number, which must be in use; see `has_node`. Its children keep it as their parent.
    pub fn release_node(&mut self, id: usize) -> Node<K, V>
        requires { IsUsed self.old id }
        ensures node { map.get self.old.nodes id ≡ Some result }
        ensures after { self.new ≡ record self.old { nodes = map.remove self.old.nodes id } }
    {
        self.store.remove(id)
    }

    /// Inserts a node into the store as it is.
    #[inline(always)]
    pub(crate) fn store_node(&mut self, node: Node<K, V>) -> Result<usize, Node<K, V>>
        ensures number { IfOk result (λ id. id < usize.MAX) }
        ensures unused { IfOk result (λ id. map.get self.old.nodes id ≡ None) }
        ensures stored { IfOk result (λ id. self.new ≡ with_node self.old id node) }
        ensures can_hold { OnOk result (C.CanHold self.new.nodes) }
        ensures returned { IfErr result (λ back. back ≡ node) }
        ensures refused { OnErr result (Refuses self.old self.new) }
        ensures may_refuse { OnErr result (C.MayRefuse self.old.nodes) }
    {
        self.store.insert(node)
    }

    /// Inserts a node into the store and sets the parent of its children. If the store refuses the node, returns it and counts the
    /// refusal.
    pub fn allocate_node(&mut self, node: Node<K, V>) -> Result<usize, Node<K, V>>
        requires { AreUsed self.old.nodes (children_of (view_of node)) }
        ensures allocated { IfOk result (λ id. GainsNode self.old self.new id node) }
        ensures number { IfOk result (λ id. id < usize.MAX) }
        ensures returned { IfErr result (λ back. back ≡ node) }
        ensures unchanged { OnErr result (Refuses self.old self.new) }
        ensures may_refuse { OnErr result (C.MayRefuse self.old.nodes) }
    {
        match self.store_node(node) {
            Ok(id) => {
                reparent_children(self, id);
                Ok(id)
            }
            Err(node) => Err(node),
        }
    }
}

impl<K: Ord, V, C: NodesMut<K, V>> RawBTree<K, V, C> {
    ghost use Rattle.btree_laws.specs.TreeState.{IsOffByOneAt};
    ghost use Rattle.btree_valid.specs.Faults.{AcceptsRawNode, BlamesRawNode, IsRawVerdict, IsVerdictFor, SuitsRawNode};
    ghost use Rattle.btree_raw.specs.Limit.{IsBTreeWithinLimit};

    /// Returns whether the tree has a root and at most 32 levels, and is well formed except for its length and the number of items of node
    /// `id`: it may have one item too many or too few, and the root may also be empty. This is what `rebalance` requires of the tree.
    ///
    /// It reads each node of such a tree once, and stops at the first that is wrong.
    pub fn is_off_by_one(&self, id: usize) -> bool
        ensures { IsTrue result ↔ IsOffByOneAt K.cmp self.now id }
    {
        self.tell_fits();
        match self.root {
            Some(root) => is_off_by_one(&self.store, root, id),
            None => false,
        }
    }

    /// Checks that the nodes are exactly one well formed tree under the root, with this length, which is not above its limit. Returns the
    /// first fault in preorder; that of the limit is asked last.
    ///
    /// The root is on level 1, and a node on level 33 is `TooDeep`; nothing below it is read. It reads each node of a well formed tree
    /// once, and copies nothing.
    pub fn validate(&self) -> Result<(), Fault>
        ensures exact { result ≡ Ok tt ↔ IsBTreeWithinLimit self.now K.cmp }
        ensures verdict { IsRawVerdict K.cmp self.now result }
    {
        self.tell_fits();
        validate(&self.store, self.root, self.len, self.limit)
    }

    /// Checks a node and all below it against a parent and the nearest separators on both sides, and returns how many levels are below the
    /// node, or the first fault in preorder. A node with neither separator is judged as the root, and a number that is not used is `NoNode`.
    /// At a node of a well formed tree it is a fault of the arguments.
    ///
    /// The node is on level 1, and one on level 33 is `TooDeep`. It copies nothing.
    pub fn validate_node(
        &self,
        id: usize,
        parent: Option<usize>,
        min: Option<&K>,
        max: Option<&K>,
    ) -> Result<usize, Fault>
        ensures unused { map.get self.now.nodes id ≡ None → result ≡ Err NoNode }
        ensures accepts { AcceptsRawNode K.cmp self.now id parent min.entry max.entry result }
        ensures only { SuitsRawNode K.cmp self.now id parent min.entry max.entry result }
        ensures blames { BlamesRawNode K.cmp self.now id parent min.entry max.entry result }
        ensures verdict { IsVerdictFor K.cmp self.now.nodes id parent min.entry max.entry result }
    {
        self.tell_fits();
        // For the prover alone: the length is a `usize`, so there are at most 32 levels.
        let _len = self.len();
        validate_node(&self.store, id, parent, min, max)
    }
}

impl<K, V, C: ClearNodes<K, V>> RawBTree<K, V, C> {
    ghost use Rattle.btree_laws.specs.TreeState.{rootless};

    /// Drops every node. There is no root then, the length is 0, and the count of refusals stays.
    pub fn clear(&mut self)
        ensures { self.new ≡ rootless map.empty self.old.kept }
    {
        self.store.clear();
        self.root = None;
        self.len = 0;
    }
}

impl<K: Clone, V: Clone, C: CloneNodes<K, V>> RawBTree<K, V, C> {
    ghost use Rattle.btree_laws.specs.TreeState.{unrefused};

    /// Returns a tree with clones of the keys and values, whose nodes have the same numbers. Its store has refused no node yet. It fails only if
    /// the clone of the store fails.
    ///
    /// The contract requires that a clone of a key or a value is equal to it.
    pub fn clone(&self) -> Result<Self, AllocError>
        requires keys { (x copy : K) → K.is_clone x copy → copy ≡ x }
        requires values { (x copy : V) → V.is_clone x copy → copy ≡ x }
        ensures state { IfOk result (λ copy. copy ≡ unrefused self.now) }
        ensures may_fail { OnErr result (C.MayFail self.now.nodes) }
    {
        Ok(RawBTree {
            store: self.store.try_clone()?,
            root: self.root,
            len: self.len,
            limit: self.limit,
            pairs: PhantomData,
        })
    }
}

fn is_within<K, V, C: NodesMut<K, V>>(tree: &RawBTree<K, V, C>, addr: Address) -> bool
    ensures { IsTrue result ↔ IsWithinNode tree.now addr }
{
    tree.tell_fits();
    if !tree.has_node(addr.id) {
        return false;
    }
    match addr.offset.value() {
        Some(offset) => offset <= tree.node(addr.id).item_count(),
        None => true,
    }
}
