//! Stores of nodes, by the types of key and value.
//!
//! [`Nodes`] and [`NodesMut`] are [`Slab`] and [`SlabMut`] for nodes, as bounds on a tree's store: their parameters are those of the
//! tree. Every store of nodes implements them, so that a new store has to implement only the traits of `btree_store`.
ghost use Rattle.std.specs.Prelude.{◌≡◌, ℕ, ◌+◌, ◌<◌, Some, None, IsSome, IfOk, IfErr, OnOk, OnErr, OnSome, option_copied};
ghost use Rattle.std.specs.Option.{option_copied_mut};
ghost use Rattle.std.specs.FinMap as map;
ghost use Rattle.std.specs.Borrow.{sem};
ghost use Rattle.std.specs.Mem.{FitsInMemory};
ghost use Rattle.btree_store.specs.Content.{Content, Gains};
ghost use Rattle.btree_node.specs.StoreLends.{lends_node};
ghost use Rattle.btree_node.specs.declared.node.Node.{Node};
ghost use Rattle.btree_node.specs.contracts.node.Node.{the_row as node_row};

use crate::node::Node;
use btree_store::{Clear, Slab, SlabClone, SlabMut};
use std::alloc::AllocError;

/// A store of nodes, for reading, with the contracts of [`Slab`].
pub trait Nodes<K, V> {
    /// The node under each number that is used.
    ghost content: { Self → Content (Node K V) };

    /// How many nodes it has refused since it was made.
    ghost refusals: { Self → ℕ };

    /// The contents that it can have.
    ghost CanHold: { Content (Node K V) → Type 0 };

    /// Returns how many numbers are used.
    fn len(&self) -> usize
        ensures len { result ≡ map.len (content self.now) }
        ensures can_hold { CanHold (content self.now) }
        ensures numbers { (id : ℕ) → IsSome (map.get (content self.now) id) → id < usize.MAX };

    /// Returns the node under `id`, or `None` if that number is not used.
    fn get(&self, id: usize) -> Option<&Node<K, V>>
        ensures value { option_copied result ≡ map.get (content self.now) id }
        ensures number { OnSome result (id < usize.MAX) };
}

/// A store of nodes, for changing, with the contracts of [`SlabMut`].
pub trait NodesMut<K, V>: Nodes<K, V> + Sized {
    /// What a store is made from, for example the allocator of its memory.
    type Origin;

    /// The contents in which it may refuse a node. In every other content it accepts one.
    ghost MayRefuse: { Content (Node K V) → Type 0 };

    /// The fact that a node fits in memory, which calls that pass a node on require.
    ghost Fits: { Type 0 };

    /// The store with another node under a number that is used.
    ghost written: { Self → ℕ → Node K V → Self };

    /// Records for the prover that a node fits in memory; called where the types are known. It does nothing at run time.
    fn note_fits()
        requires { FitsInMemory (node_row K.row V.row) }
        ensures { Fits };

    /// Gives the prover the fact that `note_fits` recorded; called where the types are parameters. It does nothing at run time.
    fn tell_fits()
        requires { Fits }
        ensures { FitsInMemory (node_row K.row V.row) };

    /// Returns a store without nodes, which allocates no memory until the first `insert`.
    fn empty(origin: Self::Origin) -> Self
        ensures content { Self.content result ≡ map.empty }
        ensures refusals { Self.refusals result ≡ 0 };

    /// Returns the node under `id` for writing, or `None` if that number is not used.
    fn get_mut(&mut self, id: usize) -> Option<&mut Node<K, V>>
        ensures* writes_back { sem 𝓛 (lends_node Self.row K.row V.row written self.entry id result) }
        ensures value { option_copied_mut result ≡ map.get (Self.content self.old) id };

    /// Stores a node under a number that was not used and returns the number, or returns the node if the store refuses it.
    fn insert(&mut self, node: Node<K, V>) -> Result<usize, Node<K, V>>
        ensures number { IfOk result (λ id. id < usize.MAX) }
        ensures unused { IfOk result (λ id. map.get (Self.content self.old) id ≡ None) }
        ensures stored { IfOk result (Gains (Self.content self.old) (Self.content self.new) node) }
        ensures can_hold { OnOk result (Self.CanHold (Self.content self.new)) }
        ensures uncounted { OnOk result (Self.refusals self.new ≡ Self.refusals self.old) }

        // A refusal is counted, and happens only if the store may refuse.
        ensures returned { IfErr result (λ back. back ≡ node) }
        ensures unchanged { OnErr result (Self.content self.new ≡ Self.content self.old) }
        ensures counted { OnErr result (Self.refusals self.new ≡ Self.refusals self.old + 1) }
        ensures may_refuse { OnErr result (MayRefuse (Self.content self.old)) };

    /// Removes and returns the node under `id`, a number that is used.
    fn remove(&mut self, id: usize) -> Node<K, V>
        requires { IsSome (map.get (Self.content self.old) id) }
        ensures value { map.get (Self.content self.old) id ≡ Some result }
        ensures removed { Self.content self.new ≡ map.remove (Self.content self.old) id }
        ensures uncounted { Self.refusals self.new ≡ Self.refusals self.old };

    // A write through `get_mut` changes that node alone.
    ghost content_written: { (store : Self) (id : ℕ) (node : Node K V) → IsSome (map.get (Self.content store) id) →
        Self.content (written store id node) ≡ map.insert (Self.content store) id node };

    ghost refusals_written: { (store : Self) (id : ℕ) (node : Node K V) →
        Self.refusals (written store id node) ≡ Self.refusals store };
}

/// A store of nodes that can be emptied, with the contracts of [`Clear`].
pub trait ClearNodes<K, V>: NodesMut<K, V> {
    /// Drops every node, so that no number is used.
    fn clear(&mut self)
        ensures content { Self.content self.new ≡ map.empty }
        ensures uncounted { Self.refusals self.new ≡ Self.refusals self.old };
}

/// A store of nodes that can be cloned, with the contracts of [`SlabClone`].
pub trait CloneNodes<K: Clone, V: Clone>: NodesMut<K, V> {
    /// The contents that it may fail to clone. It clones every other one.
    ghost MayFail: { Content (Node K V) → Type 0 };

    /// Returns a store with a clone of each node under the same number, which has refused no node yet.
    ///
    /// The contract requires that a clone of a key or a value is equal to it.
    fn try_clone(&self) -> Result<Self, AllocError>
        requires keys { (x copy : K) → K.is_clone x copy → copy ≡ x }
        requires values { (x copy : V) → V.is_clone x copy → copy ≡ x }
        ensures content { IfOk result (λ copy. Self.content copy ≡ Self.content self.now) }
        ensures refusals { IfOk result (λ copy. Self.refusals copy ≡ 0) }
        ensures may_fail { OnErr result (MayFail (Self.content self.now)) };
}

impl<K, V, C: Slab<Node<K, V>>> Nodes<K, V> for C {
    ghost content = { λ store. C.content store };

    ghost refusals = { λ store. C.refusals store };

    ghost CanHold = { C.CanHold };

    fn len(&self) -> usize {
        Slab::len(self)
    }

    fn get(&self, id: usize) -> Option<&Node<K, V>> {
        Slab::get(self, id)
    }
}

impl<K, V, C: SlabMut<Node<K, V>>> NodesMut<K, V> for C {
    type Origin = C::Origin;

    ghost MayRefuse = { C.SlabMut.MayRefuse };

    ghost Fits = { C.SlabMut.Fits };

    ghost written = { C.SlabMut.written };

    ghost content_written = { C.SlabMut.content_written };

    ghost refusals_written = { C.SlabMut.refusals_written };

    fn note_fits() {
        <C as SlabMut<Node<K, V>>>::note_fits();
    }

    fn tell_fits() {
        <C as SlabMut<Node<K, V>>>::tell_fits();
    }

    fn empty(origin: C::Origin) -> C {
        <C as SlabMut<Node<K, V>>>::empty(origin)
    }

    fn get_mut(&mut self, id: usize) -> Option<&mut Node<K, V>> {
        SlabMut::get_mut(self, id)
    }

    // The clauses are those of the trait, in the names that the store's own bound gives to its members.
    #[inline(always)]
    fn insert(&mut self, node: Node<K, V>) -> Result<usize, Node<K, V>>
        ensures number { IfOk result (λ id. id < usize.MAX) }
        ensures unused { IfOk result (λ id. map.get (C.content self.old) id ≡ None) }
        ensures stored { IfOk result (Gains (C.content self.old) (C.content self.new) node) }
        ensures can_hold { OnOk result (C.CanHold (C.content self.new)) }
        ensures uncounted { OnOk result (C.refusals self.new ≡ C.refusals self.old) }

        ensures returned { IfErr result (λ back. back ≡ node) }
        ensures unchanged { OnErr result (C.content self.new ≡ C.content self.old) }
        ensures counted { OnErr result (C.refusals self.new ≡ C.refusals self.old + 1) }
        ensures may_refuse { OnErr result (C.MayRefuse (C.content self.old)) }
    {
        SlabMut::insert(self, node)
    }

    fn remove(&mut self, id: usize) -> Node<K, V> {
        SlabMut::remove(self, id)
    }
}

impl<K, V, C: Clear<Node<K, V>>> ClearNodes<K, V> for C {
    fn clear(&mut self) {
        Clear::clear(self);
    }
}

impl<K: Clone, V: Clone, C: SlabClone<Node<K, V>>> CloneNodes<K, V> for C {
    ghost MayFail = { C.SlabClone.MayFail };

    // The clauses are those of the trait, in the names that the store's own bound gives to its members.
    fn try_clone(&self) -> Result<C, AllocError>
        requires keys { (x copy : K) → K.is_clone x copy → copy ≡ x }
        requires values { (x copy : V) → V.is_clone x copy → copy ≡ x }
        ensures content { IfOk result (λ copy. C.content copy ≡ C.content self.now) }
        ensures refusals { IfOk result (λ copy. C.refusals copy ≡ 0) }
        ensures may_fail { OnErr result (C.SlabClone.MayFail (C.content self.now)) }
    {
        SlabClone::try_clone(self)
    }
}
