//! Equality, order and hash of sets: those of their lists of elements. And their clones.
ghost use Rattle.std.specs.Prelude.{◌≡◌, IfOk, OnErr};
ghost use Rattle.std.specs.Cmp.{on_equiv, on_per, on_po, on_total};
ghost use Rattle.std.specs.Cmp.Lexicographic.{lists_agrees, lists_equiv, lists_per, lists_po, lists_ties, lists_total, pointwise, slice_cmp, slice_partial_cmp};
ghost use Rattle.std.specs.List.{flat_map};
ghost use Rattle.btree_laws.specs.TreeState.{unrefused};
ghost use Rattle.btree_map.specs.Comparison.{writes-same};

use crate::BTreeSet;
use btree_node::{CloneNodes, NodesMut};
use std::alloc::AllocError;
use std::cmp::Ordering;
use std::hash::{Hash, Hasher};

impl<T: Ord, C: NodesMut<T, ()>> BTreeSet<T, C> {
    /// Returns whether two sets, which may have different stores, have equal elements. It compares each element once, up to the first that
    /// differs.
    pub fn same_items<D: NodesMut<T, ()>>(&self, other: &BTreeSet<T, D>) -> bool
        ensures { result ≡ pointwise T.eq self.now.elements other.now.elements }
    {
        self.map.same_items(&other.map)
    }

    /// Compares the elements of two sets, which may have different stores, lexicographically. It stops at the first element that differs.
    pub fn compare_items<D: NodesMut<T, ()>>(&self, other: &BTreeSet<T, D>) -> Ordering
        ensures { result ≡ slice_cmp T.cmp self.now.elements other.now.elements }
    {
        self.map.compare_items(&other.map)
    }
}

impl<T: Ord + Clone, C: CloneNodes<T, ()>> BTreeSet<T, C> {
    /// Returns a set with clones of the elements, whose nodes have the same numbers. It fails only if the clone of the store fails.
    ///
    /// The contract requires that a clone of an element is equal to it.
    pub fn clone(&self) -> Result<Self, AllocError>
        requires { (x copy : T) → T.is_clone x copy → copy ≡ x }
        ensures elements { IfOk result (λ copy. copy.elements ≡ self.now.elements) }
        ensures nodes { IfOk result (λ copy. copy.tree ≡ unrefused self.now.tree) }
        ensures uncounted { IfOk result (λ copy. copy.kept ≡ record self.now.kept { refusals = 0 }) }
        ensures may_fail { OnErr result (C.MayFail self.now.tree.nodes) }
    {
        Ok(BTreeSet {
            map: self.map.clone()?,
        })
    }
}

impl<T: Ord, C: NodesMut<T, ()>> PartialEq for BTreeSet<T, C> {
    ghost eq = { λ s t. pointwise T.eq s.elements t.elements };

    ghost laws = { on_per (λ s. s.elements) (lists_per T.PartialEq.laws) };

    fn eq(&self, other: &BTreeSet<T, C>) -> bool {
        self.same_items(other)
    }
}

impl<T: Ord, C: NodesMut<T, ()>> Eq for BTreeSet<T, C> {
    ghost laws = { on_equiv (λ s. s.elements) (lists_equiv T.Eq.laws) };
}

impl<T: Ord, C: NodesMut<T, ()>> PartialOrd for BTreeSet<T, C> {
    ghost partial_cmp = { λ s t. slice_partial_cmp T.partial_cmp s.elements t.elements };

    ghost laws = { on_po (λ s. s.elements) (lists_po T.PartialOrd.laws) };

    fn partial_cmp(&self, other: &BTreeSet<T, C>) -> Option<Ordering> {
        self.map.partial_cmp(&other.map)
    }
}

impl<T: Ord, C: NodesMut<T, ()>> Ord for BTreeSet<T, C> {
    ghost cmp = { λ s t. slice_cmp T.cmp s.elements t.elements };

    ghost total = { on_total (λ s. s.elements) (lists_total T.total) };

    ghost matches_partial_cmp = { λ s t. lists_agrees T.matches_partial_cmp s.elements t.elements };

    ghost matches_eq = { λ s t. lists_ties T.cmp T.matches_eq s.elements t.elements };

    fn cmp(&self, other: &BTreeSet<T, C>) -> Ordering {
        self.compare_items(other)
    }
}

impl<T: Ord + Hash, C: NodesMut<T, ()>> Hash for BTreeSet<T, C> {
    ghost hash_input = { λ s. flat_map T.hash_input s.elements };

    ghost respects_eq = { λ s t. writes-same (record { fed = T.respects_eq }) s.elements t.elements };

    fn hash<H: Hasher>(&self, state: &mut H) {
        self.map.hash(state);
    }
}
