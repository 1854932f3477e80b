//! Clones of maps.
ghost use Rattle.std.specs.Prelude.{◌≡◌, IfOk, OnErr};
ghost use Rattle.btree_laws.specs.TreeState.{pairs_of, unrefused};

use crate::BTreeMap;
use btree_node::CloneNodes;
use std::alloc::AllocError;

impl<K: Ord + Clone, V: Clone, C: CloneNodes<K, V>> BTreeMap<K, V, C> {
    /// Returns a map with clones of the keys and values, whose nodes have the same numbers. Its store has refused no node yet. It fails only if
    /// the clone of the store fails.
    ///
    /// The contract requires that a clone of a key or a value is equal to it.
    pub fn clone(&self) -> Result<Self, AllocError>
        requires keys { (x copy : K) → K.is_clone x copy → copy ≡ x }
        requires values { (x copy : V) → V.is_clone x copy → copy ≡ x }
        ensures pairs { IfOk result (λ copy. pairs_of copy ≡ pairs_of self.now) }
        ensures state { IfOk result (λ copy. copy ≡ unrefused self.now) }
        ensures may_fail { OnErr result (C.MayFail self.now.nodes) }
    {
        Ok(BTreeMap {
            tree: self.tree.clone()?,
        })
    }
}
