//! The pairs of a tree by value, from both ends.
ghost use Rattle.std.specs.Prelude.{◌≡◌, ◌+◌, ◌-◌, Some, OnSome, length};
ghost use Rattle.btree_laws.specs.TreeState.{IsBTree, pairs_of};

use crate::back::take_last;
use crate::front::take_first;
use btree_node::NodesMut;
use btree_raw::RawBTree;
use btree_steps::Steps;
use std::marker::Model;
use std::snapshot::Snapshot;

/// A walk that owns a tree and gives its pairs, from both ends. Each pair is taken where it lies, and a node is removed from the store as
/// the last pair under it goes: nothing is rebalanced. What is left is dropped with the walk.
#[derive(Drop)]
pub struct OwnedWalk<K, V, C: NodesMut<K, V>> {
    nodes: RawBTree<K, V, C>,
    // How many pairs are left.
    left: usize,
    // The first pair that is left is under the node `front`, and the last under the node `back`.
    front: usize,
    back: usize,
    // For contracts alone, in no bytes: how many pairs were taken at the front, and the tree at the start.
    passed: Steps,
    start: Snapshot<RawBTree<K, V, C>>,
}

impl<K, V, C: NodesMut<K, V>> Model for OwnedWalk<K, V, C> {
    ghost use Rattle.std.specs.Coded.{codes};
    ghost use Rattle.btree_laws.specs.TreeState.{node_map, tree_code};
    ghost use Rattle.btree_owned_walk.specs.Leaving.{IsLeaving, Leaving, leaving_code};

    ghost Value = { Leaving K V };

    ghost coded = { leaving_code (tree_code (Prim.hlevel codes)) };

    ghost view = { λ w. record { start = w.start.value; passed = w.passed.count; left = w.left; now = w.nodes } };

    ghost invariant = { λ w. IsLeaving w.start.value (node_map w.nodes) w.passed.count w.left w.front w.back };
}

impl<K: Ord, V, C: NodesMut<K, V>> OwnedWalk<K, V, C> {
    ghost use Rattle.btree_owned_walk.specs.Leaving.{left_of};

    /// Returns a walk over all pairs of a tree.
    pub fn new(tree: RawBTree<K, V, C>) -> Self
        requires { IsBTree K.cmp tree }
        ensures start { result.start ≡ tree }
        ensures passed { result.passed ≡ 0 }
        ensures list { left_of result ≡ pairs_of tree }
    {
        let start = Snapshot::of(&tree);
        let left = tree.len();
        // Without a root nothing is left, and no node is asked for.
        let root = tree.root_id().unwrap_or(0);
        OwnedWalk {
            nodes: tree,
            left,
            front: root,
            back: root,
            passed: Steps::new(),
            start,
        }
    }
}

impl<K, V, C: NodesMut<K, V>> OwnedWalk<K, V, C> {
    ghost use Rattle.btree_owned_walk.specs.Leaving.{HoldsLeft, left_of, nodes_left};

    /// Returns how many pairs are left.
    pub fn len(&self) -> usize
        ensures left { result ≡ self.now.left }
        ensures list { result ≡ length (left_of self.now) }
    {
        self.left
    }

    /// Returns how many nodes are held: those of the tree at the start under which a pair is left.
    pub fn node_count(&self) -> usize
        ensures count { result ≡ nodes_left self.now }
        ensures held { HoldsLeft self.now }
    {
        self.nodes.node_count()
    }
}

impl<K: Drop, V: Drop, C: NodesMut<K, V>> OwnedWalk<K, V, C> {
    ghost use Rattle.btree_owned_walk.specs.Leaving.{TakesAtBack, TakesAtFront};

    /// Takes the first pair that is left.
    pub fn next(&mut self) -> Option<(K, V)>
        ensures { TakesAtFront self.old result self.new }
    {
        if self.left == 0 {
            return None;
        }
        let (item, top) = take_first(&mut self.nodes, self.front);
        self.front = top;
        self.left -= 1;
        self.passed.tick();
        Some(item.into_pair())
    }

    /// Takes the last pair that is left.
    pub fn next_back(&mut self) -> Option<(K, V)>
        ensures { TakesAtBack self.old result self.new }
    {
        if self.left == 0 {
            return None;
        }
        let (item, top) = take_last(&mut self.nodes, self.back);
        self.back = top;
        self.left -= 1;
        Some(item.into_pair())
    }
}
