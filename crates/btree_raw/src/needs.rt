//! How many nodes splits need.
ghost use Rattle.std.specs.Prelude.{◌≡◌, ◌≤◌};
ghost use Rattle.std.specs.FinMap as map;
ghost use Rattle.btree_laws.specs.TreeState.{IsBTree, IsUsed, node_map, nodes_for_splits, nodes_needed};
ghost use Rattle.btree_raw.specs.Insertion.{IsFull};
ghost use Rattle.btree_raw.specs.Steps.{HasParent, IsCountingSplits};

use crate::raw::RawBTree;
use btree_item::MAX_CLAIMS;
use btree_node::NodesMut;

/// Returns how many nodes the splits need that begin at a node with an item too many: one for each consecutive full node from there
/// upward, and one more if the last of them is the root. It reads at most one node of each level.
pub fn split_need<K, V, C: NodesMut<K, V>>(tree: &RawBTree<K, V, C>, start: usize) -> usize
    requires { IsCountingSplits (node_map tree.now) (map.len tree.now.nodes) start start 0 }
    ensures value { result ≡ nodes_for_splits tree.now start }
    ensures few { result ≤ MAX_CLAIMS }
{
    tree.tell_fits();
    let node = tree.node(start);
    if !node.is_full() {
        return 0;
    }
    let parent = node.parent();
    split_need_above(tree, start, parent)
}

/// Does the same as `split_need` for a full node that the caller has just fetched, with this parent. It begins to read there.
pub(crate) fn split_need_above<K, V, C: NodesMut<K, V>>(
    tree: &RawBTree<K, V, C>,
    start: usize,
    parent: Option<usize>,
) -> usize
    requires counting { IsCountingSplits (node_map tree.now) (map.len tree.now.nodes) start start 0 }
    requires full { IsFull (node_map tree.now) start }
    requires parent { HasParent (node_map tree.now) start parent }
    ensures value { result ≡ nodes_for_splits tree.now start }
    ensures few { result ≤ MAX_CLAIMS }
{
    tree.tell_fits();
    let mut id = start;
    let mut above = parent;
    let mut counted = 0usize;
    loop {
        let Some(parent) = above else {
            return counted + 2;
        };
        id = parent;
        counted += 1;
        let node = tree.node(id);
        if !node.is_full() {
            return counted;
        }
        above = node.parent();
    }
}

/// Returns how many nodes an insertion in a leaf needs that is full: those for the splits from the leaf upward. The caller has just fetched
/// the leaf, with this parent, so it is not fetched again.
pub fn need_above<K: Ord, V, C: NodesMut<K, V>>(
    tree: &RawBTree<K, V, C>,
    leaf: usize,
    parent: Option<usize>,
) -> usize
    requires sound { IsBTree K.cmp tree.now }
    requires full { IsFull (node_map tree.now) leaf }
    requires parent { HasParent (node_map tree.now) leaf parent }
    ensures value { result ≡ nodes_needed tree.now leaf }
    ensures few { result ≤ MAX_CLAIMS }
{
    // For the prover alone: the length is a `usize`, so there are at most 32 levels.
    let _len = tree.len();
    split_need_above(tree, leaf, parent)
}

/// Returns how many nodes an insertion in a leaf needs: those for the splits from the leaf upward if it is full, and none otherwise.
pub fn need<K: Ord, V, C: NodesMut<K, V>>(tree: &RawBTree<K, V, C>, leaf: usize) -> usize
    requires sound { IsBTree K.cmp tree.now }
    requires used { IsUsed tree.now leaf }
    ensures value { result ≡ nodes_needed tree.now leaf }
    ensures few { result ≤ MAX_CLAIMS }
{
    // For the prover alone: the length is a `usize`, so there are at most 32 levels.
    let _len = tree.len();
    split_need(tree, leaf)
}
