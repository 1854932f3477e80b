//! Nodes that are claimed from the store before a change, so that a refusal leaves the tree as it was.
ghost use Rattle.std.specs.Prelude.{◌≡◌, ◌<◌, ◌≤◌, ◌∷◌, ◌++◌, [], length, None, IfSome, IfNone, OnSome, IsTrue, false};
ghost use Rattle.std.specs.FinMap as map;
ghost use Rattle.btree_laws.specs.TreeState.{TreeState};
ghost use Rattle.btree_raw.specs.Claimed.{AreClaimed, CanHoldMore, EMPTY, UndoesClaims, MayRefuseOneOf};
ghost use Rattle.btree_raw.specs.Raw.{Refuses, with_node};

use crate::raw::RawBTree;
use arrayvec::ArrayVec;
use btree_item::MAX_CLAIMS;
use btree_node::{LeafNode, Node, NodesMut};

/// The numbers of claimed nodes. An insertion claims at most one for each of at most 32 levels, and one for a new root.
pub type ClaimedIds = ArrayVec<usize, MAX_CLAIMS>;

/// Removes the claimed nodes from the store, so that the tree is as it was before they were claimed.
pub fn release<K: Drop, V: Drop, C: NodesMut<K, V>>(
    tree: &mut RawBTree<K, V, C>,
    claims: &mut ClaimedIds,
)
    requires { (base : TreeState K V) × AreClaimed base tree.old claims.old.items }
    ensures back { UndoesClaims tree.old tree.new claims.old.items }
    ensures none { claims.new.items ≡ [] }
{
    tree.tell_fits();
    while let Some(id) = claims.pop() {
        drop(tree.release_node(id));
    }
}

/// Returns a leaf without items and without a parent, as which a node is claimed.
pub(crate) fn empty_leaf<K: Drop, V: Drop>() -> Node<K, V>
    ensures { result ≡ EMPTY }
{
    Node::Leaf(LeafNode::empty(None))
}

/// Claims one node, as an empty leaf. Returns its number, or `None` if the store refuses it.
#[inline(always)]
pub fn claim_one<K: Drop, V: Drop, C: NodesMut<K, V>>(tree: &mut RawBTree<K, V, C>) -> Option<usize>
    ensures number { IfSome result (λ id. id < usize.MAX) }
    ensures unused { IfSome result (λ id. map.get tree.old.nodes id ≡ None) }
    ensures claimed { IfSome result (λ id. tree.new ≡ with_node tree.old id EMPTY) }
    ensures can_hold { OnSome result (C.CanHold tree.new.nodes) }
    ensures refused { IfNone result (Refuses tree.old tree.new) }
    ensures may_refuse { IfNone result (C.MayRefuse tree.old.nodes) }
{
    tree.tell_fits();
    tree.store_node(empty_leaf()).ok()
}

/// Claims `count` nodes, as empty leaves, and puts their numbers into `claims`, which is empty. Returns whether they were claimed. If the
/// store refuses one, none is claimed and `claims` is empty again. The caller owns the list, so that it is not copied.
pub fn claim<K: Drop, V: Drop, C: NodesMut<K, V>>(
    tree: &mut RawBTree<K, V, C>,
    count: usize,
    claims: &mut ClaimedIds,
) -> bool
    requires few { count ≤ MAX_CLAIMS }
    requires none { claims.old.items ≡ [] }
    ensures claimed { IsTrue result → AreClaimed tree.old tree.new claims.new.items }
    ensures count { IsTrue result → length claims.new.items ≡ count }
    ensures can_hold { IsTrue result → CanHoldMore EMPTY C.CanHold tree.old.nodes count }
    ensures refused { result ≡ false → Refuses tree.old tree.new }
    ensures none_left { result ≡ false → claims.new.items ≡ [] }
    ensures may_refuse { result ≡ false →
        MayRefuseOneOf EMPTY C.MayRefuse tree.old.nodes count }
{
    for index in 0..count {
        match claim_one(tree) {
            Some(id) => claims.push(id),
            None => {
                release(tree, claims);
                return false;
            }
        }
    }
    // For the prover: the store can have the content with the claims.
    let _held = tree.node_count();
    true
}

/// Takes the last claimed number.
pub(crate) fn take_claim(claims: &mut ClaimedIds) -> usize
    requires { 0 < length claims.old.items }
    ensures { claims.old.items ≡ claims.new.items ++ result ∷ [] }
{
    claims.pop().unwrap()
}
