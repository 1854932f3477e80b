//! Changes of single nodes.
ghost use Rattle.std.specs.Prelude.{◌≡◌, ◌<◌, ◌≤◌, ◌∷◌, ◌++◌, [], None, OnOk, IfErr, IfSome, IfNone, OnErr};
ghost use Rattle.btree_node.specs.Node.{view_of};
ghost use Rattle.btree_view.specs.View.{children_in, children_of};
ghost use Rattle.btree_laws.specs.Step.{Reparents, WritesNode};
ghost use Rattle.btree_laws.specs.TreeState.{Changes, IsUsed, KeepsRest, TreeState, node_map, nodes_for_splits};
ghost use Rattle.btree_raw.specs.Steps.{AddsAndCuts, AddsItem, AddsSeparatorAndCuts, AreThere, CanAddItem, CanAddSeparator, CanCut, CanCutAbove, CanCutWith, CanReparent, HasParent, LeavesPart, Overflows, SetsParent};
ghost use Rattle.btree_raw.specs.TreeSteps.{IsInsertionIndex, IsNotAdded, KeepsLeftPart, MayCutIn, PlacesPart, PutsPart};
ghost use Rattle.btree_raw.specs.Insertion.{IsFull};

use crate::claims::{ClaimedIds, empty_leaf, take_claim};
use crate::raw::RawBTree;
use btree_item::{INTERNAL_SLOTS, Item, Offset};
use btree_node::{Node, NodesMut};
use std::mem;

/// Puts a node in the place of another, which is dropped.
pub fn put<K: Drop, V: Drop, C: NodesMut<K, V>>(
    tree: &mut RawBTree<K, V, C>,
    id: usize,
    node: Node<K, V>,
)
    requires { IsUsed tree.old id }
    ensures { Changes (λ a b. WritesNode a b id (view_of node)) tree.old tree.new }
{
    drop(mem::replace(tree.node_mut(id), node));
}

/// Sets the parent of a node, which it fetches once.
pub(crate) fn set_parent<K, V, C: NodesMut<K, V>>(
    tree: &mut RawBTree<K, V, C>,
    id: usize,
    parent: usize,
)
    requires used { IsUsed tree.old id }
    requires number { parent < usize.MAX }
    ensures { Changes (λ a b. SetsParent a b id parent) tree.old tree.new }
{
    tree.tell_fits();
    tree.node_mut(id).set_parent(Some(parent));
}

/// Inserts an item into a leaf at an index, if the leaf is not full. Returns the item and the leaf's parent, and nothing changes, if it is.
/// It fetches the leaf once.
pub fn add_item_in_room<K: Drop, V: Drop, C: NodesMut<K, V>>(
    tree: &mut RawBTree<K, V, C>,
    id: usize,
    index: usize,
    item: Item<K, V>,
) -> Result<(), (Item<K, V>, Option<usize>)>
    requires { CanAddItem (node_map tree.old) id index None }
    ensures added { OnOk result (Changes (λ a b. AddsItem a b id index item None) tree.old tree.new) }
    ensures enough { OnOk result (nodes_for_splits tree.old id ≡ 0) }
    ensures returned { IfErr result (λ back. back.0 ≡ item) }
    ensures parent { IfErr result (λ back. HasParent (node_map tree.old) id back.1) }
    ensures full { OnErr result (IsFull (node_map tree.old) id) }
    ensures unchanged { OnErr result (tree.new ≡ tree.old) }
{
    tree.tell_fits();
    let leaf = tree.node_mut(id);
    if leaf.is_full() {
        let parent = leaf.parent();
        return Err((item, parent));
    }
    leaf.insert(Offset::from(index), item, None);
    Ok(())
}

/// Why an item was not inserted at a leaf, and the item, which the caller gets back.
#[derive(Drop)]
pub enum NotAdded<K, V> {
    /// The node is a full leaf, with this parent.
    Full(Item<K, V>, Option<usize>),
    /// The node is an internal node.
    Inner(Item<K, V>),
}

/// Inserts an item into a node at an index, if the node is a leaf that is not full. Otherwise it returns the item, and nothing changes. It
/// fetches the node once.
pub fn add_item_at_leaf<K: Drop, V: Drop, C: NodesMut<K, V>>(
    tree: &mut RawBTree<K, V, C>,
    id: usize,
    index: usize,
    item: Item<K, V>,
) -> Result<(), NotAdded<K, V>>
    requires used { IsUsed tree.old id }
    requires within { IsInsertionIndex tree.old id index }
    ensures can { OnOk result (CanAddItem (node_map tree.old) id index None) }
    ensures added { OnOk result (Changes (λ a b. AddsItem a b id index item None) tree.old tree.new) }
    ensures enough { OnOk result (nodes_for_splits tree.old id ≡ 0) }
    ensures not_added { IfErr result (IsNotAdded tree.old id item) }
    ensures unchanged { OnErr result (tree.new ≡ tree.old) }
{
    tree.tell_fits();
    let node = tree.node_mut(id);
    if node.child_count() > 0 {
        return Err(NotAdded::Inner(item));
    }
    if node.is_full() {
        let parent = node.parent();
        return Err(NotAdded::Full(item, parent));
    }
    node.insert(Offset::from(index), item, None);
    Ok(())
}

/// What is left of the cut of a node: its parent, how many items it kept, the median, and the number of the node that has its right part.
#[derive(Drop)]
pub(crate) struct Cut<K, V> {
    pub(crate) parent: Option<usize>,
    pub(crate) kept: usize,
    pub(crate) median: Item<K, V>,
    pub(crate) right: usize,
}

// Prepares the right part of a node that was cut for the last claimed number: its children get it as their parent. Returns that number. The
// caller puts the part there, so that it moves once.
#[inline(always)]
fn adopt_part<K: Drop, V: Drop, C: NodesMut<K, V>>(
    tree: &mut RawBTree<K, V, C>,
    part: &Node<K, V>,
    claims: &mut ClaimedIds,
) -> usize
    requires left { LeavesPart (node_map tree.old) (view_of part.now) claims.old.items }
    ensures last { claims.old.items ≡ claims.new.items ++ result ∷ [] }
    ensures used { IsUsed tree.new result }
    ensures splits { (after : TreeState K V) → PutsPart tree.new after part.now result →
        PlacesPart tree.old after part.now claims.old.items result }
    ensures leaves { (after : TreeState K V) → PutsPart tree.new after part.now result →
        KeepsLeftPart tree.old after part.now claims.old.items }
    ensures rest { KeepsRest tree.old tree.new }
{
    tree.tell_fits();
    let right = take_claim(claims);
    adopt(tree, part, right);
    right
}

/// Cuts a node of the tree at its median, if it has an item too many. Its right part goes to the last claimed number.
pub(crate) fn cut_node<K: Drop, V: Drop, C: NodesMut<K, V>>(
    tree: &mut RawBTree<K, V, C>,
    id: usize,
    claims: &mut ClaimedIds,
) -> Option<Cut<K, V>>
    requires used { IsUsed tree.old id }
    requires can { Overflows (node_map tree.old) id → CanCut (node_map tree.old) id claims.old.items }
    ensures { MayCutIn tree.old tree.new id claims.old.items claims.new.items result }
{
    tree.tell_fits();
    let node = tree.node_mut(id);
    if !node.is_overflowing() {
        return None;
    }
    let parent = node.parent();
    let mut part = empty_leaf();
    let (kept, median) = node.split_into(&mut part);
    let right = adopt_part(tree, &part, claims);
    put(tree, right, part);
    Some(Cut {
        parent,
        kept,
        median,
        right,
    })
}

/// Inserts an item into a node at an index, and a child after it if one is given. Then it cuts the node as `cut_node` does.
pub(crate) fn add_and_cut<K: Drop, V: Drop, C: NodesMut<K, V>>(
    tree: &mut RawBTree<K, V, C>,
    id: usize,
    index: usize,
    item: Item<K, V>,
    child: Option<usize>,
    claims: &mut ClaimedIds,
) -> Option<Cut<K, V>>
    requires can { CanAddItem (node_map tree.old) id index child }
    requires can_cut { CanCutWith tree.old id index item child claims.old.items }
    ensures { AddsAndCuts tree.old tree.new id index item child
        claims.old.items claims.new.items result }
{
    tree.tell_fits();
    let node = tree.node_mut(id);
    node.insert(Offset::from(index), item, child);
    cut_node(tree, id, claims)
}

/// Inserts a median and a new child into a node, after the child `id`. Then it cuts the node as `cut_node` does. Returns the index of `id`,
/// and what is left of the cut.
pub(crate) fn insert_separator<K: Drop, V: Drop, C: NodesMut<K, V>>(
    tree: &mut RawBTree<K, V, C>,
    above: usize,
    id: usize,
    median: Item<K, V>,
    right: usize,
    claims: &mut ClaimedIds,
) -> (usize, Option<Cut<K, V>>)
    requires can { CanAddSeparator (node_map tree.old) above id }
    requires can_cut { CanCutAbove tree.old above id right median claims.old.items }
    ensures adds { AddsSeparatorAndCuts tree.old tree.new above id right result.0 median
        claims.old.items claims.new.items result.1 }
    ensures few { result.0 ≤ INTERNAL_SLOTS }
{
    tree.tell_fits();
    let node = tree.node_mut(above);
    let index = node.child_index(id).unwrap();
    node.insert(Offset::from(index), median, Some(right));
    (index, cut_node(tree, above, claims))
}

/// Sets the parent of all children of a node that is not in the tree.
pub(crate) fn adopt<K, V, C: NodesMut<K, V>>(
    tree: &mut RawBTree<K, V, C>,
    node: &Node<K, V>,
    parent: usize,
)
    requires there { AreThere (node_map tree.old) (children_of (view_of node.now)) }
    requires number { parent < usize.MAX }
    ensures { Changes (λ a b. Reparents a b parent (children_of (view_of node.now))) tree.old tree.new }
{
    tree.tell_fits();
    for index in 0..node.child_count() {
        set_parent(tree, node.child_id(index), parent);
    }
}

/// Sets the parent of all children of a node.
pub(crate) fn reparent_children<K, V, C: NodesMut<K, V>>(tree: &mut RawBTree<K, V, C>, id: usize)
    requires { CanReparent (node_map tree.old) id }
    ensures { Changes (λ a b. Reparents a b id (children_in (node_map tree.old id))) tree.old tree.new }
{
    tree.tell_fits();
    let count = tree.node(id).child_count();
    for index in 0..count {
        let child = tree.node(id).child_id(index);
        set_parent(tree, child, id);
    }
}
