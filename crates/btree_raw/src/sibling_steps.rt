//! The steps that fix an underflow.
ghost use Rattle.std.specs.Prelude.{◌≡◌, ◌<◌, ◌≤◌, [], IfNone, IfOk, IfSome, None, OnErr, OnOk, Some};
ghost use Rattle.std.specs.FinMap as map;
ghost use Rattle.btree_node.specs.Node.{view_of};
ghost use Rattle.btree_view.specs.Edits.{with_items};
ghost use Rattle.btree_laws.specs.Lists.{as_list};
ghost use Rattle.btree_laws.specs.SiblingSteps.{ShrinksRoot};
ghost use Rattle.btree_laws.specs.Step.{RemovesNode, Reparents};
ghost use Rattle.btree_laws.specs.TreeState.{Changes, IsUsed, node_map};
ghost use Rattle.btree_laws.specs.UnderflowFix.{size_in};
ghost use Rattle.btree_raw.specs.Claimed.{EMPTY};
ghost use Rattle.btree_raw.specs.NodeSteps.{MergesSiblings, HasRoomFor, HasRoomForAll, HasSeparator, LosesFirst, LosesLast, ChangesSeparator, GainsFirst, GainsLast, GainsAll, LosesSeparator, ClearsParent, CanRotateLeft, CanRotateRight, CanMerge, CanShrinkToFirst, IsThere};
ghost use Rattle.btree_raw.specs.Steps.{HasCount};
ghost use Rattle.btree_raw.specs.TreeSteps.{HasFirstChild, RotatesLeftIn, RotatesRightIn};

use crate::claims::empty_leaf;
use crate::moved::Siblings;
use crate::node_changes::{adopt, set_parent};
use crate::raw::RawBTree;
use btree_item::{Item, LEAF_SLOTS, MIN_ITEMS, Offset};
use btree_node::{Node, NodesMut};
use btree_view::WouldUnderflow;

fn take_first<K: Drop, V: Drop, C: NodesMut<K, V>>(
    tree: &mut RawBTree<K, V, C>,
    id: usize,
) -> Result<(Item<K, V>, Option<usize>), WouldUnderflow>
    requires { IsUsed tree.old id }
    ensures taken { IfOk result (λ r. Changes (λ a b. LosesFirst a b id r.0 r.1) tree.old tree.new) }
    ensures spare { OnOk result (MIN_ITEMS < size_in (node_map tree.old id)) }
    ensures short { OnErr result (size_in (node_map tree.old id) ≤ MIN_ITEMS) }
    ensures unchanged { OnErr result (tree.new ≡ tree.old) }
{
    tree.tell_fits();
    tree.node_mut(id).pop_left()
}

fn take_last<K: Drop, V: Drop, C: NodesMut<K, V>>(
    tree: &mut RawBTree<K, V, C>,
    id: usize,
) -> Result<(usize, Item<K, V>, Option<usize>), WouldUnderflow>
    requires { IsUsed tree.old id }
    ensures taken { IfOk result (λ r. Changes (λ a b. LosesLast a b id r.1 r.2) tree.old tree.new) }
    ensures count { IfOk result (λ r. HasCount (node_map tree.old) id r.0) }
    ensures spare { OnOk result (MIN_ITEMS < size_in (node_map tree.old id)) }
    ensures short { OnErr result (size_in (node_map tree.old id) ≤ MIN_ITEMS) }
    ensures unchanged { OnErr result (tree.new ≡ tree.old) }
{
    tree.tell_fits();
    match tree.node_mut(id).pop_right() {
        Ok(popped) => Ok((popped.0.unwrap() + 1, popped.1, popped.2)),
        Err(short) => Err(short),
    }
}

fn change_separator<K: Drop, V: Drop, C: NodesMut<K, V>>(
    tree: &mut RawBTree<K, V, C>,
    id: usize,
    index: usize,
    item: Item<K, V>,
) -> Item<K, V>
    requires { HasSeparator (node_map tree.old) id index }
    ensures { Changes (λ a b. ChangesSeparator a b id index result item) tree.old tree.new }
{
    tree.tell_fits();
    tree.node_mut(id).replace(Offset::from(index), item)
}

fn put_first<K: Drop, V: Drop, C: NodesMut<K, V>>(
    tree: &mut RawBTree<K, V, C>,
    id: usize,
    item: Item<K, V>,
    child: Option<usize>,
) -> Option<usize>
    requires { HasRoomFor (node_map tree.old) id child }
    ensures gains { Changes (λ a b. GainsFirst a b id item child) tree.old tree.new }
    ensures first { HasFirstChild (node_map tree.old) id result }
{
    tree.tell_fits();
    let node = tree.node_mut(id);
    let first = node.child_id_opt(0);
    node.push_left(item, child);
    first
}

fn put_last<K: Drop, V: Drop, C: NodesMut<K, V>>(
    tree: &mut RawBTree<K, V, C>,
    id: usize,
    item: Item<K, V>,
    child: Option<usize>,
)
    requires { HasRoomFor (node_map tree.old) id child }
    ensures { Changes (λ a b. GainsLast a b id item child) tree.old tree.new }
{
    tree.tell_fits();
    let _offset = tree.node_mut(id).push_right(item, child);
}

// Removes and returns an item of an internal node, and removes the child after it.
fn take_separator<K: Drop, V: Drop, C: NodesMut<K, V>>(
    tree: &mut RawBTree<K, V, C>,
    id: usize,
    index: usize,
) -> Item<K, V>
    requires { HasSeparator (node_map tree.old) id index }
    ensures { Changes (λ a b. LosesSeparator a b id index result) tree.old tree.new }
{
    tree.tell_fits();
    let (_index, _left, _right, item, _balance) = tree.node_mut(id).merge(index, index + 1);
    item
}

// Appends a separator, and then what another node holds, to a node. The other node keeps its parent and, as an internal node, its first
// child. Returns how many items the node had.
fn put_all<K: Drop, V: Drop, C: NodesMut<K, V>>(
    tree: &mut RawBTree<K, V, C>,
    id: usize,
    separator: Item<K, V>,
    other: &mut Node<K, V>,
) -> usize
    requires { HasRoomForAll (node_map tree.old) id (view_of other.old) }
    ensures gains { Changes (λ a b. GainsAll a b id separator (view_of other.old)) tree.old tree.new }
    ensures count { HasCount (node_map tree.old) id result }
    ensures emptied { view_of other.new ≡ with_items [] (view_of other.old) }
{
    tree.tell_fits();
    tree.node_mut(id).append_from(separator, other).unwrap()
}

// Removes a node. What it held goes into `part`, a leaf without items, which becomes that node. No leaf is passed by value.
fn take_node<K: Drop, V: Drop, C: NodesMut<K, V>>(
    tree: &mut RawBTree<K, V, C>,
    id: usize,
    part: &mut Node<K, V>,
)
    requires used { IsUsed tree.old id }
    requires empty { part.old ≡ EMPTY }
    ensures node { map.get tree.old.nodes id ≡ Some part.new }
    ensures after { tree.new ≡ record tree.old { nodes = map.remove tree.old.nodes id } }
{
    tree.tell_fits();
    tree.node_mut(id).move_into(part);
    drop(tree.release_node(id));
}

fn move_child<K, V, C: NodesMut<K, V>>(
    tree: &mut RawBTree<K, V, C>,
    child: Option<usize>,
    parent: usize,
)
    requires there { IsThere (node_map tree.old) child }
    requires number { parent < usize.MAX }
    ensures { Changes (λ a b. Reparents a b parent (as_list child)) tree.old tree.new }
{
    match child {
        Some(id) => set_parent(tree, id, parent),
        None => {}
    }
}

fn clear_parent<K, V, C: NodesMut<K, V>>(tree: &mut RawBTree<K, V, C>, id: usize) -> usize
    requires { IsUsed tree.old id }
    ensures clears { Changes (λ a b. ClearsParent a b id) tree.old tree.new }
    ensures count { HasCount (node_map tree.old) id result }
    ensures few { result ≤ LEAF_SLOTS }
{
    tree.tell_fits();
    let node = tree.node_mut(id);
    let count = node.item_count();
    node.set_parent(None);
    count
}

/// Rotates left, if the right sibling has an item to spare: its first item moves up to the parent, and the parent's item down to the end of
/// the left sibling. Returns the child that moves with the items, which is the first one of the right sibling.
pub(crate) fn rotate_left<K: Drop, V: Drop, C: NodesMut<K, V>>(
    tree: &mut RawBTree<K, V, C>,
    siblings: Siblings,
) -> Result<Option<usize>, WouldUnderflow>
    requires { CanRotateLeft (node_map tree.old) siblings }
    ensures rotates { OnOk result (RotatesLeftIn tree.old tree.new siblings) }
    ensures first { IfOk result (HasFirstChild (node_map tree.old) siblings.right) }
    ensures spare { OnOk result (MIN_ITEMS < size_in (node_map tree.old siblings.right)) }
    ensures short { OnErr result (size_in (node_map tree.old siblings.right) ≤ MIN_ITEMS) }
    ensures unchanged { OnErr result (tree.new ≡ tree.old) }
{
    tree.tell_numbers();
    let (up, child) = match take_first(tree, siblings.right) {
        Ok((up, child)) => (up, child),
        Err(short) => return Err(short),
    };
    let down = change_separator(tree, siblings.parent, siblings.index, up);
    put_last(tree, siblings.left, down, child);
    move_child(tree, child, siblings.left);
    Ok(child)
}

/// Rotates right, if the left sibling has an item to spare: its last item moves up to the parent, and the parent's item down to the front of
/// the right sibling. Returns how many items the left sibling had, and which child was the first of the right one.
pub(crate) fn rotate_right<K: Drop, V: Drop, C: NodesMut<K, V>>(
    tree: &mut RawBTree<K, V, C>,
    siblings: Siblings,
) -> Result<(usize, Option<usize>), WouldUnderflow>
    requires { CanRotateRight (node_map tree.old) siblings }
    ensures rotates { OnOk result (RotatesRightIn tree.old tree.new siblings) }
    ensures count { IfOk result (λ r. HasCount (node_map tree.old) siblings.left r.0) }
    ensures first { IfOk result (λ r. HasFirstChild (node_map tree.old) siblings.right r.1) }
    ensures spare { OnOk result (MIN_ITEMS < size_in (node_map tree.old siblings.left)) }
    ensures short { OnErr result (size_in (node_map tree.old siblings.left) ≤ MIN_ITEMS) }
    ensures unchanged { OnErr result (tree.new ≡ tree.old) }
{
    tree.tell_numbers();
    let (held, up, child) = match take_last(tree, siblings.left) {
        Ok((held, up, child)) => (held, up, child),
        Err(short) => return Err(short),
    };
    let down = change_separator(tree, siblings.parent, siblings.index, up);
    let first = put_first(tree, siblings.right, down, child);
    move_child(tree, child, siblings.right);
    Ok((held, first))
}

/// Merges two siblings: the parent's item and what the right sibling holds are appended to the left one, and the right one is removed.
/// Returns how many items the left one had, and the first child of the right one.
pub(crate) fn merge<K: Drop, V: Drop, C: NodesMut<K, V>>(
    tree: &mut RawBTree<K, V, C>,
    siblings: Siblings,
) -> (usize, Option<usize>)
    requires { CanMerge (node_map tree.old) siblings }
    ensures merges { Changes (λ a b. MergesSiblings a b siblings) tree.old tree.new }
    ensures count { HasCount (node_map tree.old) siblings.left result.0 }
    ensures first { HasFirstChild (node_map tree.old) siblings.right result.1 }
{
    tree.tell_fits();
    tree.tell_numbers();
    let down = take_separator(tree, siblings.parent, siblings.index);
    let mut other = empty_leaf();
    take_node(tree, siblings.right, &mut other);
    let first = other.child_id_opt(0);
    adopt(tree, &other, siblings.left);
    let held = put_all(tree, siblings.left, down, &mut other);
    (held, first)
}

/// Removes a root without items. Returns its only child, which has no parent then, with the number of the child's items, or `None` if it
/// was a leaf.
pub(crate) fn shrink_root<K: Drop, V: Drop, C: NodesMut<K, V>>(
    tree: &mut RawBTree<K, V, C>,
    root: usize,
) -> Option<(usize, usize)>
    requires used { IsUsed tree.old root }
    requires can { CanShrinkToFirst (node_map tree.old) root }
    ensures shrinks { IfSome result (λ r. Changes (λ a b. ShrinksRoot a b root r.0) tree.old tree.new) }
    ensures first { IfSome result (λ r. HasFirstChild (node_map tree.old) root (Some r.0)) }
    ensures count { IfSome result (λ r. HasCount (node_map tree.old) r.0 r.1) }
    ensures few { IfSome result (λ r. r.1 ≤ LEAF_SLOTS) }
    ensures leaf { IfNone result (HasFirstChild (node_map tree.old) root None) }
    ensures removes { IfNone result (Changes (λ a b. RemovesNode a b root) tree.old tree.new) }
{
    tree.tell_fits();
    let node = tree.release_node(root);
    let first = node.child_id_opt(0);
    drop(node);
    let Some(child) = first else {
        return None;
    };
    let held = clear_parent(tree, child);
    Some((child, held))
}
