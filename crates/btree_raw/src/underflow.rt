//! Fixes of underflows, from a node upward.
ghost use Rattle.std.specs.Prelude.{◌≡◌, ◌-◌, ℕ, ◌<◌, ◌≤◌, IfSome, IsSome, Some, None, option_map, true, false};
ghost use Rattle.btree_view.specs.View.{parent_of};
ghost use Rattle.btree_laws.specs.UnderflowFix.{Borrows, MergesNode};
ghost use Rattle.btree_laws.specs.TreeState.{KeepsRest, node_map};
ghost use Rattle.btree_raw.specs.Rebalance.{StaysAsIs};
ghost use Rattle.btree_raw.specs.Underflow.{AreAdjacent, BorrowsFromLeft, EndsHere, GoesUp, HasSiblings, IsChild, IsFollowed, IsFixing, IsFixingOf, Underflows, MergesWithLeft, FixesUnderflowUpward};
ghost use Rattle.btree_raw.specs.Underflow as specs;
ghost use Rattle.btree_raw.specs.Steps.{HasCount, HasParent};
ghost use Rattle.btree_raw.specs.TreeSteps.{StaysIfFit};

use crate::borrow::{borrow_from_left, borrow_from_right, merge_siblings};
use crate::moved::{Siblings, moved_by_shrink_root};
use crate::raw::RawBTree;
use crate::sibling_steps::shrink_root;
use btree_item::{Address, LEAF_SLOTS, MIN_ITEMS};
use btree_node::NodesMut;

fn siblings_of(
    parent: usize,
    index: usize,
    left: Option<usize>,
    right: Option<usize>,
) -> Option<Siblings>
    ensures { result ≡ specs.siblings_of parent index left right }
{
    match left {
        Some(left) => match right {
            Some(right) => Some(Siblings {
                parent,
                index,
                left,
                right,
            }),
            None => None,
        },
        None => None,
    }
}

// Returns a child with the child before it, and with the child after it, if there are such.
fn siblings<K, V, C: NodesMut<K, V>>(
    tree: &RawBTree<K, V, C>,
    parent: usize,
    id: usize,
) -> (Option<Siblings>, Option<Siblings>)
    requires { IsChild (node_map tree.now) parent id }
    ensures { HasSiblings (node_map tree.now) parent id result.0 result.1 }
{
    tree.tell_fits();
    let node = tree.node(parent);
    // For the prover alone: a node has few children, so an index has a next one.
    let _few = node.child_count();
    let index = node.child_index(id).unwrap();
    let right = node.child_id_opt(index + 1);
    let after = siblings_of(parent, index, Some(id), right);
    if index == 0 {
        return (None, after);
    }
    let left = node.child_id_opt(index - 1);
    (siblings_of(parent, index - 1, left, Some(id)), after)
}

// Fixes an underflow with the left sibling. Returns the new address of what was at `addr`, and whether the two were merged.
fn fix_underflow_with_left<K: Drop, V: Drop, C: NodesMut<K, V>>(
    tree: &mut RawBTree<K, V, C>,
    siblings: Siblings,
    addr: Address,
) -> (Address, bool)
    requires adjacent { AreAdjacent (node_map tree.old) siblings siblings.right addr }
    requires short { Underflows (node_map tree.old) siblings.right }
    requires low { IfSome addr.offset (λ n. n ≤ LEAF_SLOTS) }
    ensures borrows { result.1 ≡ false → BorrowsFromLeft tree.old tree.new siblings }
    ensures merges { result.1 ≡ true → MergesWithLeft tree.old tree.new siblings }
    ensures here { EndsHere tree.old tree.new siblings.right addr result }
    ensures above { GoesUp tree.old tree.new siblings.parent siblings.right addr result }
    ensures rest { KeepsRest tree.old tree.new }
    ensures back { IsSome addr.offset → IsSome result.0.offset }
{
    match borrow_from_left(tree, siblings, addr) {
        Some(at) => (at, false),
        None => (merge_siblings(tree, siblings, addr), true),
    }
}

// Takes one step at a node that underflows, has `count` items and has a parent. Returns the new address of what was at `addr`, and
// whether a node was freed, so that the parent may underflow.
fn fix_underflow_at<K: Drop, V: Drop, C: NodesMut<K, V>>(
    tree: &mut RawBTree<K, V, C>,
    parent: usize,
    id: usize,
    count: usize,
    addr: Address,
) -> (Address, bool)
    requires followed { IsFollowed (node_map tree.old) id addr }
    requires under { option_map parent_of (node_map tree.old id) ≡ Some (Some parent) }
    requires count { HasCount (node_map tree.old) id count }
    requires short { count ≤ MIN_ITEMS - 1 }
    requires low { IfSome addr.offset (λ n. n ≤ LEAF_SLOTS) }
    ensures borrows { result.1 ≡ false → Borrows (node_map tree.old) (node_map tree.new) parent id }
    ensures merges { result.1 ≡ true → MergesNode (node_map tree.old) (node_map tree.new) parent id }
    ensures here { EndsHere tree.old tree.new id addr result }
    ensures above { GoesUp tree.old tree.new parent id addr result }
    ensures rest { KeepsRest tree.old tree.new }
    ensures back { IsSome addr.offset → IsSome result.0.offset }
{
    let (before, after) = siblings(tree, parent, id);
    let Some(after) = after else {
        return fix_underflow_with_left(tree, before.unwrap(), addr);
    };
    if let Some(at) = borrow_from_right(tree, after, count, addr) {
        return (at, false);
    }
    match before {
        Some(before) => fix_underflow_with_left(tree, before, addr),
        None => (merge_siblings(tree, after, addr), true),
    }
}

// Finishes at the root, which has `count` items: an internal root without items is freed and its only child becomes the root, and a leaf
// without items is freed.
fn fix_root<K: Drop, V: Drop, C: NodesMut<K, V>>(
    tree: &mut RawBTree<K, V, C>,
    id: usize,
    count: usize,
    addr: Address,
) -> Address
    requires fixing { IsFixing (node_map tree.old) tree.old.root id addr }
    requires top { option_map parent_of (node_map tree.old id) ≡ Some None }
    requires count { HasCount (node_map tree.old) id count }
    ensures fixed { FixesUnderflowUpward tree.old tree.new id addr result }
    ensures settled { 0 < count → StaysAsIs tree.old tree.new addr result }
    ensures back { IsSome addr.offset → IsSome result.offset }
{
    if count > 0 {
        return addr;
    }
    match shrink_root(tree, id) {
        Some((child, held)) => {
            tree.set_root_id(Some(child));
            moved_by_shrink_root(addr, id, child, held)
        }
        None => {
            tree.set_root_id(None);
            Address::nowhere()
        }
    }
}

/// Fixes the underflow of a node, which has `count` items and this parent, if it has too few; then of its parent, and so on upward, up to
/// the root. Returns the new address of what was at `addr`. It needs no new node, so it cannot fail. If the node has enough items, nothing
/// changes, and it returns `addr`.
///
/// The caller has just fetched the node, so it is not fetched again for its count and its parent.
pub fn fix_underflow_upward<K: Drop, V: Drop, C: NodesMut<K, V>>(
    tree: &mut RawBTree<K, V, C>,
    start: usize,
    count: usize,
    parent: Option<usize>,
    addr: Address,
) -> Address
    ghost items: { ℕ }
    requires fixing { IsFixingOf (node_map tree.old) tree.old.root start addr items }
    requires count { HasCount (node_map tree.old) start count }
    requires parent { HasParent (node_map tree.old) start parent }
    ensures fixed { FixesUnderflowUpward tree.old tree.new start addr result }
    ensures settled { StaysIfFit tree.old tree.new start addr result }
    ensures back { IsSome addr.offset → IsSome result.offset }
{
    tree.tell_fits();
    let mut id = start;
    let mut held = count;
    let mut above = parent;
    let mut at = addr;
    while held < MIN_ITEMS {
        let Some(parent) = above else {
            return fix_root(tree, id, held, at);
        };
        let (moved, up) = fix_underflow_at(tree, parent, id, held, at);
        if !up {
            return moved;
        }
        let node = tree.node(parent);
        at = moved;
        id = parent;
        held = node.item_count();
        above = node.parent();
    }
    at
}
