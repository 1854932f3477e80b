//! One step of an underflow fix, between two siblings, with an address that is followed.
ghost use Rattle.std.specs.Prelude.{◌≡◌, ℕ, ◌<◌, ◌≤◌, IfNone, IfSome, IsSome, OnSome};
ghost use Rattle.btree_laws.specs.TreeState.{Changes, node_map};
ghost use Rattle.btree_laws.specs.UnderflowFix.{size_in};
ghost use Rattle.btree_raw.specs.NodeSteps.{MergesSiblings};
ghost use Rattle.btree_raw.specs.Underflow.{AreAdjacent, GoesUpFromEither, FitTogether, Underflows};
ghost use Rattle.btree_raw.specs.Steps.{HasCount};
ghost use Rattle.btree_raw.specs.TreeSteps.{EndsUnderflowIn, RotatesLeftIn, RotatesRightIn};

use crate::moved::{Siblings, moved_by_merge, moved_by_rotate_left, moved_by_rotate_right};
use crate::raw::RawBTree;
use crate::sibling_steps::{merge, rotate_left, rotate_right};
use btree_item::{Address, LEAF_SLOTS, MIN_ITEMS};
use btree_node::NodesMut;

/// Moves the first item of the right sibling into the left one, which underflows and has `count` items, through their parent. Returns the
/// new address of what was at `addr`, or `None`, and nothing changes, if the right sibling has no item to spare. It changes three nodes, and
/// the parent of a fourth if a child moves with the item.
pub(crate) fn borrow_from_right<K: Drop, V: Drop, C: NodesMut<K, V>>(
    tree: &mut RawBTree<K, V, C>,
    siblings: Siblings,
    count: usize,
    addr: Address,
) -> Option<Address>
    requires adjacent { AreAdjacent (node_map tree.old) siblings siblings.left addr }
    requires short { Underflows (node_map tree.old) siblings.left }
    requires count { HasCount (node_map tree.old) siblings.left count }
    ensures rotates { OnSome result (RotatesLeftIn tree.old tree.new siblings) }
    ensures here { IfSome result (EndsUnderflowIn tree.old tree.new siblings.left addr) }
    ensures back { IfSome result (λ b. IsSome addr.offset → IsSome b.offset) }
    ensures spare { OnSome result (MIN_ITEMS < size_in (node_map tree.old siblings.right)) }
    ensures none { IfNone result (size_in (node_map tree.old siblings.right) ≤ MIN_ITEMS) }
    ensures unchanged { IfNone result (tree.new ≡ tree.old) }
{
    match rotate_left(tree, siblings) {
        Ok(child) => Some(moved_by_rotate_left(addr, siblings, count, child)),
        Err(_) => None,
    }
}

/// Moves the last item of the left sibling into the right one, which underflows, through their parent. Returns the new address of what was
/// at `addr`, or `None`, and nothing changes, if the left sibling has no item to spare. It changes three nodes, and the parent of a fourth if
/// a child moves with the item.
pub(crate) fn borrow_from_left<K: Drop, V: Drop, C: NodesMut<K, V>>(
    tree: &mut RawBTree<K, V, C>,
    siblings: Siblings,
    addr: Address,
) -> Option<Address>
    requires adjacent { AreAdjacent (node_map tree.old) siblings siblings.right addr }
    requires short { Underflows (node_map tree.old) siblings.right }
    requires low { IfSome addr.offset (λ n. n ≤ LEAF_SLOTS) }
    ensures rotates { OnSome result (RotatesRightIn tree.old tree.new siblings) }
    ensures here { IfSome result (EndsUnderflowIn tree.old tree.new siblings.right addr) }
    ensures back { IfSome result (λ b. IsSome addr.offset → IsSome b.offset) }
    ensures spare { OnSome result (MIN_ITEMS < size_in (node_map tree.old siblings.left)) }
    ensures none { IfNone result (size_in (node_map tree.old siblings.left) ≤ MIN_ITEMS) }
    ensures unchanged { IfNone result (tree.new ≡ tree.old) }
{
    match rotate_right(tree, siblings) {
        Ok((count, child)) => Some(moved_by_rotate_right(addr, siblings, count, child)),
        Err(_) => None,
    }
}

/// Merges two siblings into the left one, and frees the right one. Returns the new address of what was at `addr`. It sets the parent of
/// every child that the right one had.
pub(crate) fn merge_siblings<K: Drop, V: Drop, C: NodesMut<K, V>>(
    tree: &mut RawBTree<K, V, C>,
    siblings: Siblings,
    addr: Address,
) -> Address
    requires adjacent { (id : ℕ) × AreAdjacent (node_map tree.old) siblings id addr }
    requires few { FitTogether (node_map tree.old) siblings }
    requires low { IfSome addr.offset (λ n. n ≤ LEAF_SLOTS) }
    ensures merges { Changes (λ a b. MergesSiblings a b siblings) tree.old tree.new }
    ensures above { GoesUpFromEither tree.old tree.new siblings addr result }
    ensures back { IsSome addr.offset → IsSome result.offset }
{
    let (count, child) = merge(tree, siblings);
    moved_by_merge(addr, siblings, count, child)
}
