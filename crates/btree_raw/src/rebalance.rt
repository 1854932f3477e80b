//! Rebalancing a tree that is off by one at a node.
ghost use Rattle.std.specs.Prelude.{IfOk, IfErr};
ghost use Rattle.btree_laws.specs.TreeState.{IsOffByOneAt, IsValidIn, node_map};
ghost use Rattle.btree_raw.specs.Steps.{HasCount, HasParent, Overflows};
ghost use Rattle.btree_raw.specs.Rebalance.{HasRoom, IsRebalanced, IsRefusal};

use crate::claims::{ClaimedIds, claim};
use crate::needs::split_need;
use crate::raw::RawBTree;
use crate::splits::split_upward;
use crate::underflow::fix_underflow_upward;
use btree_item::{Address, Cause};
use btree_node::NodesMut;

// Claims the nodes that the splits need, and splits an overflowing node and so on upward.
fn rebalance_overflow<K: Ord + Drop, V: Drop, C: NodesMut<K, V>>(
    tree: &mut RawBTree<K, V, C>,
    id: usize,
    addr: Address,
) -> Result<Address, Cause>
    requires off_by_one { IsOffByOneAt K.cmp tree.old id }
    requires valid { IsValidIn tree.old addr }
    requires over { Overflows (node_map tree.old) id }
    ensures rebalanced { IfOk result (λ b. IsRebalanced tree.old tree.new id K.cmp addr b) }
    ensures refused { IfErr result (λ cause. IsRefusal tree.old tree.new id C.MayRefuse cause) }
{
    let count = split_need(tree, id);
    let mut claims = ClaimedIds::new();
    if !claim(tree, count, &mut claims) {
        return Err(Cause::Store);
    }
    Ok(split_upward(tree, id, addr, &mut claims))
}

/// Makes a tree that is off by one at node `id`, which does not overflow, well formed except for its length, as `RawBTree::rebalance`
/// does. It needs no node and cannot fail. Returns the new address of what was at `addr`, at the same place and item.
pub fn rebalance_underflow<K: Ord + Drop, V: Drop, C: NodesMut<K, V>>(
    tree: &mut RawBTree<K, V, C>,
    id: usize,
    addr: Address,
) -> Address
    requires off_by_one { IsOffByOneAt K.cmp tree.old id }
    requires valid { IsValidIn tree.old addr }
    requires room { HasRoom (node_map tree.old) id }
    ensures { IsRebalanced tree.old tree.new id K.cmp addr result }
{
    tree.tell_fits();
    let node = tree.node(id);
    let count = node.item_count();
    let parent = node.parent();
    rebalance_fetched(tree, id, count, parent, addr)
}

/// Does what `rebalance_underflow` does, at a node that the caller has just fetched: it has `count` items and this parent. It does not
/// fetch the node again to ask that.
pub fn rebalance_fetched<K: Ord + Drop, V: Drop, C: NodesMut<K, V>>(
    tree: &mut RawBTree<K, V, C>,
    id: usize,
    count: usize,
    parent: Option<usize>,
    addr: Address,
) -> Address
    requires off_by_one { IsOffByOneAt K.cmp tree.old id }
    requires valid { IsValidIn tree.old addr }
    requires room { HasRoom (node_map tree.old) id }
    requires count { HasCount (node_map tree.old) id count }
    requires parent { HasParent (node_map tree.old) id parent }
    ensures { IsRebalanced tree.old tree.new id K.cmp addr result }
{
    fix_underflow_upward(tree, id, count, parent, addr)
}

impl<K: Ord + Drop, V: Drop, C: NodesMut<K, V>> RawBTree<K, V, C> {
    /// Makes a tree that is off by one at node `id` well formed except for its length. A node that overflows is cut at its median, which
    /// goes to its parent, and so on upward. A node that underflows borrows an item from its right sibling if that has more than three,
    /// otherwise from its left one if that has more than three. Otherwise it is merged with the left one, or, if it is the first child,
    /// with the right one, and so on upward. If the node has enough items and not too many, nothing changes, and it returns `addr`. At most
    /// as many nodes are freed as the tree had levels. Returns the new address of what was at `addr`, at the same place and item.
    ///
    /// It returns an error, and nothing but the count of refusals changes, only if the node overflows and the store refuses a node that a
    /// split needs.
    pub fn rebalance(&mut self, id: usize, addr: Address) -> Result<Address, Cause>
        requires off_by_one { IsOffByOneAt K.cmp self.old id }
        requires valid { IsValidIn self.old addr }
        ensures rebalanced { IfOk result (λ b. IsRebalanced self.old self.new id K.cmp addr b) }
        ensures refused { IfErr result (λ cause. IsRefusal self.old self.new id C.MayRefuse cause) }
    {
        self.tell_fits();
        if self.node(id).is_overflowing() {
            return rebalance_overflow(self, id, addr);
        }
        Ok(rebalance_underflow(self, id, addr))
    }
}
