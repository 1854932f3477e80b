//! Insertion at exactly an address.
ghost use Rattle.std.specs.Prelude.{◌≡◌, ◌≢◌, ◌<◌, ◌≤◌, None, IfOk, IfErr};
ghost use Rattle.std.specs.FinMap as map;
ghost use Rattle.btree_laws.specs.TreeState.{node_map};
ghost use Rattle.btree_raw.specs.Steps.{HasParent};
ghost use Rattle.btree_raw.specs.Insertion.{InsertsExactly, IsFull, IsOffByOneWith, IsRefused, IsVacant};

use crate::claims::{ClaimedIds, claim, claim_one};
use crate::needs::split_need_above;
use crate::node_changes::put;
use crate::raw::RawBTree;
use crate::rebalance::rebalance_fetched;
use crate::splits::add_and_split;
use btree_item::{Address, Cause, Item, Offset, Refused};
use btree_node::{Node, NodesMut};

/// Returns the error of a refused insertion: the cause, and the key and value of the item.
pub fn refused<K, V>(cause: Cause, item: Item<K, V>) -> Refused<K, V>
    ensures { result ≡ record { cause = cause; key = item.0; value = item.1 } }
{
    let (key, value) = item.into_pair();
    Refused { cause, key, value }
}

fn insert_only<K: Ord + Drop, V: Drop, C: NodesMut<K, V>>(
    tree: &mut RawBTree<K, V, C>,
    addr: Address,
    item: Item<K, V>,
    child: Option<usize>,
) -> Result<Address, Refused<K, V>>
    requires rootless { tree.old.root ≡ None }
    requires empty { map.len tree.old.nodes ≡ 0 }
    requires room { tree.old.len < usize.MAX }
    requires granted { tree.old.len < tree.old.kept.limit }
    ensures inserted { IfOk result (λ b. InsertsExactly K.cmp tree.old tree.new addr b item child) }
    ensures returned { IfErr result (λ r. (r.key, r.value) ≡ item) }
    ensures refused { IfErr result (λ r. IsRefused C.MayRefuse addr.id tree.old tree.new r.cause) }
{
    tree.tell_fits();
    match claim_one(tree) {
        Some(root) => {
            put(tree, root, Node::leaf(None, item));
            tree.set_root_id(Some(root));
            tree.set_len(tree.len() + 1);
            Ok(Address::new(root, Offset::from(0)))
        }
        None => Err(refused(Cause::Store, item)),
    }
}

#[inline(never)]
fn insert_and_split<K: Ord + Drop, V: Drop, C: NodesMut<K, V>>(
    tree: &mut RawBTree<K, V, C>,
    addr: Address,
    item: Item<K, V>,
    child: Option<usize>,
    parent: Option<usize>,
) -> Result<Address, Refused<K, V>>
    requires off_by_one { IsOffByOneWith K.cmp tree.old addr item child }
    requires full { IsFull (node_map tree.old) addr.id }
    requires parent { HasParent (node_map tree.old) addr.id parent }
    requires rooted { tree.old.root ≢ None }
    requires room { tree.old.len < usize.MAX }
    requires granted { tree.old.len < tree.old.kept.limit }
    ensures inserted { IfOk result (λ b. InsertsExactly K.cmp tree.old tree.new addr b item child) }
    ensures returned { IfErr result (λ r. (r.key, r.value) ≡ item) }
    ensures refused { IfErr result (λ r. IsRefused C.MayRefuse addr.id tree.old tree.new r.cause) }
{
    tree.tell_fits();
    let count = split_need_above(tree, addr.id, parent);
    let mut claims = ClaimedIds::new();
    if !claim(tree, count, &mut claims) {
        return Err(refused(Cause::Store, item));
    }
    let index = addr.offset.unwrap();
    let id = addr.id;
    let at = add_and_split(tree, id, index, item, child, addr, &mut claims);
    tree.set_len(tree.len() + 1);
    Ok(at)
}

fn insert_in_tree<K: Ord + Drop, V: Drop, C: NodesMut<K, V>>(
    tree: &mut RawBTree<K, V, C>,
    addr: Address,
    item: Item<K, V>,
    child: Option<usize>,
) -> Result<Address, Refused<K, V>>
    requires off_by_one { IsOffByOneWith K.cmp tree.old addr item child }
    requires rooted { tree.old.root ≢ None }
    requires room { tree.old.len < usize.MAX }
    requires granted { tree.old.len < tree.old.kept.limit }
    ensures inserted { IfOk result (λ b. InsertsExactly K.cmp tree.old tree.new addr b item child) }
    ensures returned { IfErr result (λ r. (r.key, r.value) ≡ item) }
    ensures refused { IfErr result (λ r. IsRefused C.MayRefuse addr.id tree.old tree.new r.cause) }
{
    tree.tell_fits();
    let index = addr.offset.unwrap();
    let node = tree.node_mut(addr.id);
    if node.is_full() {
        let parent = node.parent();
        return insert_and_split(tree, addr, item, child, parent);
    }
    node.insert(Offset::from(index), item, child);
    let count = node.item_count();
    let parent = node.parent();
    let id = addr.id;
    let at = rebalance_fetched(tree, id, count, parent, addr);
    tree.set_len(tree.len() + 1);
    Ok(at)
}

impl<K: Ord + Drop, V: Drop, C: NodesMut<K, V>> RawBTree<K, V, C> {
    /// Inserts an item at exactly an address, and in an internal node the child after it, whose parent number is set already. The tree is
    /// then rebalanced at this node, as by `rebalance`, and the length is one more. Returns the address of the item.
    ///
    /// With a root, the contract requires that the tree is off by one at the node once the item is there. To test that, put the item there
    /// by `node_mut`, ask `is_off_by_one`, and take it out again. Without a root it requires the address nowhere, no child and no nodes.
    ///
    /// It returns an error, with the key and the value, if the length has reached its limit, which is asked first, or if the store refuses
    /// a node that a split needs. Then nothing but the count of refusals has changed. A node that is not full needs none.
    pub fn insert_exactly_at(
        &mut self,
        addr: Address,
        item: Item<K, V>,
        opt_right_id: Option<usize>,
    ) -> Result<Address, Refused<K, V>>
        requires off_by_one { self.old.root ≢ None → IsOffByOneWith K.cmp self.old addr item opt_right_id }
        requires vacant { self.old.root ≡ None → IsVacant self.old addr opt_right_id }
        ensures inserted { IfOk result (λ b. InsertsExactly K.cmp self.old self.new addr b item opt_right_id) }
        ensures returned { IfErr result (λ r. (r.key, r.value) ≡ item) }
        ensures refused { IfErr result (λ r. IsRefused C.MayRefuse addr.id self.old self.new r.cause) }
    {
        self.tell_fits();
        if self.limit() <= self.len() {
            return Err(refused(Cause::Count, item));
        }
        match self.root_id() {
            None => insert_only(self, addr, item, opt_right_id),
            Some(_) => insert_in_tree(self, addr, item, opt_right_id),
        }
    }
}
