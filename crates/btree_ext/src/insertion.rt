//! Insertion.
ghost use Rattle.std.specs.Prelude.{◌≡◌, ◌≢◌, ◌<◌, ◌≤◌, None, IfOk, IfErr};
ghost use Rattle.btree_item.specs.Pairs.{found};
ghost use Rattle.btree_laws.specs.TreeState.{TreeState, IsBTree, nodes_needed, pairs_of};
ghost use Rattle.btree_raw.specs.Insertion.{IsRefused};
ghost use Rattle.btree_raw.specs.Limit.{IsWithinLimit};
ghost use Rattle.btree_ext.specs.ByKey.{InsertOutcome};
ghost use Rattle.btree_ext.specs.Insert.{IsGapFor, IsInserted, IsRefusedAtGap};
ghost use Rattle.btree_ext.specs.InsertAbsent.{InsertsAbsent, IsGapOf};
ghost use Rattle.btree_ext.specs.Outcomes.{InsertsClaimed};
ghost use Rattle.btree_ext.specs.Update.{ClaimsNeeded};

use crate::values::exchange;
use btree_find::address_of;
use btree_item::{Address, Cause, Item, MAX_CLAIMS, Offset, Refused};
use btree_node::{Node, NodesMut};
use btree_raw::{
    ClaimedIds, RawBTree, add_and_split, add_item_in_room, claim, claim_one, need_above, put,
    refused,
};

fn insert_first<K: Ord + Drop, V: Drop, C: NodesMut<K, V>>(
    tree: &mut RawBTree<K, V, C>,
    addr: Address,
    item: Item<K, V>,
) -> Result<Address, Refused<K, V>>
    requires tree { IsBTree K.cmp tree.old }
    requires empty { tree.old.root ≡ None }
    requires granted { tree.old.len < tree.old.kept.limit }
    ensures inserted { IfOk result (λ b. IsInserted K.cmp tree.old tree.new addr b item) }
    ensures returned { IfErr result (λ r. (r.key, r.value) ≡ item) }
    ensures refused { IfErr result (λ r. IsRefused C.MayRefuse addr.id tree.old tree.new r.cause) }
{
    tree.tell_fits();
    match claim_one(tree) {
        Some(root) => {
            put(tree, root, Node::leaf(None, item));
            tree.set_root_id(Some(root));
            tree.set_len(1);
            Ok(Address::new(root, Offset::from(0)))
        }
        None => Err(refused(Cause::Store, item)),
    }
}

/// Inserts a pair, whose key fits, with the nodes that were claimed for it.
pub(crate) fn insert_claimed<K: Ord + Drop, V: Drop, C: NodesMut<K, V>>(
    tree: &mut RawBTree<K, V, C>,
    addr: Address,
    item: Item<K, V>,
    claims: &mut ClaimedIds,
) -> Address
    requires { (base : TreeState K V) ×
        ClaimsNeeded K.cmp item.0 base tree.old addr claims.old.items }
    ensures { InsertsClaimed K.cmp tree.old tree.new claims.old.items addr result item }
{
    tree.tell_fits();
    let index = addr.offset.unwrap();
    let id = addr.id;
    let at = add_and_split(tree, id, index, item, None, addr, claims);
    tree.set_len(tree.len() + 1);
    at
}

/// Inserts a pair, whose key fits, into a full leaf, which is split. Not inlined, so that the usual insertion keeps its values in
/// registers.
#[inline(never)]
pub(crate) fn insert_and_split<K: Ord + Drop, V: Drop, C: NodesMut<K, V>>(
    tree: &mut RawBTree<K, V, C>,
    addr: Address,
    item: Item<K, V>,
    count: usize,
) -> Result<Address, Refused<K, V>>
    requires tree { IsBTree K.cmp tree.old }
    requires some { tree.old.root ≢ None }
    requires gap { IsGapFor K.cmp item.0 tree.old addr }
    requires room { tree.old.len < usize.MAX }
    requires granted { tree.old.len < tree.old.kept.limit }
    requires enough { count ≡ nodes_needed tree.old addr.id }
    requires few { count ≤ MAX_CLAIMS }
    ensures inserted { IfOk result (λ b. IsInserted K.cmp tree.old tree.new addr b item) }
    ensures returned { IfErr result (λ r. (r.key, r.value) ≡ item) }
    ensures refused { IfErr result (λ r. IsRefused C.MayRefuse addr.id tree.old tree.new r.cause) }
{
    let mut claims = ClaimedIds::new();
    if !claim(tree, count, &mut claims) {
        return Err(refused(Cause::Store, item));
    }
    Ok(insert_claimed(tree, addr, item, &mut claims))
}

fn insert_more<K: Ord + Drop, V: Drop, C: NodesMut<K, V>>(
    tree: &mut RawBTree<K, V, C>,
    addr: Address,
    item: Item<K, V>,
) -> Result<Address, Refused<K, V>>
    requires tree { IsBTree K.cmp tree.old }
    requires some { tree.old.root ≢ None }
    requires gap { IsGapFor K.cmp item.0 tree.old addr }
    requires room { tree.old.len < usize.MAX }
    requires granted { tree.old.len < tree.old.kept.limit }
    ensures inserted { IfOk result (λ b. IsInserted K.cmp tree.old tree.new addr b item) }
    ensures returned { IfErr result (λ r. (r.key, r.value) ≡ item) }
    ensures refused { IfErr result (λ r. IsRefused C.MayRefuse addr.id tree.old tree.new r.cause) }
{
    tree.tell_fits();
    match add_item_in_room(tree, addr.id, addr.offset.unwrap(), item) {
        Ok(()) => {
            tree.set_len(tree.len() + 1);
            Ok(addr)
        }
        Err((item, parent)) => {
            let count = need_above(tree, addr.id, parent);
            insert_and_split(tree, addr, item, count)
        }
    }
}

/// Inserts a pair at the address of a gap that its key fits. Returns the address of the pair. It returns an error, with the pair, and
/// nothing but the count of refusals changes, if the store refuses a node that is needed, or if the length has reached its limit.
pub fn insert_at_gap<K: Ord + Drop, V: Drop, C: NodesMut<K, V>>(
    tree: &mut RawBTree<K, V, C>,
    addr: Address,
    item: Item<K, V>,
) -> Result<Address, Refused<K, V>>
    requires tree { IsBTree K.cmp tree.old }
    requires gap { IsGapFor K.cmp item.0 tree.old addr }
    ensures inserted { IfOk result (λ b. IsInserted K.cmp tree.old tree.new addr b item) }
    ensures returned { IfErr result (λ r. (r.key, r.value) ≡ item) }
    ensures refused { IfErr result (λ r. IsRefused C.MayRefuse addr.id tree.old tree.new r.cause) }
    ensures bounded { IsWithinLimit tree.old → IsWithinLimit tree.new }
{
    tree.tell_fits();
    if tree.limit() <= tree.len() {
        return Err(refused(Cause::Count, item));
    }
    match tree.root_id() {
        None => insert_first(tree, addr, item),
        Some(_) => insert_more(tree, addr, item),
    }
}

/// Inserts a pair whose key is not there at the address of its gap, which `address_of` returns. Returns the address of the pair. A refusal
/// returns the pair, and nothing but the count of refusals changes. It compares no keys.
pub fn insert_absent<K: Ord + Drop, V: Drop, C: NodesMut<K, V>>(
    tree: &mut RawBTree<K, V, C>,
    gap: Address,
    key: K,
    value: V,
) -> Result<Address, Refused<K, V>>
    requires tree { IsBTree K.cmp tree.old }
    requires absent { found K.cmp key (pairs_of tree.old) ≡ None }
    requires gap { IsGapOf K.cmp key tree.old gap }
    ensures inserted { IfOk result (λ b. InsertsAbsent K.cmp key tree.old tree.new value b) }
    ensures returned { IfErr result (λ r. (r.key ≡ key) × (r.value ≡ value)) }
    ensures cause { IfErr result (λ r.
        IsRefusedAtGap K.cmp key tree.old tree.new C.MayRefuse r.cause) }
    ensures bounded { IsWithinLimit tree.old → IsWithinLimit tree.new }
{
    insert_at_gap(tree, gap, Item::new(key, value))
}

/// Inserts a pair by its key, or replaces the value if the key is there: the stored key stays, and the given one is dropped. Returns the
/// value that was replaced. A refusal returns the pair.
pub fn insert<K: Ord + Drop, V: Drop, C: NodesMut<K, V>>(
    tree: &mut RawBTree<K, V, C>,
    key: K,
    value: V,
) -> Result<Option<V>, Refused<K, V>>
    requires tree { IsBTree K.cmp tree.old }
    ensures tree { IsBTree K.cmp tree.new }
    ensures outcome { InsertOutcome K.cmp key tree.old tree.new C.MayRefuse value result }
    ensures bounded { IsWithinLimit tree.old → IsWithinLimit tree.new }
{
    match address_of(tree, &key) {
        Ok(addr) => Ok(Some(exchange(tree, addr, value))),
        Err(addr) => match insert_at_gap(tree, addr, Item::new(key, value)) {
            Ok(_) => Ok(None),
            Err(refused) => Err(refused),
        },
    }
}
