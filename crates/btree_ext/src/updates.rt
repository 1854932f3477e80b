//! Updates by key, by an action.
ghost use Rattle.std.specs.Prelude.{◌≡◌, ◌≢◌, ◌<◌, IfErr, IfOk, None, OnOk, Some};
ghost use Rattle.btree_item.specs.Pairs.{found_value};
ghost use Rattle.btree_laws.specs.TreeState.{IsBTree, IsUsed, pairs_of};
ghost use Rattle.btree_raw.specs.Insertion.{IsRefused};
ghost use Rattle.btree_raw.specs.Limit.{IsWithinLimit};
ghost use Rattle.btree_find.specs.Answers.{IsAddressOf};
ghost use Rattle.btree_find.specs.Fits.{FitsIn};
ghost use Rattle.btree_ext.specs.ByKey.{UpdateOutcome};
ghost use Rattle.btree_ext.specs.Insert.{IsGapFor, IsGranted};
ghost use Rattle.btree_ext.specs.Outcomes.{FindsSameBelow};
ghost use Rattle.btree_ext.specs.Update.{RunsAtGap};

use crate::insertion::insert_claimed;
use crate::updates_at::update_at;
use btree_find::{address_in, address_of};
use btree_item::{Address, Cause, Item, UpdateRefused};
use btree_node::{Node, NodesMut};
use btree_raw::{ClaimedIds, RawBTree, claim, claim_one, need, put, release};

fn update_first<K, V, T, C, F>(
    tree: &mut RawBTree<K, V, C>,
    gap: Address,
    key: K,
    action: F,
) -> Result<T, UpdateRefused<K, F>>
where
    K: Ord + Drop,
    V: Drop,
    C: NodesMut<K, V>,
    F: FnOnce(Option<V>) -> (Option<V>, T),
    requires tree { IsBTree K.cmp tree.old }
    requires empty { tree.old.root ≡ None }
    requires callable { F.pre action None }
    requires granted { tree.old.len < tree.old.kept.limit }
    ensures updated { IfOk result (λ t. RunsAtGap K.cmp tree.old tree.new (F.post action) key gap t) }
    ensures granted { OnOk result (IsGranted C.CanHold gap.id tree.old) }
    ensures returned { IfErr result (λ r. (r.key ≡ key) × (r.action ≡ action)) }
    ensures refused { IfErr result (λ r. IsRefused C.MayRefuse gap.id tree.old tree.new r.cause) }
{
    tree.tell_fits();
    let Some(root) = claim_one(tree) else {
        let cause = Cause::Store;
        return Err(UpdateRefused { cause, key, action });
    };
    let (given, answer) = action(None);
    let Some(value) = given else {
        drop(tree.release_node(root));
        return Ok(answer);
    };
    put(tree, root, Node::leaf(None, Item::new(key, value)));
    tree.set_root_id(Some(root));
    tree.set_len(1);
    Ok(answer)
}

fn update_more<K, V, T, C, F>(
    tree: &mut RawBTree<K, V, C>,
    gap: Address,
    key: K,
    action: F,
) -> Result<T, UpdateRefused<K, F>>
where
    K: Ord + Drop,
    V: Drop,
    C: NodesMut<K, V>,
    F: FnOnce(Option<V>) -> (Option<V>, T),
    requires tree { IsBTree K.cmp tree.old }
    requires some { tree.old.root ≢ None }
    requires gap { IsGapFor K.cmp key tree.old gap }
    requires room { tree.old.len < usize.MAX }
    requires granted { tree.old.len < tree.old.kept.limit }
    requires callable { F.pre action None }
    ensures updated { IfOk result (λ t. RunsAtGap K.cmp tree.old tree.new (F.post action) key gap t) }
    ensures granted { OnOk result (IsGranted C.CanHold gap.id tree.old) }
    ensures returned { IfErr result (λ r. (r.key ≡ key) × (r.action ≡ action)) }
    ensures refused { IfErr result (λ r. IsRefused C.MayRefuse gap.id tree.old tree.new r.cause) }
{
    tree.tell_fits();
    let count = need(tree, gap.id);
    let mut claims = ClaimedIds::new();
    if !claim(tree, count, &mut claims) {
        let cause = Cause::Store;
        return Err(UpdateRefused { cause, key, action });
    }
    let (given, answer) = action(None);
    let Some(value) = given else {
        release(tree, &mut claims);
        return Ok(answer);
    };
    let _at = insert_claimed(tree, gap, Item::new(key, value), &mut claims);
    Ok(answer)
}

fn update_absent<K, V, T, C, F>(
    tree: &mut RawBTree<K, V, C>,
    gap: Address,
    key: K,
    action: F,
) -> Result<T, UpdateRefused<K, F>>
where
    K: Ord + Drop,
    V: Drop,
    C: NodesMut<K, V>,
    F: FnOnce(Option<V>) -> (Option<V>, T),
    requires tree { IsBTree K.cmp tree.old }
    requires gap { IsGapFor K.cmp key tree.old gap }
    requires callable { F.pre action None }
    ensures updated { IfOk result (λ t. RunsAtGap K.cmp tree.old tree.new (F.post action) key gap t) }
    ensures granted { OnOk result (IsGranted C.CanHold gap.id tree.old) }
    ensures returned { IfErr result (λ r. (r.key ≡ key) × (r.action ≡ action)) }
    ensures refused { IfErr result (λ r. IsRefused C.MayRefuse gap.id tree.old tree.new r.cause) }
    ensures bounded { IsWithinLimit tree.old → IsWithinLimit tree.new }
{
    if tree.limit() <= tree.len() {
        let cause = Cause::Count;
        return Err(UpdateRefused { cause, key, action });
    }
    match tree.root_id() {
        None => update_first(tree, gap, key, action),
        Some(_) => update_more(tree, gap, key, action),
    }
}

fn update_at_or_gap<K, V, T, C, F>(
    tree: &mut RawBTree<K, V, C>,
    at: Result<Address, Address>,
    key: K,
    action: F,
) -> Result<T, UpdateRefused<K, F>>
where
    K: Ord + Drop,
    V: Drop,
    C: NodesMut<K, V>,
    F: FnOnce(Option<V>) -> (Option<V>, T),
    requires tree { IsBTree K.cmp tree.old }
    requires at { IsAddressOf K.cmp key tree.old at }
    requires callable { F.pre action (found_value K.cmp key (pairs_of tree.old)) }
    ensures tree { IsBTree K.cmp tree.new }
    ensures outcome { UpdateOutcome K.cmp key tree.old tree.new
        C.MayRefuse C.CanHold (F.post action) action result }
    ensures bounded { IsWithinLimit tree.old → IsWithinLimit tree.new }
{
    match at {
        Ok(addr) => Ok(update_at(
            tree,
            addr,
            |value|
                requires { F.pre action (Some value) }
                ensures { F.post action (Some value) result }
            { action(Some(value)) },
        )),
        Err(gap) => update_absent(tree, gap, key, action),
    }
}

/// Calls `action` with the value at a key, or with `None` if the key is not there. The value that it gives is stored at the key: an equal
/// key stays, and the given one is dropped. If it gives none, the pair is removed, or none is added. Returns the action's answer.
///
/// It searches once. For an absent key the nodes that an insertion needs are claimed before the call, and freed again if the action gives
/// no value. A refusal returns the key and the action, which was not called, and nothing but the count of refusals changes.
pub fn update<K, V, T, C, F>(
    tree: &mut RawBTree<K, V, C>,
    key: K,
    action: F,
) -> Result<T, UpdateRefused<K, F>>
where
    K: Ord + Drop,
    V: Drop,
    C: NodesMut<K, V>,
    F: FnOnce(Option<V>) -> (Option<V>, T),
    requires tree { IsBTree K.cmp tree.old }
    requires callable { F.pre action (found_value K.cmp key (pairs_of tree.old)) }
    ensures tree { IsBTree K.cmp tree.new }
    ensures outcome { UpdateOutcome K.cmp key tree.old tree.new
        C.MayRefuse C.CanHold (F.post action) action result }
    ensures bounded { IsWithinLimit tree.old → IsWithinLimit tree.new }
{
    let at = address_of(tree, &key);
    update_at_or_gap(tree, at, key, action)
}

/// Does what `update` does for a key that lies strictly between the separators of a node, and searches from that node down.
///
/// The node must be in use, and the key must fit under it: `has_node` and `key_fits_in` decide that.
pub fn update_in<K, V, T, C, F>(
    tree: &mut RawBTree<K, V, C>,
    id: usize,
    key: K,
    action: F,
) -> Result<T, UpdateRefused<K, F>>
where
    K: Ord + Drop,
    V: Drop,
    C: NodesMut<K, V>,
    F: FnOnce(Option<V>) -> (Option<V>, T),
    requires tree { IsBTree K.cmp tree.old }
    requires used { IsUsed tree.old id }
    requires fits { FitsIn K.cmp key tree.old id }
    requires callable { F.pre action (found_value K.cmp key (pairs_of tree.old)) }
    ensures tree { IsBTree K.cmp tree.new }
    ensures under { FindsSameBelow K.cmp key tree.old id }
    ensures outcome { UpdateOutcome K.cmp key tree.old tree.new
        C.MayRefuse C.CanHold (F.post action) action result }
    ensures bounded { IsWithinLimit tree.old → IsWithinLimit tree.new }
{
    let at = address_in(tree, id, &key);
    update_at_or_gap(tree, at, key, action)
}
