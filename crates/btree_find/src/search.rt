//! Look-up by a key or another query, and the number of levels.
ghost use Rattle.std.specs.Prelude.{◌≡◌, ◌+◌, ◌*◌, ◌≤◌, option_copied};
ghost use Rattle.btree_item.specs.Pairs.{found_value};
ghost use Rattle.btree_node.specs.Node.{view_of};
ghost use Rattle.btree_view.specs.View.{value_at_offset};
ghost use Rattle.btree_laws.specs.TreeState.{HasLevels, IsBTree, IsUsed, pairs_of};
ghost use Rattle.btree_find.specs.Answers.{IsAddressBy, IsAddressIn, IsAddressOf, IsAddressUnder};
ghost use Rattle.btree_find.specs.Fits.{pairs_below};
ghost use Rattle.btree_find.specs.Levels.{IsDense, TicksAtMost, TicksExactly, comparisons_from, levels_from};

use btree_item::{Address, MAX_COMPARISONS, MAX_LEVELS, Offset, Query};
use btree_node::{Node, NodesMut};
use btree_raw::RawBTree;
use btree_steps::Steps;

/// Returns `Ok` with the address of a key that is there, or `Err` with the address in a leaf where it would be inserted.
#[inline(always)]
pub fn address_of<K: Ord, V, C: NodesMut<K, V>>(
    tree: &RawBTree<K, V, C>,
    key: &K,
) -> Result<Address, Address>
    requires { IsBTree K.cmp tree.now }
    ensures { IsAddressOf K.cmp key.now tree.now result }
{
    let mut steps = Steps::new();
    address_of_counted(tree, key, &mut steps)
}

/// Does the same as `address_of`, and ticks once for each comparison of keys. `Steps` takes no time and no bytes.
#[inline(always)]
pub fn address_of_counted<K: Ord, V, C: NodesMut<K, V>>(
    tree: &RawBTree<K, V, C>,
    key: &K,
    steps: &mut Steps,
) -> Result<Address, Address>
    requires { IsBTree K.cmp tree.now }
    ensures found { IsAddressOf K.cmp key.now tree.now result }
    ensures counted { TicksExactly K.cmp key.now tree.now steps.old.count steps.new.count }
    ensures ticks { TicksAtMost tree.now steps.old.count steps.new.count }
{
    search(tree, key, steps)
}

/// Returns `Ok` with the address of the item whose key a query is equal to, or `Err` with the address in a leaf of the gap where it is. So
/// no key has to be made for a look-up.
pub fn address_by<K: Ord, Q: Query<K>, V, C: NodesMut<K, V>>(
    tree: &RawBTree<K, V, C>,
    query: &Q,
) -> Result<Address, Address>
    requires { IsBTree K.cmp tree.now }
    ensures { IsAddressBy Q.compare query.now tree.now result }
{
    let mut steps = Steps::new();
    search(tree, query, &mut steps)
}

#[inline(always)]
fn search<K: Ord, Q: Query<K>, V, C: NodesMut<K, V>>(
    tree: &RawBTree<K, V, C>,
    key: &Q,
    steps: &mut Steps,
) -> Result<Address, Address>
    requires { IsBTree K.cmp tree.now }
    ensures found { IsAddressBy Q.compare key.now tree.now result }
    ensures counted { TicksExactly Q.compare key.now tree.now steps.old.count steps.new.count }
    ensures ticks { TicksAtMost tree.now steps.old.count steps.new.count }
{
    match tree.root_id() {
        Some(root) => search_from(tree, root, key, steps),
        None => Err(Address::nowhere()),
    }
}

/// Searches among the items under a node, which must be in use. Returns `Ok` with the address of a key that is there, or `Err` with the
/// back address in a leaf under the node that has as many smaller keys under the node before it.
pub fn address_in<K: Ord, V, C: NodesMut<K, V>>(
    tree: &RawBTree<K, V, C>,
    top: usize,
    key: &K,
) -> Result<Address, Address>
    requires tree { IsBTree K.cmp tree.now }
    requires used { IsUsed tree.now top }
    ensures { IsAddressIn K.cmp key.now tree.now top result }
{
    let mut steps = Steps::new();
    search_from(tree, top, key, &mut steps)
}

#[inline(always)]
fn search_from<K: Ord, Q: Query<K>, V, C: NodesMut<K, V>>(
    tree: &RawBTree<K, V, C>,
    top: usize,
    key: &Q,
    steps: &mut Steps,
) -> Result<Address, Address>
    requires tree { IsBTree K.cmp tree.now }
    requires used { IsUsed tree.now top }
    ensures found { IsAddressUnder Q.compare key.now tree.now top result }
    ensures counted { steps.new.count ≡
        steps.old.count + comparisons_from Q.compare key.now tree.now top }
    ensures ticks { steps.new.count ≤ steps.old.count + MAX_COMPARISONS * levels_from tree.now top }
{
    tree.tell_fits();
    let mut id = top;
    loop {
        match tree.node(id).offset_of_counted(key, steps) {
            Ok(offset) => return Ok(Address::new(id, offset)),
            Err((_, Some(child))) => id = child,
            Err((index, None)) => return Err(Address::new(id, Offset::from(index))),
        }
    }
}

fn value_at<K, V>(node: &Node<K, V>, offset: Offset) -> Option<&V>
    ensures { option_copied result ≡ value_at_offset (view_of node.now) offset }
{
    match node.item(offset) {
        Some(item) => Some(item.value()),
        None => None,
    }
}

/// Returns the value at the key that a key or another query is equal to, or `None` if it is not there.
pub fn get<'a, K: Ord + 'a, Q: Query<K>, V: 'a, C: NodesMut<K, V>>(
    tree: &'a RawBTree<K, V, C>,
    key: &Q,
) -> Option<&'a V>
    requires { IsBTree K.cmp tree.now }
    ensures { option_copied result ≡ found_value Q.compare key.now (pairs_of tree.now) }
{
    match tree.root_id() {
        Some(root) => get_in(tree, key, root),
        None => None,
    }
}

/// Does what `get` does under a node, which must be in use.
pub fn get_in<'a, K: Ord + 'a, Q: Query<K>, V: 'a, C: NodesMut<K, V>>(
    tree: &'a RawBTree<K, V, C>,
    key: &Q,
    top: usize,
) -> Option<&'a V>
    requires tree { IsBTree K.cmp tree.now }
    requires used { IsUsed tree.now top }
    ensures { option_copied result ≡ found_value Q.compare key.now (pairs_below tree.now top) }
{
    tree.tell_fits();
    let mut id = top;
    loop {
        let node = tree.node(id);
        match node.offset_of(key) {
            Ok(offset) => return value_at(node, offset),
            Err((index, next)) => match next {
                Some(child) => id = child,
                None => return None,
            },
        }
    }
}

/// Returns how many levels of nodes there are. It reads one node of each level, down the first children.
pub fn height<K: Ord, V, C: NodesMut<K, V>>(tree: &RawBTree<K, V, C>) -> usize
    requires { IsBTree K.cmp tree.now }
    ensures levels { HasLevels tree.now result }
    ensures few { result ≤ MAX_LEVELS }
    ensures dense { IsDense tree.now result }
{
    // For the prover: the length is a `usize`, so there are at most `MAX_LEVELS` levels.
    let _len = tree.len();
    let Some(root) = tree.root_id() else {
        return 0;
    };
    tree.tell_fits();
    let mut id = root;
    let mut levels = 1;
    loop {
        match tree.node(id).child_id_opt(0) {
            Some(child) => {
                id = child;
                levels += 1;
            }
            None => return levels,
        }
    }
}
