//! An update at an address, by an action.
ghost use Rattle.std.specs.Prelude.{IfSome};
ghost use Rattle.btree_laws.specs.TreeState.{IsBTree, IsOccupiedIn, item_of};
ghost use Rattle.btree_ext.specs.Remove.{HasChildBehind, IsInnerAt};
ghost use Rattle.btree_ext.specs.Update.{RunsAt};

use crate::taken::{Taken, settle, take_at, take_inner};
use btree_item::{Address, Item};
use btree_node::NodesMut;
use btree_raw::RawBTree;

/// Calls `action` with the value at an address. The value that it gives takes the place of the old one, and the key stays; if it gives
/// none, the pair is removed, as `remove_at` does. Returns the action's answer. It needs no new node and cannot fail.
///
/// An item must be at the address. The action is called once, with the tree in the middle of the change, which it cannot see.
pub fn update_at<K, V, T, C, F>(tree: &mut RawBTree<K, V, C>, addr: Address, action: F) -> T
where
    K: Ord + Drop,
    V: Drop,
    C: NodesMut<K, V>,
    F: FnOnce(V) -> (Option<V>, T),
    requires tree { IsBTree K.cmp tree.old }
    requires occupied { IsOccupiedIn tree.old addr }
    requires callable { IfSome (item_of tree.old addr) (λ x. F.pre action x.1) }
    ensures { RunsAt K.cmp tree.old tree.new (F.post action) addr result }
{
    tree.tell_fits();
    match take_at(tree, addr) {
        Taken::Nothing => unreachable!(),
        Taken::Inner(left, right) => update_inner(tree, addr, left, right, action),
        Taken::Leaf(item, count, parent) => {
            let (key, value) = item.into_pair();
            let (given, answer) = action(value);
            let Some(value) = given else {
                let id = addr.id;
                settle(tree, id, count, parent, addr);
                return answer;
            };
            tree.node_mut(addr.id)
                .insert(addr.offset, Item::new(key, value), None);
            answer
        }
    }
}

// Updates the item at an address of an internal node. `left` is the child before it: the last item under that takes its place while the
// action is called, and stays there if the action gives no value. `right` is the child behind it.
fn update_inner<K, V, T, C, F>(
    tree: &mut RawBTree<K, V, C>,
    addr: Address,
    left: usize,
    right: usize,
    action: F,
) -> T
where
    K: Ord + Drop,
    V: Drop,
    C: NodesMut<K, V>,
    F: FnOnce(V) -> (Option<V>, T),
    requires tree { IsBTree K.cmp tree.old }
    requires inner { IsInnerAt tree.old addr left }
    requires behind { HasChildBehind tree.old addr right }
    requires callable { IfSome (item_of tree.old addr) (λ x. F.pre action x.1) }
    ensures { RunsAt K.cmp tree.old tree.new (F.post action) addr result }
{
    tree.tell_fits();
    let (item, leaf, count, parent, next) = take_inner(tree, addr, left, right);
    let (key, value) = item.into_pair();
    let (given, answer) = action(value);
    let Some(value) = given else {
        settle(tree, leaf, count, parent, next);
        return answer;
    };
    let last = tree
        .node_mut(addr.id)
        .replace(addr.offset, Item::new(key, value));
    tree.node_mut(leaf).push_right(last, None);
    answer
}
