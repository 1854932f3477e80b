//! Splits, from a node upward.
ghost use Rattle.std.specs.Prelude.{◌≡◌, ◌<◌, [], All, IsSome};
ghost use Rattle.btree_laws.specs.Step.{GrowsRoot};
ghost use Rattle.btree_laws.specs.TreeState.{Changes, node_map};
ghost use Rattle.btree_raw.specs.Steps.{AddsAndSplits, CanAddItem, CanGrowRoot, IsSplitting, MaySplitWith, SplitsUpward};
ghost use Rattle.btree_raw.specs.TreeSteps.{IsCutFromSome, SplitsFromCut};

use crate::claims::{ClaimedIds, take_claim};
use crate::moved::moved_by_split;
use crate::node_changes::{Cut, add_and_cut, cut_node, insert_separator, put, set_parent};
use crate::raw::RawBTree;
use btree_item::{Address, Item};
use btree_node::{Node, NodesMut};

// Makes node `root` a new root over two nodes.
fn grow_root<K: Drop, V: Drop, C: NodesMut<K, V>>(
    tree: &mut RawBTree<K, V, C>,
    left: usize,
    median: Item<K, V>,
    right: usize,
    root: usize,
)
    requires can { CanGrowRoot (node_map tree.old) left right root }
    requires number { root < usize.MAX }
    ensures { Changes (λ a b. GrowsRoot a b left right root median) tree.old tree.new }
{
    tree.tell_fits();
    put(tree, root, Node::binary(None, left, median, right));
    set_parent(tree, left, root);
    set_parent(tree, right, root);
}

// Goes on with splits upward at a node that was just cut, if it had an item too many: its parent gets the median, and is cut in the same
// fetch if it has an item too many then, and so on.
fn split_from<K: Drop, V: Drop, C: NodesMut<K, V>>(
    tree: &mut RawBTree<K, V, C>,
    start: usize,
    cut: Option<Cut<K, V>>,
    addr: Address,
    claims: &mut ClaimedIds,
) -> Address
    requires begun { IsCutFromSome tree.old start cut claims.old.items addr }
    ensures split { SplitsFromCut tree.old tree.new start cut claims.old.items addr result }
    ensures none_left { claims.new.items ≡ [] }
    ensures back { IsSome addr.offset → IsSome result.offset }
{
    tree.tell_fits();
    let mut id = start;
    let mut at = addr;
    let mut next = cut;
    while let Some(cut) = next {
        let Some(above) = cut.parent else {
            let root = take_claim(claims);
            grow_root(tree, id, cut.median, cut.right, root);
            tree.set_root_id(Some(root));
            return moved_by_split(at, id, cut.right, root, 0, cut.kept);
        };
        let (index, up) = insert_separator(tree, above, id, cut.median, cut.right, claims);
        at = moved_by_split(at, id, cut.right, above, index, cut.kept);
        id = above;
        next = up;
    }
    at
}

/// Splits an overflowing node, whose right part goes to a claimed node, then its parent if that overflows, and so on upward. Returns the
/// new address of what was at `addr`. It uses all claims: one for each split, and one for a new root if the root is split.
pub fn split_upward<K: Drop, V: Drop, C: NodesMut<K, V>>(
    tree: &mut RawBTree<K, V, C>,
    start: usize,
    addr: Address,
    claims: &mut ClaimedIds,
) -> Address
    requires splitting { IsSplitting (node_map tree.old) tree.old.root start claims.old.items addr }
    requires numbers { All (λ id. id < usize.MAX) claims.old.items }
    ensures split { SplitsUpward tree.old tree.new start claims.old.items addr result }
    ensures none_left { claims.new.items ≡ [] }
    ensures back { IsSome addr.offset → IsSome result.offset }
{
    tree.tell_fits();
    let cut = cut_node(tree, start, claims);
    split_from(tree, start, cut, addr, claims)
}

/// Inserts an item into a node at an index, and a child after it if one is given, and splits upward from there as `split_upward` does.
/// Returns the new address of what was at `addr` once the item was there. It fetches the node once.
pub fn add_and_split<K: Drop, V: Drop, C: NodesMut<K, V>>(
    tree: &mut RawBTree<K, V, C>,
    id: usize,
    index: usize,
    item: Item<K, V>,
    child: Option<usize>,
    addr: Address,
    claims: &mut ClaimedIds,
) -> Address
    requires can { CanAddItem (node_map tree.old) id index child }
    requires splitting { MaySplitWith tree.old id index item child claims.old.items addr }
    requires numbers { All (λ id. id < usize.MAX) claims.old.items }
    ensures split { AddsAndSplits tree.old tree.new id index item child claims.old.items addr result }
    ensures none_left { claims.new.items ≡ [] }
    ensures back { IsSome addr.offset → IsSome result.offset }
{
    tree.tell_fits();
    let cut = add_and_cut(tree, id, index, item, child, claims);
    split_from(tree, id, cut, addr, claims)
}
