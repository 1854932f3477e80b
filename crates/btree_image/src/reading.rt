//! The nodes that bytes stand for.
ghost use Rattle.std.specs.Prelude.{◌≡◌, ◌<◌, ◌≤◌, option_map};
ghost use Rattle.btree_view.specs.Kept.{kept_parent};
ghost use Rattle.btree_node.specs.Node.{view_of};
ghost use Rattle.btree_image.specs.Gives.{Gives};
ghost use Rattle.btree_image.specs.Reading.{branch_at, internal_at, internal_with, item_at, leaf_at, leaf_with, place_at};

use crate::fault::{BadImage, Stop};
use crate::words::{read_count, read_number, read_value, read_word, stop};
use btree_item::{INTERNAL_SLOTS, Item, LEAF_SLOTS};
use btree_leaf::LeafNode;
use btree_node::Node;
use btree_spelled::Spelled;

// Reads a key and its value.
#[tactic(auto, unfolding(crate::specs::Reading::item_at))]
fn read_item<K: Spelled, V: Spelled>(bytes: &[u8]) -> Result<(Item<K, V>, &[u8]), Stop>
    ensures { Gives (λ x. (x.0, x.1.now)) result (item_at K.read V.read bytes.now) }
{
    let (key, rest) = read_value(bytes)?;
    let (value, rest) = read_value(rest)?;
    Ok((Item::new(key, value), rest))
}

// Reads a key and its value, and the child after them.
#[tactic(auto, unfolding(crate::specs::Reading::branch_at))]
fn read_branch<K: Spelled, V: Spelled>(bytes: &[u8]) -> Result<(Item<K, V>, usize, &[u8]), Stop>
    ensures { Gives (λ x. ((x.0, x.1), x.2.now)) result (branch_at K.read V.read bytes.now) }
{
    let (item, rest) = read_item(bytes)?;
    let (child, rest) = read_word(rest)?;
    Ok((item, child as usize, rest))
}

// Reads so many items of a leaf.

fn read_items<K: Spelled, V: Spelled>(
    parent: Option<usize>,
    count: u64,
    bytes: &[u8],
) -> Result<(Node<K, V>, &[u8]), Stop>
    requires kept { kept_parent parent ≡ parent }
    requires fits { count ≤ LEAF_SLOTS }
    ensures { Gives (λ x. (view_of x.0, x.1.now)) result (leaf_with K.read V.read parent count bytes.now) }
{
    let mut node = Node::Leaf(LeafNode::empty(parent));
    let mut rest = bytes;
    for _ in 0..count {
        let (item, after) = read_item(rest)?;
        node.push_right(item, None);
        rest = after;
    }
    Ok((node, rest))
}

// Reads a leaf, after its kind.
#[tactic(auto, unfolding(crate::specs::Reading::leaf_at))]
fn read_leaf<K: Spelled, V: Spelled>(bytes: &[u8]) -> Result<(Node<K, V>, &[u8]), Stop>
    ensures { Gives (λ x. (view_of x.0, x.1.now)) result (leaf_at K.read V.read bytes.now) }
{
    let (parent, rest) = read_number(bytes)?;
    let (count, rest) = read_count(rest, LEAF_SLOTS as u64)?;
    read_items(parent, count, rest)
}

// Reads so many branches of an internal node, at least one.

fn read_branches<K: Spelled, V: Spelled>(
    parent: Option<usize>,
    first: usize,
    count: u64,
    bytes: &[u8],
) -> Result<(Node<K, V>, &[u8]), Stop>
    requires kept { kept_parent parent ≡ parent }
    requires some { 0 < count }
    requires fits { count ≤ INTERNAL_SLOTS }
    ensures { Gives (λ x. (view_of x.0, x.1.now)) result
        (internal_with K.read V.read parent first count bytes.now) }
{
    let (item, child, rest) = read_branch(bytes)?;
    let mut node = Node::binary(parent, first, item, child);
    let mut rest = rest;
    for _ in 1..count {
        let (item, child, after) = read_branch(rest)?;
        node.push_right(item, Some(child));
        rest = after;
    }
    Ok((node, rest))
}

// Reads an internal node, after its kind.
#[tactic(auto, unfolding(crate::specs::Reading::internal_at))]
fn read_internal<K: Spelled, V: Spelled>(bytes: &[u8]) -> Result<(Node<K, V>, &[u8]), Stop>
    ensures { Gives (λ x. (view_of x.0, x.1.now)) result (internal_at K.read V.read bytes.now) }
{
    let (parent, rest) = read_number(bytes)?;
    let (count, rest) = read_count(rest, INTERNAL_SLOTS as u64)?;
    let (first, rest) = read_word(rest)?;
    read_branches(parent, first as usize, count, rest)
}

// Reads a place, with its node if it has one, as the last place has.
#[tactic(auto, unfolding(crate::specs::Reading::place_at))]
pub(crate) fn read_place<K: Spelled, V: Spelled>(
    bytes: &[u8],
    is_last: bool,
) -> Result<(Option<Node<K, V>>, &[u8]), Stop>
    ensures { Gives (λ x. (option_map view_of x.0, x.1.now)) result
        (place_at K.read V.read is_last bytes.now) }
{
    let (kind, rest) = read_word(bytes)?;
    if kind == 1 {
        let (node, rest) = read_leaf(rest)?;
        return Ok((Some(node), rest));
    }
    if kind == 2 {
        let (node, rest) = read_internal(rest)?;
        return Ok((Some(node), rest));
    }
    if kind != 0 {
        return stop(BadImage::Kind, bytes);
    }
    if is_last {
        return stop(BadImage::Vacant, bytes);
    }
    Ok((None, rest))
}
