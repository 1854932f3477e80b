//! Checks one node of a tree that may be off by one at a node.
ghost use Rattle.std.specs.Prelude.{◌≡◌, ◌+◌, ◌-◌, ◌↔◌, IsTrue, Ok, Some, option_copied};
ghost use Rattle.std.specs.Map.{keys_of};
ghost use Rattle.btree_node.specs.Node.{view_of};
ghost use Rattle.btree_view.specs.Checks.{EndsBelow};
ghost use Rattle.btree_view.specs.View.{items_of, most_of};
ghost use Rattle.btree_laws.specs.WellFormed.{excess_allowed, least_allowed};
ghost use Rattle.btree_valid.specs.Sizes.{AscendsFrom, IsAbove, PassesNode};

use btree_item::{Fault, MAX_INTERNAL_ITEMS, MAX_LEAF_ITEMS, MIN_ITEMS};
use btree_node::Node;
use std::cmp::Ordering;

// A node that may have one item too many or too few, and the root of its tree.
#[derive(Clone, Copy)]
pub(crate) struct Exempt {
    pub(crate) root: usize,
    pub(crate) id: usize,
}

fn is_above<K: Ord>(last: Option<&K>, key: &K) -> bool
    ensures { IsTrue result ↔ IsAbove K.cmp (option_copied last.entry) key.now }
{
    match last {
        Some(last) => last.cmp(key) == Ordering::Less,
        None => true,
    }
}

// Returns the fewest items of a node.
fn least_items(exempt: Exempt, id: usize) -> usize
    ensures { result ≡ least_allowed exempt.root exempt.id id }
{
    if id == exempt.id {
        return if exempt.id == exempt.root {
            0
        } else {
            MIN_ITEMS - 1
        };
    }
    if id == exempt.root { 1 } else { MIN_ITEMS }
}

// Returns how many items more than the most a node may have.
fn excess(exempt: Exempt, id: usize) -> usize
    ensures { result ≡ excess_allowed exempt.id id }
{
    if id == exempt.id {
        return 1;
    }
    0
}

fn most_items<K, V>(node: &Node<K, V>, exempt: Exempt, id: usize) -> usize
    ensures { result ≡ most_of (view_of node.now) + excess_allowed exempt.id id }
{
    let more = excess(exempt, id);
    match node {
        Node::Leaf(_) => return MAX_LEAF_ITEMS + more,
        Node::Internal(_) => return MAX_INTERNAL_ITEMS + more,
    }
}

// Returns whether the keys ascend, all of them above a separator.
fn ascends_from<'a, K: Ord, V>(node: &'a Node<K, V>, min: Option<&'a K>) -> bool
    ensures { IsTrue result ↔ AscendsFrom K.cmp (option_copied min.entry) (items_of (view_of node.now)) }
{
    let mut last = min;
    let mut index = 0;
    while let Some(item) = node.item_at_index(index) {
        let key = item.key();
        if !is_above(last, key) {
            return false;
        }
        last = Some(key);
        index += 1;
    }
    true
}

// Returns whether the last key is less than the separator after it, if there are both.
fn ends_below<K: Ord, V>(node: &Node<K, V>, max: Option<&K>) -> bool
    ensures { IsTrue result ↔ EndsBelow K.cmp (option_copied max.entry) (keys_of (items_of (view_of node.now))) }
{
    let Some(max) = max else {
        return true;
    };
    match node.item_at_index(node.item_count().saturating_sub(1)) {
        Some(item) => item.key() < max,
        None => true,
    }
}

// Checks a node of a tree that may be off by one: its parent, its number of items, and its keys, also against the nearest separators on
// both sides.
pub(crate) fn check_off_by_one<'a, K: Ord, V>(
    node: &'a Node<K, V>,
    exempt: Exempt,
    id: usize,
    parent: Option<usize>,
    min: Option<&'a K>,
    max: Option<&'a K>,
) -> Result<(), Fault>
    ensures { result ≡ Ok tt ↔ PassesNode K.cmp (Some exempt) id parent
        (option_copied min.entry) (option_copied max.entry) (view_of node.now) }
{
    if node.parent() != parent {
        return Err(Fault::WrongParent);
    }
    let count = node.item_count();
    if count < least_items(exempt, id) {
        return Err(Fault::Underflowing);
    }
    if count > most_items(node, exempt, id) {
        return Err(Fault::Overflowing);
    }
    if !ascends_from(node, min) {
        return Err(Fault::Unsorted);
    }
    if !ends_below(node, max) {
        return Err(Fault::AboveSeparator);
    }
    Ok(())
}
