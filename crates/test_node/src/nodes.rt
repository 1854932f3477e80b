//! Callers that clone a leaf and write to one, whose contracts are the test, and branches.
ghost use Rattle.std.specs.Prelude.{◌≡◌, IfOk, true, false};
ghost use Rattle.btree_item.specs.Pairs.{Ascends};
ghost use Rattle.btree_leaf.specs.LeafLends.{leaf_with_value};

use crate::asserts::assert_same;
use btree_item::{Item, Keyed};
use btree_node::{Branch, InternalNode, LeafNode, internal};
use std::alloc::AllocError;
use std::cmp::Ordering;

pub(crate) fn clone_of<K: Clone, V: Clone>(
    leaf: &LeafNode<K, V>,
) -> Result<LeafNode<K, V>, AllocError>
    requires key { (x y : K) → K.is_clone x y → y ≡ x }
    requires value { (x y : V) → V.is_clone x y → y ≡ x }
    ensures { IfOk result (λ copy. copy ≡ leaf.now) }
{
    leaf.clone()
}

#[tactic(auto, using(btree_item::proofs::PairEdits::order_kept), unfolding(btree_leaf::specs::LeafLends::leaf_with_value))]
pub(crate) fn write<K: Ord, V: Drop>(leaf: &mut LeafNode<K, V>, key: &K, value: V) -> bool
    requires { Ascends K.cmp leaf.old.items }
    ensures written { result ≡ true → leaf.new ≡ leaf_with_value K.cmp key.now leaf.old value }
    ensures left { result ≡ false → leaf.new ≡ leaf.old }
    ensures ascends { Ascends K.cmp leaf.new.items }
{
    match leaf.get_mut(key) {
        Some(slot) => {
            *slot = value;
            true
        }
        None => false,
    }
}

#[test]
fn compares_branches_by_key(rt: HostRuntime) {
    let node: internal::Internal<u32, char> = InternalNode::binary(None, 1, Item::new(20, 'b'), 2);
    let other = Branch {
        item: Item::new(20, 'x'),
        child: 7,
    };
    let first = node.branches().get(0).map(|branch| {
        (
            *branch.key(),
            *branch.as_item().value(),
            *branch == other,
            branch.cmp(&other),
        )
    });
    assert_same(&rt, first, Some((20, 'b', true, Ordering::Equal)));
    assert_same(&rt, (node.first_child_id(), node.child_id(1)), (1, 2));
}
