//! A tree as bytes.
ghost use Rattle.std.specs.Prelude.{◌≡◌, ◌++◌, ◌<◌, ℕ, IfOk, IsTrue, OnOk, Some, false};
ghost use Rattle.std.specs.List.{flat_map};
ghost use Rattle.btree_node.specs.Node.{view_of};
ghost use Rattle.btree_laws.specs.TreeState.{IsBTree, node_map};
ghost use Rattle.btree_view.specs.View.{branches_of, items_of};
ghost use Rattle.btree_view.specs.Edits.{is_internal};
ghost use Rattle.btree_image.specs.Image.{branch, place};
ghost use Rattle.btree_spelled.specs.Pairs.{pair_bytes};
ghost use Rattle.btree_image.specs.Saved.{AreOnlyBytesOf, IsSavedAs};
ghost use Rattle.btree_image.specs.Written.{AreBranchesRead, AreItemsRead, AreSized, HasWords, IsItemRead, IsPast, IsPlaceRead, IsSizedNode, head_bytes, places_of};

use crate::sum::check_sum_of;
use crate::words::{put_number, put_word};
use crate::{MAGIC, VERSION};
use btree_item::Item;
use btree_node::{Node, Nodes, NodesMut};
use btree_raw::RawBTree;
use btree_spelled::Spelled;
use std::alloc::{AllocError, Allocator};

// Appends a key and its value.
fn put_item<K: Spelled, V: Spelled, A: Allocator>(
    out: &mut Vec<u8, A>,
    pair: &Item<K, V>,
) -> Result<(), AllocError>
    ensures appends { OnOk result (out.new.items ≡ out.old.items ++ pair_bytes K.spelling V.spelling pair.now) }
    ensures is_read { OnOk result (IsItemRead K.spelling V.spelling K.read V.read pair.now) }
{
    pair.key().put(out)?;
    pair.value().put(out)
}

// Appends the items of a leaf.
fn put_items<K: Spelled, V: Spelled, A: Allocator>(
    out: &mut Vec<u8, A>,
    node: &Node<K, V>,
) -> Result<(), AllocError>
    ensures appends { OnOk result (out.new.items ≡ out.old.items
        ++ flat_map (pair_bytes K.spelling V.spelling) (items_of (view_of node.now))) }
    ensures are_read { OnOk result (AreItemsRead K.spelling V.spelling K.read V.read
        (items_of (view_of node.now))) }
{
    for i in 0..node.item_count() {
        let Some(item) = node.item_at_index(i) else {
            unreachable!()
        };
        put_item(out, item)?;
    }
    Ok(())
}

// Appends the items of an internal node, each with the child after it.
fn put_branches<K: Spelled, V: Spelled, A: Allocator>(
    out: &mut Vec<u8, A>,
    node: &Node<K, V>,
) -> Result<(), AllocError>
    requires { IsTrue (is_internal (view_of node.now)) }
    ensures appends { OnOk result (out.new.items ≡ out.old.items
        ++ flat_map (branch (pair_bytes K.spelling V.spelling)) (branches_of (view_of node.now))) }
    ensures are_read { OnOk result (AreBranchesRead K.spelling V.spelling K.read V.read
        (branches_of (view_of node.now))) }
{
    for i in 0..node.item_count() {
        let Some((item, child)) = node.branch_at_index(i) else {
            unreachable!()
        };
        put_item(out, item)?;
        put_word(out, child as u64)?;
    }
    Ok(())
}

// Appends a leaf, with its kind.
fn put_leaf<K: Spelled, V: Spelled, A: Allocator>(
    out: &mut Vec<u8, A>,
    node: &Node<K, V>,
) -> Result<(), AllocError>
    requires kind { is_internal (view_of node.now) ≡ false }
    requires sized { IsSizedNode (view_of node.now) }
    ensures appends { OnOk result (out.new.items ≡ out.old.items
        ++ place (pair_bytes K.spelling V.spelling) (Some (view_of node.now))) }
    ensures is_read { OnOk result (IsPlaceRead K.spelling V.spelling K.read V.read (Some (view_of node.now))) }
{
    put_word(out, 1)?;
    put_number(out, node.parent())?;
    put_word(out, node.item_count() as u64)?;
    put_items(out, node)
}

// Appends an internal node, with its kind.
fn put_internal<K: Spelled, V: Spelled, A: Allocator>(
    out: &mut Vec<u8, A>,
    node: &Node<K, V>,
) -> Result<(), AllocError>
    requires kind { IsTrue (is_internal (view_of node.now)) }
    requires sized { IsSizedNode (view_of node.now) }
    ensures appends { OnOk result (out.new.items ≡ out.old.items
        ++ place (pair_bytes K.spelling V.spelling) (Some (view_of node.now))) }
    ensures is_read { OnOk result (IsPlaceRead K.spelling V.spelling K.read V.read (Some (view_of node.now))) }
{
    put_word(out, 2)?;
    put_number(out, node.parent())?;
    put_word(out, node.item_count() as u64)?;
    put_word(out, node.child_id(0) as u64)?;
    put_branches(out, node)
}

// Appends the place with this number.
fn put_place<K: Spelled, V: Spelled, C: NodesMut<K, V>, A: Allocator>(
    out: &mut Vec<u8, A>,
    tree: &RawBTree<K, V, C>,
    id: usize,
) -> Result<(), AllocError>
    requires sized { AreSized (node_map tree.now) }
    ensures appends { OnOk result (out.new.items ≡ out.old.items
        ++ place (pair_bytes K.spelling V.spelling) (node_map tree.now id)) }
    ensures is_read { OnOk result (IsPlaceRead K.spelling V.spelling K.read V.read (node_map tree.now id)) }
{
    tree.tell_fits();
    if !tree.has_node(id) {
        return put_word(out, 0);
    }
    let node = tree.node(id);
    match node {
        Node::Leaf(_) => put_leaf(out, node),
        Node::Internal(_) => put_internal(out, node),
    }
}

// Returns the number after the greatest that is used.
fn count_places<K, V, C: NodesMut<K, V>>(tree: &RawBTree<K, V, C>) -> usize
    ensures { IsPast tree.now result }
{
    let count = tree.store().len();
    let mut found = 0usize;
    let mut end = 0usize;
    for id in 0..usize::MAX {
        if found == count {
            return end;
        }
        if tree.has_node(id) {
            found += 1;
            end = id + 1;
        }
    }
    end
}

// Appends the places below `count`.
fn put_places<K: Spelled, V: Spelled, C: NodesMut<K, V>, A: Allocator>(
    out: &mut Vec<u8, A>,
    tree: &RawBTree<K, V, C>,
    count: usize,
) -> Result<(), AllocError>
    requires sized { AreSized (node_map tree.now) }
    ensures appends { OnOk result (out.new.items ≡ out.old.items
        ++ flat_map (place (pair_bytes K.spelling V.spelling)) (places_of (node_map tree.now) count)) }
    ensures are_read { OnOk result ((id : ℕ) → id < count →
        IsPlaceRead K.spelling V.spelling K.read V.read (node_map tree.now id)) }
{
    for id in 0..count {
        put_place(out, tree, id)?;
    }
    Ok(())
}

// Appends what stands before the places.
fn put_head<K, V, C: NodesMut<K, V>, A: Allocator>(
    out: &mut Vec<u8, A>,
    tree: &RawBTree<K, V, C>,
    count: usize,
) -> Result<(), AllocError>
    ensures appends { OnOk result (out.new.items ≡ out.old.items ++ head_bytes tree.now count) }
    ensures words { OnOk result (HasWords tree.now) }
{
    put_word(out, MAGIC)?;
    put_word(out, VERSION)?;
    put_number(out, tree.root_id())?;
    put_word(out, tree.len() as u64)?;
    put_word(out, tree.limit() as u64)?;
    put_word(out, count as u64)
}

/// Returns the bytes of a well formed tree. No other bytes are read as that tree.
///
/// It reads each node once, and asks for each number up to the greatest that is used.
pub fn bytes_of<K: Spelled + Ord, V: Spelled, C: NodesMut<K, V>, A: Allocator>(
    alloc: A,
    tree: &RawBTree<K, V, C>,
) -> Result<Vec<u8, A>, AllocError>
    requires { IsBTree K.cmp tree.now }
    ensures saved { IfOk result (λ bytes. IsSavedAs K.read V.read tree.now bytes.items) }
    ensures only { IfOk result (λ bytes. AreOnlyBytesOf K.read V.read tree.now bytes.items) }
{
    let count = count_places(tree);
    let mut out = Vec::new(alloc);
    put_head(&mut out, tree, count)?;
    put_places(&mut out, tree, count)?;
    let sum = check_sum_of(&out);
    put_word(&mut out, sum)?;
    Ok(out)
}
