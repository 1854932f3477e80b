//! Checks the nodes of a store of any content, and finds the first fault.
//!
//! One walk serves `validate`, `validate_node` and `is_off_by_one`, which exempts a node: it may have one item too many or too few.
ghost use Rattle.std.specs.Prelude.{◌≡◌, ◌↔◌, ◌+◌, ◌<◌, ◌≤◌, None, IfErr, IfOk, IsTrue, Some, Ok, Err, option_copied, slice_get};
ghost use Rattle.std.specs.FinMap as map;
ghost use Rattle.std.specs.Mem.{FitsInMemory};
ghost use Rattle.btree_item.specs.declared.fault.Fault.TheVariants.{NoNode, NotBalanced};
ghost use Rattle.btree_item.specs.declared.TheConstants.{MAX_LEVELS};
ghost use Rattle.btree_node.specs.Node.{view_of};
ghost use Rattle.btree_node.specs.contracts.node.Node.{the_row as node_row};
ghost use Rattle.btree_view.specs.Checks.{GivesNodeVerdict};
ghost use Rattle.btree_view.specs.View.{children_of};
ghost use Rattle.btree_valid.specs.Faults.{AcceptsAmong, AreBTree, BlamesAmong, IsVerdictFor, SuitsAmong};
ghost use Rattle.btree_valid.specs.Names.{NamesAt};
ghost use Rattle.btree_valid.specs.OffByOne.{IsOffByOneAmong};
ghost use Rattle.btree_valid.specs.Positions.{nearest_of};
ghost use Rattle.btree_valid.specs.Spots.{BlamesAt, CanMeet, FindsAt, FindsTree, IsFewer, IsNearestAfter, IsNearestBefore, MeetsAt, MeetsLeaf, MeetsTree, PassesAtSpot, WasMore};
ghost use Rattle.btree_valid.specs.Verdicts.{IsVerdict, NamesTree};

use crate::off_by_one::{Exempt, check_off_by_one};
use btree_item::{Fault, MAX_LEVELS};
use btree_node::{Node, Nodes};

// A node to check: its number, how many levels it is below the start of the walk, the number of the node above it, and the nearest
// separators on both sides.
#[derive(Drop)]
struct Spot<'a, K> {
    level: usize,
    parent: Option<usize>,
    id: usize,
    min: Option<&'a K>,
    max: Option<&'a K>,
}

// What a walk in preorder has met: the level of the first leaf, and how many items and nodes may still come, `None` if there were more.
#[derive(Clone, Copy)]
struct Met {
    leaf_level: Option<usize>,
    items: Option<usize>,
    nodes: Option<usize>,
}

// Subtracts a number, or returns `None` if there are fewer.
fn fewer(left: Option<usize>, count: usize) -> Option<usize>
    ensures fewer { IsFewer left count result }
    ensures more { WasMore result count left }
{
    match left {
        Some(left) => left.checked_sub(count),
        None => None,
    }
}

fn nearest<'a, K>(near: Option<&'a K>, far: Option<&'a K>) -> Option<&'a K>
    ensures { option_copied result ≡ nearest_of (option_copied near.entry) (option_copied far.entry) }
{
    match near {
        Some(key) => Some(key),
        None => far,
    }
}

fn count_node(met: Met, items: usize) -> Met
    ensures leaves { result.leaf_level ≡ met.leaf_level }
    ensures items { IsFewer met.items items result.items }
    ensures nodes { IsFewer met.nodes 1 result.nodes }
    ensures had_items { WasMore result.items items met.items }
    ensures had_nodes { WasMore result.nodes 1 met.nodes }
{
    Met {
        leaf_level: met.leaf_level,
        items: fewer(met.items, items),
        nodes: fewer(met.nodes, 1),
    }
}

// Meets a leaf on a level, which must be that of the first leaf.
fn meet_leaf(met: Met, level: usize) -> Result<Met, Fault>
    ensures always { CanMeet level met → result ≡ Ok (record met { leaf_level = Some level }) }
    ensures only { IfOk result (MeetsLeaf level met) }
    ensures fault { IfErr result (λ fault. (fault ≡ NotBalanced) × (CanMeet level met → ⊥)) }
{
    match met.leaf_level {
        Some(first) => if first == level {
            Ok(met)
        } else {
            Err(Fault::NotBalanced)
        },
        None => Ok(Met {
            leaf_level: Some(level),
            items: met.items,
            nodes: met.nodes,
        }),
    }
}

fn below<'a, K, V>(
    node: &'a Node<K, V>,
    spot: &Spot<'a, K>,
    index: usize,
    child: usize,
) -> Spot<'a, K>
    requires size { FitsInMemory (node_row K.row V.row) }
    requires low { spot.now.level < MAX_LEVELS }
    requires within { Some child ≡ slice_get (children_of (view_of node.now)) index }
    ensures level { result.level ≡ spot.now.level + 1 }
    ensures parent { result.parent ≡ Some spot.now.id }
    ensures id { result.id ≡ child }
    ensures min { IsNearestBefore (view_of node.now) index spot.now.min result.min }
    ensures max { IsNearestAfter (view_of node.now) index spot.now.max result.max }
{
    let (before, after) = node.separators(index);
    Spot {
        level: spot.level + 1,
        parent: Some(spot.id),
        id: child,
        min: nearest(before, spot.min),
        max: nearest(after, spot.max),
    }
}

// Checks the node at a spot. The fault is the first, if no node is exempt.
fn check_node<'a, K: Ord, V>(
    node: &'a Node<K, V>,
    exempt: Option<Exempt>,
    spot: &Spot<'a, K>,
) -> Result<(), Fault>
    ensures passes { result ≡ Ok tt ↔ PassesAtSpot K.cmp exempt spot.now (view_of node.now) }
    ensures verdict { exempt ≡ None
        → GivesNodeVerdict K.cmp spot.now.parent spot.now.min spot.now.max (view_of node.now) result }
{
    match exempt {
        Some(exempt) => check_off_by_one(node, exempt, spot.id, spot.parent, spot.min, spot.max),
        None => node.validate(spot.parent, spot.min, spot.max),
    }
}

// Checks a node and all below it, and returns what the walk has met, or a fault: the first, if no node is exempt.
fn check_under<'a, K: Ord + 'a, V: 'a, C: Nodes<K, V>>(
    nodes: &'a C,
    exempt: Option<Exempt>,
    spot: Spot<'a, K>,
    met: Met,
) -> Result<Met, Fault>
    requires { FitsInMemory (node_row K.row V.row) }
    ensures unused { map.get (C.content nodes.now) spot.entry.id ≡ None → result ≡ Err NoNode }
    ensures only { FindsAt (C.content nodes.now) K.cmp exempt spot.entry met result }
    ensures always { MeetsAt (C.content nodes.now) K.cmp exempt spot.entry met result }
    ensures blames { exempt ≡ None → BlamesAt (C.content nodes.now) K.cmp spot.entry met result }
    ensures names { exempt ≡ None → NamesAt (C.content nodes.now) K.cmp spot.entry met result }
{
    let Some(node) = nodes.get(spot.id) else {
        return Err(Fault::NoNode);
    };
    check_node(node, exempt, &spot)?;
    if spot.level >= MAX_LEVELS {
        return Err(Fault::TooDeep);
    }
    let counted = count_node(met, node.item_count());
    if node.child_id_opt(0).is_none() {
        return meet_leaf(counted, spot.level);
    }
    let mut passed = counted;
    for index in 0..node.child_count() {
        let Some(child) = node.child_id_opt(index) else {
            return Ok(passed);
        };
        passed = check_under(nodes, exempt, below(node, &spot, index, child), passed)?;
    }
    Ok(passed)
}

// Checks all nodes under a root, and returns what may still come of this length and of the nodes; without a root there is nothing to meet.
fn check_root<K: Ord, V, C: Nodes<K, V>>(
    nodes: &C,
    root: Option<usize>,
    len: usize,
) -> Result<Met, Fault>
    requires { FitsInMemory (node_row K.row V.row) }
    ensures always { MeetsTree (C.content nodes.now) K.cmp root len result }
    ensures only { FindsTree (C.content nodes.now) K.cmp root len result }
    ensures names { NamesTree K.cmp (C.content nodes.now) root len result }
{
    let start = Met {
        leaf_level: None,
        items: Some(len),
        nodes: Some(nodes.len()),
    };
    let Some(id) = root else {
        return Ok(start);
    };
    let spot = Spot {
        level: 0,
        parent: None,
        id,
        min: None,
        max: None,
    };
    check_under(nodes, None, spot, start)
}

/// Checks that the nodes are exactly one well formed tree under the root, with this length, which is not above its limit. Returns the first
/// fault in preorder; that of the limit is asked last.
///
/// The root is on level 1, and a node on level 33 is `TooDeep`; nothing below it is read.
pub fn validate<K: Ord, V, C: Nodes<K, V>>(
    nodes: &C,
    root: Option<usize>,
    len: usize,
    limit: usize,
) -> Result<(), Fault>
    requires { FitsInMemory (node_row K.row V.row) }
    ensures accepts { AreBTree K.cmp (C.content nodes.now) root len → len ≤ limit → result ≡ Ok tt }
    ensures only { result ≡ Ok tt → AreBTree K.cmp (C.content nodes.now) root len }
    ensures limited { result ≡ Ok tt → len ≤ limit }
    ensures verdict { IsVerdict K.cmp (C.content nodes.now) root len limit result }
{
    let after = check_root(nodes, root, len)?;
    if after.items != Some(0) {
        return Err(Fault::WrongLength);
    }
    if after.nodes != Some(0) {
        return Err(Fault::Unreachable);
    }
    if limit < len {
        return Err(Fault::OverLimit);
    }
    Ok(())
}

/// Checks a node and all below it against a parent and the nearest separators on both sides, and returns how many levels are below the
/// node, or the first fault in preorder. A node with neither separator is judged as the root. In a well formed tree it is a fault of the
/// arguments.
///
/// The node is on level 1, and one on level 33 is `TooDeep`.
pub fn validate_node<K: Ord, V, C: Nodes<K, V>>(
    nodes: &C,
    id: usize,
    parent: Option<usize>,
    min: Option<&K>,
    max: Option<&K>,
) -> Result<usize, Fault>
    requires { FitsInMemory (node_row K.row V.row) }
    ensures unused { map.get (C.content nodes.now) id ≡ None → result ≡ Err NoNode }
    ensures accepts { AcceptsAmong K.cmp (C.content nodes.now) id parent min.entry max.entry result }
    ensures only { SuitsAmong K.cmp (C.content nodes.now) id parent min.entry max.entry result }
    ensures blames { BlamesAmong K.cmp (C.content nodes.now) id parent min.entry max.entry result }
    ensures verdict { IsVerdictFor K.cmp (C.content nodes.now) id parent min.entry max.entry result }
{
    let start = Met {
        leaf_level: None,
        items: None,
        nodes: None,
    };
    let spot = Spot {
        level: 0,
        parent,
        id,
        min,
        max,
    };
    let after = check_under(nodes, None, spot, start)?;
    Ok(after.leaf_level.unwrap_or(0))
}

/// Returns whether the nodes form a tree of at most 32 levels under a root, well formed except for its length and the number of items of
/// node `exempt`. That node is there, and may have one item too many or too few; the root may also be empty.
///
/// It reads each node of such a tree once, and stops at the first that is wrong.
pub fn is_off_by_one<K: Ord, V, C: Nodes<K, V>>(nodes: &C, root: usize, exempt: usize) -> bool
    requires { FitsInMemory (node_row K.row V.row) }
    ensures { IsTrue result ↔ IsOffByOneAmong K.cmp (C.content nodes.now) root exempt }
{
    let Some(_) = nodes.get(exempt) else {
        return false;
    };
    let start = Met {
        leaf_level: None,
        items: None,
        nodes: Some(nodes.len()),
    };
    let spot = Spot {
        level: 0,
        parent: None,
        id: root,
        min: None,
        max: None,
    };
    match check_under(nodes, Some(Exempt { root, id: exempt }), spot, start) {
        Ok(after) => after.nodes == Some(0),
        Err(_) => false,
    }
}
