//! The path from the root to the leaf that a walk is in.
ghost use Rattle.std.specs.Prelude.{◌≡◌, ◌-◌, ◌<◌, ◌++◌, [], ◌∷◌, Some, OnSome, length, slice_get, take};
ghost use Rattle.std.specs.Option.{option_copied};
ghost use Rattle.btree_laws.specs.TreeState.{pairs_of};
ghost use Rattle.btree_walk.specs.Given.{KeepsLeft};
ghost use Rattle.btree_walk.specs.Rows.{AreAncestors, IsBelow, IsNextAbove, IsNextIn, remaining_of};

use btree_ext::{BTreeExt, Tree};
use btree_item::{LEAF_SLOTS, MAX_LEVELS, Slots};
use btree_node::{LeafNode, Node, NodesMut};
use std::marker::Model;

/// An internal node above the leaf, and how many of its items are passed.
#[derive(Drop)]
pub(crate) struct Ancestor<'a, K, V> {
    pub node: &'a Node<K, V>,
    pub passed: usize,
}

/// The internal nodes above the leaf, from the root down, seen by contracts as a list. The lowest one may lie beside the others: most steps
/// from a leaf to the next take it off, and put it back.
#[derive(Drop)]
pub(crate) struct Ancestors<'a, K, V> {
    lowest: Option<Ancestor<'a, K, V>>,
    others: Slots<Ancestor<'a, K, V>, MAX_LEVELS>,
}

impl<'a, K, V> Model for Ancestors<'a, K, V> {
    ghost use Rattle.std.specs.Prelude.{List, ◌++◌};
    ghost use Rattle.std.specs.Option.{option_to_list};
    ghost use Rattle.btree_walk.specs.declared.ancestors.Ancestor.{Ancestor};

    ghost Value = { List (Ancestor K V) };

    ghost view = { λ it. it.others ++ option_to_list it.lowest };
}

impl<'a, K, V> Ancestors<'a, K, V> {
    /// Returns an empty list.
    pub fn new() -> Self
        ensures { result ≡ [] }
    {
        Ancestors {
            lowest: None,
            others: Slots::new(),
        }
    }

    /// Returns the number of nodes.
    #[inline]
    pub fn len(&self) -> usize
        ensures { result ≡ length self.now }
    {
        match self.lowest {
            Some(_) => self.others.len() + 1,
            None => self.others.len(),
        }
    }

    /// Returns the node at a level, counted from the root, or `None` past the lowest.
    #[inline]
    pub fn get(&self, level: usize) -> Option<&Ancestor<'a, K, V>>
        ensures { option_copied result ≡ slice_get self.now level }
    {
        if level == self.others.len() {
            return self.lowest.as_ref();
        }
        self.others.get(level)
    }

    /// Adds a node below the others.
    #[inline]
    pub fn push(&mut self, ancestor: Ancestor<'a, K, V>)
        requires { length self.old < MAX_LEVELS }
        ensures { self.new ≡ self.old ++ ancestor.entry ∷ [] }
    {
        if let Some(lowest) = self.lowest.take() {
            self.others.push(lowest);
        }
        self.lowest = Some(ancestor);
    }

    /// Removes and returns the lowest node, if there is one.
    #[inline]
    pub fn pop(&mut self) -> Option<Ancestor<'a, K, V>>
        ensures answer { result ≡ slice_get self.old (length self.old - 1) }
        ensures after { self.new ≡ take (length self.old - 1) self.old }
    {
        match self.lowest.take() {
            Some(lowest) => Some(lowest),
            None => self.others.pop(),
        }
    }
}

/// Returns the first item of a leaf after those that are passed.
#[inline]
pub(crate) fn next_in_leaf<'a, K, V>(
    leaf: Option<&'a LeafNode<K, V>>,
    passed: usize,
) -> Option<(&'a K, &'a V)>
    ensures fits { OnSome result (passed < LEAF_SLOTS) }
    ensures first { IsNextIn leaf.entry passed result }
{
    match leaf {
        Some(leaf) => {
            // For the prover: a leaf has few items.
            let _few = leaf.item_count();
            match leaf.items().get(passed) {
                Some(item) => Some((item.key(), item.value())),
                None => None,
            }
        }
        None => None,
    }
}

// Returns the leftmost leaf under a node, and appends the internal nodes on the path to it to the ancestors.
fn descend<'a, K: Ord + 'a, V: 'a, C: NodesMut<K, V> + 'a>(
    tree: &'a Tree<K, V, C>,
    top: usize,
    ancestors: &mut Ancestors<'a, K, V>,
) -> &'a LeafNode<K, V>
    requires above { AreAncestors tree.now ancestors.old }
    requires below { IsBelow tree.now ancestors.old top }
    ensures above { AreAncestors tree.now ancestors.new }
    ensures left { KeepsLeft tree.now top ancestors.old (Some result) 0 ancestors.new }
{
    tree.tell_fits();
    let mut id = top;
    loop {
        let node = tree.node(id);
        match node {
            Node::Leaf(leaf) => return leaf,
            Node::Internal(inner) => {
                ancestors.push(Ancestor { node, passed: 0 });
                id = inner.first_child_id();
            }
        }
    }
}

/// Returns the first leaf of a tree, and puts the internal nodes above it into the empty list of ancestors.
pub(crate) fn start<'a, K: Ord + 'a, V: 'a, C: NodesMut<K, V> + 'a>(
    tree: &'a Tree<K, V, C>,
    ancestors: &mut Ancestors<'a, K, V>,
) -> Option<&'a LeafNode<K, V>>
    requires none { ancestors.old ≡ [] }
    ensures above { AreAncestors tree.now ancestors.new }
    ensures left { remaining_of tree.now result 0 ancestors.new ≡ pairs_of tree.now }
{
    tree.tell_fits();
    // For the prover: the length is a `usize`, so there are at most `MAX_LEVELS` levels.
    let _len = tree.len();
    match tree.root_id() {
        Some(root) => Some(descend(tree, root, ancestors)),
        None => None,
    }
}

/// Returns the next item of the ancestors, and the first leaf after it.
pub(crate) fn next_above<'a, K: Ord + 'a, V: 'a, C: NodesMut<K, V> + 'a>(
    tree: &'a Tree<K, V, C>,
    ancestors: &mut Ancestors<'a, K, V>,
) -> Option<((&'a K, &'a V), &'a LeafNode<K, V>)>
    requires above { AreAncestors tree.now ancestors.old }
    ensures above { AreAncestors tree.now ancestors.new }
    ensures left { IsNextAbove tree.now ancestors.old ancestors.new result }
{
    tree.tell_fits();
    while let Some(ancestor) = ancestors.pop() {
        let node = ancestor.node;
        let passed = ancestor.passed;
        if let Some((item, child)) = node.branch_at_index(passed) {
            ancestors.push(Ancestor {
                node,
                passed: passed + 1,
            });
            let pair = (item.key(), item.value());
            return Some((pair, descend(tree, child, ancestors)));
        }
    }
    None
}
