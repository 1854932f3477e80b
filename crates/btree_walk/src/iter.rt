//! The pairs of a tree in order.
ghost use Rattle.std.specs.Prelude.{◌≡◌, Some, IfSome, length};
ghost use Rattle.std.specs.Iterator.SizeHint.{IsWithinCount};
ghost use Rattle.std.specs.Iterator.{YieldsFirstBy, YieldsLastBy, item_count, UpTo};
ghost use Rattle.btree_walk.specs.Given.{GivesNext, GivesPrevious};
ghost use Rattle.btree_walk.specs.Ranges.{GivesFirst, IsBack};
ghost use Rattle.btree_walk.specs.Rows.{AreAncestors, remaining_in_leaf, run_left};

use crate::ancestors::{Ancestors, next_above, start};
use crate::walks::Back;
use btree_ext::{BTreeExt, Tree};
use btree_item::{Item, SlotsIter};
use btree_node::{LeafNode, NodesMut};
use std::iter::{DoubleEndedIterator, ExactSizeIterator, FusedIterator};
use std::marker::Model;

#[inline]
fn run_of<'a, K, V>(leaf: Option<&'a LeafNode<K, V>>) -> Option<SlotsIter<'a, Item<K, V>>>
    ensures { run_left result ≡ remaining_in_leaf leaf.entry 0 }
{
    match leaf {
        Some(leaf) => Some(leaf.items().iter()),
        None => None,
    }
}

/// Returns the items of a leaf after those that are passed.
pub(crate) fn run_from<'a, K, V>(
    leaf: Option<&'a LeafNode<K, V>>,
    passed: usize,
) -> Option<SlotsIter<'a, Item<K, V>>>
    ensures { run_left result ≡ remaining_in_leaf leaf.entry passed }
{
    let Some(leaf) = leaf else {
        return None;
    };
    let mut run = leaf.items().iter();
    for _ in 0..passed {
        run.next();
    }
    Some(run)
}

#[inline]
fn next_in_run<'a, K, V>(run: &mut Option<SlotsIter<'a, Item<K, V>>>) -> Option<(&'a K, &'a V)>
    ensures { GivesFirst (run_left run.old) result (run_left run.new) }
{
    let Some(run) = run else {
        return None;
    };
    match run.next() {
        Some(item) => Some((item.key(), item.value())),
        None => None,
    }
}

/// Passes the next pair of a forward walk and returns it.
#[inline]
pub(crate) fn next_pair<'a, K: Ord + 'a, V: 'a, C: NodesMut<K, V> + 'a>(
    tree: &'a Tree<K, V, C>,
    run: &mut Option<SlotsIter<'a, Item<K, V>>>,
    ancestors: &mut Ancestors<'a, K, V>,
) -> Option<(&'a K, &'a V)>
    requires { AreAncestors tree.now ancestors.old }
    ensures above { AreAncestors tree.now ancestors.new }
    ensures first { GivesNext tree.now run.old ancestors.old result run.new ancestors.new }
{
    tree.tell_fits();
    if let Some(pair) = next_in_run(run) {
        return Some(pair);
    }
    match next_above(tree, ancestors) {
        Some((pair, leaf)) => {
            *run = run_of(Some(leaf));
            Some(pair)
        }
        None => None,
    }
}

// Passes the last pair that a backward walk has left, and returns it. Without a walk, makes one that has left all pairs.
#[inline]
fn step_back<'a, K: Ord + 'a, V: 'a, C: NodesMut<K, V> + 'a>(
    tree: &'a Tree<K, V, C>,
    back: &mut Option<Back<'a, K, V>>,
) -> Option<(&'a K, &'a V)>
    requires { IsBack tree.now back.old }
    ensures back { IsBack tree.now back.new }
    ensures last { GivesPrevious tree.now back.old result back.new }
{
    tree.tell_fits();
    if let Some(back) = back {
        return back.next_back(tree);
    }
    let mut new = Back::new();
    new.start(tree);
    let last = new.next_back(tree);
    *back = Some(new);
    last
}

/// An iterator over the pairs of a tree in the order of the keys, from both ends, seen by contracts as the list of those that are left. A
/// whole walk from the front fetches each node from the store once. One from the back fetches the path to the first leaf once more, where
/// the iterator is made. A step inside a leaf reads that leaf alone. From the back, a step to another leaf may fetch all leaves before it
/// that have the same parent, at most seven, for the steps to come.
#[derive(Drop)]
pub struct Iter<'a, K: Ord, V, C: NodesMut<K, V>> {
    tree: &'a Tree<K, V, C>,
    left: usize,
    // The front: what is left of its leaf, or `None` in a tree without pairs, and the nodes above.
    run: Option<SlotsIter<'a, Item<K, V>>>,
    ancestors: Ancestors<'a, K, V>,
    // The back, from the first step from it on.
    back: Option<Back<'a, K, V>>,
}

impl<'a, K: Ord, V, C: NodesMut<K, V>> Model for Iter<'a, K, V, C> {
    ghost use Rattle.std.specs.Prelude.{List, take};
    ghost use Rattle.btree_walk.specs.Ends.{AreEnds};
    ghost use Rattle.btree_walk.specs.Ranges.{IsBack, behind_or_all};
    ghost use Rattle.btree_walk.specs.Rows.{AreAncestors, remaining_after};

    ghost Value = { List (K × V) };

    ghost view = { λ it. take it.left (remaining_after it.tree.now it.run it.ancestors) };

    ghost invariant = { λ it. C.Fits
        × AreAncestors it.tree.now it.ancestors
        × IsBack it.tree.now it.back
        × AreEnds it.left (remaining_after it.tree.now it.run it.ancestors)
        (behind_or_all it.tree.now it.back) };
}

impl<'a, K: Ord, V, C: NodesMut<K, V>> Iter<'a, K, V, C> {
    ghost use Rattle.btree_laws.specs.TreeState.{pairs_of};

    /// Returns an iterator over all pairs.
    pub fn new(tree: &'a Tree<K, V, C>) -> Self
        ensures { result ≡ pairs_of tree.now }
    {
        tree.tell_fits();
        // For the prover: the iterator keeps the fact that a node fits in memory.
        C::note_fits();
        let mut ancestors = Ancestors::new();
        let leaf = start(tree, &mut ancestors);
        Iter {
            tree,
            left: tree.len(),
            run: run_of(leaf),
            ancestors,
            back: None,
        }
    }
}

impl<'a, K: Ord, V, C: NodesMut<K, V>> Iterator for Iter<'a, K, V, C> {
    type Item = (&'a K, &'a V);

    ghost next_gives = { YieldsFirstBy (λ pair. (pair.0.now, pair.1.now)) (λ rest. rest) };

    ghost remaining = { item_count (λ rest. rest) };

    #[inline]
    fn next(&mut self) -> Option<(&'a K, &'a V)> {
        if self.left == 0 {
            return None;
        }
        // For the prover: a node fits in memory.
        C::tell_fits();
        if let Some(pair) = next_in_run(&mut self.run) {
            self.left -= 1;
            return Some(pair);
        }
        match next_above(self.tree, &mut self.ancestors) {
            Some((next, leaf)) => {
                self.run = run_of(Some(leaf));
                self.left -= 1;
                Some(next)
            }
            None => unreachable!(),
        }
    }

    /// Returns how many pairs are left, as both bounds.
    fn size_hint(&self) -> (usize, Option<usize>)
        ensures exact { result ≡ (length self.now, Some (length self.now)) }
        ensures lower { IsWithinCount result.0 (item_count (λ rest. rest) self.now) }
        ensures upper { IfSome result.1 (UpTo (item_count (λ rest. rest) self.now)) }
    {
        (self.left, Some(self.left))
    }
}

impl<'a, K: Ord, V, C: NodesMut<K, V>> DoubleEndedIterator for Iter<'a, K, V, C> {
    ghost next_back_gives = { YieldsLastBy (λ pair. (pair.0.now, pair.1.now)) (λ rest. rest) };

    #[inline]
    fn next_back(&mut self) -> Option<(&'a K, &'a V)> {
        if self.left == 0 {
            return None;
        }
        // For the prover: a node fits in memory.
        C::tell_fits();
        match step_back(self.tree, &mut self.back) {
            Some(pair) => {
                self.left -= 1;
                Some(pair)
            }
            None => unreachable!(),
        }
    }
}

impl<'a, K: Ord, V, C: NodesMut<K, V>> ExactSizeIterator for Iter<'a, K, V, C> {
    fn len(&self) -> usize {
        self.left
    }
}

impl<'a, K: Ord, V, C: NodesMut<K, V>> FusedIterator for Iter<'a, K, V, C> {}
