//! The keys of a tree in order, and its values in the order of their keys. Each iterator is seen by contracts as the list of those left.
ghost use Rattle.std.specs.Prelude.{◌≡◌, IfSome, Some, length};
ghost use Rattle.std.specs.Iterator.SizeHint.{IsWithinCount};
ghost use Rattle.std.specs.Iterator.{YieldsFirstRef, YieldsLastRef, item_count, UpTo};

use crate::Iter;
use btree_ext::Tree;
use btree_node::NodesMut;
use std::iter::{DoubleEndedIterator, ExactSizeIterator, FusedIterator};
use std::marker::Model;

/// An iterator over the keys of a tree in order, from both ends. It fetches the nodes that `Iter` does.
#[derive(Drop)]
pub struct Keys<'a, K: Ord, V, C: NodesMut<K, V>> {
    pairs: Iter<'a, K, V, C>,
}

impl<'a, K: Ord, V, C: NodesMut<K, V>> Model for Keys<'a, K, V, C> {
    ghost use Rattle.std.specs.Prelude.{List};
    ghost use Rattle.std.specs.Map.{keys_of};

    ghost Value = { List K };

    ghost view = { λ it. keys_of it.pairs };
}

impl<'a, K: Ord, V, C: NodesMut<K, V>> Keys<'a, K, V, C> {
    ghost use Rattle.std.specs.Map.{keys_of};
    ghost use Rattle.btree_laws.specs.TreeState.{pairs_of};

    /// Returns an iterator over all keys.
    pub fn new(tree: &'a Tree<K, V, C>) -> Self
        ensures { result ≡ keys_of (pairs_of tree.now) }
    {
        Keys {
            pairs: Iter::new(tree),
        }
    }
}

impl<'a, K: Ord, V, C: NodesMut<K, V>> Iterator for Keys<'a, K, V, C> {
    type Item = &'a K;

    ghost next_gives = { YieldsFirstRef (λ rest. rest) };

    ghost remaining = { item_count (λ rest. rest) };

    fn next(&mut self) -> Option<&'a K> {
        match self.pairs.next() {
            Some((key, _value)) => Some(key),
            None => None,
        }
    }

    /// Returns how many keys are left, as both bounds.
    fn size_hint(&self) -> (usize, Option<usize>)
        ensures exact { result ≡ (length self.now, Some (length self.now)) }
        ensures lower { IsWithinCount result.0 (item_count (λ rest. rest) self.now) }
        ensures upper { IfSome result.1 (UpTo (item_count (λ rest. rest) self.now)) }
    {
        self.pairs.size_hint()
    }
}

impl<'a, K: Ord, V, C: NodesMut<K, V>> DoubleEndedIterator for Keys<'a, K, V, C> {
    ghost next_back_gives = { YieldsLastRef (λ rest. rest) };

    fn next_back(&mut self) -> Option<&'a K> {
        match self.pairs.next_back() {
            Some((key, _value)) => Some(key),
            None => None,
        }
    }
}

impl<'a, K: Ord, V, C: NodesMut<K, V>> ExactSizeIterator for Keys<'a, K, V, C> {
    fn len(&self) -> usize {
        self.pairs.len()
    }
}

impl<'a, K: Ord, V, C: NodesMut<K, V>> FusedIterator for Keys<'a, K, V, C> {}

/// An iterator over the values of a tree in the order of their keys, from both ends. It fetches the nodes that `Iter` does.
#[derive(Drop)]
pub struct Values<'a, K: Ord, V, C: NodesMut<K, V>> {
    pairs: Iter<'a, K, V, C>,
}

impl<'a, K: Ord, V, C: NodesMut<K, V>> Model for Values<'a, K, V, C> {
    ghost use Rattle.std.specs.Prelude.{List};
    ghost use Rattle.std.specs.Map.{values_of};

    ghost Value = { List V };

    ghost view = { λ it. values_of it.pairs };
}

impl<'a, K: Ord, V, C: NodesMut<K, V>> Values<'a, K, V, C> {
    ghost use Rattle.std.specs.Map.{values_of};
    ghost use Rattle.btree_laws.specs.TreeState.{pairs_of};

    /// Returns an iterator over all values.
    pub fn new(tree: &'a Tree<K, V, C>) -> Self
        ensures { result ≡ values_of (pairs_of tree.now) }
    {
        Values {
            pairs: Iter::new(tree),
        }
    }
}

impl<'a, K: Ord, V, C: NodesMut<K, V>> Iterator for Values<'a, K, V, C> {
    type Item = &'a V;

    ghost next_gives = { YieldsFirstRef (λ rest. rest) };

    ghost remaining = { item_count (λ rest. rest) };

    fn next(&mut self) -> Option<&'a V> {
        match self.pairs.next() {
            Some((_key, value)) => Some(value),
            None => None,
        }
    }

    /// Returns how many values are left, as both bounds.
    fn size_hint(&self) -> (usize, Option<usize>)
        ensures exact { result ≡ (length self.now, Some (length self.now)) }
        ensures lower { IsWithinCount result.0 (item_count (λ rest. rest) self.now) }
        ensures upper { IfSome result.1 (UpTo (item_count (λ rest. rest) self.now)) }
    {
        self.pairs.size_hint()
    }
}

impl<'a, K: Ord, V, C: NodesMut<K, V>> DoubleEndedIterator for Values<'a, K, V, C> {
    ghost next_back_gives = { YieldsLastRef (λ rest. rest) };

    fn next_back(&mut self) -> Option<&'a V> {
        match self.pairs.next_back() {
            Some((_key, value)) => Some(value),
            None => None,
        }
    }
}

impl<'a, K: Ord, V, C: NodesMut<K, V>> ExactSizeIterator for Values<'a, K, V, C> {
    fn len(&self) -> usize {
        self.pairs.len()
    }
}

impl<'a, K: Ord, V, C: NodesMut<K, V>> FusedIterator for Values<'a, K, V, C> {}
