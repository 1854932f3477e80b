//! The ranges of a set by value.
ghost use Rattle.std.specs.Prelude.{◌≡◌, IfSome, Some, length};
ghost use Rattle.std.specs.Iterator.SizeHint.{IsWithinCount};
ghost use Rattle.std.specs.Iterator.{UpTo, YieldsFirst, YieldsLast, item_count};

use crate::RangeSet;
use btree_map::IntoIter as Pairs;
use btree_node::NodesMut;
use std::iter::{DoubleEndedIterator, ExactSizeIterator, FusedIterator, IntoIterator, Iterator};
use std::marker::Model;

/// An iterator that owns a set and gives its ranges, each as its start and its end, in ascending order and from both ends. What is
/// left is dropped with the iterator. Contracts see it as the list of those left.
#[derive(Drop)]
pub struct IntoIter<C: NodesMut<u64, u64>> {
    pairs: Pairs<u64, u64, C>,
}

impl<C: NodesMut<u64, u64>> Model for IntoIter<C> {
    ghost use Rattle.std.specs.Prelude.{List, ℕ};
    ghost use Rattle.btree_owned_walk.specs.Leaving.{left_of};

    ghost Value = { List (ℕ × ℕ) };

    ghost view = { λ it. left_of it.pairs };
}

impl<C: NodesMut<u64, u64> + Drop> Iterator for IntoIter<C> {
    type Item = (u64, u64);

    ghost next_gives = { YieldsFirst (λ rest. rest) };

    ghost remaining = { item_count (λ rest. rest) };

    fn next(&mut self) -> Option<(u64, u64)> {
        self.pairs.next()
    }

    /// Returns how many ranges are left, as both bounds.
    fn size_hint(&self) -> (usize, Option<usize>)
        ensures exact { result ≡ (length self.now, Some (length self.now)) }
        ensures lower { IsWithinCount result.0 (item_count (λ rest. rest) self.now) }
        ensures upper { IfSome result.1 (UpTo (item_count (λ rest. rest) self.now)) }
    {
        self.pairs.size_hint()
    }
}

impl<C: NodesMut<u64, u64> + Drop> DoubleEndedIterator for IntoIter<C> {
    ghost next_back_gives = { YieldsLast (λ rest. rest) };

    fn next_back(&mut self) -> Option<(u64, u64)> {
        self.pairs.next_back()
    }
}

impl<C: NodesMut<u64, u64> + Drop> ExactSizeIterator for IntoIter<C> {
    fn len(&self) -> usize {
        self.pairs.len()
    }
}

impl<C: NodesMut<u64, u64> + Drop> FusedIterator for IntoIter<C> {}

impl<C: NodesMut<u64, u64> + Drop> IntoIterator for RangeSet<C> {
    type Item = (u64, u64);

    type IntoIter = IntoIter<C>;

    ghost into_iter_gives = { λ set rest. rest ≡ set.ranges };

    fn into_iter(self) -> IntoIter<C> {
        let RangeSet { map } = self;
        IntoIter {
            pairs: map.into_iter(),
        }
    }
}
