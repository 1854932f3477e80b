//! What a set has and another, which may have a different store, does not have. It is seen by contracts as the elements that are left
//! in the first set and in the second.
ghost use Rattle.std.specs.Prelude.{◌≡◌, IfSome, length};
ghost use Rattle.std.specs.Iterator.SizeHint.{IsWithinCount};
ghost use Rattle.std.specs.Iterator.{YieldsFirstRef, item_count, UpTo};
ghost use Rattle.btree_set.specs.Merges.{count_of, difference, difference_hint};

use crate::peeked::Peeked;
use btree_node::NodesMut;
use std::cmp::Ordering;
use std::iter::{FusedIterator, Iterator};
use std::marker::Model;

/// An iterator over the elements of the first set that the second one does not have.
#[derive(Drop)]
pub struct Difference<'a, T: Ord, C: NodesMut<T, ()>, D: NodesMut<T, ()>> {
    pub(crate) first: Peeked<'a, T, C>,
    pub(crate) second: Peeked<'a, T, D>,
}

impl<'a, T: Ord, C: NodesMut<T, ()>, D: NodesMut<T, ()>> Model for Difference<'a, T, C, D> {
    ghost use Rattle.std.specs.Prelude.{List};

    ghost Value = { List T × List T };

    ghost view = { λ it. (it.first, it.second) };
}

impl<'a, T: Ord, C: NodesMut<T, ()>, D: NodesMut<T, ()>> Iterator for Difference<'a, T, C, D> {
    type Item = &'a T;

    ghost next_gives = { YieldsFirstRef (λ left. difference T.cmp left.0 left.1) };

    ghost remaining = { item_count (λ left. difference T.cmp left.0 left.1) };

    fn next(&mut self) -> Option<&'a T> {
        loop {
            let Some(left) = self.first.head() else {
                return None;
            };
            let Some(right) = self.second.head() else {
                return self.first.next();
            };
            match left.cmp(right) {
                Ordering::Less => {
                    self.first.advance();
                    return Some(left);
                }
                Ordering::Equal => {
                    self.first.advance();
                    self.second.advance();
                }
                Ordering::Greater => self.second.advance(),
            }
        }
    }

    /// Returns by how many more elements are left in the first set than in the second, at least 0, and how many are left in the first.
    fn size_hint(&self) -> (usize, Option<usize>)
        ensures exact { result ≡ difference_hint (length self.now.0) (length self.now.1) }
        ensures lower { IsWithinCount result.0
            (count_of (difference T.cmp) self.now) }
        ensures upper { IfSome result.1
            (UpTo (count_of (difference T.cmp) self.now)) }
    {
        let first = self.first.len();
        let second = self.second.len();
        (first.saturating_sub(second), Some(first))
    }
}

impl<'a, T: Ord, C: NodesMut<T, ()>, D: NodesMut<T, ()>> FusedIterator
    for Difference<'a, T, C, D> {}
