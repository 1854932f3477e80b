//! What exactly one of two sets has, which may have different stores. It is seen by contracts as the elements that are left
//! in the first set and in the second.
ghost use Rattle.std.specs.Prelude.{◌≡◌, IfSome, length};
ghost use Rattle.std.specs.Iterator.SizeHint.{IsWithinCount};
ghost use Rattle.std.specs.Iterator.{YieldsFirstRef, item_count, UpTo};
ghost use Rattle.btree_set.specs.Merges.{count_of, symmetric_difference, symmetric_difference_hint};

use crate::peeked::Peeked;
use btree_node::NodesMut;
use std::cmp::Ordering;
use std::iter::{FusedIterator, Iterator};
use std::marker::Model;

/// An iterator over the elements that exactly one of the sets has.
#[derive(Drop)]
pub struct SymmetricDifference<'a, T: Ord, C: NodesMut<T, ()>, D: NodesMut<T, ()>> {
    pub(crate) first: Peeked<'a, T, C>,
    pub(crate) second: Peeked<'a, T, D>,
}

impl<'a, T: Ord, C: NodesMut<T, ()>, D: NodesMut<T, ()>> Model
    for SymmetricDifference<'a, T, C, D> {
    ghost use Rattle.std.specs.Prelude.{List};

    ghost Value = { List T × List T };

    ghost view = { λ it. (it.first, it.second) };
}

impl<'a, T: Ord, C: NodesMut<T, ()>, D: NodesMut<T, ()>> Iterator
    for SymmetricDifference<'a, T, C, D> {
    type Item = &'a T;

    ghost next_gives = { YieldsFirstRef (λ left. symmetric_difference T.cmp left.0 left.1) };

    ghost remaining = { item_count (λ left. symmetric_difference T.cmp left.0 left.1) };

    fn next(&mut self) -> Option<&'a T> {
        loop {
            let Some(left) = self.first.head() else {
                return self.second.next();
            };
            let Some(right) = self.second.head() else {
                return self.first.next();
            };
            match right.cmp(left) {
                Ordering::Less => {
                    self.second.advance();
                    return Some(right);
                }
                Ordering::Equal => {
                    self.first.advance();
                    self.second.advance();
                }
                Ordering::Greater => {
                    self.first.advance();
                    return Some(left);
                }
            }
        }
    }

    /// Returns 0, and the sum of the numbers of elements that are left in the two sets, or `None` if it passes `usize::MAX`.
    fn size_hint(&self) -> (usize, Option<usize>)
        ensures exact { result ≡ symmetric_difference_hint (length self.now.0) (length self.now.1) }
        ensures lower { IsWithinCount result.0
            (count_of (symmetric_difference T.cmp) self.now) }
        ensures upper { IfSome result.1
            (UpTo (count_of (symmetric_difference T.cmp) self.now)) }
    {
        let first = self.first.len();
        let second = self.second.len();
        (0, first.checked_add(second))
    }
}

impl<'a, T: Ord, C: NodesMut<T, ()>, D: NodesMut<T, ()>> FusedIterator
    for SymmetricDifference<'a, T, C, D> {}
