//! What two sets, which may have different stores, have in common. It is seen by contracts as the elements that are left in the first set
//! and in the second.
ghost use Rattle.std.specs.Prelude.{◌≡◌, IfSome, length};
ghost use Rattle.std.specs.Iterator.SizeHint.{IsWithinCount};
ghost use Rattle.std.specs.Iterator.{YieldsFirstRef, item_count, UpTo};
ghost use Rattle.btree_set.specs.Merges.{count_of, intersection, intersection_hint};

use crate::peeked::Peeked;
use btree_node::NodesMut;
use std::cmp::Ordering;
use std::iter::{FusedIterator, Iterator};
use std::marker::Model;

/// An iterator over the elements of the first set that the second one has.
#[derive(Drop)]
pub struct Intersection<'a, T: Ord, C: NodesMut<T, ()>, D: NodesMut<T, ()>> {
    pub(crate) first: Peeked<'a, T, C>,
    pub(crate) second: Peeked<'a, T, D>,
}

impl<'a, T: Ord, C: NodesMut<T, ()>, D: NodesMut<T, ()>> Model for Intersection<'a, T, C, D> {
    ghost use Rattle.std.specs.Prelude.{List};

    ghost Value = { List T × List T };

    ghost view = { λ it. (it.first, it.second) };
}

impl<'a, T: Ord, C: NodesMut<T, ()>, D: NodesMut<T, ()>> Iterator for Intersection<'a, T, C, D> {
    type Item = &'a T;

    ghost next_gives = { YieldsFirstRef (λ left. intersection T.cmp left.0 left.1) };

    ghost remaining = { item_count (λ left. intersection T.cmp left.0 left.1) };

    fn next(&mut self) -> Option<&'a T> {
        loop {
            let Some(left) = self.first.head() else {
                return None;
            };
            let Some(right) = self.second.head() else {
                return None;
            };
            match left.cmp(right) {
                Ordering::Less => self.first.advance(),
                Ordering::Equal => {
                    self.first.advance();
                    self.second.advance();
                    return Some(left);
                }
                Ordering::Greater => self.second.advance(),
            }
        }
    }

    /// Returns 0, and the lesser of the numbers of elements that are left in the two sets.
    fn size_hint(&self) -> (usize, Option<usize>)
        ensures exact { result ≡ intersection_hint (length self.now.0) (length self.now.1) }
        ensures lower { IsWithinCount result.0
            (count_of (intersection T.cmp) self.now) }
        ensures upper { IfSome result.1
            (UpTo (count_of (intersection T.cmp) self.now)) }
    {
        let first = self.first.len();
        let second = self.second.len();
        (0, Some(first.min(second)))
    }
}

impl<'a, T: Ord, C: NodesMut<T, ()>, D: NodesMut<T, ()>> FusedIterator
    for Intersection<'a, T, C, D> {}
