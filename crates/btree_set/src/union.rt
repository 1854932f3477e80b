//! The union of two sets, which may have different stores. It is seen by contracts as the elements that are left in the first set and in
//! the second.
ghost use Rattle.std.specs.Prelude.{◌≡◌, IfSome, length};
ghost use Rattle.std.specs.Iterator.SizeHint.{IsWithinCount};
ghost use Rattle.std.specs.Iterator.{YieldsFirstRef, item_count, UpTo};
ghost use Rattle.btree_set.specs.Merges.{count_of, union, union_hint};

use crate::peeked::Peeked;
use btree_node::NodesMut;
use std::cmp::Ordering;
use std::iter::{FusedIterator, Iterator};
use std::marker::Model;

/// An iterator over the elements of either set, each once. Of two equal elements it yields that of the second set.
#[derive(Drop)]
pub struct Union<'a, T: Ord, C: NodesMut<T, ()>, D: NodesMut<T, ()>> {
    pub(crate) first: Peeked<'a, T, C>,
    pub(crate) second: Peeked<'a, T, D>,
}

impl<'a, T: Ord, C: NodesMut<T, ()>, D: NodesMut<T, ()>> Model for Union<'a, T, C, D> {
    ghost use Rattle.std.specs.Prelude.{List};

    ghost Value = { List T × List T };

    ghost view = { λ it. (it.first, it.second) };
}

impl<'a, T: Ord, C: NodesMut<T, ()>, D: NodesMut<T, ()>> Iterator for Union<'a, T, C, D> {
    type Item = &'a T;

    ghost next_gives = { YieldsFirstRef (λ left. union T.cmp left.0 left.1) };

    ghost remaining = { item_count (λ left. union T.cmp left.0 left.1) };

    fn next(&mut self) -> Option<&'a T> {
        let Some(left) = self.first.head() else {
            return self.second.next();
        };
        let Some(right) = self.second.head() else {
            return self.first.next();
        };
        match right.cmp(left) {
            Ordering::Less => {
                self.second.advance();
                Some(right)
            }
            Ordering::Equal => {
                self.first.advance();
                self.second.advance();
                Some(right)
            }
            Ordering::Greater => {
                self.first.advance();
                Some(left)
            }
        }
    }

    /// Returns the greater of the numbers of elements that are left in the two sets, and their sum, or `None` if that passes `usize::MAX`.
    fn size_hint(&self) -> (usize, Option<usize>)
        ensures exact { result ≡ union_hint (length self.now.0) (length self.now.1) }
        ensures lower { IsWithinCount result.0
            (count_of (union T.cmp) self.now) }
        ensures upper { IfSome result.1
            (UpTo (count_of (union T.cmp) self.now)) }
    {
        let first = self.first.len();
        let second = self.second.len();
        (first.max(second), first.checked_add(second))
    }
}

impl<'a, T: Ord, C: NodesMut<T, ()>, D: NodesMut<T, ()>> FusedIterator for Union<'a, T, C, D> {}
