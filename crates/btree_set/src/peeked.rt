//! An iterator over the elements of a set that shows the next one.
ghost use Rattle.std.specs.Prelude.{◌≡◌, drop, length, slice_get};
ghost use Rattle.std.specs.List.Sorted.{IsStrictlySortedBy};
ghost use Rattle.std.specs.Option.{option_copied};

use btree_node::NodesMut;
use btree_walk::Keys;
use std::iter::{ExactSizeIterator, Iterator};
use std::marker::Model;

/// The elements that are left, of which the first was taken from the iterator already.
#[derive(Drop)]
pub(crate) struct Peeked<'a, T: Ord, C: NodesMut<T, ()>> {
    head: Option<&'a T>,
    rest: Keys<'a, T, (), C>,
}

impl<'a, T: Ord, C: NodesMut<T, ()>> Model for Peeked<'a, T, C> {
    ghost use Rattle.std.specs.Prelude.{◌≡◌, ◌<◌, ◌^◌, [], List, IfNone, length};
    ghost use Rattle.std.specs.List.{cons_option};
    ghost use Rattle.std.specs.Option.{option_copied};
    ghost use Rattle.std.specs.List.Sorted.{IsStrictlySortedBy};

    ghost Value = { List T };

    ghost view = { λ it. cons_option (option_copied it.head) it.rest };

    ghost invariant = { λ it. IfNone it.head (it.rest ≡ [])
        × IsStrictlySortedBy T.cmp (cons_option (option_copied it.head) it.rest)
        × (length (cons_option (option_copied it.head) it.rest) < 2 ^ 64) };
}

impl<'a, T: Ord, C: NodesMut<T, ()>> Peeked<'a, T, C> {
    /// Returns the elements of an iterator, which ascend.
    pub fn new(rest: Keys<'a, T, (), C>) -> Self
        requires ascends { IsStrictlySortedBy T.cmp rest }
        ensures { result ≡ rest.entry }
    {
        let mut rest = rest;
        // For the prover: their number is a `usize`.
        let _len = rest.len();
        let head = rest.next();
        Peeked { head, rest }
    }

    /// Returns the next element.
    #[inline]
    pub fn head(&self) -> Option<&'a T>
        ensures next { option_copied result ≡ slice_get self.now 0 }
        ensures ascends { IsStrictlySortedBy T.cmp self.now }
    {
        self.head
    }

    /// Goes on to the next element.
    #[inline]
    pub fn advance(&mut self)
        ensures { self.new ≡ drop 1 self.old }
    {
        self.head = self.rest.next();
    }

    /// Returns the next element, and goes on after it.
    #[inline]
    pub fn next(&mut self) -> Option<&'a T>
        ensures first { option_copied result ≡ slice_get self.old 0 }
        ensures rest { self.new ≡ drop 1 self.old }
    {
        let head = self.head;
        self.advance();
        head
    }

    /// Returns how many elements are left.
    pub fn len(&self) -> usize
        ensures count { result ≡ length self.now }
        ensures ascends { IsStrictlySortedBy T.cmp self.now }
    {
        match self.head {
            Some(_) => self.rest.len() + 1,
            None => 0,
        }
    }
}
