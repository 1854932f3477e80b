//! The iterators over the children of a node.
ghost use Rattle.std.specs.Prelude.{◌≡◌};
ghost use Rattle.std.specs.Iterator.{YieldsFirst, YieldsFirstBy, item_count};
ghost use Rattle.btree_internal.specs.Children.{child_copied};
ghost use Rattle.btree_internal.specs.ChildrenLeft.{between_left, children_left};
ghost use Rattle.btree_internal.specs.Internal.{internal_view as view_of};
ghost use Rattle.btree_view.specs.Separators.{children_between_items};
ghost use Rattle.btree_view.specs.View.{children_of};

use crate::internal::{Branch, InternalNode};
use btree_item::{Item, SlotsIter};
use std::marker::Model;

/// An iterator over the numbers of an internal node's children, seen by contracts as the list of those that are left.
#[derive(Drop)]
pub struct InternalChildren<'a, K, V> {
    // `None` once it is passed.
    first: Option<usize>,
    branches: SlotsIter<'a, Branch<K, V>>,
}

impl<'a, K, V> Model for InternalChildren<'a, K, V> {
    ghost use Rattle.std.specs.Prelude.{ℕ, List};
    ghost use Rattle.btree_internal.specs.Children.{children_from};

    ghost Value = { List ℕ };

    ghost view = { λ it. children_from it.first it.branches };
}

impl<'a, K, V> Iterator for InternalChildren<'a, K, V> {
    type Item = usize;

    ghost next_gives = { YieldsFirst (λ rest. rest) };

    ghost remaining = { item_count (λ rest. rest) };

    fn next(&mut self) -> Option<usize> {
        match self.first.take() {
            Some(id) => Some(id),
            None => match self.branches.next() {
                Some(branch) => Some(branch.child),
                None => None,
            },
        }
    }
}

/// An iterator over an internal node's children, each with the item before it and the item after it, seen by contracts as the list of
/// those that are left.
#[derive(Drop)]
pub struct InternalChildrenWithSeparators<'a, K, V> {
    before: Option<&'a Item<K, V>>,
    // The next child. `None` at the end.
    child: Option<usize>,
    branches: SlotsIter<'a, Branch<K, V>>,
}

impl<'a, K, V> Model for InternalChildrenWithSeparators<'a, K, V> {
    ghost use Rattle.std.specs.Prelude.{ℕ, List, Option};
    ghost use Rattle.btree_internal.specs.Children.{between_from};

    ghost Value = { List (Option (K × V) × ℕ × Option (K × V)) };

    ghost view = { λ it. between_from it.before it.child it.branches };
}

impl<'a, K, V> Iterator for InternalChildrenWithSeparators<'a, K, V> {
    type Item = (Option<&'a Item<K, V>>, usize, Option<&'a Item<K, V>>);

    ghost next_gives = { YieldsFirstBy child_copied (λ rest. rest) };

    ghost remaining = { item_count (λ rest. rest) };

    fn next(&mut self) -> Option<(Option<&'a Item<K, V>>, usize, Option<&'a Item<K, V>>)> {
        let before = self.before;
        let Some(id) = self.child.take() else {
            return None;
        };
        match self.branches.next() {
            Some(branch) => {
                self.before = Some(&branch.item);
                self.child = Some(branch.child);
                Some((before, id, Some(&branch.item)))
            }
            None => Some((before, id, None)),
        }
    }
}

/// An iterator over the numbers of a node's children, in order. A leaf has none.
#[derive(Drop)]
pub enum Children<'a, K, V> {
    Leaf,
    Internal(InternalChildren<'a, K, V>),
}

impl<'a, K, V> Iterator for Children<'a, K, V> {
    type Item = usize;

    ghost next_gives = { YieldsFirst children_left };

    ghost remaining = { item_count children_left };

    fn next(&mut self) -> Option<usize> {
        match self {
            Children::Leaf => None,
            Children::Internal(children) => children.next(),
        }
    }
}

/// An iterator over a node's children, in order: the item before the child, its number, and the item after it. A leaf has none.
#[derive(Drop)]
pub enum ChildrenWithSeparators<'a, K, V> {
    Leaf,
    Internal(InternalChildrenWithSeparators<'a, K, V>),
}

impl<'a, K, V> Iterator for ChildrenWithSeparators<'a, K, V> {
    type Item = (Option<&'a Item<K, V>>, usize, Option<&'a Item<K, V>>);

    ghost next_gives = { YieldsFirstBy child_copied between_left };

    ghost remaining = { item_count between_left };

    fn next(&mut self) -> Option<(Option<&'a Item<K, V>>, usize, Option<&'a Item<K, V>>)> {
        match self {
            ChildrenWithSeparators::Leaf => None,
            ChildrenWithSeparators::Internal(children) => children.next(),
        }
    }
}

impl<K, V> InternalNode<K, V> {
    /// Returns an iterator over the numbers of the children.
    pub fn children(&self) -> Children<'_, K, V>
        ensures { children_left result ≡ children_of (view_of self.now) }
    {
        Children::Internal(InternalChildren {
            first: Some(self.first_child_id()),
            branches: self.branches().iter(),
        })
    }

    /// Returns an iterator over the children, each with the item before it and the item after it.
    pub fn children_with_separators(&self) -> ChildrenWithSeparators<'_, K, V>
        ensures { between_left result ≡ children_between_items (view_of self.now) }
    {
        ChildrenWithSeparators::Internal(InternalChildrenWithSeparators {
            before: None,
            child: Some(self.first_child_id()),
            branches: self.branches().iter(),
        })
    }
}
