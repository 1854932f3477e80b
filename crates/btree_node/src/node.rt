//! A node of the tree.
ghost use Rattle.std.specs.Prelude.{◌≡◌, ◌+◌, ◌<◌, ◌≤◌, ◌↔◌, ◌==◌, Some, None, IsTrue, IsSomeAnd, IfSome, OnSome, length, slice_get, position};
ghost use Rattle.std.specs.Option.{option_copied};
ghost use Rattle.btree_item.specs.Comparisons.{TicksBy};
ghost use Rattle.btree_item.specs.Pairs.{Ascends};
ghost use Rattle.btree_view.specs.Edits.{balance_of, HasChildFor, is_internal, IsOverflowing, IsSplit, IsUnderflowing, with_parent};
ghost use Rattle.btree_view.specs.Kept.{kept_parent};
ghost use Rattle.btree_view.specs.LookUp.{comparisons_in, look_up, offset_in, PointsInto, result_map};
ghost use Rattle.btree_node.specs.Node.{branch_copied, view_of};
ghost use Rattle.btree_internal.specs.ChildrenLeft.{between_left, children_left};
ghost use Rattle.btree_view.specs.Separators.{children_between_items, separator_after, separator_before};
ghost use Rattle.btree_view.specs.View.{BeginsAt, parent_of, items_of, children_of, item_at_offset, size_of, most_of};

use btree_internal::{Children, ChildrenWithSeparators, InsertionError, InternalNode};
use btree_item::{
    Fault, Item, LEAF_SLOTS, MAX_COMPARISONS, MAX_INTERNAL_ITEMS, MAX_LEAF_ITEMS, MIN_ITEMS,
    Offset, Query,
};
use btree_leaf::LeafNode;
use btree_steps::Steps;
use btree_view::{Balance, WouldUnderflow, offset_at};
use std::mem;

/// What `Node::pop_right` removes: the offset that the item had, the item, and the child after it, which is there exactly in an internal
/// node.
pub type PoppedItem<K, V> = (Offset, Item<K, V>, Option<usize>);

/// A node: an internal node or a leaf. Contracts see either as its view.
///
/// A call that looks for a key makes at most six comparisons. The other calls that change a node compare no keys, and touch no node but
/// those that they are given: the order of the keys and the parents of the children are then up to the caller. A parent
/// `Some(usize::MAX)` is read as `None`.
#[derive(Clone, Drop)]
pub enum Node<K, V> {
    Internal(InternalNode<K, V>),
    Leaf(LeafNode<K, V>),
}

impl<K, V> Node<K, V> {
    ghost use Rattle.std.specs.Borrow.{sem};
    ghost use Rattle.std.specs.Option.{option_copied_mut};
    ghost use Rattle.btree_node.specs.NodeLends.{node_lends_item};

    /// Returns the number of the parent, if there is one.
    pub fn parent(&self) -> Option<usize>
        ensures value { result ≡ parent_of (view_of self.now) }
        ensures bound { IfSome result (λ id. id < usize.MAX) }
    {
        match self {
            Node::Internal(node) => node.parent(),
            Node::Leaf(leaf) => leaf.parent(),
        }
    }

    /// Returns how many items there are. It reads no item.
    pub fn item_count(&self) -> usize
        ensures value { result ≡ size_of (view_of self.now) }
        ensures fits { result ≤ LEAF_SLOTS }
    {
        match self {
            Node::Internal(node) => node.item_count(),
            Node::Leaf(leaf) => leaf.item_count(),
        }
    }

    /// Returns how many children there are: one more than items in an internal node, 0 in a leaf.
    pub fn child_count(&self) -> usize
        ensures value { result ≡ length (children_of (view_of self.now)) }
        ensures fits { result ≤ LEAF_SLOTS }
    {
        match self {
            Node::Internal(node) => node.child_count(),
            Node::Leaf(_) => 0,
        }
    }

    /// Returns the first index of a child's number, if it is there. A leaf has none.
    pub fn child_index(&self, id: usize) -> Option<usize>
        ensures value { result ≡ position (λ child. child == id) (children_of (view_of self.now)) }
        ensures within { IfSome result (λ index. index < length (children_of (view_of self.now))) }
    {
        match self {
            Node::Internal(node) => node.child_index(id),
            Node::Leaf(_) => None,
        }
    }

    /// Returns the number of the child at an index. There must be one; see `child_id_opt`.
    pub fn child_id(&self, index: usize) -> usize
        requires { index < length (children_of (view_of self.now)) }
        ensures { slice_get (children_of (view_of self.now)) index ≡ Some result }
    {
        self.child_id_opt(index).unwrap()
    }

    /// Returns the number of the child at an index, or `None` past the last. A leaf has none.
    pub fn child_id_opt(&self, index: usize) -> Option<usize>
        ensures { result ≡ slice_get (children_of (view_of self.now)) index }
    {
        match self {
            Node::Internal(node) => node.child_id_opt(index),
            Node::Leaf(_) => None,
        }
    }

    /// Returns the keys before and after the child at an index: `None` before the first child, and after the last. An internal node must
    /// have that child; see `child_id_opt`. A leaf has no children, and no separators at any index.
    pub fn separators(&self, index: usize) -> (Option<&K>, Option<&K>)
        requires { IsTrue (is_internal (view_of self.now)) → index ≤ size_of (view_of self.now) }
        ensures before { option_copied result.0 ≡ separator_before (view_of self.now) index }
        ensures after { option_copied result.1 ≡ separator_after (view_of self.now) index }
    {
        match self {
            Node::Internal(node) => node.separators(index),
            Node::Leaf(_) => (None, None),
        }
    }

    /// Returns an iterator over the numbers of the children. A leaf has none.
    pub fn children(&self) -> Children<'_, K, V>
        ensures { children_left result ≡ children_of (view_of self.now) }
    {
        match self {
            Node::Internal(node) => node.children(),
            Node::Leaf(_) => Children::Leaf,
        }
    }

    /// Returns an iterator over the children, each with the item before it and the item after it. A leaf has none.
    pub fn children_with_separators(&self) -> ChildrenWithSeparators<'_, K, V>
        ensures { between_left result ≡ children_between_items (view_of self.now) }
    {
        match self {
            Node::Internal(node) => node.children_with_separators(),
            Node::Leaf(_) => ChildrenWithSeparators::Leaf,
        }
    }

    /// Returns the item at an offset, or `None` at -1 and past the end.
    pub fn item(&self, offset: Offset) -> Option<&Item<K, V>>
        ensures { option_copied result ≡ item_at_offset (view_of self.now) offset }
    {
        match self {
            Node::Internal(node) => node.item(offset),
            Node::Leaf(leaf) => leaf.item(offset),
        }
    }

    /// Returns the item at an offset for writing, or `None` at -1 and past the end.
    pub fn item_mut(&mut self, offset: Offset) -> Option<&mut Item<K, V>>
        ensures* writes_back { sem 𝓛 (node_lends_item K.row V.row self.entry offset result) }
        ensures value { option_copied_mut result ≡ item_at_offset (view_of self.old) offset }
    {
        match self {
            Node::Internal(node) => node.item_mut(offset),
            Node::Leaf(leaf) => leaf.item_mut(offset),
        }
    }

    /// Returns the item at an index, or `None` past the last.
    pub fn item_at_index(&self, index: usize) -> Option<&Item<K, V>>
        ensures fits { OnSome result (index < LEAF_SLOTS) }
        ensures item { slice_get (items_of (view_of self.now)) index ≡ option_copied result }
    {
        if index >= self.item_count() {
            return None;
        }
        self.item(offset_at(index))
    }

    /// Returns the item of an internal node at an index and the number of the child after it, or `None` past the last. A leaf has none.
    pub fn branch_at_index(&self, index: usize) -> Option<(&Item<K, V>, usize)>
        ensures fits { OnSome result (index < LEAF_SLOTS) }
        ensures first { BeginsAt (view_of self.now) index (branch_copied result) }
    {
        let Node::Internal(node) = self else {
            return None;
        };
        if index >= node.item_count() {
            return None;
        }
        match node.branches().get(index) {
            Some(branch) => Some((&branch.item, branch.child)),
            None => None,
        }
    }

    /// Returns whether there are too many items, too few, or neither. A root is judged like any other node.
    pub fn balance(&self) -> Balance
        ensures { result ≡ balance_of (view_of self.now) }
    {
        match self {
            Node::Internal(node) => node.balance(),
            Node::Leaf(leaf) => leaf.balance(),
        }
    }

    /// Returns whether one more item would be too many in a well formed tree: there are at least eight in a leaf, or seven in an internal
    /// node.
    pub fn is_full(&self) -> bool
        ensures { IsTrue result ↔ (most_of (view_of self.now) ≤ size_of (view_of self.now)) }
    {
        match self {
            Node::Internal(node) => node.item_count() >= MAX_INTERNAL_ITEMS,
            Node::Leaf(leaf) => leaf.item_count() >= MAX_LEAF_ITEMS,
        }
    }

    /// Returns whether there are more items than in a node of a well formed tree: more than eight in a leaf, or seven in an internal
    /// node.
    pub fn is_overflowing(&self) -> bool
        ensures { IsTrue result ↔ IsOverflowing (view_of self.now) }
    {
        match self {
            Node::Internal(node) => node.is_overflowing(),
            Node::Leaf(leaf) => leaf.is_overflowing(),
        }
    }

    /// Returns whether there are fewer than three items. A root is judged like any other node.
    pub fn is_underflowing(&self) -> bool
        ensures { IsTrue result ↔ IsUnderflowing (view_of self.now) }
    {
        match self {
            Node::Internal(node) => node.is_underflowing(),
            Node::Leaf(leaf) => leaf.is_underflowing(),
        }
    }
}

impl<K, V> Node<K, V> {
    /// Sets the parent.
    pub fn set_parent(&mut self, parent: Option<usize>)
        ensures { view_of self.new ≡ with_parent (kept_parent parent) (view_of self.old) }
    {
        match self {
            Node::Internal(node) => node.set_parent(parent),
            Node::Leaf(leaf) => leaf.set_parent(parent),
        }
    }
}

impl<K: Drop, V: Drop> Node<K, V> {
    ghost use Rattle.std.specs.Prelude.{[], ◌∷◌, ◌+◌, IfNone, IfOk, IsFalse, OnErr, OnOk, false};
    ghost use Rattle.std.specs.Result.{result_err};
    ghost use Rattle.btree_view.specs.Removal.{removal_in};
    ghost use Rattle.btree_view.specs.View.{leaf, internal, last_child_of, last_item_of};
    ghost use Rattle.btree_view.specs.Edits.{HasSpare, HaveRoom, joined, left_behind, PopsLeft, PopsRight, pushed_left, pushed_right, with_item_at, with_items, with_other_item_at, without, without_at, without_last};

    /// Returns a leaf with one item.
    pub fn leaf(parent: Option<usize>, item: Item<K, V>) -> Self
        ensures { view_of result ≡ leaf (kept_parent parent) (item ∷ []) }
    {
        Node::Leaf(LeafNode::new(parent, item))
    }

    /// Returns an internal node with one item between two children.
    pub fn binary(
        parent: Option<usize>,
        left_id: usize,
        median: Item<K, V>,
        right_id: usize,
    ) -> Self
        ensures { view_of result ≡ internal (kept_parent parent) left_id ((median, right_id) ∷ []) }
    {
        Node::Internal(InternalNode::binary(parent, left_id, median, right_id))
    }

    /// Inserts an item at an offset, in an internal node with a child after it, and moves those from there on right by one.
    pub fn insert(&mut self, offset: Offset, item: Item<K, V>, opt_right: Option<usize>)
        requires room { size_of (view_of self.old) ≤ most_of (view_of self.old) }
        requires within { IsSomeAnd offset (λ index. index ≤ size_of (view_of self.old)) }
        requires child { HasChildFor opt_right (view_of self.old) }
        ensures { view_of self.new ≡ with_item_at offset item opt_right (view_of self.old) }
    {
        match self {
            Node::Internal(node) => match opt_right {
                Some(right_id) => node.insert(offset, item, right_id),
                None => unreachable!(),
            },
            Node::Leaf(leaf) => leaf.insert(offset, item),
        }
    }

    /// Replaces the item at an offset of an internal node, and returns the old one. The children stay.
    pub fn replace(&mut self, offset: Offset, item: Item<K, V>) -> Item<K, V>
        requires kind { IsTrue (is_internal (view_of self.old)) }
        requires occupied { IsSomeAnd offset (λ index. index < size_of (view_of self.old)) }
        ensures answer { Some result ≡ item_at_offset (view_of self.old) offset }
        ensures after { view_of self.new ≡ with_other_item_at offset item (view_of self.old) }
    {
        match self {
            Node::Internal(node) => node.replace(offset, item),
            Node::Leaf(_) => unreachable!(),
        }
    }

    /// Removes and returns the item at an offset of a leaf, and moves those after it left by one. At an item of an internal node nothing
    /// changes, and it returns `Err` with the number of the child before the item. Returns `None` at -1 and past the end.
    pub fn leaf_remove(&mut self, offset: Offset) -> Option<Result<Item<K, V>, usize>>
        ensures answer { result ≡ removal_in offset (view_of self.old) }
        ensures taken { IfSome result (λ r.
            OnOk r (view_of self.new ≡ without_at offset (view_of self.old))) }
        ensures inner { IfSome result (λ r. OnErr r (self.new ≡ self.old)) }
        ensures none { IfNone result (self.new ≡ self.old) }
    {
        let Some(index) = offset.value() else {
            return None;
        };
        if index >= self.item_count() {
            return None;
        }
        match self {
            Node::Internal(node) => Some(Err(node.child_id(index))),
            Node::Leaf(leaf) => Some(Ok(leaf.remove(offset))),
        }
    }

    /// Removes and returns the last item of a leaf. An internal node stays, and it returns `Err` with the number of the last child.
    pub fn remove_rightmost_leaf(&mut self) -> Result<Item<K, V>, usize>
        requires { IsFalse (is_internal (view_of self.old)) → 0 < size_of (view_of self.old) }
        ensures child { result_err result ≡ last_child_of (view_of self.old) }
        ensures item { IfOk result (λ item. Some item ≡ last_item_of (view_of self.old)) }
        ensures taken { OnOk result (view_of self.new ≡ without_last (view_of self.old)) }
        ensures inner { OnErr result (self.new ≡ self.old) }
    {
        match self {
            Node::Internal(node) => Err(node.child_id(node.item_count())),
            Node::Leaf(leaf) => Ok(leaf.remove_last()),
        }
    }

    /// Removes the item between two adjacent children of an internal node, and the number of the right child. Returns the left one's
    /// index, the numbers of both, the item, and the balance of the node after that.
    pub fn merge(&mut self, left: usize, right: usize) -> (usize, usize, usize, Item<K, V>, Balance)
        requires next { right ≡ left + 1 }
        requires within { right < length (children_of (view_of self.old)) }
        ensures index { result.0 ≡ left }
        ensures left { slice_get (children_of (view_of self.old)) left ≡ Some result.1 }
        ensures right { slice_get (children_of (view_of self.old)) right ≡ Some result.2 }
        ensures item { slice_get (items_of (view_of self.old)) left ≡ Some result.3 }
        ensures after { view_of self.new ≡ without left (view_of self.old) }
        ensures balance { result.4 ≡ balance_of (view_of self.new) }
    {
        match self {
            Node::Internal(node) => node.merge(left, right),
            Node::Leaf(_) => unreachable!(),
        }
    }

    /// Appends the separator and then what the other node, of the same kind, holds. Each item moves once. Returns the separator's offset.
    pub fn append(&mut self, separator: Item<K, V>, other: Node<K, V>) -> Offset
        requires kind { is_internal (view_of other) ≡ is_internal (view_of self.old) }
        requires room { HaveRoom (view_of self.old) (view_of other) }
        ensures offset { result ≡ Some (size_of (view_of self.old)) }
        ensures after { view_of self.new ≡ joined (view_of self.old) separator (view_of other) }
    {
        let mut emptied = other;
        self.append_from(separator, &mut emptied)
    }

    /// Appends the separator and then what the other node, of the same kind, holds. The other node keeps only its parent and, as an internal
    /// node, its first child. Each item moves once, and no node is passed by value. Returns the separator's offset.
    pub fn append_from(&mut self, separator: Item<K, V>, other: &mut Node<K, V>) -> Offset
        requires kind { is_internal (view_of other.old) ≡ is_internal (view_of self.old) }
        requires room { HaveRoom (view_of self.old) (view_of other.old) }
        ensures offset { result ≡ Some (size_of (view_of self.old)) }
        ensures after { view_of self.new ≡ joined (view_of self.old) separator (view_of other.old) }
        ensures emptied { view_of other.new ≡ with_items [] (view_of other.old) }
    {
        match self {
            Node::Internal(node) => match other {
                Node::Internal(other) => node.append_from(separator, other),
                Node::Leaf(_) => unreachable!(),
            },
            Node::Leaf(leaf) => match other {
                Node::Leaf(other) => leaf.append_from(separator, other),
                Node::Internal(_) => unreachable!(),
            },
        }
    }

    /// Moves what a node holds into `part`, a leaf without items, which becomes the node that this one was. A leaf keeps only its parent,
    /// and an internal node becomes the leaf that `part` was. Each item of a leaf moves once, and no leaf is passed by value.
    pub fn move_into(&mut self, part: &mut Node<K, V>)
        requires leaf { is_internal (view_of part.old) ≡ false }
        requires empty { items_of (view_of part.old) ≡ [] }
        ensures moved { part.new ≡ self.old }
        ensures emptied { view_of self.new ≡ left_behind (view_of self.old) (view_of part.old) }
    {
        match self {
            Node::Internal(_) => mem::swap(self, part),
            Node::Leaf(leaf) => match part {
                Node::Leaf(part) => leaf.move_into(part),
                Node::Internal(_) => unreachable!(),
            },
        }
    }

    /// Inserts an item before the others, and in an internal node a child before the others.
    pub fn push_left(&mut self, item: Item<K, V>, opt_child: Option<usize>)
        requires room { size_of (view_of self.old) ≤ most_of (view_of self.old) }
        requires child { HasChildFor opt_child (view_of self.old) }
        ensures { view_of self.new ≡ pushed_left item opt_child (view_of self.old) }
    {
        match self {
            Node::Internal(node) => match opt_child {
                Some(child) => node.push_left(item, child),
                None => unreachable!(),
            },
            Node::Leaf(leaf) => leaf.push_left(item),
        }
    }

    /// Appends an item, and in an internal node a child after it. Returns the item's offset.
    pub fn push_right(&mut self, item: Item<K, V>, opt_child: Option<usize>) -> Offset
        requires room { size_of (view_of self.old) ≤ most_of (view_of self.old) }
        requires child { HasChildFor opt_child (view_of self.old) }
        ensures offset { result ≡ Some (size_of (view_of self.old)) }
        ensures after { view_of self.new ≡ pushed_right item opt_child (view_of self.old) }
    {
        match self {
            Node::Internal(node) => match opt_child {
                Some(child) => node.push_right(item, child),
                None => unreachable!(),
            },
            Node::Leaf(leaf) => leaf.push_right(item),
        }
    }

    /// Removes and returns the first item, and the first child of an internal node, however few items there are.
    pub fn take_left(&mut self) -> (Item<K, V>, Option<usize>)
        requires { 0 < size_of (view_of self.old) }
        ensures child { HasChildFor result.1 (view_of self.old) }
        ensures taken { PopsLeft (view_of self.old) (view_of self.new) result }
    {
        match self {
            Node::Internal(node) => {
                let (item, child) = node.take_left();
                (item, Some(child))
            }
            Node::Leaf(leaf) => (leaf.take_left(), None),
        }
    }

    /// Removes and returns the last item, and the last child of an internal node, however few items there are.
    pub fn take_right(&mut self) -> (Item<K, V>, Option<usize>)
        requires { 0 < size_of (view_of self.old) }
        ensures child { HasChildFor result.1 (view_of self.old) }
        ensures taken { view_of self.old ≡ pushed_right result.0 result.1 (view_of self.new) }
    {
        match self {
            Node::Internal(node) => {
                let (_, item, child) = node.take_right();
                (item, Some(child))
            }
            Node::Leaf(leaf) => (leaf.take_right(), None),
        }
    }

    /// Removes and returns the first item, and the first child of an internal node, if there are four items or more.
    pub fn pop_left(&mut self) -> Result<(Item<K, V>, Option<usize>), WouldUnderflow>
        ensures spare { IfOk result (λ _. HasSpare (view_of self.old)) }
        ensures child { IfOk result (λ popped. HasChildFor popped.1 (view_of self.old)) }
        ensures taken { IfOk result (PopsLeft (view_of self.old) (view_of self.new)) }
        ensures short { OnErr result (size_of (view_of self.old) ≤ MIN_ITEMS × self.new ≡ self.old) }
    {
        match self {
            Node::Internal(node) => match node.pop_left() {
                Ok((item, child)) => Ok((item, Some(child))),
                Err(short) => Err(short),
            },
            Node::Leaf(leaf) => match leaf.pop_left() {
                Ok(item) => Ok((item, None)),
                Err(short) => Err(short),
            },
        }
    }

    /// Removes and returns the last item, with the offset that it had, and the last child of an internal node, if there are four items or
    /// more.
    pub fn pop_right(&mut self) -> Result<PoppedItem<K, V>, WouldUnderflow>
        ensures spare { IfOk result (λ _. HasSpare (view_of self.old)) }
        ensures offset { IfOk result (λ popped. popped.0 ≡ Some (size_of (view_of self.new))) }
        ensures child { IfOk result (λ popped. HasChildFor popped.2 (view_of self.old)) }
        ensures taken { IfOk result (PopsRight (view_of self.old) (view_of self.new)) }
        ensures short { OnErr result (size_of (view_of self.old) ≤ MIN_ITEMS × self.new ≡ self.old) }
    {
        match self {
            Node::Internal(node) => match node.pop_right() {
                Ok((offset, item, child)) => Ok((offset, item, Some(child))),
                Err(short) => Err(short),
            },
            Node::Leaf(leaf) => match leaf.pop_right() {
                Ok((offset, item)) => Ok((offset, item, None)),
                Err(short) => Err(short),
            },
        }
    }

    /// Keeps the first items of a node with one too many: four in a leaf, three in an internal node. Returns how many are kept, the
    /// median, and a node of the same kind with the items after it, under the same parent.
    pub fn split(&mut self) -> (usize, Item<K, V>, Node<K, V>)
        requires { IsOverflowing (view_of self.old) }
        ensures parts { IsSplit (view_of self.old) result.1 (view_of self.new) (view_of result.2) }
        ensures left { result.0 ≡ size_of (view_of self.new) }
        ensures right { size_of (view_of result.2) ≡ MIN_ITEMS + 1 }
    {
        match self {
            Node::Internal(node) => {
                let (left, median, right) = node.split();
                (left, median, Node::Internal(right))
            }
            Node::Leaf(leaf) => {
                let (left, median, right) = leaf.split();
                (left, median, Node::Leaf(right))
            }
        }
    }

    /// Keeps the first items of a node with one too many, as `split` does, and moves those after the median into `part`: a leaf without
    /// items, which becomes a node of the same kind under the same parent. Returns how many are kept, and the median. Each item of a leaf
    /// moves once, and no leaf is passed by value.
    #[inline(always)]
    pub fn split_into(&mut self, part: &mut Node<K, V>) -> (usize, Item<K, V>)
        requires over { IsOverflowing (view_of self.old) }
        requires leaf { is_internal (view_of part.old) ≡ false }
        requires empty { items_of (view_of part.old) ≡ [] }
        ensures parts { IsSplit (view_of self.old) result.1 (view_of self.new) (view_of part.new) }
        ensures left { result.0 ≡ size_of (view_of self.new) }
        ensures right { size_of (view_of part.new) ≡ MIN_ITEMS + 1 }
    {
        match self {
            Node::Internal(node) => {
                let (left, median, right) = node.split();
                drop(mem::replace(part, Node::Internal(right)));
                (left, median)
            }
            Node::Leaf(leaf) => match part {
                Node::Leaf(right) => leaf.split_into(right),
                Node::Internal(_) => unreachable!(),
            },
        }
    }
}

impl<K: Ord, V> Node<K, V> {
    ghost use Rattle.std.specs.Borrow.{sem};
    ghost use Rattle.std.specs.Option.{option_copied_mut};
    ghost use Rattle.btree_view.specs.LookUp.{find_in};
    ghost use Rattle.btree_node.specs.NodeLends.{node_lends};

    /// Returns `Ok` with the value at a key, or with `None` in a leaf without it, or `Err` with the number of the child that may hold it.
    pub fn get(&self, key: &K) -> Result<Option<&V>, usize>
        requires { Ascends K.cmp (items_of (view_of self.now)) }
        ensures { result_map option_copied result ≡ look_up K.cmp key.now (view_of self.now) }
    {
        match self {
            Node::Internal(node) => match node.get(key) {
                Ok(value) => Ok(Some(value)),
                Err(id) => Err(id),
            },
            Node::Leaf(leaf) => Ok(leaf.get(key)),
        }
    }

    /// Returns `Ok` with the value at a key for writing, or with `None` in a leaf without it, or `Err` with the number of the child that
    /// may hold it. The contract does not say what is written: a caller that needs that uses `find_mut`.
    pub fn get_mut(&mut self, key: &K) -> Result<Option<&mut V>, usize>
        requires { Ascends K.cmp (items_of (view_of self.old)) }
        ensures { result_map option_copied_mut result ≡ look_up K.cmp key.now (view_of self.old) }
    {
        match self.find_mut(key) {
            Ok(value) => Ok(Some(value)),
            Err(None) => Ok(None),
            Err(Some(id)) => Err(id),
        }
    }

    /// Returns `Ok` with the value at a key for writing, or `Err` with the number of the child that may hold it, which a leaf does not
    /// have.
    pub fn find_mut(&mut self, key: &K) -> Result<&mut V, Option<usize>>
        requires { Ascends K.cmp (items_of (view_of self.old)) }
        ensures* writes_back { sem 𝓛 (node_lends K.row V.row K.cmp self.entry key.now result) }
        ensures value { result_map (λ v. v.now) result ≡ find_in K.cmp key.now (view_of self.old) }
    {
        match self {
            Node::Internal(node) => match node.get_mut(key) {
                Ok(value) => Ok(value),
                Err(id) => Err(Some(id)),
            },
            Node::Leaf(leaf) => match leaf.get_mut(key) {
                Some(value) => Ok(value),
                None => Err(None),
            },
        }
    }

    /// Returns `Ok` with the offset of a key that is there, or `Err` with the number of smaller keys, which is the index of the child
    /// that may hold it, and the child's number.
    #[inline(always)]
    pub fn offset_of<Q: Query<K>>(&self, key: &Q) -> Result<Offset, (usize, Option<usize>)>
        requires { Ascends K.cmp (items_of (view_of self.now)) }
        ensures value { result ≡ offset_in Q.compare key.now (view_of self.now) }
        ensures within { PointsInto (view_of self.now) result }
    {
        let mut steps = Steps::new();
        self.offset_of_counted(key, &mut steps)
    }

    /// Does the same as `offset_of`, and ticks once for each comparison of keys.
    #[inline(always)]
    pub fn offset_of_counted<Q: Query<K>>(
        &self,
        key: &Q,
        steps: &mut Steps,
    ) -> Result<Offset, (usize, Option<usize>)>
        requires { Ascends K.cmp (items_of (view_of self.now)) }
        ensures value { result ≡ offset_in Q.compare key.now (view_of self.now) }
        ensures within { PointsInto (view_of self.now) result }
        ensures counted { TicksBy steps.old steps.new (comparisons_in Q.compare key.now (view_of self.now)) }
        ensures ticks { steps.new.count ≤ steps.old.count + MAX_COMPARISONS }
    {
        match self {
            Node::Internal(node) => match node.offset_of_counted(key, steps) {
                Ok(offset) => Ok(offset),
                Err((index, id)) => Err((index, Some(id))),
            },
            Node::Leaf(leaf) => match leaf.find_counted(key, steps) {
                Ok(index) => Ok(offset_at(index)),
                Err(index) => Err((index, None)),
            },
        }
    }
}

impl<K: Ord, V> Node<K, V> {
    ghost use Rattle.btree_view.specs.Checks.{GivesNodeVerdict};

    /// Checks the parent, the number of items, and the keys, also against the nearest separators on both sides, and returns the fault of
    /// the first check that fails. A node with neither separator is judged as the root.
    pub fn validate(
        &self,
        parent: Option<usize>,
        min: Option<&K>,
        max: Option<&K>,
    ) -> Result<(), Fault>
        ensures { GivesNodeVerdict K.cmp parent min.entry max.entry (view_of self.now) result }
    {
        match self {
            Node::Internal(node) => node.validate(parent, min, max),
            Node::Leaf(leaf) => leaf.validate(parent, min, max),
        }
    }
}

impl<K: Ord + Drop, V: Drop> Node<K, V> {
    ghost use Rattle.std.specs.Prelude.{IfErr, IfOk, IsFalse, OnErr, OnOk};
    ghost use Rattle.btree_item.specs.Pairs.{before, found_value};
    ghost use Rattle.btree_internal.specs.Insertion.{NamesChildFor};
    ghost use Rattle.btree_view.specs.Insertion.{with_inserted};

    /// Inserts a value by its key: a key that is there stays and gets the new value, and the given key is dropped. Returns the offset,
    /// and the old value if there was one. An internal node that does not hold the key stays as it is, and the error names the child that
    /// may hold it. A leaf needs room.
    pub fn insert_by_key(
        &mut self,
        key: K,
        value: V,
    ) -> Result<(Offset, Option<V>), InsertionError<K, V>>
        requires room { IsFalse (is_internal (view_of self.old)) → size_of (view_of self.old) ≤ most_of (view_of self.old) }
        requires ascends { Ascends K.cmp (items_of (view_of self.old)) }
        ensures offset { IfOk result (λ p. p.0 ≡ Some (before K.cmp key (items_of (view_of self.old)))) }
        ensures answer { IfOk result (λ p. p.1 ≡ found_value K.cmp key (items_of (view_of self.old))) }
        ensures after { OnOk result (view_of self.new ≡ with_inserted K.cmp key value (view_of self.old)) }
        ensures inner { OnErr result (IsTrue (is_internal (view_of self.old))) }
        ensures absent { IfErr result (NamesChildFor K.cmp key value (view_of self.old)) }
        ensures kept { OnErr result (self.new ≡ self.old) }
    {
        match self {
            Node::Internal(node) => match node.insert_by_key(key, value) {
                Ok((offset, old)) => Ok((offset, Some(old))),
                Err(error) => Err(error),
            },
            Node::Leaf(leaf) => Ok(leaf.insert_by_key(key, value)),
        }
    }
}
