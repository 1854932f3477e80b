//! New addresses after a step that fixes an underflow between two siblings. `count` is the number of items that the left sibling had, and
//! `child` the first child of the right one, if it has one.
ghost use Rattle.std.specs.Prelude.{◌≡◌, ◌+◌, ◌<◌, IfSome};
ghost use Rattle.btree_raw.specs.Siblings.{between};
ghost use Rattle.btree_laws.specs.Moved as moved;

use super::Siblings;
use btree_item::{Address, Offset};

fn before_child_or(child: Option<usize>, other: Address) -> Address
    ensures { result ≡ moved.before_child_or child other }
{
    match child {
        Some(child) => Address::new(child, Offset::before()),
        None => other,
    }
}

fn at_separator(offset: Offset, siblings: Siblings, to: Address) -> Address
    ensures { result ≡ moved.at_separator siblings.parent siblings.index to offset }
{
    match offset.value() {
        Some(offset) if offset == siblings.index => to,
        _ => Address::new(siblings.parent, offset),
    }
}

fn right_after_lending(
    offset: Offset,
    right: usize,
    parent: usize,
    index: usize,
    child: Option<usize>,
) -> Address
    requires { index < usize.MAX }
    ensures { result ≡ moved.right_after_lending right parent index child offset }
{
    match offset.value() {
        Some(0) => Address::new(parent, Offset::from(index)),
        Some(offset) => Address::new(right, Offset::from(offset - 1)),
        None => before_child_or(child, Address::new(parent, Offset::from(index))),
    }
}

/// Returns the new address after a rotation to the left: the first item of the right sibling has moved up, and the separator down to the
/// end of the left one.
pub fn moved_by_rotate_left(
    addr: Address,
    siblings: Siblings,
    count: usize,
    child: Option<usize>,
) -> Address
    requires index { siblings.index < usize.MAX }
    requires count { count < usize.MAX }
    ensures { result ≡ between moved.moved_by_rotate_left siblings count child addr }
{
    if addr.id == siblings.right {
        right_after_lending(
            addr.offset,
            siblings.right,
            siblings.parent,
            siblings.index,
            child,
        )
    } else if addr.id == siblings.parent {
        at_separator(
            addr.offset,
            siblings,
            Address::new(siblings.left, Offset::from(count)),
        )
    } else {
        addr
    }
}

fn left_after_lending(offset: Offset, siblings: Siblings, count: usize) -> Address
    requires { siblings.index < usize.MAX }
    ensures { result ≡ between moved.left_after_lending siblings count offset }
{
    let Siblings {
        parent,
        index,
        left,
        right,
    } = siblings;
    match offset.value() {
        Some(offset) if offset + 1 == count => Address::new(parent, Offset::from(index)),
        Some(offset) if offset >= count => Address::new(right, Offset::from(0)),
        _ => Address::new(left, offset),
    }
}

fn right_after_borrowing(offset: Offset, right: usize, child: Option<usize>) -> Address
    requires { IfSome offset (λ n. n + 1 < usize.MAX) }
    ensures { result ≡ moved.right_after_borrowing right child offset }
{
    match offset.value() {
        Some(offset) => Address::new(right, Offset::from(offset + 1)),
        None => before_child_or(child, Address::new(right, Offset::from(1))),
    }
}

/// Returns the new address after a rotation to the right: the last item of the left sibling has moved up, and the separator down to the
/// front of the right one.
pub fn moved_by_rotate_right(
    addr: Address,
    siblings: Siblings,
    count: usize,
    child: Option<usize>,
) -> Address
    requires index { siblings.index < usize.MAX }
    requires offset { IfSome addr.offset (λ n. n + 1 < usize.MAX) }
    ensures { result ≡ between moved.moved_by_rotate_right siblings count child addr }
{
    if addr.id == siblings.left {
        left_after_lending(addr.offset, siblings, count)
    } else if addr.id == siblings.right {
        right_after_borrowing(addr.offset, siblings.right, child)
    } else if addr.id == siblings.parent {
        at_separator(
            addr.offset,
            siblings,
            Address::new(siblings.right, Offset::from(0)),
        )
    } else {
        addr
    }
}

fn right_after_merge(offset: Offset, left: usize, count: usize, child: Option<usize>) -> Address
    requires count { count + 1 < usize.MAX }
    requires offset { IfSome offset (λ n. n + count + 1 < usize.MAX) }
    ensures { result ≡ moved.right_after_merge left count child offset }
{
    match offset.value() {
        Some(offset) => Address::new(left, Offset::from(count + 1 + offset)),
        None => before_child_or(child, Address::new(left, Offset::from(count + 1))),
    }
}

fn parent_after_merge(offset: Offset, siblings: Siblings, count: usize) -> Address
    requires { count < usize.MAX }
    ensures { result ≡ moved.parent_after_merge siblings.left siblings.parent siblings.index count offset }
{
    let Siblings {
        parent,
        index,
        left,
        ..
    } = siblings;
    match offset.value() {
        Some(offset) if offset == index => Address::new(left, Offset::from(count)),
        Some(offset) if index < offset => Address::new(parent, Offset::from(offset - 1)),
        _ => Address::new(parent, offset),
    }
}

/// Returns the new address after a merge: the separator and what the right sibling held are after the items of the left one.
pub fn moved_by_merge(
    addr: Address,
    siblings: Siblings,
    count: usize,
    child: Option<usize>,
) -> Address
    requires count { count + 1 < usize.MAX }
    requires offset { IfSome addr.offset (λ n. n + count + 1 < usize.MAX) }
    ensures { result ≡ between moved.moved_by_merge siblings count child addr }
{
    if addr.id == siblings.right {
        right_after_merge(addr.offset, siblings.left, count, child)
    } else if addr.id == siblings.parent {
        parent_after_merge(addr.offset, siblings, count)
    } else {
        addr
    }
}

fn root_after_shrinking(offset: Offset, child: usize, count: usize) -> Address
    requires { count < usize.MAX }
    ensures { result ≡ moved.root_after_shrinking child count offset }
{
    match offset.value() {
        Some(_offset) => Address::new(child, Offset::from(count)),
        None => Address::new(child, Offset::before()),
    }
}

/// Returns the new address after an internal root without items was freed. Its only child has `count` items.
pub fn moved_by_shrink_root(addr: Address, root: usize, child: usize, count: usize) -> Address
    requires { count < usize.MAX }
    ensures { result ≡ moved.moved_by_shrink_root root child count addr }
{
    if addr.id == root {
        root_after_shrinking(addr.offset, child, count)
    } else {
        addr
    }
}
