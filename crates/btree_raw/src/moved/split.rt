//! New addresses after a split.
ghost use Rattle.std.specs.Prelude.{◌≡◌, ◌+◌, ◌<◌, IfSome};
ghost use Rattle.btree_laws.specs.Moved as moved;

use btree_item::{Address, Offset};

fn node_after_split(
    offset: Offset,
    left: usize,
    right: usize,
    parent: usize,
    index: usize,
    kept: usize,
) -> Address
    requires { index < usize.MAX }
    ensures { result ≡ moved.node_after_split left right parent index kept offset }
{
    match offset.value() {
        Some(offset) if offset == kept => Address::new(parent, Offset::from(index)),
        Some(offset) if kept < offset => Address::new(right, Offset::from(offset - kept - 1)),
        _ => Address::new(left, offset),
    }
}

fn parent_after_split(offset: Offset, parent: usize, index: usize) -> Address
    requires { IfSome offset (λ n. n + 1 < usize.MAX) }
    ensures { result ≡ moved.parent_after_split parent index offset }
{
    match offset.value() {
        Some(offset) if index <= offset => Address::new(parent, Offset::from(offset + 1)),
        _ => Address::new(parent, offset),
    }
}

/// Returns the new address after node `left`, the child of `parent` at the index, was split and the median inserted into the parent:
/// `kept` items stay in `left`, and those after the median are in `right`.
pub fn moved_by_split(
    addr: Address,
    left: usize,
    right: usize,
    parent: usize,
    index: usize,
    kept: usize,
) -> Address
    requires index { index < usize.MAX }
    requires offset { IfSome addr.offset (λ n. n + 1 < usize.MAX) }
    ensures { result ≡ moved.moved_by_split left right parent index kept addr }
{
    if addr.id == left {
        node_after_split(addr.offset, left, right, parent, index, kept)
    } else if addr.id == parent {
        parent_after_split(addr.offset, parent, index)
    } else {
        addr
    }
}
