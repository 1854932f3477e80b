//! The nodes of a raw tree by words: paths from the root, `M` for the marked one, `unused` for one that is not there, and numbers.
use book_text::{Reply, node, number, offset, put_node};
use btree_item::{Address, Offset};
use btree_node::NodesMut;
use btree_raw::RawBTree;

/// A raw tree.
pub type Raw<C> = RawBTree<u64, u64, C>;

/// Returns the number of the node that a word names: a path, `M`, `unused`, or the number itself.
pub fn named<C: NodesMut<u64, u64>>(
    raw: &Raw<C>,
    mark: Option<usize>,
    word: &str,
) -> Option<usize> {
    if word == "M" {
        return mark;
    }
    if word == "unused" {
        return (0..usize::MAX).find(|id| !raw.has_node(*id));
    }
    match number(word) {
        Some(id) => Some(id as usize),
        None => node(raw, word),
    }
}

/// Returns the number of the node that a word names, or none for the word `none`.
pub fn named_or_none<C: NodesMut<u64, u64>>(
    raw: &Raw<C>,
    mark: Option<usize>,
    word: &str,
) -> Option<Option<usize>> {
    if word == "none" {
        return Some(None);
    }
    Some(Some(named(raw, mark, word)?))
}

/// Returns the address that a word names: `nowhere`, or a node and an offset, such as `T02:3`.
pub fn named_address<C: NodesMut<u64, u64>>(
    raw: &Raw<C>,
    mark: Option<usize>,
    word: &str,
) -> Option<Address> {
    if word == "nowhere" {
        return Some(Address::nowhere());
    }
    let (at, index) = word.split_once(':')?;
    Some(Address::new(named(raw, mark, at)?, offset(index)?))
}

/// Adds a node: `M` if it is the marked one, or else its path.
pub fn put_name<C: NodesMut<u64, u64>>(
    reply: &mut Reply,
    raw: &Raw<C>,
    mark: Option<usize>,
    id: usize,
) {
    if mark == Some(id) {
        return reply.word("M");
    }
    put_node(reply, raw, id);
}

/// Adds an offset with no space before it.
pub(crate) fn glue_offset(reply: &mut Reply, offset: Offset) {
    match offset.value() {
        Some(index) => reply.glue_number(index as u64),
        None => reply.glue("-1"),
    }
}

/// Adds an address.
pub fn put_named<C: NodesMut<u64, u64>>(
    reply: &mut Reply,
    raw: &Raw<C>,
    mark: Option<usize>,
    addr: &Address,
) {
    if addr.is_nowhere() {
        return reply.word("nowhere");
    }
    put_name(reply, raw, mark, addr.id);
    reply.glue(":");
    glue_offset(reply, addr.offset);
}
