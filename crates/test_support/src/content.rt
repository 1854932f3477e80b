use btree_item::Offset;
use btree_node::{Node, NodesMut};
use btree_raw::RawBTree;
use std::alloc::Global;
use std::test::Fail;

// Writes one node: its number and its parent's, its keys and values, and its children.
fn write_node(text: &mut String, node: &Node<u64, u64>, id: usize) -> Result<(), Fail> {
    match node.parent() {
        Some(parent) => write!(text, "{id} under {parent}:")?,
        None => write!(text, "{id}:")?,
    }
    for index in 0..node.item_count() {
        if let Some(item) = node.item(Offset::from(index)) {
            write!(text, " {}={}", item.key(), item.value())?;
        }
    }
    for index in 0..node.child_count() {
        if let Some(child) = node.child_id_opt(index) {
            write!(text, " [{child}]")?;
        }
    }
    text.push('\n')?;
    Ok(())
}

/// Returns a whole tree as text: the nodes of its store by their numbers, those below 64. It fails if there is no memory for the text.
pub fn content_of<C: NodesMut<u64, u64>>(
    raw: &RawBTree<u64, u64, C>,
    alloc: Global,
) -> Result<String, Fail> {
    let mut text = String::new(alloc);
    for id in 0..64 {
        if raw.has_node(id) {
            write_node(&mut text, raw.node(id), id)?;
        }
    }
    match raw.root_id() {
        Some(root) => write!(text, "root {root}")?,
        None => text.push_str("no root")?,
    }
    write!(text, ", {} nodes, length {}", raw.node_count(), raw.len())?;
    Ok(text)
}
