//! Questions about a session's map, and their answers as text.
ghost use Rattle.std.specs.Prelude.{◌≤◌, vec_capacity, OnOk, OnErr};
ghost use Rattle.btree_laws.specs.TreeState.{node_map, pairs_of};
ghost use Rattle.btree_session.specs.Answer.{Answers, IsAnswer, LacksRoomToAnswer, list_text, leaf_text, shape_under, answer_text};
ghost use Rattle.btree_session.specs.Text.{Grows, LacksRoomFor, Pushes};

use crate::text::{push_key, push_number, push_pair, push_text};
use btree_ext::BTreeExt;
use btree_leaf::LeafNode;
use btree_map::BTreeMap;
use btree_node::{Node, NodesMut};
use std::alloc::AllocError;

/// A question that a line may ask about the map. It changes nothing.
#[derive(Clone, Copy, Debug, PartialEq, Eq)]
pub(crate) enum Question {
    /// The pairs.
    List,
    /// How many pairs there are.
    Len,
    /// How many nodes there are.
    Nodes,
    /// Which keys are in which node.
    Shape,
}

/// Appends the answer to the text, on a line of its own. If memory for it is refused, part of it may be there.
pub(crate) fn push_answer_line<C: NodesMut<u64, u64>>(
    map: &BTreeMap<u64, u64, C>,
    question: Question,
    text: &mut Vec<u8>,
) -> Result<(), AllocError>
    ensures put { OnOk result (Answers map.now question text.old text.new) }
    ensures kept { OnErr result (Grows text.old.items text.new.items) }
    ensures full { OnErr result (LacksRoomToAnswer map.now question text.old) }
{
    push_answer(map, question, text)?;
    push_text(text, b"\n")
}

fn push_answer<C: NodesMut<u64, u64>>(
    map: &BTreeMap<u64, u64, C>,
    question: Question,
    text: &mut Vec<u8>,
) -> Result<(), AllocError>
    ensures answer { IsAnswer map.now question (answer_text map.now question) }
    ensures put { OnOk result (Pushes text.old text.new (answer_text map.now question)) }
    ensures kept { OnErr result (Grows text.old.items text.new.items) }
    ensures full { OnErr result (LacksRoomFor text.old (answer_text map.now question)) }
    ensures capacity { vec_capacity text.old ≤ vec_capacity text.new }
{
    let root = map.root_id();
    match question {
        Question::List => push_list(map, text),
        Question::Len => push_number(text, map.len() as u64),
        Question::Nodes => push_number(text, map.node_count() as u64),
        Question::Shape => match root {
            Some(root) => push_shape(map, map.len(), root, text),
            None => push_text(text, b"()"),
        },
    }
}

fn push_list<C: NodesMut<u64, u64>>(
    map: &BTreeMap<u64, u64, C>,
    text: &mut Vec<u8>,
) -> Result<(), AllocError>
    ensures put { OnOk result (Pushes text.old text.new (list_text (pairs_of map.now))) }
    ensures kept { OnErr result (Grows text.old.items text.new.items) }
    ensures full { OnErr result (LacksRoomFor text.old (list_text (pairs_of map.now))) }
    ensures capacity { vec_capacity text.old ≤ vec_capacity text.new }
{
    if map.is_empty() {
        return push_text(text, b"empty");
    }
    let mut before = b"".as_slice();
    for (key, value) in map.iter() {
        push_pair(text, before, *key, *value)?;
        before = b" ".as_slice();
    }
    Ok(())
}

// Appends the text of a node and of those below it, down to at most `levels` levels. In a well formed tree as many levels as pairs
// suffice, and each number is used.
fn push_shape<C: NodesMut<u64, u64>>(
    map: &BTreeMap<u64, u64, C>,
    levels: usize,
    id: usize,
    text: &mut Vec<u8>,
) -> Result<(), AllocError>
    ensures put { OnOk result (Pushes text.old text.new (shape_under (node_map map.now) levels id)) }
    ensures kept { OnErr result (Grows text.old.items text.new.items) }
    ensures full { OnErr result (LacksRoomFor
        text.old (shape_under (node_map map.now) levels id)) }
    ensures capacity { vec_capacity text.old ≤ vec_capacity text.new }
{
    if levels == 0 || !map.has_node(id) {
        return Ok(());
    }
    let node = match map.node(id) {
        Node::Leaf(leaf) => return push_leaf(leaf, text),
        Node::Internal(node) => node,
    };
    push_text(text, b"(")?;
    push_shape(map, levels - 1, node.first_child_id(), text)?;
    for branch in node.branches().iter() {
        push_key(text, b" ", *branch.item.key(), b" ")?;
        push_shape(map, levels - 1, branch.child, text)?;
    }
    push_text(text, b")")
}

fn push_leaf(leaf: &LeafNode<u64, u64>, text: &mut Vec<u8>) -> Result<(), AllocError>
    ensures put { OnOk result (Pushes text.old text.new (leaf_text leaf.now.items)) }
    ensures kept { OnErr result (Grows text.old.items text.new.items) }
    ensures full { OnErr result (LacksRoomFor text.old (leaf_text leaf.now.items)) }
    ensures capacity { vec_capacity text.old ≤ vec_capacity text.new }
{
    push_text(text, b"(")?;
    let mut before = b"".as_slice();
    for item in leaf.iter() {
        push_key(text, before, *item.key(), b"")?;
        before = b" ".as_slice();
    }
    push_text(text, b")")
}
