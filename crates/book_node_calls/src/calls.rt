//! The calls of a node, by their words.
use crate::asks::{ask, ask_number, number_or_none, read_separators, validate};
use crate::edits::{insert, put_at, put_by_key, take_at, take_end};
use crate::ends::{append, merge, push, serve_both};
use crate::text::{PlainNode, read_item};
use book_text::{Reply, number, offset, pair, two_numbers, word};

// Serves a call of one word after the verb.
fn serve_word(
    node: &mut PlainNode,
    other: &mut PlainNode,
    verb: &str,
    word: &str,
    reply: &mut Reply,
) -> bool {
    if verb == "set_parent" {
        let Some(parent) = number_or_none(word) else {
            return false;
        };
        node.set_parent(parent.map(|id| id as usize));
        reply.word("ok");
        return true;
    }
    if let Some((key, value)) = pair(word) {
        if put_by_key(node, verb, key, value, reply) {
            return true;
        }
    }
    if let Some(item) = read_item(word) {
        if verb == "append" {
            append(node, other, item, reply);
            return true;
        }
        return push(node, verb, item, None, reply);
    }
    if let Some(offset) = offset(word)
        && take_at(node, verb, offset, reply)
    {
        return true;
    }
    match number(word) {
        Some(number) => ask_number(node, verb, number, reply),
        None => false,
    }
}

// Serves a call of an offset, an item, and in an internal node a child.
fn serve_insertion(
    node: &mut PlainNode,
    verb: &str,
    first: &str,
    rest: &str,
    reply: &mut Reply,
) -> bool {
    let (second, third) = word(rest);
    let (Some(offset), Some(item)) = (offset(first), read_item(second)) else {
        return false;
    };
    if third == "" {
        return put_at(node, verb, offset, item, reply);
    }
    match number(third) {
        Some(child) if verb == "insert" => {
            insert(node, offset, item, Some(child as usize), reply);
            true
        }
        _ => false,
    }
}

/// Serves a call of a node. Returns whether the words are one.
pub fn serve_node(
    node: &mut PlainNode,
    other: &mut PlainNode,
    verb: &str,
    rest: &str,
    reply: &mut Reply,
) -> bool {
    if rest == "" {
        return ask(node, verb, reply)
            || take_end(node, verb, reply)
            || serve_both(node, other, verb, reply);
    }
    let (first, more) = word(rest);
    if more == "" {
        return serve_word(node, other, verb, first, reply);
    }
    if verb == "validate" {
        let (Some(parent), Some((min, max))) = (number_or_none(first), read_separators(more)) else {
            return false;
        };
        validate(node, parent, min, max, reply);
        return true;
    }
    if verb == "merge" {
        let Some((left, right)) = two_numbers(rest) else {
            return false;
        };
        merge(node, left as usize, right as usize, reply);
        return true;
    }
    if let (Some(item), Some(child)) = (read_item(first), number(more)) {
        return push(node, verb, item, Some(child as usize), reply);
    }
    serve_insertion(node, verb, first, more, reply)
}
