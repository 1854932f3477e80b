//! The calls of a raw tree, by their words.
use crate::build::{build, build_tower, put_counts};
use crate::everywhere::{Plan, rebalance_everywhere};
use crate::insertion::insert_exactly_at;
use crate::raws::{
    allocate_node, print, put_node_at, put_place, rebalance, release_node,
    remove_rightmost_leaf_of, set_parent, validate_node, write_node,
};
use book_node_calls::{
    Raw, named, named_address, named_or_none, put_item, read_item, read_node, read_separators,
};
use book_text::{Reply, draw, number, put_node, shape, word};
use btree_item::Address;
use btree_node::{ClearNodes, NodesMut};
use std::alloc::Global;

// Adds the path of the marked node, or `none` if there is no such node.
fn put_marked<C: NodesMut<u64, u64>>(raw: &Raw<C>, mark: Option<usize>, reply: &mut Reply) {
    match mark {
        Some(id) if raw.has_node(id) => put_node(reply, raw, id),
        _ => reply.word("none"),
    }
}

// Serves a call of a word alone.
fn ask<C: NodesMut<u64, u64>>(
    raw: &Raw<C>,
    mark: Option<usize>,
    verb: &str,
    reply: &mut Reply,
) -> bool {
    match verb {
        "shape" => shape(reply, raw),
        "counts" => put_counts(reply, raw),
        "draw" => draw(reply, raw),
        "len" => reply.count(raw.len()),
        "limit" => reply.count(raw.limit()),
        "nodes" => reply.count(raw.node_count()),
        "root_id" => match raw.root_id() {
            Some(root) => put_node(reply, raw, root),
            None => reply.word("none"),
        },
        "marked" => put_marked(raw, mark, reply),
        "validate" => reply.validity(raw.validate()),
        _ => return false,
    }
    true
}

/// Adds `ok`, or that a text or a number was not taken.
pub(crate) fn put_built(reply: &mut Reply, is_built: bool) -> bool {
    reply.word(if is_built { "ok" } else { "not built" });
    true
}

// Serves a call that makes another tree, or sets what is not in a node.
fn serve_making<C: ClearNodes<u64, u64>>(
    raw: &mut Raw<C>,
    alloc: Global,
    verb: &str,
    rest: &str,
    reply: &mut Reply,
) -> bool {
    match (verb, number(rest)) {
        ("build", _) => {
            let is_built = build(raw, alloc, rest);
            put_built(reply, is_built)
        }
        ("tower", Some(levels)) => {
            let is_built = build_tower(raw, levels).is_some();
            put_built(reply, is_built)
        }
        ("set_len", Some(len)) => {
            raw.set_len(len as usize);
            put_built(reply, true)
        }
        ("set_limit", Some(limit)) => {
            raw.set_limit(limit as usize);
            put_built(reply, true)
        }
        ("clear", _) if rest == "" => {
            raw.clear();
            put_built(reply, true)
        }
        _ => false,
    }
}

// Serves a call of a node alone.
fn serve_node_call<C: NodesMut<u64, u64>>(
    raw: &mut Raw<C>,
    mark: &mut Option<usize>,
    verb: &str,
    id: usize,
    reply: &mut Reply,
) -> bool {
    match verb {
        "has_node" => reply.truth(raw.has_node(id)),
        "node" => put_node_at(raw, *mark, id, reply),
        "is_off_by_one" => reply.truth(raw.is_off_by_one(id)),
        "release_node" => release_node(raw, *mark, id, reply),
        "remove_rightmost_leaf_of" => remove_rightmost_leaf_of(raw, *mark, id, reply),
        "set_root_id" => {
            raw.set_root_id(Some(id));
            reply.word("ok")
        }
        "mark" => {
            *mark = Some(id);
            reply.word("ok")
        }
        _ => return false,
    }
    true
}

// Serves a comparison of a node with the parent and the separators that a text names.
fn serve_validation<C: NodesMut<u64, u64>>(
    raw: &Raw<C>,
    mark: Option<usize>,
    id: usize,
    text: &str,
    reply: &mut Reply,
) -> bool {
    let (parent, rest) = word(text);
    let (Some(parent), Some((min, max))) = (named_or_none(raw, mark, parent), read_separators(rest))
    else {
        return false;
    };
    validate_node(raw, id, parent, min, max, reply);
    true
}

// Serves a call of a node and of more words.
fn serve_node_words<C: NodesMut<u64, u64>>(
    raw: &mut Raw<C>,
    mark: Option<usize>,
    verb: &str,
    id: usize,
    more: &str,
    reply: &mut Reply,
) -> bool {
    match verb {
        "set_parent" => match named_or_none(raw, mark, more) {
            Some(parent) => set_parent(raw, id, parent, reply),
            None => return false,
        },
        "rebalance" => match named_address(raw, mark, more) {
            Some(addr) => rebalance(raw, mark, id, addr, reply),
            None => return false,
        },
        "node_mut" => match read_node(raw, mark, more) {
            Some(node) => write_node(raw, id, node, reply),
            None => return false,
        },
        "validate_node" => return serve_validation(raw, mark, id, more, reply),
        _ => return false,
    }
    true
}

// Serves a call of an address alone.
fn serve_address<C: NodesMut<u64, u64>>(
    raw: &Raw<C>,
    alloc: Global,
    verb: &str,
    addr: Address,
    reply: &mut Reply,
) -> bool {
    match verb {
        "is_valid" => reply.truth(raw.is_valid(addr)),
        "item" => put_item(reply, raw.item(addr)),
        "place" => put_place(raw, addr, reply),
        "print" => print(alloc, addr, reply),
        _ => return false,
    }
    true
}

// Serves an insertion at exactly an address of what a text names.
fn serve_insertion<C: NodesMut<u64, u64>>(
    raw: &mut Raw<C>,
    mark: Option<usize>,
    addr: Address,
    text: &str,
    reply: &mut Reply,
) -> bool {
    let (item, child) = word(text);
    let Some(item) = read_item(item) else {
        return false;
    };
    if child == "" {
        insert_exactly_at(raw, mark, addr, item, None, reply);
        return true;
    }
    match named(raw, mark, child) {
        Some(child) => {
            insert_exactly_at(raw, mark, addr, item, Some(child), reply);
            true
        }
        None => false,
    }
}

// Serves a call that does something for each address of a tree.
fn serve_everywhere<C: ClearNodes<u64, u64>>(
    raw: &mut Raw<C>,
    alloc: Global,
    rest: &str,
    is_listed: bool,
    reply: &mut Reply,
) -> bool {
    let (node, text) = word(rest);
    let plan = Plan {
        node,
        text,
        len: raw.len(),
        is_listed,
    };
    rebalance_everywhere(raw, alloc, plan, reply);
    true
}

// Serves a call that names a node or an address first.
fn serve_at<C: NodesMut<u64, u64>>(
    raw: &mut Raw<C>,
    mark: &mut Option<usize>,
    alloc: Global,
    verb: &str,
    rest: &str,
    reply: &mut Reply,
) -> bool {
    let (first, more) = word(rest);
    if let Some(id) = named(raw, *mark, first) {
        if more == "" {
            return serve_node_call(raw, mark, verb, id, reply);
        }
        return serve_node_words(raw, *mark, verb, id, more, reply);
    }
    match named_address(raw, *mark, first) {
        Some(addr) if more == "" => serve_address(raw, alloc, verb, addr, reply),
        Some(addr) if verb == "insert_exactly_at" => {
            serve_insertion(raw, *mark, addr, more, reply)
        }
        _ => false,
    }
}

/// Serves a call of a raw tree. Returns whether the words are one.
pub(crate) fn serve_raw<C: ClearNodes<u64, u64>>(
    raw: &mut Raw<C>,
    mark: &mut Option<usize>,
    alloc: Global,
    words: &str,
    reply: &mut Reply,
) -> bool {
    let (verb, rest) = word(words);
    if rest == "" && ask(raw, *mark, verb, reply) {
        return true;
    }
    if serve_making(raw, alloc, verb, rest, reply) {
        return true;
    }
    match verb {
        "allocate_node" => match read_node(raw, *mark, rest) {
            Some(node) => {
                allocate_node(raw, mark, node, reply);
                true
            }
            None => false,
        },
        "set_root_id" if rest == "none" => {
            raw.set_root_id(None);
            put_built(reply, true)
        }
        "rebalance_each" => serve_everywhere(raw, alloc, rest, true, reply),
        "rebalance_everywhere" => serve_everywhere(raw, alloc, rest, false, reply),
        _ => serve_at(raw, mark, alloc, verb, rest, reply),
    }
}
