//! What the lines are calls of.
use crate::build::build_by_map;
use crate::help::help;
use crate::raw_calls::{put_built, serve_raw};
use crate::session_calls::{Map, list, serve_cursor, serve_session};
use book_node_calls::{
    PlainNode, Raw, empty_leaf, put_node_text, read_item, read_node, serve_node,
};
use book_text::{Desk, Desks, Ending, Reply, serve, word};
use btree_ext::BTreeExt;
use btree_item::Item;
use btree_map::BTreeMap;
use btree_node::{ClearNodes, NodesMut};
use btree_raw::RawBTree;
use btree_session::Session;
use std::alloc::Global;
use std::{io, mem};
use test_support::Refusing;

// The numbers of nodes that are compared after a refusal.
const NUMBERS: usize = 128;

/// Two nodes in no tree, a raw tree with one of its nodes marked, a session, and a map that a cursor edits.
#[derive(Drop)]
struct Bench<C: ClearNodes<u64, u64> + Drop>
where
    C::Origin: Copy,
{
    alloc: Global,
    origin: C::Origin,
    n: PlainNode,
    m: PlainNode,
    t: Raw<C>,
    mark: Option<usize>,
    s: Session<C>,
    c: Map<C>,
}

// Serves a call of a node. A child of a node that is built is named by its number, or as a node of the tree.
fn serve_one<C: NodesMut<u64, u64>>(
    node: &mut PlainNode,
    other: &mut PlainNode,
    raw: &Raw<C>,
    mark: Option<usize>,
    words: &str,
    reply: &mut Reply,
) -> bool {
    if let Some(built) = read_node(raw, mark, words) {
        *node = built;
        reply.word("ok");
        return true;
    }
    let (verb, rest) = word(words);
    serve_node(node, other, verb, rest, reply)
}

// Puts the tree of a map with these keys in place of the raw tree.
fn from_map<C: NodesMut<u64, u64> + Drop>(
    raw: &mut Raw<C>,
    origin: C::Origin,
    keys: &str,
    reply: &mut Reply,
) -> bool {
    let is_built = build_by_map(raw, origin, keys).is_some();
    put_built(reply, is_built)
}

// Inserts a pair into a map, and adds the value that it replaces, or the refusal.
fn insert<C: NodesMut<u64, u64>>(map: &mut Map<C>, item: Item<u64, u64>, reply: &mut Reply) {
    let (key, value) = item.into_pair();
    match map.insert(key, value) {
        Ok(old) => reply.value(old),
        Err(refused) => reply.refused_pair(refused.cause, refused.key, refused.value),
    }
}

// Gives the raw tree to a map, and adds the map's list, what an insertion into the map returns, or the fault for which the tree is
// refused. Afterwards the raw tree is the map's again.
fn to_map<C: NodesMut<u64, u64> + Drop>(
    raw: &mut Raw<C>,
    origin: C::Origin,
    item: Option<Item<u64, u64>>,
    reply: &mut Reply,
) -> bool {
    let given = mem::replace(raw, RawBTree::new(origin));
    match BTreeMap::from_raw(given) {
        Ok(mut map) => {
            match item {
                Some(item) => insert(&mut map, item, reply),
                None => list(&map, reply),
            }
            *raw = map.into_raw();
        }
        Err((back, fault)) => {
            *raw = back;
            reply.validity(Err(fault));
        }
    }
    true
}

fn set_up<C: ClearNodes<u64, u64> + Drop>(alloc: Global, origin: C::Origin) -> Bench<C>
where
    C::Origin: Copy,
{
    Bench {
        alloc,
        origin,
        n: empty_leaf(),
        m: empty_leaf(),
        t: RawBTree::new(origin),
        mark: None,
        s: Session::new(origin),
        c: BTreeMap::new(origin),
    }
}

// Adds everything that calls can change in a tree: its nodes with the numbers that the store gave them, its root, its length and its limit.
fn put_content<C: NodesMut<u64, u64>>(reply: &mut Reply, raw: &Raw<C>) {
    for id in 0..NUMBERS {
        if raw.has_node(id) {
            reply.count(id);
            put_node_text(reply, raw.node(id));
        }
    }
    reply.value(raw.root_id().map(|id| id as u64));
    reply.count(raw.node_count());
    reply.count(raw.len());
    reply.count(raw.limit());
}

impl<C: ClearNodes<u64, u64> + Drop> Desk for Bench<C>
where
    C::Origin: Copy,
{
    fn call(&mut self, words: &str, reply: &mut Reply) -> bool {
        let (name, rest) = word(words);
        match name {
            "n" => serve_one(&mut self.n, &mut self.m, &self.t, self.mark, rest, reply),
            "m" => serve_one(&mut self.m, &mut self.n, &self.t, self.mark, rest, reply),
            "t" => match (rest, rest.strip_prefix("from_map ")) {
                ("to_map", _) => to_map(&mut self.t, self.origin, None, reply),
                (_, Some(keys)) => from_map(&mut self.t, self.origin, keys, reply),
                _ => match rest.strip_prefix("to_map insert ") {
                    Some(pair) => match read_item(pair) {
                        Some(item) => to_map(&mut self.t, self.origin, Some(item), reply),
                        None => false,
                    },
                    None => serve_raw(&mut self.t, &mut self.mark, self.alloc, rest, reply),
                },
            },
            "s" => serve_session(&mut self.s, self.alloc, rest, reply),
            "c" => serve_cursor(&mut self.c, self.alloc, rest, reply),
            "help" => {
                help(reply);
                true
            }
            "new" => {
                self.n = empty_leaf();
                self.m = empty_leaf();
                self.t = RawBTree::new(self.origin);
                self.mark = None;
                self.s = Session::new(self.origin);
                self.c = BTreeMap::new(self.origin);
                reply.word("ok");
                true
            }
            _ => false,
        }
    }

    fn content(&self, reply: &mut Reply) {
        put_content(reply, &self.t);
        reply.value(self.mark.map(|id| id as u64));
        put_content(reply, self.s.map().as_raw());
        put_content(reply, self.c.as_raw());
        put_node_text(reply, &self.n);
        put_node_text(reply, &self.m);
    }
}

/// Serves the lines of standard input, on stores from these origins.
pub(crate) fn serve_stores<C: ClearNodes<u64, u64> + Drop, D: ClearNodes<u64, u64> + Drop>(
    rt: &(impl Print + Input + AllocGlobal),
    memory: &Refusing<Global>,
    plain: C::Origin,
    refusing: D::Origin,
) -> Result<(), Ending>
where
    C::Origin: Copy,
    D::Origin: Copy,
{
    let plain: Bench<C> = set_up(rt.alloc(), plain);
    let refusing: Bench<D> = set_up(rt.alloc(), refusing);
    let mut desks = Desks {
        plain,
        refusing,
        is_refusing: false,
    };
    let (mut input, mut output) = (rt.reader(), io::writer(rt));
    serve(rt.alloc(), memory, &mut desks, &mut input, &mut output)
}
