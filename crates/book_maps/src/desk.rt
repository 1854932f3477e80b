//! What the lines are calls of.
use crate::help::help;
use crate::in_turn::in_turn;
use crate::loops::serve_loops;
use crate::merges::serve_merges;
use crate::sets::{put_set, serve_sets};
use book_map_calls::{put_map, serve_map};
use book_text::{Desk, Desks, Ending, Reply, serve, word};
use btree_map::BTreeMap;
use btree_node::{ClearNodes, CloneNodes, NodesMut};
use btree_set::BTreeSet;
use std::alloc::Global;
use std::io;
use test_support::Refusing;

/// Two maps and two sets, and from what stores are made: theirs, and others for comparisons and merges over two kinds of stores.
#[derive(Drop)]
struct Things<
    C: ClearNodes<u64, u64> + Drop,
    D: ClearNodes<u64, ()> + Drop,
    E: NodesMut<u64, u64>,
    F: NodesMut<u64, ()>,
>
where
    C::Origin: Copy,
    D::Origin: Copy,
    E::Origin: Copy,
    F::Origin: Copy,
{
    alloc: Global,
    maps: (C::Origin, E::Origin),
    sets: (D::Origin, F::Origin),
    a: BTreeMap<u64, u64, C>,
    b: BTreeMap<u64, u64, C>,
    p: BTreeSet<u64, D>,
    q: BTreeSet<u64, D>,
}

/// A desk, and the memory under what is on it.
#[derive(Drop)]
struct Watched<'m, D: Drop> {
    alloc: Global,
    memory: &'m Refusing<Global>,
    desk: D,
}

fn serve_pair<C: ClearNodes<u64, u64> + CloneNodes<u64, u64> + Drop, E: NodesMut<u64, u64> + Drop>(
    alloc: Global,
    origins: (C::Origin, E::Origin),
    map: &mut BTreeMap<u64, u64, C>,
    other: &mut BTreeMap<u64, u64, C>,
    words: &str,
    reply: &mut Reply,
) -> bool
where
    C::Origin: Copy,
    E::Origin: Copy,
{
    serve_map::<C, E>(alloc, origins, map, other, words, reply)
        || serve_loops(alloc, map, other, words, reply)
}

fn serve_set<D: ClearNodes<u64, ()> + CloneNodes<u64, ()> + Drop, F: NodesMut<u64, ()> + Drop>(
    alloc: Global,
    origins: (D::Origin, F::Origin),
    set: &mut BTreeSet<u64, D>,
    other: &mut BTreeSet<u64, D>,
    words: &str,
    reply: &mut Reply,
) -> bool
where
    D::Origin: Copy,
    F::Origin: Copy,
{
    let (verb, rest) = word(words);
    serve_sets(set, verb, rest, reply)
        || serve_merges::<D, F>(alloc, origins, set, other, verb, rest, reply)
}

impl<
    C: ClearNodes<u64, u64> + CloneNodes<u64, u64> + Drop,
    D: ClearNodes<u64, ()> + CloneNodes<u64, ()> + Drop,
    E: NodesMut<u64, u64> + Drop,
    F: NodesMut<u64, ()> + Drop,
> Desk for Things<C, D, E, F>
where
    C::Origin: Copy,
    D::Origin: Copy,
    E::Origin: Copy,
    F::Origin: Copy,
{
    fn call(&mut self, words: &str, reply: &mut Reply) -> bool {
        let (name, rest) = word(words);
        let (alloc, maps, sets) = (self.alloc, self.maps, self.sets);
        match name {
            "a" => serve_pair::<C, E>(alloc, maps, &mut self.a, &mut self.b, rest, reply),
            "b" => serve_pair::<C, E>(alloc, maps, &mut self.b, &mut self.a, rest, reply),
            "p" => serve_set::<D, F>(alloc, sets, &mut self.p, &mut self.q, rest, reply),
            "q" => serve_set::<D, F>(alloc, sets, &mut self.q, &mut self.p, rest, reply),
            "help" => {
                help(reply);
                true
            }
            "new" => {
                self.a = BTreeMap::new(maps.0);
                self.b = BTreeMap::new(maps.0);
                self.p = BTreeSet::new(sets.0);
                self.q = BTreeSet::new(sets.0);
                reply.word("ok");
                true
            }
            _ => false,
        }
    }

    fn content(&self, reply: &mut Reply) {
        put_map(&self.a, reply);
        reply.count(self.a.limit());
        put_map(&self.b, reply);
        reply.count(self.b.limit());
        put_set(&self.p, reply);
        reply.count(self.p.node_count());
        put_set(&self.q, reply);
        reply.count(self.q.node_count());
    }
}

impl<D: Desk + Drop> Desk for Watched<'_, D> {
    fn call(&mut self, words: &str, reply: &mut Reply) -> bool {
        match words.strip_prefix("in_turn ") {
            Some(rest) => in_turn(self.alloc, self.memory, &mut self.desk, rest, reply),
            None => self.desk.call(words, reply),
        }
    }

    fn content(&self, reply: &mut Reply) {
        self.desk.content(reply);
    }
}

fn set_out<
    C: ClearNodes<u64, u64> + Drop,
    D: ClearNodes<u64, ()> + Drop,
    E: NodesMut<u64, u64>,
    F: NodesMut<u64, ()>,
>(alloc: Global, maps: (C::Origin, E::Origin), sets: (D::Origin, F::Origin)) -> Things<C, D, E, F>
where
    C::Origin: Copy,
    D::Origin: Copy,
    E::Origin: Copy,
    F::Origin: Copy,
{
    Things {
        alloc,
        maps,
        sets,
        a: BTreeMap::new(maps.0),
        b: BTreeMap::new(maps.0),
        p: BTreeSet::new(sets.0),
        q: BTreeSet::new(sets.0),
    }
}

/// Serves the lines of standard input, on stores from these origins.
pub(crate) fn serve_stores<
    C: ClearNodes<u64, u64> + CloneNodes<u64, u64> + Drop,
    D: ClearNodes<u64, ()> + CloneNodes<u64, ()> + Drop,
    E: ClearNodes<u64, u64> + CloneNodes<u64, u64> + Drop,
    F: ClearNodes<u64, ()> + CloneNodes<u64, ()> + Drop,
>(
    rt: &(impl Print + Input + AllocGlobal),
    memory: &Refusing<Global>,
    plain: (C::Origin, D::Origin),
    refusing: (E::Origin, F::Origin),
) -> Result<(), Ending>
where
    C::Origin: Copy,
    D::Origin: Copy,
    E::Origin: Copy,
    F::Origin: Copy,
{
    let alloc = rt.alloc();
    let (maps, sets) = ((plain.0, refusing.0), (plain.1, refusing.1));
    let plain: Things<C, D, E, F> = set_out(alloc, maps, sets);
    let (maps, sets) = ((maps.1, maps.0), (sets.1, sets.0));
    let desk: Things<E, F, C, D> = set_out(alloc, maps, sets);
    let refusing = Watched {
        alloc,
        memory,
        desk,
    };
    let mut desks = Desks {
        plain,
        refusing,
        is_refusing: false,
    };
    let (mut input, mut output) = (rt.reader(), io::writer(rt));
    serve(alloc, memory, &mut desks, &mut input, &mut output)
}
