//! A session: a map, and commands that are run on it.
ghost use Rattle.std.specs.Prelude.{◌≡◌, [], Some, None, length, IsOk, OnOk, OnErr};
ghost use Rattle.std.specs.FinMap as map;
ghost use Rattle.std.specs.Ordering.{nat_cmp};
ghost use Rattle.btree_laws.specs.TreeState.{IsBTree, IsOccupiedIn, item_of, limited_to, pairs_of, rootless, unlimited};
ghost use Rattle.btree_raw.specs.Limit.{IsBTreeWithinLimit};
ghost use Rattle.btree_session.specs.Machine.{IsStep, Runs, value_reply};
ghost use Rattle.btree_session.specs.Text.{HasCapacityFor};

use crate::{Command, Reply};
use btree_ext::{BTreeExt, BTreeExtMut};
use btree_item::{Address, Item};
use btree_map::BTreeMap;
use btree_node::{ClearNodes, NodesMut};
use std::alloc::{AllocError, Allocator};
use std::marker::Model;

/// A map from `K` to `V` that commands are run on. It holds at most one address of the map. The commands are for a [`Session`], where
/// both are `u64`. Its calls allocate memory for nodes only.
#[derive(Drop)]
pub struct SessionOver<K: Ord, V, C: NodesMut<K, V>> {
    map: BTreeMap<K, V, C>,
    held: Option<Address>,
}

impl<K: Ord, V, C: NodesMut<K, V>> Model for SessionOver<K, V, C> {
    ghost use Rattle.std.specs.Coded.{codes};
    ghost use Rattle.btree_session.specs.Held.{Held, held_code, HoldsBack};

    ghost Value = { Held K V };

    ghost coded = { held_code (Prim.hlevel codes) };

    ghost view = { λ s. record { map = s.map; held = s.held } };

    ghost invariant = { λ s. HoldsBack s.map s.held };
}

/// A map from `u64` to `u64` that commands are run on.
pub type Session<C> = SessionOver<u64, u64, C>;

impl<C: NodesMut<u64, u64>> Session<C> {
    /// Returns a session over an empty map, with a store made from `origin`. It holds no address.
    pub fn new(origin: C::Origin) -> Self
        ensures empty { pairs_of result.map ≡ [] }
        ensures state { result.map ≡ rootless map.empty (unlimited 0) }
        ensures held { result.held ≡ None }
    {
        SessionOver {
            map: BTreeMap::new(origin),
            held: None,
        }
    }

    /// Returns a session over an empty map that has at most `limit` pairs, with a store made from `origin`. It holds no address.
    pub fn with_limit(origin: C::Origin, limit: usize) -> Self
        ensures empty { pairs_of result.map ≡ [] }
        ensures state { result.map ≡ rootless map.empty (limited_to limit) }
        ensures held { result.held ≡ None }
    {
        SessionOver {
            map: BTreeMap::with_limit(origin, limit),
            held: None,
        }
    }

    /// Returns a session over an empty map in an empty store; the store's `len` tells whether it is empty. It holds no address, and
    /// keeps the store's count of refusals.
    pub fn in_store(nodes: C) -> Self
        requires { map.len (C.content nodes) ≡ 0 }
        ensures empty { pairs_of result.map ≡ [] }
        ensures state { result.map ≡ rootless map.empty (unlimited (C.refusals nodes)) }
        ensures held { result.held ≡ None }
    {
        SessionOver {
            map: BTreeMap::in_store(nodes),
            held: None,
        }
    }

    /// Returns the map after the commands so far.
    pub fn map(&self) -> &BTreeMap<u64, u64, C>
        ensures { result.now ≡ self.now.map }
    {
        &self.map
    }

    fn insert(&mut self, key: u64, value: u64) -> Reply
        requires tree { IsBTreeWithinLimit self.old.map nat_cmp }
        ensures { IsBTree nat_cmp self.new.map →
            IsStep C.MayRefuse self.old (Command.Insert key value) result self.new }
    {
        match self.map.insert(key, value) {
            Ok(was) => {
                self.held = None;
                reply_of(was)
            }
            Err(refused) => {
                let cause = refused.cause;
                Reply::Refused(cause)
            }
        }
    }

    fn get(&self, key: u64) -> Reply
        requires tree { IsBTreeWithinLimit self.now.map nat_cmp }
        ensures { IsStep C.MayRefuse self.now (Command.Get key) result self.now }
    {
        reply_of(self.map.get(&key).copied())
    }

    fn seek(&mut self, key: u64) -> Reply
        requires tree { IsBTreeWithinLimit self.old.map nat_cmp }
        ensures { IsStep C.MayRefuse self.old (Command.Seek key) result self.new }
    {
        match self.map.address_of(&key) {
            Ok(addr) => {
                let (_, value) = pair_at(&self.map, &addr);
                self.held = Some(addr);
                Reply::Found(value)
            }
            Err(gap) => {
                self.held = Some(gap);
                Reply::Gap
            }
        }
    }

    fn next(&mut self) -> Reply
        requires tree { IsBTreeWithinLimit self.old.map nat_cmp }
        ensures { IsStep C.MayRefuse self.old Command.Next result self.new }
    {
        let Some(held) = self.held else {
            return Reply::NoPlace;
        };
        let Some(addr) = self.map.normalize(held) else {
            return Reply::Nothing;
        };
        let Some(next) = self.map.next_item_address(addr) else {
            return Reply::Nothing;
        };
        let (key, value) = pair_at(&self.map, &next);
        self.held = Some(next);
        Reply::Pair(key, value)
    }

    fn prev(&mut self) -> Reply
        requires tree { IsBTreeWithinLimit self.old.map nat_cmp }
        ensures { IsStep C.MayRefuse self.old Command.Prev result self.new }
    {
        let Some(held) = self.held else {
            return Reply::NoPlace;
        };
        let Some(previous) = self.map.previous_item_address(held) else {
            return Reply::Nothing;
        };
        let (key, value) = pair_at(&self.map, &previous);
        self.held = Some(previous);
        Reply::Pair(key, value)
    }

    fn remove(&mut self, key: u64) -> Reply
        requires tree { IsBTreeWithinLimit self.old.map nat_cmp }
        ensures { IsBTree nat_cmp self.new.map →
            IsStep C.MayRefuse self.old (Command.Remove key) result self.new }
    {
        let value = self.map.remove(&key);
        self.held = None;
        reply_of(value)
    }

    fn put(&mut self, key: u64, value: u64) -> Reply
        requires tree { IsBTreeWithinLimit self.old.map nat_cmp }
        ensures { IsBTree nat_cmp self.new.map →
            IsStep C.MayRefuse self.old (Command.Put key value) result self.new }
    {
        let Some(held) = self.held else {
            return Reply::NoPlace;
        };
        if !self.map.fits_at(held, &key) {
            return Reply::Unfit;
        }
        match self.map.insert_at(held, Item::new(key, value)) {
            Ok(addr) => {
                self.held = Some(addr);
                Reply::Done
            }
            Err(returned) => {
                let cause = returned.cause;
                Reply::Refused(cause)
            }
        }
    }

    fn take(&mut self) -> Reply
        requires tree { IsBTreeWithinLimit self.old.map nat_cmp }
        ensures { IsStep C.MayRefuse self.old Command.Take result self.new }
    {
        let Some(held) = self.held else {
            return Reply::NoPlace;
        };
        let Some(addr) = self.map.normalize(held) else {
            return Reply::Nothing;
        };
        let Some((item, after)) = self.map.remove_at(addr) else {
            unreachable!()
        };
        self.held = Some(after);
        Reply::Pair(*item.key(), *item.value())
    }
}

impl<C: ClearNodes<u64, u64>> Session<C> {
    /// Runs one command.
    pub(crate) fn execute(&mut self, command: Command) -> Reply
        ensures { IsStep C.MayRefuse self.old command result self.new }
    {
        self.map.tell_well_formed();
        let reply = self.answer(command);
        self.map.tell_well_formed();
        reply
    }

    fn answer(&mut self, command: Command) -> Reply
        requires tree { IsBTreeWithinLimit self.old.map nat_cmp }
        ensures { IsBTree nat_cmp self.new.map →
            IsStep C.MayRefuse self.old command result self.new }
    {
        match command {
            Command::Insert(key, value) => self.insert(key, value),
            Command::Get(key) => self.get(key),
            Command::Remove(key) => self.remove(key),
            Command::Clear => self.clear(),
            Command::Seek(key) => self.seek(key),
            Command::Next => self.next(),
            Command::Prev => self.prev(),
            Command::Put(key, value) => self.put(key, value),
            Command::Take => self.take(),
        }
    }

    fn clear(&mut self) -> Reply
        requires tree { IsBTreeWithinLimit self.old.map nat_cmp }
        ensures { IsBTree nat_cmp self.new.map →
            IsStep C.MayRefuse self.old Command.Clear result self.new }
    {
        self.map.clear();
        self.held = None;
        Reply::Done
    }
}

fn pair_at<C: NodesMut<u64, u64>>(map: &BTreeMap<u64, u64, C>, addr: &Address) -> (u64, u64)
    requires { IsOccupiedIn map.now addr.now }
    ensures { Some result ≡ item_of map.now addr.now }
{
    let (key, value) = map.pair_at(*addr);
    (*key, *value)
}

fn reply_of(value: Option<u64>) -> Reply
    ensures { result ≡ value_reply value }
{
    match value {
        Some(value) => Reply::Value(value),
        None => Reply::Nothing,
    }
}

/// Runs the commands in order, and appends a reply to each to `replies`.
///
/// Room for the replies is made first, and is all the memory that it allocates except for nodes. If that is refused, no command is run.
pub fn run<C: ClearNodes<u64, u64>, B: Allocator>(
    session: &mut Session<C>,
    commands: &[Command],
    replies: &mut Vec<Reply, B>,
) -> Result<(), AllocError>
    ensures answered { OnOk result (Runs C.MayRefuse
        session.old commands.now session.new replies.old replies.new) }
    ensures succeeds { HasCapacityFor replies.old (length commands.now) → IsOk result }
    ensures replies_kept { OnErr result (replies.new.items ≡ replies.old.items) }
    ensures session_kept { OnErr result (session.new ≡ session.old) }
{
    replies.reserve(commands.len())?;
    for command in commands {
        replies.push_reserved(session.execute(*command));
    }
    Ok(())
}
