//! Steps of an editing cursor, run one after another.
ghost use Rattle.std.specs.Prelude.{◌≡◌, [], Some, IsOk, OnErr, OnOk, length};
ghost use Rattle.btree_session.specs.CursorMachine.{RunsCursor, Steps};
ghost use Rattle.btree_session.specs.Text.{HasCapacityFor};

use crate::Reply;
use btree_map::{BTreeMap, EntriesMut};
use btree_node::NodesMut;
use std::alloc::{AllocError, Allocator};

/// A step of an editing cursor over a map from `u64` to `u64`.
#[derive(Clone, Copy, Debug, PartialEq, Eq)]
pub enum CursorStep {
    /// Show the first pair that is left.
    Peek,
    /// Pass it.
    Next,
    /// Insert a pair where the cursor is.
    Insert(u64, u64),
    /// Remove the first pair that is left.
    Remove,
}

fn peek<C: NodesMut<u64, u64>>(entries: &EntriesMut<'_, u64, u64, C>) -> Reply
    ensures { Steps C.MayRefuse entries.now CursorStep.Peek result entries.now }
{
    match entries.peek() {
        Some(item) => Reply::Pair(*item.key(), *item.value()),
        None => Reply::Nothing,
    }
}

fn next<C: NodesMut<u64, u64>>(entries: &mut EntriesMut<'_, u64, u64, C>) -> Reply
    ensures same_map { entries.new.map.ghost_name ≡ entries.old.map.ghost_name }
    ensures step { Steps C.MayRefuse entries.old CursorStep.Next result entries.new }
{
    if entries.is_empty() {
        return Reply::Nothing;
    }
    let (key, value) = entries.next_pair();
    Reply::Pair(*key, *value)
}

fn insert<C: NodesMut<u64, u64>>(
    entries: &mut EntriesMut<'_, u64, u64, C>,
    key: u64,
    value: u64,
) -> Reply
    ensures same_map { entries.new.map.ghost_name ≡ entries.old.map.ghost_name }
    ensures step { Steps C.MayRefuse entries.old (CursorStep.Insert key value) result entries.new }
{
    if !entries.fits(&key) {
        return Reply::Unfit;
    }
    match entries.insert(key, value) {
        Ok(()) => Reply::Done,
        Err(refused) => {
            let cause = refused.cause;
            Reply::Refused(cause)
        }
    }
}

fn remove<C: NodesMut<u64, u64>>(entries: &mut EntriesMut<'_, u64, u64, C>) -> Reply
    ensures same_map { entries.new.map.ghost_name ≡ entries.old.map.ghost_name }
    ensures step { Steps C.MayRefuse entries.old CursorStep.Remove result entries.new }
{
    match entries.remove() {
        Some(item) => Reply::Pair(*item.key(), *item.value()),
        None => Reply::Nothing,
    }
}

// Takes one step. It allocates no memory except for nodes.
fn take_step<C: NodesMut<u64, u64>>(
    entries: &mut EntriesMut<'_, u64, u64, C>,
    step: CursorStep,
) -> Reply
    ensures same_map { entries.new.map.ghost_name ≡ entries.old.map.ghost_name }
    ensures step { Steps C.MayRefuse entries.old step result entries.new }
{
    match step {
        CursorStep::Peek => peek(entries),
        CursorStep::Next => next(entries),
        CursorStep::Insert(key, value) => insert(entries, key, value),
        CursorStep::Remove => remove(entries),
    }
}

/// Runs the steps in order by one editing cursor over the map, which begins before the first pair, and appends a reply to each to `replies`:
/// `Pair` or `Nothing` to `Peek`, `Next` and `Remove`, and `Done`, `Unfit` or `Refused` to `Insert`.
///
/// Room for the replies is made first, and is all the memory that it allocates except for nodes. If that is refused, no step is run.
pub fn run_cursor<C: NodesMut<u64, u64>, B: Allocator>(
    map: &mut BTreeMap<u64, u64, C>,
    steps: &[CursorStep],
    replies: &mut Vec<Reply, B>,
) -> Result<(), AllocError>
    ensures answered { OnOk result (RunsCursor C.MayRefuse
        map.old steps.now map.new replies.old replies.new) }
    ensures succeeds { HasCapacityFor replies.old (length steps.now) → IsOk result }
    ensures replies_kept { OnErr result (replies.new.items ≡ replies.old.items) }
    ensures map_kept { OnErr result (map.new ≡ map.old) }
{
    replies.reserve(steps.len())?;
    let mut entries = map.entries_mut();
    for step in steps {
        replies.push_reserved(take_step(&mut entries, *step));
    }
    Ok(())
}
