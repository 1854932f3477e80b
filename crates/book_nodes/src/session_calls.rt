//! The calls of a session, and of a map that a cursor edits.
use crate::commands::{put_replies, put_written, read_commands, read_lines, read_steps};
use book_text::{Reply, shape, word};
use btree_ext::BTreeExt;
use btree_map::BTreeMap;
use btree_node::{ClearNodes, NodesMut};
use btree_session::{Session, drive, run, run_cursor};
use std::alloc::{AllocError, Global};

/// A map.
pub(crate) type Map<C> = BTreeMap<u64, u64, C>;

/// Adds the list of a map.
pub(crate) fn list<C: NodesMut<u64, u64>>(map: &Map<C>, reply: &mut Reply) {
    if map.is_empty() {
        return reply.word("empty");
    }
    for (key, value) in map.iter() {
        reply.pair(*key, *value);
    }
}

// Serves a call that changes nothing.
fn ask<C: NodesMut<u64, u64>>(map: &Map<C>, verb: &str, reply: &mut Reply) -> bool {
    match verb {
        "list" => list(map, reply),
        "shape" => shape(reply, map.as_raw()),
        "nodes" => reply.count(map.node_count()),
        "len" => reply.count(map.len()),
        "validate" => reply.validity(map.validate()),
        _ => return false,
    }
    true
}

fn run_commands<C: ClearNodes<u64, u64>>(
    session: &mut Session<C>,
    alloc: Global,
    text: &str,
    reply: &mut Reply,
) -> Result<bool, AllocError> {
    let Some(commands) = read_commands(alloc, text)? else {
        return Ok(false);
    };
    let mut replies: Vec<btree_session::Reply> = Vec::new(alloc);
    run(session, commands.as_slice(), &mut replies)?;
    put_replies(reply, replies.as_slice());
    Ok(true)
}

fn drive_lines<C: ClearNodes<u64, u64>>(
    session: &mut Session<C>,
    alloc: Global,
    text: &str,
    reply: &mut Reply,
) -> bool {
    let lines = read_lines(alloc, text);
    let Some(Some(lines)) = reply.granted(lines) else {
        return false;
    };
    let (mut input, mut output) = (lines.as_slice(), Vec::new(alloc));
    let end = drive(alloc, session, &mut input, &mut output);
    put_written(reply, output.as_slice(), end);
    true
}

/// Serves a call of a session. Returns whether the words are one.
pub(crate) fn serve_session<C: ClearNodes<u64, u64>>(
    session: &mut Session<C>,
    alloc: Global,
    words: &str,
    reply: &mut Reply,
) -> bool {
    let (verb, rest) = word(words);
    match verb {
        "run" => {
            let done = run_commands(session, alloc, rest, reply);
            reply.granted(done).unwrap_or(false)
        }
        "drive" => drive_lines(session, alloc, rest, reply),
        _ if rest == "" => ask(session.map(), verb, reply),
        _ => false,
    }
}

fn take_steps<C: NodesMut<u64, u64>>(
    map: &mut Map<C>,
    alloc: Global,
    text: &str,
    reply: &mut Reply,
) -> Result<bool, AllocError> {
    let Some(steps) = read_steps(alloc, text)? else {
        return Ok(false);
    };
    let mut replies: Vec<btree_session::Reply> = Vec::new(alloc);
    run_cursor(map, steps.as_slice(), &mut replies)?;
    put_replies(reply, replies.as_slice());
    Ok(true)
}

/// Serves a call of a map that a cursor edits. Returns whether the words are one.
pub(crate) fn serve_cursor<C: NodesMut<u64, u64>>(
    map: &mut Map<C>,
    alloc: Global,
    words: &str,
    reply: &mut Reply,
) -> bool {
    let (verb, rest) = word(words);
    match verb {
        "run" => {
            let done = take_steps(map, alloc, rest, reply);
            reply.granted(done).unwrap_or(false)
        }
        _ if rest == "" => ask(map, verb, reply),
        _ => false,
    }
}
