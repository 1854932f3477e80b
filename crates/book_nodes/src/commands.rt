//! Commands and steps of sessions as words, their replies, and lines of text with escapes.
use book_text::{Reply, number, pair, word};
use btree_item::Cause;
use btree_session::{Command, CursorStep, Stop};
use std::alloc::{AllocError, Global};
use std::str;

// Returns the command that a text such as `insert 3=30` or `next` names.
fn read_command(text: &str) -> Option<Command> {
    let (verb, rest) = word(text);
    match (verb, pair(rest), number(rest)) {
        ("insert", Some((key, value)), _) => Some(Command::Insert(key, value)),
        ("put", Some((key, value)), _) => Some(Command::Put(key, value)),
        ("get", _, Some(key)) => Some(Command::Get(key)),
        ("remove", _, Some(key)) => Some(Command::Remove(key)),
        ("seek", _, Some(key)) => Some(Command::Seek(key)),
        ("clear", None, None) => Some(Command::Clear),
        ("next", None, None) => Some(Command::Next),
        ("prev", None, None) => Some(Command::Prev),
        ("take", None, None) => Some(Command::Take),
        _ => None,
    }
}

// Returns the step that a text such as `insert 3=30` or `peek` names.
fn read_step(text: &str) -> Option<CursorStep> {
    let (verb, rest) = word(text);
    match (verb, pair(rest)) {
        ("insert", Some((key, value))) => Some(CursorStep::Insert(key, value)),
        ("peek", None) => Some(CursorStep::Peek),
        ("next", None) => Some(CursorStep::Next),
        ("remove", None) => Some(CursorStep::Remove),
        _ => None,
    }
}

/// Returns the commands of a text, with a comma between them, or `None` if one is none.
pub(crate) fn read_commands(alloc: Global, text: &str) -> Result<Option<Vec<Command>>, AllocError> {
    let mut commands = Vec::new(alloc);
    for part in text.split(", ") {
        let Some(command) = read_command(part) else {
            return Ok(None);
        };
        commands.push(command)?;
    }
    Ok(Some(commands))
}

/// Returns the steps of a text, with a comma between them, or `None` if one is none.
pub(crate) fn read_steps(alloc: Global, text: &str) -> Result<Option<Vec<CursorStep>>, AllocError> {
    let mut steps = Vec::new(alloc);
    for part in text.split(", ") {
        let Some(step) = read_step(part) else {
            return Ok(None);
        };
        steps.push(step)?;
    }
    Ok(Some(steps))
}

fn put_reply(reply: &mut Reply, said: btree_session::Reply) {
    match said {
        btree_session::Reply::Nothing => reply.word("none"),
        btree_session::Reply::Value(value) => {
            reply.word("some");
            reply.number(value)
        }
        btree_session::Reply::Pair(key, value) => {
            reply.word("pair");
            reply.pair(key, value)
        }
        btree_session::Reply::Done => reply.word("ok"),
        btree_session::Reply::Found(value) => {
            reply.word("found");
            reply.number(value)
        }
        btree_session::Reply::Gap => reply.word("gap"),
        btree_session::Reply::NoPlace => reply.word("no place"),
        btree_session::Reply::Unfit => reply.word("unfit"),
        btree_session::Reply::Refused(cause) => reply.refused(cause),
    }
}

/// Adds the replies of a session, with a comma between them.
pub(crate) fn put_replies(reply: &mut Reply, replies: &[btree_session::Reply]) {
    let mut is_first = true;
    for said in replies {
        if !is_first {
            reply.glue(",");
        }
        is_first = false;
        put_reply(reply, *said);
    }
}

// Adds what a part of a line after a backslash stands for: `r` for a carriage return, `t` for a tab, `s` for a space and `xff` for the byte
// 255, each before other letters. Returns whether it begins with one of these.
fn push_escaped(bytes: &mut Vec<u8>, part: &str) -> Result<bool, AllocError> {
    let (byte, rest) = if let Some(rest) = part.strip_prefix('r') {
        (b'\r', rest)
    } else if let Some(rest) = part.strip_prefix('t') {
        (b'\t', rest)
    } else if let Some(rest) = part.strip_prefix('s') {
        (b' ', rest)
    } else if let Some(rest) = part.strip_prefix("xff") {
        (255u8, rest)
    } else {
        return Ok(false);
    };
    bytes.push(byte)?;
    bytes.extend_from_slice(rest.as_bytes())?;
    Ok(true)
}

// Adds a line without a newline. Returns whether each backslash in it is followed by a letter that it may have.
fn push_line(bytes: &mut Vec<u8>, line: &str) -> Result<bool, AllocError> {
    let mut is_first = true;
    for part in line.split('\\') {
        if is_first {
            bytes.extend_from_slice(part.as_bytes())?;
        } else if !push_escaped(bytes, part)? {
            return Ok(false);
        }
        is_first = false;
    }
    Ok(true)
}

/// Returns the bytes of a text, in which a slash, with or without a space on either side, stands for a newline, and `\r`, `\t`, `\s` and
/// `\xff` for a carriage return, a tab, a space and the byte 255. Returns `None` if another letter is after a backslash.
pub(crate) fn read_lines(alloc: Global, text: &str) -> Result<Option<Vec<u8>>, AllocError> {
    let mut bytes = Vec::new(alloc);
    let mut is_first = true;
    for part in text.split('/') {
        if !is_first {
            bytes.push(b'\n')?;
        }
        is_first = false;
        let line = part.strip_prefix(' ').unwrap_or(part);
        let line = line.strip_suffix(' ').unwrap_or(line);
        if !push_line(&mut bytes, line)? {
            return Ok(None);
        }
    }
    Ok(Some(bytes))
}

fn stop_word(end: Result<(), Stop>) -> &'static str {
    match end {
        Ok(()) => "end",
        Err(Stop::NotACommand(_)) => "not a command",
        Err(Stop::Memory) => "memory",
        Err(Stop::Input) => "input",
        Err(Stop::Output) => "output",
    }
}

/// Adds what was written, with a slash for each newline, and how it ended.
pub(crate) fn put_written(reply: &mut Reply, written: &[u8], end: Result<(), Stop>) {
    let Ok(text) = str::from_utf8(written) else {
        return reply.word("not a text");
    };
    let mut is_first = true;
    for line in text.split('\n') {
        if !is_first {
            reply.glue(" / ");
        }
        is_first = false;
        reply.glue(line);
    }
    reply.glue(stop_word(end));
    if let Err(Stop::NotACommand(number)) = end {
        reply.number(number);
    }
}
