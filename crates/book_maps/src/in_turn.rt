//! Calls that keep what came before a refused element, while each node and each growth of the memory is refused in turn.
use book_text::{Desk, Reply, number, word};
use std::alloc::Global;
use test_support::Refusing;

// The most nodes and growths of one call that are refused in turn.
const MOST: u64 = 4096;

// A call of the numbers below a count: of a map with pairs of a number and ten times it, of a set with numbers.
#[derive(Drop)]
struct Call<'w> {
    name: &'w str,
    verb: &'w str,
    count: u64,
}

// Returns the name of the other map, or of the other set.
fn other_of(name: &str) -> &'static str {
    match name {
        "a" => "b",
        "b" => "a",
        "p" => "q",
        _ => "p",
    }
}

// Adds the numbers from one to before another.
fn put_numbers(text: &mut Reply, name: &str, from: u64, to: u64) {
    let is_map = name == "a" || name == "b";
    for number in from..to {
        if is_map {
            text.pair(number, number.wrapping_mul(10));
        } else {
            text.number(number);
        }
    }
}

// Does a call with the numbers from one to before another, and returns its reply, which is empty if it is no call.
fn call_with<D: Desk>(
    alloc: Global,
    desk: &mut D,
    name: &str,
    verb: &str,
    from: u64,
    to: u64,
) -> Reply {
    let (mut line, mut said) = (Reply::new(alloc), Reply::new(alloc));
    line.word(name);
    line.word(verb);
    put_numbers(&mut line, name, from, to);
    if !desk.call(line.as_str(), &mut said) {
        said.clear();
    }
    said.note(&line);
    said
}

// Makes the desk new, and puts there what the call takes its elements from.
fn set_up<D: Desk>(alloc: Global, desk: &mut D, call: &Call<'_>) {
    let mut said = Reply::new(alloc);
    desk.call("new", &mut said);
    if call.verb == "append" {
        call_with(alloc, desk, call.name, "extend", 0, 1);
        call_with(alloc, desk, other_of(call.name), "extend", 1, call.count);
    }
    if call.verb == "extend_copied" {
        call_with(alloc, desk, other_of(call.name), "extend", 0, call.count);
    }
}

// Does the call, or goes on with what is left after a number.
fn call_from<D: Desk>(alloc: Global, desk: &mut D, call: &Call<'_>, from: u64) -> Reply {
    match call.verb {
        "append" => call_with(alloc, desk, call.name, "append", 0, 0),
        "extend_copied" if from == 0 => call_with(alloc, desk, call.name, "extend_copied", 0, 0),
        "from_iter" if from == 0 => call_with(alloc, desk, call.name, "from_iter", 0, call.count),
        _ => call_with(alloc, desk, call.name, "extend", from, call.count),
    }
}

// Inserts the numbers from one to before another one by one. What is appended is taken from the other map or set.
fn insert_each<D: Desk>(alloc: Global, desk: &mut D, call: &Call<'_>, from: u64, to: u64) {
    for number in from..to {
        call_with(
            alloc,
            desk,
            call.name,
            "insert",
            number,
            number.wrapping_add(1),
        );
        if call.verb == "append" {
            call_with(alloc, desk, other_of(call.name), "pop_first", 0, 0);
        }
    }
}

fn content<D: Desk>(alloc: Global, desk: &D) -> Reply {
    let mut content = Reply::new(alloc);
    desk.content(&mut content);
    content
}

// Returns the number that a reply names as refused.
fn refused_number(said: &str) -> Option<u64> {
    let (refused, _) = word(said.strip_prefix("refused store ")?);
    match refused.split_once('=') {
        Some((key, _)) => number(key),
        None => number(refused),
    }
}

// Returns whether a reply names one number as refused, and those after it as left.
fn names_rest(alloc: Global, said: &str, call: &Call<'_>, refused: u64) -> bool {
    let mut expected = Reply::new(alloc);
    expected.word("refused store");
    put_numbers(&mut expected, call.name, refused, refused.wrapping_add(1));
    expected.word("left");
    if refused.wrapping_add(1) < call.count {
        put_numbers(
            &mut expected,
            call.name,
            refused.wrapping_add(1),
            call.count,
        );
    } else {
        expected.word("none");
    }
    said == expected.as_str()
}

// Looks at a call that was refused: those before the refused number are there as if they had been inserted one by one, and the others are
// taken afterwards.
fn is_kept<D: Desk>(alloc: Global, desk: &mut D, call: &Call<'_>, refused: u64) -> bool {
    let stopped = content(alloc, desk);
    call_with(
        alloc,
        desk,
        call.name,
        "insert",
        refused,
        refused.wrapping_add(1),
    );
    if refused.wrapping_add(1) < call.count {
        call_from(alloc, desk, call, refused.wrapping_add(1));
    }
    let whole = content(alloc, desk);
    set_up(alloc, desk, call);
    insert_each(alloc, desk, call, 0, refused);
    let plain = content(alloc, desk);
    insert_each(alloc, desk, call, refused, call.count);
    stopped.as_str() == plain.as_str() && whole.as_str() == content(alloc, desk).as_str()
}

/// Does a call as `a extend 44`, of the numbers below a count, on a new desk while the first node or growth is refused, then the second,
/// and so on, until none is. After each refusal what came before the refused number has to be there, as if inserted one by one, and the
/// others have to be left, and to be taken then. The reply is `kept`, how many were refused and that of the granted call; or `changed` and
/// that of the call that did not keep this. Returns whether the words are such a call.
pub(crate) fn in_turn<D: Desk>(
    alloc: Global,
    memory: &Refusing<Global>,
    desk: &mut D,
    words: &str,
    reply: &mut Reply,
) -> bool {
    let (name, rest) = word(words);
    let (verb, count) = word(rest);
    let Some(count) = number(count) else {
        return false;
    };
    let call = Call { name, verb, count };
    for at in 1..MOST {
        set_up(alloc, desk, &call);
        memory.refuse(at);
        let said = call_from(alloc, desk, &call, 0);
        let was_refused = memory.refuses() == 0;
        memory.refuse(0);
        if reply.note(&said) {
            return true;
        }
        let is_kept = match refused_number(said.as_str()) {
            Some(refused) => was_refused
                && names_rest(alloc, said.as_str(), &call, refused)
                && is_kept(alloc, desk, &call, refused),
            None if was_refused => false,
            None => {
                reply.word("kept");
                reply.number(at.wrapping_sub(1));
                reply.word(said.as_str());
                return said.as_str() != "";
            }
        };
        if !is_kept {
            reply.word("changed");
            reply.word(said.as_str());
            return true;
        }
    }
    false
}
