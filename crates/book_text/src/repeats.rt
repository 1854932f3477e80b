//! Calls that are done for each of many numbers.
use crate::lines::call;
use crate::words::{number, word};
use crate::{Desk, Desks, Reply};
use std::alloc::Global;
use test_support::Refusing;

// Adds words to a line, with a number in place of each `#`.
fn put_number(line: &mut Reply, words: &str, number: u64) {
    let mut is_first = true;
    for part in words.split('#') {
        if !is_first {
            line.glue_number(number);
        }
        is_first = false;
        line.glue(part);
    }
}

// Does the calls of a line, which have `; ` between them. The reply is that of the last one. Returns whether all are calls.
fn call_all<P: Desk, Q: Desk>(
    alloc: Global,
    memory: &Refusing<Global>,
    desks: &mut Desks<P, Q>,
    line: &str,
    reply: &mut Reply,
) -> bool {
    for words in line.split("; ") {
        reply.clear();
        if !call(alloc, memory, desks, words, reply) {
            return false;
        }
    }
    true
}

/// Returns the number that comes at an index, of the numbers below a count: from the last one down, or each so far after the one before,
/// modulo their number. It returns `None` if the step is neither `down` nor a number.
pub fn nth(index: u64, count: u64, step: &str) -> Option<u64> {
    if count == 0 {
        return None;
    }
    if step == "down" {
        return Some(count.wrapping_sub(1).wrapping_sub(index));
    }
    Some(index.wrapping_mul(number(step)?) % count)
}

/// Does calls for each number below a count, in an order that the step names. The reply is `always` and that of each, if all are the same, and
/// else one after another. Returns whether the words are calls.
pub(crate) fn each<P: Desk, Q: Desk>(
    alloc: Global,
    memory: &Refusing<Global>,
    desks: &mut Desks<P, Q>,
    words: &str,
    reply: &mut Reply,
) -> bool {
    let (count, rest) = word(words);
    let (step, calls) = word(rest);
    let Some(count) = number(count) else {
        return false;
    };
    let (mut line, mut first, mut all) = (Reply::new(alloc), Reply::new(alloc), Reply::new(alloc));
    let mut is_same = true;
    for index in 0..count {
        let Some(number) = nth(index, count, step) else {
            return false;
        };
        line.clear();
        put_number(&mut line, calls, number);
        let mut said = Reply::new(alloc);
        let are_calls = call_all(alloc, memory, desks, line.as_str(), &mut said);
        if reply.note(&line) || reply.note(&said) || !are_calls {
            return false;
        }
        if index == 0 {
            first.word(said.as_str());
        } else {
            all.glue(",");
        }
        is_same = is_same && said.as_str() == first.as_str();
        all.word(said.as_str());
    }
    if reply.note(&first) || reply.note(&all) {
        return false;
    }
    if is_same {
        reply.word("always");
        reply.word(first.as_str());
    } else {
        reply.word(all.as_str());
    }
    true
}
