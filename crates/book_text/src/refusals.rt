//! A call whose memory is refused in turn.
use crate::{Desk, Reply};
use std::alloc::Global;
use test_support::Refusing;

// The most growths of one call that are refused in turn.
const MOST: u64 = 4096;

// Returns whether a reply says that the call was refused.
fn says_refused(text: &str) -> bool {
    text.contains("refused") || text.contains("no memory")
}

/// Refuses the first growth of a call, then the second, and so on, until none is refused. After each refusal everything on the desk has to be
/// as before. The reply is `kept`, how many were refused and that of the granted call, or `changed` and that of the call that changed
/// something. Returns whether the words are a call.
pub(crate) fn insist<D: Desk>(
    alloc: Global,
    memory: &Refusing<Global>,
    desk: &mut D,
    words: &str,
    reply: &mut Reply,
) -> bool {
    let mut before = Reply::new(alloc);
    desk.content(&mut before);
    for at in 1..MOST {
        let (mut said, mut after) = (Reply::new(alloc), Reply::new(alloc));
        memory.refuse(at);
        let is_call = desk.call(words, &mut said);
        let was_refused = memory.refuses() == 0;
        memory.refuse(0);
        if !is_call {
            return reply.note(&said);
        }
        desk.content(&mut after);
        if reply.note(&before) || reply.note(&said) || reply.note(&after) {
            return true;
        }
        if !was_refused {
            reply.word("kept");
            reply.number(at.wrapping_sub(1));
            reply.word(said.as_str());
            return true;
        }
        if !says_refused(said.as_str()) || before.as_str() != after.as_str() {
            reply.word("changed");
            reply.word(said.as_str());
            return true;
        }
    }
    false
}
