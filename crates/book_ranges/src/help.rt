//! The language of the lines.
use book_text::Reply;

const LINES: [&str; 12] = [
    "what the lines may say, a line for each group",
    "r is a set of ranges, and m a map. new: both without numbers, over new stores",
    "open slab, open table, open odd, open gate: the stores of r and m from now on. A table has two nodes, and odd is a slab with odd numbers",
    "new N, over gate: the N-th node of each is refused, and for 0 none",
    "over slab, over refusing: the desk that the lines go to. The second one has no stores to open",
    "refuse N: on the refusing desk, the N-th node or growth of memory from now on. insist CALL: each one of the call refused in turn, and how many were",
    "each COUNT STEP CALL; CALL: the calls for each number below COUNT, in steps of STEP or down, where # is the number; the last reply of each",
    "r: len is_empty nodes list debug first last clear; contains get limited NUMBER; insert remove overlaps gaps START END",
    "m: the same, pop_first and pop_last; get_range NUMBER; insert START END VALUE; update START END NUMBER: the number is added to each value",
    "r, m: count START END: how many of the numbers are taken; first_fit START END SIZE: the least start of so many free numbers in a row, or none",
    "r, m: iter ENDS; overlapping START END ENDS. f and b take from the front and the back, and h is the hint",
    "A range is START..END, and with its value START..END=VALUE. limited is not over gate",
];

/// Adds what the lines may say.
pub(crate) fn help(reply: &mut Reply) {
    let mut is_first = true;
    for line in &LINES {
        if !is_first {
            reply.line();
        }
        is_first = false;
        reply.word(line);
    }
}
