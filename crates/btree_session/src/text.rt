//! The text of replies, and pieces of the text of answers.
ghost use Rattle.std.specs.Prelude.{◌≡◌, ◌+◌, ◌≤◌, ◌++◌, length, vec_len, vec_capacity, codes, decimal, OnOk, OnErr};
ghost use Rattle.btree_session.specs.Answer.{pair_text};
ghost use Rattle.btree_session.specs.Text.{HasCapacityFor, LacksCapacityFor, Pushes, cause_text, line_of};

use crate::Reply;
use btree_item::Cause;
use std::alloc::AllocError;

/// The most bytes of a reply's line.
pub(crate) const LONGEST_LINE: usize = 47;

// The most digits of a number.
const LONGEST_NUMBER: usize = 20;

/// Appends a reply to the text, on a line of its own, in room that is there.
#[tactic(auto, using(crate::proofs::Digits::decimals))]
pub(crate) fn push_line(text: &mut Vec<u8>, reply: Reply)
    requires { HasCapacityFor text.old LONGEST_LINE }
    ensures { Pushes text.old text.new (line_of reply) }
{
    match reply {
        Reply::Nothing => push_all(text, b"none\n"),
        Reply::Value(value) => {
            push_all(text, b"some ");
            push_decimal(text, value);
            push_all(text, b"\n");
        }
        Reply::Pair(key, value) => {
            push_all(text, b"pair ");
            push_decimal(text, key);
            push_all(text, b" ");
            push_decimal(text, value);
            push_all(text, b"\n");
        }
        Reply::Done => push_all(text, b"ok\n"),
        Reply::Found(value) => {
            push_all(text, b"found ");
            push_decimal(text, value);
            push_all(text, b"\n");
        }
        Reply::Gap => push_all(text, b"gap\n"),
        Reply::NoPlace => push_all(text, b"no place\n"),
        Reply::Unfit => push_all(text, b"unfit\n"),
        Reply::Refused(cause) => {
            push_all(text, b"refused ");
            push_all(text, word_of(cause));
            push_all(text, b"\n");
        }
    }
}

/// Appends bytes to the text.
pub(crate) fn push_text(text: &mut Vec<u8>, bytes: &[u8]) -> Result<(), AllocError>
    ensures put { OnOk result (Pushes text.old text.new bytes.now) }
    ensures kept { OnErr result (text.new.items ≡ text.old.items) }
    ensures full { OnErr result (LacksCapacityFor text.old (length bytes.now)) }
    ensures capacity { vec_capacity text.old ≤ vec_capacity text.new }
{
    text.extend_from_slice(bytes)
}

/// Appends a number to the text.
#[tactic(auto, using(crate::proofs::Digits::decimals))]
pub(crate) fn push_number(text: &mut Vec<u8>, number: u64) -> Result<(), AllocError>
    ensures put { OnOk result (Pushes text.old text.new (decimal number)) }
    ensures kept { OnErr result (text.new.items ≡ text.old.items) }
    ensures full { OnErr result (LacksCapacityFor text.old LONGEST_NUMBER) }
    ensures capacity { vec_capacity text.old ≤ vec_capacity text.new }
{
    text.reserve(LONGEST_NUMBER)?;
    push_decimal(text, number);
    Ok(())
}

/// Appends a key to the text, with at most one byte before and after it.
#[tactic(auto, using(crate::proofs::Digits::decimals))]
pub(crate) fn push_key(
    text: &mut Vec<u8>,
    before: &[u8],
    key: u64,
    after: &[u8],
) -> Result<(), AllocError>
    requires before { length before.now ≤ 1 }
    requires after { length after.now ≤ 1 }
    ensures put { OnOk result (Pushes text.old text.new (before.now ++ decimal key ++ after.now)) }
    ensures kept { OnErr result (text.new.items ≡ text.old.items) }
    ensures full { OnErr result (LacksCapacityFor text.old (LONGEST_NUMBER + 2)) }
    ensures capacity { vec_capacity text.old ≤ vec_capacity text.new }
{
    text.reserve(LONGEST_NUMBER + 2)?;
    push_all(text, before);
    push_decimal(text, key);
    push_all(text, after);
    Ok(())
}

/// Appends a pair to the text, with at most one byte before it.
#[tactic(auto, using(crate::proofs::Digits::decimals))]
pub(crate) fn push_pair(
    text: &mut Vec<u8>,
    before: &[u8],
    key: u64,
    value: u64,
) -> Result<(), AllocError>
    requires { length before.now ≤ 1 }
    ensures put { OnOk result (Pushes text.old text.new (before.now ++ pair_text (key, value))) }
    ensures kept { OnErr result (text.new.items ≡ text.old.items) }
    ensures full { OnErr result (LacksCapacityFor text.old (LONGEST_NUMBER + LONGEST_NUMBER + 2)) }
    ensures capacity { vec_capacity text.old ≤ vec_capacity text.new }
{
    text.reserve(LONGEST_NUMBER + LONGEST_NUMBER + 2)?;
    push_all(text, before);
    push_decimal(text, key);
    push_all(text, b"=");
    push_decimal(text, value);
    Ok(())
}

fn word_of(cause: Cause) -> &'static [u8]
    ensures word { result.now ≡ cause_text cause }
    ensures short { length result.now ≤ 5 }
{
    match cause {
        Cause::Store => b"store",
        Cause::Count => b"count",
    }
}

fn push_all(text: &mut Vec<u8>, bytes: &[u8])
    requires { HasCapacityFor text.old (length bytes.now) }
    ensures items { Pushes text.old text.new bytes.now }
    ensures len { vec_len text.new ≡ vec_len text.old + length bytes.now }
    ensures capacity { vec_capacity text.old ≤ vec_capacity text.new }
{
    let Ok(()) = text.extend_from_slice(bytes) else {
        unreachable!()
    };
}

#[tactic(auto, using(crate::proofs::Digits::decimals))]
fn push_decimal(text: &mut Vec<u8>, number: u64)
    requires { HasCapacityFor text.old (length (decimal number)) }
    ensures items { Pushes text.old text.new (decimal number) }
    ensures len { vec_len text.new ≡ vec_len text.old + length (decimal number) }
    ensures capacity { vec_capacity text.old ≤ vec_capacity text.new }
{
    if number < 10 {
        text.push_reserved(b'0' + number as u8);
        return;
    }
    push_decimal(text, number / 10);
    text.push_reserved(b'0' + (number % 10) as u8);
}
