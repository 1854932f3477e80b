//! The commands of a session, and its replies.
ghost use Rattle.std.specs.Prelude.{Some};
ghost use Rattle.btree_session.specs.Text.{reply_text};

use btree_item::Cause;
use std::fmt;

/// A command to a session.
#[derive(Clone, Copy, Debug, PartialEq, Eq)]
pub enum Command {
    /// Insert a value at a key.
    Insert(u64, u64),
    /// Look up a key.
    Get(u64),
    /// Remove a key.
    Remove(u64),
    /// Remove all pairs.
    Clear,
    /// Hold the address of a key, or of the gap where it would be.
    Seek(u64),
    /// Go to the next pair.
    Next,
    /// Go to the previous pair.
    Prev,
    /// Insert a pair at the held address.
    Put(u64, u64),
    /// Remove the pair at the held address.
    Take,
}

/// A reply of a session to a command.
#[derive(Clone, Copy, Debug, PartialEq, Eq)]
pub enum Reply {
    /// There was no value.
    Nothing,
    /// The value that was there.
    Value(u64),
    /// The pair at the held address, or the one that was there.
    Pair(u64, u64),
    /// It is done.
    Done,
    /// The key is there, with this value, and its address is held.
    Found(u64),
    /// The key is not there, and the gap where it would be is held.
    Gap,
    /// No address is held.
    NoPlace,
    /// The key does not fit at the held address.
    Unfit,
    /// The insertion was refused.
    Refused(Cause),
}

impl fmt::Display for Reply {
    ghost output = { λ reply. Some (reply_text reply) };

    fn fmt<W: fmt::Write>(&self, f: &mut fmt::Formatter<W>) -> fmt::Result {
        match self {
            Reply::Nothing => write!(f, "none"),
            Reply::Value(value) => write!(f, "some {value}"),
            Reply::Pair(key, value) => write!(f, "pair {key} {value}"),
            Reply::Done => write!(f, "ok"),
            Reply::Found(value) => write!(f, "found {value}"),
            Reply::Gap => write!(f, "gap"),
            Reply::NoPlace => write!(f, "no place"),
            Reply::Unfit => write!(f, "unfit"),
            Reply::Refused(Cause::Store) => write!(f, "refused store"),
            Reply::Refused(Cause::Count) => write!(f, "refused count"),
        }
    }
}
