//! Replies of each kind.
use crate::Reply;
use btree_item::{Cause, Fault};
use std::cmp::Ordering;

fn cause_word(cause: Cause) -> &'static str {
    match cause {
        Cause::Store => "store",
        Cause::Count => "count",
    }
}

fn fault_word(fault: Fault) -> &'static str {
    match fault {
        Fault::NoNode => "NoNode",
        Fault::WrongParent => "WrongParent",
        Fault::Overflowing => "Overflowing",
        Fault::Underflowing => "Underflowing",
        Fault::EmptyRoot => "EmptyRoot",
        Fault::Unsorted => "Unsorted",
        Fault::BelowSeparator => "BelowSeparator",
        Fault::AboveSeparator => "AboveSeparator",
        Fault::TooDeep => "TooDeep",
        Fault::NotBalanced => "NotBalanced",
        Fault::WrongLength => "WrongLength",
        Fault::Unreachable => "Unreachable",
        Fault::OverLimit => "OverLimit",
    }
}

impl Reply {
    /// Adds a count.
    pub fn count(&mut self, count: usize) {
        self.number(count as u64);
    }

    /// Adds a pair, as `3=30`.
    pub fn pair(&mut self, key: u64, value: u64) {
        self.number(key);
        self.glue("=");
        self.glue_number(value);
    }

    /// Adds a number, or `none`.
    pub fn value(&mut self, value: Option<u64>) {
        match value {
            Some(value) => self.number(value),
            None => self.word("none"),
        }
    }

    /// Adds a pair, or `none`.
    pub fn found(&mut self, pair: Option<(u64, u64)>) {
        match pair {
            Some((key, value)) => self.pair(key, value),
            None => self.word("none"),
        }
    }

    /// Adds `true` or `false`.
    pub fn truth(&mut self, is: bool) {
        self.word(if is { "true" } else { "false" });
    }

    /// Adds `less`, `equal` or `greater`.
    pub fn order(&mut self, order: Ordering) {
        self.word(match order {
            Ordering::Less => "less",
            Ordering::Equal => "equal",
            Ordering::Greater => "greater",
        })
    }

    /// Adds that a call was refused, and the cause.
    pub fn refused(&mut self, cause: Cause) {
        self.word("refused");
        self.word(cause_word(cause));
    }

    /// Adds that a pair was refused, the cause and the pair.
    pub fn refused_pair(&mut self, cause: Cause, key: u64, value: u64) {
        self.refused(cause);
        self.pair(key, value);
    }

    /// Adds that a key was refused, the cause and the key.
    pub fn refused_key(&mut self, cause: Cause, key: u64) {
        self.refused(cause);
        self.number(key);
    }

    /// Adds the name of a fault, or `ok`.
    pub fn validity(&mut self, found: Result<(), Fault>) {
        match found {
            Ok(()) => self.word("ok"),
            Err(fault) => self.word(fault_word(fault)),
        }
    }

    /// Adds how many are left at least and at most.
    pub fn hint(&mut self, hint: (usize, Option<usize>)) {
        self.word("hint");
        self.count(hint.0);
        match hint.1 {
            Some(most) => self.count(most),
            None => self.word("none"),
        }
    }

    /// Adds how many are left.
    pub fn left(&mut self, count: usize) {
        self.word("left");
        self.count(count);
    }

    /// Adds how many nodes are held, as `nodes 3`.
    pub fn nodes(&mut self, count: usize) {
        self.word("nodes");
        self.count(count);
    }
}
