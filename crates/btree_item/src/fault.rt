//! Faults of nodes and trees.
ghost use Rattle.std.specs.Prelude.{Some};
ghost use Rattle.btree_item.specs.Refusals.{fault_text};

use std::error::Error;
use std::fmt::{Display, Formatter, Result, Write};

/// What is wrong with a node, or with a whole tree.
#[derive(Clone, Copy, Debug, PartialEq, Eq)]
pub enum Fault {
    /// The number of a node is not used.
    NoNode,
    /// A node's parent is not the node above it.
    WrongParent,
    /// A leaf has more than eight items, or an internal node more than seven.
    Overflowing,
    /// A node other than the root has fewer than three items.
    Underflowing,
    /// The root has no item.
    EmptyRoot,
    /// The keys of a node do not ascend strictly.
    Unsorted,
    /// The first key of a node is not greater than the nearest separator before it.
    BelowSeparator,
    /// The last key of a node is not less than the nearest separator after it.
    AboveSeparator,
    /// There are more than 32 levels.
    TooDeep,
    /// Two leaves are on different levels.
    NotBalanced,
    /// The length is not the number of items.
    WrongLength,
    /// The store holds a node that is not in the tree.
    Unreachable,
    /// The length is greater than its limit.
    OverLimit,
}

impl Display for Fault {
    ghost output = { λ fault. Some (fault_text fault) };

    fn fmt<W: Write>(&self, f: &mut Formatter<W>) -> Result {
        f.write_str(match self {
            Fault::NoNode => "a node's number is not used",
            Fault::WrongParent => "a node's parent is not the node above it",
            Fault::Overflowing => "a node has too many items",
            Fault::Underflowing => "a node has too few items",
            Fault::EmptyRoot => "the root has no item",
            Fault::Unsorted => "the keys of a node do not ascend",
            Fault::BelowSeparator => "a key is not greater than the separator before it",
            Fault::AboveSeparator => "a key is not less than the separator after it",
            Fault::TooDeep => "there are too many levels",
            Fault::NotBalanced => "two leaves are on different levels",
            Fault::WrongLength => "the length is not the number of items",
            Fault::Unreachable => "a node is not in the tree",
            Fault::OverLimit => "the length is greater than its limit",
        })
    }
}

impl Error for Fault {}
