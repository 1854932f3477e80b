//! Addresses of items in the tree.
ghost use Rattle.std.specs.Prelude.{◌≡◌, ◌↔◌, Some, IsTrue};
ghost use Rattle.btree_item.specs.Address.{address_text};

use crate::Offset;
use std::fmt;
use std::marker::Model;

/// A node's number and an offset in that node.
#[derive(Clone, Copy, PartialEq, Eq)]
pub struct Address {
    pub id: usize,
    pub offset: Offset,
}

impl Model for Address {
    ghost use Rattle.btree_item.specs.Address.{Address};

    ghost Value = { Address };

    ghost view = { λ a. record { id = a.id; offset = a.offset } };

    ghost inverse = { λ v. record { id = v.id; offset = v.offset } };
}

impl Address {
    pub fn new(id: usize, offset: Offset) -> Self
        ensures { result ≡ record { id = id; offset = offset } }
    {
        Address { id, offset }
    }

    /// Returns the address of no node.
    pub fn nowhere() -> Self
        ensures { result ≡ record { id = usize.MAX; offset = Some 0 } }
    {
        Address {
            id: usize::MAX,
            offset: Offset::from(0),
        }
    }

    /// Returns whether the address is that of no node, at whatever offset.
    pub fn is_nowhere(&self) -> bool
        ensures { IsTrue result ↔ (self.now.id ≡ usize.MAX) }
    {
        self.id == usize::MAX
    }
}

impl fmt::Display for Address {
    ghost output = { λ address. Some (address_text address) };

    fn fmt<W: fmt::Write>(&self, f: &mut fmt::Formatter<W>) -> fmt::Result {
        write!(f, "@{}:{}", self.id, self.offset)
    }
}

impl fmt::Debug for Address {
    ghost debug_output = { λ address. Some (address_text address) };

    fn fmt<W: fmt::Write>(&self, f: &mut fmt::Formatter<W>) -> fmt::Result {
        write!(f, "{self}")
    }
}
