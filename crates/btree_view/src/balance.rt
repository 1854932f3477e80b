//! How full a node is.
ghost use Rattle.std.specs.Prelude.{◌≡◌};
ghost use Rattle.btree_view.specs.Balances.{balance_with};

use btree_item::MIN_ITEMS;

/// How a node's number of items compares with what a node of a well formed tree has. A root is judged like any other node.
#[derive(Clone, Copy, Debug, PartialEq, Eq)]
pub enum Balance {
    Balanced,
    Overflow,
    /// Too few items; `true` if there is none.
    Underflow(bool),
}

/// A node has no item to spare: it would have fewer than three.
#[derive(Clone, Copy, Debug, PartialEq, Eq)]
pub struct WouldUnderflow;

impl Balance {
    /// Returns the balance of a node with this number of items, where such a node has at most `most` in a well formed tree.
    pub fn of(items: usize, most: usize) -> Balance
        ensures { result ≡ balance_with most items }
    {
        if items > most {
            Balance::Overflow
        } else if items < MIN_ITEMS {
            Balance::Underflow(items == 0)
        } else {
            Balance::Balanced
        }
    }
}
