//! What the arguments of the program ask for.

/// What the program works on.
#[derive(Clone, Copy, Debug, PartialEq, Eq)]
pub struct Setup {
    /// Whether the nodes are in a table of fixed size, and not in a slab.
    pub table: bool,
    /// How many pairs there may be.
    pub limit: usize,
}
