//! Adjacent siblings.

/// Two adjacent children of a node, and the index of its item between them.
#[derive(Clone, Copy)]
pub struct Siblings {
    pub parent: usize,
    pub index: usize,
    pub left: usize,
    pub right: usize,
}
