//! What the lines are calls of.
use crate::Reply;

/// What the lines of a book are calls of.
pub trait Desk {
    /// Does the call that a line names, and adds its reply. Returns whether the line is a call.
    fn call(&mut self, words: &str, reply: &mut Reply) -> bool;

    /// Adds everything that calls can change, so that two states can be compared.
    fn content(&self, reply: &mut Reply);
}
