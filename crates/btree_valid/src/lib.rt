//! Decides whether nodes of any content form a tree, by one walk that copies nothing and uses no memory but the stack.
#![tactic(auto)]

mod faults;
mod off_by_one;

pub use faults::{is_off_by_one, validate, validate_node};
